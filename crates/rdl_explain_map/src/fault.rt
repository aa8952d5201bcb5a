//! What is told of a fault of a map.

use crate::stretch::Stretch;
use crate::telling::Telling;
use crate::view::View;
use crate::{fixed, item_fault, row_fault};
use rdl_tree::fault::{Fault, FaultKind};
use std::alloc::AllocError;

/// What is told of a fault of the map; nothing is marked.
pub fn fault_telling(view: View<'_>, fault: &Fault) -> Result<Telling, AllocError> {
    let mut telling = Telling::new(view.alloc, Stretch::new(0, 0), fixed::fault(fault.kind))?;
    let at = fault.address.as_slice();
    let told = &mut telling;
    match fault.kind {
        FaultKind::NameTwice | FaultKind::AssignedTwice => item_fault::twice(view, told, at)?,
        FaultKind::UnknownType => item_fault::unknown_type(view, told, at)?,
        FaultKind::KindNotAllowed => item_fault::kind_not_allowed(view, told, at)?,
        FaultKind::UnknownProperty => item_fault::unknown_property(view, told, at)?,
        FaultKind::NotOfKind => item_fault::not_of_kind(view, told, at)?,
        FaultKind::WrongValue => item_fault::wrong_value(view, told, at)?,
        FaultKind::Exclusive => item_fault::exclusive(view, told, at)?,
        FaultKind::NoSuchTarget => item_fault::no_such_target(view, told, at)?,
        FaultKind::NotDynamic => item_fault::not_dynamic(view, told, at)?,
        FaultKind::PartNotAllowed => item_fault::part_not_allowed(view, told, at)?,
        FaultKind::OutOfRange => item_fault::out_of_range(view, told, at)?,
        FaultKind::NoTop => item_fault::no_top(view, told)?,
        FaultKind::TooManyLevels | FaultKind::TooManyRows | FaultKind::MapTooLarge => {
            told.note(limit(fault.kind))?;
        }
        FaultKind::Memory | FaultKind::DescriptionTooLarge => told.note(limit(fault.kind))?,
        _ => of_row(view, told, fault.kind, at)?,
    }
    Ok(telling)
}

fn of_row(
    view: View<'_>,
    telling: &mut Telling,
    kind: FaultKind,
    at: &[usize],
) -> Result<(), AllocError> {
    match kind {
        FaultKind::EmptyComponent => row_fault::empty_component(view, telling, at),
        FaultKind::AccessTooWide => row_fault::access_too_wide(view, telling, at),
        FaultKind::StrideTooSmall => row_fault::stride_too_small(view, telling, at),
        FaultKind::AddressOverlap => row_fault::address_overlap(view, telling, at),
        FaultKind::FieldPastRegister => row_fault::field_past_register(view, telling, at),
        FaultKind::FieldOverlap => row_fault::field_overlap(view, telling, at),
        FaultKind::ResetTooWide => row_fault::reset_too_wide(view, telling, at),
        _ => Ok(()),
    }
}

/// What to do about a limit.
fn limit(kind: FaultKind) -> &'static str {
    match kind {
        FaultKind::TooManyLevels => "a path from the top has at most 16 names: nest less deep",
        FaultKind::TooManyRows =>
            "`list` has at most 65,536 lines: take arrays in the place of single instances",
        FaultKind::MapTooLarge =>
            "the top has at most 2^40 bytes: look for an address or a stride that is too large",
        FaultKind::Memory => "free memory, or take a smaller map",
        _ => "bodies nest 16 deep, and a map has at most 65,536 items and a weight of 8,388,608",
    }
}
