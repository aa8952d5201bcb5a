//! Why a line is refused.

use rdl_edit::refusal::Refusal;
use rdl_explain::explain::LineFault;
use rdl_rewrite::edit::PatchRefusal;
use rdl_run::reply::LineRefusal;

fn patch_refusal(refusal: &Refusal) -> PatchRefusal {
    match refusal {
        Refusal::NoSuchPath => PatchRefusal::NoSuchPath,
        Refusal::ThroughNamedType => PatchRefusal::ThroughNamedType,
        Refusal::NotAnInstance => PatchRefusal::NotAnInstance,
        Refusal::NotAddable => PatchRefusal::NotAddable,
        Refusal::NoSuchSibling => PatchRefusal::NoSuchSibling,
        Refusal::NameTaken => PatchRefusal::NameTaken,
        Refusal::Reserved => PatchRefusal::Reserved,
        Refusal::InUse => PatchRefusal::InUse,
        Refusal::NotSet => PatchRefusal::NotSet,
        Refusal::Faulty(_) | Refusal::Memory => PatchRefusal::Memory,
    }
}

fn edit_fault(refusal: &Refusal) -> LineFault<'_> {
    match refusal {
        Refusal::Faulty(fault) => LineFault::Faulty(fault),
        other => LineFault::Edit(patch_refusal(other)),
    }
}

/// The refusal as it is explained.
pub(crate) fn line_fault(refusal: &LineRefusal) -> LineFault<'_> {
    match refusal {
        LineRefusal::Command(fault) => LineFault::Command(*fault),
        LineRefusal::Text(fault) => LineFault::Text(*fault),
        LineRefusal::Edit(refusal) => edit_fault(refusal),
        LineRefusal::HistoryFull => LineFault::HistoryFull,
        LineRefusal::NothingToUndo => LineFault::NothingToUndo,
        LineRefusal::NothingToRedo => LineFault::NothingToRedo,
    }
}
