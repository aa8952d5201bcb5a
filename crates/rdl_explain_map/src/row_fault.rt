//! Faults of what the top holds: E14 to E23, and E25.

use crate::extents::{Extent, extents_in, next_multiple, number_at, value_at, widths};
use crate::hex::{BitRange, ByteRange, Hex};
use crate::telling::Telling;
use crate::view::{View, address_of, around, behind};
use rdl_text::token::Number;
use rdl_tree::address::Address;
use rdl_tree::description::Item;
use rdl_tree::property::Property;
use rdl_tree::shell::Shell;
use rdl_tree::value::{Value, Word};
use std::alloc::{AllocError, Global};

fn shell_at<'a>(view: View<'a>, address: &[usize]) -> Option<&'a Shell> {
    match view.item(address)? {
        Item::Instance(shell, _) => Some(shell),
        _ => None,
    }
}

/// Where the component of an instance stands.
fn component_at(view: View<'_>, address: &[usize]) -> Address {
    match view.type_of(address) {
        Some(defined) => defined,
        None => address_of(address),
    }
}

/// The extent of an instance among those of its body.
fn own_extent(extents: &[Extent], number: usize) -> Option<Extent> {
    extents
        .iter()
        .copied()
        .find(|extent| extent.number == number)
}

/// E16.
pub fn empty_component(
    view: View<'_>,
    telling: &mut Telling,
    address: &[usize],
) -> Result<(), AllocError> {
    write!(
        telling.what,
        ": {} has no instance inside",
        view.path(address)
    )?;
    telling.note("put a register into it, or leave it out")
}

/// E18.
pub fn access_too_wide(
    view: View<'_>,
    telling: &mut Telling,
    address: &[usize],
) -> Result<(), AllocError> {
    let component = component_at(view, address);
    let (regwidth, access) = widths(view, component.as_slice());
    let path = view.path(address);
    if access > regwidth {
        write!(
            telling.what,
            ": {path} has {regwidth} bits, and is accessed by {access}"
        )?;
    }
    let mut note = String::new(view.alloc);
    write!(
        note,
        "set `accesswidth` to {regwidth} or less, or `regwidth` to {access}"
    )?;
    telling.note(note.as_str())
}

/// E19.
pub fn stride_too_small(
    view: View<'_>,
    telling: &mut Telling,
    address: &[usize],
) -> Result<(), AllocError> {
    let (holder, number) = around(address);
    let extents = extents_in(view, &address_of(holder))?;
    let extent = match &extents {
        Some(extents) => own_extent(extents.as_slice(), number),
        None => None,
    };
    let (Some(extent), Some(shell)) = (extent, shell_at(view, address)) else {
        return telling.note("make the stride as large as an element, or leave it out");
    };
    let stride = shell.stride().unwrap_or(0);
    write!(
        telling.what,
        ": an element of {} has {} bytes, and they are {} apart",
        view.path(address),
        Hex(extent.size),
        Hex(stride)
    )?;
    let mut note = String::new(view.alloc);
    write!(note, "`+= {}` is the least stride", Hex(extent.size))?;
    telling.note(note.as_str())
}

/// Whether software only reads the one and only writes the other.
fn go_together(view: View<'_>, one: &[usize], other: &[usize]) -> bool {
    let access = |address: &[usize]| {
        let component = component_at(view, address);
        match value_at(view, component.as_slice(), Property::Sw) {
            Some(Value::Word(word)) => *word,
            _ => Word::Rw,
        }
    };
    match (access(one), access(other)) {
        (Word::R, Word::W | Word::W1) => true,
        (Word::W | Word::W1, Word::R) => true,
        _ => false,
    }
}

/// The first instance before an item that lies where it lies.
fn partner(
    view: View<'_>,
    holder: &Address,
    extents: &[Extent],
    own: Extent,
    are_fields: bool,
) -> Option<Extent> {
    let address = behind(holder, own.number)?;
    for extent in extents {
        if extent.number < own.number && extent.meets(&own) {
            let other = behind(holder, extent.number)?;
            if !are_fields || !go_together(view, address.as_slice(), other.as_slice()) {
                return Some(*extent);
            }
        }
    }
    None
}

/// The least address from that of an instance on at which it meets no other that stands before it or has an address.
fn next_free(alloc: Global, extents: &[Extent], own: Extent) -> Result<Number, AllocError> {
    let mut others = Vec::new(alloc);
    for other in extents {
        if other.number != own.number && (other.is_fixed || other.number < own.number) {
            others.push(*other)?;
        }
    }
    others.sort_unstable_by_key(|other: &Extent| other.start);
    let step = own.step.max(1);
    let length = own.end.saturating_sub(own.start);
    let mut start = next_multiple(own.start, step);
    for other in others.as_slice() {
        let moved = Extent {
            start,
            end: start.saturating_add(length),
            ..own
        };
        if other.meets(&moved) {
            start = next_multiple(other.end.max(start.saturating_add(1)), step);
        }
    }
    Ok(start)
}

/// E20.
pub fn address_overlap(
    view: View<'_>,
    telling: &mut Telling,
    address: &[usize],
) -> Result<(), AllocError> {
    let (holder, number) = around(address);
    let holder = address_of(holder);
    let Some(extents) = extents_in(view, &holder)? else {
        return telling.note("give it another address, or none: `list` shows which are free");
    };
    let extents = extents.as_slice();
    let Some(own) = own_extent(extents, number) else {
        return Ok(());
    };
    let Some(other) = partner(view, &holder, extents, own, false) else {
        return telling.note("give it another address, or none: `list` shows which are free");
    };
    let (Some(at), Some(shell)) = (behind(&holder, other.number), shell_at(view, address)) else {
        return Ok(());
    };
    let Some(partner) = shell_at(view, at.as_slice()) else {
        return Ok(());
    };
    write!(
        telling.what,
        ": {} at {} meets {} at {}",
        shell.name(),
        ByteRange {
            start: own.start,
            end: own.end
        },
        partner.name(),
        ByteRange {
            start: other.start,
            end: other.end
        }
    )?;
    let mut cure = String::new(view.alloc);
    let free = Hex(next_free(view.alloc, extents, own)?);
    write!(
        cure,
        "the next free address in {} is {free}",
        view.path(holder.as_slice())
    )?;
    view.note_standing(telling, at.as_slice(), cure.as_str())
}

/// E21.
pub fn field_past_register(
    view: View<'_>,
    telling: &mut Telling,
    address: &[usize],
) -> Result<(), AllocError> {
    let (holder, number) = around(address);
    let holder = address_of(holder);
    let (regwidth, _) = widths(view, holder.as_slice());
    let extents = extents_in(view, &holder)?;
    let own = match &extents {
        Some(extents) => own_extent(extents.as_slice(), number),
        None => None,
    };
    let (Some(own), Some(shell)) = (own, shell_at(view, address)) else {
        return telling.note("make the field smaller, or `regwidth` greater");
    };
    write!(
        telling.what,
        ": {} has the bits {}, and {} has {regwidth}",
        shell.name(),
        BitRange {
            start: own.start,
            end: own.end
        },
        view.path(holder.as_slice())
    )?;
    let mut note = String::new(view.alloc);
    let last = regwidth.saturating_sub(1);
    write!(
        note,
        "the highest bit is {last}; `regwidth` takes 8, 16, 32, 64 or 128"
    )?;
    telling.note(note.as_str())
}

/// E22.
pub fn field_overlap(
    view: View<'_>,
    telling: &mut Telling,
    address: &[usize],
) -> Result<(), AllocError> {
    let (holder, number) = around(address);
    let holder = address_of(holder);
    let Some(extents) = extents_in(view, &holder)? else {
        return Ok(());
    };
    let extents = extents.as_slice();
    let Some(own) = own_extent(extents, number) else {
        return Ok(());
    };
    let Some(other) = partner(view, &holder, extents, own, true) else {
        return telling.note("give it other bits");
    };
    let (Some(at), Some(shell)) = (behind(&holder, other.number), shell_at(view, address)) else {
        return Ok(());
    };
    let Some(partner) = shell_at(view, at.as_slice()) else {
        return Ok(());
    };
    write!(
        telling.what,
        ": {} has the bits {}, and {} has {}",
        shell.name(),
        BitRange {
            start: own.start,
            end: own.end
        },
        partner.name(),
        BitRange {
            start: other.start,
            end: other.end
        }
    )?;
    let mut cure = String::new(view.alloc);
    let free = next_free(view.alloc, extents, own)?;
    write!(
        cure,
        "the next free bit in {} is {free}",
        view.path(holder.as_slice())
    )?;
    view.note_standing(telling, at.as_slice(), cure.as_str())
}

/// The reset of the field at an address, as far as its own body and those around it tell.
fn reset_of(view: View<'_>, address: &[usize], shell: &Shell) -> Option<Number> {
    match shell.reset() {
        Some(reset) => Some(reset),
        None => {
            let component = component_at(view, address);
            number_at(view, component.as_slice(), Property::Reset)
        }
    }
}

/// How many bits a number needs.
fn bits_of(number: Number) -> u32 {
    128u32.saturating_sub(number.leading_zeros())
}

/// E23.
pub fn reset_too_wide(
    view: View<'_>,
    telling: &mut Telling,
    address: &[usize],
) -> Result<(), AllocError> {
    let (holder, number) = around(address);
    let extents = extents_in(view, &address_of(holder))?;
    let own = match &extents {
        Some(extents) => own_extent(extents.as_slice(), number),
        None => None,
    };
    let (Some(own), Some(shell)) = (own, shell_at(view, address)) else {
        return telling.note("make the reset smaller, or the field wider");
    };
    let width = own.end.saturating_sub(own.start);
    let bits = BitRange {
        start: own.start,
        end: own.end,
    };
    match reset_of(view, address, shell) {
        Some(reset) if Number::from(bits_of(reset)) > width => {
            write!(
                telling.what,
                ": {} {bits} has {width} bits, and its reset {} needs {}",
                shell.name(),
                Hex(reset),
                bits_of(reset)
            )?;
            telling.note("make the reset smaller, or the field wider")
        }
        _ => {
            write!(telling.what, ": {} {bits} has {width} bits", shell.name())?;
            telling.note("the reset comes from an assignment `..->reset` further out")
        }
    }
}
