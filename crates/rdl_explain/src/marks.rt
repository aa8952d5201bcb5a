//! Which part of a line made the map faulty.

use rdl_explain_map::stretch::{Stretch, nth_word, statement_at, trimmed_len, words_from};
use rdl_explain_map::view::{View, behind};
use rdl_parse::parse::parse;
use rdl_rewrite::edit::Edit;
use rdl_script::request::{Request, request_of};
use rdl_tree::address::Address;
use rdl_tree::fault::{Fault, FaultKind};
use std::alloc::AllocError;
use std::str;

/// The part of a line that asks for this edit which is to blame for the fault of the edited map.
pub(crate) fn mark_of_fault(
    view: View<'_>,
    line: &[u8],
    edit: &Edit,
    fault: &Fault,
) -> Result<Stretch, AllocError> {
    match edit {
        Edit::Add(..) => added_mark(view, line, edit, fault),
        Edit::SetOwn(..) | Edit::SetDefault(..) => Ok(assigned_mark(line, 2, fault.kind)),
        Edit::Assign(..) => Ok(match fault.kind {
            FaultKind::NoSuchTarget => nth_word(line, 2),
            kind => assigned_mark(line, 3, kind),
        }),
        Edit::Remove(_) => Ok(nth_word(line, 1)),
        _ => Ok(words_from(line, 2)),
    }
}

/// The property, or the value behind it.
fn assigned_mark(line: &[u8], number: usize, kind: FaultKind) -> Stretch {
    match kind {
        FaultKind::WrongValue | FaultKind::ResetTooWide => words_from(
            line,
            number.saturating_add(1),
        ),
        _ => nth_word(line, number),
    }
}

/// The address of the item among those of the text that is at fault.
fn address_in_text(view: View<'_>, edit: &Edit, fault: &Fault) -> Option<Address> {
    let Edit::Add(path, place, added) = edit else {
        return None;
    };
    let holder = view.description.find(path).ok()?;
    let body = view.description.body(&holder)?;
    let first = place.number(body)?;
    let rest = fault.address.as_slice().strip_prefix(holder.as_slice())?;
    let number = rest.first()?.checked_sub(first)?;
    if number >= added.len() {
        return None;
    }
    let mut address = Address::new().inside(number);
    for number in rest.get(1..)? {
        address = behind(&address, *number)?;
    }
    Some(address)
}

/// The statement of the text in which the fault shows, or the whole text.
fn added_mark(
    view: View<'_>,
    line: &[u8],
    edit: &Edit,
    fault: &Fault,
) -> Result<Stretch, AllocError> {
    let Request::Add(_, _, text) = request_of(view.alloc, line)? else {
        return Ok(words_from(line, 3));
    };
    let start = trimmed_len(line).saturating_sub(text.len());
    let whole = Stretch::new(start, text.len());
    let (Ok(text), Some(address)) = (str::from_utf8(text), address_in_text(view, edit, fault))
    else {
        return Ok(whole);
    };
    let Ok((_, places)) = parse(view.alloc, text) else {
        return Ok(whole);
    };
    let Some((_, column)) = places.at(&address) else {
        return Ok(whole);
    };
    let at = start.saturating_add(column.saturating_sub(1));
    let statement = statement_at(line, at);
    Ok(narrowed(line, statement, fault.kind))
}

/// Of an instance that overlaps another the address alone, if it says one.
fn narrowed(line: &[u8], statement: Stretch, kind: FaultKind) -> Stretch {
    if kind != FaultKind::AddressOverlap {
        return statement;
    }
    match statement.of(line).iter().position(|byte| *byte == b'@') {
        Some(at) => Stretch::between(statement.start.saturating_add(at), statement.end()),
        None => statement,
    }
}
