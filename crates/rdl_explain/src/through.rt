//! Paths that go through an instance of a named type: P2.

use crate::edit::segment_stretch;
use rdl_explain_map::path_text::SegmentText;
use rdl_explain_map::stretch::words_from;
use rdl_explain_map::telling::Telling;
use rdl_explain_map::values::property_named;
use rdl_explain_map::view::{View, behind};
use rdl_rewrite::edit::Edit;
use rdl_scope::types::reference;
use rdl_text::name::Name;
use rdl_tree::address::Address;
use rdl_tree::path::Segment;
use std::alloc::AllocError;
use std::str;

/// The first instance of a named type on a way: its address, and how many segments lead to it.
fn first_named(view: View<'_>, segments: &[Segment]) -> Option<(Address, usize)> {
    let mut address = Address::new();
    let mut body = Some(&view.description.items);
    let mut taken = 0usize;
    for segment in segments {
        let number = body?.position(segment)?;
        address = behind(&address, number)?;
        taken = taken.saturating_add(1);
        if reference(body?.item(number)).is_some() {
            return Some((address, taken));
        }
        body = body?.inner(number);
    }
    None
}

/// Where what the rest of a path names stands, from an instance on, through types.
fn inside_types(view: View<'_>, from: &Address, rest: &[Segment]) -> Option<Address> {
    let mut here = view.type_of(from.as_slice())?;
    for segment in rest {
        if let Some(defined) = view.type_of(here.as_slice()) {
            here = defined;
        }
        let number = view.body(here.as_slice())?.position(segment)?;
        here = behind(&here, number)?;
    }
    Some(here)
}

/// The names of the segments with dots between them.
fn push_target(text: &mut String, segments: &[Segment]) -> Result<(), AllocError> {
    for (number, segment) in segments.iter().enumerate() {
        if number > 0 {
            text.push_str(".")?;
        }
        write!(text, "{}", SegmentText(segment))?;
    }
    Ok(())
}

/// Whether a property of this name is assigned from outside.
fn is_dynamic(name: &Name) -> bool {
    match property_named(name.as_str()) {
        Some(property) => property.dynamic(),
        None => false,
    }
}

/// Notes the assignment that changes this instance alone.
fn note_assign(
    view: View<'_>,
    telling: &mut Telling,
    line: &[u8],
    edit: &Edit,
    before: usize,
) -> Result<(), AllocError> {
    let segments = edit.path().as_slice();
    let (Some(holder), Some(target)) = (segments.get(..before), segments.get(before..)) else {
        return Ok(());
    };
    let property = match edit {
        Edit::SetOwn(_, name, _) if is_dynamic(name) => "",
        Edit::SetReset(..) => "reset ",
        _ => return Ok(()),
    };
    let mut note = String::from_str(view.alloc, "for this instance alone: `assign ")?;
    for segment in holder {
        write!(note, "/{}", SegmentText(segment))?;
    }
    note.push_str(if holder.is_empty() { "/ " } else { " " })?;
    push_target(&mut note, target)?;
    let rest = str::from_utf8(words_from(line, 2).of(line)).unwrap_or("");
    write!(note, " {property}{rest}`")?;
    telling.note(note.as_str())
}

/// What is told of a line whose path goes through a named type.
pub(crate) fn through_telling(
    view: View<'_>,
    line: &[u8],
    edit: &Edit,
) -> Result<Telling, AllocError> {
    let segments = edit.path().as_slice();
    let what = "P2 through a named type";
    let Some((named, taken)) = first_named(view, segments) else {
        return Telling::new(view.alloc, words_from(line, 1), what);
    };
    let before = taken.saturating_sub(1);
    let mut telling = Telling::new(view.alloc, segment_stretch(line, before), what)?;
    let path = view.path(named.as_slice());
    if let Some(name) = reference(view.item(named.as_slice())) {
        write!(telling.what, ": {path} is of the type {name}")?;
    }
    let rest = segments.get(taken..).unwrap_or(&[]);
    if let Some(found) = inside_types(view, &named, rest) {
        let found = match view.type_of(found.as_slice()) {
            Some(defined) if !edit.is_of_item() => defined,
            _ => found,
        };
        let mut note = String::new(view.alloc);
        write!(
            note,
            "`{}` is its path, and changes all instances of the type",
            view.path(found.as_slice())
        )?;
        telling.note(note.as_str())?;
    } else if let Some(defined) = view.type_of(named.as_slice()) {
        let mut note = String::new(view.alloc);
        write!(note, "the type is `{}`", view.path(defined.as_slice()))?;
        telling.note(note.as_str())?;
    }
    note_assign(view, &mut telling, line, edit, before)?;
    Ok(telling)
}
