//! Edits that are refused before the edited map is judged: X1 to X8.

use crate::taken::taken_telling;
use crate::through::through_telling;
use crate::uses::uses_of;
use rdl_explain_map::near::Nearest;
use rdl_explain_map::path_text::SegmentText;
use rdl_explain_map::stretch::{Stretch, nth_word, words_from};
use rdl_explain_map::telling::Telling;
use rdl_explain_map::view::{View, behind};
use rdl_rewrite::edit::{Edit, PatchRefusal};
use rdl_rewrite::place::Place;
use rdl_text::name::Name;
use rdl_tree::address::Address;
use rdl_tree::description::{Body, Item};
use rdl_tree::path::Segment;
use std::alloc::AllocError;

/// What is told of a line whose edit is refused.
pub(crate) fn edit_telling(
    view: View<'_>,
    line: &[u8],
    edit: &Edit,
    refusal: PatchRefusal,
) -> Result<Telling, AllocError> {
    match refusal {
        PatchRefusal::NoSuchPath => no_such_path(view, line, edit),
        PatchRefusal::ThroughNamedType => through_telling(view, line, edit),
        PatchRefusal::NoSuchSibling => no_such_sibling(view, line, edit),
        PatchRefusal::NameTaken => taken_telling(view, line, edit),
        PatchRefusal::Reserved => reserved(view, line),
        PatchRefusal::InUse => in_use(view, line, edit),
        PatchRefusal::NotSet => not_set(view, line, edit),
        PatchRefusal::NotAnInstance => not_an_instance(view, line, edit),
        PatchRefusal::NotAddable => not_addable(view, line),
        PatchRefusal::TooDeep => {
            Telling::new(view.alloc, words_from(line, 1), "E25 description too large")
        }
        PatchRefusal::Memory => Telling::new(view.alloc, words_from(line, 0), "X10 out of memory"),
    }
}

/// The stretch of a segment of the path in a line: the path's word, and how many segments stand before.
pub(crate) fn segment_stretch(line: &[u8], number: usize) -> Stretch {
    let word = nth_word(line, 1);
    let path = word.of(line);
    let mut start = word.start.saturating_add(1);
    let mut seen = 0usize;
    for (at, byte) in path.iter().enumerate() {
        if at > 0 && *byte == b'/' {
            if seen == number {
                return Stretch::between(start, word.start.saturating_add(at));
            }
            seen = seen.saturating_add(1);
            start = word.start.saturating_add(at).saturating_add(1);
        }
    }
    if seen == number {
        Stretch::between(start, word.end())
    } else {
        word
    }
}

/// How far a path leads: the address, and how many segments it took.
#[derive(Drop)]
struct Reached<'a> {
    address: Address,
    taken: usize,
    /// The body in which the next segment isn't found.
    body: Option<&'a Body>,
}

fn reach<'a>(view: View<'a>, segments: &[Segment]) -> Reached<'a> {
    let mut here = Reached {
        address: Address::new(),
        taken: 0,
        body: Some(&view.description.items),
    };
    for segment in segments {
        let Some(body) = here.body else {
            return here;
        };
        let Some(number) = body.position(segment) else {
            return here;
        };
        let Some(address) = behind(&here.address, number) else {
            return here;
        };
        here = Reached {
            address,
            taken: here.taken.saturating_add(1),
            body: body.inner(number),
        };
    }
    here
}

/// The name of a definition or an instance, and whether it is a definition.
fn name_of(item: &Item) -> Option<(&Name, bool)> {
    match item {
        Item::Define(name, _) => Some((name, true)),
        Item::Instance(shell, _) => Some((shell.name(), false)),
        Item::Own(..) | Item::Default(..) | Item::Dynamic(..) => None,
    }
}

fn parts(segment: &Segment) -> (&Name, bool) {
    match segment {
        Segment::Def(name) => (name, true),
        Segment::Inst(name) => (name, false),
    }
}

fn no_such_path(view: View<'_>, line: &[u8], edit: &Edit) -> Result<Telling, AllocError> {
    let segments = edit.path().as_slice();
    let end = reach(view, segments);
    let mark = segment_stretch(line, end.taken);
    let mut telling = Telling::new(view.alloc, mark, "P1 no such name")?;
    let Some(segment) = segments.get(end.taken) else {
        return Ok(telling);
    };
    let path = view.path(end.address.as_slice());
    write!(telling.what, ": {} isn't in {path}", SegmentText(segment))?;
    if let Some(body) = end.body {
        note_near(view, &mut telling, body, segment)?;
    }
    Ok(telling)
}

/// The name of a body's definitions, or of its other items, that is nearest to a written one.
fn nearest<'a>(
    view: View<'_>,
    body: &'a Body,
    written: &str,
    is_definition: bool,
) -> Result<Option<&'a str>, AllocError> {
    let mut nearest = Nearest::to(written);
    for item in body.as_slice() {
        if let Some((name, defines)) = name_of(item) {
            if defines == is_definition {
                nearest.see(view.alloc, name.as_str())?;
            }
        }
    }
    Ok(nearest.best())
}

/// Says that a name is one of the other sort.
fn push_other_sort(note: &mut String, name: &str, is_definition: bool) -> Result<(), AllocError> {
    if is_definition {
        write!(note, "`{name}` is an instance there: write it without `$`")
    } else {
        write!(note, "`{name}` is a definition there: write `${name}`")
    }
}

/// Asks whether a name is meant.
fn push_meant(note: &mut String, name: &str, is_definition: bool) -> Result<(), AllocError> {
    let mark = if is_definition { "$" } else { "" };
    write!(note, "did you mean `{mark}{name}`?")
}

/// Notes which name of a body is meant by a segment.
fn note_near(
    view: View<'_>,
    telling: &mut Telling,
    body: &Body,
    segment: &Segment,
) -> Result<(), AllocError> {
    let (written, is_definition) = parts(segment);
    let written = written.as_str();
    let same = nearest(view, body, written, is_definition)?;
    let other = nearest(view, body, written, !is_definition)?;
    let mut note = String::new(view.alloc);
    match (same, other) {
        (_, Some(name)) if name == written => push_other_sort(&mut note, name, is_definition)?,
        (Some(name), _) => push_meant(&mut note, name, is_definition)?,
        (None, Some(name)) => push_meant(&mut note, name, !is_definition)?,
        (None, None) => push_names(&mut note, body)?,
    }
    telling.note(note.as_str())
}

/// How many names of a body are listed.
const LISTED: usize = 8;

/// What a body has.
fn push_names(note: &mut String, body: &Body) -> Result<(), AllocError> {
    let mut count = 0usize;
    for item in body.as_slice() {
        if let Some((name, defines)) = name_of(item) {
            if count < LISTED {
                note.push_str(if count == 0 { "it has " } else { ", " })?;
                note.push_str(if defines { "$" } else { "" })?;
                note.push_str(name.as_str())?;
            }
            count = count.saturating_add(1);
        }
    }
    if count == 0 {
        note.push_str("it has no items with names")?;
    } else if count > LISTED {
        write!(note, " and {} more", count.saturating_sub(LISTED))?;
    }
    Ok(())
}

fn place_of(edit: &Edit) -> Option<&Place> {
    match edit {
        Edit::Add(_, place, _) | Edit::Move(_, place) => Some(place),
        _ => None,
    }
}

/// The body in which the edit puts something.
fn body_of<'a>(view: View<'a>, edit: &Edit) -> Option<(Address, &'a Body)> {
    let segments = edit.path().as_slice();
    let end = if edit.is_of_item() {
        match segments.split_last() {
            Some((_, holder)) => reach(view, holder),
            None => return None,
        }
    } else {
        reach(view, segments)
    };
    Some((end.address, end.body?))
}

/// The sibling that an edit names.
fn sibling_of(edit: &Edit) -> Option<&Segment> {
    match place_of(edit)? {
        Place::Before(segment) => Some(segment),
        Place::After(segment) => Some(segment),
        Place::First => None,
        Place::Last => None,
    }
}

/// Tells why the body at an address has no such sibling of what moves.
fn note_sibling(
    view: View<'_>,
    telling: &mut Telling,
    segment: &Segment,
    around: &[usize],
    body: &Body,
) -> Result<(), AllocError> {
    if body.position(segment).is_some() {
        write!(telling.what, ": {} is what moves", SegmentText(segment))?;
        return telling.note("name another item of the same body");
    }
    let path = view.path(around);
    write!(telling.what, ": {} isn't in {path}", SegmentText(segment))?;
    note_near(view, telling, body, segment)
}

fn no_such_sibling(view: View<'_>, line: &[u8], edit: &Edit) -> Result<Telling, AllocError> {
    let mut telling = Telling::new(view.alloc, nth_word(line, 3), "X2 no such sibling")?;
    let Some(segment) = sibling_of(edit) else {
        return Ok(telling);
    };
    if let Some((address, body)) = body_of(view, edit) {
        note_sibling(view, &mut telling, segment, address.as_slice(), body)?;
    }
    Ok(telling)
}

fn reserved(view: View<'_>, line: &[u8]) -> Result<Telling, AllocError> {
    let mark = nth_word(line, 2);
    let mut telling = Telling::new(view.alloc, mark, "X4 reserved name")?;
    if let Ok(name) = std::str::from_utf8(mark.of(line)) {
        write!(telling.what, ": `{name}` is a word of the language")?;
    }
    telling.note("take another name")?;
    Ok(telling)
}

fn in_use(view: View<'_>, line: &[u8], edit: &Edit) -> Result<Telling, AllocError> {
    let mut telling = Telling::new(view.alloc, nth_word(line, 1), "X5 definition in use")?;
    let Ok(address) = view.description.find(edit.path()) else {
        return Ok(telling);
    };
    let uses = uses_of(view, &address)?;
    let Some(first) = &uses.first else {
        return Ok(telling);
    };
    let path = view.path(address.as_slice());
    if uses.count == 1 {
        write!(telling.what, ": one instance is of {path}")?;
    } else {
        write!(telling.what, ": {} instances are of {path}", uses.count)?;
    }
    let mut note = String::new(view.alloc);
    let first = first.as_slice();
    let lead = if uses.count == 1 {
        "it is"
    } else {
        "the first is"
    };
    write!(note, "{lead} {}", view.path(first))?;
    if let Some((line, column)) = view.place(first) {
        write!(note, " at {}:{line}:{column}", view.file)?;
    }
    note.push_str(": remove the instances before the definition")?;
    telling.note(note.as_str())?;
    Ok(telling)
}

/// Which assignments of a property a body has.
#[derive(Clone, Copy)]
struct Assigned {
    is_own: bool,
    is_default: bool,
}

fn assignments_of(body: &Body, property: &Name) -> Assigned {
    let mut assigned = Assigned {
        is_own: false,
        is_default: false,
    };
    for item in body.as_slice() {
        match item {
            Item::Own(name, _) if name == property => assigned.is_own = true,
            Item::Default(name, _) if name == property => assigned.is_default = true,
            _ => {}
        }
    }
    assigned
}

fn not_set(view: View<'_>, line: &[u8], edit: &Edit) -> Result<Telling, AllocError> {
    let mut telling = Telling::new(view.alloc, words_from(line, 2), "X6 not set")?;
    let Some((address, body)) = body_of(view, edit) else {
        return Ok(telling);
    };
    let path = view.title(address.as_slice())?;
    let mut cure = String::new(view.alloc);
    match edit {
        Edit::ClearOwn(_, property) => {
            write!(telling.what, ": {path} assigns itself no `{property}`")?;
            if assignments_of(body, property).is_default {
                write!(cure, "it has a default: `nodefault {path} {property}`")?;
            } else {
                cure.push_str(
                    "look for a `default` around it, an assignment from outside, or its type",
                )?;
            }
        }
        Edit::ClearDefault(_, property) => {
            write!(telling.what, ": {path} has no default of `{property}`")?;
            if assignments_of(body, property).is_own {
                write!(cure, "it is its own: `clear {path} {property}`")?;
            } else {
                cure.push_str("look for the default in the bodies around it")?;
            }
        }
        Edit::Unassign(_, _, property) => {
            write!(
                telling.what,
                ": {path} has no such assignment of `{property}`"
            )?;
            cure.push_str("the target is written as it stands in the body that assigns")?;
        }
        _ => {}
    }
    telling.note(cure.as_str())?;
    Ok(telling)
}

fn not_an_instance(view: View<'_>, line: &[u8], edit: &Edit) -> Result<Telling, AllocError> {
    let mark = nth_word(line, 1);
    let mut telling = Telling::new(view.alloc, mark, "X7 not an instance")?;
    let Ok(address) = view.description.find(edit.path()) else {
        return Ok(telling);
    };
    if address.is_empty() {
        telling.what.push_str(": `/` is the whole text")?;
        telling.note("name an item of it, as `/$uart`")?;
        return Ok(telling);
    }
    let path = view.path(address.as_slice());
    write!(telling.what, ": {path} is a definition")?;
    let uses = uses_of(view, &address)?;
    let mut note = String::new(view.alloc);
    note.push_str("sizes, bits, addresses and resets are of instances")?;
    if let Some(first) = &uses.first {
        write!(note, ", as of {}", view.path(first.as_slice()))?;
    }
    telling.note(note.as_str())?;
    Ok(telling)
}

fn not_addable(view: View<'_>, line: &[u8]) -> Result<Telling, AllocError> {
    let what = "X8 only definitions and instances are added: this is an assignment";
    let mut telling = Telling::new(view.alloc, words_from(line, 3), what)?;
    telling.note(
        "write `set PATH PROP VALUE`, `default PATH PROP VALUE` or `assign PATH TARGET PROP VALUE`",
    )?;
    Ok(telling)
}
