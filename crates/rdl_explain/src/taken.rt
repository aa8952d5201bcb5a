//! Names that are taken: X3.

use rdl_explain_map::stretch::{Stretch, nth_word, word_at, words_from};
use rdl_explain_map::telling::Telling;
use rdl_explain_map::view::{View, around, behind};
use rdl_rewrite::edit::Edit;
use rdl_text::name::Name;
use rdl_tree::address::Address;
use rdl_tree::description::{Body, Item, Of};
use std::alloc::AllocError;

/// Where a definition of the name stands among the items or inside them, so many levels deep.
#[cycle(defined)]
fn defined_in(body: &Body, name: &Name, at: &Address, levels: usize) -> Option<Address> {
    for (number, item) in body.as_slice().iter().enumerate() {
        if let Some(here) = behind(at, number) {
            if let Some(found) = defined_at(item, name, here, levels) {
                return Some(found);
            }
        }
    }
    None
}

#[cycle(defined)]
fn defined_at(item: &Item, name: &Name, at: Address, levels: usize) -> Option<Address> {
    if levels == 0 {
        return None;
    }
    match item {
        Item::Define(defined, _) if defined == name => Some(at),
        Item::Define(_, component) | Item::Instance(_, Of::Anonymous(component)) => {
            defined_in(&component.body, name, &at, levels - 1)
        }
        _ => None,
    }
}

/// Where a definition of the name stands.
fn definition_of(view: View<'_>, name: &Name) -> Option<Address> {
    let items = &view.description.items;
    defined_in(items, name, &Address::new(), Address::MAX_LEN)
}

/// Where an instance of the name stands among the items of a body.
fn instance_in(body: &Body, name: &Name, at: &Address) -> Option<Address> {
    let number = body.as_slice().iter().position(|item| match item {
        Item::Instance(shell, _) => shell.name() == name,
        _ => false,
    })?;
    behind(at, number)
}

/// The name of the new item that is taken, and where.
#[derive(Drop)]
struct Clash<'a> {
    name: &'a Name,
    at: Address,
    /// It is the item itself that gets the name.
    is_own: bool,
}

fn clash_of<'e>(view: View<'_>, item: &'e Item, at: &Address) -> Option<Clash<'e>> {
    match item {
        Item::Define(name, _) => {
            let at = definition_of(view, name)?;
            Some(Clash {
                name,
                at,
                is_own: false,
            })
        }
        Item::Instance(shell, _) => {
            let at = instance_in(view.body(at.as_slice())?, shell.name(), at)?;
            Some(Clash {
                name: shell.name(),
                at,
                is_own: false,
            })
        }
        _ => None,
    }
}

fn clash_of_added<'e>(view: View<'_>, added: &'e Body, at: &Address) -> Option<Clash<'e>> {
    for item in added.as_slice() {
        if let Some(clash) = clash_of(view, item, at) {
            return Some(clash);
        }
    }
    None
}

fn clash_of_renamed<'e>(view: View<'_>, name: &'e Name, at: &Address) -> Option<Clash<'e>> {
    let (body, _) = around(at.as_slice());
    let holder = rdl_explain_map::view::address_of(body);
    let found = match view.item(at.as_slice())? {
        Item::Define(..) => definition_of(view, name)?,
        _ => instance_in(view.body(body)?, name, &holder)?,
    };
    let is_own = found.as_slice() == at.as_slice();
    Some(Clash {
        name,
        at: found,
        is_own,
    })
}

/// The last word of a line from this one on that is spelled so.
fn spelled(line: &[u8], from: Stretch, name: &str) -> Stretch {
    let mut found = from;
    let mut next = from.start;
    for (at, _) in line.iter().enumerate() {
        if at >= next {
            let word = word_at(line, at);
            next = word.end().max(at.saturating_add(1));
            if word.of(line) == name.as_bytes() {
                found = word;
            }
        }
    }
    found
}

/// What a line takes that is taken, if it is found.
fn clash_of_edit<'e>(view: View<'_>, edit: &'e Edit) -> Option<Clash<'e>> {
    let at = view.description.find(edit.path()).ok()?;
    match edit {
        Edit::Rename(_, name) => clash_of_renamed(view, name, &at),
        Edit::Add(_, _, added) => clash_of_added(view, added, &at),
        _ => None,
    }
}

/// Where the name stands that a line gives.
fn names_of(line: &[u8], edit: &Edit) -> Stretch {
    match edit {
        Edit::Rename(..) => nth_word(line, 2),
        Edit::Add(..) => words_from(line, 3),
        _ => words_from(line, 2),
    }
}

const TAKEN: &str = "X3 name taken";

fn clash_telling(
    view: View<'_>,
    line: &[u8],
    names: Stretch,
    clash: &Clash<'_>,
) -> Result<Telling, AllocError> {
    let mark = spelled(line, names, clash.name.as_str());
    let mut telling = Telling::new(view.alloc, mark, TAKEN)?;
    let at = clash.at.as_slice();
    let path = view.path(at);
    if clash.is_own {
        write!(telling.what, ": {path} has this name already")?;
        telling.note("leave the line out")?;
    } else {
        write!(telling.what, ": {path} is there already")?;
        view.note_standing(&mut telling, at, "take another name")?;
    }
    Ok(telling)
}

/// What is told of a line that gives a name which is taken.
pub(crate) fn taken_telling(
    view: View<'_>,
    line: &[u8],
    edit: &Edit,
) -> Result<Telling, AllocError> {
    let names = names_of(line, edit);
    if let Some(clash) = clash_of_edit(view, edit) {
        return clash_telling(view, line, names, &clash);
    }
    let mut telling = Telling::new(view.alloc, names, TAKEN)?;
    telling.note("a name stands twice, or is one of another definition: take another name")?;
    Ok(telling)
}
