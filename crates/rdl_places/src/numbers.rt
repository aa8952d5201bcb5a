//! What a name finds among the first items of a body, item by item from the last one.
ghost use Rattle.std.specs.Prelude.{◌≡◌, option_copied};
ghost use Rattle.rdl_places.specs.LastNumbers.{is_sought, last_sought};
ghost use Rattle.rdl_places.specs.Reached.{count_of, count_before, instance_named};
ghost use Rattle.rdl_places.specs.Scopes.{definition};

use rdl_text::is_same;
use rdl_text::name::Name;
use rdl_tree::description::{Body, Component, Item, Of};

/// What is looked up by its name.
#[derive(Clone, Copy)]
pub(crate) enum Sought {
    Definition,
    Instance,
}

/// The component of an item that is a definition of this name.
pub(crate) fn definition<'s>(item: Option<&'s Item>, name: &Name) -> Option<&'s Component>
    ensures { option_copied result ≡ definition name.now (option_copied item.entry) }
{
    match item {
        Some(Item::Define(defined, component)) => {
            if is_same(defined.as_str(), name.as_str()) {
                Some(component)
            } else {
                None
            }
        }
        _ => None,
    }
}

/// What an item is an instance of, if it is one of this name.
pub(crate) fn instance<'s>(item: Option<&'s Item>, name: &Name) -> Option<&'s Of>
    ensures { option_copied result ≡ instance_named name.now (option_copied item.entry) }
{
    match item {
        Some(Item::Instance(shell, of)) => {
            if is_same(shell.name().as_str(), name.as_str()) {
                Some(of)
            } else {
                None
            }
        }
        _ => None,
    }
}

/// Whether the item is what is sought, of this name.
#[inline(always)]
pub(crate) fn is_sought(item: Option<&Item>, sought: Sought, name: &Name) -> bool
    ensures { result ≡ is_sought sought name.now (option_copied item.entry) }
{
    match sought {
        Sought::Definition => definition(item, name).is_some(),
        Sought::Instance => instance(item, name).is_some(),
    }
}

/// How many instances the item is.
pub(crate) fn count_of(item: Option<&Item>) -> usize
    ensures { result ≡ count_of (option_copied item.entry) }
{
    match item {
        Some(Item::Instance(_, _)) => 1,
        _ => 0,
    }
}

/// How many instances are among the first items of a body, so many of them.
pub(crate) fn count_before(body: &Body, count: usize) -> usize
    ensures { result ≡ count_before count body.now }
{
    let mut instances = 0;
    for i in 0..count {
        instances += count_of(body.item(i));
    }
    instances
}

/// The number of the last one of this name that is sought, among the first items of a body, so many of them.
pub(crate) fn last_sought(body: &Body, count: usize, sought: Sought, name: &Name) -> Option<usize>
    ensures { result ≡ last_sought sought name.now count body.now }
{
    for number in (0..count).rev() {
        if is_sought(body.item(number), sought, name) {
            return Some(number);
        }
    }
    None
}
