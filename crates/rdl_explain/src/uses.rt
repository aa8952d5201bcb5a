//! The instances of a type.

use rdl_explain_map::view::{View, behind};
use rdl_text::name::Name;
use rdl_tree::address::Address;
use rdl_tree::description::{Body, Item, Of};
use std::alloc::AllocError;

/// How many instances there are of a type, and the first of them.
#[derive(Drop)]
pub(crate) struct Uses {
    pub count: usize,
    pub first: Option<Address>,
}

/// How many definitions with the name there are among the items and inside them, so many levels deep.
#[cycle(definitions)]
fn definitions(body: &Body, name: &Name, levels: usize) -> usize {
    let mut count = 0usize;
    for item in body.as_slice() {
        count = count.saturating_add(definitions_in(item, name, levels));
    }
    count
}

#[cycle(definitions)]
fn definitions_in(item: &Item, name: &Name, levels: usize) -> usize {
    if levels == 0 {
        return 0;
    }
    match item {
        Item::Define(defined, component) => {
            let inside = definitions(&component.body, name, levels - 1);
            inside.saturating_add(if defined == name { 1 } else { 0 })
        }
        Item::Instance(_, Of::Anonymous(component)) => {
            definitions(&component.body, name, levels - 1)
        }
        _ => 0,
    }
}

/// What is counted.
#[derive(Drop)]
struct Wanted<'a> {
    view: View<'a>,
    name: &'a Name,
    /// Where the type is defined, if another has its name, too.
    at: Option<Address>,
}

impl Wanted<'_> {
    fn is_met(&self, address: &Address) -> bool {
        match &self.at {
            None => true,
            Some(at) => match self.view.type_of(address.as_slice()) {
                Some(found) => found.as_slice() == at.as_slice(),
                None => false,
            },
        }
    }

    fn count(&self, uses: &mut Uses, address: Address) {
        if self.is_met(&address) {
            uses.count = uses.count.saturating_add(1);
            if uses.first.is_none() {
                uses.first = Some(address);
            }
        }
    }
}

#[cycle(uses)]
fn count_body(wanted: &Wanted<'_>, body: &Body, at: &Address, levels: usize, uses: &mut Uses) {
    for (number, item) in body.as_slice().iter().enumerate() {
        if let Some(address) = behind(at, number) {
            count_item(wanted, item, address, levels, uses);
        }
    }
}

#[cycle(uses)]
fn count_item(wanted: &Wanted<'_>, item: &Item, at: Address, levels: usize, uses: &mut Uses) {
    if levels == 0 {
        return;
    }
    match item {
        Item::Define(_, component) => count_body(wanted, &component.body, &at, levels - 1, uses),
        Item::Instance(_, Of::Anonymous(component)) => {
            count_body(wanted, &component.body, &at, levels - 1, uses);
        }
        Item::Instance(_, Of::Named(name)) if name == wanted.name => wanted.count(uses, at),
        _ => {}
    }
}

/// The instances of the type that is defined at an address.
pub(crate) fn uses_of(view: View<'_>, at: &Address) -> Result<Uses, AllocError> {
    let mut uses = Uses {
        count: 0,
        first: None,
    };
    let Some(Item::Define(name, _)) = view.item(at.as_slice()) else {
        return Ok(uses);
    };
    let items = &view.description.items;
    let others = definitions(items, name, Address::MAX_LEN);
    let wanted = Wanted {
        view,
        name,
        at: if others > 1 { Some(at.copy()) } else { None },
    };
    count_body(&wanted, items, &Address::new(), Address::MAX_LEN, &mut uses);
    Ok(uses)
}
