//! How many names may be looked up from the place of an item.

use rdl_nodes::node::Kept;
use rdl_seen::alert::Alert;
use rdl_tree::description::{Body, Component, Item, Of};
use rdl_tree::shell::Kind;

/// How many names the items of a body look up: an instance its type, an assignment its target, once for its verdict and once for its fault.
fn names_in(body: &Body) -> usize {
    let mut names = 0usize;
    for item in body.as_slice() {
        match item {
            Item::Instance(_, Of::Named(_)) => names = names.saturating_add(1),
            Item::Dynamic(_, _, _) => names = names.saturating_add(2),
            _ => {}
        }
    }
    names
}

/// How many names may be looked up from the place of an item that is made anew: by its own name, and by the items inside it.
pub(crate) fn names_of(item: &Item) -> usize {
    match item {
        Item::Instance(_, Of::Named(_)) => 1,
        Item::Instance(_, Of::Anonymous(component)) => names_inside(component),
        Item::Define(_, component) => names_inside(component),
        Item::Dynamic(_, _, _) => 2,
        _ => 0,
    }
}

/// How many names may be looked up from inside a component.
fn names_inside(component: &Component) -> usize {
    match component.kind {
        Kind::Field => 0,
        _ => names_in(&component.body),
    }
}

/// How many are looked up again for an item that stayed, of which this was kept: where no types may differ, one, or at most as many as it has
/// items more inside it than it had.
pub(crate) fn names_again(item: &Item, kept: Option<Kept>, alert: &Alert) -> usize {
    match kept {
        Some(kept) if alert.types.is_empty() && alert.inside.is_empty() => {
            match items_more(item, kept) {
                0 => 1,
                more => names_of(item).min(more),
            }
        }
        _ => names_of(item),
    }
}

/// How many items more stand inside an item than did when this was kept of it.
fn items_more(item: &Item, kept: Kept) -> usize {
    let before = kept.node.slots().len();
    match item {
        Item::Instance(_, Of::Anonymous(component)) => component.body.len().saturating_sub(before),
        Item::Define(_, component) => component.body.len().saturating_sub(before),
        _ => 0,
    }
}
