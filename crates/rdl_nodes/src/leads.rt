//! Whether a map has assignments that lead inside components, where they look names up.

use rdl_tree::description::{Body, Component, Item, Of};
use rdl_tree::shell::Kind;

/// Whether an assignment that stands in this body, or in a component inside it, has a target of more than one name.
#[cycle(leads)]
pub(crate) fn leads_inside(body: &Body) -> bool {
    for item in body.as_slice() {
        if item_leads_inside(item) {
            return true;
        }
    }
    false
}

/// The same of an item.
#[cycle(leads)]
fn item_leads_inside(item: &Item) -> bool {
    match item {
        Item::Own(_, _) | Item::Default(_, _) | Item::Instance(_, Of::Named(_)) => false,
        Item::Dynamic(target, _, _) => target.names().len() > 1,
        Item::Instance(_, Of::Anonymous(component)) => component_leads_inside(component),
        Item::Define(_, component) => component_leads_inside(component),
    }
}

/// The same of a component. The instances of a field or of a register have none inside.
#[cycle(leads)]
fn component_leads_inside(component: &Component) -> bool {
    match component.kind {
        Kind::Field | Kind::Reg => false,
        _ => leads_inside(&component.body),
    }
}
