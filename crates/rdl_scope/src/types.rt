//! The type of a reference.
ghost use Rattle.std.specs.Prelude.{◌≡◌, ℕ, ◌≤◌, ◌<◌, ◌+◌, ◌++◌, ◌∷◌, [], length, take, option_map, IfSome};
ghost use Rattle.std.specs.Option.{option_or, is_none};
ghost use Rattle.rdl_tree.specs.ItemAt.{item_at};
ghost use Rattle.rdl_tree.specs.View.{list_of};
ghost use Rattle.rdl_tree.specs.Component.{own_component};
ghost use Rattle.rdl_scope.specs.Types.{last_definition, type_at, type_of, component_of, component_at, items_in};
ghost use Rattle.rdl_scope.specs.Walk.{found, is_definition, reference_of};
ghost use Rattle.std.specs.Prelude.{option_copied, option_and_then};

use rdl_text::name::Name;
use rdl_tree::address::Address;
use rdl_tree::description::{Body, Component, Description, Item, Of};
use rdl_tree::find::item_at;

/// Whether the item is a definition of this name.
pub fn defines(item: Option<&Item>, name: &Name) -> bool
    ensures { result ≡ is_definition name.now (option_copied item.entry) }
{
    match item {
        Some(Item::Define(defined, _)) => defined == name,
        _ => false,
    }
}

#[tactic(auto, using(crate::proofs::Searches::steps))]
/// The number of the last definition of the name among the first `n` items.
pub fn last_definition(body: &Body, n: usize, name: &Name) -> Option<usize>
    ensures same { result ≡ last_definition name.now n body.now }
    ensures before { IfSome result (λ k. k < n) }
{
    let mut last = None;
    for i in 0..n {
        if defines(body.item(i), name) {
            last = Some(i);
        }
    }
    last
}

pub(crate) fn innermost(
    depth: usize,
    number: Option<usize>,
    place: Option<(usize, usize)>,
) -> Option<(usize, usize)>
    ensures { result ≡ option_or (option_map (λ k. (depth, k)) number) place }
{
    match number {
        Some(k) => Some((depth, k)),
        None => place,
    }
}

#[tactic(auto, using(crate::proofs::Searches::steps))]
/// How deep, and at which number, the innermost and last definition stands.
fn found(body: &Body, path: &[usize], name: &Name) -> Option<(usize, usize)>
    ensures same { result ≡ found path.now body.now name.now }
    ensures within { IfSome result (λ place. place.0 < length path.now) }
{
    let mut place = None;
    let mut here = body;
    for depth in 0..path.len() {
        let number = last_definition(here, path[depth], name);
        place = innermost(depth, number, place);
        match here.inner(path[depth]) {
            Some(deeper) => here = deeper,
            None => return place,
        }
    }
    place
}

/// The address that goes along the path to this depth, or to its end.
#[tactic(auto, using(std::proofs::lemmas::List::take_min))]
pub(crate) fn prefix(path: &[usize], depth: usize) -> Address
    requires { length path.now ≤ 17 }
    ensures { result ≡ take depth path.now }
{
    let mut address = Address::new();
    for i in 0..depth.min(path.len()) {
        address.push(path[i]);
    }
    address
}

/// The name of the type to which the item refers.
pub fn reference(item: Option<&Item>) -> Option<&Name>
    ensures { option_copied result ≡ option_and_then reference_of (option_copied item.entry) }
{
    match item {
        Some(Item::Instance(_, Of::Named(name))) => Some(name),
        _ => None,
    }
}

/// The definition to which a reference to the name in the item at this address leads.
#[tactic(auto, using(crate::proofs::Searches::ends))]
pub(crate) fn type_at(description: &Description, address: &Address, name: &Name) -> Option<Address>
    ensures { result ≡ type_at address.now description.now.items name.now }
{
    let path = address.as_slice();
    let (depth, number) = found(&description.items, path, name)?;
    Some(prefix(path, depth).inside(number))
}

/// The definition to which the type reference of a named instance leads. Another item has none.
#[tactic(auto, using(crate::proofs::Searches::ends))]
pub fn type_of(description: &Description, address: &Address) -> Option<Address>
    ensures { result ≡ type_of description.now.items address.now }
{
    let name = reference(item_at(&description.items, address.as_slice()))?;
    type_at(description, address, name)
}

/// The item that holds the component of the instance at this address.
#[tactic(auto, using(crate::proofs::Searches::ends))]
pub(crate) fn component_of(description: &Description, address: &Address) -> Option<Address>
    ensures { result ≡ component_of description.now.items address.now }
{
    match item_at(&description.items, address.as_slice()) {
        Some(Item::Instance(_, Of::Named(name))) => type_at(description, address, name),
        Some(Item::Instance(_, Of::Anonymous(_))) => Some(address.copy()),
        _ => None,
    }
}

/// The item's own component. An instance of a named type has none.
pub fn own_component(item: &Item) -> Option<&Component>
    ensures { option_copied result ≡ own_component item.now }
{
    match item {
        Item::Instance(_, Of::Anonymous(component)) => Some(component),
        Item::Define(_, component) => Some(component),
        _ => None,
    }
}

/// The component that the item at this address holds.
pub(crate) fn component_at<'a>(
    description: &'a Description,
    address: &Address,
) -> Option<&'a Component>
    ensures { option_copied result ≡ component_at description.now.items address.now }
{
    own_component(item_at(&description.items, address.as_slice())?)
}

/// How many items the body at this address has.
pub(crate) fn items_in(description: &Description, address: &Address) -> usize
    ensures { result ≡ items_in address.now description.now.items }
{
    match description.body(address) {
        Some(body) => body.len(),
        None => 0,
    }
}
