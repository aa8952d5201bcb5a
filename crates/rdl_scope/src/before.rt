//! What stands before an item in its body that the item may not repeat.
ghost use Rattle.std.specs.Prelude.{◌≡◌, ◌∷◌, ℕ, Option, bytes_eq};
ghost use Rattle.std.specs.Cmp.Lexicographic.{pointwise};
ghost use Rattle.rdl_scope.specs.Keys.{has_key, key_before};
ghost use Rattle.rdl_scope.specs.ItemFaults.{reached_before, is_excluded, excluded_by};

use crate::apart::begin_apart;
use crate::assignments::rivals;
use crate::faults::is_set;
use crate::values::own_before;
use rdl_text::name::Name;
use rdl_tree::description::{Body, Item};
use rdl_tree::property::Property;

/// Whether the names are the same, in the same order.
fn are_same(names: &[Name], others: &[Name]) -> bool
    ensures { result ≡ pointwise bytes_eq names.now others.now }
{
    names == others
}

/// Whether the item is a dynamic assignment of this property to this target.
fn repeats(item: &Item, target: &[Name], name: &Name) -> bool
    ensures { result ≡ has_key (name.now ∷ target.now) item.now }
{
    match item {
        Item::Dynamic(names, property, _) => {
            !begin_apart(names.names(), target)
                && property == name
                && are_same(names.names(), target)
        }
        _ => false,
    }
}

fn is_repeated(items: &[Item], n: usize, target: &[Name], name: &Name) -> bool
    ensures { result ≡ key_before (name.now ∷ target.now) n items.now }
{
    items.iter().take(n).any(|item| repeats(item, target, name))
}

/// Whether a dynamic assignment of this property to this target stands among the first `n` items.
#[tactic(auto, using(crate::proofs::Repeats::dynamic_keys))]
pub fn reached_before(body: &Body, n: usize, target: &[Name], name: &Name) -> bool
    ensures { result ≡ reached_before target.now name.now n body.now }
{
    is_repeated(body.as_slice(), n, target, name)
}

/// Whether a rival of the property is set among the first `n` items.
fn is_excluded(n: usize, body: &Body, property: Property) -> bool
    ensures { result ≡ is_excluded n body.now property }
{
    rivals(property)
        .iter()
        .any(|rival| is_set(own_before(body, n, rival.name())))
}

/// Whether a rival of the property, if it is one, is set among the first `n` items.
pub fn excluded_by(n: usize, body: &Body, property: Option<Property>) -> bool
    ensures { result ≡ excluded_by n body.now property }
{
    match property {
        Some(property) => is_excluded(n, body, property),
        None => false,
    }
}
