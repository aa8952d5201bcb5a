//! What leads to an item: references and targets.
ghost use Rattle.std.specs.Prelude.{◌≡◌, ◌++◌, ◌∷◌, ◌&&◌, [], option_copied};
ghost use Rattle.std.specs.List.{list_any};
ghost use Rattle.rdl_rewrite.specs.Addresses.{same, leads_to};
ghost use Rattle.rdl_rewrite.specs.Led.{refers_to, led_behind};
ghost use Rattle.rdl_rewrite.specs.Firsts.{is_inside};

use rdl_scope::types::{defines, reference};
use rdl_tree::address::Address;
use rdl_tree::description::{Item, Of};

/// Whether there is an address, and it is the way.
pub(crate) fn is_at(way: &Address, at: Option<&Address>) -> bool
    ensures { result ≡ leads_to way.now (option_copied at.entry) }
{
    match at {
        Some(at) => at == way,
        None => false,
    }
}

/// Whether the way leads to the item of this number in the body at the address.
#[tactic(auto, using(crate::proofs::Before::ending))]
pub(crate) fn ends_at(way: &Address, at: &Address, number: usize) -> bool
    ensures { result ≡ same (at.now ++ number ∷ []) way.now }
{
    match way.as_slice() {
        [body @ .., last] => *last == number && body == at.as_slice(),
        [] => false,
    }
}

/// Whether one of these addresses is the way.
pub(crate) fn is_on(way: &Address, path: &[Address]) -> bool
    ensures { result ≡ list_any (λ at. same at way.now) path.now }
{
    path.iter().any(|at| at == way)
}

/// Whether the type of this item is the taken one. `led` says whether a reference to its name leads to it here.
pub(crate) fn leads_to(taken: Option<&Item>, led: bool, found: &Item) -> bool
    ensures { result ≡ (led && refers_to (option_copied taken.entry) found.now) }
{
    match reference(Some(found)) {
        Some(name) => led && defines(taken, name),
        None => false,
    }
}

/// Whether a reference to the name of the taken definition, the one on the way, leads to it behind this item, of this
/// number in the body at the address. `led` says whether it does so in the item.
pub(crate) fn led_behind(
    way: &Address,
    taken: Option<&Item>,
    led: bool,
    at: &Address,
    number: usize,
    found: &Item,
) -> bool
    ensures { result ≡ led_behind way.now (option_copied taken.entry) (at.now ++ number ∷ []) found.now led }
{
    match found {
        Item::Define(name, _) => {
            if defines(taken, name) {
                ends_at(way, at, number)
            } else {
                led
            }
        }
        _ => led,
    }
}

/// Whether the component of this item, of this number in the body at the address, is the one at the place, which the
/// holder holds. `led` says whether a reference to the holder's name leads to that here.
pub(crate) fn is_inside(
    place: &Address,
    holder: Option<&Item>,
    led: bool,
    at: &Address,
    number: usize,
    found: &Item,
) -> bool
    ensures { result ≡ is_inside place.now (option_copied holder.entry) (at.now ++ number ∷ []) led found.now }
{
    match found {
        Item::Instance(_, of) => match of {
            Of::Named(name) => led && defines(holder, name),
            Of::Anonymous(_) => ends_at(place, at, number),
        },
        _ => false,
    }
}
