//! Bodies that an edit passes over.
ghost use Rattle.std.specs.Prelude.{◌≡◌, ◌++◌, ◌∷◌, ℕ, List, false, option_copied};
ghost use Rattle.rdl_tree.specs.Items.{no_items};
ghost use Rattle.rdl_tree.specs.View.{add};
ghost use Rattle.rdl_rewrite.specs.Addresses.{same};
ghost use Rattle.rdl_rewrite.specs.Touched.{may_touch, is_any_inside};

use crate::leads::leads_to;
use crate::passed::may_pass_anywhere;
use crate::sweep::Sweep;
use rdl_tree::address::Address;
use rdl_tree::description::{Body, Item};

/// Whether this item, which isn't the taken one, may have a patch of its own, as the names in it say. An item with a body has
/// none.
fn may_touch(sweep: &Sweep, found: &Item) -> bool
    ensures { result ≡ may_touch (option_copied sweep.now.taken) (option_copied sweep.now.holder) found.now }
{
    match found {
        Item::Define(..) => false,
        Item::Instance(..) => leads_to(sweep.taken, true, found),
        Item::Own(..) => false,
        Item::Default(..) => false,
        Item::Dynamic(target, ..) => may_pass_anywhere(sweep, target.names()),
    }
}

/// Whether such an item is among those of the body, or inside one of them.
#[cycle(touched)]
pub(crate) fn is_touched(sweep: &Sweep, body: &Body) -> bool
    ensures { result ≡ is_any_inside (may_touch (option_copied sweep.now.taken) (option_copied sweep.now.holder)) body.now }
{
    'items: for found in body.as_slice() {
        if is_item_touched(sweep, found) {
            return true;
        }
    }
    false
}

/// Whether this item is such a one, or has one inside it.
#[cycle(touched)]
fn is_item_touched(sweep: &Sweep, found: &Item) -> bool
    ensures { result ≡ is_any_inside (may_touch (option_copied sweep.now.taken) (option_copied sweep.now.holder)) (add found.now no_items) }
{
    match found.own_body() {
        Some(body) => is_touched(sweep, body),
        None => may_touch(sweep, found),
    }
}

/// Whether the way may lead to the item of this number in the body at the address, or into it.
#[tactic(auto, using(crate::proofs::Untouched::elsewhere))]
pub(crate) fn may_lead_into(way: &Address, at: &Address, number: usize) -> bool
    ensures { result ≡ false → (rest : List ℕ) → same (at.now ++ number ∷ rest) way.now ≡ false }
{
    match way.as_slice().get(at.len()) {
        Some(next) => *next == number,
        None => false,
    }
}
