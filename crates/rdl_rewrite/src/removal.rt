//! What goes with an item that is taken out.
ghost use Rattle.std.specs.Prelude.{◌≡◌, ◌≤◌, ◌<◌, ◌++◌, ◌∷◌, [], length, true, is_ok, Some, None, IfOk, IfErr, IsErrOf};
ghost use Rattle.std.specs.List.{list_any};
ghost use Rattle.rdl_tree.specs.ItemAt.{item_at};
ghost use Rattle.rdl_tree.specs.Items.{no_items};
ghost use Rattle.rdl_tree.specs.View.{add};
ghost use Rattle.rdl_tree.specs.Address.{body_at, holder_of};
ghost use Rattle.rdl_tree.specs.Depth.{depth};
ghost use Rattle.rdl_scope.specs.Types.{type_of};
ghost use Rattle.rdl_rewrite.specs.Addresses.{leads_to, addresses};
ghost use Rattle.rdl_rewrite.specs.Led.{IsLed};
ghost use Rattle.rdl_rewrite.specs.Firsts.{AreFirsts, is_dynamic};
ghost use Rattle.rdl_rewrite.specs.Sweep.{Knows};
ghost use Rattle.rdl_rewrite.specs.Fates.{fate_in_removal, fate, fate_patches};
ghost use Rattle.rdl_rewrite.specs.Removal.{is_in_use, goes, removed};
ghost use Rattle.rdl_rewrite.specs.Refuses.{RefusesEdit};
ghost use Rattle.rdl_rewrite.specs.declared.edit.PatchRefusal.{PatchRefusal};

use crate::edit::PatchRefusal;
use crate::fate::Fate;
use crate::firsts::Firsts;
use crate::leads::{ends_at, leads_to, led_behind};
use crate::passed::passes_taken;
use crate::spared::is_touched;
use crate::sweep::{Sweep, is_too_deep};
use rdl_tree::address::Address;
use rdl_tree::description::{Body, Description, Item};
use rdl_tree::patch::Patch;
use std::alloc::{AllocError, Global};

/// Whether the type of an instance in this body, at its address, is the taken item. `led` says whether a reference to its
/// name leads to it where the body begins.
#[cycle(used)]
fn is_used(sweep: &Sweep, at: &Address, body: &Body, mut led: bool) -> bool
    requires nesting { depth sweep.now.whole.now.items ≤ 16 }
    requires known { Knows sweep.now }
    requires here { body_at at.now sweep.now.whole.now.items ≡ Some body.now }
    requires led { IsLed sweep.now.whole.now.items sweep.now.way.now at.now led }
    ensures { result ≡ list_any (λ a. leads_to sweep.now.way.now (type_of sweep.now.whole.now.items a)) (addresses at.now 0 body.now) }
{
    'items: for (number, found) in body.as_slice().iter().enumerate() {
        if is_used_by(sweep, at, number, found, led) {
            return true;
        }
        led = led_behind(sweep.way, sweep.taken, led, at, number, found);
    }
    false
}

/// Whether the type of this item, of this number in the body at the address, or of an instance inside it, is the taken
/// one. `led` says whether a reference to its name leads to it here.
#[cycle(used)]
fn is_used_by(sweep: &Sweep, at: &Address, number: usize, found: &Item, led: bool) -> bool
    requires nesting { depth sweep.now.whole.now.items ≤ 16 }
    requires known { Knows sweep.now }
    requires room { length at.now < 17 }
    requires here { item_at (at.now ++ number ∷ []) sweep.now.whole.now.items ≡ Some found.now }
    requires led { IsLed sweep.now.whole.now.items sweep.now.way.now (at.now ++ number ∷ []) led }
    ensures { result ≡ list_any (λ a. leads_to sweep.now.way.now (type_of sweep.now.whole.now.items a)) (addresses at.now number (add found.now no_items)) }
{
    match found.own_body() {
        Some(body) => { is_touched(sweep, body) && is_used(sweep, &at.inside(number), body, led) }
        None => leads_to(sweep.taken, led, found),
    }
}

/// Whether the type of an instance is the taken item. Only a definition can be.
fn is_in_use(sweep: &Sweep) -> bool
    requires nesting { depth sweep.now.whole.now.items ≤ 16 }
    requires known { Knows sweep.now }
    ensures { result ≡ is_in_use sweep.now.whole.now.items sweep.now.way.now }
{
    let Some(found) = sweep.taken else {
        return false;
    };
    match found {
        Item::Define(..) => is_used(sweep, &Address::new(), &sweep.whole.items, false),
        _ => false,
    }
}

/// Whether this item, of this number in the body at the address, is the taken one, or an assignment behind these instances
/// whose target passes that.
fn goes<'a>(
    alloc: Global,
    sweep: &Sweep<'a>,
    at: &Address,
    number: usize,
    found: &'a Item,
    firsts: &Firsts<'a>,
) -> Result<bool, AllocError>
    requires nesting { depth sweep.now.whole.now.items ≤ 16 }
    requires known { Knows sweep.now }
    requires room { length at.now < 17 }
    requires here { item_at (at.now ++ number ∷ []) sweep.now.whole.now.items ≡ Some found.now }
    requires firsts { is_dynamic found.now ≡ true → AreFirsts sweep.now.whole.now.items (holder_of sweep.now.way.now) at.now number firsts.now }
    ensures { IfOk result (λ answer. answer ≡ goes sweep.now.whole.now.items sweep.now.way.now (at.now ++ number ∷ [])) }
{
    if ends_at(sweep.way, at, number) {
        return Ok(true);
    }
    match found {
        Item::Dynamic(target, ..) => passes_taken(alloc, sweep, at, number, target.names(), firsts),
        _ => Ok(false),
    }
}

/// What becomes of this item, of this number in the body at the address, behind these instances, where the one on the way
/// is taken out.
pub(crate) fn fate<'a>(
    alloc: Global,
    sweep: &Sweep<'a>,
    at: &Address,
    number: usize,
    found: &'a Item,
    firsts: &Firsts<'a>,
) -> Result<Fate, AllocError>
    requires nesting { depth sweep.now.whole.now.items ≤ 16 }
    requires known { Knows sweep.now }
    requires room { length at.now < 17 }
    requires here { item_at (at.now ++ number ∷ []) sweep.now.whole.now.items ≡ Some found.now }
    requires firsts { is_dynamic found.now ≡ true → AreFirsts sweep.now.whole.now.items (holder_of sweep.now.way.now) at.now number firsts.now }
    ensures { IfOk result (λ fate. fate ≡ fate_in_removal sweep.now.whole.now.items sweep.now.way.now (at.now ++ number ∷ [])) }
{
    if goes(alloc, sweep, at, number, found, firsts)? {
        Ok(Fate::Dropped)
    } else {
        Ok(Fate::Kept)
    }
}

/// Takes out the item on the way, and every assignment whose target passes it. A definition to which a reference leads is
/// refused.
pub fn remove<'a>(
    alloc: Global,
    whole: &'a Description,
    way: &'a Address,
    is_shallow: bool,
) -> Result<Vec<Patch>, PatchRefusal>
    requires { is_shallow ≡ true → depth whole.now.items ≤ 16 }
    ensures which { IfOk result (λ ps. ps.items ≡ fate_patches (fate whole.now.items way.now None) [] 0 whole.now.items) }
    ensures accepted { IfOk result (λ _. is_ok (removed whole.now.items way.now) ≡ true) }
    ensures level { IfOk result (λ _. depth whole.now.items ≤ 16) }
    ensures too_deep { IsErrOf result PatchRefusal.TooDeep → 16 < depth whole.now.items }
    ensures refused { IfErr result (λ refusal. RefusesEdit whole.now.items (removed whole.now.items way.now) refusal) }
{
    if is_too_deep(whole, is_shallow) {
        return Err(PatchRefusal::TooDeep);
    }
    let sweep = Sweep::new(whole, way, None);
    if is_in_use(&sweep) {
        return Err(PatchRefusal::InUse);
    }
    Ok(sweep.patches(alloc)?)
}
