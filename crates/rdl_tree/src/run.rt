//! Patches that put items into one body or take them out of it, one after another, in one pass.
ghost use Rattle.std.specs.Prelude.{◌≡◌, ◌==◌, ℕ, ◌+◌, ◌<◌, ◌≤◌, IsTrue, IfOk, IfErr, OnErr, IfSome, IfNone, length, vec_capacity};
ghost use Rattle.rdl_tree.specs.Address.{holder_of, number_of};
ghost use Rattle.rdl_tree.specs.Gap.{IsStepWithin, IsLent, GoesOn, GoesOnWithin};
ghost use Rattle.rdl_tree.specs.Way.{held_at, held_for, held_behind};
ghost use Rattle.rdl_tree.specs.declared.patch.Patch.{Patch};

use crate::address::Address;
use crate::description::{Body, Description, Item};
use crate::gap::Gap;
use crate::patch::Patch;
use crate::patch_address::PatchAddress;
use crate::way::Step;
use std::alloc::{AllocError, Global};

/// Applies the patches that come next, from the last one on, as far as they put items into one body or take them out
/// of it, and memory can be had.
pub(crate) fn follow(
    description: &mut Description,
    alloc: Global,
    patches: &mut Vec<Patch>,
    steps: &mut Vec<Step>,
)
    requires room { length patches.old.items + length steps.old.items ≤ vec_capacity patches.old }
    requires steps { length patches.old.items + length steps.old.items ≤ vec_capacity steps.old }
    ensures way { GoesOn steps.old.items steps.new.items patches.old.items patches.new.items description.old.items description.new.items }
    ensures less { length patches.new.items ≤ length patches.old.items }
    ensures room { length patches.new.items + length steps.new.items ≤ vec_capacity patches.new }
    ensures steps { length patches.new.items + length steps.new.items ≤ vec_capacity steps.new }
{
    let Some(holder) = run_holder(patches) else {
        return;
    };
    match description.body_mut(&holder) {
        Some(body) => apply_run(body, alloc, &holder, patches, steps),
        None => {}
    }
}

/// The body in which the last two patches put items in or take them out.
fn run_holder(patches: &[Patch]) -> Option<Address> {
    match patches {
        [.., second, first] => {
            let holder = holder_of(first)?;
            if is_of(second, &holder) {
                Some(holder)
            } else {
                None
            }
        }
        _ => None,
    }
}

/// The body into which the patch puts an item, or out of which it takes one.
fn holder_of(patch: &Patch) -> Option<Address> {
    match patch {
        Patch::Insert(address, _) | Patch::Delete(address) if !address.is_empty() => {
            Some(address.holder())
        }
        _ => None,
    }
}

/// Whether the patch puts an item into this body, or takes one out of it.
fn is_of(patch: &Patch, holder: &Address) -> bool {
    match patch {
        Patch::Insert(address, _) | Patch::Delete(address) => address.is_in(holder),
        Patch::Shift(_, _) | Patch::Exchange(_, _) => false,
    }
}

/// Applies the patches that come next, as far as they put items into this body or take them out of it.
fn apply_run(
    body: &mut Body,
    alloc: Global,
    holder: &Address,
    patches: &mut Vec<Patch>,
    steps: &mut Vec<Step>,
)
    requires room { length patches.old.items + length steps.old.items ≤ vec_capacity patches.old }
    requires steps { length patches.old.items + length steps.old.items ≤ vec_capacity steps.old }
    ensures way { GoesOnWithin holder.now steps.old.items steps.new.items patches.old.items patches.new.items body.old body.new }
    ensures less { length patches.new.items ≤ length patches.old.items }
    ensures room { length patches.new.items + length steps.new.items ≤ vec_capacity patches.new }
    ensures steps { length patches.new.items + length steps.new.items ≤ vec_capacity steps.new }
{
    match Gap::open(body, alloc, items_to_come(patches)) {
        Ok(mut gap) => {
            advance_within(&mut gap, alloc, holder, patches, steps);
            gap.close(body);
        }
        Err(_) => {}
    }
}

/// At most how many items come in.
fn items_to_come(patches: &[Patch]) -> usize {
    match patches {
        [.., Patch::Insert(_, _)] => patches.len(),
        _ => 0,
    }
}

/// Applies the patches, from the last one on, as long as they fit the gap and memory can be had.
fn advance_within(
    gap: &mut Gap,
    alloc: Global,
    holder: &Address,
    patches: &mut Vec<Patch>,
    steps: &mut Vec<Step>,
)
    requires room { length patches.old.items + length steps.old.items ≤ vec_capacity patches.old }
    requires steps { length patches.old.items + length steps.old.items ≤ vec_capacity steps.old }
    ensures way { GoesOnWithin holder.now steps.old.items steps.new.items patches.old.items patches.new.items gap.old gap.new }
    ensures less { length patches.new.items ≤ length patches.old.items }
    ensures room { length patches.new.items + length steps.new.items ≤ vec_capacity patches.new }
    ensures steps { length patches.new.items + length steps.new.items ≤ vec_capacity steps.new }
{
    'patches: while let Some(patch) = patches.pop() {
        match apply_within(gap, alloc, holder, patch, steps) {
            Ok(step) => steps.push(step).unwrap(),
            Err(same) => {
                patches.push(same).unwrap();
                return;
            }
        }
    }
}

/// Applies the patch, if it puts an item into this body or takes one out of it, and memory for it can be had. Else it
/// gives the same patch. The steps before it may lend their room to the step back.
fn apply_within(
    gap: &mut Gap,
    alloc: Global,
    holder: &Address,
    patch: Patch,
    steps: &mut Vec<Step>,
) -> Result<Step, Patch>
    ensures applied { IfOk result (λ step. IsStepWithin holder.now patch gap.old gap.new step) }
    ensures lent { IfOk result (λ step. IsLent (held_behind step.back (vec_capacity step.room)) steps.old.items steps.new.items) }
    ensures refused { IfErr result (λ same. same ≡ patch) }
    ensures stays { OnErr result (gap.new ≡ gap.old) }
    ensures keeps { OnErr result (steps.new.items ≡ steps.old.items) }
    ensures count { length steps.new.items ≡ length steps.old.items }
    ensures capacity { vec_capacity steps.old ≤ vec_capacity steps.new }
{
    match patch {
        Patch::Insert(address, item) => put_within(gap, alloc, holder, address, item),
        Patch::Delete(address) => take_within(gap, alloc, holder, address, steps),
        other => Err(other),
    }
}

/// Puts the item in, if it goes into this body and there is room for it.
fn put_within(
    gap: &mut Gap,
    alloc: Global,
    holder: &Address,
    address: PatchAddress,
    item: Item,
) -> Result<Step, Patch>
    ensures applied { IfOk result (λ step. IsStepWithin holder.now (Patch.Insert address item) gap.old gap.new step) }
    ensures refused { IfErr result (λ same. same ≡ Patch.Insert address item) }
    ensures stays { OnErr result (gap.new ≡ gap.old) }
{
    if !is_in(&address, holder) || address.number() > gap.len() {
        return Err(Patch::Insert(address, item));
    }
    match gap.insert(address.number(), item) {
        Ok(()) => Ok(Step::new(alloc, Patch::Delete(address))),
        Err(refused) => Err(Patch::Insert(address, refused)),
    }
}

/// Takes the item out, if it stands in this body and there is room to put it in again.
fn take_within(
    gap: &mut Gap,
    alloc: Global,
    holder: &Address,
    address: PatchAddress,
    steps: &mut Vec<Step>,
) -> Result<Step, Patch>
    ensures applied { IfOk result (λ step. IsStepWithin holder.now (Patch.Delete address) gap.old gap.new step) }
    ensures lent { IfOk result (λ step. IsLent (held_behind step.back (vec_capacity step.room)) steps.old.items steps.new.items) }
    ensures refused { IfErr result (λ same. same ≡ Patch.Delete address) }
    ensures stays { OnErr result (gap.new ≡ gap.old) }
    ensures keeps { OnErr result (steps.new.items ≡ steps.old.items) }
    ensures count { length steps.new.items ≡ length steps.old.items }
    ensures capacity { vec_capacity steps.old ≤ vec_capacity steps.new }
{
    if !is_in(&address, holder) || address.number() >= gap.len() {
        return Err(Patch::Delete(address));
    }
    match room_within(steps, alloc, holder, gap.len()) {
        Ok(room) => {
            let item = gap.remove(address.number());
            let back = Patch::Insert(address, item);
            Ok(Step { back, room })
        }
        Err(_) => Err(Patch::Delete(address)),
    }
}

/// Room for so many items of this body: the last step's, where that one lends it, or else new room.
fn room_within(
    steps: &mut Vec<Step>,
    alloc: Global,
    holder: &Address,
    len: usize,
) -> Result<Vec<Item>, AllocError>
    ensures empty { IfOk result (λ room. length room.items ≡ 0) }
    ensures enough { IfOk result (λ room. len ≤ vec_capacity room) }
    ensures lent { IfOk result (λ room. IsLent (held_at holder.now (vec_capacity room)) steps.old.items steps.new.items) }
    ensures keeps { OnErr result (steps.new.items ≡ steps.old.items) }
    ensures count { length steps.new.items ≡ length steps.old.items }
    ensures capacity { vec_capacity steps.old ≤ vec_capacity steps.new }
{
    match lend(steps, alloc, holder, len) {
        Some(room) => Ok(room),
        None => Vec::with_capacity(alloc, len),
    }
}

/// Takes the last step's room, if that step puts an item into this body, and it is room for so many. On the way back,
/// this body is held open once the room's new owner was taken back, so that the step finds the same room.
fn lend(steps: &mut Vec<Step>, alloc: Global, holder: &Address, len: usize) -> Option<Vec<Item>>
    ensures empty { IfSome result (λ room. length room.items ≡ 0) }
    ensures enough { IfSome result (λ room. len ≤ vec_capacity room) }
    ensures lent { IfSome result (λ room. IsLent (held_at holder.now (vec_capacity room)) steps.old.items steps.new.items) }
    ensures keeps { IfNone result (steps.new.items ≡ steps.old.items) }
    ensures count { length steps.new.items ≡ length steps.old.items }
    ensures capacity { vec_capacity steps.old ≤ vec_capacity steps.new }
{
    let step = steps.pop()?;
    if len > step.room.capacity() || !puts_into(&step.back, holder) {
        steps.push(step).unwrap();
        return None;
    }
    let Step { back, room } = step;
    steps.push(Step::new(alloc, back)).unwrap();
    Some(room)
}

/// Whether the patch puts an item into this body.
fn puts_into(patch: &Patch, holder: &Address) -> bool
    ensures { IsTrue result → (room : ℕ) → room ≤ held_for patch.now (held_at holder.now room) }
{
    match patch {
        Patch::Insert(address, _) => is_in(address, holder),
        _ => false,
    }
}

/// Whether the address is that of an item of the body.
fn is_in(address: &PatchAddress, holder: &Address) -> bool
    ensures within { IsTrue result → 0 < length address.now }
    ensures same { IsTrue result → holder.now ≡ holder_of address.now }
{
    address.is_in(holder)
}
