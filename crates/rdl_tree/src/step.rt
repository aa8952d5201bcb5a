//! One patch applied, and one step taken back.
ghost use Rattle.std.specs.Prelude.{◌≡◌, [], ◌∷◌, ◌++◌, ◌+◌, ◌<◌, ◌≤◌, IsTrue, IfOk, IfErr, OnOk, OnErr, Some, length, vec_capacity};
ghost use Rattle.rdl_tree.specs.Address.{body_at, holder_of};
ghost use Rattle.rdl_tree.specs.Patch.{patched, fits, inverse, length_of};
ghost use Rattle.rdl_tree.specs.Way.{none_held, is_placed, has_room, is_ready};
ghost use Rattle.rdl_tree.specs.Gap.{ComesBack, PutsBack};
ghost use Rattle.rdl_tree.specs.Step.{IsStep};

use crate::back::fill;
use crate::description::{Description, Item};
use crate::exchanges::swap_part;
use crate::part::Part;
use crate::patch::Patch;
use crate::patch_address::PatchAddress;
use crate::way::Step;
use std::alloc::{AllocError, Global};

/// Takes a step back. Where it puts an item into a body, the steps that come next are taken back, too, as far as they put
/// items into the same body. The patches that take each of them back go behind the others. This takes no memory.
pub(crate) fn step_back(
    description: &mut Description,
    step: Step,
    steps: &mut Vec<Step>,
    patches: &mut Vec<Patch>,
)
    requires ready { IsTrue (is_ready step description.old.items) }
    requires room { length patches.old.items + length steps.old.items < vec_capacity patches.old }
    ensures way { ComesBack none_held (steps.old.items ++ step ∷ []) steps.new.items patches.old.items patches.new.items description.old.items description.new.items }
    ensures less { length steps.new.items ≤ length steps.old.items }
    ensures room { length patches.new.items + length steps.new.items ≤ vec_capacity patches.new }
{
    let Step { back, room } = step;
    match back {
        Patch::Insert(address, item) => put_in(description, address, item, room, steps, patches),
        Patch::Delete(address) => {
            let patch = take_out(description, address);
            patches.push(patch).unwrap();
        }
        Patch::Shift(address, to) => {
            let patch = shift(description, address, to);
            patches.push(patch).unwrap();
        }
        Patch::Exchange(address, part) => {
            let patch = exchange(description, address, part);
            patches.push(patch).unwrap();
        }
    }
}

/// Applies the patch, and gives the step back. Where memory is refused, it gives the same patch.
pub(crate) fn apply(
    description: &mut Description,
    alloc: Global,
    patch: Patch,
) -> Result<Step, Patch>
    requires { IsTrue (fits patch description.old.items) }
    ensures applied { IfOk result (λ step. IsStep patch description.old.items description.new.items step) }
    ensures refused { IfErr result (λ same. same ≡ patch) }
    ensures stays { OnErr result (description.new.items ≡ description.old.items) }
{
    match patch {
        Patch::Insert(address, item) => insert(description, alloc, address, item),
        Patch::Delete(address) => delete(description, alloc, address),
        Patch::Shift(address, to) => {
            let back = shift(description, address, to);
            Ok(Step::new(alloc, back))
        }
        Patch::Exchange(address, part) => {
            let back = exchange(description, address, part);
            Ok(Step::new(alloc, back))
        }
    }
}

/// Puts the item in, if memory for it can be had.
fn insert(
    description: &mut Description,
    alloc: Global,
    address: PatchAddress,
    item: Item,
) -> Result<Step, Patch>
    requires { IsTrue (fits (Patch.Insert address item) description.old.items) }
    ensures applied { OnOk result (description.new.items ≡ patched (Patch.Insert address item) description.old.items) }
    ensures back { IfOk result (λ step. inverse (Patch.Insert address item) description.old.items ≡ step.back ∷ []) }
    ensures room { IfOk result (λ step. IsTrue (has_room step.back (vec_capacity step.room) description.new.items)) }
    ensures refused { IfErr result (λ same. same ≡ Patch.Insert address item) }
    ensures stays { OnErr result (description.new.items ≡ description.old.items) }
{
    let inserted = match description.body_mut(&address.holder()) {
        Some(body) => body.insert(address.number(), item),
        None => unreachable!(),
    };
    match inserted {
        Ok(()) => Ok(Step::new(alloc, Patch::Delete(address))),
        Err(refused) => Err(Patch::Insert(address, refused.value)),
    }
}

/// Takes the item out, if memory to put it in again can be had.
fn delete(
    description: &mut Description,
    alloc: Global,
    address: PatchAddress,
) -> Result<Step, Patch>
    requires { IsTrue (fits (Patch.Delete address) description.old.items) }
    ensures applied { OnOk result (description.new.items ≡ patched (Patch.Delete address) description.old.items) }
    ensures back { IfOk result (λ step. inverse (Patch.Delete address) description.old.items ≡ step.back ∷ []) }
    ensures room { IfOk result (λ step. IsTrue (has_room step.back (vec_capacity step.room) description.new.items)) }
    ensures refused { IfErr result (λ same. same ≡ Patch.Delete address) }
    ensures stays { OnErr result (description.new.items ≡ description.old.items) }
{
    match room_for(description, alloc, &address) {
        Ok(room) => {
            let back = take_out(description, address);
            Ok(Step { back, room })
        }
        Err(_) => Err(Patch::Delete(address)),
    }
}

/// Room for all items of the body that holds the item.
fn room_for(
    description: &Description,
    alloc: Global,
    address: &PatchAddress,
) -> Result<Vec<Item>, AllocError>
    requires { IsTrue (fits (Patch.Delete address.now) description.now.items) }
    ensures empty { IfOk result (λ room. length room.items ≡ 0) }
    ensures room { IfOk result (λ room. length_of (body_at (holder_of address.now) description.now.items) ≡ Some (vec_capacity room)) }
{
    match description.body(&address.holder()) {
        Some(body) => Vec::with_capacity(alloc, body.len()),
        None => unreachable!(),
    }
}

/// Puts the item in, within the room, and goes on with the steps that put items into the same body.
fn put_in(
    description: &mut Description,
    address: PatchAddress,
    item: Item,
    room: Vec<Item>,
    steps: &mut Vec<Step>,
    patches: &mut Vec<Patch>,
)
    requires placed { IsTrue (is_placed (Patch.Insert address item) description.old.items) }
    requires room { IsTrue (has_room (Patch.Insert address item) (vec_capacity room) description.old.items) }
    requires empty { length room.items ≡ 0 }
    requires patches { length patches.old.items + length steps.old.items < vec_capacity patches.old }
    ensures way { PutsBack address item (vec_capacity room) steps.old.items steps.new.items patches.old.items patches.new.items description.old.items description.new.items }
    ensures less { length steps.new.items ≤ length steps.old.items }
    ensures patches { length patches.new.items + length steps.new.items ≤ vec_capacity patches.new }
{
    match description.body_mut(&address.holder()) {
        Some(body) => fill(body, address, item, room, steps, patches),
        None => unreachable!(),
    }
}

/// Takes the item out, and gives the patch that puts it in again.
fn take_out(description: &mut Description, address: PatchAddress) -> Patch
    requires { IsTrue (fits (Patch.Delete address) description.old.items) }
    ensures changed { description.new.items ≡ patched (Patch.Delete address) description.old.items }
    ensures inverse { inverse (Patch.Delete address) description.old.items ≡ result ∷ [] }
{
    let item = match description.body_mut(&address.holder()) {
        Some(body) => body.remove(address.number()),
        None => unreachable!(),
    };
    Patch::Insert(address, item)
}

/// Moves the item, and gives the patch that moves it back.
fn shift(description: &mut Description, address: PatchAddress, to: usize) -> Patch
    requires { IsTrue (fits (Patch.Shift address to) description.old.items) }
    ensures changed { description.new.items ≡ patched (Patch.Shift address to) description.old.items }
    ensures inverse { inverse (Patch.Shift address to) description.old.items ≡ result ∷ [] }
{
    let holder = address.holder();
    let number = address.number();
    match description.body_mut(&holder) {
        Some(body) => body.shift(number, to),
        None => unreachable!(),
    }
    Patch::Shift(address.moved(to), number)
}

/// Puts the part in the place of the item's own, and gives the patch that puts that one back.
fn exchange(description: &mut Description, address: PatchAddress, part: Part) -> Patch
    requires { IsTrue (fits (Patch.Exchange address part) description.old.items) }
    ensures changed { description.new.items ≡ patched (Patch.Exchange address part) description.old.items }
    ensures inverse { inverse (Patch.Exchange address part) description.old.items ≡ result ∷ [] }
{
    let mut part = part;
    swap_part(description, &address, &mut part);
    Patch::Exchange(address, part)
}
