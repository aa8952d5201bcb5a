//! Steps that put items into one body, taken back one after another while the body is held open.
ghost use Rattle.std.specs.Prelude.{◌≡◌, [], ◌+◌, ◌<◌, ◌≤◌, ◌++◌, IsTrue, IsFalse, IfOk, IfErr, OnOk, OnErr, length, reverse, vec_capacity};
ghost use Rattle.rdl_tree.specs.Items.{Items};
ghost use Rattle.rdl_tree.specs.View.{items_of, list_of};
ghost use Rattle.rdl_tree.specs.Address.{number_of};
ghost use Rattle.rdl_tree.specs.Edit.{insert_item};
ghost use Rattle.rdl_tree.specs.Gap.{around, goes_in, is_into, IsBackWithin, ComesBackHolding, PutsBackWithin};

use crate::address::Address;
use crate::description::{Body, Item};
use crate::gap::pour;
use crate::patch::Patch;
use crate::patch_address::PatchAddress;
use crate::way::Step;
use std::mem;

/// Puts the item in, and all items into the room. Then the steps that come next are taken back, the last one first, as
/// far as they put items into this body, too, within the room. The patches that take each of them back, and that which
/// takes the item out again, go behind the others. This takes no memory.
pub(crate) fn fill(
    body: &mut Body,
    address: PatchAddress,
    item: Item,
    room: Vec<Item>,
    steps: &mut Vec<Step>,
    patches: &mut Vec<Patch>,
)
    requires there { 0 < length address }
    requires within { number_of address ≤ length (list_of body.old) }
    requires empty { length room.items ≡ 0 }
    requires room { length (list_of body.old) < vec_capacity room }
    requires patches { length patches.old.items + length steps.old.items < vec_capacity patches.old }
    ensures way { PutsBackWithin address item (vec_capacity room) steps.old.items steps.new.items patches.old.items patches.new.items body.old body.new }
    ensures less { length steps.new.items ≤ length steps.old.items }
    ensures patches { length patches.new.items + length steps.new.items ≤ vec_capacity patches.new }
{
    let holder = address.holder();
    let mut behind = mem::replace(&mut body.items, Vec::new(*room.allocator()));
    let mut front = move_in(&mut behind, address.number(), item, room);
    patches.push(Patch::Delete(address)).unwrap();
    go_on(&mut front, &mut behind, &holder, steps, patches);
    pour(&mut behind, &mut front, 0);
    body.items = front;
}

/// Puts the items into the room, and one more where it has this number.
fn move_in(items: &mut Vec<Item>, number: usize, item: Item, mut room: Vec<Item>) -> Vec<Item>
    requires within { number ≤ length items.old.items }
    requires empty { length room.items ≡ 0 }
    requires room { length items.old.items < vec_capacity room }
    ensures none { items.new.items ≡ [] }
    ensures one_more { items_of result.items ≡ insert_item number item (items_of items.old.items) }
    ensures count { length result.items ≡ length items.old.items + 1 }
    ensures capacity { vec_capacity room ≤ vec_capacity result }
{
    match room.append(items) {
        Ok(()) => {}
        Err(_) => unreachable!(),
    }
    match room.insert(number, item) {
        Ok(()) => {}
        Err(_) => unreachable!(),
    }
    room
}

/// Takes the steps back, the last one first, as far as they put items into the body that is held open, within its room.
fn go_on(
    front: &mut Vec<Item>,
    behind: &mut Vec<Item>,
    holder: &Address,
    steps: &mut Vec<Step>,
    patches: &mut Vec<Patch>,
)
    requires room { length front.old.items + length behind.old.items ≤ vec_capacity front.old }
    requires patches { length patches.old.items + length steps.old.items ≤ vec_capacity patches.old }
    ensures way { ComesBackHolding holder.now (vec_capacity front.old) steps.old.items steps.new.items patches.old.items patches.new.items (around front.old.items behind.old.items) (around front.new.items behind.new.items) }
    ensures room { length front.new.items + length behind.new.items ≤ vec_capacity front.new }
    ensures less { length steps.new.items ≤ length steps.old.items }
    ensures patches { length patches.new.items + length steps.new.items ≤ vec_capacity patches.new }
{
    'steps: while let Some(step) = steps.pop() {
        match put_again(front, behind, holder, step) {
            Ok(patch) => patches.push(patch).unwrap(),
            Err(same) => {
                steps.push(same).unwrap();
                return;
            }
        }
    }
}

/// Takes the step back, if it puts an item into this body, within the room. Else it gives the same step.
fn put_again(
    front: &mut Vec<Item>,
    behind: &mut Vec<Item>,
    holder: &Address,
    step: Step,
) -> Result<Patch, Step>
    requires room { length front.old.items + length behind.old.items ≤ vec_capacity front.old }
    ensures fits { OnOk result (IsTrue (goes_in step holder.now (length front.old.items + length behind.old.items) (vec_capacity front.old))) }
    ensures taken { IfOk result (λ patch. IsBackWithin holder.now step.back (around front.old.items behind.old.items) (around front.new.items behind.new.items) patch) }
    ensures unfit { OnErr result (IsFalse (goes_in step holder.now (length front.old.items + length behind.old.items) (vec_capacity front.old))) }
    ensures refused { IfErr result (λ same. same ≡ step) }
    ensures stays { OnErr result (around front.new.items behind.new.items ≡ around front.old.items behind.old.items) }
    ensures room { length front.new.items + length behind.new.items ≤ vec_capacity front.new }
    ensures capacity { vec_capacity front.old ≤ vec_capacity front.new }
{
    if !is_within(&step, holder, front.len() + behind.len(), front.capacity()) {
        return Err(step);
    }
    let Step { back, room: _room } = step;
    match back {
        Patch::Insert(address, item) => {
            put_between(front, behind, address.number(), item);
            Ok(Patch::Delete(address))
        }
        Patch::Delete(_address) => unreachable!(),
        Patch::Shift(_address, _to) => unreachable!(),
        Patch::Exchange(_address, _part) => unreachable!(),
    }
}

/// Whether the step puts an item into this body, which has so many and room for so many, and the step has no more.
fn is_within(step: &Step, holder: &Address, len: usize, capacity: usize) -> bool
    ensures { result ≡ goes_in step.now holder.now len capacity }
{
    goes_into(&step.back, holder, len) && step.room.capacity() <= capacity && len < capacity
}

/// Whether the patch puts an item into this body, which has so many.
fn goes_into(patch: &Patch, holder: &Address, len: usize) -> bool
    ensures { result ≡ is_into patch.now holder.now len }
{
    match patch {
        Patch::Insert(address, _) => address.is_in(holder) && address.number() <= len,
        Patch::Delete(_) | Patch::Shift(_, _) | Patch::Exchange(_, _) => false,
    }
}

/// Puts the item where it has this number.
fn put_between(front: &mut Vec<Item>, behind: &mut Vec<Item>, number: usize, item: Item)
    requires there { number ≤ length front.old.items + length behind.old.items }
    requires room { length front.old.items + length behind.old.items < vec_capacity front.old }
    ensures after { around front.new.items behind.new.items ≡ insert_item number item (around front.old.items behind.old.items) }
    ensures count { length front.new.items + length behind.new.items ≡ length front.old.items + length behind.old.items + 1 }
    ensures capacity { vec_capacity front.old ≤ vec_capacity front.new }
{
    come_near(front, behind, number);
    match front.insert(number, item) {
        Ok(()) => {}
        Err(_) => unreachable!(),
    }
}

/// Moves items from one list to the other, so that at least so many are in front, and no more where there is room for
/// the others behind.
fn come_near(front: &mut Vec<Item>, behind: &mut Vec<Item>, number: usize)
    requires there { number ≤ length front.old.items + length behind.old.items }
    requires room { length front.old.items + length behind.old.items ≤ vec_capacity front.old }
    ensures same { front.new.items ++ reverse behind.new.items ≡ front.old.items ++ reverse behind.old.items }
    ensures there { number ≤ length front.new.items }
    ensures count { length front.new.items + length behind.new.items ≡ length front.old.items + length behind.old.items }
    ensures capacity { vec_capacity front.old ≤ vec_capacity front.new }
{
    if number >= front.len() {
        let left = behind.len() - (number - front.len());
        pour(behind, front, left);
    } else if front.len() + behind.len() <= behind.capacity() {
        pour(front, behind, number);
    }
}
