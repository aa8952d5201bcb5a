//! Steps back.
ghost use Rattle.std.specs.Prelude.{◌≡◌, ◌&&◌, IfOk, IsTrue, length, nat_le, nat_lt, insert, remove, option_map, slice_get};
ghost use Rattle.rdl_origin.specs.Traces.{traces_at, map_inside};
ghost use Rattle.rdl_origin.specs.Numbered.{unnumbered_item};
ghost use Rattle.rdl_origin.specs.Back.{changed, change, has_place, has_place_in, moved, touched, put_in, put_at, gone_back, all_gone_back, is_placed, are_placed};

use crate::numbered::unnumbered_item;
use crate::origin::{Origin, Origins};
use rdl_tree::description::Item;
use rdl_tree::patch::Patch;
use std::alloc::{AllocError, Global};

impl Origins {
    /// Takes one step back, as these patches say, the first first. False where one of them has no place: then nothing is
    /// promised of what is left.
    pub fn go_back(&mut self, alloc: Global, step: &[Patch]) -> Result<bool, AllocError>
        ensures placed { IfOk result (λ placed. placed ≡ are_placed step.now self.old) }
        ensures gone { IfOk result (λ placed. IsTrue placed → self.new ≡ all_gone_back step.now self.old) }
    {
        'patches: for patch in step {
            if !self.take_back(alloc, patch)? {
                return Ok(false);
            }
        }
        Ok(true)
    }

    fn take_back(&mut self, alloc: Global, patch: &Patch) -> Result<bool, AllocError>
        ensures placed { IfOk result (λ placed. placed ≡ is_placed patch.now self.old) }
        ensures gone { IfOk result (λ placed. IsTrue placed → self.new ≡ gone_back patch.now self.old) }
    {
        let address = patch.address();
        if address.is_empty() {
            return Ok(false);
        }
        let holder = address.holder();
        self.change_at(alloc, holder.as_slice(), address.number(), patch)
    }

    /// Changes the body to which the numbers lead, where the patch's item has this number.
    fn change_at(
        &mut self,
        alloc: Global,
        way: &[usize],
        number: usize,
        patch: &Patch,
    ) -> Result<bool, AllocError>
        ensures placed { IfOk result (λ placed. placed ≡ has_place_in patch.now number (traces_at way.now self.old)) }
        ensures gone { IfOk result (λ placed. IsTrue placed → self.new ≡ map_inside way.now (changed patch.now number) self.old) }
    {
        match way {
            [] => Ok(change(&mut self.list, alloc, number, patch)?),
            [first, rest @ ..] => {
                let Some(origin) = self.list.get_mut(*first) else {
                    return Ok(false);
                };
                let placed = origin.inside.change_at(alloc, rest, number, patch)?;
                Ok(placed)
            }
        }
    }
}

/// Changes the items of the body in which the patch's item has this number.
fn change(
    list: &mut Vec<Origin>,
    alloc: Global,
    number: usize,
    patch: &Patch,
) -> Result<bool, AllocError>
    ensures placed { IfOk result (λ placed. placed ≡ has_place patch.now number (length list.old.items)) }
    ensures gone { IfOk result (λ placed. IsTrue placed → list.new.items ≡ change patch.now number list.old.items) }
{
    match patch {
        Patch::Insert(_, item) => insert(list, alloc, number, item),
        Patch::Delete(_) => Ok(delete(list, number)),
        Patch::Shift(_, to) => shift(list, number, *to),
        Patch::Exchange(_, _) => Ok(touch(list, number)),
    }
}

/// Puts in an item that was removed.
fn insert(
    list: &mut Vec<Origin>,
    alloc: Global,
    number: usize,
    item: &Item,
) -> Result<bool, AllocError>
    ensures placed { IfOk result (λ placed. placed ≡ nat_le number (length list.old.items)) }
    ensures gone { IfOk result (λ placed. IsTrue placed → list.new.items ≡ insert list.old.items number (unnumbered_item item.now)) }
{
    if number > list.len() {
        return Ok(false);
    }
    list.insert(number, unnumbered_item(alloc, item)?)?;
    Ok(true)
}

/// Takes out an item that was added.
fn delete(list: &mut Vec<Origin>, number: usize) -> bool
    ensures placed { result ≡ nat_lt number (length list.old.items) }
    ensures gone { IsTrue result → list.new.items ≡ remove list.old.items number }
{
    if number >= list.len() {
        return false;
    }
    list.remove(number);
    true
}

/// Moves an item, and marks it if it had another place.
fn shift(list: &mut Vec<Origin>, from: usize, to: usize) -> Result<bool, AllocError>
    ensures placed { IfOk result (λ placed. placed ≡ (nat_lt from (length list.old.items) && nat_lt to (length list.old.items))) }
    ensures gone { IfOk result (λ placed. IsTrue placed → list.new.items ≡ put_in to (option_map (moved from to) (slice_get list.old.items from)) (remove list.old.items from)) }
{
    if from >= list.len() || to >= list.len() {
        return Ok(false);
    }
    let mut origin = list.remove(from);
    origin.is_moved = origin.is_moved || from != to;
    list.insert(to, origin)?;
    Ok(true)
}

/// Marks an item of which a part was changed.
fn touch(list: &mut Vec<Origin>, number: usize) -> bool
    ensures placed { result ≡ nat_lt number (length list.old.items) }
    ensures gone { IsTrue result → list.new.items ≡ put_at number (option_map touched (slice_get list.old.items number)) list.old.items }
{
    if number >= list.len() {
        return false;
    }
    list[number].is_touched = true;
    true
}
