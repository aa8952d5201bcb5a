//! What stands under names.
ghost use Rattle.std.specs.Prelude.{◌≡◌, ◌+◌, IfSome};
ghost use Rattle.rdl_scope.specs.Spot.{FreeHaveNone};

use crate::entry::{Entry, Spot, spot_of};
use crate::front::key_of;
use std::alloc::{AllocError, Global};
use std::collections::BTreeMap;
use std::mem;

/// How few names are put in an order alone.
pub(crate) const FEW: usize = 16;

/// How many slots there are for each name that is awaited.
pub(crate) const SLOTS: usize = 4;

/// Values under names, one under each.
///
/// Each name has a slot, by its front. The first name of a slot has it, and all others of that slot stand in an order, so that
/// names which somebody has chosen to share their slots cost no more than an ordered look-up.
#[derive(Drop)]
pub struct ByName<'a, V> {
    /// One more than the number of an entry, or 0.
    slots: Vec<u32>,
    entries: Vec<Entry<'a, V>>,
    others: BTreeMap<(u64, &'a str), V>,
    ghost free: { FreeHaveNone slots.items others },
}

/// One more than the number of the entry behind so many.
pub(crate) fn number_behind(len: usize) -> Option<u32>
    ensures { IfSome result (λ n. n ≡ len + 1) }
{
    u32::try_from(len).ok()?.checked_add(1)
}

impl<'a, V: Copy> ByName<'a, V> {
    ghost use Rattle.std.specs.Prelude.{◌≡◌, ℕ, List, Some, None, IfOk, OnOk, OnErr, bytes_eq, if◌then◌else◌};
    ghost use Rattle.rdl_scope.specs.ByName.{value_under};
    ghost use Rattle.rdl_scope.specs.Front.{front};
    ghost use Rattle.rdl_scope.specs.Spot.{spot};
    ghost use Rattle.rdl_scope.specs.declared.entry.Spot.TheVariants.{Free};

    /// Nothing under any name.
    pub fn new(alloc: Global) -> ByName<'a, V>
        ensures { (q : List ℕ) → value_under result q ≡ None }
    {
        ByName {
            slots: Vec::new(alloc),
            entries: Vec::new(alloc),
            others: BTreeMap::new(alloc),
        }
    }

    /// Nothing under any name, where so many names are awaited. There may be more.
    pub fn with_room(alloc: Global, names: usize) -> Result<ByName<'a, V>, AllocError>
        ensures { IfOk result (λ m. (q : List ℕ) → value_under m q ≡ None) }
    {
        if names < FEW {
            return Ok(ByName::new(alloc));
        }
        let mut slots = Vec::new(alloc);
        slots.resize(names.saturating_mul(SLOTS), 0)?;
        Ok(ByName {
            slots,
            entries: Vec::with_capacity(alloc, names)?,
            others: BTreeMap::new(alloc),
        })
    }

    /// What stands under the name.
    pub fn get(&self, name: &'a str) -> Option<V>
        ensures { result ≡ value_under self.now name.now }
    {
        let key = key_of(name);
        match spot_of(self.slots.as_slice(), self.entries.as_slice(), key.0, name) {
            Spot::Free(_) => None,
            Spot::Own(number) => self.entries.as_slice().get(number)?.value,
            Spot::Other => Some(*self.others.get(&key)?),
        }
    }

    /// Puts in the entry of a name whose slot has nothing.
    fn take(&mut self, slot: usize, entry: Entry<'a, V>) -> Result<(), AllocError>
        requires free { spot self.old.slots.items self.old.entries.items entry.name.now ≡ Free slot }
        requires front { entry.front ≡ front entry.name.now }
        ensures after { OnOk result ((q : List ℕ) → value_under self.new q ≡ (if bytes_eq entry.entry.name.now q then entry.entry.value else value_under self.old q)) }
        ensures err { OnErr result ((q : List ℕ) → value_under self.new q ≡ value_under self.old q) }
    {
        let number = number_behind(self.entries.len()).ok_or(AllocError)?;
        self.entries.push(entry)?;
        self.slots[slot] = number;
        Ok(())
    }

    /// Puts the value under the name, in the place of what was there, and answers that. It can want for memory only where
    /// nothing was there.
    pub fn put(&mut self, name: &'a str, value: V) -> Result<Option<V>, AllocError>
        ensures before { IfOk result (λ before. before ≡ value_under self.old name.now) }
        ensures after { OnOk result ((q : List ℕ) → value_under self.new q ≡ (if bytes_eq name.now q then Some value else value_under self.old q)) }
        ensures absent { OnErr result (value_under self.old name.now ≡ None) }
        ensures err { OnErr result ((q : List ℕ) → value_under self.new q ≡ value_under self.old q) }
    {
        let key = key_of(name);
        match spot_of(self.slots.as_slice(), self.entries.as_slice(), key.0, name) {
            Spot::Free(slot) => {
                let entry = Entry {
                    front: key.0,
                    name,
                    value: Some(value),
                };
                self.take(slot, entry)?;
                Ok(None)
            }
            Spot::Own(number) => Ok(mem::replace(&mut self.entries[number].value, Some(value))),
            Spot::Other => Ok(self.others.insert(key, value)?),
        }
    }

    /// Takes away what stands under the name.
    pub fn remove(&mut self, name: &'a str)
        ensures { (q : List ℕ) → value_under self.new q ≡ (if bytes_eq name.now q then None else value_under self.old q) }
    {
        let key = key_of(name);
        match spot_of(self.slots.as_slice(), self.entries.as_slice(), key.0, name) {
            Spot::Free(_) => {}
            Spot::Own(number) => self.entries[number].value = None,
            Spot::Other => {
                self.others.remove(&key);
            }
        }
    }
}
