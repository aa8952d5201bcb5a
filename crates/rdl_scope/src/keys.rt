//! The dynamic assignments that were passed in a body.
ghost use Rattle.std.specs.Prelude.{◌≡◌, IfOk};
ghost use Rattle.rdl_scope.specs.KeySpot.{FreeHaveNone, names, texts};

use crate::by_name::{FEW, SLOTS, number_behind};
use crate::entry::Spot;
use crate::key_spot::{Key, front_of, spot_of};
use std::alloc::{AllocError, Global};
use std::collections::BTreeSet;

/// The names of a key, in an order in which it is compared to others.
fn names_of<'a>(alloc: Global, key: &Key<'a>) -> Result<Vec<&'a str>, AllocError>
    ensures { IfOk result (λ made. texts made.items ≡ names key.now) }
{
    let target = key.target.names();
    let mut names = Vec::with_capacity(alloc, target.len().saturating_add(1))?;
    names.push(key.name.as_str())?;
    for part in target {
        names.push(part.as_str())?;
    }
    Ok(names)
}

/// The keys of dynamic assignments.
///
/// Each key has a slot, by its front. The first key of a slot has it, and all others of that slot stand in an order, so that
/// keys which somebody has chosen to share their slots cost no more than an ordered look-up.
#[derive(Drop)]
pub(crate) struct Keys<'a> {
    /// How many keys are awaited.
    room: usize,
    /// One more than the number of a first key, or 0. There are none before the first key is noted.
    slots: Vec<u32>,
    firsts: Vec<Key<'a>>,
    /// The others, each behind its front.
    others: BTreeSet<(u64, Vec<&'a str>)>,
    ghost free: { FreeHaveNone slots.items others },
}

impl<'a> Keys<'a> {
    ghost use Rattle.std.specs.Prelude.{◌≡◌, ◌||◌, ℕ, List, Bool, false, bytes_eq, IfOk, OnOk};
    ghost use Rattle.std.specs.Cmp.Lexicographic.{pointwise};
    ghost use Rattle.rdl_scope.specs.KeySpot.{key_front, key_spot, is_of, names};
    ghost use Rattle.rdl_scope.specs.Keys.{held, Holds};
    ghost use Rattle.rdl_scope.specs.declared.entry.Spot.TheVariants.{Free, Other};

    /// No keys, where so many are awaited. There may be more.
    pub(crate) fn with_room(alloc: Global, room: usize) -> Keys<'a>
        ensures { Holds result (λ key. false) }
    {
        Keys {
            room,
            slots: Vec::new(alloc),
            firsts: Vec::new(alloc),
            others: BTreeSet::new(alloc),
        }
    }

    /// Makes the slots, if many keys are awaited and none was noted.
    fn begin(&mut self, alloc: Global) -> Result<(), AllocError>
        ensures { OnOk result ((q : List (List ℕ)) → held self.new q ≡ held self.old q) }
    {
        if self.room < FEW || !self.firsts.is_empty() || !self.others.is_empty() {
            return Ok(());
        }
        let mut slots = Vec::new(alloc);
        slots.resize(self.room.saturating_mul(SLOTS), 0)?;
        self.slots = slots;
        Ok(())
    }

    /// Puts in a key whose slot has nothing.
    fn take(&mut self, slot: usize, key: Key<'a>) -> Result<(), AllocError>
        requires { key_spot self.old.slots.items self.old.firsts.items (names key) ≡ Free slot }
        ensures { OnOk result ((q : List (List ℕ)) → held self.new q ≡ is_of q key.entry || held self.old q) }
    {
        let number = number_behind(self.firsts.len()).ok_or(AllocError)?;
        self.firsts.push(key)?;
        self.slots[slot] = number;
        Ok(())
    }

    /// Notes a key whose slot another has, and answers whether it stood there before.
    fn note_other(&mut self, alloc: Global, front: u64, key: &Key<'a>) -> Result<bool, AllocError>
        requires front { front ≡ key_front (names key.now) }
        requires other { key_spot self.old.slots.items self.old.firsts.items (names key.now) ≡ Other }
        ensures twice { IfOk result (λ twice. twice ≡ held self.old (names key.entry.now)) }
        ensures noted { OnOk result ((q : List (List ℕ)) → held self.new q ≡ is_of q key.entry.now || held self.old q) }
    {
        let names = names_of(alloc, key)?;
        let is_new = self.others.insert((front, names))?;
        Ok(!is_new)
    }

    /// Notes a key, and answers whether it stood there before.
    pub(crate) fn note(&mut self, alloc: Global, key: Key<'a>) -> Result<bool, AllocError>
        ensures twice { IfOk result (λ twice. (f : List (List ℕ) → Bool) → Holds self.old f → twice ≡ f (names key.entry)) }
        ensures noted { OnOk result ((f : List (List ℕ) → Bool) → Holds self.old f → Holds self.new (λ q. pointwise bytes_eq (names key.entry) q || f q)) }
    {
        self.begin(alloc)?;
        let front = front_of(&key);
        match spot_of(self.slots.as_slice(), self.firsts.as_slice(), front, &key) {
            Spot::Free(slot) => {
                self.take(slot, key)?;
                Ok(false)
            }
            Spot::Own(_) => Ok(true),
            Spot::Other => self.note_other(alloc, front, &key),
        }
    }
}
