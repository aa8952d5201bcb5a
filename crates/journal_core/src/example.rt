//! A list whose step back is a whole copy.
ghost use Rattle.std.specs.Prelude.{◌≡◌, ℕ, ◌++◌, List, [], ◌∷◌, length, map, IfOk};
ghost use Rattle.journal_core.specs.History.{resumed};

use crate::invertible::Invertible;
use crate::journal::Journal;
use std::alloc::{AllocError, Global};
use std::marker::Model;
use std::mem;

#[derive(Drop)]
pub struct Numbers {
    items: Vec<u64>,
}

#[derive(Drop)]
pub enum Change {
    Push(u64),
    Clear,
}

#[derive(Debug, Drop)]
pub enum Refusal {
    Seven,
    Memory,
}

/// What a contract knows of `Numbers`. Code makes none.
#[derive(Drop)]
pub struct NumbersState {
    unit: (),
}

impl Model for NumbersState {
    ghost use Rattle.std.specs.Prelude.{ℕ, List, []};

    ghost Value = { List ℕ };

    ghost view = { λ _. [] };
}

impl Numbers {
    pub fn new(alloc: Global) -> Numbers
        ensures { result.items.items ≡ [] }
    {
        Numbers {
            items: Vec::new(alloc),
        }
    }

    pub fn of(items: Vec<u64>) -> Numbers
        ensures { result.items.items ≡ items.items }
    {
        Numbers { items }
    }

    pub fn as_slice(&self) -> &[u64]
        ensures { result.now ≡ self.now.items.items }
    {
        self.items.as_slice()
    }
}

impl Invertible for Numbers {
    ghost use Rattle.std.specs.Prelude.{◌≡◌, ℕ, List};
    ghost use Rattle.journal_core.specs.Example.{Leads, Refuses};

    type Change = Change;

    type Back = Vec<u64>;

    type Refusal = Refusal;

    type State = NumbersState;

    ghost state = { λ m. m.items.items };

    ghost prior = { λ s b. b.items };

    ghost fits = { λ s b. Unit {0} };

    ghost own = { λ s b. Unit {0} };

    ghost leaves = { λ s change b. b.items ≡ s };

    ghost turns = { λ s b c. c.items ≡ s };

    ghost leads = { Leads };

    ghost refuses = { Refuses };

    fn apply(&mut self, alloc: Global, change: &Change) -> Result<Vec<u64>, Refusal> {
        match Vec::from_slice(alloc, self.items.as_slice()) {
            Err(_) => Err(Refusal::Memory),
            Ok(copy) => match change {
                Change::Clear => {
                    self.items.clear();
                    Ok(copy)
                }
                Change::Push(7) => Err(Refusal::Seven),
                Change::Push(n) => {
                    if self.items.push(*n).is_err() {
                        return Err(Refusal::Memory);
                    }
                    Ok(copy)
                }
            },
        }
    }

    fn revert(&mut self, _alloc: Global, back: Vec<u64>) -> Result<Vec<u64>, Vec<u64>> {
        Ok(mem::replace(&mut self.items, back))
    }
}

/// A history that goes on at a list, between those behind it and those ahead of it, each with the nearest first.
pub fn between(
    now: Numbers,
    limit: u32,
    behind: Vec<Vec<u64>>,
    ahead: Vec<Vec<u64>>,
) -> Journal<Numbers>
    ensures history { result.history ≡ resumed limit (map (λ list. list.items) behind.items) now.items.items (map (λ list. list.items) ahead.items) }
    ensures undo { result.undo ≡ behind.items }
    ensures redo { result.redo ≡ ahead.items }
{
    Journal::resume(now, limit, behind, ahead)
}
