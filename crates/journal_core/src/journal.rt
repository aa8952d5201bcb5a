//! The history.
ghost use Rattle.std.specs.Prelude.{◌≡◌, true, ◌+◌, ◌-◌, ◌≤◌, [], ◌∷◌, length, Ok, Err, None, IfErr, IfSome, OnOk, OnErr, ◌↔◌, option_copied, slice_get};
ghost use mathlib.Core.List.{reverse};
ghost use Rattle.journal_core.specs.declared.fault.EditFault.{EditFault};
ghost use Rattle.journal_core.specs.declared.fault.StepFault.TheVariants.{Nothing};
ghost use Rattle.journal_core.specs.Along.{FitAlong, FitInTurn, Steps, TurnsOwn, led_through};
ghost use Rattle.journal_core.specs.History.{after_undo, after_redo, resumed, Adds, AllAre, Edits, IsAt, LeadsBetween, Moves};
ghost use Rattle.journal_core.specs.Faults.{Explains};

use crate::fault::{EditFault, StepFault};
use crate::invertible::Invertible;
use std::alloc::Global;
use std::marker::Model;

/// Takes the last step of one stack, and puts the step that leads there again on the other.
fn take_step<M: Invertible>(
    alloc: Global,
    map: &mut M,
    from: &mut Vec<M::Back>,
    to: &mut Vec<M::Back>,
) -> Result<(), StepFault>
    requires from_fit { (FitAlong M.prior M.fits (M.state map.old) from.old.items) }
    requires to_fit { (FitAlong M.prior M.fits (M.state map.old) to.old.items) }
    ensures ok { OnOk result (Steps M.prior (TurnsOwn M.prior M.own M.turns) (M.state map.old) (M.state map.new) from.old.items from.new.items to.old.items to.new.items) }
    ensures nothing { (length from.old.items ≡ 0) ↔ (result ≡ Err Nothing) }
    ensures map { OnErr result (M.state map.new ≡ M.state map.old) }
    ensures from { OnErr result (from.new.items ≡ from.old.items) }
    ensures to { OnErr result (to.new.items ≡ to.old.items) }
    ensures from_fits { (FitAlong M.prior M.fits (M.state map.new) from.new.items) }
    ensures to_fits { (FitAlong M.prior M.fits (M.state map.new) to.new.items) }
    ensures from_own { (FitAlong M.prior M.own (M.state map.old) from.old.items) → FitAlong M.prior M.own (M.state map.new) from.new.items }
    ensures to_own { (FitAlong M.prior M.own (M.state map.old) from.old.items) → (FitAlong M.prior M.own (M.state map.old) to.old.items) → FitAlong M.prior M.own (M.state map.new) to.new.items }
{
    if from.is_empty() {
        return Err(StepFault::Nothing);
    }
    if to.reserve(1).is_err() {
        return Err(StepFault::Memory);
    }
    let back = from.pop().unwrap();
    match map.revert(alloc, back) {
        Ok(forward) => {
            to.push(forward).unwrap();
            Ok(())
        }
        Err(same) => {
            from.push(same).unwrap();
            Err(StepFault::Memory)
        }
    }
}

/// The same items, the last one first.
fn reversed<T>(mut items: Vec<T>) -> Vec<T>
    ensures { result.items ≡ reverse items.items }
{
    items.as_mut_slice().reverse();
    items
}

/// The item that stands before `i` others at the end.
fn from_the_end<T>(items: &[T], i: usize) -> Option<&T>
    ensures { option_copied result ≡ slice_get (reverse items.now) i }
{
    if i < items.len() {
        Some(&items[items.len() - 1 - i])
    } else {
        None
    }
}

/// A map with the changes that can be undone and redone. A contract sees a list of states and a place in it.
#[derive(Drop)]
pub struct Journal<M: Invertible> {
    map: M,
    limit: u32,
    done: Vec<M::Back>,
    undone: Vec<M::Back>,
    is_own: bool,
}

impl<M: Invertible> Model for Journal<M> {
    ghost use Rattle.std.specs.Prelude.{ℕ, List, length, ◌++◌, ◌∷◌};
    ghost use mathlib.Core.List.{reverse};
    ghost use Rattle.journal_core.specs.Along.{states_along, IsSound};
    ghost use Rattle.journal_core.specs.History.{Kept};

    ghost Value = { Kept M.State M.Back };

    ghost view = { λ j. record {
      history = record {
        limit = j.limit;
        states = states_along M.prior (M.state j.map) j.done.items ++ M.state j.map ∷ reverse (states_along M.prior (M.state j.map) j.undone.items);
        place = length j.done.items;
        own = j.is_own;
      };
      undo = reverse j.done.items;
      redo = reverse j.undone.items;
    } };

    ghost invariant = { λ j. IsSound M.prior M.fits M.own (M.state j.map) j.done.items j.undone.items j.is_own };
}

impl<M: Invertible> Journal<M> {
    /// A history of the map alone. It takes no memory.
    pub fn new(alloc: Global, map: M, limit: u32) -> Journal<M>
        ensures { result ≡ record { history = record { limit = limit; states = M.state map ∷ []; place = 0; own = true }; undo = []; redo = [] } }
    {
        Journal {
            map,
            limit,
            done: Vec::new(alloc),
            undone: Vec::new(alloc),
            is_own: true,
        }
    }

    /// A history that goes on at the map, with the steps that lead back from it and those that lead on, each list with
    /// the next to be taken first. There may be more steps back than the limit. It takes no memory.
    pub fn resume(map: M, limit: u32, undo: Vec<M::Back>, redo: Vec<M::Back>) -> Journal<M>
        requires undo_fits { FitInTurn M.prior M.fits (M.state map) undo.items }
        requires redo_fits { FitInTurn M.prior M.fits (M.state map) redo.items }
        ensures history { result.history ≡ resumed limit (led_through M.prior (M.state map) undo.items) (M.state map) (led_through M.prior (M.state map) redo.items) }
        ensures undo { result.undo ≡ undo.items }
        ensures redo { result.redo ≡ redo.items }
    {
        Journal {
            map,
            limit,
            done: reversed(undo),
            undone: reversed(redo),
            is_own: false,
        }
    }

    /// The map, at the history's place.
    pub fn map(&self) -> &M
        ensures at { IsAt self.now.history (M.state result.now) }
        ensures fit { AllAre M.prior M.fits self.now }
    {
        &self.map
    }

    /// How many changes can be undone.
    pub fn undo_len(&self) -> usize
        ensures place { result ≡ self.now.history.place }
        ensures steps { result ≡ length self.now.undo }
    {
        self.done.len()
    }

    /// How many changes can be redone.
    pub fn redo_len(&self) -> usize
        ensures place { self.now.history.place + result + 1 ≡ length self.now.history.states }
        ensures steps { result ≡ length self.now.redo }
    {
        self.undone.len()
    }

    /// The step back that is taken after `i` others.
    pub fn undo_at(&self, i: usize) -> Option<&M::Back>
        ensures step { option_copied result ≡ slice_get self.now.undo i }
        ensures none { (self.now.history.place ≤ i) ↔ (option_copied result ≡ None) }
        ensures leads { IfSome result (λ back. LeadsBetween M.prior M.fits self.now.history.states (self.now.history.place - i) (self.now.history.place - i - 1) back.now) }
        ensures own { self.now.history.own ≡ true → IfSome result (λ back. LeadsBetween M.prior M.own self.now.history.states (self.now.history.place - i) (self.now.history.place - i - 1) back.now) }
        ensures all_own { AllAre M.prior M.own self.now → IfSome result (λ back. LeadsBetween M.prior M.own self.now.history.states (self.now.history.place - i) (self.now.history.place - i - 1) back.now) }
    {
        from_the_end(self.done.as_slice(), i)
    }

    /// The step on that is taken after `i` others.
    pub fn redo_at(&self, i: usize) -> Option<&M::Back>
        ensures step { option_copied result ≡ slice_get self.now.redo i }
        ensures none { (length self.now.history.states ≤ self.now.history.place + i + 1) ↔ (option_copied result ≡ None) }
        ensures leads { IfSome result (λ step. LeadsBetween M.prior M.fits self.now.history.states (self.now.history.place + i) (self.now.history.place + i + 1) step.now) }
        ensures own { self.now.history.own ≡ true → IfSome result (λ step. LeadsBetween M.prior M.own self.now.history.states (self.now.history.place + i) (self.now.history.place + i + 1) step.now) }
        ensures all_own { AllAre M.prior M.own self.now → IfSome result (λ step. LeadsBetween M.prior M.own self.now.history.states (self.now.history.place + i) (self.now.history.place + i + 1) step.now) }
    {
        from_the_end(self.undone.as_slice(), i)
    }

    /// Makes a change, after which nothing can be redone.
    pub fn edit(&mut self, alloc: Global, change: &M::Change) -> Result<(), EditFault<M::Refusal>>
        ensures ok { OnOk result (Edits M.leads change.now self.old.history self.new.history) }
        ensures steps { OnOk result (Adds M.leaves change.now self.old self.new) }
        ensures full { self.old.history.limit ≤ self.old.history.place → result ≡ Err EditFault.Full }
        ensures fault { IfErr result (Explains M.refuses change.now self.old.history) }
        ensures err { OnErr result (self.new ≡ self.old) }
        ensures stay_own { AllAre M.prior M.own self.old → AllAre M.prior M.own self.new }
    {
        if self.done.len() >= self.limit as usize {
            return Err(EditFault::Full);
        }
        if self.done.reserve(1).is_err() {
            return Err(EditFault::Memory);
        }
        match self.map.apply(alloc, change) {
            Ok(back) => {
                self.undone.clear();
                self.done.push(back).unwrap();
                Ok(())
            }
            Err(refusal) => Err(EditFault::Refused(refusal)),
        }
    }

    /// Takes the last change back.
    pub fn undo(&mut self, alloc: Global) -> Result<(), StepFault>
        ensures ok { OnOk result (self.new.history ≡ after_undo self.old.history) }
        ensures steps { OnOk result (Moves M.turns self.old.history self.old.undo self.new.undo self.old.redo self.new.redo) }
        ensures nothing { (self.old.history.place ≡ 0) ↔ (result ≡ Err Nothing) }
        ensures err { OnErr result (self.new ≡ self.old) }
        ensures stay_own { AllAre M.prior M.own self.old → AllAre M.prior M.own self.new }
    {
        take_step(alloc, &mut self.map, &mut self.done, &mut self.undone)
    }

    /// Makes the change again that was taken back last.
    pub fn redo(&mut self, alloc: Global) -> Result<(), StepFault>
        ensures ok { OnOk result (self.new.history ≡ after_redo self.old.history) }
        ensures steps { OnOk result (Moves M.turns self.old.history self.old.redo self.new.redo self.old.undo self.new.undo) }
        ensures nothing { (self.old.history.place + 1 ≡ length self.old.history.states) ↔ (result ≡ Err Nothing) }
        ensures err { OnErr result (self.new ≡ self.old) }
        ensures stay_own { AllAre M.prior M.own self.old → AllAre M.prior M.own self.new }
    {
        take_step(alloc, &mut self.map, &mut self.undone, &mut self.done)
    }
}
