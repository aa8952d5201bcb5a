//! The places of a session, gone through one after another.
ghost use Rattle.std.specs.Prelude.{◌≡◌, ◌⊎◌, ◌≤◌, map, None, Some, IfOk, IfErr, OnOk, option_copied};
ghost use mathlib.Core.List.{reverse};
ghost use Rattle.journal_core.specs.Along.{FitInTurn};
ghost use Rattle.rdl_edit.specs.Backs.{prior, Fits};
ghost use Rattle.rdl_edit.specs.Resuming.{place_fault, step_fault, steps_fault, place_after};
ghost use Rattle.rdl_edit.specs.Ways.{place_of, way_back, ways_along};
ghost use Rattle.rdl_edit.specs.declared.resume_fault.ResumeFault.TheVariants.{Memory};
ghost use Rattle.rdl_edit.specs.declared.resume_fault.Where.TheVariants as where_;
ghost use Rattle.rdl_held.specs.HeldMap.{IsHeldOf, HasPlacedAll};
ghost use Rattle.rdl_held.specs.Turning.{IsTurned};
ghost use Rattle.rdl_edit.specs.Keeping.{Keeps};
ghost use Rattle.rdl_tree.specs.Patch.{image};

use crate::back::Back;
use crate::resume_fault::{ResumeFault, Where};
use crate::ways::{Direction, come_back, faulty, place_of, reversed, stopped, turn_all};
use rdl_held::held::Held;
use rdl_tree::description::Description;
use rdl_tree::patch::Patch;
use std::alloc::Global;

/// Goes on to the map at a place, which patches have made that these take back.
fn judge(
    alloc: Global,
    description: &Description,
    held: &mut Held,
    backs: &[Patch],
    place: Where,
) -> Result<(), ResumeFault>
    requires { IsTurned held.old backs.now description.now.items }
    ensures keeps { OnOk result (Keeps (record { description = description.now.items; option = held.old.top }) held.new) }
    ensures faultless { OnOk result (place_fault place held.old.top description.now.items ≡ None) }
    ensures refused { IfErr result (λ f. (place_fault place held.old.top description.now.items ≡ Some f) ⊎ (f ≡ Memory)) }
{
    match held.follow(alloc, description, backs) {
        Ok(()) => Ok(()),
        Err(fault) => Err(faulty(place, fault)),
    }
}

/// Takes a step to a place, and answers the one that leads back, with its mark. A step without a patch leads nowhere, and
/// nothing is judged for it.
#[tactic(auto, using(crate::proofs::Steps::steps))]
fn take_step(
    alloc: Global,
    description: &mut Description,
    held: &mut Held,
    step: Back,
    place: Where,
) -> Result<Back, ResumeFault>
    requires { IsHeldOf description.old.items held.old }
    ensures fits { OnOk result (Fits (record { description = description.old.items; option = held.old.top }) step) }
    ensures made { OnOk result (description.new.items ≡ image step.patches description.old.items) }
    ensures keeps { OnOk result (Keeps (record { description = description.new.items; option = held.old.top }) held.new) }
    ensures back { IfOk result (λ back. back ≡ way_back description.old.items step) }
    ensures faultless { OnOk result (step_fault place held.old.top description.old.items step.patches ≡ None) }
    ensures refused { IfErr result (λ f. (step_fault place held.old.top description.old.items step.patches ≡ Some f) ⊎ (f ≡ Memory)) }
{
    if step.patches().is_empty() {
        return Ok(step);
    }
    let read = step.read();
    let back = match turn_all(alloc, description, step.into_vec()) {
        Ok(back) => back,
        Err(stop) => return Err(stopped(place, stop)),
    };
    match judge(alloc, description, held, back.as_slice(), place) {
        Ok(()) => Ok(Back::new(back, read)),
        Err(fault) => Err(fault),
    }
}

/// Takes the steps one after another, and answers those that lead home, the last one's first.
fn go(
    alloc: Global,
    description: &mut Description,
    held: &mut Held,
    steps: Vec<Back>,
    direction: Direction,
) -> Result<Vec<Back>, ResumeFault>
    requires { IsHeldOf description.old.items held.old }
    ensures fits { OnOk result (FitInTurn prior Fits (record { description = description.old.items; option = held.old.top }) steps.items) }
    ensures there { OnOk result (description.new.items ≡ place_after description.old.items steps.items) }
    ensures ways { IfOk result (λ ways. ways.items ≡ reverse (ways_along description.old.items steps.items)) }
    ensures faultless { OnOk result (steps_fault (place_of direction) held.old.top 1 description.old.items (map (λ step. step.patches) steps.items) ≡ None) }
    ensures refused { IfErr result (λ f. (steps_fault (place_of direction) held.old.top 1 description.old.items (map (λ step. step.patches) steps.items) ≡ Some f) ⊎ (f ≡ Memory)) }
{
    let Ok(mut ways) = Vec::with_capacity(alloc, steps.len()) else {
        return Err(ResumeFault::Memory);
    };
    for step in steps {
        let place = place_of(direction, ways.len().saturating_add(1));
        let way = match take_step(alloc, description, held, step, place) {
            Ok(way) => way,
            Err(fault) => return Err(fault),
        };
        if ways.push(way).is_err() {
            return Err(ResumeFault::Memory);
        }
    }
    Ok(reversed(ways))
}

/// Goes along the steps and back. The description and the steps are as before. What is held of the description stays: the places are judged
/// over a copy of it, which shares what it holds of each component.
pub(crate) fn visit(
    alloc: Global,
    description: &mut Description,
    held: &Held,
    steps: Vec<Back>,
    direction: Direction,
) -> Result<Vec<Back>, ResumeFault>
    requires { IsHeldOf description.old.items held.now }
    ensures fits { OnOk result (FitInTurn prior Fits (record { description = description.old.items; option = held.now.top }) steps.items) }
    ensures home { OnOk result (description.new.items ≡ description.old.items) }
    ensures steps { IfOk result (λ same. same.items ≡ steps.items) }
    ensures faultless { OnOk result (steps_fault (place_of direction) held.now.top 1 description.old.items (map (λ step. step.patches) steps.items) ≡ None) }
    ensures refused { IfErr result (λ f. (steps_fault (place_of direction) held.now.top 1 description.old.items (map (λ step. step.patches) steps.items) ≡ Some f) ⊎ (f ≡ Memory)) }
{
    let Ok(mut there) = held.try_copy(alloc) else {
        return Err(ResumeFault::Memory);
    };
    let ways = match go(alloc, description, &mut there, steps, direction) {
        Ok(ways) => ways,
        Err(fault) => return Err(fault),
    };
    match come_back(alloc, description, ways) {
        Ok(steps) => Ok(steps),
        Err(_) => Err(ResumeFault::Memory),
    }
}

/// What is held of the map that a session holds.
pub(crate) fn opened(
    alloc: Global,
    description: &Description,
    name: Option<&str>,
) -> Result<Held, ResumeFault>
    ensures keeps { IfOk result (Keeps (record { description = description.now.items; option = option_copied name.entry })) }
    ensures placed { IfOk result (λ held. HasPlacedAll held) }
    ensures faultless { OnOk result (place_fault where_.Map (option_copied name.entry) description.now.items ≡ None) }
    ensures refused { IfErr result (λ f. (place_fault where_.Map (option_copied name.entry) description.now.items ≡ Some f) ⊎ (f ≡ Memory)) }
{
    match Held::of(alloc, description, name) {
        Ok(held) => Ok(held),
        Err(fault) => Err(faulty(Where::Map, fault)),
    }
}
