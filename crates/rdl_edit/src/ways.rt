//! The steps of a session as ways from one map to another and home again, with nothing laid out.
ghost use Rattle.std.specs.Prelude.{◌≡◌, ◌≤◌, ◌+◌, ◌∷◌, ◌++◌, [], IsTrue, length, map, IfOk, IfErr, OnOk};
ghost use Rattle.std.specs.List.{list_all};
ghost use mathlib.Core.List.{reverse};
ghost use Rattle.rdl_tree.specs.Patch.{fits, AllFit, patched, image, inverse, inverses};
ghost use Rattle.rdl_edit.specs.declared.resume_fault.ResumeFault.TheVariants.{Memory};
ghost use Rattle.rdl_edit.specs.Backs.{read_back};
ghost use Rattle.rdl_edit.specs.Resuming.{all_fit, place_after};
ghost use Rattle.rdl_edit.specs.Ways.{IsMisfit, stop_at, refused, place_of, ways_along, AllLead};

use crate::back::Back;
use crate::refusal::is_memory;
use crate::resume_fault::{ResumeFault, Where};
use rdl_tree::description::Description;
use rdl_tree::fault::Fault;
use rdl_tree::patch::Patch;
use std::alloc::{AllocError, Global};

/// Why patches aren't applied.
#[derive(Clone, Copy, Debug, PartialEq, Eq)]
pub enum Stop {
    Misfit,
    Memory,
}

impl From<AllocError> for Stop {
    ghost use Rattle.rdl_edit.specs.declared.ways.Stop.{Stop};
    ghost use Rattle.std.specs.Prelude.{◌≡◌};

    ghost from_gives = { λ _ stop. stop ≡ Stop.Memory };

    fn from(_error: AllocError) -> Stop {
        Stop::Memory
    }
}

fn list_of(alloc: Global, patch: Patch) -> Result<Vec<Patch>, AllocError>
    ensures { IfOk result (λ patches. patches.items ≡ patch ∷ []) }
{
    let mut patches = Vec::with_capacity(alloc, 1)?;
    patches.push(patch)?;
    Ok(patches)
}

/// The same patches, the last one first.
pub fn reversed<T>(mut items: Vec<T>) -> Vec<T>
    ensures { result.items ≡ reverse items.items }
{
    items.as_mut_slice().reverse();
    items
}

/// Puts the patch of a list of at most one behind the others.
fn push_only(back: &mut Vec<Patch>, mut inverse: Vec<Patch>) -> Result<(), AllocError>
    requires { length inverse.items ≤ 1 }
    ensures { OnOk result (back.new.items ≡ back.old.items ++ inverse.items) }
{
    if let Some(patch) = inverse.pop() {
        back.push(patch)?;
    }
    Ok(())
}

/// Applies a patch, if it fits, and puts what takes it back behind the others.
fn turn_one(
    alloc: Global,
    description: &mut Description,
    patch: Patch,
    back: &mut Vec<Patch>,
) -> Result<(), Stop>
    ensures fits { OnOk result (IsTrue (fits patch description.old.items)) }
    ensures made { OnOk result (description.new.items ≡ patched patch description.old.items) }
    ensures back { OnOk result (back.new.items ≡ back.old.items ++ inverse patch description.old.items) }
    ensures misfit { IfErr result (IsMisfit (fits patch description.old.items)) }
{
    if !description.fits(&patch) {
        return Err(Stop::Misfit);
    }
    let patches = list_of(alloc, patch)?;
    let Ok(turned) = description.turn(alloc, patches) else {
        return Err(Stop::Memory);
    };
    push_only(back, turned.keep())?;
    Ok(())
}

/// Applies patches, each if it fits where those before it led, and answers those that take them back, the last one's
/// first.
pub fn turn_all(
    alloc: Global,
    description: &mut Description,
    patches: Vec<Patch>,
) -> Result<Vec<Patch>, Stop>
    ensures fit { OnOk result (AllFit patches.items description.old.items) }
    ensures made { OnOk result (description.new.items ≡ image patches.items description.old.items) }
    ensures back { IfOk result (λ back. back.items ≡ inverses patches.items description.old.items) }
    ensures misfit { IfErr result (IsMisfit (all_fit patches.items description.old.items)) }
{
    let mut back = Vec::with_capacity(alloc, patches.len())?;
    for patch in patches {
        turn_one(alloc, description, patch, &mut back)?;
    }
    Ok(reversed(back))
}

/// What refuses a map at a place that has this fault.
pub fn faulty(place: Where, fault: Fault) -> ResumeFault
    ensures { result ≡ refused place fault }
{
    if is_memory(fault.kind) {
        ResumeFault::Memory
    } else {
        ResumeFault::MapFaulty(place, fault)
    }
}

/// What refuses a step to a place whose patches stop so.
pub fn stopped(place: Where, stop: Stop) -> ResumeFault
    ensures { result ≡ stop_at place stop }
{
    match stop {
        Stop::Misfit => ResumeFault::PatchMisfits(place),
        Stop::Memory => ResumeFault::Memory,
    }
}

/// Which way steps lead from the map.
#[derive(Clone, Copy, Debug, PartialEq, Eq)]
pub enum Direction {
    Undo,
    Redo,
}

/// The place to which the step of this number leads.
pub fn place_of(direction: Direction, number: usize) -> Where
    ensures { result ≡ place_of direction number }
{
    match direction {
        Direction::Undo => Where::Undo(number),
        Direction::Redo => Where::Redo(number),
    }
}

/// Takes the steps home, and answers those that lead there again, the first one first.
pub fn come_back(
    alloc: Global,
    description: &mut Description,
    ways: Vec<Back>,
) -> Result<Vec<Back>, AllocError>
    requires { AllLead description.old.items ways.items }
    ensures home { OnOk result (description.new.items ≡ place_after description.old.items ways.items) }
    ensures steps { IfOk result (λ steps. steps.items ≡ reverse (ways_along description.old.items ways.items)) }
{
    let mut steps = Vec::with_capacity(alloc, ways.len())?;
    for way in ways {
        let read = way.read();
        let Ok(turned) = description.turn(alloc, way.into_vec()) else {
            return Err(AllocError);
        };
        steps.push(Back::new(turned.keep(), read))?;
    }
    Ok(reversed(steps))
}

/// The steps of a session as what takes a map back.
pub fn backs(alloc: Global, steps: Vec<Vec<Patch>>) -> Result<Vec<Back>, ResumeFault>
    ensures backs { IfOk result (λ backs. backs.items ≡ map (λ step. read_back step.items) steps.items) }
    ensures refused { IfErr result (λ f. f ≡ Memory) }
{
    let Ok(mut backs) = Vec::with_capacity(alloc, steps.len()) else {
        return Err(ResumeFault::Memory);
    };
    for step in steps {
        if backs.push(Back::new(step, true)).is_err() {
            return Err(ResumeFault::Memory);
        }
    }
    Ok(backs)
}
