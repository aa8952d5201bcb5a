//! Patches applied one after another, and the way back.
ghost use Rattle.std.specs.Prelude.{◌≡◌, ◌++◌, [], ◌+◌, ◌≤◌, IsTrue, IfOk, IfErr, OnOk, OnErr, length, reverse, vec_capacity};
ghost use Rattle.rdl_tree.specs.Patch.{image, inverses, AllFit};
ghost use Rattle.rdl_tree.specs.Way.{are_ready, backs, step_patches as patches_of_steps, patches_back as way_patches, is_sound, are_sound_steps, has_rooms};
ghost use Rattle.rdl_tree.specs.Walk.{IsUnderWay};

use crate::description::Description;
use crate::exchanges::{are_exchanges, exchange_all};
use crate::patch::Patch;
use crate::run::follow;
use crate::step::{apply, step_back};
use crate::way::{Step, StepsBack, WayBack};
use std::alloc::Global;

/// Applies the patches, from the first to the last. Where memory is refused, it goes back and gives the same patches.
pub(crate) fn walk(
    description: &mut Description,
    alloc: Global,
    patches: Vec<Patch>,
) -> Result<WayBack, Vec<Patch>>
    requires { AllFit patches.items description.old.items }
    ensures turned { OnOk result (description.new.items ≡ image patches.items description.old.items) }
    ensures kept { IfOk result (λ way. way_patches way ≡ inverses patches.items description.old.items) }
    ensures goes_back { IfOk result (λ way. image (way_patches way) description.new.items ≡ description.old.items) }
    ensures goes_on { IfOk result (λ way. inverses (way_patches way) description.new.items ≡ patches.items) }
    ensures sound { IfOk result (λ way. IsTrue (is_sound description.new.items way)) }
    ensures refused { IfErr result (λ same. same.items ≡ patches.items) }
    ensures stays { OnErr result (description.new ≡ description.old) }
{
    if are_exchanges(&patches) {
        return Ok(WayBack::Exchanges(exchange_all(description, patches)));
    }
    let steps = walk_steps(description, alloc, patches)?;
    Ok(WayBack::Steps(steps))
}

/// Does the same step by step.
fn walk_steps(
    description: &mut Description,
    alloc: Global,
    patches: Vec<Patch>,
) -> Result<StepsBack, Vec<Patch>>
    requires { AllFit patches.items description.old.items }
    ensures turned { OnOk result (description.new.items ≡ image patches.items description.old.items) }
    ensures kept { IfOk result (λ way. patches_of_steps way ≡ inverses patches.items description.old.items) }
    ensures goes_back { IfOk result (λ way. image (patches_of_steps way) description.new.items ≡ description.old.items) }
    ensures goes_on { IfOk result (λ way. inverses (patches_of_steps way) description.new.items ≡ patches.items) }
    ensures sound { IfOk result (λ way. IsTrue (are_sound_steps description.new.items way)) }
    ensures refused { IfErr result (λ same. same.items ≡ patches.items) }
    ensures stays { OnErr result (description.new ≡ description.old) }
{
    let mut patches = patches;
    let Ok(mut steps) = Vec::with_capacity(alloc, patches.len()) else {
        return Err(patches);
    };
    patches.reverse();
    advance(description, alloc, &mut patches, &mut steps);
    if patches.is_empty() {
        return Ok(StepsBack {
            steps,
            room: patches,
        });
    }
    steps_back(description, &mut steps, &mut patches);
    patches.reverse();
    Err(patches)
}

/// Applies the patches, from the last to the first, as long as memory can be had.
fn advance(
    description: &mut Description,
    alloc: Global,
    patches: &mut Vec<Patch>,
    steps: &mut Vec<Step>,
)
    requires fit { AllFit (reverse patches.old.items) description.old.items }
    requires none { length steps.old.items ≡ 0 }
    requires room { length patches.old.items ≤ vec_capacity steps.old }
    ensures way { IsUnderWay steps.new.items description.new.items description.old.items patches.new.items (reverse patches.old.items) }
    ensures room { length patches.new.items + length steps.new.items ≤ vec_capacity patches.new }
{
    'patches: while let Some(patch) = patches.pop() {
        match apply(description, alloc, patch) {
            Ok(step) => {
                steps.push(step).unwrap();
                follow(description, alloc, patches, steps);
            }
            Err(same) => {
                patches.push(same).unwrap();
                return;
            }
        }
    }
}

/// The patches of the way, in the order in which they lead back.
pub(crate) fn patches_back(way: WayBack, _here: &Description) -> Vec<Patch>
    requires { IsTrue (is_sound _here.now.items way) }
    ensures { result.items ≡ way_patches way }
{
    match way {
        WayBack::Steps(way) => step_patches(way),
        WayBack::Exchanges(patches) => patches,
    }
}

/// The patches of the steps, in the order in which they lead back.
fn step_patches(way: StepsBack) -> Vec<Patch>
    requires { IsTrue (has_rooms way) }
    ensures { result.items ≡ patches_of_steps way }
{
    let StepsBack {
        mut steps,
        mut room,
    } = way;
    'steps: while let Some(step) = steps.pop() {
        room.push(step.back).unwrap();
    }
    room
}

/// Goes all the way back, and gives the patches that lead on.
pub(crate) fn go_back(description: &mut Description, way: WayBack) -> Vec<Patch>
    requires { IsTrue (is_sound description.old.items way) }
    ensures back { description.new.items ≡ image (way_patches way) description.old.items }
    ensures patches { result.items ≡ inverses (way_patches way) description.old.items }
{
    match way {
        WayBack::Steps(way) => take_steps(description, way),
        WayBack::Exchanges(patches) => exchange_all(description, patches),
    }
}

/// Takes all steps, and gives the patches that lead on.
fn take_steps(description: &mut Description, way: StepsBack) -> Vec<Patch>
    requires { IsTrue (are_sound_steps description.old.items way) }
    ensures back { description.new.items ≡ image (patches_of_steps way) description.old.items }
    ensures patches { result.items ≡ inverses (patches_of_steps way) description.old.items }
{
    let StepsBack {
        mut steps,
        mut room,
    } = way;
    steps_back(description, &mut steps, &mut room);
    room.reverse();
    room
}

/// Takes all steps, the last one first, and puts the patches that take each of them back behind those in the room.
fn steps_back(description: &mut Description, steps: &mut Vec<Step>, room: &mut Vec<Patch>)
    requires ready { IsTrue (are_ready (reverse steps.old.items) description.old.items) }
    requires room { length room.old.items + length steps.old.items ≤ vec_capacity room.old }
    ensures back { description.new.items ≡ image (backs (reverse steps.old.items)) description.old.items }
    ensures patches { reverse room.new.items ≡ inverses (backs (reverse steps.old.items)) description.old.items ++ reverse room.old.items }
    ensures none { steps.new.items ≡ [] }
{
    'steps: while let Some(step) = steps.pop() {
        step_back(description, step, steps, room);
    }
}
