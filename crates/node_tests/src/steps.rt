//! Steps of one patch, for who asks what is held of a map behind them.
ghost use Rattle.std.specs.Prelude.{◌≡◌, ◌∷◌, [], IfOk, IfSome};
ghost use Rattle.node_tests.specs.Steps.{LeadsBack};
ghost use Rattle.rdl_held.specs.HeldMap.{IsHeldOf};

use rdl_held::held::Held;
use rdl_tree::description::Description;
use rdl_tree::fault::Fault;
use rdl_tree::patch::Patch;
use std::alloc::{AllocError, Global};

fn list_of(alloc: Global, patch: Patch) -> Result<Vec<Patch>, AllocError>
    ensures { IfOk result (λ patches. patches.items ≡ patch ∷ []) }
{
    let mut patches = Vec::with_capacity(alloc, 1)?;
    patches.push(patch)?;
    Ok(patches)
}

/// Applies a patch to a description of which this is held. There is no answer where it doesn't fit, or memory was wanted for its list.
pub fn turned(
    alloc: Global,
    held: &mut Held,
    description: &mut Description,
    patch: Patch,
) -> Option<Result<Vec<Patch>, Fault>>
    requires { IsHeldOf description.old.items held.old }
    ensures held { IsHeldOf description.new.items held.new }
    ensures back { IfSome result (λ answer. IfOk answer (λ back. LeadsBack back.items description.new.items held.new.top)) }
{
    if !description.fits(&patch) {
        return None;
    }
    match list_of(alloc, patch) {
        Ok(patches) => Some(held.turn(alloc, description, patches)),
        Err(_) => None,
    }
}
