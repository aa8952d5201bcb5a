//! The shell of an instance, with one part of it changed.
ghost use Rattle.std.specs.Prelude.{◌≡◌, ℕ, List, ◌<◌, ◌++◌, ◌∷◌, [], length, true, is_ok, slice_get, IfOk, IfErr};
ghost use Rattle.rdl_tree.specs.ShellParts.{with_parts};
ghost use Rattle.rdl_tree.specs.View.{list_of};
ghost use Rattle.rdl_rewrite.specs.Patches.{reshape};
ghost use Rattle.rdl_rewrite.specs.Shell.{edited_shell, reshaped};
ghost use Rattle.rdl_rewrite.specs.Refuses.{Refuses};

use crate::edit::{Edit, PatchRefusal};
use crate::patch::one;
use rdl_tree::address::Address;
use rdl_tree::description::{Body, Item};
use rdl_tree::dims::Dims;
use rdl_tree::part::Part;
use rdl_tree::patch::Patch;
use rdl_tree::patch_address::PatchAddress;
use rdl_tree::shell::{Shell, ShellParts};
use rdl_tree::stated::{Stated, StatedRange};
use std::alloc::{AllocError, Global};

/// The parts of a shell with the one that the edit gives it.
fn edited_parts(alloc: Global, edit: &Edit, mut parts: ShellParts) -> Result<ShellParts, AllocError>
    ensures { IfOk result (λ new. (n : List ℕ) → with_parts n new ≡ edited_shell edit.now (with_parts n parts)) }
{
    match edit {
        Edit::Resize(_, dims) => {
            parts.dims = dims.try_copy(alloc)?;
            parts.range = StatedRange::none();
        }
        Edit::SetBits(_, range) => {
            parts.dims = Dims::new(alloc);
            parts.range = StatedRange::new(alloc, *range)?;
        }
        Edit::SetAddress(_, address) => parts.address = Stated::new(alloc, *address)?,
        Edit::SetStride(_, stride) => parts.stride = Stated::new(alloc, *stride)?,
        Edit::SetAlign(_, align) => parts.align = Stated::new(alloc, *align)?,
        Edit::SetReset(_, reset) => parts.reset = Stated::new(alloc, *reset)?,
        Edit::Add(..) => {}
        Edit::Move(..) => {}
        Edit::SetOwn(..) => {}
        Edit::SetDefault(..) => {}
        Edit::ClearOwn(..) => {}
        Edit::ClearDefault(..) => {}
        Edit::Assign(..) => {}
        Edit::Unassign(..) => {}
        Edit::Remove(..) => {}
        Edit::Rename(..) => {}
    }
    Ok(parts)
}

/// The shell with the part that the edit gives it.
fn edited_shell(alloc: Global, edit: &Edit, shell: &Shell) -> Result<Shell, AllocError>
    ensures { IfOk result (λ new. new ≡ edited_shell edit.now shell.now) }
{
    let name = shell.name().try_copy(alloc)?;
    let parts = edited_parts(alloc, edit, shell.parts(alloc)?)?;
    Shell::of(alloc, name, parts)
}

/// Gives the instance of this number in the body on the way the part of its shell.
pub fn reshape(
    alloc: Global,
    way: &Address,
    number: usize,
    edit: &Edit,
    body: &Body,
) -> Result<Vec<Patch>, PatchRefusal>
    requires room { length way.now < 17 }
    ensures which { IfOk result (λ ps. ps.items ≡ reshape (edited_shell edit.now) (way.now ++ number ∷ []) (slice_get (list_of body.now) number)) }
    ensures accepted { IfOk result (λ _. is_ok (reshaped (edited_shell edit.now) number body.now) ≡ true) }
    ensures refused { IfErr result (λ refusal. Refuses (reshaped (edited_shell edit.now) number body.now) refusal) }
{
    let Some(Item::Instance(shell, _)) = body.item(number) else {
        return Err(PatchRefusal::NotAnInstance);
    };
    let new = edited_shell(alloc, edit, shell)?;
    let at = PatchAddress::new(alloc, &way.inside(number))?;
    Ok(one(alloc, Patch::Exchange(at, Part::OfShell(new)))?)
}
