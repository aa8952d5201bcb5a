//! Patches of one item.
ghost use Rattle.std.specs.Prelude.{◌≡◌, ◌∷◌, [], IfOk};

use rdl_tree::patch::Patch;
use std::alloc::{AllocError, Global};

/// The patch alone.
pub(crate) fn one(alloc: Global, patch: Patch) -> Result<Vec<Patch>, AllocError>
    ensures { IfOk result (λ ps. ps.items ≡ patch ∷ []) }
{
    let mut patches = Vec::new(alloc);
    patches.push(patch)?;
    Ok(patches)
}
