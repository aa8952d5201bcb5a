//! Patches that are applied, and what they made is kept or taken back.
ghost use Rattle.std.specs.Prelude.{◌≡◌, IfOk, IfErr, OnOk, OnErr};
ghost use Rattle.rdl_tree.specs.Patch.{AllFit, image, inverses};

use rdl_tree::description::Description;
use rdl_tree::patch::Patch;
use std::alloc::Global;

/// Applies the patches, and gives those that lead back. Where memory is refused, the same patches come back.
pub fn kept(
    alloc: Global,
    description: &mut Description,
    patches: Vec<Patch>,
) -> Result<Vec<Patch>, Vec<Patch>>
    requires { AllFit patches.items description.old.items }
    ensures made { OnOk result (description.new.items ≡ image patches.items description.old.items) }
    ensures back { IfOk result (λ back. back.items ≡ inverses patches.items description.old.items) }
    ensures handed { IfErr result (λ same. same.items ≡ patches.items) }
    ensures err { OnErr result (description.new.items ≡ description.old.items) }
{
    match description.turn(alloc, patches) {
        Ok(turned) => Ok(turned.keep()),
        Err(same) => Err(same),
    }
}

/// Applies the patches, and brings the description back. The same patches come back, also where memory is refused.
pub fn tried(
    alloc: Global,
    description: &mut Description,
    patches: Vec<Patch>,
) -> Result<Vec<Patch>, Vec<Patch>>
    requires { AllFit patches.items description.old.items }
    ensures same { IfOk result (λ same. same.items ≡ patches.items) }
    ensures handed { IfErr result (λ same. same.items ≡ patches.items) }
    ensures unchanged { description.new.items ≡ description.old.items }
{
    match description.turn(alloc, patches) {
        Ok(mut turned) => Ok(turned.back()),
        Err(same) => Err(same),
    }
}
