//! Patches that exchange parts: each becomes, where it stands, the patch that takes it back.
ghost use Rattle.std.specs.Prelude.{◌≡◌, ◌∷◌, [], IsTrue};
ghost use Rattle.std.specs.List.{list_all};
ghost use Rattle.rdl_tree.specs.Patch.{patched, fits, image, inverse, inverses};
ghost use Rattle.rdl_tree.specs.Exchanges.{is_exchange, is_exchange_at, are_exchanges};
ghost use Rattle.rdl_tree.specs.declared.patch.Patch.{Patch};

use crate::description::Description;
use crate::part::Part;
use crate::patch::Patch;
use crate::patch_address::PatchAddress;

/// Whether each of the patches exchanges a part.
pub(crate) fn are_exchanges(patches: &[Patch]) -> bool
    ensures { result ≡ list_all is_exchange patches.now }
{
    patches
        .iter()
        .all(|patch| matches!(patch, Patch::Exchange(..)))
}

/// Applies the patches, from the first to the last, and gives those that lead back. This takes no memory.
pub(crate) fn exchange_all(description: &mut Description, patches: Vec<Patch>) -> Vec<Patch>
    requires { IsTrue (are_exchanges patches.items description.old.items) }
    ensures turned { description.new.items ≡ image patches.items description.old.items }
    ensures back { result.items ≡ inverses patches.items description.old.items }
{
    let mut patches = patches;
    'patches: for patch in patches.iter_mut() {
        turn_round(description, patch);
    }
    patches.reverse();
    patches
}

/// Applies the patch, which becomes the one that takes it back.
fn turn_round(description: &mut Description, patch: &mut Patch)
    requires { IsTrue (is_exchange_at patch.old description.old.items) }
    ensures changed { description.new.items ≡ patched patch.old description.old.items }
    ensures inverse { inverse patch.old description.old.items ≡ patch.new ∷ [] }
{
    match patch {
        Patch::Exchange(address, part) => swap_part(description, address, part),
        _ => unreachable!(),
    }
}

/// Puts the part in the place of the item's own, which takes its place.
pub(crate) fn swap_part(description: &mut Description, address: &PatchAddress, part: &mut Part)
    requires { IsTrue (fits (Patch.Exchange address.now part.old) description.old.items) }
    ensures changed { description.new.items ≡ patched (Patch.Exchange address.now part.old) description.old.items }
    ensures inverse { inverse (Patch.Exchange address.now part.old) description.old.items ≡ Patch.Exchange address.now part.new ∷ [] }
{
    match description.body_mut(&address.holder()) {
        Some(body) => body.swap_part(address.number(), part),
        None => unreachable!(),
    }
}
