//! Changes of one item each, which can be taken back.
ghost use Rattle.std.specs.Prelude.{◌≡◌, ◌<◌, ◌++◌, ◌∷◌, [], length, IfOk};
ghost use Rattle.rdl_tree.specs.Patch.{address_of};

use crate::address::Address;
use crate::description::Item;
use crate::part::Part;
use crate::patch_address::PatchAddress;
use std::alloc::{AllocError, Global};

/// A change of one item. The address is the item's; in `Insert` it is the one that the item gets.
#[derive(Debug, Drop)]
pub enum Patch {
    /// Puts the item in, where it has this address.
    Insert(PatchAddress, Item),
    /// Takes the item out.
    Delete(PatchAddress),
    /// Takes the item out and puts it in again where it has this number in the same body.
    Shift(PatchAddress, usize),
    /// Puts the part in the place of the item's own.
    Exchange(PatchAddress, Part),
}

impl Patch {
    pub fn address(&self) -> &PatchAddress
        ensures { result.now ≡ address_of self.now }
    {
        match self {
            Patch::Insert(at, _)
            | Patch::Delete(at)
            | Patch::Shift(at, _)
            | Patch::Exchange(at, _) => at,
        }
    }
}

/// The address of the item of this number in the body at the address, for a patch behind these: it shares what it has in
/// common with that of the last of them, if that is of the same body.
pub fn address_behind(
    alloc: Global,
    patches: &[Patch],
    body: &Address,
    number: usize,
) -> Result<PatchAddress, AllocError>
    requires { length body.now < 17 }
    ensures { IfOk result (λ at. at ≡ body.now ++ number ∷ []) }
{
    match patches {
        [.., last] if last.address().is_in(body) => last.address().beside(number),
        _ => PatchAddress::new(alloc, &body.inside(number)),
    }
}
