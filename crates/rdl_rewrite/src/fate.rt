//! What becomes of an item where an edit reaches every body.
ghost use Rattle.std.specs.Prelude.{◌≡◌, ◌<◌, ◌++◌, ◌∷◌, [], length, reverse, IfOk, OnOk};
ghost use Rattle.rdl_tree.specs.declared.patch.Patch.{Patch};
ghost use Rattle.rdl_rewrite.specs.Fates.{is_dropped, item_patches};

use rdl_tree::address::Address;
use rdl_tree::part::Part;
use rdl_tree::patch::{Patch, address_behind};
use std::alloc::{AllocError, Global};

/// What becomes of an item.
#[derive(Debug, Drop)]
pub enum Fate {
    /// It stays as it is.
    Kept,
    /// It goes, and with it what stands inside it.
    Dropped,
    /// It gets the part in the place of its own.
    Given(Part),
}

/// Puts a deletion of the item of this number in the body at the address behind the patches.
#[inline(never)]
fn push_deletion(
    alloc: Global,
    at: &Address,
    number: usize,
    patches: &mut Vec<Patch>,
) -> Result<(), AllocError>
    requires { length at.now < 17 }
    ensures { OnOk result (patches.new.items ≡ patches.old.items ++ Patch.Delete (at.now ++ number ∷ []) ∷ []) }
{
    let address = address_behind(alloc, patches.as_slice(), at, number)?;
    patches.push(Patch::Delete(address))?;
    Ok(())
}

/// Puts an exchange of the part of the item of this number in the body at the address behind the patches.
#[inline(never)]
fn push_exchange(
    alloc: Global,
    at: &Address,
    number: usize,
    part: Part,
    patches: &mut Vec<Patch>,
) -> Result<(), AllocError>
    requires { length at.now < 17 }
    ensures { OnOk result (patches.new.items ≡ patches.old.items ++ Patch.Exchange (at.now ++ number ∷ []) part ∷ []) }
{
    let address = address_behind(alloc, patches.as_slice(), at, number)?;
    patches.push(Patch::Exchange(address, part))?;
    Ok(())
}

impl Fate {
    /// Whether what stands inside the item goes with it.
    pub(crate) fn is_dropped(&self) -> bool
        ensures { result ≡ is_dropped self.now }
    {
        match self {
            Fate::Dropped => true,
            Fate::Kept => false,
            Fate::Given(_) => false,
        }
    }

    /// Puts the own patch of the item of this number in the body at the address behind the others, if there is one.
    pub(crate) fn push_to(
        self,
        alloc: Global,
        at: &Address,
        number: usize,
        patches: &mut Vec<Patch>,
    ) -> Result<(), AllocError>
        requires { length at.now < 17 }
        ensures { IfOk result (λ _. reverse patches.new.items ≡ item_patches (at.now ++ number ∷ []) self [] ++ reverse patches.old.items) }
    {
        match self {
            Fate::Kept => Ok(()),
            Fate::Dropped => push_deletion(alloc, at, number, patches),
            Fate::Given(part) => push_exchange(alloc, at, number, part, patches),
        }
    }
}
