//! A description that patches have changed, and that can be brought back.
ghost use Rattle.std.specs.Prelude.{◌≡◌, [], IsTrue, IfOk, IfErr, length, option_copied, slice_get};
ghost use Rattle.std.specs.Borrow.{sem};
ghost use Rattle.rdl_tree.specs.Patch.{image, inverses, AllFit};

use crate::description::Description;
use crate::patch::Patch;
use crate::walk::{go_back, patches_back, walk};
use crate::way::{Way, WayBack};
use std::alloc::Global;
use std::mem;

/// A description that patches have changed, with the way back, for which there is room. Dropped, it leaves the
/// description changed.
pub struct Turned<'a, W: Way> {
    pub(crate) description: &'a mut Description,
    pub(crate) way: W,
    ghost sound: { IsTrue (W.sound description.now.items way) },
}

impl<W: Way + Drop> Drop for Turned<'_, W> {
    fn drop(self)
        ensures { self.exit.0.now ≡ self.entry.description.now }
    {
        let Turned { description, way } = self;
    }
}

impl Description {
    ghost use Rattle.rdl_tree.specs.Turned.{turned_items, kept, rests_if_refused};

    /// Applies the patches, from the first to the last. Where memory is refused, the same patches come back, and the
    /// description is as before.
    pub fn turn(
        &mut self,
        alloc: Global,
        patches: Vec<Patch>,
    ) -> Result<Turned<'_, WayBack>, Vec<Patch>>
        requires { AllFit patches.items self.old.items }
        ensures* rests { sem 𝓛 (rests_if_refused self.entry result) }
        ensures same_reference { IfOk result (λ t. t.description.ghost_name ≡ self.entry.ghost_name) }
        ensures turned { IfOk result (λ t. turned_items t ≡ image patches.items self.old.items) }
        ensures kept { IfOk result (λ t. kept t ≡ inverses patches.items self.old.items) }
        ensures goes_back { IfOk result (λ t. image (kept t) (turned_items t) ≡ self.old.items) }
        ensures goes_on { IfOk result (λ t. inverses (kept t) (turned_items t) ≡ patches.items) }
        ensures refused { IfErr result (λ same. same.items ≡ patches.items) }
    {
        let way = walk(self, alloc, patches)?;
        Ok(Turned {
            description: self,
            way,
        })
    }
}

impl Turned<'_, WayBack> {
    ghost use Rattle.rdl_tree.specs.Turned.{turned_items, kept};

    /// The description as the patches have made it.
    pub fn description(&self) -> &Description
        ensures { result.now.items ≡ turned_items self.now }
    {
        self.description
    }

    /// How many patches lead back.
    pub fn back_len(&self) -> usize
        ensures { result ≡ length (kept self.now) }
    {
        self.way.len()
    }

    /// Lends the patch of this number of those that lead back, the first one first.
    pub fn back_patch(&self, number: usize) -> Option<&Patch>
        ensures { option_copied result ≡ slice_get (kept self.now) number }
    {
        self.way.patch(number)
    }

    /// Leaves the description changed, and gives the patches that lead back. This takes no memory.
    pub fn keep(self) -> Vec<Patch>
        ensures same { self.exit.0.now.items ≡ turned_items self.entry }
        ensures patches { result.items ≡ kept self.entry }
    {
        let Turned { description, way } = self;
        patches_back(way, description)
    }

    /// Brings the description back, and gives the patches that lead on. Then there is no way back any more. This takes
    /// no memory.
    pub fn back(&mut self) -> Vec<Patch>
        ensures same_reference { self.new.description.ghost_name ≡ self.old.description.ghost_name }
        ensures back { turned_items self.new ≡ image (kept self.old) (turned_items self.old) }
        ensures patches { result.items ≡ inverses (kept self.old) (turned_items self.old) }
        ensures none { kept self.new ≡ [] }
    {
        let none = self.way.none();
        let way = mem::replace(&mut self.way, none);
        go_back(self.description, way)
    }
}
