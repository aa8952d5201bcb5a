//! What is held of a description renewed for one that patches have made of it already.
ghost use Rattle.std.specs.Prelude.{◌≡◌, ◌⊎◌, Err, IfErr, OnOk, OnErr};
ghost use Rattle.rdl_elab.specs.Faults.{elaborated};
ghost use Rattle.rdl_held.specs.HeldMap.{IsHeldOf, HasPlaced};
ghost use Rattle.rdl_held.specs.Turning.{IsTurned};
ghost use Rattle.rdl_marks.specs.Marks.{no_marks};
ghost use Rattle.rdl_marks.specs.Noted.{all_noted};
ghost use Rattle.rdl_scope.specs.ItemFaults.{out_of_memory};

use crate::held::{Held, no_memory};
use rdl_marks::changes::marks_along;
use rdl_tree::description::Description;
use rdl_tree::fault::Fault;
use rdl_tree::patch::Patch;
use std::alloc::Global;

impl Held {
    /// Goes on to the description that patches have made of the one of which this is held, where these take them back. If that has no
    /// rows, the answer is its first fault, and this stays.
    pub fn follow(
        &mut self,
        alloc: Global,
        description: &Description,
        backs: &[Patch],
    ) -> Result<(), Fault>
        requires { IsTurned self.old backs.now description.now.items }
        ensures held { OnOk result (IsHeldOf description.now.items self.new) }
        ensures top { OnOk result (self.new.top ≡ self.old.top) }
        ensures placed { OnOk result (HasPlaced (all_noted backs.now no_marks) self.old description.now.items self.new) }
        ensures refused { IfErr result (λ fault. (elaborated description.now.items self.old.top ≡ Err fault) ⊎ (fault ≡ out_of_memory)) }
        ensures err { OnErr result (self.new ≡ self.old) }
    {
        match marks_along(alloc, backs) {
            Ok(marks) => self.step(alloc, description, &marks),
            Err(_) => Err(no_memory()),
        }
    }
}
