//! Patches applied to a description, and what is held of it renewed.
ghost use Rattle.std.specs.Prelude.{◌≡◌, ◌⊎◌, Err, IfOk, IfErr, OnOk, OnErr};
ghost use Rattle.rdl_elab.specs.Faults.{elaborated};
ghost use Rattle.rdl_elab.specs.Known.{HasRows};
ghost use Rattle.rdl_held.specs.HeldMap.{IsHeldOf, HasPlaced};
ghost use Rattle.rdl_held.specs.Turning.{IsTurned, HasTurned};
ghost use Rattle.rdl_marks.specs.Marks.{no_marks};
ghost use Rattle.rdl_marks.specs.Noted.{all_noted};
ghost use Rattle.rdl_scope.specs.ItemFaults.{out_of_memory};
ghost use Rattle.rdl_tree.specs.Patch.{AllFit, image, inverses};
ghost use Rattle.rdl_tree.specs.Turned.{kept, turned_items};

use crate::held::{Held, no_memory};
use rdl_marks::changes::marks_of;
use rdl_tree::description::Description;
use rdl_tree::fault::Fault;
use rdl_tree::patch::Patch;
use rdl_tree::turned::Turned;
use rdl_tree::way::WayBack;
use std::alloc::{AllocError, Global};

impl Held {
    /// Goes on to what patches have made of the description of which this is held. If that has no rows, the answer is its first fault, and
    /// this stays.
    fn step_on(&mut self, alloc: Global, turned: &Turned<'_, WayBack>) -> Result<(), Fault>
        requires { IsTurned self.old (kept turned.now) (turned_items turned.now) }
        ensures held { OnOk result (IsHeldOf (turned_items turned.now) self.new) }
        ensures top { OnOk result (self.new.top ≡ self.old.top) }
        ensures placed { OnOk result (HasPlaced (all_noted (kept turned.now) no_marks) self.old (turned_items turned.now) self.new) }
        ensures refused { IfErr result (λ fault. (elaborated (turned_items turned.now) self.old.top ≡ Err fault) ⊎ (fault ≡ out_of_memory)) }
        ensures err { OnErr result (self.new ≡ self.old) }
    {
        match marks_of(alloc, turned) {
            Ok(marks) => self.step(alloc, turned.description(), &marks),
            Err(_) => Err(no_memory()),
        }
    }

    /// Does the same where that is known to have rows.
    fn step_on_known(
        &mut self,
        alloc: Global,
        turned: &Turned<'_, WayBack>,
    ) -> Result<(), AllocError>
        requires turned { IsTurned self.old (kept turned.now) (turned_items turned.now) }
        requires rows { HasRows (turned_items turned.now) self.old.top }
        ensures held { OnOk result (IsHeldOf (turned_items turned.now) self.new) }
        ensures top { OnOk result (self.new.top ≡ self.old.top) }
        ensures placed { OnOk result (HasPlaced (all_noted (kept turned.now) no_marks) self.old (turned_items turned.now) self.new) }
        ensures err { OnErr result (self.new ≡ self.old) }
    {
        let marks = marks_of(alloc, turned)?;
        self.step_known(alloc, turned.description(), &marks)
    }

    /// Applies the patches to the description of which this is held, and answers what takes them back. If the map that they make has no
    /// rows, the answer is its first fault, and the description and this stay.
    pub fn turn(
        &mut self,
        alloc: Global,
        description: &mut Description,
        patches: Vec<Patch>,
    ) -> Result<Vec<Patch>, Fault>
        requires fit { AllFit patches.items description.old.items }
        requires held { IsHeldOf description.old.items self.old }
        ensures made { OnOk result (description.new.items ≡ image patches.items description.old.items) }
        ensures back { IfOk result (λ back. back.items ≡ inverses patches.items description.old.items) }
        ensures fits { IfOk result (λ back. AllFit back.items description.new.items) }
        ensures leads { IfOk result (λ back. image back.items description.new.items ≡ description.old.items) }
        ensures held { IsHeldOf description.new.items self.new }
        ensures top { self.new.top ≡ self.old.top }
        ensures placed { OnOk result (HasTurned patches.items description.old.items self.old description.new.items self.new) }
        ensures refused { IfErr result (λ fault. (elaborated (image patches.items description.old.items) self.old.top ≡ Err fault) ⊎ (fault ≡ out_of_memory)) }
        ensures unmoved { OnErr result (description.new.items ≡ description.old.items) }
        ensures err { OnErr result (self.new ≡ self.old) }
    {
        let Ok(mut turned) = description.turn(alloc, patches) else {
            return Err(no_memory());
        };
        match self.step_on(alloc, &turned) {
            Ok(()) => Ok(turned.keep()),
            Err(fault) => {
                let _patches = turned.back();
                Err(fault)
            }
        }
    }

    /// Applies patches that lead to a map that has rows, as those that take a step back, and answers what takes them back. Nothing is
    /// judged then. Where memory is refused, the same patches come back, and the description and this stay.
    pub fn turn_known(
        &mut self,
        alloc: Global,
        description: &mut Description,
        patches: Vec<Patch>,
    ) -> Result<Vec<Patch>, Vec<Patch>>
        requires fit { AllFit patches.items description.old.items }
        requires held { IsHeldOf description.old.items self.old }
        requires rows { HasRows (image patches.items description.old.items) self.old.top }
        ensures made { OnOk result (description.new.items ≡ image patches.items description.old.items) }
        ensures back { IfOk result (λ back. back.items ≡ inverses patches.items description.old.items) }
        ensures fits { IfOk result (λ back. AllFit back.items description.new.items) }
        ensures leads { IfOk result (λ back. image back.items description.new.items ≡ description.old.items) }
        ensures held { IsHeldOf description.new.items self.new }
        ensures top { self.new.top ≡ self.old.top }
        ensures placed { OnOk result (HasTurned patches.items description.old.items self.old description.new.items self.new) }
        ensures handed { IfErr result (λ same. same.items ≡ patches.items) }
        ensures unmoved { OnErr result (description.new.items ≡ description.old.items) }
        ensures err { OnErr result (self.new ≡ self.old) }
    {
        let mut turned = description.turn(alloc, patches)?;
        match self.step_on_known(alloc, &turned) {
            Ok(()) => Ok(turned.keep()),
            Err(_) => Err(turned.back()),
        }
    }
}
