//! Whether it is known that no item has a fault, as far as items were looked at.
ghost use Rattle.std.specs.Prelude.{◌≡◌, true};
ghost use Rattle.rdl_places.specs.HeldScope.{places_of};
ghost use Rattle.rdl_places.specs.Scopes.{IsScope};
ghost use Rattle.rdl_renew.specs.Alone.{AllStandAlone};
ghost use Rattle.rdl_renew.specs.Judged.{IfStillClean, HasNoneThere, IsCleanInField, IsCleanField};
ghost use Rattle.rdl_renew.specs.StillClean.{StandAloneStill};
ghost use Rattle.rdl_seen.specs.Layouts.{Laying};

use crate::apart::{all_stand_alone, stand_alone};
use rdl_marks::marks::BodyMarks;
use rdl_places::faults::lone_fault;
use rdl_places::scope::Scope;
use rdl_scope::assignments::{default_fault, own_fault};
use rdl_tree::description::{Body, Item};
use rdl_tree::properties::property;
use rdl_tree::shell::Kind;

/// Whether it is seen that an item of a field's body has no fault by itself. A field holds assignments of its own properties, and defaults.
fn is_clean_in_field(item: &Item) -> bool
    ensures { result ≡ true → IsCleanInField item.now }
{
    match item {
        Item::Own(name, value) => {
            let property = property(name.as_str());
            own_fault(Some(Kind::Field), false, false, property, value).is_none()
        }
        Item::Default(name, value) => {
            default_fault(false, property(name.as_str()), value).is_none()
        }
        _ => false,
    }
}

/// Whether it is seen that no item of a field's body has a fault.
fn is_clean_field(body: &Body) -> bool
    ensures { result ≡ true → IsCleanField body.now }
{
    for i in 0..body.len() {
        if let Some(item) = body.item(i) {
            if !is_clean_in_field(item) {
                return false;
            }
        }
    }
    all_stand_alone(body)
}

/// Who looks at items, and knows whether none of those had a fault. Once that isn't known, no more items are looked at.
#[derive(Clone, Copy)]
pub(crate) struct Judge {
    pub is_clean: bool,
}

impl Judge {
    /// The items of a body that is new are to stand alone.
    pub(crate) fn look_at_body(&mut self, body: &Body)
        ensures { IfStillClean self.old.is_clean self.new.is_clean (AllStandAlone body.now) }
    {
        self.is_clean = self.is_clean && all_stand_alone(body);
    }

    /// The items of a body of which this became are to stand alone, if they did in what it was.
    pub(crate) fn look_at_changed(&mut self, marks: &BodyMarks, body: &Body)
        ensures { IfStillClean self.old.is_clean self.new.is_clean (StandAloneStill marks.now body.now) }
    {
        self.is_clean = self.is_clean && stand_alone(marks, body);
    }

    /// The body of a field that is new is to have no fault.
    pub(crate) fn look_at_field(&mut self, body: &Body)
        ensures { IfStillClean self.old.is_clean self.new.is_clean (IsCleanField body.now) }
    {
        self.is_clean = self.is_clean && is_clean_field(body);
    }

    /// The item at this place, in the body of a component of this kind or of the root, is to have no fault by itself.
    pub(crate) fn look_at(&mut self, scope: &Scope, around: Option<Kind>, item: &Item)
        ensures { (lay : Laying) → IsScope lay (places_of scope.now) → IfStillClean self.old.is_clean self.new.is_clean (HasNoneThere lay (places_of scope.now) around item.now) }
    {
        self.is_clean = self.is_clean && lone_fault(scope, around, item).is_none();
    }
}
