//! What a body sees around it, told by bodies and slots alone, and looked up when it is asked.
ghost use Rattle.std.specs.Prelude.{◌≡◌, ◌∷◌, [], IfOk, option_map};
ghost use Rattle.rdl_places.specs.HeldScope.{place_of, outer_places, places_of, holding_of, found_of};
ghost use Rattle.rdl_nodes.specs.KeptNode.{kept_of};
ghost use Rattle.rdl_places.specs.Reached.{instances_at, component_of, find_before, place_inside, find_inside, found_at, IsFoundHeld};
ghost use Rattle.rdl_places.specs.Scopes.{around_places, IsScope, IsHolding, AreHeld, known_at, holding_at, last_type, find_type, IsAtPlace};
ghost use Rattle.rdl_places.specs.Lasting.{AreLasts};
ghost use Rattle.rdl_nodes.specs.View.{slots_of};
ghost use Rattle.rdl_scope.specs.Closed.{lookup};
ghost use Rattle.rdl_seen.specs.Inside.{find};
ghost use Rattle.rdl_seen.specs.Layouts.{Laying};
ghost use Rattle.rdl_seen.specs.Meaning.{kept_at};
ghost use Rattle.rdl_seen.specs.Node.{Known};

use crate::lasts::{Lasts, Searched};
use crate::numbers::{Sought, definition, instance};
use rdl_nodes::node::{Kept, Slot};
use rdl_seen::seen::Seen;
use rdl_text::name::Name;
use rdl_tree::description::{Body, Component, Of};
use std::alloc::{AllocError, Global};
use std::rc::Rc;

/// The place of an item in a body: how many items stand before it, their slots, and the place of the item that holds the body. So it
/// tells what the item sees, and nothing is put by for that.
#[cycle(scope)]
#[derive(Clone, Copy)]
pub struct Scope<'s> {
    body: Searched<'s>,
    pub(crate) number: usize,
    slots: &'s [Slot],
    outer: Outer<'s>,
}

/// Where a body stands.
#[cycle(scope)]
#[derive(Clone, Copy)]
pub enum Outer<'s> {
    /// It is the root's.
    Nowhere,
    /// In the item at this place.
    In(&'s Scope<'s>),
}

/// A component that is written in a body: what is kept of it, and where it stands.
#[derive(Clone, Copy)]
pub struct Holder<'s> {
    pub component: &'s Component,
    pub kept: Kept<'s>,
    pub scope: Scope<'s>,
}

/// An instance that is found: how many stand before it, and its component, if that is known and no field that is written there.
#[derive(Clone, Copy)]
pub struct FoundInstance<'s> {
    pub number: usize,
    pub holder: Option<Holder<'s>>,
}

/// What is kept of the item of this number.
fn kept_slot<'s>(slots: &'s [Slot], number: usize) -> Option<Kept<'s>>
    ensures { option_map kept_of result ≡ kept_at number (slots_of slots.now) }
{
    match slots.get(number) {
        Some(slot) => slot.kept(),
        None => None,
    }
}

impl<'s> Scope<'s> {
    /// The place before the item of this number in a body that stands there, where these are the slots of the items before it.
    pub fn new(outer: Outer<'s>, body: &'s Body, number: usize, slots: &'s [Slot]) -> Scope<'s>
        ensures { places_of result ≡ record { body = body.now; number = number; slots = slots_of slots.now } ∷ outer_places outer.entry }
    {
        Scope {
            body: Searched::Plain(body),
            number,
            slots,
            outer,
        }
    }

    /// The same where these are the last items of each name of the body.
    pub fn among(
        outer: Outer<'s>,
        body: &'s Body,
        lasts: &'s Lasts,
        number: usize,
        slots: &'s [Slot],
    ) -> Scope<'s>
        requires { AreLasts body.now lasts.now }
        ensures { places_of result ≡ record { body = body.now; number = number; slots = slots_of slots.now } ∷ outer_places outer.entry }
    {
        Scope {
            body: Searched::indexed(body, lasts),
            number,
            slots,
            outer,
        }
    }

    /// The body in which it is.
    pub(crate) fn body(&self) -> &'s Body
        ensures { result.now ≡ (place_of self.now).body }
    {
        self.body.body()
    }

    /// The place of the item of this number in the same body.
    fn at(&self, number: usize) -> Scope<'s>
        ensures { places_of result ≡ record (place_of self.now) { number = number } ∷ outer_places self.now.outer }
    {
        Scope {
            body: self.body,
            number,
            slots: self.slots,
            outer: self.outer,
        }
    }

    /// The component that the item at this place holds, if that is kept by itself.
    fn holder(&self, component: &'s Component) -> Option<Holder<'s>>
        ensures { option_map holding_of result ≡ holding_at self.now.number (place_of self.now) (outer_places self.now.outer) component.now }
    {
        match kept_slot(self.slots, self.number) {
            Some(kept) => Some(Holder {
                component,
                kept,
                scope: self.at(self.number),
            }),
            None => None,
        }
    }

    /// The last definition of this name that stands before it in its body.
    fn last_type(&self, name: &Name) -> Option<Holder<'s>>
        ensures { option_map holding_of result ≡ last_type name.now self.now.number (place_of self.now) (outer_places self.now.outer) }
    {
        let number = self
            .body
            .last_sought(self.number, Sought::Definition, name)?;
        let component = definition(self.body().item(number), name)?;
        self.at(number).holder(component)
    }

    /// The nearest definition of this name: the last one before it in its body, or else in those around it.
    fn nearest_type(&self, name: &Name) -> Option<Holder<'s>>
        ensures { option_map holding_of result ≡ find_type name.now (places_of self.now) }
    {
        match self.last_type(name) {
            Some(found) => Some(found),
            None => match self.outer {
                Outer::Nowhere => None,
                Outer::In(outer) => outer.nearest_type(name),
            },
        }
    }

    /// The type of this name that the item at this place sees.
    pub fn find_type(&self, name: &Name) -> Option<Holder<'s>>
        ensures found { option_map holding_of result ≡ find_type name.now (places_of self.now) }
        ensures known { (lay : Laying) → IsScope lay (places_of self.now) → option_map (known_at lay) (option_map holding_of result) ≡ lookup name.now (around_places lay (places_of self.now)).types }
        ensures held { (lay : Laying) → IsScope lay (places_of self.now) → AreHeld lay (option_map holding_of result) }
    {
        self.nearest_type(name)
    }

    /// What is seen of the type of this name that the item at this place sees, shared with the definition.
    pub fn find_seen(&self, alloc: Global, name: &Name) -> Result<Option<Rc<Seen>>, AllocError>
        ensures { (lay : Laying) → IsScope lay (places_of self.now) → IfOk result (λ seen. option_map (λ s. s.value) seen ≡ option_map (λ (k : Known). k.seen) (lookup name.now (around_places lay (places_of self.now)).types)) }
    {
        match self.find_type(name) {
            Some(holder) => {
                let seen = holder.shared_seen(alloc)?;
                Ok(Some(seen))
            }
            None => Ok(None),
        }
    }

    /// What the instance at this place is an instance of.
    fn component(&self, of: &'s Of) -> Option<Holder<'s>>
        ensures { option_map holding_of result ≡ component_of self.now.number (place_of self.now) (outer_places self.now.outer) of.now }
    {
        match of {
            Of::Named(name) => self.find_type(name),
            Of::Anonymous(component) => self.holder(component),
        }
    }

    /// The last instance of this name that stands before it, with what it is an instance of.
    fn last_instance(&self, name: &Name) -> Option<FoundInstance<'s>>
        ensures { option_map found_of result ≡ find_before name.now self.now.number (place_of self.now) (outer_places self.now.outer) }
    {
        let number = self.body.last_sought(self.number, Sought::Instance, name)?;
        let of = instance(self.body().item(number), name)?;
        Some(FoundInstance {
            number: self.body.count_before(number),
            holder: self.at(number).component(of),
        })
    }

    /// The last instance of this name that stands before it in its body.
    pub fn find_instance(&self, name: &Name) -> Option<FoundInstance<'s>>
        ensures found { option_map found_of result ≡ find_before name.now self.now.number (place_of self.now) (outer_places self.now.outer) }
        ensures seen { (lay : Laying) → IsScope lay (places_of self.now) → find name.now (instances_at lay (places_of self.now)) ≡ option_map (found_at lay) (option_map found_of result) }
        ensures held { (lay : Laying) → IsScope lay (places_of self.now) → IsFoundHeld lay (option_map found_of result) }
    {
        self.last_instance(name)
    }
}

impl<'s> Holder<'s> {
    /// What is seen of it, shared with the item that holds it, if that is a definition.
    fn shared_seen(&self, alloc: Global) -> Result<Rc<Seen>, AllocError>
        requires { IsAtPlace (holding_of self.now) }
        ensures { IfOk result (λ seen. seen.value ≡ (holding_of self.now).node.core.seen) }
    {
        match self.scope.slots.get(self.scope.number) {
            Some(Slot::Define(_, seen, _)) => {
                let shared = seen.clone()?;
                Ok(shared)
            }
            _ => Ok(Rc::new(alloc, *self.kept.seen)?),
        }
    }

    /// The place behind its items.
    fn inside(&'s self) -> Scope<'s>
        ensures { places_of result ≡ place_inside (holding_of self.now) ∷ (holding_of self.now).places }
    {
        let body = &self.component.body;
        let slots = self.kept.node.slots();
        Scope::new(Outer::In(&self.scope), body, body.len(), slots)
    }

    /// The last instance of this name among its items.
    pub fn find_instance(&'s self, name: &Name) -> Option<FoundInstance<'s>>
        ensures found { option_map found_of result ≡ find_inside name.now (holding_of self.now) }
        ensures seen { (lay : Laying) → IsHolding lay (holding_of self.now) → find name.now (known_at lay (holding_of self.now)).within.inside ≡ option_map (found_at lay) (option_map found_of result) }
        ensures held { (lay : Laying) → IsHolding lay (holding_of self.now) → IsFoundHeld lay (option_map found_of result) }
    {
        let scope = self.inside();
        scope.last_instance(name)
    }
}
