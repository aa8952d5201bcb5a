//! What is kept of items that weren't there before, looked up from where they stand.
ghost use Rattle.std.specs.Prelude.{◌≡◌, IfOk, OnOk, Some};
ghost use Rattle.rdl_nodes.specs.Bodies.{after_default_item};
ghost use Rattle.rdl_nodes.specs.View.{slots_of};
ghost use Rattle.rdl_places.specs.HeldScope.{places_of, outer_places};
ghost use Rattle.rdl_places.specs.Scopes.{around_places, IsScope};
ghost use Rattle.rdl_renew.specs.Anew.{slot_there, named_there, slots_there};
ghost use Rattle.rdl_renew.specs.Fronts.{front_of};
ghost use Rattle.rdl_renew.specs.Judged.{IfStillClean, HasNoneInside, IsCleanThere};
ghost use Rattle.rdl_seen.specs.Layouts.{Laying};
ghost use Rattle.rdl_seen.specs.Names.{class_of};
ghost use Rattle.rdl_seen.specs.Node.{node};
ghost use Rattle.rdl_seen.specs.Slots.{no_slots, written, type_slot, part_slot};
ghost use Rattle.rdl_tree.specs.declared.shell.Shell.{Shell};

use crate::judge::Judge;
use crate::look_ups::names_of;
use rdl_nodes::field::FieldBody;
use rdl_nodes::finished::finished;
use rdl_nodes::lays::Lays;
use rdl_nodes::node::{Node, Slot};
use rdl_places::lasts::Lasts;
use rdl_places::leads::verdict_of;
use rdl_places::scope::{Outer, Scope};
use rdl_seen::names::class_of;
use rdl_seen::property_set::PropertySet;
use rdl_seen::values::Values;
use rdl_text::name::Name;
use rdl_tree::description::{Body, Component, Item, Of};
use rdl_tree::shell::Kind;
use std::alloc::{AllocError, Global};
use std::rc::Rc;

/// An instance of the type of this name.
fn named(alloc: Global, scope: &Scope, name: &Name) -> Result<Slot, AllocError>
    ensures { (lay : Laying) → IsScope lay (places_of scope.now) → IfOk result (λ x. front_of x ≡ named_there lay (places_of scope.now) name.now) }
{
    let seen = scope.find_seen(alloc, name)?;
    Ok(Slot::Named(class_of(name), seen))
}

/// A definition of this name.
pub(crate) fn define(alloc: Global, name: &Name, node: Node) -> Result<Slot, AllocError>
    ensures { IfOk result (λ x. front_of x ≡ written (type_slot (class_of name.now)) node.core node.slots no_slots) }
{
    let seen = Rc::new(alloc, node.core().seen)?;
    let node = Rc::new(alloc, node)?;
    Ok(Slot::Define(class_of(name), seen, node))
}

/// An instance of a component that is written there and is no field.
pub(crate) fn part(alloc: Global, node: Node) -> Result<Slot, AllocError>
    ensures { IfOk result (λ x. front_of x ≡ written part_slot node.core node.slots no_slots) }
{
    let node = Rc::new(alloc, node)?;
    Ok(Slot::Part(node))
}

/// A component that the item at this place holds, under the defaults that reach it. It is looked at.
#[cycle(anew)]
fn component_anew<L: Lays>(
    alloc: Global,
    lay: &L,
    scope: &Scope,
    defaults: &Values,
    component: &Component,
    judge: &mut Judge,
) -> Result<Node, AllocError>
    ensures node { IsScope L.laying (places_of scope.now) → defaults.now ≡ (around_places L.laying (places_of scope.now)).defaults → IfOk result (λ n. n ≡ node L.laying (around_places L.laying (places_of scope.now)) component.now.kind component.now.body) }
    ensures clean { IsScope L.laying (places_of scope.now) → defaults.now ≡ (around_places L.laying (places_of scope.now)).defaults → OnOk result (IfStillClean judge.old.is_clean judge.new.is_clean (IsCleanThere L.laying (places_of scope.now) (Some component.now.kind) component.now.body)) }
{
    let outer = Outer::In(&*scope);
    let around = Some(component.kind);
    let slots = body_anew(alloc, lay, outer, defaults, around, &component.body, judge)?;
    finished(alloc, lay, defaults, component, slots)
}

/// An instance of a component that is written there. The component is looked at.
#[cycle(anew)]
fn anonymous_anew<L: Lays>(
    alloc: Global,
    lay: &L,
    scope: &Scope,
    defaults: &Values,
    component: &Component,
    judge: &mut Judge,
) -> Result<Slot, AllocError>
    ensures slot { (shell : Shell) → IsScope L.laying (places_of scope.now) → defaults.now ≡ (around_places L.laying (places_of scope.now)).defaults → IfOk result (λ x. front_of x ≡ slot_there L.laying (places_of scope.now) (Item.Instance shell (Of.Anonymous component.now))) }
    ensures clean { IsScope L.laying (places_of scope.now) → defaults.now ≡ (around_places L.laying (places_of scope.now)).defaults → OnOk result (IfStillClean judge.old.is_clean judge.new.is_clean (IsCleanThere L.laying (places_of scope.now) (Some component.now.kind) component.now.body)) }
{
    match component.kind {
        Kind::Field => {
            judge.look_at_field(&component.body);
            Ok(Slot::Field(FieldBody::of(&component.body)))
        }
        _ => {
            let node = component_anew(alloc, lay, scope, defaults, component, judge)?;
            part(alloc, node)
        }
    }
}

/// An item at this place, under the defaults that reach it. What is inside it is looked at.
#[cycle(anew)]
pub(crate) fn item_anew<L: Lays>(
    alloc: Global,
    lay: &L,
    scope: &Scope,
    defaults: &Values,
    item: &Item,
    judge: &mut Judge,
) -> Result<Slot, AllocError>
    ensures slot { IsScope L.laying (places_of scope.now) → defaults.now ≡ (around_places L.laying (places_of scope.now)).defaults → IfOk result (λ x. front_of x ≡ slot_there L.laying (places_of scope.now) item.now) }
    ensures clean { IsScope L.laying (places_of scope.now) → defaults.now ≡ (around_places L.laying (places_of scope.now)).defaults → OnOk result (IfStillClean judge.old.is_clean judge.new.is_clean (HasNoneInside L.laying (places_of scope.now) item.now)) }
{
    match item {
        Item::Own(_, _) => Ok(Slot::Own),
        Item::Default(name, _) => Ok(Slot::Default(PropertySet::of_name(name))),
        Item::Dynamic(target, name, value) => {
            let verdict = verdict_of(scope, name, value, target.names());
            Ok(Slot::Dynamic(verdict))
        }
        Item::Instance(_, Of::Named(name)) => named(alloc, scope, name),
        Item::Instance(_, Of::Anonymous(component)) => {
            anonymous_anew(alloc, lay, scope, defaults, component, judge)
        }
        Item::Define(name, component) => {
            let node = component_anew(alloc, lay, scope, defaults, component, judge)?;
            define(alloc, name, node)
        }
    }
}

/// States what a default states; another item states nothing.
pub(crate) fn put_default(defaults: &mut Values, item: &Item)
    ensures { defaults.new ≡ after_default_item item.now defaults.old }
{
    if let Item::Default(name, value) = item {
        defaults.put_named(name, value);
    }
}

/// The items of a body that stands there, under the defaults that reach it: of a component of this kind, or of the root. They are looked at.
#[cycle(anew)]
pub(crate) fn body_anew<L: Lays>(
    alloc: Global,
    lay: &L,
    outer: Outer,
    defaults: &Values,
    around: Option<Kind>,
    body: &Body,
    judge: &mut Judge,
) -> Result<Vec<Slot>, AllocError>
    ensures slots { IsScope L.laying (outer_places outer.entry) → defaults.now ≡ (around_places L.laying (outer_places outer.entry)).defaults → IfOk result (λ slots. slots_of slots.items ≡ slots_there L.laying (outer_places outer.entry) body.now) }
    ensures clean { IsScope L.laying (outer_places outer.entry) → defaults.now ≡ (around_places L.laying (outer_places outer.entry)).defaults → OnOk result (IfStillClean judge.old.is_clean judge.new.is_clean (IsCleanThere L.laying (outer_places outer.entry) around body.now)) }
{
    judge.look_at_body(body);
    let mut slots = Vec::new(alloc);
    let mut defaults = *defaults;
    let mut lasts = Lasts::none(alloc);
    for (i, item) in body.as_slice().iter().enumerate() {
        let slot = {
            lasts.look(alloc, body, i, names_of(item))?;
            let scope = Scope::among(outer, body, &lasts, i, slots.as_slice());
            judge.look_at(&scope, around, item);
            item_anew(alloc, lay, &scope, &defaults, item, judge)?
        };
        slots.push(slot)?;
        put_default(&mut defaults, item);
    }
    Ok(slots)
}
