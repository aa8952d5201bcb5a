//! What is kept of the items of a body, walked from the first one to the last.
ghost use Rattle.std.specs.Prelude.{◌≡◌, IfOk, OnOk, take, length};
ghost use Rattle.rdl_nodes.specs.HeldAround.{around_of};
ghost use Rattle.rdl_nodes.specs.HeldInside.{within_of};
ghost use Rattle.rdl_nodes.specs.HeldWalked.{walked_of, with_slot};
ghost use Rattle.rdl_nodes.specs.View.{add, slots_of};
ghost use Rattle.rdl_tree.specs.Items.{Items, named, holder, anonymous};
ghost use Rattle.rdl_tree.specs.View.{add as add_item};
ghost use Rattle.rdl_seen.specs.Contents.{field_of};
ghost use Rattle.rdl_seen.specs.Inside.{with_instance, nothing_within};
ghost use Rattle.rdl_seen.specs.Names.{class_of};
ghost use Rattle.rdl_seen.specs.PropertySet.{set_named};
ghost use Rattle.rdl_seen.specs.Node.{with_type, with_default, walked, body_of, node, known, known_of, core_of, plain_slot, plain_instances};
ghost use Rattle.rdl_seen.specs.Slots.{Slots, slot, default_slot, field_slot, written, type_slot, part_slot};

use crate::around::Around;
use crate::field::FieldBody;
use crate::finished::finished;
use crate::inside::{Inside, Within};
use crate::lays::Lays;
use crate::node::{Node, Slot};
use crate::target::verdict_of;
use crate::types::Known;
use rdl_seen::names::class_of;
use rdl_seen::property_set::PropertySet;
use rdl_seen::values::Values;
use rdl_text::name::Name;
use rdl_tree::description::{Body, Component, Item, Of};
use rdl_tree::shell::{Kind, Shell};
use rdl_tree::value::Value;
use std::alloc::{AllocError, Global};
use std::rc::Rc;

/// What is kept of the items of a body, and the instances among them.
#[derive(Drop)]
pub(crate) struct Walked<'a> {
    pub slots: Vec<Slot>,
    pub instances: Inside<'a>,
}

/// What is kept of a component, and what targets find inside it.
#[derive(Drop)]
struct Made<'a> {
    node: Node,
    within: Within<'a>,
}

/// An instance of the type of this name.
fn named<'a>(
    around: &Around<'a>,
    before: &mut Inside<'a>,
    shell: &'a Shell,
    name: &'a Name,
) -> Result<Slot, AllocError>
    ensures slot { IfOk result (λ x. (rest : Slots) → add x rest ≡ slot (plain_slot (around_of around.now) before.old (named shell.now name.now)) rest) }
    ensures instances { OnOk result (before.new ≡ plain_instances (around_of around.now) (named shell.now name.now) before.old) }
{
    match around.get(name) {
        Some(known) => {
            let seen = known.seen.clone()?;
            let within = known.within.share()?;
            before.push(shell.name(), within)?;
            Ok(Slot::Named(class_of(name), Some(seen)))
        }
        None => {
            before.push(shell.name(), Within::Nothing)?;
            Ok(Slot::Named(class_of(name), None))
        }
    }
}

/// An instance of a field that is written there, with this body.
fn field<'a>(before: &mut Inside<'a>, shell: &'a Shell, body: &Body) -> Result<Slot, AllocError>
    ensures slot { IfOk result (λ x. (rest : Slots) → add x rest ≡ slot (field_slot (field_of body.now)) rest) }
    ensures instances { OnOk result (before.new ≡ with_instance shell.now.name nothing_within before.old) }
{
    before.push(shell.name(), Within::Nothing)?;
    Ok(Slot::Field(FieldBody::of(body)))
}

/// An instance of another component that is written there.
fn part<'a>(
    alloc: Global,
    before: &mut Inside<'a>,
    shell: &'a Shell,
    made: Made<'a>,
) -> Result<Slot, AllocError>
    ensures slot { IfOk result (λ x. (rest : Slots) → add x rest ≡ written part_slot made.entry.node.core made.entry.node.slots rest) }
    ensures instances { OnOk result (before.new ≡ with_instance shell.now.name (within_of made.entry.within) before.old) }
{
    let Made { node, within } = made;
    before.push(shell.name(), within)?;
    let node = Rc::new(alloc, node)?;
    Ok(Slot::Part(node))
}

/// A definition of this name.
fn define<'a>(
    alloc: Global,
    around: &mut Around<'a>,
    name: &'a Name,
    made: Made<'a>,
) -> Result<Slot, AllocError>
    ensures slot { IfOk result (λ x. (rest : Slots) → add x rest ≡ written (type_slot (class_of name.now)) made.entry.node.core made.entry.node.slots rest) }
    ensures around { OnOk result (around_of around.new ≡ with_type name.now (record { seen = made.entry.node.core.seen; within = within_of made.entry.within }) (around_of around.old)) }
    ensures types { OnOk result (take (length around.old.types.list.items) around.new.types.list.items ≡ around.old.types.list.items) }
{
    let Made { node, within } = made;
    let seen = Rc::new(alloc, node.core().seen)?;
    let known = Known {
        seen: seen.clone()?,
        within,
    };
    around.define(name, known)?;
    let node = Rc::new(alloc, node)?;
    Ok(Slot::Define(class_of(name), seen, node))
}

/// A component whose items are walked, under these defaults. It is said whether names may be looked up inside it.
fn finish<'a, L: Lays>(
    alloc: Global,
    lay: &L,
    defaults: &Values,
    leads_inside: bool,
    component: &'a Component,
    items: Walked<'a>,
) -> Result<Made<'a>, AllocError>
    ensures node { IfOk result (λ m. m.node ≡ record { core = core_of L.laying component.now.kind defaults.now component.now.body (walked_of items.entry).slots; slots = (walked_of items.entry).slots }) }
    ensures within { IfOk result (λ m. within_of m.within ≡ (known_of (core_of L.laying component.now.kind defaults.now component.now.body (walked_of items.entry).slots) (walked_of items.entry).instances).within) }
{
    let Walked {
        slots,
        mut instances,
    } = items;
    let node = finished(alloc, lay, defaults, component, slots)?;
    let layouts = node.core().layouts.clone()?;
    let is_ordered = node.core().seen.is_ordered;
    instances.close(alloc, leads_inside)?;
    let instances = Rc::new(alloc, instances)?;
    Ok(Made {
        node,
        within: Within::Of(component.kind, layouts, is_ordered, instances),
    })
}

/// A default of the property of this name.
fn default<'a>(around: &mut Around<'a>, name: &Name, value: &Value) -> Slot
    ensures slot { (rest : Slots) → add result rest ≡ slot (default_slot (set_named name.now)) rest }
    ensures around { around_of around.new ≡ with_default name.now value.now (around_of around.old) }
    ensures types { around.new.types.list.items ≡ around.old.types.list.items }
{
    around.defaults.put_named(name, value);
    Slot::Default(PropertySet::of_name(name))
}

/// What is kept of a component that is written there, under what stands around it, which stays.
#[cycle(walk)]
fn walk_component<'a, L: Lays>(
    alloc: Global,
    lay: &L,
    around: &mut Around<'a>,
    component: &'a Component,
) -> Result<Made<'a>, AllocError>
    ensures node { IfOk result (λ m. m.node ≡ node L.laying (around_of around.old) component.now.kind component.now.body) }
    ensures within { IfOk result (λ m. within_of m.within ≡ (known L.laying (around_of around.old) component.now.kind component.now.body).within) }
    ensures types { OnOk result (around.new.types.list.items ≡ around.old.types.list.items) }
    ensures defaults { OnOk result (around.new.defaults ≡ around.old.defaults) }
{
    let items = walk(alloc, lay, around, &component.body)?;
    finish(
        alloc,
        lay,
        &around.defaults,
        around.leads_inside,
        component,
        items,
    )
}

/// An instance of a component that is written there.
#[cycle(walk)]
fn anonymous<'a, L: Lays>(
    alloc: Global,
    lay: &L,
    around: &mut Around<'a>,
    before: &mut Inside<'a>,
    shell: &'a Shell,
    component: &'a Component,
) -> Result<Slot, AllocError>
    ensures walked { IfOk result (λ x. (rest : Items) → walked L.laying (around_of around.old) before.old (holder (anonymous shell.now component.now.kind) component.now.body rest) ≡ with_slot x (walked L.laying (around_of around.new) before.new rest)) }
    ensures types { OnOk result (around.new.types.list.items ≡ around.old.types.list.items) }
{
    match component.kind {
        Kind::Field => field(before, shell, &component.body),
        _ => {
            let made = walk_component(alloc, lay, around, component)?;
            part(alloc, before, shell, made)
        }
    }
}

/// What is kept of an item behind these instances, under what stands around it. Then the item is one of what stands there.
#[cycle(walk)]
fn walk_item<'a, L: Lays>(
    alloc: Global,
    lay: &L,
    around: &mut Around<'a>,
    before: &mut Inside<'a>,
    item: &'a Item,
) -> Result<Slot, AllocError>
    ensures walked { IfOk result (λ x. (rest : Items) → walked L.laying (around_of around.old) before.old (add_item item.now rest) ≡ with_slot x (walked L.laying (around_of around.new) before.new rest)) }
    ensures types { OnOk result (take (length around.old.types.list.items) around.new.types.list.items ≡ around.old.types.list.items) }
{
    match item {
        Item::Own(_, _) => Ok(Slot::Own),
        Item::Default(name, value) => Ok(default(around, name, value)),
        Item::Dynamic(target, name, value) => {
            before.look(alloc)?;
            let verdict = verdict_of(name, value, target.names(), before);
            Ok(Slot::Dynamic(verdict))
        }
        Item::Instance(shell, Of::Named(name)) => named(around, before, shell, name),
        Item::Instance(shell, Of::Anonymous(component)) => {
            anonymous(alloc, lay, around, before, shell, component)
        }
        Item::Define(name, component) => {
            let made = walk_component(alloc, lay, around, component)?;
            define(alloc, around, name, made)
        }
    }
}

/// What is kept of the items of a body, under what stands around it, which stays.
#[cycle(walk)]
pub(crate) fn walk<'a, L: Lays>(
    alloc: Global,
    lay: &L,
    around: &mut Around<'a>,
    body: &'a Body,
) -> Result<Walked<'a>, AllocError>
    ensures walked { IfOk result (λ w. walked_of w ≡ body_of L.laying (around_of around.old) body.now) }
    ensures types { OnOk result (around.new.types.list.items ≡ around.old.types.list.items) }
    ensures defaults { OnOk result (around.new.defaults ≡ around.old.defaults) }
{
    let len = around.len();
    let defaults = around.defaults;
    let mut slots = Vec::with_capacity(alloc, body.len())?;
    let mut instances = Inside::new(alloc);
    for item in body.as_slice() {
        let slot = walk_item(alloc, lay, around, &mut instances, item)?;
        slots.push(slot)?;
    }
    around.leave(len, defaults);
    Ok(Walked { slots, instances })
}
