//! The component of an item, and the slot of an item with a component.
ghost use Rattle.std.specs.Prelude.{◌≡◌, true, IfOk, IfSome, option_copied};
ghost use Rattle.rdl_marks.specs.Marks.{no_marks};
ghost use Rattle.rdl_renew.specs.Again.{IsSameComponent, IsHeldAgain};
ghost use Rattle.rdl_renew.specs.Fronts.{front_of};
ghost use Rattle.rdl_renew.specs.Renewing.{part_of, kept_component, written_of};
ghost use Rattle.rdl_seen.specs.Names.{class_of};
ghost use Rattle.rdl_seen.specs.Slots.{no_slots, written, type_slot, part_slot};

use crate::alike::is_width_same;
use crate::anew::{define, part};
use rdl_marks::marks::BodyMarks;
use rdl_nodes::node::{Node, Slot};
use rdl_seen::alert::Alert;
use rdl_seen::names::class_of;
use rdl_text::name::Name;
use rdl_tree::description::{Component, Item, Of};
use rdl_tree::shell::Kind;
use std::alloc::{AllocError, Global};

/// The component of an item, if it is kept by itself.
pub(crate) fn kept_component(item: &Item) -> Option<&Component>
    ensures { option_copied result ≡ kept_component item.now }
{
    match item {
        Item::Define(_, component) => Some(component),
        Item::Instance(_, of) => part_of(of),
        _ => None,
    }
}

/// What an instance is an instance of, if it is written there and no field.
fn part_of(of: &Of) -> Option<&Component>
    ensures { option_copied result ≡ part_of of.now }
{
    match of {
        Of::Anonymous(component) => match component.kind {
            Kind::Field => None,
            _ => Some(component),
        },
        Of::Named(_) => None,
    }
}

/// The slot of an item whose component is kept as this node.
pub(crate) fn slot_with(alloc: Global, item: &Item, node: Node) -> Result<Slot, AllocError>
    ensures { IfOk result (λ x. front_of x ≡ written (written_of item.now) node.core node.slots no_slots) }
{
    match item {
        Item::Define(name, _) => define(alloc, name, node),
        _ => part(alloc, node),
    }
}

/// Whether it is seen that nothing was changed in a body.
fn is_untouched(marks: &BodyMarks) -> bool
    ensures { result ≡ true → marks.now ≡ no_marks }
{
    if marks.behind != 0 {
        return false;
    }
    if !marks.gone.is_empty() {
        return false;
    }
    match marks.pieces.get(0) {
        Some(_) => false,
        None => true,
    }
}

/// The slot of a definition of this name with the component of a slot, if that is one of a definition, and listens to nothing that the
/// alert tells of.
fn define_again(slot: &Slot, alert: &Alert, name: &Name) -> Result<Option<Slot>, AllocError>
    ensures { IfOk result (λ again. IfSome again (λ s. IsSameComponent (type_slot (class_of name.now)) alert.now slot.now s)) }
{
    match slot {
        Slot::Define(_, seen, node) => {
            if alert.reaches(seen.as_ref()) {
                return Ok(None);
            }
            let seen = seen.clone()?;
            let node = node.clone()?;
            Ok(Some(Slot::Define(class_of(name), seen, node)))
        }
        _ => Ok(None),
    }
}

/// The slot of an instance of the component of a slot, if that is one of an instance, and listens to nothing that the alert tells of.
fn part_again(slot: &Slot, alert: &Alert) -> Result<Option<Slot>, AllocError>
    ensures { IfOk result (λ again. IfSome again (λ s. IsSameComponent part_slot alert.now slot.now s)) }
{
    match slot {
        Slot::Part(node) => {
            if alert.reaches(&node.as_ref().core().seen) {
                return Ok(None);
            }
            let node = node.clone()?;
            Ok(Some(Slot::Part(node)))
        }
        _ => Ok(None),
    }
}

/// The slot of an item with the component of a slot, if that listens to nothing that the alert tells of.
fn component_again(slot: &Slot, alert: &Alert, item: &Item) -> Result<Option<Slot>, AllocError>
    ensures { IfOk result (λ again. IfSome again (λ s. IsSameComponent (written_of item.now) alert.now slot.now s)) }
{
    match item {
        Item::Define(name, _) => define_again(slot, alert, name),
        Item::Instance(_, _) => part_again(slot, alert),
        _ => Ok(None),
    }
}

/// The slot of an item that stayed in order and had this number, if its component is as it was and listens to nothing that the alert
/// tells of. So it isn't gone into where its name alone was changed, or where it is placed.
pub(crate) fn slot_again(
    slots: &[Slot],
    number: usize,
    inside: &BodyMarks,
    alert: &Alert,
    item: &Item,
) -> Result<Option<Slot>, AllocError>
    ensures { IfOk result (λ again. IfSome again (λ s. IsHeldAgain alert.now slots.now number inside.now item.now s)) }
{
    if !is_untouched(inside) || !is_width_same(*alert) {
        return Ok(None);
    }
    match kept_component(item) {
        Some(_) => match slots.get(number) {
            Some(slot) => component_again(slot, alert, item),
            None => Ok(None),
        },
        None => Ok(None),
    }
}
