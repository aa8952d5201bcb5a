//! The fields of a register: what they take of defaults, and whether one can have a fault.
ghost use Rattle.std.specs.Prelude.{◌≡◌, false, map, nat_le, option_copied};
ghost use Rattle.std.specs.List.{list_all};
ghost use Rattle.rdl_seen.specs.Layouts.{Span};
ghost use Rattle.rdl_nodes.specs.Parts.{of_item, before_item};
ghost use Rattle.rdl_nodes.specs.Part.{reset_of, access_of};
ghost use Rattle.rdl_nodes.specs.View.{slots_of};
ghost use Rattle.rdl_seen.specs.PropertySet.{no_properties};
ghost use Rattle.rdl_tree.specs.declared.shell.Shell.{Shell};
ghost use Rattle.rdl_seen.specs.Fields.{instance_takes, of_field, field_takes, may_share, clashes_none, clash_none, have_room, are_fields_sound};

use crate::field::FieldBody;
use crate::layouts::Span;
use crate::node::Slot;
use crate::parts::{Part, says_bits};
use crate::verdict::has_room;
use rdl_seen::property_set::PropertySet;
use rdl_seen::values::{Access, Values};
use rdl_tree::description::{Body, Item};
use rdl_tree::property::Property;
use rdl_tree::shell::Shell;

/// Which defaults a field takes that is written where it is instantiated.
fn body_takes(shell: &Shell, field: FieldBody) -> PropertySet
    ensures { result ≡ instance_takes shell.now (of_field field) }
{
    let width = PropertySet::of_if(
        field.width().is_none() && !says_bits(shell),
        Property::Fieldwidth,
    );
    let access = PropertySet::of_if(field.access().is_none(), Property::Sw);
    let reset = PropertySet::of_if(
        field.reset().is_none() && shell.reset().is_none(),
        Property::Reset,
    );
    width.with(access.with(reset))
}

/// Which defaults an instance takes, whose item has this slot.
fn instance_takes(shell: &Shell, slot: Option<&Slot>) -> PropertySet
    ensures { result ≡ instance_takes shell.now (of_item (option_copied slot.entry)) }
{
    match slot {
        Some(Slot::Field(field)) => body_takes(shell, *field),
        Some(Slot::Named(_, Some(_))) => PropertySet::none(),
        Some(Slot::Named(_, None)) => PropertySet::none(),
        Some(Slot::Define(_, _, _)) => PropertySet::none(),
        Some(Slot::Part(_)) => PropertySet::none(),
        Some(Slot::Own) => PropertySet::none(),
        Some(Slot::Default(_)) => PropertySet::none(),
        Some(Slot::Dynamic(_)) => PropertySet::none(),
        None => PropertySet::none(),
    }
}

/// Whether the slot is that of a field that is written where it is instantiated.
fn is_field(slot: Option<&Slot>) -> bool
    ensures { result ≡ false → (s : Shell) → instance_takes s (of_item (option_copied slot.entry)) ≡ no_properties }
{
    match slot {
        Some(Slot::Field(_)) => true,
        Some(Slot::Named(_, Some(_))) => false,
        Some(Slot::Named(_, None)) => false,
        Some(Slot::Define(_, _, _)) => false,
        Some(Slot::Part(_)) => false,
        Some(Slot::Own) => false,
        Some(Slot::Default(_)) => false,
        Some(Slot::Dynamic(_)) => false,
        None => false,
    }
}

/// Which defaults the fields take that are written among an item with this slot and those behind it, which take these.
fn before_item(item: &Item, slot: Option<&Slot>, takes: PropertySet) -> PropertySet
    ensures { result ≡ before_item item.now (of_item (option_copied slot.entry)) takes }
{
    match item {
        Item::Instance(shell, _) => instance_takes(shell, slot).with(takes),
        Item::Default(name, _) => takes.without(PropertySet::of_name(name)),
        Item::Define(_, _) | Item::Own(_, _) | Item::Dynamic(_, _, _) => takes,
    }
}

/// The same. Where nothing is taken and this is no such field, the item isn't looked at.
fn before_slot(item: &Item, slot: Option<&Slot>, takes: PropertySet) -> PropertySet
    ensures { result ≡ before_item item.now (of_item (option_copied slot.entry)) takes }
{
    if takes.is_empty() && !is_field(slot) {
        return takes;
    }
    before_item(item, slot, takes)
}

/// Which defaults the fields of a body with these slots take from outside.
pub fn field_takes(body: &Body, slots: &[Slot]) -> PropertySet
    ensures { result ≡ field_takes body.now (slots_of slots.now) }
{
    let items = body.as_slice();
    let mut takes = PropertySet::none();
    for i in (0..items.len()).rev() {
        takes = before_slot(&items[i], slots.get(i), takes);
    }
    takes
}

/// Whether fields that are accessed so may share bits: one is only read, and the other only written.
fn may_share(first: Access, second: Access) -> bool
    ensures { result ≡ may_share first second }
{
    match (first, second) {
        (Access::OnlyReads, Access::OnlyWrites) => true,
        (Access::OnlyWrites, Access::OnlyReads) => true,
        _ => false,
    }
}

/// Whether a field clashes with none of these, which lie there.
pub(crate) fn clashes_none(span: Span, access: Access, spans: &[Span], parts: &[Part]) -> bool
    ensures { result ≡ clashes_none span access spans.now (map access_of parts.now) }
{
    for (i, other) in spans.iter().enumerate() {
        let Some(part) = parts.get(i) else {
            return true;
        };
        if span.overlaps(*other) && !may_share(access, part.access()) {
            return false;
        }
    }
    true
}

/// Whether no reset has more bits than its field, where these fields lie there.
fn have_room(spans: &[Span], parts: &[Part]) -> bool
    ensures { result ≡ have_room spans.now (map reset_of parts.now) }
{
    for (i, span) in spans.iter().enumerate() {
        let Some(part) = parts.get(i) else {
            return true;
        };
        if !has_room(part.reset(), *span) {
            return false;
        }
    }
    true
}

/// Whether all spans end within so many bits.
fn end_within(spans: &[Span], bits: u64) -> bool
    ensures { result ≡ list_all (λ (s : Span). nat_le s.end bits) spans.now }
{
    spans.iter().all(|span| span.end() <= bits)
}

/// Whether no field of a register with these values can have a fault, where the fields lie there, and those that share bits may.
pub fn are_fields_sound(values: &Values, spans: &[Span], parts: &[Part], may: bool) -> bool
    ensures { result ≡ are_fields_sound values.now spans.now (map reset_of parts.now) may }
{
    let bits = values.register_bits();
    values.access_bits() <= bits && end_within(spans, bits) && have_room(spans, parts) && may
}
