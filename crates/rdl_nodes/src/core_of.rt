//! What is kept of a component but for its items, by these and by its layouts.
ghost use Rattle.std.specs.Prelude.{◌≡◌, ◌+◌, ◌^◌, ◌-◌, ◌||◌, ◌&&◌, map, min, not, length};
ghost use Rattle.rdl_nodes.specs.CoreWith.{seen_with, core_made};
ghost use Rattle.rdl_nodes.specs.Folded.{AreInside};
ghost use Rattle.rdl_nodes.specs.Part.{reset_of, access_of};
ghost use Rattle.rdl_nodes.specs.Parts.{parts_of};
ghost use Rattle.rdl_nodes.specs.View.{add, slots_of};
ghost use Rattle.rdl_seen.specs.Contents.{are_harmless, is_assigned};
ghost use Rattle.rdl_seen.specs.Fields.{are_fields_sound, clash_none};
ghost use Rattle.rdl_seen.specs.Layouts.{Laying};
ghost use Rattle.rdl_seen.specs.Node.{is_ordered, sound_inside, sound_of, without_access, is_container, layouts_of, core_of};
ghost use Rattle.rdl_seen.specs.PropertySet.{kind_set, with_properties, without_properties};
ghost use Rattle.rdl_seen.specs.Slots.{Slots};
ghost use Rattle.rdl_seen.specs.Values.{stated};

use crate::apart::{apart_of, are_apart, clash_none, mode_inside};
use crate::contents::Contents;
use crate::field::Own;
use crate::fields::{are_fields_sound, field_takes};
use crate::layouts::{Layouts, Span};
use crate::node::{Core, Slot};
use crate::parts::Part;
use rdl_seen::mode::Mode;
use rdl_seen::property_set::PropertySet;
use rdl_seen::seen::{Modes, Seen};
use rdl_seen::values::Values;
use rdl_tree::description::Body;
use rdl_tree::property::Property;
use rdl_tree::shell::Kind;
use std::rc::Rc;

/// A component that is laid out.
#[derive(Clone, Copy)]
struct Laid<'c, 'a> {
    kind: Kind,
    values: &'c Values,
    /// Where its instances lie under the compact mode.
    spans: &'c [Span],
    /// Whether no two of its fields share a bit.
    is_ordered: bool,
    parts: &'c [Part<'a>],
    slots: &'c [Slot],
    /// Whether a dynamic assignment stands among its items or inside.
    is_assigned: bool,
}

/// Whether no two fields of a register share a bit.
fn is_ordered(kind: Kind, layouts: &Layouts) -> bool
    ensures { result ≡ is_ordered kind layouts.now }
{
    match kind {
        Kind::Reg => are_apart(layouts.under(Mode::Compact).spans()),
        Kind::Addrmap | Kind::Regfile | Kind::Field => false,
    }
}

/// Whether the item can give no row a fault, if it is a dynamic assignment.
fn is_harmless(slot: &Slot, spans: &[Span], is_ordered: bool) -> bool
    ensures { (rest : Slots) → are_harmless (record { spans = spans.now; is_ordered = is_ordered }) (add slot.now rest) ≡ (result && are_harmless (record { spans = spans.now; is_ordered = is_ordered }) rest) }
{
    match slot {
        Slot::Dynamic(verdict) => verdict.is_harmless(spans, is_ordered),
        Slot::Own => true,
        Slot::Default(_) => true,
        Slot::Field(_) => true,
        Slot::Named(_, _) => true,
        Slot::Define(_, _, _) => true,
        Slot::Part(_) => true,
    }
}

/// Whether no dynamic assignment among the items can give a row a fault.
fn are_harmless(slots: &[Slot], spans: &[Span], is_ordered: bool) -> bool
    ensures { result ≡ are_harmless (record { spans = spans.now; is_ordered = is_ordered }) (slots_of slots.now) }
{
    for slot in slots {
        if !is_harmless(slot, spans, is_ordered) {
            return false;
        }
    }
    true
}

/// Whether no dynamic assignment among the items of a component can give a row a fault.
fn is_harmless_inside(laid: &Laid) -> bool
    requires { laid.now.is_assigned ≡ is_assigned (slots_of laid.now.slots.now) }
    ensures { result ≡ are_harmless (record { spans = laid.now.spans.now; is_ordered = laid.now.is_ordered }) (slots_of laid.now.slots.now) }
{
    if laid.is_assigned {
        are_harmless(laid.slots, laid.spans, laid.is_ordered)
    } else {
        true
    }
}

/// Whether no row of a register can have a fault, if nothing reaches it from outside.
fn is_register_sound(laid: &Laid) -> bool
    requires { laid.now.is_assigned ≡ is_assigned (slots_of laid.now.slots.now) }
    ensures { result ≡ (are_fields_sound laid.now.values.now laid.now.spans.now (map reset_of laid.now.parts.now) (laid.now.is_ordered || clash_none laid.now.spans.now (map access_of laid.now.parts.now)) && are_harmless (record { spans = laid.now.spans.now; is_ordered = laid.now.is_ordered }) (slots_of laid.now.slots.now)) }
{
    let may_share = laid.is_ordered || clash_none(laid.spans, laid.parts);
    are_fields_sound(laid.values, laid.spans, laid.parts, may_share) && is_harmless_inside(laid)
}

/// The modes in which the instances are sound, if these are the modes in which all are.
fn sound_inside(kind: Kind, values: &Values, inside: Modes) -> Modes
    ensures { result ≡ sound_inside kind values.now inside }
{
    match kind {
        Kind::Addrmap => Modes::all(inside.has(mode_inside(values))),
        Kind::Regfile | Kind::Reg | Kind::Field => inside,
    }
}

/// The modes in which no row below the component can have a fault, if these are the modes in which all instances are sound, and those
/// in which they lie apart.
fn sound_of(laid: &Laid, inside: Modes, apart: Modes) -> Modes
    requires { laid.now.is_assigned ≡ is_assigned (slots_of laid.now.slots.now) }
    ensures { result ≡ sound_of laid.now.kind (sound_inside laid.now.kind laid.now.values.now inside) apart (are_fields_sound laid.now.values.now laid.now.spans.now (map reset_of laid.now.parts.now) (laid.now.is_ordered || clash_none laid.now.spans.now (map access_of laid.now.parts.now))) (are_harmless (record { spans = laid.now.spans.now; is_ordered = laid.now.is_ordered }) (slots_of laid.now.slots.now)) }
{
    match laid.kind {
        Kind::Field => Modes::all(true),
        Kind::Reg => Modes::all(is_register_sound(laid)),
        Kind::Addrmap | Kind::Regfile => {
            let harmless = is_harmless_inside(laid);
            let inside = sound_inside(laid.kind, laid.values, inside);
            inside.and(apart.and(Modes::all(harmless)))
        }
    }
}

/// Where fields share no bits, it doesn't matter how software accesses them.
fn without_access(is_ordered: bool, fields: PropertySet) -> PropertySet
    ensures { result ≡ without_access is_ordered fields }
{
    if is_ordered {
        fields.without(PropertySet::of(Property::Sw))
    } else {
        fields
    }
}

/// The properties whose defaults reach the component from outside and matter: of its kind and not its own, of its fields, and of what
/// is inside.
fn takes_of(kind: Kind, own: &Values, fields: PropertySet, inside: PropertySet) -> PropertySet
    ensures { result ≡ with_properties (without_properties (kind_set kind) (stated own.now)) (with_properties fields inside) }
{
    PropertySet::of_kind(kind)
        .without(own.stated())
        .with(fields.with(inside))
}

/// Whether it may have instances that have addresses.
pub(crate) fn is_container(kind: Kind) -> bool
    ensures { result ≡ is_container kind }
{
    match kind {
        Kind::Addrmap | Kind::Regfile => true,
        Kind::Reg | Kind::Field => false,
    }
}

/// What is seen of a component with these layouts, whose items are so many and weigh so much.
fn seen_of(
    laid: &Laid,
    layouts: &Layouts,
    contents: &Contents,
    takes: PropertySet,
    sound: Modes,
    items: usize,
    weight: u32,
) -> Seen
    ensures { (s : Slots) → AreInside contents.now s → result ≡ seen_with laid.now.kind laid.now.values.now layouts.now s takes sound laid.now.is_ordered items weight }
{
    let items = (items as u64).min(1 << 30);
    let count = contents.count.saturating_add(items);
    let weight = contents.weight.saturating_add(u64::from(weight));
    Seen {
        kind: laid.kind,
        levels: contents.levels.min(16) as u8,
        depth: contents.depth.min(255) as u8,
        access: laid.values.access(),
        reset: laid.values.reset,
        takes,
        sound,
        is_empty: is_container(laid.kind) && !contents.has_instances,
        has_empty: contents.has_empty,
        is_ordered: laid.is_ordered,
        is_assigned: contents.is_assigned,
        rows: contents.rows.min(65_536) as u32,
        count: count.min(4_294_967_295) as u32,
        weight: weight.min(4_294_967_295) as u32,
        widest: layouts.accesses(),
        size: layouts.sizes(),
        asks: contents.asks,
    }
}

/// What is kept of a component that states this itself, with these values and these layouts, and with that inside it. Its instances are these
/// parts, and lie apart in these modes.
fn made(
    kind: Kind,
    own: Own,
    values: Values,
    apart: Modes,
    body: &Body,
    slots: &[Slot],
    contents: &Contents,
    parts: &[Part],
    layouts: Rc<Layouts>,
) -> Core
    requires { AreInside contents.now (slots_of slots.now) }
    ensures { result ≡ core_made kind own.values own.weight values layouts.value apart body.now (slots_of slots.now) (are_fields_sound values layouts.value.compact.spans (map reset_of parts.now) (is_ordered kind layouts.value || clash_none layouts.value.compact.spans (map access_of parts.now))) }
{
    let kept = layouts.as_ref();
    let is_ordered = is_ordered(kind, kept);
    let laid = Laid {
        kind,
        values: &values,
        spans: kept.under(Mode::Compact).spans(),
        is_ordered,
        parts,
        slots,
        is_assigned: contents.is_assigned,
    };
    let sound = sound_of(&laid, contents.sound, apart);
    let fields = without_access(is_ordered, field_takes(body, slots));
    let takes = takes_of(kind, &own.values, fields, contents.takes);
    let seen = seen_of(&laid, kept, contents, takes, sound, body.len(), own.weight);
    Core {
        seen,
        own: own.values,
        values,
        layouts,
        apart,
        own_weight: own.weight,
    }
}

impl Core {
    ghost use Rattle.std.specs.Prelude.{◌≡◌, true};
    ghost use Rattle.rdl_nodes.specs.CoreWith.{core_with};
    ghost use Rattle.rdl_nodes.specs.Folded.{AreInside};
    ghost use Rattle.rdl_nodes.specs.Parts.{parts_of};
    ghost use Rattle.rdl_nodes.specs.View.{slots_of};
    ghost use Rattle.rdl_seen.specs.Contents.{own_weight};
    ghost use Rattle.rdl_seen.specs.Fields.{members};
    ghost use Rattle.rdl_seen.specs.Layouts.{Laying};
    ghost use Rattle.rdl_seen.specs.Node.{is_container, values_of, apart_of, layouts_of, core_of};
    ghost use Rattle.rdl_seen.specs.Values.{own_values};

    /// That of a component of this kind with this body, which states this itself and has these values under the defaults that reach it. Its
    /// items have these slots and this is inside it, its instances are these parts, and these are its layouts, however components are laid
    /// out.
    pub(crate) fn of(
        kind: Kind,
        own: Own,
        values: Values,
        body: &Body,
        slots: &[Slot],
        contents: &Contents,
        parts: &[Part],
        layouts: Rc<Layouts>,
    ) -> Core
        requires { AreInside contents.now (slots_of slots.now) }
        ensures with_layouts { (defaults : Values) → own.values ≡ own_values body.now → own.weight ≡ own_weight body.now → values ≡ values_of kind defaults body.now → parts.now ≡ parts_of defaults body.now (slots_of slots.now) → result ≡ core_with kind defaults body.now (slots_of slots.now) layouts.value }
        ensures values { result.values ≡ values }
        ensures layouts { result.layouts ≡ layouts.value }
    {
        let apart = apart_of(kind, &values, layouts.as_ref(), parts);
        made(
            kind, own, values, apart, body, slots, contents, parts, layouts,
        )
    }

    /// That of a container whose items have these slots, with that inside it, which states this itself, with these values and these layouts, and
    /// whose instances lie apart in these modes. Of its instances no more is asked, as it has no fields of its own.
    pub(crate) fn of_container(
        kind: Kind,
        own: Own,
        values: Values,
        apart: Modes,
        body: &Body,
        slots: &[Slot],
        contents: &Contents,
        layouts: Rc<Layouts>,
    ) -> Core
        requires { AreInside contents.now (slots_of slots.now) }
        ensures however_laid { (lay : Laying) (defaults : Values) → is_container kind ≡ true → own.values ≡ own_values body.now → own.weight ≡ own_weight body.now → values ≡ values_of kind defaults body.now → layouts.value ≡ layouts_of lay kind defaults body.now (slots_of slots.now) → apart ≡ apart_of kind (values_of kind defaults body.now) (layouts_of lay kind defaults body.now (slots_of slots.now)) (members defaults body.now (slots_of slots.now)) → result ≡ core_of lay kind defaults body.now (slots_of slots.now) }
        ensures values { result.values ≡ values }
    {
        let none: &[Part] = &[];
        made(
            kind, own, values, apart, body, slots, contents, none, layouts,
        )
    }
}
