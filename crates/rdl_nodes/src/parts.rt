//! The instances of a body.
ghost use Rattle.std.specs.Prelude.{◌≡◌, ◌++◌, ◌∷◌, [], IfOk, OnOk, option_copied, option_map};
ghost use Rattle.rdl_nodes.specs.Bodies.{after_default_item};
ghost use Rattle.rdl_nodes.specs.Part.{part_of};
ghost use Rattle.rdl_nodes.specs.Parts.{of_item, parts_of, item_parts};
ghost use Rattle.rdl_nodes.specs.View.{slots_of};
ghost use Rattle.rdl_seen.specs.Fields.{says_bits, room_of};
ghost use Rattle.rdl_seen.specs.Values.{bit_count};

use crate::field::FieldBody;
use crate::node::Slot;
use rdl_seen::seen::{ByMode, Seen};
use rdl_seen::values::{Access, Values, bit_count};
use rdl_tree::description::{Body, Item};
use rdl_tree::shell::Shell;
use std::alloc::{AllocError, Global};
use std::marker::Model;

/// An instance, with all of its component that its layouts need and that judges its fields. A contract sees the record of specs/.
#[derive(Drop)]
pub struct Part<'a> {
    shell: &'a Shell,
    size: ByMode,
    widest: ByMode,
    reset: Option<u8>,
    access: Access,
}

impl<'a> Model for Part<'a> {
    ghost use Rattle.rdl_nodes.specs.Part.{Part};

    ghost Value = { Part };

    ghost view = { λ p. record { member = record { shell = p.shell.now; size = p.size; access = p.widest }; reset = p.reset; access = p.access } };
}

/// Whether the instance says how many bits its field has, or which.
pub fn says_bits(shell: &Shell) -> bool
    ensures { result ≡ says_bits shell.now }
{
    shell.range().is_some() || !shell.dims().is_empty()
}

/// The width of a field in bits, under these defaults, if its instance doesn't say it.
fn room_of(defaults: &Values, shell: &Shell, field: FieldBody) -> u64
    ensures { result ≡ room_of defaults.now shell.now field }
{
    if says_bits(shell) {
        return 0;
    }
    u64::from(field.width().or(defaults.fieldwidth).unwrap_or(1))
}

/// How many bits the reset needs that the instance states.
fn own_reset(shell: &Shell) -> Option<u8>
    ensures { result ≡ option_map bit_count shell.now.reset }
{
    match shell.reset() {
        Some(number) => Some(bit_count(number)),
        None => None,
    }
}

impl<'a> Part<'a> {
    ghost use Rattle.std.specs.Prelude.{◌≡◌, option_copied};
    ghost use Rattle.rdl_nodes.specs.Part.{part_of};
    ghost use Rattle.rdl_nodes.specs.Parts.{of_item};
    ghost use Rattle.rdl_seen.specs.Fields.{of_field, of_seen, of_none};

    /// An instance of a field that is written there, under these defaults.
    fn of_field(defaults: &Values, shell: &'a Shell, field: FieldBody) -> Part<'a>
        ensures { result ≡ part_of defaults.now shell.now (of_field field) }
    {
        Part {
            shell,
            size: ByMode::same(room_of(defaults, shell, field)),
            widest: ByMode::same(0),
            reset: own_reset(shell).or(field.reset().or(defaults.reset)),
            access: field.access().or(defaults.sw).unwrap_or(Access::Other),
        }
    }

    /// An instance of a component of which this is seen.
    fn of_seen(defaults: &Values, shell: &'a Shell, seen: &Seen) -> Part<'a>
        ensures { result ≡ part_of defaults.now shell.now (of_seen seen.now) }
    {
        Part {
            shell,
            size: seen.size,
            widest: seen.widest,
            reset: own_reset(shell).or(seen.reset),
            access: seen.access,
        }
    }

    /// An instance of a component of which nothing is known.
    fn of_nothing(defaults: &Values, shell: &'a Shell) -> Part<'a>
        ensures { result ≡ part_of defaults.now shell.now of_none }
    {
        Part {
            shell,
            size: ByMode::same(0),
            widest: ByMode::same(0),
            reset: own_reset(shell),
            access: Access::Other,
        }
    }

    /// The instance's name and the parts around it.
    pub fn shell(&self) -> &'a Shell
        ensures { result.now ≡ self.now.member.shell }
    {
        self.shell
    }

    /// The size of its component, of a field the width in bits, where its instance doesn't say it.
    pub fn size(&self) -> ByMode
        ensures { result ≡ self.now.member.size }
    {
        self.size
    }

    /// The widest access inside.
    pub fn widest(&self) -> ByMode
        ensures { result ≡ self.now.member.access }
    {
        self.widest
    }

    /// Of a field: how many bits its reset needs.
    pub fn reset(&self) -> Option<u8>
        ensures { result ≡ self.now.reset }
    {
        self.reset
    }

    /// How software accesses it, if it is a field.
    pub fn access(&self) -> Access
        ensures { result ≡ self.now.access }
    {
        self.access
    }
}

/// Puts an instance behind the others, whose item has this slot. Each is made where it comes to stand.
fn put_instance<'a>(
    parts: &mut Vec<Part<'a>>,
    defaults: &Values,
    shell: &'a Shell,
    slot: Option<&Slot>,
) -> Result<(), AllocError>
    ensures { OnOk result (parts.new.items ≡ parts.old.items ++ part_of defaults.now shell.now (of_item (option_copied slot.entry)) ∷ []) }
{
    match slot {
        Some(Slot::Field(field)) => parts.push(Part::of_field(defaults, shell, *field))?,
        Some(Slot::Named(_, Some(seen))) => {
            parts.push(Part::of_seen(defaults, shell, seen.as_ref()))?
        }
        Some(Slot::Define(_, seen, _)) => {
            parts.push(Part::of_seen(defaults, shell, seen.as_ref()))?
        }
        Some(Slot::Part(node)) => {
            parts.push(Part::of_seen(defaults, shell, &node.as_ref().core().seen))?
        }
        Some(Slot::Named(_, None)) => parts.push(Part::of_nothing(defaults, shell))?,
        Some(Slot::Own) => parts.push(Part::of_nothing(defaults, shell))?,
        Some(Slot::Default(_)) => parts.push(Part::of_nothing(defaults, shell))?,
        Some(Slot::Dynamic(_)) => parts.push(Part::of_nothing(defaults, shell))?,
        None => parts.push(Part::of_nothing(defaults, shell))?,
    }
    Ok(())
}

/// Puts the item behind the others, if it is an instance. A default is one of those that reach the items behind it.
fn put_item<'a>(
    parts: &mut Vec<Part<'a>>,
    defaults: &mut Values,
    item: &'a Item,
    slot: Option<&Slot>,
) -> Result<(), AllocError>
    ensures parts { OnOk result (parts.new.items ≡ parts.old.items ++ item_parts defaults.old item.now (of_item (option_copied slot.entry))) }
    ensures defaults { OnOk result (defaults.new ≡ after_default_item item.now defaults.old) }
{
    match item {
        Item::Instance(shell, _) => put_instance(parts, defaults, shell, slot),
        Item::Default(name, value) => {
            defaults.put_named(name, value);
            Ok(())
        }
        Item::Define(_, _) | Item::Own(_, _) | Item::Dynamic(_, _, _) => Ok(()),
    }
}

/// The instances of a body with these slots, under the defaults that reach it.
pub fn parts<'a>(
    alloc: Global,
    defaults: &Values,
    body: &'a Body,
    slots: &[Slot],
) -> Result<Vec<Part<'a>>, AllocError>
    ensures { IfOk result (λ parts. parts.items ≡ parts_of defaults.now body.now (slots_of slots.now)) }
{
    let mut parts = Vec::with_capacity(alloc, slots.len())?;
    let mut defaults = *defaults;
    for (i, item) in body.as_slice().iter().enumerate() {
        put_item(&mut parts, &mut defaults, item, slots.get(i))?;
    }
    Ok(parts)
}
