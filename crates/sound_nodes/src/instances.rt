//! The instances of a body, with what is seen of their components.
ghost use Rattle.std.specs.Prelude.{◌≡◌, ◌++◌, IfOk, OnOk, option_copied, slice_get};
ghost use Rattle.rdl_nodes.specs.Parts.{of_item};
ghost use Rattle.rdl_nodes.specs.View.{slots_of};
ghost use Rattle.sound_nodes.specs.Instances.{seen_in, instances_from, item_instances};

use rdl_nodes::node::Slot;
use rdl_seen::seen::Seen;
use rdl_tree::description::{Body, Item};
use rdl_tree::shell::Shell;
use std::alloc::{AllocError, Global};
use std::marker::Model;

/// An instance of a body, with what is seen of its component, if that is no field that is written there. A contract sees the record of
/// specs/.
#[derive(Drop)]
pub(crate) struct SeenInstance<'t> {
    number: usize,
    shell: &'t Shell,
    seen: Option<&'t Seen>,
}

impl<'t> Model for SeenInstance<'t> {
    ghost use Rattle.std.specs.Prelude.{option_copied};
    ghost use Rattle.sound_nodes.specs.Instances.{SeenInstance};

    ghost Value = { SeenInstance };

    ghost view = { λ i. record { number = i.number; shell = i.shell.now; seen = option_copied i.seen } };
}

impl<'t> SeenInstance<'t> {
    ghost use Rattle.std.specs.Prelude.{◌≡◌, option_copied};

    /// The number of its item.
    pub(crate) fn number(&self) -> usize
        ensures { result ≡ self.now.number }
    {
        self.number
    }

    /// The instance's name and the parts around it.
    pub(crate) fn shell(&self) -> &'t Shell
        ensures { result.now ≡ self.now.shell }
    {
        self.shell
    }

    /// What is seen of its component.
    pub(crate) fn seen(&self) -> Option<&'t Seen>
        ensures { option_copied result ≡ self.now.seen }
    {
        self.seen
    }
}

/// What is seen of the component of an item with this slot.
fn seen_of<'t>(slot: Option<&'t Slot>) -> Option<&'t Seen>
    ensures { option_copied result ≡ seen_in (of_item (option_copied slot.entry)) }
{
    match slot {
        Some(Slot::Named(_, Some(seen))) => Some(seen.as_ref()),
        Some(Slot::Define(_, seen, _)) => Some(seen.as_ref()),
        Some(Slot::Part(node)) => Some(&node.as_ref().core().seen),
        Some(Slot::Named(_, None)) => None,
        Some(Slot::Field(_)) => None,
        Some(Slot::Own) => None,
        Some(Slot::Default(_)) => None,
        Some(Slot::Dynamic(_)) => None,
        None => None,
    }
}

fn slot_at(slots: &[Slot], number: usize) -> Option<&Slot>
    ensures { option_copied result ≡ slice_get slots.now number }
{
    slots.get(number)
}

/// Puts the item of this number behind the others, if it is an instance.
fn put_instance<'t>(
    instances: &mut Vec<SeenInstance<'t>>,
    number: usize,
    item: &'t Item,
    slot: Option<&'t Slot>,
) -> Result<(), AllocError>
    ensures { OnOk result (instances.new.items ≡ instances.old.items ++ item_instances number item.now (of_item (option_copied slot.entry))) }
{
    match item {
        Item::Instance(shell, _) => {
            let seen = seen_of(slot);
            instances.push(SeenInstance {
                number,
                shell,
                seen,
            })?;
            Ok(())
        }
        _ => Ok(()),
    }
}

/// The instances of a body with these slots.
pub(crate) fn instances<'t>(
    alloc: Global,
    body: &'t Body,
    slots: &'t [Slot],
) -> Result<Vec<SeenInstance<'t>>, AllocError>
    ensures { IfOk result (λ instances. instances.items ≡ instances_from 0 body.now (slots_of slots.now)) }
{
    let mut instances = Vec::with_capacity(alloc, slots.len())?;
    for (i, item) in body.as_slice().iter().enumerate() {
        put_instance(&mut instances, i, item, slot_at(slots, i))?;
    }
    Ok(instances)
}

/// The instance of this number.
pub(crate) fn instance_at<'i, 't>(
    instances: &'i [SeenInstance<'t>],
    number: usize,
) -> Option<&'i SeenInstance<'t>>
    ensures { option_copied result ≡ slice_get instances.now number }
{
    instances.get(number)
}
