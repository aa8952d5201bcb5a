//! What is kept of a map.
ghost use Rattle.std.specs.Prelude.{◌≡◌, IfOk, option_map};
ghost use Rattle.rdl_nodes.specs.KeptNode.{kept_of};
ghost use Rattle.rdl_nodes.specs.View.{slots_of};
ghost use Rattle.rdl_seen.specs.Meaning.{kept_at, node_at};

use crate::around::Around;
use crate::lays::Lays;
use crate::leads::leads_inside;
use crate::node::{Kept, Slot};
use crate::placed::all_placed;
use crate::walk::walk;
use rdl_tree::address::Address;
use rdl_tree::description::Description;
use std::alloc::{AllocError, Global};
use std::marker::Model;

/// What is kept of a map: of each component that is written in it, a node. A contract sees the slots of the root's items.
#[derive(Debug, Drop)]
pub struct Tree {
    slots: Vec<Slot>,
}

impl Model for Tree {
    ghost use Rattle.rdl_seen.specs.Slots.{Slots};
    ghost use Rattle.rdl_nodes.specs.Codes.{coded_slots};

    ghost Value = { Slots };

    ghost coded = { coded_slots };

    ghost use Rattle.rdl_nodes.specs.View.{slots_of};

    ghost view = { λ t. slots_of t.slots.items };
}

/// The same slots. What is kept of each component is shared.
fn copied(alloc: Global, kept: &[Slot]) -> Result<Vec<Slot>, AllocError>
    ensures { IfOk result (λ slots. slots_of slots.items ≡ slots_of kept.now) }
{
    let mut slots = Vec::with_capacity(alloc, kept.len())?;
    for slot in kept {
        slots.push(slot.try_copy()?)?;
    }
    Ok(slots)
}

/// What is kept of the item of this number.
fn kept_at(slots: &[Slot], number: usize) -> Option<Kept>
    ensures { option_map kept_of result ≡ kept_at number (slots_of slots.now) }
{
    match slots.get(number) {
        Some(slot) => slot.kept(),
        None => None,
    }
}

/// What is kept at the end of this path.
fn node_at<'t>(slots: &'t [Slot], path: &[usize]) -> Option<Kept<'t>>
    ensures { option_map kept_of result ≡ node_at path.now (slots_of slots.now) }
{
    match path {
        [] => None,
        [number] => kept_at(slots, *number),
        [number, rest @ ..] => match kept_at(slots, *number) {
            Some(kept) => node_at(kept.node.slots(), rest),
            None => None,
        },
    }
}

impl Tree {
    ghost use Rattle.std.specs.Prelude.{◌≡◌, IfOk, option_map};
    ghost use Rattle.rdl_nodes.specs.HoldsNodes.{HoldsNodes};
    ghost use Rattle.rdl_nodes.specs.KeptNode.{kept_of};
    ghost use Rattle.rdl_nodes.specs.Placed.{all_placed};
    ghost use Rattle.rdl_nodes.specs.View.{slots_of};
    ghost use Rattle.rdl_seen.specs.Meaning.{nothing_around, node_at};
    ghost use Rattle.rdl_seen.specs.Node.{body_of};
    ghost use Rattle.rdl_tree.specs.Weight.{capped};

    /// That of a description, whose instances are laid out so. What it has at the address of a component is that component's node.
    pub fn of<L: Lays>(
        alloc: Global,
        lay: &L,
        description: &Description,
    ) -> Result<Tree, AllocError>
        ensures slots { IfOk result (λ tree. tree ≡ (body_of L.laying nothing_around description.now.items).slots) }
        ensures nodes { IfOk result (λ tree. HoldsNodes L.laying description.now.items tree) }
    {
        let mut around = Around::nothing(alloc);
        around.leads_inside = leads_inside(&description.items);
        let walked = walk(alloc, lay, &mut around, &description.items)?;
        Ok(Tree {
            slots: walked.slots,
        })
    }

    /// That of a description whose items have these slots.
    pub fn of_slots(slots: Vec<Slot>) -> Tree
        ensures { result ≡ slots_of slots.items }
    {
        Tree { slots }
    }

    /// The same, for one more. What is kept of each component is shared.
    pub fn try_copy(&self, alloc: Global) -> Result<Tree, AllocError>
        ensures { IfOk result (λ tree. tree ≡ self.now) }
    {
        let slots = copied(alloc, self.slots.as_slice())?;
        Ok(Tree { slots })
    }

    /// What is kept of the root's items.
    pub fn slots(&self) -> &[Slot]
        ensures { slots_of result.now ≡ self.now }
    {
        self.slots.as_slice()
    }

    /// How many instances are placed where all components are laid out, once for each mode. The count stops at the greatest `u64`.
    pub fn placed(&self) -> u64
        ensures { result ≡ capped (all_placed self.now) }
    {
        all_placed(self.slots.as_slice())
    }

    /// What is kept of the component that the item at this address holds, if that is kept by itself.
    pub fn node(&self, address: &Address) -> Option<Kept>
        ensures { option_map kept_of result ≡ node_at address.now self.now }
    {
        node_at(self.slots.as_slice(), address.as_slice())
    }
}
