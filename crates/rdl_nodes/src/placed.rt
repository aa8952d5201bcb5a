//! How many instances are placed where components are laid out, once for each mode. Each count stops at the greatest `u64`.
ghost use Rattle.std.specs.Prelude.{◌≡◌, ◌+◌};
ghost use Rattle.rdl_nodes.specs.Placed.{placed_once, all_placed, node_placed};
ghost use Rattle.rdl_nodes.specs.View.{add, slots_of};
ghost use Rattle.rdl_seen.specs.Slots.{no_slots};
ghost use Rattle.rdl_tree.specs.Weight.{capped};

use crate::layouts::Layouts;
use crate::node::{Node, Slot};
use rdl_seen::mode::Mode;

/// Those of a component with these layouts.
pub fn placed_once(layouts: &Layouts) -> u64
    ensures { result ≡ capped (placed_once layouts.now) }
{
    let compact = layouts.under(Mode::Compact).spans().len() as u64;
    let regalign = layouts.under(Mode::Regalign).spans().len() as u64;
    let fullalign = layouts.under(Mode::Fullalign).spans().len() as u64;
    compact.saturating_add(regalign).saturating_add(fullalign)
}

/// Those of a component and of all inside it.
#[cycle(placed)]
pub fn node_placed(node: &Node) -> u64
    ensures { result ≡ capped (node_placed node.now) }
{
    let own = placed_once(node.core().layouts.as_ref());
    own.saturating_add(all_placed(node.slots()))
}

/// Those of the component that the item with this slot holds, if it is kept by itself, and of all inside it.
#[cycle(placed)]
pub fn slot_placed(slot: &Slot) -> u64
    ensures { result ≡ capped (all_placed (add slot.now no_slots)) }
{
    match slot {
        Slot::Define(_, _, node) => node_placed(node.as_ref()),
        Slot::Part(node) => node_placed(node.as_ref()),
        Slot::Own | Slot::Default(_) | Slot::Dynamic(_) => 0,
        Slot::Field(_) | Slot::Named(_, _) => 0,
    }
}

/// Those of all components that are kept with these slots.
#[cycle(placed)]
pub fn all_placed(slots: &[Slot]) -> u64
    ensures { result ≡ capped (all_placed (slots_of slots.now)) }
{
    let mut placed = 0u64;
    for slot in slots {
        placed = placed.saturating_add(slot_placed(slot));
    }
    placed
}
