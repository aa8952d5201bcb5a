//! What is kept of a component that is written in a map.
use crate::contents::Contents;
use crate::field::FieldBody;
use crate::layouts::Layouts;
use crate::verdict::Verdict;
use rdl_seen::names::Class;
use rdl_seen::property_set::PropertySet;
use rdl_seen::seen::{Modes, Seen};
use rdl_seen::values::Values;
use std::alloc::AllocError;
use std::marker::Model;
use std::rc::Rc;

/// What is kept of a component but for its items. A contract sees the record of `rdl_seen`.
#[derive(Debug, Drop)]
pub struct Core {
    /// What is seen of it.
    pub seen: Seen,
    /// What its own assignments state.
    pub own: Values,
    /// Its values, by its own assignments and the defaults that reach it.
    pub values: Values,
    pub layouts: Rc<Layouts>,
    /// The modes in which its instances lie apart, and no stride is too small.
    pub apart: Modes,
    /// What its items weigh but for what is inside them, at most 2^31.
    pub own_weight: u32,
}

impl Model for Core {
    ghost use Rattle.rdl_seen.specs.Slots.{Core};
    ghost use Rattle.rdl_nodes.specs.Codes.{coded_core};

    ghost Value = { Core };

    ghost coded = { coded_core };

    ghost view = { λ c. record { seen = c.seen; own = c.own; values = c.values; layouts = c.layouts.value; apart = c.apart; own_weight = c.own_weight } };
}

/// What is kept of a component: no address, and no name but in classes. A contract sees the tree of `rdl_seen`.
#[cycle(nodes)]
#[derive(Debug, Drop)]
pub struct Node {
    core: Core,
    /// One for each item of its body.
    slots: Vec<Slot>,
    /// What is inside it.
    contents: Contents,
}

/// What is kept of an item.
#[cycle(nodes)]
#[derive(Debug, Drop)]
pub enum Slot {
    /// An own assignment.
    Own,
    /// A default of this property, or of none of the seven.
    Default(PropertySet),
    /// A dynamic assignment, and whether it can give a row a fault.
    Dynamic(Verdict),
    /// An instance of a field that is written there.
    Field(FieldBody),
    /// An instance of a type of this class of names, and what it sees of that, if there is one.
    Named(Class, Option<Rc<Seen>>),
    /// A definition of a name of this class, and what its instances see of it. They share that, so it stands beside the node, and what the
    /// node itself has of it isn't looked at.
    Define(Class, Rc<Seen>, Rc<Node>),
    /// An instance of another component that is written there.
    Part(Rc<Node>),
}

impl Model for Node {
    ghost use Rattle.rdl_seen.specs.Slots.{Node};
    ghost use Rattle.rdl_nodes.specs.Codes.{coded_node};

    ghost Value = { Node };

    ghost coded = { coded_node };

    ghost use Rattle.rdl_nodes.specs.View.{slots_of, slots_count};

    ghost view = { λ n. record { core = n.core; slots = slots_of n.slots.items } };

    ghost use Rattle.rdl_nodes.specs.Folded.{AreInside};

    ghost invariant = { λ n. AreInside n.contents (slots_of n.slots.items) };

    ghost size = { λ n. slots_count n.slots };

    ghost use Rattle.rdl_nodes.specs.Falls.{deep_le-count};

    ghost size_decreases = { λ n h. deep_le-count n.slots.items };
}

impl Node {
    ghost use Rattle.std.specs.Prelude.{◌≡◌};
    ghost use Rattle.rdl_nodes.specs.Folded.{AreInside};
    ghost use Rattle.rdl_nodes.specs.View.{slots_of};

    /// A component of which this is kept, with these items and with that inside it.
    pub fn new(core: Core, slots: Vec<Slot>, contents: Contents) -> Node
        requires { AreInside contents (slots_of slots.items) }
        ensures { result ≡ record { core = core; slots = slots_of slots.items } }
    {
        Node {
            core,
            slots,
            contents,
        }
    }

    /// All but its items.
    pub fn core(&self) -> &Core
        ensures { result.now ≡ self.now.core }
    {
        &self.core
    }

    /// One for each item of its body.
    pub fn slots(&self) -> &[Slot]
        ensures { slots_of result.now ≡ self.now.slots }
    {
        self.slots.as_slice()
    }

    /// What is inside it.
    pub fn contents(&self) -> Contents
        ensures { AreInside result self.now.slots }
    {
        self.contents
    }
}

/// What is kept of a component, as it is lent: what is seen of it, and all else in its node, where what the node itself has of that isn't
/// looked at.
#[derive(Clone, Copy)]
pub struct Kept<'t> {
    pub seen: &'t Seen,
    pub node: &'t Node,
}

impl Slot {
    ghost use Rattle.std.specs.Prelude.{◌≡◌, IfOk, option_map};
    ghost use Rattle.rdl_nodes.specs.KeptNode.{kept_of, slot_node};
    ghost use Rattle.rdl_nodes.specs.View.{add};
    ghost use Rattle.rdl_seen.specs.Slots.{Slots};

    /// What is kept of the item's own component, if that is kept by itself.
    pub fn kept(&self) -> Option<Kept>
        ensures { option_map kept_of result ≡ slot_node self.now }
    {
        match self {
            Slot::Define(_, seen, node) => Some(Kept {
                seen: seen.as_ref(),
                node: node.as_ref(),
            }),
            Slot::Part(node) => {
                let node = node.as_ref();
                let seen = &node.core().seen;
                Some(Kept { seen, node })
            }
            Slot::Own => None,
            Slot::Default(_) => None,
            Slot::Dynamic(_) => None,
            Slot::Field(_) => None,
            Slot::Named(_, _) => None,
        }
    }

    /// The same, for one more. What is inside is shared.
    #[inline(always)]
    pub fn try_copy(&self) -> Result<Slot, AllocError>
        ensures { IfOk result (λ slot. (rest : Slots) → add slot rest ≡ add self.now rest) }
    {
        match self {
            Slot::Own => Ok(Slot::Own),
            Slot::Default(property) => Ok(Slot::Default(*property)),
            Slot::Dynamic(verdict) => Ok(Slot::Dynamic(verdict.copy())),
            Slot::Field(field) => Ok(Slot::Field(*field)),
            Slot::Named(class, None) => Ok(Slot::Named(*class, None)),
            Slot::Named(class, Some(seen)) => {
                let seen = seen.clone()?;
                Ok(Slot::Named(*class, Some(seen)))
            }
            Slot::Define(class, seen, node) => {
                let seen = seen.clone()?;
                let node = node.clone()?;
                Ok(Slot::Define(*class, seen, node))
            }
            Slot::Part(node) => {
                let node = node.clone()?;
                Ok(Slot::Part(node))
            }
        }
    }
}
