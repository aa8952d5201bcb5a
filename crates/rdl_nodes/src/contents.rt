//! What is inside a component, all its items taken together.
ghost use Rattle.std.specs.Prelude.{◌≡◌, true};
ghost use Rattle.rdl_nodes.specs.Folded.{AreInside, with_field, with_written, with_instance};
ghost use Rattle.rdl_nodes.specs.SameInside.{AreSums, sums_with_field, sums_with_written, sums_with_instance, AddSeen, AddsSame, HaveSame};
ghost use Rattle.rdl_nodes.specs.View.{add, slots_of};
ghost use Rattle.rdl_seen.specs.Modes.{and_modes};
ghost use Rattle.rdl_seen.specs.Slots.{Slots, no_slots};

use crate::field::FieldBody;
use crate::node::Slot;
use rdl_seen::names::NameSet;
use rdl_seen::property_set::PropertySet;
use rdl_seen::seen::{Modes, Seen};

/// What is inside a component, all its items taken together. Each number stops at its greatest value.
#[derive(Clone, Copy, Debug, PartialEq, Eq)]
pub struct Contents {
    /// The names of the longest path.
    pub levels: u64,
    /// How deep bodies nest.
    pub depth: u64,
    pub rows: u64,
    pub has_instances: bool,
    /// The items inside the items.
    pub count: u64,
    /// A number that the weight of these isn't above.
    pub weight: u64,
    /// Whether a register file or an address map without instances is inside.
    pub has_empty: bool,
    /// The modes in which all instances are sound.
    pub sound: Modes,
    /// The properties whose defaults reach the components from outside and matter to them.
    pub takes: PropertySet,
    /// The classes of the types to which instances refer.
    pub asks: NameSet,
    /// Whether a dynamic assignment stands among them or inside.
    pub is_assigned: bool,
}

/// The modes that are in both, told without a branch.
fn sound_in_both(one: Modes, other: Modes) -> Modes
    ensures { result ≡ and_modes one other }
{
    Modes {
        compact: one.compact & other.compact,
        regalign: one.regalign & other.regalign,
        fullalign: one.fullalign & other.fullalign,
    }
}

/// Of what is inside a component that which differs most often, all its items taken together. Each number stops at its greatest value.
#[derive(Clone, Copy)]
pub(crate) struct Sums {
    pub rows: u64,
    pub count: u64,
    pub weight: u64,
    pub takes: PropertySet,
}

impl Sums {
    /// Nothing.
    fn nothing() -> Sums
        ensures { AreSums result no_slots }
    {
        Sums {
            rows: 0,
            count: 0,
            weight: 0,
            takes: PropertySet::none(),
        }
    }

    /// One more instance of a field that is written there.
    fn put_field(&mut self, field: FieldBody)
        ensures { self.new ≡ sums_with_field field self.old }
    {
        self.rows = self.rows.saturating_add(1);
        self.count = self.count.saturating_add(u64::from(field.count()));
        self.weight = self.weight.saturating_add(u64::from(field.weight()));
    }

    /// One more component that is written in the body.
    fn put_written(&mut self, seen: &Seen)
        ensures { self.new ≡ sums_with_written seen.now self.old }
    {
        self.count = self.count.saturating_add(u64::from(seen.count));
        self.weight = self.weight.saturating_add(u64::from(seen.weight));
        self.takes = seen.takes.with(self.takes);
    }

    /// One more instance of a component of which this is seen.
    fn put_instance(&mut self, seen: &Seen)
        ensures { self.new ≡ sums_with_instance seen.now self.old }
    {
        self.rows = self.rows.saturating_add(u64::from(seen.rows) + 1);
    }

    /// One more item before the others.
    fn put(&mut self, slot: &Slot)
        ensures { (rest : Slots) → AreSums self.old rest → AreSums self.new (add slot.now rest) }
    {
        match slot {
            Slot::Own => {}
            Slot::Default(property) => self.takes = self.takes.without(*property),
            Slot::Dynamic(_) => {}
            Slot::Field(field) => self.put_field(*field),
            Slot::Named(_, None) => {}
            Slot::Named(_, Some(seen)) => self.put_instance(seen.as_ref()),
            Slot::Define(_, seen, _) => self.put_written(seen.as_ref()),
            Slot::Part(node) => {
                let seen = &node.as_ref().core().seen;
                self.put_instance(seen);
                self.put_written(seen);
            }
        }
    }

    /// That of these items.
    fn of(slots: &[Slot]) -> Sums
        ensures { AreSums result (slots_of slots.now) }
    {
        let mut sums = Sums::nothing();
        for i in (0..slots.len()).rev() {
            sums.put(&slots[i]);
        }
        sums
    }
}

/// Whether both components, of which this is seen, add the same to what is inside a body, but for sums.
fn add_same(before: &Seen, now: &Seen) -> bool
    ensures { result ≡ true → AddSeen before.now now.now }
{
    before.levels == now.levels
        && before.depth == now.depth
        && before.is_empty == now.is_empty
        && before.has_empty == now.has_empty
        && before.is_assigned == now.is_assigned
        && before.sound == now.sound
        && before.asks == now.asks
}

/// Whether it is seen that both items add the same to what is inside a body, but for sums: the rows, the items and what these weigh, and the
/// properties whose defaults matter.
pub fn adds_same(before: &Slot, now: &Slot) -> bool
    ensures { result ≡ true → AddsSame (add before.now no_slots) (add now.now no_slots) }
{
    match before {
        Slot::Part(before) => match now {
            Slot::Part(now) => add_same(&before.as_ref().core().seen, &now.as_ref().core().seen),
            _ => false,
        },
        Slot::Define(_, before, _) => match now {
            Slot::Define(_, now, _) => add_same(before.as_ref(), now.as_ref()),
            _ => false,
        },
        Slot::Named(class, Some(before)) => match now {
            Slot::Named(other, Some(now)) => class == other
                && add_same(before.as_ref(), now.as_ref()),
            _ => false,
        },
        Slot::Field(_) => match now {
            Slot::Field(_) => true,
            _ => false,
        },
        Slot::Dynamic(_) => match now {
            Slot::Dynamic(_) => true,
            _ => false,
        },
        Slot::Default(_) => match now {
            Slot::Default(_) => true,
            _ => false,
        },
        Slot::Own => match now {
            Slot::Own => true,
            _ => false,
        },
        Slot::Named(_, None) => false,
    }
}

impl Contents {
    /// Nothing.
    fn nothing() -> Contents
        ensures { AreInside result no_slots }
    {
        Contents {
            levels: 0,
            depth: 0,
            rows: 0,
            has_instances: false,
            count: 0,
            weight: 0,
            has_empty: false,
            sound: Modes::all(true),
            takes: PropertySet::none(),
            asks: NameSet::none(),
            is_assigned: false,
        }
    }

    /// One more instance of a field that is written there.
    fn put_field(&mut self, field: FieldBody)
        ensures { self.new ≡ with_field field self.old }
    {
        self.levels = self.levels.max(1);
        self.depth = self.depth.max(1);
        self.rows = self.rows.saturating_add(1);
        self.has_instances = true;
        self.count = self.count.saturating_add(u64::from(field.count()));
        self.weight = self.weight.saturating_add(u64::from(field.weight()));
    }

    /// One more component that is written in the body.
    fn put_written(&mut self, seen: &Seen)
        ensures { self.new ≡ with_written seen.now self.old }
    {
        self.depth = self.depth.max(u64::from(seen.depth) + 1);
        self.count = self.count.saturating_add(u64::from(seen.count));
        self.weight = self.weight.saturating_add(u64::from(seen.weight));
        self.takes = seen.takes.with(self.takes);
        self.asks = seen.asks.with(self.asks);
        self.is_assigned = seen.is_assigned | self.is_assigned;
    }

    /// One more instance of a component of which this is seen.
    fn put_instance(&mut self, seen: &Seen)
        ensures { self.new ≡ with_instance seen.now self.old }
    {
        self.levels = self.levels.max(u64::from(seen.levels) + 1);
        self.rows = self.rows.saturating_add(u64::from(seen.rows) + 1);
        self.has_instances = true;
        self.has_empty = seen.has_empty | seen.is_empty | self.has_empty;
        self.sound = sound_in_both(seen.sound, self.sound);
    }

    /// One more item before the others.
    fn put(&mut self, slot: &Slot)
        ensures { (rest : Slots) → AreInside self.old rest → AreInside self.new (add slot.now rest) }
    {
        match slot {
            Slot::Own => {}
            Slot::Default(property) => self.takes = self.takes.without(*property),
            Slot::Dynamic(_) => self.is_assigned = true,
            Slot::Field(field) => self.put_field(*field),
            Slot::Named(class, None) => self.asks = NameSet::of(*class).with(self.asks),
            Slot::Named(class, Some(seen)) => {
                self.put_instance(seen.as_ref());
                self.asks = NameSet::of(*class).with(self.asks);
            }
            Slot::Define(_, seen, _) => self.put_written(seen.as_ref()),
            Slot::Part(node) => {
                let seen = &node.as_ref().core().seen;
                self.put_instance(seen);
                self.put_written(seen);
            }
        }
    }

    /// What is inside the component with these items.
    pub fn of(slots: &[Slot]) -> Contents
        ensures { AreInside result (slots_of slots.now) }
    {
        let mut contents = Contents::nothing();
        for i in (0..slots.len()).rev() {
            contents.put(&slots[i]);
        }
        contents
    }

    /// What is inside a component with these items, where this is inside another one, and the items of both add the same to it, but for sums.
    pub fn again(self, slots: &[Slot]) -> Contents
        ensures { (before : Slots) → AreInside self before → HaveSame before (slots_of slots.now) → AreInside result (slots_of slots.now) }
    {
        let sums = Sums::of(slots);
        Contents {
            levels: self.levels,
            depth: self.depth,
            rows: sums.rows,
            has_instances: self.has_instances,
            count: sums.count,
            weight: sums.weight,
            has_empty: self.has_empty,
            sound: self.sound,
            takes: sums.takes,
            asks: self.asks,
            is_assigned: self.is_assigned,
        }
    }
}
