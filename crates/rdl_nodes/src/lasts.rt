//! Where the last instances of each name stand among the first instances of a body.
ghost use Rattle.std.specs.Prelude.{◌≡◌, ◌<◌};
ghost use Rattle.rdl_nodes.specs.Lasting.{slot_of};
ghost use Rattle.rdl_scope.specs.Front.{front};

use crate::inside::{Found, Instance};
use rdl_text::is_same;
use rdl_text::name::Name;
use std::alloc::{AllocError, Global};

/// How many names are looked up before the instances are put in.
const FEW: usize = 16;

/// Where the last instances of each name stand among the first instances of a body, so many as were put in.
///
/// Each name has a slot. A slot has one more than the number of its last instance, or 0. For each instance it is known what its slot
/// had before.
#[derive(Drop)]
pub struct Lasts {
    slots: Vec<usize>,
    links: Vec<usize>,
    looks: usize,
}

/// A number that each byte of the name has a part in.
fn front_of(name: &Name) -> u64
    ensures { result ≡ front name.now }
{
    let mut front = 0u64;
    for byte in name.as_str().as_bytes() {
        front = front.wrapping_mul(131).wrapping_add(u64::from(*byte));
    }
    front
}

/// The slot of a name, of so many.
#[tactic(auto, unfolding(crate::specs::Lasting::slot_of))]
fn slot_of(name: &Name, slots: usize) -> usize
    requires { 0 < slots }
    ensures slot { result ≡ slot_of slots name.now }
    ensures few { result < slots }
{
    let mixed = front_of(name).wrapping_mul(0xAE07_CFEF_2782_AB35) >> 32;
    (mixed as usize) % slots
}

impl Lasts {
    ghost use Rattle.std.specs.Prelude.{◌≡◌, ◌<◌, length, take, List, OnOk, option_map};
    ghost use Rattle.rdl_nodes.specs.Found.{found_of};
    ghost use Rattle.rdl_nodes.specs.HeldInside.{inside_of};
    ghost use Rattle.rdl_nodes.specs.Lasting.{AreLasts};
    ghost use Rattle.rdl_nodes.specs.declared.inside.Instance.{Instance};
    ghost use Rattle.rdl_seen.specs.Inside.{find};

    /// Those of no instance.
    pub(crate) fn none(alloc: Global) -> Lasts
        ensures { (xs : List Instance) → AreLasts xs result }
    {
        Lasts {
            slots: Vec::new(alloc),
            links: Vec::new(alloc),
            looks: 0,
        }
    }

    /// Of how many instances these are.
    pub(crate) fn len(&self) -> usize
        ensures { result ≡ length self.now.links.items }
    {
        self.links.len()
    }

    /// Slots for more than so many instances. Where there were fewer, none is put in yet.
    fn make_room(&mut self, instances: &[Instance]) -> Result<(), AllocError>
        requires { AreLasts instances.now self.old }
        ensures are { AreLasts instances.now self.new }
        ensures slots { OnOk result (0 < length self.new.slots.items) }
    {
        if instances.len() < self.slots.len() {
            return Ok(());
        }
        self.links.clear();
        self.slots.clear();
        let count = instances.len().saturating_mul(4).saturating_add(1);
        self.slots.resize(count, 0)?;
        Ok(())
    }

    /// Puts in one instance more, if there is one.
    fn step(&mut self, instances: &[Instance]) -> Result<(), AllocError>
        requires slots { 0 < length self.old.slots.items }
        requires are { AreLasts instances.now self.old }
        ensures are { AreLasts instances.now self.new }
        ensures slots { length self.new.slots.items ≡ length self.old.slots.items }
    {
        let Some(instance) = instances.get(self.links.len()) else {
            return Ok(());
        };
        let slot = slot_of(instance.name, self.slots.len());
        let next = self.slots[slot];
        self.links.push(next)?;
        self.slots[slot] = self.links.len();
        Ok(())
    }

    /// Puts in all of these.
    pub(crate) fn reach(&mut self, instances: &[Instance]) -> Result<(), AllocError>
        requires { AreLasts instances.now self.old }
        ensures { AreLasts instances.now self.new }
    {
        self.make_room(instances)?;
        for _ in self.links.len()..instances.len() {
            self.step(instances)?;
        }
        Ok(())
    }

    /// A name may be looked up among these. Where that was so more than a few times, all are put in.
    pub(crate) fn look(&mut self, instances: &[Instance]) -> Result<(), AllocError>
        requires { AreLasts instances.now self.old }
        ensures { AreLasts instances.now self.new }
    {
        self.looks = self.looks.saturating_add(1);
        if self.looks <= FEW {
            return Ok(());
        }
        self.reach(instances)
    }

    /// The last instance of this name among those that are put in.
    pub(crate) fn find<'i, 'a>(
        &self,
        instances: &'i [Instance<'a>],
        name: &Name,
    ) -> Option<Found<'i, 'a>>
        requires { AreLasts instances.now self.now }
        ensures { option_map found_of result ≡ find name.now (inside_of (take (length self.now.links.items) instances.now)) }
    {
        if self.links.is_empty() {
            return None;
        }
        let mut next = self.slots[slot_of(name, self.slots.len())];
        while next > 0 {
            let number = next - 1;
            let instance = &instances[number];
            if is_same(instance.name.as_str(), name.as_str()) {
                let within = &instance.within;
                return Some(Found { number, within });
            }
            next = self.links[number];
        }
        None
    }
}
