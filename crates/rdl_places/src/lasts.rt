//! Where the last items of each name stand among the first items of a body.
ghost use Rattle.std.specs.Prelude.{◌≡◌, ◌<◌, option_copied};
ghost use Rattle.rdl_places.specs.Lasting.{name_of, slot_of, AreLasts};
ghost use Rattle.rdl_scope.specs.Front.{front};

use crate::numbers::{Sought, count_before, count_of, is_sought, last_sought};
use rdl_text::name::Name;
use rdl_tree::description::{Body, Item};
use std::alloc::{AllocError, Global};

/// How many items of a body are gone along for the names that are looked up there, before it is worth while to know where they stand: so many,
/// and as many as it has in all, as often as `ROUNDS` says.
const FEW: usize = 256;

/// To know where all items of a body stand takes about as long as to go along all of them twice.
const ROUNDS: usize = 2;

/// An item that was gone along: how many instances stand before it, and one more than the number of the last item before it whose name has
/// the same slot, or 0.
#[derive(Clone, Copy)]
struct Link {
    before: usize,
    next: usize,
}

/// Where the last items of each name stand among the first items of a body: of none, as long as no more than a few were gone along.
///
/// The names of definitions and of instances have slots. A slot has one more than the number of its last item, or 0.
#[derive(Drop)]
pub struct Lasts {
    slots: Vec<usize>,
    links: Vec<Link>,
    instances: usize,
    /// How many items are gone along for the names that are looked up.
    gone_along: usize,
}

/// A body with where its last items stand.
#[derive(Clone, Copy)]
pub(crate) struct Indexed<'s> {
    body: &'s Body,
    lasts: &'s Lasts,
    ghost are: { AreLasts body.now lasts.now },
}

/// A body in which names are looked up.
#[derive(Clone, Copy)]
pub(crate) enum Searched<'s> {
    Plain(&'s Body),
    Indexed(Indexed<'s>),
}

/// The name of an item that is a definition or an instance.
fn name_of(item: Option<&Item>) -> Option<&Name>
    ensures { option_copied result ≡ name_of (option_copied item.entry) }
{
    match item {
        Some(Item::Define(name, _)) => Some(name),
        Some(Item::Instance(shell, _)) => Some(shell.name()),
        _ => None,
    }
}

/// A number that each byte of the name has a part in.
fn front_of(name: &Name) -> u64
    ensures { result ≡ front name.now }
{
    let mut front = 0u64;
    for byte in name.as_str().as_bytes() {
        front = front.wrapping_mul(131).wrapping_add(u64::from(*byte));
    }
    front
}

/// The slot of a name, of so many.
#[tactic(auto, unfolding(crate::specs::Lasting::slot_of))]
fn slot_of(name: &Name, slots: usize) -> usize
    requires { 0 < slots }
    ensures slot { result ≡ slot_of slots name.now }
    ensures few { result < slots }
{
    let mixed = front_of(name).wrapping_mul(0xAE07_CFEF_2782_AB35) >> 32;
    (mixed as usize) % slots
}

impl Lasts {
    ghost use Rattle.std.specs.Prelude.{◌≡◌, ◌<◌, ◌≤◌, length, OnOk};
    ghost use Rattle.rdl_places.specs.Lasting.{AreLasts};
    ghost use Rattle.rdl_places.specs.LastNumbers.{last_sought};
    ghost use Rattle.rdl_tree.specs.Items.{Items};

    /// Those of no item.
    pub fn none(alloc: Global) -> Lasts
        ensures { (t : Items) → AreLasts t result }
    {
        Lasts {
            slots: Vec::new(alloc),
            links: Vec::new(alloc),
            instances: 0,
            gone_along: 0,
        }
    }

    /// Those of one item of the body more.
    fn step(&mut self, body: &Body) -> Result<(), AllocError>
        requires slots { 0 < length self.old.slots.items }
        requires are { AreLasts body.now self.old }
        ensures are { AreLasts body.now self.new }
        ensures slots { length self.new.slots.items ≡ length self.old.slots.items }
    {
        let item = body.item(self.links.len());
        let before = self.instances;
        match name_of(item) {
            Some(name) => {
                let slot = slot_of(name, self.slots.len());
                let next = self.slots[slot];
                self.links.push(Link { before, next })?;
                self.slots[slot] = self.links.len();
            }
            None => self.links.push(Link { before, next: 0 })?,
        }
        self.instances += count_of(item);
        Ok(())
    }

    /// Slots for the names of a body, those of no item.
    fn make_slots(&mut self, alloc: Global, body: &Body) -> Result<(), AllocError>
        requires { AreLasts body.now self.old }
        ensures are { AreLasts body.now self.new }
        ensures slots { OnOk result (0 < length self.new.slots.items) }
    {
        let mut slots = Vec::new(alloc);
        slots.resize(body.len().saturating_mul(2).saturating_add(1), 0)?;
        let links = Vec::with_capacity(alloc, body.len())?;
        self.slots = slots;
        self.links = links;
        self.instances = 0;
        Ok(())
    }

    /// Those of the items of the body before this number.
    fn reach(&mut self, body: &Body, number: usize) -> Result<(), AllocError>
        requires slots { 0 < length self.old.slots.items }
        requires are { AreLasts body.now self.old }
        ensures { AreLasts body.now self.new }
    {
        for _ in self.links.len()..number {
            self.step(body)?;
        }
        Ok(())
    }

    /// So many names may be looked up from the place of the item of this number of the body. Where more than a few items are gone along for
    /// names, those before it are known.
    pub fn look(
        &mut self,
        alloc: Global,
        body: &Body,
        number: usize,
        names: usize,
    ) -> Result<(), AllocError>
        requires { AreLasts body.now self.old }
        ensures { AreLasts body.now self.new }
    {
        self.gone_along = self.gone_along.saturating_add(names.saturating_mul(number));
        let few = body.len().saturating_mul(ROUNDS).max(FEW);
        if names == 0 || self.gone_along <= few {
            return Ok(());
        }
        if self.slots.is_empty() {
            self.make_slots(alloc, body)?;
        }
        self.reach(body, number)
    }

    /// The number of the last one of this name that is sought, among the first items of the body, so many of them, where the places of so
    /// many are known.
    fn last_sought(&self, body: &Body, count: usize, sought: Sought, name: &Name) -> Option<usize>
        requires are { AreLasts body.now self.now }
        requires known { count ≤ length self.now.links.items }
        requires slots { 0 < length self.now.slots.items }
        ensures { result ≡ last_sought sought name.now count body.now }
    {
        let mut next = self.slots[slot_of(name, self.slots.len())];
        while next > 0 {
            let number = next - 1;
            if number < count && is_sought(body.item(number), sought, name) {
                return Some(number);
            }
            next = self.links[number].next;
        }
        None
    }
}

impl<'s> Indexed<'s> {
    ghost use Rattle.std.specs.Prelude.{◌≡◌};
    ghost use Rattle.rdl_places.specs.LastNumbers.{last_sought};
    ghost use Rattle.rdl_places.specs.Reached.{count_before};

    /// The number of the last one of this name that is sought, among the first items of the body, so many of them.
    fn last_sought(self, count: usize, sought: Sought, name: &Name) -> Option<usize>
        ensures { result ≡ last_sought sought name.now count self.entry.body.now }
    {
        if self.lasts.slots.is_empty() || self.lasts.links.len() < count {
            last_sought(self.body, count, sought, name)
        } else {
            self.lasts.last_sought(self.body, count, sought, name)
        }
    }

    /// How many instances are among the first items of the body, so many of them.
    fn count_before(self, count: usize) -> usize
        ensures { result ≡ count_before count self.entry.body.now }
    {
        match self.lasts.links.get(count) {
            Some(link) => link.before,
            None => count_before(self.body, count),
        }
    }
}

impl<'s> Searched<'s> {
    ghost use Rattle.std.specs.Prelude.{◌≡◌};
    ghost use Rattle.rdl_places.specs.Lasting.{AreLasts};
    ghost use Rattle.rdl_places.specs.LastNumbers.{last_sought};
    ghost use Rattle.rdl_places.specs.Reached.{count_before};
    ghost use Rattle.rdl_places.specs.SearchedBodies.{searched_body};

    pub(crate) fn indexed(body: &'s Body, lasts: &'s Lasts) -> Searched<'s>
        requires { AreLasts body.now lasts.now }
        ensures { searched_body result ≡ body.now }
    {
        Searched::Indexed(Indexed { body, lasts })
    }

    pub(crate) fn body(self) -> &'s Body
        ensures { result.now ≡ searched_body self.entry }
    {
        match self {
            Searched::Plain(body) => body,
            Searched::Indexed(indexed) => indexed.body,
        }
    }

    /// The number of the last one of this name that is sought, among the first items of the body, so many of them.
    pub(crate) fn last_sought(self, count: usize, sought: Sought, name: &Name) -> Option<usize>
        ensures { result ≡ last_sought sought name.now count (searched_body self.entry) }
    {
        match self {
            Searched::Plain(body) => last_sought(body, count, sought, name),
            Searched::Indexed(indexed) => indexed.last_sought(count, sought, name),
        }
    }

    /// How many instances are among the first items of the body, so many of them.
    pub(crate) fn count_before(self, count: usize) -> usize
        ensures { result ≡ count_before count (searched_body self.entry) }
    {
        match self {
            Searched::Plain(body) => count_before(body, count),
            Searched::Indexed(indexed) => indexed.count_before(count),
        }
    }
}
