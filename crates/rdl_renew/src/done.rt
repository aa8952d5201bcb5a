//! The items of a body that are done, while it is renewed.
ghost use Rattle.std.specs.Prelude.{◌≡◌, ◌≤◌, ◌∷◌, ◌++◌, ◌&&◌, [], true, not, length, IfOk, OnOk, option_map, slice_get};
ghost use Rattle.rdl_nodes.specs.Bodies.{after_default_item};
ghost use Rattle.rdl_nodes.specs.KeptNode.{kept_of, slot_node};
ghost use Rattle.rdl_nodes.specs.Parts.{of_item};
ghost use Rattle.rdl_nodes.specs.View.{slots_of};
ghost use Rattle.rdl_places.specs.Lasting.{AreLasts};
ghost use Rattle.rdl_tree.specs.Items.{Items};
ghost use Rattle.rdl_renew.specs.AlikeSlots.{tells_of_width, is_alike, are_alike};
ghost use Rattle.rdl_renew.specs.Along.{next_of};
ghost use Rattle.rdl_renew.specs.Fronts.{front_of, fronts};
ghost use Rattle.rdl_renew.specs.InFront.{IsInFront};
ghost use Rattle.rdl_renew.specs.InPlace.{IsInPlace, AddSameAt, IsLikeAs, IsLike};
ghost use Rattle.rdl_renew.specs.PassedOver.{ArePassed};
ghost use Rattle.rdl_renew.specs.Renewing.{Became, SeesSame, RaisesBehind};
ghost use Rattle.rdl_seen.specs.Alert.{with_alert};
ghost use Rattle.rdl_seen.specs.Layouts.{Laying};
ghost use Rattle.rdl_seen.specs.Node.{Around};
ghost use Rattle.rdl_seen.specs.PropertySet.{no_properties};

use crate::alike::{are_alike, has_instance, is_alike, is_width_same};
use crate::along::{Next, Stretch, is_in_place};
use crate::anew::put_default;
use crate::deaf::is_settled;
use crate::same::is_same;
use crate::stayed::definition_raises;
use rdl_marks::marks::BodyMarks;
use rdl_nodes::contents::adds_same;
use rdl_nodes::node::{Kept, Slot};
use rdl_places::lasts::Lasts;
use rdl_seen::alert::Alert;
use rdl_seen::names::class_of;
use rdl_seen::values::Values;
use rdl_tree::description::{Body, Item};
use std::alloc::{AllocError, Global};

/// What reaches an item: defaults, and what may differ from what stood before it.
#[derive(Clone, Copy)]
pub(crate) struct Reach {
    pub defaults: Values,
    pub alert: Alert,
}

/// The items of a body that are done, from the first one on: their slots, what reaches the next one, and where names are looked up that are
/// defined among them.
#[derive(Drop)]
pub(crate) struct Done {
    pub slots: Vec<Slot>,
    pub reach: Reach,
    pub lasts: Lasts,
    /// Each is the old item of its number but for what is inside it, as far as that is known.
    pub are_in_place: bool,
    /// Each adds the same to what is inside the body as the old item of its number, but for sums, as far as that is known.
    pub add_same: bool,
    /// Each is no instance, or stayed in order, and layouts take the same of it where the default width of fields is the same.
    pub are_alike: bool,
}

impl Done {
    /// None is done of so many items, and this reaches the first one.
    pub(crate) fn none(alloc: Global, items: usize, reach: Reach) -> Result<Done, AllocError>
        ensures slots { IfOk result (λ done. done.slots.items ≡ []) }
        ensures reach { IfOk result (λ done. done.reach ≡ reach) }
        ensures lasts { IfOk result (λ done. (t : Items) → AreLasts t done.lasts) }
        ensures alike { IfOk result (λ done. done.are_alike ≡ true) }
    {
        Ok(Done {
            slots: Vec::with_capacity(alloc, items)?,
            reach,
            lasts: Lasts::none(alloc),
            are_in_place: true,
            add_same: true,
            are_alike: true,
        })
    }

    /// One item more, which had this number, and of which this was kept. It is passed over.
    #[inline(always)]
    fn keep(&mut self, number: usize, slot: &Slot) -> Result<(), AllocError>
        ensures slots { OnOk result (fronts self.new.slots.items ≡ fronts self.old.slots.items ++ front_of slot.now ∷ []) }
        ensures reach { self.new.reach ≡ self.old.reach }
        ensures lasts { self.new.lasts ≡ self.old.lasts }
        ensures in_place { OnOk result (self.new.are_in_place ≡ true → (self.old.are_in_place ≡ true) × (number ≡ length self.old.slots.items)) }
        ensures add_same { OnOk result (self.new.add_same ≡ true → (self.old.add_same ≡ true) × (number ≡ length self.old.slots.items)) }
        ensures alike { self.new.are_alike ≡ self.old.are_alike }
    {
        let slot = slot.try_copy()?;
        if number != self.slots.len() {
            self.are_in_place = false;
            self.add_same = false;
        }
        self.slots.push(slot)?;
        Ok(())
    }

    /// Whether this slot is that of a dynamic assignment before which nothing differs: the next item is one of the first ones, of which so many
    /// are as they were, and nothing is told of what stands around the body.
    fn is_in_front(&self, slot: &Slot, front: usize) -> bool
        ensures { result ≡ true → IsInFront self.now front slot.now }
    {
        match slot {
            Slot::Dynamic(_) => self.slots.len() < front && self.reach.alert.is_none(),
            _ => false,
        }
    }

    /// Items more that are as they were and had these numbers, as far as they may be passed over, and how many they are. These slots were kept
    /// of them, and so many of the first items of the body are as they were.
    pub(crate) fn pass_over(
        &mut self,
        before: &[Slot],
        stretch: Stretch,
        front: usize,
    ) -> Result<usize, AllocError>
        ensures passed { IfOk result (λ count. ArePassed before.now front stretch.from count self.old self.new) }
        ensures few { IfOk result (λ count. count ≤ stretch.count) }
    {
        let mut passed = 0;
        while passed < stretch.count {
            let number = stretch.from.saturating_add(passed);
            let Some(slot) = before.get(number) else {
                return Ok(passed);
            };
            let is_settled = is_settled(slot, &self.reach.alert);
            if !is_settled && !self.is_in_front(slot, front) {
                return Ok(passed);
            }
            self.keep(number, slot)?;
            passed += 1;
        }
        Ok(passed)
    }

    /// One item more, with its slot. Behind it differs what it raises, too.
    pub(crate) fn put(&mut self, item: &Item, slot: Slot, raises: Alert) -> Result<(), AllocError>
        ensures slots { OnOk result (fronts self.new.slots.items ≡ fronts self.old.slots.items ++ front_of slot ∷ []) }
        ensures defaults { OnOk result (self.new.reach.defaults ≡ after_default_item item.now self.old.reach.defaults) }
        ensures alert { OnOk result (self.new.reach.alert ≡ with_alert self.old.reach.alert raises) }
        ensures lasts { self.new.lasts ≡ self.old.lasts }
        ensures likeness { OnOk result (IsLikeAs self.old self.new) }
    {
        self.slots.push(slot)?;
        put_default(&mut self.reach.defaults, item);
        self.reach.alert = self.reach.alert.with(raises);
        Ok(())
    }

    /// How the item of this number, which is done, is like what it was: that is told of it, and these slots were kept.
    pub(crate) fn liken(&mut self, number: usize, before: &[Slot], next: Next, item: &Item)
        ensures slots { self.new.slots ≡ self.old.slots }
        ensures reach { self.new.reach ≡ self.old.reach }
        ensures lasts { self.new.lasts ≡ self.old.lasts }
        ensures in_place { self.new.are_in_place ≡ true → (self.old.are_in_place ≡ true) × IsInPlace number (next_of next.entry) }
        ensures add_same { self.new.add_same ≡ true → (self.old.add_same ≡ true) × AddSameAt number (slots_of before.now) (slots_of self.old.slots.items) }
        ensures alike { self.new.are_alike ≡ (self.old.are_alike && is_alike true (slots_of before.now) (of_item (slice_get self.old.slots.items number)) (next_of next.entry) item.now) }
    {
        self.are_in_place = self.are_in_place && is_in_place(next, number);
        let adds_same = adds_same_at(before, self.slots.as_slice(), number);
        self.add_same = self.add_same && adds_same;
        self.are_alike = self.are_alike
            && is_alike(next, item, before, self.slots.as_slice(), number, true);
    }

    /// Whether layouts take the same of the instances of a body as of those of what it was, where all items are done. These slots were kept of
    /// that, and it became the body as marks tell.
    pub(crate) fn is_alike(&self, marks: &BodyMarks, body: &Body, before: &[Slot]) -> bool
        ensures { (lay : Laying) (saw : Around) (old : Items) → Became lay saw (slots_of before.now) marks.now old body.now → IsLike marks.now (slots_of before.now) body.now self.now → result ≡ are_alike (not (tells_of_width self.now.reach.alert)) marks.now (slots_of before.now) (slots_of self.now.slots.items) body.now }
    {
        if is_width_same(self.reach.alert) {
            return !has_instance(marks.gone.as_slice()) && self.are_alike;
        }
        are_alike(marks, body, before, self.slots.as_slice(), false)
    }

    /// Whether it is known that each item is the old one of its number but for what is inside it, and there are as many as these slots that were
    /// kept.
    pub(crate) fn is_in_place(&self, before: &[Slot]) -> bool
        ensures { result ≡ true → (self.now.are_in_place ≡ true) × (length before.now ≡ length self.now.slots.items) }
    {
        self.are_in_place && before.len() == self.slots.len()
    }

    /// Whether it is known that each item adds the same to what is inside the body as the old one of its number, but for sums, and there are as
    /// many as these slots that were kept.
    pub(crate) fn is_same_inside(&self, before: &[Slot]) -> bool
        ensures { result ≡ true → (self.now.add_same ≡ true) × (length before.now ≡ length self.now.slots.items) }
    {
        self.add_same && before.len() == self.slots.len()
    }
}

/// Whether both items of this number add the same to what is inside their bodies, but for sums.
fn adds_same_at(before: &[Slot], now: &[Slot], number: usize) -> bool
    ensures { result ≡ true → AddSameAt number (slots_of before.now) (slots_of now.now) }
{
    match before.get(number) {
        Some(before) => match now.get(number) {
            Some(now) => adds_same(before, now),
            None => false,
        },
        None => false,
    }
}

/// Whether the same is seen of both components.
fn sees_same(before: Option<Kept>, now: Option<Kept>) -> bool
    ensures { result ≡ true → SeesSame (option_map kept_of before.entry) (option_map kept_of now.entry) }
{
    match before {
        Some(before) => match now {
            Some(now) => is_same(before.seen, now.seen),
            None => false,
        },
        None => false,
    }
}

/// What an item raises behind it that stayed in order: nothing, if it is no definition. This was kept of it before, and this is its slot.
pub(crate) fn raises_behind(item: &Item, before: Option<Kept>, slot: &Slot) -> Alert
    ensures raises { RaisesBehind result item.now (option_map kept_of before.entry) (slot_node slot.now) }
    ensures properties { result.properties ≡ no_properties }
{
    match item {
        Item::Define(name, _) => {
            definition_raises(class_of(name), sees_same(before, slot.kept()), false)
        }
        _ => Alert::none(),
    }
}
