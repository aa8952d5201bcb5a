//! The patches of an edit that reaches every body.
ghost use Rattle.std.specs.Prelude.{◌≡◌, ◌≤◌, ◌<◌, ◌++◌, ◌∷◌, [], ℕ, List, take, true, false, length, nat_lt, reverse, Some, None, IfOk, OnOk, option_copied};
ghost use Rattle.std.specs.List.{list_any};
ghost use Rattle.rdl_tree.specs.ItemAt.{item_at};
ghost use Rattle.rdl_tree.specs.Items.{Items, no_items};
ghost use Rattle.rdl_tree.specs.View.{add, list_of};
ghost use Rattle.rdl_tree.specs.Address.{body_at, holder_of, number_of};
ghost use Rattle.rdl_tree.specs.Depth.{depth};
ghost use Rattle.rdl_scope.specs.Types.{items_in};
ghost use Rattle.rdl_rewrite.specs.Addresses.{same};
ghost use Rattle.rdl_rewrite.specs.Firsts.{AreFirsts, NotesItem, first_under, is_inside, is_dynamic};
ghost use Rattle.rdl_rewrite.specs.Led.{IsLed};
ghost use Rattle.rdl_rewrite.specs.Sweep.{Knows};
ghost use Rattle.rdl_rewrite.specs.Touched.{may_touch, is_any_inside};
ghost use Rattle.rdl_rewrite.specs.Fates.{fate, fate_patches};

use crate::fate::Fate;
use crate::firsts::Firsts;
use crate::leads::{is_inside, leads_to, led_behind};
use crate::passed::may_pass_anywhere;
use crate::spared::{is_touched, may_lead_into};
use crate::{removal, renaming};
use rdl_text::name::Name;
use rdl_tree::address::Address;
use rdl_tree::description::{Body, Description, Item, Of};
use rdl_tree::find::item_at;
use rdl_tree::patch::Patch;
use std::alloc::{AllocError, Global};

/// An edit that reaches every body: the item on the way gets the name, or is taken out.
#[derive(Drop)]
pub(crate) struct Sweep<'a> {
    pub whole: &'a Description,
    pub way: &'a Address,
    /// The item on the way.
    pub taken: Option<&'a Item>,
    /// The address of the body in which that stands.
    pub place: Address,
    /// The item whose body that is.
    pub holder: Option<&'a Item>,
    /// How many items that has.
    pub siblings: usize,
    /// Those of them that stand before it.
    pub before: &'a [Item],
    /// None where the item is taken out.
    pub name: Option<&'a Name>,
}

/// Whether an assignment to what is inside an instance is among the items of the body themselves.
fn has_dynamic(body: &Body) -> bool
    ensures { result ≡ list_any is_dynamic (list_of body.now) }
{
    body.as_slice()
        .iter()
        .any(|item| matches!(item, Item::Dynamic(..)))
}

/// How many of the items are instances. Only how much room is awaited rests on it.
fn instances(items: &[Item]) -> usize {
    let mut count = 0usize;
    for item in items {
        if let Item::Instance(..) = item {
            count = count.saturating_add(1);
        }
    }
    count
}

/// No instances before the first item of the body. They are awaited only where one of its items assigns anything to what is
/// inside them.
fn no_firsts<'a>(alloc: Global, assigns: bool, body: &Body) -> Result<Firsts<'a>, AllocError>
    ensures { IfOk result (λ firsts. (q : List ℕ) → first_under firsts q ≡ None) }
{
    if assigns {
        Firsts::with_room(alloc, instances(body.as_slice()))
    } else {
        Firsts::with_room(alloc, 0)
    }
}

/// The address of the body in which the item on the way stands.
fn place_of(way: &Address) -> Address
    ensures { result ≡ holder_of way.now }
{
    if way.is_empty() {
        Address::new()
    } else {
        way.holder()
    }
}

/// How many items the body at this address has.
fn items_in(whole: &Description, place: &Address) -> usize
    ensures { result ≡ items_in place.now whole.now.items }
{
    match whole.body(place) {
        Some(body) => body.len(),
        None => 0,
    }
}

/// Those of the items that stand before the number of the way.
#[tactic(auto, using(std::proofs::lemmas::List::take_min))]
fn before<'a>(way: &Address, items: &'a [Item]) -> &'a [Item]
    ensures { result.now ≡ take (number_of way.now) items.now }
{
    if way.is_empty() {
        return &[];
    }
    &items[..way.number().min(items.len())]
}

/// The items before the one on the way in the body at this address.
fn items_before<'a>(whole: &'a Description, way: &Address, place: &Address) -> &'a [Item]
    ensures { (body : Items) → body_at place.now whole.now.items ≡ Some body → result.now ≡ take (number_of way.now) (list_of body) }
{
    match whole.body(place) {
        Some(body) => before(way, body.as_slice()),
        None => &[],
    }
}

/// Whether bodies nest over 16 deep, where they aren't known not to.
pub(crate) fn is_too_deep(whole: &Description, is_shallow: bool) -> bool
    requires { is_shallow ≡ true → depth whole.now.items ≤ 16 }
    ensures { result ≡ nat_lt 16 (depth whole.now.items) }
{
    !is_shallow && whole.depth() > 16
}

impl<'a> Sweep<'a> {
    pub(crate) fn new(whole: &'a Description, way: &'a Address, name: Option<&'a Name>) -> Sweep<'a>
        ensures whole { result.whole.now ≡ whole.now }
        ensures way { result.way.now ≡ way.now }
        ensures known { Knows result }
        ensures name { option_copied result.name ≡ option_copied name.entry }
    {
        let taken = item_at(&whole.items, way.as_slice());
        let place = place_of(way);
        let holder = item_at(&whole.items, place.as_slice());
        let siblings = items_in(whole, &place);
        let before = items_before(whole, way, &place);
        Sweep {
            whole,
            way,
            taken,
            place,
            holder,
            siblings,
            before,
            name,
        }
    }

    /// What becomes of this item, of this number in the body at the address, behind these instances. `led` says whether a
    /// reference to the taken item's name leads to it here.
    fn fate(
        &self,
        alloc: Global,
        at: &Address,
        number: usize,
        found: &'a Item,
        led: bool,
        firsts: &Firsts<'a>,
    ) -> Result<Fate, AllocError>
        requires nesting { depth self.now.whole.now.items ≤ 16 }
        requires known { Knows self.now }
        requires room { length at.now < 17 }
        requires here { item_at (at.now ++ number ∷ []) self.now.whole.now.items ≡ Some found.now }
        requires led { IsLed self.now.whole.now.items self.now.way.now (at.now ++ number ∷ []) led }
        requires firsts { is_dynamic found.now ≡ true → AreFirsts self.now.whole.now.items (holder_of self.now.way.now) at.now number firsts.now }
        ensures { IfOk result (λ new. new ≡ fate self.now.whole.now.items self.now.way.now (option_copied self.now.name) (at.now ++ number ∷ []) found.now) }
    {
        match self.name {
            Some(name) => renaming::fate(alloc, self, name, at, number, found, led, firsts),
            None => removal::fate(alloc, self, at, number, found, firsts),
        }
    }

    /// Notes the item of this number in the body at the address, if that assigns anything to what is inside its instances.
    /// `inside_led` says whether a reference to the holder's name leads to the holder here.
    fn note(
        &self,
        assigns: bool,
        at: &Address,
        number: usize,
        found: &'a Item,
        inside_led: bool,
        firsts: &mut Firsts<'a>,
    ) -> Result<(), AllocError>
        ensures { OnOk result (assigns ≡ true → NotesItem firsts.old firsts.new found.now number (is_inside self.now.place (option_copied self.now.holder) (at.now ++ number ∷ []) inside_led found.now)) }
    {
        if !assigns {
            return Ok(());
        }
        let inside = is_inside(&self.place, self.holder, inside_led, at, number, found);
        firsts.note(found, number, inside)
    }

    /// Whether the item of this number in any body is known not to be the one on the way.
    fn is_apart(&self, number: usize) -> bool
        ensures { result ≡ true → (at : List ℕ) → same (at ++ number ∷ []) self.now.way.now ≡ false }
    {
        !self.way.is_empty() && self.way.number() != number
    }

    /// Whether this is the body of the item of this number in the one at the address, and it is known that there are no patches
    /// for what stands in it: the way leads elsewhere, and no name in it may stand for the taken item.
    fn spares(&self, at: &Address, number: usize, body: &Body) -> bool
        ensures apart { result ≡ true → (rest : List ℕ) → same (at.now ++ number ∷ rest) self.now.way.now ≡ false }
        ensures untouched { result ≡ true → is_any_inside (may_touch (option_copied self.now.taken) (option_copied self.now.holder)) body.now ≡ false }
    {
        !may_lead_into(self.way, at, number) && !is_touched(self, body)
    }

    /// Whether it is known at once that there are no patches for the item of this number in the body at the address, nor for
    /// any inside it. `led` says whether a reference to the taken item's name leads to it here.
    fn stays(&self, at: &Address, number: usize, found: &Item, led: bool) -> bool
        requires nesting { depth self.now.whole.now.items ≤ 16 }
        requires known { Knows self.now }
        requires room { length at.now < 17 }
        requires here { item_at (at.now ++ number ∷ []) self.now.whole.now.items ≡ Some found.now }
        requires led { IsLed self.now.whole.now.items self.now.way.now (at.now ++ number ∷ []) led }
        ensures { result ≡ true → fate_patches (fate self.now.whole.now.items self.now.way.now (option_copied self.now.name)) at.now number (add found.now no_items) ≡ [] }
    {
        match found {
            Item::Own(..) => self.is_apart(number),
            Item::Default(..) => self.is_apart(number),
            Item::Instance(_, of) => match of {
                Of::Named(_) => self.is_apart(number) && !leads_to(self.taken, led, found),
                Of::Anonymous(component) => self.spares(at, number, &component.body),
            },
            Item::Define(_, component) => self.spares(at, number, &component.body),
            Item::Dynamic(target, ..) => {
                self.is_apart(number) && !may_pass_anywhere(self, target.names())
            }
        }
    }

    /// Pushes the patches for this body, at its address, those of each item before those of the items inside it. `led` says
    /// whether a reference to the taken item's name leads to it where the body begins, `inside_led` whether one to its
    /// holder's name leads to the holder.
    #[cycle(reach)]
    fn push_body(
        &self,
        alloc: Global,
        at: &Address,
        body: &'a Body,
        mut led: bool,
        mut inside_led: bool,
        patches: &mut Vec<Patch>,
    ) -> Result<(), AllocError>
        requires nesting { depth self.now.whole.now.items ≤ 16 }
        requires known { Knows self.now }
        requires here { body_at at.now self.now.whole.now.items ≡ Some body.now }
        requires led { IsLed self.now.whole.now.items self.now.way.now at.now led }
        requires inside_led { IsLed self.now.whole.now.items (holder_of self.now.way.now) at.now inside_led }
        ensures { IfOk result (λ _. reverse patches.new.items ≡ fate_patches (fate self.now.whole.now.items self.now.way.now (option_copied self.now.name)) at.now 0 body.now ++ reverse patches.old.items) }
    {
        let assigns = has_dynamic(body);
        let mut firsts = no_firsts(alloc, assigns, body)?;
        'items: for (number, found) in body.as_slice().iter().enumerate() {
            self.push_item(alloc, at, number, found, led, inside_led, &firsts, patches)?;
            self.note(assigns, at, number, found, inside_led, &mut firsts)?;
            led = led_behind(self.way, self.taken, led, at, number, found);
            inside_led = led_behind(&self.place, self.holder, inside_led, at, number, found);
        }
        Ok(())
    }

    /// Pushes the patches for the item of this number, behind these instances, in the body at the address. `led` says whether
    /// a reference to the taken item's name leads to it here, `inside_led` whether one to its holder's name leads to the
    /// holder.
    #[cycle(reach)]
    fn push_item(
        &self,
        alloc: Global,
        at: &Address,
        number: usize,
        found: &'a Item,
        led: bool,
        inside_led: bool,
        firsts: &Firsts<'a>,
        patches: &mut Vec<Patch>,
    ) -> Result<(), AllocError>
        requires nesting { depth self.now.whole.now.items ≤ 16 }
        requires known { Knows self.now }
        requires room { length at.now < 17 }
        requires here { item_at (at.now ++ number ∷ []) self.now.whole.now.items ≡ Some found.now }
        requires led { IsLed self.now.whole.now.items self.now.way.now (at.now ++ number ∷ []) led }
        requires inside_led { IsLed self.now.whole.now.items (holder_of self.now.way.now) (at.now ++ number ∷ []) inside_led }
        requires firsts { is_dynamic found.now ≡ true → AreFirsts self.now.whole.now.items (holder_of self.now.way.now) at.now number firsts.now }
        ensures { IfOk result (λ _. reverse patches.new.items ≡ fate_patches (fate self.now.whole.now.items self.now.way.now (option_copied self.now.name)) at.now number (add found.now no_items) ++ reverse patches.old.items) }
    {
        if self.stays(at, number, found, led) {
            return Ok(());
        }
        let fate = self.fate(alloc, at, number, found, led, firsts)?;
        let goes = fate.is_dropped();
        fate.push_to(alloc, at, number, patches)?;
        if goes {
            return Ok(());
        }
        match found.own_body() {
            Some(body) => {
                self.push_body(alloc, &at.inside(number), body, led, inside_led, patches)
            }
            None => Ok(()),
        }
    }

    /// The patches for all items, the last item's first.
    pub(crate) fn patches(&self, alloc: Global) -> Result<Vec<Patch>, AllocError>
        requires nesting { depth self.now.whole.now.items ≤ 16 }
        requires known { Knows self.now }
        ensures { IfOk result (λ ps. ps.items ≡ fate_patches (fate self.now.whole.now.items self.now.way.now (option_copied self.now.name)) [] 0 self.now.whole.now.items) }
    {
        let mut patches = Vec::new(alloc);
        self.push_body(
            alloc,
            &Address::new(),
            &self.whole.items,
            false,
            false,
            &mut patches,
        )?;
        patches.reverse();
        Ok(patches)
    }
}
