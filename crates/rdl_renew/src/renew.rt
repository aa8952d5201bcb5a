//! What is kept of a body that was changed, over what was kept of it before.
ghost use Rattle.std.specs.Prelude.{◌≡◌, ◌||◌, ◌&&◌, ℕ, suc, not, length, Bool, true, false, Some, IfOk, IfSome, OnOk, option_map, option_copied};
ghost use Rattle.rdl_marks.specs.Describes.{Describes};
ghost use Rattle.rdl_marks.specs.InOrder.{AreInOrder};
ghost use Rattle.rdl_marks.specs.Marks.{Firsts, Marks};
ghost use Rattle.rdl_marks.specs.View.{Trace, old_item};
ghost use Rattle.rdl_nodes.specs.HoldsNodes.{HoldsNodes};
ghost use Rattle.rdl_nodes.specs.KeptNode.{kept_of};
ghost use Rattle.rdl_nodes.specs.Placed.{all_placed, placed_over, CountsOn};
ghost use Rattle.rdl_nodes.specs.View.{slots_of};
ghost use Rattle.rdl_places.specs.HeldScope.{places_of, outer_places};
ghost use Rattle.rdl_places.specs.Scopes.{around_places, IsScope};
ghost use Rattle.rdl_places.specs.Lasting.{AreLasts};
ghost use Rattle.rdl_renew.specs.AlikeSlots.{tells_of_width, is_alike, are_alike};
ghost use Rattle.rdl_renew.specs.Again.{IsHeldAgain};
ghost use Rattle.rdl_renew.specs.Along.{next_of};
ghost use Rattle.rdl_renew.specs.Anew.{slot_there, slots_there};
ghost use Rattle.rdl_renew.specs.Counting.{stayed_placed, CountsItem};
ghost use Rattle.rdl_renew.specs.Fronts.{front_of};
ghost use Rattle.rdl_renew.specs.InPlace.{IsInPlace, AddAsSaid, AddsAsSaid, IsLikeAs, IsLike, of_last};
ghost use Rattle.rdl_renew.specs.Judged.{IfStillClean, HasNoneInside};
ghost use Rattle.rdl_renew.specs.Placed.{in_body, placed_in, placed_stayed, placed_of, sets_width};
ghost use Rattle.rdl_renew.specs.Renewing.{part_of, kept_component, written_of, Became, WasLaidOut, BecameComponent, DiffersNoMoreBefore, IsReached, AreDone, IsNext, IsMadeAnew};
ghost use Rattle.rdl_renew.specs.HeldRenewal.{renewing};
ghost use Rattle.rdl_renew.specs.StillClean.{StaysClean, BecameClean, IsCleanStill};
ghost use Rattle.rdl_seen.specs.Layouts.{Laying};
ghost use Rattle.rdl_seen.specs.Meaning.{nothing_around, kept_at};
ghost use Rattle.rdl_seen.specs.MeaningLaws.{is_clean_map};
ghost use Rattle.rdl_seen.specs.Node.{Around, body_of, node};
ghost use Rattle.rdl_seen.specs.Slots.{no_slots, written};
ghost use Rattle.rdl_tree.specs.Items.{Items};
ghost use Rattle.rdl_tree.specs.Weight.{capped};

use crate::along::{Along, Next, untouched};
use crate::anew::item_anew;
use crate::component::{kept_component, slot_again, slot_with};
use crate::done::{Done, Reach, raises_behind};
use crate::judge::Judge;
use crate::look_ups::{names_again, names_of};
use crate::raise::raised;
use rdl_marks::marks::BodyMarks;
use rdl_nodes::finished::{Likeness, finished_over};
use rdl_nodes::lays::Lays;
use rdl_nodes::node::{Kept, Node, Slot};
use rdl_nodes::placed::slot_placed;
use rdl_nodes::tree::Tree;
use rdl_places::scope::{Outer, Scope};
use rdl_seen::alert::Alert;
use rdl_seen::values::Values;
use rdl_tree::description::{Body, Component, Description, Item};
use rdl_tree::shell::Kind;
use std::alloc::{AllocError, Global};

/// A body that is renewed: where it stands, and what was kept of it before. It is that of a component of this kind, or the root's.
#[derive(Clone, Copy)]
pub(crate) struct Renewal<'o, 'b, 's> {
    pub outer: Outer<'o>,
    pub body: &'b Body,
    pub slots: &'s [Slot],
    pub around: Option<Kind>,
}

/// What is told of a renewal: whether it is known that no item has a fault, as far as items were looked at, and how many instances were
/// placed, once for each mode. That count stops at the greatest `u64`.
#[derive(Clone, Copy)]
pub(crate) struct Account {
    pub judge: Judge,
    pub placed: u64,
}

/// What was kept of the item of this number.
fn kept_slot<'s>(slots: &'s [Slot], number: usize) -> Option<Kept<'s>>
    ensures { option_map kept_of result ≡ kept_at number (slots_of slots.now) }
{
    match slots.get(number) {
        Some(slot) => slot.kept(),
        None => None,
    }
}

/// An item at this place, under the defaults that reach it. It is made anew, and all that is inside it is placed.
fn slot_anew<L: Lays>(
    alloc: Global,
    lay: &L,
    scope: &Scope,
    defaults: &Values,
    item: &Item,
    account: &mut Account,
) -> Result<Slot, AllocError>
    ensures slot { IsScope L.laying (places_of scope.now) → defaults.now ≡ (around_places L.laying (places_of scope.now)).defaults → IfOk result (λ x. front_of x ≡ slot_there L.laying (places_of scope.now) item.now) }
    ensures clean { IsScope L.laying (places_of scope.now) → defaults.now ≡ (around_places L.laying (places_of scope.now)).defaults → OnOk result (IfStillClean account.old.judge.is_clean account.new.judge.is_clean (HasNoneInside L.laying (places_of scope.now) item.now)) }
    ensures placed { IfOk result (λ x. CountsOn account.old.placed account.new.placed (all_placed (front_of x))) }
{
    let slot = item_anew(alloc, lay, scope, defaults, item, &mut account.judge)?;
    account.placed = account.placed.saturating_add(slot_placed(&slot));
    Ok(slot)
}

/// An item more that wasn't there before, or was moved.
fn renew_new<L: Lays>(
    alloc: Global,
    lay: &L,
    renewal: &Renewal,
    done: &mut Done,
    item: &Item,
    account: &mut Account,
) -> Result<(), AllocError>
    requires { AreLasts renewal.now.body.now done.old.lasts }
    ensures done { (m : Marks) (old : Items) (saw : Around) (n : ℕ) (e : Trace) → IsNext L.laying (renewing renewal.now m old saw) n done.old item.now e → IsMadeAnew e → OnOk result (AreDone L.laying (renewing renewal.now m old saw) (suc n) done.new) }
    ensures clean { (m : Marks) (old : Items) (saw : Around) (n : ℕ) (e : Trace) → IsNext L.laying (renewing renewal.now m old saw) n done.old item.now e → OnOk result (IfStillClean account.old.judge.is_clean account.new.judge.is_clean (IsCleanStill L.laying (renewing renewal.now m old saw) n item.now)) }
    ensures placed { (m : Marks) (old : Items) (saw : Around) (n : ℕ) (e : Trace) → IsNext L.laying (renewing renewal.now m old saw) n done.old item.now e → IsMadeAnew e → OnOk result (CountsItem L.laying (renewing renewal.now m old saw) (tells_of_width done.old.reach.alert) n e item.now account.old.placed account.new.placed) }
    ensures properties { OnOk result (done.new.reach.alert.properties ≡ done.old.reach.alert.properties) }
    ensures lasts { AreLasts renewal.now.body.now done.new.lasts }
    ensures likeness { OnOk result (IsLikeAs done.old done.new) }
{
    let slot = {
        let number = done.slots.len();
        let names = names_of(item);
        done.lasts.look(alloc, renewal.body, number, names)?;
        let scope = Scope::among(
            renewal.outer,
            renewal.body,
            &done.lasts,
            number,
            done.slots.as_slice(),
        );
        account.judge.look_at(&scope, renewal.around, item);
        slot_anew(alloc, lay, &scope, &done.reach.defaults, item, account)?
    };
    done.put(item, slot, Alert::none())
}

/// What is kept of a component whose items are done, under the defaults that reach it. This was kept of it before, and its body became what
/// it is as marks tell. It is laid out anew only if layouts may take something else of it; then its instances are counted.
fn finished_again<L: Lays>(
    alloc: Global,
    lay: &L,
    defaults: &Values,
    component: &Component,
    done: Done,
    before: &Node,
    inside: &BodyMarks,
    placed: &mut u64,
) -> Result<Node, AllocError>
    requires { AddAsSaid before.now.slots done }
    ensures node { (old : Items) (saw sees : Around) → Became L.laying saw before.now.slots inside.now old component.now.body → WasLaidOut L.laying saw component.now.kind old before.now.core → DiffersNoMoreBefore L.laying done.reach.alert inside.now old component.now.body saw sees → IsLike inside.now before.now.slots component.now.body done → defaults.now ≡ sees.defaults → slots_of done.slots.items ≡ (body_of L.laying sees component.now.body).slots → IfOk result (λ n. n ≡ node L.laying sees component.now.kind component.now.body) }
    ensures slots { IfOk result (λ n. n.slots ≡ slots_of done.slots.items) }
    ensures placed { (old : Items) (saw : Around) → Became L.laying saw before.now.slots inside.now old component.now.body → IsLike inside.now before.now.slots component.now.body done → IfOk result (λ n. CountsOn placed.old placed.new (placed_over (are_alike (not (tells_of_width done.reach.alert)) inside.now before.now.slots (slots_of done.slots.items) component.now.body) before.now.core n.core)) }
{
    let likeness = Likeness {
        are_alike: done.is_alike(inside, &component.body, before.slots()),
        is_own_same: done.is_in_place(before.slots()),
        is_inside_same: done.is_same_inside(before.slots()),
    };
    let Done {
        slots,
        reach: _,
        lasts: _,
        are_in_place: _,
        add_same: _,
        are_alike: _,
    } = done;
    finished_over(
        alloc, lay, defaults, component, slots, before, likeness, placed,
    )
}

/// A component that the item at this place holds. This was kept of it before, and its body became what it is as marks tell.
#[cycle(renew)]
fn renewed_component<L: Lays>(
    alloc: Global,
    lay: &L,
    scope: &Scope,
    reach: &Reach,
    before: &Node,
    inside: &BodyMarks,
    component: &Component,
    account: &mut Account,
) -> Result<Node, AllocError>
    ensures node { (old : Items) (saw : Around) → Became L.laying saw before.now.slots inside.now old component.now.body → WasLaidOut L.laying saw component.now.kind old before.now.core → IsReached L.laying (places_of scope.now) saw reach.now → IfOk result (λ n. n ≡ node L.laying (around_places L.laying (places_of scope.now)) component.now.kind component.now.body) }
    ensures clean { (old : Items) (saw : Around) → Became L.laying saw before.now.slots inside.now old component.now.body → IsReached L.laying (places_of scope.now) saw reach.now → OnOk result (IfStillClean account.old.judge.is_clean account.new.judge.is_clean (StaysClean L.laying (places_of scope.now) (Some component.now.kind) saw old component.now.body)) }
    ensures placed { (old : Items) (saw : Around) → Became L.laying saw before.now.slots inside.now old component.now.body → IsReached L.laying (places_of scope.now) saw reach.now → IfOk result (λ n. CountsOn account.old.placed account.new.placed (placed_stayed (in_body component.now.body) (tells_of_width reach.now.alert) inside.now (Some before.now) component.now.body (Some n))) }
{
    let renewal = Renewal {
        outer: Outer::In(&*scope),
        body: &component.body,
        slots: before.slots(),
        around: Some(component.kind),
    };
    let done = renew_body(alloc, lay, &renewal, inside, reach, account)?;
    let defaults = &reach.defaults;
    let placed = &mut account.placed;
    finished_again(
        alloc, lay, defaults, component, done, before, inside, placed,
    )
}

/// The slot of the item at this place, of which this was kept, and inside which this was changed.
#[cycle(renew)]
fn renewed_slot<L: Lays>(
    alloc: Global,
    lay: &L,
    scope: &Scope,
    reach: &Reach,
    kept: Option<Kept>,
    inside: &BodyMarks,
    item: &Item,
    account: &mut Account,
) -> Result<Slot, AllocError>
    ensures slot { (saw : Around) → BecameComponent L.laying saw (option_map kept_of kept.entry) inside.now item.now → IsReached L.laying (places_of scope.now) saw reach.now → IfOk result (λ x. front_of x ≡ slot_there L.laying (places_of scope.now) item.now) }
    ensures clean { (saw : Around) (was_clean : Bool) → BecameClean L.laying saw (option_map kept_of kept.entry) inside.now was_clean item.now → IsReached L.laying (places_of scope.now) saw reach.now → OnOk result (IfStillClean account.old.judge.is_clean account.new.judge.is_clean (was_clean ≡ true → HasNoneInside L.laying (places_of scope.now) item.now)) }
    ensures placed { (saw : Around) → BecameComponent L.laying saw (option_map kept_of kept.entry) inside.now item.now → IsReached L.laying (places_of scope.now) saw reach.now → IfOk result (λ x. CountsOn account.old.placed account.new.placed (stayed_placed (tells_of_width reach.now.alert) inside.now (option_map kept_of kept.entry) (kept_at 0 (front_of x)) item.now)) }
{
    match kept {
        Some(kept) => match kept_component(item) {
            Some(component) => {
                let node = renewed_component(
                    alloc, lay, scope, reach, kept.node, inside, component, account,
                )?;
                slot_with(alloc, item, node)
            }
            None => slot_anew(alloc, lay, scope, &reach.defaults, item, account),
        },
        None => slot_anew(alloc, lay, scope, &reach.defaults, item, account),
    }
}

/// An item more that stayed in order: it had this number, and inside it this was changed.
#[cycle(renew)]
fn renew_stayed<L: Lays>(
    alloc: Global,
    lay: &L,
    renewal: &Renewal,
    done: &mut Done,
    number: usize,
    inside: &BodyMarks,
    item: &Item,
    account: &mut Account,
) -> Result<(), AllocError>
    requires { AreLasts renewal.now.body.now done.old.lasts }
    ensures done { (m : Marks) (old : Items) (saw : Around) (n : ℕ) (firsts : Firsts) → IsNext L.laying (renewing renewal.now m old saw) n done.old item.now (old_item number firsts inside.now) → firsts.is_moved ≡ false → OnOk result (AreDone L.laying (renewing renewal.now m old saw) (suc n) done.new) }
    ensures clean { (m : Marks) (old : Items) (saw : Around) (n : ℕ) (firsts : Firsts) → IsNext L.laying (renewing renewal.now m old saw) n done.old item.now (old_item number firsts inside.now) → firsts.is_moved ≡ false → OnOk result (IfStillClean account.old.judge.is_clean account.new.judge.is_clean (IsCleanStill L.laying (renewing renewal.now m old saw) n item.now)) }
    ensures placed { (m : Marks) (old : Items) (saw : Around) (n : ℕ) (firsts : Firsts) → IsNext L.laying (renewing renewal.now m old saw) n done.old item.now (old_item number firsts inside.now) → firsts.is_moved ≡ false → OnOk result (CountsItem L.laying (renewing renewal.now m old saw) (tells_of_width done.old.reach.alert) n (old_item number firsts inside.now) item.now account.old.placed account.new.placed) }
    ensures properties { OnOk result (done.new.reach.alert.properties ≡ done.old.reach.alert.properties) }
    ensures lasts { AreLasts renewal.now.body.now done.new.lasts }
    ensures likeness { OnOk result (IsLikeAs done.old done.new) }
{
    let kept = kept_slot(renewal.slots, number);
    let slot = {
        let count = done.slots.len();
        let names = names_again(item, kept, &done.reach.alert);
        done.lasts.look(alloc, renewal.body, count, names)?;
        let scope = Scope::among(
            renewal.outer,
            renewal.body,
            &done.lasts,
            count,
            done.slots.as_slice(),
        );
        account.judge.look_at(&scope, renewal.around, item);
        renewed_slot(alloc, lay, &scope, &done.reach, kept, inside, item, account)?
    };
    let raises = raises_behind(item, kept, &slot);
    done.put(item, slot, raises)
}

/// An item more that stayed in order, whose component is as it was. It had this number, and this is its slot.
fn renew_again(
    renewal: &Renewal,
    done: &mut Done,
    number: usize,
    slot: Slot,
    item: &Item,
    account: &mut Account,
) -> Result<(), AllocError>
    requires { AreLasts renewal.now.body.now done.old.lasts }
    ensures done { (lay : Laying) (m : Marks) (old : Items) (saw : Around) (n : ℕ) (firsts : Firsts) (inside : Marks) → IsNext lay (renewing renewal.now m old saw) n done.old item.now (old_item number firsts inside) → firsts.is_moved ≡ false → IsHeldAgain done.old.reach.alert renewal.now.slots.now number inside item.now slot → OnOk result (AreDone lay (renewing renewal.now m old saw) (suc n) done.new) }
    ensures clean { (lay : Laying) (m : Marks) (old : Items) (saw : Around) (n : ℕ) (firsts : Firsts) (inside : Marks) → IsNext lay (renewing renewal.now m old saw) n done.old item.now (old_item number firsts inside) → firsts.is_moved ≡ false → IsHeldAgain done.old.reach.alert renewal.now.slots.now number inside item.now slot → OnOk result (IfStillClean account.old.judge.is_clean account.new.judge.is_clean (IsCleanStill lay (renewing renewal.now m old saw) n item.now)) }
    ensures placed { (lay : Laying) (m : Marks) (old : Items) (saw : Around) (n : ℕ) (firsts : Firsts) (inside : Marks) → IsNext lay (renewing renewal.now m old saw) n done.old item.now (old_item number firsts inside) → firsts.is_moved ≡ false → IsHeldAgain done.old.reach.alert renewal.now.slots.now number inside item.now slot → OnOk result (CountsItem lay (renewing renewal.now m old saw) (tells_of_width done.old.reach.alert) n (old_item number firsts inside) item.now account.old.placed account.new.placed) }
    ensures properties { OnOk result (done.new.reach.alert.properties ≡ done.old.reach.alert.properties) }
    ensures lasts { AreLasts renewal.now.body.now done.new.lasts }
    ensures likeness { OnOk result (IsLikeAs done.old done.new) }
{
    {
        let count = done.slots.len();
        let slots = done.slots.as_slice();
        let scope = Scope::new(renewal.outer, renewal.body, count, slots);
        account.judge.look_at(&scope, renewal.around, item);
    }
    let kept = kept_slot(renewal.slots, number);
    let raises = raises_behind(item, kept, &slot);
    done.put(item, slot, raises)
}

/// An item more that was changed, and stayed in order: it had this number, and inside it this was changed. It is gone into if something was,
/// or if it listens to something that the alert tells of.
#[cycle(renew)]
fn renew_marked<L: Lays>(
    alloc: Global,
    lay: &L,
    renewal: &Renewal,
    done: &mut Done,
    number: usize,
    inside: &BodyMarks,
    item: &Item,
    account: &mut Account,
) -> Result<(), AllocError>
    requires { AreLasts renewal.now.body.now done.old.lasts }
    ensures done { (m : Marks) (old : Items) (saw : Around) (n : ℕ) (firsts : Firsts) → IsNext L.laying (renewing renewal.now m old saw) n done.old item.now (old_item number firsts inside.now) → firsts.is_moved ≡ false → OnOk result (AreDone L.laying (renewing renewal.now m old saw) (suc n) done.new) }
    ensures clean { (m : Marks) (old : Items) (saw : Around) (n : ℕ) (firsts : Firsts) → IsNext L.laying (renewing renewal.now m old saw) n done.old item.now (old_item number firsts inside.now) → firsts.is_moved ≡ false → OnOk result (IfStillClean account.old.judge.is_clean account.new.judge.is_clean (IsCleanStill L.laying (renewing renewal.now m old saw) n item.now)) }
    ensures placed { (m : Marks) (old : Items) (saw : Around) (n : ℕ) (firsts : Firsts) → IsNext L.laying (renewing renewal.now m old saw) n done.old item.now (old_item number firsts inside.now) → firsts.is_moved ≡ false → OnOk result (CountsItem L.laying (renewing renewal.now m old saw) (tells_of_width done.old.reach.alert) n (old_item number firsts inside.now) item.now account.old.placed account.new.placed) }
    ensures properties { OnOk result (done.new.reach.alert.properties ≡ done.old.reach.alert.properties) }
    ensures lasts { AreLasts renewal.now.body.now done.new.lasts }
    ensures likeness { OnOk result (IsLikeAs done.old done.new) }
{
    match slot_again(renewal.slots, number, inside, &done.reach.alert, item)? {
        Some(slot) => renew_again(renewal, done, number, slot, item, account),
        None => renew_stayed(alloc, lay, renewal, done, number, inside, item, account),
    }
}

/// An item more that isn't passed over, which became what it is so.
#[cycle(renew)]
fn renew_other<L: Lays>(
    alloc: Global,
    lay: &L,
    renewal: &Renewal,
    done: &mut Done,
    next: Next,
    item: &Item,
    account: &mut Account,
) -> Result<(), AllocError>
    requires { AreLasts renewal.now.body.now done.old.lasts }
    ensures done { (m : Marks) (old : Items) (saw : Around) (n : ℕ) → IsNext L.laying (renewing renewal.now m old saw) n done.old item.now (next_of next.entry) → OnOk result (AreDone L.laying (renewing renewal.now m old saw) (suc n) done.new) }
    ensures clean { (m : Marks) (old : Items) (saw : Around) (n : ℕ) → IsNext L.laying (renewing renewal.now m old saw) n done.old item.now (next_of next.entry) → OnOk result (IfStillClean account.old.judge.is_clean account.new.judge.is_clean (IsCleanStill L.laying (renewing renewal.now m old saw) n item.now)) }
    ensures placed { (m : Marks) (old : Items) (saw : Around) (n : ℕ) → IsNext L.laying (renewing renewal.now m old saw) n done.old item.now (next_of next.entry) → OnOk result (CountsItem L.laying (renewing renewal.now m old saw) (tells_of_width done.old.reach.alert) n (next_of next.entry) item.now account.old.placed account.new.placed) }
    ensures properties { OnOk result (done.new.reach.alert.properties ≡ done.old.reach.alert.properties) }
    ensures lasts { AreLasts renewal.now.body.now done.new.lasts }
    ensures likeness { OnOk result (IsLikeAs done.old done.new) }
{
    match next {
        Next::New => renew_new(alloc, lay, renewal, done, item, account),
        Next::Same(number) => {
            let unchanged = BodyMarks::new(alloc);
            renew_stayed(alloc, lay, renewal, done, number, &unchanged, item, account)
        }
        Next::Marked(number, mark) => {
            if mark.is_moved {
                renew_new(alloc, lay, renewal, done, item, account)
            } else {
                let inside = &mark.inside;
                renew_marked(alloc, lay, renewal, done, number, inside, item, account)
            }
        }
    }
}

/// An item more, which became what it is so.
#[cycle(renew)]
fn renew_item<L: Lays>(
    alloc: Global,
    lay: &L,
    renewal: &Renewal,
    done: &mut Done,
    next: Next,
    item: &Item,
    account: &mut Account,
) -> Result<(), AllocError>
    requires { AreLasts renewal.now.body.now done.old.lasts }
    ensures done { (m : Marks) (old : Items) (saw : Around) (n : ℕ) → IsNext L.laying (renewing renewal.now m old saw) n done.old item.now (next_of next.entry) → OnOk result (AreDone L.laying (renewing renewal.now m old saw) (suc n) done.new) }
    ensures clean { (m : Marks) (old : Items) (saw : Around) (n : ℕ) → IsNext L.laying (renewing renewal.now m old saw) n done.old item.now (next_of next.entry) → OnOk result (IfStillClean account.old.judge.is_clean account.new.judge.is_clean (IsCleanStill L.laying (renewing renewal.now m old saw) n item.now)) }
    ensures placed { (m : Marks) (old : Items) (saw : Around) (n : ℕ) → IsNext L.laying (renewing renewal.now m old saw) n done.old item.now (next_of next.entry) → OnOk result (CountsItem L.laying (renewing renewal.now m old saw) (tells_of_width done.old.reach.alert) n (next_of next.entry) item.now account.old.placed account.new.placed) }
    ensures properties { OnOk result (done.new.reach.alert.properties ≡ done.old.reach.alert.properties) }
    ensures lasts { AreLasts renewal.now.body.now done.new.lasts }
    ensures in_place { OnOk result (done.new.are_in_place ≡ true → (done.old.are_in_place ≡ true) × IsInPlace (length done.old.slots.items) (next_of next.entry)) }
    ensures add_same { OnOk result (AddsAsSaid (slots_of renewal.now.slots.now) done.old done.new) }
    ensures alike { OnOk result (done.new.are_alike ≡ (done.old.are_alike && is_alike true (slots_of renewal.now.slots.now) (of_last done.old done.new) (next_of next.entry) item.now)) }
{
    let number = done.slots.len();
    renew_other(alloc, lay, renewal, done, next, item, account)?;
    done.liken(number, renewal.slots, next, item);
    Ok(())
}

/// The items of a body of which this became what it is, and which this reaches, when all are done.
#[cycle(renew)]
fn renew_body<L: Lays>(
    alloc: Global,
    lay: &L,
    renewal: &Renewal,
    marks: &BodyMarks,
    reach: &Reach,
    account: &mut Account,
) -> Result<Done, AllocError>
    ensures slots { (old : Items) (saw : Around) → Became L.laying saw (slots_of renewal.now.slots.now) marks.now old renewal.now.body.now → IsReached L.laying (outer_places renewal.now.outer) saw reach.now → IfOk result (λ done. slots_of done.slots.items ≡ slots_there L.laying (outer_places renewal.now.outer) renewal.now.body.now) }
    ensures alert { (old : Items) (saw : Around) → Became L.laying saw (slots_of renewal.now.slots.now) marks.now old renewal.now.body.now → IsReached L.laying (outer_places renewal.now.outer) saw reach.now → IfOk result (λ done. DiffersNoMoreBefore L.laying done.reach.alert marks.now old renewal.now.body.now saw (around_places L.laying (outer_places renewal.now.outer))) }
    ensures clean { (old : Items) (saw : Around) → Became L.laying saw (slots_of renewal.now.slots.now) marks.now old renewal.now.body.now → IsReached L.laying (outer_places renewal.now.outer) saw reach.now → OnOk result (IfStillClean account.old.judge.is_clean account.new.judge.is_clean (StaysClean L.laying (outer_places renewal.now.outer) renewal.now.around saw old renewal.now.body.now)) }
    ensures placed { (old : Items) (saw : Around) → Became L.laying saw (slots_of renewal.now.slots.now) marks.now old renewal.now.body.now → IsReached L.laying (outer_places renewal.now.outer) saw reach.now → IfOk result (λ done. CountsOn account.old.placed account.new.placed (placed_in (tells_of_width reach.now.alert || sets_width marks.now renewal.now.body.now) marks.now (slots_of renewal.now.slots.now) (slots_of done.slots.items) 0 renewal.now.body.now)) }
    ensures add_same { IfOk result (λ done. AddAsSaid (slots_of renewal.now.slots.now) done) }
    ensures width { IfOk result (λ done. tells_of_width done.reach.alert ≡ (tells_of_width reach.now.alert || sets_width marks.now renewal.now.body.now)) }
    ensures likeness { (old : Items) (saw : Around) → Became L.laying saw (slots_of renewal.now.slots.now) marks.now old renewal.now.body.now → IsReached L.laying (outer_places renewal.now.outer) saw reach.now → IfOk result (λ done. IsLike marks.now (slots_of renewal.now.slots.now) renewal.now.body.now done) }
{
    account.judge.look_at_changed(marks, renewal.body);
    let first = Reach {
        defaults: reach.defaults,
        alert: reach.alert.with(raised(marks, renewal.body)),
    };
    let mut done = Done::none(alloc, renewal.body.len(), first)?;
    let front = untouched(marks);
    let items = renewal.body.as_slice();
    let mut along = Along::new(&marks.pieces, marks.behind);
    let mut number = 0;
    while number < items.len() {
        let left = items.len() - number;
        let stretch = along.stretch(&marks.pieces, marks.behind).within(left);
        let passed = done.pass_over(renewal.slots, stretch, front)?;
        along.pass(passed);
        number += passed;
        if number < items.len() {
            let next = along.next(&marks.pieces, marks.behind);
            renew_item(
                alloc,
                lay,
                renewal,
                &mut done,
                next,
                &items[number],
                account,
            )?;
            number += 1;
        }
    }
    Ok(done)
}

/// A map that was renewed: what is kept of it, whether it is known that no item of it has a fault, and how many instances were placed, once
/// for each mode. That count stops at the greatest `u64`.
#[derive(Drop)]
pub struct RenewedMap {
    pub tree: Tree,
    pub is_clean: bool,
    pub placed: u64,
}

/// What is kept of a map over what was kept of it before, where marks tell what became of it. Only bodies in which something was changed,
/// and those that see something of it, are gone into. If no item of the map had a fault, it is told whether it is seen that none has one now.
/// The instances that are laid out anew are counted.
pub fn renewed<L: Lays>(
    alloc: Global,
    lay: &L,
    tree: &Tree,
    marks: &BodyMarks,
    description: &Description,
) -> Result<RenewedMap, AllocError>
    ensures slots { (old : Items) → Describes marks.now old description.now.items → AreInOrder marks.now → tree.now ≡ (body_of L.laying nothing_around old).slots → IfOk result (λ new. new.tree ≡ (body_of L.laying nothing_around description.now.items).slots) }
    ensures nodes { (old : Items) → Describes marks.now old description.now.items → AreInOrder marks.now → tree.now ≡ (body_of L.laying nothing_around old).slots → IfOk result (λ new. HoldsNodes L.laying description.now.items new.tree) }
    ensures clean { (old : Items) → Describes marks.now old description.now.items → AreInOrder marks.now → tree.now ≡ (body_of L.laying nothing_around old).slots → IfOk result (λ new. new.is_clean ≡ true → is_clean_map L.laying old ≡ true → is_clean_map L.laying description.now.items ≡ true) }
    ensures placed { (old : Items) → Describes marks.now old description.now.items → AreInOrder marks.now → tree.now ≡ (body_of L.laying nothing_around old).slots → IfOk result (λ new. new.placed ≡ capped (placed_of marks.now tree.now description.now.items new.tree)) }
{
    let renewal = Renewal {
        outer: Outer::Nowhere,
        body: &description.items,
        slots: tree.slots(),
        around: None,
    };
    let reach = Reach {
        defaults: Values::none(),
        alert: Alert::none(),
    };
    let mut account = Account {
        judge: Judge { is_clean: true },
        placed: 0,
    };
    let done = renew_body(alloc, lay, &renewal, marks, &reach, &mut account)?;
    let Done {
        slots,
        reach: _,
        lasts: _,
        are_in_place: _,
        add_same: _,
        are_alike: _,
    } = done;
    Ok(RenewedMap {
        tree: Tree::of_slots(slots),
        is_clean: account.judge.is_clean,
        placed: account.placed,
    })
}
