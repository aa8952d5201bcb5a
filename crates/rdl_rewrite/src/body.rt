//! The patches of an edit of one body.
ghost use Rattle.std.specs.Prelude.{◌≡◌, ◌<◌, ◌+◌, ◌^◌, length, true, is_ok, IfOk, IfErr};
ghost use Rattle.std.specs.List.{list_all};
ghost use Rattle.rdl_tree.specs.Edit.{remove_item};
ghost use Rattle.rdl_tree.specs.View.{list_of};
ghost use Rattle.rdl_rewrite.specs.Change.{is_component, taken, added, moved, edited_body};
ghost use Rattle.rdl_rewrite.specs.Patches.{inserts, inserts_at, move, body_patches};
ghost use Rattle.rdl_rewrite.specs.Place.{place_number};
ghost use Rattle.rdl_rewrite.specs.Refuses.{Refuses};

use crate::assignment::{Sort, clear, set};
use crate::dynamics::{assign, unassign};
use crate::edit::{Edit, PatchRefusal};
use crate::names::{definition_taken, instance_taken};
use crate::patch::one;
use crate::place::Place;
use crate::shell::reshape;
use rdl_tree::address::Address;
use rdl_tree::description::{Body, Item};
use rdl_tree::patch::{Patch, address_behind};
use rdl_tree::patch_address::PatchAddress;
use std::alloc::{AllocError, Global};

fn are_components(items: &Body) -> bool
    ensures { result ≡ list_all is_component (list_of items.now) }
{
    items.as_slice().iter().all(|item| matches!(item, Item::Define(..) | Item::Instance(..)))
}

fn are_taken(alloc: Global, whole: &Body, new: &Body, body: &Body) -> Result<bool, AllocError>
    ensures { IfOk result (λ answer. answer ≡ taken whole.now new.now body.now) }
{
    if definition_taken(alloc, new, whole)? {
        return Ok(true);
    }
    instance_taken(alloc, new, body)
}

/// Puts copies of the items into the body on the way, the first where it gets this number.
fn inserts(
    alloc: Global,
    way: &Address,
    number: usize,
    items: &[Item],
) -> Result<Vec<Patch>, AllocError>
    requires room { length way.now < 17 }
    requires numbers { number + length items.now < 2 ^ 64 }
    ensures { IfOk result (λ ps. ps.items ≡ inserts way.now number items.now) }
{
    let mut patches = Vec::with_capacity(alloc, items.len())?;
    'items: for (i, item) in items.iter().enumerate() {
        let copy = item.try_copy(alloc)?;
        let at = address_behind(alloc, patches.as_slice(), way, number + i)?;
        patches.push(Patch::Insert(at, copy))?;
    }
    Ok(patches)
}

fn add(
    alloc: Global,
    whole: &Body,
    way: &Address,
    place: &Place,
    new: &Body,
    body: &Body,
) -> Result<Vec<Patch>, PatchRefusal>
    requires room { length way.now < 17 }
    ensures which { IfOk result (λ ps. ps.items ≡ inserts_at way.now (place_number place.now (list_of body.now)) (list_of new.now)) }
    ensures accepted { IfOk result (λ _. is_ok (added whole.now place.now new.now body.now) ≡ true) }
    ensures refused { IfErr result (λ refusal. Refuses (added whole.now place.now new.now body.now) refusal) }
{
    if !are_components(new) {
        return Err(PatchRefusal::NotAddable);
    }
    let Some(number) = place.number(body) else {
        return Err(PatchRefusal::NoSuchSibling);
    };
    if are_taken(alloc, whole, new, body)? {
        return Err(PatchRefusal::NameTaken);
    }
    // A slice is shorter than half of all numbers, so no new number is too large.
    let _old = body.as_slice();
    Ok(inserts(alloc, way, number, new.as_slice())?)
}

/// Takes the item of this number out of the body on the way and puts it in again among the others.
fn shift(
    alloc: Global,
    way: &Address,
    number: usize,
    place: &Place,
    body: &Body,
) -> Result<Vec<Patch>, PatchRefusal>
    requires room { length way.now < 17 }
    ensures which { IfOk result (λ ps. ps.items ≡ move way.now number (place_number place.now (list_of (remove_item number body.now)))) }
    ensures accepted { IfOk result (λ _. is_ok (moved place.now number body.now) ≡ true) }
    ensures refused { IfErr result (λ refusal. Refuses (moved place.now number body.now) refusal) }
{
    if number >= body.len() {
        return Err(PatchRefusal::NotAnInstance);
    }
    match place.number_among(number, body) {
        Some(to) => {
            let at = PatchAddress::new(alloc, &way.inside(number))?;
            Ok(one(alloc, Patch::Shift(at, to))?)
        }
        None => Err(PatchRefusal::NoSuchSibling),
    }
}

/// The patches for the body on the way. The number is that of the item, for an edit of an item; `whole` is the whole
/// description.
pub fn body_patches(
    alloc: Global,
    whole: &Body,
    way: &Address,
    number: usize,
    edit: &Edit,
    body: &Body,
) -> Result<Vec<Patch>, PatchRefusal>
    requires { length way.now < 17 }
    ensures which { IfOk result (λ ps. ps.items ≡ body_patches way.now number edit.now body.now) }
    ensures accepted { IfOk result (λ _. is_ok (edited_body whole.now number edit.now body.now) ≡ true) }
    ensures refused { IfErr result (λ refusal. Refuses (edited_body whole.now number edit.now body.now) refusal) }
{
    match edit {
        Edit::Add(_, place, new) => add(alloc, whole, way, place, new, body),
        Edit::Move(_, place) => shift(alloc, way, number, place, body),
        Edit::Resize(..) => reshape(alloc, way, number, edit, body),
        Edit::SetBits(..) => reshape(alloc, way, number, edit, body),
        Edit::SetAddress(..) => reshape(alloc, way, number, edit, body),
        Edit::SetStride(..) => reshape(alloc, way, number, edit, body),
        Edit::SetAlign(..) => reshape(alloc, way, number, edit, body),
        Edit::SetReset(..) => reshape(alloc, way, number, edit, body),
        Edit::SetOwn(_, property, value) => Ok(set(alloc, way, Sort::Own, property, value, body)?),
        Edit::SetDefault(_, property, value) => {
            Ok(set(alloc, way, Sort::Default, property, value, body)?)
        }
        Edit::ClearOwn(_, property) => clear(alloc, way, Sort::Own, property, body),
        Edit::ClearDefault(_, property) => clear(alloc, way, Sort::Default, property, body),
        Edit::Assign(_, target, property, value) => {
            Ok(assign(alloc, way, target, property, value, body)?)
        }
        Edit::Unassign(_, target, property) => unassign(alloc, way, target, property, body),
        Edit::Remove(..) => reshape(alloc, way, number, edit, body),
        Edit::Rename(..) => reshape(alloc, way, number, edit, body),
    }
}
