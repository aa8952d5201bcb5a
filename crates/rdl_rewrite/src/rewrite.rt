//! The patches that make an edit.
ghost use Rattle.std.specs.Prelude.{◌≡◌, ◌<◌, ◌≤◌, Ok, IfOk, IfErr, IsErrOf, true, is_ok, length};
ghost use Rattle.rdl_tree.specs.Address.{body_at};
ghost use Rattle.rdl_tree.specs.Depth.{depth};
ghost use Rattle.rdl_tree.specs.Weight.{capped};
ghost use Rattle.rdl_tree.specs.Patch.{image, AllFit};
ghost use Rattle.rdl_rewrite.specs.Change.{edited_body};
ghost use Rattle.rdl_rewrite.specs.Patches.{patches, patches_on, item_edit_patches, patches_in, level, level_on, item_edit_level, level_in};
ghost use Rattle.rdl_rewrite.specs.Rewritten.{at_body, of_item, by_way, rewritten};
ghost use Rattle.rdl_rewrite.specs.Refuses.{RefusesEdit};
ghost use Rattle.rdl_rewrite.specs.declared.edit.PatchRefusal.{PatchRefusal};

use crate::body::body_patches;
use crate::edit::{Edit, PatchRefusal};
use crate::removal::remove;
use crate::renaming::rename;
use rdl_tree::address::Address;
use rdl_tree::description::Description;
use rdl_tree::patch::Patch;
use std::alloc::Global;

/// The patches that make the edit, one for each item that it inserts, drops, moves or sets; or the edit's first refusal.
/// Refused with `TooDeep` are new items that would nest over 16 deep; and of a description that nests so as it is, every
/// removal and renaming, and each change of a body at a level over 16. An address could hold no more.
pub fn patches(
    alloc: Global,
    description: &Description,
    edit: &Edit,
) -> Result<Vec<Patch>, PatchRefusal>
    ensures made { IfOk result (λ ps. rewritten description.now.items edit.now ≡ Ok (image ps.items description.now.items)) }
    ensures fit { IfOk result (λ ps. AllFit ps.items description.now.items) }
    ensures which { IfOk result (λ ps. ps.items ≡ patches description.now.items edit.now) }
    ensures level { IfOk result (λ _. level description.now.items edit.now ≤ 16) }
    ensures too_deep { IsErrOf result PatchRefusal.TooDeep → 16 < level description.now.items edit.now }
    ensures refused { IfErr result (λ refusal. RefusesEdit description.now.items (rewritten description.now.items edit.now) refusal) }
{
    patches_of(alloc, description, edit, false)
}

/// The same patches, or the same refusal, of a description that nests at most 16 deep, as one that has rows. How deep it nests
/// isn't looked at.
pub fn patches_of_shallow(
    alloc: Global,
    description: &Description,
    edit: &Edit,
) -> Result<Vec<Patch>, PatchRefusal>
    requires { depth description.now.items ≤ 16 }
    ensures made { IfOk result (λ ps. rewritten description.now.items edit.now ≡ Ok (image ps.items description.now.items)) }
    ensures fit { IfOk result (λ ps. AllFit ps.items description.now.items) }
    ensures which { IfOk result (λ ps. ps.items ≡ patches description.now.items edit.now) }
    ensures level { IfOk result (λ _. level description.now.items edit.now ≤ 16) }
    ensures too_deep { IsErrOf result PatchRefusal.TooDeep → 16 < level description.now.items edit.now }
    ensures refused { IfErr result (λ refusal. RefusesEdit description.now.items (rewritten description.now.items edit.now) refusal) }
{
    patches_of(alloc, description, edit, true)
}

/// The same. The description may be known to nest at most 16 deep.
fn patches_of(
    alloc: Global,
    description: &Description,
    edit: &Edit,
    is_shallow: bool,
) -> Result<Vec<Patch>, PatchRefusal>
    requires { is_shallow ≡ true → depth description.now.items ≤ 16 }
    ensures made { IfOk result (λ ps. rewritten description.now.items edit.now ≡ Ok (image ps.items description.now.items)) }
    ensures fit { IfOk result (λ ps. AllFit ps.items description.now.items) }
    ensures which { IfOk result (λ ps. ps.items ≡ patches description.now.items edit.now) }
    ensures level { IfOk result (λ _. level description.now.items edit.now ≤ 16) }
    ensures too_deep { IsErrOf result PatchRefusal.TooDeep → 16 < level description.now.items edit.now }
    ensures refused { IfErr result (λ refusal. RefusesEdit description.now.items (rewritten description.now.items edit.now) refusal) }
{
    let way = description.find(edit.path())?;
    patches_on(alloc, description, &way, edit, is_shallow)
}

/// The patches, where the edit's path leads to this address.
fn patches_on(
    alloc: Global,
    whole: &Description,
    way: &Address,
    edit: &Edit,
    is_shallow: bool,
) -> Result<Vec<Patch>, PatchRefusal>
    requires { is_shallow ≡ true → depth whole.now.items ≤ 16 }
    ensures which { IfOk result (λ ps. ps.items ≡ patches_on (Ok way.now) whole.now.items edit.now) }
    ensures accepted { IfOk result (λ _. is_ok (by_way (Ok way.now) whole.now.items edit.now) ≡ true) }
    ensures level { IfOk result (λ _. level_on (Ok way.now) whole.now.items edit.now ≤ 16) }
    ensures too_deep { IsErrOf result PatchRefusal.TooDeep → 16 < level_on (Ok way.now) whole.now.items edit.now }
    ensures refused { IfErr result (λ refusal. RefusesEdit whole.now.items (by_way (Ok way.now) whole.now.items edit.now) refusal) }
{
    if !edit.is_of_item() {
        return patches_in(alloc, whole, way, 0, edit);
    }
    if way.is_empty() {
        return Err(PatchRefusal::NotAnInstance);
    }
    item_edit_patches(alloc, whole, way, edit, is_shallow)
}

/// The patches of an edit of the item at the address.
fn item_edit_patches(
    alloc: Global,
    whole: &Description,
    way: &Address,
    edit: &Edit,
    is_shallow: bool,
) -> Result<Vec<Patch>, PatchRefusal>
    requires item { 0 < length way.now }
    requires shallow { is_shallow ≡ true → depth whole.now.items ≤ 16 }
    ensures which { IfOk result (λ ps. ps.items ≡ item_edit_patches whole.now.items way.now edit.now) }
    ensures accepted { IfOk result (λ _. is_ok (of_item way.now whole.now.items edit.now) ≡ true) }
    ensures level { IfOk result (λ _. item_edit_level whole.now.items way.now edit.now ≤ 16) }
    ensures too_deep { IsErrOf result PatchRefusal.TooDeep → 16 < item_edit_level whole.now.items way.now edit.now }
    ensures refused { IfErr result (λ refusal. RefusesEdit whole.now.items (of_item way.now whole.now.items edit.now) refusal) }
{
    match edit {
        Edit::Remove(_) => remove(alloc, whole, way, is_shallow),
        Edit::Rename(_, name) => rename(alloc, whole, way, name, is_shallow),
        _ => patches_in(alloc, whole, &way.holder(), way.number(), edit),
    }
}

/// The patches of an edit of the body at the address.
fn patches_in(
    alloc: Global,
    whole: &Description,
    way: &Address,
    number: usize,
    edit: &Edit,
) -> Result<Vec<Patch>, PatchRefusal>
    ensures which { IfOk result (λ ps. ps.items ≡ patches_in way.now number edit.now (body_at way.now whole.now.items)) }
    ensures accepted { IfOk result (λ _. is_ok (at_body way.now whole.now.items (edited_body whole.now.items number edit.now)) ≡ true) }
    ensures level { IfOk result (λ _. level_in way.now edit.now ≤ 16) }
    ensures too_deep { IsErrOf result PatchRefusal.TooDeep → 16 < level_in way.now edit.now }
    ensures refused { IfErr result (λ refusal. RefusesEdit whole.now.items (at_body way.now whole.now.items (edited_body whole.now.items number edit.now)) refusal) }
{
    let Some(body) = whole.body(way) else {
        return Err(PatchRefusal::ThroughNamedType);
    };
    if way.len() > 16 {
        return Err(PatchRefusal::TooDeep);
    }
    let patches = body_patches(alloc, &whole.items, way, number, edit, body)?;
    if level_in(way, edit) > 16 {
        return Err(PatchRefusal::TooDeep);
    }
    Ok(patches)
}

/// The level of the innermost body that an edit of the body on the way changes or puts in.
fn level_in(way: &Address, edit: &Edit) -> u64
    ensures { result ≡ capped (level_in way.now edit.now) }
{
    match edit {
        Edit::Add(_, _, new) => new.depth().saturating_add(way.len() as u64),
        _ => way.len() as u64,
    }
}
