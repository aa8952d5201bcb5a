//! The assignments of a body to what stands inside its instances.
ghost use Rattle.std.specs.Prelude.{◌≡◌, ◌<◌, length, true, is_ok, IfOk, IfErr};
ghost use Rattle.std.specs.List.{position};
ghost use Rattle.rdl_tree.specs.View.{list_of};
ghost use Rattle.rdl_rewrite.specs.Dynamics.{assigns_to, unassigned};
ghost use Rattle.rdl_rewrite.specs.Patches.{set_dynamic, drop_at};
ghost use Rattle.rdl_rewrite.specs.Refuses.{Refuses};

use crate::edit::PatchRefusal;
use crate::patch::one;
use rdl_scope::apart::begin_apart;
use rdl_text::name::Name;
use rdl_tree::address::Address;
use rdl_tree::description::{Body, Item};
use rdl_tree::part::Part;
use rdl_tree::patch::Patch;
use rdl_tree::patch_address::PatchAddress;
use rdl_tree::target::Target;
use rdl_tree::value::Value;
use std::alloc::{AllocError, Global};

fn assigns_to(target: &Target, property: &Name, item: &Item) -> bool
    ensures { result ≡ assigns_to target.now property.now item.now }
{
    match item {
        Item::Dynamic(names, assigned, _) => {
            !begin_apart(names.names(), target.names())
                && assigned == property
                && names.names() == target.names()
        }
        _ => false,
    }
}

/// The number of the body's assignment of the target's property.
fn position_of(target: &Target, property: &Name, body: &Body) -> Option<usize>
    ensures { result ≡ position (assigns_to target.now property.now) (list_of body.now) }
{
    body.as_slice()
        .iter()
        .position(|item| assigns_to(target, property, item))
}

fn dynamic(
    alloc: Global,
    target: &Target,
    property: &Name,
    value: &Value,
) -> Result<Item, AllocError>
    ensures { IfOk result (λ item. item ≡ Item.Dynamic target.now property.now value.now) }
{
    let property = property.try_copy(alloc)?;
    let value = value.try_copy(alloc)?;
    Ok(Item::Dynamic(target.try_copy(alloc)?, property, value))
}

/// Gives the assignment of the target's property in the body on the way the value, or puts a new one behind all items.
pub fn assign(
    alloc: Global,
    way: &Address,
    target: &Target,
    property: &Name,
    value: &Value,
    body: &Body,
) -> Result<Vec<Patch>, AllocError>
    requires { length way.now < 17 }
    ensures { IfOk result (λ ps. ps.items ≡ set_dynamic way.now target.now property.now value.now (list_of body.now)) }
{
    match position_of(target, property, body) {
        Some(number) => {
            let value = value.try_copy(alloc)?;
            let at = PatchAddress::new(alloc, &way.inside(number))?;
            one(alloc, Patch::Exchange(at, Part::OfValue(value)))
        }
        None => {
            let item = dynamic(alloc, target, property, value)?;
            let at = PatchAddress::new(alloc, &way.inside(body.len()))?;
            one(alloc, Patch::Insert(at, item))
        }
    }
}

/// Takes the assignment of the target's property out of the body on the way.
pub fn unassign(
    alloc: Global,
    way: &Address,
    target: &Target,
    property: &Name,
    body: &Body,
) -> Result<Vec<Patch>, PatchRefusal>
    requires room { length way.now < 17 }
    ensures which { IfOk result (λ ps. ps.items ≡ drop_at way.now (position (assigns_to target.now property.now) (list_of body.now))) }
    ensures accepted { IfOk result (λ _. is_ok (unassigned target.now property.now body.now) ≡ true) }
    ensures refused { IfErr result (λ refusal. Refuses (unassigned target.now property.now body.now) refusal) }
{
    match position_of(target, property, body) {
        Some(number) => {
            let at = PatchAddress::new(alloc, &way.inside(number))?;
            Ok(one(alloc, Patch::Delete(at))?)
        }
        None => Err(PatchRefusal::NotSet),
    }
}
