//! The instances that a target passes.
ghost use Rattle.std.specs.Prelude.{◌≡◌, ℕ, ◌≤◌, ◌<◌, ◌+◌, IfOk, IfSome, option_copied, option_map};
ghost use Rattle.rdl_tree.specs.Depth.{depth};
ghost use Rattle.rdl_scope.specs.Target.{instance_before, instance_in, passes, body_of, through};
ghost use Rattle.rdl_scope.specs.Walk.{is_instance};

use crate::types::{component_of, items_in, prefix};
use rdl_text::name::Name;
use rdl_tree::address::Address;
use rdl_tree::description::{Body, Description, Item};
use rdl_tree::find::item_at;
use std::alloc::{AllocError, Global};

/// Whether the item is an instance of this name.
pub fn is_instance(item: Option<&Item>, name: &Name) -> bool
    ensures { result ≡ is_instance name.now (option_copied item.entry) }
{
    match item {
        Some(Item::Instance(shell, _)) => shell.name() == name,
        _ => false,
    }
}

/// The number of the instance of the name among the first `n` items.
#[tactic(auto, using(crate::proofs::Instances::steps))]
pub fn instance_before(body: &Body, n: usize, name: &Name) -> Option<usize>
    ensures { result ≡ instance_before name.now n body.now }
{
    for i in 0..n {
        if is_instance(body.item(i), name) {
            return Some(i);
        }
    }
    None
}

/// The address of the instance of the name among the first `n` items of the body at this address.
#[tactic(auto, using(crate::proofs::Depths::levels))]
pub(crate) fn instance_in(
    description: &Description,
    body: &Address,
    n: usize,
    name: &Name,
) -> Option<Address>
    requires { depth description.now.items ≤ 16 }
    ensures { result ≡ instance_in description.now.items body.now n name.now }
{
    let number = instance_before(description.body(body)?, n, name)?;
    Some(body.inside(number))
}

/// The instances that the names pass, the first of them among the first `n` items of the body at this address.
#[tactic(auto, using(crate::proofs::Passing::steps))]
pub fn passes(
    alloc: Global,
    description: &Description,
    body: &Address,
    n: usize,
    names: &[Name],
) -> Result<Option<Vec<Address>>, AllocError>
    requires { depth description.now.items ≤ 16 }
    ensures { IfOk result (λ path. option_map (λ v. v.items) path ≡ passes description.now.items body.now n names.now) }
{
    let mut path = Vec::new(alloc);
    let mut here = body.copy();
    let mut before = n;
    for i in 0..names.len() {
        let Some(instance) = instance_in(description, &here, before, &names[i]) else {
            return Ok(None);
        };
        path.push(instance.copy())?;
        if i + 1 == names.len() {
            return Ok(Some(path));
        }
        let Some(component) = component_of(description, &instance) else {
            return Ok(None);
        };
        before = items_in(description, &component);
        here = component;
    }
    Ok(None)
}

/// The address of the body that holds the item at this address.
#[tactic(auto, using(crate::proofs::Bodies::ends))]
pub(crate) fn body_of(address: &Address) -> Address
    ensures { result ≡ body_of address.now }
{
    let path = address.as_slice();
    match path.len() {
        0 => Address::new(),
        n => prefix(path, n - 1),
    }
}

/// The instances that the target of the dynamic item at this address passes. Another item passes none.
#[tactic(auto, using(crate::proofs::Bodies::ends))]
pub fn through(
    alloc: Global,
    description: &Description,
    address: &Address,
) -> Result<Option<Vec<Address>>, AllocError>
    requires { depth description.now.items ≤ 16 }
    ensures { IfOk result (λ path. option_map (λ v. v.items) path ≡ through description.now.items address.now) }
{
    let path = address.as_slice();
    match item_at(&description.items, path) {
        Some(Item::Dynamic(target, _, _)) => match path {
            [] => Ok(None),
            [.., number] => {
                passes(
                    alloc,
                    description,
                    &body_of(address),
                    *number,
                    target.names(),
                )
            }
        },
        _ => Ok(None),
    }
}
