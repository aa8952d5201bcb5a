//! The value of a property.
ghost use Rattle.std.specs.Prelude.{◌≡◌, ◌==◌, ◌&&◌, ℕ, ◌≤◌, ◌<◌, List, Option, Some, None, IfOk, IfSome, option_copied, option_map, option_and_then, bytes_eq, drop, if◌then◌else◌};
ghost use Rattle.std.specs.Option.{option_or};
ghost use Rattle.rdl_tree.specs.ItemAt.{item_at};
ghost use Rattle.rdl_tree.specs.Depth.{depth};
ghost use Rattle.rdl_tree.specs.Address.{body_at};
ghost use Rattle.rdl_tree.specs.Properties.{row};
ghost use Rattle.rdl_scope.specs.Types.{component_at};
ghost use Rattle.rdl_scope.specs.Target.{passes, body_of};
ghost use Rattle.rdl_scope.specs.Value.{value_along, own_value, own_before, last_default, nearest_default, stated_value, built_in_value, component_value, leads_to, assigned_in, assigned, item_reset, instance_reset, path_value, is_false, shown, path_below, end_of, value_of_kind, is_define, value};
ghost use Rattle.rdl_scope.specs.Walk.{owned_by, defaulted_by, assigned_by};

use crate::targets::{body_of, passes};
use crate::types::{component_at, component_of, items_in};
use rdl_text::name::Name;
use rdl_tree::address::Address;
use rdl_tree::description::{Body, Component, Description, Item};
use rdl_tree::find::item_at;
use rdl_tree::properties::property;
use rdl_tree::property::{Form, Property};
use rdl_tree::value::Value;
use std::alloc::{AllocError, Global};

fn owned<'a>(item: Option<&'a Item>, name: &str) -> Option<&'a Value>
    ensures { option_copied result ≡ owned_by name.now (option_copied item.entry) }
{
    match item {
        Some(Item::Own(property, value)) if property.as_str() == name => Some(value),
        _ => None,
    }
}

fn defaulted<'a>(item: Option<&'a Item>, name: &str) -> Option<&'a Value>
    ensures { option_copied result ≡ defaulted_by name.now (option_copied item.entry) }
{
    match item {
        Some(Item::Default(property, value)) if property.as_str() == name => Some(value),
        _ => None,
    }
}

/// The first of the two that is there.
fn either<'a>(first: Option<&'a Value>, second: Option<&'a Value>) -> Option<&'a Value>
    ensures { option_copied result ≡ option_or (option_copied first.entry) (option_copied second.entry) }
{
    match first {
        Some(value) => Some(value),
        None => second,
    }
}

/// The own assignment of the property among the first `n` items.
#[tactic(auto, using(crate::proofs::ValueSearches::steps))]
pub fn own_before<'a>(body: &'a Body, n: usize, name: &str) -> Option<&'a Value>
    ensures { option_copied result ≡ own_before name.now n body.now }
{
    let mut first = None;
    for i in 0..n {
        first = either(first, owned(body.item(i), name));
    }
    first
}

/// The own assignment of the property in a body.
#[tactic(auto, using(crate::proofs::ValueSearches::steps))]
pub fn own_value<'a>(body: &'a Body, name: &str) -> Option<&'a Value>
    ensures { option_copied result ≡ own_value name.now body.now }
{
    own_before(body, body.len(), name)
}

/// The last default of the property among the first `n` items.
#[tactic(auto, using(crate::proofs::ValueSearches::steps))]
pub fn last_default<'a>(body: &'a Body, n: usize, name: &str) -> Option<&'a Value>
    ensures { option_copied result ≡ last_default name.now n body.now }
{
    let mut last = None;
    for i in 0..n {
        last = either(defaulted(body.item(i), name), last);
    }
    last
}

/// The default that reaches the component of the item at this path.
fn nearest_default<'a>(body: &'a Body, path: &[usize], name: &str) -> Option<&'a Value>
    ensures { option_copied result ≡ nearest_default path.now body.now name.now }
{
    match path {
        [] => None,
        [number, rest @ ..] => {
            let inside = match body.inner(*number) {
                Some(deeper) => nearest_default(deeper, rest, name),
                None => None,
            };
            either(inside, last_default(body, *number, name))
        }
    }
}

/// What the text says of the component that the item at this address holds.
fn stated_value<'a>(
    description: &'a Description,
    address: &Address,
    name: &str,
) -> Option<&'a Value>
    ensures { option_copied result ≡ stated_value description.now.items address.now name.now }
{
    let own = match description.body(address) {
        Some(body) => own_value(body, name),
        None => None,
    };
    either(
        own,
        nearest_default(&description.items, address.as_slice(), name),
    )
}

/// The built-in value of the component that the item at this address holds.
fn built_in_value(
    alloc: Global,
    description: &Description,
    address: &Address,
    property: Property,
) -> Result<Option<Value>, AllocError>
    ensures { IfOk result (λ v. v ≡ built_in_value description.now.items address.now property) }
{
    match property {
        Property::Accesswidth => {
            match stated_value(description, address, Property::Regwidth.name()) {
                Some(value) => Ok(Some(value.try_copy(alloc)?)),
                None => Ok(Property::Regwidth.built_in()),
            }
        }
        _ => Ok(property.built_in()),
    }
}

fn component_value(
    alloc: Global,
    description: &Description,
    address: &Address,
    property: Property,
) -> Result<Option<Value>, AllocError>
    ensures { IfOk result (λ v. v ≡ component_value description.now.items address.now property) }
{
    match stated_value(description, address, property.name()) {
        Some(value) => Ok(Some(value.try_copy(alloc)?)),
        None => built_in_value(alloc, description, address, property),
    }
}

fn leads_to(path: &[Address], found: Option<Vec<Address>>) -> bool
    ensures { result ≡ leads_to path.now (option_map (λ v. v.items) found) }
{
    match found {
        Some(passed) => passed.as_slice() == path,
        None => false,
    }
}

/// What item `n` of the body at this address assigns to the property of the path.
fn assigned_by<'a>(
    alloc: Global,
    description: &Description,
    body: &Address,
    n: usize,
    item: &'a Item,
    name: &str,
    path: &[Address],
) -> Result<Option<&'a Value>, AllocError>
    requires { depth description.now.items ≤ 16 }
    ensures { IfOk result (λ v. option_copied v ≡ assigned_by description.now.items body.now n name.now path.now (Some item.now)) }
{
    match item {
        Item::Dynamic(target, property, value) if property.as_str() == name => {
            let passed = passes(alloc, description, body, n, target.names())?;
            if leads_to(path, passed) {
                Ok(Some(value))
            } else {
                Ok(None)
            }
        }
        _ => Ok(None),
    }
}

/// What the items of the body at this address assign to the property of the path.
#[tactic(auto, using(crate::proofs::OuterAssignments::steps))]
fn assigned_in<'a>(
    alloc: Global,
    description: &Description,
    address: &Address,
    body: &'a Body,
    name: &str,
    path: &[Address],
) -> Result<Option<&'a Value>, AllocError>
    requires { depth description.now.items ≤ 16 }
    ensures { IfOk result (λ v. option_copied v ≡ assigned_in description.now.items address.now 0 name.now path.now body.now) }
{
    'items: for (i, item) in body.as_slice().iter().enumerate() {
        let assigned = assigned_by(alloc, description, address, i, item, name, path)?;
        if let Some(value) = assigned {
            return Ok(Some(value));
        }
    }
    Ok(None)
}

/// What the body that holds this instance assigns to the property of the path.
fn assigned_around<'a>(
    alloc: Global,
    description: &'a Description,
    instance: &Address,
    name: &str,
    path: &[Address],
) -> Result<Option<&'a Value>, AllocError>
    requires { depth description.now.items ≤ 16 }
    ensures { IfOk result (λ v. option_copied v ≡ option_and_then (λ t. assigned_in description.now.items (body_of instance.now) 0 name.now path.now t) (body_at (body_of instance.now) description.now.items)) }
{
    let address = body_of(instance);
    match description.body(&address) {
        Some(body) => assigned_in(alloc, description, &address, body, name, path),
        None => Ok(None),
    }
}

/// What the outermost dynamic assignment assigns to the property of the path.
#[tactic(auto, using(crate::proofs::OuterAssignments::steps))]
fn assigned<'a>(
    alloc: Global,
    description: &'a Description,
    name: &str,
    path: &[Address],
) -> Result<Option<&'a Value>, AllocError>
    requires { depth description.now.items ≤ 16 }
    ensures { IfOk result (λ v. option_copied v ≡ assigned description.now.items name.now path.now) }
{
    for i in 0..path.len() {
        let around = assigned_around(alloc, description, &path[i], name, &path[i..])?;
        if let Some(value) = around {
            return Ok(Some(value));
        }
    }
    Ok(None)
}

fn item_reset(item: Option<&Item>) -> Option<Value>
    ensures { result ≡ option_and_then item_reset (option_copied item.entry) }
{
    match item {
        Some(Item::Instance(shell, _)) => match shell.reset() {
            Some(number) => Some(Value::Number(number)),
            None => None,
        },
        _ => None,
    }
}

/// For `reset`, the number behind the `=` of the last instance.
#[tactic(auto, using(crate::proofs::OuterAssignments::ends))]
fn instance_reset(description: &Description, property: Property, path: &[Address]) -> Option<Value>
    ensures { result ≡ instance_reset description.now.items property path.now }
{
    match (property, path) {
        (Property::Reset, [.., last]) => item_reset(item_at(&description.items, last.as_slice())),
        _ => None,
    }
}

/// The value by the five rules, for a path that ends at the component that the item at this address holds.
fn path_value(
    alloc: Global,
    description: &Description,
    path: &[Address],
    component: &Address,
    property: Property,
) -> Result<Option<Value>, AllocError>
    requires { depth description.now.items ≤ 16 }
    ensures { IfOk result (λ v. v ≡ path_value description.now.items path.now component.now property) }
{
    let assigned = assigned(alloc, description, property.name(), path)?;
    if let Some(value) = assigned {
        return Ok(Some(value.try_copy(alloc)?));
    }
    match instance_reset(description, property, path) {
        Some(value) => Ok(Some(value)),
        None => component_value(alloc, description, component, property),
    }
}

/// Whether it is `false` or 0.
pub(crate) fn is_false(value: &Value) -> bool
    ensures { result ≡ is_false value.now }
{
    match value {
        Value::Bool(answer) => !*answer,
        Value::Number(number) => *number == 0,
        Value::Text(_) | Value::Word(_) => false,
    }
}

/// The value as a row holds it: a boolean as `true` or `false`.
pub fn shown(form: Form, value: Value) -> Value
    ensures { result ≡ shown form value }
{
    match form {
        Form::Booleans | Form::OnlyTrue => Value::Bool(!is_false(&value)),
        _ => value,
    }
}

fn shown_option(form: Form, value: Option<Value>) -> Option<Value>
    ensures { result ≡ option_map (shown form) value }
{
    match value {
        Some(value) => Some(shown(form, value)),
        None => None,
    }
}

fn value_of_kind(
    alloc: Global,
    description: &Description,
    path: &[Address],
    address: &Address,
    property: Property,
    component: &Component,
) -> Result<Option<Value>, AllocError>
    requires { depth description.now.items ≤ 16 }
    ensures { IfOk result (λ v. v ≡ value_of_kind description.now.items path.now address.now property component.now) }
{
    if property.on(component.kind) {
        let value = path_value(alloc, description, path, address, property)?;
        Ok(shown_option(property.form(), value))
    } else {
        Ok(None)
    }
}

fn path_below(
    alloc: Global,
    description: &Description,
    top: &Address,
    names: &[Name],
) -> Result<Option<Vec<Address>>, AllocError>
    requires { depth description.now.items ≤ 16 }
    ensures { IfOk result (λ path. option_map (λ v. v.items) path ≡ path_below description.now.items top.now names.now) }
{
    match names {
        [] => Ok(Some(Vec::new(alloc))),
        [_, ..] => passes(alloc, description, top, items_in(description, top), names),
    }
}

/// The item that holds the component at the end of a path below the component at `top`.
#[tactic(auto, using(crate::proofs::OuterAssignments::ends))]
fn end_of(description: &Description, top: &Address, path: &[Address]) -> Option<Address>
    ensures { result ≡ end_of description.now.items top.now path.now }
{
    match path {
        [] => Some(top.copy()),
        [.., last] => component_of(description, last),
    }
}

fn value_along(
    alloc: Global,
    description: &Description,
    top: &Address,
    property: Property,
    path: &[Address],
) -> Result<Option<Value>, AllocError>
    requires { depth description.now.items ≤ 16 }
    ensures { IfOk result (λ v. v ≡ value_along description.now.items top.now property path.now) }
{
    let Some(address) = end_of(description, top, path) else {
        return Ok(None);
    };
    match component_at(description, &address) {
        Some(component) => {
            value_of_kind(alloc, description, path, &address, property, component)
        }
        None => Ok(None),
    }
}

fn is_define(item: Option<&Item>) -> bool
    ensures { result ≡ is_define (option_copied item.entry) }
{
    matches!(item, Some(Item::Define(_, _)))
}

/// The value of the property of this name of the instance to which the names lead below the definition at `top`, as a
/// row holds it. It is `None` where there is no such instance, where its kind has no such property, and where it has
/// no value. An editor has these values from its rows: this call is for who wants one value and no rows.
pub fn value(
    alloc: Global,
    description: &Description,
    top: &Address,
    path: &[Name],
    name: &str,
) -> Result<Option<Value>, AllocError>
    requires { depth description.now.items ≤ 16 }
    ensures { IfOk result (λ v. v ≡ value description.now.items top.now path.now name.now) }
{
    if !is_define(item_at(&description.items, top.as_slice())) {
        return Ok(None);
    }
    let Some(property) = property(name) else {
        return Ok(None);
    };
    match path_below(alloc, description, top, path)? {
        Some(path) => value_along(alloc, description, top, property, path.as_slice()),
        None => Ok(None),
    }
}
