//! The names that an edit may not use again.
ghost use Rattle.std.specs.Prelude.{◌≡◌, ◌++◌, map, true, IfOk, MatchOption};
ghost use Rattle.std.specs.List.{list_any};
ghost use Rattle.rdl_tree.specs.Items.{no_items};
ghost use Rattle.rdl_tree.specs.View.{add, list_of};
ghost use Rattle.rdl_rewrite.specs.Names.{defined_names, instance_names, has_name, clash, is_twice, is_among, IsSetOf};

use rdl_scope::targets::is_instance;
use rdl_text::name::Name;
use rdl_tree::description::{Body, Item, Of};
use std::alloc::{AllocError, Global};
use std::collections::BTreeSet;

#[cycle(defined)]
fn push_defined<'a>(names: &mut Vec<&'a Name>, body: &'a Body) -> Result<(), AllocError>
    ensures { IfOk result (λ _. map (λ n. n.now) names.new.items ≡ map (λ n. n.now) names.old.items ++ defined_names body.now) }
{
    'items: for item in body.as_slice() {
        push_item(names, item)?;
    }
    Ok(())
}

#[cycle(defined)]
fn push_item<'a>(names: &mut Vec<&'a Name>, item: &'a Item) -> Result<(), AllocError>
    ensures { IfOk result (λ _. map (λ n. n.now) names.new.items ≡ map (λ n. n.now) names.old.items ++ defined_names (add item.now no_items)) }
{
    match item {
        Item::Define(name, component) => {
            names.push(name)?;
            push_defined(names, &component.body)
        }
        Item::Instance(_, Of::Anonymous(component)) => push_defined(names, &component.body),
        _ => Ok(()),
    }
}

/// The names of all definitions, those inside included.
fn defined_names(alloc: Global, body: &Body) -> Result<Vec<&Name>, AllocError>
    ensures { IfOk result (λ names. map (λ n. n.now) names.items ≡ defined_names body.now) }
{
    let mut names = Vec::new(alloc);
    push_defined(&mut names, body)?;
    Ok(names)
}

/// The names of the instances among the items of a body themselves.
fn instance_names(alloc: Global, body: &Body) -> Result<Vec<&Name>, AllocError>
    ensures { IfOk result (λ names. map (λ n. n.now) names.items ≡ instance_names (list_of body.now)) }
{
    let mut names = Vec::new(alloc);
    'items: for item in body.as_slice() {
        if let Item::Instance(shell, _) = item {
            names.push(shell.name())?;
        }
    }
    Ok(names)
}

/// The names in order, or None where one stands twice.
fn distinct<'a>(
    alloc: Global,
    names: &'a [&'a Name],
) -> Result<Option<BTreeSet<&'a str>>, AllocError>
    ensures { IfOk result (λ set. MatchOption set (is_twice (map (λ n. n.now) names.now) ≡ true) (λ set. IsSetOf set (map (λ n. n.now) names.now))) }
{
    let mut set: BTreeSet<&'a str> = BTreeSet::new(alloc);
    'names: for name in names {
        let is_new = set.insert(name.as_str())?;
        if !is_new {
            return Ok(None);
        }
    }
    Ok(Some(set))
}

/// Whether a definition among the items of the body, or inside them, has one of the names.
#[cycle(among)]
fn defines_any(names: &BTreeSet<&str>, body: &Body) -> bool
    ensures { result ≡ list_any (is_among names.now) (defined_names body.now) }
{
    'items: for item in body.as_slice() {
        if item_defines_any(names, item) {
            return true;
        }
    }
    false
}

/// Whether this item, or a definition inside it, has one of the names.
#[cycle(among)]
fn item_defines_any(names: &BTreeSet<&str>, item: &Item) -> bool
    ensures { result ≡ list_any (is_among names.now) (defined_names (add item.now no_items)) }
{
    match item {
        Item::Define(name, component) => {
            names.contains(name.as_str()) || defines_any(names, &component.body)
        }
        Item::Instance(_, Of::Anonymous(component)) => defines_any(names, &component.body),
        _ => false,
    }
}

/// Whether an instance among the items of the body themselves has one of the names.
fn instantiates_any(names: &BTreeSet<&str>, body: &Body) -> bool
    ensures { result ≡ list_any (is_among names.now) (instance_names (list_of body.now)) }
{
    'items: for item in body.as_slice() {
        if let Item::Instance(shell, _) = item {
            if names.contains(shell.name().as_str()) {
                return true;
            }
        }
    }
    false
}

/// Whether a definition among the new items has a name that is taken.
pub fn definition_taken(alloc: Global, added: &Body, all: &Body) -> Result<bool, AllocError>
    ensures { IfOk result (λ taken. taken ≡ clash (defined_names added.now) (defined_names all.now)) }
{
    let new = defined_names(alloc, added)?;
    if new.is_empty() {
        return Ok(false);
    }
    if let [name] = new.as_slice() {
        return Ok(is_defined(name, all));
    }
    match distinct(alloc, new.as_slice())? {
        Some(names) => Ok(defines_any(&names, all)),
        None => Ok(true),
    }
}

/// Whether an instance among the new items has a name that is taken in their body.
pub fn instance_taken(alloc: Global, added: &Body, body: &Body) -> Result<bool, AllocError>
    ensures { IfOk result (λ taken. taken ≡ clash (instance_names (list_of added.now)) (instance_names (list_of body.now))) }
{
    let new = instance_names(alloc, added)?;
    if new.is_empty() {
        return Ok(false);
    }
    if let [name] = new.as_slice() {
        return Ok(is_instantiated(name, body));
    }
    match distinct(alloc, new.as_slice())? {
        Some(names) => Ok(instantiates_any(&names, body)),
        None => Ok(true),
    }
}

/// Whether a definition among the items of the body, or inside them, has this name.
#[cycle(one_name)]
pub(crate) fn is_defined(name: &Name, body: &Body) -> bool
    ensures { result ≡ has_name name.now (defined_names body.now) }
{
    'items: for item in body.as_slice() {
        if item_defines(name, item) {
            return true;
        }
    }
    false
}

/// Whether this item, or a definition inside it, has this name.
#[cycle(one_name)]
fn item_defines(name: &Name, item: &Item) -> bool
    ensures { result ≡ has_name name.now (defined_names (add item.now no_items)) }
{
    match item {
        Item::Define(defined, component) => defined == name || is_defined(name, &component.body),
        Item::Instance(_, Of::Anonymous(component)) => is_defined(name, &component.body),
        _ => false,
    }
}

/// Whether an instance among the items of the body themselves has this name.
pub(crate) fn is_instantiated(name: &Name, body: &Body) -> bool
    ensures { result ≡ has_name name.now (instance_names (list_of body.now)) }
{
    'items: for item in body.as_slice() {
        if is_instance(Some(item), name) {
            return true;
        }
    }
    false
}
