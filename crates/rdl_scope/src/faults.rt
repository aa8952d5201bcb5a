//! The first fault of the items of a description.
ghost use Rattle.std.specs.Prelude.{◌≡◌, ◌==◌, ◌||◌, ◌&&◌, ℕ, ◌+◌, ◌<◌, ◌≤◌, ◌++◌, ◌∷◌, [], length, List, Option, Some, None, IfOk, IfErr, IfSome, OnOk, ◌⊎◌, option_copied, slice_get, bytes_eq};
ghost use Rattle.std.specs.Option.{is_some};
ghost use Rattle.std.specs.List.{list_any};
ghost use Rattle.rdl_tree.specs.Items.{Items};
ghost use Rattle.rdl_tree.specs.Component.{own_component};
ghost use Rattle.rdl_tree.specs.Depth.{depth};
ghost use Rattle.rdl_tree.specs.Properties.{property_of, row};
ghost use Rattle.rdl_tree.specs.Address.{body_at};
ghost use Rattle.rdl_tree.specs.ItemAt.{item_at};
ghost use Rattle.rdl_scope.specs.Types.{last_definition};
ghost use Rattle.rdl_scope.specs.Value.{own_before};
ghost use Rattle.rdl_scope.specs.Scopes.{number_under, scope_found, level_found, along_place, address_under, instance_component, kind_below, kind_of_instance, IsMet, Knows};
ghost use Rattle.rdl_scope.specs.Walk.{found};
ghost use Rattle.rdl_scope.specs.ItemFaults.{kind_at, instance_kind, target_kind, is_set, is_excluded, excluded_by, item_fault, fault_at, first_fault, inside_fault, is_too_large, fault_of, out_of_memory};
ghost use Rattle.rdl_scope.specs.Sizes.{IsSizeOf};
ghost use Rattle.rdl_tree.specs.View.{list_of};

use crate::assignments::{default_fault, dynamic_fault, own_fault, rivals};
use crate::key_spot::Key;
use crate::kinds::define_fault;
use crate::names::Names;
use crate::passed::Passed;
use crate::places::{
    Met, Places, VisibleItem, address_of, body_of_place, kind_of, kind_of_place, place_of,
};
use crate::shells::instance_fault;
use crate::size::{Size, body_size};
use crate::targets::{instance_before, passes};
use crate::types::{component_at, component_of, items_in, own_component};
use crate::values::{is_false, own_before};
use rdl_text::name::Name;
use rdl_tree::address::Address;
use rdl_tree::description::{Body, Component, Description, Item, Of};
use rdl_tree::fault::{Fault, FaultKind};
use rdl_tree::properties::property;
use rdl_tree::property::Property;
use rdl_tree::shell::Kind;
use rdl_tree::value::Value;
use std::alloc::{AllocError, Global};
use std::mem;

pub(crate) fn kind_at(description: &Description, address: &Address) -> Option<Kind>
    ensures { result ≡ kind_at description.now.items address.now }
{
    match component_at(description, address) {
        Some(component) => Some(component.kind),
        None => None,
    }
}

pub(crate) fn instance_kind(description: &Description, address: &Address) -> Option<Kind>
    ensures { result ≡ instance_kind description.now.items address.now }
{
    kind_at(description, &component_of(description, address)?)
}

/// The kind of the component to which names lead, the first of them among the first `n` items of the body at this
/// address.
#[tactic(auto, using(crate::proofs::Firsts::lasts))]
pub(crate) fn names_kind(
    alloc: Global,
    description: &Description,
    body: &Address,
    n: usize,
    names: &[Name],
) -> Result<Option<Kind>, AllocError>
    requires { depth description.now.items ≤ 16 }
    ensures { IfOk result (λ kind. kind ≡ target_kind description.now.items body.now n names.now) }
{
    match passes(alloc, description, body, n, names)? {
        Some(path) => match path.as_slice() {
            [.., last] => Ok(instance_kind(description, last)),
            [] => Ok(None),
        },
        None => Ok(None),
    }
}

/// The kind of the component of the instance of this number in the body of the component at the place, which is one of this.
fn kind_of_instance(
    description: &Description,
    at: &Address,
    place: VisibleItem,
    number: usize,
    of: &Of,
) -> Option<Kind>
    requires at { length at.now < 17 }
    requires place { length (along_place at.now place) < 17 }
    ensures { result ≡ kind_of_instance description.now.items (along_place at.now place ++ number ∷ []) of.now }
{
    match of {
        Of::Anonymous(component) => Some(component.kind),
        Of::Named(_) => instance_kind(description, &address_of(at, place).inside(number)),
    }
}

/// The kind of the component of the item of this number in the body of the component at the place, if it is an instance.
#[tactic(auto, using(crate::proofs::TargetKinds::kinds))]
fn kind_of_item(
    description: &Description,
    at: &Address,
    place: VisibleItem,
    number: usize,
    item: &Item,
) -> Option<Kind>
    requires at { length at.now < 17 }
    requires place { length (along_place at.now place) < 17 }
    requires item { item_at (along_place at.now place ++ number ∷ []) description.now.items ≡ Some item.now }
    ensures { result ≡ instance_kind description.now.items (along_place at.now place ++ number ∷ []) }
{
    match item {
        Item::Instance(_, of) => kind_of_instance(description, at, place, number, of),
        Item::Define(..) | Item::Own(..) | Item::Default(..) | Item::Dynamic(..) => None,
    }
}

/// The kind of the component to which one name leads from the component at the place.
#[tactic(auto, using(crate::proofs::TargetKinds::one_name))]
fn name_kind(
    description: &Description,
    at: &Address,
    place: VisibleItem,
    name: &Name,
) -> Option<Kind>
    requires nesting { depth description.now.items ≤ 16 }
    requires room { length at.now < 17 }
    ensures { result ≡ kind_below description.now.items (name.now ∷ []) (along_place at.now place) }
{
    let body = body_of_place(description, at, place)?;
    let number = instance_before(body, body.len(), name)?;
    kind_of_item(description, at, place, number, body.item(number)?)
}

/// The kind of the component to which names lead from the component at the place.
#[tactic(auto, using(crate::proofs::TargetKinds::below))]
fn kind_below(
    alloc: Global,
    description: &Description,
    at: &Address,
    place: VisibleItem,
    names: &[Name],
) -> Result<Option<Kind>, AllocError>
    requires nesting { depth description.now.items ≤ 16 }
    requires room { length at.now < 17 }
    ensures { IfOk result (λ kind. kind ≡ kind_below description.now.items names.now (along_place at.now place)) }
{
    match names {
        [] => Ok(kind_of_place(description, at, place)),
        [name] => Ok(name_kind(description, at, place, name)),
        _ => {
            let component = address_of(at, place);
            let n = items_in(description, &component);
            names_kind(alloc, description, &component, n, names)
        }
    }
}

/// The kind of the component to which a target leads, from the `n`-th item of the body at this address. These are the
/// places of the components of the instances before it, of which one was met last.
#[tactic(auto, using(crate::proofs::TargetKinds::targets))]
fn target_kind<'a>(
    alloc: Global,
    description: &Description,
    at: &Address,
    n: usize,
    names: &'a [Name],
    places: &Places<'a>,
    met: &mut Option<Met<'a>>,
) -> Result<Option<Kind>, AllocError>
    requires nesting { depth description.now.items ≤ 16 }
    requires room { length at.now < 17 }
    requires places { (q : List ℕ) → address_under at.now places.now q ≡ instance_component description.now.items at.now n q }
    requires met { IfSome met.old (IsMet places.now) }
    ensures kind { IfOk result (λ kind. kind ≡ target_kind description.now.items at.now n names.now) }
    ensures met { IfSome met.new (IsMet places.now) }
{
    let Some((first, rest)) = names.split_first() else {
        return Ok(None);
    };
    match places.meet(first.as_str(), met) {
        Some(place) => kind_below(alloc, description, at, place, rest),
        None => Ok(None),
    }
}

pub(crate) fn is_set(value: Option<&Value>) -> bool
    ensures { result ≡ is_set (option_copied value.entry) }
{
    match value {
        Some(value) => !is_false(value),
        None => false,
    }
}

/// Whether the own assignment of this name among the first `n` items is set. It is searched for only if the name is among
/// these.
fn rival_is_set<'a>(n: usize, body: &Body, owns: &Names<'a>, name: &'a str) -> bool
    ensures { result ≡ (is_some (number_under owns.now name.now) && is_set (own_before name.now n body.now)) }
{
    owns.has(name) && is_set(own_before(body, n, name))
}

fn any_is_set(n: usize, body: &Body, owns: &Names, rivals: &[Property]) -> bool
    ensures { result ≡ list_any (λ rival. is_some (number_under owns.now (row rival).name) && is_set (own_before (row rival).name n body.now)) rivals.now }
{
    rivals
        .iter()
        .any(|rival| rival_is_set(n, body, owns, rival.name()))
}

/// Whether a rival of the property is set among the first `n` items, whose own assignments these are.
#[tactic(auto, using(crate::proofs::Rivals::known))]
fn excluded_by(n: usize, body: &Body, owns: &Names, property: Option<Property>) -> bool
    requires owns { (q : List ℕ) → is_some (number_under owns.now q) ≡ is_some (own_before q n body.now) }
    ensures { result ≡ excluded_by n body.now property }
{
    match property {
        Some(property) => any_is_set(n, body, owns, rivals(property)),
        None => false,
    }
}

/// The fault of item `n` of the body at this address. These are the definitions around it, those before it in the body,
/// and what else stands before it; where it has no fault, it is noted.
#[tactic(auto, unfolding(crate::specs::ItemFaults::item_fault))]
fn item_fault<'a>(
    alloc: Global,
    description: &Description,
    around: Option<Kind>,
    at: &Address,
    body: &Body,
    n: usize,
    item: &'a Item,
    levels: &[Names<'a>],
    definitions: &Names<'a>,
    passed: &mut Passed<'a>,
    met: &mut Option<Met<'a>>,
) -> Result<Option<FaultKind>, AllocError>
    requires nesting { depth description.now.items ≤ 16 }
    requires room { length at.now < 17 }
    requires here { body_at at.now description.now.items ≡ Some body.now }
    requires item { slice_get (list_of body.now) n ≡ Some item.now }
    requires scope { (q : List ℕ) → scope_found levels.now definitions.now q ≡ found (at.now ++ n ∷ []) description.now.items q }
    requires definitions { (q : List ℕ) → number_under definitions.now q ≡ last_definition q n body.now }
    requires passed { Knows description.now.items at.now body.now n passed.old }
    requires met { IfSome met.old (IsMet passed.old.places) }
    ensures fault { IfOk result (λ fault. fault ≡ item_fault description.now.items around at.now body.now n item.now) }
    ensures passed { IfOk result (λ fault. fault ≡ None → Knows description.now.items at.now body.now (n + 1) passed.new) }
    ensures met { IfOk result (λ fault. IfSome met.new (IsMet passed.new.places)) }
{
    match item {
        Item::Define(name, component) => {
            let twice = definitions.has(name.as_str());
            Ok(define_fault(around, twice, component.kind))
        }
        Item::Instance(shell, of) => {
            let place = place_of(at, n, of, levels, definitions);
            let kind = kind_of(description, at, of, place);
            *met = None;
            let twice = passed.places.note(shell.name().as_str(), place)?;
            Ok(instance_fault(around, twice, shell, kind))
        }
        Item::Own(name, value) => {
            let property = property(name.as_str());
            let excluded = excluded_by(n, body, &passed.owns, property);
            let twice = passed.owns.note(name.as_str(), n)?;
            Ok(own_fault(around, twice, excluded, property, value))
        }
        Item::Default(name, value) => {
            let twice = passed.defaults.note(name.as_str(), n)?;
            Ok(default_fault(twice, property(name.as_str()), value))
        }
        Item::Dynamic(target, name, value) => {
            let names = target.names();
            let kind = target_kind(alloc, description, at, n, names, &passed.places, met)?;
            let twice = passed.dynamics.note(alloc, Key { target, name })?;
            Ok(dynamic_fault(twice, property(name.as_str()), value, kind))
        }
    }
}

/// The fault of this item of the body at this address.
fn fault_at(at: &Address, number: usize, kind: Option<FaultKind>) -> Option<Fault>
    requires { length at.now < 17 }
    ensures { result ≡ fault_at (at.now ++ number ∷ []) kind }
{
    match kind {
        Some(kind) => Some(Fault {
            kind,
            address: at.inside(number),
        }),
        None => None,
    }
}

/// The first fault inside this item of the body at this address. Where there is none, the levels and the definitions
/// before it stay.
#[cycle(walk)]
pub(crate) fn inside_fault<'a>(
    alloc: Global,
    description: &Description,
    at: &Address,
    number: usize,
    component: Option<&'a Component>,
    levels: &mut Vec<Names<'a>>,
    definitions: &mut Names<'a>,
) -> Result<Option<Fault>, AllocError>
    requires nesting { depth description.now.items ≤ 16 }
    requires room { (c : Component) → option_copied component ≡ Some c → length at.now + depth c.body < 16 }
    requires here { (c : Component) → option_copied component ≡ Some c → body_at (at.now ++ number ∷ []) description.now.items ≡ Some c.body }
    requires count { length levels.old.items ≡ length at.now }
    requires scope { (q : List ℕ) → scope_found levels.old.items definitions.old q ≡ found (at.now ++ number ∷ []) description.now.items q }
    ensures fault { IfOk result (λ fault. fault ≡ inside_fault description.now.items (at.now ++ number ∷ []) (option_copied component.entry)) }
    ensures levels { IfOk result (λ fault. fault ≡ None → levels.new.items ≡ levels.old.items) }
    ensures definitions { IfOk result (λ fault. fault ≡ None → definitions.new ≡ definitions.old) }
{
    let Some(component) = component else {
        return Ok(None);
    };
    if component.body.is_empty() {
        return Ok(None);
    }
    component_fault(
        alloc,
        description,
        at,
        number,
        component,
        levels,
        definitions,
    )
}

/// The first fault inside this item of the body at this address, which has the component. Where there is none, the levels
/// and the definitions before it stay.
#[cycle(walk)]
fn component_fault<'a>(
    alloc: Global,
    description: &Description,
    at: &Address,
    number: usize,
    component: &'a Component,
    levels: &mut Vec<Names<'a>>,
    definitions: &mut Names<'a>,
) -> Result<Option<Fault>, AllocError>
    requires nesting { depth description.now.items ≤ 16 }
    requires room { length at.now + depth component.now.body < 16 }
    requires here { body_at (at.now ++ number ∷ []) description.now.items ≡ Some component.now.body }
    requires count { length levels.old.items ≡ length at.now }
    requires scope { (q : List ℕ) → scope_found levels.old.items definitions.old q ≡ found (at.now ++ number ∷ []) description.now.items q }
    ensures fault { IfOk result (λ fault. fault ≡ inside_fault description.now.items (at.now ++ number ∷ []) (Some component.entry.now)) }
    ensures levels { IfOk result (λ fault. fault ≡ None → levels.new.items ≡ levels.old.items) }
    ensures definitions { IfOk result (λ fault. fault ≡ None → definitions.new ≡ definitions.old) }
{
    let address = at.inside(number);
    levels.push(mem::replace(definitions, Names::new(alloc)))?;
    let kind = Some(component.kind);
    let fault = first_fault(alloc, description, kind, &address, &component.body, levels)?;
    match levels.pop() {
        Some(outer) => {
            *definitions = outer;
            Ok(fault)
        }
        None => Ok(fault),
    }
}

/// No definitions before the first item of a body. Many are awaited in the root alone.
fn no_definitions<'a>(
    alloc: Global,
    around: Option<Kind>,
    body: &Body,
) -> Result<Names<'a>, AllocError>
    ensures { IfOk result (λ names. (q : List ℕ) → number_under names q ≡ None) }
{
    match around {
        Some(_) => Ok(Names::new(alloc)),
        None => Names::with_room(alloc, body.len().max(16)),
    }
}

/// How many of the items are instances. Only how much room is awaited rests on it.
fn instances(items: &[Item]) -> usize {
    let mut count = 0usize;
    for item in items {
        if let Item::Instance(..) = item {
            count = count.saturating_add(1);
        }
    }
    count
}

/// What stands before the first item of the body.
fn nothing_passed<'a>(alloc: Global, body: &Body) -> Result<Passed<'a>, AllocError>
    ensures { IfOk result (λ passed. (d : Items) (b : List ℕ) (t : Items) → Knows d b t 0 passed) }
{
    let instances = instances(body.as_slice());
    Passed::new(alloc, instances, body.len().saturating_sub(instances))
}

/// The first fault of the items of the body at this address. Where there is none, the levels stay.
#[cycle(walk)]
#[tactic(auto, using(crate::proofs::Firsts::walks))]
fn first_fault<'a>(
    alloc: Global,
    description: &Description,
    around: Option<Kind>,
    at: &Address,
    body: &'a Body,
    levels: &mut Vec<Names<'a>>,
) -> Result<Option<Fault>, AllocError>
    requires nesting { depth description.now.items ≤ 16 }
    requires room { length at.now + depth body.now ≤ 16 }
    requires here { body_at at.now description.now.items ≡ Some body.now }
    requires count { length levels.old.items ≡ length at.now }
    requires scope { (q : List ℕ) → level_found 0 levels.old.items q ≡ found at.now description.now.items q }
    ensures fault { IfOk result (λ fault. fault ≡ first_fault description.now.items around at.now body.now 0 body.now) }
    ensures levels { IfOk result (λ fault. fault ≡ None → levels.new.items ≡ levels.old.items) }
{
    let mut definitions = no_definitions(alloc, around, body)?;
    let mut passed = nothing_passed(alloc, body)?;
    let mut met = None;
    'items: for (i, item) in body.as_slice().iter().enumerate() {
        let scope = levels.as_slice();
        let kind = item_fault(
            alloc,
            description,
            around,
            at,
            body,
            i,
            item,
            scope,
            &definitions,
            &mut passed,
            &mut met,
        )?;
        if let Some(fault) = fault_at(at, i, kind) {
            return Ok(Some(fault));
        }
        let component = own_component(item);
        if component.is_none() {
            continue;
        }
        let inside = inside_fault(
            alloc,
            description,
            at,
            i,
            component,
            levels,
            &mut definitions,
        )?;
        if let Some(fault) = inside {
            return Ok(Some(fault));
        }
        definitions.put_definition(item, i)?;
    }
    Ok(None)
}

/// Whether nesting, items or weight are over the limits.
fn is_too_large(description: &Description) -> bool
    ensures { result ≡ is_too_large description.now.items }
{
    is_over(description, &body_size(&description.items))
}

/// Whether nesting, items or weight of a description of this size are over the limits.
pub(crate) fn is_over(description: &Description, size: &Size) -> bool
    requires { IsSizeOf description.now.items size.now }
    ensures { result ≡ is_too_large description.now.items }
{
    size.depth > 16
        || size.count > 65_536
        || size.weight > 8_388_608 && description.weight() > 8_388_608
}

fn judge(alloc: Global, description: &Description) -> Result<Option<Fault>, AllocError>
    ensures fault { IfOk result (λ fault. fault ≡ fault_of description.now.items) }
    ensures levels { IfOk result (λ fault. fault ≡ None → depth description.now.items ≤ 16) }
{
    let root = Address::new();
    if is_too_large(description) {
        return Ok(Some(Fault {
            kind: FaultKind::DescriptionTooLarge,
            address: root,
        }));
    }
    let mut levels = Vec::new(alloc);
    first_fault(
        alloc,
        description,
        None,
        &root,
        &description.items,
        &mut levels,
    )
}

/// The first fault of a description: nesting, items or weight over the limits (E25), or that of the first item in
/// pre-order that has one (E1 to E12), the lower number first on one item.
pub fn check(alloc: Global, description: &Description) -> Result<(), Fault>
    ensures ok { OnOk result (fault_of description.now.items ≡ None) }
    ensures levels { OnOk result (depth description.now.items ≤ 16) }
    ensures err { IfErr result (λ fault. (fault_of description.now.items ≡ Some fault) ⊎ (fault ≡ out_of_memory)) }
{
    match judge(alloc, description) {
        Ok(None) => Ok(()),
        Ok(Some(fault)) => Err(fault),
        Err(_) => Err(Fault {
            kind: FaultKind::Memory,
            address: Address::new(),
        }),
    }
}
