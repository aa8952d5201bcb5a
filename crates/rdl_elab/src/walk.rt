//! The walk that lays out components, once for all their instances.
ghost use Rattle.std.specs.Prelude.{◌≡◌, ◌∷◌, ◌++◌, ◌+◌, ◌≤◌, [], length, Some, IfOk, IfSome, OnOk};
ghost use Rattle.std.specs.Option.{is_some};
ghost use Rattle.rdl_tree.specs.Depth.{depth};
ghost use Rattle.rdl_tree.specs.declared.description.Item.TheVariants.{Instance};
ghost use Rattle.rdl_tree.specs.View.{items_of, list_of};
ghost use Rattle.rdl_scope.specs.Closed.{Made, Standing, component, lookup, nothing, parts, standing};
ghost use Rattle.rdl_elab.specs.Finished.{AreParts, IsFinished, IsKept};
ghost use Rattle.rdl_elab.specs.OwnValues.{AreOfInstances, IsInstance};
ghost use Rattle.rdl_elab.specs.Stands.{made_at, after_item, LeadsTo, Stands, Grows, IsBehind, BringsPart, HoldsAt};

pub(crate) mod built_ins;
pub(crate) mod defaults;
pub(crate) mod finished;
pub(crate) mod instance_path;
pub(crate) mod instances;
pub(crate) mod name_marks;
pub(crate) mod own_values;
pub(crate) mod part_list;
pub(crate) mod reaches;
pub(crate) mod shared;
pub(crate) mod targets;
pub(crate) mod types;
pub(crate) mod values;

use crate::walk::built_ins::BuiltIns;
use crate::walk::defaults::Defaults;
use crate::walk::finished::{Finished, Part};
use crate::walk::instances::{contents_of, first_empty_if, layouts};
use crate::walk::own_values::OwnValues;
use crate::walk::part_list::PartList;
use crate::walk::reaches::assignments_if;
use crate::walk::shared::share;
use crate::walk::targets::Further;
use crate::walk::types::Types;
use crate::walk::values::{layout_values, shown_values};
use rdl_scope::types::own_component;
use rdl_text::name::Name;
use rdl_tree::address::Address;
use rdl_tree::description::{Component, Description, Item, Of};
use rdl_tree::shell::Shell;
use std::alloc::{AllocError, Global};

/// Components that are laid out, each after those of its instances, and the number of one of them.
#[derive(Drop)]
pub(crate) struct Walked<'a> {
    pub components: Vec<Finished<'a>>,
    pub number: usize,
}

/// The components that are laid out, and what stands before the next item.
#[derive(Drop)]
struct Walk<'a> {
    types: Types<'a>,
    defaults: Defaults<'a>,
    components: Vec<Finished<'a>>,
    built_ins: BuiltIns,
    /// Whether targets go on inside the instances of a body, so that these are looked up by their names.
    further: Further,
}

/// An instance in the body that is walked, and the number of its component among the finished ones.
#[derive(Drop)]
struct Found<'a> {
    shell: &'a Shell,
    component: usize,
}

/// All that is kept of a component with these instances, which these defaults reach.
fn finished_component<'a>(
    alloc: Global,
    description: &'a Description,
    at: &Address,
    component: &'a Component,
    parts: Vec<Part<'a>>,
    walk: &mut Walk<'a>,
) -> Result<Finished<'a>, AllocError>
    requires nesting { depth description.now.items ≤ 16 }
    requires instances { AreOfInstances (list_of component.now.body) parts.items }
    ensures kept { IfOk result (λ f. HoldsAt description.now.items walk.old at.now component.now parts.entry.items (IsKept description.now.items f)) }
    ensures parts { IfOk result (λ f. f.parts.items ≡ parts.entry.items) }
    ensures walk { OnOk result (walk.new ≡ walk.old) }
{
    let kind = component.kind;
    let body = &component.body;
    let own = OwnValues::of(alloc, body, &parts)?;
    let values = layout_values(&own, &mut walk.defaults);
    let shown = shown_values(alloc, kind, &own, &mut walk.defaults, &walk.built_ins)?;
    let first_dynamic = own.first_dynamic();
    let further = &mut walk.further;
    let look_ups = further.look_ups(description, at, &own, parts.len());
    let parts = PartList::of(alloc, parts, look_ups)?;
    let components = walk.components.as_slice();
    let contents = contents_of(parts.as_slice(), components);
    let assignments = assignments_if(alloc, first_dynamic, components, &parts, body)?;
    let layouts = layouts(alloc, kind, values, parts.as_slice(), components)?;
    let first_empty = first_empty_if(alloc, contents.has_empty, parts.as_slice(), components)?;
    Ok(Finished {
        kind,
        values,
        shown,
        assignments,
        layouts,
        levels: contents.levels,
        rows: contents.rows,
        first_empty,
        parts,
    })
}

/// Lays out the component of the item at this address. What stands before the item stays.
#[cycle(walk)]
#[tactic(auto, using(crate::proofs::Goings::goings))]
fn finish<'a>(
    alloc: Global,
    description: &'a Description,
    at: &Address,
    component: &'a Component,
    walk: &mut Walk<'a>,
) -> Result<usize, AllocError>
    requires nesting { depth description.now.items ≤ 16 }
    requires room { length at.now + depth component.now.body ≤ 16 }
    ensures made { IfOk result (λ k. (e : Standing) → Stands description.now.items walk.old e → IsFinished description.now.items walk.new.components.items k (made_at e at.now component.now)) }
    ensures types { IfOk result (λ k. walk.new.types ≡ walk.old.types) }
    ensures defaults { IfOk result (λ k. walk.new.defaults ≡ walk.old.defaults) }
    ensures components { IfOk result (λ k. Grows walk.old.components.items walk.new.components.items) }
{
    let types = walk.types.len();
    let defaults = walk.defaults.len();
    let parts = walk_items(alloc, description, at, component.body.as_slice(), walk)?;
    walk.types.truncate(types)?;
    walk.defaults.truncate(defaults);
    let finished = finished_component(alloc, description, at, component, parts, walk)?;
    let number = walk.components.len();
    walk.components.push(finished)?;
    Ok(number)
}

/// Lays out the component of item `number` of the body at this address.
#[cycle(walk)]
#[inline(never)]
#[tactic(auto, using(crate::proofs::Goings::goings))]
fn finish_inside<'a>(
    alloc: Global,
    description: &'a Description,
    at: &Address,
    number: usize,
    component: &'a Component,
    walk: &mut Walk<'a>,
) -> Result<usize, AllocError>
    requires nesting { depth description.now.items ≤ 16 }
    requires room { length at.now + 1 + depth component.now.body ≤ 16 }
    ensures made { IfOk result (λ k. (e : Standing) → Stands description.now.items walk.old e → IsFinished description.now.items walk.new.components.items k (made_at e (at.now ++ number ∷ []) component.now)) }
    ensures types { IfOk result (λ k. walk.new.types ≡ walk.old.types) }
    ensures defaults { IfOk result (λ k. walk.new.defaults ≡ walk.old.defaults) }
    ensures components { IfOk result (λ k. Grows walk.old.components.items walk.new.components.items) }
{
    let below = at.inside(number);
    finish(alloc, description, &below, component, walk)
}

/// The instance of a type, if the type stands.
#[inline(always)]
fn named_part<'a>(shell: &'a Shell, name: &'a Name, walk: &mut Walk<'a>) -> Option<Found<'a>>
    ensures part { LeadsTo shell.now (lookup name.now walk.old.types) result }
    ensures same { walk.new ≡ walk.old }
{
    let component = walk.types.find(name)?;
    Some(Found { shell, component })
}

/// Lays out the component of the instance that is this item of the body at this address, if it has one of its own.
#[cycle(walk)]
#[inline(always)]
#[tactic(auto, using(crate::proofs::Goings::goings))]
fn walk_instance<'a>(
    alloc: Global,
    description: &'a Description,
    at: &Address,
    number: usize,
    shell: &'a Shell,
    of: &'a Of,
    walk: &mut Walk<'a>,
) -> Result<Option<Found<'a>>, AllocError>
    requires nesting { depth description.now.items ≤ 16 }
    requires room { length at.now + depth (items_of (Instance shell.now of.now ∷ [])) ≤ 16 }
    ensures part { IfOk result (λ f. BringsPart description.now.items walk.old walk.new (at.now ++ number ∷ []) (Instance shell.now of.now) f) }
    ensures stands { IfOk result (λ f. (e : Standing) → Stands description.now.items walk.old e → Stands description.now.items walk.new e) }
    ensures behind { IfOk result (λ f. IsBehind walk.old walk.new) }
    ensures instance { IfOk result (λ f. IfSome f (λ found. IsInstance (Some (Instance shell.now of.now)))) }
{
    match of {
        Of::Anonymous(component) => {
            let component = finish_inside(alloc, description, at, number, component, walk)?;
            Ok(Some(Found { shell, component }))
        }
        Of::Named(name) => Ok(named_part(shell, name, walk)),
    }
}

/// Lays out what this item of the body at this address holds, and goes on behind it. What is found is an instance.
#[cycle(walk)]
#[inline(always)]
#[tactic(auto, using(crate::proofs::Goings::goings))]
fn walk_item<'a>(
    alloc: Global,
    description: &'a Description,
    at: &Address,
    number: usize,
    item: &'a Item,
    walk: &mut Walk<'a>,
) -> Result<Option<Found<'a>>, AllocError>
    requires nesting { depth description.now.items ≤ 16 }
    requires room { length at.now + depth (items_of (item.now ∷ [])) ≤ 16 }
    ensures part { IfOk result (λ f. BringsPart description.now.items walk.old walk.new (at.now ++ number ∷ []) item.now f) }
    ensures stands { IfOk result (λ f. (e : Standing) → Stands description.now.items walk.old e → Stands description.now.items walk.new (after_item (at.now ++ number ∷ []) item.now e)) }
    ensures behind { IfOk result (λ f. IsBehind walk.old walk.new) }
    ensures instance { IfOk result (λ f. IfSome f (λ found. IsInstance (Some item.now))) }
{
    match item {
        Item::Define(name, component) => {
            let component = finish_inside(alloc, description, at, number, component, walk)?;
            walk.types.push(name, component)?;
            Ok(None)
        }
        Item::Instance(shell, of) => {
            walk_instance(alloc, description, at, number, shell, of, walk)
        }
        Item::Default(name, value) => {
            walk.defaults.push(name, value)?;
            Ok(None)
        }
        Item::Own(_, _) | Item::Dynamic(_, _, _) => Ok(None),
    }
}

/// Takes room for so many parts where there are none yet.
fn reserve_first(parts: &mut Vec<Part>, count: usize) -> Result<(), AllocError>
    ensures { OnOk result (parts.new.items ≡ parts.old.items) }
{
    if parts.is_empty() {
        parts.reserve_exact(count)?;
    }
    Ok(())
}

fn push_part<'a>(parts: &mut Vec<Part<'a>>, part: Part<'a>) -> Result<(), AllocError>
    ensures { OnOk result (parts.new.items ≡ parts.old.items ++ part.entry ∷ []) }
{
    parts.push(part)?;
    Ok(())
}

/// Lays out what these first items of the body at this address hold, and goes on behind them. The parts are those of
/// the instances.
#[cycle(walk)]
#[tactic(auto, using(crate::proofs::Goings::goings))]
fn walk_items<'a>(
    alloc: Global,
    description: &'a Description,
    at: &Address,
    items: &'a [Item],
    walk: &mut Walk<'a>,
) -> Result<Vec<Part<'a>>, AllocError>
    requires nesting { depth description.now.items ≤ 16 }
    requires room { length at.now + depth (items_of items.now) ≤ 16 }
    ensures parts { IfOk result (λ ps. (e : Standing) → Stands description.now.items walk.old e → AreParts description.now.items walk.new.components.items (length walk.new.components.items) ps.items (parts e at.now 0 (items_of items.now))) }
    ensures stands { IfOk result (λ ps. (e : Standing) → Stands description.now.items walk.old e → Stands description.now.items walk.new (standing e at.now 0 (items_of items.now))) }
    ensures behind { IfOk result (λ ps. IsBehind walk.old walk.new) }
    ensures instances { IfOk result (λ ps. AreOfInstances items.now ps.items) }
{
    let mut parts = Vec::new(alloc);
    let mut shared = None;
    for (i, item) in items.iter().enumerate() {
        if let Some(found) = walk_item(alloc, description, at, i, item, walk)? {
            reserve_first(&mut parts, items.len() - i)?;
            let around = share(alloc, at, &mut shared)?;
            push_part(
                &mut parts,
                Part::new(around, i, found.shell, found.component),
            )?;
        }
    }
    Ok(parts)
}

impl<'a> Walk<'a> {
    ghost use Rattle.std.specs.Prelude.{◌≡◌, [], IfOk};

    /// Nothing is laid out, and nothing stands before the next item.
    fn new(alloc: Global, description: &Description) -> Result<Walk<'a>, AllocError>
        ensures types { IfOk result (λ walk. walk.types ≡ []) }
        ensures defaults { IfOk result (λ walk. walk.defaults ≡ []) }
        ensures components { IfOk result (λ walk. walk.components.items ≡ []) }
    {
        Ok(Walk {
            types: Types::with_room(alloc, description.items.len().max(16))?,
            defaults: Defaults::new(alloc),
            components: Vec::new(alloc),
            built_ins: BuiltIns::new(alloc)?,
            further: Further::nothing(),
        })
    }
}

/// Lays out what the first items of the root body hold, and then the component of item `n` behind them.
fn finish_behind<'a>(
    alloc: Global,
    description: &'a Description,
    items: &'a [Item],
    n: usize,
    component: &'a Component,
    walk: &mut Walk<'a>,
) -> Result<usize, AllocError>
    requires nesting { depth description.now.items ≤ 16 }
    requires room { depth (items_of items.now) ≤ 16 }
    requires inside { 1 + depth component.now.body ≤ 16 }
    ensures { IfOk result (λ k. Stands description.now.items walk.old nothing → IsFinished description.now.items walk.new.components.items k (made_at (standing nothing [] 0 (items_of items.now)) (n ∷ []) component.now)) }
{
    let root = Address::new();
    walk_items(alloc, description, &root, items, walk)?;
    finish(alloc, description, &root.inside(n), component, walk)
}

/// Lays out the component of item `n` of the root body.
pub(crate) fn lay_out_item<'a>(
    alloc: Global,
    description: &'a Description,
    n: usize,
) -> Result<Option<Walked<'a>>, AllocError>
    requires { depth description.now.items ≤ 16 }
    ensures there { IfOk result (λ walked. is_some walked ≡ is_some (component description.now.items (n ∷ []))) }
    ensures finished { IfOk result (λ walked. IfSome walked (λ w. (c : Made) → component description.now.items (n ∷ []) ≡ Some c → IsFinished description.now.items w.components.items w.number c)) }
{
    let items = description.items.as_slice();
    if n >= items.len() {
        return Ok(None);
    }
    let Some(component) = own_component(&items[n]) else {
        return Ok(None);
    };
    let mut walk = Walk::new(alloc, description)?;
    let number = finish_behind(alloc, description, &items[..n], n, component, &mut walk)?;
    Ok(Some(Walked {
        components: walk.components,
        number,
    }))
}
