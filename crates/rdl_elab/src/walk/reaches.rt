//! The dynamic assignments that reach an instance.
ghost use Rattle.std.specs.Prelude.{◌≡◌, ◌+◌, ◌-◌, ◌%◌, ◌<◌, ◌++◌, ◌∷◌, List, [], false, length, replicate, get_or, slice_set, take, IfOk, IfSome, OnOk, option_copied};
ghost use Rattle.std.specs.Option.{option_or};
ghost use Rattle.rdl_tree.specs.Properties.{row};
ghost use Rattle.rdl_tree.specs.declared.property.Property.{Property};
ghost use Rattle.rdl_tree.specs.View.{list_of};
ghost use Rattle.rdl_elab.specs.KeptTargets.{kept_target};
ghost use Rattle.rdl_elab.specs.PartNames.{IsFirstNamed};
ghost use Rattle.rdl_elab.specs.Onward.{AreChained, chain};
ghost use Rattle.std.specs.List.{list_any};
ghost use Rattle.rdl_elab.specs.OwnValues.{is_dynamic, IsFirstDynamic};
ghost use Rattle.rdl_elab.specs.Reaches.{Reach, reaches_by, behind, reached, reach_by, has_ended, value_under};
ghost use Rattle.rdl_elab.specs.StatedValues.{shown_on};

use crate::row::PropertyValue;
use crate::walk::finished::{Finished, Part};
use crate::walk::instance_path::InstancePath;
use crate::walk::part_list::PartList;
use crate::walk::shared::InstanceAddress;
use crate::walk::targets::target_path;
use crate::walk::values::add_assigned;
use rdl_text::name::Name;
use rdl_tree::description::{Body, Item};
use rdl_tree::properties::property;
use rdl_tree::property::Property;
use rdl_tree::shell::Kind;
use rdl_tree::value::Value;
use std::alloc::{AllocError, Global};
use std::marker::Model;

/// A dynamic assignment, and the instances that its target has yet to pass.
#[derive(Drop)]
pub(crate) struct Assignment<'a> {
    /// The instances that its target passes.
    path: InstancePath,
    /// How many of them it has passed.
    passed: usize,
    property: &'a Name,
    value: &'a Value,
}

impl<'a> Model for Assignment<'a> {
    ghost use Rattle.std.specs.Prelude.{drop};
    ghost use Rattle.rdl_elab.specs.Reaches.{Reach};

    ghost Value = { Reach };

    ghost view = { λ a. record { path = drop a.passed a.path; property = a.property.now; value = a.value.now } };
}

impl<'a> Assignment<'a> {
    ghost use Rattle.std.specs.Prelude.{◌≡◌, IfOk, option_map, slice_get};
    ghost use Rattle.rdl_tree.specs.Address.{number_of};
    ghost use Rattle.rdl_elab.specs.Reaches.{passed, has_ended};

    /// The same assignment, for one more.
    fn share(&self) -> Result<Assignment<'a>, AllocError>
        ensures { IfOk result (λ shared. shared ≡ self.now) }
    {
        Ok(Assignment {
            path: self.path.share()?,
            passed: self.passed,
            property: self.property,
            value: self.value,
        })
    }

    /// The number that the next instance that its target has to pass has in its body.
    #[tactic(auto, using(crate::proofs::Onward::dropping))]
    fn next(&self) -> Option<usize>
        ensures { result ≡ option_map number_of (slice_get self.now.path 0) }
    {
        self.path.number_at(self.passed)
    }

    /// The assignment behind an instance, if its target passes that.
    #[tactic(auto, using(crate::proofs::Onward::passing))]
    fn passed(&self, instance: &InstanceAddress) -> Result<Option<Assignment<'a>>, AllocError>
        ensures { IfOk result (λ behind. behind ≡ passed instance.now self.now self.now.path) }
    {
        if !self.path.is_at(self.passed, instance) {
            return Ok(None);
        }
        Ok(Some(Assignment {
            path: self.path.share()?,
            passed: self.passed + 1,
            property: self.property,
            value: self.value,
        }))
    }

    #[tactic(auto, using(crate::proofs::Onward::ending))]
    fn has_ended(&self) -> bool
        ensures { result ≡ has_ended self.now.path }
    {
        self.path.is_over(self.passed)
    }
}

/// What item `n` of a body with these instances assigns, if its target is there. The instance that the target passes first
/// may be the one that the last target passed first.
fn dynamic_assignment<'p, 'a>(
    alloc: Global,
    components: &[Finished<'a>],
    parts: &'p PartList<'a>,
    n: usize,
    item: &'a Item,
    first: &mut Option<&'p Part<'a>>,
) -> Result<Option<Assignment<'a>>, AllocError>
    requires first { IfSome (option_copied first.old) (IsFirstNamed parts.now.items) }
    ensures first { OnOk result (IfSome (option_copied first.new) (IsFirstNamed parts.now.items)) }
    ensures assignment { IfOk result (λ a. a ≡ reach_by (kept_target components.now parts.now.items n) item.now) }
{
    match item {
        Item::Dynamic(target, property, value) => {
            match target_path(alloc, components, parts, n, target.names(), first)? {
                Some(path) => Ok(Some(Assignment {
                    path,
                    passed: 0,
                    property,
                    value,
                })),
                None => Ok(None),
            }
        }
        _ => Ok(None),
    }
}

/// The dynamic assignments of a body with these instances whose targets are there. Before this item there is none.
#[tactic(auto, using(crate::proofs::Assignments::steps))]
fn assignments<'a>(
    alloc: Global,
    components: &[Finished<'a>],
    parts: &PartList<'a>,
    body: &'a Body,
    first_dynamic: usize,
) -> Result<Vec<Assignment<'a>>, AllocError>
    requires { list_any is_dynamic (take first_dynamic (list_of body.now)) ≡ false }
    ensures { IfOk result (λ list. list.items ≡ reaches_by (kept_target components.now parts.now.items) 0 body.now) }
{
    let all = body.as_slice();
    let others = body.len().saturating_sub(parts.as_slice().len());
    let mut list = Vec::with_capacity(alloc, others)?;
    let mut first = None;
    'items: for i in first_dynamic..all.len() {
        let item = &all[i];
        let found = dynamic_assignment(alloc, components, parts, i, item, &mut first)?;
        if let Some(assignment) = found {
            list.push(assignment)?;
        }
    }
    Ok(list)
}

/// The dynamic assignments of a body with these instances whose targets are there, where it is known which of its items is the first.
pub(crate) fn assignments_if<'a>(
    alloc: Global,
    first_dynamic: Option<usize>,
    components: &[Finished<'a>],
    parts: &PartList<'a>,
    body: &'a Body,
) -> Result<Vec<Assignment<'a>>, AllocError>
    requires { IsFirstDynamic first_dynamic body.now }
    ensures { IfOk result (λ list. list.items ≡ reaches_by (kept_target components.now parts.now.items) 0 body.now) }
{
    match first_dynamic {
        Some(first) => assignments(alloc, components, parts, body, first),
        None => Ok(Vec::new(alloc)),
    }
}

/// The assignments that have come this far and those of the component that stands here.
pub(crate) fn with_own<'a>(
    alloc: Global,
    reaching: &[Assignment<'a>],
    own: &[Assignment<'a>],
) -> Result<Vec<Assignment<'a>>, AllocError>
    ensures { IfOk result (λ list. list.items ≡ reaching.now ++ own.now) }
{
    let mut list = Vec::with_capacity(alloc, reaching.len().saturating_add(own.len()))?;
    add_all(&mut list, reaching)?;
    add_all(&mut list, own)?;
    Ok(list)
}

fn add_all<'a>(list: &mut Vec<Assignment<'a>>, more: &[Assignment<'a>]) -> Result<(), AllocError>
    ensures { OnOk result (list.new.items ≡ list.old.items ++ more.now) }
{
    for assignment in more {
        list.push(assignment.share()?)?;
    }
    Ok(())
}

/// Whether one of them has passed all its instances.
pub(crate) fn has_come(reaching: &[Assignment]) -> bool
    ensures { result ≡ list_any (λ (a : Reach). has_ended a.path) reaching.now }
{
    reaching.iter().any(|assignment| assignment.has_ended())
}

/// So many assignments have no more slots than there are instances, where these are few.
const FEW: usize = 1024;

/// How many slots there are for so many assignments, on a level with so many instances.
fn slots(assignments: usize, instances: usize) -> usize
    ensures { 0 < assignments → 0 < result }
{
    if assignments < FEW {
        assignments.max(instances.min(FEW))
    } else {
        assignments.max(instances)
    }
}

/// The slot of this number. That of most numbers takes no division.
#[inline(always)]
fn slot(number: usize, slots: usize) -> usize
    requires { 0 < slots }
    ensures { result ≡ number % slots }
{
    if number < slots {
        number
    } else if slots == FEW {
        number % FEW
    } else {
        number % slots
    }
}

/// Puts assignment `number`, whose next instance has this number in its body, before those of its chain.
fn put_first(heads: &mut [usize], links: &mut [usize], number: usize, next: usize)
    requires slots { 0 < length heads.old }
    requires number { number < length links.old }
    ensures heads { heads.new ≡ slice_set heads.old (next % length heads.old) number }
    ensures links { links.new ≡ slice_set links.old number (get_or heads.old (next % length heads.old) 0) }
{
    let slot = next % heads.len();
    links[number] = heads[slot];
    heads[slot] = number;
}

/// Puts each of the assignments that go on into the chain of its slot.
fn put_all(reaching: &[Assignment], heads: &mut [usize], links: &mut [usize])
    requires slots { 0 < length heads.old }
    requires heads { heads.old ≡ replicate (length heads.old) (length reaching.now) }
    requires links { length links.old ≡ length reaching.now }
    ensures { AreChained heads.new links.new reaching.now }
{
    let mut number = reaching.len();
    'assignments: while number > 0 {
        number -= 1;
        if let Some(next) = reaching[number].next() {
            put_first(heads, links, number, next);
        }
    }
}

/// Puts into the empty list those of the assignments in the chain that begins with the one of this number whose targets pass this
/// instance.
#[tactic(auto, using(crate::proofs::Onward::going))]
fn put_behind<'a>(
    instance: &InstanceAddress,
    reaching: &[Assignment<'a>],
    links: &[usize],
    first: usize,
    list: &mut Vec<Assignment<'a>>,
) -> Result<(), AllocError>
    requires { list.old.items ≡ [] }
    ensures { OnOk result (list.new.items ≡ behind instance.now (chain 0 links.now reaching.now first)) }
{
    let mut number = first;
    'assignments: while number < reaching.len() && number < links.len() {
        if let Some(passed) = reaching[number].passed(instance)? {
            list.push(passed)?;
        }
        number = links[number].max(number + 1);
    }
    Ok(())
}

/// The assignments that go on from a level.
///
/// Each has a slot, by the number that its next instance has in its body. Those of one slot are a chain, in their order.
#[derive(Drop)]
pub(crate) struct Onward<'r, 'a> {
    reaching: &'r [Assignment<'a>],
    /// For each slot the number of the first of its chain, and how many they are where it has none.
    heads: Vec<usize>,
    /// For each of them the number of the next of its chain.
    links: Vec<usize>,
}

impl<'r, 'a> Onward<'r, 'a> {
    ghost use Rattle.std.specs.Prelude.{◌≡◌, List, IfOk, OnOk};
    ghost use Rattle.rdl_elab.specs.Onward.{IsOnward, first_under};
    ghost use Rattle.rdl_elab.specs.Reaches.{Reach, behind};

    /// Those of these that go on, from a level with so many instances.
    pub(crate) fn of(
        alloc: Global,
        reaching: &'r [Assignment<'a>],
        count: usize,
    ) -> Result<Onward<'r, 'a>, AllocError>
        ensures { IfOk result (λ onward. IsOnward onward reaching.now) }
    {
        let mut heads = Vec::new(alloc);
        let mut links = Vec::new(alloc);
        if !reaching.is_empty() {
            heads.resize(slots(reaching.len(), count), reaching.len())?;
            links.resize(reaching.len(), 0)?;
            put_all(reaching, heads.as_mut_slice(), links.as_mut_slice());
        }
        Ok(Onward {
            reaching,
            heads,
            links,
        })
    }

    /// The number of the first assignment in the chain of this number.
    #[inline]
    fn first_under(&self, number: usize) -> usize
        ensures { result ≡ first_under self.now number }
    {
        if self.heads.is_empty() {
            return self.reaching.len();
        }
        self.heads[slot(number, self.heads.len())]
    }

    /// Puts those whose targets pass this instance in the place of what is in the list.
    pub(crate) fn put_behind(
        &self,
        part: &Part,
        list: &mut Vec<Assignment<'a>>,
    ) -> Result<(), AllocError>
        ensures { OnOk result ((reaching : List Reach) → IsOnward self.now reaching → list.new.items ≡ behind part.now.at reaching) }
    {
        list.clear();
        let first = self.first_under(part.place());
        if first >= self.reaching.len() {
            return Ok(());
        }
        let instance = part.instance()?;
        put_behind(&instance, self.reaching, self.links.as_slice(), first, list)
    }
}

/// Adds the value that this assigns to a component of this kind, if it has passed all its instances and no value before
/// is of the same property.
fn add_come(
    alloc: Global,
    kind: Kind,
    assignment: &Assignment,
    items: &mut Vec<PropertyValue>,
) -> Result<(), AllocError>
    ensures { OnOk result ((p : Property) → value_under p items.new.items ≡ option_or (value_under p items.old.items) (shown_on kind p (reached (row p).name (assignment.now ∷ [])))) }
{
    if !assignment.has_ended() {
        return Ok(());
    }
    let property = property(assignment.property.as_str());
    add_assigned(alloc, kind, items, property, assignment.value)
}

/// Adds the values that those assign to a component of this kind which have passed all their instances, the first of each
/// property, unless a value before is of that property.
pub(crate) fn add_reached(
    alloc: Global,
    kind: Kind,
    reaching: &[Assignment],
    items: &mut Vec<PropertyValue>,
) -> Result<(), AllocError>
    ensures { OnOk result ((p : Property) → value_under p items.new.items ≡ option_or (value_under p items.old.items) (shown_on kind p (reached (row p).name reaching.now))) }
{
    for assignment in reaching {
        add_come(alloc, kind, assignment, items)?;
    }
    Ok(())
}
