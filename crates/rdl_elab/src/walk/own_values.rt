//! The assignments in the body of a component.
ghost use Rattle.std.specs.Prelude.{◌≡◌, ◌≤◌, length, true, Some, None, IfOk, OnOk, option_copied};
ghost use Rattle.std.specs.Option.{option_or};
ghost use Rattle.rdl_tree.specs.Properties.{row};
ghost use Rattle.rdl_tree.specs.View.{list_of};
ghost use Rattle.rdl_tree.specs.declared.property.Property.{Property};
ghost use Rattle.rdl_scope.specs.Value.{own_value};
ghost use Rattle.rdl_scope.specs.Walk.{owned_by};
ghost use Rattle.rdl_elab.specs.OwnValues.{assigned_to, first_met, is_dynamic, AreOfInstances, AreStatedBefore, IsFirstDynamic};
ghost use Rattle.rdl_elab.specs.Reaches.{value_under};
ghost use Rattle.rdl_elab.specs.StatedValues.{shown_on, if_named};

use crate::row::PropertyValue;
use crate::walk::finished::Part;
use crate::walk::values::{add_stated, same_property};
use rdl_tree::description::{Body, Item};
use rdl_tree::properties::property;
use rdl_tree::property::Property;
use rdl_tree::shell::Kind;
use rdl_tree::value::Value;
use std::alloc::{AllocError, Global};
use std::marker::Model;

/// A property and the value that is assigned to it.
#[derive(Drop)]
pub(crate) struct Assigned<'a> {
    property: Property,
    value: &'a Value,
}

/// The own assignments in a body, each with its property, and where its dynamic ones begin. A contract sees the body.
#[derive(Drop)]
pub(crate) struct OwnValues<'a> {
    body: &'a Body,
    items: Vec<Assigned<'a>>,
    /// The number of the first dynamic assignment.
    first_dynamic: Option<usize>,
}

impl<'a> Model for OwnValues<'a> {
    ghost use Rattle.rdl_tree.specs.Codes.{coded_items};
    ghost use Rattle.rdl_tree.specs.Items.{Items};
    ghost use Rattle.std.specs.Prelude.{◌≡◌};
    ghost use Rattle.rdl_elab.specs.OwnValues.{AreOwn, IsFirstDynamic};

    ghost Value = { Items };

    ghost coded = { coded_items };

    ghost view = { λ own. own.body.now };

    ghost invariant = { λ own. AreOwn own.items.items own.body.now × IsFirstDynamic own.first_dynamic own.body.now };
}

/// The first value that is assigned to the property.
fn assigned_to<'a>(property: Property, items: &[Assigned<'a>]) -> Option<&'a Value>
    ensures { option_copied result ≡ assigned_to property items.now }
{
    for assigned in items {
        if same_property(assigned.property, property) {
            return Some(assigned.value);
        }
    }
    None
}

/// Adds an assignment to the property of this name, if there is one.
fn add_named<'a>(
    items: &mut Vec<Assigned<'a>>,
    name: &str,
    value: &'a Value,
) -> Result<(), AllocError>
    ensures { OnOk result ((p : Property) → assigned_to p items.new.items ≡ option_or (assigned_to p items.old.items) (if_named name.now (Some value.now) p)) }
{
    match property(name) {
        Some(property) => {
            items.push(Assigned { property, value })?;
            Ok(())
        }
        None => Ok(()),
    }
}

#[inline(always)]
fn add_own<'a>(items: &mut Vec<Assigned<'a>>, item: &'a Item) -> Result<(), AllocError>
    ensures { OnOk result ((p : Property) → assigned_to p items.new.items ≡ option_or (assigned_to p items.old.items) (owned_by (row p).name (Some item.now))) }
{
    match item {
        Item::Own(name, value) => add_named(items, name.as_str(), value),
        _ => Ok(()),
    }
}

/// The first dynamic assignment, if this item, of this number, is one or one was met before.
#[inline(always)]
fn first_met(before: Option<usize>, number: usize, item: &Item) -> Option<usize>
    ensures { result ≡ first_met before number (is_dynamic item.now) }
{
    match item {
        Item::Dynamic(_, _, _) => Some(before.unwrap_or(number)),
        _ => before,
    }
}

/// Adds the own assignments among the items of the body from one number on and before another, and tells the first dynamic one.
fn add_between<'a>(
    items: &mut Vec<Assigned<'a>>,
    first_dynamic: &mut Option<usize>,
    body: &'a Body,
    from: usize,
    to: usize,
) -> Result<(), AllocError>
    requires order { from ≤ to }
    requires within { to ≤ length (list_of body.now) }
    requires before { AreStatedBefore from items.old.items first_dynamic.old body.now }
    ensures { OnOk result (AreStatedBefore to items.new.items first_dynamic.new body.now) }
{
    let all = body.as_slice();
    for i in from..to {
        let item = &all[i];
        add_own(items, item)?;
        *first_dynamic = first_met(*first_dynamic, i, item);
    }
    Ok(())
}

/// The same, where often there are none between the two numbers.
#[inline(always)]
fn add_up_to<'a>(
    items: &mut Vec<Assigned<'a>>,
    first_dynamic: &mut Option<usize>,
    body: &'a Body,
    from: usize,
    to: usize,
) -> Result<(), AllocError>
    requires order { from ≤ to }
    requires within { to ≤ length (list_of body.now) }
    requires before { AreStatedBefore from items.old.items first_dynamic.old body.now }
    ensures { OnOk result (AreStatedBefore to items.new.items first_dynamic.new body.now) }
{
    if from == to {
        return Ok(());
    }
    add_between(items, first_dynamic, body, from, to)
}

impl<'a> OwnValues<'a> {
    /// Those of a body. The items that are these instances needn't be looked at.
    pub(crate) fn of(
        alloc: Global,
        body: &'a Body,
        instances: &[Part],
    ) -> Result<OwnValues<'a>, AllocError>
        requires { AreOfInstances (list_of body.now) instances.now }
        ensures { IfOk result (λ own. own ≡ body.now) }
    {
        let len = body.len();
        let mut items = Vec::new(alloc);
        let mut first_dynamic = None;
        let mut next = 0;
        for part in instances {
            let place = part.place();
            if next <= place && place < len {
                add_up_to(&mut items, &mut first_dynamic, body, next, place)?;
                next = place + 1;
            }
        }
        add_up_to(&mut items, &mut first_dynamic, body, next, len)?;
        Ok(OwnValues {
            body,
            items,
            first_dynamic,
        })
    }

    pub(crate) fn body(&self) -> &'a Body
        ensures { result.now ≡ self.now }
    {
        self.body
    }

    /// The number of the first dynamic assignment of the body.
    pub(crate) fn first_dynamic(&self) -> Option<usize>
        ensures { IsFirstDynamic result self.now }
    {
        self.first_dynamic
    }

    /// Whether nothing is assigned to a property.
    pub(crate) fn is_empty(&self) -> bool
        ensures { result ≡ true → (p : Property) → own_value (row p).name self.now ≡ None }
    {
        self.items.is_empty()
    }

    /// The own assignment of the property.
    pub(crate) fn get(&self, property: Property) -> Option<&'a Value>
        ensures { option_copied result ≡ own_value (row property).name self.now }
    {
        assigned_to(property, self.items.as_slice())
    }

    /// Adds what these assignments state for a component of this kind, unless a value before states it.
    pub(crate) fn add_to(
        &self,
        alloc: Global,
        kind: Kind,
        items: &mut Vec<PropertyValue>,
    ) -> Result<(), AllocError>
        ensures { OnOk result ((p : Property) → value_under p items.new.items ≡ option_or (value_under p items.old.items) (shown_on kind p (own_value (row p).name self.now))) }
    {
        for assigned in &self.items {
            add_stated(alloc, kind, items, assigned.property, assigned.value)?;
        }
        Ok(())
    }
}
