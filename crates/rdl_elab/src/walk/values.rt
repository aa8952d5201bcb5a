//! The values of components and of rows.
ghost use Rattle.std.specs.Prelude.{◌≡◌, ◌++◌, ℕ, List, [], true, Some, None, IfOk, OnOk, IsTrue, option_copied, option_map, is_some, bytes_eq};
ghost use Rattle.std.specs.Option.{option_or};
ghost use Rattle.rdl_tree.specs.Properties.{row, properties, property_of};
ghost use Rattle.rdl_tree.specs.declared.shell.Kind.{Kind};
ghost use Rattle.rdl_scope.specs.Closed.{Head, stated, built_in, head_value};
ghost use Rattle.rdl_tree.specs.declared.property.Property.{Property};
ghost use Rattle.rdl_tree.specs.declared.property.Property.TheVariants.{Sw, Reset};
ghost use Rattle.rdl_scope.specs.Value.{shown};
ghost use Rattle.rdl_elab.specs.Layouts.{values_of, number_in, power_in, width_in, mode_in};
ghost use Rattle.std.specs.List.{cons_option};
ghost use Rattle.rdl_tree.specs.Items.{no_items};
ghost use Rattle.rdl_elab.specs.Shown.{bare, shown_value, shown_among, shown_values, built_in_values};
ghost use Rattle.rdl_elab.specs.Shown.{valued};
ghost use Rattle.rdl_elab.specs.Reaches.{reached, reset_value, value_under, values_along};
ghost use Rattle.rdl_elab.specs.StatedValues.{shown_on, if_named, stated_for, under_either};

use crate::layout::{LayoutValues, Mode};
use crate::row::PropertyValue;
use crate::row_values::{ComponentValues, RowValues};
use crate::walk::built_ins::BuiltIns;
use crate::walk::defaults::Defaults;
use crate::walk::own_values::OwnValues;
use crate::walk::reaches::{Assignment, add_reached};
use rdl_scope::values::shown;
use rdl_text::token::Number;
use rdl_tree::description::Body;
use rdl_tree::property::{Form, Property};
use rdl_tree::shell::Kind;
use rdl_tree::value::{Value, Word};
use std::alloc::{AllocError, Global};

/// The own assignment of the property, or else the nearest default.
fn stated<'a>(own: &OwnValues<'a>, defaults: &Defaults<'a>, property: Property) -> Option<&'a Value>
    ensures { option_copied result ≡ stated (bare Kind.Field own.now defaults.now) (row property).name }
{
    match own.get(property) {
        Some(value) => Some(value),
        None => defaults.get(property),
    }
}

fn number_in(value: &Value) -> Option<Number>
    ensures { result ≡ number_in (Some value.now) }
{
    match value {
        Value::Number(number) => Some(*number),
        _ => None,
    }
}

fn stated_number(own: &OwnValues, defaults: &Defaults, property: Property) -> Option<Number>
    ensures { result ≡ number_in (option_or (stated (bare Kind.Field own.now defaults.now) (row property).name) (row property).built_in) }
{
    match stated(own, defaults, property) {
        Some(value) => number_in(value),
        None => number_in(&property.built_in()?),
    }
}

fn power_in(number: Option<Number>) -> Option<Number>
    ensures { result ≡ power_in number }
{
    match number {
        Some(n) if n.is_power_of_two() => Some(n),
        _ => None,
    }
}

fn width_in(number: Option<Number>) -> u64
    ensures { result ≡ width_in number }
{
    match number {
        Some(n) if Form::Widths.has(&Value::Number(n)) => n as u64,
        _ => 0,
    }
}

fn mode_in(value: Option<&Value>) -> Mode
    ensures { result ≡ mode_in (option_copied value.entry) }
{
    match value {
        Some(Value::Word(Word::Compact)) => Mode::Compact,
        Some(Value::Word(Word::Fullalign)) => Mode::Fullalign,
        _ => Mode::Regalign,
    }
}

fn bare_layout_values(own: &OwnValues, defaults: &Defaults) -> LayoutValues
    ensures { result ≡ values_of (bare Kind.Field own.now defaults.now) }
{
    let regwidth = stated_number(own, defaults, Property::Regwidth);
    let accesswidth = match stated(own, defaults, Property::Accesswidth) {
        Some(value) => number_in(value),
        None => regwidth,
    };
    LayoutValues {
        addressing: mode_in(stated(own, defaults, Property::Addressing)),
        alignment: power_in(stated_number(own, defaults, Property::Alignment)),
        regwidth: width_in(regwidth),
        accesswidth: width_in(accesswidth),
        fieldwidth: stated_number(own, defaults, Property::Fieldwidth).unwrap_or(0),
    }
}

pub(crate) fn built_in_layout_values() -> LayoutValues
    ensures { result ≡ values_of (bare Kind.Field no_items []) }
{
    LayoutValues {
        addressing: Mode::Regalign,
        alignment: None,
        regwidth: 32,
        accesswidth: 32,
        fieldwidth: 1,
    }
}

/// The values on which the layout of a component with these assignments depends, where these defaults reach it. Those
/// of a component without assignments are kept for the next one.
pub(crate) fn layout_values(own: &OwnValues, defaults: &mut Defaults) -> LayoutValues
    ensures values { (h : Head) → h.body ≡ own.now → h.defaults ≡ defaults.old → result ≡ values_of h }
    ensures stays { defaults.new ≡ defaults.old }
{
    if !own.is_empty() {
        return bare_layout_values(own, defaults);
    }
    if let Some(values) = defaults.kept_layout() {
        return values;
    }
    let values = bare_layout_values(own, defaults);
    defaults.keep_layout(values);
    values
}

fn copied(alloc: Global, value: Option<&Value>) -> Result<Option<Value>, AllocError>
    ensures { IfOk result (λ v. v ≡ option_copied value.entry) }
{
    match value {
        Some(value) => Ok(Some(value.try_copy(alloc)?)),
        None => Ok(None),
    }
}

fn built_in(
    alloc: Global,
    own: &OwnValues,
    defaults: &Defaults,
    property: Property,
) -> Result<Option<Value>, AllocError>
    ensures { IfOk result (λ v. v ≡ built_in (bare Kind.Field own.now defaults.now) property) }
{
    match property {
        Property::Accesswidth => match stated(own, defaults, Property::Regwidth) {
            Some(value) => Ok(Some(value.try_copy(alloc)?)),
            None => Ok(Property::Regwidth.built_in()),
        },
        _ => Ok(property.built_in()),
    }
}

/// The value of a property of a component with these assignments, where these defaults reach it.
fn component_value(
    alloc: Global,
    own: &OwnValues,
    defaults: &Defaults,
    property: Property,
) -> Result<Option<Value>, AllocError>
    ensures { IfOk result (λ v. v ≡ head_value (bare Kind.Field own.now defaults.now) property) }
{
    match stated(own, defaults, property) {
        Some(value) => Ok(Some(value.try_copy(alloc)?)),
        None => built_in(alloc, own, defaults, property),
    }
}

fn shown_option(form: Form, value: Option<Value>) -> Option<Value>
    ensures { result ≡ option_map (shown form) value }
{
    match value {
        Some(value) => Some(shown(form, value)),
        None => None,
    }
}

fn shown_value(
    alloc: Global,
    kind: Kind,
    own: &OwnValues,
    defaults: &Defaults,
    property: Property,
) -> Result<Option<Value>, AllocError>
    ensures { IfOk result (λ v. v ≡ shown_value (bare kind own.now defaults.now) property) }
{
    if property.on(kind) {
        let value = component_value(alloc, own, defaults, property)?;
        Ok(shown_option(property.form(), value))
    } else {
        Ok(None)
    }
}

/// How many values a component of the kind mostly has.
fn room(kind: Kind) -> usize {
    match kind {
        Kind::Addrmap => 4,
        Kind::Regfile => 2,
        Kind::Reg => 5,
        Kind::Field => 26,
    }
}

/// The values that there are of these properties, each looked for.
#[tactic(auto, using(crate::proofs::ValueLists::steps))]
fn shown_among(
    alloc: Global,
    kind: Kind,
    own: &OwnValues,
    defaults: &Defaults,
    properties: &[Property],
) -> Result<Vec<PropertyValue>, AllocError>
    ensures { IfOk result (λ values. values.items ≡ shown_among (bare kind own.now defaults.now) properties.now) }
{
    let mut items = Vec::with_capacity(alloc, room(kind))?;
    for property in properties {
        if let Some(value) = shown_value(alloc, kind, own, defaults, *property)? {
            items.push(PropertyValue {
                property: *property,
                value,
            })?;
        }
    }
    Ok(items)
}

/// The values of a component of this kind without assignments that no default reaches.
pub(crate) fn built_in_values(alloc: Global, kind: Kind) -> Result<Vec<PropertyValue>, AllocError>
    ensures { IfOk result (λ values. values.items ≡ built_in_values kind) }
{
    let body = Body::new(alloc);
    let own = OwnValues::of(alloc, &body, &[])?;
    shown_among(alloc, kind, &own, &Defaults::new(alloc), &Property::ALL)
}

fn has_value(property: Property, items: &[PropertyValue]) -> bool
    ensures { result ≡ is_some (value_under property items.now) }
{
    value_under(property, items).is_some()
}

/// Adds a value that a component of this kind states, unless it hasn't the property or a value before states it.
pub(crate) fn add_stated(
    alloc: Global,
    kind: Kind,
    items: &mut Vec<PropertyValue>,
    property: Property,
    value: &Value,
) -> Result<(), AllocError>
    ensures { OnOk result ((p : Property) → value_under p items.new.items ≡ option_or (value_under p items.old.items) (if_named (row property).name (shown_on kind property (Some value.now)) p)) }
{
    if !property.on(kind) {
        return Ok(());
    }
    if has_value(property, items.as_slice()) {
        return Ok(());
    }
    let value = shown(property.form(), value.try_copy(alloc)?);
    items.push(PropertyValue { property, value })?;
    Ok(())
}

/// Puts the value that is assigned to the property of this name behind the others, if there is such a property and the kind has
/// it.
pub(crate) fn add_assigned(
    alloc: Global,
    kind: Kind,
    items: &mut Vec<PropertyValue>,
    property: Option<Property>,
    value: &Value,
) -> Result<(), AllocError>
    ensures { OnOk result ((name : List ℕ) (p : Property) → property ≡ property_of name → value_under p items.new.items ≡ option_or (value_under p items.old.items) (shown_on kind p (if_named name (Some value.now) p))) }
{
    match property {
        Some(property) => add_stated(alloc, kind, items, property, value),
        None => Ok(()),
    }
}

/// Adds the accesswidth that a stated regwidth is, unless a value before states it.
fn add_accesswidth(
    alloc: Global,
    kind: Kind,
    items: &mut Vec<PropertyValue>,
) -> Result<(), AllocError>
    ensures { OnOk result ((p : Property) → value_under p items.new.items ≡ option_or (value_under p items.old.items) (if_named (row Property.Accesswidth).name (shown_on kind Property.Accesswidth (value_under Property.Regwidth items.old.items)) p)) }
{
    match copied(alloc, value_under(Property::Regwidth, items.as_slice()))? {
        Some(regwidth) => add_stated(alloc, kind, items, Property::Accesswidth, &regwidth),
        None => Ok(()),
    }
}

/// The values that a component of this kind with these assignments states, where these defaults reach it.
fn stated_values(
    alloc: Global,
    kind: Kind,
    own: &OwnValues,
    defaults: &Defaults,
) -> Result<Vec<PropertyValue>, AllocError>
    ensures { IfOk result (λ values. (p : Property) → value_under p values.items ≡ shown_on kind p (stated_for (bare kind own.now defaults.now) p)) }
{
    let mut items = Vec::new(alloc);
    own.add_to(alloc, kind, &mut items)?;
    defaults.add_to(alloc, kind, &mut items)?;
    add_accesswidth(alloc, kind, &mut items)?;
    Ok(items)
}

/// Makes the values of a component of this kind with these assignments, where these defaults reach it.
fn bare_values(
    alloc: Global,
    kind: Kind,
    own: &OwnValues,
    defaults: &Defaults,
    built_ins: &BuiltIns,
) -> Result<ComponentValues, AllocError>
    ensures { IfOk result (λ values. values ≡ shown_values (bare kind own.now defaults.now)) }
{
    let stated = stated_values(alloc, kind, own, defaults)?;
    if stated.is_empty() {
        return built_ins.values(kind).share();
    }
    let built_ins = built_ins.of(kind).clone()?;
    ComponentValues::over(alloc, stated, built_ins)
}

/// The values of a component of this kind with these assignments, where these defaults reach it. Those of a component
/// without assignments are kept for the next one of the kind.
pub(crate) fn shown_values(
    alloc: Global,
    kind: Kind,
    own: &OwnValues,
    defaults: &mut Defaults,
    built_ins: &BuiltIns,
) -> Result<ComponentValues, AllocError>
    ensures values { IfOk result (λ values. (h : Head) → h.kind ≡ kind → h.body ≡ own.now → h.defaults ≡ defaults.old → values ≡ shown_values h) }
    ensures stays { OnOk result (defaults.new ≡ defaults.old) }
{
    if !own.is_empty() {
        return bare_values(alloc, kind, own, defaults, built_ins);
    }
    if let Some(values) = defaults.kept(kind) {
        return values.share();
    }
    let values = bare_values(alloc, kind, own, defaults, built_ins)?;
    defaults.keep(kind, values.share()?);
    Ok(values)
}

/// Whether they are the same. No two properties have one name.
pub(crate) fn same_property(a: Property, b: Property) -> bool
    ensures { result ≡ bytes_eq (row a).name (row b).name }
{
    a == b
}

/// The first value of the property among these.
pub(crate) fn value_under(property: Property, own: &[PropertyValue]) -> Option<&Value>
    ensures { option_copied result ≡ value_under property own.now }
{
    for value in own {
        if same_property(value.property, property) {
            return Some(&value.value);
        }
    }
    None
}

/// The value of the property among those that are stated, or else among those that are built in.
pub(crate) fn under_either<'v>(
    property: Property,
    stated: &'v [PropertyValue],
    built_ins: &'v [PropertyValue],
) -> Option<&'v Value>
    ensures { option_copied result ≡ under_either stated.now built_ins.now property }
{
    match value_under(property, stated) {
        Some(value) => Some(value),
        None => value_under(property, built_ins),
    }
}

/// Adds what is assigned to an instance of this kind, and this reset where nothing is assigned to its reset.
fn add_replaced(
    alloc: Global,
    kind: Kind,
    reset: Option<Number>,
    reaching: &[Assignment],
    items: &mut Vec<PropertyValue>,
) -> Result<(), AllocError>
    ensures { OnOk result ((p : Property) → value_under p items.new.items ≡ option_or (value_under p items.old.items) (shown_on kind p (option_or (reached (row p).name reaching.now) (reset_value p reset)))) }
{
    add_reached(alloc, kind, reaching, items)?;
    match reset {
        Some(number) => { add_stated(alloc, kind, items, Property::Reset, &Value::Number(number)) }
        None => Ok(()),
    }
}

/// The values of the row of an instance with this reset, which these assignments reach, and whose component, of this
/// kind, has these values by itself.
///
/// Where there is no assignment, `RowValues::of` and `RowValues::with_reset` are quicker.
pub(crate) fn row_values(
    alloc: Global,
    kind: Kind,
    reset: Option<Number>,
    reaching: &[Assignment],
    own: &ComponentValues,
) -> Result<RowValues, AllocError>
    ensures { IfOk result (λ values. values ≡ values_along kind reset reaching.now own.now) }
{
    let mut items = Vec::with_capacity(alloc, reaching.len().saturating_add(1))?;
    add_replaced(alloc, kind, reset, reaching, &mut items)?;
    let own = own.share()?;
    RowValues::with_assigned(alloc, own, kind, items)
}
