//! The values of rows.
ghost use Rattle.std.specs.Prelude.{◌≡◌, [], ◌∷◌, None, true, option_copied, if◌then◌else◌};
ghost use Rattle.std.specs.Option.{option_or};
ghost use Rattle.rdl_tree.specs.Properties.{on};
ghost use Rattle.rdl_tree.specs.declared.property.Property.TheVariants.{Reset};
ghost use Rattle.rdl_elab.specs.Reaches.{value_under};
ghost use Rattle.rdl_elab.specs.SameValues.{HaveSameValues};
ghost use Rattle.rdl_elab.specs.Shown.{valued};

use crate::row::PropertyValue;
use crate::walk::values::{under_either, value_under};
use rdl_text::token::Number;
use rdl_tree::property::Property;
use rdl_tree::shell::Kind;
use rdl_tree::value::Value;
use std::alloc::{AllocError, Global};
use std::marker::Model;
use std::rc::Rc;

/// Whether the values are known to be the same.
fn is_same_value(value: &Value, other: &Value) -> bool
    ensures { result ≡ true → value.now ≡ other.now }
{
    match (value, other) {
        (Value::Number(value), Value::Number(other)) => *value == *other,
        (Value::Text(value), Value::Text(other)) => value.as_str() == other.as_str(),
        (Value::Bool(value), Value::Bool(other)) => *value == *other,
        (Value::Word(value), Value::Word(other)) => *value == *other,
        _ => false,
    }
}

/// Whether both are known to give the same property the same value.
fn is_same_property_value(given: &PropertyValue, other: &PropertyValue) -> bool
    ensures { result ≡ true → given.now ≡ other.now }
{
    given.property == other.property && is_same_value(&given.value, &other.value)
}

/// Whether both lists are known to be the same.
fn are_same_values(values: &[PropertyValue], others: &[PropertyValue]) -> bool
    ensures { result ≡ true → values.now ≡ others.now }
{
    let mut rest = others;
    for value in values {
        let Some((other, behind)) = rest.split_first() else {
            return false;
        };
        if !is_same_property_value(value, other) {
            return false;
        }
        rest = behind;
    }
    rest.is_empty()
}

/// The values of a component, in the parts in which they are held.
#[derive(Debug, Drop)]
pub(crate) struct HeldValues {
    stated: Option<Vec<PropertyValue>>,
    built_ins: Rc<Vec<PropertyValue>>,
}

/// The values of a component, which its rows share. A contract sees the list of all, in the order of the table of
/// properties.
///
/// All components of a kind share the values that it has built in. Beside them stand those that the component states,
/// in any order.
#[derive(Debug, Drop)]
pub(crate) struct ComponentValues {
    held: Rc<HeldValues>,
}

impl Model for ComponentValues {
    ghost use Rattle.std.specs.Prelude.{List, option_map};
    ghost use Rattle.rdl_elab.specs.declared.row.PropertyValue.{PropertyValue};
    ghost use Rattle.rdl_elab.specs.StatedValues.{over};

    ghost Value = { List PropertyValue };

    ghost view = { λ values. over (option_map (λ stated. stated.items) values.held.value.stated) values.held.value.built_ins.value.items };
}

impl ComponentValues {
    ghost use Rattle.std.specs.Prelude.{◌≡◌, Some, true, IfOk, option_copied};
    ghost use Rattle.rdl_tree.specs.declared.property.Property.{Property};
    ghost use Rattle.rdl_elab.specs.Reaches.{value_under};
    ghost use Rattle.rdl_elab.specs.SameValues.{HaveSameValues};
    ghost use Rattle.rdl_elab.specs.StatedValues.{over, under_either};

    /// Those of a component that states none.
    pub(crate) fn built_in(
        alloc: Global,
        built_ins: Rc<Vec<PropertyValue>>,
    ) -> Result<ComponentValues, AllocError>
        ensures { IfOk result (λ values. values ≡ built_ins.value.items) }
    {
        let values = HeldValues {
            stated: None,
            built_ins,
        };
        let held = Rc::new(alloc, values)?;
        Ok(ComponentValues { held })
    }

    /// Those that the component states, over those that its kind has built in.
    pub(crate) fn over(
        alloc: Global,
        stated: Vec<PropertyValue>,
        built_ins: Rc<Vec<PropertyValue>>,
    ) -> Result<ComponentValues, AllocError>
        ensures { IfOk result (λ values. values ≡ over (Some stated.items) built_ins.value.items) }
    {
        let values = HeldValues {
            stated: Some(stated),
            built_ins,
        };
        let held = Rc::new(alloc, values)?;
        Ok(ComponentValues { held })
    }

    /// The values that the component states, and those that its kind has built in.
    pub(crate) fn parts<'v>(&'v self) -> (&'v [PropertyValue], &'v [PropertyValue])
        ensures { (p : Property) → value_under p self.now ≡ under_either result.0.now result.1.now p }
    {
        let held: &HeldValues = &self.held;
        match &held.stated {
            Some(stated) => (stated.as_slice(), held.built_ins.as_slice()),
            None => (&[], held.built_ins.as_slice()),
        }
    }

    /// The value of the property, if it has one.
    pub(crate) fn get(&self, property: Property) -> Option<&Value>
        ensures { option_copied result ≡ value_under property self.now }
    {
        let (stated, built_ins) = self.parts();
        under_either(property, stated, built_ins)
    }

    /// Whether both are known to have the same value of each property.
    fn are_same(&self, other: &ComponentValues) -> bool
        ensures { result ≡ true → HaveSameValues self.now other.now }
    {
        let (stated, built_ins) = self.parts();
        let (other_stated, other_built_ins) = other.parts();
        are_same_values(stated, other_stated) && are_same_values(built_ins, other_built_ins)
    }

    /// The same values once more, which costs no memory.
    pub(crate) fn share(&self) -> Result<ComponentValues, AllocError>
        ensures { IfOk result (λ values. values ≡ self.now) }
    {
        let held = self.held.clone()?;
        Ok(ComponentValues { held })
    }
}

/// The value of a property of an instance of this kind, where this stands before what its component has.
fn before_own<'v>(
    kind: Kind,
    property: Property,
    first: Option<&'v Value>,
    own: &'v ComponentValues,
) -> Option<&'v Value>
    ensures { option_copied result ≡ (if on property kind then option_or (option_copied first.entry) (value_under property own.now) else None) }
{
    if !property.on(kind) {
        return None;
    }
    match first {
        Some(value) => Some(value),
        None => own.get(property),
    }
}

/// The value of the property where no more than a reset has one.
fn if_reset(property: Property, value: &Value) -> Option<&Value>
    ensures { option_copied result ≡ value_under property (valued Reset value.now ∷ []) }
{
    if property == Property::Reset {
        Some(value)
    } else {
        None
    }
}

/// Whether the value is this number.
fn is_number(value: &Value, number: Number) -> bool
    ensures { result ≡ true → value.now ≡ Value.Number number }
{
    match value {
        Value::Number(own) => *own == number,
        _ => false,
    }
}

/// The last number behind the `=` of an instance, which the next ones share while they have the same. A contract sees nothing
/// of it.
#[derive(Drop)]
pub(crate) struct LastReset {
    value: Option<Rc<Value>>,
}

impl Model for LastReset {
    ghost Value = { Unit {0} };

    ghost view = { λ last. tt };
}

impl LastReset {
    ghost use Rattle.std.specs.Prelude.{◌≡◌, IfOk};

    /// Before any instance.
    pub(crate) fn none() -> LastReset {
        LastReset { value: None }
    }

    /// The number as a value.
    fn value(&mut self, alloc: Global, number: Number) -> Result<Rc<Value>, AllocError>
        ensures { IfOk result (λ value. value.value ≡ Value.Number number) }
    {
        if let Some(value) = &self.value {
            if is_number(value, number) {
                return value.clone();
            }
        }
        let value = Rc::new(alloc, Value::Number(number))?;
        self.value = Some(value.clone()?);
        Ok(value)
    }
}

/// What an instance has in the place of values of its component, which is of this kind.
#[derive(Debug, Drop)]
pub(crate) enum Instead {
    /// Nothing: it has all values of its component.
    Own,
    /// Nothing, but it has no value that its kind doesn't take.
    Nothing(Kind),
    /// The number behind its `=`.
    Reset(Kind, Rc<Value>),
    /// What is assigned to it from outside, and the number behind its `=` where nothing is assigned to its reset.
    Assigned(Kind, Box<Vec<PropertyValue>>),
}

impl Instead {
    ghost use Rattle.std.specs.Prelude.{◌≡◌, List, true, option_copied};
    ghost use Rattle.rdl_elab.specs.InstanceValues.{with_instance};
    ghost use Rattle.rdl_elab.specs.Reaches.{value_under};
    ghost use Rattle.rdl_elab.specs.SameValues.{HaveSameValues};
    ghost use Rattle.rdl_elab.specs.declared.row.PropertyValue.{PropertyValue};

    /// The value of a property of the instance, whose component has these values.
    fn get<'v>(&'v self, own: &'v ComponentValues, property: Property) -> Option<&'v Value>
        ensures { option_copied result ≡ value_under property (with_instance self.now own.now) }
    {
        match self {
            Instead::Own => own.get(property),
            Instead::Nothing(kind) => before_own(*kind, property, None, own),
            Instead::Reset(kind, value) => {
                before_own(*kind, property, if_reset(property, value), own)
            }
            Instead::Assigned(kind, values) => {
                let first = value_under(property, values.as_slice());
                before_own(*kind, property, first, own)
            }
        }
    }

    /// Whether both are known to change the values of a component in the same way. What is assigned isn't compared.
    fn is_same(&self, other: &Instead) -> bool
        ensures { result ≡ true → (own others : List PropertyValue) → HaveSameValues own others → HaveSameValues (with_instance self.now own) (with_instance other.now others) }
    {
        match (self, other) {
            (Instead::Own, Instead::Own) => true,
            (Instead::Nothing(kind), Instead::Nothing(other)) => *kind == *other,
            (Instead::Reset(kind, value), Instead::Reset(other, second)) => {
                *kind == *other && is_same_value(value, second)
            }
            _ => false,
        }
    }
}

/// The properties of a row that have a value, in the order of the table of properties. A contract sees the list.
///
/// The rows of a component share its values. Beside them stand those that the instance has in their place, if it has any.
#[derive(Debug, Drop)]
pub struct RowValues {
    own: ComponentValues,
    instance: Instead,
}

impl Model for RowValues {
    ghost use Rattle.std.specs.Prelude.{List};
    ghost use Rattle.rdl_elab.specs.declared.row.PropertyValue.{PropertyValue};
    ghost use Rattle.rdl_elab.specs.InstanceValues.{with_instance};

    ghost Value = { List PropertyValue };

    ghost view = { λ values. with_instance values.instance values.own };
}

impl RowValues {
    ghost use Rattle.std.specs.Prelude.{◌≡◌, [], Some, true, IfOk, option_copied};
    ghost use Rattle.rdl_elab.specs.Layouts.{number_in};
    ghost use Rattle.rdl_elab.specs.InstanceValues.{instance_values};
    ghost use Rattle.rdl_elab.specs.Reaches.{value_under, values_along};
    ghost use Rattle.rdl_elab.specs.SameValues.{HaveSameValues};

    pub fn from_vec(alloc: Global, items: Vec<PropertyValue>) -> Result<RowValues, AllocError>
        ensures { IfOk result (λ values. values ≡ items.items) }
    {
        let items = Rc::new(alloc, items)?;
        Ok(RowValues::of(ComponentValues::built_in(alloc, items)?))
    }

    /// Those of the component.
    pub(crate) fn of(own: ComponentValues) -> RowValues
        ensures { result ≡ own }
    {
        RowValues {
            own,
            instance: Instead::Own,
        }
    }

    /// Those of an instance with this reset, whose component, of this kind, has these values by itself.
    pub(crate) fn with_reset(
        alloc: Global,
        own: ComponentValues,
        kind: Kind,
        reset: Option<Number>,
        last: &mut LastReset,
    ) -> Result<RowValues, AllocError>
        ensures { IfOk result (λ values. values ≡ values_along kind reset [] own) }
    {
        let instance = match reset {
            Some(number) => Instead::Reset(kind, last.value(alloc, number)?),
            None => Instead::Nothing(kind),
        };
        Ok(RowValues { own, instance })
    }

    /// Those of an instance that has these values in the place of those of its component, which is of this kind.
    pub(crate) fn with_assigned(
        alloc: Global,
        own: ComponentValues,
        kind: Kind,
        assigned: Vec<PropertyValue>,
    ) -> Result<RowValues, AllocError>
        ensures { IfOk result (λ values. values ≡ instance_values kind assigned.items own) }
    {
        let instance = Instead::Assigned(kind, Box::new(alloc, assigned)?);
        Ok(RowValues { own, instance })
    }

    /// The value of the property, if it has one.
    pub fn get(&self, property: Property) -> Option<&Value>
        ensures { option_copied result ≡ value_under property self.now }
    {
        self.instance.get(&self.own, property)
    }

    /// Whether both are known to have the same value of each property. It may say no of rows that have, where something is assigned to
    /// one of them from outside.
    pub fn are_same(&self, other: &RowValues) -> bool
        ensures { result ≡ true → HaveSameValues self.now other.now }
    {
        self.instance.is_same(&other.instance) && self.own.are_same(&other.own)
    }

    /// The value of the property, if that is a number.
    pub fn number(&self, property: Property) -> Option<Number>
        ensures { result ≡ number_in (value_under property self.now) }
    {
        match self.get(property) {
            Some(Value::Number(number)) => Some(*number),
            _ => None,
        }
    }
}
