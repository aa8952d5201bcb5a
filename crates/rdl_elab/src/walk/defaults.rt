//! The defaults before an item.
use crate::layout::LayoutValues;
use crate::row::PropertyValue;
use crate::row_values::ComponentValues;
use crate::walk::values::{add_assigned, built_in_layout_values, same_property};
use rdl_text::name::Name;
use rdl_tree::properties::property;
use rdl_tree::property::Property;
use rdl_tree::shell::Kind;
use rdl_tree::value::Value;
use std::alloc::{AllocError, Global};
use std::marker::Model;

/// A name and the property of this name, if there is one. A contract sees the name.
#[derive(Drop)]
pub(crate) struct PropertyName<'a> {
    name: &'a Name,
    property: Option<Property>,
}

impl<'a> Model for PropertyName<'a> {
    ghost use Rattle.std.specs.Prelude.{◌≡◌, ℕ, List};
    ghost use Rattle.rdl_tree.specs.Properties.{property_of};

    ghost Value = { List ℕ };

    ghost view = { λ n. n.name.now };

    ghost invariant = { λ n. n.property ≡ property_of n.name.now };
}

impl<'a> PropertyName<'a> {
    ghost use Rattle.std.specs.Prelude.{◌≡◌, bytes_eq};
    ghost use Rattle.rdl_tree.specs.Properties.{row, property_of};

    fn new(name: &'a Name) -> PropertyName<'a>
        ensures { result ≡ name.now }
    {
        let property = property(name.as_str());
        PropertyName { name, property }
    }

    fn property(&self) -> Option<Property>
        ensures { result ≡ property_of self.now }
    {
        self.property
    }

    fn is(&self, property: Property) -> bool
        ensures { result ≡ bytes_eq self.now (row property).name }
    {
        match self.property {
            Some(own) => same_property(own, property),
            None => false,
        }
    }
}

/// The values of components without assignments, each from when it was first asked for.
#[derive(Drop)]
pub(crate) struct SharedValues {
    layout: Option<LayoutValues>,
    addrmap: Option<ComponentValues>,
    regfile: Option<ComponentValues>,
    reg: Option<ComponentValues>,
    field: Option<ComponentValues>,
}

impl SharedValues {
    ghost use Rattle.std.specs.Prelude.{◌≡◌, ℕ, List, IfSome, option_copied};
    ghost use Rattle.rdl_tree.specs.Items.{no_items};
    ghost use Rattle.rdl_tree.specs.declared.value.Value.{Value as Assigned};
    ghost use Rattle.rdl_tree.specs.declared.shell.Kind.{Kind};
    ghost use Rattle.rdl_elab.specs.Layouts.{values_of};
    ghost use Rattle.rdl_elab.specs.Shown.{bare, shown_values};
    ghost use Rattle.rdl_elab.specs.DefaultStacks.{AreShared};

    fn new() -> SharedValues
        ensures { (ds : List (List ℕ × Assigned)) → AreShared ds result }
    {
        SharedValues {
            layout: None,
            addrmap: None,
            regfile: None,
            reg: None,
            field: None,
        }
    }

    /// Those of a component of this kind.
    fn of(&self, kind: Kind) -> Option<&ComponentValues>
        ensures { (ds : List (List ℕ × Assigned)) → AreShared ds self.now → IfSome (option_copied result) (λ values. values ≡ shown_values (bare kind no_items ds)) }
    {
        match kind {
            Kind::Addrmap => self.addrmap.as_ref(),
            Kind::Regfile => self.regfile.as_ref(),
            Kind::Reg => self.reg.as_ref(),
            Kind::Field => self.field.as_ref(),
        }
    }

    fn put_layout(&mut self, values: LayoutValues)
        ensures { (ds : List (List ℕ × Assigned)) → AreShared ds self.old → values ≡ values_of (bare Kind.Field no_items ds) → AreShared ds self.new }
    {
        self.layout = Some(values);
    }

    fn put(&mut self, kind: Kind, values: ComponentValues)
        ensures { (ds : List (List ℕ × Assigned)) → AreShared ds self.old → values ≡ shown_values (bare kind no_items ds) → AreShared ds self.new }
    {
        match kind {
            Kind::Addrmap => self.addrmap = Some(values),
            Kind::Regfile => self.regfile = Some(values),
            Kind::Reg => self.reg = Some(values),
            Kind::Field => self.field = Some(values),
        }
    }
}

/// A property, its default, and the values of components without assignments that this default and those around it
/// reach.
#[derive(Drop)]
pub(crate) struct Default<'a> {
    name: PropertyName<'a>,
    value: &'a Value,
    shared: SharedValues,
}

/// The defaults that stand before an item, those of the bodies around it included. A contract sees their list, the
/// nearest first.
#[derive(Drop)]
pub(crate) struct Defaults<'a> {
    items: Vec<Default<'a>>,
}

impl<'a> Model for Defaults<'a> {
    ghost use Rattle.std.specs.Prelude.{ℕ, List, reverse};
    ghost use Rattle.rdl_tree.specs.declared.value.Value.{Value as Assigned};
    ghost use Rattle.rdl_elab.specs.DefaultStacks.{pairs, AreStacked};

    ghost Value = { List (List ℕ × Assigned) };

    ghost view = { λ s. pairs (reverse s.items.items) };

    ghost invariant = { λ s. AreStacked (reverse s.items.items) };
}

impl<'a> Defaults<'a> {
    ghost use Rattle.std.specs.Prelude.{◌≡◌, ◌-◌, ◌∷◌, ◌≤◌, [], length, drop, IfSome, OnOk, option_copied};
    ghost use Rattle.std.specs.Option.{option_or};
    ghost use Rattle.rdl_tree.specs.Items.{no_items};
    ghost use Rattle.rdl_tree.specs.Properties.{row};
    ghost use Rattle.rdl_tree.specs.declared.property.Property.{Property};
    ghost use Rattle.rdl_tree.specs.declared.shell.Kind.{Kind};
    ghost use Rattle.rdl_scope.specs.Closed.{lookup};
    ghost use Rattle.rdl_elab.specs.Layouts.{values_of};
    ghost use Rattle.rdl_elab.specs.Reaches.{value_under};
    ghost use Rattle.rdl_elab.specs.Shown.{bare, shown_values};
    ghost use Rattle.rdl_elab.specs.StatedValues.{shown_on};

    pub(crate) fn new(alloc: Global) -> Defaults<'a>
        ensures { result ≡ [] }
    {
        Defaults {
            items: Vec::new(alloc),
        }
    }

    pub(crate) fn len(&self) -> usize
        ensures { result ≡ length self.now }
    {
        self.items.len()
    }

    pub(crate) fn push(&mut self, name: &'a Name, value: &'a Value) -> Result<(), AllocError>
        ensures { OnOk result (self.new ≡ (name.now, value.now) ∷ self.old) }
    {
        self.items.push(Default {
            name: PropertyName::new(name),
            value,
            shared: SharedValues::new(),
        })?;
        Ok(())
    }

    /// Keeps those that were there when there were this many.
    pub(crate) fn truncate(&mut self, len: usize)
        requires { len ≤ length self.old }
        ensures { self.new ≡ drop (length self.old - len) self.old }
    {
        self.items.truncate(len);
    }

    /// The nearest default of the property.
    pub(crate) fn get(&self, property: Property) -> Option<&'a Value>
        ensures { option_copied result ≡ lookup (row property).name self.now }
    {
        let mut nearest = None;
        for default in &self.items {
            if default.name.is(property) {
                nearest = Some(default.value);
            }
        }
        nearest
    }

    /// Adds what these defaults, the nearest first, state for a component of this kind, unless a value before states it.
    pub(crate) fn add_to(
        &self,
        alloc: Global,
        kind: Kind,
        items: &mut Vec<PropertyValue>,
    ) -> Result<(), AllocError>
        ensures { OnOk result ((p : Property) → value_under p items.new.items ≡ option_or (value_under p items.old.items) (shown_on kind p (lookup (row p).name self.now))) }
    {
        let mut left = self.items.len();
        while left > 0 {
            left -= 1;
            let default = &self.items[left];
            add_assigned(alloc, kind, items, default.name.property(), default.value)?;
        }
        Ok(())
    }

    /// What the layout of components without assignments depends on, if it is kept.
    pub(crate) fn kept_layout(&self) -> Option<LayoutValues>
        ensures { IfSome result (λ values. values ≡ values_of (bare Kind.Field no_items self.now)) }
    {
        match self.items.last() {
            Some(nearest) => nearest.shared.layout,
            None => Some(built_in_layout_values()),
        }
    }

    /// The values of components of this kind without assignments, if they are kept.
    pub(crate) fn kept(&self, kind: Kind) -> Option<&ComponentValues>
        ensures { IfSome (option_copied result) (λ values. values ≡ shown_values (bare kind no_items self.now)) }
    {
        match self.items.last() {
            Some(nearest) => nearest.shared.of(kind),
            None => None,
        }
    }

    /// Keeps what the layout of components without assignments depends on.
    pub(crate) fn keep_layout(&mut self, values: LayoutValues)
        requires { values ≡ values_of (bare Kind.Field no_items self.old) }
        ensures { self.new ≡ self.old }
    {
        let Some(nearest) = self.items.last_mut() else {
            return;
        };
        nearest.shared.put_layout(values);
    }

    /// Keeps the values of components of this kind without assignments.
    pub(crate) fn keep(&mut self, kind: Kind, values: ComponentValues)
        requires { values ≡ shown_values (bare kind no_items self.old) }
        ensures { self.new ≡ self.old }
    {
        let Some(nearest) = self.items.last_mut() else {
            return;
        };
        nearest.shared.put(kind, values);
    }
}
