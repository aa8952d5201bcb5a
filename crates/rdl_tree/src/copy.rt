//! Copies of descriptions.
ghost use Rattle.std.specs.Prelude.{◌≡◌, IfOk};

use crate::description::{Body, Component, Description, Item, Of};
use crate::shell::Shell;
use crate::target::Target;
use crate::value::Value;
use rdl_text::name::Name;
use std::alloc::{AllocError, Global};

impl Description {
    pub fn try_copy(&self, alloc: Global) -> Result<Description, AllocError>
        ensures { IfOk result (λ copy. copy ≡ self.now) }
    {
        let items = self.items.try_copy(alloc)?;
        Ok(Description { items })
    }
}

impl Body {
    #[cycle(copy)]
    pub fn try_copy(&self, alloc: Global) -> Result<Body, AllocError>
        ensures { IfOk result (λ copy. copy ≡ self.now) }
    {
        let mut items = Vec::with_capacity(alloc, self.items.len())?;
        for item in &self.items {
            items.push(item.try_copy(alloc)?)?;
        }
        Ok(Body { items })
    }
}

impl Item {
    #[cycle(copy)]
    pub fn try_copy(&self, alloc: Global) -> Result<Item, AllocError>
        ensures { IfOk result (λ copy. copy ≡ self.now) }
    {
        match self {
            Item::Define(name, component) => define(alloc, name, component.try_copy(alloc)?),
            Item::Instance(shell, of) => instance(alloc, shell, of.try_copy(alloc)?),
            Item::Own(property, value) => own(alloc, property, value),
            Item::Default(property, value) => default(alloc, property, value),
            Item::Dynamic(target, property, value) => dynamic(alloc, target, property, value),
        }
    }
}

impl Of {
    #[cycle(copy)]
    pub fn try_copy(&self, alloc: Global) -> Result<Of, AllocError>
        ensures { IfOk result (λ copy. copy ≡ self.now) }
    {
        match self {
            Of::Named(name) => Ok(Of::Named(name.try_copy(alloc)?)),
            Of::Anonymous(component) => Ok(Of::Anonymous(component.try_copy(alloc)?)),
        }
    }
}

impl Component {
    #[cycle(copy)]
    pub fn try_copy(&self, alloc: Global) -> Result<Component, AllocError>
        ensures { IfOk result (λ copy. copy ≡ self.now) }
    {
        let body = self.body.try_copy(alloc)?;
        Ok(Component {
            kind: self.kind,
            body,
        })
    }
}

/// The definition of the component under a copy of the name.
fn define(alloc: Global, name: &Name, component: Component) -> Result<Item, AllocError>
    ensures { IfOk result (λ item. item ≡ Item.Define name.now component) }
{
    Ok(Item::Define(name.try_copy(alloc)?, component))
}

/// The instance of the component with a copy of the shell.
fn instance(alloc: Global, shell: &Shell, of: Of) -> Result<Item, AllocError>
    ensures { IfOk result (λ item. item ≡ Item.Instance shell.now of) }
{
    Ok(Item::Instance(shell.try_copy(alloc)?, of))
}

fn own(alloc: Global, property: &Name, value: &Value) -> Result<Item, AllocError>
    ensures { IfOk result (λ item. item ≡ Item.Own property.now value.now) }
{
    let property = property.try_copy(alloc)?;
    Ok(Item::Own(property, value.try_copy(alloc)?))
}

fn default(alloc: Global, property: &Name, value: &Value) -> Result<Item, AllocError>
    ensures { IfOk result (λ item. item ≡ Item.Default property.now value.now) }
{
    let property = property.try_copy(alloc)?;
    Ok(Item::Default(property, value.try_copy(alloc)?))
}

fn dynamic(
    alloc: Global,
    target: &Target,
    property: &Name,
    value: &Value,
) -> Result<Item, AllocError>
    ensures { IfOk result (λ item. item ≡ Item.Dynamic target.now property.now value.now) }
{
    let property = property.try_copy(alloc)?;
    let value = value.try_copy(alloc)?;
    Ok(Item::Dynamic(target.try_copy(alloc)?, property, value))
}
