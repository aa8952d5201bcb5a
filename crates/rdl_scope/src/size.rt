//! How large a body is at most, in one walk that reads no names of targets.
ghost use Rattle.std.specs.Prelude.{◌≡◌, ◌≤◌, ◌+◌, IfSome, length, sum_by};
ghost use Rattle.rdl_tree.specs.Items.{no_items};
ghost use Rattle.rdl_tree.specs.Weight.{capped};
ghost use Rattle.rdl_tree.specs.ItemWeight.{item_weight};
ghost use Rattle.rdl_tree.specs.View.{add};
ghost use Rattle.rdl_tree.specs.declared.description.Item.{Item};
ghost use Rattle.rdl_tree.specs.declared.description.Of.{Of};
ghost use Rattle.rdl_scope.specs.Sizes.{IsSizeOf};

use rdl_text::name::Name;
use rdl_tree::description::{Body, Description, Item, Of};
use rdl_tree::shell::Shell;
use rdl_tree::target::Target;
use rdl_tree::value::Value;

/// How large items are with all inside them. Each number stops at the greatest `u64`.
#[derive(Debug, Clone, Copy)]
pub struct Size {
    /// How deep they nest, in levels of braces.
    pub depth: u64,
    /// How many they are, in items.
    pub count: u64,
    /// A number that their weight isn't above: one for each item, and one for each byte of names, target names, property names
    /// and strings.
    pub weight: u64,
}

impl Size {
    ghost use Rattle.std.specs.Prelude.{◌≡◌, ◌+◌, max};
    ghost use Rattle.rdl_tree.specs.Weight.{capped};
    ghost use Rattle.rdl_tree.specs.Items.{no_items};
    ghost use Rattle.rdl_scope.specs.Sizes.{IsSizeOf};

    /// The size of no items.
    pub fn nothing() -> Size
        ensures { IsSizeOf no_items result }
    {
        Size {
            depth: 0,
            count: 0,
            weight: 0,
        }
    }

    /// The size of the items of this size with those of the other size after them, in one body.
    pub fn beside(self, other: Size) -> Size
        ensures depth { result.depth ≡ max self.depth other.depth }
        ensures count { result.count ≡ capped (self.count + other.count) }
        ensures weight { result.weight ≡ capped (self.weight + other.weight) }
    {
        Size {
            depth: self.depth.max(other.depth),
            count: self.count.saturating_add(other.count),
            weight: self.weight.saturating_add(other.weight),
        }
    }
}

/// The size of an item of this name, in whose braces stand items of this size.
fn around(name: usize, inner: Size) -> Size
    ensures depth { result.depth ≡ capped (inner.depth + 1) }
    ensures count { result.count ≡ capped (inner.count + 1) }
    ensures weight { result.weight ≡ capped (name + 1 + inner.weight) }
{
    Size {
        depth: inner.depth.saturating_add(1),
        count: inner.count.saturating_add(1),
        weight: (name as u64).saturating_add(1).saturating_add(inner.weight),
    }
}

/// The bytes that so many names have at most. No name is read.
fn most_bytes(names: &[Name]) -> u64
    ensures { capped (sum_by length names.now) ≤ result }
{
    let mut most = 0u64;
    'names: for name in names {
        name.is_name();
        most = most.saturating_add(255);
    }
    most
}

/// The weight that such an assignment has at most.
fn most_weight(target: &Target, property: &Name, value: &Value) -> u64
    ensures { capped (item_weight (Item.Dynamic target.now property.now value.now)) ≤ result }
{
    most_bytes(target.names())
        .saturating_add(property.len() as u64)
        .saturating_add(value.weight())
        .saturating_add(1)
}

/// The size of an instance of a type.
#[inline(always)]
fn named_size(shell: &Shell, name: &Name) -> Size
    ensures { IsSizeOf (add (Item.Instance shell.now (Of.Named name.now)) no_items) result }
{
    let names = (shell.name().len() as u64).saturating_add(name.len() as u64);
    Size {
        depth: 0,
        count: 1,
        weight: names.saturating_add(1),
    }
}

/// The size of an instance of this, if it is one of a type.
#[inline(always)]
fn size_of_named(shell: &Shell, of: &Of) -> Option<Size>
    ensures { IfSome result (IsSizeOf (add (Item.Instance shell.now of.now) no_items)) }
{
    match of {
        Of::Named(name) => Some(named_size(shell, name)),
        Of::Anonymous(_) => None,
    }
}

/// The size of an item, if it is an instance of a type, as most items of a large body are.
#[inline(always)]
fn size_if_named(item: &Item) -> Option<Size>
    ensures { IfSome result (IsSizeOf (add item.now no_items)) }
{
    match item {
        Item::Instance(shell, of) => size_of_named(shell, of),
        Item::Define(_, _) | Item::Own(_, _) | Item::Default(_, _) | Item::Dynamic(_, _, _) => {
            None
        }
    }
}

/// The size of an item with all inside it, in one walk that reads no names of targets.
#[cycle(size)]
pub fn item_size(item: &Item) -> Size
    ensures { IsSizeOf (add item.now no_items) result }
{
    match item {
        Item::Define(name, component) => around(name.len(), body_size(&component.body)),
        Item::Instance(shell, Of::Anonymous(component)) => {
            around(shell.name().len(), body_size(&component.body))
        }
        Item::Dynamic(target, property, value) => Size {
            depth: 0,
            count: 1,
            weight: most_weight(target, property, value),
        },
        Item::Instance(shell, Of::Named(name)) => named_size(shell, name),
        Item::Own(_, _) | Item::Default(_, _) => Size {
            depth: 0,
            count: 1,
            weight: item.weight(),
        },
    }
}

/// The size of the items of a body with all inside them.
#[cycle(size)]
pub(crate) fn body_size(body: &Body) -> Size
    ensures { IsSizeOf body.now result }
{
    let mut size = Size::nothing();
    for item in body.as_slice() {
        let more = match size_if_named(item) {
            Some(size) => size,
            None => item_size(item),
        };
        size = size.beside(more);
    }
    size
}
