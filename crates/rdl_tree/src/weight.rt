//! How much a description has, in items and in bytes of text.
ghost use Rattle.std.specs.Prelude.{◌≡◌, ◌+◌, ℕ, sum_by, length};
ghost use Rattle.rdl_tree.specs.Weight.{weight, capped, value_weight};
ghost use Rattle.rdl_tree.specs.ItemWeight.{item_weight};
ghost use Rattle.rdl_tree.specs.PatchWeight.{part_weight, patch_weight};

use crate::description::{Body, Description, Item, Of};
use crate::part::Part;
use crate::patch::Patch;
use crate::target::Target;
use crate::value::Value;

impl Description {
    pub fn weight(&self) -> u64
        ensures { result ≡ capped (weight self.now.items) }
    {
        self.items.weight()
    }
}

impl Body {
    #[cycle(weigh)]
    #[tactic(auto, using(crate::proofs::Rounds::views))]
    pub fn weight(&self) -> u64
        ensures { result ≡ capped (weight self.now) }
    {
        let mut sum = 0u64;
        for item in &self.items {
            sum = sum.saturating_add(item.weight());
        }
        sum
    }
}

impl Item {
    #[cycle(weigh)]
    pub fn weight(&self) -> u64
        ensures { result ≡ capped (item_weight self.now) }
    {
        match self {
            Item::Define(name, component) => {
                one_and(name.len() as u64, component.body.weight(), 0)
            }
            Item::Instance(shell, Of::Named(name)) => {
                one_and(shell.name().len() as u64, name.len() as u64, 0)
            }
            Item::Instance(shell, Of::Anonymous(component)) => {
                one_and(shell.name().len() as u64, component.body.weight(), 0)
            }
            Item::Own(property, value) => one_and(property.len() as u64, value.weight(), 0),
            Item::Default(property, value) => one_and(property.len() as u64, value.weight(), 0),
            Item::Dynamic(target, property, value) => {
                one_and(target.weight(), property.len() as u64, value.weight())
            }
        }
    }
}

impl Value {
    /// The bytes of a string; other values have no text of their own.
    pub fn weight(&self) -> u64
        ensures { result ≡ capped (value_weight self.now) }
    {
        match self {
            Value::Text(text) => text.len() as u64,
            Value::Number(_) | Value::Bool(_) | Value::Word(_) => 0,
        }
    }
}

impl Target {
    /// The bytes of the names.
    pub fn weight(&self) -> u64
        ensures { result ≡ capped (sum_by length self.now) }
    {
        let mut sum = 0u64;
        for name in self.names() {
            sum = sum.saturating_add(name.len() as u64);
        }
        sum
    }
}

impl Part {
    /// The bytes of the part's texts.
    pub fn weight(&self) -> u64
        ensures { result ≡ capped (part_weight self.now) }
    {
        match self {
            Part::OfShell(shell) => shell.name().len() as u64,
            Part::OfValue(value) => value.weight(),
            Part::OfTarget(target) => target.weight(),
            Part::OfType(name) | Part::OfDefine(name) => name.len() as u64,
        }
    }
}

impl Patch {
    /// 1, the count of the patch's numbers, and the weight of its item or the bytes of its part's texts.
    pub fn weight(&self) -> u64
        ensures { result ≡ capped (patch_weight self.now) }
    {
        match self {
            Patch::Insert(address, item) => one_and(address.len() as u64, item.weight(), 0),
            Patch::Delete(address) => one_and(address.len() as u64, 0, 0),
            Patch::Shift(address, _) => one_and(address.len() as u64, 1, 0),
            Patch::Exchange(address, part) => one_and(address.len() as u64, part.weight(), 0),
        }
    }
}

fn one_and(a: u64, b: u64, c: u64) -> u64
    ensures { result ≡ capped (a + b + c + 1) }
{
    a.saturating_add(b).saturating_add(c).saturating_add(1)
}
