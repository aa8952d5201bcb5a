//! The assignments of a body to properties: its own and its defaults.
ghost use Rattle.std.specs.Prelude.{◌≡◌, ◌<◌, length, true, is_ok, IfOk, IfErr};
ghost use Rattle.std.specs.List.{position};
ghost use Rattle.rdl_tree.specs.View.{list_of};
ghost use Rattle.rdl_rewrite.specs.Assignment.{is_sort, assigns, assignment, up_to_last, cleared};
ghost use Rattle.rdl_rewrite.specs.Patches.{set_property, drop_at};
ghost use Rattle.rdl_rewrite.specs.Refuses.{Refuses};

use crate::edit::PatchRefusal;
use crate::patch::one;
use rdl_text::name::Name;
use rdl_tree::address::Address;
use rdl_tree::description::{Body, Item};
use rdl_tree::part::Part;
use rdl_tree::patch::Patch;
use rdl_tree::patch_address::PatchAddress;
use rdl_tree::value::Value;
use std::alloc::{AllocError, Global};

/// Whether an assignment is of the body's own component, or a default for those inside it.
#[derive(Clone, Copy, Debug, PartialEq, Eq)]
pub enum Sort {
    Own,
    Default,
}

impl Sort {
    fn has(self, item: &Item) -> bool
        ensures { result ≡ is_sort self item.now }
    {
        match (self, item) {
            (Sort::Own, Item::Own(..)) => true,
            (Sort::Default, Item::Default(..)) => true,
            _ => false,
        }
    }

    fn assigns(self, property: &Name, item: &Item) -> bool
        ensures { result ≡ assigns self property.now item.now }
    {
        match (self, item) {
            (Sort::Own, Item::Own(assigned, _)) => assigned == property,
            (Sort::Default, Item::Default(assigned, _)) => assigned == property,
            _ => false,
        }
    }

    fn item(self, property: Name, value: Value) -> Item
        ensures { result ≡ assignment self property value }
    {
        match self {
            Sort::Own => Item::Own(property, value),
            Sort::Default => Item::Default(property, value),
        }
    }

    /// The number of the body's assignment to the property.
    fn position(self, property: &Name, body: &Body) -> Option<usize>
        ensures { result ≡ position (assigns self property.now) (list_of body.now) }
    {
        body.as_slice()
            .iter()
            .position(|item| self.assigns(property, item))
    }

    /// The number behind the last assignment of this sort, or 0.
    fn end(self, items: &[Item]) -> usize
        ensures { result ≡ up_to_last (is_sort self) items.now }
    {
        let mut end = 0;
        'items: for (number, item) in items.iter().enumerate() {
            if self.has(item) {
                end = number + 1;
            }
        }
        end
    }
}

/// Gives the property's assignment in the body on the way the value, or puts a new one behind the last of its sort.
pub fn set(
    alloc: Global,
    way: &Address,
    sort: Sort,
    property: &Name,
    value: &Value,
    body: &Body,
) -> Result<Vec<Patch>, AllocError>
    requires room { length way.now < 17 }
    ensures { IfOk result (λ ps. ps.items ≡ set_property way.now sort property.now value.now (list_of body.now)) }
{
    let value = value.try_copy(alloc)?;
    match sort.position(property, body) {
        Some(number) => {
            let at = PatchAddress::new(alloc, &way.inside(number))?;
            one(alloc, Patch::Exchange(at, Part::OfValue(value)))
        }
        None => {
            let at = PatchAddress::new(alloc, &way.inside(sort.end(body.as_slice())))?;
            let item = sort.item(property.try_copy(alloc)?, value);
            one(alloc, Patch::Insert(at, item))
        }
    }
}

/// Takes the property's assignment out of the body on the way.
pub fn clear(
    alloc: Global,
    way: &Address,
    sort: Sort,
    property: &Name,
    body: &Body,
) -> Result<Vec<Patch>, PatchRefusal>
    requires room { length way.now < 17 }
    ensures which { IfOk result (λ ps. ps.items ≡ drop_at way.now (position (assigns sort property.now) (list_of body.now))) }
    ensures accepted { IfOk result (λ _. is_ok (cleared sort property.now body.now) ≡ true) }
    ensures refused { IfErr result (λ refusal. Refuses (cleared sort property.now body.now) refusal) }
{
    match sort.position(property, body) {
        Some(number) => {
            let at = PatchAddress::new(alloc, &way.inside(number))?;
            Ok(one(alloc, Patch::Delete(at))?)
        }
        None => Err(PatchRefusal::NotSet),
    }
}
