//! Whether a patch fits a description.
ghost use Rattle.std.specs.Prelude.{◌≡◌, ◌<◌, option_copied, length};
ghost use Rattle.rdl_tree.specs.Address.{body_at, holder_of, number_of};
ghost use Rattle.rdl_tree.specs.ItemAt.{item_at};
ghost use Rattle.rdl_tree.specs.Part.{has_part};
ghost use Rattle.rdl_tree.specs.Patch.{fits, is_level, has_place, has_item, has_part_of, length_of};

use crate::address::Address;
use crate::description::{Body, Description, Item, Of};
use crate::find::item_at;
use crate::part::Part;
use crate::patch::Patch;
use crate::patch_address::PatchAddress;

impl Description {
    /// The item at the address. There is none at the root's.
    pub fn item(&self, address: &Address) -> Option<&Item>
        ensures { option_copied result ≡ item_at address.now self.now.items }
    {
        item_at(&self.items, address.as_slice())
    }

    /// Whether the patch can be applied: there is the body into which an item goes, with a place of this number and a
    /// level that is at most 16, or the item that is taken out, moved or changed.
    pub fn fits(&self, patch: &Patch) -> bool
        ensures { result ≡ fits patch.now self.now.items }
    {
        match patch {
            Patch::Insert(address, item) => is_level(address, item) && self.has_place(address),
            Patch::Delete(address) => self.item(&address.address()).is_some(),
            Patch::Shift(address, to) => {
                self.item(&address.address()).is_some() && self.has_item(address, *to)
            }
            Patch::Exchange(address, part) => self.has_part(address, part),
        }
    }

    /// Whether the body has a place of this number for one more item.
    fn has_place(&self, address: &PatchAddress) -> bool
        requires { 0 < length address.now }
        ensures { result ≡ has_place (number_of address.now) (length_of (body_at (holder_of address.now) self.now.items)) }
    {
        match self.body(&address.holder()) {
            Some(body) => address.number() <= body.len(),
            None => false,
        }
    }

    /// Whether the body that holds the item at the address has an item of the other number.
    fn has_item(&self, address: &PatchAddress, number: usize) -> bool
        requires { 0 < length address.now }
        ensures { result ≡ has_item number (length_of (body_at (holder_of address.now) self.now.items)) }
    {
        match self.body(&address.holder()) {
            Some(body) => number < body.len(),
            None => false,
        }
    }

    /// Whether there is an item that has a part of this one's sort.
    fn has_part(&self, address: &PatchAddress, part: &Part) -> bool
        ensures { result ≡ has_part_of part.now (item_at address.now self.now.items) }
    {
        match self.item(&address.address()) {
            Some(item) => item.has_part(part),
            None => false,
        }
    }
}

impl Item {
    /// Whether the item has a part of this one's sort.
    pub fn has_part(&self, part: &Part) -> bool
        ensures { result ≡ has_part part.now self.now }
    {
        match (part, self) {
            (Part::OfShell(_), Item::Instance(_, _)) => true,
            (Part::OfValue(_), Item::Own(_, _)) => true,
            (Part::OfValue(_), Item::Default(_, _)) => true,
            (Part::OfValue(_), Item::Dynamic(_, _, _)) => true,
            (Part::OfTarget(_), Item::Dynamic(_, _, _)) => true,
            (Part::OfType(_), Item::Instance(_, Of::Named(_))) => true,
            (Part::OfDefine(_), Item::Define(_, _)) => true,
            _ => false,
        }
    }
}

/// Whether the item stands in a body, with its innermost body at level 16 at most.
fn is_level(address: &PatchAddress, item: &Item) -> bool
    ensures { result ≡ is_level address.now item.now }
{
    let levels = (address.len() as u64).saturating_add(item.depth());
    !address.is_empty() && levels <= Address::MAX_LEN as u64
}
