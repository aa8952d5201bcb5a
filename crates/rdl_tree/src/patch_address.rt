//! Addresses as patches hold them.
ghost use Rattle.std.specs.Prelude.{◌≡◌, ◌==◌, ℕ, ◌<◌, ◌≤◌, ◌&&◌, List, [], ◌∷◌, ◌++◌, length, not, bytes_eq, IfOk, IfSome, option_copied};
ghost use Rattle.rdl_tree.specs.Address.{holder_of, number_of};
ghost use Rattle.rdl_tree.specs.PatchAddress.{root_around};

use crate::address::Address;
use std::alloc::{AllocError, Global};
use std::fmt;
use std::marker::Model;
use std::rc::Rc;

/// How an address is held.
#[derive(Debug, Drop)]
enum Held {
    /// That of the root body.
    OfNone,
    /// That of an item of the root, by its number.
    OfRoot(usize),
    /// That of the item of this number in the body at an address that others share.
    Inside(Rc<Address>, usize),
}

/// The address of an item, of which patches of items of the same body share what they have in common. That of an item of
/// the root takes no memory. A contract sees the list of its numbers.
#[derive(Debug, Drop)]
pub struct PatchAddress {
    held: Held,
}

impl Model for PatchAddress {
    ghost use Rattle.std.specs.Prelude.{ℕ, List, length, ◌≤◌};
    ghost use Rattle.rdl_tree.specs.PatchAddress.{held_numbers};

    ghost Value = { List ℕ };

    ghost view = { λ a. held_numbers a.held };

    ghost invariant = { λ a. length (held_numbers a.held) ≤ 17 };
}

impl PatchAddress {
    pub fn new(alloc: Global, address: &Address) -> Result<PatchAddress, AllocError>
        ensures { IfOk result (λ a. a ≡ address.now) }
    {
        let held = match address.as_slice() {
            [] => Held::OfNone,
            [number] => Held::OfRoot(*number),
            _ => Held::Inside(Rc::new(alloc, address.holder())?, address.number()),
        };
        Ok(PatchAddress { held })
    }

    /// The address of the item of this number in the same body.
    pub fn beside(&self, number: usize) -> Result<PatchAddress, AllocError>
        requires { 0 < length self.now }
        ensures { IfOk result (λ a. a ≡ holder_of self.now ++ number ∷ []) }
    {
        let held = match &self.held {
            Held::OfNone => unreachable!(),
            Held::OfRoot(_) => Held::OfRoot(number),
            Held::Inside(body, _) => Held::Inside(body.clone()?, number),
        };
        Ok(PatchAddress { held })
    }

    /// The address of the item of this number in the same body, in the place of this one. This takes no memory.
    pub fn moved(self, number: usize) -> PatchAddress
        requires { 0 < length self }
        ensures { result ≡ holder_of self ++ number ∷ [] }
    {
        let held = match self.held {
            Held::OfNone => unreachable!(),
            Held::OfRoot(_) => Held::OfRoot(number),
            Held::Inside(body, _) => Held::Inside(body, number),
        };
        PatchAddress { held }
    }

    pub fn address(&self) -> Address
        ensures { result ≡ self.now }
    {
        match &self.held {
            Held::OfNone => Address::new(),
            Held::OfRoot(number) => Address::new().inside(*number),
            Held::Inside(body, number) => body.as_ref().inside(*number),
        }
    }

    pub fn len(&self) -> usize
        ensures same { result ≡ length self.now }
        ensures short { result ≤ 17 }
    {
        match &self.held {
            Held::OfNone => 0,
            Held::OfRoot(_) => 1,
            Held::Inside(body, _) => body.as_ref().len() + 1,
        }
    }

    pub fn is_empty(&self) -> bool
        ensures { result ≡ (length self.now == 0) }
    {
        matches!(self.held, Held::OfNone)
    }

    /// The address of the body that holds the item at this address.
    pub fn holder(&self) -> Address
        requires { 0 < length self.now }
        ensures { result ≡ holder_of self.now }
    {
        match &self.held {
            Held::OfNone => unreachable!(),
            Held::OfRoot(_) => Address::new(),
            Held::Inside(body, _) => body.as_ref().copy(),
        }
    }

    /// The number, in that body, of the item at this address.
    pub fn number(&self) -> usize
        requires { 0 < length self.now }
        ensures { result ≡ number_of self.now }
    {
        match &self.held {
            Held::OfNone => unreachable!(),
            Held::OfRoot(number) => *number,
            Held::Inside(_, number) => *number,
        }
    }

    /// The number of the item of the root inside which the item at this address stands.
    pub fn root_around(&self) -> Option<usize>
        ensures { result ≡ root_around self.now }
    {
        match &self.held {
            Held::Inside(body, _) => body.as_ref().as_slice().first().copied(),
            _ => None,
        }
    }

    /// Whether it is the address of an item of the body at this one.
    pub fn is_in(&self, body: &Address) -> bool
        ensures { result ≡ (not (length self.now == 0) && bytes_eq body.now (holder_of self.now)) }
    {
        match &self.held {
            Held::OfNone => false,
            Held::OfRoot(_) => body.is_empty(),
            Held::Inside(own, _) => *body == *own.as_ref(),
        }
    }
}

impl fmt::Display for PatchAddress {
    ghost use Rattle.std.specs.Prelude.{Some};
    ghost use Rattle.rdl_tree.specs.AddressText.{address_text};

    ghost output = { λ address. Some (address_text address) };

    fn fmt<W: fmt::Write>(&self, f: &mut fmt::Formatter<W>) -> fmt::Result {
        let address = self.address();
        write!(f, "{address}")
    }
}
