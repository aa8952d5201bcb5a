//! Addresses that several share.
ghost use Rattle.std.specs.Prelude.{◌≡◌, IfOk, IfSome};

use rdl_tree::address::Address;
use std::alloc::{AllocError, Global};
use std::marker::Model;
use std::rc::Rc;

/// How an address is held.
#[derive(Drop)]
enum HeldAddress {
    /// That of an item of the root, by its number.
    OfRoot(usize),
    Shared(Rc<Address>),
}

/// An address that several share. That of an item of the root takes no memory. A contract sees the list of its numbers.
#[derive(Drop)]
pub(crate) struct SharedAddress {
    held: HeldAddress,
}

impl Model for SharedAddress {
    ghost use Rattle.std.specs.Prelude.{ℕ, List};

    ghost Value = { List ℕ };

    ghost use Rattle.rdl_elab.specs.HeldAddress.{held_numbers};

    ghost view = { λ a. held_numbers a.held };
}

/// The number in four bytes, if it is small enough.
fn small(number: usize) -> Option<u32>
    ensures { IfSome result (λ n. n ≡ number) }
{
    if number < 4_294_967_296 {
        Some(number as u32)
    } else {
        None
    }
}

impl SharedAddress {
    ghost use Rattle.std.specs.Prelude.{◌≡◌, ◌<◌, ◌++◌, ◌∷◌, [], length, nat_eq, IfOk, IfSome};
    ghost use Rattle.std.specs.Cmp.Lexicographic.{pointwise};

    pub(crate) fn new(alloc: Global, address: Address) -> Result<SharedAddress, AllocError>
        ensures { IfOk result (λ shared. shared ≡ address) }
    {
        let held = match address.as_slice() {
            [number] => HeldAddress::OfRoot(*number),
            _ => HeldAddress::Shared(Rc::new(alloc, address)?),
        };
        Ok(SharedAddress { held })
    }

    /// The same address, for one more.
    #[inline]
    pub(crate) fn share(&self) -> Result<SharedAddress, AllocError>
        ensures { IfOk result (λ shared. shared ≡ self.now) }
    {
        let held = match &self.held {
            HeldAddress::OfRoot(number) => HeldAddress::OfRoot(*number),
            HeldAddress::Shared(address) => HeldAddress::Shared(address.clone()?),
        };
        Ok(SharedAddress { held })
    }

    /// The number of the item of the root that it is the address of, if there is one with a small number.
    fn of_root(&self) -> Option<u32>
        ensures { IfSome result (λ n. self.now ≡ n ∷ []) }
    {
        match &self.held {
            HeldAddress::OfRoot(number) => small(*number),
            HeldAddress::Shared(_) => None,
        }
    }

    pub(crate) fn address(&self) -> Address
        ensures { result ≡ self.now }
    {
        match &self.held {
            HeldAddress::OfRoot(number) => Address::new().inside(*number),
            HeldAddress::Shared(address) => address.as_ref().copy(),
        }
    }

    /// The address of an item of the body at this address.
    pub(crate) fn inside(&self, number: usize) -> Address
        requires { length self.now < 17 }
        ensures { result ≡ self.now ++ number ∷ [] }
    {
        match &self.held {
            HeldAddress::OfRoot(root) => Address::new().inside(*root).inside(number),
            HeldAddress::Shared(address) => address.as_ref().inside(number),
        }
    }

    /// Whether it is the same address.
    fn is(&self, other: &SharedAddress) -> bool
        ensures { result ≡ pointwise nat_eq self.now other.now }
    {
        match (&self.held, &other.held) {
            (HeldAddress::OfRoot(first), HeldAddress::OfRoot(second)) => first == second,
            _ => self.address() == other.address(),
        }
    }
}

/// The address of an instance, of which that of the body around it is shared. A contract sees the list of its numbers.
#[derive(Drop)]
pub(crate) struct InstanceAddress {
    around: SharedAddress,
    number: usize,
}

impl Model for InstanceAddress {
    ghost use Rattle.std.specs.Prelude.{ℕ, List, ◌++◌, ◌∷◌, []};

    ghost Value = { List ℕ };

    ghost view = { λ a. a.around ++ a.number ∷ [] };
}

impl InstanceAddress {
    ghost use Rattle.std.specs.Prelude.{◌≡◌, ◌++◌, ◌∷◌, [], nat_eq, IfOk, IfSome};
    ghost use Rattle.std.specs.Cmp.Lexicographic.{pointwise};
    ghost use Rattle.rdl_tree.specs.Address.{number_of};

    pub(crate) fn new(around: SharedAddress, number: usize) -> InstanceAddress
        ensures { result ≡ around ++ number ∷ [] }
    {
        InstanceAddress { around, number }
    }

    /// That of the instance of this number in the body of this item of the root.
    #[inline(always)]
    pub(crate) fn of_root(root: u32, number: u32) -> InstanceAddress
        ensures { result ≡ root ∷ number ∷ [] }
    {
        InstanceAddress {
            around: SharedAddress {
                held: HeldAddress::OfRoot(root as usize),
            },
            number: number as usize,
        }
    }

    /// The numbers of the item of the root around the instance and of the instance in its body, if there is such an item, and they
    /// are small.
    pub(crate) fn in_root(&self) -> Option<(u32, u32)>
        ensures { IfSome result (λ n. self.now ≡ n.0 ∷ n.1 ∷ []) }
    {
        let root = self.around.of_root()?;
        let number = small(self.number)?;
        Some((root, number))
    }

    /// The same address, for one more.
    #[inline]
    pub(crate) fn share(&self) -> Result<InstanceAddress, AllocError>
        ensures { IfOk result (λ shared. shared ≡ self.now) }
    {
        Ok(InstanceAddress {
            around: self.around.share()?,
            number: self.number,
        })
    }

    /// The number that the instance has in its body.
    pub(crate) fn number(&self) -> usize
        ensures { result ≡ number_of self.now }
    {
        self.number
    }

    /// Whether it is that of the same instance.
    #[inline(always)]
    pub(crate) fn is(&self, other: &InstanceAddress) -> bool
        ensures { result ≡ pointwise nat_eq self.now other.now }
    {
        self.number == other.number && self.around.is(&other.around)
    }
}

/// The address, shared with those who have asked for it before, if there are any.
pub(crate) fn share(
    alloc: Global,
    address: &Address,
    shared: &mut Option<SharedAddress>,
) -> Result<SharedAddress, AllocError>
    requires { IfSome shared.old (λ a. a ≡ address.now) }
    ensures address { IfOk result (λ a. a ≡ address.now) }
    ensures shared { IfSome shared.new (λ a. a ≡ address.now) }
{
    if let Some(shared) = shared.as_ref() {
        return shared.share();
    }
    let first = SharedAddress::new(alloc, address.copy())?;
    *shared = Some(first.share()?);
    Ok(first)
}
