//! Where an item stands.
ghost use Rattle.std.specs.Prelude.{◌≡◌, ◌==◌, ℕ, ◌<◌, ◌≤◌, List, [], ◌∷◌, ◌++◌, length, take};
ghost use Rattle.rdl_tree.specs.Address.{holder_of, number_of};

use std::fmt;
use std::marker::Model;

/// The number of an item in the root body, then the number of an item in that item's component body, and so on. All
/// count from 0. The address without a number is that of the root body. A contract sees the list of the numbers.
///
/// It has at most 17 numbers, as bodies nest at most 16 deep below the root, and takes no memory.
#[derive(Debug, Drop)]
pub struct Address {
    numbers: [usize; Address::MAX_LEN],
    len: usize,
}

impl Model for Address {
    ghost Value = { List ℕ };

    ghost view = { λ a. take a.len a.numbers };

    ghost invariant = { λ a. a.len ≤ 17 };
}

impl Address {
    pub const MAX_LEN: usize = 17;

    /// The address of the root body.
    pub fn new() -> Address
        ensures { result ≡ [] }
    {
        Address {
            numbers: [0; Address::MAX_LEN],
            len: 0,
        }
    }

    pub fn as_slice(&self) -> &[usize]
        ensures value { result.now ≡ self.now }
        ensures short { length result.now ≤ 17 }
    {
        &self.numbers[..self.len]
    }

    pub fn len(&self) -> usize
        ensures same { result ≡ length self.now }
        ensures short { result ≤ 17 }
    {
        self.len
    }

    pub fn is_empty(&self) -> bool
        ensures { result ≡ (length self.now == 0) }
    {
        self.len == 0
    }

    /// Goes on to an item of the body at this address.
    pub fn push(&mut self, number: usize)
        requires { length self.old < 17 }
        ensures { self.new ≡ self.old ++ number ∷ [] }
    {
        self.numbers[self.len] = number;
        self.len += 1;
    }

    /// The address of an item of the body at this address.
    pub fn inside(&self, number: usize) -> Address
        requires { length self.now < 17 }
        ensures { result ≡ self.now ++ number ∷ [] }
    {
        let mut numbers = self.numbers;
        numbers[self.len] = number;
        Address {
            numbers,
            len: self.len + 1,
        }
    }

    /// The address of the body that holds the item at this address.
    pub fn holder(&self) -> Address
        requires { 0 < length self.now }
        ensures { result ≡ holder_of self.now }
    {
        Address {
            numbers: self.numbers,
            len: self.len - 1,
        }
    }

    /// The number, in that body, of the item at this address.
    pub fn number(&self) -> usize
        requires { 0 < length self.now }
        ensures { result ≡ number_of self.now }
    {
        let numbers = self.as_slice();
        numbers[numbers.len() - 1]
    }

    pub fn copy(&self) -> Address
        ensures { result ≡ self.now }
    {
        Address {
            numbers: self.numbers,
            len: self.len,
        }
    }
}

impl Default for Address {
    ghost use Rattle.std.specs.Prelude.{◌≡◌, []};

    ghost is_default = { λ address. address ≡ [] };

    fn default() -> Address {
        Address::new()
    }
}

impl Eq for Address {
    ghost use Rattle.std.specs.Cmp.Rules.{comparing};
    ghost use Rattle.std.proofs.Common.{rules};

    ghost laws = { Prim.search (comparing, rules) };
}

impl PartialEq for Address {
    ghost use Rattle.std.specs.Prelude.{◌==◌};
    ghost use Rattle.std.specs.Cmp.Lexicographic.{pointwise};
    ghost use Rattle.std.specs.Cmp.Rules.{comparing};
    ghost use Rattle.std.proofs.Common.{rules};

    ghost eq = { pointwise ◌==◌ };

    ghost laws = { Prim.search (comparing, rules) };

    fn eq(&self, other: &Address) -> bool {
        self.as_slice() == other.as_slice()
    }
}

impl fmt::Display for Address {
    ghost use Rattle.std.specs.Prelude.{Some};
    ghost use Rattle.rdl_tree.specs.AddressText.{address_text};

    ghost output = { λ address. Some (address_text address) };

    #[tactic(auto, using(crate::proofs::Steps::path_split))]
    fn fmt<W: fmt::Write>(&self, f: &mut fmt::Formatter<W>) -> fmt::Result {
        match self.as_slice() {
            [] => write!(f, "-"),
            [first, rest @ ..] => {
                write!(f, "{first}")?;
                for number in rest {
                    write!(f, ".{number}")?;
                }
                Ok(())
            }
        }
    }
}
