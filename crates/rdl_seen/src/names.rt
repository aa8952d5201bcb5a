//! Names in classes, of which a set takes one word.
ghost use Rattle.std.specs.Prelude.{◌≡◌};
ghost use Rattle.rdl_seen.specs.Names.{class_of, no_names, names_of, with_names, is_no_name, do_names_meet, has_class};
ghost use Rattle.rdl_scope.specs.Front.{front};

use rdl_text::name::Name;
use std::marker::Model;

/// A class of names, of which there are 64. Two names of one class may differ. A contract sees its number.
#[derive(Clone, Copy, Debug, PartialEq, Eq)]
pub struct Class {
    number: u8,
}

impl Model for Class {
    ghost use Rattle.std.specs.Prelude.{ℕ, ◌<◌};

    ghost Value = { ℕ };

    ghost view = { λ c. c.number };

    ghost invariant = { λ c. c.number < 64 };

    ghost inverse = { λ n. record { number = n } };
}

/// Some of the 64 classes.
#[derive(Clone, Copy, Debug, PartialEq, Eq)]
pub struct NameSet {
    bits: u64,
}

/// A number that each byte of the name has a part in.
fn front(name: &Name) -> u64
    ensures { result ≡ front name.now }
{
    let mut front = 0u64;
    for byte in name.as_str().as_bytes() {
        front = front.wrapping_mul(131).wrapping_add(u64::from(*byte));
    }
    front
}

/// The class of a name.
pub fn class_of(name: &Name) -> Class
    ensures { result ≡ class_of name.now }
{
    let front = front(name);
    let number = (front ^ (front >> 6) ^ (front >> 17)) % 64;
    Class {
        number: number as u8,
    }
}

impl NameSet {
    /// No class.
    pub fn none() -> NameSet
        ensures { result ≡ no_names }
    {
        NameSet { bits: 0 }
    }

    /// The class alone.
    pub fn of(class: Class) -> NameSet
        ensures { result ≡ names_of class }
    {
        NameSet {
            bits: 1 << class.number,
        }
    }

    /// Whether it has no class.
    pub fn is_empty(self) -> bool
        ensures { result ≡ is_no_name self }
    {
        self.bits == 0
    }

    /// The classes that are in either.
    pub fn with(self, other: NameSet) -> NameSet
        ensures { result ≡ with_names self other }
    {
        NameSet {
            bits: self.bits | other.bits,
        }
    }

    /// Whether a class is in both.
    pub fn meets(self, other: NameSet) -> bool
        ensures { result ≡ do_names_meet self other }
    {
        self.bits & other.bits != 0
    }

    /// Whether it has the class.
    pub fn has(self, class: Class) -> bool
        ensures { result ≡ has_class self class }
    {
        self.bits & (1 << class.number) != 0
    }
}
