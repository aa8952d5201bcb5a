//! What stands around a component can see of it.
ghost use Rattle.std.specs.Prelude.{◌≡◌};
ghost use Rattle.rdl_seen.specs.Modes.{all_modes, has_mode, and_modes, same_number, number_under};

use crate::mode::Mode;
use crate::names::NameSet;
use crate::property_set::PropertySet;
use crate::values::Access;
use rdl_tree::shell::Kind;

/// Some of the three modes.
#[derive(Clone, Copy, Debug, PartialEq, Eq)]
pub struct Modes {
    pub compact: bool,
    pub regalign: bool,
    pub fullalign: bool,
}

/// A number for each mode.
#[derive(Clone, Copy, Debug, PartialEq, Eq)]
pub struct ByMode {
    pub compact: u64,
    pub regalign: u64,
    pub fullalign: u64,
}

/// What stands around a component can see of it. It has no address and no name.
#[derive(Clone, Copy, Debug, PartialEq, Eq)]
pub struct Seen {
    pub kind: Kind,
    /// The names of the longest path below it, at most 16.
    pub levels: u8,
    /// How deep bodies nest in its own, at most 255.
    pub depth: u8,
    /// Of a field; of other components `Other`.
    pub access: Access,
    /// Of a field: how many bits its reset needs.
    pub reset: Option<u8>,
    /// The properties whose defaults reach it from outside and matter to it or to what is inside.
    pub takes: PropertySet,
    /// The modes in which no row below it can have a fault, if nothing reaches it from outside.
    pub sound: Modes,
    /// Whether it is a register file or an address map without instances.
    pub is_empty: bool,
    /// Whether one such is inside.
    pub has_empty: bool,
    /// Of a register: whether no two of its fields share a bit.
    pub is_ordered: bool,
    /// Whether a dynamic assignment stands inside.
    pub is_assigned: bool,
    /// The rows below it, at most 65,536.
    pub rows: u32,
    /// The items inside it; more than 2^32 - 1 are as many.
    pub count: u32,
    /// What these weigh, in bytes; more than 2^32 - 1 is as much.
    pub weight: u32,
    /// The widest access inside, in bytes.
    pub widest: ByMode,
    /// In bytes, of a field in bits; a number over 2^40 is 2^40 + 1.
    pub size: ByMode,
    /// The classes of the types to which instances inside it refer, those that are defined inside it too.
    pub asks: NameSet,
}

impl Modes {
    /// All three, or none.
    pub fn all(are: bool) -> Modes
        ensures { result ≡ all_modes are }
    {
        Modes {
            compact: are,
            regalign: are,
            fullalign: are,
        }
    }

    /// Whether the mode is one of them.
    pub fn has(self, mode: Mode) -> bool
        ensures { result ≡ has_mode self mode }
    {
        match mode {
            Mode::Compact => self.compact,
            Mode::Regalign => self.regalign,
            Mode::Fullalign => self.fullalign,
        }
    }

    /// The modes that are in both.
    pub fn and(self, other: Modes) -> Modes
        ensures { result ≡ and_modes self other }
    {
        Modes {
            compact: self.compact && other.compact,
            regalign: self.regalign && other.regalign,
            fullalign: self.fullalign && other.fullalign,
        }
    }
}

impl ByMode {
    /// The same for each.
    pub fn same(number: u64) -> ByMode
        ensures { result ≡ same_number number }
    {
        ByMode {
            compact: number,
            regalign: number,
            fullalign: number,
        }
    }

    /// The number of the mode.
    pub fn under(self, mode: Mode) -> u64
        ensures { result ≡ number_under self mode }
    {
        match mode {
            Mode::Compact => self.compact,
            Mode::Regalign => self.regalign,
            Mode::Fullalign => self.fullalign,
        }
    }
}
