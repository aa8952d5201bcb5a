//! Faults of a description.
ghost use Rattle.std.specs.Prelude.{◌≡◌};
ghost use Rattle.rdl_tree.specs.Fault.{fault_number};

use crate::address::Address;

/// What is wrong.
#[derive(Clone, Copy, Debug, PartialEq, Eq)]
pub enum FaultKind {
    /// E1: a definition or an instance has the name of one before it in its body.
    NameTwice,
    /// E2: an instance is of a type that no definition before it has.
    UnknownType,
    /// E3: a component of this kind may not stand here.
    KindNotAllowed,
    /// E4: no property has this name.
    UnknownProperty,
    /// E5: the property is none of this kind of component.
    NotOfKind,
    /// E6: the property cannot have this value.
    WrongValue,
    /// E7: the property is assigned before.
    AssignedTwice,
    /// E8: the property excludes one that is assigned before.
    Exclusive,
    /// E9: no instance before the assignment is its target.
    NoSuchTarget,
    /// E10: the property may not be assigned from outside.
    NotDynamic,
    /// E11: an instance of this kind may not have such a part.
    PartNotAllowed,
    /// E12: a number of an instance is out of range.
    OutOfRange,
    /// E13: there is no top.
    NoTop,
    /// E14: a path has over 16 names.
    TooManyLevels,
    /// E15: there are over 65,536 rows.
    TooManyRows,
    /// E16: a register file or address map has no instance.
    EmptyComponent,
    /// E17: the top is too large.
    MapTooLarge,
    /// E18: the `accesswidth` is above the `regwidth`.
    AccessTooWide,
    /// E19: the stride is below the size of an element.
    StrideTooSmall,
    /// E20: the addresses are in use by an earlier sibling.
    AddressOverlap,
    /// E21: the high bit of a field is past its register.
    FieldPastRegister,
    /// E22: the bits are in use by an earlier field.
    FieldOverlap,
    /// E23: the reset does not fit its field.
    ResetTooWide,
    /// E24: there is no memory.
    Memory,
    /// E25: nesting, items or weight are over the limits.
    DescriptionTooLarge,
}

/// What is wrong with a description, and the item at which it shows. The empty address stands for the whole.
#[derive(Debug, Drop)]
pub struct Fault {
    pub kind: FaultKind,
    pub address: Address,
}

impl FaultKind {
    /// The number behind the `E`.
    pub fn number(self) -> u8
        ensures { result ≡ fault_number self }
    {
        match self {
            FaultKind::NameTwice => 1,
            FaultKind::UnknownType => 2,
            FaultKind::KindNotAllowed => 3,
            FaultKind::UnknownProperty => 4,
            FaultKind::NotOfKind => 5,
            FaultKind::WrongValue => 6,
            FaultKind::AssignedTwice => 7,
            FaultKind::Exclusive => 8,
            FaultKind::NoSuchTarget => 9,
            FaultKind::NotDynamic => 10,
            FaultKind::PartNotAllowed => 11,
            FaultKind::OutOfRange => 12,
            FaultKind::NoTop => 13,
            FaultKind::TooManyLevels => 14,
            FaultKind::TooManyRows => 15,
            FaultKind::EmptyComponent => 16,
            FaultKind::MapTooLarge => 17,
            FaultKind::AccessTooWide => 18,
            FaultKind::StrideTooSmall => 19,
            FaultKind::AddressOverlap => 20,
            FaultKind::FieldPastRegister => 21,
            FaultKind::FieldOverlap => 22,
            FaultKind::ResetTooWide => 23,
            FaultKind::Memory => 24,
            FaultKind::DescriptionTooLarge => 25,
        }
    }
}
