//! Why an edit of the map is refused.
ghost use Rattle.std.specs.Prelude.{◌≡◌};
ghost use Rattle.rdl_edit.specs.Faults.{is_memory, refused};
ghost use Rattle.rdl_edit.specs.Step.{too_large};

use rdl_rewrite::edit::PatchRefusal;
use rdl_tree::address::Address;
use rdl_tree::fault::{Fault, FaultKind};
use std::alloc::AllocError;

/// Why an edit isn't made, in the order in which it is judged.
#[derive(Debug, Drop)]
pub enum Refusal {
    /// X1, P1: the path leads nowhere.
    NoSuchPath,
    /// X1, P2: the path goes through an instance of a named type, or would change the body of one.
    ThroughNamedType,
    /// X7: the root where an item is needed, or a definition where an instance is needed.
    NotAnInstance,
    /// X8: a new item is neither a definition nor an instance.
    NotAddable,
    /// X2: the item to stand next to isn't there.
    NoSuchSibling,
    /// X3: the new name, or a name of the new items, is taken.
    NameTaken,
    /// X4: the new name is a reserved word.
    Reserved,
    /// X5: a type reference leads to the definition.
    InUse,
    /// X6: there is no assignment to clear.
    NotSet,
    /// X9: the edited map has a fault.
    Faulty(Fault),
    /// X10: no memory.
    Memory,
}

/// Whether the fault is E24, want of memory.
pub fn is_memory(kind: FaultKind) -> bool
    ensures { result ≡ is_memory kind }
{
    matches!(kind, FaultKind::Memory)
}

/// An edit that makes a map with this fault is refused so: with X10 where memory was wanted.
pub fn refused(fault: Fault) -> Refusal
    ensures { result ≡ refused fault }
{
    if is_memory(fault.kind) {
        Refusal::Memory
    } else {
        Refusal::Faulty(fault)
    }
}

/// E25 of the whole.
fn too_large() -> Fault
    ensures { result ≡ too_large }
{
    Fault {
        kind: FaultKind::DescriptionTooLarge,
        address: Address::new(),
    }
}

impl From<PatchRefusal> for Refusal {
    ghost use Rattle.rdl_edit.specs.Step.{refusal_of};
    ghost use Rattle.std.specs.Prelude.{◌≡◌};

    ghost from_gives = { λ refusal f. f ≡ refusal_of refusal };

    fn from(refusal: PatchRefusal) -> Refusal {
        match refusal {
            PatchRefusal::NoSuchPath => Refusal::NoSuchPath,
            PatchRefusal::ThroughNamedType => Refusal::ThroughNamedType,
            PatchRefusal::NoSuchSibling => Refusal::NoSuchSibling,
            PatchRefusal::NameTaken => Refusal::NameTaken,
            PatchRefusal::Reserved => Refusal::Reserved,
            PatchRefusal::InUse => Refusal::InUse,
            PatchRefusal::NotSet => Refusal::NotSet,
            PatchRefusal::NotAnInstance => Refusal::NotAnInstance,
            PatchRefusal::NotAddable => Refusal::NotAddable,
            PatchRefusal::TooDeep => Refusal::Faulty(too_large()),
            PatchRefusal::Memory => Refusal::Memory,
        }
    }
}

impl From<AllocError> for Refusal {
    ghost use Rattle.rdl_edit.specs.declared.refusal.Refusal.{Refusal};
    ghost use Rattle.std.specs.Prelude.{◌≡◌};

    ghost from_gives = { λ _ f. f ≡ Refusal.Memory };

    fn from(_error: AllocError) -> Refusal {
        Refusal::Memory
    }
}
