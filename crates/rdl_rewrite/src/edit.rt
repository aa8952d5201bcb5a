//! Edits, and why they are refused.
ghost use Rattle.std.specs.Prelude.{◌≡◌};
ghost use Rattle.rdl_rewrite.specs.Rewritten.{path_of, is_of_item};

use crate::place::Place;
use rdl_text::name::Name;
use rdl_text::token::Number;
use rdl_tree::description::Body;
use rdl_tree::dims::Dims;
use rdl_tree::path::{Path, PathFault};
use rdl_tree::target::Target;
use rdl_tree::value::Value;
use std::alloc::{AllocError, AllocFailed};

/// An edit of an item, or of the assignments of a body. The path leads to a body in `Add` and where a property is set,
/// cleared, assigned or unassigned, and to an item in all others.
#[derive(Debug, Drop)]
pub enum Edit {
    /// Puts the items, in order, into the body.
    Add(Path, Place, Body),
    /// Takes the item out, and with it every assignment, in any body, whose target passes it.
    Remove(Path),
    /// Gives the item this name, and with it every type reference that leads to it and every name in a target that
    /// stands for it.
    Rename(Path, Name),
    /// Takes the item out and puts it in again in the same body.
    Move(Path, Place),
    /// Gives the instance these sizes, and no range.
    Resize(Path, Dims),
    /// Gives the instance this range, or none, and no sizes.
    SetBits(Path, Option<(Number, Number)>),
    /// Gives the instance this address, or none.
    SetAddress(Path, Option<Number>),
    /// Gives the instance this stride, or none.
    SetStride(Path, Option<Number>),
    /// Gives the instance this alignment, or none.
    SetAlign(Path, Option<Number>),
    /// Gives the instance this reset, or none.
    SetReset(Path, Option<Number>),
    /// Assigns the property of the body's component.
    SetOwn(Path, Name, Value),
    /// Assigns the property's default in the body.
    SetDefault(Path, Name, Value),
    /// Takes the property's assignment out.
    ClearOwn(Path, Name),
    /// Takes the property's default out.
    ClearDefault(Path, Name),
    /// Assigns, from this body, the property of what the target leads to.
    Assign(Path, Target, Name, Value),
    /// Takes the body's assignment of the target's property out.
    Unassign(Path, Target, Name),
}

/// Why an edit isn't made.
#[derive(Clone, Copy, Debug, PartialEq, Eq)]
pub enum PatchRefusal {
    /// X1, P1: the path leads nowhere.
    NoSuchPath,
    /// X1, P2: the path goes through an instance of a named type, or would change the body of one.
    ThroughNamedType,
    /// X2: the item to stand next to isn't there.
    NoSuchSibling,
    /// X3: the new name, or a name of the new items, is taken.
    NameTaken,
    /// X4: the new name is a reserved word.
    Reserved,
    /// X5: a type reference leads to the definition.
    InUse,
    /// X6: there is no assignment to clear.
    NotSet,
    /// X7: the root where an item is needed, or a definition where an instance is needed.
    NotAnInstance,
    /// X8: a new item is neither a definition nor an instance.
    NotAddable,
    /// The edited description would nest over 16 deep, or the description does as it is.
    TooDeep,
    /// X10: no memory.
    Memory,
}

impl Edit {
    pub fn path(&self) -> &Path
        ensures { result.now ≡ path_of self.now }
    {
        match self {
            Edit::Add(path, ..) => path,
            Edit::Remove(path) => path,
            Edit::Rename(path, ..) => path,
            Edit::Move(path, ..) => path,
            Edit::Resize(path, ..) => path,
            Edit::SetBits(path, ..) => path,
            Edit::SetAddress(path, ..) => path,
            Edit::SetStride(path, ..) => path,
            Edit::SetAlign(path, ..) => path,
            Edit::SetReset(path, ..) => path,
            Edit::SetOwn(path, ..) => path,
            Edit::SetDefault(path, ..) => path,
            Edit::ClearOwn(path, ..) => path,
            Edit::ClearDefault(path, ..) => path,
            Edit::Assign(path, ..) => path,
            Edit::Unassign(path, ..) => path,
        }
    }

    /// Whether the path leads to an item, and not to a body.
    pub fn is_of_item(&self) -> bool
        ensures { result ≡ is_of_item self.now }
    {
        match self {
            Edit::Add(..) => false,
            Edit::SetOwn(..) => false,
            Edit::SetDefault(..) => false,
            Edit::ClearOwn(..) => false,
            Edit::ClearDefault(..) => false,
            Edit::Assign(..) => false,
            Edit::Unassign(..) => false,
            Edit::Remove(..) => true,
            Edit::Rename(..) => true,
            Edit::Move(..) => true,
            Edit::Resize(..) => true,
            Edit::SetBits(..) => true,
            Edit::SetAddress(..) => true,
            Edit::SetStride(..) => true,
            Edit::SetAlign(..) => true,
            Edit::SetReset(..) => true,
        }
    }
}

impl From<PathFault> for PatchRefusal {
    ghost use Rattle.rdl_rewrite.specs.Rewritten.{refusal_of};
    ghost use Rattle.std.specs.Prelude.{◌≡◌};

    ghost from_gives = { λ fault refusal. refusal ≡ refusal_of fault };

    fn from(fault: PathFault) -> PatchRefusal {
        match fault {
            PathFault::NoSuchName => PatchRefusal::NoSuchPath,
            PathFault::ThroughNamedType => PatchRefusal::ThroughNamedType,
        }
    }
}

impl From<AllocError> for PatchRefusal {
    ghost use Rattle.rdl_rewrite.specs.declared.edit.PatchRefusal.{PatchRefusal};
    ghost use Rattle.std.specs.Prelude.{◌≡◌};

    ghost from_gives = { λ _ refusal. refusal ≡ PatchRefusal.Memory };

    fn from(_error: AllocError) -> PatchRefusal {
        PatchRefusal::Memory
    }
}

impl<T: Drop> From<AllocFailed<T>> for PatchRefusal {
    ghost use Rattle.rdl_rewrite.specs.declared.edit.PatchRefusal.{PatchRefusal};
    ghost use Rattle.std.specs.Prelude.{◌≡◌};

    ghost from_gives = { λ _ refusal. refusal ≡ PatchRefusal.Memory };

    fn from(_error: AllocFailed<T>) -> PatchRefusal {
        PatchRefusal::Memory
    }
}
