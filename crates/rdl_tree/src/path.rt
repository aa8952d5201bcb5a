//! Paths of names.
ghost use Rattle.std.specs.Prelude.{◌≡◌, ◌==◌, List, [], ◌∷◌, ◌++◌, length, is_ok, if◌then◌else◌, IfErr};
ghost use Rattle.rdl_tree.specs.declared.path.Segment.{Segment};

use rdl_text::name::Name;
use std::alloc::{AllocFailed, Global};
use std::marker::Model;

/// A sort and a name of an item.
#[derive(Debug, Drop)]
pub enum Segment {
    /// A definition.
    Def(Name),
    /// An instance.
    Inst(Name),
}

/// The items that lead from the root body to another, by their names. The empty path leads to the root body. A
/// contract sees the list of the segments.
#[derive(Debug, Drop)]
pub struct Path {
    segments: Vec<Segment>,
}

impl Model for Path {
    ghost use Rattle.std.specs.Prelude.{List};
    ghost use Rattle.rdl_tree.specs.declared.path.Segment.{Segment};

    ghost Value = { List Segment };

    ghost view = { λ path. path.segments.items };
}

/// Why a path leads nowhere.
#[derive(Clone, Copy, Debug, PartialEq, Eq)]
pub enum PathFault {
    /// P1: a body on the way has no item of such a sort and name, or the path has more than 17 segments.
    NoSuchName,
    /// P2: the path goes on behind an instance of a named type.
    ThroughNamedType,
}

impl Path {
    pub fn new(alloc: Global) -> Path
        ensures { result ≡ [] }
    {
        Path {
            segments: Vec::new(alloc),
        }
    }

    pub fn as_slice(&self) -> &[Segment]
        ensures { result.now ≡ self.now }
    {
        self.segments.as_slice()
    }

    pub fn len(&self) -> usize
        ensures { result ≡ length self.now }
    {
        self.segments.len()
    }

    pub fn is_empty(&self) -> bool
        ensures { result ≡ (length self.now == 0) }
    {
        self.segments.is_empty()
    }

    pub fn push(&mut self, segment: Segment) -> Result<(), AllocFailed<Segment>>
        ensures after { self.new ≡ (if is_ok result then self.old ++ segment ∷ [] else self.old) }
        ensures value_returned { IfErr result (λ refused. refused.value ≡ segment) }
    {
        self.segments.push(segment)
    }
}
