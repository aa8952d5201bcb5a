//! Targets of dynamic assignments.
ghost use Rattle.std.specs.Prelude.{◌≡◌, ℕ, List, IfOk};

use rdl_text::name::Name;
use std::alloc::{AllocError, Global};
use std::marker::Model;

/// The names of the instances that lead to what a dynamic assignment is about. A contract sees the list of the names'
/// bytes.
#[derive(Debug, Drop)]
pub struct Target {
    names: Vec<Name>,
}

impl Model for Target {
    ghost Value = { List (List ℕ) };

    ghost view = { λ target. target.names.items };
}

impl Target {
    pub fn from_vec(names: Vec<Name>) -> Target
        ensures { result ≡ names.items }
    {
        Target { names }
    }

    pub fn names(&self) -> &[Name]
        ensures { result.now ≡ self.now }
    {
        self.names.as_slice()
    }

    pub fn try_copy(&self, alloc: Global) -> Result<Target, AllocError>
        ensures { IfOk result (λ target. target ≡ self.now) }
    {
        let mut names = Vec::with_capacity(alloc, self.names.len())?;
        for name in &self.names {
            names.push(name.try_copy(alloc)?)?;
        }
        Ok(Target { names })
    }
}
