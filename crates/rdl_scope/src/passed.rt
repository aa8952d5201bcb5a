//! What stands before an item in its body.
use crate::keys::Keys;
use crate::names::Names;
use crate::places::Places;
use std::alloc::{AllocError, Global};

/// What the items that a walk has passed in a body say, its definitions apart.
#[derive(Drop)]
pub(crate) struct Passed<'a> {
    /// Where the components of the instances stand.
    pub(crate) places: Places<'a>,
    /// The own assignments.
    pub(crate) owns: Names<'a>,
    /// The defaults.
    pub(crate) defaults: Names<'a>,
    /// The dynamic assignments.
    pub(crate) dynamics: Keys<'a>,
}

impl<'a> Passed<'a> {
    ghost use Rattle.rdl_tree.specs.Items.{Items};
    ghost use Rattle.std.specs.Prelude.{ℕ, List, IfOk};
    ghost use Rattle.rdl_scope.specs.Scopes.{Knows};

    /// Nothing was passed yet of a body with so many instances and so many other items.
    pub(crate) fn new(
        alloc: Global,
        instances: usize,
        others: usize,
    ) -> Result<Passed<'a>, AllocError>
        ensures { IfOk result (λ passed. (d : Items) (b : List ℕ) (body : Items) → Knows d b body 0 passed) }
    {
        Ok(Passed {
            places: Places::with_room(alloc, instances)?,
            owns: Names::new(alloc),
            defaults: Names::new(alloc),
            dynamics: Keys::with_room(alloc, others),
        })
    }
}
