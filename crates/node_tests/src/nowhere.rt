//! Components without bytes, for who asks what is kept of a map but where things lie.
ghost use Rattle.std.specs.Prelude.{◌≡◌};
ghost use Rattle.node_tests.specs.Nowhere.{no_layout, nowhere, nowhere_by_said};

use rdl_nodes::layouts::{Layout, Layouts};
use rdl_nodes::lays::Lays;
use rdl_nodes::parts::Part;
use rdl_seen::values::Values;
use rdl_tree::shell::Kind;
use std::alloc::{AllocError, Global};

fn no_layout(alloc: Global) -> Layout
    ensures { result ≡ no_layout }
{
    Layout::new(0, 0, Vec::new(alloc))
}

/// Gives each component no bytes and no spans.
pub struct Nowhere;

impl Lays for Nowhere {
    ghost laying = { nowhere };

    ghost by_said = { nowhere_by_said };

    fn lay(
        &self,
        alloc: Global,
        kind: Kind,
        values: &Values,
        parts: &[Part],
    ) -> Result<Layouts, AllocError> {
        match kind {
            Kind::Reg => Layouts::of(alloc, no_layout(alloc), no_layout(alloc), no_layout(alloc)),
            _ => Ok(Layouts::same(no_layout(alloc))),
        }
    }
}

/// Has no memory to lay anything out, for who asks what isn't laid out.
pub struct NoMemory;

impl Lays for NoMemory {
    ghost laying = { nowhere };

    ghost by_said = { nowhere_by_said };

    fn lay(
        &self,
        _alloc: Global,
        _kind: Kind,
        _values: &Values,
        _parts: &[Part],
    ) -> Result<Layouts, AllocError> {
        Err(AllocError)
    }
}
