//! How instances are laid out.
ghost use Rattle.std.specs.Prelude.{◌≡◌, IfOk, map};
ghost use Rattle.rdl_nodes.specs.Bare.{GoesBySaid};
ghost use Rattle.rdl_nodes.specs.Part.{member_of};
ghost use Rattle.rdl_seen.specs.Layouts.{Laying};

use crate::layouts::Layouts;
use crate::parts::Part;
use rdl_seen::values::Values;
use rdl_tree::shell::Kind;
use std::alloc::{AllocError, Global};

/// Code that lays out instances, by one function of the kind of their component, its values and its instances. Of an instance that takes
/// neither its name nor its reset nor whether it is external.
pub trait Lays {
    ghost laying: { Laying };

    /// The layouts of a component of this kind with these values and these instances.
    fn lay(
        &self,
        alloc: Global,
        kind: Kind,
        values: &Values,
        parts: &[Part],
    ) -> Result<Layouts, AllocError>
        ensures { IfOk result (λ layouts. layouts ≡ laying kind values.now (map member_of parts.now)) };

    ghost by_said: { GoesBySaid laying };
}
