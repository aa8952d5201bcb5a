//! Rows that are kept from one `list` to the next, and to the header.
ghost use Rattle.std.specs.Prelude.{◌≡◌, Ok, IfOk};
ghost use Rattle.rdl_elab.specs.Faults.{elaborated};
ghost use Rattle.rdl_run.specs.Shown.{AreOf};

use rdl_edit::map::Map;
use rdl_elab::row::Rows;
use std::alloc::{AllocError, Global};

/// The rows of a map: those that are kept, or else new ones.
pub(crate) fn rows_of(alloc: Global, map: &Map, kept: Option<Rows>) -> Result<Rows, AllocError>
    requires { AreOf map.now.state kept }
    ensures { IfOk result (λ rows. elaborated map.now.state.description map.now.state.option ≡ Ok rows) }
{
    match kept {
        Some(rows) => Ok(rows),
        None => map.rows(alloc),
    }
}
