//! The lines of all rows.
ghost use Rattle.std.specs.Prelude.{◌≡◌, string_bytes, IfOk};
ghost use Rattle.rdl_list.specs.ListText.{list_lines};

use crate::line::push_row;
use rdl_elab::row::Row;
use std::alloc::{AllocError, Global};

/// The lines of `list`, one for each row, in their order.
pub fn list_text(alloc: Global, rows: &[Row]) -> Result<String, AllocError>
    ensures { IfOk result (λ text. string_bytes text ≡ list_lines rows.now) }
{
    let mut text = String::new(alloc);
    'rows: for row in rows {
        push_row(&mut text, row, 0)?;
    }
    Ok(text)
}
