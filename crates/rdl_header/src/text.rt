//! The header of the rows.
ghost use Rattle.std.specs.Prelude.{◌≡◌, Ok, string_bytes, IfOk, IfErr, IfSome};
ghost use Rattle.rdl_header.specs.HeaderText.{header_of};
ghost use Rattle.rdl_header.specs.HeaderFaults.{IsFault};

use crate::clashes::first_clash;
use crate::lines::Parts;
use crate::macros::header_lines;
use crate::mark::marks_differ;
use rdl_elab::row::Row;
use std::alloc::{AllocError, AllocFailed, Global};

/// Why there is no header.
#[derive(Debug, Drop)]
pub enum HeaderFault {
    /// H1: the name is defined twice.
    Clash(String),
    /// H2: no memory.
    Memory,
}

impl From<AllocError> for HeaderFault {
    ghost use Rattle.rdl_header.specs.declared.text.HeaderFault.{HeaderFault};
    ghost use Rattle.std.specs.Prelude.{◌≡◌};

    ghost from_gives = { λ _ f. f ≡ HeaderFault.Memory };

    fn from(_error: AllocError) -> HeaderFault {
        HeaderFault::Memory
    }
}

impl<T: Drop> From<AllocFailed<T>> for HeaderFault {
    ghost use Rattle.rdl_header.specs.declared.text.HeaderFault.{HeaderFault};
    ghost use Rattle.std.specs.Prelude.{◌≡◌};

    ghost from_gives = { λ _ f. f ≡ HeaderFault.Memory };

    fn from(_error: AllocFailed<T>) -> HeaderFault {
        HeaderFault::Memory
    }
}

/// The header, if its rows are known to have no two macros of one name: the marks of their paths all differ.
fn text_apart(alloc: Global, rows: &[Row]) -> Result<Option<String>, AllocError>
    ensures { IfOk result (λ text. IfSome text (λ text. header_of rows.now ≡ Ok (string_bytes text))) }
{
    let mut marks = Vec::with_capacity(alloc, rows.len())?;
    let lines = header_lines(alloc, false, &mut marks, rows)?;
    if marks_differ(alloc, marks.as_slice())? {
        Ok(Some(lines.into_text()))
    } else {
        Ok(None)
    }
}

/// The C header of the rows of a map, of which the first is the top.
pub fn header(alloc: Global, rows: &[Row]) -> Result<String, HeaderFault>
    ensures ok { IfOk result (λ text. header_of rows.now ≡ Ok (string_bytes text)) }
    ensures err { IfErr result (IsFault rows.now) }
{
    if let Some(text) = text_apart(alloc, rows)? {
        return Ok(text);
    }
    let mut marks = Vec::new(alloc);
    let Parts { text, names } = header_lines(alloc, true, &mut marks, rows)?.into_parts();
    if let Some(name) = first_clash(alloc, text.as_str(), names.as_slice())? {
        return Err(HeaderFault::Clash(String::from_str(alloc, name)?));
    }
    Ok(text)
}
