//! Explanations of texts and maps that are refused.

use crate::fault::fault_telling;
use crate::stretch::{Stretch, statement_at};
use crate::telling::told;
use crate::text_fault::{line_around, line_of, mark_in_line, text_telling};
use crate::view::{Standing, View};
use rdl_parse::fault::ParseFault;
use rdl_parse::parse::parse;
use rdl_parse::places::Places;
use rdl_tree::description::Description;
use rdl_tree::fault::Fault;
use std::alloc::{AllocError, Global};
use std::str;

/// Explains why the text of a file isn't read as a map.
pub fn explain_text(
    alloc: Global,
    file: &str,
    bytes: &[u8],
    fault: ParseFault,
) -> Result<String, AllocError> {
    let mut telling = text_telling(alloc, bytes, fault)?;
    let line = line_around(bytes, fault.offset);
    telling.mark = mark_in_line(line, telling.mark);
    told(alloc, file, line.number, line.bytes, &telling)
}

/// Explains which fault the map has that the bytes of a file spell. The items of its description have these places.
pub fn explain_fault<'a>(
    alloc: Global,
    file: &'a str,
    bytes: &[u8],
    description: &'a Description,
    top: Option<&'a str>,
    places: &'a Places<'a>,
    fault: &Fault,
) -> Result<String, AllocError> {
    let view = View {
        alloc,
        file,
        description,
        top,
        standing: Standing::Own(places),
    };
    let mut telling = fault_telling(view, fault)?;
    let place = places.at(&fault.address);
    let (number, column) = place.unwrap_or((1, 1));
    let line = line_of(bytes, number);
    let start = column.saturating_sub(1);
    telling.mark = if place.is_some() {
        statement_at(line.bytes, start)
    } else {
        Stretch::new(start, 0)
    };
    told(alloc, file, number, line.bytes, &telling)
}

/// Explains which fault the map has that the bytes of a file spell. They are read once more for this.
pub fn explain_map(
    alloc: Global,
    file: &str,
    bytes: &[u8],
    top: Option<&str>,
    fault: &Fault,
) -> Result<String, AllocError> {
    let text = str::from_utf8(bytes).unwrap_or("");
    match parse(alloc, text) {
        Ok((description, places)) => {
            explain_fault(alloc, file, bytes, &description, top, &places, fault)
        }
        Err(fault) => explain_text(alloc, file, bytes, fault),
    }
}
