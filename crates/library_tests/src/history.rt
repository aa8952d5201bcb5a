//! Histories of maps under lines of a script.
use crate::parse::description;
use journal_core::journal::Journal;
use rdl_edit::edit::Edit;
use rdl_edit::map::Map;
use rdl_edit::place::Place;
use rdl_parse::parse::parse_item;
use rdl_script::request::{Request, request_of};
use rdl_tree::description::Body;
use rdl_tree::path::Path;
use std::alloc::{AllocError, Global};
use std::str;
use std::test::Fail;

/// The map that a text spells.
pub(crate) fn map_of(alloc: Global, text: &str) -> Result<Map, Fail> {
    Ok(Map::open(alloc, description(alloc, text)?, None)?)
}

/// The history of a map.
pub(crate) fn opened(alloc: Global, text: &str, limit: u32) -> Result<Journal<Map>, Fail> {
    match map_of(alloc, text) {
        Ok(map) => Ok(Journal::new(alloc, map, limit)),
        Err(fault) => Err(fault),
    }
}

/// Whether the edit is made. It is let go.
fn is_edited(alloc: Global, journal: &mut Journal<Map>, edit: Edit) -> bool {
    match journal.edit(alloc, &edit) {
        Ok(()) => true,
        Err(_) => false,
    }
}

/// The items of one statement.
fn items(alloc: Global, text: &[u8]) -> Option<Body> {
    let text = str::from_utf8(text).ok()?;
    let items = parse_item(alloc, text).ok()?;
    Some(Body::from_vec(items))
}

fn is_added(
    alloc: Global,
    journal: &mut Journal<Map>,
    path: Path,
    place: Place,
    text: &[u8],
) -> bool {
    match items(alloc, text) {
        Some(items) => is_edited(alloc, journal, Edit::Add(path, place, items)),
        None => false,
    }
}

fn is_served(alloc: Global, journal: &mut Journal<Map>, request: Request<'_>) -> bool {
    match request {
        Request::Undo => journal.undo(alloc).is_ok(),
        Request::Redo => journal.redo(alloc).is_ok(),
        Request::Edit(edit) => is_edited(alloc, journal, edit),
        Request::Add(path, place, text) => is_added(alloc, journal, path, place, text),
        _ => false,
    }
}

/// Whether the edit, undo or redo of the line is made.
pub(crate) fn is_made(
    alloc: Global,
    journal: &mut Journal<Map>,
    line: &str,
) -> Result<bool, AllocError> {
    Ok(is_served(alloc, journal, request_of(alloc, line.as_bytes())?))
}
