//! The edit that a line asks for, and the description that it would make.

use rdl_parse::parse::parse_item;
use rdl_rewrite::edit::Edit;
use rdl_rewrite::rewrite::patches;
use rdl_script::request::{Request, request_of};
use rdl_tree::description::{Body, Description};
use std::alloc::{AllocError, Global};
use std::str;

/// The edit that a line asks for, if it asks for one.
pub(crate) fn edit_of(alloc: Global, line: &[u8]) -> Result<Option<Edit>, AllocError> {
    match request_of(alloc, line)? {
        Request::Edit(edit) => Ok(Some(edit)),
        Request::Add(path, place, text) => {
            let Ok(text) = str::from_utf8(text) else {
                return Ok(None);
            };
            match parse_item(alloc, text) {
                Ok(items) => Ok(Some(Edit::Add(path, place, Body::from_vec(items)))),
                Err(_) => Ok(None),
            }
        }
        Request::Nothing | Request::Undo | Request::Redo | Request::List | Request::Refused(_) =>
            Ok(None),
    }
}

/// The description that the edit makes of this one, if it makes one.
pub(crate) fn edited(
    alloc: Global,
    description: &Description,
    edit: &Edit,
) -> Result<Option<Description>, AllocError> {
    let mut copy = description.try_copy(alloc)?;
    let Ok(patches) = patches(alloc, &copy, edit) else {
        return Ok(None);
    };
    match copy.turn(alloc, patches) {
        Ok(turned) => {
            let _back = turned.keep();
        }
        Err(_) => return Err(AllocError),
    }
    Ok(Some(copy))
}
