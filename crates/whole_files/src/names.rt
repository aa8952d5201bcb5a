//! The names of new files.
use std::alloc::{AllocError, Global};

/// How many new files may stand beside one old file.
pub(crate) const MOST_NEW_FILES: u32 = 100;

/// How many bytes of an old name stand in a new one, so that this is no longer than a name may be.
const MOST_OLD_BYTES: usize = 120;

/// The folder of a file of a whole path, with its slash, and its name.
fn parts(whole: &str) -> (&str, &str) {
    match whole.rsplit_once('/') {
        Some((folder, name)) => (folder, name),
        None => ("", whole),
    }
}

/// The folder of a file of a whole path.
pub(crate) fn folder_of(whole: &str) -> &str {
    match whole.rsplit_once('/') {
        Some((folder, _)) if !folder.is_empty() => folder,
        _ => "/",
    }
}

/// The path of a new file beside this one: the front of its name, `.regedit-` and the number.
pub(crate) fn new_name(alloc: Global, old: &str, number: u32) -> Result<String, AllocError> {
    let (folder, name) = parts(old);
    let front = match name.split_at_checked(name.floor_char_boundary(MOST_OLD_BYTES)) {
        Some((front, _)) => front,
        None => name,
    };
    format!(in alloc; "{folder}/{front}.regedit-{number}")
}
