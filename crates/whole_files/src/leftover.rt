//! New files that runs have left that were stopped.
use crate::names::{MOST_NEW_FILES, new_name};
use std::alloc::{AllocError, Global};
use std::fs::{File, Files, OpenFile, OpenOptions};
use std::io;
use std::os::unix::fs::MetadataExt;

/// Whether the open file is the one that has the name.
pub(crate) fn leads_to<R: Files>(rt: &R, name: &str, file: &File) -> bool {
    match (rt.symlink_metadata(name), file.metadata()) {
        (Ok(named), Ok(open)) => named.dev() == open.dev() && named.ino() == open.ino(),
        _ => false,
    }
}

/// Opens a file to lock it. Some systems lock only what is open for writing.
fn open<R: Files<File = File>>(rt: &R, name: &str) -> io::Result<File> {
    match OpenOptions::new().read(true).write(true).open(rt, name) {
        Ok(file) => Ok(file),
        Err(_) => File::open(rt, name),
    }
}

/// Takes away the file of this name, if it is a plain one that no run has locked. It stays locked until it is gone.
fn take_leftover<R: Files<File = File>>(rt: &R, name: &str) {
    match rt.symlink_metadata(name) {
        Ok(found) if found.is_file() => {}
        _ => return,
    }
    let Ok(file) = open(rt, name) else {
        return;
    };
    if file.try_lock().is_ok() && leads_to(rt, name, &file) {
        let _ = rt.remove_file(name);
    }
}

/// Takes away the new files that stand beside the old one and that no run is at work on.
pub(crate) fn take_leftovers<R: Files<File = File>>(
    rt: &R,
    alloc: Global,
    old: &str,
) -> Result<(), AllocError> {
    for number in 0..MOST_NEW_FILES {
        take_leftover(rt, new_name(alloc, old, number)?.as_str());
    }
    Ok(())
}
