//! How large a file may become.
use std::alloc::Global;
use std::fs::{File, Files};
use std::io;
use std::io::ErrorKind;

/// The limit that the system's table of limits has, if it has one.
fn limit_in(table: &str) -> Option<u64> {
    for line in table.lines() {
        if let Some(limits) = line.strip_prefix("Max file size") {
            return limits.split_whitespace().next()?.parse::<u64>().ok();
        }
    }
    None
}

/// Fails where a file of so many bytes is over the limit of the process. A write over it would end the process by a signal. Where the table of
/// limits can't be read there is none.
pub(crate) fn check_length<R: Files>(rt: &R, alloc: Global, bytes: u64) -> io::Result<()> {
    let Ok(table) = File::open(rt, "/proc/self/limits") else {
        return Ok(());
    };
    let table = io::read_to_string(alloc, table)?;
    match limit_in(table.as_str()) {
        Some(limit) if limit < bytes => Err(io::Error::from(ErrorKind::FileTooLarge)),
        _ => Ok(()),
    }
}
