//! Standard input, output and error.
use std::fs::{File, Files, OpenOptions};
use std::os::fd::{AsRawFd, IntoRawFd};

/// The greatest of their numbers.
const LAST: i32 = 2;

/// Opens on `/dev/null` those of standard input, output and error that are closed, until the process ends. Otherwise the next
/// files that are opened get their numbers, and what is meant for them goes there.
pub fn open_closed<R: Files<File = File>>(rt: &R) {
    for _ in 0..=LAST {
        match OpenOptions::new()
            .read(true)
            .write(true)
            .open(rt, "/dev/null")
        {
            Ok(file) if file.as_raw_fd() <= LAST => {
                let _open = file.into_raw_fd();
            }
            _ => return,
        }
    }
}
