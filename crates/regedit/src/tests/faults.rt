//! Readers and writers that fail.
use super::{MAP, run_with};
use rdl_run::counted::CountedReader;
use rdl_run::input::read_counted;
use rdl_run::status::{RunFault, Status};
use std::io;
use std::io::{ErrorKind, Read, Write};

/// A reader that is interrupted so often, and then fails or hands out its bytes.
#[derive(Drop)]
struct Interrupted<'a> {
    times: u32,
    fails: bool,
    rest: &'a [u8],
}

impl Read for Interrupted<'_> {
    fn read(&mut self, buffer: &mut [u8]) -> io::Result<usize> {
        if self.times > 0 {
            self.times -= 1;
            return Err(io::Error::from(ErrorKind::Interrupted));
        }
        if self.fails {
            return Err(io::Error::from(ErrorKind::Other));
        }
        self.rest.read(buffer)
    }
}

/// A reader of a text, and of blanks behind it, which are kept nowhere.
#[derive(Drop)]
struct Padded<'a> {
    text: &'a [u8],
    blanks: usize,
}

impl Padded<'_> {
    /// So many bytes in all, where the text has no more.
    fn new(text: &[u8], len: usize) -> Padded<'_> {
        Padded {
            text,
            blanks: len.saturating_sub(text.len()),
        }
    }
}

impl Read for Padded<'_> {
    fn read(&mut self, buffer: &mut [u8]) -> io::Result<usize> {
        if !self.text.is_empty() {
            return self.text.read(buffer);
        }
        let count = buffer.len().min(self.blanks);
        buffer[..count].fill(b' ');
        self.blanks -= count;
        Ok(count)
    }
}

/// A writer that takes so many bytes, and then none or an error.
#[derive(Drop)]
struct Narrow {
    room: usize,
    fails: bool,
}

impl Write for Narrow {
    fn write(&mut self, bytes: &[u8]) -> io::Result<usize> {
        if self.room == 0 && self.fails {
            return Err(io::Error::from(ErrorKind::Other));
        }
        let count = bytes.len().min(self.room);
        self.room -= count;
        Ok(count)
    }

    fn flush(&mut self) -> io::Result<()> {
        Ok(())
    }
}

fn run_interrupted(rt: &HostRuntime, times: u32, fails: bool) -> Result<Status, RunFault> {
    let mut map = MAP.as_bytes();
    let mut script = Interrupted {
        times,
        fails,
        rest: b"undo",
    };
    let mut messages: Vec<u8> = Vec::new(rt.alloc());
    run_with(rt.alloc(), &mut map, &mut script, &mut messages)
}

#[test]
fn reads_that_fail(rt: HostRuntime) {
    assert!(rt; run_interrupted(&rt, 0, true) == Err(RunFault::Read));
}

fn run_interrupted_map(rt: &HostRuntime, times: u32) -> Result<Status, RunFault> {
    let mut map = Interrupted {
        times,
        fails: false,
        rest: MAP.as_bytes(),
    };
    let mut script = b"".as_slice();
    let mut messages: Vec<u8> = Vec::new(rt.alloc());
    run_with(rt.alloc(), &mut map, &mut script, &mut messages)
}

#[test]
fn reads_that_are_interrupted(rt: HostRuntime) {
    assert!(rt; run_interrupted(&rt, 1_000, false) == Ok(Status::LineRefused));
    assert!(rt; run_interrupted(&rt, 1_001, false) == Err(RunFault::Interrupted));
    assert!(rt; run_interrupted_map(&rt, 1_000) == Ok(Status::Accepted));
    assert!(rt; run_interrupted_map(&rt, 1_001) == Err(RunFault::Interrupted));
}

fn read_blanks(rt: &HostRuntime, len: usize) -> Result<usize, RunFault> {
    let mut blanks = Padded::new(b"", len);
    match read_counted(rt.alloc(), &mut CountedReader::new(&mut blanks), 10_000) {
        Ok(bytes) => Ok(bytes.len()),
        Err(fault) => Err(fault),
    }
}

// At a small limit, up to which all is read.
#[test]
fn inputs_that_are_too_long(rt: HostRuntime) {
    assert!(rt; read_blanks(&rt, 10_000) == Ok(10_000));
    assert!(rt; read_blanks(&rt, 10_001) == Err(RunFault::TooLong));
}

/// A map and a script of so many bytes, of which comments have most.
fn run_padded(rt: &HostRuntime, map: usize, script: usize) -> Result<Status, RunFault> {
    let mut messages: Vec<u8> = Vec::new(rt.alloc());
    run_with(
        rt.alloc(),
        &mut Padded::new(b"addrmap top { reg { field {} f; } a; }; //", map),
        &mut Padded::new(b"undo\n#", script),
        &mut messages,
    )
}

#[test]
fn maps_of_64_mebibytes(rt: HostRuntime) {
    assert!(rt; run_padded(&rt, 67_108_864, 0) == Ok(Status::LineRefused));
}

// The first line finds nothing to undo, so the script was served.
#[test]
fn scripts_of_64_mebibytes(rt: HostRuntime) {
    assert!(rt; run_padded(&rt, 0, 67_108_864) == Ok(Status::LineRefused));
}

#[test]
fn inputs_of_over_64_mebibytes(rt: HostRuntime) {
    assert!(rt; run_padded(&rt, 67_108_865, 0) == Err(RunFault::TooLong));
    assert!(rt; run_padded(&rt, 0, 67_108_865) == Err(RunFault::TooLong));
}

fn undo_into(rt: &HostRuntime, room: usize, fails: bool) -> Result<Status, RunFault> {
    let mut map = MAP.as_bytes();
    let mut script = b"undo".as_slice();
    let mut messages = Narrow { room, fails };
    run_with(rt.alloc(), &mut map, &mut script, &mut messages)
}

// The message is `script:1: J2 nothing to undo` and a line feed, 29 bytes.
#[test]
fn writes_that_fail(rt: HostRuntime) {
    assert!(rt; undo_into(&rt, 28, true) == Err(RunFault::Write));
    assert!(rt; undo_into(&rt, 28, false) == Err(RunFault::Write));
    assert!(rt; undo_into(&rt, 29, true) == Ok(Status::LineRefused));
}
