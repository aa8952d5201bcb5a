//! Tests of the whole program, over readers and writers in memory and over files.
use rdl_run::run::{Options, run};
use rdl_run::status::{RunFault, Status};
use std::alloc::Global;
use std::io::{Read, Write};
use std::process::Abort;
use std::str;
use std::test::Fail;

mod bytes;
mod edited;
mod examples;
mod faults;
mod files;
mod hostile;
mod limits;
mod saving;
mod sessions;
mod stops;
mod whole;
mod words;

const MAP: &str = "addrmap top { reg { field {} f[8] = 0x5; } a; };";

const THREE: &str = "addrmap top {
reg { field {} f[8] = 0x5; } a;
reg { field {} f; } b;
reg { field {} f[7:4]; } c;
};";

/// What a run writes.
#[derive(Debug, Drop)]
struct Written {
    status: Status,
    rdl: Vec<u8>,
    header: Vec<u8>,
    session: Vec<u8>,
    messages: Vec<u8>,
}

impl Written {
    fn rdl(&self) -> Result<&str, Fail> {
        Ok(str::from_utf8(self.rdl.as_slice())?)
    }

    fn header(&self) -> Result<&str, Fail> {
        Ok(str::from_utf8(self.header.as_slice())?)
    }

    fn session(&self) -> Result<&str, Fail> {
        Ok(str::from_utf8(self.session.as_slice())?)
    }

    fn messages(&self) -> Result<&str, Fail> {
        Ok(str::from_utf8(self.messages.as_slice())?)
    }
}

fn run_with<M: Read, S: Read, E: Write>(
    alloc: Global,
    map: &mut M,
    script: &mut S,
    messages: &mut E,
) -> Result<Status, RunFault> {
    let options = Options {
        top: None,
        history: 10_000,
        session: false,
        edited: false,
    };
    let mut rdl: Vec<u8> = Vec::new(alloc);
    let mut header: Vec<u8> = Vec::new(alloc);
    let mut session: Vec<u8> = Vec::new(alloc);
    run(
        alloc,
        map,
        script,
        &options,
        &mut rdl,
        &mut header,
        &mut session,
        messages,
    )
}

fn write_bytes(alloc: Global, mut map: &[u8], mut script: &[u8]) -> Result<Written, RunFault> {
    let options = Options {
        top: None,
        history: 10_000,
        session: true,
        edited: false,
    };
    let mut rdl = Vec::new(alloc);
    let mut header = Vec::new(alloc);
    let mut session = Vec::new(alloc);
    let mut messages = Vec::new(alloc);
    let status = run(
        alloc,
        &mut map,
        &mut script,
        &options,
        &mut rdl,
        &mut header,
        &mut session,
        &mut messages,
    )?;
    Ok(Written {
        status,
        rdl,
        header,
        session,
        messages,
    })
}

fn write(alloc: Global, map: &str, script: &str) -> Result<Written, RunFault> {
    write_bytes(alloc, map.as_bytes(), script.as_bytes())
}

/// Asserts that the texts are the same, with what they are of in the message. An assertion that shows both of its
/// values is dear to prove, so this one serves all tests.
fn assert_same(rt: &impl Abort, found: &str, want: &str, of: &str) {
    assert_eq!(rt; found, want, "of {of}");
}

fn assert_status(rt: &impl Abort, found: Status, want: Status, of: &str) {
    assert_eq!(rt; found, want, "of {of}");
}

/// Asserts what a run printed, and how it ended.
fn assert_ends(
    rt: &impl Abort,
    written: &Written,
    map: &str,
    status: Status,
    want: &str,
) -> Result<(), Fail> {
    assert_same(rt, written.messages()?, want, map);
    assert_status(rt, written.status, status, map);
    Ok(())
}

/// Asserts what a script prints on a map, and how the run ends.
fn assert_prints(
    rt: &impl Abort,
    alloc: Global,
    map: &[u8],
    script: &[u8],
    status: Status,
    want: &str,
) -> Result<(), Fail> {
    let written = write_bytes(alloc, map, script)?;
    assert_ends(rt, &written, want, status, want)
}
