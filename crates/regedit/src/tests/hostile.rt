//! Maps that end too early.
use super::{THREE, Written, assert_status, write, write_bytes};
use rdl_run::status::Status;
use std::alloc::Global;
use std::process::Abort;
use std::test::Fail;

/// Whether these are the bytes of one line.
fn is_one_line(text: &[u8]) -> bool {
    match text.iter().position(|byte| *byte == b'\n') {
        Some(end) => end + 1 == text.len(),
        None => false,
    }
}

/// Whether the map was refused with one message, and nothing in the files.
fn is_refused(written: &Written) -> bool {
    written.status == Status::MapRefused
        && written.rdl.is_empty()
        && written.header.is_empty()
        && is_one_line(written.messages.as_slice())
}

/// Asserts that the map is accepted, and that none of its proper fronts is.
fn assert_only_whole(rt: &impl Abort, alloc: Global, map: &str) -> Result<(), Fail> {
    for end in 0..map.len() {
        let written = write_bytes(alloc, &map.as_bytes()[..end], b"")?;
        assert!(rt; is_refused(&written), "of the first {end} bytes of {map}");
    }
    let written = write(alloc, map, "")?;
    assert_status(rt, written.status, Status::Accepted, map);
    Ok(())
}

pub(super) const USED: &str =
    "reg T { field {} e; field {} f; }; addrmap top { T u; T v; u.f->reset = 1; T w; v.f->reset = 0; v.e->sw = r; };";

const COMMENTED: &str = "// demo
addrmap top { default regwidth = 32; /* all */ external reg R { field {} f[4'd3:0]; } a, b[2] += 8'h08; };";

#[test]
fn cut_short(rt: HostRuntime) -> Result<(), Fail> {
    for map in [THREE, USED, COMMENTED] {
        assert_only_whole(&rt, rt.alloc(), map)?;
    }
    Ok(())
}
