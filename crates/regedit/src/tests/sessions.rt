//! The line that a session begins with.
use super::{Written, assert_status, write};
use rdl_run::status::Status;
use std::process::Abort;
use std::test::Fail;

fn assert_refused_as_map(rt: &impl Abort, written: &Written, map: &str) -> Result<(), Fail> {
    assert!(rt; written.messages()?.starts_with("map:1:"));
    assert_status(rt, written.status, Status::MapRefused, map);
    Ok(())
}

// Without its line feed the line is a map, in which no word may be `session`, and so is a line with another number.
#[test]
fn begin_with_a_whole_line(rt: HostRuntime) -> Result<(), Fail> {
    for map in [
        "regedit session 1",
        "regedit session 2",
        "regedit session 3\n",
    ] {
        let written = write(rt.alloc(), map, "")?;
        assert_refused_as_map(&rt, &written, map)?;
    }
    Ok(())
}
