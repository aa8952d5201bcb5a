//! Runs that stop after each of their lines, are saved, read again and gone on with.
use super::{THREE, Written, assert_same, write};
use std::alloc::{AllocError, Global};
use std::process::Abort;
use std::test::Fail;

const USED: &str = "reg T { field {} e; field {} f; };
addrmap top { T u; T v; u.f->reset = 1; T w; v.f->reset = 0; v.e->sw = r; };";

const ASSIGNED: &str =
    "addrmap top { regfile { reg { field {} f[8] = 1; } q; q.f->reset = 2; } g; g.q.f->reset = 3; };";

/// A map, and the lines of a script.
type Run = (&'static str, &'static [&'static str]);

const RUNS: [Run; 4] = [
    (
        THREE,
        &[
            "add /$top after a reg { field {} g; } x;\n",
            "undo\n",
            "redo\n",
            "list\n",
            "undo\n",
        ],
    ),
    (USED, &["remove /$T/f\n", "undo\n"]),
    (
        ASSIGNED,
        &[
            "unassign /$top g.q.f reset\n",
            "unassign /$top/g q.f reset\n",
            "undo\n",
            "undo\n",
        ],
    ),
    (USED, &["rename /$T U\n", "rename /$U top\n", "undo\n"]),
];

/// The script of these lines.
fn script_of(alloc: Global, lines: &[&str]) -> Result<String, AllocError> {
    let mut script = String::new(alloc);
    for line in lines {
        script.push_str(line)?;
    }
    Ok(script)
}

fn assert_same_files(rt: &impl Abort, found: &Written, want: &Written) -> Result<(), Fail> {
    assert_same(rt, found.rdl()?, want.rdl()?, "the map");
    assert_same(rt, found.header()?, want.header()?, "the header");
    assert_same(rt, found.session()?, want.session()?, "the session");
    Ok(())
}

/// Asserts that a run ends with the same files where it is stopped after so many lines, saved and gone on with.
fn assert_continues(rt: &impl Abort, alloc: Global, run: Run, stop: usize) -> Result<(), Fail> {
    let (map, lines) = run;
    let (front, rest) = lines.split_at(stop.min(lines.len()));
    let whole = write(alloc, map, script_of(alloc, lines)?.as_str())?;
    let stopped = write(alloc, map, script_of(alloc, front)?.as_str())?;
    let session = stopped.session()?;
    let behind = write(alloc, session, script_of(alloc, rest)?.as_str())?;
    assert_same_files(rt, &behind, &whole)
}

#[test]
fn end_with_the_same_files(rt: HostRuntime) -> Result<(), Fail> {
    for run in RUNS {
        for stop in 0..6 {
            assert_continues(&rt, rt.alloc(), run, stop)?;
        }
    }
    Ok(())
}
