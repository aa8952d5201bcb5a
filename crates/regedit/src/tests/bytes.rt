//! Maps, sessions and scripts that are no UTF-8.
use super::hostile::USED;
use super::{assert_ends, assert_prints, assert_same, write, write_bytes};
use rdl_run::status::Status;
use std::test::Fail;

/// A map, a script, how the run ends, and what is printed.
type Case = (&'static [u8], &'static [u8], Status, &'static str);

const CASES: [Case; 5] = [
    // what isn't UTF-8 is judged before all other faults of a map
    (
        b"addrmap top {\n /* \xff",
        b"list\n",
        Status::MapRefused,
        "map:2:5: S1 bad character\n",
    ),
    (
        b"? \xff",
        b"list\n",
        Status::MapRefused,
        "map:1:3: S1 bad character\n",
    ),
    (
        b"regedit session 1\nmap 1\n\xFFundo 0\nredo 0\nend\n",
        b"",
        Status::MapRefused,
        "session: Z1 not a session\n",
    ),
    // and in a line before the command is known
    (
        b"addrmap top { reg { field {} f[8] = 0x5; } a; };",
        b"\xff\nfrob \xff\nadd /$top last \xff\n",
        Status::LineRefused,
        "script:1: C3 not UTF-8\nscript:2: C3 not UTF-8\nscript:3: C3 not UTF-8\n",
    ),
    // a remark may be any bytes
    (
        b"addrmap top { reg { field {} f[8] = 0x5; } a; };",
        b"\n \t\r\n# undo\n\t #\xff\n#",
        Status::Accepted,
        "",
    ),
];

fn cases() -> &'static [Case] {
    &CASES
}

#[test]
fn that_are_no_text(rt: HostRuntime) -> Result<(), Fail> {
    for (map, script, status, want) in cases() {
        assert_prints(&rt, rt.alloc(), map, script, *status, want)?;
    }
    Ok(())
}

/// A line for each sort of refusal that leaves the map of a type with assignments as it is; the third one is no text.
const REFUSED: &[u8] = b"frob
remove
\xff
add /$top last reg {
remove /$top/zz
remove /$top/u/f
move /$top/u before zz
add /$T last field {} f;
rename /$top/u reg
remove /$T
clear /$T shared
reset /$T 1
add /$T last sw = r;
";

const REFUSALS: &str = "script:1: C1 unknown command
script:2: C2 bad operands
script:3: C3 not UTF-8
script:4: C4 text refused: S10 unexpected end at column 6
script:5: X1 no such path: P1 no such name
script:6: X1 no such path: P2 through a named type
script:7: X2 no such sibling
script:8: X3 name taken
script:9: X4 reserved name
script:10: X5 definition in use
script:11: X6 not set
script:12: X7 not an instance
script:13: X8 only definitions and instances are added
";

// and both files are as without a script
#[test]
fn in_a_script_of_refused_lines(rt: HostRuntime) -> Result<(), Fail> {
    let written = write_bytes(rt.alloc(), USED.as_bytes(), REFUSED)?;
    let without = write(rt.alloc(), USED, "")?;
    assert_ends(&rt, &written, USED, Status::LineRefused, REFUSALS)?;
    assert_same(&rt, written.rdl()?, without.rdl()?, "the map");
    assert_same(&rt, written.header()?, without.header()?, "the header");
    Ok(())
}
