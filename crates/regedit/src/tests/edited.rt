//! Edited texts in files, and sessions that keep the source in which later edits are woven.
use super::whole::{
    BEFORE, Case, Ending, OVER_FILE_OF_SCRIPT, OVER_SCRIPT, SESSION, TWO_OUTPUTS, WELL, Words,
    assert_in_new_folder,
};
use std::test::Fail;

/// Words of a run that replaces the map by its edited text.
const IN_PLACE: Words = &[
    "map.rdl",
    "script.txt",
    "--rdl",
    "/dev/null",
    "--header",
    "/dev/null",
    "--edited",
    "map.rdl",
];

/// A session that keeps its source, of a map that was renamed.
const SOURCED: &str =
    "regedit session 2\nsource 32\n// kept\n\naddrmap top {};  // tooregedit session 1\n\
map 18\naddrmap chip {\n};\nundo 1\nback 1\nname 0 top\nredo 0\nend\n";

const NO_SOURCE: Ending = (3, "regedit: K3 no source text in the session\n", "");

static CASES: [Case; 7] = [
    // the edited text may take the place of the map, whose other bytes stay
    (
        &[
            ("map.rdl", "// kept\n\naddrmap top {};  // too"),
            ("script.txt", "rename /$top chip"),
        ],
        IN_PLACE,
        WELL,
        &[("map.rdl", "// kept\n\naddrmap chip {};  // too")],
        2,
    ),
    // but not that of another output or of the script
    (
        BEFORE,
        &[
            "map.rdl",
            "script.txt",
            "--rdl",
            "out.rdl",
            "--header",
            "out.h",
            "--edited",
            "out.rdl",
        ],
        TWO_OUTPUTS,
        BEFORE,
        4,
    ),
    (
        BEFORE,
        &[
            "map.rdl",
            "script.txt",
            "--rdl",
            "out.rdl",
            "--header",
            "out.h",
            "--edited",
            "script.txt",
        ],
        OVER_SCRIPT,
        BEFORE,
        4,
    ),
    (
        BEFORE,
        &[
            "map.rdl",
            "script.txt",
            "--rdl",
            "/dev/null",
            "--header",
            "out.h",
            "--edited",
            "./script.txt",
        ],
        OVER_FILE_OF_SCRIPT,
        BEFORE,
        4,
    ),
    // a session that keeps no source text has no edited one
    (
        &[("map.rdl", SESSION), ("script.txt", "")],
        IN_PLACE,
        NO_SOURCE,
        &[("map.rdl", SESSION)],
        2,
    ),
    // the session of a run with an edited text keeps the source, in which later edits are woven
    (
        &[
            ("map.rdl", "// kept\n\naddrmap top {};  // too"),
            ("script.txt", "rename /$top chip"),
        ],
        &[
            "map.rdl",
            "script.txt",
            "--rdl",
            "/dev/null",
            "--header",
            "/dev/null",
            "--edited",
            "map.rdl",
            "--session",
            "saved",
        ],
        WELL,
        &[
            ("map.rdl", "// kept\n\naddrmap chip {};  // too"),
            ("saved", SOURCED),
        ],
        3,
    ),
    (
        &[
            ("map.rdl", SOURCED),
            ("script.txt", "undo\nrename /$top soc"),
            ("out.rdl", "old map"),
        ],
        &[
            "map.rdl",
            "script.txt",
            "--rdl",
            "/dev/null",
            "--header",
            "/dev/null",
            "--edited",
            "out.rdl",
        ],
        WELL,
        &[("out.rdl", "// kept\n\naddrmap soc {};  // too")],
        3,
    ),
];

fn cases() -> &'static [Case] {
    &CASES
}

#[test]
fn each_way(rt: HostRuntime) -> Result<(), Fail> {
    for case in cases() {
        assert_in_new_folder(&rt, &rt, case)?;
    }
    Ok(())
}
