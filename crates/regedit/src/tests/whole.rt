//! Files that are replaced whole, and paths that lead to one file.
use super::MAP;
use super::files::{
    Folder, HEADER, MESSAGES, SCRIPT, Texts, WRITTEN, assert_each_holds, run_words, write_each,
};
use std::fs;
use std::fs::{Metadata, Permissions};
use std::os::unix::fs::{MetadataExt, PermissionsExt, symlink};
use std::process::Abort;
use std::test::Fail;

/// Words, of which those that begin with no hyphen and no slash are names in a folder.
pub(super) type Words = &'static [&'static str];

/// A status, the first line on standard error, and how the second one ends.
pub(super) type Ending = (u8, &'static str, &'static str);

/// What stands in a folder, the words of a run, how it ends, what stands there then, and how many files that are.
pub(super) type Case = (Texts, Words, Ending, Texts, usize);

pub(super) const BEFORE: Texts = &[
    ("map.rdl", MAP),
    ("script.txt", SCRIPT),
    ("out.rdl", "old map"),
    ("out.h", "old header"),
];

/// Words of a run that replaces both.
const BOTH: Words = &[
    "map.rdl",
    "script.txt",
    "--rdl",
    "out.rdl",
    "--header",
    "out.h",
];

/// Words of the same run, which replaces none where a line is refused.
const STRICTLY: Words = &[
    "map.rdl",
    "script.txt",
    "--strict",
    "--quiet",
    "--rdl",
    "out.rdl",
    "--header",
    "out.h",
];

/// A session of a map without registers.
pub(super) const SESSION: &str =
    "regedit session 1\nmap 17\naddrmap top {\n};\nundo 0\nredo 0\nend\n";

/// A name of 255 bytes.
const LONGEST: &str = "\
nnnnnnnnnnnnnnnnnnnnnnnnnnnnnnnnnnnnnnnnnnnnnnnnnnnnnnnnnnnnnnnnnnnnnnnnnnnnnnnnnnnnn\
nnnnnnnnnnnnnnnnnnnnnnnnnnnnnnnnnnnnnnnnnnnnnnnnnnnnnnnnnnnnnnnnnnnnnnnnnnnnnnnnnnnnn\
nnnnnnnnnnnnnnnnnnnnnnnnnnnnnnnnnnnnnnnnnnnnnnnnnnnnnnnnnnnnnnnnnnnnnnnnnnnnnnnnnnnnn";

pub(super) const WELL: Ending = (0, "", "");

pub(super) const TWO_OUTPUTS: Ending = (5, "regedit: two outputs in one file\n", "");

pub(super) const OVER_SCRIPT: Ending = (5, "regedit: an output over SCRIPT\n", "");

const OVER_MAP: Ending = (5, "regedit: header over MAP\n", "");

const TWO_INPUTS: Ending = (5, "regedit: MAP and SCRIPT both from standard input\n", "");

const REFUSED: Ending = (1, "", "");

const WRITE_FAULT: &str = "regedit: write fault\n";

const OVER_RDL: Ending = (4, WRITE_FAULT, "/./out.h: it is the file of --rdl\n");

const OVER_HEADER: Ending = (4, WRITE_FAULT, "/./new: it is the file of --header\n");

pub(super) const OVER_FILE_OF_SCRIPT: Ending = (
    4,
    WRITE_FAULT,
    "/./script.txt: it is the file of SCRIPT\n",
);

const OVER_FILE_OF_MAP: Ending = (4, WRITE_FAULT, "/./map.rdl: it is the file of MAP\n");

const OVER_LINKED: Ending = (4, WRITE_FAULT, "/new: it is the file of --rdl\n");

static CASES: [Case; 21] = [
    // old files give their places, and nothing stands beside them
    (
        BEFORE,
        BOTH,
        WELL,
        &[("out.rdl", WRITTEN), ("out.h", HEADER)],
        4,
    ),
    // what a run that was stopped has left is taken away, and nothing of a name that is only like it
    (
        &[
            ("map.rdl", MAP),
            ("script.txt", SCRIPT),
            ("out.rdl", "old map"),
            ("out.rdl.regedit-7", "half a"),
            ("out.rdl.regedit-07", "own"),
        ],
        BOTH,
        WELL,
        &[
            ("out.rdl", WRITTEN),
            ("out.h", HEADER),
            ("out.rdl.regedit-07", "own"),
        ],
        5,
    ),
    // a name that is as long as one may be
    (
        &[("map.rdl", MAP), ("script.txt", SCRIPT)],
        &[
            "map.rdl",
            "script.txt",
            "--rdl",
            LONGEST,
            "--header",
            "/dev/null",
        ],
        WELL,
        &[(LONGEST, WRITTEN)],
        3,
    ),
    // a name of a folder that isn't there
    (
        BEFORE,
        &[
            "map.rdl",
            "script.txt",
            "--rdl",
            "new/",
            "--header",
            "out.h",
        ],
        (
            4,
            "regedit: write fault\n",
            "/new/: No such file or directory (os error 2)\n",
        ),
        BEFORE,
        4,
    ),
    // a second output that can't be written leaves the first as it was
    (
        BEFORE,
        &[
            "map.rdl",
            "script.txt",
            "--rdl",
            "out.rdl",
            "--header",
            "no/out.h",
        ],
        (
            4,
            "regedit: write fault\n",
            "/no/out.h: No such file or directory (os error 2)\n",
        ),
        BEFORE,
        4,
    ),
    (
        BEFORE,
        &["map.rdl", "script.txt", "--rdl", "out.rdl", "--header", "."],
        (
            4,
            "regedit: write fault\n",
            "/.: Is a directory (os error 21)\n",
        ),
        BEFORE,
        4,
    ),
    // the file that can't be read, and why
    (
        BEFORE,
        &[
            "none.rdl",
            "script.txt",
            "--rdl",
            "out.rdl",
            "--header",
            "out.h",
        ],
        (
            4,
            "regedit: read fault\n",
            "/none.rdl: No such file or directory (os error 2)\n",
        ),
        BEFORE,
        4,
    ),
    (
        BEFORE,
        &["map.rdl", ".", "--rdl", "out.rdl", "--header", "out.h"],
        (
            4,
            "regedit: read fault\n",
            "/.: Is a directory (os error 21)\n",
        ),
        BEFORE,
        4,
    ),
    // two outputs in one file, by one word or by two
    (
        BEFORE,
        &[
            "map.rdl",
            "script.txt",
            "--rdl",
            "out.h",
            "--header",
            "out.h",
        ],
        TWO_OUTPUTS,
        BEFORE,
        4,
    ),
    (
        BEFORE,
        &[
            "map.rdl",
            "script.txt",
            "--rdl",
            "out.h",
            "--header",
            "./out.h",
        ],
        OVER_RDL,
        BEFORE,
        4,
    ),
    // also where it isn't there yet
    (
        BEFORE,
        &[
            "map.rdl",
            "script.txt",
            "--rdl",
            "out.rdl",
            "--header",
            "new",
            "--session",
            "./new",
        ],
        OVER_HEADER,
        BEFORE,
        4,
    ),
    // an output over the script
    (
        BEFORE,
        &[
            "map.rdl",
            "script.txt",
            "--rdl",
            "out.rdl",
            "--header",
            "script.txt",
        ],
        OVER_SCRIPT,
        BEFORE,
        4,
    ),
    (
        BEFORE,
        &[
            "map.rdl",
            "script.txt",
            "--rdl",
            "./script.txt",
            "--header",
            "out.h",
        ],
        OVER_FILE_OF_SCRIPT,
        BEFORE,
        4,
    ),
    // the header over the map
    (
        BEFORE,
        &[
            "map.rdl",
            "script.txt",
            "--rdl",
            "out.rdl",
            "--header",
            "./map.rdl",
        ],
        OVER_FILE_OF_MAP,
        BEFORE,
        4,
    ),
    // standard input is read once, and standard output is one output
    (
        BEFORE,
        &["-", "-", "--rdl", "out.rdl", "--header", "out.h"],
        TWO_INPUTS,
        BEFORE,
        4,
    ),
    (
        BEFORE,
        &["map.rdl", "script.txt", "--rdl", "-", "--header", "-"],
        TWO_OUTPUTS,
        BEFORE,
        4,
    ),
    // nothing changes but where each line is accepted
    (
        &[
            ("map.rdl", MAP),
            ("script.txt", "undo"),
            ("out.rdl", "old map"),
            ("out.h", "old header"),
        ],
        STRICTLY,
        REFUSED,
        &[("out.rdl", "old map"), ("out.h", "old header")],
        4,
    ),
    (
        BEFORE,
        STRICTLY,
        WELL,
        &[("out.rdl", WRITTEN), ("out.h", HEADER)],
        4,
    ),
    // a device meets nothing
    (
        BEFORE,
        &[
            "map.rdl",
            "script.txt",
            "--rdl",
            "/dev/null",
            "--header",
            "/dev/null",
        ],
        WELL,
        BEFORE,
        4,
    ),
    // the session may take the place of the map that it holds
    (
        &[("map.rdl", "addrmap top {};"), ("script.txt", "")],
        &[
            "map.rdl",
            "script.txt",
            "--rdl",
            "/dev/null",
            "--header",
            "/dev/null",
            "--session",
            "map.rdl",
        ],
        WELL,
        &[("map.rdl", SESSION)],
        2,
    ),
    // the header may not, by the same word either
    (
        BEFORE,
        &[
            "map.rdl",
            "script.txt",
            "--rdl",
            "out.rdl",
            "--header",
            "map.rdl",
        ],
        OVER_MAP,
        BEFORE,
        4,
    ),
];

fn cases() -> &'static [Case] {
    &CASES
}

// `link` leads to `new`, which isn't there before the second run.
static LINKED: [Case; 2] = [
    (
        BEFORE,
        &["map.rdl", "script.txt", "--rdl", "link", "--header", "new"],
        OVER_LINKED,
        BEFORE,
        5,
    ),
    (
        BEFORE,
        &[
            "map.rdl",
            "script.txt",
            "--rdl",
            "link",
            "--header",
            "out.h",
        ],
        WELL,
        &[("new", WRITTEN), ("out.h", HEADER)],
        6,
    ),
];

fn linked() -> &'static [Case] {
    &LINKED
}

fn in_folder(rt: &HostRuntime, folder: &Folder, words: Words) -> Result<Vec<String>, Fail> {
    let mut whole = Vec::new(rt.alloc());
    for word in words {
        whole.push(if word.starts_with("-") || word.starts_with("/") {
            String::from_str(rt.alloc(), word)?
        } else {
            folder.file(rt, word)?
        })?;
    }
    Ok(whole)
}

/// Whether these are the lines on standard error: none, the first alone, or the first and one that ends so.
fn has_lines(errors: &str, ending: Ending) -> bool {
    errors.starts_with(ending.1)
        && errors.ends_with(ending.2)
        && (!ending.2.is_empty() || errors == ending.1)
}

fn assert_case(
    abort: &impl Abort,
    rt: &HostRuntime,
    folder: &Folder,
    case: &Case,
) -> Result<(), Fail> {
    write_each(rt, folder, case.0)?;
    let whole = in_folder(rt, folder, case.1)?;
    let words: Vec<&str> = whole.iter().map(|word| word.as_str()).collect(rt.alloc())?;
    let said = run_words(rt, words.as_slice());
    assert!(abort; has_lines(said.errors()?, case.2), "{}", said.errors()?);
    assert!(abort; said.status == case.2.0);
    assert!(abort; folder.count(rt)? == case.4);
    assert_each_holds(abort, rt, folder, case.3)
}

pub(super) fn assert_in_new_folder(
    abort: &impl Abort,
    rt: &HostRuntime,
    case: &Case,
) -> Result<(), Fail> {
    let folder = Folder::new(rt, "whole")?;
    assert_case(abort, rt, &folder, case)?;
    folder.remove(rt)
}

#[test]
fn each_way(rt: HostRuntime) -> Result<(), Fail> {
    for case in cases() {
        assert_in_new_folder(&rt, &rt, case)?;
    }
    Ok(())
}

#[test]
fn through_a_link(rt: HostRuntime) -> Result<(), Fail> {
    let folder = Folder::new(&rt, "link")?;
    let link = folder.file(&rt, "link")?;
    symlink(&rt, "new", link.as_str())?;
    for case in linked() {
        assert_case(&rt, &rt, &folder, case)?;
    }
    assert!(rt; fs::symlink_metadata(&rt, link.as_str())?.is_symlink());
    folder.remove(&rt)
}

/// What stands in the folder's `out.rdl` after a run, but for its bytes.
fn found_after_run(rt: &HostRuntime, folder: &Folder) -> Result<Metadata, Fail> {
    let words = in_folder(rt, folder, BOTH)?;
    let words: Vec<&str> = words.iter().map(|word| word.as_str()).collect(rt.alloc())?;
    let _ = run_words(rt, words.as_slice());
    let out = folder.file(rt, "out.rdl")?;
    Ok(fs::metadata(rt, out.as_str())?)
}

fn mode_after_run(rt: &HostRuntime, folder: &Folder, mode: u32) -> Result<u32, Fail> {
    write_each(rt, folder, BEFORE)?;
    let out = folder.file(rt, "out.rdl")?;
    fs::set_permissions(rt, out.as_str(), Permissions::from_mode(mode))?;
    Ok(found_after_run(rt, folder)?.permissions().mode())
}

// The last nine bits of a mode say who may read, write and run. What a file may do as its owner or group isn't handed on.
#[test]
fn with_the_mode_of_the_old_file(rt: HostRuntime) -> Result<(), Fail> {
    let folder = Folder::new(&rt, "mode")?;
    for (mode, after) in [(0o600, 0o600), (0o6664, 0o664)] {
        let found = mode_after_run(&rt, &folder, mode)?;
        assert!(rt; found & 0o7777 == after);
    }
    folder.remove(&rt)
}

// A file that has its text already is neither written nor replaced.
#[test]
fn unless_the_text_is_the_same(rt: HostRuntime) -> Result<(), Fail> {
    let folder = Folder::new(&rt, "same-text")?;
    write_each(&rt, &folder, BEFORE)?;
    let first = found_after_run(&rt, &folder)?;
    let second = found_after_run(&rt, &folder)?;
    assert!(rt; first.ino() == second.ino() && first.mtime_nsec() == second.mtime_nsec());
    folder.remove(&rt)
}

// The text stands behind the messages, and the header in its file.
#[test]
fn but_for_standard_output(rt: HostRuntime) -> Result<(), Fail> {
    let folder = Folder::new(&rt, "standard")?;
    write_each(&rt, &folder, BEFORE)?;
    let words = in_folder(
        &rt,
        &folder,
        &["map.rdl", "script.txt", "--rdl", "-", "--header", "out.h"],
    )?;
    let words: Vec<&str> = words.iter().map(|word| word.as_str()).collect(rt.alloc())?;
    let said = run_words(&rt, words.as_slice());
    assert!(rt; said.messages()?.starts_with(MESSAGES));
    assert!(rt; said.messages()?.ends_with(WRITTEN));
    assert!(rt; said.messages()?.len() == MESSAGES.len() + WRITTEN.len());
    assert_each_holds(&rt, &rt, &folder, &[("out.h", HEADER)])?;
    folder.remove(&rt)
}
