//! The words behind the program's name.
use super::MAP;
use super::files::{Folder, Said, run_words};
use crate::explanation::{asked_number, explain};
use std::process::Abort;
use std::str;
use std::test::Fail;

const TWO_TOPS: &str =
    "addrmap a { reg { field {} f; } r; }; addrmap b { reg { field {} f; } s; };";

const TWO_EDITS: &str =
    "add /$top last reg { field {} g; } b;\nadd /$top last reg { field {} g; } c;\n";

/// Asserts the exit status, the messages, and that the errors have a text in them.
fn assert_answer(
    abort: &impl Abort,
    said: &Said,
    status: u8,
    messages: &str,
    error: &str,
) -> Result<(), Fail> {
    assert!(abort; said.errors()?.contains(error));
    assert!(abort; said.messages()? == messages);
    assert!(abort; said.status == status);
    Ok(())
}

#[test]
fn that_ask_for_help_or_the_version_are_told_it(rt: HostRuntime) -> Result<(), Fail> {
    for (word, told) in [
        ("--help", "Usage: regedit"),
        ("--version", "regedit 1.0.0\n"),
    ] {
        let said = run_words(&rt, &[word]);
        assert!(rt; said.messages()?.contains(told));
        assert!(rt; said.errors()?.is_empty());
        assert!(rt; said.status == 0);
    }
    Ok(())
}

#[test]
fn that_are_refused_are_told_why(rt: HostRuntime) -> Result<(), Fail> {
    let cases: [(&[&str], &str); 5] = [
        (&["m", "s", "--header", "h"], "--rdl <OUT>"),
        (
            &["m", "s", "--rdl", "r", "--header", "h", "--history", "0"],
            "0 is not in 1..=1000000",
        ),
        (
            &[
                "m",
                "s",
                "--rdl",
                "r",
                "--header",
                "h",
                "--history",
                "1000001",
            ],
            "1000001 is not in 1..=1000000",
        ),
        (
            &["m", "s", "--rdl", "r", "--header", "h", "--top", "9x"],
            "regedit: bad top name\n",
        ),
        (
            &["m", "s", "--rdl", "r", "--header", "h", "--tops", "a"],
            "'--tops'",
        ),
    ];
    for (words, error) in cases {
        let said = run_words(&rt, words);
        assert_answer(&rt, &said, 5, "", error)?;
    }
    Ok(())
}

/// Runs in a folder with a map and a script, by the words of `options` before the four files.
fn run_with(
    rt: &HostRuntime,
    folder: &Folder,
    map: &str,
    script: &str,
    options: [&str; 2],
) -> Result<Said, Fail> {
    folder.write(rt, "map.rdl", map)?;
    folder.write(rt, "script.txt", script)?;
    let map = folder.file(rt, "map.rdl")?;
    let script = folder.file(rt, "script.txt")?;
    let rdl = folder.file(rt, "out.rdl")?;
    let header = folder.file(rt, "out.h")?;
    let words = [
        "--header",
        header.as_str(),
        options[0],
        options[1],
        map.as_str(),
        "--rdl",
        rdl.as_str(),
        script.as_str(),
    ];
    Ok(run_words(rt, &words))
}

/// Asserts what is said of a run that has these words before those of its files, which stand in another order.
fn assert_run_with(
    abort: &impl Abort,
    rt: &HostRuntime,
    texts: (&str, &str),
    options: [&str; 2],
    status: u8,
    messages: &str,
) -> Result<(), Fail> {
    let folder = Folder::new(rt, options[1])?;
    let said = run_with(rt, &folder, texts.0, texts.1, options)?;
    assert_answer(abort, &said, status, messages, "")?;
    folder.remove(rt)
}

#[test]
fn pick_the_top(rt: HostRuntime) -> Result<(), Fail> {
    let listed = "0x0 addrmap a size 0x4\n0x0 reg a.r size 0x4\n[0:0] field a.r.f\n";
    assert_run_with(&rt, &rt, (TWO_TOPS, "list"), ["--top", "a"], 0, listed)
}

#[test]
fn bound_the_history(rt: HostRuntime) -> Result<(), Fail> {
    let full = "script:2: J1 history full\n";
    assert_run_with(&rt, &rt, (MAP, TWO_EDITS), ["--history", "1"], 1, full)
}

// The form of all of them is that of `docs/faults.txt`, with which tools/check-faults compares what is printed.
#[test]
fn that_ask_for_a_fault_are_told_it(rt: HostRuntime) -> Result<(), Fail> {
    let cases: [(&[&str], u8, &str, &str); 4] = [
        (&["--explain", "J2"], 0, "J2 nothing to undo\n", ""),
        (&["--explain=X3"], 0, "X3 name taken\n", ""),
        (&["--explain", "E99"], 5, "", "'E99'"),
        (&["--explain"], 5, "", "''"),
    ];
    for (words, status, told, error) in cases {
        let mut messages: Vec<u8> = Vec::new(rt.alloc());
        let mut errors: Vec<u8> = Vec::new(rt.alloc());
        let number = asked_number(words).unwrap_or("none");
        assert!(rt; explain(number, &mut messages, &mut errors) == status);
        assert!(rt; messages.as_slice().starts_with(told.as_bytes()));
        assert!(rt; str::from_utf8(errors.as_slice())?.contains(error));
    }
    assert!(rt; asked_number(&["map", "--explain"]).is_none());
    Ok(())
}
