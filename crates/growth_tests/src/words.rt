//! Command lines.
use crate::{Answer, assert_answered};
use command_line::fault::WordsFault;
use command_line::line::{Line, LineFault};
use command_line::words::line;
use std::alloc::{AllocError, Global};

fn top_text(line: &Line) -> &str {
    match &line.top {
        Some(name) => name.as_str(),
        None => "none",
    }
}

fn file_text(file: &Option<String>) -> &str {
    match file {
        Some(file) => file.as_str(),
        None => "none",
    }
}

fn line_text(alloc: Global, line: &Line) -> Answer {
    let mut text = String::from_str(alloc, "L0")?;
    for part in [&line.map, &line.script, &line.rdl, &line.header] {
        text.push_str(" ")?;
        text.push_str(part.as_str())?;
    }
    write!(
        text,
        " {} {} {} {}",
        top_text(line),
        line.history,
        file_text(&line.session),
        file_text(&line.edited)
    )?;
    Ok(text)
}

/// Why words are no line; L4 is want of memory.
fn fault_text(alloc: Global, fault: &WordsFault) -> Answer {
    match fault {
        WordsFault::Help(help) => format!(in alloc; "L1 {help}"),
        WordsFault::Refused(mistake) => format!(in alloc; "L2 {mistake}"),
        WordsFault::BadTop => String::from_str(alloc, "L3"),
        WordsFault::Version(version) => format!(in alloc; "L6 {version}"),
        WordsFault::Memory => Err(AllocError),
    }
}

/// The line's parts, or why it is none.
fn answer(alloc: Global, words: &[&str]) -> Answer {
    match line(alloc, words) {
        Ok(line) => line_text(alloc, &line),
        Err(LineFault::Words(fault)) => fault_text(alloc, &fault),
        Err(LineFault::Meets(meeting)) => format!(in alloc; "L5 {meeting}"),
    }
}

const NO_RDL: &str = "L2 error: the following required arguments were not provided:
  --rdl <OUT>

Usage: regedit --rdl <OUT> --header <OUT> <MAP> <SCRIPT>

For more information, try '--help'.
";

const NO_HISTORY: &str = "L2 error: invalid value '0' for '--history <N>': 0 is not in 1..=1000000

For more information, try '--help'.
";

const THREE_FILES: &str = "L2 error: unexpected argument 't' found

Usage: regedit [OPTIONS] --rdl <OUT> --header <OUT> <MAP> <SCRIPT>

For more information, try '--help'.
";

const HELP: &str = "L1 Edits a register map by a script, and writes the map and its C header

Usage: regedit [OPTIONS] --rdl <OUT> --header <OUT> <MAP> <SCRIPT>

Arguments:
  <MAP>     The register map to edit, or - for standard input
  <SCRIPT>  The edits, one on each line, or - for standard input

Options:
      --rdl <OUT>      Where the edited map is written, or - for standard output
      --header <OUT>   Where the C header is written, or - for standard output
      --edited <OUT>   Where MAP is written with only the edits woven in; OUT may be MAP
      --top <NAME>     The address map of the root that is the top; with none, the last one
      --history <N>    How many changes can be undone, from 1 to 1000000 [default: 10000]
      --session <OUT>  Where the session is written: the map with its undos and redos
      --strict         Changes files only where each line was accepted
      --quiet          Explains no refusal on standard error
  -h, --help           Print help
  -V, --version        Print version
";

const LINES: [(&[&str], &str); 10] = [
    (
        &["m", "s", "--rdl", "r", "--header", "h"],
        "L0 m s r h none 10000 none none",
    ),
    (
        &[
            "--top",
            "t",
            "m",
            "--history",
            "7",
            "s",
            "--rdl",
            "r",
            "--header",
            "h",
        ],
        "L0 m s r h t 7 none none",
    ),
    (
        &[
            "m",
            "s",
            "--rdl",
            "r",
            "--header",
            "h",
            "--session",
            "k",
            "--edited",
            "m",
        ],
        "L0 m s r h none 10000 k m",
    ),
    (
        &["m", "s", "--rdl", "r", "--header", "h", "--top", "9x"],
        "L3",
    ),
    (&["m", "s", "--header", "h"], NO_RDL),
    (
        &["m", "s", "--rdl", "r", "--header", "h", "--history", "0"],
        NO_HISTORY,
    ),
    (&["m", "s", "t", "--rdl", "r", "--header", "h"], THREE_FILES),
    (&["--help"], HELP),
    (&["--version"], "L6 regedit 1.0.0\n"),
    (
        &["m", "s", "--rdl", "r", "--header", "r"],
        "L5 two outputs in one file",
    ),
];

fn lines() -> &'static [(&'static [&'static str], &'static str)] {
    &LINES
}

#[test]
fn of_a_command_line_answer(rt: HostRuntime) {
    for (words, want) in lines() {
        let mut found = answer(rt.alloc(), words);
        if found.is_err() {
            found = answer(rt.alloc(), words);
        }
        assert_answered(&rt, &found, want, "a line");
    }
}
