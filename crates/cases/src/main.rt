//! Runs the cases of the files that its words name, and says of each file how many of them pass.
#![tactic(auto)]

mod case;
mod check;
mod found;
mod heading;
mod told;

use crate::case::Case;
use crate::check::passes;
use crate::heading::{Heading, headings};
use std::process::ExitCode;
use std::{env, fs, io};

/// How many cases of a file pass, and how many don't.
#[derive(Clone, Copy)]
struct Tally {
    passed: u32,
    failed: u32,
}

impl Tally {
    fn count(&mut self, is_passed: bool) {
        if is_passed {
            self.passed = self.passed.saturating_add(1);
        } else {
            self.failed = self.failed.saturating_add(1);
        }
    }
}

fn check_case(rt: &HostRuntime, tally: &mut Tally, case: &Case) -> io::Result<()> {
    let is_passed = passes(rt, case)?;
    tally.count(is_passed);
    Ok(())
}

/// Checks the cases of a text. What stands before its first heading is a remark.
fn check_text(rt: &HostRuntime, text: &str) -> io::Result<Tally> {
    let mut tally = Tally {
        passed: 0,
        failed: 0,
    };
    let mut case = Case::new("");
    let mut is_begun = false;
    for piece in headings(text).split("\n%") {
        let heading = Heading::new(piece);
        if heading.name == "case" {
            if is_begun {
                check_case(rt, &mut tally, &case)?;
            }
            case = case.next(heading.word);
        } else {
            case.read(&heading);
        }
        is_begun = true;
    }
    check_case(rt, &mut tally, &case)?;
    Ok(tally)
}

/// Whether all cases of a file pass.
fn check_file(rt: &HostRuntime, path: &str) -> io::Result<bool> {
    let text = fs::read_to_string(rt, path)?;
    let tally = check_text(rt, text.as_str())?;
    println!(rt; "{path}: {} passed, {} failed", tally.passed, tally.failed)?;
    Ok(tally.failed == 0)
}

/// Whether all cases of all files pass.
fn check_files(rt: &HostRuntime) -> io::Result<bool> {
    let paths: Vec<String> = env::args(rt)?.skip(1).collect(rt.alloc())?;
    let mut is_passed = true;
    for path in paths.iter() {
        let passed = check_file(rt, path.as_str())?;
        is_passed = is_passed && passed;
    }
    Ok(is_passed)
}

fn main(rt: HostRuntime) -> ExitCode {
    match check_files(&rt) {
        Ok(true) => ExitCode::from(0),
        Ok(false) => ExitCode::from(1),
        Err(error) => {
            let _ = eprintln!(rt; "cases: {error}");
            ExitCode::from(2)
        }
    }
}
