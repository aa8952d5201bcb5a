//! The program's edge: its words, its messages and its exit status.
ghost use Rattle.std.specs.Prelude.{◌≡◌, ◌⊎◌, map};
ghost use Rattle.regdiff.specs.OfMaps.{choice_of};
ghost use Rattle.regdiff.specs.CommandLine.{AreRefused, AskForHelp, AskForVersion, EndsComparison, EndsRefused, EndsWords, IsExit, IsOfComparison, exit_code};

use crate::files::{Stop, asked_by, compare_files};
use command_line::comparison::{Comparison, ComparisonFault, line};
use command_line::fault::WordsFault;
use rdl_diff::status::{Status, status_code};
use rdl_run::counted::CountedWriter;
use rdl_run::output::write_counted;
use rdl_run::status::RunFault;
use std::alloc::Global;
use std::io;
use std::io::{ErrorKind, Write};
use std::rt::Files;
use whole_files::shown::has_control;

/// Says that the words are no command line, or that their top is no name, or a property or a format none. Where that can't be said, the exit
/// status still shows it.
fn report_words<E: Write>(what: &str, errors: &mut E) -> u8
    ensures { result ≡ 5 }
{
    let _ = writeln!(errors, "regdiff: bad {what}");
    5
}

/// Says why the comparison stopped, and below it at which file, where it is one.
fn report_stop<E: Write>(stop: &Stop<'_>, errors: &mut E) {
    let _ = writeln!(errors, "regdiff: {}", stop.fault);
    if let Some(obstacle) = &stop.obstacle {
        let _ = writeln!(errors, "regdiff: {obstacle}");
    }
}

fn report_fault<E: Write>(fault: RunFault, errors: &mut E) -> u8
    ensures { result ≡ 4 }
{
    let obstacle = None;
    report_stop(&Stop { fault, obstacle }, errors);
    4
}

/// The exit status of a comparison that ended so. Why it stopped is said.
fn ended<E: Write>(outcome: &Result<Status, Stop<'_>>, errors: &mut E) -> u8
    ensures { result ≡ exit_code outcome.now }
{
    match outcome {
        Ok(status) => status_code(*status),
        Err(stop) => {
            report_stop(stop, errors);
            4
        }
    }
}

fn obey<R: Files, M: Write, E: Write>(
    rt: &R,
    alloc: Global,
    line: Comparison,
    messages: &mut M,
    errors: &mut E,
) -> u8
    ensures known { IsOfComparison result }
    ensures ends { EndsComparison line.top (choice_of line) result }
{
    let asked = asked_by(line);
    ended(&compare_files(rt, alloc, &asked, messages), errors)
}

/// Prints the help or the version.
fn print_told<M: Write>(
    alloc: Global,
    told: &clap::Error,
    messages: &mut M,
) -> Result<(), RunFault> {
    let text = format!(in alloc; "{told}")?;
    write_counted(&mut CountedWriter::new(messages, 0), text.as_bytes())
}

/// Says what words ask for that are no command line.
fn refuse<M: Write, E: Write>(
    alloc: Global,
    words: &[&str],
    fault: WordsFault,
    messages: &mut M,
    errors: &mut E,
) -> u8
    ensures { EndsWords fault result }
{
    match fault {
        WordsFault::Help(told) | WordsFault::Version(told) => match print_told(
            alloc, &told, messages,
        ) {
            Ok(()) => 0,
            Err(fault) => report_fault(fault, errors),
        },
        WordsFault::Refused(_) if words.iter().any(|word| has_control(word)) => {
            report_words("command line, with a control character", errors)
        }
        WordsFault::Refused(mistake) => {
            let _ = write!(errors, "{mistake}");
            5
        }
        WordsFault::BadTop => report_words("top name", errors),
        WordsFault::Memory => report_fault(RunFault::Memory, errors),
    }
}

/// Answers words of which no line is made, as `refuse` does, and those that name a property or a format that isn't there.
fn refuse_line<M: Write, E: Write>(
    alloc: Global,
    words: &[&str],
    fault: ComparisonFault,
    messages: &mut M,
    errors: &mut E,
) -> u8
    ensures { EndsRefused fault result }
{
    match fault {
        ComparisonFault::Words(fault) => refuse(alloc, words, fault, messages, errors),
        ComparisonFault::BadProperty => report_words("property name", errors),
        ComparisonFault::BadFormat => report_words("format", errors),
    }
}

/// Does what the words behind the program's name ask, and answers the exit status.
pub(crate) fn command<R: Files, M: Write, E: Write>(
    rt: &R,
    alloc: Global,
    words: &[&str],
    messages: &mut M,
    errors: &mut E,
) -> u8
    ensures known { IsExit result }

    // Refused words end with 5, but where there is no memory to read them.
    ensures refused { AreRefused (map (λ w. w.now) words.now) → (result ≡ 5) ⊎ (result ≡ 4) }
    ensures only { result ≡ 5 → AreRefused (map (λ w. w.now) words.now) }
    ensures version { AskForVersion (map (λ w. w.now) words.now) → (result ≡ 0) ⊎ (result ≡ 4) }
    ensures help { AskForHelp (map (λ w. w.now) words.now) → (result ≡ 0) ⊎ (result ≡ 4) }
{
    match line(alloc, words) {
        Ok(line) => obey(rt, alloc, line, messages, errors),
        Err(fault) => refuse_line(alloc, words, fault, messages, errors),
    }
}

/// The exit status where the words can't be had.
pub(crate) fn refuse_words<E: Write>(error: &io::Error, errors: &mut E) -> u8
    ensures { (result ≡ 4) ⊎ (result ≡ 5) }
{
    if error.kind() == ErrorKind::OutOfMemory {
        return report_fault(RunFault::Memory, errors);
    }
    report_words("command line", errors)
}
