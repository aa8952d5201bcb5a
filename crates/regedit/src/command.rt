//! The program's edge: its words, its messages and its exit status.
ghost use Rattle.std.specs.Prelude.{◌≡◌, ◌⊎◌, ◌≤◌, map};
ghost use Rattle.regedit.specs.CommandLine.{AreRefused, EndsRun, EndsWords, IsExit, ending_code, exit_code, failure_code, status_code};
ghost use Rattle.command_line.specs.Words.{AskForHelp, AskForVersion};
ghost use Rattle.regedit.specs.declared.command.Failure.{Failure};

use crate::files::{Ending, Stop, edit_files};
use crate::paths::{Asked, meeting_of_files, parts};
use command_line::fault::WordsFault;
use command_line::line::LineFault;
use command_line::meeting::Meeting;
use command_line::words::line;
use rdl_run::counted::CountedWriter;
use rdl_run::output::write_counted;
use rdl_run::saved::WITHOUT_SOURCE;
use rdl_run::status::{RunFault, Status};
use std::alloc::Global;
use std::fs::File;
use std::io;
use std::io::{ErrorKind, Write};
use std::rt::Files;
use thiserror::Error;
use whole_files::shown::has_control;

/// Why the program ends without a status of a run, where `clap` says nothing of it.
#[derive(Clone, Copy, Debug, PartialEq, Eq, Drop, Error)]
enum Failure {
    #[error("regedit: bad command line")]
    BadCommandLine,
    #[error("regedit: bad top name")]
    BadTop,
    #[error("regedit: {0}")]
    Meets(Meeting),
    #[error("regedit: {0}")]
    Fault(RunFault),
}

fn status_code(status: Status) -> u8
    ensures { result ≡ status_code status }
{
    match status {
        Status::Accepted => 0,
        Status::LineRefused => 1,
        Status::MapRefused => 2,
        Status::Incomplete(_) => 3,
    }
}

fn failure_code(failure: Failure) -> u8
    ensures { result ≡ failure_code failure }
{
    match failure {
        Failure::Fault(_) => 4,
        Failure::BadCommandLine | Failure::BadTop | Failure::Meets(_) => 5,
    }
}

/// Says why the program fails. Where that can't be said either, the exit status still shows it.
fn report<E: Write>(failure: Failure, errors: &mut E) -> u8
    ensures { result ≡ failure_code failure }
{
    let _ = writeln!(errors, "{failure}");
    failure_code(failure)
}

/// Says why the run stopped, and below it at which file, where it is one.
fn report_stop<E: Write>(stop: &Stop<'_>, errors: &mut E) {
    let _ = report(Failure::Fault(stop.fault), errors);
    if let Some(obstacle) = &stop.obstacle {
        let _ = writeln!(errors, "regedit: {obstacle}");
    }
}

/// Says which texts are missing that aren't told of on standard output.
fn report_missing<E: Write>(ending: Ending, errors: &mut E) {
    if let Some(why) = ending.unwoven {
        let _ = writeln!(errors, "regedit: {why}");
    }
    if ending.is_sourceless {
        let _ = writeln!(errors, "regedit: {WITHOUT_SOURCE}");
    }
}

/// The exit status of a run that wrote its texts. Which are missing is said.
fn finished<E: Write>(ending: Ending, errors: &mut E) -> u8
    ensures { result ≡ ending_code ending }
{
    report_missing(ending, errors);
    if ending.lacks_text() {
        3
    } else {
        status_code(ending.status)
    }
}

/// The exit status of a run that ended so. Why it stopped is said.
fn ended<E: Write>(outcome: &Result<Ending, Stop<'_>>, errors: &mut E) -> u8
    ensures { result ≡ exit_code outcome.now }
{
    match outcome {
        Ok(ending) => finished(*ending, errors),
        Err(stop) => {
            report_stop(stop, errors);
            4
        }
    }
}

/// Does what a line asks, unless two of its paths lead to one file: then nothing is read or written. What is refused is explained on
/// `errors`.
fn obey<R: Files<File = File> + Input, M: Write, E: Write>(
    rt: &R,
    alloc: Global,
    asked: &Asked,
    messages: &mut M,
    errors: &mut E,
) -> u8
    ensures { EndsRun asked.now.options result }
{
    let outcome = match meeting_of_files(rt, alloc, &asked.paths) {
        Some(obstacle) => Err(Stop::at(RunFault::Write, obstacle)),
        None => edit_files(rt, alloc, asked, messages, errors),
    };
    ended(&outcome, errors)
}

/// Prints a text, and answers the exit status.
pub(crate) fn print_text<M: Write, E: Write>(text: &str, messages: &mut M, errors: &mut E) -> u8
    ensures { (result ≡ 0) ⊎ (result ≡ 4) }
{
    match write_counted(&mut CountedWriter::new(messages, 0), text.as_bytes()) {
        Ok(()) => 0,
        Err(fault) => report(Failure::Fault(fault), errors),
    }
}

/// Prints the help or the version.
fn print_told<M: Write>(
    alloc: Global,
    told: &clap::Error,
    messages: &mut M,
) -> Result<(), RunFault> {
    let text = format!(in alloc; "{told}")?;
    write_counted(&mut CountedWriter::new(messages, 0), text.as_bytes())
}

/// Says what is wrong with the words. A word that could move the terminal isn't repeated.
fn report_mistake<E: Write>(words: &[&str], mistake: &clap::Error, errors: &mut E) {
    let _ = if words.iter().any(|word| has_control(word)) {
        writeln!(
            errors,
            "{}, with a control character",
            Failure::BadCommandLine
        )
    } else {
        write!(errors, "{mistake}")
    };
}

/// Says what words ask for that are no command line by the words alone.
fn refuse<M: Write, E: Write>(
    alloc: Global,
    words: &[&str],
    fault: WordsFault,
    messages: &mut M,
    errors: &mut E,
) -> u8
    ensures { EndsWords fault result }
{
    match fault {
        WordsFault::Help(told) | WordsFault::Version(told) => match print_told(
            alloc, &told, messages,
        ) {
            Ok(()) => 0,
            Err(fault) => report(Failure::Fault(fault), errors),
        },
        WordsFault::Refused(mistake) => {
            report_mistake(words, &mistake, errors);
            5
        }
        WordsFault::BadTop => report(Failure::BadTop, errors),
        WordsFault::Memory => report(Failure::Fault(RunFault::Memory), errors),
    }
}

/// Does what the words behind the program's name ask, and answers the exit status.
pub fn command<R: Files<File = File> + Input, M: Write, E: Write>(
    rt: &R,
    alloc: Global,
    words: &[&str],
    messages: &mut M,
    errors: &mut E,
) -> u8
    ensures known { IsExit result }

    // Refused words end with 5, but where there is no memory to read them.
    ensures refused { AreRefused (map (λ w. w.now) words.now) → (result ≡ 5) ⊎ (result ≡ 4) }
    ensures only { result ≡ 5 → AreRefused (map (λ w. w.now) words.now) }
    ensures version { AskForVersion (map (λ w. w.now) words.now) → (result ≡ 0) ⊎ (result ≡ 4) }
    ensures help { AskForHelp (map (λ w. w.now) words.now) → (result ≡ 0) ⊎ (result ≡ 4) }
{
    match line(alloc, words) {
        Ok(line) => obey(rt, alloc, &parts(line), messages, errors),
        Err(LineFault::Words(fault)) => refuse(alloc, words, fault, messages, errors),
        Err(LineFault::Meets(meeting)) => report(Failure::Meets(meeting), errors),
    }
}

/// The exit status where the words can't be had.
pub fn refuse_words<E: Write>(error: &io::Error, errors: &mut E) -> u8
    ensures { (result ≡ 4) ⊎ (result ≡ 5) }
{
    let failure = if error.kind() == ErrorKind::OutOfMemory {
        Failure::Fault(RunFault::Memory)
    } else {
        Failure::BadCommandLine
    };
    report(failure, errors)
}
