//! A comparison over files.
ghost use Rattle.std.specs.Prelude.{◌≡◌, IfOk};
ghost use Rattle.rdl_run.specs.Comparing.{Ran};
ghost use Rattle.regdiff.specs.OfMaps.{IsStatusOf, choice_of, format_of, moves_of, severity_of};

use command_line::comparison::Comparison;
use command_line::format;
use rdl_diff::choice::{Choice, Format, Severity};
use rdl_diff::moves::Moves;
use rdl_diff::status::Status;
use rdl_run::comparison::compare;
use rdl_run::run::MOST_BYTES;
use rdl_run::status::RunFault;
use rdl_text::name::Name;
use std::alloc::Global;
use std::io::{Read, Write};
use std::rt::Files;
use whole_files::noted::{NotedReader, NotedWriter};
use whole_files::obstacle::{Obstacle, obstacle_of_inputs, obstacle_of_output, open_input};

/// Why a comparison stopped, and at which file, where it is one.
#[derive(Drop)]
pub(crate) struct Stop<'a> {
    pub(crate) fault: RunFault,
    pub(crate) obstacle: Option<Obstacle<'a>>,
}

fn opened<'a, R: Files>(rt: &R, path: &'a str) -> Result<NotedReader<R::File>, Stop<'a>> {
    match open_input(rt, path) {
        Ok(input) => Ok(input),
        Err(obstacle) => Err(Stop {
            fault: RunFault::Read,
            obstacle: Some(obstacle),
        }),
    }
}

/// Which moves are told.
fn moves_of(each: bool) -> Moves
    ensures { result ≡ moves_of each }
{
    if each { Moves::Each } else { Moves::Own }
}

/// Which lines are told.
fn severity_of(breaking: bool) -> Severity
    ensures { result ≡ severity_of breaking }
{
    if breaking {
        Severity::Breaking
    } else {
        Severity::Any
    }
}

/// How lines are written.
fn format_of(format: format::Format) -> Format
    ensures { result ≡ format_of format }
{
    match format {
        format::Format::Text => Format::Text,
        format::Format::Markdown => Format::Markdown,
        format::Format::Json => Format::Json,
    }
}

/// What is compared, and what is told of it.
#[derive(Drop)]
pub(crate) struct Asked {
    old: String,
    new: String,
    pub(crate) top: Option<Name>,
    pub(crate) choice: Choice,
}

/// What a line asks.
pub(crate) fn asked_by(line: Comparison) -> Asked
    ensures top { result.top ≡ line.top }
    ensures choice { result.choice ≡ choice_of line }
{
    Asked {
        old: line.old,
        new: line.new,
        top: line.top,
        choice: Choice {
            moves: moves_of(line.each),
            severity: severity_of(line.breaking),
            ignored: line.ignored,
            format: format_of(line.format),
        },
    }
}

/// Compares the maps or sessions of two inputs.
fn compare_inputs<'a, F: Read, W: Write>(
    alloc: Global,
    asked: &'a Asked,
    old: &mut NotedReader<F>,
    new: &mut NotedReader<F>,
    output: &mut NotedWriter<'_, W>,
) -> Result<Status, Stop<'a>>
    ensures ran { IfOk result (Ran asked.entry.now.top asked.entry.now.choice (F.remaining old.old.reader) (F.remaining new.old.reader)
        (W.contents output.old.writer.now) (W.contents output.new.writer.now)) }
{
    let fault = match compare(alloc, old, new, asked.top.as_ref(), &asked.choice, output) {
        Ok(status) => return Ok(status),
        Err(fault) => fault,
    };
    let obstacle = match fault {
        RunFault::Memory => None,
        RunFault::Write => obstacle_of_output(output),
        _ => obstacle_of_inputs(
            MOST_BYTES as u64,
            asked.old.as_str(),
            old,
            asked.new.as_str(),
            new,
        ),
    };
    Err(Stop { fault, obstacle })
}

/// Compares the maps or sessions of the two files. The lines, or the message of the first that is refused, go to the output.
pub(crate) fn compare_files<'a, R: Files, W: Write>(
    rt: &R,
    alloc: Global,
    asked: &'a Asked,
    output: &mut W,
) -> Result<Status, Stop<'a>>
    ensures status { IfOk result (IsStatusOf asked.entry.now.top asked.entry.now.choice) }
{
    let mut old = opened(rt, asked.old.as_str())?;
    let mut new = opened(rt, asked.new.as_str())?;
    let mut output = NotedWriter::new(output);
    compare_inputs(alloc, asked, &mut old, &mut new, &mut output)
}
