//! Explanations of refusals.

use crate::command::command_telling;
use crate::edit::edit_telling;
use crate::marks::mark_of_fault;
use crate::request::{edit_of, edited};
use rdl_explain_map::fault::fault_telling;
use rdl_explain_map::fixed;
use rdl_explain_map::stretch::{trimmed_len, words_from};
use rdl_explain_map::telling::{Telling, told};
use rdl_explain_map::text_fault::text_telling;
use rdl_explain_map::view::{Met, View};
use rdl_parse::fault::{ParseFault, ParseFaultKind};
use rdl_rewrite::edit::PatchRefusal;
use rdl_script::request::{CommandFault, Request, request_of};
use rdl_tree::fault::Fault;
use std::alloc::{AllocError, Global};

/// The paths of MAP and SCRIPT, as they were given.
#[derive(Clone, Copy, Debug)]
pub struct Names<'a> {
    pub map: &'a str,
    pub script: &'a str,
}

/// Why a line of a script is refused.
#[derive(Debug, Drop)]
pub enum LineFault<'a> {
    /// C1 to C3.
    Command(CommandFault),
    /// C4: the text of an `add` has this fault.
    Text(ParseFault),
    /// X1 to X8: the edit is refused before the edited map is judged.
    Edit(PatchRefusal),
    /// X9: the edited map has this fault.
    Faulty(&'a Fault),
    /// J1.
    HistoryFull,
    /// J2.
    NothingToUndo,
    /// J3.
    NothingToRedo,
}

/// Explains why the line of this number is refused, without its line feed. Lines count from 1.
pub fn explain_line<'a>(
    alloc: Global,
    names: Names<'a>,
    number: usize,
    line: &[u8],
    fault: LineFault<'_>,
    met: Met<'a>,
) -> Result<String, AllocError> {
    let view = met.view(alloc, names.map);
    let telling = line_telling(view, line, fault)?;
    told(alloc, names.script, number, line, &telling)
}

fn line_telling(view: View<'_>, line: &[u8], fault: LineFault<'_>) -> Result<Telling, AllocError> {
    match fault {
        LineFault::Command(fault) => command_telling(view.alloc, line, fault),
        LineFault::Text(fault) => added_text(view.alloc, line, fault),
        LineFault::Edit(refusal) => match edit_of(view.alloc, line)? {
            Some(edit) => edit_telling(view, line, &edit, refusal),
            None => Telling::new(view.alloc, words_from(line, 0), "X1 no such path"),
        },
        LineFault::Faulty(fault) => faulty(view, line, fault),
        LineFault::HistoryFull => history(
            view.alloc,
            line,
            "J1 history full",
            "`--history N` with a greater N keeps more steps; or begin anew with the edited map as MAP",
        ),
        LineFault::NothingToUndo => history(
            view.alloc,
            line,
            "J2 nothing to undo",
            "no edit was accepted before it that isn't undone; a session brings those of earlier runs",
        ),
        LineFault::NothingToRedo => history(
            view.alloc,
            line,
            "J3 nothing to redo",
            "nothing was undone before it, or an edit since then has dropped it",
        ),
    }
}

fn history(alloc: Global, line: &[u8], what: &str, cure: &str) -> Result<Telling, AllocError> {
    let mut telling = Telling::new(alloc, words_from(line, 0), what)?;
    telling.note(cure)?;
    Ok(telling)
}

/// The byte of a line at which the text of its `add` begins.
fn text_start(alloc: Global, line: &[u8]) -> Result<usize, AllocError> {
    match request_of(alloc, line)? {
        Request::Add(_, _, text) => Ok(trimmed_len(line).saturating_sub(text.len())),
        _ => Ok(0),
    }
}

/// C4: what is told of the text of an `add`.
fn added_text(alloc: Global, line: &[u8], fault: ParseFault) -> Result<Telling, AllocError> {
    let start = text_start(alloc, line)?;
    let text = line.get(start..trimmed_len(line)).unwrap_or(&[]);
    let mut telling = text_telling(alloc, text, fault)?;
    telling.mark = telling.mark.behind(start);
    if let ParseFaultKind::UnexpectedEnd = fault.kind {
        telling.note("TEXT of `add` stands whole on its line")?;
    }
    Ok(telling)
}

/// X9: what is told of a fault of the map that the line would make.
fn faulty(view: View<'_>, line: &[u8], fault: &Fault) -> Result<Telling, AllocError> {
    let Some(edit) = edit_of(view.alloc, line)? else {
        return Telling::new(
            view.alloc,
            words_from(line, 0),
            "X9 the edited map has a fault",
        );
    };
    let mark = mark_of_fault(view, line, &edit, fault)?;
    let Some(edited) = edited(view.alloc, view.description, &edit)? else {
        let mut telling = Telling::new(view.alloc, mark, fixed::fault(fault.kind))?;
        telling.note("the edited map would be too deep")?;
        return Ok(telling);
    };
    let mut telling = fault_telling(view.with(&edited), fault)?;
    telling.mark = mark;
    Ok(telling)
}
