//! What a line of a script asks for.
ghost use Rattle.std.specs.Prelude.{◌≡◌, IfOk, Some, option_map};
ghost use Rattle.rdl_script.specs.Commands as spec;
ghost use Rattle.rdl_script.specs.Seen.{seen, seen_place};

use crate::edit::edit_in;
use crate::line::{split_word, trimmed};
use crate::path::path_in;
use crate::place::{Placed, place_in};
use crate::verb::Verb;
use rdl_rewrite::edit::Edit;
use rdl_rewrite::place::Place;
use rdl_tree::path::Path;
use std::alloc::{AllocError, Global};
use std::str;

/// Why a line asks for nothing that can be done. C3 is judged first.
#[derive(Clone, Copy, Debug, PartialEq, Eq, Drop)]
pub enum CommandFault {
    /// C1: the first word is no command.
    Unknown,
    /// C2: an operand is missing, left over or not of its form.
    BadOperands,
    /// C3: the line is not UTF-8.
    NotUtf8,
}

/// What a line asks for. A contract sees a `Command`.
#[derive(Debug, Drop)]
pub enum Request<'a> {
    Nothing,
    Undo,
    Redo,
    List,
    /// Any edit but an `Add`.
    Edit(Edit),
    /// An addition, with the text of its statement.
    Add(Path, Place, &'a [u8]),
    Refused(CommandFault),
}

fn alone<'a>(request: Request<'a>, operands: &str) -> Request<'a>
    ensures { seen result ≡ spec.alone (seen request.entry) operands.now }
{
    if operands.is_empty() {
        request
    } else {
        Request::Refused(CommandFault::BadOperands)
    }
}

fn edit_or_refused<'a>(edit: Option<Edit>) -> Request<'a>
    ensures { seen result ≡ spec.edit_or_refused edit }
{
    match edit {
        Some(edit) => Request::Edit(edit),
        None => Request::Refused(CommandFault::BadOperands),
    }
}

fn add_at<'a>(path: Path, place: Place, text: &'a str) -> Request<'a>
    ensures { seen result ≡ spec.add_to (Some path) (Some (place, text.now)) }
{
    if text.is_empty() {
        Request::Refused(CommandFault::BadOperands)
    } else {
        Request::Add(path, place, text.as_bytes())
    }
}

fn add_to<'a>(path: Path, place: Option<Placed<'a>>) -> Request<'a>
    ensures { seen result ≡ spec.add_to (Some path) (option_map seen_place place.entry) }
{
    match place {
        Some((place, text)) => add_at(path, place, text),
        None => Request::Refused(CommandFault::BadOperands),
    }
}

#[tactic(auto, unfolding(crate::specs::Commands::added))]
fn added<'a>(alloc: Global, operands: &'a str) -> Result<Request<'a>, AllocError>
    ensures { IfOk result (λ request. seen request ≡ spec.added operands.now) }
{
    let (word, rest) = split_word(operands);
    match path_in(alloc, word)? {
        Some(path) => Ok(add_to(path, place_in(alloc, rest)?)),
        None => Ok(Request::Refused(CommandFault::BadOperands)),
    }
}

fn asked<'a>(
    alloc: Global,
    verb: Option<Verb>,
    operands: &'a str,
) -> Result<Request<'a>, AllocError>
    ensures { IfOk result (λ request. seen request ≡ spec.asked verb operands.now) }
{
    match verb {
        Some(Verb::Undo) => Ok(alone(Request::Undo, operands)),
        Some(Verb::Redo) => Ok(alone(Request::Redo, operands)),
        Some(Verb::List) => Ok(alone(Request::List, operands)),
        Some(Verb::Add) => added(alloc, operands),
        Some(Verb::Edit(verb)) => Ok(edit_or_refused(edit_in(alloc, verb, operands)?)),
        None => Ok(Request::Refused(CommandFault::Unknown)),
    }
}

fn is_silent(line: &[u8]) -> bool
    ensures { result ≡ spec.is_silent line.now }
{
    match line {
        [] => true,
        [first, ..] => *first == b'#',
    }
}

#[tactic(auto, unfolding(crate::specs::Commands::command_in))]
fn request_in<'a>(alloc: Global, line: &'a [u8]) -> Result<Request<'a>, AllocError>
    ensures { IfOk result (λ request. seen request ≡ spec.command_in line.now) }
{
    if is_silent(line) {
        return Ok(Request::Nothing);
    }
    let Ok(line) = str::from_utf8(line) else {
        return Ok(Request::Refused(CommandFault::NotUtf8));
    };
    let (word, operands) = split_word(line);
    asked(alloc, Verb::of(word), operands)
}

/// What a line asks for.
pub fn request_of<'a>(alloc: Global, line: &'a [u8]) -> Result<Request<'a>, AllocError>
    ensures { IfOk result (λ request. seen request ≡ spec.command_of line.now) }
{
    request_in(alloc, trimmed(line))
}
