//! One line of a script after another.
ghost use Rattle.std.specs.Prelude.{◌≡◌, ◌⊎◌, ℕ, ◌≤◌, ◌<◌, ◌^◌, List, ◌∷◌, ◌++◌, ◌||◌, if◌then◌else◌, length, string_bytes, Err, IfOk, IfErr, OnOk, OnErr, IsErrOf, IsOkUnless};
ghost use Rattle.std.specs.List.{prefix_len};
ghost use Rattle.std.specs.Option.{option_copied};
ghost use Rattle.journal_core.specs.History.{Edits};
ghost use Rattle.journal_core.specs.Faults.{Explains};
ghost use Rattle.journal_core.specs.declared.fault.EditFault.{EditFault};
ghost use Rattle.rdl_edit.specs.Step.{Leads, Refuses};
ghost use Rattle.rdl_run.specs.OwnSteps.{AllOwn};
ghost use Rattle.rdl_run.specs.Answers.{Answers, AnswersAdd, AnswersEdit, IsListOf, Replied};
ghost use Rattle.rdl_script.specs.Commands.{undo, redo, lines_of, lines_left};
ghost use Rattle.rdl_run.specs.ScriptLines.{is_in_line, left_len};
ghost use Rattle.rdl_script.specs.Seen.{seen};
ghost use Rattle.rdl_run.specs.Replies.{said};
ghost use Rattle.rdl_run.specs.Shown.{AreAt, AreOf};
ghost use Rattle.rdl_run.specs.Faulted.{StopsServing};
ghost use Rattle.rdl_run.specs.Known.{AppendsFront};
ghost use Rattle.rdl_run.specs.Turns.{IsGivenUp, IsOpen};
ghost use Rattle.rdl_run.specs.Waiting.{Says};
ghost use Rattle.rdl_run.specs.Writers.{ServesAll};

use crate::counted::CountedWriter;
use crate::observer::{Observer, Scene};
use crate::output::write_counted;
use crate::reading::{ReadingFault, items_of};
use crate::reply::{LineRefusal, Reply, push_reply};
use crate::shown::rows_of;
use crate::status::RunFault;
use journal_core::fault::{EditFault, StepFault};
use journal_core::journal::Journal;
use rdl_edit::edit::Edit;
use rdl_edit::map::Map;
use rdl_edit::place::Place;
use rdl_edit::refusal::Refusal;
use rdl_elab::row::Rows;
use rdl_list::list_text;
use rdl_script::request::{Request, request_of};
use rdl_tree::description::Body;
use rdl_tree::path::Path;
use std::alloc::{AllocError, Global};
use std::io::Write;

/// Makes the edit, and lets it go.
fn make(alloc: Global, journal: &mut Journal<Map>, edit: Edit) -> Result<(), EditFault<Refusal>>
    ensures ok { OnOk result (Edits Leads edit journal.old.history journal.new.history) }
    ensures stay_own { AllOwn journal.old → AllOwn journal.new }
    ensures full { journal.old.history.limit ≤ journal.old.history.place → result ≡ Err EditFault.Full }
    ensures fault { IfErr result (Explains Refuses edit journal.old.history) }
    ensures err { OnErr result (journal.new ≡ journal.old) }
{
    journal.edit(alloc, &edit)
}

fn edit(alloc: Global, journal: &mut Journal<Map>, edit: Edit) -> Result<Reply, RunFault>
    ensures answers { IfOk result (λ reply. AnswersEdit journal.old.history edit (said reply) journal.new.history) }
    ensures stay_own { AllOwn journal.old → AllOwn journal.new }
    ensures fault { IsOkUnless result RunFault.Memory }
{
    match make(alloc, journal, edit) {
        Ok(()) => Ok(Reply::Done),
        Err(EditFault::Full) => Ok(Reply::Refused(LineRefusal::HistoryFull)),
        Err(EditFault::Refused(Refusal::Memory)) => Err(RunFault::Memory),
        Err(EditFault::Refused(refusal)) => Ok(Reply::Refused(LineRefusal::Edit(refusal))),
        Err(EditFault::Memory) => Err(RunFault::Memory),
    }
}

/// Adds the items of the text, which is one statement.
fn add(
    alloc: Global,
    journal: &mut Journal<Map>,
    path: Path,
    place: Place,
    text: &[u8],
) -> Result<Reply, RunFault>
    ensures answers { IfOk result (λ reply. AnswersAdd journal.old.history path place text.now (said reply) journal.new.history) }
    ensures stay_own { AllOwn journal.old → AllOwn journal.new }
    ensures fault { IsOkUnless result RunFault.Memory }
{
    match items_of(alloc, text) {
        Ok(items) => edit(
            alloc,
            journal,
            Edit::Add(path, place, Body::from_vec(items)),
        ),
        Err(ReadingFault::Refused(fault)) => Ok(Reply::Refused(LineRefusal::Text(fault))),
        Err(ReadingFault::Memory) => Err(RunFault::Memory),
    }
}

fn undo(alloc: Global, journal: &mut Journal<Map>) -> Result<Reply, RunFault>
    ensures answers { IfOk result (λ reply. Answers journal.old.history undo (said reply) journal.new.history) }
    ensures stay_own { AllOwn journal.old → AllOwn journal.new }
    ensures fault { IsOkUnless result RunFault.Memory }
{
    match journal.undo(alloc) {
        Ok(()) => Ok(Reply::Done),
        Err(StepFault::Nothing) => Ok(Reply::Refused(LineRefusal::NothingToUndo)),
        Err(StepFault::Memory) => Err(RunFault::Memory),
    }
}

fn redo(alloc: Global, journal: &mut Journal<Map>) -> Result<Reply, RunFault>
    ensures answers { IfOk result (λ reply. Answers journal.old.history redo (said reply) journal.new.history) }
    ensures stay_own { AllOwn journal.old → AllOwn journal.new }
    ensures fault { IsOkUnless result RunFault.Memory }
{
    match journal.redo(alloc) {
        Ok(()) => Ok(Reply::Done),
        Err(StepFault::Nothing) => Ok(Reply::Refused(LineRefusal::NothingToRedo)),
        Err(StepFault::Memory) => Err(RunFault::Memory),
    }
}

/// The lines of the rows of a map, which are kept.
fn list(alloc: Global, map: &Map, kept: &mut Option<Rows>) -> Result<Reply, RunFault>
    requires { AreOf map.now.state kept.old }
    ensures lists { IfOk result (λ reply. IsListOf map.now.state (said reply)) }
    ensures keeps { AreOf map.now.state kept.new }
    ensures fault { IsOkUnless result RunFault.Memory }
{
    let Ok(rows) = rows_of(alloc, map, kept.take()) else {
        return Err(RunFault::Memory);
    };
    let text = list_text(alloc, rows.as_slice());
    *kept = Some(rows);
    match text {
        Ok(text) => Ok(Reply::Listed(text)),
        Err(_) => Err(RunFault::Memory),
    }
}

/// Does what a line asks for. Rows of the map are kept until the next line that may change it.
pub fn serve(
    alloc: Global,
    journal: &mut Journal<Map>,
    kept: &mut Option<Rows>,
    request: Request<'_>,
) -> Result<Reply, RunFault>
    requires { AreAt journal.old.history kept.old }
    ensures answers { IfOk result (λ reply. Answers journal.old.history (seen request.entry) (said reply) journal.new.history) }
    ensures keeps { AreAt journal.new.history kept.new }
    ensures stay_own { AllOwn journal.old → AllOwn journal.new }
    ensures fault { IsOkUnless result RunFault.Memory }
{
    match request {
        Request::Nothing => Ok(Reply::Done),
        Request::List => list(alloc, journal.map(), kept),
        Request::Refused(fault) => Ok(Reply::Refused(LineRefusal::Command(fault))),
        Request::Undo => {
            *kept = None;
            undo(alloc, journal)
        }
        Request::Redo => {
            *kept = None;
            redo(alloc, journal)
        }
        Request::Edit(change) => {
            *kept = None;
            edit(alloc, journal, change)
        }
        Request::Add(path, place, text) => {
            *kept = None;
            add(alloc, journal, path, place, text)
        }
    }
}

fn line_len(bytes: &[u8]) -> usize
    ensures count { result ≡ prefix_len is_in_line bytes.now }
    ensures within { result ≤ length bytes.now }
{
    bytes.iter().take_while(|byte| **byte != b'\n').count()
}

/// The first line, and what stands behind its line feed, if it has one.
fn split_line(bytes: &[u8]) -> (&[u8], Option<&[u8]>)
    ensures lines { lines_of bytes.now ≡ result.0.now ∷ lines_left (option_copied result.1) }
    ensures less { left_len (option_copied result.1) ≤ length bytes.now }
{
    let end = line_len(bytes);
    if end < bytes.len() {
        (&bytes[..end], Some(&bytes[end + 1..]))
    } else {
        (bytes, None)
    }
}

/// Tells an observer that a line is done or refused.
fn tell<O: Observer>(
    observer: &mut O,
    number: usize,
    line: &[u8],
    reply: &Reply,
    scene: Scene<'_>,
) {
    match reply {
        Reply::Done => observer.line_done(number, line, scene.map),
        Reply::Refused(refusal) => observer.line_refused(number, line, refusal, scene),
        Reply::Listed(_) => {}
    }
}

/// Puts one line's message into the text, and answers whether the line is refused. The observer is told of that.
fn serve_line<O: Observer>(
    alloc: Global,
    journal: &mut Journal<Map>,
    kept: &mut Option<Rows>,
    number: usize,
    line: &[u8],
    message: &mut String,
    source: Option<&[u8]>,
    observer: &mut O,
) -> Result<bool, RunFault>
    requires { AreAt journal.old.history kept.old }
    ensures replied { IfOk result (λ refused. Replied journal.old.history line.now number (string_bytes message.new) refused journal.new.history) }
    ensures keeps { AreAt journal.new.history kept.new }
    ensures stay_own { AllOwn journal.old → AllOwn journal.new }
    ensures fault { IsOkUnless result RunFault.Memory }
{
    message.clear();
    let request = match request_of(alloc, line) {
        Ok(request) => request,
        Err(_) => return Err(RunFault::Memory),
    };
    let reply = match serve(alloc, journal, kept, request) {
        Ok(reply) => reply,
        Err(_) => return Err(RunFault::Memory),
    };
    let map = journal.map();
    tell(observer, number, line, &reply, Scene { map, source });
    match push_reply(message, number, &reply) {
        Ok(()) => Ok(reply.is_refused()),
        Err(_) => Err(RunFault::Memory),
    }
}

/// The most bytes of messages that wait to be written together.
const MOST_WAITING: usize = 65_536;

/// Puts a message behind those that wait, unless they would be too many, or there is no memory for that.
fn let_wait(waiting: &mut String, message: &str) -> bool
    ensures waits { string_bytes waiting.new ≡ (if result then string_bytes waiting.old ++ message.now else string_bytes waiting.old) }
{
    let length = waiting.len().saturating_add(message.len());
    length <= MOST_WAITING && waiting.push_str(message).is_ok()
}

/// Puts a message behind those that wait. Where it can't wait, all are written.
fn say<E: Write>(
    messages: &mut CountedWriter<'_, E>,
    waiting: &mut String,
    message: &str,
) -> Result<(), RunFault>
    requires asked { IsOpen messages.old.counts }
    ensures says { OnOk result (Says (E.contents messages.old.writer.now) (E.contents messages.new.writer.now) messages.old.counts messages.new.counts
        (string_bytes waiting.old) message.now (string_bytes waiting.new)) }
    ensures err { OnErr result (AppendsFront (E.contents messages.old.writer.now) (E.contents messages.new.writer.now) (string_bytes waiting.old ++ message.now)) }
    ensures fault { IsOkUnless result RunFault.Write }
    ensures ended { OnErr result (IsGivenUp messages.new.counts) }
    ensures few { messages.new.counts.interrupts ≤ 1000 }
    ensures asked { OnOk result (IsOpen messages.new.counts) }
    ensures same_reference { messages.new.writer.ghost_name ≡ messages.old.writer.ghost_name }
{
    if let_wait(waiting, message) {
        return Ok(());
    }
    write_counted(messages, waiting.as_bytes())?;
    waiting.clear();
    write_counted(messages, message.as_bytes())
}

fn is_either(one: bool, other: bool) -> bool
    ensures { result ≡ (one || other) }
{
    one || other
}

/// Serves the lines of a script, and writes the messages of all of them in their order, also where it stops for want of memory.
/// Answers whether one was refused. The rows are those of the map at the place, if they are there.
pub fn serve_all<E: Write, O: Observer>(
    alloc: Global,
    journal: &mut Journal<Map>,
    kept: &mut Option<Rows>,
    script: &[u8],
    messages: &mut CountedWriter<'_, E>,
    source: Option<&[u8]>,
    observer: &mut O,
) -> Result<bool, RunFault>
    requires length { length script.now < 2 ^ 32 }
    requires asked { IsOpen messages.old.counts }
    requires kept { AreAt journal.old.history kept.old }
    ensures served { IfOk result (ServesAll journal.old.history journal.new.history (lines_of script.now)
        (E.contents messages.old.writer.now) (E.contents messages.new.writer.now) messages.old.counts messages.new.counts) }
    ensures keeps { OnOk result (AreAt journal.new.history kept.new) }
    ensures stay_own { AllOwn journal.old → AllOwn journal.new }
    ensures fault { IfErr result (λ fault. (fault ≡ RunFault.Memory) ⊎ (fault ≡ RunFault.Write)) }
    ensures stopped { IfErr result (StopsServing journal.old.history (lines_of script.now) (E.contents messages.old.writer.now) (E.contents messages.new.writer.now)) }
    ensures ended { IsErrOf result RunFault.Write → IsGivenUp messages.new.counts }
    ensures unended { IsErrOf result RunFault.Memory → IsOpen messages.new.counts }
    ensures few { messages.new.counts.interrupts ≤ 1000 }
    ensures asked { OnOk result (IsOpen messages.new.counts) }
    ensures same_reference { messages.new.writer.ghost_name ≡ messages.old.writer.ghost_name }
{
    let mut number = 0usize;
    let mut refused = false;
    let mut message = String::new(alloc);
    let mut waiting = String::new(alloc);
    let mut rest = Some(script);
    'lines: while let Some(bytes) = rest {
        let (line, behind) = split_line(bytes);
        number += 1;
        let refuses = match serve_line(
            alloc,
            journal,
            kept,
            number,
            line,
            &mut message,
            source,
            observer,
        ) {
            Ok(refuses) => refuses,
            Err(_) => {
                if write_counted(messages, waiting.as_bytes()).is_err() {
                    return Err(RunFault::Write);
                }
                return Err(RunFault::Memory);
            }
        };
        if say(messages, &mut waiting, message.as_str()).is_err() {
            return Err(RunFault::Write);
        }
        refused = is_either(refused, refuses);
        rest = behind;
    }
    if write_counted(messages, waiting.as_bytes()).is_err() {
        return Err(RunFault::Write);
    }
    Ok(refused)
}
