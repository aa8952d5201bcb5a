//! A whole comparison, from two inputs to one output.
ghost use Rattle.std.specs.Prelude.{◌≡◌, ◌⊎◌, true, ℕ, List, Option, IfOk, IfErr, IsErrOf, OnOk, option_copied};
ghost use Rattle.rdl_diff.specs.Left.{left};
ghost use Rattle.rdl_diff.specs.SameRows.{HaveOwnPaths};
ghost use Rattle.rdl_diff.specs.Written.{diff_texts};
ghost use Rattle.rdl_run.specs.Comparing.{Ran, RefusesToCompare, StandsFor, Stopped, StopsLines, WritesLines};
ghost use Rattle.rdl_run.specs.Judging.{AreJudged, IsRefusal, rows_in};
ghost use Rattle.rdl_run.specs.Known.{IsOver, IsWithin};
ghost use Rattle.rdl_run.specs.OpeningFaults.{IfRefusedToOpen};
ghost use Rattle.rdl_run.specs.Sources.{without_source};
ghost use Rattle.rdl_run.specs.Turns.{IsGivenUp, IsInterrupted, IsOpen, unread, unwritten};
ghost use Rattle.rdl_run.specs.declared.status.RunFault.{RunFault};

use crate::counted::{CountedReader, CountedWriter};
use crate::front::with_front;
use crate::input::read_counted;
use crate::open::OpenFault;
use crate::output::write_counted;
use crate::rows::opened_rows;
use crate::run::MOST_BYTES;
use crate::sources::without_source;
use crate::status::RunFault;
use rdl_diff::Differences;
use rdl_diff::choice::Choice;
use rdl_diff::status::Status;
use rdl_elab::row::{Row, Rows};
use rdl_text::name::Name;
use std::alloc::{AllocError, Global};
use std::io::{Read, Write};

/// Two maps or sessions that were judged.
#[derive(Drop)]
enum Judged {
    /// One is refused. Of two that are it is the first, and this is its message.
    Refused(Vec<u8>),
    /// The rows of both, where each is a map or session.
    Accepted(Option<Rows>, Option<Rows>),
}

/// The message of a map or session that isn't opened. It begins with this word.
fn refused(alloc: Global, word: &str, fault: OpenFault) -> Result<Judged, AllocError>
    ensures { (top : Option (List ℕ)) (bytes : List ℕ) → IfRefusedToOpen fault (RefusesToCompare top bytes) → IfOk result (IsRefusal word.now top bytes) }
{
    match fault {
        OpenFault::Refused(message) => {
            Ok(Judged::Refused(with_front(alloc, word, message.as_str())?))
        }
        OpenFault::Memory => Err(AllocError),
    }
}

/// The rows of the map or session that the bytes are; no bytes are no map.
fn compared_rows(alloc: Global, bytes: &[u8], top: Option<&Name>) -> Result<Option<Rows>, OpenFault>
    ensures rows { IfOk result (λ rows. StandsFor (option_copied top.entry) bytes.now (rows_in rows)) }
    ensures refused { IfErr result (λ fault. IfRefusedToOpen fault (RefusesToCompare (option_copied top.entry) bytes.now)) }
{
    match bytes {
        [] => Ok(None),
        [_, ..] => Ok(Some(opened_rows(alloc, bytes, top)?)),
    }
}

/// The rows, of which there are none without a map.
fn rows_in(rows: &Option<Rows>) -> &[Row]
    ensures { result.now ≡ rows_in rows.now }
{
    match rows {
        Some(rows) => rows.as_slice(),
        None => &[],
    }
}

/// The rows of two maps or sessions, or the message of the first that is refused.
fn judge(alloc: Global, old: &[u8], new: &[u8], top: Option<&Name>) -> Result<Judged, AllocError>
    ensures { IfOk result (AreJudged (option_copied top.entry) (without_source old.now) (without_source new.now)) }
{
    let old_rows = match compared_rows(alloc, without_source(old), top) {
        Ok(rows) => rows,
        Err(fault) => return refused(alloc, "old", fault),
    };
    let new_rows = match compared_rows(alloc, without_source(new), top) {
        Ok(rows) => rows,
        Err(fault) => return refused(alloc, "new", fault),
    };
    Ok(Judged::Accepted(old_rows, new_rows))
}

/// Lines are written as soon as there are so many bytes of them.
const BLOCK: usize = 65_536;

/// Writes all lines, in blocks.
fn write_all<W: Write>(
    alloc: Global,
    differences: &mut Differences<'_>,
    output: &mut CountedWriter<'_, W>,
) -> Result<Status, RunFault>
    requires asked { IsOpen output.old.counts }
    ensures wrote { IfOk result (WritesLines (left differences.old) (W.contents output.old.writer.now) (W.contents output.new.writer.now)) }
    ensures stopped { IfErr result (StopsLines (left differences.old) (W.contents output.old.writer.now) (W.contents output.new.writer.now)) }
    ensures ended { IsErrOf result RunFault.Write → IsGivenUp output.new.counts }
    ensures open { OnOk result (IsOpen output.new.counts) }
    ensures same_output { output.new.writer.ghost_name ≡ output.old.writer.ghost_name }
{
    let mut text = String::new(alloc);
    let mut status = Status::Same;
    'rows: while differences.push_next(alloc, &mut text)? {
        if text.len() >= BLOCK {
            write_counted(output, text.as_bytes())?;
            text.clear();
            status = Status::Different;
        }
    }
    write_counted(output, text.as_bytes())?;
    if !text.is_empty() {
        status = Status::Different;
    }
    Ok(status)
}

/// Writes the lines of the rows of two maps, of which the first has no two of one path.
fn write_lines<W: Write>(
    alloc: Global,
    choice: &Choice,
    old: &[Row],
    new: &[Row],
    output: &mut CountedWriter<'_, W>,
) -> Result<Status, RunFault>
    requires own { HaveOwnPaths old.now }
    requires asked { IsOpen output.old.counts }
    ensures wrote { IfOk result (WritesLines (diff_texts choice.now old.now new.now) (W.contents output.old.writer.now) (W.contents output.new.writer.now)) }
    ensures stopped { IfErr result (StopsLines (diff_texts choice.now old.now new.now) (W.contents output.old.writer.now) (W.contents output.new.writer.now)) }
    ensures ended { IsErrOf result RunFault.Write → IsGivenUp output.new.counts }
    ensures open { OnOk result (IsOpen output.new.counts) }
    ensures same_output { output.new.writer.ghost_name ≡ output.old.writer.ghost_name }
{
    let mut differences = Differences::of_own(alloc, choice, old, new)?;
    write_all(alloc, &mut differences, output)
}

/// The whole comparison, on inputs and an output that weren't asked before.
fn compare_counted<O: Read, N: Read, W: Write>(
    alloc: Global,
    old_map: &mut CountedReader<'_, O>,
    new_map: &mut CountedReader<'_, N>,
    top: Option<&Name>,
    choice: &Choice,
    output: &mut CountedWriter<'_, W>,
) -> Result<Status, RunFault>
    requires old_fresh { old_map.old.counts ≡ unread }
    requires new_fresh { new_map.old.counts ≡ unread }
    requires fresh { output.old.counts ≡ unwritten }
    ensures ran { IfOk result (Ran (option_copied top.entry) choice.now (O.remaining old_map.old.reader.now) (N.remaining new_map.old.reader.now) (W.contents output.old.writer.now) (W.contents output.new.writer.now)) }
    ensures stopped { IfErr result (Stopped (option_copied top.entry) choice.now (O.remaining old_map.old.reader.now) (N.remaining new_map.old.reader.now) (W.contents output.old.writer.now) (W.contents output.new.writer.now)) }
    ensures too_long { IsErrOf result RunFault.TooLong → IsOver (O.remaining old_map.old.reader.now) ⊎ IsOver (N.remaining new_map.old.reader.now) }
    ensures bound { OnOk result (IsWithin (O.remaining old_map.old.reader.now) × IsWithin (N.remaining new_map.old.reader.now)) }
    ensures read_failed { IsErrOf result RunFault.Read → (old_map.new.counts.failed ≡ true) ⊎ (new_map.new.counts.failed ≡ true) }
    ensures interrupted { IsErrOf result RunFault.Interrupted → IsInterrupted old_map.new.counts ⊎ IsInterrupted new_map.new.counts }
    ensures write_ended { IsErrOf result RunFault.Write → IsGivenUp output.new.counts }
    ensures open { OnOk result (IsOpen output.new.counts) }
    ensures same_old { old_map.new.reader.ghost_name ≡ old_map.old.reader.ghost_name }
    ensures same_new { new_map.new.reader.ghost_name ≡ new_map.old.reader.ghost_name }
    ensures same_output { output.new.writer.ghost_name ≡ output.old.writer.ghost_name }
{
    let old = read_counted(alloc, old_map, MOST_BYTES)?;
    let new = read_counted(alloc, new_map, MOST_BYTES)?;
    match judge(alloc, old.as_slice(), new.as_slice(), top)? {
        Judged::Refused(message) => {
            write_counted(output, message.as_slice())?;
            Ok(Status::MapRefused)
        }
        Judged::Accepted(old, new) => {
            write_lines(alloc, choice, rows_in(&old), rows_in(&new), output)
        }
    }
}

/// Reads two maps or sessions whole, and writes the lines that say how the rows of the second map differ from those of the
/// first, or the message of the first that is refused. No bytes are a map without rows.
pub fn compare<O: Read, N: Read, W: Write>(
    alloc: Global,
    old_map: &mut O,
    new_map: &mut N,
    top: Option<&Name>,
    choice: &Choice,
    output: &mut W,
) -> Result<Status, RunFault>
    ensures ran { IfOk result (Ran (option_copied top.entry) choice.now (O.remaining old_map.old) (N.remaining new_map.old) (W.contents output.old) (W.contents output.new)) }
    ensures stopped { IfErr result (Stopped (option_copied top.entry) choice.now (O.remaining old_map.old) (N.remaining new_map.old) (W.contents output.old) (W.contents output.new)) }

    // Where a reader tells its bytes, it stops for too many only if there are more than 67,108,864.
    ensures too_long { IsErrOf result RunFault.TooLong → IsOver (O.remaining old_map.old) ⊎ IsOver (N.remaining new_map.old) }
    ensures bound { OnOk result (IsWithin (O.remaining old_map.old) × IsWithin (N.remaining new_map.old)) }
{
    compare_counted(
        alloc,
        &mut CountedReader::new(old_map),
        &mut CountedReader::new(new_map),
        top,
        choice,
        &mut CountedWriter::new(output, 0),
    )
}
