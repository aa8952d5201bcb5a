//! A whole run, from two inputs to four outputs.
ghost use Rattle.std.specs.Prelude.{◌≡◌, ◌≢◌, ◌⊎◌, ◌&&◌, ◌^◌, ◌<◌, ◌≤◌, [], true, length, string_bytes, Err, IfOk, IfErr, IfSome, IsErrOf, IsOkUnless, OnErr, OnOk};
ghost use Rattle.rdl_run.specs.ClosedRuns.{ClosesRun, ClosesScript, StopsRun, StopsScript};
ghost use Rattle.rdl_run.specs.Beside.{MakesBeside};
ghost use Rattle.rdl_run.specs.Edited.{EditsScript};
ghost use Rattle.rdl_run.specs.Missing.{has_session};
ghost use Rattle.rdl_run.specs.Saved.{IsKept};
ghost use Rattle.rdl_run.specs.Sources.{kept_source, source_of, without_source};
ghost use Rattle.rdl_weave.specs.Sources.{IsSource};
ghost use Rattle.rdl_run.specs.Opening.{EachElaborates};
ghost use Rattle.rdl_run.specs.Faulted.{Faulted, Leaves};
ghost use Rattle.rdl_run.specs.ClosingTexts.{texts_of};
ghost use Rattle.rdl_run.specs.OwnSteps.{AllOwn};
ghost use Rattle.rdl_run.specs.Output.{AtOutputs, HaveTaken, Holds, Ran, RanCounted};
ghost use Rattle.rdl_run.specs.RunTexts.{AreRun, AreRunCounted, in_memory};
ghost use Rattle.rdl_run.specs.Known.{IsOver, IsWithin};
ghost use Rattle.rdl_run.specs.Shown.{AreAt};
ghost use Rattle.rdl_run.specs.Turns.{AreFew, AreOpen, AreUnwritten, GivesUp, HasEnded, IsGivenUp, IsInterrupted, IsOpen, unread, unwritten};
ghost use Rattle.rdl_run.specs.Writers.{AtWriters, SameWriters, counts_of, known};
ghost use Rattle.rdl_run.specs.declared.status.RunFault.{RunFault};

use crate::closing::Closing;
use crate::counted::{CountedReader, CountedWriter};
use crate::edited::Edited;
use crate::input::read_counted;
use crate::observer::{Observer, Silent};
use crate::open::{OpenFault, open_shown};
use crate::output::write_counted;
use crate::outputs::Outputs;
use crate::saved::Saved;
use crate::serve::serve_all;
use crate::sources::{source_of, without_source};
use crate::status::{RunFault, Status};
use journal_core::journal::Journal;
use rdl_edit::map::Map;
use rdl_elab::row::Rows;
use rdl_text::name::Name;
use rdl_weave::source::Source;
use std::alloc::Global;
use std::io::{Read, Write};

/// What a run is asked.
#[derive(Debug, Drop)]
pub struct Options {
    /// The name of the top; with none it is the last address map of the root.
    pub top: Option<Name>,
    /// How many changes can be undone.
    pub history: u32,
    /// Whether the session is written.
    pub session: bool,
    /// Whether the edited text is made: that of the map that is read, with only the edits woven in.
    pub edited: bool,
}

/// The texts that a run makes, and how it ended. A text is empty where it is missing or isn't asked for.
#[derive(Debug, Drop)]
pub struct Texts {
    pub status: Status,
    pub rdl: String,
    pub header: String,
    pub session: String,
    pub edited: Edited,
    /// How the session goes out.
    pub saved: Saved,
}

/// The greatest map or session and the greatest script, in bytes.
pub const MOST_BYTES: usize = 67_108_864;

/// Writes what closes a run, the messages first.
fn write_closing<R: Write, H: Write, Z: Write, E: Write>(
    closing: &Closing,
    outputs: &mut Outputs<'_, '_, '_, '_, R, H, Z, E>,
) -> Result<(), RunFault>
    requires asked { AreOpen (counts_of outputs.old) }
    ensures wrote { let held = known R.contents H.contents Z.contents E.contents in
        OnOk result (Holds (held outputs.old) (held outputs.new) closing.now.status (texts_of closing.now)) }
    ensures took { OnOk result (HaveTaken (counts_of outputs.old) (counts_of outputs.new) (texts_of closing.now)) }
    ensures stopped { let held = known R.contents H.contents Z.contents E.contents in
        IfErr result (λ fault. Leaves fault (held outputs.old) (held outputs.new) (texts_of closing.now)) }
    ensures fault { IsOkUnless result RunFault.Write }
    ensures ended { OnErr result (GivesUp (counts_of outputs.new)) }
    ensures all_open { OnOk result (AreOpen (counts_of outputs.new)) }
    ensures few { AreFew (counts_of outputs.new) }
    ensures same { SameWriters outputs.old outputs.new }
{
    write_counted(&mut outputs.messages, closing.message.as_bytes())?;
    write_counted(&mut outputs.rdl, closing.rdl.as_bytes())?;
    write_counted(&mut outputs.header, closing.header.as_bytes())?;
    write_counted(&mut outputs.session, closing.session.as_bytes())?;
    Ok(())
}

/// Runs a script from where a history stands, with the rows of its map and what was read of its source text if they are there, and makes
/// what closes the run: the map that it leads to, that map's header, and the session if it is asked for. Where two of the header's macros have one name,
/// that is said, and there is no header; where the session is too long, that is said, and there is none.
fn run_script<E: Write, O: Observer>(
    alloc: Global,
    journal: &mut Journal<Map>,
    mut kept: Option<Rows>,
    options: &Options,
    bytes: &[u8],
    source: Option<Source>,
    script: &[u8],
    messages: &mut CountedWriter<'_, E>,
    observer: &mut O,
) -> Result<Closing, RunFault>
    requires source { IfSome source (IsSource (without_source bytes.now)) }
    requires length { length script.now < 2 ^ 32 }
    requires kept { AreAt journal.old.history kept }
    requires asked { IsOpen messages.old.counts }
    ensures closes { IfOk result (ClosesScript (AllOwn journal.old) options.now.session journal.old.history script.now
        (E.contents messages.old.writer.now) (E.contents messages.new.writer.now) messages.old.counts messages.new.counts) }
    ensures edited { IfOk result (λ closing. EditsScript options.now.edited journal.old.history script.now (source_of bytes.now) (string_bytes closing.rdl) closing.edited) }
    ensures saved { IfOk result (λ closing. IsKept (kept_source (options.now.session && has_session closing.status) options.now.edited bytes.now) (string_bytes closing.session) closing.saved) }
    ensures stops { EachElaborates journal.old.history
        → IfErr result (StopsScript options.now.session journal.old.history script.now (E.contents messages.old.writer.now) (E.contents messages.new.writer.now)) }
    ensures write_ended { IsErrOf result RunFault.Write → IsGivenUp messages.new.counts }
    ensures all_open { OnOk result (IsOpen messages.new.counts) }
    ensures ends { messages.new.counts.ended ≡ true → result ≡ Err RunFault.Write }
    ensures no_read { result ≢ Err RunFault.Read }
    ensures no_too_long { result ≢ Err RunFault.TooLong }
    ensures no_interrupted { result ≢ Err RunFault.Interrupted }
    ensures few { messages.new.counts.interrupts ≤ 1000 }
    ensures same_reference { messages.new.writer.ghost_name ≡ messages.old.writer.ghost_name }
{
    observer.map_opened(journal.map());
    let is_refused = serve_all(
        alloc,
        journal,
        &mut kept,
        script,
        messages,
        source_of(bytes),
        observer,
    )?;
    observer.map_left(journal.map());
    Closing::of(
        alloc, journal, kept, is_refused, options, bytes, source, observer,
    )
}

/// Whether rows are shown of the map that is opened, as far as the front of a script tells.
fn is_listed(script: &[u8]) -> bool {
    script.is_empty() || script.starts_with(b"list\n")
}

/// The run up to what closes it, on inputs and a writer of messages that weren't asked before. The replies are written.
fn run_lines<M: Read, S: Read, E: Write, O: Observer>(
    alloc: Global,
    map: &mut CountedReader<'_, M>,
    script: &mut CountedReader<'_, S>,
    options: &Options,
    messages: &mut CountedWriter<'_, E>,
    observer: &mut O,
) -> Result<Closing, RunFault>
    requires map_fresh { map.old.counts ≡ unread }
    requires script_fresh { script.old.counts ≡ unread }
    requires fresh { messages.old.counts ≡ unwritten }
    ensures closes { IfOk result (ClosesRun options.now (M.remaining map.old.reader.now) (S.remaining script.old.reader.now)
        (E.contents messages.old.writer.now) (E.contents messages.new.writer.now) messages.old.counts messages.new.counts) }
    ensures beside { IfOk result (λ closing. MakesBeside options.now (M.remaining map.old.reader.now) (S.remaining script.old.reader.now)
        closing.status (string_bytes closing.rdl) (string_bytes closing.session) closing.edited closing.saved) }
    ensures stops { IfErr result (StopsRun options.now (M.remaining map.old.reader.now) (S.remaining script.old.reader.now)
        (E.contents messages.old.writer.now) (E.contents messages.new.writer.now)) }
    ensures write_ended { IsErrOf result RunFault.Write → IsGivenUp messages.new.counts }
    ensures all_open { OnOk result (IsOpen messages.new.counts) }
    ensures ends { messages.new.counts.ended ≡ true → result ≡ Err RunFault.Write }
    ensures too_long { IsErrOf result RunFault.TooLong → IsOver (M.remaining map.old.reader.now) ⊎ IsOver (S.remaining script.old.reader.now) }
    ensures bound { OnOk result (IsWithin (M.remaining map.old.reader.now) × IsWithin (S.remaining script.old.reader.now)) }
    ensures interrupted { IsErrOf result RunFault.Interrupted → IsInterrupted map.new.counts ⊎ IsInterrupted script.new.counts }
    ensures read_failed { IsErrOf result RunFault.Read → (map.new.counts.failed ≡ true) ⊎ (script.new.counts.failed ≡ true) }
    ensures map_reads { map.new.counts.reads ≤ 67109865 }
    ensures script_reads { script.new.counts.reads ≤ 67109865 }
    ensures few { messages.new.counts.interrupts ≤ 1000 }
    ensures same_reference { messages.new.writer.ghost_name ≡ messages.old.writer.ghost_name }
{
    let map_bytes = read_counted(alloc, map, MOST_BYTES)?;
    let script_bytes = read_counted(alloc, script, MOST_BYTES)?;
    let opened = open_shown(
        alloc,
        without_source(map_bytes.as_slice()),
        options.top.as_ref(),
        options.history,
        is_listed(script_bytes.as_slice()),
        options.edited,
    );
    match opened {
        Ok(shown) => {
            let (mut journal, kept, source) = shown;
            run_script(
                alloc,
                &mut journal,
                kept,
                options,
                map_bytes.as_slice(),
                source,
                script_bytes.as_slice(),
                messages,
                observer,
            )
        }
        Err(OpenFault::Refused(message)) => {
            observer.map_refused(map_bytes.as_slice(), options.top.as_ref());
            Ok(Closing::refused(alloc, message))
        }
        Err(OpenFault::Memory) => Err(RunFault::Memory),
    }
}

/// The whole run, on inputs and outputs that weren't asked before.
fn run_counted<M: Read, S: Read, R: Write, H: Write, Z: Write, E: Write>(
    alloc: Global,
    map: &mut CountedReader<'_, M>,
    script: &mut CountedReader<'_, S>,
    options: &Options,
    outputs: &mut Outputs<'_, '_, '_, '_, R, H, Z, E>,
) -> Result<Status, RunFault>
    requires map_fresh { map.old.counts ≡ unread }
    requires script_fresh { script.old.counts ≡ unread }
    requires fresh { AreUnwritten (counts_of outputs.old) }
    ensures ran { let held = known R.contents H.contents Z.contents E.contents in
        IfOk result (AtWriters held (RanCounted options.now (M.remaining map.old.reader.now) (S.remaining script.old.reader.now)) outputs.old outputs.new) }
    ensures faulted { let held = known R.contents H.contents Z.contents E.contents in
        IfErr result (Faulted options.now (M.remaining map.old.reader.now) (S.remaining script.old.reader.now) (held outputs.old) (held outputs.new)) }
    ensures write_ended { IsErrOf result RunFault.Write → GivesUp (counts_of outputs.new) }
    ensures all_open { OnOk result (AreOpen (counts_of outputs.new)) }
    ensures ends { HasEnded (counts_of outputs.new) → result ≡ Err RunFault.Write }
    ensures too_long { IsErrOf result RunFault.TooLong → IsOver (M.remaining map.old.reader.now) ⊎ IsOver (S.remaining script.old.reader.now) }
    ensures bound { OnOk result (IsWithin (M.remaining map.old.reader.now) × IsWithin (S.remaining script.old.reader.now)) }
    ensures interrupted { IsErrOf result RunFault.Interrupted → IsInterrupted map.new.counts ⊎ IsInterrupted script.new.counts }
    ensures read_failed { IsErrOf result RunFault.Read → (map.new.counts.failed ≡ true) ⊎ (script.new.counts.failed ≡ true) }
    ensures map_reads { map.new.counts.reads ≤ 67109865 }
    ensures script_reads { script.new.counts.reads ≤ 67109865 }
    ensures few { AreFew (counts_of outputs.new) }
    ensures same { SameWriters outputs.old outputs.new }
{
    let closing = run_lines(
        alloc,
        map,
        script,
        options,
        &mut outputs.messages,
        &mut Silent,
    )?;
    write_closing(&closing, outputs)?;
    Ok(closing.status)
}

/// Reads the map or session and the script whole, runs the script's lines, and writes the map that they lead to, its header,
/// and the session if it is asked for: that map with the steps that lead back from it and on.
pub fn run<M: Read, S: Read, R: Write, H: Write, Z: Write, E: Write>(
    alloc: Global,
    map: &mut M,
    script: &mut S,
    options: &Options,
    rdl: &mut R,
    header: &mut H,
    session: &mut Z,
    messages: &mut E,
) -> Result<Status, RunFault>
    ensures ran { IfOk result (AtOutputs E.contents R.contents H.contents Z.contents (Ran options.now (M.remaining map.old) (S.remaining script.old))
        messages.old rdl.old header.old session.old messages.new rdl.new header.new session.new) }
    ensures faulted { IfErr result (AtOutputs E.contents R.contents H.contents Z.contents (Faulted options.now (M.remaining map.old) (S.remaining script.old))
        messages.old rdl.old header.old session.old messages.new rdl.new header.new session.new) }

    // Where a reader tells its bytes, it stops for too many only if there are more than 67,108,864.
    ensures too_long { IsErrOf result RunFault.TooLong → IsOver (M.remaining map.old) ⊎ IsOver (S.remaining script.old) }
    ensures bound { OnOk result (IsWithin (M.remaining map.old) × IsWithin (S.remaining script.old)) }
{
    let mut map = CountedReader::new(map);
    let mut script = CountedReader::new(script);
    let mut outputs = Outputs {
        rdl: CountedWriter::new(rdl, 0),
        header: CountedWriter::new(header, 0),
        session: CountedWriter::new(session, 0),
        messages: CountedWriter::new(messages, 0),
    };
    run_counted(alloc, &mut map, &mut script, options, &mut outputs)
}

/// The run whose texts are handed out, on inputs and a writer of messages that weren't asked before.
fn texts_counted<M: Read, S: Read, E: Write, O: Observer>(
    alloc: Global,
    map: &mut CountedReader<'_, M>,
    script: &mut CountedReader<'_, S>,
    options: &Options,
    messages: &mut CountedWriter<'_, E>,
    observer: &mut O,
) -> Result<Texts, RunFault>
    requires map_fresh { map.old.counts ≡ unread }
    requires script_fresh { script.old.counts ≡ unread }
    requires fresh { messages.old.counts ≡ unwritten }
    ensures ran { IfOk result (AreRunCounted options.now (M.remaining map.old.reader.now) (S.remaining script.old.reader.now)
        (E.contents messages.old.writer.now) (E.contents messages.new.writer.now) messages.old.counts messages.new.counts) }
    ensures beside { IfOk result (λ texts. MakesBeside options.now (M.remaining map.old.reader.now) (S.remaining script.old.reader.now)
        texts.status (string_bytes texts.rdl) (string_bytes texts.session) texts.edited texts.saved) }
    ensures faulted { IfErr result (Faulted options.now (M.remaining map.old.reader.now) (S.remaining script.old.reader.now)
        (in_memory (E.contents messages.old.writer.now) [] [] []) (in_memory (E.contents messages.new.writer.now) [] [] [])) }
    ensures write_ended { IsErrOf result RunFault.Write → IsGivenUp messages.new.counts }
    ensures all_open { OnOk result (IsOpen messages.new.counts) }
    ensures ends { messages.new.counts.ended ≡ true → result ≡ Err RunFault.Write }
    ensures too_long { IsErrOf result RunFault.TooLong → IsOver (M.remaining map.old.reader.now) ⊎ IsOver (S.remaining script.old.reader.now) }
    ensures bound { OnOk result (IsWithin (M.remaining map.old.reader.now) × IsWithin (S.remaining script.old.reader.now)) }
    ensures interrupted { IsErrOf result RunFault.Interrupted → IsInterrupted map.new.counts ⊎ IsInterrupted script.new.counts }
    ensures read_failed { IsErrOf result RunFault.Read → (map.new.counts.failed ≡ true) ⊎ (script.new.counts.failed ≡ true) }
    ensures map_reads { map.new.counts.reads ≤ 67109865 }
    ensures script_reads { script.new.counts.reads ≤ 67109865 }
    ensures few { messages.new.counts.interrupts ≤ 1000 }
    ensures same_reference { messages.new.writer.ghost_name ≡ messages.old.writer.ghost_name }
{
    let closing = run_lines(alloc, map, script, options, messages, observer)?;
    write_counted(messages, closing.message.as_bytes())?;
    Ok(Texts {
        status: closing.status,
        rdl: closing.rdl,
        header: closing.header,
        session: closing.session,
        edited: closing.edited,
        saved: closing.saved,
    })
}

/// The same run, which hands out the texts of the map, its header and the session in place of writing them, and tells an observer what it
/// does and refuses.
pub fn run_observed<M: Read, S: Read, E: Write, O: Observer>(
    alloc: Global,
    map: &mut M,
    script: &mut S,
    options: &Options,
    messages: &mut E,
    observer: &mut O,
) -> Result<Texts, RunFault>
    ensures ran { IfOk result (AreRun options.now (M.remaining map.old) (S.remaining script.old) (E.contents messages.old) (E.contents messages.new)) }
    // The edited text is of the map that was read and of the one that is handed out with it. The session keeps its source.
    ensures beside { IfOk result (λ texts. MakesBeside options.now (M.remaining map.old) (S.remaining script.old)
        texts.status (string_bytes texts.rdl) (string_bytes texts.session) texts.edited texts.saved) }
    ensures faulted { IfErr result (Faulted options.now (M.remaining map.old) (S.remaining script.old)
        (in_memory (E.contents messages.old) [] [] []) (in_memory (E.contents messages.new) [] [] [])) }

    // Where a reader tells its bytes, it stops for too many only if there are more than 67,108,864.
    ensures too_long { IsErrOf result RunFault.TooLong → IsOver (M.remaining map.old) ⊎ IsOver (S.remaining script.old) }
    ensures bound { OnOk result (IsWithin (M.remaining map.old) × IsWithin (S.remaining script.old)) }
{
    let mut map = CountedReader::new(map);
    let mut script = CountedReader::new(script);
    let mut messages = CountedWriter::new(messages, 0);
    texts_counted(
        alloc,
        &mut map,
        &mut script,
        options,
        &mut messages,
        observer,
    )
}

/// Does the same as `run_observed`, with no observer.
pub fn run_texts<M: Read, S: Read, E: Write>(
    alloc: Global,
    map: &mut M,
    script: &mut S,
    options: &Options,
    messages: &mut E,
) -> Result<Texts, RunFault>
    ensures ran { IfOk result (AreRun options.now (M.remaining map.old) (S.remaining script.old) (E.contents messages.old) (E.contents messages.new)) }
    // The edited text is of the map that was read and of the one that is handed out with it. The session keeps its source.
    ensures beside { IfOk result (λ texts. MakesBeside options.now (M.remaining map.old) (S.remaining script.old)
        texts.status (string_bytes texts.rdl) (string_bytes texts.session) texts.edited texts.saved) }
    ensures faulted { IfErr result (Faulted options.now (M.remaining map.old) (S.remaining script.old)
        (in_memory (E.contents messages.old) [] [] []) (in_memory (E.contents messages.new) [] [] [])) }

    // Where a reader tells its bytes, it stops for too many only if there are more than 67,108,864.
    ensures too_long { IsErrOf result RunFault.TooLong → IsOver (M.remaining map.old) ⊎ IsOver (S.remaining script.old) }
    ensures bound { OnOk result (IsWithin (M.remaining map.old) × IsWithin (S.remaining script.old)) }
{
    run_observed(alloc, map, script, options, messages, &mut Silent)
}
