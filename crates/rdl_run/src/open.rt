//! Opening a map or a session.
ghost use Rattle.std.specs.Prelude.{◌≡◌, ◌≢◌, ◌⊎◌, true, Some, None, Err, map, string_bytes, IfOk, IfErr, IfSome};
ghost use Rattle.rdl_edit.specs.Step.{HasRows};
ghost use Rattle.rdl_elab.specs.Faults.{elaborated};
ghost use Rattle.rdl_scope.specs.ItemFaults.{out_of_memory};
ghost use Rattle.rdl_session.specs.declared.fault.SessionReadFault.TheVariants as reading;
ghost use Rattle.rdl_run.specs.Shown.{AreAt, AreOf};
ghost use Rattle.std.specs.Option.{option_copied};
ghost use Rattle.rdl_edit.specs.declared.resume_fault.ResumeFault.TheVariants as resuming;
ghost use Rattle.rdl_run.specs.Messages.{session_line, unread_text, unresumed_text};
ghost use Rattle.rdl_run.specs.Opening.{text_line, fault_line, Opens, OpensHistory, EachElaborates, RefusedText, RefusedMap, RefusesToOpen};
ghost use Rattle.rdl_run.specs.OwnSteps.{OpensKept};
ghost use Rattle.rdl_run.specs.Readings.{ReadsMap};
ghost use Rattle.rdl_run.specs.Resumed.{ResumesFrom};
ghost use Rattle.rdl_run.specs.Sessions.{is_session, ReadsSession, IsNoSession, FaultySession, OpensSession, RefusedSession};
ghost use Rattle.rdl_run.specs.OpeningFaults.{IfRefusedToOpen};
ghost use Rattle.rdl_run.specs.Sources.{without_source};
ghost use Rattle.rdl_weave.specs.Sources.{IsSource};

use crate::reading::{ReadingFault, map_of};
use crate::reply::{fault_text, map_line, parse_fault_text};
use crate::session_message::{unread_line, unresumed_line};
use crate::sources::without_source;
use journal_core::journal::Journal;
use rdl_edit::map::{Map, Resumed};
use rdl_edit::refusal::is_memory;
use rdl_edit::resume_fault::ResumeFault;
use rdl_elab::row::Rows;
use rdl_parse::fault::ParseFault;
use rdl_parse::places::Places;
use rdl_session::fault::SessionReadFault;
use rdl_session::parse::{Session, parse_session};
use rdl_text::byte_place;
use rdl_text::name::Name;
use rdl_tree::description::Description;
use rdl_tree::fault::Fault;
use rdl_weave::source::Source;
use std::alloc::{AllocError, Global};
use std::str;

/// Why no map or session is opened.
#[derive(Debug, Drop)]
pub enum OpenFault {
    /// It is refused, with this message.
    Refused(String),
    Memory,
}

impl From<AllocError> for OpenFault {
    ghost use Rattle.rdl_run.specs.declared.open.OpenFault.{OpenFault};
    ghost use Rattle.std.specs.Prelude.{◌≡◌};

    ghost from_gives = { λ _ f. f ≡ OpenFault.Memory };

    fn from(_error: AllocError) -> OpenFault {
        OpenFault::Memory
    }
}

fn text_line(alloc: Global, bytes: &[u8], fault: ParseFault) -> Result<String, AllocError>
    ensures { IfOk result (λ text. string_bytes text ≡ text_line bytes.now fault) }
{
    map_line(
        alloc,
        byte_place(bytes, fault.offset),
        parse_fault_text(fault.kind),
    )
}

pub(crate) fn fault_line(
    alloc: Global,
    places: &Places<'_>,
    fault: &Fault,
) -> Result<String, AllocError>
    ensures { IfOk result (λ text. string_bytes text ≡ fault_line places.now fault.now) }
{
    let place = places.at(&fault.address).unwrap_or((1, 1));
    map_line(alloc, place, fault_text(fault.kind))
}

fn copied(alloc: Global, name: Option<&Name>) -> Result<Option<Name>, AllocError>
    ensures { IfOk result (λ copy. copy ≡ option_copied name.entry) }
{
    match name {
        Some(name) => Ok(Some(name.try_copy(alloc)?)),
        None => Ok(None),
    }
}

/// The map of the description, with its rows where they are wanted.
fn map_shown(
    alloc: Global,
    description: Description,
    name: Option<Name>,
    is_listed: bool,
) -> Result<(Map, Option<Rows>), Fault>
    ensures ok { IfOk result (λ shown. shown.0.state ≡ record { description = description.items; option = name }) }
    ensures accepted { IfOk result (λ shown. HasRows (record { description = description.items; option = name })) }
    ensures rows { IfOk result (λ shown. AreOf (record { description = description.items; option = name }) shown.1) }
    ensures refused { IfErr result (λ fault. (elaborated description.items name ≡ Err fault) ⊎ (fault ≡ out_of_memory)) }
{
    if !is_listed {
        return match Map::open(alloc, description, name) {
            Ok(map) => Ok((map, None)),
            Err(fault) => Err(fault),
        };
    }
    match Map::open_with_rows(alloc, description, name) {
        Ok((map, rows)) => Ok((map, Some(rows))),
        Err(fault) => Err(fault),
    }
}

/// The description that the bytes spell, and the places of its items; and what was read of the text, if edits are to be woven into it.
pub(crate) fn read_map<'a>(
    alloc: Global,
    bytes: &'a [u8],
    is_edited: bool,
) -> Result<(Description, Places<'a>, Option<Source>), OpenFault>
    ensures read { IfOk result (λ x. ReadsMap bytes.now x.0.items x.1) }
    ensures source { IfOk result (λ x. IfSome x.2 (IsSource bytes.now)) }
    ensures refused { IfErr result (λ fault. IfRefusedToOpen fault (RefusedText bytes.now)) }
{
    match map_of(alloc, bytes, is_edited) {
        Ok(read) => Ok(read),
        Err(ReadingFault::Refused(fault)) => {
            Err(OpenFault::Refused(text_line(alloc, bytes, fault)?))
        }
        Err(ReadingFault::Memory) => Err(OpenFault::Memory),
    }
}

/// The map that the bytes spell, if it has no fault, with its rows and what was read of its text, where these are wanted.
#[tactic(auto, using(crate::proofs::Opened::only_text))]
fn open_map(
    alloc: Global,
    bytes: &[u8],
    name: Option<&Name>,
    is_listed: bool,
    is_edited: bool,
) -> Result<(Map, Option<Rows>, Option<Source>), OpenFault>
    ensures opens { IfOk result (λ shown. Opens (option_copied name.entry) bytes.now shown.0.state) }
    ensures rows { IfOk result (λ shown. AreOf shown.0.state shown.1) }
    ensures source { IfOk result (λ shown. IfSome shown.2 (IsSource bytes.now)) }
    ensures refused { IfErr result (λ fault. IfRefusedToOpen fault (λ text. RefusedText bytes.now text ⊎ RefusedMap (option_copied name.entry) bytes.now text)) }
{
    let (description, places, source) = match read_map(alloc, bytes, is_edited) {
        Ok(read) => read,
        Err(fault) => return Err(fault),
    };
    match map_shown(alloc, description, copied(alloc, name)?, is_listed) {
        Ok((map, rows)) => Ok((map, rows, source)),
        Err(fault) if is_memory(fault.kind) => Err(OpenFault::Memory),
        Err(fault) => Err(OpenFault::Refused(fault_line(alloc, &places, &fault)?)),
    }
}

fn unread(alloc: Global, fault: SessionReadFault) -> OpenFault
    ensures { IfRefusedToOpen result (λ text. (text ≡ session_line (unread_text fault)) × (fault ≢ reading.Memory)) }
{
    if let SessionReadFault::Memory = fault {
        return OpenFault::Memory;
    }
    match unread_line(alloc, &fault) {
        Ok(message) => OpenFault::Refused(message),
        Err(_) => OpenFault::Memory,
    }
}

/// The session of the bytes.
fn read_session(alloc: Global, bytes: &[u8]) -> Result<Session, OpenFault>
    ensures read { IfOk result (λ s. ReadsSession bytes.now s.map.items (map (λ step. step.items) s.undo.items) (map (λ step. step.items) s.redo.items)) }
    ensures refused { IfErr result (λ fault. IfRefusedToOpen fault (IsNoSession bytes.now)) }
{
    let Ok(text) = str::from_utf8(bytes) else {
        return Err(unread(alloc, SessionReadFault::NotASession));
    };
    match parse_session(alloc, text) {
        Ok(session) => Ok(session),
        Err(fault) => Err(unread(alloc, fault)),
    }
}

fn unresumed(alloc: Global, fault: ResumeFault) -> OpenFault
    ensures { IfRefusedToOpen result (λ text. (text ≡ session_line (unresumed_text fault)) × (fault ≢ resuming.Memory)) }
{
    if let ResumeFault::Memory = fault {
        return OpenFault::Memory;
    }
    match unresumed_line(alloc, &fault) {
        Ok(message) => OpenFault::Refused(message),
        Err(_) => OpenFault::Memory,
    }
}

/// The session of the bytes, gone on with at its map.
fn resumed(alloc: Global, bytes: &[u8], name: Option<&Name>) -> Result<Resumed, OpenFault>
    ensures resumed { IfOk result (ResumesFrom (option_copied name.entry) bytes.now) }
    ensures refused { IfErr result (λ fault. IfRefusedToOpen fault (λ text. IsNoSession bytes.now text ⊎ FaultySession (option_copied name.entry) bytes.now text)) }
{
    let session = match read_session(alloc, bytes) {
        Ok(session) => session,
        Err(fault) => return Err(fault),
    };
    let Ok(name) = copied(alloc, name) else {
        return Err(OpenFault::Memory);
    };
    match Map::resume(alloc, session.map, name, session.undo, session.redo) {
        Ok(resumed) => Ok(resumed),
        Err(fault) => Err(unresumed(alloc, fault)),
    }
}

/// The history that a session holds, if each of its places elaborates.
pub(crate) fn open_session(
    alloc: Global,
    bytes: &[u8],
    name: Option<&Name>,
    limit: u32,
) -> Result<Journal<Map>, OpenFault>
    requires { is_session bytes.now ≡ true }
    ensures opens { IfOk result (λ journal. OpensSession (option_copied name.entry) limit bytes.now journal.history) }
    ensures kept { IfOk result (OpensKept (option_copied name.entry) limit bytes.now) }
    ensures refused { IfErr result (λ fault. IfRefusedToOpen fault (RefusedSession (option_copied name.entry) bytes.now)) }
{
    match resumed(alloc, bytes, name) {
        Ok(Resumed { map, undo, redo }) => Ok(Journal::resume(map, limit, undo, redo)),
        Err(fault) => Err(fault),
    }
}

/// Whether the bytes begin as each session does, and no map.
pub(crate) fn is_session(bytes: &[u8]) -> bool
    ensures { result ≡ is_session bytes.now }
{
    bytes.starts_with(b"regedit session 1\n") || bytes.starts_with(b"regedit session 2\n")
}

/// The history that begins with the map that the bytes spell, or with the session. A source text that the session keeps isn't read.
pub fn open(
    alloc: Global,
    bytes: &[u8],
    name: Option<&Name>,
    limit: u32,
) -> Result<Journal<Map>, OpenFault>
    ensures opens { IfOk result (λ journal. OpensHistory (option_copied name.entry) limit (without_source bytes.now) journal.history) }
    ensures kept { IfOk result (OpensKept (option_copied name.entry) limit (without_source bytes.now)) }
    ensures elaborates { IfOk result (λ journal. EachElaborates journal.history) }
    ensures refused { IfErr result (λ fault. IfRefusedToOpen fault (RefusesToOpen (option_copied name.entry) (without_source bytes.now))) }
{
    match open_shown(alloc, without_source(bytes), name, limit, false, false) {
        Ok((journal, _rows, _source)) => Ok(journal),
        Err(fault) => Err(fault),
    }
}

/// Does the same as `open`, of a map or a session without a source text. Where the map is to be listed before it is edited, its rows
/// are made with it; and where edits are to be woven into its text, what was read of that is kept.
pub(crate) fn open_shown(
    alloc: Global,
    bytes: &[u8],
    name: Option<&Name>,
    limit: u32,
    is_listed: bool,
    is_edited: bool,
) -> Result<(Journal<Map>, Option<Rows>, Option<Source>), OpenFault>
    ensures opens { IfOk result (λ shown. OpensHistory (option_copied name.entry) limit bytes.now shown.0.history) }
    ensures kept { IfOk result (λ shown. OpensKept (option_copied name.entry) limit bytes.now shown.0) }
    ensures elaborates { IfOk result (λ shown. EachElaborates shown.0.history) }
    ensures rows { IfOk result (λ shown. AreAt shown.0.history shown.1) }
    ensures source { IfOk result (λ shown. IfSome shown.2 (IsSource bytes.now)) }
    ensures refused { IfErr result (λ fault. IfRefusedToOpen fault (RefusesToOpen (option_copied name.entry) bytes.now)) }
{
    if is_session(bytes) {
        return match open_session(alloc, bytes, name, limit) {
            Ok(journal) => Ok((journal, None, None)),
            Err(fault) => Err(fault),
        };
    }
    match open_map(alloc, bytes, name, is_listed, is_edited) {
        Ok((map, rows, source)) => Ok((Journal::new(alloc, map, limit), rows, source)),
        Err(fault) => Err(fault),
    }
}
