//! The rows of a map or a session.
ghost use Rattle.std.specs.Prelude.{◌≡◌, ◌⊎◌, false, true, IfErr, IfOk, option_copied};
ghost use Rattle.rdl_run.specs.OpenedRows.{OpensRows};
ghost use Rattle.rdl_run.specs.Opening.{RefusedMap, RefusedText, RefusesToOpen};
ghost use Rattle.rdl_run.specs.OpeningFaults.{IfRefusedToOpen};
ghost use Rattle.rdl_run.specs.Sessions.{RefusedSession, is_session};

use crate::open::{OpenFault, fault_line, is_session, open_session, read_map};
use rdl_edit::refusal::is_memory;
use rdl_elab::elaborate::elaborate;
use rdl_elab::row::Rows;
use rdl_text::name::Name;
use std::alloc::Global;

/// No edit is made of a map of which only the rows are asked.
const NO_EDITS: u32 = 0;

fn text_of(top: Option<&Name>) -> Option<&str>
    ensures { option_copied result ≡ option_copied top.entry }
{
    match top {
        Some(name) => Some(name.as_str()),
        None => None,
    }
}

/// The rows of the map that the bytes spell. Nothing is kept for a step, as none is made.
#[tactic(auto, using(crate::proofs::MapRows::opens_rows, crate::proofs::Opened::only_text))]
fn map_rows(alloc: Global, bytes: &[u8], top: Option<&Name>) -> Result<Rows, OpenFault>
    requires { is_session bytes.now ≡ false }
    ensures rows { IfOk result (λ rows. OpensRows (option_copied top.entry) bytes.now rows) }
    ensures refused { IfErr result (λ fault. IfRefusedToOpen fault (λ text. RefusedText bytes.now text ⊎ RefusedMap (option_copied top.entry) bytes.now text)) }
{
    let (description, places, _source) = match read_map(alloc, bytes, false) {
        Ok(read) => read,
        Err(fault) => return Err(fault),
    };
    match elaborate(alloc, &description, text_of(top)) {
        Ok(rows) => Ok(rows),
        Err(fault) if is_memory(fault.kind) => Err(OpenFault::Memory),
        Err(fault) => Err(OpenFault::Refused(fault_line(alloc, &places, &fault)?)),
    }
}

/// The rows of the map at the place of the session that the bytes are.
fn session_rows(alloc: Global, bytes: &[u8], top: Option<&Name>) -> Result<Rows, OpenFault>
    requires { is_session bytes.now ≡ true }
    ensures rows { IfOk result (λ rows. OpensRows (option_copied top.entry) bytes.now rows) }
    ensures refused { IfErr result (λ fault. IfRefusedToOpen fault (RefusedSession (option_copied top.entry) bytes.now)) }
{
    match open_session(alloc, bytes, top, NO_EDITS) {
        Ok(journal) => Ok(journal.map().rows(alloc)?),
        Err(fault) => Err(fault),
    }
}

/// The rows of the map that the bytes spell, or of the one at the place of their session.
pub(crate) fn opened_rows(
    alloc: Global,
    bytes: &[u8],
    top: Option<&Name>,
) -> Result<Rows, OpenFault>
    ensures rows { IfOk result (λ rows. OpensRows (option_copied top.entry) bytes.now rows) }
    ensures refused { IfErr result (λ fault. IfRefusedToOpen fault (RefusesToOpen (option_copied top.entry) bytes.now)) }
{
    if is_session(bytes) {
        return session_rows(alloc, bytes, top);
    }
    map_rows(alloc, bytes, top)
}
