//! The session of a history: its map, with the steps that lead back from it and on.
ghost use Rattle.std.specs.Prelude.{◌≡◌, [], map, string_bytes, IfOk, IsOkUnless};
ghost use Rattle.journal_core.specs.History.{IsAt};
ghost use Rattle.rdl_run.specs.OwnSteps.{AllOwn, IsOwnSession, owned};
ghost use Rattle.rdl_run.specs.Sessions.{LeadBack, LeadOn, SavesIf, Saves};
ghost use Rattle.rdl_run.specs.declared.status.RunFault.{RunFault};

use crate::part::Part;
use crate::session_message::unwritten_line;
use crate::status::RunFault;
use journal_core::journal::Journal;
use rdl_edit::map::Map;
use rdl_session::fault::SessionWriteFault;
use rdl_session::write::session;
use rdl_tree::patch::Patch;
use std::alloc::{AllocError, Global};

/// The steps that lead back, the next one first.
pub(crate) fn steps_back<'a>(
    alloc: Global,
    journal: &'a Journal<Map>,
) -> Result<Vec<&'a [Patch]>, AllocError>
    ensures leads { IfOk result (λ steps. LeadBack journal.entry.now.history (map (λ step. step.now) steps.items)) }
    ensures own { AllOwn journal.entry.now → IfOk result (λ steps. LeadBack (owned journal.entry.now.history) (map (λ step. step.now) steps.items)) }
{
    let mut steps = Vec::with_capacity(alloc, journal.undo_len())?;
    'steps: while let Some(back) = journal.undo_at(steps.len()) {
        steps.push(back.patches())?;
    }
    Ok(steps)
}

/// The steps that lead on, the next one first.
fn steps_on<'a>(alloc: Global, journal: &'a Journal<Map>) -> Result<Vec<&'a [Patch]>, AllocError>
    ensures leads { IfOk result (λ steps. LeadOn journal.entry.now.history (map (λ step. step.now) steps.items)) }
    ensures own { AllOwn journal.entry.now → IfOk result (λ steps. LeadOn (owned journal.entry.now.history) (map (λ step. step.now) steps.items)) }
{
    let mut steps = Vec::with_capacity(alloc, journal.redo_len())?;
    'steps: while let Some(step) = journal.redo_at(steps.len()) {
        steps.push(step.patches())?;
    }
    Ok(steps)
}

/// The session of a history at its place, or what is said where it is too long.
fn saved(alloc: Global, journal: &Journal<Map>) -> Result<Part, RunFault>
    ensures saves { IfOk result (λ part. Saves journal.now.history (string_bytes part.message) (string_bytes part.text) part.is_left_out) }
    ensures own { AllOwn journal.now → IfOk result (λ part. IsOwnSession journal.now.history (string_bytes part.text)) }
    ensures fault { IsOkUnless result RunFault.Memory }
{
    let undo = steps_back(alloc, journal)?;
    let redo = steps_on(alloc, journal)?;
    let description = journal.map().description();
    match session(alloc, description, undo.as_slice(), redo.as_slice()) {
        Ok(text) => Ok(Part::made(alloc, text)),
        Err(SessionWriteFault::TooLong) => {
            let message = unwritten_line(alloc, &SessionWriteFault::TooLong)?;
            Ok(Part::left_out(alloc, message))
        }
        Err(SessionWriteFault::Memory) => Err(RunFault::Memory),
    }
}

/// The session, if it is asked for.
pub(crate) fn session_part(
    alloc: Global,
    journal: &Journal<Map>,
    is_asked: bool,
) -> Result<Part, RunFault>
    ensures saves { IfOk result (λ part. SavesIf is_asked journal.now.history (string_bytes part.message) (string_bytes part.text) part.is_left_out) }
    ensures own { AllOwn journal.now → IfOk result (λ part. IsOwnSession journal.now.history (string_bytes part.text)) }
    ensures fault { IsOkUnless result RunFault.Memory }
{
    if is_asked {
        saved(alloc, journal)
    } else {
        Ok(Part::made(alloc, String::new(alloc)))
    }
}
