//! Reading a session: a map, with the steps that lead back from it and those that lead on.
ghost use Rattle.std.specs.Prelude.{◌≡◌, ◌⊎◌, List, map, option_map, IfOk, IfErr};
ghost use Rattle.rdl_tree.specs.Items.{Items};
ghost use Rattle.rdl_tree.specs.declared.patch.Patch.{Patch};
ghost use Rattle.rdl_session.specs.declared.fault.SessionReadFault.TheVariants.{NotASession, Memory};
ghost use Rattle.rdl_session.specs.Spelling.{SpellsSession};
ghost use Rattle.rdl_session.specs.Meaning as spec;
ghost use Rattle.rdl_session.specs.Seen.{IsReadAs, seen_session};

use crate::MAX_LEN;
use crate::fault::SessionReadFault;
use crate::lines::lines_of;
use crate::meaning::{map_of, steps_of};
use rdl_tree::description::Description;
use rdl_tree::patch::Patch;
use std::alloc::{AllocError, Global};

/// A map with the steps that lead back from it and those that lead on, each list with the next one to be taken first.
#[derive(Debug, Drop)]
pub struct Session {
    pub map: Description,
    pub undo: Vec<Vec<Patch>>,
    pub redo: Vec<Vec<Patch>>,
}

/// The session that the bytes are.
#[tactic(auto, unfolding(crate::specs::Meaning::session_of, crate::specs::Meaning::meaning_of))]
fn session_of(alloc: Global, bytes: &[u8]) -> Result<Option<Session>, AllocError>
    ensures { IfOk result (λ o. option_map seen_session o ≡ spec.session_of bytes.now) }
{
    let Some(lines) = lines_of(alloc, bytes)? else {
        return Ok(None);
    };
    let Some(map) = map_of(alloc, lines.map)? else {
        return Ok(None);
    };
    let Some(undo) = steps_of(alloc, lines.undo.as_slice())? else {
        return Ok(None);
    };
    let Some(redo) = steps_of(alloc, lines.redo.as_slice())? else {
        return Ok(None);
    };
    Ok(Some(Session { map, undo, redo }))
}

/// The session that the text is.
///
/// Its texts of the map and of items may have any spelling. Whether the steps fit the map isn't looked at.
pub fn parse_session(alloc: Global, text: &str) -> Result<Session, SessionReadFault>
    // What is answered is the text's session.
    ensures found { IfOk result (λ s. SpellsSession text.now s.map.items (map (λ step. step.items) s.undo.items) (map (λ step. step.items) s.redo.items)) }
    // The session that the text is is answered, unless memory runs out.
    ensures only { (d : Items) (undo redo : List (List Patch)) → SpellsSession text.now d undo redo → IsReadAs result d undo redo }
    // A fault other than want of memory comes only where the text is no session.
    ensures refused { IfErr result (λ f. (f ≡ Memory) ⊎ ((f ≡ NotASession) × ((d : Items) (undo redo : List (List Patch)) → SpellsSession text.now d undo redo → ⊥))) }
{
    if text.len() > MAX_LEN {
        return Err(SessionReadFault::NotASession);
    }
    match session_of(alloc, text.as_bytes()) {
        Ok(Some(session)) => Ok(session),
        Ok(None) => Err(SessionReadFault::NotASession),
        Err(_) => Err(SessionReadFault::Memory),
    }
}
