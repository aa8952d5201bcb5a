//! Laws of sessions: a text is one session at most, and what was written is read back. All but the last are contracts of
//! functions that do nothing.
ghost use Rattle.std.specs.Prelude.{◌≡◌, ◌≤◌, ◌<◌, ◌^◌, Some, ◌∷◌, [], ℕ, List, Ok, length, map, All, IsUtf8};
ghost use Rattle.rdl_tree.specs.Items.{Items};
ghost use Rattle.rdl_tree.specs.Limits.{IsWithinLimits};
ghost use Rattle.rdl_tree.specs.Patch.{image, inverses};
ghost use Rattle.rdl_tree.specs.View.{items_of};
ghost use Rattle.rdl_tree.specs.declared.description.Item.{Item};
ghost use Rattle.rdl_tree.specs.declared.patch.Patch.{Patch};
ghost use Rattle.rdl_parse.specs.Faults.{max_text};
ghost use Rattle.rdl_parse.specs.Parsing.{SpellsItemText};
ghost use Rattle.rdl_session.specs.Spelling.{SpellsSession};
ghost use Rattle.rdl_session.specs.Seen.{IsReadAgain};
ghost use Rattle.rdl_write.specs.ItemText.{item_text};
ghost use Rattle.rdl_session.specs.Written.{written_session};
ghost use Rattle.rdl_round.specs.Writable.{IsWritable};
ghost use Rattle.rdl_round.specs.OfWords.{IsOfWords};
ghost use Rattle.rdl_session.specs.Reading.{source_in};
ghost use Rattle.rdl_session.specs.Text.{SessionLines, session_text, with_source};
ghost use Rattle.rdl_session.specs.Writable.{SessionReadsBack, IsWritablePatch, AreWritable, AreDropsWithin, IsSpelledMap, AreSpelled};
ghost use Rattle.rdl_round.specs.Spellable.{IsSpellable};

use crate::fault::{SessionReadFault, SessionWriteFault};
use crate::parse::{Session, parse_session};
use crate::write::session;
use rdl_tree::description::Description;
use rdl_tree::patch::Patch;
use std::alloc::Global;

/// No text spells two sessions.
pub fn one_session()
    ensures { (text : List ℕ) (d e : Items) (undo redo others ahead : List (List Patch)) → SpellsSession text d undo redo → SpellsSession text e others ahead → (d ≡ e) × (undo ≡ others) × (redo ≡ ahead) }
{}

/// The text of an item without an indent is exactly one statement, which stands for that item, where the item is made of
/// words and spellable and the text isn't too long.
pub fn written_items_read_back()
    ensures { (x : Item) → IsOfWords (items_of (x ∷ [])) → IsSpellable (items_of (x ∷ [])) → length (item_text [] x) ≤ max_text → SpellsItemText (item_text [] x) (x ∷ []) }
{}

/// The text of a written session spells the map and the steps that were written, where these can be written and the text
/// isn't too long. That it is UTF-8 is so of every text that is a `String`.
pub fn written_sessions_read_back()
    ensures { (d : Items) (undo redo : List (List Patch)) → IsWritable d → AreWritable undo → AreWritable redo → IsUtf8 (written_session d undo redo)
        → SessionReadsBack d undo redo }
{}

/// So do the map and the steps that texts spell: no premise is left on them, nor on what is written.
pub fn spelled_sessions_read_back()
    ensures { (d : Items) (undo redo : List (List Patch)) → IsSpelledMap d → AreSpelled undo → AreSpelled redo → SessionReadsBack d undo redo }
{}

/// And so the session that is written of one that was read is read as the same one, however the texts in it were spelled.
pub fn read_sessions_read_back()
    ensures { (text : List ℕ) (d : Items) (undo redo : List (List Patch)) → SpellsSession text d undo redo → SessionReadsBack d undo redo }
{}

/// What texts spell can be written.
pub fn spelled_steps_are_writable()
    ensures map { (d : Items) → IsSpelledMap d → IsWritable d }
    ensures steps { (steps : List (List Patch)) → AreSpelled steps → AreWritable steps }
{}

/// What takes patches back can be written, where they and the description can, and each item that they take out on their
/// way is within the limits. So can the description to which they lead, where that is within the limits.
pub fn inverses_are_writable()
    ensures back { (patches : List Patch) (d : Items) → IsWritable d → All IsWritablePatch patches → AreDropsWithin patches d → All IsWritablePatch (inverses patches d) }
    ensures place { (patches : List Patch) (d : Items) → IsWritable d → All IsWritablePatch patches → IsWithinLimits (image patches d) → IsWritable (image patches d) }
{}

/// The source that a session keeps, and that session, are read as they were written.
pub fn kept_sources_read_back()
    ensures { (source : List ℕ) (session : SessionLines) → length source < 2 ^ 64 → source_in (with_source source (session_text session)) ≡ Some (source, session_text session) }
{}

/// What `parse_session` answers for the text that `session` wrote: the same map and the same steps, but for want of memory.
/// There is no such text where it would be too long, or for want of memory.
pub fn written_sessions_are_parsed(
    alloc: Global,
    description: &Description,
    undo: &[&[Patch]],
    redo: &[&[Patch]],
) -> Result<Result<Session, SessionReadFault>, SessionWriteFault>
    ensures { let back = map (λ step. step.now) undo.entry.now in let on = map (λ step. step.now) redo.entry.now in
        IsWritable description.now.items → AreWritable back → AreWritable on → IsReadAgain result description.now.items back on }
{
    match session(alloc, description, undo, redo) {
        Ok(text) => Ok(parse_session(alloc, text.as_str())),
        Err(fault) => Err(fault),
    }
}
