//! Laws of maps that edits made: they can be written and read back too.
ghost use Rattle.std.specs.Prelude.{◌≡◌, ◌≤◌, ℕ, List, length, Option, Ok, All};
ghost use Rattle.journal_core.specs.History.{History, IsAt};
ghost use Rattle.rdl_tree.specs.Items.{Items};
ghost use Rattle.rdl_tree.specs.Limits.{IsWithinLimits};
ghost use Rattle.rdl_tree.specs.Patch.{inverses};
ghost use Rattle.rdl_tree.specs.declared.patch.Patch.{Patch};
ghost use Rattle.rdl_parse.specs.Faults.{max_text};
ghost use Rattle.rdl_parse.specs.Parsing.{SpellsText};
ghost use Rattle.rdl_parse.specs.Places.{Located};
ghost use Rattle.rdl_write.specs.MapText.{map_text};
ghost use Rattle.rdl_elab.specs.Faults.{elaborated};
ghost use Rattle.rdl_elab.specs.declared.row.Row.{Row};
ghost use Rattle.rdl_rewrite.specs.Patches.{patches};
ghost use Rattle.rdl_rewrite.specs.declared.edit.Edit.{Edit};
ghost use Rattle.rdl_edit.specs.Step.{State, step};
ghost use Rattle.rdl_round.specs.Writable.{ReadsBack, IsWritable};
ghost use Rattle.run_laws.specs.Histories.{Action, Follows, BringWords, BeganWith, AllReadBack, AllWritable};
ghost use Rattle.run_laws.specs.NewParts.{IsEditOfWords, IsEditSpellable, BringsWords};
ghost use Rattle.rdl_round.specs.OfWords.{IsOfWords};
ghost use Rattle.rdl_round.specs.Spellable.{IsSpellable};
ghost use Rattle.rdl_session.specs.Writable.{IsWritablePatch};

/// A map that has rows is within the limits.
pub fn maps_with_rows_are_within_limits()
    ensures { (d : Items) (option : Option (List ℕ)) (rows : List Row) → elaborated d option ≡ Ok rows → IsWithinLimits d }
{}

/// So the text of a map that a text spells and that has rows isn't too long, and reading it gives the map.
pub fn maps_with_rows_read_back()
    ensures short { (text : List ℕ) (d : Items) (p : Located) (option : Option (List ℕ)) (rows : List Row) → SpellsText text d p → elaborated d option ≡ Ok rows
        → length (map_text d) ≤ max_text }
    ensures read { (text : List ℕ) (d : Items) (p : Located) (option : Option (List ℕ)) (rows : List Row) → SpellsText text d p → elaborated d option ≡ Ok rows → ReadsBack d }
{}

/// An accepted edit leads from a map that a text can spell to another, where a text can spell the items that it adds.
/// Nothing is asked of other edits: a reserved new name is refused, and so is a map in which an assignment names a
/// property that isn't known or instances that aren't there, or an instance has both sizes and a range.
pub fn edited_maps_are_spellable()
    ensures { (old : State) (e : Edit) (new : State) → step old e ≡ Ok new → IsSpellable old.description → IsEditSpellable e → IsSpellable new.description }
{}

/// It leads from a map that is made of words to another, where what it brings is made of words.
pub fn edited_maps_are_of_words()
    ensures { (old : State) (e : Edit) (new : State) → step old e ≡ Ok new → IsOfWords old.description → IsEditOfWords e → IsOfWords new.description }
{}

/// So where a text spells the old map, reading the text of the new one gives the new one.
pub fn edited_maps_read_back()
    ensures { (text : List ℕ) (old new : State) (p : Located) (e : Edit) → SpellsText text old.description p → IsEditOfWords e → IsEditSpellable e
        → step old e ≡ Ok new → ReadsBack new.description }
{}

/// A history of maps that can be written and read back stays one, whatever is done, undone and done again.
pub fn histories_stay_writable()
    ensures { (old new : History State) (actions : List Action) → AllWritable old → BringWords actions → Follows old actions new → AllWritable new }
{}

/// So each map of a history that began with a map that was read reads back: that at the place, and those before
/// and after it.
pub fn histories_read_back()
    ensures all { (text : List ℕ) (limit : ℕ) (h : History State) → BeganWith text limit h → AllReadBack h }
    ensures current { (text : List ℕ) (limit : ℕ) (h : History State) (now : State) → BeganWith text limit h → IsAt h now → ReadsBack now.description }
{}

/// The patches of an accepted edit can be written, where the map can and what the edit brings, and so can those that take
/// them back.
pub fn patches_of_edits_are_writable()
    ensures on { (old : State) (e : Edit) (new : State) → step old e ≡ Ok new → IsWritable old.description → IsEditOfWords e → IsEditSpellable e → All IsWritablePatch (patches old.description e) }
    ensures back { (old : State) (e : Edit) (new : State) → step old e ≡ Ok new → IsWritable old.description → IsEditOfWords e → IsEditSpellable e
        → All IsWritablePatch (inverses (patches old.description e) old.description) }
{}

/// What an accepted edit brings stands in the new map: where that can be written, so can what the edit brings.
pub fn edits_to_writable_maps_bring_words()
    ensures { (old : State) (e : Edit) (new : State) → step old e ≡ Ok new → IsWritable new.description → BringsWords e }
{}

/// So the patches of an accepted edit between maps that can be written can be written, and so can those that take them back.
pub fn patches_between_writable_maps_are_writable()
    ensures on { (old : State) (e : Edit) (new : State) → step old e ≡ Ok new → IsWritable old.description → IsWritable new.description → All IsWritablePatch (patches old.description e) }
    ensures back { (old : State) (e : Edit) (new : State) → step old e ≡ Ok new → IsWritable old.description → IsWritable new.description
        → All IsWritablePatch (inverses (patches old.description e) old.description) }
{}
