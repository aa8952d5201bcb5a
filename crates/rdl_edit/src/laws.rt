//! What the definitions have in common. Each function here is a law: it does nothing when it runs.
ghost use Rattle.std.specs.Prelude.{◌≡◌, ◌≤◌, true, ℕ, List, None, Ok};
ghost use Rattle.rdl_tree.specs.Items.{Items};
ghost use Rattle.rdl_tree.specs.Patch.{AllFit, image, inverses};
ghost use Rattle.rdl_tree.specs.declared.patch.Patch.{Patch};
ghost use Rattle.rdl_reach.specs.Skeleton.{skeleton};
ghost use Rattle.rdl_edit.specs.Step.{State, HasRows, Leads};
ghost use Rattle.rdl_edit.specs.QuietEdits.{EditsThatKeepLayoutsAreQuiet};
ghost use Rattle.rdl_edit.specs.Still.{AreStill, is_still_edit};
ghost use Rattle.rdl_edit.specs.Backs.{Reversal, Fits, prior};
ghost use Rattle.rdl_edit.specs.Weights.{steps_weight, changed_along};
ghost use Rattle.journal_core.specs.Along.{FitInTurn};
ghost use Rattle.rdl_scope.specs.ItemFaults.{fault_of};
ghost use Rattle.rdl_rewrite.specs.Patches.{patches};
ghost use Rattle.rdl_rewrite.specs.Renaming.{renamed};
ghost use Rattle.rdl_rewrite.specs.declared.edit.Edit.{Edit};

/// Patches that change nothing on which a layout depends leave the skeleton of the description as it was.
pub fn still_patches_keep_the_skeleton()
    ensures { (patches : List Patch) (d : Items) → AreStill patches d → skeleton (image patches d) ≡ skeleton d }
{}

/// The patches of these edits change nothing on which a layout depends: those of a reset, of what is assigned to
/// something inside an instance, and of assignments and defaults of properties on which no layout depends.
pub fn still_edits_have_still_patches()
    ensures { (d : Items) (e : Edit) → is_still_edit e ≡ true → AreStill (patches d e) d }
{}

/// A renaming leaves the skeleton of a description without a fault as it was, since each reference leads where it led.
pub fn renamings_keep_the_skeleton()
    ensures { (d new : Items) (way name : List ℕ) → fault_of d ≡ None → renamed d way name ≡ Ok new → skeleton new ≡ skeleton d }
{}

/// Of a description without a fault, where the patches of the edit lead to what it makes: a renaming makes a quiet step, and so does an edit
/// that sets a reset, that assigns something to what stands inside an instance or takes that out, or that sets or takes out an assignment
/// or a default of a property on which no layout depends.
pub fn edits_that_keep_layouts_are_quiet()
    ensures { EditsThatKeepLayoutsAreQuiet }
{}

/// The steps that a history of maps keeps, each fitting where those before it led, weigh together at most what was dropped
/// and replaced on the ways that they take back, and 20 for each of their patches.
pub fn kept_steps_are_light()
    ensures { (s : State) (steps : List Reversal) → HasRows s → FitInTurn prior Fits s steps → steps_weight steps ≤ changed_along s steps }
{}

/// The patches of an accepted edit of a map that has rows fit, and lead to the map that the edit makes. What takes them back
/// leads to the map before it.
pub fn accepted_edits_have_patches()
    ensures fit { (old : State) (e : Edit) (new : State) → HasRows old → Leads old e new → AllFit (patches old.description e) old.description }
    ensures made { (old : State) (e : Edit) (new : State) → HasRows old → Leads old e new → new ≡ record { description = image (patches old.description e) old.description; option = old.option } }
    ensures back { (old : State) (e : Edit) (new : State) → HasRows old → Leads old e new → old ≡ record { description = image (inverses (patches old.description e) old.description) new.description; option = new.option } }
{}
