//! Laws of runs and comparisons, as contracts of functions that do nothing.
ghost use Rattle.std.specs.Prelude.{◌≡◌, ℕ, false, List, Option};
ghost use Rattle.journal_core.specs.History.{IsAt, after_undo};
ghost use Rattle.rdl_edit.specs.Step.{State};
ghost use Rattle.rdl_rewrite.specs.declared.edit.Edit.{Edit};
ghost use Rattle.rdl_run.specs.Answers.{History', Made};
ghost use Rattle.rdl_run.specs.Comparing.{HaveNoLines};
ghost use Rattle.rdl_run.specs.Opening.{OpensHistory, EachElaborates};
ghost use Rattle.rdl_run.specs.Output.{Output, IsOutput, SameFiles};
ghost use Rattle.rdl_run.specs.declared.run.Options.{Options};

/// Each map or session and each script have an output, whatever their bytes are.
pub fn each_run_has_an_output()
    ensures { (options : Options) (map script : List ℕ) → (out : Output) × IsOutput options map script out }
{}

/// Each place of a history that is opened has a map that elaborates.
pub fn each_opened_place_elaborates()
    ensures { (option : Option (List ℕ)) (limit : ℕ) (bytes : List ℕ) (first : History') → OpensHistory option limit bytes first → EachElaborates first }
{}

/// The map and the header that a run leaves are a matter of its map or session and its script alone, whichever fault is told of
/// a text that has several. So is its status, where no session is asked for.
pub fn runs_agree()
    ensures files { (options : Options) (map script : List ℕ) (out other : Output) → IsOutput options map script out → IsOutput options map script other → SameFiles out other }
    ensures status { (options : Options) (map script : List ℕ) (out other : Output) → options.session ≡ false → IsOutput options map script out → IsOutput options map script other → out.status ≡ other.status }
{}

/// Nothing is said of the maps before an edit and behind its undo.
pub fn undone_edits_have_no_lines()
    ensures { (old mid : History') (e : Edit) (before after : State) → Made old e mid → IsAt old before → IsAt (after_undo mid) after → HaveNoLines before after }
{}
