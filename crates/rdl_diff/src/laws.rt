//! What the definitions have in common. Each function here is a law: it does nothing when it runs.
ghost use Rattle.std.specs.Prelude.{◌≡◌, ℕ, [], List, All, Option, Ok};
ghost use Rattle.rdl_tree.specs.Items.{Items};
ghost use Rattle.rdl_elab.specs.Faults.{elaborated};
ghost use Rattle.rdl_elab.specs.declared.row.Row.{Row};
ghost use Rattle.rdl_diff.specs.Escaped.{IsShown, escaped};
ghost use Rattle.rdl_diff.specs.DiffText.{Line, lines_beside};
ghost use Rattle.rdl_diff.specs.Written.{diff_text};
ghost use Rattle.rdl_diff.specs.declared.choice.Choice.{Choice};
ghost use Rattle.rdl_diff.specs.declared.choice.Severity.TheVariants as severity;
ghost use Rattle.rdl_diff.specs.declared.moves.Moves.TheVariants as moves;
ghost use Rattle.rdl_diff.specs.SameRows.{AreAtEachPath, HaveOwnPaths, HaveRowsAlike, HaveTheSameRows, IsAmong, TellAsAsked, TellsAll, turned};

/// The rows of a map that elaborates have paths of their own, since no two instances of a component have one name.
pub fn accepted_rows_have_own_paths()
    ensures { (d : Items) (top : Option (List ℕ)) (rows : List Row) → elaborated d top ≡ Ok rows → HaveOwnPaths rows }
{}

/// Nothing is said exactly where both maps have the same rows, whatever the names of their tops and the order of their rows
/// are. Where only own moves are told, these are the same but for their bases; and where some properties are ignored, but for
/// these.
pub fn same_rows_have_no_lines()
    ensures none { (c : Choice) (old new : List Row) → HaveOwnPaths new → HaveTheSameRows old new → diff_text c old new ≡ [] }
    ensures same { (c : Choice) (old new : List Row) → TellsAll c → c.moves ≡ moves.Each → diff_text c old new ≡ [] → HaveTheSameRows old new }
    ensures none_alike { (c : Choice) (old new : List Row) → c.moves ≡ moves.Own → HaveOwnPaths new → HaveRowsAlike old new → diff_text c old new ≡ [] }
    ensures alike { (c : Choice) (old new : List Row) → TellsAll c → diff_text c old new ≡ [] → HaveRowsAlike old new }
    ensures itself { (c : Choice) (rows : List Row) → HaveOwnPaths rows → diff_text c rows rows ≡ [] }
    ensures none_asked { (c : Choice) (old new : List Row) → HaveOwnPaths new → AreAtEachPath (TellAsAsked c) old new → diff_text c old new ≡ [] }
    ensures asked { (c : Choice) (old new : List Row) → c.severity ≡ severity.Any → diff_text c old new ≡ [] → AreAtEachPath (TellAsAsked c) old new }
{}

/// Rows of two maps that elaborate are the same once they are but for their bases, since a base is the sum of the offsets
/// along the path.
pub fn alike_rows_have_one_base()
    ensures { (d e : Items) (top other : Option (List ℕ)) (old new : List Row) → elaborated d top ≡ Ok old → elaborated e other ≡ Ok new → HaveRowsAlike old new → HaveTheSameRows old new }
{}

/// Where the two maps change places, what was gone comes, what came is gone, and each change turns round, of rows by their own
/// paths: nothing was renamed.
pub fn lines_turn_round()
    ensures { (c : Choice) (old new : List Row) (l : Line) → HaveOwnPaths new → IsAmong l (lines_beside [] c old new) → IsAmong (turned l) (lines_beside [] c new old) }
{}

/// The text of a string is printed without a control byte, and two texts are never printed the same.
pub fn strings_print_apart()
    ensures shown { (text : List ℕ) → All IsShown (escaped text) }
    ensures apart { (a b : List ℕ) → escaped a ≡ escaped b → a ≡ b }
{}
