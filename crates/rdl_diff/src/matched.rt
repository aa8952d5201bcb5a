//! Which rows of a first map stand for which of a second, and the lines of all.
ghost use Rattle.std.specs.Prelude.{◌≡◌, ◌++◌, flat_map, IfOk, OnOk};
ghost use Rattle.std.specs.List.{filter};
ghost use Rattle.rdl_diff.specs.ByPath.{row_under};
ghost use Rattle.rdl_diff.specs.DiffText.{is_kept, lines, new_line};
ghost use Rattle.rdl_diff.specs.Matched.{IsMatched, MatchesBeside};
ghost use Rattle.rdl_diff.specs.Paired.{have_same_paths, paired_lines};
ghost use Rattle.rdl_diff.specs.Paths.{path, same_path};
ghost use Rattle.rdl_diff.specs.SameRows.{HaveOwnPaths};
ghost use Rattle.rdl_diff.specs.Seen.{lines_seen};

use crate::by_path::{ByPath, Lone, Paths, lone_rows, put_names_below};
use crate::choice::Choice;
use crate::line::{Line, push_changes, push_gone, push_new, push_renamed};
use crate::rename::{Rename, are_same, renames};
use rdl_elab::row::Row;
use std::alloc::{AllocError, Global};

/// Which rows of the first map stand for which of the second.
#[derive(Drop)]
struct Matched<'a> {
    /// Those that have another name.
    renames: Vec<Rename<'a>>,
    /// Those that the second map doesn't have.
    gone: Vec<Lone<'a>>,
    /// All, under the paths of the second map.
    old_by_path: ByPath<'a>,
}

/// Matches the rows of two maps, of which these were renamed.
fn match_beside<'a>(
    alloc: Global,
    renames: Vec<Rename<'a>>,
    old: &'a [Row],
    new_by_path: &ByPath<'_>,
) -> Result<Matched<'a>, AllocError>
    ensures { IfOk result (λ m. MatchesBeside renames.entry.items old.now (row_under new_by_path.now) m) }
{
    let renamed = ByPath::of_renames(alloc, renames.as_slice())?;
    let paths = Paths::New(renamed);
    let gone = lone_rows(alloc, old, &paths, new_by_path)?;
    let old_by_path = ByPath::of(alloc, old, &paths)?;
    Ok(Matched {
        renames,
        gone,
        old_by_path,
    })
}

/// Matches the rows of two maps.
fn match_rows<'a>(alloc: Global, old: &'a [Row], new: &'a [Row]) -> Result<Matched<'a>, AllocError>
    ensures { IfOk result (IsMatched old.now new.now) }
{
    let old_by_path = ByPath::of(alloc, old, &Paths::Own)?;
    let new_by_path = ByPath::of(alloc, new, &Paths::Own)?;
    let gone = lone_rows(alloc, old, &Paths::Own, &new_by_path)?;
    let renames = renames(alloc, gone.as_slice(), new, &old_by_path)?;
    if !renames.is_empty() {
        return match_beside(alloc, renames, old, &new_by_path);
    }
    Ok(Matched {
        renames,
        gone,
        old_by_path,
    })
}

/// Adds the line of a row of the second map, if it has one that is asked. What the list of names has doesn't matter.
fn push_new_at<'a>(
    alloc: Global,
    lines: &mut Vec<Line<'a>>,
    names: &mut Vec<&'a str>,
    choice: &Choice,
    row: &'a Row,
    old: &ByPath<'a>,
) -> Result<(), AllocError>
    ensures { OnOk result (lines_seen lines.new.items ≡ lines_seen lines.old.items ++ filter (is_kept choice.now.severity) (new_line choice.now (row_under old.now (path row.now)) row.now)) }
{
    put_names_below(names, &row.names)?;
    push_new(alloc, lines, choice, row, old.get(names.as_slice()))
}

/// Adds the lines of rows of the second map that are asked.
fn push_all_new<'a>(
    alloc: Global,
    lines: &mut Vec<Line<'a>>,
    choice: &Choice,
    rows: &'a [Row],
    old: &ByPath<'a>,
) -> Result<(), AllocError>
    ensures { OnOk result (lines_seen lines.new.items ≡ lines_seen lines.old.items ++ flat_map (λ r. filter (is_kept choice.now.severity) (new_line choice.now (row_under old.now (path r)) r)) rows.now) }
{
    let mut names = Vec::new(alloc);
    'rows: for row in rows {
        push_new_at(alloc, lines, &mut names, choice, row, old)?;
    }
    Ok(())
}

/// Whether two rows have the same path. What the lists of names have doesn't matter.
fn have_same_path<'a>(
    old_names: &mut Vec<&'a str>,
    new_names: &mut Vec<&'a str>,
    old: &'a Row,
    new: &'a Row,
) -> Result<bool, AllocError>
    ensures { IfOk result (λ same. same ≡ same_path (path old.now) (path new.now)) }
{
    put_names_below(old_names, &old.names)?;
    put_names_below(new_names, &new.names)?;
    Ok(are_same(0, old_names.as_slice(), new_names.as_slice()))
}

/// Whether both maps have the same paths, in the same order.
#[tactic(auto, using(crate::proofs::Paired::one_pair, crate::proofs::Paired::one_apart))]
fn have_same_paths<'a>(alloc: Global, old: &'a [Row], new: &'a [Row]) -> Result<bool, AllocError>
    ensures { IfOk result (λ same. same ≡ have_same_paths old.now new.now) }
{
    let mut old_names = Vec::new(alloc);
    let mut new_names = Vec::new(alloc);
    let mut old_rest = old;
    let mut new_rest = new;
    'rows: while let [old_row, old_behind @ ..] = old_rest {
        let [new_row, new_behind @ ..] = new_rest else {
            return Ok(false);
        };
        if !have_same_path(&mut old_names, &mut new_names, old_row, new_row)? {
            return Ok(false);
        }
        old_rest = old_behind;
        new_rest = new_behind;
    }
    Ok(new_rest.is_empty())
}

/// The lines of maps that have the same paths in the same order, which are compared one by one.
#[tactic(auto, using(crate::proofs::Paired::one_told))]
fn paired_lines<'a>(
    alloc: Global,
    choice: &Choice,
    old: &'a [Row],
    new: &'a [Row],
) -> Result<Vec<Line<'a>>, AllocError>
    ensures { IfOk result (λ told. lines_seen told.items ≡ paired_lines choice.now old.now new.now) }
{
    let mut lines = Vec::new(alloc);
    let mut old_rest = old;
    let mut new_rest = new;
    'rows: while let [old_row, old_behind @ ..] = old_rest {
        let [new_row, new_behind @ ..] = new_rest else {
            return Ok(lines);
        };
        push_changes(alloc, &mut lines, choice, old_row, new_row)?;
        old_rest = old_behind;
        new_rest = new_behind;
    }
    Ok(lines)
}

/// The lines that are asked: of each row that has another name; then of each whose path only the first map has, in its order; and
/// then, in the order of the second map, of each whose path only that has, and of each path of both where something differs.
pub(crate) fn lines<'a>(
    alloc: Global,
    choice: &Choice,
    old: &'a [Row],
    new: &'a [Row],
) -> Result<Vec<Line<'a>>, AllocError>
    ensures { IfOk result (λ told. lines_seen told.items ≡ lines choice.now old.now new.now) }
{
    let matched = match_rows(alloc, old, new)?;
    let mut lines = Vec::new(alloc);
    push_renamed(&mut lines, matched.renames.as_slice())?;
    push_gone(&mut lines, matched.gone.as_slice())?;
    push_all_new(alloc, &mut lines, choice, new, &matched.old_by_path)?;
    Ok(lines)
}

/// The same of rows with paths of their own. Where both maps have the same paths in the same order, nothing is looked up.
#[tactic(auto, using(crate::proofs::Paired::paired))]
pub(crate) fn lines_of_own<'a>(
    alloc: Global,
    choice: &Choice,
    old: &'a [Row],
    new: &'a [Row],
) -> Result<Vec<Line<'a>>, AllocError>
    requires { HaveOwnPaths old.now }
    ensures { IfOk result (λ told. lines_seen told.items ≡ lines choice.now old.now new.now) }
{
    if have_same_paths(alloc, old, new)? {
        return paired_lines(alloc, choice, old, new);
    }
    lines(alloc, choice, old, new)
}
