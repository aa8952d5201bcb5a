//! The lines of rows.
ghost use Rattle.std.specs.Prelude.{◌≡◌, ◌++◌, [], ◌∷◌, OnOk, drop, option_copied, map};
ghost use Rattle.std.specs.List.{filter};
ghost use Rattle.rdl_diff.specs.ByPath.{pair};
ghost use Rattle.rdl_diff.specs.ByPlace.{standing};
ghost use Rattle.rdl_diff.specs.Choices.{is_asked};
ghost use Rattle.rdl_diff.specs.DiffText.{changed_line, changes, come, gone, is_kept, new_line, renamed};
ghost use Rattle.rdl_diff.specs.Paths.{path};
ghost use Rattle.rdl_diff.specs.Seen.{changes_seen, lines_seen};

use crate::by_path::Lone;
use crate::change::{Change, are_breaking, changes};
use crate::choice::{Choice, Severity};
use crate::rename::Rename;
use rdl_elab::row::{Row, RowPath};
use std::alloc::{AllocError, Global};

/// What is told of one row.
#[derive(Drop)]
pub(crate) enum Line<'a> {
    /// It has another name.
    Renamed(Rename<'a>),
    /// Only the first map has it.
    Gone(&'a Row),
    /// Only the second map has it.
    Come(&'a Row),
    /// Both have its path, which is this one below the first name, and this differs.
    Changed(&'a RowPath, Vec<Change<'a>>),
}

fn push<'a>(lines: &mut Vec<Line<'a>>, line: Line<'a>) -> Result<(), AllocError>
    ensures { OnOk result (lines_seen lines.new.items ≡ lines_seen lines.old.items ++ lines_seen (line.entry ∷ [])) }
{
    lines.push(line)?;
    Ok(())
}

/// Adds the lines of rows that have another name.
pub(crate) fn push_renamed<'a>(
    lines: &mut Vec<Line<'a>>,
    renames: &[Rename<'a>],
) -> Result<(), AllocError>
    ensures { OnOk result (lines_seen lines.new.items ≡ lines_seen lines.old.items ++ map (λ x. renamed (pair x).0 (pair x).1) renames.now) }
{
    'renames: for rename in renames {
        push(lines, Line::Renamed(*rename))?;
    }
    Ok(())
}

/// Adds the lines of rows that are gone.
pub(crate) fn push_gone<'a>(lines: &mut Vec<Line<'a>>, rows: &[Lone<'a>]) -> Result<(), AllocError>
    ensures { OnOk result (lines_seen lines.new.items ≡ lines_seen lines.old.items ++ map (λ x. gone (standing x).0) rows.now) }
{
    'rows: for lone in rows {
        push(lines, Line::Gone(lone.row))?;
    }
    Ok(())
}

/// Whether a line is asked that tells of what breaks software, or doesn't.
fn is_asked(severity: Severity, is_breaking: bool) -> bool
    ensures { result ≡ is_asked severity is_breaking }
{
    match severity {
        Severity::Any => true,
        Severity::Breaking => is_breaking,
    }
}

/// Adds the line of a path that both maps have, where this differs, if something does and is asked.
#[tactic(auto, using(crate::proofs::Lines::line_kept, crate::proofs::Lines::no_line_kept, crate::proofs::Lines::none_kept, crate::proofs::Lines::some_changed))]
fn push_changed<'a>(
    lines: &mut Vec<Line<'a>>,
    severity: Severity,
    names: &'a RowPath,
    mut changes: Vec<Change<'a>>,
) -> Result<(), AllocError>
    ensures { OnOk result (lines_seen lines.new.items ≡ lines_seen lines.old.items ++ filter (is_kept severity) (changed_line (drop 1 names.now) (changes_seen changes.entry.items))) }
{
    if changes.is_empty() || !is_asked(severity, are_breaking(changes.as_slice())) {
        return Ok(());
    }
    changes.shrink_to_fit();
    push(lines, Line::Changed(names, changes))
}

/// Adds the line of a path that both maps have, if something differs there and is asked.
pub(crate) fn push_changes<'a>(
    alloc: Global,
    lines: &mut Vec<Line<'a>>,
    choice: &Choice,
    old: &'a Row,
    new: &'a Row,
) -> Result<(), AllocError>
    ensures { OnOk result (lines_seen lines.new.items ≡ lines_seen lines.old.items ++ filter (is_kept choice.now.severity) (changed_line (path new.now) (changes choice.now old.now new.now))) }
{
    let changes = changes(alloc, choice, old, new)?;
    push_changed(lines, choice.severity, &new.names, changes)
}

/// Adds the line of a new row, if that is asked.
fn push_come<'a>(
    lines: &mut Vec<Line<'a>>,
    severity: Severity,
    row: &'a Row,
) -> Result<(), AllocError>
    ensures { OnOk result (lines_seen lines.new.items ≡ lines_seen lines.old.items ++ filter (is_kept severity) (come row.now ∷ [])) }
{
    match severity {
        Severity::Any => push(lines, Line::Come(row)),
        Severity::Breaking => Ok(()),
    }
}

/// Adds the line of a row of the second map, where the first has this at its path.
pub(crate) fn push_new<'a>(
    alloc: Global,
    lines: &mut Vec<Line<'a>>,
    choice: &Choice,
    row: &'a Row,
    found: Option<&'a Row>,
) -> Result<(), AllocError>
    ensures { OnOk result (lines_seen lines.new.items ≡ lines_seen lines.old.items ++ filter (is_kept choice.now.severity) (new_line choice.now (option_copied found.entry) row.now)) }
{
    match found {
        Some(old) => push_changes(alloc, lines, choice, old, row),
        None => push_come(lines, choice.severity, row),
    }
}
