//! Entries as lines of text.
ghost use Rattle.std.specs.Prelude.{◌≡◌, ◌++◌, codes, drop, flat_map, map, string_bytes, OnOk};
ghost use Rattle.rdl_diff.specs.DiffText.{change_text, changed, come, gone, line_text, listed, renamed};
ghost use Rattle.rdl_diff.specs.PlainText.{alike_text, plain_text};
ghost use Rattle.rdl_diff.specs.Seen.{change_seen, changes_seen, entry_seen, line_seen, path_seen};

use crate::anew::push_whole;
use crate::breaking::changed_front;
use crate::change::{Change, are_breaking};
use crate::entry::Entry;
use crate::line::Line;
use crate::names::push_listed_paths;
use crate::told::push_told;
use rdl_elab::row::{Row, RowPath};
use rdl_list::{push_path, push_row};
use std::alloc::AllocError;

/// Appends `WHAT OLD -> NEW`.
#[tactic(auto, unfolding(crate::specs::DiffText::change_text))]
pub(crate) fn push_change_text(text: &mut String, change: &Change<'_>) -> Result<(), AllocError>
    ensures { OnOk result (string_bytes text.new ≡ string_bytes text.old ++ change_text (change_seen change.now)) }
{
    write!(text, "{} ", change.what.text())?;
    push_told(text, &change.old)?;
    text.push_str(" -> ")?;
    push_told(text, &change.new)
}

/// Appends what differs, each behind a comma.
fn push_others(text: &mut String, changes: &[Change<'_>]) -> Result<(), AllocError>
    ensures { OnOk result (string_bytes text.new ≡ string_bytes text.old ++ flat_map (λ c. codes ", " ++ change_text (change_seen c)) changes.now) }
{
    'changes: for change in changes {
        text.push_str(", ")?;
        push_change_text(text, change)?;
    }
    Ok(())
}

/// Appends what differs, the first and others.
fn push_first(
    text: &mut String,
    first: &Change<'_>,
    others: &[Change<'_>],
) -> Result<(), AllocError>
    ensures { OnOk result (string_bytes text.new ≡ string_bytes text.old ++ (change_text (change_seen first.now) ++ flat_map (λ c. codes ", " ++ change_text (change_seen c)) others.now)) }
{
    push_change_text(text, first)?;
    push_others(text, others)
}

/// Appends what differs, with commas between.
pub(crate) fn push_changes(text: &mut String, changes: &[Change<'_>]) -> Result<(), AllocError>
    ensures { OnOk result (string_bytes text.new ≡ string_bytes text.old ++ listed (map change_text (changes_seen changes.now))) }
{
    match changes {
        [] => Ok(()),
        [first, others @ ..] => push_first(text, first, others),
    }
}

/// Appends `= OLD -> NEW`.
#[tactic(auto, unfolding(crate::specs::DiffText::line_text))]
fn push_renamed(text: &mut String, old: &Row, new: &Row) -> Result<(), AllocError>
    ensures { OnOk result (string_bytes text.new ≡ string_bytes text.old ++ line_text (renamed old.now new.now)) }
{
    text.push_str("! = ")?;
    push_path(text, &old.names, 1)?;
    text.push_str(" -> ")?;
    push_path(text, &new.names, 1)?;
    text.push_str("\n")
}

/// Appends the line of a row that is gone.
#[tactic(auto, unfolding(crate::specs::DiffText::line_text))]
fn push_gone(text: &mut String, row: &Row) -> Result<(), AllocError>
    ensures { OnOk result (string_bytes text.new ≡ string_bytes text.old ++ line_text (gone row.now)) }
{
    text.push_str("! - ")?;
    push_row(text, row, 1)
}

/// Appends the line of a new row.
#[tactic(auto, unfolding(crate::specs::DiffText::line_text))]
fn push_come(text: &mut String, row: &Row) -> Result<(), AllocError>
    ensures { OnOk result (string_bytes text.new ≡ string_bytes text.old ++ line_text (come row.now)) }
{
    text.push_str("+ ")?;
    push_whole(text, row)?;
    text.push_str("\n")
}

/// Appends the line of a path that both maps have.
#[tactic(auto, unfolding(crate::specs::DiffText::line_text))]
fn push_changed(
    text: &mut String,
    names: &RowPath,
    changes: &[Change<'_>],
) -> Result<(), AllocError>
    ensures { OnOk result (string_bytes text.new ≡ string_bytes text.old ++ line_text (changed (drop 1 names.now) (changes_seen changes.now))) }
{
    text.push_str(changed_front(are_breaking(changes)))?;
    push_path(text, names, 1)?;
    text.push_str(": ")?;
    push_changes(text, changes)?;
    text.push_str("\n")
}

fn push_line(text: &mut String, line: &Line<'_>) -> Result<(), AllocError>
    ensures { OnOk result (string_bytes text.new ≡ string_bytes text.old ++ line_text (line_seen line.now)) }
{
    match line {
        Line::Renamed(rename) => push_renamed(text, rename.old, rename.new),
        Line::Gone(row) => push_gone(text, row),
        Line::Come(row) => push_come(text, row),
        Line::Changed(names, changes) => push_changed(text, names, changes.as_slice()),
    }
}

/// Appends the line of things of which the same is told.
#[tactic(auto, unfolding(crate::specs::PlainText::alike_text), using(crate::proofs::Listed::as_many))]
fn push_alike(text: &mut String, paths: &[Vec<&str>]) -> Result<(), AllocError>
    ensures { OnOk result (string_bytes text.new ≡ string_bytes text.old ++ alike_text (map path_seen paths.now)) }
{
    write!(text, "* {}: ", paths.len())?;
    push_listed_paths(text, paths)?;
    text.push_str("\n")
}

/// Appends an entry as a line of text.
pub(crate) fn push_plain(text: &mut String, entry: &Entry<'_>) -> Result<(), AllocError>
    ensures { OnOk result (string_bytes text.new ≡ string_bytes text.old ++ plain_text (entry_seen entry.now)) }
{
    match entry {
        Entry::Alike(paths) => push_alike(text, paths.as_slice()),
        Entry::Line(line) => push_line(text, line),
    }
}
