//! Entries as rows of a table in Markdown.
ghost use Rattle.std.specs.Prelude.{◌≡◌, ◌++◌, codes, decimal, drop, encode_utf8, false, length, map, string_bytes, true, IfOk, OnOk};
ghost use Rattle.rdl_list.specs.ListText.{path_text};
ghost use Rattle.rdl_diff.specs.Breaking.{mark};
ghost use Rattle.rdl_diff.specs.DiffText.{changed, come, gone, listed, renamed};
ghost use Rattle.rdl_diff.specs.Markdown.{in_span, line_row, markdown_text, span, spanned, table_head, table_row};
ghost use Rattle.rdl_diff.specs.Seen.{changes_seen, entry_seen, line_seen, path_seen};

use crate::anew::push_whole;
use crate::change::{Change, are_breaking};
use crate::entry::Entry;
use crate::line::Line;
use crate::names::push_listed_paths;
use crate::plain::push_changes;
use rdl_elab::row::{Row, RowPath};
use rdl_list::{push_path, push_row_text};
use std::alloc::{AllocError, Global};

/// The head of the table.
#[tactic(auto, unfolding(crate::specs::Markdown::table_head))]
pub(crate) fn table_head() -> &'static str
    ensures { result.now ≡ table_head }
{
    "| Breaks | What | Where | How |\n|---|---|---|---|\n"
}

/// Appends a character of a code span.
#[tactic(auto, unfolding(crate::specs::Markdown::in_span))]
fn push_in_span(text: &mut String, c: char) -> Result<(), AllocError>
    ensures { OnOk result (string_bytes text.new ≡ string_bytes text.old ++ in_span c (encode_utf8 c)) }
{
    match c {
        '|' => text.push_str("\\|"),
        '`' => text.push_str("\\x60"),
        _ => text.push(c),
    }
}

/// Appends a text so that it shows in a code span.
fn push_shown(text: &mut String, shown: &str) -> Result<(), AllocError>
    ensures { OnOk result (string_bytes text.new ≡ string_bytes text.old ++ spanned shown.now) }
{
    'chars: for c in shown.chars() {
        push_in_span(text, c)?;
    }
    Ok(())
}

/// Appends a text in a code span.
#[tactic(auto, unfolding(crate::specs::Markdown::span))]
fn push_span(text: &mut String, shown: &str) -> Result<(), AllocError>
    ensures { OnOk result (string_bytes text.new ≡ string_bytes text.old ++ span shown.now) }
{
    text.push_str("`")?;
    push_shown(text, shown)?;
    text.push_str("`")
}

/// What a row begins with.
fn row_front(is_breaking: bool) -> &'static str
    ensures { result.now ≡ codes "| " ++ mark is_breaking ++ codes "| " }
{
    if is_breaking { "| ! | " } else { "| | " }
}

/// Appends a row, in which this says how.
#[tactic(auto, unfolding(crate::specs::Markdown::table_row))]
fn push_table_row(
    text: &mut String,
    is_breaking: bool,
    what: &str,
    place: &str,
    how: &str,
) -> Result<(), AllocError>
    ensures { OnOk result (string_bytes text.new ≡ string_bytes text.old ++ table_row is_breaking what.now place.now how.now) }
{
    text.push_str(row_front(is_breaking))?;
    text.push_str(what)?;
    text.push_str(" | ")?;
    push_span(text, place)?;
    text.push_str(" | ")?;
    text.push_str(how)?;
    text.push_str(" |\n")
}

/// A path.
fn path_text(alloc: Global, names: &RowPath) -> Result<String, AllocError>
    ensures { IfOk result (λ text. string_bytes text ≡ path_text (drop 1 names.now)) }
{
    let mut text = String::new(alloc);
    push_path(&mut text, names, 1)?;
    Ok(text)
}

/// A text in a code span.
fn span(alloc: Global, shown: &str) -> Result<String, AllocError>
    ensures { IfOk result (λ text. string_bytes text ≡ span shown.now) }
{
    let mut text = String::new(alloc);
    push_span(&mut text, shown)?;
    Ok(text)
}

fn push_renamed(alloc: Global, text: &mut String, old: &Row, new: &Row) -> Result<(), AllocError>
    ensures { OnOk result (string_bytes text.new ≡ string_bytes text.old ++ line_row (renamed old.now new.now)) }
{
    let old_path = path_text(alloc, &old.names)?;
    let new_path = path_text(alloc, &new.names)?;
    let how = span(alloc, new_path.as_str())?;
    push_table_row(text, true, "renamed", old_path.as_str(), how.as_str())
}

fn push_gone(alloc: Global, text: &mut String, row: &Row) -> Result<(), AllocError>
    ensures { OnOk result (string_bytes text.new ≡ string_bytes text.old ++ line_row (gone row.now)) }
{
    let path = path_text(alloc, &row.names)?;
    let mut whole = String::new(alloc);
    push_row_text(&mut whole, row, 1)?;
    let how = span(alloc, whole.as_str())?;
    push_table_row(text, true, "gone", path.as_str(), how.as_str())
}

fn push_come(alloc: Global, text: &mut String, row: &Row) -> Result<(), AllocError>
    ensures { OnOk result (string_bytes text.new ≡ string_bytes text.old ++ line_row (come row.now)) }
{
    let path = path_text(alloc, &row.names)?;
    let mut whole = String::new(alloc);
    push_whole(&mut whole, row)?;
    let how = span(alloc, whole.as_str())?;
    push_table_row(text, false, "new", path.as_str(), how.as_str())
}

fn push_changed(
    alloc: Global,
    text: &mut String,
    names: &RowPath,
    changes: &[Change<'_>],
) -> Result<(), AllocError>
    ensures { OnOk result (string_bytes text.new ≡ string_bytes text.old ++ line_row (changed (drop 1 names.now) (changes_seen changes.now))) }
{
    let path = path_text(alloc, names)?;
    let mut listed = String::new(alloc);
    push_changes(&mut listed, changes)?;
    let how = span(alloc, listed.as_str())?;
    let is_breaking = are_breaking(changes);
    push_table_row(text, is_breaking, "differs", path.as_str(), how.as_str())
}

fn push_line(alloc: Global, text: &mut String, line: &Line<'_>) -> Result<(), AllocError>
    ensures { OnOk result (string_bytes text.new ≡ string_bytes text.old ++ line_row (line_seen line.now)) }
{
    match line {
        Line::Renamed(rename) => push_renamed(alloc, text, rename.old, rename.new),
        Line::Gone(row) => push_gone(alloc, text, row),
        Line::Come(row) => push_come(alloc, text, row),
        Line::Changed(names, changes) => push_changed(alloc, text, names, changes.as_slice()),
    }
}

#[tactic(auto, using(crate::proofs::Listed::as_many))]
fn push_alike(alloc: Global, text: &mut String, paths: &[Vec<&str>]) -> Result<(), AllocError>
    ensures { OnOk result (string_bytes text.new ≡ string_bytes text.old ++ table_row false (codes "alike") (listed (map path_text (map path_seen paths.now))) (decimal (length (map path_seen paths.now)))) }
{
    let mut listed = String::new(alloc);
    push_listed_paths(&mut listed, paths)?;
    let how = format!(in alloc; "{}", paths.len())?;
    push_table_row(text, false, "alike", listed.as_str(), how.as_str())
}

/// Appends an entry as a row of a table.
pub(crate) fn push_markdown(
    alloc: Global,
    text: &mut String,
    entry: &Entry<'_>,
) -> Result<(), AllocError>
    ensures { OnOk result (string_bytes text.new ≡ string_bytes text.old ++ markdown_text (entry_seen entry.now)) }
{
    match entry {
        Entry::Alike(paths) => push_alike(alloc, text, paths.as_slice()),
        Entry::Line(line) => push_line(alloc, text, line),
    }
}
