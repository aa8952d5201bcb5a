//! What is said of a thing without its name, by which things are compared.
ghost use Rattle.std.specs.Prelude.{◌≡◌, ◌++◌, codes, drop, flat_map, map, string_bytes, IfOk, OnOk};
ghost use Rattle.rdl_diff.specs.Alike.{alike, behind_text, entry_text, inner_text, item_text, last_name, own_text, run_text, shape_text};
ghost use Rattle.rdl_diff.specs.ByPath.{texts};
ghost use Rattle.rdl_diff.specs.Paths.{path};
ghost use Rattle.rdl_diff.specs.Seen.{change_seen, changes_seen, entry_seen, item_seen, items_seen, line_seen, path_seen};
ghost use Rattle.rdl_diff.specs.Told.{told, told_text};

use crate::anew::push_stated;
use crate::by_path::names_below;
use crate::change::Change;
use crate::entry::{Entry, Item};
use crate::line::Line;
use crate::names::{push_behind, push_last};
use crate::plain::push_change_text;
use crate::rename::below;
use crate::told::{push_told, told_by};
use crate::what::What;
use rdl_elab::row::Row;
use rdl_tree::property::Property;
use std::alloc::{AllocError, Global};

/// Appends the last names of a row that has another name.
fn push_names(alloc: Global, text: &mut String, old: &Row, new: &Row) -> Result<(), AllocError>
    ensures { OnOk result (string_bytes text.new ≡ string_bytes text.old ++ (codes "= " ++ last_name (path old.now) ++ codes " -> " ++ last_name (path new.now))) }
{
    text.push_str("= ")?;
    push_last(text, names_below(alloc, &old.names)?.as_slice())?;
    text.push_str(" -> ")?;
    push_last(text, names_below(alloc, &new.names)?.as_slice())
}

/// What is told of a row, in place of its base the offset.
const SHAPE: [What; 7] = [
    What::Kind,
    What::Offset,
    What::Size,
    What::Dims,
    What::Stride,
    What::Bits,
    What::Value(Property::Reset),
];

/// Appends these parts of a row.
fn push_parts(text: &mut String, row: &Row, parts: &[What]) -> Result<(), AllocError>
    ensures { OnOk result (string_bytes text.new ≡ string_bytes text.old ++ flat_map (λ w. told_text (told w row.now) ++ codes " ") parts.now) }
{
    'parts: for part in parts {
        push_told(text, &told_by(row, *part))?;
        text.push_str(" ")?;
    }
    Ok(())
}

/// Appends a row without its path and its base.
#[tactic(auto, unfolding(crate::specs::Alike::shape))]
fn push_shape(text: &mut String, row: &Row) -> Result<(), AllocError>
    ensures { OnOk result (string_bytes text.new ≡ string_bytes text.old ++ shape_text row.now) }
{
    push_parts(text, row, &SHAPE)
}

/// Appends what differs of a part, unless it is the base.
fn push_unless_base(text: &mut String, change: &Change<'_>) -> Result<(), AllocError>
    ensures { OnOk result (string_bytes text.new ≡ string_bytes text.old ++ own_text (change_seen change.now)) }
{
    if matches!(change.what, What::Base) {
        return Ok(());
    }
    text.push_str(" ")?;
    push_change_text(text, change)
}

/// Appends what differs, but for the bases.
fn push_own(text: &mut String, changes: &[Change<'_>]) -> Result<(), AllocError>
    ensures { OnOk result (string_bytes text.new ≡ string_bytes text.old ++ flat_map (λ c. own_text (change_seen c)) changes.now) }
{
    'changes: for change in changes {
        push_unless_base(text, change)?;
    }
    Ok(())
}

/// Appends what is said of a row that differs.
fn push_changed(text: &mut String, changes: &[Change<'_>]) -> Result<(), AllocError>
    ensures { OnOk result (string_bytes text.new ≡ string_bytes text.old ++ (codes "~" ++ flat_map own_text (changes_seen changes.now))) }
{
    text.push_str("~")?;
    push_own(text, changes)
}

/// Appends what is said of a line's row, without its name.
fn push_inner(alloc: Global, text: &mut String, line: &Line<'_>) -> Result<(), AllocError>
    ensures { OnOk result (string_bytes text.new ≡ string_bytes text.old ++ inner_text (line_seen line.now)) }
{
    match line {
        Line::Renamed(rename) => push_names(alloc, text, rename.old, rename.new),
        Line::Gone(row) => {
            text.push_str("- ")?;
            push_shape(text, row)
        }
        Line::Come(row) => {
            text.push_str("+ ")?;
            push_shape(text, row)?;
            push_stated(text, row)
        }
        Line::Changed(_, changes) => push_changed(text, changes.as_slice()),
    }
}

/// The names of a path from this depth on, but for the first of them.
fn push_below(text: &mut String, depth: usize, path: &[&str]) -> Result<(), AllocError>
    ensures { OnOk result (string_bytes text.new ≡ string_bytes text.old ++ behind_text (drop depth (texts path.now))) }
{
    push_behind(text, below(path, depth))
}

/// Appends paths from this depth on, but for the first name of each.
fn push_paths(text: &mut String, depth: usize, paths: &[Vec<&str>]) -> Result<(), AllocError>
    ensures { OnOk result (string_bytes text.new ≡ string_bytes text.old ++ flat_map (λ p. codes " " ++ behind_text (drop depth (path_seen p))) paths.now) }
{
    'paths: for path in paths {
        text.push_str(" ")?;
        push_below(text, depth, path.as_slice())?;
    }
    Ok(())
}

/// Appends names of what is alike.
fn push_alike(text: &mut String, depth: usize, paths: &[Vec<&str>]) -> Result<(), AllocError>
    ensures { OnOk result (string_bytes text.new ≡ string_bytes text.old ++ entry_text depth (alike (map path_seen paths.now))) }
{
    text.push_str("*")?;
    push_paths(text, depth, paths)
}

fn push_entry(
    alloc: Global,
    text: &mut String,
    depth: usize,
    entry: &Entry<'_>,
) -> Result<(), AllocError>
    ensures { OnOk result (string_bytes text.new ≡ string_bytes text.old ++ entry_text depth (entry_seen entry.now)) }
{
    match entry {
        Entry::Alike(paths) => push_alike(text, depth, paths.as_slice()),
        Entry::Line(line) => push_inner(alloc, text, line),
    }
}

fn push_item(
    alloc: Global,
    text: &mut String,
    depth: usize,
    item: &Item<'_>,
) -> Result<(), AllocError>
    ensures { OnOk result (string_bytes text.new ≡ string_bytes text.old ++ item_text depth (item_seen item.now)) }
{
    push_below(text, depth, item.path.as_slice())?;
    text.push_str(" ")?;
    push_entry(alloc, text, depth, &item.entry)?;
    text.push_str("\n")
}

/// What is said of a thing that has so many names around it.
pub(crate) fn run_text(alloc: Global, depth: usize, run: &[Item<'_>]) -> Result<String, AllocError>
    ensures { IfOk result (λ text. string_bytes text ≡ run_text depth (items_seen run.now)) }
{
    let mut text = String::new(alloc);
    'items: for item in run {
        push_item(alloc, &mut text, depth, item)?;
    }
    Ok(text)
}
