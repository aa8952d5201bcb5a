//! What is written of lines.
ghost use Rattle.std.specs.Prelude.{◌≡◌, drop, map, IfOk};
ghost use Rattle.rdl_diff.specs.Alike.{item, line_path, most_names};
ghost use Rattle.rdl_diff.specs.Seen.{entry_seen, item_seen, items_seen, line_seen};

use crate::by_path::names_below;
use crate::line::Line;
use rdl_elab::row::RowPath;
use std::alloc::{AllocError, Global};

/// What is written.
#[derive(Drop)]
pub(crate) enum Entry<'a> {
    /// The lines behind it are those of what has the first of these paths, and of what has any other they are the same.
    Alike(Vec<Vec<&'a str>>),
    Line(Line<'a>),
}

/// What is written, and the path where it stands.
#[derive(Drop)]
pub(crate) struct Item<'a> {
    pub path: Vec<&'a str>,
    pub entry: Entry<'a>,
}

/// The path of a line: of a row that is gone that in the first map, and of any other that in the second.
fn path_of<'a>(line: &Line<'a>) -> &'a RowPath
    ensures { drop 1 result.now ≡ line_path (line_seen line.now) }
{
    match line {
        Line::Renamed(rename) => &rename.new.names,
        Line::Gone(row) | Line::Come(row) => &row.names,
        Line::Changed(names, _) => names,
    }
}

fn item_of<'a>(alloc: Global, line: Line<'a>) -> Result<Item<'a>, AllocError>
    ensures { IfOk result (λ i. item_seen i ≡ item (line_seen line.entry)) }
{
    let path = names_below(alloc, path_of(&line))?;
    let entry = Entry::Line(line);
    Ok(Item { path, entry })
}

/// Lines with their paths.
pub(crate) fn items_of<'a>(alloc: Global, lines: Vec<Line<'a>>) -> Result<Vec<Item<'a>>, AllocError>
    ensures { IfOk result (λ is. items_seen is.items ≡ map (λ l. item (line_seen l)) lines.entry.items) }
{
    let mut items = Vec::with_capacity(alloc, lines.len())?;
    'lines: for line in lines {
        items.push(item_of(alloc, line)?)?;
    }
    Ok(items)
}

/// How many names the longest path has.
#[tactic(auto, using(crate::proofs::Cuts::one_longer))]
pub(crate) fn most_names(items: &[Item<'_>]) -> usize
    ensures { result ≡ most_names (items_seen items.now) }
{
    let mut most = 0;
    let mut rest = items;
    'items: while let [item, behind @ ..] = rest {
        most = usize::max(most, item.path.len());
        rest = behind;
    }
    most
}

/// What is written, without the paths.
pub(crate) fn entries_of<'a>(
    alloc: Global,
    items: Vec<Item<'a>>,
) -> Result<Vec<Entry<'a>>, AllocError>
    ensures { IfOk result (λ es. map entry_seen es.items ≡ map (λ i. i.entry) (items_seen items.entry.items)) }
{
    let mut entries = Vec::with_capacity(alloc, items.len())?;
    'items: for item in items {
        entries.push(item.entry)?;
    }
    Ok(entries)
}
