//! Things of which the same is said.
ghost use Rattle.std.specs.Prelude.{◌≡◌, ◌+◌, ◌<◌, ◌^◌, [], ◌∷◌, ◌++◌, map, take, IfOk, OnOk};
ghost use Rattle.rdl_diff.specs.Alike.{group_items, group_of, groups, heading, joined, run_path, with_path};
ghost use Rattle.rdl_diff.specs.ByPath.{texts};
ghost use Rattle.rdl_diff.specs.Grouped.{AreKeyed, groups_seen, joined_at};
ghost use Rattle.rdl_diff.specs.Seen.{group_seen, items_seen, path_seen};

use crate::entry::{Entry, Item};
use crate::inner::run_text;
use crate::runs::first_names;
use indexmap::IndexSet;
use std::alloc::{AllocError, Global};

/// Things of which the same is said.
#[derive(Drop)]
pub(crate) struct Group<'a> {
    paths: Vec<Vec<&'a str>>,
    /// What is said of the first.
    items: Vec<Item<'a>>,
}

/// Groups, and under the same number what is said of each.
#[derive(Drop)]
pub(crate) struct Groups<'a> {
    texts: IndexSet<String>,
    groups: Vec<Group<'a>>,
}

/// The path of a run of items, which has one name more than so many.
fn run_path<'a>(alloc: Global, depth: usize, run: &[Item<'a>]) -> Result<Vec<&'a str>, AllocError>
    requires { depth + 1 < 2 ^ 64 }
    ensures { IfOk result (λ p. path_seen p ≡ run_path depth (items_seen run.now)) }
{
    match run {
        [] => Ok(Vec::new(alloc)),
        [first, ..] => Vec::from_slice(alloc, first_names(first.path.as_slice(), depth + 1)),
    }
}

/// A group of one run.
fn group_of<'a>(
    alloc: Global,
    path: Vec<&'a str>,
    items: Vec<Item<'a>>,
) -> Result<Group<'a>, AllocError>
    ensures { IfOk result (λ g. group_seen g ≡ record { paths = path_seen path.entry ∷ []; items = items_seen items.entry.items }) }
{
    let mut paths = Vec::with_capacity(alloc, 1)?;
    paths.push(path)?;
    Ok(Group { paths, items })
}

/// Adds a path to a group.
fn push_path<'a>(group: &mut Group<'a>, path: Vec<&'a str>) -> Result<(), AllocError>
    ensures { OnOk result (group_seen group.new ≡ with_path (group_seen group.old) (path_seen path.entry)) }
{
    group.paths.push(path)?;
    Ok(())
}

/// Adds the path of a run to the group of this number, or makes a group of the run.
fn join_at<'a>(
    alloc: Global,
    groups: &mut Vec<Group<'a>>,
    number: usize,
    path: Vec<&'a str>,
    items: Vec<Item<'a>>,
) -> Result<(), AllocError>
    ensures { OnOk result (groups_seen groups.new.items ≡ joined_at number (groups_seen groups.old.items) (path_seen path.entry) (items_seen items.entry.items)) }
{
    if let Some(group) = groups.get_mut(number) {
        return push_path(group, path);
    }
    groups.push(group_of(alloc, path, items)?)?;
    Ok(())
}

/// Adds a run to the groups.
fn join<'a>(
    alloc: Global,
    depth: usize,
    groups: &mut Groups<'a>,
    run: Vec<Item<'a>>,
) -> Result<(), AllocError>
    requires deep { depth + 1 < 2 ^ 64 }
    requires keyed { AreKeyed depth groups.old }
    ensures keyed { OnOk result (AreKeyed depth groups.new) }
    ensures joined { OnOk result (groups_seen groups.new.groups.items ≡ joined depth (groups_seen groups.old.groups.items) (items_seen run.entry.items)) }
{
    let text = run_text(alloc, depth, run.as_slice())?;
    let path = run_path(alloc, depth, run.as_slice())?;
    let (number, _is_new) = groups.texts.insert_full(text)?;
    join_at(alloc, &mut groups.groups, number, path, run)
}

/// Runs of items put together of which the same is said.
pub(crate) fn grouped<'a>(
    alloc: Global,
    depth: usize,
    runs: Vec<Vec<Item<'a>>>,
) -> Result<Vec<Group<'a>>, AllocError>
    requires { depth + 1 < 2 ^ 64 }
    ensures { IfOk result (λ gs. groups_seen gs.items ≡ groups depth [] (map (λ r. items_seen r.items) runs.entry.items)) }
{
    let mut groups = Groups {
        texts: IndexSet::new(alloc),
        groups: Vec::new(alloc),
    };
    'runs: for run in runs {
        join(alloc, depth, &mut groups, run)?;
    }
    Ok(groups.groups)
}

/// Adds the names of the things, where they are several.
fn push_heading<'a>(
    alloc: Global,
    items: &mut Vec<Item<'a>>,
    paths: Vec<Vec<&'a str>>,
) -> Result<(), AllocError>
    ensures { OnOk result (items_seen items.new.items ≡ items_seen items.old.items ++ heading (map path_seen paths.entry.items)) }
{
    let path = match paths.as_slice() {
        [] | [_] => return Ok(()),
        [first, ..] => Vec::from_slice(alloc, first.as_slice())?,
    };
    let entry = Entry::Alike(paths);
    items.push(Item { path, entry })?;
    Ok(())
}

/// Adds what is written of a group.
pub(crate) fn push_group<'a>(
    alloc: Global,
    items: &mut Vec<Item<'a>>,
    group: Group<'a>,
) -> Result<(), AllocError>
    ensures { OnOk result (items_seen items.new.items ≡ items_seen items.old.items ++ group_items (group_seen group.entry)) }
{
    let Group {
        paths,
        items: mut own,
    } = group;
    push_heading(alloc, items, paths)?;
    items.append(&mut own)
}
