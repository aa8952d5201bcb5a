//! What is told once.
ghost use Rattle.std.specs.Prelude.{◌≡◌, ◌+◌, ◌<◌, ◌^◌, ◌++◌, flat_map, IfOk, OnOk};
ghost use Rattle.rdl_diff.specs.Alike.{group_items, told_above, told_at, told_inside, told_once};
ghost use Rattle.rdl_diff.specs.Seen.{group_seen, items_seen};

use crate::entry::{Item, most_names};
use crate::groups::{Group, grouped, push_group};
use crate::runs::runs;
use std::alloc::{AllocError, Global};

/// Adds items.
fn push_items<'a>(told: &mut Vec<Item<'a>>, mut items: Vec<Item<'a>>) -> Result<(), AllocError>
    ensures { OnOk result (items_seen told.new.items ≡ items_seen told.old.items ++ items_seen items.entry.items) }
{
    told.append(&mut items)
}

/// Adds what is written of groups.
fn push_groups<'a>(
    alloc: Global,
    told: &mut Vec<Item<'a>>,
    groups: Vec<Group<'a>>,
) -> Result<(), AllocError>
    ensures { OnOk result (items_seen told.new.items ≡ items_seen told.old.items ++ flat_map (λ g. group_items (group_seen g)) groups.entry.items) }
{
    'groups: for group in groups {
        push_group(alloc, told, group)?;
    }
    Ok(())
}

/// Adds what is written of what one thing with so many names holds. One item alone is like no other.
fn push_inside<'a>(
    alloc: Global,
    told: &mut Vec<Item<'a>>,
    depth: usize,
    items: Vec<Item<'a>>,
) -> Result<(), AllocError>
    requires { depth + 1 < 2 ^ 64 }
    ensures { OnOk result (items_seen told.new.items ≡ items_seen told.old.items ++ told_inside depth (items_seen items.entry.items)) }
{
    if items.len() == 1 {
        return push_items(told, items);
    }
    let runs = runs(alloc, depth + 1, items)?;
    let groups = grouped(alloc, depth, runs)?;
    push_groups(alloc, told, groups)
}

/// Adds what is written of runs of what things with so many names hold.
fn push_runs<'a>(
    alloc: Global,
    told: &mut Vec<Item<'a>>,
    depth: usize,
    runs: Vec<Vec<Item<'a>>>,
) -> Result<(), AllocError>
    requires { depth + 1 < 2 ^ 64 }
    ensures { OnOk result (items_seen told.new.items ≡ items_seen told.old.items ++ flat_map (λ r. told_inside depth (items_seen r.items)) runs.entry.items) }
{
    'runs: for run in runs {
        push_inside(alloc, told, depth, run)?;
    }
    Ok(())
}

/// What is written of all things with so many names around them.
fn told_at<'a>(
    alloc: Global,
    depth: usize,
    items: Vec<Item<'a>>,
) -> Result<Vec<Item<'a>>, AllocError>
    requires { depth + 1 < 2 ^ 64 }
    ensures { IfOk result (λ told. items_seen told.items ≡ told_at depth (items_seen items.entry.items)) }
{
    let mut told = Vec::with_capacity(alloc, items.len())?;
    let runs = runs(alloc, depth, items)?;
    push_runs(alloc, &mut told, depth, runs)?;
    Ok(told)
}

/// Of things that stand beside each other and of which all lines are the same but for their names, those of the first, behind the
/// names of all. The deepest come first.
pub(crate) fn told_once<'a>(
    alloc: Global,
    items: Vec<Item<'a>>,
) -> Result<Vec<Item<'a>>, AllocError>
    ensures { IfOk result (λ told. items_seen told.items ≡ told_once (items_seen items.entry.items)) }
{
    let mut depth = most_names(items.as_slice());
    let mut told = items;
    'depths: while depth > 0 {
        depth -= 1;
        told = told_at(alloc, depth, told)?;
    }
    Ok(told)
}
