//! Items of which one thing holds all.
ghost use Rattle.std.specs.Prelude.{◌≡◌, map, take, IfOk, OnOk};
ghost use Rattle.rdl_diff.specs.Alike.{begin_alike, goes_on, runs};
ghost use Rattle.rdl_diff.specs.ByPath.{texts};
ghost use Rattle.rdl_diff.specs.Paths.{same_path};
ghost use Rattle.rdl_diff.specs.Seen.{item_seen, items_seen};

use crate::entry::Item;
use std::alloc::{AllocError, Global};
use std::mem;

/// The first names of a path, so many or all that it has.
pub(crate) fn first_names<'p, 'a>(path: &'p [&'a str], count: usize) -> &'p [&'a str]
    ensures { texts result.now ≡ take count (texts path.now) }
{
    if count >= path.len() {
        return path;
    }
    let (front, _behind) = path.split_at(count);
    front
}

/// Whether two paths have the same names so far.
fn have_same_front(count: usize, a: &[&str], b: &[&str]) -> bool
    ensures { result ≡ same_path (take count (texts a.now)) (take count (texts b.now)) }
{
    first_names(a, count) == first_names(b, count)
}

/// Whether two paths begin with the same names, so many.
fn begin_alike(count: usize, a: &[&str], b: &[&str]) -> bool
    ensures { result ≡ begin_alike count (texts a.now) (texts b.now) }
{
    if a.len() < count || b.len() < count {
        return false;
    }
    have_same_front(count, a, b)
}

/// Whether an item goes on with a run.
fn goes_on(count: usize, run: &[Item<'_>], item: &Item<'_>) -> bool
    ensures { result ≡ goes_on count (items_seen run.now) (item_seen item.now) }
{
    match run {
        [] => true,
        [first, ..] => begin_alike(count, first.path.as_slice(), item.path.as_slice()),
    }
}

/// Items cut into runs, of which all paths begin with the same names, so many.
#[tactic(auto, using(crate::proofs::Cuts::goes_further, crate::proofs::Cuts::begins))]
pub(crate) fn runs<'a>(
    alloc: Global,
    count: usize,
    items: Vec<Item<'a>>,
) -> Result<Vec<Vec<Item<'a>>>, AllocError>
    ensures { IfOk result (λ rs. map (λ r. items_seen r.items) rs.items ≡ runs count (items_seen items.entry.items)) }
{
    let mut runs = Vec::new(alloc);
    let mut run = Vec::new(alloc);
    'items: for item in items {
        if !goes_on(count, run.as_slice(), &item) {
            runs.push(mem::replace(&mut run, Vec::new(alloc)))?;
        }
        run.push(item)?;
    }
    runs.push(run)?;
    Ok(runs)
}
