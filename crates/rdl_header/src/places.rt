//! Which marks may be there twice: those whose place another mark has as well.
ghost use Rattle.std.specs.Prelude.{◌≡◌, ◌<◌, ◌%◌, length, IfOk};
ghost use Rattle.std.specs.List.{filter};
ghost use Rattle.rdl_header.specs.Places.{AreApart, more, counts_of, is_shared};

use std::alloc::{AllocError, Global};

/// How many places there are for each mark.
const EACH: usize = 4;

/// The place of a mark among so many.
fn place(mark: u64, places: usize) -> usize
    requires { 0 < places }
    ensures is { result ≡ mark % places }
    ensures within { result < places }
{
    (mark % places as u64) as usize
}

/// One more than this, or two for any more.
fn more(count: u16) -> u16
    ensures { result ≡ more count }
{
    if count < 2 { count + 1 } else { count }
}

/// How many of the marks have each of so many places. Two stands for any more.
fn counts_at(alloc: Global, marks: &[u64], places: usize) -> Result<Vec<u16>, AllocError>
    requires { 0 < places }
    ensures counts { IfOk result (λ counts. counts.items ≡ counts_of places marks.now) }
    ensures places { IfOk result (λ counts. length counts.items ≡ places) }
{
    let mut counts = Vec::new(alloc);
    counts.resize(places, 0u16)?;
    'marks: for mark in marks {
        let place = place(*mark, places);
        counts[place] = more(counts[place]);
    }
    Ok(counts)
}

/// Whether another mark may have the place of this one.
fn is_shared(counts: &[u16], mark: u64) -> bool
    requires { 0 < length counts.now }
    ensures { result ≡ is_shared counts.now mark }
{
    counts[place(mark, counts.len())] > 1
}

/// The marks of whose places another may have the same.
fn shared(alloc: Global, marks: &[u64], counts: &[u16]) -> Result<Vec<u64>, AllocError>
    requires { 0 < length counts.now }
    ensures { IfOk result (λ shared. shared.items ≡ filter (is_shared counts.now) marks.now) }
{
    let mut shared = Vec::new(alloc);
    'marks: for mark in marks {
        if is_shared(counts, *mark) {
            shared.push(*mark)?;
        }
    }
    Ok(shared)
}

/// The marks that may be there twice: where these differ from each other, all do.
pub(crate) fn doubtful(alloc: Global, marks: &[u64]) -> Result<Vec<u64>, AllocError>
    ensures { IfOk result (λ doubtful. AreApart doubtful.items → AreApart marks.now) }
{
    let places = marks.len().saturating_mul(EACH).max(1);
    let counts = counts_at(alloc, marks, places)?;
    let doubtful = shared(alloc, marks, counts.as_slice())?;
    Ok(doubtful)
}
