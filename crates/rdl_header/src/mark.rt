//! Marks: numbers by which names are told apart.
ghost use Rattle.std.specs.Prelude.{◌≡◌, ◌++◌, true, IfOk, OnOk};
ghost use Rattle.std.specs.List.{IsDistinct};
ghost use Rattle.std.specs.List.Sorted.{IsStrictlyIncreasing};
ghost use Rattle.std.specs.Ordering.{nat_cmp, eq_by_cmp};
ghost use Rattle.rdl_header.specs.HeaderText.{path_text};
ghost use Rattle.rdl_header.specs.Marks.{mark, is_narrow, row_marks};
ghost use Rattle.rdl_header.specs.Places.{AreApart};

use crate::bits::width;
use crate::places::doubtful;
use rdl_elab::row::{Location, Row};
use std::alloc::{AllocError, Global};
use std::hash::{DefaultHasher, Hasher};

/// The mark of a text: its digest by SipHash, for which nobody can choose many texts of one mark.
pub(crate) fn mark(text: &[u8]) -> u64
    ensures { result ≡ mark text.now }
{
    let mut hasher = DefaultHasher::new();
    hasher.write(text);
    hasher.finish()
}

/// Whether the row has no number of more than four words.
fn is_narrow(location: &Location) -> bool
    ensures { result ≡ is_narrow location.now }
{
    match location {
        Location::Bytes(_) => true,
        Location::Bits(span) => width(span) <= 128,
    }
}

/// Puts the mark of a row, which has this path, behind the others, twice if the row isn't narrow.
pub(crate) fn push_marks(marks: &mut Vec<u64>, path: &[u8], row: &Row) -> Result<(), AllocError>
    requires { path.now ≡ path_text row.now.names }
    ensures { OnOk result (marks.new.items ≡ marks.old.items ++ row_marks row.now) }
{
    let mark = mark(path);
    marks.push(mark)?;
    if !is_narrow(&row.location) {
        marks.push(mark)?;
    }
    Ok(())
}

/// Whether these marks are known to differ from each other.
pub(crate) fn marks_differ(alloc: Global, marks: &[u64]) -> Result<bool, AllocError>
    ensures { IfOk result (λ differ. differ ≡ true → AreApart marks.now) }
{
    let mut doubtful = doubtful(alloc, marks)?;
    Ok(are_apart(doubtful.as_mut_slice()))
}

/// Whether these marks are known to differ from each other. They are put in order.
fn are_apart(marks: &mut [u64]) -> bool
    ensures { result ≡ true → IsDistinct (eq_by_cmp nat_cmp) marks.old }
{
    marks.sort_unstable();
    is_rising(marks)
}

/// Whether each is greater than the one before it.
fn is_rising(marks: &[u64]) -> bool
    ensures { result ≡ true → IsStrictlyIncreasing marks.now }
{
    'marks: for i in 1..marks.len() {
        if marks[i] <= marks[i - 1] {
            return false;
        }
    }
    true
}
