//! What became of the items of a body, told of one after another.
ghost use Rattle.std.specs.Prelude.{◌≡◌, ℕ, ◌+◌, ◌-◌, ◌<◌, ◌≤◌, ◌^◌, min, true, List, option_map, option_copied, slice_get};
ghost use Rattle.rdl_marks.specs.Marks.{no_firsts};
ghost use Rattle.rdl_marks.specs.View.{firsts_of, piece_traces, in_order, told, marks_of};
ghost use Rattle.rdl_marks.specs.Was.{trace_of};
ghost use Rattle.rdl_marks.specs.declared.marks.Gone.{Gone};
ghost use Rattle.rdl_marks.specs.declared.marks.Piece.{Piece};
ghost use Rattle.rdl_renew.specs.Along.{next_of, AreSame, AreAsTheyWere, HasPassed, HasNumber, AreUntouched};
ghost use Rattle.rdl_renew.specs.InPlace.{IsInPlace};

use crate::raise::len;
use rdl_marks::marks::{BodyMarks, Mark, Piece, Pieces};

/// What became of an item.
#[derive(Clone, Copy)]
pub(crate) enum Next<'m, 'a> {
    /// It wasn't there before.
    New,
    /// It is as it was, and had this number.
    Same(usize),
    /// It had this number, and this became of it.
    Marked(usize, &'m Mark<'a>),
}

/// Items that are as they were, one after the other: the number that the first one had, and how many they are.
#[derive(Clone, Copy)]
pub(crate) struct Stretch {
    pub from: usize,
    pub count: usize,
}

impl Stretch {
    /// The first ones of them, as many as these at most.
    pub(crate) fn within(self, most: usize) -> Stretch
        ensures { result ≡ record self { count = min self.count most } }
    {
        Stretch {
            from: self.from,
            count: self.count.min(most),
        }
    }
}

/// How far somebody has come along the items of pieces: so many pieces are behind, and so many items of the next one.
#[derive(Clone, Copy)]
pub(crate) struct Along {
    pieces: usize,
    items: usize,
    /// The first items of the next piece, or of those behind all pieces, as far as they are as they were.
    same: Stretch,
}

/// The first items of a piece, or of those behind all pieces from this number on, as far as they are as they were.
fn same_of(piece: Option<&Piece>, behind: usize) -> Stretch
    ensures { AreSame (option_copied piece.entry) behind result }
{
    match piece {
        Some(piece) => match piece {
            Piece::Kept(from, to) => Stretch {
                from: *from,
                count: to.saturating_sub(*from),
            },
            Piece::New(_) => Stretch { from: 0, count: 0 },
            Piece::Marked(_, _) => Stretch { from: 0, count: 0 },
        },
        None => Stretch {
            from: behind,
            count: usize::MAX,
        },
    }
}

/// What became of the item of a piece that has this number there.
fn item_of<'m, 'a>(piece: &'m Piece<'a>, number: usize) -> Option<Next<'m, 'a>>
    ensures { option_map next_of result ≡ slice_get (piece_traces piece.now) number }
{
    match piece {
        Piece::New(count) => {
            if number < *count {
                Some(Next::New)
            } else {
                None
            }
        }
        Piece::Kept(from, to) => {
            if number < to.saturating_sub(*from) {
                Some(Next::Same(*from + number))
            } else {
                None
            }
        }
        Piece::Marked(before, mark) => {
            if number == 0 {
                Some(Next::Marked(*before, mark))
            } else {
                None
            }
        }
    }
}

/// Whether no part of the item was exchanged, and it wasn't moved.
fn has_no_firsts(mark: &Mark) -> bool
    ensures { result ≡ true → firsts_of mark.now ≡ no_firsts }
{
    mark.shell.is_none()
        && mark.defined.is_none()
        && mark.type_name.is_none()
        && mark.value.is_none()
        && mark.target.is_none()
        && !mark.is_moved
}

/// Whether an item of which this became is the old one of this number but for what is inside it.
pub(crate) fn is_in_place(next: Next, number: usize) -> bool
    ensures { result ≡ true → IsInPlace number (next_of next.entry) }
{
    match next {
        Next::New => false,
        Next::Same(old) => old == number,
        Next::Marked(old, mark) => old == number && has_no_firsts(mark),
    }
}

/// How many of the first items of a body are as they were, and stand where they stood. Where it is the greatest `usize`, all do.
pub(crate) fn untouched(marks: &BodyMarks) -> usize
    ensures { AreUntouched marks.now result }
{
    match marks.pieces.get(0) {
        Some(piece) => match piece {
            Piece::Kept(from, to) => { if *from == 0 { *to } else { 0 } }
            Piece::New(_) => 0,
            Piece::Marked(_, _) => 0,
        },
        None => { if marks.behind == 0 { usize::MAX } else { 0 } }
    }
}

impl Along {
    /// Before the first item.
    pub(crate) fn new(pieces: &Pieces, behind: usize) -> Along
        ensures { HasPassed (in_order pieces.now) behind result 0 }
    {
        Along {
            pieces: 0,
            items: 0,
            same: same_of(pieces.get(0), behind),
        }
    }

    /// Goes on to the next piece of which an item is left.
    fn go_on(&mut self, pieces: &Pieces, behind: usize)
        ensures { (i : ℕ) → HasPassed (in_order pieces.now) behind self.old i → HasPassed (in_order pieces.now) behind self.new i }
    {
        if self.items < self.same.count {
            return;
        }
        while let Some(piece) = pieces.get(self.pieces) {
            if self.items < len(piece) {
                return;
            }
            self.pieces += 1;
            self.items = 0;
            self.same = same_of(pieces.get(self.pieces), behind);
        }
    }

    /// The next items, as far as it is known that they are as they were. None is passed.
    pub(crate) fn stretch(&mut self, pieces: &Pieces, behind: usize) -> Stretch
        ensures passed { (i : ℕ) → HasPassed (in_order pieces.now) behind self.old i → HasPassed (in_order pieces.now) behind self.new i }
        ensures told { (gone : List Gone) (i : ℕ) → HasPassed (in_order pieces.now) behind self.old i → HasNumber (marks_of (told (in_order pieces.now) behind gone)) i → AreAsTheyWere (marks_of (told (in_order pieces.now) behind gone)) i result }
        ensures left { result.count ≡ self.new.same.count - self.new.items }
    {
        self.go_on(pieces, behind);
        Stretch {
            from: self.same.from.saturating_add(self.items),
            count: self.same.count.saturating_sub(self.items),
        }
    }

    /// Passes so many of them.
    pub(crate) fn pass(&mut self, count: usize)
        ensures { (ps : List Piece) (behind i : ℕ) → HasPassed ps behind self.old i → count ≤ self.old.same.count - self.old.items → i + count < 2 ^ 64 → HasPassed ps behind self.new (i + count) }
    {
        self.items = self.items.saturating_add(count);
    }

    /// What became of the next item. Behind the pieces all items are as they were, from the number `behind` on.
    #[inline]
    pub(crate) fn next<'m, 'a>(&mut self, pieces: &'m Pieces<'a>, behind: usize) -> Next<'m, 'a>
        ensures passed { (i : ℕ) → i + 1 < 2 ^ 64 → HasPassed (in_order pieces.now) behind self.old i → HasPassed (in_order pieces.now) behind self.new (i + 1) }
        ensures next { (gone : List Gone) (i : ℕ) → HasPassed (in_order pieces.now) behind self.old i → HasNumber (marks_of (told (in_order pieces.now) behind gone)) i → trace_of (marks_of (told (in_order pieces.now) behind gone)) i ≡ Some (next_of result) }
    {
        if self.items < self.same.count {
            let number = self.same.from.saturating_add(self.items);
            self.items += 1;
            return Next::Same(number);
        }
        self.next_other(pieces, behind)
    }

    /// The same where it isn't known that the next item is as it was.
    #[inline(never)]
    fn next_other<'m, 'a>(&mut self, pieces: &'m Pieces<'a>, behind: usize) -> Next<'m, 'a>
        ensures passed { (i : ℕ) → i + 1 < 2 ^ 64 → HasPassed (in_order pieces.now) behind self.old i → HasPassed (in_order pieces.now) behind self.new (i + 1) }
        ensures next { (gone : List Gone) (i : ℕ) → HasPassed (in_order pieces.now) behind self.old i → HasNumber (marks_of (told (in_order pieces.now) behind gone)) i → trace_of (marks_of (told (in_order pieces.now) behind gone)) i ≡ Some (next_of result) }
    {
        while let Some(piece) = pieces.get(self.pieces) {
            if let Some(next) = item_of(piece, self.items) {
                self.items = self.items.saturating_add(1);
                return next;
            }
            self.pieces += 1;
            self.items = 0;
            self.same = same_of(pieces.get(self.pieces), behind);
        }
        let number = behind.saturating_add(self.items);
        self.items = self.items.saturating_add(1);
        Next::Same(number)
    }
}
