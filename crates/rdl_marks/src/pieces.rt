//! Pieces, cut where a patch changes something.
ghost use Rattle.std.specs.Prelude.{◌≡◌, ◌+◌, ◌-◌, ◌^◌, ◌<◌, ◌≤◌, [], ◌∷◌, ◌++◌, length, IfOk, IfErr, IfSome, IsTrue, None, false, if◌then◌else◌, slice_get, option_copied};
ghost use Rattle.rdl_marks.specs.View.{new_item, same_item, run, piece_traces, pieces_traces, in_order, IsCounted};
ghost use Rattle.rdl_marks.specs.Cut.{traces_before, traces_behind, traces_in, rest_traces, IsSingle, the_trace, Reaches};

use crate::marks::{Mark, Piece, Pieces};
use std::alloc::{AllocError, Global};

fn len(piece: &Piece) -> usize
    ensures { result ≡ length (piece_traces piece.now) }
{
    match piece {
        Piece::New(count) => *count,
        Piece::Kept(from, to) => to.saturating_sub(*from),
        Piece::Marked(..) => 1,
    }
}

/// Whether it is one item alone, which has a mark if it was there before.
fn is_single(piece: &Piece) -> bool
    ensures { IsTrue result → IsSingle piece.now }
{
    match piece {
        Piece::New(count) => *count == 1,
        Piece::Kept(..) => false,
        Piece::Marked(..) => true,
    }
}

/// Cuts the piece behind so many items, and gives what was behind the cut.
fn split<'a>(piece: &mut Piece<'a>, offset: usize) -> Piece<'a>
    requires above { 0 < offset }
    requires below { offset < length (piece_traces piece.old) }
    ensures same { piece_traces piece.old ≡ piece_traces piece.new ++ piece_traces result }
    ensures here { length (piece_traces piece.new) ≡ offset }
{
    match piece {
        Piece::New(count) => {
            let rest = *count - offset;
            *count = offset;
            Piece::New(rest)
        }
        Piece::Kept(from, to) => {
            let end = *to;
            let middle = *from + offset;
            *to = middle;
            Piece::Kept(middle, end)
        }
        Piece::Marked(..) => unreachable!(),
    }
}

/// Leaves the first item alone, and gives the others, if there are any. It gets a mark, if it was there before.
fn cut_first<'a>(piece: &mut Piece<'a>, alloc: Global) -> Option<Piece<'a>>
    requires { 0 < length (piece_traces piece.old) }
    ensures same { piece_traces piece.old ≡ piece_traces piece.new ++ rest_traces result }
    ensures alone { IsSingle piece.new }
{
    match piece {
        Piece::New(count) => {
            let left = *count - 1;
            *count = 1;
            Some(Piece::New(left))
        }
        Piece::Kept(from, to) => {
            let end = *to;
            let first = *from;
            *piece = Piece::Marked(first, Mark::none(alloc));
            Some(Piece::Kept(first + 1, end))
        }
        Piece::Marked(..) => None,
    }
}

/// Takes the first item out, if it is one of several as they were, and gives its number.
fn cut_kept(piece: &mut Piece) -> Option<usize>
    ensures some { IfSome result (λ first. piece_traces piece.old ≡ same_item first ∷ piece_traces piece.new) }
    ensures none { result ≡ None → piece.new ≡ piece.old }
{
    match piece {
        Piece::Kept(from, to) if *from < *to => {
            let first = *from;
            *from = first + 1;
            Some(first)
        }
        _ => None,
    }
}

/// Adds one to new items, and says whether it did.
fn grow(piece: &mut Piece) -> bool
    ensures { piece_traces piece.new ≡ piece_traces piece.old ++ (if result then new_item ∷ [] else []) }
{
    match piece {
        Piece::New(count) => {
            let Some(more) = count.checked_add(1) else {
                return false;
            };
            *count = more;
            true
        }
        Piece::Kept(..) | Piece::Marked(..) => false,
    }
}

/// Adds one to the last piece, if it is one of new items, and says whether it did.
fn grow_last(front: &mut Vec<Piece>) -> bool
    ensures { pieces_traces front.new.items ≡ pieces_traces front.old.items ++ (if result then new_item ∷ [] else []) }
{
    let count = front.len();
    if count == 0 {
        return false;
    }
    grow(&mut front[count - 1])
}

/// Puts a new item behind the last piece.
fn push_new(front: &mut Vec<Piece>) -> Result<(), AllocError>
    ensures put { IfOk result (λ _. pieces_traces front.new.items ≡ pieces_traces front.old.items ++ new_item ∷ []) }
    ensures kept { IfErr result (λ _. pieces_traces front.new.items ≡ pieces_traces front.old.items) }
{
    if grow_last(front) {
        return Ok(());
    }
    front.push(Piece::New(1))?;
    Ok(())
}

/// Puts the rest of a piece before those that stand behind the gap, if it has items.
fn push_rest<'a>(back: &mut Vec<Piece<'a>>, rest: Option<Piece<'a>>) -> Result<(), AllocError>
    ensures { IfOk result (λ _. traces_behind back.new.items ≡ rest_traces rest.entry ++ traces_behind back.old.items) }
{
    let Some(rest) = rest else {
        return Ok(());
    };
    if len(&rest) == 0 {
        return Ok(());
    }
    back.push(rest)?;
    Ok(())
}

/// Takes the next piece from behind the gap. If it has more items than these, the others stay.
fn pop_within<'a>(back: &mut Vec<Piece<'a>>, room: usize) -> Result<Option<Piece<'a>>, AllocError>
    requires { 0 < room }
    ensures same { IfOk result (λ piece. traces_behind back.old.items ≡ rest_traces piece ++ traces_behind back.new.items) }
    ensures short { IfOk result (λ piece. length (rest_traces piece) ≤ room) }
    ensures fewer { IfOk result (λ piece. IfSome piece (λ p. length back.new.items < length back.old.items + length (piece_traces p))) }
    ensures none { IfOk result (λ piece. piece ≡ None → back.new.items ≡ []) }
{
    let Some(mut piece) = back.pop() else {
        return Ok(None);
    };
    if room < len(&piece) {
        let rest = split(&mut piece, room);
        back.push(rest)?;
    }
    Ok(Some(piece))
}

/// Takes the next piece from behind the gap that has items.
fn pop_some<'a>(back: &mut Vec<Piece<'a>>) -> Option<Piece<'a>>
    ensures same { traces_behind back.old.items ≡ rest_traces result ++ traces_behind back.new.items }
    ensures some { IfSome result (λ piece. 0 < length (piece_traces piece)) }
    ensures none { result ≡ None → back.new.items ≡ [] }
{
    while let Some(piece) = back.pop() {
        if len(&piece) > 0 {
            return Some(piece);
        }
    }
    None
}

/// Takes the next item from behind the gap, if it is one of a piece of items as they were, and gives its number.
fn pop_kept(back: &mut Vec<Piece>) -> Option<usize>
    ensures some { IfSome result (λ first. traces_behind back.old.items ≡ same_item first ∷ traces_behind back.new.items) }
    ensures none { result ≡ None → back.new.items ≡ back.old.items }
{
    let count = back.len();
    if count == 0 {
        return None;
    }
    let first = cut_kept(&mut back[count - 1])?;
    if len(&back[count - 1]) == 0 {
        back.pop();
    }
    Some(first)
}

/// Takes the next item from behind the gap.
fn pop_first<'a>(back: &mut Vec<Piece<'a>>, alloc: Global) -> Result<Option<Piece<'a>>, AllocError>
    ensures same { IfOk result (λ piece. traces_behind back.old.items ≡ rest_traces piece ++ traces_behind back.new.items) }
    ensures alone { IfOk result (λ piece. IfSome piece IsSingle) }
    ensures none { IfOk result (λ piece. piece ≡ None → back.new.items ≡ []) }
{
    let Some(mut piece) = pop_some(back) else {
        return Ok(None);
    };
    let rest = cut_first(&mut piece, alloc);
    push_rest(back, rest)?;
    Ok(Some(piece))
}

/// The first item of those that stood in the body from a number on.
fn pop_behind<'a>(behind: &mut usize, alloc: Global) -> Result<Piece<'a>, AllocError>
    ensures told { IfOk result (λ piece. piece_traces piece ≡ run behind.old 1) }
    ensures alone { IfOk result (λ piece. IsSingle piece) }
    ensures more { IfOk result (λ _. behind.new ≡ behind.old + 1) }
{
    let Some(end) = behind.checked_add(1) else {
        return Err(AllocError);
    };
    let piece = Piece::Marked(*behind, Mark::none(alloc));
    *behind = end;
    Ok(piece)
}

impl<'a> Pieces<'a> {
    /// No pieces.
    pub(crate) fn new(alloc: Global) -> Pieces<'a>
        ensures none { in_order result ≡ [] }
        ensures counted { IsCounted result }
    {
        Pieces {
            front: Vec::new(alloc),
            back: Vec::new(alloc),
            before: 0,
        }
    }

    /// The piece that stands behind so many others.
    pub fn get(&self, place: usize) -> Option<&Piece<'a>>
        ensures piece { option_copied result ≡ slice_get (in_order self.now) place }
        ensures fits { IfSome result (λ _. place + 1 < 2 ^ 64) }
    {
        let count = self.front.len();
        if place < count {
            return Some(&self.front[place]);
        }
        let back = self.back.as_slice();
        if place - count < back.len() {
            Some(&back[back.len() - 1 - (place - count)])
        } else {
            None
        }
    }

    /// Puts a piece before the gap.
    pub(crate) fn put(&mut self, piece: Piece<'a>) -> Result<(), AllocError>
        requires { IsCounted self.old }
        ensures counted { IsCounted self.new }
        ensures before { IfOk result (λ _. traces_before self.new ≡ traces_before self.old ++ piece_traces piece.entry) }
        ensures count { IfOk result (λ _. self.new.before ≡ self.old.before + length (piece_traces piece.entry)) }
        ensures behind { self.new.back ≡ self.old.back }
        ensures last { IfOk result (λ _. self.new.front.items ≡ self.old.front.items ++ piece.entry ∷ []) }
    {
        let Some(before) = self.before.checked_add(len(&piece)) else {
            return Err(AllocError);
        };
        self.front.push(piece)?;
        self.before = before;
        Ok(())
    }

    /// Brings the gap back into the last piece before it, if so many items stand before it then, and says whether it did.
    fn cut_back(&mut self, number: usize) -> Result<bool, AllocError>
        requires counted { IsCounted self.old }
        requires far { number < self.old.before }
        ensures counted { IsCounted self.new }
        ensures same { IfOk result (λ _. traces_in self.new ≡ traces_in self.old) }
        ensures cut { IfOk result (λ is_cut. IsTrue is_cut → self.new.before ≡ number) }
        ensures whole { IfOk result (λ is_cut. is_cut ≡ false → self.new ≡ self.old) }
    {
        let count = self.front.len();
        if count == 0 {
            return Ok(false);
        }
        let start = self.before - len(&self.front[count - 1]);
        if number <= start {
            return Ok(false);
        }
        let rest = split(&mut self.front[count - 1], number - start);
        self.before = number;
        self.back.push(rest)?;
        Ok(true)
    }

    /// Brings the gap back, until no more items than these stand before it.
    fn go_back(&mut self, number: usize) -> Result<(), AllocError>
        requires { IsCounted self.old }
        ensures counted { IsCounted self.new }
        ensures same { IfOk result (λ _. traces_in self.new ≡ traces_in self.old) }
        ensures far { IfOk result (λ _. self.new.before ≤ number) }
    {
        while self.before > number {
            if self.cut_back(number)? {
                return Ok(());
            }
            let Some(piece) = self.front.pop() else {
                return Ok(());
            };
            self.before -= len(&piece);
            self.back.push(piece)?;
        }
        Ok(())
    }

    /// Brings the gap on, until so many items stand before it, or all pieces do.
    fn go_on(&mut self, number: usize) -> Result<(), AllocError>
        requires counted { IsCounted self.old }
        requires far { self.old.before ≤ number }
        ensures counted { IsCounted self.new }
        ensures same { IfOk result (λ _. traces_in self.new ≡ traces_in self.old) }
        ensures far { IfOk result (λ _. self.new.before ≤ number) }
        ensures all { IfOk result (λ _. self.new.before < number → self.new.back.items ≡ []) }
    {
        while self.before < number {
            let Some(piece) = pop_within(&mut self.back, number - self.before)? else {
                return Ok(());
            };
            self.put(piece)?;
        }
        Ok(())
    }

    /// Puts as many of those that stood in the body from a number on before the gap as there are missing.
    fn extend(&mut self, behind: &mut usize, number: usize) -> Result<(), AllocError>
        requires counted { IsCounted self.old }
        requires far { self.old.before ≤ number }
        requires all { self.old.before < number → self.old.back.items ≡ [] }
        ensures counted { IsCounted self.new }
        ensures reaches { IfOk result (λ _. Reaches (traces_in self.old) behind.old (traces_in self.new) behind.new number) }
        ensures begins { IfOk result (λ _. self.new.before ≡ number) }
    {
        if self.before == number {
            return Ok(());
        }
        let Some(end) = behind.checked_add(number - self.before) else {
            return Err(AllocError);
        };
        self.put(Piece::Kept(*behind, end))?;
        *behind = end;
        Ok(())
    }

    /// Brings the gap before the item of this number.
    pub(crate) fn go_to(&mut self, behind: &mut usize, number: usize) -> Result<(), AllocError>
        requires { IsCounted self.old }
        ensures counted { IsCounted self.new }
        ensures reaches { IfOk result (λ _. Reaches (traces_in self.old) behind.old (traces_in self.new) behind.new number) }
        ensures begins { IfOk result (λ _. self.new.before ≡ number) }
    {
        if self.before == number {
            return Ok(());
        }
        self.go_back(number)?;
        self.go_on(number)?;
        self.extend(behind, number)
    }

    /// Takes the item of this number out, a piece by itself, which has a mark if it was there before. The gap is in its place.
    pub(crate) fn take(
        &mut self,
        behind: &mut usize,
        alloc: Global,
        number: usize,
    ) -> Result<Piece<'a>, AllocError>
        requires { IsCounted self.old }
        ensures counted { IsCounted self.new }
        ensures reaches { IfOk result (λ piece. Reaches (traces_in self.old) behind.old (traces_before self.new ++ the_trace piece ∷ traces_behind self.new.back.items) behind.new (number + 1)) }
        ensures begins { IfOk result (λ _. self.new.before ≡ number) }
        ensures alone { IfOk result (λ piece. IsSingle piece) }
    {
        self.go_to(behind, number)?;
        match pop_first(&mut self.back, alloc)? {
            Some(piece) => Ok(piece),
            None => {
                let piece = pop_behind(behind, alloc)?;
                Ok(piece)
            }
        }
    }

    /// Whether the item of this number is the last one before the gap, and a piece by itself.
    fn holds(&self, number: usize) -> bool
        ensures begins { IsTrue result → self.now.before ≡ number + 1 }
        ensures some { IsTrue result → 0 < length self.now.front.items }
        ensures alone { IsTrue result → IfSome (slice_get self.now.front.items (length self.now.front.items - 1)) IsSingle }
    {
        let count = self.front.len();
        if count == 0 || self.before <= number || self.before - number != 1 {
            return false;
        }
        is_single(&self.front[count - 1])
    }

    /// Puts the item that had this number before the gap, with a mark.
    fn put_marked(&mut self, alloc: Global, number: usize) -> Result<(), AllocError>
        requires { IsCounted self.old }
        ensures counted { IsCounted self.new }
        ensures before { IfOk result (λ _. traces_before self.new ≡ traces_before self.old ++ same_item number ∷ []) }
        ensures count { IfOk result (λ _. self.new.before ≡ self.old.before + 1) }
        ensures behind { self.new.back ≡ self.old.back }
        ensures some { IfOk result (λ _. 0 < length self.new.front.items) }
        ensures alone { IfOk result (λ _. IfSome (slice_get self.new.front.items (length self.new.front.items - 1)) IsSingle) }
    {
        let Some(before) = self.before.checked_add(1) else {
            return Err(AllocError);
        };
        self.front.push(Piece::Marked(number, Mark::none(alloc)))?;
        self.before = before;
        Ok(())
    }

    /// Puts the first one of those that stood in the body from a number on before the gap, with a mark.
    fn put_behind(&mut self, behind: &mut usize, alloc: Global) -> Result<(), AllocError>
        requires { IsCounted self.old }
        ensures counted { IsCounted self.new }
        ensures before { IfOk result (λ _. traces_before self.new ≡ traces_before self.old ++ run behind.old 1) }
        ensures count { IfOk result (λ _. self.new.before ≡ self.old.before + 1) }
        ensures behind { self.new.back ≡ self.old.back }
        ensures more { IfOk result (λ _. behind.new ≡ behind.old + 1) }
        ensures some { IfOk result (λ _. 0 < length self.new.front.items) }
        ensures alone { IfOk result (λ _. IfSome (slice_get self.new.front.items (length self.new.front.items - 1)) IsSingle) }
    {
        let Some(end) = behind.checked_add(1) else {
            return Err(AllocError);
        };
        self.put_marked(alloc, *behind)?;
        *behind = end;
        Ok(())
    }

    /// Makes the item of this number the last one before the gap, and a piece by itself, which has a mark if it was there before.
    pub(crate) fn hold(
        &mut self,
        behind: &mut usize,
        alloc: Global,
        number: usize,
    ) -> Result<(), AllocError>
        requires { IsCounted self.old }
        ensures counted { IsCounted self.new }
        ensures reaches { IfOk result (λ _. Reaches (traces_in self.old) behind.old (traces_in self.new) behind.new (number + 1)) }
        ensures begins { IfOk result (λ _. self.new.before ≡ number + 1) }
        ensures some { IfOk result (λ _. 0 < length self.new.front.items) }
        ensures alone { IfOk result (λ _. IfSome (slice_get self.new.front.items (length self.new.front.items - 1)) IsSingle) }
    {
        if self.holds(number) {
            return Ok(());
        }
        self.go_to(behind, number)?;
        if self.back.is_empty() {
            self.put_behind(behind, alloc)?;
            return Ok(());
        }
        if let Some(first) = pop_kept(&mut self.back) {
            self.put_marked(alloc, first)?;
            return Ok(());
        }
        match pop_first(&mut self.back, alloc)? {
            Some(piece) => {
                self.put(piece)?;
                Ok(())
            }
            None => {
                self.put_behind(behind, alloc)?;
                Ok(())
            }
        }
    }

    /// Puts a new item before the gap.
    pub(crate) fn put_new(&mut self) -> Result<(), AllocError>
        requires { IsCounted self.old }
        ensures counted { IsCounted self.new }
        ensures before { IfOk result (λ _. traces_before self.new ≡ traces_before self.old ++ new_item ∷ []) }
        ensures behind { self.new.back ≡ self.old.back }
    {
        let Some(before) = self.before.checked_add(1) else {
            return Err(AllocError);
        };
        push_new(&mut self.front)?;
        self.before = before;
        Ok(())
    }
}
