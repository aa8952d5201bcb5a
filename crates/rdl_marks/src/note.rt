//! Patches, noted by those that take them back.
ghost use Rattle.std.specs.Prelude.{◌≡◌, ℕ, List, [], IfOk, IfErr, Some, unwrap_or, option_copied};
ghost use Rattle.rdl_marks.specs.declared.marks.Gone.{Gone};
ghost use Rattle.rdl_marks.specs.declared.marks.Piece.{Piece};
ghost use Rattle.rdl_marks.specs.View.{new_item, in_order, IsCounted, told, firsts_of};
ghost use Rattle.rdl_marks.specs.Cut.{IsSingle, the_trace};
ghost use Rattle.rdl_marks.specs.Noted.{with_first, exchanged, moved, changed_inside, gone_as, noted_here, put_in, reach, at_item, here, marks_at, noted};
ghost use Rattle.rdl_marks.specs.Describes.{KeepsDescribing};
ghost use Rattle.rdl_tree.specs.declared.patch.Patch.TheVariants.{Insert, Shift};

use crate::marks::{BodyMarks, Gone, Mark, Piece, Pieces};
use rdl_tree::description::Item;
use rdl_tree::part::Part;
use rdl_tree::patch::Patch;
use std::alloc::{AllocError, Global};

/// Notes what stood there, unless something is noted that stood there before.
fn keep_first<'a, T>(first: &mut Option<&'a T>, old: &'a T)
    ensures { option_copied first.new ≡ Some (unwrap_or (option_copied first.old) old.now) }
{
    if first.is_none() {
        *first = Some(old);
    }
}

impl<'a> Mark<'a> {
    fn exchange(&mut self, old: &'a Part)
        ensures firsts { firsts_of self.new ≡ with_first old.now (firsts_of self.old) }
        ensures inside { self.new.inside ≡ self.old.inside }
    {
        match old {
            Part::OfShell(shell) => keep_first(&mut self.shell, shell),
            Part::OfDefine(name) => keep_first(&mut self.defined, name),
            Part::OfType(name) => keep_first(&mut self.type_name, name),
            Part::OfValue(value) => keep_first(&mut self.value, value),
            Part::OfTarget(target) => keep_first(&mut self.target, target),
        }
    }
}

/// Notes that the item got another part.
fn note_part<'a>(piece: &mut Piece<'a>, old: &'a Part)
    requires { IsSingle piece.old }
    ensures trace { the_trace piece.new ≡ exchanged old.now (the_trace piece.old) }
    ensures alone { IsSingle piece.new }
{
    if let Piece::Marked(_, mark) = piece {
        mark.exchange(old);
    }
}

/// Notes that the item was moved.
fn note_moved(piece: &mut Piece)
    requires { IsSingle piece.old }
    ensures trace { the_trace piece.new ≡ moved (the_trace piece.old) }
    ensures alone { IsSingle piece.new }
{
    if let Piece::Marked(_, mark) = piece {
        mark.is_moved = true;
    }
}

fn note_insert(pieces: &mut Pieces, behind: &mut usize, number: usize) -> Result<(), AllocError>
    requires { IsCounted pieces.old }
    ensures counted { IsCounted pieces.new }
    ensures told { IfOk result (λ _. (gone : List Gone) → told (in_order pieces.new) behind.new gone ≡ put_in number new_item (reach number (told (in_order pieces.old) behind.old gone))) }
{
    pieces.go_to(behind, number)?;
    pieces.put_new()?;
    Ok(())
}

/// Notes that the piece's item went, as this one.
fn note_gone<'a>(
    gone: &mut Vec<Gone<'a>>,
    piece: Piece<'a>,
    item: &'a Item,
) -> Result<(), AllocError>
    requires { IsSingle piece }
    ensures { IfOk result (λ _. (pieces : List Piece) (behind : ℕ) → told pieces behind gone.new.items ≡ gone_as item.now (the_trace piece.entry) (told pieces behind gone.old.items)) }
{
    if let Piece::Marked(number, mark) = piece {
        gone.push(Gone { item, number, mark })?;
    }
    Ok(())
}

fn note_delete<'a>(
    pieces: &mut Pieces<'a>,
    behind: &mut usize,
    gone: &mut Vec<Gone<'a>>,
    alloc: Global,
    number: usize,
    item: &'a Item,
) -> Result<(), AllocError>
    requires { IsCounted pieces.old }
    ensures counted { IsCounted pieces.new }
    ensures told { IfOk result (λ _. told (in_order pieces.new) behind.new gone.new.items ≡ noted_here (Insert [] item.now) number (told (in_order pieces.old) behind.old gone.old.items)) }
{
    let piece = pieces.take(behind, alloc, number)?;
    note_gone(gone, piece, item)?;
    Ok(())
}

fn note_shift<'a>(
    pieces: &mut Pieces<'a>,
    behind: &mut usize,
    alloc: Global,
    from: usize,
    to: usize,
) -> Result<(), AllocError>
    requires { IsCounted pieces.old }
    ensures counted { IsCounted pieces.new }
    ensures told { IfOk result (λ _. (gone : List Gone) → told (in_order pieces.new) behind.new gone ≡ noted_here (Shift [] from) to (told (in_order pieces.old) behind.old gone)) }
{
    let mut piece = pieces.take(behind, alloc, from)?;
    note_moved(&mut piece);
    pieces.go_to(behind, to)?;
    pieces.put(piece)?;
    Ok(())
}

fn note_exchange<'a>(
    pieces: &mut Pieces<'a>,
    behind: &mut usize,
    alloc: Global,
    number: usize,
    old: &'a Part,
) -> Result<(), AllocError>
    requires { IsCounted pieces.old }
    ensures counted { IsCounted pieces.new }
    ensures told { IfOk result (λ _. (gone : List Gone) → told (in_order pieces.new) behind.new gone ≡ at_item number (exchanged old.now) (told (in_order pieces.old) behind.old gone)) }
{
    pieces.hold(behind, alloc, number)?;
    let last = pieces.front.len() - 1;
    note_part(&mut pieces.front[last], old);
    Ok(())
}

/// Notes it of the item of this number in this body.
fn note_here<'a>(
    pieces: &mut Pieces<'a>,
    behind: &mut usize,
    gone: &mut Vec<Gone<'a>>,
    alloc: Global,
    number: usize,
    back: &'a Patch,
) -> Result<(), AllocError>
    requires { IsCounted pieces.old }
    ensures counted { IsCounted pieces.new }
    ensures told { IfOk result (λ _. told (in_order pieces.new) behind.new gone.new.items ≡ noted_here back.now number (told (in_order pieces.old) behind.old gone.old.items)) }
{
    match back {
        Patch::Delete(_) => note_insert(pieces, behind, number),
        Patch::Insert(_, item) => note_delete(pieces, behind, gone, alloc, number, item),
        Patch::Shift(_, from) => note_shift(pieces, behind, alloc, *from, number),
        Patch::Exchange(_, old) => note_exchange(pieces, behind, alloc, number, old),
    }
}

impl<'a> BodyMarks<'a> {
    /// Notes what a patch did, of which this one takes it back.
    pub fn note(&mut self, alloc: Global, back: &'a Patch) -> Result<(), AllocError>
        ensures noted { IfOk result (λ _. self.new ≡ noted back.now self.old) }
        ensures describes { IfOk result (λ _. KeepsDescribing back.now self.old self.new) }
    {
        let address = back.address();
        if address.is_empty() {
            return Ok(());
        }
        let holder = address.holder();
        self.note_at(alloc, holder.as_slice(), address.number(), back)?;
        Ok(())
    }

    /// Notes it of the item of this number in the body at the end of the way.
    #[cycle(note)]
    fn note_at(
        &mut self,
        alloc: Global,
        way: &[usize],
        number: usize,
        back: &'a Patch,
    ) -> Result<(), AllocError>
        ensures { IfOk result (λ _. self.new ≡ marks_at way.now (here back.now number) self.old) }
    {
        match way {
            [] => {
                let pieces = &mut self.pieces;
                note_here(
                    pieces,
                    &mut self.behind,
                    &mut self.gone,
                    alloc,
                    number,
                    back,
                )?;
                Ok(())
            }
            [first, rest @ ..] => {
                self.pieces.hold(&mut self.behind, alloc, *first)?;
                let last = self.pieces.front.len() - 1;
                note_inside(&mut self.pieces.front[last], alloc, rest, number, back)?;
                Ok(())
            }
        }
    }
}

/// Notes it inside the item of a piece.
#[cycle(note)]
fn note_inside<'a>(
    piece: &mut Piece<'a>,
    alloc: Global,
    way: &[usize],
    number: usize,
    back: &'a Patch,
) -> Result<(), AllocError>
    requires { IsSingle piece.old }
    ensures trace { IfOk result (λ _. the_trace piece.new ≡ changed_inside (marks_at way.now (here back.now number)) (the_trace piece.old)) }
    ensures alone { IfOk result (λ _. IsSingle piece.new) }
    ensures still { IfErr result (λ _. IsSingle piece.new) }
{
    match piece {
        Piece::Marked(_, mark) => {
            mark.inside.note_at(alloc, way, number, back)?;
            Ok(())
        }
        _ => Ok(()),
    }
}
