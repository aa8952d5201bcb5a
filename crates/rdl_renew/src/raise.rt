//! What the changes of a body mean for its items: the alert that they raise before its first item.
ghost use Rattle.std.specs.Prelude.{◌≡◌, ℕ, length, take, drop, map, unwrap_or, option_copied};
ghost use Rattle.rdl_marks.specs.Describes.{restored};
ghost use Rattle.rdl_marks.specs.View.{firsts_of, marked, piece_traces, pieces_traces, in_order, gone_trace, gone_item};
ghost use Rattle.rdl_renew.specs.Raised.{told_of, brings_the_same, item_raises, gone_raises, all_raise, new_raise, raised};
ghost use Rattle.rdl_seen.specs.Names.{class_of};

use rdl_marks::marks::{BodyMarks, Gone, Mark, Piece, Pieces};
use rdl_seen::alert::Alert;
use rdl_seen::names::{Class, NameSet, class_of};
use rdl_seen::property_set::PropertySet;
use rdl_text::name::Name;
use rdl_tree::description::{Body, Item};

/// It tells of what an item brings: its definition, or its default.
fn told_of(item: &Item) -> Alert
    ensures { result ≡ told_of item.now }
{
    match item {
        Item::Define(name, _) => Alert::none().with_types(NameSet::of(class_of(name))),
        Item::Default(property, _) => {
            Alert::none().with_properties(PropertySet::of_name(property))
        }
        Item::Instance(..) | Item::Own(..) | Item::Dynamic(..) => Alert::none(),
    }
}

/// The class of the name that a definition had first, if it has this one now.
fn first_class(mark: &Mark, name: &Name) -> Class
    ensures { result ≡ class_of (unwrap_or (option_copied mark.now.defined) name.now) }
{
    match mark.defined {
        Some(first) => class_of(first),
        None => class_of(name),
    }
}

/// It tells of what an item brought at first that was there before.
fn told_first(mark: &Mark, item: &Item) -> Alert
    ensures { result ≡ told_of (restored (firsts_of mark.now) item.now) }
{
    match item {
        Item::Define(name, _) => Alert::none().with_types(NameSet::of(first_class(mark, name))),
        _ => told_of(item),
    }
}

/// Whether an item that was there before wasn't moved, and neither the name of its definition nor its value was set.
fn brings_the_same(mark: &Mark) -> bool
    ensures { result ≡ brings_the_same (firsts_of mark.now) }
{
    !mark.is_moved && mark.defined.is_none() && mark.value.is_none()
}

/// What an item raises that was there before: nothing, or what it brought and what it brings.
fn marked_raises(mark: &Mark, item: &Item) -> Alert
    ensures { (number : ℕ) → result ≡ item_raises (marked number mark.now) item.now }
{
    if brings_the_same(mark) {
        return Alert::none();
    }
    told_first(mark, item).with(told_of(item))
}

/// What new items raise.
fn new_raise(items: &[Item]) -> Alert
    ensures { result ≡ new_raise items.now }
{
    let mut alert = Alert::none();
    for i in (0..items.len()).rev() {
        alert = told_of(&items[i]).with(alert);
    }
    alert
}

/// What items raise that are gone.
fn gone_raise(gone: &[Gone]) -> Alert
    ensures { result ≡ all_raise gone_raises (map gone_trace gone.now) (map gone_item gone.now) }
{
    let mut alert = Alert::none();
    for i in (0..gone.len()).rev() {
        let one = &gone[i];
        alert = told_first(&one.mark, one.item).with(alert);
    }
    alert
}

/// So many of the items, or all, if there are fewer.
fn front(items: &[Item], count: usize) -> &[Item]
    ensures { result.now ≡ take count items.now }
{
    if count < items.len() {
        &items[..count]
    } else {
        items
    }
}

/// The items behind so many.
fn behind(items: &[Item], count: usize) -> &[Item]
    ensures { result.now ≡ drop count items.now }
{
    if count < items.len() {
        &items[count..]
    } else {
        &items[items.len()..]
    }
}

/// How many items a piece has.
pub(crate) fn len(piece: &Piece) -> usize
    ensures { result ≡ length (piece_traces piece.now) }
{
    match piece {
        Piece::New(count) => *count,
        Piece::Kept(from, to) => to.saturating_sub(*from),
        Piece::Marked(..) => 1,
    }
}

/// What the items of a piece raise, of which these are the first that are left. Items that are as they were aren't looked at.
fn piece_raises(piece: &Piece, items: &[Item]) -> Alert
    ensures { result ≡ all_raise item_raises (piece_traces piece.now) items.now }
{
    match piece {
        Piece::New(count) => new_raise(front(items, *count)),
        Piece::Kept(..) => Alert::none(),
        Piece::Marked(_, mark) => {
            if items.is_empty() {
                Alert::none()
            } else {
                marked_raises(mark, &items[0])
            }
        }
    }
}

/// What the items of pieces raise, of which these are the first.
fn pieces_raise(pieces: &Pieces, items: &[Item]) -> Alert
    ensures { result ≡ all_raise item_raises (pieces_traces (in_order pieces.now)) items.now }
{
    let mut alert = Alert::none();
    let mut rest = items;
    let mut place = 0usize;
    while let Some(piece) = pieces.get(place) {
        alert = alert.with(piece_raises(piece, rest));
        rest = behind(rest, len(piece));
        place += 1;
    }
    alert
}

/// What the changes of a body raise before its first item.
pub fn raised(marks: &BodyMarks, body: &Body) -> Alert
    ensures { result ≡ raised marks.now body.now }
{
    let here = pieces_raise(&marks.pieces, body.as_slice());
    here.with(gone_raise(marks.gone.as_slice()))
}
