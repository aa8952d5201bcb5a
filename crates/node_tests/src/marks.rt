//! What became of a body of some items, by the patches that lead back.
use crate::assert_same;
use rdl_marks::marks::{BodyMarks, Gone, Mark, Piece};
use rdl_text::name::Name;
use rdl_tree::address::Address;
use rdl_tree::description::Item;
use rdl_tree::patch::Patch;
use rdl_tree::patch_address::PatchAddress;
use rdl_tree::value::Value;
use std::alloc::{AllocError, Global};
use std::test::Fail;

/// The place of item `number` of the root, or of item `inner` inside it.
fn place(alloc: Global, number: usize, inner: Option<usize>) -> Result<PatchAddress, AllocError> {
    let mut address = Address::new();
    address.push(number);
    if let Some(inner) = inner {
        address.push(inner);
    }
    PatchAddress::new(alloc, &address)
}

fn push_mark(text: &mut String, number: usize, mark: &Mark) -> Result<(), AllocError> {
    let moved = if mark.is_moved { "!" } else { "" };
    let inside = if mark.inside.pieces.get(0).is_none() {
        ""
    } else {
        "*"
    };
    write!(text, "{number}{moved}{inside} ")
}

fn push_piece(text: &mut String, piece: &Piece) -> Result<(), AllocError> {
    match piece {
        Piece::New(count) => write!(text, "new*{count} "),
        Piece::Kept(from, to) => write!(text, "{from}..{to} "),
        Piece::Marked(number, mark) => push_mark(text, *number, mark),
    }
}

fn push_gone(text: &mut String, gone: &[Gone]) -> Result<(), AllocError> {
    for one in gone {
        write!(text, ", gone {}", one.number)?;
    }
    Ok(())
}

/// The items from the first one on: those that are new, those that had numbers, with `!` where one was moved and `*` where something
/// was changed inside it, and from which number on all follow.
fn text_of(alloc: Global, marks: &BodyMarks) -> Result<String, AllocError> {
    let mut text = String::new(alloc);
    for place in 0..usize::MAX {
        let Some(piece) = marks.pieces.get(place) else {
            break;
        };
        push_piece(&mut text, piece)?;
    }
    let behind = marks.behind;
    write!(text, "from {behind}")?;
    push_gone(&mut text, marks.gone.as_slice())?;
    Ok(text)
}

/// What is noted of these patches, one after another, each of which takes one back.
fn noted(alloc: Global, backs: &[Patch]) -> Result<String, AllocError> {
    let mut marks = BodyMarks::new(alloc);
    for back in backs {
        marks.note(alloc, back)?;
    }
    text_of(alloc, &marks)
}

#[test]
fn an_item_that_came_is_new(rt: HostRuntime) -> Result<(), Fail> {
    let alloc = rt.alloc();
    let back = Patch::Delete(place(alloc, 1, None)?);
    let found = noted(alloc, &[back])?;
    assert_same(
        &rt,
        found.as_str(),
        "0..1 new*1 from 1",
        "an insertion at 1",
    );
    Ok(())
}

#[test]
fn items_that_came_side_by_side_are_one_piece(rt: HostRuntime) -> Result<(), Fail> {
    let alloc = rt.alloc();
    let backs = [
        Patch::Delete(place(alloc, 1, None)?),
        Patch::Delete(place(alloc, 2, None)?),
    ];
    let found = noted(alloc, &backs)?;
    assert_same(
        &rt,
        found.as_str(),
        "0..1 new*2 from 1",
        "insertions at 1 and 2",
    );
    Ok(())
}

#[test]
fn an_item_that_was_moved_is_marked(rt: HostRuntime) -> Result<(), Fail> {
    let alloc = rt.alloc();
    let back = Patch::Shift(place(alloc, 2, None)?, 0);
    let found = noted(alloc, &[back])?;
    assert_same(&rt, found.as_str(), "1..3 0! from 3", "a move from 0 to 2");
    Ok(())
}

#[test]
fn an_item_that_went_is_gone(rt: HostRuntime) -> Result<(), Fail> {
    let alloc = rt.alloc();
    let item = Item::Own(Name::new(alloc, "regwidth")?, Value::Number(8));
    let back = Patch::Insert(place(alloc, 1, None)?, item);
    let found = noted(alloc, &[back])?;
    assert_same(&rt, found.as_str(), "0..1 from 2, gone 1", "a removal of 1");
    Ok(())
}

#[test]
fn a_change_inside_marks_what_holds_it(rt: HostRuntime) -> Result<(), Fail> {
    let alloc = rt.alloc();
    let back = Patch::Delete(place(alloc, 0, Some(3))?);
    let found = noted(alloc, &[back])?;
    assert_same(&rt, found.as_str(), "0* from 1", "an insertion inside 0");
    Ok(())
}
