//! What a map holds of its components: how many instances a step places anew, and what is lent.
use crate::assert_holds;
use crate::history::{is_made, opened};
use crate::tree::address;
use journal_core::journal::Journal;
use rdl_edit::map::Map;
use rdl_nodes::layouts::Layout;
use rdl_seen::mode::Mode;
use std::alloc::{AllocError, Global};
use std::process::Abort;
use std::test::Fail;

/// A register file of a thousand registers, another one of one register that is written so, and both in one map.
fn two_files(alloc: Global, second: &str) -> Result<String, AllocError> {
    let mut text = String::from_str(alloc, "regfile A { reg R { field {} f; };\n")?;
    for i in 0..1000u32 {
        write!(text, "R r{i};\n")?;
    }
    write!(
        text,
        "}};\nregfile B {{ reg {{ field {{}} f; }} {second}; }};\naddrmap top {{ A a; B b; }};\n"
    )?;
    Ok(text)
}

/// How many instances are placed at first, each once for each mode: the fields of the two registers, the thousand registers and the
/// one, and the two register files.
const AT_FIRST: u64 = 3_015;

/// Lines of a script, and how many instances each places anew, once for each mode: those of each component of which the instances, or
/// what they say of their places, aren't what they were.
const STEPS: [(&str, u64); 21] = [
    // the register of `B`, and both register files, as `B` is larger
    ("resize /$B/x [2]", 9),
    ("undo", 9),
    ("redo", 9),
    ("rename /$B/x y", 0),
    ("undo", 0),
    ("redo", 0),
    ("assign /$top b.y.f reset 1", 0),
    ("undo", 0),
    ("redo", 0),
    // no layout depends on what software may do
    ("assign /$top b.y.f sw r", 0),
    ("set /$B name \"second\"", 0),
    ("reset /$B/y/f 1", 0),
    // the field of the new register, both registers, and both register files
    ("add /$B last reg { field {} g; } z;", 15),
    ("undo", 9),
    ("redo", 15),
    // `fullalign` leaves a gap between them then
    ("move /$B/z first", 15),
    // both registers are wider, so their fields are placed anew, too
    ("default /$B regwidth 64", 18),
    ("undo", 18),
    ("remove /$B/z", 9),
    ("undo", 15),
    ("move /$B/z last", 15),
];

fn placed_by(alloc: Global, journal: &mut Journal<Map>, line: &str) -> Result<u64, Fail> {
    if is_made(alloc, journal, line)? {
        Ok(journal.map().placed())
    } else {
        Err(Fail::new("is refused"))
    }
}

fn steps() -> &'static [(&'static str, u64)] {
    &STEPS
}

fn assert_each_places(
    rt: &impl Abort,
    alloc: Global,
    journal: &mut Journal<Map>,
    steps: &[(&str, u64)],
) -> Result<(), Fail> {
    for (line, count) in steps {
        assert_holds(rt, placed_by(alloc, journal, line)? == *count, line);
    }
    Ok(())
}

// where everything is placed it is over three thousand
#[test]
fn steps_place_what_they_reach(rt: HostRuntime) -> Result<(), Fail> {
    let text = two_files(rt.alloc(), "x")?;
    let mut journal = opened(rt.alloc(), text.as_str(), 100)?;
    assert_holds(&rt, journal.map().placed() == AT_FIRST, "the opening");
    assert_each_places(&rt, rt.alloc(), &mut journal, steps())
}

/// The layout has this size, and its instances begin there.
fn is_laid_out(layout: &Layout, starts: &[u64], size: u64) -> bool {
    let mut is_same = layout.size() == size && layout.spans().len() == starts.len();
    for (span, start) in layout.spans().iter().zip(starts) {
        is_same = is_same && span.start() == *start;
    }
    is_same
}

/// The starts and the size of the layout of the component at this address, under a mode.
fn has_layout(map: &Map, at: &[usize], mode: Mode, starts: &[u64], size: u64) -> bool {
    match map.held().layout(map.description(), &address(at), mode) {
        Some(layout) => is_laid_out(layout, starts, size),
        None => false,
    }
}

const THREE: &str =
    "addrmap top { reg { field {} f; } a; reg { regwidth = 64; accesswidth = 32; field {} f; } b; reg { field {} f; } c[20]; };";

/// Lines, the starts of what the map has then, in its order, and its size.
const MOVED: [(&str, [u64; 3], u64); 3] = [
    ("move /$top/b first", [0, 8, 0xC], 0x5C),
    ("undo", [0, 8, 0x10], 0x60),
    ("redo", [0, 8, 0xC], 0x5C),
];

// registers of 32 and of 64 bits, and twenty of 32, each aligned by its size
#[test]
fn lends_the_layout_of_each_place(rt: HostRuntime) -> Result<(), Fail> {
    let mut journal = opened(rt.alloc(), THREE, 100)?;
    for (line, starts, size) in MOVED.iter() {
        placed_by(rt.alloc(), &mut journal, line)?;
        let is_lent = has_layout(journal.map(), &[0], Mode::Compact, starts, *size);
        assert_holds(&rt, is_lent, line);
    }
    Ok(())
}

/// A register and a register file of three, aligned by their sizes.
const NESTED: &str =
    "addrmap top { reg { field {} f; } r; regfile { reg { field {} f; } a; reg { field {} f; } b; reg { field {} f; } c; } g; };";

/// Addresses, the starts of what is inside, and the size.
const INSIDE: [(&[usize], &[u64], u64); 3] = [
    (&[0], &[0, 0xC], 0x18),
    (&[0, 1], &[0, 4, 8], 0xC),
    (&[0, 1, 2], &[0], 4),
];

fn has_no_layout(map: &Map, at: &[usize]) -> bool {
    map.held()
        .layout(map.description(), &address(at), Mode::Compact)
        .is_none()
}

/// None of a field, of an item that isn't there, and of the root.
fn has_no_others(map: &Map) -> bool {
    has_no_layout(map, &[0, 0, 0]) && has_no_layout(map, &[7]) && has_no_layout(map, &[])
}

#[test]
fn lends_the_layouts_inside(rt: HostRuntime) -> Result<(), Fail> {
    let journal = opened(rt.alloc(), NESTED, 100)?;
    for (at, starts, size) in INSIDE.iter() {
        let is_lent = has_layout(journal.map(), at, Mode::Regalign, starts, *size);
        assert_holds(&rt, is_lent, "a layout inside");
    }
    assert!(rt; has_no_others(journal.map()));
    Ok(())
}
