//! What texts spell, and the limits of texts.
ghost use Rattle.std.specs.Prelude.{◌≤◌, IfOk};
ghost use Rattle.rdl_tree.specs.Depth.{depth};

use crate::{assert_holds, assert_same};
use rdl_parse::parse::parse;
use rdl_round::laws::written_map_is_parsed;
use rdl_text::place;
use rdl_tree::description::Description;
use rdl_write::rdl;
use std::alloc::{AllocError, Global};
use std::process::Abort;
use std::test::Fail;

/// The description that a text spells.
pub(crate) fn description(alloc: Global, text: &str) -> Result<Description, &'static str>
    ensures { IfOk result (λ d. depth d.items ≤ 16) }
{
    match parse(alloc, text) {
        Ok((description, _)) => Ok(description),
        Err(_) => Err("spells nothing"),
    }
}

/// The number of the fault of a text, and its column; zeros without a fault.
fn fault(alloc: Global, text: &str) -> (u8, usize) {
    match parse(alloc, text) {
        Ok(_) => (0, 0),
        Err(fault) => (fault.number(), place(text, fault.offset).1),
    }
}

/// Texts, and how often each stands.
type Parts = &'static [(&'static str, usize)];

fn push_repeated(whole: &mut String, text: &str, count: usize) -> Result<(), AllocError> {
    for _ in 0..count {
        whole.push_str(text)?;
    }
    Ok(())
}

/// The texts one behind the other, each so often.
pub(crate) fn repeated(alloc: Global, parts: &[(&str, usize)]) -> Result<String, AllocError> {
    let mut whole = String::new(alloc);
    for (text, count) in parts {
        push_repeated(&mut whole, text, *count)?;
    }
    Ok(whole)
}

// The parts of a text, and its fault with its column.
const AT_LIMITS: [(Parts, (u8, usize)); 5] = [
    // levels
    (&[("addrmap a{", 16), ("};", 16)], (0, 0)),
    (&[("addrmap a{", 17)], (11, 170)),
    // items
    (&[("a;", 65_536)], (0, 0)),
    (&[("a;", 65_536), ("b;c", 1)], (12, 131_074)),
    // 100,001 copies of 10,000 items, which are not made
    (
        &[
            ("reg {", 1),
            ("a;", 10_000),
            ("} x", 1),
            (",x", 100_000),
            (";", 1),
        ],
        (12, 220_009),
    ),
];

fn assert_fault(
    rt: &impl Abort,
    alloc: Global,
    parts: &[(&str, usize)],
    wanted: (u8, usize),
) -> Result<(), AllocError> {
    let text = repeated(alloc, parts)?;
    assert_holds(rt, fault(alloc, text.as_str()) == wanted, "at a limit");
    Ok(())
}

fn assert_each_fault(
    rt: &impl Abort,
    alloc: Global,
    limits: &[(&[(&str, usize)], (u8, usize))],
) -> Result<(), AllocError> {
    for (parts, wanted) in limits {
        assert_fault(rt, alloc, parts, *wanted)?;
    }
    Ok(())
}

#[test]
fn sixteen_levels_and_65536_items_are_accepted(rt: HostRuntime) -> Result<(), Fail> {
    assert_each_fault(&rt, rt.alloc(), &AT_LIMITS)?;
    Ok(())
}

/// The text of a map, once it is read, written, read and written again.
fn written_twice(alloc: Global, text: &str) -> Result<String, &'static str> {
    let first = description(alloc, text)?;
    match written_map_is_parsed(alloc, &first) {
        Ok(Ok(second)) => rdl(alloc, &second).map_err(|_| "no memory"),
        _ => Err("isn't read again"),
    }
}

const WRITTEN: &str =
    "addrmap top {\n    reg {\n        field {\n        } f[8] = 0x5;\n    } a;\n    reg {\n        field {\n        } g;\n    } b;\n};\n";

#[test]
fn a_written_map_is_read_again(rt: HostRuntime) -> Result<(), Fail> {
    let text = "addrmap top { reg { field {} f[8] = 5; } a; reg { field {} g; } b; };";
    let written = written_twice(rt.alloc(), text)?;
    assert_same(&rt, written.as_str(), WRITTEN, "what is written");
    Ok(())
}
