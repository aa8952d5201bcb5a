//! Rows and layouts of whole maps that no run prints: values of rows, very many rows, and registers that go down.
use crate::history::map_of;
use crate::map::rows_or_fault;
use crate::{assert_holds, assert_same};
use rdl_elab::row::{Row, Rows};
use rdl_list::list_text;
use rdl_text::token::Number;
use rdl_tree::fault::Fault;
use rdl_tree::property::Property;
use rdl_tree::value::{Value, Word};
use std::alloc::{AllocError, Global};
use std::process::Abort;
use std::test::Fail;

// the nearer of two defaults, and the outer one behind the body that has the nearer
const DEFAULTS: &str =
    "addrmap top { default fieldwidth = 8; reg { default fieldwidth = 4; field {} f; } a; reg { field {} f; } b; };";

// what is stated and what is built in: a register of 16 bits, one of 32, a map under each
const WIDTHS: &str =
    "addrmap top { addressing = compact; reg { regwidth = 16; } a; reg {} b; addrmap { reg {} c; } m; };";

// a reset of an instance, one of its type, and none
const RESETS: &str =
    "field F { reset = 5; }; addrmap top { reg { F f[8] = 7; F g[8]; field {} h; F i[8]; } r; };";

// three registers of one type: assigned in the register file, in the map around it too, and not at all
const REACHED: &str =
    "reg R { field {} f[4]; }; addrmap top { regfile { R r, s; r.f->reset = 9; s.f->reset = 8; } g; R t; g.s.f->reset = 7; };";

/// The rows of a text's map.
pub(crate) fn elaborated(alloc: Global, text: &str) -> Result<Rows, &'static str> {
    match rows_or_fault(alloc, text) {
        Ok(Ok(rows)) => Ok(rows),
        _ => Err("no rows"),
    }
}

// names that are the component's own, and how far a default reaches
const WITH_NAMES: &str = "field A { name = \"outer\"; };
field B {};
addrmap top {
    reg { default name = \"near\"; A a; B b; field {} c; field { name = \"own\"; } d; } x;
};";

// a default behind what it would widen
const SHADOWED: &str =
    "reg T {}; addrmap top { regfile { T u; reg T {}; T v; } g; default regwidth = 8; };";

/// What a row holds for a property.
enum Held {
    Nothing,
    Number(Number),
    Word(Word),
    Text(&'static str),
}

fn holds(rows: &Rows, number: usize, property: Property, held: &Held) -> bool {
    let Some(row) = rows.get(number) else {
        return false;
    };
    match (row.values.get(property), held) {
        (None, Held::Nothing) => true,
        (Some(Value::Number(found)), Held::Number(number)) => *found == *number,
        (Some(Value::Word(found)), Held::Word(word)) => *found == *word,
        (Some(Value::Text(found)), Held::Text(text)) => found.as_str() == *text,
        _ => false,
    }
}

// A map, the number of a row, a property, and what the row holds for it.
const HELD: [(&str, usize, Property, Held); 20] = [
    (DEFAULTS, 2, Property::Fieldwidth, Held::Number(4)),
    (DEFAULTS, 4, Property::Fieldwidth, Held::Number(8)),
    (WIDTHS, 0, Property::Addressing, Held::Word(Word::Compact)),
    (WIDTHS, 0, Property::Alignment, Held::Nothing),
    (WIDTHS, 1, Property::Regwidth, Held::Number(16)),
    (WIDTHS, 1, Property::Accesswidth, Held::Number(16)),
    (WIDTHS, 2, Property::Regwidth, Held::Number(32)),
    (WIDTHS, 3, Property::Addressing, Held::Word(Word::Regalign)),
    (RESETS, 2, Property::Reset, Held::Number(7)),
    (RESETS, 3, Property::Reset, Held::Number(5)),
    (RESETS, 4, Property::Reset, Held::Nothing),
    (RESETS, 5, Property::Reset, Held::Number(5)),
    (REACHED, 2, Property::Reset, Held::Nothing),
    (REACHED, 7, Property::Reset, Held::Nothing),
    (WITH_NAMES, 1, Property::Name, Held::Nothing),
    (WITH_NAMES, 2, Property::Name, Held::Text("outer")),
    (WITH_NAMES, 3, Property::Name, Held::Nothing),
    (WITH_NAMES, 4, Property::Name, Held::Text("near")),
    (WITH_NAMES, 5, Property::Name, Held::Text("own")),
    (SHADOWED, 3, Property::Regwidth, Held::Number(32)),
];

fn holds_in(
    alloc: Global,
    map: &str,
    number: usize,
    property: Property,
    held: &Held,
) -> Result<bool, &'static str> {
    let rows = elaborated(alloc, map)?;
    Ok(holds(&rows, number, property, held))
}

fn assert_each_held(
    rt: &impl Abort,
    alloc: Global,
    values: &[(&str, usize, Property, Held)],
) -> Result<(), &'static str> {
    for (map, number, property, held) in values {
        assert_holds(rt, holds_in(alloc, map, *number, *property, held)?, map);
    }
    Ok(())
}

#[test]
fn holds_values(rt: HostRuntime) -> Result<(), Fail> {
    assert_each_held(&rt, rt.alloc(), &HELD)?;
    Ok(())
}

/// Rows of `WITH_NAMES`, and what each holds for its name.
const NAMES: [(usize, Held); 5] = [
    (1, Held::Nothing),
    (2, Held::Text("outer")),
    (3, Held::Nothing),
    (4, Held::Text("near")),
    (5, Held::Text("own")),
];

fn assert_names(rt: &impl Abort, rows: &Rows, names: &[(usize, Held)]) {
    for (number, held) in names {
        let is_held = holds(rows, *number, Property::Name, held);
        assert_holds(rt, is_held, "a name in a map");
    }
}

// as the rows of a map that is open show them
#[test]
fn holds_names_in_a_map(rt: HostRuntime) -> Result<(), Fail> {
    let map = map_of(rt.alloc(), WITH_NAMES)?;
    let rows = map.rows(rt.alloc())?;
    assert_names(&rt, &rows, &NAMES);
    Ok(())
}

/// How many properties of the row have a value.
fn count(row: &Row) -> usize {
    Property::ALL
        .iter()
        .filter(|property| row.values.get(**property).is_some())
        .count()
}

// fieldwidth, sw, hw, rclr, rset, woset, woclr and eighteen more booleans always have a value; reset where it has one
#[test]
fn holds_a_value_for_each_property_that_has_one(rt: HostRuntime) -> Result<(), Fail> {
    let rows = elaborated(rt.alloc(), RESETS)?;
    for (number, wanted) in [(2, 26), (3, 26), (4, 25), (5, 26)] {
        assert!(rt; rows.get(number).map(count) == Some(wanted), "row {number}");
    }
    Ok(())
}

const NINE_LEVELS: &str = "reg T0 { field {} f; };
regfile T1 { T0 a; T0 b; T0 c; };
regfile T2 { T1 a; T1 b; T1 c; };
regfile T3 { T2 a; T2 b; T2 c; };
regfile T4 { T3 a; T3 b; T3 c; };
regfile T5 { T4 a; T4 b; T4 c; };
regfile T6 { T5 a; T5 b; T5 c; };
regfile T7 { T6 a; T6 b; T6 c; };
regfile T8 { T7 a; T7 b; T7 c; };
regfile T9 { T8 a; T8 b; T8 c; };
addrmap top { T9 x; };
";

/// Whether the list has so many lines, and begins and ends with these.
fn has_ends(list: &str, lines: usize, first: &str, last: &str) -> bool {
    list.lines().count() == lines && list.starts_with(first) && list.ends_with(last)
}

fn base(rows: &Rows, number: usize) -> Option<u64> {
    Some(rows.get(number)?.base)
}

fn are_of_nine_levels(alloc: Global, rows: &Rows) -> Result<bool, AllocError> {
    let list = list_text(alloc, rows.as_slice())?;
    Ok(has_ends(
        &list,
        49_208,
        "0x0 addrmap top size 0x1338C\n",
        "0x13388 reg top.x.c.c.c.c.c.c.c.c.c size 0x4\n[0:0] field top.x.c.c.c.c.c.c.c.c.c.f\n",
    ))
}

// nine levels of three instances each: 3^9 registers of four bytes and their fields, and what is around them; a field
// has the base of its register
#[test]
fn makes_the_rows_of_nine_levels(rt: HostRuntime) -> Result<(), Fail> {
    let rows = elaborated(rt.alloc(), NINE_LEVELS)?;
    let are_made = are_of_nine_levels(rt.alloc(), &rows)?;
    assert!(rt; are_made && base(&rows, 49_207) == Some(0x13388));
    Ok(())
}

fn shown_fault(alloc: Global, fault: &Fault) -> Result<String, Fail> {
    Ok(format!(in alloc; "E{} at {}", fault.kind.number(), fault.address)?)
}

/// The lines of a text's map, or its fault and the item at which it shows.
fn listed(alloc: Global, text: &str) -> Result<String, Fail> {
    match rows_or_fault(alloc, text) {
        Ok(Ok(rows)) => Ok(list_text(alloc, rows.as_slice())?),
        Ok(Err(fault)) => shown_fault(alloc, &fault),
        Err(_) => Err(Fail::new("spells nothing")),
    }
}

fn push_register(text: &mut String, number: u64, start: u64) -> Result<(), AllocError> {
    write!(text, "reg {{}} r{number} @ {start};")
}

/// Registers of four bytes, with four bytes free behind each, the last one first, then one more at this address, and
/// one far behind them.
fn descending(alloc: Global, count: u64, more: u64) -> Result<String, Fail> {
    let mut text = String::from_str(alloc, "addrmap top {")?;
    for behind in 0..count {
        push_register(&mut text, behind, (count - behind).saturating_mul(8))?;
    }
    push_register(&mut text, count, more)?;
    text.push_str("reg {} last @ 0x10_0000; };")?;
    Ok(text)
}

fn listed_descending(alloc: Global, more: u64) -> Result<String, Fail> {
    listed(alloc, &descending(alloc, 2_000, more)?)
}

/// Whether the list has this line under this number.
fn has_line(list: &str, number: usize, line: &str) -> bool {
    list.lines().nth(number) == Some(line)
}

fn is_descending(list: &str) -> bool {
    list.lines().count() == 2_003
        && has_line(list, 1, "0x3E80 reg top.r0 size 0x4")
        && has_line(list, 2_000, "0x8 reg top.r1999 size 0x4")
        && has_line(list, 2_001, "0xC reg top.r2000 size 0x4")
}

// Where a register more stands, and what is listed then, in a word, or the fault: free; over the first byte of the
// lowest, over the last byte of the highest, and where one between them stands.
const MORE: [(u64, &str); 4] = [
    (12, "going down"),
    (5, "E20 at 0.2000"),
    (16_003, "E20 at 0.2000"),
    (8_000, "E20 at 0.2000"),
];

fn all_more() -> &'static [(u64, &'static str)] {
    &MORE
}

fn in_a_word(list: &str) -> &str {
    if is_descending(list) {
        "going down"
    } else {
        list
    }
}

#[test]
fn judges_what_overlaps_registers_that_go_down(rt: HostRuntime) -> Result<(), Fail> {
    for (more, want) in all_more() {
        let list = listed_descending(rt.alloc(), *more)?;
        assert_same(&rt, in_a_word(&list), want, "registers that go down");
    }
    Ok(())
}
