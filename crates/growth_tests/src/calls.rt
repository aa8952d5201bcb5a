//! The calls that change nothing.
ghost use Rattle.std.specs.Prelude.{◌≤◌, IfOk};
ghost use Rattle.rdl_tree.specs.Depth.{depth};

use crate::examples::{
    NESTED, NESTED_HEADER, NESTED_LINES, NESTED_WRITTEN, SHARED, SHARED_HEADER, SHARED_LINES,
    SHARED_WRITTEN, THREE, THREE_HEADER, THREE_LINES, THREE_WRITTEN,
};
use crate::{Answer, assert_answered};
use rdl_edit::map::Map;
use rdl_elab::elaborate::elaborate;
use rdl_elab::row::Rows;
use rdl_header::{HeaderFault, header};
use rdl_held::held::Held;
use rdl_list::list_text;
use rdl_parse::parse::{parse, parse_item};
use rdl_scope::faults::check;
use rdl_scope::targets::through;
use rdl_scope::values::value;
use rdl_text::list::Tokens;
use rdl_text::name::{Name, NameFault};
use rdl_text::raw::Raw;
use rdl_text::tokens;
use rdl_tree::address::Address;
use rdl_tree::description::{Body, Description, Item};
use rdl_tree::fault::{Fault, FaultKind};
use rdl_tree::value::Value;
use rdl_write::rdl;
use std::alloc::{AllocError, Global};
use std::fmt::Debug;
use std::process::Abort;

/// A call that is made of a text.
#[derive(Clone, Copy)]
enum Call {
    Name,
    Raw,
    Tokens,
    Parse,
    ParseItem,
    CopyWhole,
    CopyItems,
    Check,
    Elaborate,
    Open,
    Rows,
    Held,
    Header,
}

// ---- Texts.

fn not_such(alloc: Global, fault: NameFault) -> Answer {
    match fault {
        NameFault::NotSuch => String::from_str(alloc, "N1"),
        NameFault::Memory => Err(AllocError),
    }
}

fn name_answer(alloc: Global, text: &str) -> Answer {
    match Name::new(alloc, text) {
        Ok(name) => name.to_string(alloc),
        Err(fault) => not_such(alloc, fault),
    }
}

fn raw_answer(alloc: Global, text: &str) -> Answer {
    match Raw::new(alloc, text) {
        Ok(raw) => raw.to_string(alloc),
        Err(fault) => not_such(alloc, fault),
    }
}

/// A fault of a text; S8 is want of memory.
fn text_fault(alloc: Global, number: u8, offset: usize) -> Answer {
    if number == 8 {
        Err(AllocError)
    } else {
        format!(in alloc; "S{number} at {offset}")
    }
}

fn sources(alloc: Global, words: &Tokens<'_>) -> Answer {
    let mut text = String::new(alloc);
    for index in 0..words.len() {
        if let Some(word) = words.get(index) {
            text.push_str(word.source())?;
            text.push_str(" ")?;
        }
    }
    Ok(text)
}

fn tokens_answer(alloc: Global, text: &str) -> Answer {
    match tokens(alloc, text) {
        Ok(words) => sources(alloc, &words),
        Err(fault) => text_fault(alloc, fault.number(), fault.offset),
    }
}

fn parse_answer(alloc: Global, text: &str) -> Answer {
    match parse(alloc, text) {
        Ok((description, _)) => rdl(alloc, &description),
        Err(fault) => text_fault(alloc, fault.number(), fault.offset),
    }
}

fn items_text(alloc: Global, items: Vec<Item>) -> Answer {
    let items = Body::from_vec(items);
    rdl(alloc, &Description { items })
}

fn parse_item_answer(alloc: Global, text: &str) -> Answer {
    match parse_item(alloc, text) {
        Ok(items) => items_text(alloc, items),
        Err(fault) => text_fault(alloc, fault.number(), fault.offset),
    }
}

// ---- Descriptions.

/// The description that a text spells. `parse_answer` looks at the fault of another text.
pub(crate) fn description(alloc: Global, text: &str) -> Result<Description, AllocError>
    ensures { IfOk result (λ d. depth d.items ≤ 16) }
{
    match parse(alloc, text) {
        Ok((description, _)) => Ok(description),
        Err(_) => Err(AllocError),
    }
}

/// How a value prints itself for debugging, which shows all of it.
pub(crate) fn shown<T: Debug>(alloc: Global, value: &T) -> Answer {
    format!(in alloc; "{value:?}")
}

/// The text, if the copy shows all that the original shows.
fn if_alike<T: Debug>(alloc: Global, copy: &T, original: &T, text: String) -> Answer {
    if shown(alloc, copy)? == shown(alloc, original)? {
        Ok(text)
    } else {
        String::from_str(alloc, "another")
    }
}

fn copy_whole_answer(alloc: Global, text: &str) -> Answer {
    let original = description(alloc, text)?;
    let copy = original.try_copy(alloc)?;
    let text = rdl(alloc, &copy)?;
    if_alike(alloc, &copy, &original, text)
}

fn copied_items(alloc: Global, items: &[Item]) -> Result<Body, AllocError> {
    let mut body = Body::new(alloc);
    for item in items {
        body.push(item.try_copy(alloc)?)?;
    }
    Ok(body)
}

fn copy_items_answer(alloc: Global, text: &str) -> Answer {
    let original = description(alloc, text)?;
    let items = copied_items(alloc, original.items.as_slice())?;
    let copy = Description { items };
    let text = rdl(alloc, &copy)?;
    if_alike(alloc, &copy, &original, text)
}

/// A fault of a description; E24 is want of memory.
pub(crate) fn fault_answer(alloc: Global, fault: &Fault) -> Answer {
    if fault.kind == FaultKind::Memory {
        Err(AllocError)
    } else {
        format!(in alloc; "E{} at {}", fault.kind.number(), fault.address)
    }
}

fn check_answer(alloc: Global, text: &str) -> Answer {
    match check(alloc, &description(alloc, text)?) {
        Ok(()) => String::from_str(alloc, "none"),
        Err(fault) => fault_answer(alloc, &fault),
    }
}

fn lines_answer(alloc: Global, answer: Result<Rows, Fault>) -> Answer {
    match answer {
        Ok(rows) => list_text(alloc, rows.as_slice()),
        Err(fault) => fault_answer(alloc, &fault),
    }
}

fn elaborate_answer(alloc: Global, text: &str) -> Answer {
    let description = description(alloc, text)?;
    lines_answer(alloc, elaborate(alloc, &description, None))
}

fn open_answer(alloc: Global, text: &str) -> Answer {
    match Map::open(alloc, description(alloc, text)?, None) {
        Ok(map) => rdl(alloc, map.description()),
        Err(fault) => fault_answer(alloc, &fault),
    }
}

/// The map of a text. `open_answer` looks at the fault of another.
pub(crate) fn opened(alloc: Global, text: &str) -> Result<Map, AllocError> {
    match Map::open(alloc, description(alloc, text)?, None) {
        Ok(map) => Ok(map),
        Err(_) => Err(AllocError),
    }
}

/// The lines of the map's rows.
pub(crate) fn lines(alloc: Global, map: &Map) -> Answer {
    list_text(alloc, map.rows(alloc)?.as_slice())
}

fn rows_answer(alloc: Global, text: &str) -> Answer {
    lines(alloc, &opened(alloc, text)?)
}

/// The lines of the rows of a map of which all is held.
fn held_answer(alloc: Global, text: &str) -> Answer {
    let description = description(alloc, text)?;
    match Held::of(alloc, &description, None) {
        Ok(held) => list_text(alloc, held.rows(alloc, &description)?.as_slice()),
        Err(fault) => fault_answer(alloc, &fault),
    }
}

/// The header, or the name that is defined twice.
fn header_of(alloc: Global, rows: &Rows) -> Answer {
    match header(alloc, rows.as_slice()) {
        Ok(text) => Ok(text),
        Err(HeaderFault::Clash(name)) => Ok(name),
        Err(HeaderFault::Memory) => Err(AllocError),
    }
}

fn header_answer(alloc: Global, text: &str) -> Answer {
    match elaborate(alloc, &description(alloc, text)?, None) {
        Ok(rows) => header_of(alloc, &rows),
        Err(fault) => fault_answer(alloc, &fault),
    }
}

// ---- Each call once, and again where memory was wanted.

fn answer(alloc: Global, call: Call, text: &str) -> Answer {
    match call {
        Call::Name => name_answer(alloc, text),
        Call::Raw => raw_answer(alloc, text),
        Call::Tokens => tokens_answer(alloc, text),
        Call::Parse => parse_answer(alloc, text),
        Call::ParseItem => parse_item_answer(alloc, text),
        Call::CopyWhole => copy_whole_answer(alloc, text),
        Call::CopyItems => copy_items_answer(alloc, text),
        Call::Check => check_answer(alloc, text),
        Call::Elaborate => elaborate_answer(alloc, text),
        Call::Open => open_answer(alloc, text),
        Call::Rows => rows_answer(alloc, text),
        Call::Held => held_answer(alloc, text),
        Call::Header => header_answer(alloc, text),
    }
}

/// A call, its text, and what it answers.
type Case = (Call, &'static str, &'static str);

fn assert_each(rt: &impl Abort, alloc: Global, cases: &[Case]) {
    for (call, text, want) in cases {
        let mut found = answer(alloc, *call, text);
        if found.is_err() {
            found = answer(alloc, *call, text);
        }
        assert_answered(rt, &found, want, text);
    }
}

const OF_TEXTS: [Case; 16] = [
    (Call::Name, "top", "top"),
    (Call::Name, "9x", "N1"),
    (Call::Raw, "a\\\"b", "a\\\"b"),
    (Call::Raw, "a\"", "N1"),
    (
        Call::Tokens,
        SHARED,
        "reg T { field { } e ; field { } f ; } ; addrmap top { T u ; T v ; u . f -> reset = 1 ; T w ; v . f -> reset = 0 ; v . e -> sw = r ; } ; ",
    ),
    (Call::Tokens, "a \"b", "S3 at 2"),
    (Call::Parse, THREE, THREE_WRITTEN),
    (Call::Parse, SHARED, SHARED_WRITTEN),
    (Call::Parse, NESTED, NESTED_WRITTEN),
    (Call::Parse, "addrmap top { reg {", "S10 at 19"),
    (
        Call::ParseItem,
        "reg { field {} g; } x, y;",
        "reg {
    field {
    } g;
} x;
reg {
    field {
    } g;
} y;
",
    ),
    (Call::ParseItem, "T a; T b;", "S9 at 5"),
    (Call::CopyWhole, SHARED, SHARED_WRITTEN),
    (Call::CopyItems, SHARED, SHARED_WRITTEN),
    (Call::CopyWhole, NESTED, NESTED_WRITTEN),
    (Call::CopyItems, NESTED, NESTED_WRITTEN),
];

fn of_texts() -> &'static [Case] {
    &OF_TEXTS
}

#[test]
fn of_texts_answer(rt: HostRuntime) {
    assert_each(&rt, rt.alloc(), of_texts());
}

const WIDE: &str = "addrmap top { reg { field {} f[33]; } a; };";

const UNTYPED: &str = "addrmap top { T u; };";

const OF_MAPS: [Case; 21] = [
    (Call::Check, THREE, "none"),
    (Call::Check, SHARED, "none"),
    (Call::Check, NESTED, "none"),
    (Call::Check, UNTYPED, "E2 at 0.0"),
    (Call::Elaborate, THREE, THREE_LINES),
    (Call::Elaborate, SHARED, SHARED_LINES),
    (Call::Elaborate, NESTED, NESTED_LINES),
    (Call::Elaborate, WIDE, "E21 at 0.0.0"),
    (Call::Open, THREE, THREE_WRITTEN),
    (Call::Open, SHARED, SHARED_WRITTEN),
    (Call::Open, NESTED, NESTED_WRITTEN),
    (Call::Open, WIDE, "E21 at 0.0.0"),
    (Call::Rows, THREE, THREE_LINES),
    (Call::Rows, SHARED, SHARED_LINES),
    (Call::Rows, NESTED, NESTED_LINES),
    (Call::Held, THREE, THREE_LINES),
    (Call::Held, WITH_NAMES, WITH_NAMES_LINES),
    (Call::Held, WIDE, "E21 at 0.0.0"),
    (Call::Header, THREE, THREE_HEADER),
    (Call::Header, SHARED, SHARED_HEADER),
    (Call::Header, NESTED, NESTED_HEADER),
];

fn of_maps() -> &'static [Case] {
    &OF_MAPS
}

#[test]
fn of_maps_answer(rt: HostRuntime) {
    assert_each(&rt, rt.alloc(), of_maps());
}

// ---- What a target passes, and the value of a property.

/// The address of these numbers, as far as there is one.
fn address(numbers: &[usize]) -> Address {
    let mut address = Address::new();
    for number in numbers {
        if address.len() < Address::MAX_LEN {
            address.push(*number);
        }
    }
    address
}

fn addresses_text(alloc: Global, addresses: &[Address]) -> Answer {
    let mut text = String::new(alloc);
    for address in addresses {
        write!(text, "{address} ")?;
    }
    Ok(text)
}

fn through_answer(alloc: Global, text: &str, numbers: &[usize]) -> Answer {
    let description = description(alloc, text)?;
    match through(alloc, &description, &address(numbers))? {
        Some(passed) => addresses_text(alloc, passed.as_slice()),
        None => String::from_str(alloc, "none"),
    }
}

/// A map, the address of an item, and the instances that its target passes.
type Target = (&'static str, &'static [usize], &'static str);

const TARGETS: [Target; 6] = [
    (SHARED, &[1, 2], "1.0 0.1 "),
    (SHARED, &[1, 4], "1.1 0.1 "),
    (SHARED, &[1, 5], "1.1 0.0 "),
    (SHARED, &[1, 0], "none"),
    (NESTED, &[0, 0, 1], "0.0.0 0.0.0.0 "),
    (NESTED, &[0, 1], "0.0 0.0.0 0.0.0.0 "),
];

fn targets() -> &'static [Target] {
    &TARGETS
}

#[test]
fn of_targets_answer(rt: HostRuntime) {
    for (text, numbers, want) in targets() {
        let mut found = through_answer(rt.alloc(), text, numbers);
        if found.is_err() {
            found = through_answer(rt.alloc(), text, numbers);
        }
        assert_answered(&rt, &found, want, text);
    }
}

/// The names between dots.
fn names(alloc: Global, text: &str) -> Result<Vec<Name>, AllocError> {
    let mut names = Vec::new(alloc);
    for part in text.split('.') {
        match Name::new(alloc, part) {
            Ok(name) => names.push(name)?,
            Err(_) => return Err(AllocError),
        }
    }
    Ok(names)
}

fn value_text(alloc: Global, value: Option<Value>) -> Answer {
    match value {
        Some(Value::Number(number)) => number.to_string(alloc),
        Some(Value::Text(text)) => String::from_str(alloc, text.as_str()),
        Some(_) => String::from_str(alloc, "another"),
        None => String::from_str(alloc, "none"),
    }
}

fn value_answer(alloc: Global, text: &str, top: usize, path: &str, property: &str) -> Answer {
    let description = description(alloc, text)?;
    let names = names(alloc, path)?;
    let found = value(
        alloc,
        &description,
        &address(&[top]),
        names.as_slice(),
        property,
    )?;
    value_text(alloc, found)
}

const WITH_NAMES: &str = "field A { name = \"outer\"; };
field B {};
addrmap top {
    reg { default name = \"near\"; A a; B b; field {} c; field { name = \"own\"; } d; } x;
};";

const WITH_NAMES_LINES: &str = "0x0 addrmap top size 0x4
0x0 reg top.x size 0x4
[0:0] field top.x.a
[1:1] field top.x.b
[2:2] field top.x.c
[3:3] field top.x.d
";

/// A map, the number of its top, a path below it, a property, and its value.
type Known = (
    &'static str,
    usize,
    &'static str,
    &'static str,
    &'static str,
);

const VALUES: [Known; 8] = [
    (THREE, 0, "a.f", "reset", "5"),
    (SHARED, 1, "u.f", "reset", "1"),
    (SHARED, 1, "v.f", "reset", "0"),
    (SHARED, 1, "w.f", "reset", "none"),
    (NESTED, 0, "g.q.f", "reset", "3"),
    (WITH_NAMES, 2, "x.a", "name", "outer"),
    (WITH_NAMES, 2, "x.b", "name", "none"),
    (WITH_NAMES, 2, "x.c", "name", "near"),
];

fn values() -> &'static [Known] {
    &VALUES
}

#[test]
fn of_values_answer(rt: HostRuntime) {
    for (text, top, path, property, want) in values() {
        let mut found = value_answer(rt.alloc(), text, *top, path, property);
        if found.is_err() {
            found = value_answer(rt.alloc(), text, *top, path, property);
        }
        assert_answered(&rt, &found, want, path);
    }
}
