//! Trees: paths, counts, weights, copies, changes of one body, the largest description, and the table of properties.
use crate::assert_holds;
use crate::parse::{description, repeated};
use rdl_text::name::{Name, NameFault};
use rdl_tree::address::Address;
use rdl_tree::description::{Body, Description, Item, Of};
use rdl_tree::path::{Path, PathFault, Segment};
use rdl_tree::properties::property;
use rdl_tree::property::Property;
use rdl_tree::shell::{Kind, Shell};
use rdl_tree::value::Value;
use std::alloc::{AllocError, Global};
use std::fmt::Debug;
use std::process::Abort;
use std::test::Fail;

const EVERY_FORM: &str = "reg T { internal field { sw = rw1; } bits[7:4] = 5; };
addrmap top {
    external T all[2][3] @ 0x10 += 8 %= 4;
    desc = \"hello\";
    default regwidth = 16;
    all.bits->swmod = true;
};";

// A map with one type that three instances share.
const SHARED_TYPE: &str =
    "reg T { field {} e; field {} f; }; addrmap top { T u; T v; u.f->reset = 1; T w; v.f->reset = 0; v.e->sw = r; };";

const ONE_NAME: &str = "reg u {}; addrmap top { regfile u {}; u x; regfile { u y; } u; u u; };";

/// A segment as it is written: `$T` or `u`.
fn segment(alloc: Global, part: &str) -> Result<Segment, NameFault> {
    match part.strip_prefix("$") {
        Some(rest) => Ok(Segment::Def(Name::new(alloc, rest)?)),
        None => Ok(Segment::Inst(Name::new(alloc, part)?)),
    }
}

/// A path as it is written: `/$top/u`.
pub(crate) fn path(alloc: Global, text: &str) -> Result<Path, Fail> {
    let mut path = Path::new(alloc);
    for part in text.split('/') {
        if !part.is_empty() {
            path.push(segment(alloc, part)?)?;
        }
    }
    Ok(path)
}

/// The address of these numbers, as far as there is one.
pub(crate) fn address(numbers: &[usize]) -> Address {
    let mut address = Address::new();
    for number in numbers {
        if address.len() < Address::MAX_LEN {
            address.push(*number);
        }
    }
    address
}

/// Where a path leads, or why it leads nowhere.
type Found = Result<&'static [usize], PathFault>;

fn is_found(found: &Result<Address, PathFault>, wanted: &Found) -> bool {
    match (found, wanted) {
        (Ok(address), Ok(numbers)) => address.as_slice() == *numbers,
        (Err(fault), Err(wanted)) => *fault == *wanted,
        _ => false,
    }
}

fn leads_to(alloc: Global, map: &Description, text: &str, wanted: &Found) -> Result<bool, Fail> {
    let path = path(alloc, text)?;
    Ok(is_found(&map.find(&path), wanted))
}

const FOUND: [(&str, Found); 12] = [
    ("/", Ok(&[])),
    ("/$u", Ok(&[0])),
    ("/$top", Ok(&[1])),
    ("/$top/$u", Ok(&[1, 0])),
    ("/$top/x", Ok(&[1, 1])),
    ("/$top/u", Ok(&[1, 2])),
    ("/$top/u/y", Ok(&[1, 2, 0])),
    ("/u", Err(PathFault::NoSuchName)),
    ("/$top/$x", Err(PathFault::NoSuchName)),
    ("/$top/u/z", Err(PathFault::NoSuchName)),
    ("/$top/x/y", Err(PathFault::ThroughNamedType)),
    ("/$top/u/y/z", Err(PathFault::ThroughNamedType)),
];

fn assert_each_found(
    rt: &impl Abort,
    alloc: Global,
    map: &Description,
    found: &[(&str, Found)],
) -> Result<(), Fail> {
    for (text, wanted) in found {
        assert_holds(rt, leads_to(alloc, map, text, wanted)?, text);
    }
    Ok(())
}

#[test]
fn finds_by_sort_and_name(rt: HostRuntime) -> Result<(), Fail> {
    let map = description(rt.alloc(), ONE_NAME)?;
    assert_each_found(&rt, rt.alloc(), &map, &FOUND)
}

/// How a value prints itself for debugging, which shows all of it.
fn shown<T: Debug>(alloc: Global, value: &T) -> Result<String, AllocError> {
    format!(in alloc; "{value:?}")
}

fn are_alike<T: Debug>(alloc: Global, left: &T, right: &T) -> Result<bool, AllocError> {
    let left = shown(alloc, left)?;
    let right = shown(alloc, right)?;
    Ok(left == right)
}

fn is_copied_whole(alloc: Global, map: &Description) -> Result<bool, Fail> {
    let copy = map.try_copy(alloc)?;
    Ok(copy.items.len() == 2 && are_alike(alloc, &copy, map)?)
}

// A body that holds a copy of the item alone.
fn copied(alloc: Global, item: &Item) -> Result<Body, Fail> {
    let mut body = Body::new(alloc);
    body.push(item.try_copy(alloc)?)?;
    Ok(body)
}

fn is_first(alloc: Global, body: &Body, item: &Item) -> Result<bool, Fail> {
    match body.item(0) {
        Some(copy) => Ok(are_alike(alloc, copy, item)?),
        None => Ok(false),
    }
}

fn is_copied(alloc: Global, item: Option<&Item>) -> Result<bool, Fail> {
    match item {
        Some(item) => is_first(alloc, &copied(alloc, item)?, item),
        None => Ok(false),
    }
}

fn shows(alloc: Global, map: &Description, part: &str) -> Result<bool, Fail> {
    Ok(shown(alloc, map)?.contains(part))
}

/// Whether the map and its second item are copied, and the map shows this part.
fn are_copied(alloc: Global, map: &Description, part: &str) -> Result<bool, Fail> {
    Ok(
        is_copied_whole(alloc, map)?
            && is_copied(alloc, map.items.item(1))?
            && shows(alloc, map, part)?,
    )
}

fn assert_copied(
    rt: &impl Abort,
    alloc: Global,
    text: &str,
    part: &str,
    count: u64,
    depth: u64,
) -> Result<(), Fail> {
    let map = description(alloc, text)?;
    assert!(rt; map.count() == count && map.depth() == depth && are_copied(alloc, &map, part)?);
    Ok(())
}

// T, bits, sw, top, all, desc, regwidth and all.bits->swmod; sw stands between two pairs of braces.
#[test]
fn copies_and_counts(rt: HostRuntime) -> Result<(), Fail> {
    assert_copied(&rt, rt.alloc(), EVERY_FORM, "External", 8, 2)?;
    assert_copied(&rt, rt.alloc(), SHARED_TYPE, "Dynamic", 10, 2)
}

fn instance_of(alloc: Global, of: &str, text: &str) -> Result<Item, NameFault> {
    let shell = Shell::new(Name::new(alloc, text)?);
    Ok(Item::Instance(shell, Of::Named(Name::new(alloc, of)?)))
}

// Puts `u first;` in front.
fn put_first(alloc: Global, body: &mut Body) -> Result<(), Fail> {
    body.insert(0, instance_of(alloc, "u", "first")?)?;
    Ok(())
}

fn has_no_body(map: &mut Description, at: &Address) -> bool {
    map.body(at).is_none() && map.body_mut(at).is_none()
}

// None at a named type, and none past the end.
fn has_no_others(map: &mut Description) -> bool {
    has_no_body(map, &address(&[1, 2, 0])) && has_no_body(map, &address(&[1, 2, 7]))
}

fn change(alloc: Global, map: &mut Description) -> Result<(), Fail> {
    match map.body_mut(&address(&[1, 2])) {
        Some(body) => put_first(alloc, body),
        None => Err(Fail::new("no body")),
    }
}

fn weighs(map: &Description, length: usize, weight: u64) -> bool {
    match map.body(&address(&[1, 2])) {
        Some(body) => body.len() == length && map.weight() == weight,
        None => false,
    }
}

#[test]
fn changes_one_body(rt: HostRuntime) -> Result<(), Fail> {
    let mut map = description(rt.alloc(), ONE_NAME)?;
    let weighs_before = weighs(&map, 1, 2 + 4 + 2 + 3 + 2 + 3 + 3);
    let has_no_others = has_no_others(&mut map);
    change(rt.alloc(), &mut map)?;
    assert!(rt; has_no_others && weighs_before && weighs(&map, 2, 19 + 7));
    Ok(())
}

fn is_instance(item: &Item, name: &str) -> bool {
    match item {
        Item::Instance(shell, _) => shell.name().as_str() == name,
        _ => false,
    }
}

// Whether the items are instances of these names.
fn are_instances(body: &Body, names: &[&str]) -> bool {
    body.len() == names.len()
        && body
            .as_slice()
            .iter()
            .zip(names)
            .all(|(item, name)| is_instance(item, name))
}

fn weight(item: Item) -> u64 {
    item.weight()
}

/// Puts the last of four items before the one before it.
fn moved(body: &mut Body) -> Result<bool, AllocError> {
    if body.len() != 4 {
        return Ok(false);
    }
    let last = body.remove(3);
    body.insert(2, last)?;
    Ok(are_instances(body, &["a", "b", "d", "c"]))
}

/// Takes the second of four items out.
fn removed(body: &mut Body) -> bool {
    body.len() == 4 && weight(body.remove(1)) == 3 && are_instances(body, &["a", "d", "c"])
}

#[test]
fn inserts_and_removes_items(rt: HostRuntime) -> Result<(), Fail> {
    let mut map = description(rt.alloc(), "T a; T b; T c; T d;")?;
    assert!(rt; moved(&mut map.items)? && removed(&mut map.items));
    Ok(())
}

// 65,536 items, those of the innermost body at level 16.
fn largest(alloc: Global) -> Result<String, AllocError> {
    repeated(alloc, &[("addrmap d{", 16), ("p;", 65_520), ("};", 16)])
}

#[test]
fn drops_the_largest(rt: HostRuntime) -> Result<(), Fail> {
    let map = description(rt.alloc(), &largest(rt.alloc())?)?;
    assert!(rt; map.weight() == 65536 * 2 && map.body(&address(&[0; 16])).is_some());
    Ok(())
}

// The row of `alignment`: address maps and register files, powers of two up to 2^40, in the layout.
fn stands_on_files(property: Property) -> bool {
    property.on(Kind::Regfile) && !property.on(Kind::Reg)
}

fn takes_powers_of_two(property: Property) -> bool {
    property.takes(&Value::Number(1 << 40)) && !property.takes(&Value::Number(3))
}

fn is_of_layouts(property: Property) -> bool {
    property.layout() && !property.dynamic() && property.built_in().is_none()
}

fn has_its_name() -> bool {
    property("stickybit") == Some(Property::Stickybit) && property("Reset") == None
}

#[test]
fn reads_the_table_of_properties(rt: HostRuntime) {
    let alignment = Property::Alignment;
    assert!(rt;
        stands_on_files(alignment)
            && takes_powers_of_two(alignment)
            && is_of_layouts(alignment)
            && has_its_name()
    );
}
