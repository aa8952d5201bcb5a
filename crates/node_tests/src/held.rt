//! What is held of maps, from step to step.
ghost use Rattle.std.specs.Prelude.{IfOk};
ghost use Rattle.rdl_held.specs.HeldMap.{IsHeldOf};

use crate::assert_holds;
use crate::steps::turned;
use rdl_held::held::Held;
use rdl_nodes::layouts::Layout;
use rdl_parse::parse::{parse, parse_item};
use rdl_seen::mode::Mode;
use rdl_tree::address::Address;
use rdl_tree::description::Description;
use rdl_tree::fault::Fault;
use rdl_tree::patch::Patch;
use rdl_tree::patch_address::PatchAddress;
use std::alloc::Global;
use std::test::Fail;

pub(crate) fn description(alloc: Global, text: &str) -> Result<Description, &'static str> {
    match parse(alloc, text) {
        Ok((description, _)) => Ok(description),
        Err(_) => Err("spells nothing"),
    }
}

pub(crate) fn held(alloc: Global, map: &Description) -> Result<Held, &'static str>
    ensures { IfOk result (λ held. IsHeldOf map.now.items held) }
{
    match Held::of(alloc, map, None) {
        Ok(held) => Ok(held),
        Err(_) => Err("has a fault"),
    }
}

/// The address of item 0 of the root.
fn first() -> Address {
    let mut address = Address::new();
    address.push(0);
    address
}

/// The address of item 2 of item 0 of the root.
fn third() -> Address {
    let mut address = first();
    if address.len() < Address::MAX_LEN {
        address.push(2);
    }
    address
}

/// The patch by which this item comes behind the two of item 0 of the root.
fn third_comes(alloc: Global, text: &str) -> Result<Patch, &'static str> {
    let Ok(address) = PatchAddress::new(alloc, &third()) else {
        return Err("has no room");
    };
    match parse_item(alloc, text) {
        Ok(mut items) => match items.pop() {
            Some(item) => Ok(Patch::Insert(address, item)),
            None => Err("is no item"),
        },
        Err(_) => Err("spells no item"),
    }
}

/// The layout has this size, and its spans go from these bytes up to those.
fn is_laid_out(layout: Option<&Layout>, size: u64, spans: &[(u64, u64)]) -> bool {
    let Some(layout) = layout else {
        return false;
    };
    let mut is_same = layout.size() == size && layout.spans().len() == spans.len();
    for (span, place) in layout.spans().iter().zip(spans) {
        is_same = is_same && span.start() == place.0 && span.end() == place.1;
    }
    is_same
}

const TWO: &str = "addrmap top { reg { field {} f; } a; reg { field {} f; } b @ 0x10; };";

#[test]
fn a_map_is_held_with_its_layouts_and_rows(rt: HostRuntime) -> Result<(), Fail> {
    let alloc = rt.alloc();
    let map = description(alloc, TWO)?;
    let held = held(alloc, &map)?;
    let layout = held.layout(&map, &first(), Mode::Regalign);
    assert_holds(
        &rt,
        is_laid_out(layout, 0x14, &[(0, 4), (0x10, 0x14)]),
        "the layout",
    );
    assert_holds(&rt, held.rows(alloc, &map)?.len() == 5, "the rows");
    assert_holds(&rt, held.top().is_none(), "that any top is asked for");
    Ok(())
}

#[test]
fn a_step_leads_on_and_back(rt: HostRuntime) -> Result<(), Fail> {
    let alloc = rt.alloc();
    let mut map = description(alloc, TWO)?;
    let mut held = held(alloc, &map)?;
    let comes = third_comes(alloc, "reg { field {} f; } c;")?;
    let Some(Ok(back)) = turned(alloc, &mut held, &mut map, comes) else {
        return Err("isn't turned".into());
    };
    let layout = held.layout(&map, &first(), Mode::Regalign);
    let is_on = is_laid_out(layout, 0x18, &[(0, 4), (0x10, 0x14), (0x14, 0x18)]);
    let is_taken_back = held.turn_known(alloc, &mut map, back).is_ok();
    let layout = held.layout(&map, &first(), Mode::Regalign);
    let is_back = is_laid_out(layout, 0x14, &[(0, 4), (0x10, 0x14)]);
    assert_holds(&rt, is_on && is_taken_back && is_back, "the layouts");
    Ok(())
}

/// It is E1 of item 2 of item 0 of the root.
fn is_second_of_a_name(fault: &Fault) -> bool {
    fault.kind.number() == 1 && fault.address == third()
}

/// It is refused with this fault.
fn is_refused(answer: &Result<Vec<Patch>, Fault>) -> bool {
    match answer {
        Ok(_) => false,
        Err(fault) => is_second_of_a_name(fault),
    }
}

#[test]
fn a_step_to_a_fault_leaves_what_is_held(rt: HostRuntime) -> Result<(), Fail> {
    let alloc = rt.alloc();
    let mut map = description(alloc, TWO)?;
    let mut held = held(alloc, &map)?;
    let comes = third_comes(alloc, "reg { field {} f; } a;")?;
    let Some(answer) = turned(alloc, &mut held, &mut map, comes) else {
        return Err("isn't turned".into());
    };
    let layout = held.layout(&map, &first(), Mode::Regalign);
    let is_left = is_laid_out(layout, 0x14, &[(0, 4), (0x10, 0x14)]);
    assert_holds(
        &rt,
        is_refused(&answer) && is_left,
        "the fault and the layout",
    );
    Ok(())
}
