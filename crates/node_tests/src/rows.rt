//! The faults of rows with which maps are refused.
use crate::assert_holds;
use rdl_held::held::Held;
use rdl_parse::parse::parse;
use rdl_tree::fault::Fault;
use std::alloc::Global;
use std::test::Fail;

/// The fault with which the map of this text is refused, if it is.
fn fault_of(alloc: Global, text: &str) -> Result<Option<Fault>, &'static str> {
    let Ok((map, _)) = parse(alloc, text) else {
        return Err("spells nothing");
    };
    match Held::of(alloc, &map, None) {
        Ok(_) => Ok(None),
        Err(fault) => Ok(Some(fault)),
    }
}

/// The map of this text is refused with the fault of this number, of the item at this address.
fn is_refused(alloc: Global, text: &str, number: u8, at: &[usize]) -> Result<bool, &'static str> {
    match fault_of(alloc, text)? {
        Some(fault) => Ok(fault.kind.number() == number && fault.address.as_slice() == at),
        None => Ok(false),
    }
}

const WIDE_ACCESS: &str =
    "addrmap top { reg { regwidth = 16; accesswidth = 32; field {} f; } a; };";

const SMALL_STRIDE: &str = "addrmap top { reg { field {} f; } a[2] += 2; };";

const SHARED_BYTES: &str = "addrmap top { reg { field {} f; } a @ 0; reg { field {} f; } b @ 2; };";

const PAST: &str = "addrmap top { reg { field {} f[32:32]; } a; };";

const SHARED_BITS: &str =
    "reg r { field {} f; }; reg s { field {} f[3:0]; field {} g[2:2]; }; addrmap top { r a; s b; };";

const WIDE_RESETS: &str =
    "addrmap top { regfile { reg { field {} f[1:0] = 4; } a; } x; reg { field {} f[40:40]; } b; };";

const ASSIGNED: &str = "addrmap top { reg { field {} f[1:0]; } a; a.f -> reset = 4; };";

const HARMLESS: &str =
    "addrmap top { reg { field {} f[1:0]; field {} g[40:40]; } a; a.f -> reset = 1; };";

const MENDED: &str = "addrmap top { reg { field {} f[1:0] = 4; } a; a.f -> reset = 1; };";

#[test]
fn a_map_is_refused_with_the_fault_of_its_first_row(rt: HostRuntime) -> Result<(), Fail> {
    let alloc = rt.alloc();
    assert_holds(&rt, is_refused(alloc, WIDE_ACCESS, 18, &[0, 0])?, "E18");
    assert_holds(&rt, is_refused(alloc, SMALL_STRIDE, 19, &[0, 0])?, "E19");
    assert_holds(&rt, is_refused(alloc, SHARED_BYTES, 20, &[0, 1])?, "E20");
    assert_holds(&rt, is_refused(alloc, PAST, 21, &[0, 0, 0])?, "E21");
    assert_holds(&rt, is_refused(alloc, SHARED_BITS, 22, &[1, 1])?, "E22");
    let is_first = is_refused(alloc, WIDE_RESETS, 23, &[0, 0, 0, 0])?;
    assert_holds(&rt, is_first, "E23");
    Ok(())
}

#[test]
fn an_assignment_is_looked_at_where_it_counts(rt: HostRuntime) -> Result<(), Fail> {
    let alloc = rt.alloc();
    let is_wide = is_refused(alloc, ASSIGNED, 23, &[0, 0, 0])?;
    assert_holds(&rt, is_wide, "a reset that is assigned and too wide");
    let is_past = is_refused(alloc, HARMLESS, 21, &[0, 0, 1])?;
    assert_holds(
        &rt,
        is_past,
        "a field past a register in which a reset is assigned",
    );
    let is_mended = fault_of(alloc, MENDED)?.is_none();
    assert_holds(&rt, is_mended, "a wide reset over which one is assigned");
    Ok(())
}
