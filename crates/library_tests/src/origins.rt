//! Which items of the first map those are that a step moved.

use crate::assert_holds;
use crate::parse::description;
use crate::tree::address;
use rdl_origin::origin::Origins;
use rdl_tree::patch::Patch;
use rdl_tree::patch_address::PatchAddress;
use std::alloc::{AllocError, Global};
use std::test::Fail;

/// The patch that moves the first item of the root.
fn shift(alloc: Global, to: usize) -> Result<Patch, AllocError> {
    Ok(Patch::Shift(PatchAddress::new(alloc, &address(&[0]))?, to))
}

/// Whether these are the numbers of the items of a map of three, where the patch has led back.
fn leads_to(alloc: Global, patch: Patch, wanted: &[Option<u32>]) -> Result<bool, Fail> {
    let map = description(alloc, "addrmap a {}; addrmap b {}; addrmap c {};")?;
    let mut origins = Origins::new(alloc, &map)?;
    let has_place = origins.go_back(alloc, &[patch])?;
    let numbers = origins.as_slice().iter().map(|origin| origin.now);
    Ok(has_place && numbers.eq(wanted.iter().copied()))
}

#[test]
fn moved_items_go_back(rt: HostRuntime) -> Result<(), Fail> {
    let alloc = rt.alloc();
    let is_last = leads_to(alloc, shift(alloc, 2)?, &[Some(1), Some(2), Some(0)])?;
    let is_past = leads_to(alloc, shift(alloc, 3)?, &[Some(0), Some(1), Some(2)])?;
    assert_holds(&rt, is_last && !is_past, "the first item");
    Ok(())
}
