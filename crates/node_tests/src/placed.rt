//! How many instances are placed when a map is opened, and on a step.
use crate::assert_holds;
use crate::held::{description, held};
use crate::steps::turned;
use rdl_parse::parse::parse_item;
use rdl_tree::address::Address;
use rdl_tree::description::Item;
use rdl_tree::part::Part;
use rdl_tree::patch::Patch;
use rdl_tree::patch_address::PatchAddress;
use std::alloc::Global;
use std::test::Fail;

/// Six instances of components that are kept by themselves, and four of fields.
const MAP: &str =
    "regfile A { reg { field {} f; } p; reg { field {} f; } q; reg { field {} f; } r; }; \
regfile B { reg { field {} F; } x; }; addrmap top { A a; B b; };";

/// The address of the first item of the second one of the root.
fn first_of_second() -> Address {
    let mut address = Address::new();
    address.push(1);
    address.inside(0)
}

/// The patch by which the first item of the second one of the root gets the shell of this instance.
fn gets_shell(alloc: Global, text: &str) -> Result<Patch, &'static str> {
    let Ok(address) = PatchAddress::new(alloc, &first_of_second()) else {
        return Err("has no room");
    };
    match parse_item(alloc, text) {
        Ok(mut items) => match items.pop() {
            Some(Item::Instance(shell, _)) => Ok(Patch::Exchange(address, Part::OfShell(shell))),
            _ => Err("is no instance"),
        },
        Err(_) => Err("spells no item"),
    }
}

/// How many instances are placed when the map is opened, and when its register in `B` gets the shell of this instance.
fn placed(alloc: Global, text: &str) -> Result<(u64, u64), &'static str> {
    let mut map = description(alloc, MAP)?;
    let mut held = held(alloc, &map)?;
    let opened = held.placed();
    let patch = gets_shell(alloc, text)?;
    match turned(alloc, &mut held, &mut map, patch) {
        Some(Ok(_)) => Ok((opened, held.placed())),
        Some(Err(_)) => Err("has a fault"),
        None => Err("doesn't fit"),
    }
}

#[test]
fn what_is_around_a_resized_register_is_placed(rt: HostRuntime) -> Result<(), Fail> {
    let (opened, placed) = placed(rt.alloc(), "reg { field {} F; } x[2];")?;
    assert_holds(&rt, opened == 30, "what is placed when it is opened");
    assert_holds(&rt, placed == 9, "the one of B and the two of top");
    Ok(())
}

#[test]
fn a_new_name_places_nothing(rt: HostRuntime) -> Result<(), Fail> {
    let (_, placed) = placed(rt.alloc(), "reg { field {} F; } y;")?;
    assert_holds(&rt, placed == 0, "that something is placed");
    Ok(())
}
