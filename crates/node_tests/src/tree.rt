//! What is kept of maps.
use crate::assert_holds;
use crate::nowhere::{NoMemory, Nowhere};
use rdl_marks::marks::BodyMarks;
use rdl_nodes::lays::Lays;
use rdl_nodes::tree::Tree;
use rdl_parse::parse::parse;
use rdl_renew::deaf::is_settled;
use rdl_renew::renew::{RenewedMap, renewed};
use rdl_seen::alert::Alert;
use rdl_seen::names::{NameSet, class_of};
use rdl_seen::seen::Seen;
use rdl_text::name::Name;
use rdl_tree::address::Address;
use rdl_tree::description::Description;
use rdl_tree::patch::Patch;
use rdl_tree::patch_address::PatchAddress;
use rdl_tree::shell::Kind;
use std::alloc::{AllocError, Global};
use std::test::Fail;

fn description(alloc: Global, text: &str) -> Result<Description, &'static str> {
    match parse(alloc, text) {
        Ok((description, _)) => Ok(description),
        Err(_) => Err("spells nothing"),
    }
}

fn address(numbers: &[usize]) -> Address {
    let mut address = Address::new();
    for number in numbers {
        if address.len() < Address::MAX_LEN {
            address.push(*number);
        }
    }
    address
}

/// What is kept of a component is these: its kind, how many names its longest path has, and whether a body without instances is in it.
fn is_seen(tree: &Tree, numbers: &[usize], kind: Kind, levels: u8, has_empty: bool) -> bool {
    match tree.node(&address(numbers)) {
        Some(kept) => {
            kept.seen.kind == kind && kept.seen.levels == levels && kept.seen.has_empty == has_empty
        }
        None => false,
    }
}

fn is_none(tree: &Tree, numbers: &[usize]) -> bool {
    tree.node(&address(numbers)).is_none()
}

fn tree_of(alloc: Global, text: &str) -> Result<Tree, Fail> {
    let map = description(alloc, text)?;
    let tree = Tree::of(alloc, &Nowhere, &map)?;
    Ok(tree)
}

const MAP: &str =
    "reg T { field {} f; }; addrmap top { T a; regfile { T b[4]; } r; regfile {} e; };";

#[test]
fn a_node_is_kept_of_each_component_but_fields_at_their_instance(
    rt: HostRuntime,
) -> Result<(), Fail> {
    let alloc = rt.alloc();
    let tree = tree_of(alloc, MAP)?;
    let are_seen = is_seen(&tree, &[0], Kind::Reg, 1, false)
        && is_seen(&tree, &[1], Kind::Addrmap, 3, true)
        && is_seen(&tree, &[1, 1], Kind::Regfile, 2, false);
    let are_none = is_none(&tree, &[0, 0]) && is_none(&tree, &[1, 0]) && is_none(&tree, &[2]);
    assert_holds(&rt, are_seen && are_none, "the nodes");
    Ok(())
}

/// How many of the items of the map's top are settled, where the alert tells of this.
fn settled_of(tree: &Tree, alert: &Alert) -> Option<usize> {
    let top = tree.node(&address(&[1]))?;
    let mut settled = 0usize;
    for slot in top.node.slots() {
        if is_settled(slot, alert) {
            settled = settled.saturating_add(1);
        }
    }
    Some(settled)
}

#[test]
fn who_listens_to_nothing_is_settled(rt: HostRuntime) -> Result<(), Fail> {
    let alloc = rt.alloc();
    let tree = tree_of(alloc, MAP)?;
    let classes = NameSet::of(class_of(&Name::new(alloc, "T")?));
    let all = settled_of(&tree, &Alert::none());
    let some = settled_of(&tree, &Alert::none().with_types(classes));
    assert_holds(
        &rt,
        all == Some(3) && some == Some(1),
        "the items of the top",
    );
    Ok(())
}

/// What is kept of the map as it is now over what was kept of it before, where this patch leads back. What is laid out anew is laid out so.
fn renewed_over<L: Lays>(
    alloc: Global,
    lay: &L,
    before: &Tree,
    back: &Patch,
    now: &Description,
) -> Result<RenewedMap, AllocError> {
    let mut marks = BodyMarks::new(alloc);
    marks.note(alloc, back)?;
    renewed(alloc, lay, before, &marks, now)
}

fn renewed_by<L: Lays>(
    alloc: Global,
    lay: &L,
    before: &Tree,
    now: &str,
    back: &Patch,
) -> Result<RenewedMap, Fail> {
    let now = description(alloc, now)?;
    let map = renewed_over(alloc, lay, before, back, &now)?;
    Ok(map)
}

/// A map that has one item more than it had, at this address, with what is kept of it over what was kept of it before.
fn renewed_with_one_more<L: Lays>(
    alloc: Global,
    lay: &L,
    before: &str,
    now: &str,
    numbers: &[usize],
) -> Result<RenewedMap, Fail> {
    let back = Patch::Delete(PatchAddress::new(alloc, &address(numbers))?);
    let before = tree_of(alloc, before)?;
    renewed_by(alloc, lay, &before, now, &back)
}

const FILLED: &str =
    "reg T { field {} f; }; addrmap top { T a; regfile { T b[4]; } r; regfile { T c; } e; };";

#[test]
fn what_holds_a_new_item_is_renewed(rt: HostRuntime) -> Result<(), Fail> {
    let alloc = rt.alloc();
    let RenewedMap {
        tree,
        is_clean,
        placed: _,
    } = renewed_with_one_more(alloc, &Nowhere, MAP, FILLED, &[1, 2, 0])?;
    let are_seen = is_seen(&tree, &[0], Kind::Reg, 1, false)
        && is_seen(&tree, &[1], Kind::Addrmap, 3, false)
        && is_seen(&tree, &[1, 1], Kind::Regfile, 2, false)
        && is_seen(&tree, &[1, 2], Kind::Regfile, 2, false);
    assert_holds(&rt, are_seen && is_none(&tree, &[1, 2, 0]), "the nodes");
    assert_holds(&rt, is_clean, "that no item has a fault");
    Ok(())
}

const NAMED: &str =
    "reg T { field {} f; name = \"x\"; }; addrmap top { T a; regfile { T b[4]; } r; regfile {} e; };";

#[test]
fn where_no_layout_depends_on_a_new_item_none_is_made(rt: HostRuntime) -> Result<(), Fail> {
    let alloc = rt.alloc();
    let map = renewed_with_one_more(alloc, &NoMemory, MAP, NAMED, &[0, 1])?;
    let are_seen = is_seen(&map.tree, &[0], Kind::Reg, 1, false)
        && is_seen(&map.tree, &[1], Kind::Addrmap, 3, true);
    assert_holds(&rt, are_seen, "the nodes");
    Ok(())
}

const TYPES: &str =
    "regfile T { reg { field {} f; } g; }; regfile U { T a; }; addrmap top { U b; };";

const DEEPER: &str =
    "regfile T { reg { field {} f; } g; regfile {} h; }; regfile U { T a; }; addrmap top { U b; };";

#[test]
fn who_refers_to_a_type_with_a_new_item_is_renewed(rt: HostRuntime) -> Result<(), Fail> {
    let alloc = rt.alloc();
    let RenewedMap {
        tree,
        is_clean,
        placed: _,
    } = renewed_with_one_more(alloc, &Nowhere, TYPES, DEEPER, &[0, 1])?;
    let are_seen = is_seen(&tree, &[0], Kind::Regfile, 2, true)
        && is_seen(&tree, &[0, 0], Kind::Reg, 1, false)
        && is_seen(&tree, &[0, 1], Kind::Regfile, 0, false)
        && is_seen(&tree, &[1], Kind::Regfile, 3, true)
        && is_seen(&tree, &[2], Kind::Addrmap, 4, true);
    assert_holds(&rt, are_seen, "the nodes");
    assert_holds(&rt, is_clean, "that no item has a fault");
    Ok(())
}

/// What is kept of a map of which this item was moved to the front, over what was kept of it before.
fn renewed_with_one_moved(
    alloc: Global,
    before: &str,
    now: &str,
    from: usize,
) -> Result<RenewedMap, Fail> {
    let back = Patch::Shift(PatchAddress::new(alloc, &address(&[0]))?, from);
    let before = tree_of(alloc, before)?;
    renewed_by(alloc, &Nowhere, &before, now, &back)
}

const LATE: &str = "addrmap top { T a; }; regfile T { reg { field {} f; } g; };";

const EARLY: &str = "regfile T { reg { field {} f; } g; }; addrmap top { T a; };";

#[test]
fn a_type_that_was_moved_is_seen_behind_its_place(rt: HostRuntime) -> Result<(), Fail> {
    let alloc = rt.alloc();
    let map = renewed_with_one_moved(alloc, LATE, EARLY, 1)?;
    let are_seen = is_seen(&map.tree, &[0], Kind::Regfile, 2, false)
        && is_seen(&map.tree, &[0, 0], Kind::Reg, 1, false)
        && is_seen(&map.tree, &[1], Kind::Addrmap, 3, false);
    assert_holds(&rt, are_seen, "the nodes");
    Ok(())
}
