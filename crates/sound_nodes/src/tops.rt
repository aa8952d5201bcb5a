//! Whether a map has rows, by what is kept of it.
ghost use Rattle.std.specs.Prelude.{◌≡◌, ◌+◌, ◌⊎◌, [], true, false, Some, Err, IfOk, IfErr, OnOk, option_copied};
ghost use Rattle.node_laws.specs.Laid.{laying};
ghost use Rattle.rdl_elab.specs.Faults.{elaborated};
ghost use Rattle.rdl_elab.specs.Known.{HasRows};
ghost use Rattle.rdl_scope.specs.ItemFaults.{fault_of, out_of_memory};
ghost use Rattle.rdl_seen.specs.Meaning.{nothing_around};
ghost use Rattle.rdl_seen.specs.Node.{body_of};
ghost use Rattle.sound_nodes.specs.Maps.{count_fault, size_fault, map_found, IsJudged};
ghost use Rattle.sound_nodes.specs.Rows.{faulty_or, searched};

use crate::found::Found;
use crate::rows::search;
use crate::within::is_within;
use rdl_elab::elaborate::{elaborate, find_top};
use rdl_nodes::tree::Tree;
use rdl_seen::mode::Mode;
use rdl_seen::seen::Seen;
use rdl_tree::address::Address;
use rdl_tree::description::Description;
use rdl_tree::fault::{Fault, FaultKind};
use std::alloc::{AllocError, Global};

/// Whether what is kept of the map tells that it has rows: its top is sound, and within the limits. Otherwise it may have some or none.
fn is_told(description: &Description, wanted: Option<&str>, tree: &Tree) -> bool
    requires faultless { fault_of description.now.items ≡ None }
    requires kept { tree.now ≡ (body_of laying nothing_around description.now.items).slots }
    ensures { result ≡ true → HasRows description.now.items (option_copied wanted.entry) }
{
    let Some(top) = find_top(description, wanted) else {
        return false;
    };
    let mut address = Address::new();
    address.push(top.number);
    match tree.node(&address) {
        Some(kept) => kept.seen.sound.has(Mode::Regalign) && is_within(kept.seen),
        None => false,
    }
}

fn no_top() -> Fault
    ensures { result ≡ record { kind = FaultKind.NoTop; address = [] } }
{
    Fault {
        kind: FaultKind::NoTop,
        address: Address::new(),
    }
}

fn no_memory() -> Fault
    ensures { result ≡ out_of_memory }
{
    Fault {
        kind: FaultKind::Memory,
        address: Address::new(),
    }
}

/// Too many levels, or too many rows, by what is seen of the top of a map.
fn count_fault(seen: &Seen) -> Option<FaultKind>
    ensures { result ≡ count_fault seen.now }
{
    if seen.levels >= 16 {
        Some(FaultKind::TooManyLevels)
    } else if seen.rows >= 65_536 {
        Some(FaultKind::TooManyRows)
    } else {
        None
    }
}

/// Too many bytes, by what is seen of the top of a map.
fn size_fault(seen: &Seen) -> Option<FaultKind>
    ensures { result ≡ size_fault seen.now }
{
    if seen.size.regalign > 1 << 40 {
        Some(FaultKind::MapTooLarge)
    } else {
        None
    }
}

/// The fault of the item at this address.
fn fault_there(at: &Address, kind: FaultKind) -> Found
    ensures { (more : Found) → result ≡ faulty_or at.now (Some kind) more }
{
    Found::Faulty(Fault {
        kind,
        address: at.copy(),
    })
}

/// What is found of a map whose top, at this address, is seen so: what is wrong with the whole, or else the fault of the first row that
/// has one. Where a component lacks instances, it isn't told which.
fn found_below(
    alloc: Global,
    description: &Description,
    tree: &Tree,
    at: &Address,
    seen: &Seen,
) -> Result<Found, AllocError>
    ensures { IfOk result (λ found. found ≡ map_found at.now seen.now (searched (seen.now.levels + 1) description.now.items tree.now false Mode.Regalign at.now)) }
{
    if let Some(kind) = count_fault(seen) {
        return Ok(fault_there(at, kind));
    }
    if seen.has_empty {
        return Ok(Found::Untold);
    }
    if let Some(kind) = size_fault(seen) {
        return Ok(fault_there(at, kind));
    }
    let levels = usize::from(seen.levels) + 1;
    search(alloc, description, tree, false, Mode::Regalign, at, levels)
}

/// What is found of the map, by what is kept of it: that it has rows, or the fault that it has, or neither, where that doesn't tell.
fn found_of(
    alloc: Global,
    description: &Description,
    wanted: Option<&str>,
    tree: &Tree,
) -> Result<Found, AllocError>
    requires faultless { fault_of description.now.items ≡ None }
    requires kept { tree.now ≡ (body_of laying nothing_around description.now.items).slots }
    ensures { IfOk result (λ found. IsJudged description.now.items (option_copied wanted.entry) found) }
{
    let Some(top) = find_top(description, wanted) else {
        return Ok(Found::Faulty(no_top()));
    };
    let mut address = Address::new();
    address.push(top.number);
    match tree.node(&address) {
        Some(kept) => found_below(alloc, description, tree, &address, kept.seen),
        None => Ok(Found::Untold),
    }
}

/// Whether a map whose items have no fault has rows, by what is kept of it: components that are sound, and to which nothing harmful
/// comes, are passed over in the search for the first row that has a fault. All rows are looked at only where that doesn't tell.
/// Otherwise the fault that it has: E13 to E23.
pub fn judge(
    alloc: Global,
    description: &Description,
    wanted: Option<&str>,
    tree: &Tree,
) -> Result<(), Fault>
    requires faultless { fault_of description.now.items ≡ None }
    requires kept { tree.now ≡ (body_of laying nothing_around description.now.items).slots }
    ensures ok { OnOk result (HasRows description.now.items (option_copied wanted.entry)) }
    ensures err { IfErr result (λ fault. (elaborated description.now.items (option_copied wanted.entry) ≡ Err fault) ⊎ (fault ≡ out_of_memory)) }
{
    if is_told(description, wanted, tree) {
        return Ok(());
    }
    let Ok(found) = found_of(alloc, description, wanted, tree) else {
        return Err(no_memory());
    };
    match &found {
        Found::Clear => Ok(()),
        Found::Faulty(fault) => Err(Fault {
            kind: fault.kind,
            address: fault.address.copy(),
        }),
        Found::Untold => {
            elaborate(alloc, description, wanted)?;
            Ok(())
        }
    }
}
