//! The search for the first row that has a fault, below a component.
ghost use Rattle.std.specs.Prelude.{◌≡◌, ◌<◌, ◌&&◌, true, [], length, IfOk};
ghost use Rattle.std.specs.List.{list_any};
ghost use Rattle.rdl_nodes.specs.Apart.{end_by};
ghost use Rattle.rdl_nodes.specs.KeptNode.{kept_of};
ghost use Rattle.rdl_nodes.specs.View.{add, slots_of};
ghost use Rattle.rdl_seen.specs.Contents.{are_harmless};
ghost use Rattle.rdl_seen.specs.Layouts.{overlaps, is_stride_wide};
ghost use Rattle.rdl_seen.specs.Slots.{Slots};
ghost use Rattle.sound_nodes.specs.Rows.{is_access_wide, seen_fault, seen_row, rows, mode_in, are_own_harmless, is_costly, in_container, in_component, below_instance, searched};

use crate::field_rows::in_register;
use crate::found::{Found, faulty};
use crate::instances::{SeenInstance, instance_at, instances};
use crate::reached::{assigns, component_address};
use rdl_nodes::apart::mode_inside;
use rdl_nodes::layouts::Span;
use rdl_nodes::node::{Kept, Slot};
use rdl_nodes::tree::Tree;
use rdl_seen::mode::Mode;
use rdl_seen::seen::Seen;
use rdl_seen::values::Values;
use rdl_text::token::Number;
use rdl_tree::address::Address;
use rdl_tree::description::{Body, Description};
use rdl_tree::fault::FaultKind;
use rdl_tree::shell::{Kind, Shell};
use std::alloc::{AllocError, Global};

/// Whether the access to a register is wider than the register, by what is seen of it.
fn is_access_wide(mode: Mode, seen: &Seen) -> bool
    ensures { result ≡ is_access_wide mode seen.now seen.now.kind }
{
    match seen.kind {
        Kind::Reg => seen.size.under(mode) < seen.widest.under(mode),
        Kind::Addrmap | Kind::Regfile | Kind::Field => false,
    }
}

/// Whether a stride is no smaller than the size of an element.
fn is_stride_wide(size: u64, stride: Option<Number>) -> bool
    ensures { result ≡ is_stride_wide size stride }
{
    match stride {
        Some(stride) => stride >= Number::from(size),
        None => true,
    }
}

/// Whether the span overlaps one of these.
fn overlaps_one(span: Span, others: &[Span]) -> bool
    ensures { result ≡ list_any (overlaps span) others.now }
{
    others.iter().any(|other| span.overlaps(*other))
}

/// Spans that are passed, in order: none of them ends behind the number.
#[derive(Clone, Copy)]
struct Passed<'s> {
    spans: &'s [Span],
    high: u64,
}

/// Whether the span overlaps one of those that are passed. Where it begins behind all of them it is compared with none.
#[tactic(auto, using(rdl_nodes::proofs::FromFront::overlaps_no_one))]
fn reaches_one(span: Span, before: Passed) -> bool
    requires { end_by before.high before.spans.now ≡ true }
    ensures { result ≡ list_any (overlaps span) before.entry.spans.now }
{
    span.start() < before.high && overlaps_one(span, before.spans)
}

/// What is wrong with an instance that is placed in this mode, behind others that lie there. If all are known to lie apart, nothing is
/// wrong with its bytes.
fn seen_fault(
    apart: bool,
    mode: Mode,
    before: Passed,
    span: Span,
    shell: &Shell,
    seen: &Seen,
) -> Option<FaultKind>
    requires { end_by before.high before.spans.now ≡ true }
    ensures { result ≡ seen_fault apart mode before.entry.spans.now span shell.now seen.now }
{
    if is_access_wide(mode, seen) {
        Some(FaultKind::AccessTooWide)
    } else if !apart && !is_stride_wide(seen.size.under(mode), shell.stride()) {
        Some(FaultKind::StrideTooSmall)
    } else if !apart && reaches_one(span, before) {
        Some(FaultKind::AddressOverlap)
    } else {
        None
    }
}

/// The mode under which the instances of a component of this kind stand, which stands under this one.
fn mode_in(kind: Kind, values: &Values, mode: Mode) -> Mode
    ensures { result ≡ mode_in kind values.now mode }
{
    match kind {
        Kind::Addrmap => mode_inside(values),
        Kind::Regfile | Kind::Reg | Kind::Field => mode,
    }
}

/// Whether the item can give no row a fault, if it is a dynamic assignment.
fn is_harmless(slot: &Slot, spans: &[Span], is_ordered: bool) -> bool
    ensures { (rest : Slots) → are_harmless (record { spans = spans.now; is_ordered = is_ordered }) (add slot.now rest) ≡ (result && are_harmless (record { spans = spans.now; is_ordered = is_ordered }) rest) }
{
    match slot {
        Slot::Dynamic(verdict) => verdict.is_harmless(spans, is_ordered),
        Slot::Own => true,
        Slot::Default(_) => true,
        Slot::Field(_) => true,
        Slot::Named(_, _) => true,
        Slot::Define(_, _, _) => true,
        Slot::Part(_) => true,
    }
}

/// Whether no dynamic assignment among the items can give a row a fault.
fn are_harmless(slots: &[Slot], spans: &[Span], is_ordered: bool) -> bool
    ensures { result ≡ are_harmless (record { spans = spans.now; is_ordered = is_ordered }) (slots_of slots.now) }
{
    for slot in slots {
        if !is_harmless(slot, spans, is_ordered) {
            return false;
        }
    }
    true
}

/// Whether no dynamic assignment in the body of a component can give a row a fault.
fn are_own_harmless(kept: Kept) -> bool
    ensures { result ≡ are_own_harmless (kept_of kept.entry) }
{
    let node = kept.node;
    let spans = node.core().layouts.as_ref().under(Mode::Compact).spans();
    are_harmless(node.slots(), spans, kept.seen.is_ordered)
}

/// How many instances that aren't known to lie apart are compared, each with those before it.
const MAX_COMPARED: usize = 2048;

/// Whether it takes long to find the first of these spans that overlaps one before it.
fn is_costly(apart: bool, spans: &[Span]) -> bool
    ensures { result ≡ is_costly apart spans.now }
{
    !apart && spans.len() > MAX_COMPARED
}

/// What is found below the instance of the body at this address, unless it is passed over: the component is sound, and nothing harmful
/// comes to it.
#[cycle(search)]
fn below_instance(
    alloc: Global,
    description: &Description,
    tree: &Tree,
    assigned: bool,
    mode: Mode,
    at: &Address,
    instance: &SeenInstance,
    seen: &Seen,
    levels: usize,
) -> Result<Found, AllocError>
    requires { length at.now < 17 }
    ensures { IfOk result (λ found. found ≡ below_instance (searched levels description.now.items tree.now) description.now.items assigned mode at.now instance.now seen.now) }
{
    if seen.sound.has(mode) {
        return Ok(Found::Clear);
    }
    let component = component_address(description, at.inside(instance.number()));
    search(alloc, description, tree, assigned, mode, &component, levels)
}

/// What is found at the instance of the body at this address, which lies behind others there, and below it.
#[cycle(search)]
fn seen_row(
    alloc: Global,
    description: &Description,
    tree: &Tree,
    assigned: bool,
    mode: Mode,
    at: &Address,
    apart: bool,
    before: Passed,
    span: Span,
    instance: &SeenInstance,
    levels: usize,
) -> Result<Found, AllocError>
    requires short { length at.now < 17 }
    requires passed { end_by before.high before.spans.now ≡ true }
    ensures { IfOk result (λ found. found ≡ seen_row (below_instance (searched levels description.now.items tree.now) description.now.items assigned mode at.now) at.now apart mode before.entry.spans.now span instance.now instance.now.seen) }
{
    let Some(seen) = instance.seen() else {
        return Ok(Found::Untold);
    };
    match seen_fault(apart, mode, before, span, instance.shell(), seen) {
        Some(kind) => Ok(faulty(at, instance.number(), kind)),
        None => {
            below_instance(
                alloc,
                description,
                tree,
                assigned,
                mode,
                at,
                instance,
                seen,
                levels,
            )
        }
    }
}

/// What is found first at the instances of the body at this address, which lie there, and below them.
#[cycle(search)]
fn rows(
    alloc: Global,
    description: &Description,
    tree: &Tree,
    assigned: bool,
    mode: Mode,
    at: &Address,
    apart: bool,
    spans: &[Span],
    instances: &[SeenInstance],
    levels: usize,
) -> Result<Found, AllocError>
    requires { length at.now < 17 }
    ensures { IfOk result (λ found. found ≡ rows (below_instance (searched levels description.now.items tree.now) description.now.items assigned mode at.now) at.now apart mode [] spans.now instances.now) }
{
    let mut high = 0;
    for (i, span) in spans.iter().enumerate() {
        let Some(instance) = instance_at(instances, i) else {
            return Ok(Found::Clear);
        };
        let before = Passed {
            spans: &spans[..i],
            high,
        };
        let found = seen_row(
            alloc,
            description,
            tree,
            assigned,
            mode,
            at,
            apart,
            before,
            *span,
            instance,
            levels,
        )?;
        if !found.is_clear() {
            return Ok(found);
        }
        high = high.max(span.end());
    }
    Ok(Found::Clear)
}

/// What is found first below the address map or register file at this address, which stands under this mode.
#[cycle(search)]
fn in_container(
    alloc: Global,
    description: &Description,
    tree: &Tree,
    assigned: bool,
    mode: Mode,
    at: &Address,
    body: &Body,
    kept: Kept,
    levels: usize,
) -> Result<Found, AllocError>
    requires { length at.now < 17 }
    ensures { IfOk result (λ found. found ≡ in_container (below_instance (searched levels description.now.items tree.now) description.now.items assigned (mode_in (kept_of kept.entry).core.seen.kind (kept_of kept.entry).core.values mode) at.now) at.now mode (mode_in (kept_of kept.entry).core.seen.kind (kept_of kept.entry).core.values mode) body.now (kept_of kept.entry)) }
{
    let node = kept.node;
    let core = node.core();
    let apart = core.apart.has(mode);
    let spans = core.layouts.as_ref().under(mode).spans();
    if !are_own_harmless(kept) || is_costly(apart, spans) {
        return Ok(Found::Untold);
    }
    let instances = instances(alloc, body, node.slots())?;
    rows(
        alloc,
        description,
        tree,
        assigned,
        mode_in(kept.seen.kind, &core.values, mode),
        at,
        apart,
        spans,
        instances.as_slice(),
        levels,
    )
}

/// What is found first below the component at this address, which stands under this mode.
#[cycle(search)]
fn in_component(
    alloc: Global,
    description: &Description,
    tree: &Tree,
    assigned: bool,
    mode: Mode,
    at: &Address,
    body: &Body,
    kept: Kept,
    levels: usize,
) -> Result<Found, AllocError>
    requires { length at.now < 17 }
    ensures { IfOk result (λ found. found ≡ in_component (searched levels description.now.items tree.now) description.now.items assigned mode at.now body.now (kept_of kept.entry)) }
{
    let assigned = assigned || assigns(body);
    match kept.seen.kind {
        Kind::Field => Ok(Found::Clear),
        Kind::Reg => {
            let harmless = are_own_harmless(kept);
            in_register(alloc, description, assigned, harmless, at, body, kept)
        }
        Kind::Addrmap | Kind::Regfile => {
            in_container(
                alloc,
                description,
                tree,
                assigned,
                mode,
                at,
                body,
                kept,
                levels,
            )
        }
    }
}

/// The fault of the first row that has one, below the component at this address, which stands under this mode. Components that are sound
/// are passed over. Where what is kept doesn't tell, as where a value is assigned from around that is harmful, nothing is known.
#[cycle(search)]
pub(crate) fn search(
    alloc: Global,
    description: &Description,
    tree: &Tree,
    assigned: bool,
    mode: Mode,
    at: &Address,
    levels: usize,
) -> Result<Found, AllocError>
    ensures { IfOk result (λ found. found ≡ searched levels description.now.items tree.now assigned mode at.now) }
{
    if levels == 0 || at.len() >= Address::MAX_LEN {
        return Ok(Found::Untold);
    }
    let Some(body) = description.body(at) else {
        return Ok(Found::Untold);
    };
    let Some(kept) = tree.node(at) else {
        return Ok(Found::Untold);
    };
    in_component(
        alloc,
        description,
        tree,
        assigned,
        mode,
        at,
        body,
        kept,
        levels - 1,
    )
}
