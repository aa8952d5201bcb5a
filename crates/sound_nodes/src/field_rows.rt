//! The fields of a register, of which one has a fault.
ghost use Rattle.std.specs.Prelude.{◌≡◌, ◌<◌, ◌∷◌, ◌++◌, [], length, map, option_copied, slice_get, IfOk};
ghost use Rattle.rdl_nodes.specs.Part.{access_of};
ghost use Rattle.rdl_nodes.specs.View.{slots_of};
ghost use Rattle.rdl_nodes.specs.KeptNode.{kept_of};
ghost use Rattle.rdl_seen.specs.Fields.{may_share, clashes_none};
ghost use Rattle.sound_nodes.specs.Rows.{field_fault, wide_reset, fields, fields_under, in_register, defaults_at};
ghost use Rattle.rdl_seen.specs.Values.{no_values};

use crate::found::{Found, faulty};
use crate::instances::{SeenInstance, instance_at, instances};
use crate::reached::defaults_of;
use rdl_nodes::layouts::Span;
use rdl_nodes::node::Kept;
use rdl_nodes::parts::{Part, parts};
use rdl_nodes::verdict::has_room;
use rdl_seen::mode::Mode;
use rdl_seen::values::{Access, Values};
use rdl_tree::address::Address;
use rdl_tree::description::{Body, Description};
use rdl_tree::fault::{Fault, FaultKind};
use std::alloc::{AllocError, Global};

/// Whether fields that are accessed so may share bits: one is only read, and the other only written.
fn may_share(first: Access, second: Access) -> bool
    ensures { result ≡ may_share first second }
{
    match (first, second) {
        (Access::OnlyReads, Access::OnlyWrites) => true,
        (Access::OnlyWrites, Access::OnlyReads) => true,
        _ => false,
    }
}

/// Whether a field clashes with none of these, which lie there.
fn clashes_none(span: Span, access: Access, spans: &[Span], parts: &[Part]) -> bool
    ensures { result ≡ clashes_none span access spans.now (map access_of parts.now) }
{
    for (i, other) in spans.iter().enumerate() {
        let Some(part) = parts.get(i) else {
            return true;
        };
        if span.overlaps(*other) && !may_share(access, part.access()) {
            return false;
        }
    }
    true
}

/// What is wrong with the bits of a field behind others, in a register of so many bits.
fn field_fault(
    bits: u64,
    before: &[Span],
    done: &[Part],
    span: Span,
    part: &Part,
) -> Option<FaultKind>
    ensures { result ≡ field_fault bits before.now done.now span part.now }
{
    if bits < span.end() {
        Some(FaultKind::FieldPastRegister)
    } else if !clashes_none(span, part.access(), before, done) {
        Some(FaultKind::FieldOverlap)
    } else {
        None
    }
}

/// What is found of the field of this number in the register at this address, whose reset doesn't fit: its fault, or nothing that is
/// told, if another reset may be assigned over it.
fn wide_reset(assigned: bool, at: &Address, number: usize) -> Found
    requires { length at.now < 17 }
    ensures { result ≡ wide_reset assigned (at.now ++ number ∷ []) }
{
    if assigned {
        return Found::Untold;
    }
    Found::Faulty(Fault {
        kind: FaultKind::ResetTooWide,
        address: at.inside(number),
    })
}

fn part_at<'p, 'a>(parts: &'p [Part<'a>], number: usize) -> Option<&'p Part<'a>>
    ensures { option_copied result ≡ slice_get parts.now number }
{
    parts.get(number)
}

/// The first fault of a field of the register at this address, of so many bits, to which what comes is harmless, if something may come by
/// which rows are judged.
fn fields(
    assigned: bool,
    at: &Address,
    bits: u64,
    spans: &[Span],
    instances: &[SeenInstance],
    parts: &[Part],
) -> Found
    requires { length at.now < 17 }
    ensures { result ≡ fields assigned at.now bits [] [] spans.now instances.now parts.now }
{
    for (i, span) in spans.iter().enumerate() {
        let Some(instance) = instance_at(instances, i) else {
            return Found::Clear;
        };
        let Some(part) = part_at(parts, i) else {
            return Found::Clear;
        };
        if let Some(kind) = field_fault(bits, &spans[..i], &parts[..i], *span, part) {
            return faulty(at, instance.number(), kind);
        }
        if !has_room(part.reset(), *span) {
            return wide_reset(assigned, at, instance.number());
        }
    }
    Found::Clear
}

/// The first fault of a field of the register at this address, which these defaults reach.
fn fields_under(
    alloc: Global,
    assigned: bool,
    at: &Address,
    body: &Body,
    kept: Kept,
    defaults: &Values,
) -> Result<Found, AllocError>
    requires { length at.now < 17 }
    ensures { IfOk result (λ found. found ≡ fields_under assigned at.now body.now (kept_of kept.entry) defaults.now) }
{
    let node = kept.node;
    let parts = parts(alloc, defaults, body, node.slots())?;
    let instances = instances(alloc, body, node.slots())?;
    let core = node.core();
    let spans = core.layouts.as_ref().under(Mode::Compact).spans();
    Ok(fields(
        assigned,
        at,
        core.values.register_bits(),
        spans,
        instances.as_slice(),
        parts.as_slice(),
    ))
}

/// The first fault of a field of the register at this address, if nothing may be assigned to a field by which its row is judged, or if
/// what may be is harmless.
pub(crate) fn in_register(
    alloc: Global,
    description: &Description,
    assigned: bool,
    harmless: bool,
    at: &Address,
    body: &Body,
    kept: Kept,
) -> Result<Found, AllocError>
    requires { length at.now < 17 }
    ensures { IfOk result (λ found. found ≡ in_register assigned harmless at.now body.now (kept_of kept.entry) (defaults_at no_values at.now description.now.items)) }
{
    if assigned && !harmless {
        return Ok(Found::Untold);
    }
    match defaults_of(description, at) {
        Some(defaults) => fields_under(alloc, assigned, at, body, kept, &defaults),
        None => Ok(Found::Untold),
    }
}
