//! The rows of a map, level by level, up to the first that has a fault.
ghost use Rattle.std.specs.Prelude.{◌≡◌, ◌+◌, ◌++◌, ◌∷◌, [], List, nat_lt, unwrap_or, true, false, None, IfOk, OnOk, option_copied, option_map, slice_get};
ghost use Rattle.rdl_elab.specs.Rows.{location_of};
ghost use Rattle.rdl_elab.specs.Onward.{AreOnward};
ghost use Rattle.rdl_elab.specs.SiblingsBefore.{AreBefore, AreFirst, with_one};
ghost use Rattle.rdl_elab.specs.Reaches.{Reach, behind, values_along};
ghost use Rattle.rdl_tree.specs.declared.shell.Kind.{Kind};
ghost use Rattle.rdl_elab.specs.declared.row.PropertyValue.{PropertyValue};
ghost use Rattle.rdl_elab.specs.Finished.{under};
ghost use Rattle.rdl_elab.specs.FinishedRows.{finished_base, finished_values, finished_row, seen, finished_fault, field_fault, extent_fault, judged, surroundings_inside, finished_rows, finished_rows_below, told, overlaps_before};

pub mod siblings;

use crate::layout::{Mode, Span};
use crate::row::{Extent, LeadingNames, Location, Row, RowPath};
use crate::row_values::{ComponentValues, LastReset, RowValues};
use crate::rows::siblings::{Sibling, Siblings, as_sibling, is_in_order, is_reset_too_wide};
use crate::walk::finished::{Finished, Part};
use crate::walk::instances::mode_inside;
use crate::walk::reaches::{Assignment, Onward, has_come, with_own};
use crate::walk::shared::SharedAddress;
use crate::walk::values::row_values;
use rdl_text::token::Number;
use rdl_tree::fault::{Fault, FaultKind};
use rdl_tree::property::Property;
use rdl_tree::shell::Kind;
use rdl_tree::value::Value;
use std::alloc::{AllocError, Global};
use std::marker::Model;

/// What stands around the instances of a component. A contract sees `Surroundings`.
#[derive(Drop)]
pub(crate) struct Around<'r, 'a> {
    /// The mode in which the instances are placed.
    pub mode: Mode,
    /// From the top down to the component.
    pub names: LeadingNames,
    /// The address of the component, in bytes.
    pub base: u64,
    /// How many bits it has if it is a register.
    pub bits: u64,
    pub reaching: &'r [Assignment<'a>],
}

impl<'r, 'a> Model for Around<'r, 'a> {
    ghost use Rattle.rdl_elab.specs.FinishedRows.{Surroundings};

    ghost Value = { Surroundings };

    ghost view = { λ a. record { mode = a.mode; names = a.names; base = a.base; bits = a.bits; reaching = a.reaching.now } };
}

/// What is wrong with a row, whose address takes memory of its own. A contract sees the fault.
#[derive(Drop)]
pub(crate) struct RowFault {
    kind: FaultKind,
    at: SharedAddress,
}

impl Model for RowFault {
    ghost use Rattle.rdl_tree.specs.declared.fault.Fault.{Fault};

    ghost Value = { Fault };

    ghost view = { λ f. record { kind = f.kind; address = f.at } };
}

impl RowFault {
    ghost use Rattle.std.specs.Prelude.{◌≡◌};

    pub(crate) fn to_fault(&self) -> Fault
        ensures { result ≡ self.now }
    {
        Fault {
            kind: self.kind,
            address: self.at.address(),
        }
    }
}

fn base(kind: Kind, around: u64, span: Span) -> u64
    ensures { result ≡ finished_base kind around span }
{
    match kind {
        Kind::Field => around,
        _ => around.saturating_add(span.start),
    }
}

fn extent(alloc: Global, part: &Part, span: Span, size: u64) -> Result<Extent, AllocError>
    ensures { IfOk result (λ e. e ≡ record { offset = span.start; size = size; dims = part.now.shell.dims; stride = unwrap_or part.now.shell.stride size }) }
{
    if part.is_bare() {
        return Ok(Extent::single(span.start, size));
    }
    let stride = part.stride().unwrap_or(Number::from(size));
    Extent::new(alloc, span.start, size, part.shell().dims(), stride)
}

/// Where the row of an instance lies that is placed in this mode.
fn location(
    alloc: Global,
    mode: Mode,
    part: &Part,
    component: &Finished,
    span: Span,
) -> Result<Location, AllocError>
    ensures { IfOk result (λ location. location ≡ location_of component.now.kind part.now.shell span (under mode component.now.layouts).size) }
{
    match component.kind {
        Kind::Field => Ok(Location::Bits(span)),
        _ => {
            let size = component.layouts.under(mode).size;
            Ok(Location::Bytes(extent(alloc, part, span, size)?))
        }
    }
}

/// Whether nothing reaches an instance with this reset.
fn is_alone(reset: Option<Number>, reaching: &[Assignment]) -> bool
    ensures alone { result ≡ true → (k : Kind) (own : List PropertyValue) → own ≡ finished_values k reset reaching.now own }
    ensures reached { result ≡ false → (k : Kind) (own : List PropertyValue) → values_along k reset reaching.now own ≡ finished_values k reset reaching.now own }
{
    match reset {
        Some(_) => false,
        None => reaching.is_empty(),
    }
}

/// The values of the row of an instance with this reset, whose component has these values by itself.
fn values(
    alloc: Global,
    kind: Kind,
    reset: Option<Number>,
    reaching: &[Assignment],
    own: &ComponentValues,
    last: &mut LastReset,
) -> Result<RowValues, AllocError>
    ensures { IfOk result (λ values. values ≡ finished_values kind reset reaching.now own.now) }
{
    if has_come(reaching) {
        return row_values(alloc, kind, reset, reaching, own);
    }
    let own = own.share()?;
    if is_alone(reset, reaching) {
        return Ok(RowValues::of(own));
    }
    RowValues::with_reset(alloc, own, kind, reset, last)
}

/// Those of these assignments that go on from a level with so many instances, if there is any assignment.
fn onward_of<'r, 'a>(
    alloc: Global,
    reaching: &'r [Assignment<'a>],
    count: usize,
) -> Result<Option<Onward<'r, 'a>>, AllocError>
    ensures { IfOk result (λ onward. AreOnward onward reaching.now) }
{
    if reaching.is_empty() {
        return Ok(None);
    }
    Ok(Some(Onward::of(alloc, reaching, count)?))
}

/// Puts the assignments whose targets pass this instance, of a level that mostly has none, in the place of what is in the list.
fn put_behind<'a>(
    part: &Part,
    onward: Option<&Onward<'_, 'a>>,
    list: &mut Vec<Assignment<'a>>,
) -> Result<(), AllocError>
    ensures { OnOk result ((reaching : List Reach) → AreOnward (option_copied onward.entry) reaching → list.new.items ≡ behind part.now.at reaching) }
{
    match onward {
        Some(onward) => onward.put_behind(part, list),
        None => {
            list.clear();
            Ok(())
        }
    }
}

fn is_stride_too_small(stride: Option<Number>, size: u64) -> bool
    ensures { result ≡ nat_lt (unwrap_or stride size) size }
{
    match stride {
        Some(stride) => stride < Number::from(size),
        None => false,
    }
}

/// A row as its later siblings see it.
fn seen(span: Span, values: &RowValues) -> Sibling
    ensures { result ≡ seen span values.now }
{
    as_sibling(span, values.get(Property::Sw))
}

/// What is wrong with a field whose row has these values, in a register of so many bits.
fn field_fault(
    bits: u64,
    field: Sibling,
    before: &Siblings,
    values: &RowValues,
) -> Option<FaultKind>
    ensures { result ≡ field_fault bits field before.now values.now }
{
    if bits < field.span.end {
        Some(FaultKind::FieldPastRegister)
    } else if before.clash(field) {
        Some(FaultKind::FieldOverlap)
    } else if is_reset_too_wide(values.number(Property::Reset), field.span) {
        Some(FaultKind::ResetTooWide)
    } else {
        None
    }
}

/// What is wrong with the bytes of an instance.
fn extent_fault(part: &Part, size: u64, span: Span, before: &Siblings) -> Option<FaultKind>
    ensures { result ≡ extent_fault part.now.shell size span before.now }
{
    if is_stride_too_small(part.stride(), size) {
        Some(FaultKind::StrideTooSmall)
    } else if before.overlap(span) {
        Some(FaultKind::AddressOverlap)
    } else {
        None
    }
}

/// What is wrong with an instance whose row has these values, and which its later siblings see so.
fn fault_kind(
    around: &Around,
    part: &Part,
    component: &Finished,
    sibling: Sibling,
    before: &Siblings,
    values: &RowValues,
) -> Option<FaultKind>
    ensures { result ≡ finished_fault component.now.kind component.now.values around.now.bits part.now.shell (under around.now.mode component.now.layouts).size sibling before.now values.now }
{
    let size = component.layouts.under(around.mode).size;
    match component.kind {
        Kind::Field => field_fault(around.bits, sibling, before, values),
        Kind::Reg if component.values.regwidth < component.values.accesswidth => {
            Some(FaultKind::AccessTooWide)
        }
        _ => extent_fault(part, size, sibling.span, before),
    }
}

/// What is wrong with a field that no sibling before it overlaps, in a register of so many bits.
fn field_fault_alone(bits: u64, span: Span, values: &RowValues) -> Option<FaultKind>
    ensures { (before : List Sibling) → overlaps_before span before ≡ false → result ≡ field_fault bits (seen span values.now) before values.now }
{
    if bits < span.end {
        Some(FaultKind::FieldPastRegister)
    } else if is_reset_too_wide(values.number(Property::Reset), span) {
        Some(FaultKind::ResetTooWide)
    } else {
        None
    }
}

/// What is wrong with the bytes of an instance that is placed in this mode and overlaps no sibling before it.
fn extent_fault_alone(mode: Mode, part: &Part, component: &Finished) -> Option<FaultKind>
    ensures { (span : Span) (before : List Sibling) → overlaps_before span before ≡ false → result ≡ extent_fault part.now.shell (under mode component.now.layouts).size span before }
{
    if part.is_bare() {
        return None;
    }
    if is_stride_too_small(part.stride(), component.layouts.under(mode).size) {
        Some(FaultKind::StrideTooSmall)
    } else {
        None
    }
}

/// What is wrong with an instance that no sibling before it overlaps.
fn fault_alone(
    around: &Around,
    part: &Part,
    component: &Finished,
    span: Span,
    values: &RowValues,
) -> Option<FaultKind>
    ensures { (before : List Sibling) → overlaps_before span before ≡ false → result ≡ finished_fault component.now.kind component.now.values around.now.bits part.now.shell (under around.now.mode component.now.layouts).size (seen span values.now) before values.now }
{
    match component.kind {
        Kind::Field => field_fault_alone(around.bits, span, values),
        Kind::Reg if component.values.regwidth < component.values.accesswidth => {
            Some(FaultKind::AccessTooWide)
        }
        _ => extent_fault_alone(around.mode, part, component),
    }
}

/// What is wrong with an instance whose row has these values. If nothing is, it is put among its siblings, where these
/// are kept.
fn judge(
    around: &Around,
    part: &Part,
    component: &Finished,
    span: Span,
    values: &RowValues,
    siblings: &mut Option<Siblings>,
) -> Result<Option<FaultKind>, AllocError>
    ensures fault { IfOk result (λ fault. (before : List Sibling) → AreBefore siblings.old span before → fault ≡ finished_fault component.now.kind component.now.values around.now.bits part.now.shell (under around.now.mode component.now.layouts).size (seen span values.now) before values.now) }
    ensures siblings { IfOk result (λ fault. fault ≡ None → siblings.new ≡ with_one siblings.old (seen span values.now)) }
{
    let Some(kept) = siblings else {
        return Ok(fault_alone(around, part, component, span, values));
    };
    let sibling = seen(span, values);
    let fault = fault_kind(around, part, component, sibling, kept, values);
    if fault.is_none() {
        kept.push(sibling)?;
    }
    Ok(fault)
}

/// Judges an instance, and puts its row behind the others if nothing is wrong with it. It may share the last reset.
fn add_row(
    alloc: Global,
    around: &Around,
    part: &Part,
    component: &Finished,
    span: Span,
    reaching: &[Assignment],
    siblings: &mut Option<Siblings>,
    last: &mut LastReset,
    rows: &mut Vec<Row>,
) -> Result<Option<RowFault>, AllocError>
    requires { reaching.now ≡ behind part.now.at around.now.reaching }
    ensures told { IfOk result (λ fault. (before : List Sibling) → AreBefore siblings.old span before → record { fault = fault; rows = rows.new.items } ≡ told rows.old.items (judged around.now before span part.now component.now (finished_row around.now span part.now component.now) ∷ [])) }
    ensures siblings { IfOk result (λ fault. fault ≡ None → siblings.new ≡ with_one siblings.old (seen span (finished_row around.now span part.now component.now).values)) }
{
    let kind = component.kind;
    let values = values(alloc, kind, part.reset(), reaching, &component.shown, last)?;
    if let Some(kind) = judge(around, part, component, span, &values, siblings)? {
        let at = SharedAddress::new(alloc, part.at())?;
        return Ok(Some(RowFault { kind, at }));
    }
    let name = part.shell().name().try_copy(alloc)?;
    rows.push(Row {
        names: RowPath::new(around.names.share(alloc)?, name),
        kind,
        base: base(kind, around.base, span),
        location: location(alloc, around.mode, part, component, span)?,
        values,
    })?;
    Ok(None)
}

/// The assignments that have come this far and those of the component that stands here, if it has any.
fn with_own_if_any<'a>(
    alloc: Global,
    reaching: &[Assignment<'a>],
    own: &[Assignment<'a>],
) -> Result<Option<Vec<Assignment<'a>>>, AllocError>
    ensures { IfOk result (λ both. unwrap_or (option_map (λ list. list.items) both) reaching.now ≡ reaching.now ++ own.now) }
{
    if own.is_empty() {
        return Ok(None);
    }
    Ok(Some(with_own(alloc, reaching, own)?))
}

/// These assignments with those of the component, or these alone if it has none.
fn both_or<'r, 'a>(
    both: Option<&'r Vec<Assignment<'a>>>,
    reaching: &'r [Assignment<'a>],
) -> &'r [Assignment<'a>]
    ensures { result.now ≡ unwrap_or (option_map (λ list. list.items) (option_copied both.entry)) reaching.now }
{
    match both {
        Some(both) => both.as_slice(),
        None => reaching,
    }
}

/// No siblings, with room for those of so many instances. Where all stand in order none are kept: no instance overlaps
/// one before it.
fn siblings_of(alloc: Global, spans: &[Span], count: usize) -> Result<Option<Siblings>, AllocError>
    ensures { IfOk result (λ siblings. AreFirst siblings spans.now) }
{
    if is_in_order(spans) {
        return Ok(None);
    }
    Ok(Some(Siblings::with_room(alloc, count)?))
}

/// What stands around the instances of the component of a row.
fn inside<'r, 'a>(
    alloc: Global,
    around: &Around<'_, 'a>,
    span: Span,
    part: &Part<'a>,
    component: &Finished<'a>,
    reaching: &'r [Assignment<'a>],
) -> Result<Around<'r, 'a>, AllocError>
    requires { reaching.now ≡ behind part.now.at around.now.reaching ++ component.now.assignments.items }
    ensures { IfOk result (λ inside. inside ≡ surroundings_inside around.now part.now component.now (finished_row around.now span part.now component.now)) }
{
    Ok(Around {
        mode: mode_inside(component.kind, component.values, around.mode),
        names: around
            .names
            .inside(alloc, component.kind, part.shell().name())?,
        base: base(component.kind, around.base, span),
        bits: component.values.regwidth,
        reaching,
    })
}

fn span_at(spans: &[Span], number: usize) -> Option<Span>
    ensures { result ≡ slice_get spans.now number }
{
    spans.get(number).copied()
}

/// Puts the rows of the instances of the component of this instance, so many levels deep, behind the others, up to the
/// first that has a fault.
#[cycle(rows)]
fn add_below<'a>(
    alloc: Global,
    components: &[Finished<'a>],
    around: &Around<'_, 'a>,
    span: Span,
    part: &Part<'a>,
    component: &Finished<'a>,
    reaching: &[Assignment<'a>],
    levels: usize,
    last: &mut LastReset,
    rows: &mut Vec<Row>,
) -> Result<Option<RowFault>, AllocError>
    requires { reaching.now ≡ behind part.now.at around.now.reaching }
    ensures { IfOk result (λ fault. record { fault = fault; rows = rows.new.items } ≡ told rows.old.items (finished_rows_below levels components.now around.now span part.now component.now)) }
{
    let parts = component.parts.as_slice();
    if parts.is_empty() {
        return Ok(None);
    }
    let both = with_own_if_any(alloc, reaching, component.assignments.as_slice())?;
    let joined = both_or(both.as_ref(), &*reaching);
    let inside = inside(alloc, around, span, part, component, joined)?;
    let spans = component.layouts.under(around.mode).spans.as_slice();
    add_rows(alloc, components, &inside, spans, parts, levels, last, rows)
}

/// Puts the rows of the instances of a component, so many levels deep, behind the others, up to the first that has a
/// fault.
#[cycle(rows)]
pub(crate) fn add_rows<'a>(
    alloc: Global,
    components: &[Finished<'a>],
    around: &Around<'_, 'a>,
    spans: &[Span],
    parts: &[Part<'a>],
    levels: usize,
    last: &mut LastReset,
    rows: &mut Vec<Row>,
) -> Result<Option<RowFault>, AllocError>
    ensures { IfOk result (λ fault. record { fault = fault; rows = rows.new.items } ≡ told rows.old.items (finished_rows levels components.now around.now spans.now parts.now)) }
{
    if levels == 0 {
        return Ok(None);
    }
    let going = onward_of(alloc, around.reaching, parts.len())?;
    let onward = going.as_ref();
    let mut kept = siblings_of(alloc, spans, parts.len())?;
    let mut passed = Vec::new(alloc);
    for (i, part) in parts.iter().enumerate() {
        let Some(span) = span_at(spans, i) else {
            return Ok(None);
        };
        let Some(component) = part.component(components) else {
            return Ok(None);
        };
        put_behind(part, onward, &mut passed)?;
        let reaching = passed.as_slice();
        let fault = add_row(
            alloc, around, part, component, span, reaching, &mut kept, last, rows,
        )?;
        if fault.is_some() {
            return Ok(fault);
        }
        let fault = add_below(
            alloc,
            components,
            around,
            span,
            part,
            component,
            reaching,
            levels - 1,
            last,
            rows,
        )?;
        if fault.is_some() {
            return Ok(fault);
        }
    }
    Ok(None)
}
