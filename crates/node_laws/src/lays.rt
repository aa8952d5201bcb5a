//! How `rdl_elab` lays components out, for nodes.
ghost use Rattle.std.specs.Prelude.{◌≡◌, ◌∷◌, IfOk, OnOk, List, map, true, Some};
ghost use Rattle.std.specs.List.{list_all};
ghost use Rattle.node_laws.specs.Laid.{value_in, seen_span, seen_layout};
ghost use Rattle.node_laws.specs.Laying.{is_one_number, is_of_one_size, is_small, members_under, placement_under, bits_under, as_large, layout_by, one_by, each_by};
ghost use Rattle.node_laws.specs.Modes.{layout_mode, seen_mode};
ghost use Rattle.rdl_elab.specs.Capped.{IsAlignment, capped_layout};
ghost use Rattle.rdl_elab.specs.Layouts.{layout_values, power_in, width_in, container, laid_out};
ghost use Rattle.rdl_elab.specs.Placing.{with_behind};
ghost use Rattle.rdl_elab.specs.declared.layout.Placement.{Placement};
ghost use Rattle.rdl_nodes.specs.Part.{member_of};
ghost use Rattle.rdl_seen.specs.Modes.{number_under};

use rdl_elab::layout;
use rdl_elab::layout::bits::bits;
use rdl_elab::layout::component::{field, register};
use rdl_elab::layout::placing::Placing;
use rdl_elab::layout::{FieldBits, LayoutValues, Placement, Spans};
use rdl_nodes::layouts::{Layout, Layouts, Span};
use rdl_nodes::lays::Lays;
use rdl_nodes::parts::Part;
use rdl_scope::shells::product;
use rdl_seen::mode::Mode;
use rdl_seen::seen::ByMode;
use rdl_seen::values::Values;
use rdl_text::token::Number;
use rdl_tree::property::Form;
use rdl_tree::shell::Kind;
use rdl_tree::value::Value;
use std::alloc::{AllocError, Global};

/// Lays components out as `rdl_elab` does.
pub struct Elaborated;

/// A mode as layouts have it.
fn layout_mode(mode: Mode) -> layout::Mode
    ensures { result ≡ layout_mode mode }
{
    match mode {
        Mode::Compact => layout::Mode::Compact,
        Mode::Regalign => layout::Mode::Regalign,
        Mode::Fullalign => layout::Mode::Fullalign,
    }
}

/// A number that is a power of two.
fn power_in(number: Option<u64>) -> Option<Number>
    ensures { result ≡ power_in number }
{
    match number {
        Some(number) => {
            let number = Number::from(number);
            if number.is_power_of_two() {
                Some(number)
            } else {
                None
            }
        }
        None => None,
    }
}

/// A width of a register, in bits. A number that is none counts as 0.
fn width_in(bits: u64) -> u64
    ensures { result ≡ width_in (Some bits) }
{
    if Form::Widths.has(&Value::Number(Number::from(bits))) {
        bits
    } else {
        0
    }
}

/// The values on which the layouts of a component depend.
fn layout_values(values: &Values) -> LayoutValues
    ensures values { result ≡ layout_values (value_in values.now) }
    ensures alignment { IsAlignment result.alignment }
{
    LayoutValues {
        addressing: layout_mode(values.addressing.unwrap_or(Mode::Regalign)),
        alignment: power_in(values.alignment),
        regwidth: width_in(values.register_bits()),
        accesswidth: width_in(values.access_bits()),
        fieldwidth: Number::from(values.field_bits()),
    }
}

/// A number under a mode.
fn under(numbers: ByMode, mode: layout::Mode) -> u64
    ensures { result ≡ number_under numbers (seen_mode mode) }
{
    match mode {
        layout::Mode::Compact => numbers.compact,
        layout::Mode::Regalign => numbers.regalign,
        layout::Mode::Fullalign => numbers.fullalign,
    }
}

/// What the layout of an address map or a register file under a mode takes of an instance.
#[inline]
fn placement(part: &Part, mode: layout::Mode) -> Placement
    ensures { result ≡ placement_under mode (member_of part.now) }
{
    let shell = part.shell();
    let dims = shell.dims();
    Placement {
        size: under(part.size(), mode),
        access: under(part.widest(), mode),
        elements: product(dims),
        is_array: !dims.is_empty(),
        address: shell.address(),
        stride: shell.stride(),
        align: shell.align(),
    }
}

/// What the layout of a register takes of the instance of a field.
fn field_bits(part: &Part, mode: layout::Mode) -> FieldBits
    ensures { result ≡ bits_under mode (member_of part.now) }
{
    let shell = part.shell();
    let width = match shell.dims() {
        [] => Number::from(under(part.size(), mode)),
        [width, ..] => *width,
    };
    FieldBits {
        width,
        range: shell.range(),
    }
}

/// Whether a number is the same under each mode.
fn is_one_number(numbers: ByMode) -> bool
    ensures { result ≡ is_one_number numbers }
{
    numbers.compact == numbers.regalign && numbers.compact == numbers.fullalign
}

/// Whether the component of each of these instances has one size and one widest access, whatever the mode.
fn are_of_one_size(parts: &[Part]) -> bool
    ensures { result ≡ list_all (λ p. is_of_one_size (member_of p)) parts.now }
{
    parts.iter().all(|part| is_one_number(part.size()) && is_one_number(part.widest()))
}

fn seen_span(span: layout::Span) -> Span
    ensures { result ≡ seen_span span }
{
    Span::new(span.start, span.end)
}

fn seen_spans(alloc: Global, spans: &[layout::Span]) -> Result<Vec<Span>, AllocError>
    ensures { IfOk result (λ seen. seen.items ≡ map seen_span spans.now) }
{
    spans.iter().map(|span| seen_span(*span)).collect(alloc)
}

/// The same layout, as nodes keep it.
fn seen_layout(alloc: Global, layout: &layout::Layout) -> Result<Layout, AllocError>
    ensures { IfOk result (λ seen. seen ≡ seen_layout layout.now) }
{
    let spans = seen_spans(alloc, layout.spans.as_slice())?;
    Ok(Layout::new(layout.size, layout.access, spans))
}

/// A component with nothing in it that is as large as that of an instance under a mode.
#[inline]
fn as_large(alloc: Global, part: &Part, mode: layout::Mode) -> layout::Layout
    ensures { result ≡ as_large mode (member_of part.now) }
{
    layout::Layout {
        size: under(part.size(), mode),
        access: under(part.widest(), mode),
        spans: Spans::from_vec(Vec::new(alloc)),
    }
}

/// Places one more instance. If it says nothing but its name, no numbers are taken of it.
#[inline]
fn put_next(
    alloc: Global,
    placing: &mut Placing,
    part: &Part,
    mode: layout::Mode,
) -> Result<(), AllocError>
    requires alignment { IsAlignment placing.old.alignment }
    requires mode { placing.old.mode ≡ mode }
    ensures alignment { placing.new.alignment ≡ placing.old.alignment }
    ensures mode { placing.new.mode ≡ placing.old.mode }
    ensures one { OnOk result ((behind : List Placement) → with_behind placing.old (placement_under mode (member_of part.now) ∷ behind) ≡ with_behind placing.new behind) }
{
    if part.shell().is_bare() {
        let place = placing.bare_place(&as_large(alloc, part, mode));
        placing.put_bare(place)
    } else {
        placing.put(placement(part, mode))
    }
}

/// An address map or a register file whose instances stand under this mode, one after the other.
fn container(
    alloc: Global,
    alignment: Option<Number>,
    mode: layout::Mode,
    parts: &[Part],
) -> Result<layout::Layout, AllocError>
    requires { IsAlignment alignment }
    ensures { IfOk result (λ layout. layout ≡ capped_layout (container alignment mode (map (λ p. placement_under mode (member_of p)) parts.now))) }
{
    let mut placing = Placing::with_room(alloc, alignment, mode, parts.len())?;
    for part in parts {
        put_next(alloc, &mut placing, part, mode)?;
    }
    Ok(placing.layout())
}

/// What the layout of a register takes of the instances of its fields.
fn all_bits(alloc: Global, mode: layout::Mode, parts: &[Part]) -> Result<Vec<FieldBits>, AllocError>
    ensures { IfOk result (λ fields. fields.items ≡ map (λ p. bits_under mode (member_of p)) parts.now) }
{
    let mut fields = Vec::with_capacity(alloc, parts.len())?;
    for part in parts {
        fields.push(field_bits(part, mode))?;
    }
    Ok(fields)
}

/// A component whose instances stand under this mode.
fn laid_out(
    alloc: Global,
    kind: Kind,
    values: LayoutValues,
    mode: layout::Mode,
    parts: &[Part],
) -> Result<layout::Layout, AllocError>
    requires { IsAlignment values.alignment }
    ensures { IfOk result (λ layout. layout ≡ capped_layout (laid_out kind values mode (members_under mode (map member_of parts.now)))) }
{
    match kind {
        Kind::Addrmap | Kind::Regfile => container(alloc, values.alignment, mode, parts),
        Kind::Reg => {
            let fields = all_bits(alloc, mode, parts)?;
            Ok(register(values, bits(alloc, fields.as_slice())?))
        }
        Kind::Field => Ok(field(alloc, values)),
    }
}

/// The layout of a component whose instances stand under this mode.
fn layout_under(
    alloc: Global,
    kind: Kind,
    values: LayoutValues,
    mode: layout::Mode,
    parts: &[Part],
) -> Result<Layout, AllocError>
    requires { IsAlignment values.alignment }
    ensures { IfOk result (λ layout. layout ≡ layout_by kind values mode (map member_of parts.now)) }
{
    let layout = laid_out(alloc, kind, values, mode, parts)?;
    seen_layout(alloc, &layout)
}

/// The same layout for each mode, where the instances stand under this one whatever the mode.
fn one_layout(
    alloc: Global,
    kind: Kind,
    values: LayoutValues,
    mode: layout::Mode,
    parts: &[Part],
) -> Result<Layouts, AllocError>
    requires { IsAlignment values.alignment }
    ensures { IfOk result (λ layouts. layouts ≡ one_by kind values mode (map member_of parts.now)) }
{
    let layout = layout_under(alloc, kind, values, mode, parts)?;
    Ok(Layouts::same(layout))
}

/// The layouts of a component under the three modes, under which its instances stand, too.
fn each_layout(
    alloc: Global,
    kind: Kind,
    values: LayoutValues,
    parts: &[Part],
) -> Result<Layouts, AllocError>
    requires { IsAlignment values.alignment }
    ensures { IfOk result (λ layouts. layouts ≡ each_by kind values (map member_of parts.now)) }
{
    let compact = layout_under(alloc, kind, values, layout::Mode::Compact, parts)?;
    let regalign = layout_under(alloc, kind, values, layout::Mode::Regalign, parts)?;
    let fullalign = layout_under(alloc, kind, values, layout::Mode::Fullalign, parts)?;
    Layouts::of(alloc, compact, regalign, fullalign)
}

/// The layouts of a register or a field.
fn small_layouts(
    alloc: Global,
    kind: Kind,
    values: LayoutValues,
    parts: &[Part],
) -> Result<Layouts, AllocError>
    requires alignment { IsAlignment values.alignment }
    requires kind { is_small kind ≡ true }
    ensures { IfOk result (λ layouts. layouts ≡ each_by kind values (map member_of parts.now)) }
{
    if are_of_one_size(parts) {
        one_layout(alloc, kind, values, layout::Mode::Compact, parts)
    } else {
        each_layout(alloc, kind, values, parts)
    }
}

impl Lays for Elaborated {
    ghost use Rattle.node_laws.specs.BySaid.{goes_by_said};
    ghost use Rattle.node_laws.specs.Laid.{laying};

    ghost laying = { laying };

    ghost by_said = { goes_by_said };

    fn lay(
        &self,
        alloc: Global,
        kind: Kind,
        values: &Values,
        parts: &[Part],
    ) -> Result<Layouts, AllocError> {
        let values = layout_values(values);
        match kind {
            Kind::Addrmap => one_layout(alloc, kind, values, values.addressing, parts),
            Kind::Regfile => each_layout(alloc, kind, values, parts),
            Kind::Reg | Kind::Field => small_layouts(alloc, kind, values, parts),
        }
    }
}
