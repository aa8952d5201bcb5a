//! The line of a row.
ghost use Rattle.std.specs.Prelude.{◌≡◌, ◌<◌, ◌++◌, ◌∷◌, [], codes, drop, option_copied, string_bytes, OnOk};
ghost use Rattle.std.specs.List.{flat_map};
ghost use Rattle.std.specs.Option.{option_to_list};
ghost use Rattle.rdl_write.specs.Texts.{hexadecimal, kind_text, newline};
ghost use Rattle.rdl_elab.specs.declared.row.Location.TheVariants.{Bits, Bytes};
ghost use Rattle.rdl_list.specs.ListText.{path_text, stride_text, reset_text, head_text, extent_text, bytes_line, span_text, bits_line, line_of, text_at, text_of};

use rdl_elab::layout::Span;
use rdl_elab::row::{DottedNames, Extent, Location, Row, RowPath};
use rdl_text::name::Name;
use rdl_text::token::Number;
use rdl_tree::property::Property;
use rdl_tree::shell::Kind;
use rdl_write::{push_dims, push_hexadecimal, push_hexadecimal_end, push_high_low};
use std::alloc::AllocError;

/// Appends the name of a register, if there is one, and a dot.
fn push_register(text: &mut String, register: Option<&Name>) -> Result<(), AllocError>
    ensures { OnOk result (string_bytes text.new ≡ string_bytes text.old ++ flat_map (λ name. name ++ codes ".") (option_to_list (option_copied register.entry))) }
{
    match register {
        Some(name) => {
            text.push_str(name.as_str())?;
            text.push_str(".")
        }
        None => Ok(()),
    }
}

/// Appends the last name where no more than the name of the register before it is left out, or a dot.
fn push_end(
    text: &mut String,
    register: Option<&Name>,
    last: &Name,
    left_out: usize,
) -> Result<(), AllocError>
    requires { 0 < left_out }
    ensures { OnOk result (string_bytes text.new ≡ string_bytes text.old ++ path_text (drop left_out (option_to_list (option_copied register.entry) ++ last.now ∷ []))) }
{
    match register {
        Some(_) if left_out == 1 => text.push_str(last.as_str()),
        _ => text.push_str("."),
    }
}

/// Appends the last name behind these and that of the register, with dots between them.
#[tactic(auto, using(crate::proofs::Paths::path_whole))]
fn push_names(
    text: &mut String,
    around: &DottedNames,
    register: Option<&Name>,
    last: &Name,
) -> Result<(), AllocError>
    ensures { OnOk result (string_bytes text.new ≡ string_bytes text.old ++ path_text ((around.now ++ option_to_list (option_copied register.entry)) ++ last.now ∷ [])) }
{
    text.push_str(around.as_str())?;
    push_register(text, register)?;
    text.push_str(last.as_str())
}

/// Appends the names of a path with dots between them, but for so many of the first. Where none is left it appends a dot.
pub fn push_path(text: &mut String, path: &RowPath, left_out: usize) -> Result<(), AllocError>
    ensures { OnOk result (string_bytes text.new ≡ string_bytes text.old ++ path_text (drop left_out path.now)) }
{
    let parts = path.parts();
    let mut around = parts.around.names();
    'left_out: for passed in 0..left_out {
        if around.next().is_none() {
            return push_end(text, parts.register, parts.last, left_out - passed);
        }
    }
    push_names(text, &around, parts.register, parts.last)
}

/// Appends a number behind its word, which has a space on both sides.
fn push_part(text: &mut String, word: &str, number: Number) -> Result<(), AllocError>
    ensures { OnOk result (string_bytes text.new ≡ string_bytes text.old ++ word.now ++ hexadecimal number) }
{
    text.push_str(word)?;
    push_hexadecimal(text, number)
}

/// Ends a line with a number behind its word, which has a space before it.
fn push_part_end(text: &mut String, word: &str, number: Number) -> Result<(), AllocError>
    ensures { OnOk result (string_bytes text.new ≡ string_bytes text.old ++ word.now ++ codes " " ++ hexadecimal number ++ newline) }
{
    text.push_str(word)?;
    push_hexadecimal_end(text, number)
}

fn push_reset(text: &mut String, reset: Option<Number>) -> Result<(), AllocError>
    ensures { OnOk result (string_bytes text.new ≡ string_bytes text.old ++ reset_text reset) }
{
    match reset {
        Some(number) => push_part(text, " reset ", number),
        None => Ok(()),
    }
}

/// Ends the line of a field.
fn push_reset_end(text: &mut String, reset: Option<Number>) -> Result<(), AllocError>
    ensures { OnOk result (string_bytes text.new ≡ string_bytes text.old ++ reset_text reset ++ newline) }
{
    match reset {
        Some(number) => push_part_end(text, " reset", number),
        None => text.push_str("\n"),
    }
}

/// The word for a kind of component, between spaces.
fn kind_between(kind: Kind) -> &'static str
    ensures { result.now ≡ codes " " ++ kind_text kind ++ codes " " }
{
    match kind {
        Kind::Addrmap => " addrmap ",
        Kind::Regfile => " regfile ",
        Kind::Reg => " reg ",
        Kind::Field => " field ",
    }
}

#[tactic(auto, unfolding(crate::specs::ListText::head_text))]
fn push_head(text: &mut String, row: &Row, left_out: usize) -> Result<(), AllocError>
    ensures { OnOk result (string_bytes text.new ≡ string_bytes text.old ++ head_text (path_text (drop left_out row.now.names)) row.now) }
{
    push_hexadecimal(text, Number::from(row.base))?;
    text.push_str(kind_between(row.kind))?;
    push_path(text, &row.names, left_out)
}

fn push_stride(text: &mut String, extent: &Extent) -> Result<(), AllocError>
    ensures { OnOk result (string_bytes text.new ≡ string_bytes text.old ++ stride_text extent.now.dims extent.now.stride) }
{
    match extent.dims() {
        [] => Ok(()),
        [_, ..] => push_part(text, " stride ", extent.stride()),
    }
}

/// Appends what is told of bytes.
#[tactic(auto, unfolding(crate::specs::ListText::extent_text))]
fn push_extent(text: &mut String, extent: &Extent) -> Result<(), AllocError>
    ensures { OnOk result (string_bytes text.new ≡ string_bytes text.old ++ extent_text extent.now) }
{
    push_dims(text, extent.dims())?;
    push_part(text, " size ", Number::from(extent.size()))?;
    push_stride(text, extent)
}

/// Ends the line of what has bytes.
#[tactic(auto, unfolding(crate::specs::ListText::extent_text))]
fn push_extent_end(text: &mut String, extent: &Extent) -> Result<(), AllocError>
    ensures { OnOk result (string_bytes text.new ≡ string_bytes text.old ++ extent_text extent.now ++ newline) }
{
    let dims = extent.dims();
    if dims.is_empty() {
        return push_part_end(text, " size", Number::from(extent.size()));
    }
    push_dims(text, dims)?;
    push_part(text, " size ", Number::from(extent.size()))?;
    push_part_end(text, " stride", extent.stride())
}

fn push_bytes(
    text: &mut String,
    row: &Row,
    extent: &Extent,
    left_out: usize,
) -> Result<(), AllocError>
    ensures { OnOk result (string_bytes text.new ≡ string_bytes text.old ++ bytes_line (path_text (drop left_out row.now.names)) row.now extent.now) }
{
    push_head(text, row, left_out)?;
    push_extent_end(text, extent)
}

/// Appends the bits of a field, `[HIGH:LOW]`.
pub fn push_span(text: &mut String, span: &Span) -> Result<(), AllocError>
    ensures { OnOk result (string_bytes text.new ≡ string_bytes text.old ++ span_text span.now) }
{
    let high = span.end.saturating_sub(1);
    push_high_low(text, high, span.start)
}

#[tactic(auto, unfolding(crate::specs::ListText::bits_line))]
fn push_bits(text: &mut String, row: &Row, span: &Span, left_out: usize) -> Result<(), AllocError>
    ensures { OnOk result (string_bytes text.new ≡ string_bytes text.old ++ bits_line (path_text (drop left_out row.now.names)) row.now span.now) }
{
    push_span(text, span)?;
    text.push_str(" field ")?;
    push_path(text, &row.names, left_out)?;
    push_reset_end(text, row.values.number(Property::Reset))
}

/// Appends the line of a row, whose PATH is the names of the row but for so many of the first.
pub fn push_row(text: &mut String, row: &Row, left_out: usize) -> Result<(), AllocError>
    ensures { OnOk result (string_bytes text.new ≡ string_bytes text.old ++ line_of (path_text (drop left_out row.now.names)) row.now) }
{
    match &row.location {
        Location::Bytes(extent) => push_bytes(text, row, extent, left_out),
        Location::Bits(span) => push_bits(text, row, span, left_out),
    }
}

fn push_bytes_text(
    text: &mut String,
    row: &Row,
    extent: &Extent,
    left_out: usize,
) -> Result<(), AllocError>
    ensures { OnOk result (string_bytes text.new ≡ string_bytes text.old ++ text_at (path_text (drop left_out row.now.names)) row.now (Bytes extent.now)) }
{
    push_head(text, row, left_out)?;
    push_extent(text, extent)
}

fn push_bits_text(
    text: &mut String,
    row: &Row,
    span: &Span,
    left_out: usize,
) -> Result<(), AllocError>
    ensures { OnOk result (string_bytes text.new ≡ string_bytes text.old ++ text_at (path_text (drop left_out row.now.names)) row.now (Bits span.now)) }
{
    push_span(text, span)?;
    text.push_str(" field ")?;
    push_path(text, &row.names, left_out)?;
    push_reset(text, row.values.number(Property::Reset))
}

/// Appends a row as in its line, without the end of the line.
pub fn push_row_text(text: &mut String, row: &Row, left_out: usize) -> Result<(), AllocError>
    ensures { OnOk result (string_bytes text.new ≡ string_bytes text.old ++ text_of (path_text (drop left_out row.now.names)) row.now) }
{
    match &row.location {
        Location::Bytes(extent) => push_bytes_text(text, row, extent, left_out),
        Location::Bits(span) => push_bits_text(text, row, span, left_out),
    }
}
