//! What a row tells.
ghost use Rattle.std.specs.Prelude.{◌≡◌, ◌++◌, string_bytes, OnOk, option_copied, option_map};
ghost use Rattle.std.specs.Option.{option_eq};
ghost use Rattle.rdl_list.specs.ListText.{span_text};
ghost use Rattle.rdl_write.specs.Texts.{hexadecimal, quote};
ghost use Rattle.rdl_diff.specs.Escaped.{escaped};
ghost use Rattle.rdl_diff.specs.Told.{told, told_text, told_value_text, same, same_kind, same_span, same_value, or_none, sizes_text};
ghost use Rattle.rdl_diff.specs.Seen.{seen};

use crate::escaped::push_escaped;
use crate::location::{bits_at, dims_at, offset_at, size_at, stride_at};
use crate::what::What;
use rdl_elab::layout::Span;
use rdl_elab::row::Row;
use rdl_list::push_span;
use rdl_text::token::Number;
use rdl_tree::shell::Kind;
use rdl_tree::value::Value;
use rdl_write::{kind_text, push_dims, push_hexadecimal, push_value};
use std::alloc::AllocError;

/// What a part of a row is.
#[derive(Drop)]
pub(crate) enum Told<'a> {
    Kind(Kind),
    Number(Option<Number>),
    Sizes(&'a [Number]),
    Bits(Option<Span>),
    Value(Option<&'a Value>),
}

/// What the row tells of this.
#[inline(always)]
pub(crate) fn told_by(row: &Row, what: What) -> Told<'_>
    ensures { seen result ≡ told what row.now }
{
    match what {
        What::Kind => Told::Kind(row.kind),
        What::Base => Told::Number(Some(Number::from(row.base))),
        What::Offset => Told::Number(offset_at(&row.location)),
        What::Size => Told::Number(size_at(&row.location)),
        What::Dims => Told::Sizes(dims_at(&row.location)),
        What::Stride => Told::Number(stride_at(&row.location)),
        What::Bits => Told::Bits(bits_at(&row.location)),
        What::Value(property) => Told::Value(row.values.get(property)),
    }
}

fn is_same_kind(a: Kind, b: Kind) -> bool
    ensures { result ≡ same_kind a b }
{
    matches!(
        (a, b),
        (Kind::Addrmap, Kind::Addrmap)
            | (Kind::Regfile, Kind::Regfile)
            | (Kind::Reg, Kind::Reg)
            | (Kind::Field, Kind::Field)
    )
}

fn is_same_span(a: Option<Span>, b: Option<Span>) -> bool
    ensures { result ≡ option_eq same_span a b }
{
    match (a, b) {
        (Some(a), Some(b)) => a.start == b.start && a.end == b.end,
        (None, None) => true,
        _ => false,
    }
}

/// Whether two values are the same.
pub(crate) fn is_same_value(a: &Value, b: &Value) -> bool
    ensures { result ≡ same_value a.now b.now }
{
    match (a, b) {
        (Value::Number(a), Value::Number(b)) => *a == *b,
        (Value::Text(a), Value::Text(b)) => a.as_str() == b.as_str(),
        (Value::Bool(a), Value::Bool(b)) => *a == *b,
        (Value::Word(a), Value::Word(b)) => a.text() == b.text(),
        _ => false,
    }
}

/// Whether both rows have no value, or the same.
pub(crate) fn are_same_values(a: Option<&Value>, b: Option<&Value>) -> bool
    ensures { result ≡ option_eq same_value (option_copied a.entry) (option_copied b.entry) }
{
    match (a, b) {
        (Some(a), Some(b)) => is_same_value(a, b),
        (None, None) => true,
        _ => false,
    }
}

/// Whether two parts are the same.
#[inline(always)]
pub(crate) fn is_same(a: &Told, b: &Told) -> bool
    ensures { result ≡ same (seen a.now) (seen b.now) }
{
    match (a, b) {
        (Told::Kind(a), Told::Kind(b)) => is_same_kind(*a, *b),
        (Told::Number(a), Told::Number(b)) => *a == *b,
        (Told::Sizes(a), Told::Sizes(b)) => *a == *b,
        (Told::Bits(a), Told::Bits(b)) => is_same_span(*a, *b),
        (Told::Value(a), Told::Value(b)) => are_same_values(*a, *b),
        _ => false,
    }
}

fn push_number(text: &mut String, number: Option<Number>) -> Result<(), AllocError>
    ensures { OnOk result (string_bytes text.new ≡ string_bytes text.old ++ or_none (option_map hexadecimal number)) }
{
    match number {
        Some(number) => push_hexadecimal(text, number),
        None => text.push_str("none"),
    }
}

/// Appends the sizes of an array.
pub(crate) fn push_sizes(text: &mut String, dims: &[Number]) -> Result<(), AllocError>
    ensures { OnOk result (string_bytes text.new ≡ string_bytes text.old ++ sizes_text dims.now) }
{
    match dims {
        [] => text.push_str("none"),
        [_, ..] => push_dims(text, dims),
    }
}

fn push_bits(text: &mut String, span: Option<Span>) -> Result<(), AllocError>
    ensures { OnOk result (string_bytes text.new ≡ string_bytes text.old ++ or_none (option_map span_text span)) }
{
    match span {
        Some(span) => push_span(text, &span),
        None => text.push_str("none"),
    }
}

/// Appends a string in quotes.
fn push_string(text: &mut String, string: &str) -> Result<(), AllocError>
    ensures { OnOk result (string_bytes text.new ≡ string_bytes text.old ++ (quote ++ escaped string.now ++ quote)) }
{
    text.push_str("\"")?;
    push_escaped(text, string)?;
    text.push_str("\"")
}

/// Appends a value; a number stands as in the lines of rows.
pub(crate) fn push_given(text: &mut String, value: &Value) -> Result<(), AllocError>
    ensures { OnOk result (string_bytes text.new ≡ string_bytes text.old ++ told_value_text value.now) }
{
    match value {
        Value::Number(number) => push_hexadecimal(text, *number),
        Value::Text(string) => push_string(text, string.as_str()),
        Value::Bool(_) | Value::Word(_) => push_value(text, value),
    }
}

fn push_given_if(text: &mut String, value: Option<&Value>) -> Result<(), AllocError>
    ensures { OnOk result (string_bytes text.new ≡ string_bytes text.old ++ or_none (option_map told_value_text (option_copied value.entry))) }
{
    match value {
        Some(value) => push_given(text, value),
        None => text.push_str("none"),
    }
}

/// Appends what a part is.
pub(crate) fn push_told(text: &mut String, part: &Told) -> Result<(), AllocError>
    ensures { OnOk result (string_bytes text.new ≡ string_bytes text.old ++ told_text (seen part.now)) }
{
    match part {
        Told::Kind(kind) => text.push_str(kind_text(*kind)),
        Told::Number(number) => push_number(text, *number),
        Told::Sizes(dims) => push_sizes(text, dims),
        Told::Bits(span) => push_bits(text, *span),
        Told::Value(value) => push_given_if(text, *value),
    }
}
