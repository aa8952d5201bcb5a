//! The macros of the rows.
ghost use Rattle.std.specs.Prelude.{◌≡◌, ◌++◌, [], ◌∷◌, codes, string_bytes, IfOk, OnOk};
ghost use Rattle.rdl_header.specs.HeaderText.{path_text, array_macros, bytes_macros, word_macros, mask_macros, reset_macros, width_macros, bits_macros, macros_of, register_behind, macros_below, guard, macros};
ghost use Rattle.rdl_header.specs.Lines.{guarded, added, header_lines};
ghost use Rattle.rdl_header.specs.Marks.{row_marks, path_marks};
ghost use Rattle.std.specs.Fmt.{decimal};

use crate::bits::{mask, width};
use crate::head::{Head, push_path};
use crate::lines::Lines;
use crate::mark::push_marks;
use rdl_elab::layout::Span;
use rdl_elab::row::{Extent, Location, Row, RowPath};
use rdl_scope::shells::product;
use rdl_text::token::Number;
use rdl_tree::property::Property;
use rdl_write::push_decimal;
use std::alloc::{AllocError, Global};

/// One more than the greatest word of a number that needs several.
const WORD: Number = 1 << 32;

/// The ending with the number of a word behind it.
fn numbered(alloc: Global, ending: &str, index: u64) -> Result<String, AllocError>
    ensures { IfOk result (λ text. string_bytes text ≡ ending.now ++ decimal index) }
{
    let mut text = String::from_str(alloc, ending)?;
    push_decimal(&mut text, Number::from(index))?;
    Ok(text)
}

#[tactic(auto, using(crate::proofs::AddedLines::added_lines))]
fn add_array(
    lines: &mut Lines,
    head: &Head,
    dims: &[Number],
    stride: Number,
) -> Result<(), AllocError>
    ensures { OnOk result (lines.new ≡ added lines.old (array_macros head.now dims.now stride)) }
{
    if dims.is_empty() {
        return Ok(());
    }
    let count = product(dims);
    lines.push_decimal(head, "_count", count)?;
    lines.push_hexadecimal(head, "_stride", stride)?;
    Ok(())
}

/// The macros of an instance that has bytes.
#[tactic(auto, using(crate::proofs::AddedLines::added_lines), unfolding(crate::specs::HeaderText::bytes_macros))]
fn add_bytes(lines: &mut Lines, head: &Head, base: u64, extent: &Extent) -> Result<(), AllocError>
    ensures { OnOk result (lines.new ≡ added lines.old (bytes_macros head.now base extent.now)) }
{
    lines.push_hexadecimal(head, "_base", Number::from(base))?;
    lines.push_hexadecimal(head, "_offset", Number::from(extent.offset()))?;
    lines.push_hexadecimal(head, "_size", Number::from(extent.size()))?;
    let dims = extent.dims();
    add_array(lines, head, dims, extent.stride())
}

/// The macros of the first words of a number, of 32 bits each, the lowest first.
#[tactic(auto, using(crate::proofs::AddedLines::added_lines))]
fn add_words(
    alloc: Global,
    lines: &mut Lines,
    head: &Head,
    ending: &str,
    number: Number,
    count: u64,
) -> Result<(), AllocError>
    ensures { OnOk result (lines.new ≡ added lines.old (word_macros head.now ending.now number count)) }
{
    let mut rest = number;
    'words: for index in 0..count {
        let numbered = numbered(alloc, ending, index)?;
        lines.push_hexadecimal(head, numbered.as_str(), rest % WORD)?;
        rest /= WORD;
    }
    Ok(())
}

/// The macros of the bits that a field has, in a register of so many bytes.
fn add_mask(
    alloc: Global,
    lines: &mut Lines,
    head: &Head,
    register: u64,
    span: &Span,
) -> Result<(), AllocError>
    ensures { OnOk result (lines.new ≡ added lines.old (mask_macros head.now register span.now)) }
{
    if register > 8 {
        add_words(alloc, lines, head, "_bm", mask(span), 4)
    } else {
        lines.push_hexadecimal(head, "_bm", mask(span))
    }
}

/// The macros of the reset of a field of so many bits.
#[tactic(auto, using(crate::proofs::AddedLines::added_lines))]
fn add_reset(
    alloc: Global,
    lines: &mut Lines,
    head: &Head,
    width: u64,
    reset: Option<Number>,
) -> Result<(), AllocError>
    ensures { OnOk result (lines.new ≡ added lines.old (reset_macros head.now width reset)) }
{
    match reset {
        Some(number) if width > 64 => {
            add_words(alloc, lines, head, "_reset", number, width.div_ceil(32))
        }
        Some(number) => lines.push_hexadecimal(head, "_reset", number),
        None => Ok(()),
    }
}

/// The macros of a field behind that of its bits.
#[tactic(auto, using(crate::proofs::AddedLines::added_lines), unfolding(crate::specs::HeaderText::width_macros))]
fn add_width(
    alloc: Global,
    lines: &mut Lines,
    head: &Head,
    span: &Span,
    reset: Option<Number>,
) -> Result<(), AllocError>
    ensures { OnOk result (lines.new ≡ added lines.old (width_macros head.now span.now reset)) }
{
    let width = width(span);
    lines.push_decimal(head, "_bp", Number::from(span.start))?;
    lines.push_decimal(head, "_bw", Number::from(width))?;
    add_reset(alloc, lines, head, width, reset)
}

/// The macros of a field.
#[tactic(auto, using(crate::proofs::AddedLines::added_lines))]
fn add_bits(
    alloc: Global,
    lines: &mut Lines,
    head: &Head,
    register: u64,
    span: &Span,
    reset: Option<Number>,
) -> Result<(), AllocError>
    ensures { OnOk result (lines.new ≡ added lines.old (bits_macros head.now register span.now reset)) }
{
    add_mask(alloc, lines, head, register, span)?;
    add_width(alloc, lines, head, span, reset)
}

/// Puts the macros of a row, which has this path, behind the others. A field stands in a register of so many bytes.
fn add_row(
    alloc: Global,
    lines: &mut Lines,
    head: &Head,
    register: u64,
    row: &Row,
) -> Result<(), AllocError>
    requires { head.now ≡ path_text row.now.names }
    ensures { OnOk result (lines.new ≡ added lines.old (macros_of register row.now)) }
{
    match &row.location {
        Location::Bytes(extent) => add_bytes(lines, head, row.base, extent),
        Location::Bits(span) => {
            let reset = row.values.number(Property::Reset);
            add_bits(alloc, lines, head, register, span, reset)
        }
    }
}

/// The bytes of the register in which the fields behind a row stand.
fn register_behind(register: u64, location: &Location) -> u64
    ensures { result ≡ register_behind register location.now }
{
    match location {
        Location::Bytes(extent) => extent.size(),
        Location::Bits(_) => register,
    }
}

/// Puts the macros of these rows behind the others, and the marks of their paths.
#[tactic(auto, using(crate::proofs::AddedLines::added_lines))]
fn add_rows(
    alloc: Global,
    lines: &mut Lines,
    marks: &mut Vec<u64>,
    rows: &[Row],
) -> Result<(), AllocError>
    ensures lines { OnOk result (lines.new ≡ added lines.old (macros_below 0 rows.now)) }
    ensures marks { OnOk result (marks.new.items ≡ marks.old.items ++ path_marks rows.now) }
{
    let mut head = Head::new(alloc)?;
    let mut register = 0u64;
    'rows: for row in rows {
        head = head.of(&row.names)?;
        push_marks(marks, head.path(), row)?;
        add_row(alloc, lines, &head, register, row)?;
        register = register_behind(register, &row.location);
    }
    Ok(())
}

/// How many lines a row has, where no number takes several words.
fn count(location: &Location) -> usize {
    match location {
        Location::Bytes(extent) if extent.dims().is_empty() => 3,
        Location::Bytes(_) => 5,
        Location::Bits(_) => 4,
    }
}

/// How many bytes lines of so many macros mostly need, that begin with this path.
fn bytes(path: &RowPath, count: usize) -> usize {
    let parts = path.parts();
    let register = match parts.register {
        Some(name) => name.len().saturating_add(2),
        None => 0,
    };
    let around = parts.around.joined().len().saturating_add(register);
    let name = around.saturating_add(parts.last.len());
    name.saturating_add(32).saturating_mul(count)
}

/// How many bytes the lines of the rows mostly need.
fn room(rows: &[Row]) -> usize {
    let mut room = 64usize;
    'rows: for row in rows {
        room = room.saturating_add(bytes(&row.names, count(&row.location)));
    }
    room
}

/// The lines of the guard: the macro that is defined wherever the header of this top has been read. The mark of the top's path is
/// put behind the others.
fn guard(
    alloc: Global,
    room: usize,
    are_noted: bool,
    marks: &mut Vec<u64>,
    top: &Row,
) -> Result<Lines, AllocError>
    ensures lines { IfOk result (λ lines. lines ≡ guarded are_noted (guard top.now)) }
    ensures marks { OnOk result (marks.new.items ≡ marks.old.items ++ row_marks top.now) }
{
    let mut path = String::new(alloc);
    push_path(&mut path, &top.names)?;
    push_marks(marks, path.as_bytes(), top)?;
    Lines::guarded(alloc, room, are_noted, path.as_str())
}

/// The lines of the guard, of the macros of the rows below the top, and of the guard's end. The marks of the rows' paths are put
/// behind the others.
pub(crate) fn header_lines(
    alloc: Global,
    are_noted: bool,
    marks: &mut Vec<u64>,
    rows: &[Row],
) -> Result<Lines, AllocError>
    ensures lines { IfOk result (λ lines. lines ≡ header_lines are_noted (macros rows.now)) }
    ensures marks { OnOk result (marks.new.items ≡ marks.old.items ++ path_marks rows.now) }
{
    let [top, below @ ..] = rows else {
        return Ok(Lines::new(alloc, are_noted));
    };
    let mut lines = guard(alloc, room(rows), are_noted, marks, top)?;
    add_rows(alloc, &mut lines, marks, below)?;
    lines.end()?;
    Ok(lines)
}
