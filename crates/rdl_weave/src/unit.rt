//! The indentation and the line ends of a source.

use crate::bytes::{first_line, part};
use crate::render::own_indent;
use crate::spell::Style;
use rdl_source::statement::{Inner, Statement, Statements};

/// By what a body is indented deeper than its holder, if the first statement of both begins a line.
fn unit_of_inner<'a>(source: &'a [u8], statement: &Statement, inner: &Inner) -> Option<&'a str> {
    let outer = own_indent(source, statement)?;
    let first = inner.body.as_slice().first()?;
    let deeper = own_indent(source, first)?;
    match deeper.strip_prefix(outer) {
        Some("") => None,
        unit => unit,
    }
}

/// The same of the first body of these statements, at any depth, where there is one.
#[cycle(unit)]
fn unit_in<'a>(source: &'a [u8], statements: &Statements) -> Option<&'a str> {
    'statements: for statement in statements.as_slice() {
        if let Some(inner) = &statement.inside {
            if let Some(unit) = unit_of_inner(source, statement, inner) {
                return Some(unit);
            }
            if let Some(unit) = unit_in(source, &inner.body) {
                return Some(unit);
            }
        }
    }
    None
}

/// How new lines of a source are laid out.
pub(crate) fn style_of<'a>(source: &'a [u8], statements: &Statements) -> Style<'a> {
    let line = part(source, 0, first_line(source));
    Style {
        line_end: if line.ends_with(b"\r\n") {
            "\r\n"
        } else {
            "\n"
        },
        unit: unit_in(source, statements).unwrap_or("    "),
    }
}
