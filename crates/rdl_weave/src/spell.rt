//! New words: items as they are spelled anew, and parts of them.

use rdl_text::token::Number;
use rdl_tree::description::{Body, Component, Item, Of};
use rdl_tree::shell::{Outside, Shell};
use rdl_tree::value::Value;
use rdl_write::{kind_text, push_decimal, push_dims, push_hexadecimal, push_names, push_value};
use std::alloc::{AllocError, Global};

/// How many columns a body has at most that stands on one line.
const COLUMNS: usize = 100;

/// How new lines are laid out.
#[derive(Clone, Copy)]
pub(crate) struct Style<'a> {
    /// What a line ends with.
    pub(crate) line_end: &'a str,
    /// By what a body is indented deeper than the line that it begins in.
    pub(crate) unit: &'a str,
}

/// `external ` or `internal `, where it is said.
pub(crate) fn outside_text(outside: Outside) -> &'static str {
    match outside {
        Outside::Unsaid => "",
        Outside::External => "external ",
        Outside::Internal => "internal ",
    }
}

/// Appends the sizes or the bits of an instance.
pub(crate) fn push_brackets(text: &mut String, shell: &Shell) -> Result<(), AllocError> {
    push_dims(text, shell.dims())?;
    if let Some((high, low)) = shell.range() {
        text.push_str("[")?;
        push_decimal(text, high)?;
        text.push_str(":")?;
        push_decimal(text, low)?;
        text.push_str("]")?;
    }
    Ok(())
}

/// Appends a part of an instance, with its mark and a blank before it.
pub(crate) fn push_part(
    text: &mut String,
    mark: &str,
    part: Option<Number>,
) -> Result<(), AllocError> {
    if let Some(number) = part {
        text.push_str(" ")?;
        text.push_str(mark)?;
        text.push_str(" ")?;
        push_hexadecimal(text, number)?;
    }
    Ok(())
}

/// Appends the name of an instance and its parts.
pub(crate) fn push_shell(text: &mut String, shell: &Shell) -> Result<(), AllocError> {
    text.push_str(shell.name().as_str())?;
    push_brackets(text, shell)?;
    push_part(text, "=", shell.reset())?;
    push_part(text, "@", shell.address())?;
    push_part(text, "+=", shell.stride())?;
    push_part(text, "%=", shell.align())
}

fn push_assignment(text: &mut String, property: &str, value: &Value) -> Result<(), AllocError> {
    text.push_str(property)?;
    text.push_str(" = ")?;
    push_value(text, value)?;
    text.push_str(";")
}

/// Whether the body has assignments alone.
fn has_assignments_alone(body: &Body) -> bool {
    body.as_slice().iter().all(|item| match item {
        Item::Define(_, _) | Item::Instance(_, _) => false,
        Item::Own(_, _) | Item::Default(_, _) | Item::Dynamic(_, _, _) => true,
    })
}

/// Whether it has no body with anything but assignments.
fn is_simple(item: &Item) -> bool {
    match item.own_body() {
        Some(body) => has_assignments_alone(body),
        None => true,
    }
}

#[cycle(flat)]
fn push_flat_body(text: &mut String, component: &Component) -> Result<(), AllocError> {
    if component.body.is_empty() {
        return text.push_str("{}");
    }
    text.push_str("{ ")?;
    'items: for item in component.body.as_slice() {
        push_flat(text, item)?;
        text.push_str(" ")?;
    }
    text.push_str("}")
}

/// Appends the statement of an item on one line, without an indent and without the line's end.
#[cycle(flat)]
pub(crate) fn push_flat(text: &mut String, item: &Item) -> Result<(), AllocError> {
    match item {
        Item::Define(name, component) => {
            text.push_str(kind_text(component.kind))?;
            text.push_str(" ")?;
            text.push_str(name.as_str())?;
            text.push_str(" ")?;
            push_flat_body(text, component)?;
            text.push_str(";")
        }
        Item::Instance(shell, Of::Anonymous(component)) => {
            text.push_str(outside_text(shell.outside()))?;
            text.push_str(kind_text(component.kind))?;
            text.push_str(" ")?;
            push_flat_body(text, component)?;
            text.push_str(" ")?;
            push_shell(text, shell)?;
            text.push_str(";")
        }
        Item::Instance(shell, Of::Named(name)) => {
            text.push_str(outside_text(shell.outside()))?;
            text.push_str(name.as_str())?;
            text.push_str(" ")?;
            push_shell(text, shell)?;
            text.push_str(";")
        }
        Item::Own(property, value) => push_assignment(text, property.as_str(), value),
        Item::Default(property, value) => {
            text.push_str("default ")?;
            push_assignment(text, property.as_str(), value)
        }
        Item::Dynamic(target, property, value) => {
            push_names(text, target.names())?;
            text.push_str("->")?;
            push_assignment(text, property.as_str(), value)
        }
    }
}

/// The statement of an item on one line, if it has no more columns than a line may have.
fn short_line(alloc: Global, indent: &str, item: &Item) -> Result<Option<String>, AllocError> {
    let mut line = String::new(alloc);
    push_flat(&mut line, item)?;
    if line.len().saturating_add(indent.len()) <= COLUMNS {
        Ok(Some(line))
    } else {
        Ok(None)
    }
}

#[cycle(lines)]
fn push_body(
    alloc: Global,
    text: &mut String,
    style: Style<'_>,
    indent: &str,
    component: &Component,
) -> Result<(), AllocError> {
    if component.body.is_empty() {
        return text.push_str("{}");
    }
    let mut deeper = String::from_str(alloc, indent)?;
    deeper.push_str(style.unit)?;
    text.push_str("{")?;
    text.push_str(style.line_end)?;
    'items: for item in component.body.as_slice() {
        text.push_str(deeper.as_str())?;
        push_statement(alloc, text, style, deeper.as_str(), item, false)?;
        text.push_str(style.line_end)?;
    }
    text.push_str(indent)?;
    text.push_str("}")
}

/// Appends the statement of an item in a line of this indent, without the indent and without the last line's end: on one
/// line if that is short enough, and nothing but assignments stands in its body or a body of any items may stand on one.
#[cycle(lines)]
pub(crate) fn push_statement(
    alloc: Global,
    text: &mut String,
    style: Style<'_>,
    indent: &str,
    item: &Item,
    may_be_flat: bool,
) -> Result<(), AllocError> {
    if may_be_flat || is_simple(item) {
        if let Some(line) = short_line(alloc, indent, item)? {
            return text.push_str(line.as_str());
        }
    }
    match item {
        Item::Define(name, component) => {
            text.push_str(kind_text(component.kind))?;
            text.push_str(" ")?;
            text.push_str(name.as_str())?;
            text.push_str(" ")?;
            push_body(alloc, text, style, indent, component)?;
            text.push_str(";")
        }
        Item::Instance(shell, Of::Anonymous(component)) => {
            text.push_str(outside_text(shell.outside()))?;
            text.push_str(kind_text(component.kind))?;
            text.push_str(" ")?;
            push_body(alloc, text, style, indent, component)?;
            text.push_str(" ")?;
            push_shell(text, shell)?;
            text.push_str(";")
        }
        _ => push_flat(text, item),
    }
}
