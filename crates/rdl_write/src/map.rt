//! The map's writer.
ghost use Rattle.std.specs.Prelude.{◌≡◌, ◌++◌, ℕ, List, string_bytes, IfOk, OnOk};
ghost use Rattle.rdl_tree.specs.Items.{define, anonymous, named, own, default, dynamic};
ghost use Rattle.rdl_tree.specs.declared.shell.Kind.{Kind as SomeKind};
ghost use Rattle.rdl_write.specs.MapText.{deeper, statement_line, open_line, close_line, body_text, map_text};
ghost use Rattle.rdl_write.specs.ItemText.{item_text};

use crate::assignment::{push_assignment, push_names};
use crate::instance::{kind_text, outside_text, push_shell};
use rdl_text::name::Name;
use rdl_tree::description::{Body, Description, Item, Of};
use rdl_tree::shell::{Kind, Shell};
use rdl_tree::target::Target;
use rdl_tree::value::Value;
use std::alloc::{AllocError, Global};

fn deeper(alloc: Global, indent: &str) -> Result<String, AllocError>
    ensures { IfOk result (λ text. string_bytes text ≡ deeper indent.now) }
{
    let mut text = String::from_str(alloc, indent)?;
    text.push_str("    ")?;
    Ok(text)
}

/// Appends the line of an instance of a type with a name.
#[tactic(auto, unfolding(crate::specs::MapText::statement_line))]
pub fn push_named(
    text: &mut String,
    indent: &str,
    shell: &Shell,
    of: &str,
) -> Result<(), AllocError>
    ensures { OnOk result (string_bytes text.new ≡ string_bytes text.old ++ statement_line indent.now (named shell.now of.now)) }
{
    text.push_str(indent)?;
    text.push_str(outside_text(shell.outside()))?;
    text.push_str(of)?;
    text.push_str(" ")?;
    push_shell(text, shell)?;
    text.push_str(";\n")?;
    Ok(())
}

/// Appends the line of an assignment to a property.
#[tactic(auto, unfolding(crate::specs::MapText::statement_line))]
pub fn push_own(
    text: &mut String,
    indent: &str,
    property: &str,
    value: &Value,
) -> Result<(), AllocError>
    ensures { OnOk result (string_bytes text.new ≡ string_bytes text.old ++ statement_line indent.now (own property.now value.now)) }
{
    text.push_str(indent)?;
    push_assignment(text, property, value)?;
    text.push_str(";\n")?;
    Ok(())
}

#[tactic(auto, unfolding(crate::specs::MapText::statement_line))]
fn push_default(
    text: &mut String,
    indent: &str,
    property: &str,
    value: &Value,
) -> Result<(), AllocError>
    ensures { OnOk result (string_bytes text.new ≡ string_bytes text.old ++ statement_line indent.now (default property.now value.now)) }
{
    write!(text, "{indent}default ")?;
    push_assignment(text, property, value)?;
    text.push_str(";\n")?;
    Ok(())
}

/// Appends the line of an assignment to a property of what a target names.
#[tactic(auto, unfolding(crate::specs::MapText::statement_line))]
pub fn push_dynamic(
    text: &mut String,
    indent: &str,
    target: &Target,
    property: &str,
    value: &Value,
) -> Result<(), AllocError>
    ensures { OnOk result (string_bytes text.new ≡ string_bytes text.old ++ statement_line indent.now (dynamic target.now property.now value.now)) }
{
    text.push_str(indent)?;
    push_names(text, target.names())?;
    text.push_str("->")?;
    push_assignment(text, property, value)?;
    text.push_str(";\n")?;
    Ok(())
}

/// Appends the line that opens a definition.
#[tactic(auto, unfolding(crate::specs::MapText::open_line))]
pub fn open_definition(
    text: &mut String,
    indent: &str,
    name: &Name,
    kind: Kind,
) -> Result<(), AllocError>
    ensures { OnOk result (string_bytes text.new ≡ string_bytes text.old ++ open_line indent.now (define name.now kind)) }
{
    write!(text, "{indent}{} {name} {{\n", kind_text(kind))
}

/// Appends the line that opens an instance with a body of its own.
#[tactic(auto, unfolding(crate::specs::MapText::open_line))]
pub fn open_instance(
    text: &mut String,
    indent: &str,
    shell: &Shell,
    kind: Kind,
) -> Result<(), AllocError>
    ensures { OnOk result (string_bytes text.new ≡ string_bytes text.old ++ open_line indent.now (anonymous shell.now kind)) }
{
    write!(
        text,
        "{indent}{}{} {{\n",
        outside_text(shell.outside()),
        kind_text(kind)
    )
}

/// Appends the line that closes a definition.
#[tactic(auto, unfolding(crate::specs::MapText::close_line))]
pub fn close_definition(text: &mut String, indent: &str) -> Result<(), AllocError>
    ensures { (name : List ℕ) (k : SomeKind) → OnOk result (string_bytes text.new ≡ string_bytes text.old ++ close_line indent.now (define name k)) }
{
    write!(text, "{indent}}};\n")
}

/// Appends the line that closes an instance with a body of its own.
#[tactic(auto, unfolding(crate::specs::MapText::close_line))]
pub fn close_instance(text: &mut String, indent: &str, shell: &Shell) -> Result<(), AllocError>
    ensures { (k : SomeKind) → OnOk result (string_bytes text.new ≡ string_bytes text.old ++ close_line indent.now (anonymous shell.now k)) }
{
    write!(text, "{indent}}} ")?;
    push_shell(text, shell)?;
    text.push_str(";\n")?;
    Ok(())
}

#[cycle(write)]
fn push_inner(alloc: Global, text: &mut String, indent: &str, body: &Body) -> Result<(), AllocError>
    ensures { OnOk result (string_bytes text.new ≡ string_bytes text.old ++ body_text (deeper indent.now) body.now) }
{
    let indent = deeper(alloc, indent)?;
    push_body(alloc, text, indent.as_str(), body)
}

/// Appends the lines of an item.
#[cycle(write)]
pub fn push_item(
    alloc: Global,
    text: &mut String,
    indent: &str,
    item: &Item,
) -> Result<(), AllocError>
    ensures { OnOk result (string_bytes text.new ≡ string_bytes text.old ++ item_text indent.now item.now) }
{
    match item {
        Item::Define(name, component) => {
            open_definition(text, indent, name, component.kind)?;
            push_inner(alloc, text, indent, &component.body)?;
            close_definition(text, indent)
        }
        Item::Instance(shell, Of::Anonymous(component)) => {
            open_instance(text, indent, shell, component.kind)?;
            push_inner(alloc, text, indent, &component.body)?;
            close_instance(text, indent, shell)
        }
        Item::Instance(shell, Of::Named(name)) => push_named(text, indent, shell, name.as_str()),
        Item::Own(property, value) => push_own(text, indent, property.as_str(), value),
        Item::Default(property, value) => push_default(text, indent, property.as_str(), value),
        Item::Dynamic(target, property, value) => {
            push_dynamic(text, indent, target, property.as_str(), value)
        }
    }
}

#[cycle(write)]
fn push_body(alloc: Global, text: &mut String, indent: &str, body: &Body) -> Result<(), AllocError>
    ensures { OnOk result (string_bytes text.new ≡ string_bytes text.old ++ body_text indent.now body.now) }
{
    'items: for item in body.as_slice() {
        push_item(alloc, text, indent, item)?;
    }
    Ok(())
}

/// The text of a description: one item a line, four spaces a level.
pub fn rdl(alloc: Global, description: &Description) -> Result<String, AllocError>
    ensures { IfOk result (λ text. string_bytes text ≡ map_text description.now.items) }
{
    let mut text = String::new(alloc);
    push_body(alloc, &mut text, "", &description.items)?;
    Ok(text)
}
