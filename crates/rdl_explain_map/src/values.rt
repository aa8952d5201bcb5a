//! Which values properties take, and which components have them.

use crate::near::Nearest;
use rdl_tree::property::{Form, Owners, Property};
use rdl_tree::shell::Kind;
use std::alloc::{AllocError, Global};

/// The values of a form.
pub fn form_text(form: Form) -> &'static str {
    match form {
        Form::Texts => "a string in double quotes",
        Form::Modes => "compact, regalign or fullalign",
        Form::Alignments => "a power of two from 1 to 2^40",
        Form::OnlyTrue => "true or 1",
        Form::Widths => "8, 16, 32, 64 or 128",
        Form::Booleans => "true, false, 1 or 0",
        Form::BitCounts => "a number from 1 to 128",
        Form::Numbers => "a number",
        Form::Accesses => "rw, wr, r, w, rw1, w1 or na",
        Form::ReadEffects => "rclr, rset or ruser",
        Form::WriteEffects => "woset, woclr, wot, wzs, wzc, wzt, wclr, wset or wuser",
    }
}

/// One of them.
pub fn form_example(form: Form) -> &'static str {
    match form {
        Form::Texts => "\"Status\"",
        Form::Modes => "compact",
        Form::Alignments => "16",
        Form::OnlyTrue | Form::Booleans => "true",
        Form::Widths => "32",
        Form::BitCounts => "8",
        Form::Numbers => "0x1F",
        Form::Accesses => "r",
        Form::ReadEffects => "rclr",
        Form::WriteEffects => "woclr",
    }
}

/// The kinds of component that have a property.
pub fn owners_text(owners: Owners) -> &'static str {
    match owners {
        Owners::All => "all components",
        Owners::Addrmaps => "address maps",
        Owners::Containers => "address maps and register files",
        Owners::Regs => "registers",
        Owners::Fields => "fields",
    }
}

/// A component of the kind, as a sentence names it.
pub fn a_kind(kind: Kind) -> &'static str {
    match kind {
        Kind::Addrmap => "an address map",
        Kind::Regfile => "a register file",
        Kind::Reg => "a register",
        Kind::Field => "a field",
    }
}

/// What may stand in the body of a component of the kind.
pub fn inside_text(kind: Option<Kind>) -> &'static str {
    match kind {
        None => "outside of all braces stand definitions alone: an instance stands in an addrmap",
        Some(Kind::Addrmap) => "in an addrmap stand instances of addrmap, regfile and reg",
        Some(Kind::Regfile) => {
            "in a regfile stand instances of regfile and reg, and definitions of regfile, reg and field"
        }
        Some(Kind::Reg) => "in a reg stand fields alone",
        Some(Kind::Field) => "in a field stand properties alone",
    }
}

/// The property of this name.
pub fn property_named(name: &str) -> Option<Property> {
    rdl_tree::properties::property(name)
}

/// The words that are values.
const WORDS: [&str; 24] = [
    "rw",
    "wr",
    "r",
    "w",
    "rw1",
    "w1",
    "na",
    "rclr",
    "rset",
    "ruser",
    "woset",
    "woclr",
    "wot",
    "wzs",
    "wzc",
    "wzt",
    "wclr",
    "wset",
    "wuser",
    "compact",
    "regalign",
    "fullalign",
    "true",
    "false",
];

/// Which values the property takes, and which of them was meant.
pub fn push_values(
    alloc: Global,
    cure: &mut String,
    property: Property,
    value: &str,
) -> Result<(), AllocError> {
    write!(
        cure,
        "{} takes {}: ",
        property.name(),
        form_text(property.form())
    )?;
    push_meant(alloc, cure, property, value)
}

/// Which value of the property was meant, or one of them.
pub fn push_meant(
    alloc: Global,
    cure: &mut String,
    property: Property,
    value: &str,
) -> Result<(), AllocError> {
    let form = property.form();
    let meant = match value {
        "ro" | "RO" => Some("r"),
        "wo" | "WO" => Some("w"),
        _ => None,
    };
    let mut nearest = Nearest::to(value);
    for word in WORDS {
        nearest.see(alloc, word)?;
    }
    match (form, meant.or(nearest.best())) {
        (Form::Texts, _) if is_plain(value) => write!(cure, "write `\"{value}\"`"),
        (_, Some(word)) if form_text(form).contains(word) => {
            write!(cure, "did you mean `{word}`?")
        }
        _ => write!(cure, "write one, as `{}`", form_example(form)),
    }
}

/// Whether a value is text that quotes may stand around.
fn is_plain(value: &str) -> bool {
    !value.is_empty() && value.len() < 64 && !value.contains('"')
}
