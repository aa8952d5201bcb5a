//! Warnings of a map.

use crate::search::{Findings, Odd, Oddity, Widths, seek};
use rdl_explain_map::stretch::{Stretch, statement_at};
use rdl_explain_map::telling::{Telling, told};
use rdl_explain_map::text_fault::line_of;
use rdl_explain_map::view::{Standing, View};
use rdl_parse::parse::parse;
use rdl_parse::places::Places;
use rdl_text::token::Number;
use rdl_tree::address::Address;
use rdl_tree::description::{Description, Item};
use std::alloc::{AllocError, Global};

/// Of so many oddities each has a warning, and behind them their number is told.
pub const MOST: usize = 20;

/// Where the text of a map goes.
#[derive(Clone, Copy, Debug, PartialEq, Eq)]
pub enum Outlet {
    /// Into the file that is named: lines and columns are of use.
    File,
    /// Nowhere, or where nobody looks for a line: the name is that of the map from which it came.
    Nowhere,
}

/// The path of the body around an item, for a sentence.
fn around(address: &[usize]) -> &[usize] {
    match address.split_last() {
        Some((_, around)) => around,
        None => address,
    }
}

/// The name of the property that an item sets.
fn property_of(item: Option<&Item>) -> &str {
    match item {
        Some(Item::Own(name, _) | Item::Default(name, _)) => name.as_str(),
        _ => "",
    }
}

fn name_of(item: Option<&Item>) -> &str {
    match item {
        Some(Item::Define(name, _)) => name.as_str(),
        Some(Item::Instance(shell, _)) => shell.name().as_str(),
        _ => "",
    }
}

fn keyword(view: View<'_>, text: &mut Telling, at: &[usize]) -> Result<(), AllocError> {
    let name = name_of(view.item(at));
    write!(
        text.what,
        "`{name}` is a keyword of SystemRDL 2.0, so other tools refuse the map"
    )?;
    let note = format!(in view.alloc; "`rename {} NAME` gives it another name", view.path(at))?;
    text.note(note.as_str())
}

fn covered(
    view: View<'_>,
    text: &mut Telling,
    at: &[usize],
    reset: Number,
) -> Result<(), AllocError> {
    let path = format!(in view.alloc; "{}", view.path(around(at)))?;
    write!(
        text.what,
        "this reset of {path} changes nothing: the instance has `= 0x{reset:X}`"
    )?;
    let note = format!(in view.alloc;
        "`reset {path} N` sets that one, `reset {path} none` takes it out"
    )?;
    text.note(note.as_str())
}

fn lost(view: View<'_>, text: &mut Telling, at: &[usize]) -> Result<(), AllocError> {
    let name = property_of(view.item(at));
    write!(text.what, "`default {name}` reaches nothing: ")?;
    write!(
        text.what,
        "no component that has it is written after it in {}",
        view.path(around(at))
    )?;
    text.note(
        "a default is for what stands after it inside the same body, and not for types that are defined elsewhere",
    )
}

fn unaligned(
    view: View<'_>,
    text: &mut Telling,
    at: &[usize],
    address: Number,
    bytes: Number,
) -> Result<(), AllocError> {
    write!(text.what, "{} stands at 0x{address:X}, ", view.path(at))?;
    write!(text.what, "no multiple of its access of {bytes} bytes")?;
    text.note("many buses refuse such an access; `accesswidth` makes it smaller")
}

fn telling(view: View<'_>, odd: &Odd) -> Result<Telling, AllocError> {
    let at = odd.address.as_slice();
    let mut text = Telling::new(view.alloc, Stretch::new(0, 0), "warning: ")?;
    match odd.oddity {
        Oddity::Keyword => keyword(view, &mut text, at)?,
        Oddity::Covered(reset) => covered(view, &mut text, at, reset)?,
        Oddity::Lost => lost(view, &mut text, at)?,
        Oddity::Unaligned(address, bytes) => unaligned(view, &mut text, at, address, bytes)?,
    }
    Ok(text)
}

/// The warning of an item of a text.
fn warning(view: View<'_>, bytes: &[u8], outlet: Outlet, odd: &Odd) -> Result<String, AllocError> {
    let mut text = telling(view, odd)?;
    if outlet == Outlet::Nowhere {
        return format!(in view.alloc; "{}: {}\n{}", view.file, text.what, text.notes);
    }
    let (number, column) = view.place(odd.address.as_slice()).unwrap_or((1, 1));
    let line = line_of(bytes, number);
    text.mark = statement_at(line.bytes, column.saturating_sub(1));
    told(view.alloc, view.file, number, line.bytes, &text)
}

/// The warnings of what was found in a description, whose items have these places in a text.
fn all_of<'a>(
    alloc: Global,
    file: &'a str,
    outlet: Outlet,
    text: &str,
    description: &'a Description,
    places: &'a Places<'a>,
    findings: &Findings,
) -> Result<String, AllocError> {
    let mut warnings = String::new(alloc);
    let view = View {
        alloc,
        file,
        description,
        top: None,
        standing: Standing::Own(places),
    };
    for odd in findings.told.iter() {
        let warning = warning(view, text.as_bytes(), outlet, odd)?;
        warnings.push_str(warning.as_str())?;
    }
    let more = findings.count.saturating_sub(MOST);
    if more > 0 {
        write!(warnings, "{file}: {more} more warnings\n")?;
    }
    Ok(warnings)
}

/// Looks for what is odd of the items of a description, of which so many are told.
fn findings_of(
    alloc: Global,
    description: &Description,
    most: usize,
) -> Result<Findings, AllocError> {
    let mut findings = Findings::new(alloc, most);
    seek(
        &mut findings,
        &description.items,
        &Address::new(),
        Widths::none(),
        Address::MAX_LEN,
    )?;
    Ok(findings)
}

/// Whether a map has a warning, which its text tells.
pub fn is_odd(alloc: Global, description: &Description) -> bool {
    match findings_of(alloc, description, 0) {
        Ok(findings) => findings.count > 0,
        Err(_) => false,
    }
}

/// Warnings of what is odd of the map that a text spells, which goes into a file of this name or nowhere.
pub fn warnings(
    alloc: Global,
    file: &str,
    outlet: Outlet,
    text: &str,
) -> Result<String, AllocError> {
    let Ok((description, places)) = parse(alloc, text) else {
        return Ok(String::new(alloc));
    };
    let findings = findings_of(alloc, &description, MOST)?;
    all_of(alloc, file, outlet, text, &description, &places, &findings)
}
