//! Two macros of a header with one name: H1.

use crate::stretch::word_at;
use crate::telling::{Telling, told};
use crate::view::{Met, View, address_of, behind};
use rdl_tree::address::Address;
use rdl_tree::description::Item;
use rdl_tree::shell::Kind;
use std::alloc::{AllocError, Global};

/// An instance whose macro has the name.
#[derive(Drop)]
struct Bearer {
    /// The names that lead to it from the top, with dots between them.
    path: String,
    address: Address,
}

fn is_ending(rest: &str) -> bool {
    matches!(
        rest,
        "_base" | "_offset" | "_size" | "_count" | "_stride" | "_bm" | "_bp" | "_bw" | "_reset"
    ) || is_numbered(rest, "_bm")
        || is_numbered(rest, "_reset")
}

/// Whether it is the front with one digit behind it.
fn is_numbered(rest: &str, front: &str) -> bool {
    match rest.strip_prefix(front) {
        Some(digit) => digit.len() == 1
            && digit.as_bytes().iter().all(|byte| byte.is_ascii_digit()),
        None => false,
    }
}

/// The instances below a component whose macros end so, so many levels deep.
#[cycle(bearers)]
fn bearers_below(
    view: View<'_>,
    component: &Address,
    rest: &str,
    trail: &str,
    levels: usize,
    found: &mut Vec<Bearer>,
) -> Result<(), AllocError> {
    let Some(body) = view.body(component.as_slice()) else {
        return Ok(());
    };
    for (number, item) in body.as_slice().iter().enumerate() {
        if let (Item::Instance(shell, _), Some(at)) = (item, behind(component, number)) {
            if let Some(after) = rest.strip_prefix(shell.name().as_str()) {
                let mut path = String::from_str(view.alloc, trail)?;
                path.push_str(shell.name().as_str())?;
                add_bearers(view, at, after, path, levels, found)?;
            }
        }
    }
    Ok(())
}

/// The instance at an address, if its macro ends so, and those below it.
#[cycle(bearers)]
fn add_bearers(
    view: View<'_>,
    at: Address,
    after: &str,
    path: String,
    levels: usize,
    found: &mut Vec<Bearer>,
) -> Result<(), AllocError> {
    if levels == 0 {
        return Ok(());
    }
    if let Some(rest) = after.strip_prefix("__") {
        let component = match view.type_of(at.as_slice()) {
            Some(defined) => defined,
            None => at.copy(),
        };
        let mut trail = String::from_str(view.alloc, path.as_str())?;
        trail.push_str(".")?;
        bearers_below(view, &component, rest, trail.as_str(), levels - 1, found)?;
    }
    if is_ending(after) {
        found.push(Bearer { path, address: at })?;
    }
    Ok(())
}

/// The address of the top.
fn top_of(view: View<'_>) -> Option<usize> {
    let mut last = None;
    for (number, item) in view.description.items.as_slice().iter().enumerate() {
        if let Item::Define(name, component) = item {
            let is_asked = match view.top {
                Some(top) => name.as_str() == top,
                None => true,
            };
            if is_asked && component.kind == Kind::Addrmap {
                last = Some(number);
            }
        }
    }
    last
}

/// All instances whose macro has the name.
fn bearers_of(view: View<'_>, name: &str) -> Result<Vec<Bearer>, AllocError> {
    let mut found = Vec::new(view.alloc);
    let Some(number) = top_of(view) else {
        return Ok(found);
    };
    let Some(Item::Define(top, _)) = view.description.items.item(number) else {
        return Ok(found);
    };
    let rest = match name.strip_prefix(top.as_str()) {
        Some(rest) => rest.strip_prefix("__").unwrap_or(""),
        None => "",
    };
    let top = address_of(&[number]);
    bearers_below(view, &top, rest, "", 17, &mut found)?;
    Ok(found)
}

/// Explains that two macros of the header of a map would have this name.
pub fn explain_header<'a>(
    alloc: Global,
    file: &'a str,
    name: &str,
    met: Met<'a>,
) -> Result<String, AllocError> {
    let view = met.view(alloc, file);
    let bearers = bearers_of(view, name)?;
    let mark = word_at(name.as_bytes(), 0);
    let mut telling = Telling::new(alloc, mark, "H1 two macros with one name: ")?;
    telling.what.push_str(name)?;
    if let [first, second, ..] = bearers.as_slice() {
        write!(telling.what, " is of {} and of {}", first.path, second.path)?;
        telling.note("`rename` one of the two, or what stands around it")?;
        if let (Some((line, column)), Some(source)) = (
            view.place(second.address.as_slice()),
            met.source,
        ) {
            let line = source.line(line);
            telling.mark = word_at(line.bytes, column.saturating_sub(1));
            return told(alloc, file, line.number, line.bytes, &telling);
        }
    }
    let mut text = String::new(alloc);
    write!(text, "{}: {}\n{}", file, telling.what, telling.notes)?;
    Ok(text)
}
