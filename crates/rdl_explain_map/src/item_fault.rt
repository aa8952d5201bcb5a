//! Faults of items: E1 to E13.

use crate::near::Nearest;
use crate::standard::{instead_of, is_other_property};
use crate::telling::Telling;
use crate::text_fault::near_property;
use crate::values::{
    a_kind, form_example, form_text, inside_text, owners_text, property_named, push_meant,
};
use crate::view::{View, address_of, around, behind};
use rdl_text::name::Name;
use rdl_tree::address::Address;
use rdl_tree::description::{Body, Item, Of};
use rdl_tree::property::{Owners, Property};
use rdl_tree::shell::{Kind, Outside, Shell};
use rdl_tree::target::Target;
use rdl_tree::value::Value;
use rdl_write::{push_dims, push_names, push_value};
use std::alloc::AllocError;

/// The property that an item assigns, and its value.
fn assignment(item: Option<&Item>) -> Option<(&Name, &Value)> {
    match item? {
        Item::Own(name, value) | Item::Default(name, value) | Item::Dynamic(_, name, value) => {
            Some((name, value))
        }
        Item::Define(..) | Item::Instance(..) => None,
    }
}

fn name_of(item: &Item) -> Option<&Name> {
    match item {
        Item::Define(name, _) => Some(name),
        Item::Instance(shell, _) => Some(shell.name()),
        Item::Own(..) | Item::Default(..) | Item::Dynamic(..) => None,
    }
}

/// Whether two items would have one name, or assign one property.
fn is_same(item: &Item, other: &Item) -> bool {
    match (item, other) {
        (Item::Define(name, _), Item::Define(earlier, _)) => name == earlier,
        (Item::Instance(shell, _), Item::Instance(earlier, _)) => shell.name() == earlier.name(),
        (Item::Own(name, _), Item::Own(earlier, _)) => name == earlier,
        (Item::Default(name, _), Item::Default(earlier, _)) => name == earlier,
        (Item::Dynamic(target, name, _), Item::Dynamic(other, earlier, _)) => {
            name == earlier && are_same(target.names(), other.names())
        }
        _ => false,
    }
}

fn are_same(names: &[Name], others: &[Name]) -> bool {
    names.len() == others.len() && names.iter().zip(others).all(|(name, other)| name == other)
}

/// The number of the first item of the body, before this one, that the test is true of.
fn earlier<F: Fn(&Item) -> bool>(body: &Body, number: usize, test: F) -> Option<usize>
    requires { F.IsAlwaysCallable test }
{
    body.as_slice()
        .iter()
        .take(number)
        .position(|item| test(item))
}

/// E1, E7: the item that stands before.
pub fn twice(view: View<'_>, telling: &mut Telling, address: &[usize]) -> Result<(), AllocError> {
    let (holder, number) = around(address);
    let (Some(item), Some(body)) = (view.item(address), view.body(holder)) else {
        return Ok(());
    };
    let Some(first) = earlier(body, number, |other| is_same(item, other)) else {
        return Ok(());
    };
    let Some(first) = behind(&address_of(holder), first) else {
        return Ok(());
    };
    let path = view.path(holder);
    match (item, name_of(item)) {
        (_, Some(name)) => write!(telling.what, ": `{name}` stands in {path} before")?,
        (Item::Default(name, _), _) => {
            write!(telling.what, ": {path} has a default of `{name}` before")?;
        }
        (Item::Own(name, _), _) => write!(telling.what, ": {path} assigns `{name}` before")?,
        (Item::Dynamic(target, name, _), _) => {
            telling.what.push_str(": `")?;
            push_names(&mut telling.what, target.names())?;
            write!(telling.what, "->{name}` is assigned before")?;
        }
        _ => {}
    }
    let cure = if name_of(item).is_some() {
        "give one of them another name"
    } else {
        "keep one of the two"
    };
    view.note_standing(telling, first.as_slice(), cure)
}

/// E2: the name of the type.
pub fn unknown_type(
    view: View<'_>,
    telling: &mut Telling,
    address: &[usize],
) -> Result<(), AllocError> {
    let Some(Item::Instance(shell, Of::Named(name))) = view.item(address) else {
        return Ok(());
    };
    write!(
        telling.what,
        ": no `{name}` is defined before `{}`",
        shell.name()
    )?;
    if let Some(cure) = instead_of(name.as_str()) {
        let mut note = String::new(view.alloc);
        write!(
            note,
            "`{name}` is a word of SystemRDL 2.0 that this profile hasn't: {cure}"
        )?;
        return telling.note(note.as_str());
    }
    if let Some(later) = defined_behind(view, address, name) {
        return view.note_standing(
            telling,
            later.as_slice(),
            "move the definition before its use",
        );
    }
    match nearest_type(view, address, name)? {
        Some(near) => {
            let mut note = String::new(view.alloc);
            write!(note, "did you mean `{near}`?")?;
            telling.note(note.as_str())
        }
        None => telling.note("define the type before, in this body or in one around it"),
    }
}

/// Where a definition of the name stands behind an item, in its body or in one around it.
fn defined_behind(view: View<'_>, address: &[usize], name: &Name) -> Option<Address> {
    let mut holder = address;
    for _ in 0..address.len() {
        holder = around(holder).0;
        let body = view.body(holder)?;
        let found = body.as_slice().iter().position(|item| match item {
            Item::Define(defined, _) => defined == name,
            _ => false,
        });
        if let Some(number) = found {
            return behind(&address_of(holder), number);
        }
    }
    None
}

/// The definition before an item, in its body or in one around it, whose name is nearest.
fn nearest_type<'a>(
    view: View<'a>,
    address: &[usize],
    name: &Name,
) -> Result<Option<&'a str>, AllocError> {
    let mut nearest = Nearest::to(name.as_str());
    let mut rest = address;
    for _ in 0..address.len() {
        let (holder, number) = around(rest);
        let Some(body) = view.body(holder) else {
            return Ok(None);
        };
        for item in body.as_slice().iter().take(number) {
            if let Item::Define(defined, _) = item {
                nearest.see(view.alloc, defined.as_str())?;
            }
        }
        rest = holder;
    }
    Ok(nearest.best())
}

/// The kind of the component around an item; none is the text.
fn kind_around(view: View<'_>, address: &[usize]) -> Option<Kind> {
    let (holder, _) = around(address);
    match holder {
        [] => None,
        _ => view.kind(holder),
    }
}

/// E3.
pub fn kind_not_allowed(
    view: View<'_>,
    telling: &mut Telling,
    address: &[usize],
) -> Result<(), AllocError> {
    let outer = kind_around(view, address);
    if let Some(kind) = view.kind(address) {
        let place = match outer {
            Some(outer) => a_kind(outer),
            None => "no component",
        };
        write!(telling.what, ": {} in {place}", a_kind(kind))?;
    }
    telling.note(inside_text(outer))
}

/// E4.
pub fn unknown_property(
    view: View<'_>,
    telling: &mut Telling,
    address: &[usize],
) -> Result<(), AllocError> {
    let Some((name, _)) = assignment(view.item(address)) else {
        return Ok(());
    };
    write!(telling.what, ": `{name}`")?;
    if is_other_property(name.as_str()) {
        telling
            .what
            .push_str(" is of SystemRDL 2.0, and this profile hasn't it")?;
        return telling.note("leave it out");
    }
    match near_property(view.alloc, name.as_str())? {
        Some(near) => {
            let mut note = String::new(view.alloc);
            write!(note, "did you mean `{near}`?")?;
            telling.note(note.as_str())
        }
        None => telling.note(
            "there are no properties of users; `docs/LANGUAGE.md` has the table of all",
        ),
    }
}

/// The kind of what an assignment is about.
fn kind_of_target(view: View<'_>, address: &[usize]) -> Option<Kind> {
    match view.item(address)? {
        Item::Dynamic(target, _, _) => {
            let end = target_end(view, address, target);
            view.kind(end.at.as_slice())
        }
        _ => kind_around(view, address),
    }
}

/// E5.
pub fn not_of_kind(
    view: View<'_>,
    telling: &mut Telling,
    address: &[usize],
) -> Result<(), AllocError> {
    let Some((name, _)) = assignment(view.item(address)) else {
        return Ok(());
    };
    let Some(property) = property_named(name.as_str()) else {
        return Ok(());
    };
    let owners = owners_text(property.owners());
    write!(telling.what, ": {} have `{name}`, ", owners)?;
    match kind_of_target(view, address) {
        Some(kind) => {
            write!(telling.what, "and this is {}", a_kind(kind))?;
            note_inner(view, telling, property, kind)
        }
        None => {
            telling.what.push_str("and this is the whole text")?;
            telling.note(
                "write it in a body, or as a default; a script names the body by its path, as `/$uart`, and a shell takes `$uart` away unless the line stands in single quotes or in `<<'EOF'`",
            )
        }
    }
}

/// Notes how a property of fields or registers is set further in.
fn note_inner(
    view: View<'_>,
    telling: &mut Telling,
    property: Property,
    kind: Kind,
) -> Result<(), AllocError> {
    let inner = match (property.owners(), kind) {
        (Owners::Fields, _) => "fields",
        (Owners::Regs, Kind::Addrmap | Kind::Regfile) => "registers",
        _ => return telling.note("leave it out"),
    };
    let mut note = String::new(view.alloc);
    let name = property.name();
    write!(
        note,
        "a default gives it to the {inner} inside: `default {name} = {};`",
        form_example(property.form())
    )?;
    telling.note(note.as_str())
}

/// E6.
pub fn wrong_value(
    view: View<'_>,
    telling: &mut Telling,
    address: &[usize],
) -> Result<(), AllocError> {
    let Some((name, value)) = assignment(view.item(address)) else {
        return Ok(());
    };
    let Some(property) = property_named(name.as_str()) else {
        return Ok(());
    };
    let form = property.form();
    write!(telling.what, ": {name} takes {}, and not ", form_text(form))?;
    push_value(&mut telling.what, value)?;
    let mut cure = String::new(view.alloc);
    match value {
        Value::Word(word) => push_meant(view.alloc, &mut cure, property, word.text())?,
        _ => write!(cure, "write one, as `{}`", form_example(form))?,
    }
    telling.note(cure.as_str())
}

fn is_rival(property: &str, other: &str) -> bool {
    let groups: [&[&str]; 4] = [
        &["rclr", "rset", "onread"],
        &["woclr", "woset", "onwrite"],
        &["we", "wel"],
        &["swwe", "swwel"],
    ];
    property != other
        && groups.iter().any(|group| group.iter().any(|name| *name == property)
            && group.iter().any(|name| *name == other))
}

/// E8.
pub fn exclusive(
    view: View<'_>,
    telling: &mut Telling,
    address: &[usize],
) -> Result<(), AllocError> {
    let (holder, number) = around(address);
    let (Some((name, _)), Some(body)) = (assignment(view.item(address)), view.body(holder)) else {
        return Ok(());
    };
    let rival = earlier(body, number, |other| match other {
        Item::Own(set, _) => is_rival(name.as_str(), set.as_str()),
        _ => false,
    });
    let Some(rival) = rival else {
        return Ok(());
    };
    if let Some(Item::Own(set, _)) = body.item(rival) {
        write!(telling.what, ": `{name}` and `{set}` don't go together")?;
    }
    match behind(&address_of(holder), rival) {
        Some(at) => view.note_standing(telling, at.as_slice(), "keep one of the two"),
        None => Ok(()),
    }
}

/// How far the names of a target lead.
#[derive(Drop)]
struct TargetEnd {
    /// The last instance that was found, or the body in which the first name isn't.
    at: Address,
    /// How many names were found.
    found: usize,
}

fn target_end(view: View<'_>, address: &[usize], target: &Target) -> TargetEnd {
    let (holder, number) = around(address);
    let mut end = TargetEnd {
        at: address_of(holder),
        found: 0,
    };
    let mut limit = number;
    for name in target.names() {
        let inner = match view.type_of(end.at.as_slice()) {
            Some(defined) => defined,
            None => end.at.copy(),
        };
        let Some(body) = view.body(inner.as_slice()) else {
            return end;
        };
        let found = body
            .as_slice()
            .iter()
            .take(limit)
            .position(|item| match item {
                Item::Instance(shell, _) => shell.name() == name,
                _ => false,
            });
        let Some(at) = found else {
            return end;
        };
        let Some(next) = behind(&inner, at) else {
            return end;
        };
        end = TargetEnd {
            at: next,
            found: end.found.saturating_add(1),
        };
        limit = usize::MAX;
    }
    end
}

/// E9.
pub fn no_such_target(
    view: View<'_>,
    telling: &mut Telling,
    address: &[usize],
) -> Result<(), AllocError> {
    let Some(Item::Dynamic(target, _, _)) = view.item(address) else {
        return Ok(());
    };
    let end = target_end(view, address, target);
    let Some(name) = target.names().get(end.found) else {
        return Ok(());
    };
    let inner = match view.type_of(end.at.as_slice()) {
        Some(defined) => defined,
        None => end.at.copy(),
    };
    write!(
        telling.what,
        ": `{name}` isn't in {}",
        view.path(inner.as_slice())
    )?;
    let Some(body) = view.body(inner.as_slice()) else {
        return Ok(());
    };
    let mut nearest = Nearest::to(name.as_str());
    let mut is_behind = false;
    for item in body.as_slice() {
        if let Item::Instance(shell, _) = item {
            is_behind = is_behind || shell.name() == name;
            nearest.see(view.alloc, shell.name().as_str())?;
        }
    }
    if is_behind {
        return telling.note("it stands after the assignment: move the assignment down");
    }
    let Some(near) = nearest.best() else {
        return telling.note(
            "a TARGET is names of instances with dots between them, from this body on",
        );
    };
    let mut note = String::new(view.alloc);
    write!(note, "did you mean `{near}`?")?;
    telling.note(note.as_str())
}

/// E10.
pub fn not_dynamic(
    view: View<'_>,
    telling: &mut Telling,
    address: &[usize],
) -> Result<(), AllocError> {
    let Some((name, _)) = assignment(view.item(address)) else {
        return Ok(());
    };
    write!(telling.what, ": `{name}` isn't assigned from outside")?;
    telling.note("assign it in the component itself, or give the instance a type of its own")
}

/// The part of an instance that its kind may not have.
fn wrong_part(kind: Kind, shell: &Shell) -> Option<&'static str> {
    let is_field = kind == Kind::Field;
    if is_field && shell.address().is_some() {
        return Some("`@`");
    }
    if is_field && shell.stride().is_some() {
        return Some("`+=`");
    }
    if is_field && shell.align().is_some() {
        return Some("`%=`");
    }
    if is_field && shell.outside() != Outside::Unsaid {
        return Some("`external` or `internal`");
    }
    if is_field && shell.dims().len() > 1 {
        return Some("second size");
    }
    if !is_field && shell.range().is_some() {
        return Some("range of bits");
    }
    if !is_field && shell.reset().is_some() {
        return Some("reset");
    }
    None
}

/// E11.
pub fn part_not_allowed(
    view: View<'_>,
    telling: &mut Telling,
    address: &[usize],
) -> Result<(), AllocError> {
    let Some(Item::Instance(shell, _)) = view.item(address) else {
        return Ok(());
    };
    let Some(kind) = view.kind(address) else {
        return Ok(());
    };
    if let Some(part) = wrong_part(kind, shell) {
        write!(telling.what, ": {} has no {part}", a_kind(kind))?;
        return match kind {
            Kind::Field => telling.note("a field has `[size]` or `[high:low]`, and `= reset`"),
            _ => telling.note("a range of bits and `= reset` are of fields"),
        };
    }
    if shell.dims().len() > 4 {
        telling.what.push_str(": over four sizes")?;
        return telling.note("an array has at most four sizes");
    }
    if shell.stride().is_some() && shell.dims().is_empty() {
        telling.what.push_str(": `+=` without a size")?;
        return telling.note(
            "`+=` is the distance of an array's elements: give it a size, as `[4] += 8`, or leave it out",
        );
    }
    telling.what.push_str(": `@` with `%=`")?;
    telling.note("keep one of the two: `@` is the address, `%=` rounds up the next free one")
}

/// E12.
pub fn out_of_range(
    view: View<'_>,
    telling: &mut Telling,
    address: &[usize],
) -> Result<(), AllocError> {
    let Some(Item::Instance(shell, _)) = view.item(address) else {
        return Ok(());
    };
    if let Some((high, low)) = shell.range() {
        write!(telling.what, ": [{high}:{low}]")?;
        if high < low {
            telling
                .what
                .push_str(" has the high bit below the low one")?;
            let mut note = String::new(view.alloc);
            write!(note, "the high bit comes first: `[{low}:{high}]`")?;
            return telling.note(note.as_str());
        }
        return telling.note("a bit is at most 65,535");
    }
    let limit = 1u128 << 40;
    if let Some(number) = shell.address() {
        if number > limit {
            write!(telling.what, ": @ 0x{number:X}")?;
            return telling.note("an address is at most 2^40, 0x10000000000");
        }
    }
    if let Some(number) = shell.stride() {
        if number == 0 || number > limit {
            write!(telling.what, ": += 0x{number:X}")?;
            return telling.note("a stride is 1 to 2^40");
        }
    }
    if let Some(number) = shell.align() {
        if !number.is_power_of_two() || number > limit {
            write!(telling.what, ": %= {number}")?;
            return telling.note("an alignment is a power of two, as 4, 16 or 0x1000");
        }
    }
    telling.what.push_str(": ")?;
    push_dims(&mut telling.what, shell.dims())?;
    match view.kind(address) {
        Some(Kind::Field) => telling.note("a field has 1 to 65,536 bits"),
        _ => telling.note("a size is at least 1, and an array has at most 1,048,576 elements"),
    }
}

/// E13.
pub fn no_top(view: View<'_>, telling: &mut Telling) -> Result<(), AllocError> {
    let Some(top) = view.top else {
        telling
            .what
            .push_str(": no addrmap is defined outside of all braces")?;
        return telling.note("define one, as `addrmap top { .. };`");
    };
    write!(
        telling.what,
        ": --top {top}, and no addrmap `{top}` is defined outside of all braces"
    )?;
    let mut nearest = Nearest::to(top);
    let mut last = None;
    for item in view.description.items.as_slice() {
        if let Item::Define(name, component) = item {
            if component.kind == Kind::Addrmap {
                nearest.see(view.alloc, name.as_str())?;
                last = Some(name.as_str());
            }
        }
    }
    let mut note = String::new(view.alloc);
    match (nearest.best(), last) {
        (Some(near), _) => write!(note, "did you mean `{near}`?")?,
        (None, Some(last)) => write!(note, "the last addrmap is `{last}`")?,
        (None, None) => note.push_str("there is none at all")?,
    }
    telling.note(note.as_str())
}
