//! What the lines of a session mean.
ghost use Rattle.std.specs.Prelude.{◌≡◌, IfOk, bytes_eq, map, option_map};
ghost use Rattle.rdl_tree.specs.declared.patch.Patch.TheVariants.{Exchange};
ghost use Rattle.rdl_session.specs.Meaning as spec;
ghost use Rattle.rdl_session.specs.Seen.{seen};

use crate::lines::PatchLine;
use rdl_parse::class::Class;
use rdl_parse::fault::ParseFaultKind;
use rdl_parse::parse::{parse, parse_item};
use rdl_text::fault::WordFault;
use rdl_text::name::{Name, NameFault};
use rdl_tree::address::Address;
use rdl_tree::description::{Description, Item, Of};
use rdl_tree::part::Part;
use rdl_tree::patch::{Patch, address_behind};
use rdl_tree::patch_address::PatchAddress;
use rdl_tree::value::Value;
use std::alloc::{AllocError, Global};
use std::str;

/// The description that the bytes spell.
#[tactic(auto, unfolding(crate::specs::Meaning::map_of))]
pub(crate) fn map_of(alloc: Global, bytes: &[u8]) -> Result<Option<Description>, AllocError>
    ensures { IfOk result (λ o. option_map (λ d. d.items) o ≡ spec.map_of bytes.now) }
{
    let Ok(text) = str::from_utf8(bytes) else {
        return Ok(None);
    };
    match parse(alloc, text) {
        Ok((description, _)) => Ok(Some(description)),
        Err(fault) => match fault.kind {
            ParseFaultKind::Words(WordFault::Memory) => Err(AllocError),
            _ => Ok(None),
        },
    }
}

/// The only one of the items.
fn one_of(mut items: Vec<Item>) -> Option<Item>
    ensures { result ≡ spec.one_of items.items }
{
    if items.len() == 1 { items.pop() } else { None }
}

/// The one item that the bytes are.
#[tactic(auto, unfolding(crate::specs::Meaning::item_of))]
fn item_of(alloc: Global, bytes: &[u8]) -> Result<Option<Item>, AllocError>
    ensures { IfOk result (λ o. o ≡ spec.item_of bytes.now) }
{
    let Ok(text) = str::from_utf8(bytes) else {
        return Ok(None);
    };
    match parse_item(alloc, text) {
        Ok(items) => Ok(one_of(items)),
        Err(fault) => match fault.kind {
            ParseFaultKind::Words(WordFault::Memory) => Err(AllocError),
            _ => Ok(None),
        },
    }
}

fn is_free(class: Class) -> bool
    ensures { result ≡ spec.is_free class }
{
    matches!(class, Class::Name)
}

/// The name that the bytes are, if it isn't reserved.
fn name_of(alloc: Global, bytes: &[u8]) -> Result<Option<Name>, AllocError>
    ensures { IfOk result (λ o. o ≡ spec.name_of bytes.now) }
{
    let Ok(text) = str::from_utf8(bytes) else {
        return Ok(None);
    };
    if !is_free(Class::of(text)) {
        return Ok(None);
    }
    match Name::new(alloc, text) {
        Ok(name) => Ok(Some(name)),
        Err(NameFault::NotSuch) => Ok(None),
        Err(NameFault::Memory) => Err(AllocError),
    }
}

fn is_named(name: &Name, word: &str) -> bool
    ensures { result ≡ bytes_eq name.now word.now }
{
    name.as_str() == word
}

/// The shell of an instance of the type `T`.
fn shell_of(item: Item) -> Option<Part>
    ensures { result ≡ spec.shell_of item }
{
    match item {
        Item::Instance(shell, of) => match of {
            Of::Named(name) => {
                if is_named(&name, "T") {
                    Some(Part::OfShell(shell))
                } else {
                    None
                }
            }
            Of::Anonymous(_component) => None,
        },
        _other => None,
    }
}

/// The value of the property `p`.
fn value_of(item: Item) -> Option<Part>
    ensures { result ≡ spec.value_of item }
{
    match item {
        Item::Own(name, value) => {
            if is_named(&name, "p") {
                Some(Part::OfValue(value))
            } else {
                None
            }
        }
        _other => None,
    }
}

fn is_true(value: &Value) -> bool
    ensures { result ≡ spec.is_true value.now }
{
    match value {
        Value::Bool(truth) => *truth,
        _ => false,
    }
}

/// The target at which the property `p` is `true`.
fn target_of(item: Item) -> Option<Part>
    ensures { result ≡ spec.target_of item }
{
    match item {
        Item::Dynamic(target, name, value) => {
            if is_true(&value) && is_named(&name, "p") {
                Some(Part::OfTarget(target))
            } else {
                None
            }
        }
        _other => None,
    }
}

/// The address, for a patch behind these.
fn address_of(alloc: Global, before: &[Patch], at: &Address) -> Result<PatchAddress, AllocError>
    ensures { IfOk result (λ address. address ≡ at.now) }
{
    match at.as_slice() {
        [] => PatchAddress::new(alloc, at),
        _ => address_behind(alloc, before, &at.holder(), at.number()),
    }
}

fn exchange(at: PatchAddress, part: Option<Part>) -> Option<Patch>
    ensures { result ≡ spec.exchanged at part }
{
    Some(Patch::Exchange(at, part?))
}

/// The patch that its lines mean, behind these.
#[tactic(auto, unfolding(crate::specs::Meaning::patch_of))]
fn patch_of(
    alloc: Global,
    before: &[Patch],
    line: &PatchLine<'_>,
) -> Result<Option<Patch>, AllocError>
    ensures { IfOk result (λ o. o ≡ spec.patch_of (seen line.now)) }
{
    match line {
        PatchLine::Insert(at, text) => match item_of(alloc, text)? {
            Some(item) => Ok(Some(Patch::Insert(address_of(alloc, before, at)?, item))),
            None => Ok(None),
        },
        PatchLine::Delete(at) => Ok(Some(Patch::Delete(address_of(alloc, before, at)?))),
        PatchLine::Shift(at, to) => { Ok(Some(Patch::Shift(address_of(alloc, before, at)?, *to))) }
        PatchLine::Shell(at, text) => match item_of(alloc, text)? {
            Some(item) => Ok(exchange(address_of(alloc, before, at)?, shell_of(item))),
            None => Ok(None),
        },
        PatchLine::Value(at, text) => match item_of(alloc, text)? {
            Some(item) => Ok(exchange(address_of(alloc, before, at)?, value_of(item))),
            None => Ok(None),
        },
        PatchLine::Target(at, text) => match item_of(alloc, text)? {
            Some(item) => Ok(exchange(address_of(alloc, before, at)?, target_of(item))),
            None => Ok(None),
        },
        PatchLine::OfType(at, name) => match name_of(alloc, name)? {
            Some(name) => Ok(exchange(address_of(alloc, before, at)?, Some(Part::OfType(name)))),
            None => Ok(None),
        },
        PatchLine::OfDefine(at, name) => match name_of(alloc, name)? {
            Some(name) => Ok(exchange(address_of(alloc, before, at)?, Some(Part::OfDefine(name)))),
            None => Ok(None),
        },
    }
}

/// The patches that the lines of a step mean.
fn step_of(alloc: Global, lines: &[PatchLine<'_>]) -> Result<Option<Vec<Patch>>, AllocError>
    ensures { IfOk result (λ o. option_map (λ v. v.items) o ≡ spec.all_of spec.patch_of (map seen lines.now)) }
{
    let mut patches = Vec::new(alloc);
    let mut rest = lines;
    'lines: while let [line, others @ ..] = rest {
        match patch_of(alloc, patches.as_slice(), line)? {
            Some(patch) => patches.push(patch)?,
            None => return Ok(None),
        }
        rest = others;
    }
    Ok(Some(patches))
}

/// The steps that lines mean.
pub(crate) fn steps_of(
    alloc: Global,
    lines: &[Vec<PatchLine<'_>>],
) -> Result<Option<Vec<Vec<Patch>>>, AllocError>
    ensures { IfOk result (λ o. option_map (λ v. map (λ step. step.items) v.items) o ≡ spec.all_of (spec.all_of spec.patch_of) (map (λ step. map seen step.items) lines.now)) }
{
    let mut steps = Vec::new(alloc);
    let mut rest = lines;
    'lines: while let [line, others @ ..] = rest {
        match step_of(alloc, line.as_slice())? {
            Some(step) => steps.push(step)?,
            None => return Ok(None),
        }
        rest = others;
    }
    Ok(Some(steps))
}
