//! The lines of a session, with the texts in them as they stand.
ghost use Rattle.std.specs.Prelude.{◌≡◌, IfOk, bytes_eq, map, option_map};
ghost use Rattle.rdl_session.specs.Reading as spec;
ghost use Rattle.rdl_session.specs.Seen.{seen, seen_lines};

use crate::parts::{address, cut, number, taken};
use rdl_tree::address::Address;
use std::alloc::{AllocError, Global};

/// A patch as it is written: what it does, the address, and a number, a name, or the text of one item.
#[derive(Debug, Drop)]
pub enum PatchLine<'a> {
    Insert(Address, &'a [u8]),
    Delete(Address),
    Shift(Address, usize),
    Shell(Address, &'a [u8]),
    Value(Address, &'a [u8]),
    Target(Address, &'a [u8]),
    OfType(Address, &'a [u8]),
    OfDefine(Address, &'a [u8]),
}

/// The lines of a session: the map's text, and the patches of each step.
#[derive(Debug, Drop)]
pub struct Lines<'a> {
    pub map: &'a [u8],
    pub undo: Vec<Vec<PatchLine<'a>>>,
    pub redo: Vec<Vec<PatchLine<'a>>>,
}

pub(crate) fn is(word: &[u8], name: &str) -> bool
    ensures { result ≡ bytes_eq word.now name.now }
{
    word == name.as_bytes()
}

/// A line of a word and a count, and what is behind it.
#[tactic(auto, unfolding(crate::specs::Reading::count_in))]
pub(crate) fn count<'a>(text: &'a [u8], word: &str) -> Option<(usize, &'a [u8])>
    ensures { option_map (λ p. (p.0, p.1.now)) result ≡ spec.count_in word.now text.now }
{
    let (line, rest) = cut(text, b'\n')?;
    let (first, operand) = cut(line, b' ')?;
    if is(first, word) {
        Some((number(operand)?, rest))
    } else {
        None
    }
}

/// A count, and so many bytes behind the line.
#[tactic(auto, unfolding(crate::specs::Reading::counted_in))]
fn counted<'a>(operand: &[u8], rest: &'a [u8]) -> Option<(&'a [u8], &'a [u8])>
    ensures { option_map (λ p. (p.0.now, p.1.now)) result ≡ spec.counted_in operand.now rest.now }
{
    taken(rest, number(operand)?)
}

/// A patch that isn't `delete`, by what it does, its address, what stands behind that, and what is behind the line.
#[tactic(auto, unfolding(crate::specs::Reading::exchange_in))]
fn exchange<'a>(
    word: &[u8],
    at: Address,
    last: &'a [u8],
    rest: &'a [u8],
) -> Option<(PatchLine<'a>, &'a [u8])>
    ensures { option_map (λ p. (seen p.0, p.1.now)) result ≡ spec.exchange_in word.now at last.now rest.now }
{
    if is(word, "insert") {
        let (text, rest) = counted(last, rest)?;
        return Some((PatchLine::Insert(at, text), rest));
    }
    if is(word, "shift") {
        return Some((PatchLine::Shift(at, number(last)?), rest));
    }
    if is(word, "shell") {
        let (text, rest) = counted(last, rest)?;
        return Some((PatchLine::Shell(at, text), rest));
    }
    if is(word, "value") {
        let (text, rest) = counted(last, rest)?;
        return Some((PatchLine::Value(at, text), rest));
    }
    if is(word, "target") {
        let (text, rest) = counted(last, rest)?;
        return Some((PatchLine::Target(at, text), rest));
    }
    if is(word, "type") {
        return Some((PatchLine::OfType(at, last), rest));
    }
    if is(word, "name") {
        return Some((PatchLine::OfDefine(at, last), rest));
    }
    None
}

/// A patch by what it does, what stands behind that, and what is behind the line.
#[tactic(auto, unfolding(crate::specs::Reading::act_in))]
fn act<'a>(word: &[u8], operands: &'a [u8], rest: &'a [u8]) -> Option<(PatchLine<'a>, &'a [u8])>
    ensures { option_map (λ p. (seen p.0, p.1.now)) result ≡ spec.act_in word.now operands.now rest.now }
{
    if is(word, "delete") {
        return Some((PatchLine::Delete(address(operands)?), rest));
    }
    let (at, last) = cut(operands, b' ')?;
    exchange(word, address(at)?, last, rest)
}

/// The patch at the front, and what is behind it.
#[tactic(auto, unfolding(crate::specs::Reading::patch_in))]
fn patch(text: &[u8]) -> Option<(PatchLine<'_>, &[u8])>
    ensures { option_map (λ p. (seen p.0, p.1.now)) result ≡ spec.patch_in text.now }
{
    let (line, rest) = cut(text, b'\n')?;
    let (word, operands) = cut(line, b' ')?;
    act(word, operands, rest)
}

/// The step at the front, and what is behind it.
#[tactic(auto, unfolding(crate::specs::Reading::step_in))]
fn step<'a>(
    alloc: Global,
    text: &'a [u8],
) -> Result<Option<(Vec<PatchLine<'a>>, &'a [u8])>, AllocError>
    ensures { IfOk result (λ o. option_map (λ p. (map seen p.0.items, p.1.now)) o ≡ spec.step_in text.now) }
{
    let Some((count, mut rest)) = count(text, "back") else {
        return Ok(None);
    };
    let mut patches = Vec::new(alloc);
    'patches: for _number in 0..count {
        match patch(rest) {
            Some((patch, behind)) => {
                patches.push(patch)?;
                rest = behind;
            }
            None => return Ok(None),
        }
    }
    Ok(Some((patches, rest)))
}

/// The steps at the front, behind a line with this word, and what is behind them.
#[tactic(auto, unfolding(crate::specs::Reading::steps_in))]
fn steps<'a>(
    alloc: Global,
    text: &'a [u8],
    word: &str,
) -> Result<Option<(Vec<Vec<PatchLine<'a>>>, &'a [u8])>, AllocError>
    ensures { IfOk result (λ o. option_map (λ p. (map (λ patches. map seen patches.items) p.0.items, p.1.now)) o ≡ spec.steps_in word.now text.now) }
{
    let Some((count, mut rest)) = count(text, word) else {
        return Ok(None);
    };
    let mut steps = Vec::new(alloc);
    'steps: for _number in 0..count {
        match step(alloc, rest)? {
            Some((patches, behind)) => {
                steps.push(patches)?;
                rest = behind;
            }
            None => return Ok(None),
        }
    }
    Ok(Some((steps, rest)))
}

/// The text of the map, and what is behind it.
#[tactic(auto, unfolding(crate::specs::Reading::head_in))]
fn head(text: &[u8]) -> Option<(&[u8], &[u8])>
    ensures { option_map (λ p. (p.0.now, p.1.now)) result ≡ spec.head_in text.now }
{
    let (line, rest) = cut(text, b'\n')?;
    if is(line, "regedit session 1") {
        let (count, rest) = count(rest, "map")?;
        taken(rest, count)
    } else {
        None
    }
}

/// The lines that the text is.
#[tactic(auto, unfolding(crate::specs::Reading::lines_in))]
pub(crate) fn lines_of<'a>(alloc: Global, text: &'a [u8]) -> Result<Option<Lines<'a>>, AllocError>
    ensures { IfOk result (λ o. option_map seen_lines o ≡ spec.lines_in text.now) }
{
    let Some((map, rest)) = head(text) else {
        return Ok(None);
    };
    let Some((undo, rest)) = steps(alloc, rest, "undo")? else {
        return Ok(None);
    };
    let Some((redo, rest)) = steps(alloc, rest, "redo")? else {
        return Ok(None);
    };
    if is(rest, "end\n") {
        Ok(Some(Lines { map, undo, redo }))
    } else {
        Ok(None)
    }
}
