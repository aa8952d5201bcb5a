//! A text without its long gaps, which says the same in fewer bytes.
ghost use Rattle.std.specs.Prelude.{◌≡◌, ◌++◌, [], Ok, true, IfOk, IfSome, IsTrue, string_bytes};
ghost use Rattle.rdl_text.specs.Words.{words};
ghost use Rattle.rdl_source.specs.Beside.{ends_line};
ghost use Rattle.rdl_weave.specs.Spelled.{SpellsAs};
ghost use Rattle.rdl_weave.specs.Thin.{HasOnlyWords, SaysAll};

use crate::bytes::{are_blanks, last_line, line_before, part};
use crate::coarse::ends_line;
use crate::spelled::spells_as;
use rdl_parse::parse::MAX_LEN;
use rdl_source::gap::{Left, Right, split_gap};
use rdl_source::span::Span;
use rdl_text::fault::WordFault;
use rdl_text::tokens;
use std::alloc::{AllocError, Global};
use std::str;

/// Whether these are lines of blanks and comments.
fn are_silent(gap: &[u8]) -> bool
    ensures words { IsTrue result → words gap.now ≡ Ok [] }
    ensures lines { IsTrue result → ends_line gap.now ≡ true }
{
    match split_gap(gap, Left::Begin, Right::End) {
        Some(_parts) => ends_line(gap),
        None => false,
    }
}

/// Puts in these bytes, if they are a text of whole words and comments; says whether they are.
fn put_words(alloc: Global, thin: &mut String, bytes: &[u8]) -> Result<bool, AllocError>
    ensures { IfOk result (λ put. IsTrue put → HasOnlyWords bytes.now × (string_bytes thin.new ≡ string_bytes thin.old ++ bytes.now)) }
{
    let Ok(text) = str::from_utf8(bytes) else {
        return Ok(false);
    };
    match tokens(alloc, text) {
        Ok(_) => {
            thin.push_str(text)?;
            Ok(true)
        }
        Err(fault) => match fault.kind {
            WordFault::Memory => Err(AllocError),
            _ => Ok(false),
        },
    }
}

/// The text without those of these parts, one behind another, that are lines of blanks and comments behind lines of whole words; none
/// where something stands there that is no word.
pub(crate) fn without_gaps(
    alloc: Global,
    text: &str,
    gaps: &[Span],
) -> Result<Option<String>, AllocError>
    ensures { IfOk result (λ found. IfSome found (λ thin. SaysAll (string_bytes thin) text.now)) }
{
    let bytes = text.as_bytes();
    let mut thin = String::new(alloc);
    let mut at = 0usize;
    'gaps: for gap in gaps {
        if gap.from < at || gap.to < gap.from || gap.to > bytes.len() {
            return Ok(None);
        }
        let front = &bytes[at..gap.from];
        if !ends_line(front) || !are_silent(&bytes[gap.from..gap.to]) {
            continue;
        }
        if !put_words(alloc, &mut thin, front)? {
            return Ok(None);
        }
        at = gap.to;
    }
    if !put_words(alloc, &mut thin, &bytes[at..])? {
        return Ok(None);
    }
    Ok(Some(thin))
}

/// The whole lines of a gap that stands there in a text.
fn lines_of(text: &[u8], gap: Span) -> Span {
    let line = line_before(text, gap.from);
    let from = if are_blanks(part(text, line, gap.from)) {
        line
    } else {
        gap.from
    };
    let to = from.saturating_add(last_line(part(text, from, gap.to)));
    Span { from, to }
}

/// The whole lines of those of the gaps of a text that are long, if they are most of it.
pub(crate) fn long_gaps(
    alloc: Global,
    text: &[u8],
    gaps: &[Span],
) -> Result<Vec<Span>, AllocError> {
    let mut list = Vec::new(alloc);
    let mut left = text.len();
    'gaps: for gap in gaps {
        let lines = lines_of(text, *gap);
        left = left.saturating_sub(lines.to.saturating_sub(lines.from));
        list.push(lines)?;
    }
    if left > text.len() / 2 {
        list.clear();
    }
    Ok(list)
}

/// Whether the text is seen to spell a map whose canonical text is this, without these gaps if that can be.
pub(crate) fn is_spelled(
    alloc: Global,
    canonical: &str,
    text: &str,
    gaps: &[Span],
) -> Result<bool, AllocError>
    ensures { IfOk result (λ answer. IsTrue answer → SpellsAs canonical.now text.now) }
{
    if text.len() > MAX_LEN || gaps.is_empty() {
        return spells_as(alloc, canonical, text);
    }
    match without_gaps(alloc, text, gaps)? {
        Some(thin) => spells_as(alloc, canonical, thin.as_str()),
        None => spells_as(alloc, canonical, text),
    }
}
