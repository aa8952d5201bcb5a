//! Operands that are cut into words: the rest of a line.
ghost use Rattle.std.specs.Prelude.{◌≡◌, IfOk, option_map};
ghost use Rattle.rdl_parse.specs.Symbol.{symbol, symbols};
ghost use Rattle.rdl_script.specs.Operands as spec;

use rdl_parse::word::{is_mark, name_of, number_of, value_of};
use rdl_text::fault::WordFault;
use rdl_text::token::{Mark, Number, Token};
use rdl_text::tokens;
use rdl_tree::dims::Dims;
use rdl_tree::value::Value;
use std::alloc::{AllocError, Global};

pub(crate) type Range = (Number, Number);

/// The words of a text.
#[tactic(auto, unfolding(crate::specs::Operands::symbols_in))]
fn words_in<'a>(alloc: Global, text: &'a str) -> Result<Option<Vec<Token<'a>>>, AllocError>
    ensures { IfOk result (λ words. option_map (λ ws. symbols ws.items) words ≡ spec.symbols_in text.now) }
{
    match tokens(alloc, text) {
        Ok(words) => Ok(Some(words.to_vec(alloc)?)),
        Err(fault) => match fault.kind {
            WordFault::Memory => Err(AllocError),
            _ => Ok(None),
        },
    }
}

fn is_none(word: &Token<'_>) -> bool
    ensures { result ≡ spec.is_none (symbol word.now) }
{
    match name_of(word) {
        Some(name) => name == "none",
        None => false,
    }
}

fn size_of(left: &Token<'_>, size: &Token<'_>, right: &Token<'_>) -> Option<Number>
    ensures { result ≡ spec.size_by (symbol left.now) (symbol size.now) (symbol right.now) }
{
    if is_mark(left, Mark::OpenBracket) && is_mark(right, Mark::CloseBracket) {
        number_of(size)
    } else {
        None
    }
}

fn sizes_of(alloc: Global, words: &[Token<'_>]) -> Result<Option<Dims>, AllocError>
    ensures { IfOk result (λ dims. dims ≡ spec.sizes_by (symbols words.now)) }
{
    let mut sizes = Vec::new(alloc);
    let mut rest = words;
    'sizes: while let [left, size, right, others @ ..] = rest {
        match size_of(left, size, right) {
            Some(size) => sizes.push(size)?,
            None => return Ok(None),
        }
        rest = others;
    }
    if rest.is_empty() {
        Ok(Some(Dims::from_vec(sizes)))
    } else {
        Ok(None)
    }
}

fn dims_of(alloc: Global, words: &[Token<'_>]) -> Result<Option<Dims>, AllocError>
    ensures { IfOk result (λ dims. dims ≡ spec.dims_by (symbols words.now)) }
{
    match words {
        [] => Ok(None),
        [word] if is_none(word) => Ok(Some(Dims::new(alloc))),
        [_] => Ok(None),
        _ => sizes_of(alloc, words),
    }
}

fn range_of(
    left: &Token<'_>,
    high: &Token<'_>,
    colon: &Token<'_>,
    low: &Token<'_>,
    right: &Token<'_>,
) -> Option<Range>
    ensures { result ≡ spec.range_by (symbol left.now) (symbol high.now) (symbol colon.now) (symbol low.now) (symbol right.now) }
{
    let marked = is_mark(left, Mark::OpenBracket)
        && is_mark(colon, Mark::Colon)
        && is_mark(right, Mark::CloseBracket);
    if marked {
        Some((number_of(high)?, number_of(low)?))
    } else {
        None
    }
}

fn bits_of(words: &[Token<'_>]) -> Option<Option<Range>>
    ensures { result ≡ spec.bits_by (symbols words.now) }
{
    match words {
        [word] if is_none(word) => Some(None),
        [left, high, colon, low, right] => Some(Some(range_of(left, high, colon, low, right)?)),
        _ => None,
    }
}

fn number_or_none(words: &[Token<'_>]) -> Option<Option<Number>>
    ensures { result ≡ spec.number_or_none_by (symbols words.now) }
{
    match words {
        [word] if is_none(word) => Some(None),
        [word] => Some(Some(number_of(word)?)),
        _ => None,
    }
}

fn one_value(alloc: Global, words: &[Token<'_>]) -> Result<Option<Value>, AllocError>
    ensures { IfOk result (λ value. value ≡ spec.one_value_by (symbols words.now)) }
{
    let [word] = words else {
        return Ok(None);
    };
    match value_of(alloc, word) {
        Ok(value) => Ok(value),
        Err(_) => Err(AllocError),
    }
}

/// The sizes that a text is, which are none for `none`.
#[tactic(auto, unfolding(crate::specs::Operands::dims_in))]
pub(crate) fn dims_in(alloc: Global, text: &str) -> Result<Option<Dims>, AllocError>
    ensures { IfOk result (λ dims. dims ≡ spec.dims_in text.now) }
{
    match words_in(alloc, text)? {
        Some(words) => dims_of(alloc, words.as_slice()),
        None => Ok(None),
    }
}

/// The range that a text is, or that it is `none`.
#[tactic(auto, unfolding(crate::specs::Operands::bits_in))]
pub(crate) fn bits_in(alloc: Global, text: &str) -> Result<Option<Option<Range>>, AllocError>
    ensures { IfOk result (λ bits. bits ≡ spec.bits_in text.now) }
{
    match words_in(alloc, text)? {
        Some(words) => Ok(bits_of(words.as_slice())),
        None => Ok(None),
    }
}

/// The number that a text is, or that it is `none`.
#[tactic(auto, unfolding(crate::specs::Operands::number_in))]
pub(crate) fn number_in(alloc: Global, text: &str) -> Result<Option<Option<Number>>, AllocError>
    ensures { IfOk result (λ number. number ≡ spec.number_in text.now) }
{
    match words_in(alloc, text)? {
        Some(words) => Ok(number_or_none(words.as_slice())),
        None => Ok(None),
    }
}

/// The value that a text is.
#[tactic(auto, unfolding(crate::specs::Operands::value_in))]
pub(crate) fn value_in(alloc: Global, text: &str) -> Result<Option<Value>, AllocError>
    ensures { IfOk result (λ value. value ≡ spec.value_in text.now) }
{
    match words_in(alloc, text)? {
        Some(words) => one_value(alloc, words.as_slice()),
        None => Ok(None),
    }
}
