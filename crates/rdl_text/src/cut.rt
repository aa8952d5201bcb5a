//! A text cut into words.
ghost use Rattle.std.specs.Prelude.{◌≡◌, ◌≤◌, ◌<◌, ◌+◌, ◌⊎◌, length, IfSome, IfOk, IfErr, Err, Ok, drop, slice_index, ◌≢◌, true, false};
ghost use Rattle.rdl_text.specs.Fault.{out_of_memory};
ghost use Rattle.rdl_text.specs.Front.{span_of, front_span};
ghost use Rattle.rdl_text.specs.Name.{is_letter};
ghost use Rattle.std.specs.Char.{is_digit};
ghost use Rattle.rdl_text.specs.Spans.{AreSpans};
ghost use Rattle.rdl_text.specs.Standing.{Stands, word_at, kind_mark};
ghost use Rattle.rdl_text.specs.Rows.{run};
ghost use Rattle.rdl_text.specs.Words.{is_in_line};
ghost use Rattle.rdl_text.specs.Words as spec;

use crate::bytes::{Class, byte_at, is_blank, is_digit, run_len};
use crate::fault::{TextFault, WordFault};
use crate::list::Tokens;
use crate::name::{Name, is_letter};
use crate::piece::Span;
use crate::rows::{closing, is_small, kind_of, long_mark, longest, longest_number, short_mark};
use crate::token::{Mark, Token, TokenKind};
use memchr::memchr;
use std::alloc::Global;

/// How many bytes stand before the next `*/`.
fn comment_end(bytes: &[u8]) -> Option<usize>
    ensures place { result ≡ spec.comment_end bytes.now }
    ensures within { IfSome result (λ n. n < length bytes.now) }
{
    'scan: for (index, byte) in bytes.iter().enumerate() {
        if *byte == b'*' && byte_at(bytes, index + 1) == b'/' {
            return Some(index);
        }
    }
    None
}

fn block_comment(bytes: &[u8]) -> Result<Span, WordFault>
    requires { 2 ≤ length bytes.now }
    ensures { result ≡ span_of (spec.block_comment bytes.now) }
{
    match comment_end(&bytes[2..]) {
        Some(len) => Ok(Span::Gap(len + 4)),
        None => Err(WordFault::UnendedComment),
    }
}

/// How many bytes stand behind a `//` up to the end of its line.
fn line_len(bytes: &[u8]) -> usize
    requires { 2 ≤ length bytes.now }
    ensures len { result ≡ run is_in_line 2 bytes.now }
    ensures within { result + 2 ≤ length bytes.now }
{
    let line = &bytes[2..];
    match memchr(b'\n', line) {
        Some(len) => len,
        None => line.len(),
    }
}

/// The identifier that a text begins with, which begins with a letter.
#[inline(always)]
#[tactic(auto, using(crate::proofs::Fronts::letter_span))]
fn identifier_span(bytes: &[u8]) -> Result<Span, WordFault>
    requires { is_letter (slice_index bytes.now 0) ≡ true }
    ensures { result ≡ front_span bytes.now }
{
    let len = 1 + run_len(bytes, 1, Class::IdentifierRest);
    if len > Name::MAX_LEN {
        Err(WordFault::IdentifierTooLong)
    } else {
        Ok(Span::Word(len))
    }
}

/// The number that a text begins with, which begins with a digit.
#[inline]
#[tactic(auto, using(crate::proofs::Fronts::digit_span, crate::proofs::Fronts::digit_span_none))]
fn number_span(bytes: &[u8]) -> Result<Span, WordFault>
    requires { is_digit (slice_index bytes.now 0) 10 ≡ true }
    ensures { result ≡ front_span bytes.now }
{
    match longest_number(bytes) {
        Some(front) if is_small(front) => Ok(Span::Word(front.len)),
        Some(front) => match kind_of(bytes, front) {
            Ok(_) => Ok(Span::Word(front.len)),
            Err(fault) => Err(fault),
        },
        None => Err(WordFault::BadCharacter),
    }
}

/// The string that a text begins with, which begins with a quote.
#[inline]
#[tactic(auto, using(crate::proofs::Fronts::quote_span, crate::proofs::Steps::row_lemmas))]
fn string_span(bytes: &[u8]) -> Result<Span, WordFault>
    requires { slice_index bytes.now 0 ≡ 34 }
    ensures { result ≡ front_span bytes.now }
{
    match closing(&bytes[1..]) {
        Some(len) => Ok(Span::Word(len + 2)),
        None => Err(WordFault::UnendedString),
    }
}

/// The mark that a text begins with, which begins with no letter, no digit and no quote.
#[inline(always)]
#[tactic(auto, using(crate::proofs::Fronts::mark_span))]
fn mark_span(bytes: &[u8]) -> Result<Span, WordFault>
    requires letter { is_letter (slice_index bytes.now 0) ≡ false }
    requires digit { is_digit (slice_index bytes.now 0) 10 ≡ false }
    requires quote { slice_index bytes.now 0 ≢ 34 }
    ensures { result ≡ front_span bytes.now }
{
    let first = byte_at(bytes, 0);
    match long_mark(first, byte_at(bytes, 1)) {
        Some(_) => Ok(Span::Word(2)),
        None => match short_mark(first) {
            Some(_) => Ok(Span::Word(1)),
            None => Err(WordFault::BadCharacter),
        },
    }
}

/// What a text begins with that begins with no blank and no comment.
#[inline(always)]
fn word_span(bytes: &[u8]) -> Result<Span, WordFault>
    ensures { result ≡ front_span bytes.now }
{
    let first = byte_at(bytes, 0);
    if is_letter(first) {
        identifier_span(bytes)
    } else if is_digit(first, 10) {
        number_span(bytes)
    } else if first == b'"' {
        string_span(bytes)
    } else {
        mark_span(bytes)
    }
}

/// What a text begins with that begins with a slash.
#[tactic(auto, using(crate::proofs::Steps::row_lemmas), unfolding(crate::specs::Words::piece))]
fn slash_span(bytes: &[u8]) -> Result<Span, WordFault>
    requires { slice_index bytes.now 0 ≡ 47 }
    ensures { result ≡ span_of (spec.piece bytes.now) }
{
    match byte_at(bytes, 1) {
        b'/' => Ok(Span::Gap(2 + line_len(bytes))),
        b'*' => block_comment(bytes),
        _ => mark_span(bytes),
    }
}

/// What a text that isn't empty begins with.
#[inline(always)]
#[tactic(auto, using(crate::proofs::Steps::row_lemmas), unfolding(crate::specs::Words::piece))]
fn span_at(bytes: &[u8]) -> Result<Span, WordFault>
    ensures { result ≡ span_of (spec.piece bytes.now) }
{
    let first = byte_at(bytes, 0);
    if is_blank(first) {
        Ok(Span::Gap(run_len(bytes, 0, Class::Blank)))
    } else if first == b'/' {
        slash_span(bytes)
    } else {
        word_span(bytes)
    }
}

/// The identifier that stands at a place.
#[inline(always)]
fn identifier_at<'a>(text: &'a str, start: usize) -> Token<'a>
    requires stands { Stands text.now start }
    requires letter { is_letter (slice_index text.now start) ≡ true }
    ensures { result ≡ word_at text.now start }
{
    let len = 1 + run_len(&text.as_bytes()[start..], 1, Class::IdentifierRest);
    Token::new(TokenKind::Identifier, &text[start..start + len], start)
}

/// The word that stands at a place, which most often is an identifier.
#[inline(always)]
pub(crate) fn token_at<'a>(text: &'a str, start: usize) -> Token<'a>
    requires { Stands text.now start }
    ensures { result ≡ word_at text.now start }
{
    if is_letter(byte_at(text.as_bytes(), start)) {
        identifier_at(text, start)
    } else {
        longest_at(text, start)
    }
}

/// The word that stands at a place, looked for among all of them.
fn longest_at<'a>(text: &'a str, start: usize) -> Token<'a>
    requires { Stands text.now start }
    ensures { result ≡ word_at text.now start }
{
    let bytes = &text.as_bytes()[start..];
    match longest(bytes) {
        Some(front) => match kind_of(bytes, front) {
            Ok(kind) => Token::new(kind, &text[start..start + front.len], start),
            Err(_) => unreachable!(),
        },
        None => unreachable!(),
    }
}

/// The mark that the word is that stands at a place.
#[inline(always)]
pub(crate) fn mark_at(text: &str, start: usize) -> Option<Mark>
    requires { Stands text.now start }
    ensures { result ≡ kind_mark (word_at text.now start).kind }
{
    let first = byte_at(text.as_bytes(), start);
    match long_mark(first, byte_at(text.as_bytes(), start + 1)) {
        Some(mark) => Some(mark),
        None => short_mark(first),
    }
}

/// So many bytes of a text have about one word, with what stands before it. Room for so many words is taken at first.
const BYTES_OF_A_WORD: usize = 4;

/// The words of a text. No byte of it is copied.
pub fn tokens<'a>(alloc: Global, text: &'a str) -> Result<Tokens<'a>, TextFault>
    // They are all its words.
    ensures words { IfOk result (λ ts. spec.words text.now ≡ Ok ts) }
    // They stand in it one behind another.
    ensures spans { IfOk result (λ ts. AreSpans 0 text.now ts) }
    // A fault is its first one, if it isn't for memory.
    ensures fault { IfErr result (λ f. (f ≡ out_of_memory) ⊎ (spec.words text.now ≡ Err f)) }
{
    if text.len() > u32::MAX as usize {
        return Err(TextFault::MEMORY);
    }
    let mut starts = Vec::with_capacity(alloc, text.len() / BYTES_OF_A_WORD)?;
    let mut at = 0;
    'pieces: while at < text.len() {
        match span_at(&text.as_bytes()[at..]) {
            Ok(Span::Gap(len)) => at += len,
            Ok(Span::Word(len)) => {
                starts.push(at as u32)?;
                at += len;
            }
            Err(kind) => return Err(TextFault { kind, offset: at }),
        }
    }
    Ok(Tokens::new(text, starts))
}
