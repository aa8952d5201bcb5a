//! The words of a statement, with the bytes of the source that each stands at.

use crate::bytes::part;
use rdl_text::fault::WordFault;
use rdl_text::token::{Mark, Token, TokenKind};
use rdl_text::tokens;
use std::alloc::{AllocError, Global};
use std::str;

/// A word: its bytes in the source, and what it is to an edit.
#[derive(Clone, Copy)]
pub(crate) struct Lexeme {
    pub(crate) from: usize,
    pub(crate) to: usize,
    pub(crate) mark: Option<Mark>,
    /// Whether it is `external` or `internal`.
    pub(crate) is_outside: bool,
    pub(crate) is_default: bool,
}

fn make_lexeme(begin: usize, word: &Token<'_>) -> Lexeme {
    let source = word.source();
    let from = begin.saturating_add(word.start());
    Lexeme {
        from,
        to: from.saturating_add(source.len()),
        mark: match word.kind() {
            TokenKind::Mark(mark) => Some(mark),
            _ => None,
        },
        is_outside: source == "external" || source == "internal",
        is_default: source == "default",
    }
}

/// The words between two places of the source. There are none where no text of words stands there.
pub(crate) fn lexemes(
    alloc: Global,
    source: &[u8],
    from: usize,
    to: usize,
) -> Result<Vec<Lexeme>, AllocError> {
    let mut list = Vec::new(alloc);
    let Ok(text) = str::from_utf8(part(source, from, to)) else {
        return Ok(list);
    };
    match tokens(alloc, text) {
        Ok(words) => {
            'words: for index in 0..words.len() {
                if let Some(word) = words.get(index) {
                    list.push(make_lexeme(from, &word))?;
                }
            }
            Ok(list)
        }
        Err(fault) => match fault.kind {
            WordFault::Memory => Err(AllocError),
            _ => Ok(list),
        },
    }
}

/// An INST: the numbers of its name among the words of its statement, and of the mark behind it.
#[derive(Clone, Copy)]
pub(crate) struct Inst {
    pub(crate) name: usize,
    pub(crate) end: usize,
}

/// The INSTs of the words of a statement, from the word of this number on.
pub(crate) fn insts(
    alloc: Global,
    words: &[Lexeme],
    begin: usize,
) -> Result<Vec<Inst>, AllocError> {
    let mut list = Vec::new(alloc);
    let mut name = begin;
    'words: for (index, word) in words.iter().enumerate() {
        let is_end = word.mark == Some(Mark::Comma) || word.mark == Some(Mark::Semicolon);
        if is_end && index > name {
            list.push(Inst { name, end: index })?;
            name = index.saturating_add(1);
        }
    }
    Ok(list)
}
