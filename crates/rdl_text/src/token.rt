//! One word of a text.
ghost use Rattle.std.specs.Prelude.{◌≡◌, ◌≢◌, ℕ, List, IfSome, IfNone, IfOk, MatchOption};
ghost use Rattle.rdl_text.specs.Spelling.{IsSpelled, IsQuoted};
ghost use Rattle.rdl_text.specs.declared.token.TokenKind.{TokenKind};
ghost use Rattle.rdl_text.specs.Word.{word};

use crate::raw::Raw;
use std::alloc::{AllocError, Global};
use std::marker::Model;

/// The width of every number of the language, in one place.
pub type Number = u128;

/// A mark.
#[derive(Clone, Copy, Debug, PartialEq, Eq)]
pub enum Mark {
    OpenBrace,
    CloseBrace,
    OpenBracket,
    CloseBracket,
    Colon,
    Semicolon,
    Comma,
    Dot,
    Equals,
    At,
    PlusEquals,
    PercentEquals,
    Arrow,
}

/// What a word is, with a number's value.
#[derive(Clone, Copy, Debug, PartialEq, Eq)]
pub enum TokenKind {
    Identifier,
    Number(Number),
    Text,
    Mark(Mark),
}

/// A word: its kind, the slice of the text that it is, and where it begins, in bytes. A contract sees a `Word`.
#[derive(Debug, Drop)]
pub struct Token<'a> {
    kind: TokenKind,
    source: &'a str,
    start: usize,
}

impl<'a> Model for Token<'a> {
    ghost use Rattle.rdl_text.specs.Word.{Word};

    ghost Value = { Word };

    ghost view = { λ t. record { kind = t.kind; start = t.start; source = t.source.now } };

    ghost use Rattle.rdl_text.specs.Spelling.{IsSpelled};

    ghost invariant = { λ t. IsSpelled t.kind t.source.now };
}

impl<'a> Token<'a> {
    #[inline(always)]
    pub(crate) fn new(kind: TokenKind, source: &'a str, start: usize) -> Token<'a>
        requires { IsSpelled kind source.now }
        ensures { result ≡ word kind start source.now }
    {
        Token {
            kind,
            source,
            start,
        }
    }

    #[inline(always)]
    pub fn kind(&self) -> TokenKind
        ensures { result ≡ self.now.kind }
    {
        self.kind
    }

    #[inline(always)]
    pub fn source(&self) -> &'a str
        ensures { result.now ≡ self.now.source }
    {
        self.source
    }

    #[inline(always)]
    pub fn start(&self) -> usize
        ensures { result ≡ self.now.start }
    {
        self.start
    }

    /// How each word of its kind is spelled. It does nothing when it runs.
    #[inline(always)]
    pub fn is_spelled(&self)
        ensures { IsSpelled self.now.kind self.now.source }
    {
        let _kind = self.kind;
    }

    /// What stands between the quotes of a string.
    pub fn raw(&self) -> Option<&'a str>
        ensures some { IfSome result (λ raw. IsQuoted self.now.source raw.now) }
        ensures none { IfNone result (self.now.kind ≢ TokenKind.Text) }
    {
        match self.kind {
            TokenKind::Text => Some(unquoted(self.source)),
            _ => None,
        }
    }

    /// A copy of what stands between the quotes of a string.
    pub fn to_raw(&self, alloc: Global) -> Result<Option<Raw>, AllocError>
        ensures { IfOk result (λ copy. MatchOption copy (self.now.kind ≢ TokenKind.Text) (IsQuoted self.now.source)) }
    {
        match self.raw() {
            Some(text) => Ok(Some(Raw::of_inside(alloc, text)?)),
            None => Ok(None),
        }
    }
}

/// What stands between two quotes.
fn unquoted(source: &str) -> &str
    requires { (inside : List ℕ) × IsQuoted source.now inside }
    ensures { IsQuoted source.now result.now }
{
    &source[1..source.len() - 1]
}
