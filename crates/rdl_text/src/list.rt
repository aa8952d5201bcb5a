//! The words of a text, in order.
ghost use Rattle.std.specs.Prelude.{◌≡◌, ◌∷◌, ◌<◌, ◌^◌, [], length, nat_eq, slice_get, drop, map, MatchOption, IfOk};
ghost use Rattle.std.specs.List.{All};
ghost use Rattle.std.specs.Option.{option_map};
ghost use Rattle.rdl_text.specs.Standing.{Stands, word_at, first_mark};

use crate::cut::{mark_at, token_at};
use crate::token::{Mark, Token};
use std::alloc::{AllocError, Global};
use std::marker::Model;

/// The words of a text. A contract sees a list of `Word`s.
///
/// Only the places are kept at which they begin: a word is cut again each time that it is asked for.
#[derive(Debug, Drop)]
pub struct Tokens<'a> {
    text: &'a str,
    starts: Vec<u32>,
}

impl<'a> Model for Tokens<'a> {
    ghost use Rattle.std.specs.Prelude.{List, map};
    ghost use Rattle.std.specs.List.{All};
    ghost use Rattle.rdl_text.specs.Word.{Word};

    ghost Value = { List Word };

    ghost use Rattle.rdl_text.specs.Standing.{Stands, word_at};

    ghost view = { λ t. map (word_at t.text.now) t.starts.items };

    ghost invariant = { λ t. All (Stands t.text.now) t.starts.items };
}

impl<'a> Tokens<'a> {
    pub(crate) fn new(text: &'a str, starts: Vec<u32>) -> Tokens<'a>
        requires { All (Stands text.now) starts.items }
        ensures { result ≡ map (word_at text.now) starts.items }
    {
        Tokens { text, starts }
    }

    #[inline(always)]
    pub fn len(&self) -> usize
        ensures { result ≡ length self.now }
    {
        self.as_words().len()
    }

    pub fn is_empty(&self) -> bool
        ensures { result ≡ nat_eq (length self.now) 0 }
    {
        self.starts.len() == 0
    }

    #[inline(always)]
    pub fn get(&self, index: usize) -> Option<Token<'a>>
        ensures { result ≡ slice_get self.now index }
    {
        if index < self.starts.len() {
            Some(token_at(self.text, self.starts[index] as usize))
        } else {
            None
        }
    }

    /// The byte at which one of them begins.
    #[inline]
    #[tactic(auto, using(crate::proofs::Standing::start_kept))]
    pub fn start(&self, index: usize) -> Option<usize>
        ensures { result ≡ option_map (λ w. w.start) (slice_get self.now index) }
    {
        match self.starts.as_slice().get(index) {
            Some(start) => Some(*start as usize),
            None => None,
        }
    }

    /// All of them at once, for a text of few words.
    pub fn to_vec(&self, alloc: Global) -> Result<Vec<Token<'a>>, AllocError>
        ensures { IfOk result (λ words. words.items ≡ self.now) }
    {
        let mut words = Vec::with_capacity(alloc, self.starts.len())?;
        'starts: for start in &self.starts {
            words.push(token_at(self.text, *start as usize))?;
        }
        Ok(words)
    }

    /// All of them, to be read from the first on.
    pub fn as_words(&self) -> Words<'_>
        ensures { result ≡ self.now }
    {
        Words {
            text: self.text,
            starts: self.starts.as_slice(),
        }
    }
}

/// The last words of a text, from one of them on. A contract sees a list of `Word`s.
#[derive(Debug, Drop)]
pub struct Words<'a> {
    text: &'a str,
    starts: &'a [u32],
}

impl<'a> Model for Words<'a> {
    ghost use Rattle.std.specs.Prelude.{List, map};
    ghost use Rattle.std.specs.List.{All};
    ghost use Rattle.rdl_text.specs.Word.{Word};

    ghost Value = { List Word };

    ghost use Rattle.rdl_text.specs.Standing.{Stands, word_at};

    ghost view = { λ t. map (word_at t.text.now) t.starts.now };

    ghost invariant = { λ t. All (Stands t.text.now) t.starts.now };
}

impl<'a> Words<'a> {
    #[inline(always)]
    pub fn len(&self) -> usize
        ensures len { result ≡ length self.now }
        ensures small { result < 2 ^ 61 }
    {
        self.starts.len()
    }

    /// The mark that the first of them is.
    #[inline(always)]
    pub fn mark(&self) -> Option<Mark>
        ensures { result ≡ first_mark self.now }
    {
        match self.starts {
            [] => None,
            [start, ..] => mark_at(self.text, *start as usize),
        }
    }

    /// Those behind the first of them.
    #[inline(always)]
    pub fn others(&self) -> Words<'a>
        ensures { result ≡ drop 1 self.now }
    {
        match self.starts {
            [] => Words {
                text: self.text,
                starts: self.starts,
            },
            [_, others @ ..] => Words {
                text: self.text,
                starts: others,
            },
        }
    }

    /// The first of them, and those behind it.
    #[inline(always)]
    pub fn split_first(&self) -> Option<(Token<'a>, Words<'a>)>
        ensures { MatchOption result (self.now ≡ []) (λ p. self.now ≡ p.0 ∷ p.1) }
    {
        match self.starts {
            [] => None,
            [start, others @ ..] => Some((
                token_at(self.text, *start as usize),
                Words {
                    text: self.text,
                    starts: others,
                },
            )),
        }
    }
}
