//! A text as it is woven, with the places of what was kept of the source.

use rdl_source::span::Span;
use std::alloc::{AllocError, Global};

/// A byte of the source that stands in a text, with those behind it up to the end of its statement or float: its place there and
/// here.
#[derive(Clone, Copy, PartialEq, Eq)]
pub(crate) struct Kept {
    pub(crate) from: usize,
    pub(crate) at: usize,
}

/// A text, and what stands in it as it stood in the source.
#[derive(Drop)]
pub(crate) struct Woven {
    pub(crate) text: Vec<u8>,
    pub(crate) kept: Vec<Kept>,
    /// Blanks and comments, where they are long: their places here, in order.
    pub(crate) gaps: Vec<Span>,
}

/// How many bytes a long gap has at least.
const LONG: usize = 1024;

impl Woven {
    pub(crate) fn new(alloc: Global) -> Woven {
        Woven {
            text: Vec::new(alloc),
            kept: Vec::new(alloc),
            gaps: Vec::new(alloc),
        }
    }

    pub(crate) fn as_slice(&self) -> &[u8] {
        self.text.as_slice()
    }

    pub(crate) fn kept(&self) -> &[Kept] {
        self.kept.as_slice()
    }

    pub(crate) fn push(&mut self, bytes: &[u8]) -> Result<(), AllocError> {
        self.text.extend_from_slice(bytes)
    }

    pub(crate) fn push_str(&mut self, text: &str) -> Result<(), AllocError> {
        self.push(text.as_bytes())
    }

    /// Notes that the last bytes, so many, are those of the source before a place.
    pub(crate) fn keep(&mut self, to: usize, count: usize) -> Result<(), AllocError> {
        let from = to.saturating_sub(count);
        let at = self.text.len().saturating_sub(count);
        self.kept.push(Kept { from, at })?;
        Ok(())
    }

    /// Notes that the last bytes, so many, are blanks and comments, if they are long.
    pub(crate) fn note_gap(&mut self, count: usize) -> Result<(), AllocError> {
        if count >= LONG {
            let to = self.text.len();
            let from = to.saturating_sub(count);
            self.gaps.push(Span { from, to })?;
        }
        Ok(())
    }

    /// Puts what was noted in the order of the source, and of one byte in that of the text.
    pub(crate) fn sort(&mut self) {
        self.kept
            .as_mut_slice()
            .sort_unstable_by_key(|kept: &Kept| (kept.from, kept.at));
    }

    /// Appends another text with what it keeps.
    pub(crate) fn append(&mut self, other: &Woven) -> Result<(), AllocError> {
        let begin = self.text.len();
        'kept: for kept in other.kept() {
            self.kept.push(Kept {
                from: kept.from,
                at: begin.saturating_add(kept.at),
            })?;
        }
        'gaps: for gap in &other.gaps {
            self.gaps.push(Span {
                from: begin.saturating_add(gap.from),
                to: begin.saturating_add(gap.to),
            })?;
        }
        self.push(other.as_slice())
    }

    /// Takes out so many bytes at the end, which are blanks.
    pub(crate) fn cut(&mut self, count: usize) {
        let left = self.text.len().saturating_sub(count);
        self.text.truncate(left);
        if let Some(gap) = self.gaps.as_mut_slice().last_mut() {
            gap.to = gap.to.min(left);
        }
    }

    /// Whether it is the same as another.
    pub(crate) fn is_same(&self, other: &Woven) -> bool {
        self.as_slice() == other.as_slice() && self.kept() == other.kept()
    }
}
