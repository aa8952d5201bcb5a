//! A text that is the source's, with some of its bytes replaced.

use crate::bytes::part;
use std::alloc::{AllocError, Global};

/// What was written of the source, and up to which byte.
#[derive(Drop)]
pub(crate) struct Writer<'a> {
    source: &'a [u8],
    at: usize,
    text: Vec<u8>,
}

impl<'a> Writer<'a> {
    /// Nothing is written, and the source's next byte is this one.
    pub(crate) fn new(alloc: Global, source: &'a [u8], at: usize) -> Writer<'a> {
        Writer {
            source,
            at,
            text: Vec::new(alloc),
        }
    }

    /// Appends what stands in the source up to a place.
    pub(crate) fn copy_to(&mut self, to: usize) -> Result<(), AllocError> {
        self.text.extend_from_slice(part(self.source, self.at, to))?;
        self.at = to;
        Ok(())
    }

    /// Whether what goes on stands behind a place of the source.
    pub(crate) fn is_past(&self, place: usize) -> bool {
        self.at > place
    }

    /// Goes to a place of the source.
    pub(crate) fn skip_to(&mut self, to: usize) {
        self.at = to;
    }

    /// Appends a text.
    pub(crate) fn push(&mut self, text: &str) -> Result<(), AllocError> {
        self.text.extend_from_slice(text.as_bytes())?;
        Ok(())
    }

    /// Appends what stands in the source up to a place, and a text in the place of what stands there up to another.
    pub(crate) fn replace(&mut self, from: usize, to: usize, text: &str) -> Result<(), AllocError> {
        self.copy_to(from)?;
        self.push(text)?;
        self.at = to;
        Ok(())
    }

    /// The text.
    pub(crate) fn as_slice(&self) -> &[u8] {
        self.text.as_slice()
    }
}
