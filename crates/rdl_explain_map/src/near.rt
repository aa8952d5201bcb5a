//! Names that are near to another.

use std::alloc::{AllocError, Global};
use strsim::osa_distance;

/// How many letters of a name of this length may be wrong.
fn reach(len: usize) -> usize {
    if len <= 2 {
        0
    } else if len <= 4 {
        1
    } else if len <= 8 {
        2
    } else {
        3
    }
}

/// A bit for each letter that a name has.
fn letters(name: &str) -> u32 {
    let mut letters = 0u32;
    for byte in name.as_bytes() {
        letters |= 1u32 << (*byte % 32);
    }
    letters
}

/// How many names are compared letter by letter at most.
const COMPARED: usize = 500;

/// The name that is nearest to a written one, of those that were seen.
#[derive(Drop)]
pub struct Nearest<'w, 'n> {
    written: &'w str,
    letters: u32,
    best: Option<&'n str>,
    distance: usize,
    compared: usize,
}

impl<'w, 'n> Nearest<'w, 'n> {
    pub fn to(written: &'w str) -> Nearest<'w, 'n> {
        Nearest {
            written,
            letters: letters(written),
            best: None,
            distance: reach(written.len()).saturating_add(1),
            compared: 0,
        }
    }

    fn take(&mut self, name: &'n str, distance: usize) {
        if distance < self.distance {
            self.best = Some(name);
            self.distance = distance;
        }
    }

    /// Whether one of the two begins with the other, or they are spelled alike but for capitals.
    fn is_like(&self, name: &str) -> bool {
        let (long, short) = if name.len() > self.written.len() {
            (name.as_bytes(), self.written.as_bytes())
        } else {
            (self.written.as_bytes(), name.as_bytes())
        };
        match long.get(..short.len()) {
            Some(front) => short.len() >= 3 && front.eq_ignore_ascii_case(short),
            None => false,
        }
    }

    /// Sees a name that may be meant.
    pub fn see(&mut self, alloc: Global, name: &'n str) -> Result<(), AllocError> {
        if self.is_like(name) {
            self.take(
                name,
                if name.len() == self.written.len() {
                    0
                } else {
                    1
                },
            );
            return Ok(());
        }
        if self.may_be_near(name) {
            self.compared = self.compared.saturating_add(1);
            let distance = osa_distance(alloc, self.written, name)?;
            self.take(name, distance);
        }
        Ok(())
    }

    /// Whether a name may be nearer than those before: its length and its letters are much the same.
    fn may_be_near(&self, name: &str) -> bool {
        let apart = name.len().abs_diff(self.written.len());
        let other = (letters(name) ^ self.letters).count_ones() as usize;
        let is_short = name.len() < 64 && self.written.len() < 64;
        is_short && self.compared < COMPARED && apart < self.distance && other / 2 < self.distance
    }

    pub fn best(&self) -> Option<&'n str> {
        self.best
    }
}
