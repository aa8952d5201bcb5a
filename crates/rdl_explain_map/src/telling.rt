//! An explanation before it is put beside its place.

use crate::shown::push_marked;
use crate::stretch::Stretch;
use std::alloc::{AllocError, Global};

/// What is told of a refusal.
#[derive(Debug, Drop)]
pub struct Telling {
    /// What of the line is marked.
    pub mark: Stretch,
    /// The number with its fixed text, and what is meant.
    pub what: String,
    /// Where the other part stands, and the cure: lines with two blanks before each.
    pub notes: String,
}

impl Telling {
    /// Nothing but the number with its fixed text.
    pub fn new(alloc: Global, mark: Stretch, what: &str) -> Result<Telling, AllocError> {
        Ok(Telling {
            mark,
            what: String::from_str(alloc, what)?,
            notes: String::new(alloc),
        })
    }

    /// Adds a note.
    pub fn note(&mut self, note: &str) -> Result<(), AllocError> {
        self.notes.push_str("  ")?;
        self.notes.push_str(note)?;
        self.notes.push_str("\n")
    }
}

/// The explanation of what stands in this line of a file. Lines count from 1.
pub fn told(
    alloc: Global,
    file: &str,
    number: usize,
    line: &[u8],
    telling: &Telling,
) -> Result<String, AllocError> {
    let mut text = String::new(alloc);
    let column = telling.mark.start.saturating_add(1);
    write!(text, "{file}:{number}:{column}: {}\n", telling.what)?;
    push_marked(alloc, &mut text, line, telling.mark)?;
    text.push_str(telling.notes.as_str())?;
    Ok(text)
}
