//! What a text begins with.

use crate::token::Mark;

/// A row of the table of words; of the marks, with the mark.
#[derive(Clone, Copy)]
pub(crate) enum Row {
    Identifier,
    Decimal,
    Hexadecimal,
    Verilog,
    Text,
    Mark(Mark),
}

/// A word that a text begins with: its row, and how many bytes it has.
#[derive(Clone, Copy)]
pub(crate) struct Front {
    pub(crate) row: Row,
    pub(crate) len: usize,
}

/// What a text begins with, of so many bytes.
#[derive(Clone, Copy)]
pub(crate) enum Span {
    /// Blanks or a comment.
    Gap(usize),
    Word(usize),
}
