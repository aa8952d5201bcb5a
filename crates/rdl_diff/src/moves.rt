//! Which moves are told, and what is told once.

/// Of which rows that have another base this is told, and of which rows of equal parts.
#[derive(Clone, Copy, Debug, PartialEq, Eq)]
pub enum Moves {
    /// Of those that have another offset too: what moves only with what holds it isn't told. Of parts that stand beside each other
    /// and of which all lines are the same but for their names, those of the first are told, behind the names of all.
    Own,
    /// Of each.
    Each,
}
