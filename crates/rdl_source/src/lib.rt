//! The statements of a source text, with the blanks and comments that stand around them.
#![tactic(auto)]

pub mod gap;
pub mod laws;
mod lay;
pub mod span;
pub mod statement;
mod walk;
