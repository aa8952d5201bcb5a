//! The text of a session: reading it, writing it, and the laws that what was written is read back.
#![tactic(auto)]

pub mod fault;
pub mod laws;
mod lines;
mod meaning;
pub mod parse;
mod parts;
pub mod source;
pub mod write;

/// The most bytes that a session may have.
pub(crate) const MAX_LEN: usize = 67_108_864;
