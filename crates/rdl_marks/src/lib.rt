//! What patches have changed of each body, told by the patches that take them back.
#![tactic(auto)]

pub mod changes;
pub mod laws;
pub mod marks;
mod note;
mod pieces;
