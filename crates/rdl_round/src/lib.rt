//! Laws of reading a map that was written.
#![tactic(auto)]

pub mod laws;
