//! What a step leaves out of reach is laid out as before.
#![tactic(auto)]

pub mod laws;
