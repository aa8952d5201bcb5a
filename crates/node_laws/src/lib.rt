//! What the nodes of `rdl_seen` mean in a description.
#![tactic(auto)]

pub mod laws;
pub mod lays;
