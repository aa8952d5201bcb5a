//! What the item at a place of a body sees, looked up when it is asked for, and what fault the item has by that.
#![tactic(auto)]

pub mod faults;
pub mod lasts;
pub mod laws;
pub mod leads;
mod numbers;
pub mod scope;
