//! What is odd of a map that has no fault: it means less than it says, or other tools refuse it.
#![tactic(auto)]

mod keyword;
mod search;
pub mod warn;
