//! An undo history over any object whose changes can be taken back: a list of states and a place in it, kept as the
//! object itself and two stacks of steps back. It knows nothing of maps.
#![tactic(auto)]

pub mod example;
pub mod fault;
pub mod invertible;
pub mod journal;
pub mod laws;
