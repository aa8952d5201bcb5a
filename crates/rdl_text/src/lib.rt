//! The words of a text of SystemRDL, and the places in it.
#![tactic(auto)]

mod bytes;
mod cut;
pub mod fault;
pub mod laws;
pub mod list;
pub mod name;
mod number;
mod piece;
mod places;
pub mod raw;
mod rows;
mod same;
pub mod token;

pub use cut::tokens;
pub use places::{byte_place, place};
pub use same::is_same;
