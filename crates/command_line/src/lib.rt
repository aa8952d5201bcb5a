//! The words behind the names of the programs, read by `clap`.
#![tactic(auto)]

mod arguments;
pub mod comparison;
pub mod fault;
pub mod format;
mod ignored;
pub mod laws;
pub mod line;
pub mod meeting;
pub mod streams;
mod values;
pub mod words;
