//! The map that a history keeps, and the step of an edit.
#![tactic(auto)]

pub mod back;
pub mod laws;
pub mod map;
pub mod refusal;
pub mod resume_fault;
mod resuming;
pub mod ways;

pub use rdl_rewrite::{edit, place};
