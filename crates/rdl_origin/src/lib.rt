//! Which item of a first map each item of the last one is, told by the steps that lead back.
#![tactic(auto)]

mod back;
pub mod laws;
mod numbered;
pub mod origin;
