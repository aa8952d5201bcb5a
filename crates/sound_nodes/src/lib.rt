//! Where a node says that its component is sound, it is.
#![tactic(auto)]

mod field_rows;
pub mod found;
mod instances;
pub mod laws;
mod reached;
mod rows;
pub mod tops;
pub mod within;
