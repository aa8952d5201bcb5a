//! Addresses and bits of a register map.
#![tactic(auto)]

pub mod elaborate;
pub mod laws;
pub mod layout;
pub mod row;
pub mod row_values;
pub mod rows;
mod walk;
