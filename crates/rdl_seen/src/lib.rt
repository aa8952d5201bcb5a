//! What stands around a component can see of it, and to what around it it listens.
#![tactic(auto)]

pub mod alert;
pub mod laws;
pub mod mode;
pub mod names;
pub mod property_set;
pub mod seen;
pub mod values;
