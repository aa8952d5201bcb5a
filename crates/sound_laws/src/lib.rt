//! A component in which nothing is wrong, whatever its address and whatever stands around it: no row below it has a fault.
#![tactic(auto)]

pub mod laws;
pub mod whole;
