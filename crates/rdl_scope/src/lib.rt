//! Scopes of a description: the types of references, the instances that targets pass, the values of properties, and
//! the first fault of the items.
#![tactic(auto)]

pub mod apart;
pub mod assignments;
pub mod before;
pub mod by_name;
mod entry;
pub mod faults;
mod front;
mod key_spot;
mod keys;
pub mod kinds;
pub mod laws;
mod levels;
mod names;
mod passed;
mod places;
pub mod shells;
pub mod size;
pub mod targets;
pub mod types;
pub mod values;
