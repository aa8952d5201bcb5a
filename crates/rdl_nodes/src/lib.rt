//! What is kept of a map: a tree of nodes, one for each component that is written in it.
#![tactic(auto)]

pub mod apart;
pub mod around;
pub mod contents;
pub mod core_of;
pub mod field;
pub mod fields;
pub mod finished;
pub mod inside;
pub mod lasts;
pub mod layouts;
pub mod lays;
mod leads;
pub mod node;
pub mod parts;
pub mod placed;
pub mod target;
pub mod tree;
pub mod types;
pub mod verdict;
mod walk;
