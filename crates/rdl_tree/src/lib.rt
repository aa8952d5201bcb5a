//! Descriptions of register maps: the tree of items that a text of SystemRDL spells.
#![tactic(auto)]

pub mod address;
mod back;
pub mod copy;
pub mod count;
pub mod depth;
mod descent;
pub mod description;
pub mod dims;
pub mod edit;
mod exchanges;
pub mod fault;
pub mod find;
mod fits;
mod gap;
pub mod laws;
pub mod part;
pub mod patch;
pub mod patch_address;
pub mod path;
pub mod properties;
pub mod property;
mod run;
pub mod shell;
pub mod stated;
mod step;
pub mod target;
pub mod turned;
pub mod value;
mod walk;
pub mod way;
pub mod weight;
