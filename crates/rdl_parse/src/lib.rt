//! Reading descriptions: from a text of SystemRDL to the tree that it spells, with the place of each item.
#![tactic(auto)]

mod body;
pub mod class;
pub mod fault;
mod found;
mod gathered;
mod inst;
pub mod laws;
pub mod parse;
pub mod places;
mod reader;
mod room;
mod statement;
mod text;
pub mod word;
