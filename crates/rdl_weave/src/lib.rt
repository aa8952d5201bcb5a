//! The text of a map, with only the edits woven in.
#![tactic(auto)]

mod assigned;
mod bytes;
mod coarse;
mod covers;
pub mod fault;
mod honest;
mod inst;
pub mod laws;
mod lexeme;
mod made;
mod member;
mod plan;
mod render;
pub mod source;
mod spell;
mod spelled;
mod standing;
mod stands;
mod thin;
mod turn;
mod unit;
mod untouched;
pub mod weave;
mod woven;
mod writer;
