//! What is held of a register map from edit to edit: a tree of nodes, by which a changed map is judged and laid out.
#![tactic(auto)]

pub mod following;
pub mod held;
mod large;
pub mod turning;
