//! The patches that make an edit of a description, or why it is refused before the edited description is judged.
#![tactic(auto)]

mod assignment;
mod body;
mod dynamics;
pub mod edit;
mod fate;
mod firsts;
mod leads;
mod names;
mod passed;
mod patch;
pub mod place;
mod removal;
mod renaming;
pub mod rewrite;
mod shell;
mod spared;
mod sweep;
