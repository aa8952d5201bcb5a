//! What each line of an edit script asks for, whole: an edit, a step of the history, a list, nothing, or why it is
//! refused.
#![tactic(auto)]

mod edit;
pub mod laws;
mod line;
mod name;
mod operand;
mod path;
mod place;
pub mod request;
mod verb;
