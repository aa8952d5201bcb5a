//! Laws of edits, histories, scripts and runs. Nothing here does anything when it runs, but for one call that puts scripts
//! behind each other.
#![tactic(auto)]

pub mod edits;
pub mod one_script;
pub mod scripts;
