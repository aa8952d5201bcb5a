//! How the rows of one map differ from those of another.
#![tactic(auto)]

mod anew;
mod breaking;
mod by_path;
mod by_place;
mod change;
pub mod choice;
mod diff;
mod entry;
mod escaped;
mod groups;
mod inner;
mod json;
pub mod laws;
mod line;
mod location;
mod markdown;
mod matched;
pub mod moves;
mod names;
mod once;
mod plain;
mod rename;
mod runs;
pub mod status;
mod told;
pub mod what;

pub use diff::{Differences, diff_text};
