//! Files that are replaced whole: each new text first stands in a file of its own beside the old one, and only when all of
//! them are on the disk does each take the place of its old file.
#![tactic(auto)]

mod beside;
mod leftover;
mod limit;
mod names;
pub mod noted;
pub mod obstacle;
pub mod output;
pub mod plain;
mod same;
pub mod shown;
pub mod standard;
mod written;
