//! The lines that `list` prints.
#![tactic(auto)]

mod line;
mod list;

pub use line::{push_path, push_row, push_row_text, push_span};
pub use list::list_text;
