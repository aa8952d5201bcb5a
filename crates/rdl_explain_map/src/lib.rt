//! What a person needs beside the message of a map, a session or a header: the place as editors read it, what is meant, the
//! line with a mark, where the other part stands, and the cure.
#![tactic(auto)]

pub mod explain;
mod extents;
pub mod fault;
pub mod fixed;
pub mod header;
mod hex;
mod item_fault;
pub mod near;
pub mod path_text;
mod row_fault;
pub mod session;
mod session_form;
mod shown;
mod standard;
pub mod stretch;
pub mod telling;
pub mod text_fault;
pub mod values;
pub mod view;
