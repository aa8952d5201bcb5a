//! The C header of a map.
#![tactic(auto)]

mod bits;
mod clashes;
mod head;
mod keyed;
mod lines;
mod macros;
mod mark;
mod places;
mod stretch;
mod text;

pub use text::{HeaderFault, header};
