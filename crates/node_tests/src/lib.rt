//! What is kept of a map, and what became of a body, on worked examples.
#![tactic(auto)]

#[cfg(test)]
mod held;
#[cfg(test)]
mod marks;
pub mod nowhere;
#[cfg(test)]
mod placed;
#[cfg(test)]
mod rows;
pub mod steps;
#[cfg(test)]
mod tree;

#[cfg(test)]
use std::process::Abort;

/// Asserts that the texts are the same, with what they are of in the message.
#[cfg(test)]
fn assert_same(rt: &impl Abort, found: &str, want: &str, of: &str) {
    assert!(rt; found == want, "{found} for {want} of {of}");
}

/// Asserts what holds of something, with that in the message.
#[cfg(test)]
fn assert_holds(rt: &impl Abort, holds: bool, of: &str) {
    assert!(rt; holds, "{of}");
}
