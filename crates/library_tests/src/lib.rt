//! The libraries on worked examples that no run of the whole program shows. Beside the tests stands only the way from a
//! text to its rows.
#![tactic(auto)]

#[cfg(test)]
mod ample;
#[cfg(test)]
mod backs;
#[cfg(test)]
mod held;
#[cfg(test)]
mod history;
#[cfg(test)]
mod journal;
#[cfg(test)]
mod layouts;
#[cfg(test)]
mod list;
pub mod map;
#[cfg(test)]
mod origins;
#[cfg(test)]
mod parse;
#[cfg(test)]
mod reaching;
#[cfg(test)]
mod resumed;
#[cfg(test)]
mod rows;
#[cfg(test)]
mod statements;
#[cfg(test)]
mod text;
#[cfg(test)]
mod tree;

#[cfg(test)]
use std::process::Abort;

/// Asserts that the texts are the same, with what they are of in the message. An assertion with a message of its own is
/// dear to prove, and `assert_eq!` the dearest, so this one and the next serve all tests.
#[cfg(test)]
fn assert_same(rt: &impl Abort, found: &str, want: &str, of: &str) {
    assert!(rt; found == want, "{found} for {want} of {of}");
}

/// Asserts what holds of something, with that in the message.
#[cfg(test)]
fn assert_holds(rt: &impl Abort, holds: bool, of: &str) {
    assert!(rt; holds, "{of}");
}
