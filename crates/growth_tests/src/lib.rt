//! Each call that takes memory, while a growth may be refused: it answers want of memory or what it answers with ample
//! memory, and what it was to change stands as before. Beside the tests stand only patches that are applied.
#![tactic(auto)]

#[cfg(test)]
mod calls;
#[cfg(test)]
mod examples;
#[cfg(test)]
mod history;
pub mod patches;
#[cfg(test)]
mod runs;
#[cfg(test)]
mod sessions;
#[cfg(test)]
mod steps;
#[cfg(test)]
mod words;

#[cfg(test)]
use std::alloc::AllocError;
#[cfg(test)]
use std::process::Abort;

/// What a call answers, as a text; or want of memory, also where the text finds none.
#[cfg(test)]
type Answer = Result<String, AllocError>;

/// Asserts an answer. One growth is refused at most, so a call that was asked again has its answer.
#[cfg(test)]
fn assert_answered(rt: &impl Abort, answer: &Answer, want: &str, of: &str) {
    let found = match answer {
        Ok(text) => text.as_str(),
        Err(_) => "want of memory twice",
    };
    assert!(rt; found == want, "{found} for {want} of {of}");
}

/// Whether both are there, and the same. One growth is refused at most, so what is asked for twice is there.
#[cfg(test)]
fn is_same(before: &Answer, after: &Answer) -> bool {
    match (before, after) {
        (Ok(before), Ok(after)) => before == after,
        _ => false,
    }
}
