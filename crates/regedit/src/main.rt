//! An editor of register maps.
#![tactic(auto)]

mod command;
mod explanation;
mod files;
mod paths;
mod source;
#[cfg(test)]
mod tests;

use crate::command::{command, refuse_words};
use crate::explanation::{asked_number, explain};
use std::alloc::{AllocError, Global};
use std::process::ExitCode;
use std::{env, io};
use whole_files::standard::open_closed;

/// How many bytes the list of 65,536 items takes, the most that a map may have.
const LARGE: usize = 6 << 20;

/// Takes so many bytes and gives them back untouched. From then on the C library keeps what is freed, up to that size, for what
/// is asked for next. Otherwise it gives a piece that is larger than all that were freed before back to the system, and what
/// comes from there is cleared page by page. Where so many bytes can't be had, a run only takes longer.
fn keep_freed_memory(alloc: Global) {
    let _untouched: Result<Vec<u8>, AllocError> = Vec::with_capacity(alloc, LARGE);
}

fn run_words(rt: &HostRuntime, alloc: Global) -> io::Result<u8> {
    let owned: Vec<String> = env::args(rt)?.skip(1).collect(alloc)?;
    let words: Vec<&str> = owned.iter().map(|word| word.as_str()).collect(alloc)?;
    if let Some(number) = asked_number(words.as_slice()) {
        return Ok(explain(number, &mut rt.stdout(), &mut rt.stderr()));
    }
    Ok(command(
        rt,
        alloc,
        words.as_slice(),
        &mut rt.stdout(),
        &mut rt.stderr(),
    ))
}

fn main(rt: HostRuntime) -> ExitCode {
    open_closed(&rt);
    keep_freed_memory(rt.alloc());
    ExitCode::from(match run_words(&rt, rt.alloc()) {
        Ok(status) => status,
        Err(error) => refuse_words(&error, &mut rt.stderr()),
    })
}
