//! A program that says how the rows of one register map differ from those of another.
#![tactic(auto)]

mod command;
mod files;

use crate::command::{command, refuse_words};
use std::alloc::Global;
use std::process::ExitCode;
use std::{env, io};
use whole_files::standard::open_closed;

fn run_words(rt: &HostRuntime, alloc: Global) -> io::Result<u8> {
    let owned: Vec<String> = env::args(rt)?.skip(1).collect(alloc)?;
    let words: Vec<&str> = owned.iter().map(|word| word.as_str()).collect(alloc)?;
    Ok(command(
        rt,
        alloc,
        words.as_slice(),
        &mut rt.stdout(),
        &mut rt.stderr(),
    ))
}

fn main(rt: HostRuntime) -> ExitCode {
    open_closed(&rt);
    ExitCode::from(match run_words(&rt, rt.alloc()) {
        Ok(status) => status,
        Err(error) => refuse_words(&error, &mut rt.stderr()),
    })
}
