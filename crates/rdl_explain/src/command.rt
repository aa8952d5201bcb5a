//! Lines that ask for nothing that can be done: C1 to C3.

use crate::fixed::command_fault;
use crate::operand::{Misfit, misfit_in};
use crate::usage::{NAMES, Usage, usage_of};
use rdl_explain_map::near::Nearest;
use rdl_explain_map::stretch::{Stretch, nth_word};
use rdl_explain_map::telling::Telling;
use rdl_script::request::CommandFault;
use std::alloc::{AllocError, Global};
use std::str;

/// What is told of a line with this fault.
pub(crate) fn command_telling(
    alloc: Global,
    line: &[u8],
    fault: CommandFault,
) -> Result<Telling, AllocError> {
    match fault {
        CommandFault::NotUtf8 => not_utf8(alloc, line),
        CommandFault::Unknown => unknown(alloc, line),
        CommandFault::BadOperands => bad_operands(alloc, line),
    }
}

fn not_utf8(alloc: Global, line: &[u8]) -> Result<Telling, AllocError> {
    let at = match str::from_utf8(line) {
        Ok(_) => 0,
        Err(error) => error.valid_up_to(),
    };
    let what = command_fault(CommandFault::NotUtf8);
    let mut telling = Telling::new(alloc, Stretch::new(at, 1), what)?;
    if let Some(byte) = line.get(at) {
        write!(telling.what, ": the byte 0x{:02X}", *byte)?;
    }
    telling.note("save the script as UTF-8")?;
    Ok(telling)
}

/// What another program calls a command.
fn other_name(word: &str) -> Option<&'static str> {
    match word {
        "delete" | "del" | "rm" | "erase" | "drop" => Some("remove"),
        "insert" | "new" | "append" | "create" => Some("add"),
        "mv" => Some("move"),
        "addr" | "at" | "offset" => Some("address"),
        "unset" => Some("clear"),
        "size" => Some("resize"),
        "show" | "print" | "ls" => Some("list"),
        _ => None,
    }
}

/// Whether a word begins a statement of the language, and no command.
fn begins_statement(word: &str) -> bool {
    matches!(
        word,
        "field" | "reg" | "regfile" | "addrmap" | "external" | "internal"
    ) || word.starts_with("}")
        || word.starts_with("{")
        || word.starts_with("//")
}

fn note_unknown(alloc: Global, telling: &mut Telling, word: &str) -> Result<(), AllocError> {
    if begins_statement(word) {
        return telling.note("TEXT of `add` stands on one line with it, from PLACE to its `;`");
    }
    if matches!(word, "copy" | "cp" | "duplicate") {
        return telling.note("there is no copy: `add` one more instance of the same type");
    }
    if let Some(name) = other_name(word) {
        return note_meant(alloc, telling, name);
    }
    let mut nearest = Nearest::to(word);
    for name in NAMES {
        nearest.see(alloc, name)?;
    }
    match nearest.best() {
        Some(name) => note_meant(alloc, telling, name),
        None => telling.note(
            "the commands are add, remove, rename, move, resize, bits, address, stride, align, reset, set, clear, default, nodefault, assign, unassign, undo, redo and list",
        ),
    }
}

fn note_meant(alloc: Global, telling: &mut Telling, name: &str) -> Result<(), AllocError> {
    let mut note = String::new(alloc);
    write!(note, "did you mean `{name}`?")?;
    if let Some(usage) = usage_of(name) {
        write!(note, " As in `{}`", usage.example)?;
    }
    telling.note(note.as_str())
}

fn unknown(alloc: Global, line: &[u8]) -> Result<Telling, AllocError> {
    let mark = nth_word(line, 0);
    let mut telling = Telling::new(alloc, mark, command_fault(CommandFault::Unknown))?;
    if let Ok(word) = str::from_utf8(mark.of(line)) {
        if word.len() < 64 {
            write!(telling.what, ": {word}")?;
        }
        note_unknown(alloc, &mut telling, word)?;
    }
    Ok(telling)
}

fn note_usage(alloc: Global, telling: &mut Telling, usage: &Usage) -> Result<(), AllocError> {
    if usage.form.is_empty() {
        return Ok(());
    }
    let mut note = String::new(alloc);
    write!(
        note,
        "the line is `{} {}`, as in `{}`",
        usage.name, usage.form, usage.example
    )?;
    telling.note(note.as_str())
}

/// Tells which operand is of another form, and what cures that.
fn note_misfit(telling: &mut Telling, misfit: &Misfit) -> Result<(), AllocError> {
    write!(telling.what, ": {}", misfit.what)?;
    if misfit.cure.is_empty() {
        return Ok(());
    }
    telling.note(misfit.cure.as_str())
}

fn bad_operands(alloc: Global, line: &[u8]) -> Result<Telling, AllocError> {
    let what = command_fault(CommandFault::BadOperands);
    let verb = str::from_utf8(nth_word(line, 0).of(line)).unwrap_or("");
    let Some(usage) = usage_of(verb) else {
        return Telling::new(alloc, nth_word(line, 0), what);
    };
    let misfit = misfit_in(alloc, line, usage)?;
    let mut telling = Telling::new(alloc, misfit.mark, what)?;
    note_misfit(&mut telling, &misfit)?;
    note_usage(alloc, &mut telling, &usage)?;
    Ok(telling)
}
