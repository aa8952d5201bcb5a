//! Edits of the words of an instance, from its name on.

use crate::bytes::{before_blanks, part};
use crate::lexeme::{Inst, Lexeme};
use crate::spell::{push_brackets, push_part};
use crate::writer::Writer;
use rdl_text::token::{Mark, Number};
use rdl_tree::shell::Shell;
use rdl_write::{push_decimal, push_hexadecimal};
use std::alloc::{AllocError, Global};

/// The place behind the words of an instance that have been seen: the number of the next word, and the byte.
#[derive(Clone, Copy)]
struct Seen {
    next: usize,
    end: usize,
}

/// Whether the word of this number is the mark.
fn is_mark(words: &[Lexeme], index: usize, mark: Mark) -> bool {
    match words.get(index) {
        Some(word) => word.mark == Some(mark),
        None => false,
    }
}

/// Whether a part begins with the word of this number.
fn begins_part(words: &[Lexeme], index: usize) -> bool {
    is_mark(words, index, Mark::Equals)
        || is_mark(words, index, Mark::At)
        || is_mark(words, index, Mark::PlusEquals)
        || is_mark(words, index, Mark::PercentEquals)
}

/// The number of the word behind the brackets, which begin with the word of this number.
fn brackets_end(words: &[Lexeme], inst: Inst, begin: usize) -> usize {
    'words: for index in begin..inst.end {
        if begins_part(words, index) {
            return index;
        }
    }
    inst.end
}

/// The number that stands in the brackets behind so many others.
fn bracket_number(shell: &Shell, count: usize) -> Option<Number> {
    match shell.range() {
        Some((high, low)) => match count {
            0 => Some(high),
            1 => Some(low),
            _ => None,
        },
        None => shell.dims().get(count).copied(),
    }
}

fn have_same_brackets(old: &Shell, new: &Shell) -> bool {
    old.range().is_some() == new.range().is_some() && old.dims().len() == new.dims().len()
}

/// Replaces each number in the brackets that isn't the same.
fn put_bracket_numbers(
    alloc: Global,
    writer: &mut Writer<'_>,
    brackets: &[Lexeme],
    old: &Shell,
    new: &Shell,
) -> Result<(), AllocError> {
    let mut count = 0usize;
    'words: for word in brackets {
        if word.mark.is_some() {
            continue;
        }
        let number = bracket_number(new, count);
        if let Some(number) = number {
            if bracket_number(old, count) != Some(number) {
                let mut text = String::new(alloc);
                push_decimal(&mut text, number)?;
                writer.replace(word.from, word.to, text.as_str())?;
            }
        }
        count = count.saturating_add(1);
    }
    Ok(())
}

fn put_brackets(
    alloc: Global,
    writer: &mut Writer<'_>,
    words: &[Lexeme],
    inst: Inst,
    seen: Seen,
    old: &Shell,
    new: &Shell,
) -> Result<Seen, AllocError> {
    let next = brackets_end(words, inst, seen.next);
    let brackets = match words.get(seen.next..next) {
        Some(brackets) => brackets,
        None => &[],
    };
    let end = match brackets.last() {
        Some(word) => word.to,
        None => seen.end,
    };
    if have_same_brackets(old, new) {
        put_bracket_numbers(alloc, writer, brackets, old, new)?;
    } else {
        let mut text = String::new(alloc);
        push_brackets(&mut text, new)?;
        writer.replace(seen.end, end, text.as_str())?;
    }
    Ok(Seen { next, end })
}

/// A part of an instance: its mark, the number that it had, and the one that it has.
#[derive(Clone, Copy)]
struct Part {
    mark: Mark,
    text: &'static str,
    old: Option<Number>,
    new: Option<Number>,
}

impl Part {
    fn new(mark: Mark, text: &'static str, old: Option<Number>, new: Option<Number>) -> Part {
        Part {
            mark,
            text,
            old,
            new,
        }
    }
}

/// Takes a part out, with the blanks before it.
fn take_out(
    writer: &mut Writer<'_>,
    source: &[u8],
    seen: Seen,
    mark: Lexeme,
    number: Lexeme,
) -> Result<(), AllocError> {
    let before = before_blanks(part(source, seen.end, mark.from));
    writer.replace(seen.end.saturating_add(before.len()), number.to, "")
}

/// A part that stands in the words, with the word of its number.
fn put_standing(
    alloc: Global,
    writer: &mut Writer<'_>,
    source: &[u8],
    seen: Seen,
    mark: Lexeme,
    number: Lexeme,
    change: &Part,
) -> Result<(), AllocError> {
    match change.new {
        None => take_out(writer, source, seen, mark, number),
        Some(value) => {
            if change.old == change.new {
                return Ok(());
            }
            let mut text = String::new(alloc);
            push_hexadecimal(&mut text, value)?;
            writer.replace(number.from, number.to, text.as_str())
        }
    }
}

fn put_part(
    alloc: Global,
    writer: &mut Writer<'_>,
    source: &[u8],
    words: &[Lexeme],
    seen: Seen,
    change: &Part,
) -> Result<Seen, AllocError> {
    let behind = seen.next.saturating_add(1);
    if is_mark(words, seen.next, change.mark) {
        if let (Some(mark), Some(number)) = (words.get(seen.next), words.get(behind)) {
            put_standing(alloc, writer, source, seen, *mark, *number, change)?;
            return Ok(Seen {
                next: behind.saturating_add(1),
                end: number.to,
            });
        }
    }
    if change.new.is_some() {
        let mut text = String::new(alloc);
        push_part(&mut text, change.text, change.new)?;
        writer.replace(seen.end, seen.end, text.as_str())?;
    }
    Ok(seen)
}

/// Writes an instance: what stands in the source from its name on, with the parts replaced that aren't the same.
pub(crate) fn put_inst(
    alloc: Global,
    writer: &mut Writer<'_>,
    source: &[u8],
    words: &[Lexeme],
    inst: Inst,
    old: &Shell,
    new: &Shell,
) -> Result<(), AllocError> {
    let Some(name) = words.get(inst.name).copied() else {
        return Ok(());
    };
    if old.name().as_str() != new.name().as_str() {
        writer.replace(name.from, name.to, new.name().as_str())?;
    }
    let seen = Seen {
        next: inst.name.saturating_add(1),
        end: name.to,
    };
    let mut seen = put_brackets(alloc, writer, words, inst, seen, old, new)?;
    let parts = [
        Part::new(Mark::Equals, "=", old.reset(), new.reset()),
        Part::new(Mark::At, "@", old.address(), new.address()),
        Part::new(Mark::PlusEquals, "+=", old.stride(), new.stride()),
        Part::new(Mark::PercentEquals, "%=", old.align(), new.align()),
    ];
    'parts: for change in &parts {
        seen = put_part(alloc, writer, source, words, seen, change)?;
    }
    match words.get(inst.end) {
        Some(end) => writer.copy_to(end.from),
        None => Ok(()),
    }
}
