//! Edits of the words of an assignment.

use crate::lexeme::Lexeme;
use crate::writer::Writer;
use rdl_text::name::Name;
use rdl_text::token::Mark;
use rdl_tree::description::Item;
use rdl_tree::value::Value;
use rdl_write::push_value;
use std::alloc::{AllocError, Global};

/// Replaces the value, if it isn't the same. Where none stands, it is put behind the word before the semicolon.
fn put_value(
    alloc: Global,
    writer: &mut Writer<'_>,
    words: &[Lexeme],
    old: &Value,
    new: &Value,
) -> Result<(), AllocError> {
    let mut was = String::new(alloc);
    push_value(&mut was, old)?;
    let mut is = String::new(alloc);
    push_value(&mut is, new)?;
    if was.as_str() == is.as_str() {
        return Ok(());
    }
    match words {
        [.., equals, value, _] if equals.mark == Some(Mark::Equals) => {
            writer.replace(value.from, value.to, is.as_str())
        }
        [.., property, _] => {
            writer.replace(property.to, property.to, " = ")?;
            writer.push(is.as_str())
        }
        _ => Ok(()),
    }
}

/// Replaces each name of the target that isn't the same.
fn put_names(
    writer: &mut Writer<'_>,
    words: &[Lexeme],
    old: &[Name],
    new: &[Name],
) -> Result<(), AllocError> {
    let mut count = 0usize;
    'words: for word in words {
        if word.mark.is_some() {
            continue;
        }
        if let (Some(was), Some(is)) = (old.get(count), new.get(count)) {
            if was.as_str() != is.as_str() {
                writer.replace(word.from, word.to, is.as_str())?;
            }
        }
        count = count.saturating_add(1);
    }
    Ok(())
}

/// Writes an assignment as it stands in the source, with the names of its target and the value replaced that aren't the same.
pub(crate) fn put_assignment(
    alloc: Global,
    writer: &mut Writer<'_>,
    words: &[Lexeme],
    old: &Item,
    new: &Item,
) -> Result<(), AllocError> {
    match (old, new) {
        (Item::Own(_, was), Item::Own(_, is)) => put_value(alloc, writer, words, was, is),
        (Item::Default(_, was), Item::Default(_, is)) => put_value(alloc, writer, words, was, is),
        (Item::Dynamic(target, _, was), Item::Dynamic(to, _, is)) => {
            put_names(writer, words, target.names(), to.names())?;
            put_value(alloc, writer, words, was, is)
        }
        _ => Ok(()),
    }
}
