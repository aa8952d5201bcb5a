//! A line of a source with a mark under some of it.

use crate::stretch::Stretch;
use std::alloc::{AllocError, Global};
use std::str;

/// How many bytes of a line are shown at most.
const WIDTH: usize = 100;
/// How many of them stand before the mark where the line is cut.
const BEFORE: usize = 40;

/// Whether a byte is none with which a character begins.
fn is_inside_character(bytes: &[u8], at: usize) -> bool {
    match bytes.get(at) {
        Some(byte) => *byte & 0xC0 == 0x80,
        None => false,
    }
}

/// The byte at which the character begins that stands here: at most three before.
fn character_start(bytes: &[u8], at: usize) -> usize {
    for back in 0..3usize {
        let here = at.saturating_sub(back);
        if !is_inside_character(bytes, here) {
            return here;
        }
    }
    at.saturating_sub(3)
}

/// The part of a line that is shown.
fn window(line: &[u8], mark: Stretch) -> Stretch {
    if line.len() <= WIDTH {
        return Stretch::new(0, line.len());
    }
    let from = if mark.start <= WIDTH / 2 {
        0
    } else {
        mark.start.min(line.len()).saturating_sub(BEFORE)
    };
    let to = from.saturating_add(WIDTH).min(line.len());
    Stretch::between(character_start(line, from), character_start(line, to))
}

/// Whether a character would change how a terminal shows others: controls, and those that turn the direction of writing.
fn is_unshown(character: char) -> bool {
    matches!(
        character,
        '\0'..='\x08'
            | '\x0A'..='\x1F'
            | '\x7F'..='\u{9F}'
            | '\u{200B}'..='\u{200F}'
            | '\u{2028}'..='\u{202E}'
            | '\u{2060}'..='\u{206F}'
            | '\u{FEFF}'
    )
}

fn shown(character: char) -> char {
    if is_unshown(character) {
        '?'
    } else {
        character
    }
}

/// What stands under a character at this byte.
fn under(character: char, at: usize, mark: Stretch) -> char {
    if at == mark.start {
        '^'
    } else if at > mark.start && at < mark.end() {
        '~'
    } else if character == '\t' {
        '\t'
    } else {
        ' '
    }
}

/// A line in which each byte that is no ASCII is a question mark.
fn push_bytes(line: &mut String, bytes: &[u8]) -> Result<(), AllocError> {
    for byte in bytes {
        line.push(if *byte < 0x80 { char::from(*byte) } else { '?' })?;
    }
    Ok(())
}

/// The text of the bytes of a line.
fn text_of(alloc: Global, bytes: &[u8]) -> Result<String, AllocError> {
    match str::from_utf8(bytes) {
        Ok(text) => String::from_str(alloc, text),
        Err(_) => {
            let mut text = String::new(alloc);
            push_bytes(&mut text, bytes)?;
            Ok(text)
        }
    }
}

/// Appends the line, without its line feed, and under it the mark.
pub fn push_marked(
    alloc: Global,
    text: &mut String,
    line: &[u8],
    mark: Stretch,
) -> Result<(), AllocError> {
    let window = window(line, mark);
    let source = text_of(alloc, window.of(line))?;
    let lead = if window.start > 0 { "  .." } else { "  " };
    let mut below = String::from_str(alloc, if window.start > 0 { "    " } else { "  " })?;
    text.push_str(lead)?;
    let mut at = window.start;
    for character in source.as_str().chars() {
        text.push(shown(character))?;
        if at < mark.end().max(mark.start.saturating_add(1)) {
            below.push(under(character, at, mark))?;
        }
        at = at.saturating_add(character.len_utf8());
    }
    if at <= mark.start {
        below.push('^')?;
    }
    if window.end() < line.len() {
        text.push_str("..")?;
    }
    text.push_str("\n")?;
    text.push_str(below.as_str())?;
    text.push_str("\n")
}
