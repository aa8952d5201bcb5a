//! Stretches of a line, and the words in it.

/// Some bytes of a line, one behind another.
#[derive(Clone, Copy, Debug, PartialEq, Eq)]
pub struct Stretch {
    pub start: usize,
    pub len: usize,
}

impl Stretch {
    pub fn new(start: usize, len: usize) -> Stretch {
        Stretch { start, len }
    }

    /// From one byte up to another.
    pub fn between(start: usize, end: usize) -> Stretch {
        Stretch {
            start,
            len: end.saturating_sub(start),
        }
    }

    pub fn end(self) -> usize {
        self.start.saturating_add(self.len)
    }

    /// The bytes of the line that it is.
    pub fn of<'a>(self, line: &'a [u8]) -> &'a [u8] {
        line.get(self.start..self.end()).unwrap_or(&[])
    }

    /// The same stretch of a line before which so many bytes stand.
    pub fn behind(self, bytes: usize) -> Stretch {
        Stretch {
            start: self.start.saturating_add(bytes),
            len: self.len,
        }
    }
}

pub fn is_blank(byte: u8) -> bool {
    byte == b' ' || (8 < byte && byte < 14)
}

pub fn is_word_byte(byte: u8) -> bool {
    byte == b'_' || byte.is_ascii_alphanumeric()
}

/// How long a line is without the blanks at its end.
pub fn trimmed_len(line: &[u8]) -> usize {
    let blanks = line
        .iter()
        .rev()
        .take_while(|byte| is_blank(**byte))
        .count();
    line.len().saturating_sub(blanks)
}

/// The word of this number of a line, from 0 on, between blanks. Where there is none it is the empty stretch at the end.
pub fn nth_word(line: &[u8], number: usize) -> Stretch {
    let end = trimmed_len(line);
    let mut begun = 0usize;
    let mut start = 0usize;
    let mut is_inside = false;
    for (at, byte) in line.iter().enumerate() {
        if is_blank(*byte) {
            if is_inside && begun > number {
                return Stretch::between(start, at);
            }
            is_inside = false;
        } else if !is_inside {
            is_inside = true;
            begun = begun.saturating_add(1);
            start = at;
        }
    }
    if begun > number {
        Stretch::between(start, end)
    } else {
        Stretch::new(end, 0)
    }
}

/// From the word of this number on to the end of the line.
pub fn words_from(line: &[u8], number: usize) -> Stretch {
    Stretch::between(nth_word(line, number).start, trimmed_len(line))
}

/// How many bytes of a string there are, its quotes among them, up to the end of these.
fn string_len(bytes: &[u8]) -> usize {
    let mut is_escaped = false;
    for (at, byte) in bytes.iter().enumerate() {
        if at > 0 && *byte == b'"' && !is_escaped {
            return at.saturating_add(1);
        }
        is_escaped = *byte == b'\\' && !is_escaped;
    }
    bytes.len()
}

fn count_while_word(bytes: &[u8]) -> usize {
    bytes.iter().take_while(|byte| is_word_byte(**byte)).count()
}

fn number_len(bytes: &[u8]) -> usize {
    bytes
        .iter()
        .take_while(|byte| is_word_byte(**byte) || **byte == b'\'')
        .count()
}

/// How many bytes the character has with which these begin.
fn character_len(bytes: &[u8]) -> usize {
    let behind = bytes.get(1..).unwrap_or(&[]);
    let rest = behind
        .iter()
        .take_while(|byte| **byte & 0xC0 == 0x80)
        .count();
    rest.saturating_add(1)
}

/// How many bytes the word of a text has with which these begin: a name, a number, a string, a mark, or one character.
pub fn word_len(bytes: &[u8]) -> usize {
    match bytes {
        [] => 0,
        [b'"', ..] => string_len(bytes),
        [b'-', b'>', ..] => 2,
        [b'+', b'=', ..] => 2,
        [b'%', b'=', ..] => 2,
        [b'/', b'*', ..] => 2,
        [first, ..] if first.is_ascii_digit() => number_len(bytes),
        [first, ..] if is_word_byte(*first) => count_while_word(bytes),
        [first, ..] if *first >= 0x80 => character_len(bytes),
        _ => 1,
    }
}

/// The word of a text that stands at a byte of a line.
pub fn word_at(line: &[u8], start: usize) -> Stretch {
    let bytes = line.get(start..).unwrap_or(&[]);
    Stretch::new(start, word_len(bytes))
}

/// From a byte of a line on what belongs to the same instance or assignment: up to a `;`, a `,`, a brace or the end.
pub fn statement_at(line: &[u8], start: usize) -> Stretch {
    let bytes = line.get(start..).unwrap_or(&[]);
    let mut is_quoted = false;
    for (at, byte) in bytes.iter().enumerate() {
        if *byte == b'"' {
            is_quoted = !is_quoted;
        }
        if !is_quoted && matches!(*byte, b';' | b',' | b'{' | b'}') {
            return without_end_blanks(bytes, start, at);
        }
    }
    without_end_blanks(bytes, start, bytes.len())
}

fn without_end_blanks(bytes: &[u8], start: usize, len: usize) -> Stretch {
    Stretch::new(start, trimmed_len(bytes.get(..len).unwrap_or(&[])))
}
