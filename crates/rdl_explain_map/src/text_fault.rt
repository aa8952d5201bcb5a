//! Faults of a text: S1 to S13.

use crate::fixed;
use crate::near::Nearest;
use crate::standard::{instead_of, is_other_property};
use crate::stretch::{Stretch, word_at, word_len};
use crate::telling::Telling;
use crate::values::{property_named, push_values};
use rdl_parse::class::Class;
use rdl_parse::fault::{ParseFault, ParseFaultKind};
use rdl_text::fault::WordFault;
use rdl_text::list::Tokens;
use rdl_text::tokens;
use std::alloc::{AllocError, Global};
use std::str;

/// A line of a text: its number from 1 on, its bytes, and the byte of the text at which it begins.
#[derive(Clone, Copy)]
pub struct SourceLine<'a> {
    pub number: usize,
    pub bytes: &'a [u8],
    pub start: usize,
}

/// The line in which a byte of a text stands; the end of the text stands in its last line.
pub fn line_around(text: &[u8], offset: usize) -> SourceLine<'_> {
    let before = text.get(..offset).unwrap_or(text);
    let behind = text.get(offset..).unwrap_or(&[]);
    let number = before.iter().filter(|byte| **byte == b'\n').count();
    let lead = before
        .iter()
        .rev()
        .take_while(|byte| **byte != b'\n')
        .count();
    let rest = behind.iter().take_while(|byte| **byte != b'\n').count();
    let start = before.len().saturating_sub(lead);
    let end = before.len().saturating_add(rest);
    SourceLine {
        number: number.saturating_add(1),
        bytes: text.get(start..end).unwrap_or(&[]),
        start,
    }
}

/// The line of this number of a text, from 1 on.
pub fn line_of(text: &[u8], number: usize) -> SourceLine<'_> {
    let mut seen = 1usize;
    if number > 1 {
        for (at, byte) in text.iter().enumerate() {
            if *byte == b'\n' {
                seen = seen.saturating_add(1);
                if seen == number {
                    return line_around(text, at.saturating_add(1));
                }
            }
        }
    }
    line_around(text, 0)
}

/// What is told of a fault of a text; the mark counts from its first byte.
pub fn text_telling(alloc: Global, text: &[u8], fault: ParseFault) -> Result<Telling, AllocError> {
    let bytes = text.get(fault.offset..).unwrap_or(&[]);
    let mark = Stretch::new(fault.offset, first_line_len(bytes).min(word_len(bytes)));
    let mut telling = Telling::new(alloc, mark, fixed::parse_fault(fault.kind))?;
    match fault.kind {
        ParseFaultKind::Words(kind) => of_words(&mut telling, bytes, kind)?,
        ParseFaultKind::UnexpectedWord => unexpected(alloc, &mut telling, text, fault.offset)?,
        ParseFaultKind::UnexpectedEnd => ended(alloc, &mut telling, text)?,
        ParseFaultKind::TooDeep => {
            telling.note(
                "sixteen `{` are open before it: define an inner component outside of the others",
            )?;
        }
        ParseFaultKind::TooLarge => {
            telling.note(
                "copies count: name a body once as a type, and give its instances that type",
            )?;
        }
        ParseFaultKind::TooLong => {
            telling.note("a text has at most 67,108,864 bytes")?;
        }
    }
    Ok(telling)
}

fn first_line_len(bytes: &[u8]) -> usize {
    bytes.iter().take_while(|byte| **byte != b'\n').count()
}

/// What an editor or a merge has left at a byte that begins no word.
fn stray_character(bytes: &[u8]) -> Option<(&'static str, &'static str)> {
    match bytes {
        [0xEF, 0xBB, 0xBF, ..] => Some((
            ": a byte order mark",
            "save the text as UTF-8 without a byte order mark",
        )),
        [0xE2, 0x80, 0x98 | 0x99 | 0x9C | 0x9D | 0x9E | 0x9F, ..] => {
            Some((": a typographic quote", "write `\"`"))
        }
        [0xC2, 0xA0, ..] => Some((": a no-break space", "write a plain blank")),
        [b'<', b'<', b'<', ..] | [b'>', b'>', b'>', ..] => Some((
            ": a mark of a conflict",
            "resolve the conflict of the two versions first",
        )),
        _ => None,
    }
}

/// What of another language, or of the standard alone, begins at a byte that begins no word.
fn other_language(bytes: &[u8]) -> Option<(&'static str, &'static str)> {
    match bytes {
        [b'`', ..] => Some((
            ": a directive of Verilog's preprocessor",
            "this profile has no `include` and no `define`: put the text itself in its place",
        )),
        [b'#', ..] => Some((
            ": parameters are of SystemRDL 2.0, and this profile hasn't them",
            "write a definition for each set of values",
        )),
        [
            b'*'
            | b'-'
            | b'('
            | b')'
            | b'!'
            | b'&'
            | b'|'
            | b'^'
            | b'~'
            | b'<'
            | b'>'
            | b'?'
            | b'/',
            ..
        ] => {
            Some((
                ": expressions are of SystemRDL 2.0, and this profile hasn't them",
                "write the number itself",
            ))
        }
        [b'+', ..] | [b'%', ..] => Some((
            ": expressions are of SystemRDL 2.0, and this profile hasn't them",
            "write the number itself, or `+=` and `%=` without a blank",
        )),
        [b'\'', ..] => Some((
            ": a number needs its width before the `'`, and a string stands in `\"`",
            "write `8'h10`, or `\"text\"`",
        )),
        _ => None,
    }
}

/// What begins at a byte that begins no word.
fn bad_character(bytes: &[u8]) -> Option<(&'static str, &'static str)> {
    match stray_character(bytes) {
        Some(found) => Some(found),
        None => other_language(bytes),
    }
}

/// Whether a text begins with these bytes.
fn begins_utf8(bytes: &[u8]) -> bool {
    let first = bytes.get(..word_len(bytes)).unwrap_or(bytes);
    str::from_utf8(first).is_ok()
}

fn of_words(telling: &mut Telling, bytes: &[u8], kind: WordFault) -> Result<(), AllocError> {
    match kind {
        WordFault::BadCharacter => match bad_character(bytes) {
            Some((what, cure)) => {
                telling.what.push_str(what)?;
                telling.note(cure)
            }
            None if !begins_utf8(bytes) => {
                telling.what.push_str(": no UTF-8")?;
                telling.note("save the text as UTF-8")
            }
            None => telling.note(
                "outside of comments and strings stand ASCII letters, digits and marks alone",
            ),
        },
        WordFault::UnendedComment => telling.note("a comment ends with `*/`"),
        WordFault::UnendedString => telling.note(
            "a string ends with `\"`; inside it `\\\"` is a quote",
        ),
        WordFault::NumberTooLarge => telling.note("a number is below 2^128"),
        WordFault::ValueTooWide => telling.note("give the number a width that holds it, as `3'h4`"),
        WordFault::WidthOutOfRange => telling.note("the width before the `'` is 1 to 128"),
        WordFault::IdentifierTooLong => telling.note("a name has at most 255 letters"),
        WordFault::Memory => Ok(()),
    }
}

/// How many of the words begin before a byte.
fn words_before(words: &Tokens<'_>, offset: usize) -> usize {
    let mut count = 0usize;
    for number in 0..words.len() {
        match words.start(number) {
            Some(start) if start < offset => count = count.saturating_add(1),
            _ => return count,
        }
    }
    count
}

/// The text of a word.
fn spelling<'a>(words: &Tokens<'a>, number: usize) -> &'a str {
    match words.get(number) {
        Some(word) => word.source(),
        None => "",
    }
}

/// The words around one that isn't expected.
#[derive(Clone, Copy)]
struct Around<'a> {
    word: &'a str,
    before: &'a str,
    second_before: &'a str,
    /// Where the word before ends.
    end_before: usize,
}

fn words_around<'a>(words: &Tokens<'a>, offset: usize) -> Around<'a> {
    let number = words_before(words, offset);
    let last = number.checked_sub(1);
    let before = match last {
        Some(last) => spelling(words, last),
        None => "",
    };
    let start = match last {
        Some(last) => words.start(last).unwrap_or(0),
        None => 0,
    };
    let second_before = match number.checked_sub(2) {
        Some(second) => spelling(words, second),
        None => "",
    };
    Around {
        word: spelling(words, number),
        before,
        second_before,
        end_before: start.saturating_add(before.len()),
    }
}

fn unexpected(
    alloc: Global,
    telling: &mut Telling,
    bytes: &[u8],
    offset: usize,
) -> Result<(), AllocError> {
    let Ok(text) = str::from_utf8(bytes) else {
        return Ok(());
    };
    let Ok(words) = tokens(alloc, text) else {
        return Ok(());
    };
    let around = words_around(&words, offset);
    if around.word.len() <= 40 && !around.word.is_empty() {
        write!(telling.what, ": `{}`", around.word)?;
    }
    if around.before == "=" {
        return value_expected(alloc, telling, &around);
    }
    if let Some(cure) = instead_of(around.word) {
        telling
            .what
            .push_str(" is of SystemRDL 2.0, and this profile hasn't it")?;
        return telling.note(cure);
    }
    if is_semicolon_missing(bytes, offset, &around) {
        return missing_semicolon(alloc, telling, bytes, &around);
    }
    of_place(telling, bytes, offset, &around)
}

/// What stands where a value should.
fn value_expected(
    alloc: Global,
    telling: &mut Telling,
    around: &Around<'_>,
) -> Result<(), AllocError> {
    telling.what.push_str(" is no value")?;
    let name = around.second_before;
    if let Some(property) = property_named(name) {
        let mut cure = String::new(alloc);
        push_values(alloc, &mut cure, property, around.word)?;
        return telling.note(cure.as_str());
    }
    if is_other_property(name) {
        let mut note = String::new(alloc);
        write!(
            note,
            "`{name}` is a property of SystemRDL 2.0 that this profile hasn't: leave it out"
        )?;
        return telling.note(note.as_str());
    }
    telling.note("a value is a number, a string, `true`, `false` or a word as `rw`")
}

/// Whether a word could begin a statement or be a name.
fn is_identifier(word: &str) -> bool {
    match word.as_bytes() {
        [first, ..] => *first == b'_' || first.is_ascii_alphabetic(),
        [] => false,
    }
}

/// Whether the statement before seems to lack its end: the word begins a line or closes a body, behind one that ends no
/// statement.
fn is_semicolon_missing(bytes: &[u8], offset: usize, around: &Around<'_>) -> bool {
    let between = bytes.get(around.end_before..offset).unwrap_or(&[]);
    let is_new_line = between.iter().any(|byte| *byte == b'\n');
    let ends = matches!(
        around.before,
        "" | ";" | "{" | "," | "." | "=" | "@" | "+=" | "%=" | "->"
    );
    !ends && (around.word == "}" || (is_new_line && is_identifier(around.word)))
}

/// Where a byte stands, if the text has several lines.
fn push_spot(note: &mut String, bytes: &[u8], offset: usize) -> Result<(), AllocError> {
    if !bytes.iter().any(|byte| *byte == b'\n') {
        return Ok(());
    }
    let line = line_around(bytes, offset);
    let column = offset.saturating_sub(line.start).saturating_add(1);
    write!(note, " in line {}, column {column}", line.number)
}

fn missing_semicolon(
    alloc: Global,
    telling: &mut Telling,
    bytes: &[u8],
    around: &Around<'_>,
) -> Result<(), AllocError> {
    let mut note = String::from_str(alloc, "a `;` is missing")?;
    if around.before.len() <= 40 {
        write!(note, " after `{}`", around.before)?;
    }
    push_spot(&mut note, bytes, around.end_before)?;
    telling.note(note.as_str())
}

/// Whether the parts of an instance stand before, in the statement of a byte.
fn stands_before(bytes: &[u8], offset: usize, mark: &[u8]) -> bool {
    let before = bytes.get(..offset).unwrap_or(&[]);
    let length = before
        .iter()
        .rev()
        .take_while(|byte| !matches!(**byte, b';' | b'{' | b'}' | b','))
        .count();
    let from = before.len().saturating_sub(length);
    let statement = before.get(from..).unwrap_or(&[]);
    statement
        .windows(mark.len().max(1))
        .any(|part| part == mark)
}

const ORDER: &str =
    "the parts stand in this order: NAME [size] = reset @ address += stride %= alignment";

fn of_place(
    telling: &mut Telling,
    bytes: &[u8],
    offset: usize,
    around: &Around<'_>,
) -> Result<(), AllocError> {
    match around.word {
        "@" | "+=" | "%=" | "=" | "[" if stands_before(bytes, offset, b"=") => {
            return telling.note(ORDER);
        }
        "[" => return telling.note(
            "one element of an array is no target, and a size stands directly after the name",
        ),
        "->" => return telling.note(
            "a TARGET is names with dots between them, as `status.busy->reset = 1;`",
        ),
        "(" | ")" => return telling.note("there are no expressions: write the number itself"),
        _ => {}
    }
    if around.word.starts_with("\"") {
        return telling.note("a string is the value of a property, as `desc = \"text\";`");
    }
    match Class::of(around.word) {
        Class::Name => telling.note(
            "a statement is `KIND NAME { .. };`, `TYPE NAME, ..;`, `PROP = VALUE;` or `TARGET->PROP = VALUE;`",
        ),
        _ if is_identifier(around.word) => telling.note(
            "this word is reserved, and can't be a name or stand here",
        ),
        _ => telling.note(
            "no statement goes on with it: look for a missing `;`, name or number before it",
        ),
    }
}

fn ended(alloc: Global, telling: &mut Telling, bytes: &[u8]) -> Result<(), AllocError> {
    let Ok(text) = str::from_utf8(bytes) else {
        return Ok(());
    };
    let Ok(words) = tokens(alloc, text) else {
        return Ok(());
    };
    let open = open_braces(alloc, &words)?;
    let around = words_around(&words, bytes.len());
    let mut note = String::new(alloc);
    let Some(last) = open.last() else {
        return missing_semicolon(alloc, telling, bytes, &around);
    };
    if open.len() == 1 {
        note.push_str("a `{` isn't closed by `};`")?;
    } else {
        write!(
            note,
            "{} of the `{{` aren't closed by `}};`, the last of them",
            open.len()
        )?;
    }
    push_spot(&mut note, bytes, *last)?;
    telling.note(note.as_str())
}

/// Where the braces begin that aren't closed.
fn open_braces(alloc: Global, words: &Tokens<'_>) -> Result<Vec<usize>, AllocError> {
    let mut open = Vec::new(alloc);
    for number in 0..words.len() {
        match spelling(words, number) {
            "{" => open.push(words.start(number).unwrap_or(0))?,
            "}" => {
                let _closed: Option<usize> = open.pop();
            }
            _ => {}
        }
    }
    Ok(open)
}

/// The near name of another word, if there is one.
pub fn near_property(alloc: Global, name: &str) -> Result<Option<&'static str>, AllocError> {
    let mut nearest = Nearest::to(name);
    for property in rdl_tree::property::Property::ALL {
        nearest.see(alloc, property.name())?;
    }
    Ok(nearest.best())
}

/// The mark of a text as one of the line in which it begins.
pub fn mark_in_line(line: SourceLine<'_>, mark: Stretch) -> Stretch {
    let start = mark.start.saturating_sub(line.start);
    let word = word_at(line.bytes, start);
    Stretch::new(start, mark.len.max(1).min(word.len.max(1)))
}
