//! Words with their kinds and places, names and strings, and places in texts.
use crate::assert_holds;
use rdl_text::fault::TextFault;
use rdl_text::list::Tokens;
use rdl_text::name::{Name, NameFault};
use rdl_text::raw::Raw;
use rdl_text::token::{Mark, TokenKind};
use rdl_text::{place, tokens};
use std::alloc::Global;
use std::test::Fail;

/// A text, how many words it has, the number of one of them, and of that word the kind, where it begins, and its
/// spelling.
type Word = (&'static str, usize, usize, TokenKind, usize, &'static str);

// identifiers
const NAMES: &str = "a _ aZ_09 reg";

// numbers that break off
const NUMBERS: &str = "0x 0b1";

const MARKS: &str = "{}[]:;,.=@+=%=->";

// blanks and comments
const BLANKS: &str = " \t\n\u{B}\u{C}\ra//é;\n;/* * / // */b/**/c// d";

const STRING: &str = "x=\"a\\\"é\";";

const WORDS: [Word; 26] = [
    (NAMES, 4, 0, TokenKind::Identifier, 0, "a"),
    (NAMES, 4, 1, TokenKind::Identifier, 2, "_"),
    (NAMES, 4, 2, TokenKind::Identifier, 4, "aZ_09"),
    (NAMES, 4, 3, TokenKind::Identifier, 10, "reg"),
    (NUMBERS, 4, 0, TokenKind::Number(0), 0, "0"),
    (NUMBERS, 4, 1, TokenKind::Identifier, 1, "x"),
    (NUMBERS, 4, 2, TokenKind::Number(0), 3, "0"),
    (NUMBERS, 4, 3, TokenKind::Identifier, 4, "b1"),
    (MARKS, 13, 0, TokenKind::Mark(Mark::OpenBrace), 0, "{"),
    (MARKS, 13, 1, TokenKind::Mark(Mark::CloseBrace), 1, "}"),
    (MARKS, 13, 2, TokenKind::Mark(Mark::OpenBracket), 2, "["),
    (MARKS, 13, 3, TokenKind::Mark(Mark::CloseBracket), 3, "]"),
    (MARKS, 13, 4, TokenKind::Mark(Mark::Colon), 4, ":"),
    (MARKS, 13, 5, TokenKind::Mark(Mark::Semicolon), 5, ";"),
    (MARKS, 13, 6, TokenKind::Mark(Mark::Comma), 6, ","),
    (MARKS, 13, 7, TokenKind::Mark(Mark::Dot), 7, "."),
    (MARKS, 13, 8, TokenKind::Mark(Mark::Equals), 8, "="),
    (MARKS, 13, 9, TokenKind::Mark(Mark::At), 9, "@"),
    (MARKS, 13, 10, TokenKind::Mark(Mark::PlusEquals), 10, "+="),
    (
        MARKS,
        13,
        11,
        TokenKind::Mark(Mark::PercentEquals),
        12,
        "%=",
    ),
    (MARKS, 13, 12, TokenKind::Mark(Mark::Arrow), 14, "->"),
    (BLANKS, 4, 0, TokenKind::Identifier, 6, "a"),
    (BLANKS, 4, 1, TokenKind::Mark(Mark::Semicolon), 13, ";"),
    (BLANKS, 4, 2, TokenKind::Identifier, 26, "b"),
    (BLANKS, 4, 3, TokenKind::Identifier, 31, "c"),
    (STRING, 4, 2, TokenKind::Text, 2, "\"a\\\"é\""),
];

fn all_words() -> &'static [Word] {
    &WORDS
}

fn is_word(words: &Tokens<'_>, wanted: &Word) -> bool {
    let (_, _, number, kind, start, source) = wanted;
    match words.get(*number) {
        Some(word) => word.kind() == *kind && word.start() == *start && word.source() == *source,
        None => false,
    }
}

/// Whether the text has this word, and so many.
fn has_word(alloc: Global, wanted: &Word) -> Result<bool, TextFault> {
    let words = tokens(alloc, wanted.0)?;
    Ok(words.len() == wanted.1 && is_word(&words, wanted))
}

#[test]
fn texts_have_their_words(rt: HostRuntime) -> Result<(), Fail> {
    for word in all_words() {
        assert_holds(&rt, has_word(rt.alloc(), word)?, word.5);
    }
    Ok(())
}

/// What stands inside the quotes of a word.
fn inside<'a>(words: &Tokens<'a>, index: usize) -> Option<&'a str> {
    words.get(index)?.raw()
}

#[test]
fn strings_alone_have_an_inside(rt: HostRuntime) -> Result<(), Fail> {
    let words = tokens(rt.alloc(), STRING)?;
    assert!(rt; inside(&words, 2) == Some("a\\\"é") && inside(&words, 1) == None);
    Ok(())
}

/// Whether a name has this text and its length, prints itself so, and has an equal copy.
fn is_kept(alloc: Global, name: &Name, text: &str) -> Result<bool, NameFault> {
    let copy = name.try_copy(alloc)?;
    let shown = name.to_string(alloc)?;
    Ok(*name == copy && name.as_str() == text && name.len() == text.len() && shown.as_str() == text)
}

/// Whether the text is a name, which is kept whole.
fn is_name(alloc: Global, text: &str) -> Result<bool, NameFault> {
    match Name::new(alloc, text) {
        Ok(name) => is_kept(alloc, &name, text),
        Err(NameFault::NotSuch) => Ok(false),
        Err(NameFault::Memory) => Err(NameFault::Memory),
    }
}

/// Whether a string has this text and its length, prints itself so, and has an equal copy.
fn is_kept_raw(alloc: Global, raw: &Raw, text: &str) -> Result<bool, NameFault> {
    let copy = raw.try_copy(alloc)?;
    let shown = raw.to_string(alloc)?;
    Ok(*raw == copy && raw.len() == text.len() && shown.as_str() == text)
}

/// Whether the text stands between quotes as it is, and is kept whole.
fn is_raw(alloc: Global, text: &str) -> Result<bool, NameFault> {
    match Raw::new(alloc, text) {
        Ok(raw) => is_kept_raw(alloc, &raw, text),
        Err(NameFault::NotSuch) => Ok(false),
        Err(NameFault::Memory) => Err(NameFault::Memory),
    }
}

// A text, whether it is a name, and whether it is what stands between quotes.
const NAMES_AND_STRINGS: [(&str, bool, bool); 11] = [
    ("a_1", true, true),
    ("", false, true),
    ("1a", false, true),
    ("a b", false, true),
    ("é", false, true),
    ("a-", false, true),
    ("a\\\"\né", false, true),
    ("\"", false, false),
    ("a\\", false, false),
    ("\\\\\"", false, false),
    ("\\\\\\", false, false),
];

fn names_and_strings() -> &'static [(&'static str, bool, bool)] {
    &NAMES_AND_STRINGS
}

fn are_such(alloc: Global, text: &str, name: bool, raw: bool) -> Result<bool, NameFault> {
    Ok(is_name(alloc, text)? == name && is_raw(alloc, text)? == raw)
}

#[test]
fn some_texts_are_names_or_strings(rt: HostRuntime) -> Result<(), Fail> {
    for (text, name, raw) in names_and_strings() {
        assert_holds(&rt, are_such(rt.alloc(), text, *name, *raw)?, text);
    }
    Ok(())
}

fn are_equal(alloc: Global, left: &str, right: &str) -> Result<bool, NameFault> {
    let left = Name::new(alloc, left)?;
    let right = Name::new(alloc, right)?;
    Ok(left == right)
}

#[test]
fn other_names_are_not_equal(rt: HostRuntime) -> Result<(), Fail> {
    assert!(rt; !are_equal(rt.alloc(), "a_1", "a_2")?);
    Ok(())
}

const PLACES: [(&str, usize, (usize, usize)); 9] = [
    ("", 0, (1, 1)),
    ("ab", 1, (1, 2)),
    ("a\nb", 1, (1, 2)),
    ("a\nb", 2, (2, 1)),
    ("é\n\nb", 4, (3, 1)),
    ("éb", 2, (1, 3)),
    ("a\nb", 3, (2, 2)),
    ("a\nb", 99, (2, 2)),
    ("a\n", 99, (2, 1)),
];

fn known_places() -> &'static [(&'static str, usize, (usize, usize))] {
    &PLACES
}

#[test]
fn places(rt: HostRuntime) {
    for (text, offset, wanted) in known_places() {
        assert_holds(&rt, place(text, *offset) == *wanted, text);
    }
}
