//! Looks at the bytes of a text.
ghost use Rattle.std.specs.Prelude.{◌≡◌};
ghost use Rattle.rdl_text.specs.Words.{is_blank};

use rdl_source::span::Span;
use std::str;

/// The bytes from one place up to another; none where the text has no such places.
pub(crate) fn part(text: &[u8], from: usize, to: usize) -> &[u8] {
    match text.get(from..to) {
        Some(bytes) => bytes,
        None => &[],
    }
}

/// The bytes of a span; none where the text doesn't have it.
pub(crate) fn slice(text: &[u8], span: Span) -> &[u8] {
    part(text, span.from, span.to)
}

pub(crate) fn is_blank(byte: u8) -> bool
    ensures { result ≡ is_blank byte }
{
    byte == b' ' || (byte > 8 && byte < 14)
}

pub(crate) fn are_blanks(bytes: &[u8]) -> bool {
    bytes.iter().all(|byte| is_blank(*byte))
}

/// The bytes behind the blanks that stand in front.
pub(crate) fn behind_blanks(bytes: &[u8]) -> &[u8] {
    match bytes.iter().position(|byte| !is_blank(*byte)) {
        Some(count) => part(bytes, count, bytes.len()),
        None => &[],
    }
}

/// The bytes before the blanks that stand at the end.
pub(crate) fn before_blanks(bytes: &[u8]) -> &[u8] {
    match bytes.iter().rposition(|byte| !is_blank(*byte)) {
        Some(last) => part(bytes, 0, last.saturating_add(1)),
        None => &[],
    }
}

pub(crate) fn has_line_feed(bytes: &[u8]) -> bool {
    bytes.contains(&b'\n')
}

pub(crate) fn ends_line(bytes: &[u8]) -> bool {
    match bytes.last() {
        Some(byte) => *byte == b'\n',
        None => false,
    }
}

pub(crate) fn ends_blank(bytes: &[u8]) -> bool {
    match bytes.last() {
        Some(byte) => is_blank(*byte),
        None => false,
    }
}

/// Whether a comment between marks stands last, but for blanks.
pub(crate) fn ends_comment(bytes: &[u8]) -> bool {
    before_blanks(bytes).ends_with(b"*/")
}

/// Whether a line begins at this place of a text.
pub(crate) fn begins_line(text: &[u8], at: usize) -> bool {
    at == 0 || ends_line(part(text, 0, at))
}

/// Where the line begins in which a text ends.
pub(crate) fn last_line(text: &[u8]) -> usize {
    match text.iter().rposition(|byte| *byte == b'\n') {
        Some(at) => at.saturating_add(1),
        None => 0,
    }
}

/// How far a line is looked for at most.
const FAR: usize = 1024;

/// Where the line begins in which a place stands, or a place that is far before it.
pub(crate) fn line_before(text: &[u8], at: usize) -> usize {
    let far = at.saturating_sub(FAR);
    far.saturating_add(last_line(part(text, far, at)))
}

/// How many bytes the first line has, with its line feed.
pub(crate) fn first_line(text: &[u8]) -> usize {
    match text.iter().position(|byte| *byte == b'\n') {
        Some(at) => at.saturating_add(1),
        None => text.len(),
    }
}

/// Whether the text begins with a line of blanks.
pub(crate) fn begins_with_blank_line(text: &[u8]) -> bool {
    let line = part(text, 0, first_line(text));
    ends_line(line) && are_blanks(line)
}

/// How many bytes the line of blanks has with which the text ends, if it ends with one.
pub(crate) fn blank_line_at_end(text: &[u8]) -> usize {
    if !ends_line(text) {
        return 0;
    }
    let before = part(text, 0, text.len().saturating_sub(1));
    let line = part(text, last_line(before), text.len());
    if are_blanks(line) { line.len() } else { 0 }
}

/// The blanks with which a line begins, as text.
pub(crate) fn indent_of(line: &[u8]) -> &str {
    let count = match line.iter().position(|byte| *byte != b' ' && *byte != b'\t') {
        Some(count) => count,
        None => line.len(),
    };
    str::from_utf8(part(line, 0, count)).unwrap_or("")
}

/// Whether a comment to the end of its line is open at the end of these blanks and comments.
pub(crate) fn is_open_comment(gap: &[u8]) -> bool {
    !ends_line(gap) && gap.windows(2).any(|pair| pair == b"//".as_slice())
}
