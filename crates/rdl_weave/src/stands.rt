//! Whether what a span of the source has stands in another text.
ghost use Rattle.std.specs.Prelude.{◌≤◌, IfSome, IsTrue, length, take, drop, slice_range};
ghost use Rattle.rdl_weave.specs.InTurn.{StandsBefore};
ghost use Rattle.rdl_weave.specs.Standing.{AreBlanks, Comes, Occurs, Stands, Trims};

use crate::bytes::is_blank;
use crate::woven::Kept;
use rdl_source::span::Span;

/// How many blanks stand in front.
#[tactic(auto, using(crate::proofs::Blanks::front_more))]
fn front_blanks(bytes: &[u8]) -> usize
    ensures within { result ≤ length bytes.now }
    ensures blanks { AreBlanks (take result bytes.now) }
{
    'blanks: for (index, byte) in bytes.iter().enumerate() {
        if !is_blank(*byte) {
            return index;
        }
    }
    bytes.len()
}

/// How many bytes stand before the blanks at the end.
#[tactic(auto, using(crate::proofs::Blanks::back_none, crate::proofs::Blanks::back_more))]
fn before_blanks(bytes: &[u8]) -> usize
    ensures within { result ≤ length bytes.now }
    ensures blanks { AreBlanks (drop result bytes.now) }
{
    let mut end = bytes.len();
    'blanks: while end > 0 {
        if !is_blank(bytes[end - 1]) {
            return end;
        }
        end -= 1;
    }
    end
}

/// Whether the bytes stand at a place of the text.
#[tactic(auto, using(crate::proofs::Blanks::occurs_at))]
fn occurs(bytes: &[u8], text: &[u8], at: usize) -> bool
    ensures { IsTrue result → Occurs bytes.now text.now }
{
    if at > text.len() || bytes.len() > text.len() - at {
        return false;
    }
    let end = at + bytes.len();
    &text[at..end] == bytes
}

/// Where the bytes end in the text if they begin at a place there, which isn't before another.
fn end_at(bytes: &[u8], text: &[u8], at: usize, begin: usize) -> Option<usize>
    ensures { IfSome result (λ end. Comes bytes.now (drop at text.now) (drop end text.now)) }
{
    if begin < at || begin > text.len() || bytes.len() > text.len() - begin {
        return None;
    }
    let end = begin + bytes.len();
    if &text[begin..end] == bytes {
        Some(end)
    } else {
        None
    }
}

/// Where the byte of the source stands in the woven text, not before a place, as far as it is noted. They are in the order of the source,
/// and at one byte in that of the text.
fn place_of(kept: &[Kept], from: usize, at: usize) -> usize {
    let is_before = |kept: &Kept| kept.from < from || (kept.from == from && kept.at < at);
    match kept.get(kept.partition_point(is_before)) {
        Some(kept) if kept.from == from => kept.at,
        _ => at,
    }
}

/// What a source has in a span, but for blanks in front and at the end, and its first byte there.
#[derive(Clone, Copy)]
struct Core<'a> {
    from: usize,
    bytes: &'a [u8],
}

/// What the source has in the span, if it has it.
fn trimmed(source: &[u8], span: Span) -> Option<Core<'_>>
    ensures { IfSome result (λ found. Trims (slice_range source.now span.from span.to) found.bytes.now) }
{
    if span.from > span.to || span.to > source.len() {
        return None;
    }
    let bytes = &source[span.from..span.to];
    let front = front_blanks(bytes);
    let rest = &bytes[front..];
    let end = before_blanks(rest);
    Some(Core {
        from: span.from + front,
        bytes: &rest[..end],
    })
}

/// Whether what the source has in the span stands in the text, but for blanks in front and at the end.
pub(crate) fn stands(source: &[u8], span: Span, text: &[u8], kept: &[Kept]) -> bool
    ensures { IsTrue result → Stands source.now span text.now }
{
    match trimmed(source, span) {
        Some(found) => occurs(found.bytes, text, place_of(kept, found.from, 0)),
        None => false,
    }
}

/// Where it ends there, if it stands there from a place on.
pub(crate) fn end_of(
    source: &[u8],
    span: Span,
    text: &[u8],
    kept: &[Kept],
    at: usize,
) -> Option<usize>
    ensures { IfSome result (λ end. StandsBefore source.now span (drop at text.now) (drop end text.now)) }
{
    let found = trimmed(source, span)?;
    end_at(found.bytes, text, at, place_of(kept, found.from, at))
}
