//! From gap to gap, from word to word, from item to item.
ghost use Rattle.std.specs.Prelude.{◌≡◌, ℕ, ◌+◌, ◌<◌, ◌↔◌, length, take, drop, IfSome, IfNone, IsTrue, MatchBool};
ghost use Rattle.rdl_parse.specs.Places as items;
ghost use Rattle.rdl_parse.specs.Places.{from_item};
ghost use Rattle.rdl_source.specs.LaidOut as spec;
ghost use Rattle.rdl_source.specs.LaidOut.{IsGap, IsStop, StandsBehind, BeginsIn, start_at};
ghost use Rattle.rdl_source.specs.Only.{NoGap, NoStop};
ghost use Rattle.rdl_source.specs.declared.span.Span.{Span};

use crate::gap::{Left, Right, byte_at, split_gap};
use crate::span::Span;
use rdl_parse::places::ItemPlace;
use rdl_text::list::Tokens;

/// Where a gap begins.
#[derive(Clone, Copy)]
pub(crate) struct Spot {
    pub(crate) left: Left,
    /// The byte.
    pub(crate) at: usize,
    /// The number of the first word behind it.
    pub(crate) word: usize,
}

/// A gap of a text, by its parts.
#[derive(Clone, Copy)]
pub(crate) struct Gap {
    pub(crate) trail: Span,
    pub(crate) float: Span,
    pub(crate) lead: Span,
    pub(crate) right: Right,
}

/// A word that ends a part of a statement: its number, and its byte.
#[derive(Clone, Copy)]
pub(crate) struct Stop {
    pub(crate) word: usize,
    pub(crate) at: usize,
}

impl Gap {
    /// Whether a body ends behind it.
    pub(crate) fn is_end(&self) -> bool
        ensures { MatchBool result (self.now.right ≡ Right.End) (self.now.right ≡ Right.Statement) }
    {
        match self.right {
            Right::End => true,
            Right::Statement => false,
        }
    }
}

impl Stop {
    /// Where the gap behind it begins.
    pub(crate) fn behind(self) -> Spot
        requires at { self.at < usize.MAX }
        requires word { self.word < usize.MAX }
        ensures { result ≡ record { left = Left.Word; at = self.at + 1; word = self.word + 1 } }
    {
        Spot {
            left: Left::Word,
            at: self.at + 1,
            word: self.word + 1,
        }
    }
}

/// The gap between two bytes, where the word of this number stands behind it, or none.
fn gap_between(text: &[u8], words: &Tokens<'_>, spot: Spot, to: usize, right: Right) -> Option<Gap>
    requires { StandsBehind text.now right to (start_at words.now spot.word) }
    ensures gap { IfSome result (λ g. IsGap text.now words.now spot.left g.right spot.at spot.word g.lead.to g.trail.to g.float g.lead) }
    ensures trail { IfSome result (λ g. g.trail.from ≡ spot.at) }
    ensures none { IfNone result ((end : ℕ) (float : Span) (lead : Span) → IsGap text.now words.now spot.left right spot.at spot.word to end float lead → ⊥) }
{
    let from = spot.at;
    if from > to || to > text.len() {
        return None;
    }
    match split_gap(&text[from..to], spot.left, right) {
        None => None,
        Some(parts) => {
            let trail = from + parts.trail;
            let float = trail + parts.float;
            Some(Gap {
                trail: Span { from, to: trail },
                float: Span {
                    from: trail,
                    to: float,
                },
                lead: Span { from: float, to },
                right,
            })
        }
    }
}

/// What stands behind a gap up to a word that begins at this byte.
fn right_of(text: &[u8], start: usize) -> Right
    ensures { result ≡ spec.right_of text.now start }
{
    match text.get(start) {
        Some(b'}') => Right::End,
        _ => Right::Statement,
    }
}

/// The gap that begins at a spot. There is none where its words aren't those of the text.
pub(crate) fn gap_at(text: &[u8], words: &Tokens<'_>, spot: Spot) -> Option<Gap>
    ensures gap { IfSome result (λ g. IsGap text.now words.now spot.left g.right spot.at spot.word g.lead.to g.trail.to g.float g.lead) }
    ensures trail { IfSome result (λ g. g.trail.from ≡ spot.at) }
    ensures none { IfNone result (NoGap text.now words.now spot.left spot.at spot.word) }
{
    match words.start(spot.word) {
        None => gap_between(text, words, spot, text.len(), Right::End),
        Some(start) => gap_between(text, words, spot, start, right_of(text, start)),
    }
}

fn is_stop(byte: u8) -> bool
    ensures { result ≡ spec.is_stop byte }
{
    byte == b';' || byte == b'{' || byte == b'}'
}

/// The first semicolon or brace, from the word of this number on. It stands behind this byte.
pub(crate) fn stop_from(text: &[u8], words: &Tokens<'_>, word: usize, from: usize) -> Option<Stop>
    ensures stop { IfSome result (λ s. IsStop text.now words.now from word s.word s.at) }
    ensures within { IfSome result (λ s. s.word < length words.now) }
    ensures small { IfSome result (λ s. s.word < usize.MAX) }
    ensures none { IfNone result (NoStop text.now words.now from word) }
{
    'words: for number in word..words.len() {
        let Some(at) = words.start(number) else {
            return None;
        };
        if is_stop(byte_at(text, at)) {
            if at < from {
                return None;
            }
            return Some(Stop { word: number, at });
        }
    }
    None
}

fn past(places: &[ItemPlace], count: usize) -> &[ItemPlace]
    ensures { result.now ≡ drop count places.now }
{
    if count <= places.len() {
        &places[count..]
    } else {
        &[]
    }
}

fn front(places: &[ItemPlace], count: usize) -> &[ItemPlace]
    ensures { result.now ≡ take count places.now }
{
    if count <= places.len() {
        &places[..count]
    } else {
        places
    }
}

/// The places inside the first item.
pub(crate) fn inside_first(places: &[ItemPlace]) -> &[ItemPlace]
    ensures { result.now ≡ items.inside_first places.now }
{
    match places {
        [] => places,
        [first, others @ ..] => front(others, first.inside),
    }
}

/// The places of the items behind the first one.
fn past_first(places: &[ItemPlace]) -> &[ItemPlace]
    ensures { result.now ≡ spec.past_first places.now }
{
    match places {
        [] => places,
        [first, others @ ..] => past(others, first.inside),
    }
}

fn begins_in(place: ItemPlace, span: Span) -> bool
    ensures { IsTrue result ↔ spec.IsIn span place }
{
    span.from <= place.start && place.start < span.to
}

/// How many of the first items begin in a span, and the places of the items behind them.
pub(crate) fn items_in(places: &[ItemPlace], span: Span) -> (usize, &[ItemPlace])
    ensures items { (i : ℕ) → i < result.0 → BeginsIn span (from_item i places.now) }
    ensures rest { result.1.now ≡ from_item result.0 places.now }
    ensures last { BeginsIn span result.1.now → ⊥ }
{
    let mut rest = places;
    'items: for count in 0..places.len() {
        match rest {
            [] => return (count, rest),
            [first, ..] => {
                if !begins_in(*first, span) {
                    return (count, rest);
                }
            }
        }
        rest = past_first(rest);
    }
    (places.len(), rest)
}
