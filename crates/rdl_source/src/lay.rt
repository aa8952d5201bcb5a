//! Statements and bodies, from the front to the back.
ghost use Rattle.std.specs.Prelude.{◌≡◌, ℕ, ◌≤◌, ◌<◌, length, Option, IfSome, IfOk};
ghost use Rattle.rdl_source.specs.declared.statement.Inner.{Inner};
ghost use Rattle.rdl_source.specs.Laid.{Laid, ended, depth};
ghost use Rattle.rdl_source.specs.View.{put};
ghost use Rattle.rdl_source.specs.LaidOut.{Lie};
ghost use Rattle.rdl_source.specs.Worded.{IsWorded};
ghost use Rattle.rdl_source.specs.Only.{inside_depth, IsWording, IsBody};

use crate::gap::byte_at;
use crate::span::Span;
use crate::statement::{Inner, Statement, Statements};
use crate::walk::{Gap, Spot, Stop, gap_at, inside_first, items_in, stop_from};
use rdl_parse::places::ItemPlace;
use rdl_text::list::Tokens;
use std::alloc::{AllocError, Global};

/// How deep bodies nest.
pub(crate) const LEVELS: u32 = 16;

/// A body that has been read: where its statements begin and end, and the number of the word behind it.
#[derive(Drop)]
pub(crate) struct Body {
    pub(crate) begin: usize,
    pub(crate) close: usize,
    pub(crate) word: usize,
    pub(crate) statements: Statements,
}

/// The words of a statement that have been read: its semicolon, and what stands between its braces.
#[derive(Drop)]
pub(crate) struct Wording {
    pub(crate) end: Stop,
    pub(crate) inside: Option<Inner>,
}

impl Body {
    /// These statements, which begin at a byte, with the gap behind the last of them.
    fn ended(list: Vec<Statement>, begin: usize, gap: Gap, word: usize) -> Body
        ensures statements { result.statements ≡ put list.items (ended (record { from = gap.trail.to; to = gap.lead.to })) }
        ensures begin { result.begin ≡ begin }
        ensures close { result.close ≡ gap.lead.to }
        ensures word { result.word ≡ word }
    {
        let last = Span {
            from: gap.trail.to,
            to: gap.lead.to,
        };
        Body {
            begin,
            close: gap.lead.to,
            word,
            statements: Statements::new(list, last),
        }
    }
}

/// The statements behind a spot, which have these items, up to a brace that closes or the end of the text.
#[cycle(lay)]
pub(crate) fn read_body(
    alloc: Global,
    text: &[u8],
    words: &Tokens<'_>,
    places: &[ItemPlace],
    begin: Spot,
    levels: u32,
) -> Result<Option<Body>, AllocError>
    ensures lie { IfOk result (λ o. IfSome o (λ b. Lie text.now words.now b.statements begin.left begin.at b.begin begin.word places.now b.close b.word)) }
    ensures forward { IfOk result (λ o. IfSome o (λ b. begin.word ≤ b.word)) }
    ensures only { IfOk result (λ o. (laid : Laid) (to close n : ℕ) → Lie text.now words.now laid begin.left begin.at to begin.word places.now close n → depth laid ≤ levels → IsBody o laid to close n) }
{
    let Some(first) = gap_at(text, words, begin) else {
        return Ok(None);
    };
    let mut list = Vec::new(alloc);
    let mut gap = first;
    let mut spot = begin;
    let mut rest = places;
    'statements: while !gap.is_end() {
        let Some(wording) = read_words(alloc, text, words, rest, spot.word, gap.lead.to, levels)?
        else {
            return Ok(None);
        };
        let behind = wording.end.behind();
        let Some(next) = gap_at(text, words, behind) else {
            return Ok(None);
        };
        let span = Span {
            from: gap.lead.to,
            to: behind.at,
        };
        let (items, others) = items_in(rest, span);
        if items == 0 {
            return Ok(None);
        }
        list.push(Statement {
            float: gap.float,
            lead: gap.lead,
            words: span,
            trail: next.trail,
            items,
            inside: wording.inside,
        })?;
        spot = behind;
        gap = next;
        rest = others;
    }
    if !rest.is_empty() {
        return Ok(None);
    }
    Ok(Some(Body::ended(list, first.trail.to, gap, spot.word)))
}

/// The words of a statement from the one of this number on, which begins at this byte, and whose items are the first of these.
#[cycle(lay)]
fn read_words(
    alloc: Global,
    text: &[u8],
    words: &Tokens<'_>,
    places: &[ItemPlace],
    word: usize,
    from: usize,
    levels: u32,
) -> Result<Option<Wording>, AllocError>
    ensures worded { IfOk result (λ o. IfSome o (λ w. IsWorded text.now words.now places.now w.inside from word w.end.word w.end.at)) }
    ensures forward { IfOk result (λ o. IfSome o (λ w. word ≤ w.end.word)) }
    ensures word { IfOk result (λ o. IfSome o (λ w. w.end.word < length words.now)) }
    ensures small { IfOk result (λ o. IfSome o (λ w. w.end.word < usize.MAX)) }
    ensures only { IfOk result (λ o. (inside : Option Inner) (j at : ℕ) → IsWorded text.now words.now places.now inside from word j at → inside_depth inside ≤ levels → IsWording o inside j at) }
    ensures at { IfOk result (λ o. IfSome o (λ w. w.end.at < length text.now)) }
{
    let Some(stop) = stop_from(text, words, word, from) else {
        return Ok(None);
    };
    let inner = inside_first(places);
    if text[stop.at] == b';' {
        if !inner.is_empty() {
            return Ok(None);
        }
        let (end, inside) = (stop, None);
        return Ok(Some(Wording { end, inside }));
    }
    if text[stop.at] != b'{' {
        return Ok(None);
    }
    if levels == 0 {
        return Ok(None);
    }
    let Some(body) = read_body(alloc, text, words, inner, stop.behind(), levels - 1)? else {
        return Ok(None);
    };
    if body.word >= words.len() {
        return Ok(None);
    }
    if byte_at(text, body.close) != b'}' {
        return Ok(None);
    }
    let Some(end) = stop_from(text, words, body.word + 1, body.close) else {
        return Ok(None);
    };
    if text[end.at] != b';' {
        return Ok(None);
    }
    let inside = Some(Inner {
        open: body.begin,
        close: body.close,
        body: body.statements,
    });
    Ok(Some(Wording { end, inside }))
}
