//! Siblings that overlap, and resets that are too wide.
ghost use Rattle.std.specs.Prelude.{◌≡◌, ◌^◌, nat_le, option_copied, false, List, [], ◌∷◌, ◌++◌, IfOk};
ghost use Rattle.rdl_elab.specs.Faults.{overlap, is_read_only, is_write_only, is_reset_too_wide};
ghost use Rattle.rdl_elab.specs.FinishedRows.{share, overlaps_before};
ghost use Rattle.rdl_elab.specs.SiblingRanges.{AreApart, AreRanges, AreRangesIfKept};
ghost use Rattle.rdl_elab.specs.SiblingsBefore.{in_order};
ghost use Rattle.rdl_elab.specs.declared.rows.siblings.Sibling.{Sibling};

use crate::layout::Span;
use rdl_text::token::Number;
use rdl_tree::value::{Value, Word};
use std::alloc::{AllocError, Global};
use std::collections::BTreeMap;
use std::marker::Model;

/// A row as its later siblings see it: where it lies in the component around it, and whether software only reads it
/// or only writes it.
#[derive(Clone, Copy, Debug)]
pub(crate) struct Sibling {
    pub span: Span,
    pub is_read_only: bool,
    pub is_write_only: bool,
}

fn share(first: Sibling, second: Sibling) -> bool
    ensures { result ≡ share first second }
{
    first.is_read_only && second.is_write_only || first.is_write_only && second.is_read_only
}

/// So many siblings are searched one by one before ranges are kept.
const FEW: usize = 32;

/// The earlier siblings of a row. A contract sees their list.
#[derive(Drop)]
pub(crate) struct Siblings {
    alloc: Global,
    items: Vec<Sibling>,
    /// The greatest end of their spans: what begins there or later overlaps none of them.
    end: u64,
    /// Whether no two of their spans overlap.
    are_apart: bool,
    /// Their spans but the empty ones, from start to end, once one of many has begun before the greatest end.
    ranges: Option<BTreeMap<u64, u64>>,
}

/// Whether a span overlaps one of the ranges: the last that begins before its end would be the one.
fn runs_into(ranges: &BTreeMap<u64, u64>, span: Span) -> bool
    ensures { (before : List Sibling) → AreRanges ranges.now before → result ≡ overlaps_before span before }
{
    if span.end <= span.start {
        return false;
    }
    match ranges.range(..span.end).next_back() {
        Some((_, end)) => span.start < *end,
        None => false,
    }
}

/// The ranges, where they are kept, with that of one more span, which overlaps none of them.
fn with_range(
    ranges: Option<BTreeMap<u64, u64>>,
    span: Span,
) -> Result<Option<BTreeMap<u64, u64>>, AllocError>
    ensures { IfOk result (λ with_one. (before : List Sibling) (sibling : Sibling) → AreRangesIfKept ranges before → overlaps_before span before ≡ false → sibling.span ≡ span → AreRangesIfKept with_one (before ++ sibling ∷ [])) }
{
    let Some(mut ranges) = ranges else {
        return Ok(None);
    };
    if span.end <= span.start {
        return Ok(Some(ranges));
    }
    ranges.insert(span.start, span.end)?;
    Ok(Some(ranges))
}

/// The ranges of siblings of which no two overlap.
fn ranges_of(alloc: Global, siblings: &[Sibling]) -> Result<Option<BTreeMap<u64, u64>>, AllocError>
    ensures { IfOk result (λ ranges. AreApart siblings.now → AreRangesIfKept ranges siblings.now) }
{
    let mut ranges = Some(BTreeMap::new(alloc));
    for sibling in siblings {
        ranges = with_range(ranges, sibling.span)?;
    }
    Ok(ranges)
}

impl Model for Siblings {
    ghost use Rattle.std.specs.Prelude.{List, All, ◌≤◌, ◌≡◌, true};
    ghost use Rattle.rdl_elab.specs.declared.rows.siblings.Sibling.{Sibling};
    ghost use Rattle.rdl_elab.specs.SiblingRanges.{AreApart, AreRangesIfKept};

    ghost Value = { List Sibling };

    ghost view = { λ s. s.items.items };

    ghost invariant = { λ s. All (λ (b : Sibling). b.span.end ≤ s.end) s.items.items × (s.are_apart ≡ true → AreApart s.items.items) × AreRangesIfKept s.ranges s.items.items };
}

impl Siblings {
    ghost use Rattle.std.specs.Prelude.{◌≡◌, [], ◌∷◌, ◌++◌, OnOk, IfOk, true, false};
    ghost use Rattle.rdl_elab.specs.FinishedRows.{overlaps_before, clashes_before};
    ghost use Rattle.rdl_elab.specs.SiblingRanges.{AreApart, AreRangesIfKept};

    /// None, with room for so many.
    pub(crate) fn with_room(alloc: Global, count: usize) -> Result<Siblings, AllocError>
        ensures { IfOk result (λ siblings. siblings ≡ []) }
    {
        Ok(Siblings {
            alloc,
            items: Vec::with_capacity(alloc, count)?,
            end: 0,
            are_apart: true,
            ranges: None,
        })
    }

    /// The ranges to be kept with one more sibling, if no two overlap then.
    fn ranges_with(
        &mut self,
        sibling: Sibling,
        are_apart: bool,
    ) -> Result<Option<BTreeMap<u64, u64>>, AllocError>
        requires { are_apart ≡ true → AreApart self.old × (overlaps_before sibling.span self.old ≡ false) }
        ensures same { self.new ≡ self.old }
        ensures ranges { IfOk result (λ ranges. AreRangesIfKept ranges (self.old ++ sibling ∷ [])) }
    {
        if !are_apart {
            return Ok(None);
        }
        let kept = self.ranges.take();
        if kept.is_some() {
            return with_range(kept, sibling.span);
        }
        if self.end <= sibling.span.start || self.items.len() < FEW {
            return Ok(None);
        }
        with_range(ranges_of(self.alloc, self.items.as_slice())?, sibling.span)
    }

    pub(crate) fn push(&mut self, sibling: Sibling) -> Result<(), AllocError>
        ensures { OnOk result (self.new ≡ self.old ++ sibling ∷ []) }
    {
        let are_apart = self.are_apart && !self.overlap(sibling.span);
        let ranges = self.ranges_with(sibling, are_apart)?;
        self.items.push(sibling)?;
        self.end = self.end.max(sibling.span.end);
        self.are_apart = are_apart;
        self.ranges = ranges;
        Ok(())
    }

    /// Whether one of them has a number of the span.
    pub(crate) fn overlap(&self, span: Span) -> bool
        ensures { result ≡ overlaps_before span self.now }
    {
        if self.end <= span.start {
            return false;
        }
        match &self.ranges {
            Some(ranges) => runs_into(ranges, span),
            None => self.items.iter().any(|before| overlap(span, before.span)),
        }
    }

    /// Whether one of them has a bit of the field that the two may not share.
    pub(crate) fn clash(&self, field: Sibling) -> bool
        ensures { result ≡ clashes_before field self.now }
    {
        if self.end <= field.span.start {
            return false;
        }
        self.items.iter().any(|before| overlap(field.span, before.span) && !share(field, *before))
    }
}

/// Whether a number lies in both spans.
pub fn overlap(first: Span, second: Span) -> bool
    ensures { result ≡ overlap first second }
{
    first.start < first.end
        && second.start < second.end
        && first.start < second.end
        && second.start < first.end
}

fn is_read_only(access: Option<&Value>) -> bool
    ensures { result ≡ is_read_only (option_copied access.entry) }
{
    match access {
        Some(Value::Word(word)) => *word == Word::R,
        _ => false,
    }
}

fn is_write_only(access: Option<&Value>) -> bool
    ensures { result ≡ is_write_only (option_copied access.entry) }
{
    match access {
        Some(Value::Word(word)) => *word == Word::W || *word == Word::W1,
        _ => false,
    }
}

/// Whether the number has more bits than this.
#[tactic(auto, using(crate::proofs::WideNumbers::within_word))]
pub fn is_wider(number: Number, width: u64) -> bool
    ensures { result ≡ nat_le (2 ^ width) number }
{
    if width >= 128 {
        return false;
    }
    1 << width <= number
}

/// Whether each of the spans begins where those before it end, or behind that.
pub(crate) fn is_in_order(spans: &[Span]) -> bool
    ensures { result ≡ in_order 0 spans.now }
{
    let mut end = 0;
    for span in spans {
        if span.start < end {
            return false;
        }
        end = end.max(span.end);
    }
    true
}

/// A row as its later siblings see it, by its span and its value of `sw`.
pub(crate) fn as_sibling(span: Span, access: Option<&Value>) -> Sibling
    ensures { result ≡ record { span = span; is_read_only = is_read_only (option_copied access.entry); is_write_only = is_write_only (option_copied access.entry) } }
{
    Sibling {
        span,
        is_read_only: is_read_only(access),
        is_write_only: is_write_only(access),
    }
}

/// Whether a field's reset has more bits than the field.
pub fn is_reset_too_wide(reset: Option<Number>, bits: Span) -> bool
    ensures { result ≡ is_reset_too_wide reset bits }
{
    match reset {
        Some(number) => is_wider(number, bits.end.saturating_sub(bits.start)),
        None => false,
    }
}
