//! The bits of the fields of a register.
ghost use Rattle.std.specs.Prelude.{◌≡◌, map, IfOk};
ghost use Rattle.rdl_elab.specs.Bits.{bits_of, bits_from};
ghost use Rattle.rdl_elab.specs.Capped.{capped_span};

use crate::layout::round::{LIMIT, capped};
use crate::layout::{FieldBits, Span, Spans};
use rdl_text::token::Number;
use std::alloc::{AllocError, Global};

/// The bits of a field, where this is the bit one past the field before it.
fn bits_of(next: u64, field: FieldBits) -> Span
    ensures { result ≡ capped_span (bits_of next field) }
{
    match field.range {
        Some((high, low)) => Span {
            start: capped(low),
            end: capped(high.saturating_add(1).max(low)),
        },
        None => Span {
            start: next.min(LIMIT),
            end: capped(Number::from(next).saturating_add(field.width)),
        },
    }
}

/// The bits of the fields of a register, in their order. Numbers over 2^40 are kept as 2^40 + 1.
#[tactic(auto, using(crate::proofs::FieldRuns::runs))]
pub fn bits(alloc: Global, fields: &[FieldBits]) -> Result<Spans, AllocError>
    ensures { IfOk result (λ spans. spans ≡ map capped_span (bits_from 0 fields.now)) }
{
    let mut spans = Vec::with_capacity(alloc, fields.len())?;
    let mut next = 0u64;
    for field in fields {
        let span = bits_of(next, *field);
        next = span.end;
        spans.push(span)?;
    }
    Ok(Spans::from_vec(spans))
}
