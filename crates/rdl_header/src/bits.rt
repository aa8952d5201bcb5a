//! The bits of a field.
ghost use Rattle.std.specs.Prelude.{◌≡◌, ◌-◌, ◌^◌, ◌≤◌};
ghost use Rattle.rdl_header.specs.HeaderText.{width, mask};

use rdl_elab::layout::Span;
use rdl_text::token::Number;

/// How many bits the field has.
pub(crate) fn width(span: &Span) -> u64
    ensures { result ≡ width span.now }
{
    span.end.saturating_sub(span.start)
}

/// The number of so many ones.
fn ones(count: u64) -> Number
    requires { count ≤ 128 }
    ensures { result ≡ 2 ^ count - 1 }
{
    if count == 128 {
        Number::MAX
    } else {
        (1 << count) - 1
    }
}

/// Ones where the field has its bits; `Number::MAX` for a field that isn't within 128 bits.
#[tactic(auto, using(crate::proofs::Masks::masks))]
pub(crate) fn mask(span: &Span) -> Number
    ensures { result ≡ mask span.now }
{
    if span.end <= span.start {
        0
    } else if span.end <= 128 {
        ones(span.end) - ones(span.start)
    } else {
        Number::MAX
    }
}
