//! The values of numbers.
ghost use Rattle.std.specs.Prelude.{◌≡◌, ℕ, ◌+◌, ◌*◌, ◌^◌, ◌≤◌, ◌<◌, nat_lt, Option, Some, None, IfSome};
ghost use Rattle.rdl_text.specs.Number.{value, in_bits, number_bits};
ghost use Rattle.rdl_text.specs.Words.{number, within, sized};

use crate::bytes::digit_value;
use crate::fault::WordFault;
use crate::token::{Number, TokenKind};

/// A number with one more digit behind it, if its bits suffice.
#[inline]
fn append_digit(value: Number, base: u8, digit: u8) -> Option<Number>
    ensures { result ≡ in_bits (value * base + digit) }
{
    value
        .checked_mul(Number::from(base))?
        .checked_add(Number::from(digit))
}

/// What digits in a base and `_` are worth, if the bits of a number suffice.
fn long_value(base: u8, digits: &[u8]) -> Option<Number>
    requires { 1 ≤ base }
    ensures { result ≡ in_bits (value base digits.now) }
{
    let mut value: Number = 0;
    'digits: for byte in digits {
        if *byte != b'_' {
            value = append_digit(value, base, digit_value(*byte))?;
        }
    }
    Some(value)
}

/// What digits in a base and `_` are worth, if 64 bits suffice.
fn short_value(base: u8, digits: &[u8]) -> Option<u64>
    ensures { IfSome result (λ v. v ≡ value base digits.now) }
{
    let mut value: u64 = 0;
    'digits: for byte in digits {
        if *byte != b'_' {
            value = value
                .checked_mul(u64::from(base))?
                .checked_add(u64::from(digit_value(*byte)))?;
        }
    }
    Some(value)
}

/// What digits in a base and `_` are worth, if the bits of a number suffice.
pub(crate) fn value(base: u8, digits: &[u8]) -> Option<Number>
    requires { 1 ≤ base }
    ensures { result ≡ in_bits (value base digits.now) }
{
    match short_value(base, digits) {
        Some(value) => Some(Number::from(value)),
        None => long_value(base, digits),
    }
}

/// What a number of this value is.
#[inline(always)]
pub(crate) fn number(value: Option<Number>) -> Result<TokenKind, WordFault>
    ensures { (v : ℕ) → value ≡ in_bits v → result ≡ number v }
{
    match value {
        Some(value) => Ok(TokenKind::Number(value)),
        None => Err(WordFault::NumberTooLarge),
    }
}

/// Whether a number has no more bits than this.
fn fits(value: Number, width: Number) -> bool
    requires { width ≤ number_bits }
    ensures { result ≡ nat_lt value (2 ^ width) }
{
    width >= Number::BITS as Number || value < (1 << width)
}

/// What a Verilog number of this value is, in a width that a number may have.
#[tactic(auto, using(crate::proofs::Numbers::past_width))]
fn within(width: Number, value: Option<Number>) -> Result<TokenKind, WordFault>
    requires { width ≤ number_bits }
    ensures { (v : ℕ) → value ≡ in_bits v → result ≡ within width v }
{
    match value {
        Some(value) if fits(value, width) => Ok(TokenKind::Number(value)),
        _ => Err(WordFault::ValueTooWide),
    }
}

/// What a Verilog number of this width and value is.
pub(crate) fn sized(width: Option<Number>, value: Option<Number>) -> Result<TokenKind, WordFault>
    ensures { (w v : ℕ) → width ≡ in_bits w → value ≡ in_bits v → result ≡ sized w v }
{
    match width {
        Some(width) if 0 < width && width <= Number::BITS as Number => within(width, value),
        _ => Err(WordFault::WidthOutOfRange),
    }
}
