//! Numbers as they are written.
ghost use Rattle.std.specs.Prelude.{◌≡◌, ◌<◌, ◌++◌, true, codes, string_bytes, OnOk};
ghost use Rattle.std.specs.Fmt.{decimal, digits};
ghost use Rattle.rdl_write.specs.Texts.{hexadecimal, newline};

use crate::backwards::{Backwards, glyph};
use itoa::Buffer;
use rdl_text::token::Number;
use std::alloc::AllocError;

/// Appends an upper-case digit.
fn push_digit(text: &mut String, digit: u8) -> Result<(), AllocError>
    requires { digit < 16 }
    ensures { OnOk result (string_bytes text.new ≡ string_bytes text.old ++ digits 16 true digit) }
{
    text.push(char::from(glyph(digit)))?;
    Ok(())
}

/// Appends the upper-case digits of a number of 64 bits.
fn push_short_digits(text: &mut String, number: u64) -> Result<(), AllocError>
    ensures { OnOk result (string_bytes text.new ≡ string_bytes text.old ++ digits 16 true number) }
{
    let mut short = Backwards::new();
    short.put_digits(number);
    text.push_str(short.as_str())
}

/// Appends the upper-case digits of a number. Those past 64 bits go one at a time.
#[tactic(auto, using(crate::proofs::Hexadecimals::digits_are))]
fn push_digits(text: &mut String, number: Number) -> Result<(), AllocError>
    ensures { OnOk result (string_bytes text.new ≡ string_bytes text.old ++ digits 16 true number) }
{
    if number <= Number::from(u64::MAX) {
        return push_short_digits(text, number as u64);
    }
    push_digits(text, number / 16)?;
    push_digit(text, (number % 16) as u8)
}

/// Appends a number as `0x` and upper-case digits, without leading zeros.
pub fn push_hexadecimal(text: &mut String, number: Number) -> Result<(), AllocError>
    ensures { OnOk result (string_bytes text.new ≡ string_bytes text.old ++ hexadecimal number) }
{
    if number > Number::from(u64::MAX) {
        text.push_str("0x")?;
        return push_digits(text, number);
    }
    let mut short = Backwards::new();
    short.put_hexadecimal(number as u64);
    text.push_str(short.as_str())
}

/// Ends a line with a number: appends a space, `0x` and upper-case digits without leading zeros, and the line's end.
pub fn push_hexadecimal_end(text: &mut String, number: Number) -> Result<(), AllocError>
    ensures { OnOk result (string_bytes text.new ≡ string_bytes text.old ++ codes " " ++ hexadecimal number ++ newline) }
{
    if number > Number::from(u64::MAX) {
        text.push_str(" ")?;
        push_hexadecimal(text, number)?;
        return text.push_str("\n");
    }
    let mut short = Backwards::new();
    short.put(b'\n');
    short.put_hexadecimal(number as u64);
    short.put(b' ');
    text.push_str(short.as_str())
}

/// Appends a number as decimal digits.
pub fn push_decimal(text: &mut String, number: Number) -> Result<(), AllocError>
    ensures { OnOk result (string_bytes text.new ≡ string_bytes text.old ++ decimal number) }
{
    text.push_str(Buffer::new().format(number))
}

/// Ends a line with a number: appends a space, decimal digits and the line's end.
pub fn push_decimal_end(text: &mut String, number: Number) -> Result<(), AllocError>
    ensures { OnOk result (string_bytes text.new ≡ string_bytes text.old ++ codes " " ++ decimal number ++ newline) }
{
    text.push(' ')?;
    push_decimal(text, number)?;
    text.push('\n')
}

/// Appends the bits from a low one up to a high one, as `[HIGH:LOW]`.
pub fn push_high_low(text: &mut String, high: u64, low: u64) -> Result<(), AllocError>
    ensures { OnOk result (string_bytes text.new ≡ string_bytes text.old ++ codes "[" ++ decimal high ++ codes ":" ++ decimal low ++ codes "]") }
{
    text.push('[')?;
    push_decimal(text, Number::from(high))?;
    text.push(':')?;
    push_decimal(text, Number::from(low))?;
    text.push(']')
}
