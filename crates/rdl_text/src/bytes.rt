//! Bytes, and runs of them.
ghost use Rattle.std.specs.Prelude.{◌≡◌, ◌≤◌, ◌-◌, ◌+◌, ◌<◌, length, drop, slice_index};
ghost use Rattle.std.specs.List.{prefix_len};
ghost use Rattle.std.specs.Char.{digit_value, is_digit};
ghost use Rattle.rdl_text.specs.Words.{is_blank};
ghost use Rattle.rdl_text.specs.Rows.{run, base_of};
ghost use Rattle.rdl_text.specs.Classes.{class_test};

use crate::name::is_rest;

/// A set of bytes.
#[derive(Clone, Copy)]
pub(crate) enum Class {
    Blank,
    /// The bytes of an identifier behind its first.
    IdentifierRest,
    /// The decimal digits.
    Digit,
    /// The digits in a base, and `_`.
    DigitRest(u8),
}

/// The byte at an index, or 0 past the end.
#[inline]
pub(crate) fn byte_at(bytes: &[u8], index: usize) -> u8
    ensures { result ≡ slice_index bytes.now index }
{
    bytes.get(index).copied().unwrap_or(0)
}

#[inline]
pub(crate) fn is_blank(byte: u8) -> bool
    ensures { result ≡ is_blank byte }
{
    byte == b' ' || (byte > 8 && byte < 14)
}

/// What a digit is worth, up to base 36; 36 for another byte.
#[inline]
pub(crate) fn digit_value(byte: u8) -> u8
    ensures value { result ≡ digit_value byte }
    ensures small { result ≤ 36 }
{
    if byte < b'0' {
        36
    } else if byte < 58 {
        byte - b'0'
    } else if byte < b'A' {
        36
    } else if byte < 91 {
        byte - 55
    } else if byte < b'a' {
        36
    } else if byte < 123 {
        byte - 87
    } else {
        36
    }
}

#[inline]
pub(crate) fn is_digit(byte: u8, base: u8) -> bool
    ensures { result ≡ is_digit byte base }
{
    digit_value(byte) < base
}

/// The base that a letter of a Verilog number names, or 0.
#[inline]
pub(crate) fn base_of(letter: u8) -> u8
    ensures base { result ≡ base_of letter }
    ensures small { result ≤ 16 }
{
    if letter == b'b' || letter == b'B' {
        2
    } else if letter == b'd' || letter == b'D' {
        10
    } else if letter == b'h' || letter == b'H' {
        16
    } else {
        0
    }
}

#[inline]
fn is_in(class: Class, byte: u8) -> bool
    ensures { result ≡ class_test class byte }
{
    match class {
        Class::Blank => is_blank(byte),
        Class::IdentifierRest => is_rest(byte),
        Class::Digit => is_digit(byte, 10),
        Class::DigitRest(base) => is_digit(byte, base) || byte == b'_',
    }
}

#[inline]
fn front_len(bytes: &[u8], class: Class) -> usize
    ensures len { result ≡ prefix_len (class_test class) bytes.now }
    ensures within { result ≤ length bytes.now }
{
    bytes.iter().take_while(|byte| is_in(class, **byte)).count()
}

/// How many bytes in a row, from an index on, are of the class.
#[inline]
pub(crate) fn run_len(bytes: &[u8], from: usize, class: Class) -> usize
    ensures len { result ≡ run (class_test class) from bytes.now }
    ensures within { result ≤ length bytes.now - from }
{
    if from < bytes.len() {
        front_len(&bytes[from..], class)
    } else {
        0
    }
}
