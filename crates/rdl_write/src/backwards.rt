//! A short text that is put from its end on.
ghost use Rattle.std.specs.Prelude.{◌≡◌, ◌+◌, ◌<◌, ◌≤◌, [], ◌∷◌, ◌++◌, true, length, codes};
ghost use Rattle.std.specs.Fmt.{digit_glyph, digits};
ghost use Rattle.rdl_write.specs.Texts.{hexadecimal};

use std::marker::Model;
use std::str;

/// How many bytes the text has at most.
const ROOM: usize = 64;

/// A text of at most 64 ASCII bytes. What is put stands before what was put earlier. A contract sees its bytes.
#[derive(Drop)]
pub(crate) struct Backwards {
    bytes: [u8; ROOM],
    start: usize,
}

impl Model for Backwards {
    ghost use Rattle.std.specs.Prelude.{◌≡◌, ◌≤◌, ℕ, List, length, drop, IsAscii};

    ghost Value = { List ℕ };

    ghost view = { λ text. drop text.start text.bytes };

    ghost invariant = { λ text. (text.start ≤ 64) × (length text.bytes ≡ 64) × IsAscii (drop text.start text.bytes) };
}

/// An upper-case digit.
pub(crate) fn glyph(digit: u8) -> u8
    requires { digit < 16 }
    ensures value { result ≡ digit_glyph true digit }
    ensures ascii { result < 128 }
{
    if digit < 10 {
        b'0' + digit
    } else {
        b'A' + (digit - 10)
    }
}

impl Backwards {
    /// No bytes.
    pub(crate) fn new() -> Backwards
        ensures { result ≡ [] }
    {
        Backwards {
            bytes: [0; ROOM],
            start: ROOM,
        }
    }

    /// Puts a byte before the others.
    #[inline(always)]
    pub(crate) fn put(&mut self, byte: u8)
        requires ascii { byte < 128 }
        requires room { length self.old < 64 }
        ensures { self.new ≡ byte ∷ self.old }
    {
        self.start -= 1;
        self.bytes[self.start] = byte;
    }

    /// Puts upper-case digits before the others.
    pub(crate) fn put_digits(&mut self, number: u64)
        requires { length self.old + 16 ≤ 64 }
        ensures { self.new ≡ digits 16 true number ++ self.old }
    {
        let mut left = number;
        'digits: while left >= 16 {
            self.put(glyph((left % 16) as u8));
            left /= 16;
        }
        self.put(glyph(left as u8));
    }

    /// Puts a number as `0x` and upper-case digits before the others.
    pub(crate) fn put_hexadecimal(&mut self, number: u64)
        requires { length self.old + 18 ≤ 64 }
        ensures { self.new ≡ hexadecimal number ++ self.old }
    {
        self.put_digits(number);
        self.put(b'x');
        self.put(b'0');
    }

    /// The text.
    pub(crate) fn as_str(&self) -> &str
        ensures { result.now ≡ self.now }
    {
        str::from_utf8(&self.bytes[self.start..]).unwrap()
    }
}
