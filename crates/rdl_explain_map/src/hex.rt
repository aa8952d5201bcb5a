//! Numbers as explanations spell them.

use rdl_text::token::Number;
use std::fmt;

/// A number in hexadecimal.
#[derive(Clone, Copy)]
pub struct Hex(pub Number);

impl fmt::Display for Hex {
    fn fmt<W: fmt::Write>(&self, f: &mut fmt::Formatter<W>) -> fmt::Result {
        write!(f, "0x{:X}", self.0)
    }
}

/// Bytes from the first to the one before the end.
#[derive(Clone, Copy)]
pub struct ByteRange {
    pub start: Number,
    pub end: Number,
}

impl fmt::Display for ByteRange {
    fn fmt<W: fmt::Write>(&self, f: &mut fmt::Formatter<W>) -> fmt::Result {
        let last = self.end.saturating_sub(1).max(self.start);
        if last == self.start {
            return write!(f, "{}", Hex(last));
        }
        write!(f, "{} to {}", Hex(self.start), Hex(last))
    }
}

/// Bits from the lowest to the one before the end.
#[derive(Clone, Copy)]
pub struct BitRange {
    pub start: Number,
    pub end: Number,
}

impl fmt::Display for BitRange {
    fn fmt<W: fmt::Write>(&self, f: &mut fmt::Formatter<W>) -> fmt::Result {
        let high = self.end.saturating_sub(1).max(self.start);
        write!(f, "[{high}:{}]", self.start)
    }
}
