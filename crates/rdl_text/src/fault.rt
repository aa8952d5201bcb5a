//! Why a text has no words.
ghost use Rattle.std.specs.Prelude.{◌≡◌};
ghost use Rattle.rdl_text.specs.Fault.{fault_number, out_of_memory};

use std::alloc::{AllocError, AllocFailed};

/// What is wrong at a place of a text.
#[derive(Clone, Copy, Debug, PartialEq, Eq)]
pub enum WordFault {
    /// S1: no word, blank or comment begins there.
    BadCharacter,
    /// S2: a comment from `/*` on has no `*/`.
    UnendedComment,
    /// S3: a string has no closing quote.
    UnendedString,
    /// S4: a decimal or hexadecimal number has too many bits.
    NumberTooLarge,
    /// S5: a Verilog number has more bits than its width.
    ValueTooWide,
    /// S6: the width of a Verilog number is 0 or more than the bits of a number.
    WidthOutOfRange,
    /// S7: an identifier has more than 255 bytes.
    IdentifierTooLong,
    /// S8: no memory.
    Memory,
}

impl WordFault {
    /// The number that messages name it by.
    pub fn number(&self) -> u8
        ensures { result ≡ fault_number self.now }
    {
        match self {
            WordFault::BadCharacter => 1,
            WordFault::UnendedComment => 2,
            WordFault::UnendedString => 3,
            WordFault::NumberTooLarge => 4,
            WordFault::ValueTooWide => 5,
            WordFault::WidthOutOfRange => 6,
            WordFault::IdentifierTooLong => 7,
            WordFault::Memory => 8,
        }
    }
}

/// A fault, and the byte at which the word that has it begins; 0 for `Memory`.
#[derive(Clone, Copy, Debug, PartialEq, Eq)]
pub struct TextFault {
    pub kind: WordFault,
    pub offset: usize,
}

impl TextFault {
    /// S8.
    pub(crate) const MEMORY: TextFault = TextFault {
        kind: WordFault::Memory,
        offset: 0,
    };

    /// The number that messages name it by.
    pub fn number(&self) -> u8
        ensures { result ≡ fault_number self.now.kind }
    {
        self.kind.number()
    }
}

impl From<AllocError> for TextFault {
    ghost from_gives = { λ _ f. f ≡ out_of_memory };

    fn from(_error: AllocError) -> TextFault {
        TextFault {
            kind: WordFault::Memory,
            offset: 0,
        }
    }
}

impl<T: Drop> From<AllocFailed<T>> for TextFault {
    ghost from_gives = { λ _ f. f ≡ out_of_memory };

    fn from(_error: AllocFailed<T>) -> TextFault {
        TextFault {
            kind: WordFault::Memory,
            offset: 0,
        }
    }
}
