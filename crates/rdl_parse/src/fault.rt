//! Why a text spells no description.
ghost use Rattle.std.specs.Prelude.{◌≡◌};
ghost use Rattle.rdl_parse.specs.Faults.{parse_fault_number, words_fault, out_of_memory};
ghost use Rattle.rdl_parse.specs.declared.fault.Stop.TheVariants.{Memory};

use rdl_text::fault::{TextFault, WordFault};
use std::alloc::{AllocError, AllocFailed};

/// Why words spell no description, and where: how many words there are from the one at fault on.
#[derive(Clone, Copy, Debug, PartialEq, Eq)]
pub enum Fault {
    Unexpected(usize),
    End,
    TooDeep(usize),
    TooLarge(usize),
}

/// Why reading stops.
#[derive(Clone, Copy, Debug, PartialEq, Eq)]
pub enum Stop {
    Memory,
    Fault(Fault),
}

impl From<AllocError> for Stop {
    ghost from_gives = { λ _ e. e ≡ Memory };

    fn from(_error: AllocError) -> Stop {
        Stop::Memory
    }
}

impl<T: Drop> From<AllocFailed<T>> for Stop {
    ghost from_gives = { λ _ e. e ≡ Memory };

    fn from(_error: AllocFailed<T>) -> Stop {
        Stop::Memory
    }
}

/// What is wrong at a place of a text.
#[derive(Clone, Copy, Debug, PartialEq, Eq)]
pub enum ParseFaultKind {
    /// S1 to S7: the text has no words. S8: no memory.
    Words(WordFault),
    /// S9: no text of the language goes on with the word here.
    UnexpectedWord,
    /// S10: the text ends too early.
    UnexpectedEnd,
    /// S11: a brace where sixteen are open.
    TooDeep,
    /// S12: the `;` of the statement after which the items of finished statements pass a limit.
    TooLarge,
    /// S13: the text has too many bytes.
    TooLong,
}

impl ParseFaultKind {
    /// The number that messages name it by.
    pub fn number(&self) -> u8
        ensures { result ≡ parse_fault_number self.now }
    {
        match self {
            ParseFaultKind::Words(kind) => kind.number(),
            ParseFaultKind::UnexpectedWord => 9,
            ParseFaultKind::UnexpectedEnd => 10,
            ParseFaultKind::TooDeep => 11,
            ParseFaultKind::TooLarge => 12,
            ParseFaultKind::TooLong => 13,
        }
    }
}

/// A fault, and the byte at which it stands: that of the word at fault, the text's end for S10, and 0 for S8 and S13.
#[derive(Clone, Copy, Debug, PartialEq, Eq)]
pub struct ParseFault {
    pub kind: ParseFaultKind,
    pub offset: usize,
}

impl ParseFault {
    pub(crate) const MEMORY: ParseFault = ParseFault {
        kind: ParseFaultKind::Words(WordFault::Memory),
        offset: 0,
    };

    /// The number that messages name it by.
    pub fn number(&self) -> u8
        ensures { result ≡ parse_fault_number self.now.kind }
    {
        self.kind.number()
    }
}

impl From<TextFault> for ParseFault {
    ghost from_gives = { λ fault e. e ≡ words_fault fault };

    fn from(fault: TextFault) -> ParseFault {
        ParseFault {
            kind: ParseFaultKind::Words(fault.kind),
            offset: fault.offset,
        }
    }
}

impl From<AllocError> for ParseFault {
    ghost from_gives = { λ _ e. e ≡ out_of_memory };

    fn from(_error: AllocError) -> ParseFault {
        ParseFault::MEMORY
    }
}
