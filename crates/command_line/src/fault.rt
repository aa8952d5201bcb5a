//! Why words are no command line.
use clap::Error;
use clap::error::ErrorKind;
use std::alloc::AllocError;

/// Why words are no command line, by the words alone.
#[derive(Debug, Drop)]
pub enum WordsFault {
    /// L1: help is asked for. The text of the error is the help.
    Help(Error),
    /// L6: the version is asked for. The text of the error is the program's name and its version.
    Version(Error),
    /// L2: the words are refused. The text of the error says why.
    Refused(Error),
    /// L3: the name of the top is no identifier of at most 255 bytes.
    BadTop,
    /// L4: no memory.
    Memory,
}

impl From<AllocError> for WordsFault {
    ghost use Rattle.command_line.specs.declared.fault.WordsFault.{WordsFault};
    ghost use Rattle.std.specs.Prelude.{◌≡◌};

    ghost from_gives = { λ _ f. f ≡ WordsFault.Memory };

    fn from(_error: AllocError) -> WordsFault {
        WordsFault::Memory
    }
}

impl From<Error> for WordsFault {
    ghost use Rattle.command_line.specs.Kinds.{SaysKind};

    ghost from_gives = { λ error f. SaysKind error f };

    fn from(error: Error) -> WordsFault {
        match error.kind() {
            ErrorKind::DisplayHelp => WordsFault::Help(error),
            ErrorKind::DisplayVersion => WordsFault::Version(error),
            ErrorKind::OutOfMemory => WordsFault::Memory,
            _ => WordsFault::Refused(error),
        }
    }
}
