//! How a run ends.
use std::alloc::AllocError;
use thiserror::Error;

/// How a run ended that wrote its whole output.
#[derive(Clone, Copy, Debug, PartialEq, Eq, Drop)]
pub enum Status {
    /// Every line of the script was accepted.
    Accepted,
    /// Some line was refused.
    LineRefused,
    /// The map or the session was refused.
    MapRefused,
    /// A text is missing that was asked for, whether or not a line was refused too.
    Incomplete(Missing),
}

/// Which texts are missing.
#[derive(Clone, Copy, Debug, PartialEq, Eq, Drop)]
pub enum Missing {
    /// The header, of which two macros have one name.
    Header,
    /// The session, which is too long.
    Session,
    Both,
}

impl Status {
    ghost use Rattle.std.specs.Prelude.{◌≡◌};
    ghost use Rattle.rdl_run.specs.Missing.{has_map, has_header, has_session};

    /// Whether there is a map to write.
    pub fn has_map(self) -> bool
        ensures { result ≡ has_map self }
    {
        self != Status::MapRefused
    }

    /// Whether there is a header to write.
    pub fn has_header(self) -> bool
        ensures { result ≡ has_header self }
    {
        !matches!(
            self,
            Status::MapRefused | Status::Incomplete(Missing::Header | Missing::Both)
        )
    }

    /// Whether there is a session to write, if one is asked for.
    pub fn has_session(self) -> bool
        ensures { result ≡ has_session self }
    {
        !matches!(
            self,
            Status::MapRefused | Status::Incomplete(Missing::Session | Missing::Both)
        )
    }
}

/// Why a run stopped. Its text has no name of a program before it.
#[derive(Clone, Copy, Debug, PartialEq, Eq, Drop, Error)]
pub enum RunFault {
    #[error("read fault")]
    Read,
    #[error("write fault")]
    Write,
    #[error("out of memory")]
    Memory,
    #[error("input too long")]
    TooLong,
    #[error("reader does not end")]
    Interrupted,
}

impl From<AllocError> for RunFault {
    ghost use Rattle.rdl_run.specs.declared.status.RunFault.{RunFault};
    ghost use Rattle.std.specs.Prelude.{◌≡◌};

    ghost from_gives = { λ _ f. f ≡ RunFault.Memory };

    fn from(_error: AllocError) -> RunFault {
        RunFault::Memory
    }
}

/// How often one input or output may be interrupted.
pub const MOST_INTERRUPTS: usize = 1_000;
