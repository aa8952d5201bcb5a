//! Why a session isn't read or written.
ghost use Rattle.std.specs.Prelude.{◌≡◌};
ghost use Rattle.rdl_session.specs.Fault.{read_fault_number, write_fault_number};
ghost use Rattle.rdl_session.specs.declared.fault.SessionWriteFault.TheVariants as writing;

use std::alloc::AllocError;

/// Why a text isn't read as a session.
#[derive(Debug, Drop)]
pub enum SessionReadFault {
    /// Z1: the text is no session.
    NotASession,
    /// Z5: there is no memory.
    Memory,
}

impl SessionReadFault {
    /// The number behind the `Z`.
    pub fn number(&self) -> u8
        ensures { result ≡ read_fault_number self.now }
    {
        match self {
            SessionReadFault::NotASession => 1,
            SessionReadFault::Memory => 5,
        }
    }
}

/// Why a session isn't written.
#[derive(Debug, Drop)]
pub enum SessionWriteFault {
    /// Z4: the text would be too long.
    TooLong,
    /// Z5: there is no memory.
    Memory,
}

impl SessionWriteFault {
    /// The number behind the `Z`.
    pub fn number(&self) -> u8
        ensures { result ≡ write_fault_number self.now }
    {
        match self {
            SessionWriteFault::TooLong => 4,
            SessionWriteFault::Memory => 5,
        }
    }
}

impl From<AllocError> for SessionWriteFault {
    ghost from_gives = { λ _ e. e ≡ writing.Memory };

    fn from(_error: AllocError) -> SessionWriteFault {
        SessionWriteFault::Memory
    }
}
