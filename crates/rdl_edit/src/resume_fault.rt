//! Why a session can't be gone on with.
ghost use Rattle.std.specs.Prelude.{◌≡◌};
ghost use Rattle.rdl_edit.specs.ResumeFault.{resume_fault_number};

use rdl_tree::fault::Fault;

/// Which map of a session is meant: the one that it holds, or the one to which a step leads. Steps count from 1, the next
/// one to be taken.
#[derive(Clone, Copy, Debug, PartialEq, Eq)]
pub enum Where {
    Map,
    Undo(usize),
    Redo(usize),
}

/// Why a session can't be gone on with.
#[derive(Debug, Drop)]
pub enum ResumeFault {
    /// Z2: a patch of the step does not fit where those before it led.
    PatchMisfits(Where),
    /// Z3: the map there has this fault.
    MapFaulty(Where, Fault),
    /// Z5: there is no memory.
    Memory,
}

impl ResumeFault {
    /// The number behind the `Z`.
    pub fn number(&self) -> u8
        ensures { result ≡ resume_fault_number self.now }
    {
        match self {
            ResumeFault::PatchMisfits(_) => 2,
            ResumeFault::MapFaulty(_, _) => 3,
            ResumeFault::Memory => 5,
        }
    }
}
