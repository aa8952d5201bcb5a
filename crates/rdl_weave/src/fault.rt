//! Why there is no woven text.
ghost use Rattle.std.specs.Prelude.{◌≡◌};
ghost use Rattle.rdl_weave.specs.declared.fault.WeaveFault.TheVariants as weaving;

use std::alloc::{AllocError, AllocFailed};

/// Why there is no woven text.
#[derive(Clone, Copy, Debug, PartialEq, Eq)]
pub enum WeaveFault {
    /// K1: the text would be too long.
    TooLong,
    /// K2: the edits don't lead from the map of the source text to the last one, or no text was found that shows both.
    NotWoven,
    /// There is no memory.
    Memory,
}

impl From<AllocError> for WeaveFault {
    ghost from_gives = { λ _ e. e ≡ weaving.Memory };

    fn from(_error: AllocError) -> WeaveFault {
        WeaveFault::Memory
    }
}

impl<T: Drop> From<AllocFailed<T>> for WeaveFault {
    ghost from_gives = { λ _ e. e ≡ weaving.Memory };

    fn from(_error: AllocFailed<T>) -> WeaveFault {
        WeaveFault::Memory
    }
}
