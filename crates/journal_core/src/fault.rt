//! Why a call of the history does nothing.

/// Why an edit isn't made.
#[derive(Debug, Drop)]
pub enum EditFault<R> {
    /// As many changes can be undone as the limit allows.
    Full,
    /// The map refuses it.
    Refused(R),
    /// No memory for the history.
    Memory,
}

/// Why nothing is undone or redone.
#[derive(Debug, Clone, Copy, PartialEq, Eq, Drop)]
pub enum StepFault {
    /// There is no such step.
    Nothing,
    /// No memory.
    Memory,
}
