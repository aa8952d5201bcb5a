//! How the instances of an address map are aligned.

/// How the instances of an address map are aligned.
#[derive(Clone, Copy, Debug, PartialEq, Eq)]
pub enum Mode {
    Compact,
    Regalign,
    Fullalign,
}
