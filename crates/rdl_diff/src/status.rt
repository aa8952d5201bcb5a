//! How a comparison ends.
ghost use Rattle.std.specs.Prelude.{◌≡◌};
ghost use Rattle.rdl_diff.specs.Endings.{status_code, status_of};

/// How a comparison ended that wrote its whole output.
#[derive(Clone, Copy, Debug, PartialEq, Eq, Drop)]
pub enum Status {
    /// Nothing differs.
    Same,
    /// Something does.
    Different,
    /// One of the two maps or sessions was refused.
    MapRefused,
}

/// The status of a comparison that has this text.
pub fn status_of(text: &[u8]) -> Status
    ensures { result ≡ status_of text.now }
{
    match text {
        [] => Status::Same,
        [_, ..] => Status::Different,
    }
}

/// The number with which a program ends whose comparison has this status.
pub fn status_code(status: Status) -> u8
    ensures { result ≡ status_code status }
{
    match status {
        Status::Same => 0,
        Status::Different => 1,
        Status::MapRefused => 2,
    }
}
