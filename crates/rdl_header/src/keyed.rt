//! Hashers with a key.
use crate::mark::mark;
use std::hash::{BuildHasher, DefaultHasher, Hasher};

/// Makes hashers that have read the digest of a text first. Who chooses names in the text changes the digest, and with it what
/// all names hash to.
#[derive(Clone, Copy, Drop)]
pub(crate) struct Keyed {
    begun: DefaultHasher,
}

impl Keyed {
    /// Keyed by this text.
    pub(crate) fn by(text: &str) -> Keyed {
        let mut begun = DefaultHasher::new();
        begun.write_u64(mark(text.as_bytes()));
        Keyed { begun }
    }
}

impl BuildHasher for Keyed {
    type Hasher = DefaultHasher;

    ghost build_hasher = { λ keyed. keyed.begun };

    fn build_hasher(&self) -> DefaultHasher {
        self.begun
    }
}
