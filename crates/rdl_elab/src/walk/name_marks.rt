//! A test by which most names are told from those that are looked up.
ghost use Rattle.std.specs.Prelude.{◌≡◌, ◌<◌, slice_index};
ghost use Rattle.rdl_elab.specs.NameMarks.{is_marked, place_of};

/// How many bits there are, as words of 64.
const WORDS: usize = 16;

/// A bit for each of the names that were marked. A name has the bit of its last bytes, which few other names have.
#[derive(Drop)]
pub(crate) struct NameMarks {
    words: [u64; WORDS],
    /// How often a name was marked.
    count: usize,
}

/// The byte of this number, or 0.
fn byte_at(bytes: &[u8], number: usize) -> usize
    ensures value { result ≡ slice_index bytes.now number }
    ensures small { result < 256 }
{
    match bytes.get(number) {
        Some(byte) => usize::from(*byte),
        None => 0,
    }
}

/// The number of the bit of a name of any length.
fn short_place(bytes: &[u8]) -> usize
    ensures { result ≡ place_of bytes.now }
{
    let len = bytes.len();
    let last = byte_at(bytes, len.saturating_sub(1));
    let second = byte_at(bytes, len.saturating_sub(2));
    let third = byte_at(bytes, len.saturating_sub(3));
    (last + 10 * second + 100 * third) % 1024
}

/// The number of the bit of a name. Names that end in other numbers of up to three digits have other bits.
#[inline(always)]
fn place_of(name: &str) -> usize
    ensures { result ≡ place_of name.now }
{
    let bytes = name.as_bytes();
    let len = bytes.len();
    if len < 3 {
        return short_place(bytes);
    }
    let last = usize::from(bytes[len - 1]);
    let second = usize::from(bytes[len - 2]);
    let third = usize::from(bytes[len - 3]);
    (last + 10 * second + 100 * third) % 1024
}

impl NameMarks {
    /// No name is marked.
    pub(crate) fn none() -> NameMarks {
        NameMarks {
            words: [0; WORDS],
            count: 0,
        }
    }

    /// Marks a name.
    pub(crate) fn put(&mut self, name: &str) {
        let place = place_of(name);
        if let Some(word) = self.words.get_mut(place / 64) {
            *word |= 1 << (place % 64);
        }
        self.count = self.count.saturating_add(1);
    }

    /// Whether the name is marked, or another one that has the same bit.
    #[inline(always)]
    pub(crate) fn has(&self, name: &str) -> bool
        ensures { result ≡ is_marked self.now.words name.now }
    {
        let place = place_of(name);
        match self.words.get(place / 64) {
            Some(word) => (*word >> (place % 64)) % 2 == 1,
            None => false,
        }
    }

    /// How often a name was marked.
    pub(crate) fn len(&self) -> usize {
        self.count
    }
}
