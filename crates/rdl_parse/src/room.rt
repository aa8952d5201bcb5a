//! How large a description may be.

/// How many items, and how much weight, there may still be.
#[derive(Clone, Copy, Debug)]
pub struct Room {
    pub items: usize,
    pub weight: u32,
}

/// The room of a whole text.
pub(crate) const WHOLE: Room = Room {
    items: 65_536,
    weight: 8_388_608,
};
