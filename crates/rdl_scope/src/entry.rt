//! What stands under one name, and where it is found.
ghost use Rattle.std.specs.Prelude.{◌≡◌};
ghost use Rattle.rdl_scope.specs.Front;
ghost use Rattle.rdl_scope.specs.Spot.{slot_of, spot};

use rdl_text::is_same;

/// A name and what stands under it, which is nothing once it has been taken away.
#[derive(Drop)]
pub(crate) struct Entry<'a, V> {
    pub(crate) front: u64,
    pub(crate) name: &'a str,
    pub(crate) value: Option<V>,
}

/// Where what stands under a name is found.
#[derive(Clone, Copy)]
pub(crate) enum Spot {
    /// Nothing stands under it, and this slot is its own to take.
    Free(usize),
    /// In the entry of this number.
    Own(usize),
    /// Among the names whose slots others have.
    Other,
}

/// The slot of a name of this front, of so many.
#[tactic(auto, unfolding(crate::specs::Spot::slot_of))]
pub(crate) fn slot_of(front: u64, count: usize) -> usize
    ensures { result ≡ slot_of front count }
{
    let mixed = front.wrapping_mul(0xAE07_CFEF_2782_AB35) >> 32;
    (mixed.wrapping_mul(count as u64) >> 32) as usize
}

/// Where what stands under the name of this front is found. A slot has 0 or one more than the number of an entry.
pub(crate) fn spot_of<'a, V>(
    slots: &[u32],
    entries: &[Entry<'a, V>],
    front: u64,
    name: &str,
) -> Spot
    requires { front ≡ Front.front name.now }
    ensures { result ≡ spot slots.now entries.now name.now }
{
    let slot = slot_of(front, slots.len());
    let Some(number) = slots.get(slot) else {
        return Spot::Other;
    };
    if *number == 0 {
        return Spot::Free(slot);
    }
    let number = (*number - 1) as usize;
    match entries.get(number) {
        Some(entry) if entry.front == front && is_same(entry.name, name) => Spot::Own(number),
        _ => Spot::Other,
    }
}
