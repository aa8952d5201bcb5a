//! Where the key of a dynamic assignment is found.
ghost use Rattle.std.specs.Prelude.{◌≡◌, slice_get, bytes_eq};
ghost use Rattle.std.specs.Cmp.Lexicographic.{pointwise};
ghost use Rattle.rdl_scope.specs.KeySpot.{key_front, key_spot, spot_in, is_of, names};

use crate::entry::{Spot, slot_of};
use crate::front::assigned_front;
use rdl_text::name::Name;
use rdl_tree::target::Target;

/// The names that count of a dynamic assignment: its target's and its property's.
#[derive(Drop)]
pub(crate) struct Key<'a> {
    pub(crate) target: &'a Target,
    pub(crate) name: &'a Name,
}

/// A number by which two keys are mostly told apart.
pub(crate) fn front_of(key: &Key) -> u64
    ensures { result ≡ key_front (names key.now) }
{
    assigned_front(key.target.names(), key.name)
}

fn are_same(names: &[Name], others: &[Name]) -> bool
    ensures { result ≡ pointwise bytes_eq names.now others.now }
{
    names == others
}

/// Whether the two keys have the same names.
fn is_same_key(key: &Key, other: &Key) -> bool
    ensures { result ≡ is_of (names other.now) key.now }
{
    key.name == other.name && are_same(key.target.names(), other.target.names())
}

/// Where a key is found whose slot leads to the first key of this number.
fn spot_in(firsts: &[Key], number: usize, key: &Key) -> Spot
    ensures { result ≡ spot_in (names key.now) number (slice_get firsts.now number) }
{
    let Some(first) = firsts.get(number) else {
        return Spot::Other;
    };
    if is_same_key(first, key) {
        Spot::Own(number)
    } else {
        Spot::Other
    }
}

/// Where the key of this front is found. A slot has 0 or one more than the number of a first key.
pub(crate) fn spot_of(slots: &[u32], firsts: &[Key], front: u64, key: &Key) -> Spot
    requires { front ≡ key_front (names key.now) }
    ensures { result ≡ key_spot slots.now firsts.now (names key.now) }
{
    let slot = slot_of(front, slots.len());
    let Some(number) = slots.get(slot) else {
        return Spot::Other;
    };
    if *number == 0 {
        return Spot::Free(slot);
    }
    spot_in(firsts, (*number - 1) as usize, key)
}
