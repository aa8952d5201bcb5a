//! The front of a name, or of an assignment: a number by which two of them are mostly told apart.
ghost use Rattle.std.specs.Prelude.{◌≡◌};
ghost use Rattle.rdl_scope.specs.Front.{front, front_with, assigned_front};

use rdl_text::name::Name;

/// A number that each byte of the name has a part in. By names of one length that differ only near their ends it goes as
/// they go, so that names which are numbered in order come to stand in order.
pub(crate) fn front(name: &str) -> u64
    ensures { result ≡ front name.now }
{
    let mut front = 0u64;
    for byte in name.as_bytes() {
        front = front.wrapping_mul(131).wrapping_add(u64::from(*byte));
    }
    front
}

/// The key of a name: its front, and the name.
pub(crate) fn key_of<'a>(name: &'a str) -> (u64, &'a str)
    ensures front { result.0 ≡ front name.now }
    ensures name { result.1.now ≡ name.now }
{
    (front(name), name)
}

fn front_with(number: u64, name: &Name) -> u64
    ensures { result ≡ front_with number name.now }
{
    number.wrapping_mul(257).wrapping_add(front(name.as_str()))
}

/// A number by which two assignments are mostly told apart.
#[tactic(auto, unfolding(crate::specs::Front::assigned_front))]
pub(crate) fn assigned_front(target: &[Name], property: &Name) -> u64
    ensures { result ≡ assigned_front target.now property.now }
{
    let mut number = 0u64;
    for name in target {
        number = front_with(number, name);
    }
    front_with(number, property)
}
