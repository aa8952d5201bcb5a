//! Names that are seen at once to be different.
ghost use Rattle.std.specs.Prelude.{◌≡◌, true, false, bytes_eq};
ghost use Rattle.std.specs.Cmp.Lexicographic.{pointwise};
ghost use Rattle.rdl_scope.specs.Apart.{last_byte};

use rdl_text::name::Name;

fn last_byte(name: &Name) -> u8
    ensures { result ≡ last_byte name.now }
{
    match name.as_str().as_bytes() {
        [.., last] => *last,
        [] => 0,
    }
}

/// Whether the names differ in length or in their last byte.
fn ends_apart(name: &Name, other: &Name) -> bool
    ensures { result ≡ true → bytes_eq name.now other.now ≡ false }
{
    name.len() != other.len() || last_byte(name) != last_byte(other)
}

/// Whether the first of these names and of the others are seen at once to be different.
pub fn begin_apart(names: &[Name], others: &[Name]) -> bool
    ensures { result ≡ true → pointwise bytes_eq names.now others.now ≡ false }
{
    match names {
        [name, ..] => match others {
            [other, ..] => ends_apart(name, other),
            [] => false,
        },
        [] => false,
    }
}
