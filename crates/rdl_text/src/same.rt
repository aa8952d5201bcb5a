//! Whether two short texts are the same.
ghost use Rattle.std.specs.Prelude.{◌≡◌, bytes_eq};

fn are_same(first: &[u8], second: &[u8]) -> bool
    ensures { result ≡ bytes_eq first.now second.now }
{
    if first.last() != second.last() {
        return false;
    }
    let mut rest = second;
    for byte in first {
        let Some((next, behind)) = rest.split_first() else {
            return false;
        };
        if byte != next {
            return false;
        }
        rest = behind;
    }
    rest.is_empty()
}

/// Whether two texts have the same bytes. It looks at the last byte, which tells names apart that end in a number, and
/// then at one byte after another, which for names of a few bytes takes less than `==` does.
#[inline]
pub fn is_same(first: &str, second: &str) -> bool
    ensures { result ≡ bytes_eq first.now second.now }
{
    are_same(first.as_bytes(), second.as_bytes())
}
