//! Lines and columns.
ghost use Rattle.std.specs.Prelude.{◌≡◌, ◌≤◌, ◌+◌, min, length, take, nat_eq, not, reverse};
ghost use Rattle.std.specs.List.{prefix_len, count_by};
ghost use Rattle.rdl_text.specs.Place.{line, column};

/// The line and the column of a byte of a text, both counted from 1; a column counts bytes. A byte past the end counts as
/// the end.
pub fn place(text: &str, offset: usize) -> (usize, usize)
    ensures line { result.0 ≡ line text.now offset }
    ensures column { result.1 ≡ column text.now offset }
{
    byte_place(text.as_bytes(), offset)
}

/// The same of bytes that need not be a text.
pub fn byte_place(bytes: &[u8], offset: usize) -> (usize, usize)
    ensures line { result.0 ≡ line bytes.now offset }
    ensures column { result.1 ≡ column bytes.now offset }
{
    let before = if offset < bytes.len() {
        &bytes[..offset]
    } else {
        bytes
    };
    (1 + line_feeds(before), 1 + since_line_feed(before))
}

fn line_feeds(bytes: &[u8]) -> usize
    ensures count { result ≡ count_by (λ c. nat_eq c 10) bytes.now }
    ensures within { result ≤ length bytes.now }
{
    bytes.iter().filter(|byte| **byte == b'\n').count()
}

fn since_line_feed(bytes: &[u8]) -> usize
    ensures count { result ≡ prefix_len (λ c. not (nat_eq c 10)) (reverse bytes.now) }
    ensures within { result ≤ length bytes.now }
{
    bytes
        .iter()
        .rev()
        .take_while(|byte| **byte != b'\n')
        .count()
}
