//! The message of a map that is refused.
ghost use Rattle.std.specs.Prelude.{◌≡◌, IfOk};
ghost use Rattle.rdl_run.specs.Fronts.{from_colon, with_front};

use std::alloc::{AllocError, Global};

fn from_colon(bytes: &[u8]) -> &[u8]
    ensures { result.now ≡ from_colon bytes.now }
{
    for (i, byte) in bytes.iter().enumerate() {
        if *byte == b':' {
            return &bytes[i..];
        }
    }
    &[]
}

/// The message with this word in the place of what stands before its first colon.
pub(crate) fn with_front(alloc: Global, word: &str, message: &str) -> Result<Vec<u8>, AllocError>
    ensures { IfOk result (λ text. text.items ≡ with_front word.now message.now) }
{
    let mut text = Vec::from_slice(alloc, word.as_bytes())?;
    text.extend_from_slice(from_colon(message.as_bytes()))?;
    Ok(text)
}
