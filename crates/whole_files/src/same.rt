//! Whether a file holds a text already.
ghost use Rattle.std.specs.Prelude.{IsTrue, IfOk};
ghost use Rattle.whole_files.specs.Known.{Holds};

use std::fs::{File, Files};
use std::io;
use std::io::Read;

/// How many bytes are compared at once.
const BLOCK: usize = 8_192;

/// Whether what is left of a reader is the text.
fn gives_text<F: Read>(reader: &mut F, text: &[u8]) -> io::Result<bool>
    ensures { IfOk result (λ same. IsTrue same → Holds (F.remaining reader.old) text.now) }
{
    let mut block = [0u8; BLOCK];
    let mut at = 0;
    while at < text.len() {
        let count = reader.read(&mut block)?;
        if count == 0 || !text[at..].starts_with(&block[..count]) {
            return Ok(false);
        }
        at += count;
    }
    let count = reader.read(&mut block)?;
    Ok(count == 0)
}

/// Whether the file is known to hold the text.
pub(crate) fn holds<R: Files>(rt: &R, path: &str, text: &[u8]) -> bool {
    match rt.metadata(path) {
        Ok(found) if found.is_file() && found.len() == text.len() as u64 => {}
        _ => return false,
    }
    match File::open(rt, path) {
        Ok(mut file) => gives_text(&mut file, text).unwrap_or(false),
        Err(_) => false,
    }
}
