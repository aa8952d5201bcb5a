//! Writing a text whole.
ghost use Rattle.std.specs.Prelude.{OnOk, OnErr};
ghost use Rattle.std.specs.Io.KnownBytes.{Appends};
ghost use Rattle.whole_files.specs.Known.{AppendsFront};

use std::io;
use std::io::{ErrorKind, Write};

/// How many interruptions a text bears.
const MOST_INTERRUPTS: u32 = 1_000;

/// Writes all the bytes. It fails where a write takes nothing, fails, or is interrupted after 1,000 others.
pub(crate) fn write_text<W: Write>(writer: &mut W, text: &[u8]) -> io::Result<()>
    ensures ok { OnOk result (Appends (W.contents writer.old) (W.contents writer.new) text.now) }
    ensures err { OnErr result (AppendsFront (W.contents writer.old) (W.contents writer.new) text.now) }
{
    let mut at = 0;
    let mut interrupts = 0;
    while at < text.len() {
        match writer.write(&text[at..]) {
            Ok(0) => return Err(io::Error::from(ErrorKind::WriteZero)),
            Ok(n) => at += n,
            Err(error) if error.kind() != ErrorKind::Interrupted => return Err(error),
            Err(error) if interrupts == MOST_INTERRUPTS => return Err(error),
            Err(_) => interrupts += 1,
        }
    }
    Ok(())
}
