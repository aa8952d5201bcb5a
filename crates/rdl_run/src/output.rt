//! Writing a text whole.
ghost use Rattle.std.specs.Prelude.{◌≡◌, ◌≤◌, ◌+◌, length, OnOk, OnErr, IsOkUnless};
ghost use Rattle.std.specs.Io.KnownBytes.{Appends};
ghost use Rattle.rdl_run.specs.Known.{AppendsFront};
ghost use Rattle.rdl_run.specs.Turns.{HasTaken, IsGivenUp, IsOpen};
ghost use Rattle.rdl_run.specs.declared.status.RunFault.{RunFault};

use crate::counted::{CountedWriter, Outcome};
use crate::status::RunFault;
use std::io::Write;

/// Writes all the bytes. It fails where a write takes nothing, fails, or is interrupted behind 1,000 others on the output.
pub fn write_counted<W: Write>(
    output: &mut CountedWriter<'_, W>,
    bytes: &[u8],
) -> Result<(), RunFault>
    requires asked { IsOpen output.old.counts }
    ensures ok { OnOk result (Appends (W.contents output.old.writer.now) (W.contents output.new.writer.now) bytes.now) }
    ensures err { OnErr result (AppendsFront (W.contents output.old.writer.now) (W.contents output.new.writer.now) bytes.now) }
    ensures fault { IsOkUnless result RunFault.Write }
    ensures ended { OnErr result (IsGivenUp output.new.counts) }
    ensures took { OnOk result (HasTaken output.old.counts output.new.counts (length bytes.now)) }
    ensures takes { output.new.counts.takes ≤ output.old.counts.takes + length bytes.now }
    ensures few { output.new.counts.interrupts ≤ 1000 }
    ensures asked { OnOk result (IsOpen output.new.counts) }
    ensures same_reference { output.new.writer.ghost_name ≡ output.old.writer.ghost_name }
{
    let mut at = 0;
    while at < bytes.len() {
        match output.write(&bytes[at..]) {
            Outcome::Took(n) => at += n,
            Outcome::Interrupted => {}
            Outcome::Refused | Outcome::Exhausted => return Err(RunFault::Write),
        }
    }
    Ok(())
}
