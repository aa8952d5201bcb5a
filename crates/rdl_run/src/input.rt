//! Reading an input whole.
ghost use Rattle.std.specs.Prelude.{◌≡◌, ◌≢◌, true, ◌^◌, ◌<◌, ◌≤◌, ◌+◌, length, Err, IfOk, OnOk, IfSome, IsErrOf};
ghost use Rattle.std.specs.Io.KnownBytes.{IsAtEnd};
ghost use Rattle.rdl_run.specs.Known.{Gives};
ghost use Rattle.rdl_run.specs.Turns.{IsInterrupted, unread};
ghost use Rattle.rdl_run.specs.declared.status.RunFault.{RunFault};

use crate::counted::CountedReader;
use crate::status::{MOST_INTERRUPTS, RunFault};
use std::alloc::Global;
use std::io::Read;

/// All the bytes of a reader that wasn't asked before, up to a limit in bytes. It fails where the reader has more, where a
/// read fails, and where the reader is interrupted for the 1,001st time.
pub fn read_counted<R: Read>(
    alloc: Global,
    input: &mut CountedReader<'_, R>,
    limit: usize,
) -> Result<Vec<u8>, RunFault>
    requires limit { limit < 2 ^ 32 }
    requires fresh { input.old.counts ≡ unread }
    ensures bytes { IfOk result (λ bytes. Gives (R.remaining input.old.reader.now) bytes.items) }
    ensures end { OnOk result (IsAtEnd (R.remaining input.new.reader.now)) }
    ensures bound { IfOk result (λ bytes. length bytes.items ≤ limit) }
    ensures too_long { IsErrOf result RunFault.TooLong → IfSome (R.remaining input.old.reader.now) (λ xs. limit < length xs) }
    ensures no_write { result ≢ Err RunFault.Write }
    ensures failed { IsErrOf result RunFault.Read → input.new.counts.failed ≡ true }
    ensures interrupted { IsErrOf result RunFault.Interrupted → IsInterrupted input.new.counts }
    ensures reads { input.new.counts.reads ≤ limit + 1001 }
    ensures same_reference { input.new.reader.ghost_name ≡ input.old.reader.ghost_name }
{
    let mut bytes = Vec::new(alloc);
    let mut buffer = [0u8; 4096];
    for _turn in 0..limit + MOST_INTERRUPTS + 1 {
        match input.read(&mut buffer) {
            Ok(0) => return Ok(bytes),
            Ok(n) => {
                if n > limit - bytes.len() {
                    return Err(RunFault::TooLong);
                }
                if bytes.extend_from_slice(&buffer[..n]).is_err() {
                    return Err(RunFault::Memory);
                }
            }
            Err(_) => {
                if input.has_failed() {
                    return Err(RunFault::Read);
                }
                if input.interrupts() > MOST_INTERRUPTS {
                    return Err(RunFault::Interrupted);
                }
            }
        }
    }
    unreachable!()
}
