//! The session of a run as it goes out: with the source text that it keeps, if it keeps one.
ghost use Rattle.std.specs.Prelude.{◌≡◌, IfOk, IsOkUnless};
ghost use Rattle.rdl_run.specs.Saved.{IsKept};
ghost use Rattle.rdl_run.specs.Sources.{kept_source};
ghost use Rattle.rdl_run.specs.declared.status.RunFault.{RunFault};

use crate::sources::kept_source;
use crate::status::RunFault;
use rdl_session::fault::SessionWriteFault;
use rdl_session::source::with_source;
use std::alloc::Global;
use std::str;

/// What is said where a session goes out without the source text that it is to keep.
pub const WITHOUT_SOURCE: &str = "K4 session without its source text";

/// How a session goes out.
#[derive(Debug, Drop)]
pub enum Saved {
    /// As it is: it keeps no source text.
    Plain,
    /// As this text, in which the source text stands in front of it.
    WithSource(String),
    /// As it is, for with the source text that it is to keep it would be too long.
    WithoutSource,
}

/// How the session of a run on these bytes goes out, if it is saved.
pub(crate) fn saved_part(
    alloc: Global,
    bytes: &[u8],
    session: &str,
    is_saved: bool,
    is_edited: bool,
) -> Result<Saved, RunFault>
    ensures kept { IfOk result (IsKept (kept_source is_saved is_edited bytes.now) session.now) }
    ensures fault { IsOkUnless result RunFault.Memory }
{
    let Some(source) = kept_source(is_saved, is_edited, bytes) else {
        return Ok(Saved::Plain);
    };
    let Ok(source) = str::from_utf8(source) else {
        return Ok(Saved::WithoutSource);
    };
    match with_source(alloc, source, session) {
        Ok(text) => Ok(Saved::WithSource(text)),
        Err(SessionWriteFault::TooLong) => Ok(Saved::WithoutSource),
        Err(SessionWriteFault::Memory) => Err(RunFault::Memory),
    }
}
