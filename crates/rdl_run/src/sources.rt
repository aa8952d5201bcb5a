//! The source text that a session may keep, and the map or session itself.
ghost use Rattle.std.specs.Prelude.{◌≡◌, ℕ, List, Some, IfSome, is_some};
ghost use Rattle.std.specs.Option.{option_copied};
ghost use Rattle.rdl_session.specs.Reading.{source_in};
ghost use Rattle.rdl_run.specs.Sources.{kept_source, source_of, without_source};
ghost use Rattle.rdl_weave.specs.Sources.{IsSource};

use crate::open::is_session;
use rdl_session::source::split_source;
use rdl_weave::source::Source;

/// The map or session, without the source text that it keeps.
pub(crate) fn without_source(bytes: &[u8]) -> &[u8]
    ensures { result.now ≡ without_source bytes.now }
{
    match split_source(bytes) {
        Some((_source, session)) => session,
        None => bytes,
    }
}

/// The text of the first map: what a session keeps, or a map itself.
pub(crate) fn source_of(bytes: &[u8]) -> Option<&[u8]>
    ensures { option_copied result ≡ source_of bytes.now }
{
    match split_source(bytes) {
        Some((source, _session)) => Some(source),
        None if is_session(bytes) => None,
        None => Some(bytes),
    }
}

fn keeps_source(bytes: &[u8]) -> bool
    ensures { result ≡ is_some (source_in bytes.now) }
{
    split_source(bytes).is_some()
}

/// What was read of the source text, if that is the map itself. What was read of a session is nothing of its source.
#[tactic(auto, using(crate::proofs::KnownSource::known))]
pub(crate) fn source_read(bytes: &[u8], read: Option<Source>) -> Option<Source>
    requires { IfSome read (IsSource (without_source bytes.now)) }
    ensures { (source : List ℕ) → source_of bytes.now ≡ Some source → IfSome result (IsSource source) }
{
    if keeps_source(bytes) { None } else { read }
}

/// The source text that the session of a run on these bytes is to keep, if it is saved.
pub(crate) fn kept_source(is_saved: bool, is_edited: bool, bytes: &[u8]) -> Option<&[u8]>
    ensures { option_copied result ≡ kept_source is_saved is_edited bytes.now }
{
    if is_saved && (is_edited || keeps_source(bytes)) {
        source_of(bytes)
    } else {
        None
    }
}
