//! A session that keeps, in front of it, the text of its first map as it was written.
ghost use Rattle.std.specs.Prelude.{◌≡◌, ◌++◌, ◌≤◌, codes, option_map, string_bytes, string_len, IfOk, IfErr};
ghost use Rattle.rdl_session.specs.Reading.{begins_session, source_in};
ghost use Rattle.rdl_session.specs.Text.{with_source, max_session};
ghost use Rattle.rdl_session.specs.Written.{Stops};

use crate::MAX_LEN;
use crate::fault::SessionWriteFault;
use crate::lines::{count, is};
use crate::parts::{cut, taken};
use crate::write::push_count;
use std::alloc::Global;

/// Whether the bytes begin with the line of a session without a source.
fn begins_session(bytes: &[u8]) -> bool
    ensures { result ≡ begins_session bytes.now }
{
    bytes.starts_with(b"regedit session 1\n")
}

/// The source text with which the bytes begin, and the session behind it, if they begin with one.
#[tactic(auto, unfolding(crate::specs::Reading::source_in))]
pub fn split_source(bytes: &[u8]) -> Option<(&[u8], &[u8])>
    ensures { option_map (λ p. (p.0.now, p.1.now)) result ≡ source_in bytes.now }
{
    let (line, rest) = cut(bytes, b'\n')?;
    if !is(line, "regedit session 2") {
        return None;
    }
    let (count, rest) = count(rest, "source")?;
    let (source, session) = taken(rest, count)?;
    if begins_session(session) {
        Some((source, session))
    } else {
        None
    }
}

/// The text of a session with this source text in front.
#[tactic(auto, unfolding(crate::specs::Text::with_source, crate::specs::Text::counted))]
pub fn with_source(alloc: Global, source: &str, session: &str) -> Result<String, SessionWriteFault>
    ensures ok { IfOk result (λ text. string_bytes text ≡ with_source source.now session.now) }
    ensures short { IfOk result (λ text. string_len text ≤ max_session) }
    ensures err { IfErr result (λ fault. Stops fault (with_source source.now session.now)) }
{
    let mut text = String::from_str(alloc, "regedit session 2\n")?;
    push_count(&mut text, "source", source.len())?;
    text.push_str(source)?;
    text.push_str(session)?;
    if text.len() > MAX_LEN {
        return Err(SessionWriteFault::TooLong);
    }
    Ok(text)
}
