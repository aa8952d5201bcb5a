//! What is said of a session.
ghost use Rattle.std.specs.Prelude.{◌≡◌, ◌++◌, string_bytes, IfOk, OnOk};
ghost use Rattle.rdl_run.specs.Messages.{session_line, unread_text, unresumed_text, unwritten_text, where_text};

use crate::reply::fault_text;
use rdl_edit::resume_fault::{ResumeFault, Where};
use rdl_session::fault::{SessionReadFault, SessionWriteFault};
use std::alloc::{AllocError, Global};

/// Which map of a session is meant.
fn push_where(text: &mut String, place: Where) -> Result<(), AllocError>
    ensures { OnOk result (string_bytes text.new ≡ string_bytes text.old ++ where_text place) }
{
    match place {
        Where::Map => text.push_str("map"),
        Where::Undo(number) => write!(text, "undo {number}"),
        Where::Redo(number) => write!(text, "redo {number}"),
    }
}

#[tactic(auto, unfolding(crate::specs::Messages::unresumed_text))]
fn push_unresumed(text: &mut String, fault: &ResumeFault) -> Result<(), AllocError>
    ensures { OnOk result (string_bytes text.new ≡ string_bytes text.old ++ unresumed_text fault.now) }
{
    match fault {
        ResumeFault::PatchMisfits(place) => {
            text.push_str("Z2 a patch does not fit at ")?;
            push_where(text, *place)?;
            Ok(())
        }
        ResumeFault::MapFaulty(place, fault) => {
            text.push_str("Z3 a place does not elaborate at ")?;
            push_where(text, *place)?;
            write!(
                text,
                ": {} at item {}",
                fault_text(fault.kind),
                fault.address
            )
        }
        ResumeFault::Memory => Ok(()),
    }
}

/// The message of a session that isn't gone on with.
#[tactic(auto, unfolding(crate::specs::Messages::session_line))]
pub(crate) fn unresumed_line(alloc: Global, fault: &ResumeFault) -> Result<String, AllocError>
    ensures { IfOk result (λ text. string_bytes text ≡ session_line (unresumed_text fault.now)) }
{
    let mut text = String::from_str(alloc, "session: ")?;
    push_unresumed(&mut text, fault)?;
    text.push_str("\n")?;
    Ok(text)
}

#[tactic(auto, unfolding(crate::specs::Messages::session_line))]
fn session_line(alloc: Global, what: &str) -> Result<String, AllocError>
    ensures { IfOk result (λ text. string_bytes text ≡ session_line what.now) }
{
    let mut text = String::from_str(alloc, "session: ")?;
    text.push_str(what)?;
    text.push_str("\n")?;
    Ok(text)
}

#[tactic(auto, unfolding(crate::specs::Messages::unread_text))]
fn unread_text(fault: &SessionReadFault) -> &'static str
    ensures { result.now ≡ unread_text fault.now }
{
    match fault {
        SessionReadFault::NotASession => "Z1 not a session",
        SessionReadFault::Memory => "",
    }
}

/// The message of a text that isn't read as a session.
pub(crate) fn unread_line(alloc: Global, fault: &SessionReadFault) -> Result<String, AllocError>
    ensures { IfOk result (λ text. string_bytes text ≡ session_line (unread_text fault.now)) }
{
    session_line(alloc, unread_text(fault))
}

#[tactic(auto, unfolding(crate::specs::Messages::unwritten_text))]
fn unwritten_text(fault: &SessionWriteFault) -> &'static str
    ensures { result.now ≡ unwritten_text fault.now }
{
    match fault {
        SessionWriteFault::TooLong => "Z4 session too long",
        SessionWriteFault::Memory => "",
    }
}

/// The message of a session that isn't written.
pub(crate) fn unwritten_line(alloc: Global, fault: &SessionWriteFault) -> Result<String, AllocError>
    ensures { IfOk result (λ text. string_bytes text ≡ session_line (unwritten_text fault.now)) }
{
    session_line(alloc, unwritten_text(fault))
}
