//! Why no map and no session is opened. What is refused is judged once more for this.

use rdl_edit::map::{Map, Resumed};
use rdl_edit::resume_fault::{ResumeFault, Where};
use rdl_explain_map::explain::{explain_map, explain_text};
use rdl_explain_map::session::{SessionFault, Step, explain_session};
use rdl_parse::fault::{ParseFault, ParseFaultKind};
use rdl_parse::parse::parse;
use rdl_session::parse::{Session, parse_session};
use rdl_session::source::split_source;
use rdl_text::fault::WordFault;
use rdl_text::name::Name;
use rdl_tree::description::Description;
use rdl_tree::fault::Fault;
use std::alloc::{AllocError, Global};
use std::str;

fn copied(alloc: Global, name: Option<&Name>) -> Result<Option<Name>, AllocError> {
    match name {
        Some(name) => Ok(Some(name.try_copy(alloc)?)),
        None => Ok(None),
    }
}

fn text_of(name: Option<&Name>) -> Option<&str> {
    match name {
        Some(name) => Some(name.as_str()),
        None => None,
    }
}

/// The description that a text spells.
fn description_of(alloc: Global, text: &str) -> Result<Description, ParseFault> {
    let (description, _places) = parse(alloc, text)?;
    Ok(description)
}

/// The fault of a description, if it has one.
fn fault_of(alloc: Global, description: Description, top: Option<Name>) -> Option<Fault> {
    match Map::open(alloc, description, top) {
        Ok(_map) => None,
        Err(fault) => Some(fault),
    }
}

/// What is told of a text that may spell a map.
fn of_text(
    alloc: Global,
    file: &str,
    text: &str,
    top: Option<&Name>,
) -> Result<String, AllocError> {
    let description = match description_of(alloc, text) {
        Ok(description) => description,
        Err(fault) => return explain_text(alloc, file, text.as_bytes(), fault),
    };
    match fault_of(alloc, description, copied(alloc, top)?) {
        Some(fault) => explain_map(alloc, file, text.as_bytes(), text_of(top), &fault),
        None => Ok(String::new(alloc)),
    }
}

fn of_map(
    alloc: Global,
    file: &str,
    bytes: &[u8],
    top: Option<&Name>,
) -> Result<String, AllocError> {
    match str::from_utf8(bytes) {
        Ok(text) => of_text(alloc, file, text, top),
        Err(error) => {
            let fault = ParseFault {
                kind: ParseFaultKind::Words(WordFault::BadCharacter),
                offset: error.valid_up_to(),
            };
            explain_text(alloc, file, bytes, fault)
        }
    }
}

/// The session of the bytes, if they are one.
fn session_of(alloc: Global, bytes: &[u8]) -> Option<Session> {
    let text = str::from_utf8(bytes).ok()?;
    match parse_session(alloc, text) {
        Ok(session) => Some(session),
        Err(_) => None,
    }
}

/// Why a session isn't gone on with, if it isn't.
fn resume_fault(alloc: Global, session: Session, top: Option<Name>) -> Option<ResumeFault> {
    match Map::resume(alloc, session.map, top, session.undo, session.redo) {
        Ok(
            Resumed {
                map: _map,
                undo: _undo,
                redo: _redo,
            },
        ) => None,
        Err(fault) => Some(fault),
    }
}

fn step_of(place: Where) -> Step {
    match place {
        Where::Map => Step::Map,
        Where::Undo(number) => Step::Undo(number),
        Where::Redo(number) => Step::Redo(number),
    }
}

fn of_session(
    alloc: Global,
    file: &str,
    bytes: &[u8],
    top: Option<&Name>,
) -> Result<String, AllocError> {
    let Some(session) = session_of(alloc, bytes) else {
        return explain_session(alloc, file, bytes, text_of(top), SessionFault::NotASession);
    };
    let Some(fault) = resume_fault(alloc, session, copied(alloc, top)?) else {
        return Ok(String::new(alloc));
    };
    match &fault {
        ResumeFault::PatchMisfits(place) => {
            let misfit = SessionFault::Misfits(step_of(*place));
            explain_session(alloc, file, bytes, text_of(top), misfit)
        }
        ResumeFault::MapFaulty(place, fault) => {
            let faulty = SessionFault::Faulty(step_of(*place), fault);
            explain_session(alloc, file, bytes, text_of(top), faulty)
        }
        ResumeFault::Memory => Err(AllocError),
    }
}

/// Explains why the bytes of a file open no map and no session. Of a session that keeps a source the lines are counted behind that.
pub(crate) fn explain_opening(
    alloc: Global,
    file: &str,
    bytes: &[u8],
    top: Option<&Name>,
) -> Result<String, AllocError> {
    let bytes = match split_source(bytes) {
        Some((_source, session)) => session,
        None => bytes,
    };
    if bytes.starts_with(b"regedit session ") {
        of_session(alloc, file, bytes, top)
    } else {
        of_map(alloc, file, bytes, top)
    }
}
