//! What a run or a comparison says and writes.
use crate::case::Given;
use rdl_diff::choice::Choice;
use rdl_diff::status::Status as Comparison;
use rdl_run::comparison::compare;
use rdl_run::edited::{Edited, Unwoven};
use rdl_run::run::{Options, Texts, run_texts};
use rdl_run::saved::Saved;
use rdl_run::status::{RunFault, Status};
use rdl_text::name::{Name, NameFault};
use rdl_tree::properties::property;
use std::alloc::{AllocError, Global};

/// How it ended.
#[derive(Clone, Copy, Drop)]
pub enum End {
    Ended(Status),
    Compared(Comparison),
    Stopped(RunFault),
    /// The top that was asked is no name.
    BadTop,
}

/// What it says and writes. A comparison has messages alone.
#[derive(Drop)]
pub struct Found {
    pub end: End,
    pub messages: Vec<u8>,
    pub rdl: Vec<u8>,
    pub header: Vec<u8>,
    pub session: Vec<u8>,
    /// The session as it goes out.
    pub saved: Vec<u8>,
    pub edited: Vec<u8>,
    /// Whether no edited text was made of a map that has a source.
    pub is_unwoven: bool,
    /// Whether the session that goes out leads to another map or another edited text.
    pub goes_astray: bool,
}

/// The name of the top that is asked.
pub fn top_of(alloc: Global, top: Option<&str>) -> Result<Option<Name>, NameFault> {
    match top {
        Some(text) => Ok(Some(Name::new(alloc, text)?)),
        None => Ok(None),
    }
}

/// Whether no edited text was made of a map that has a source.
fn is_unwoven(edited: &Edited) -> bool {
    matches!(
        edited,
        Edited::Missing(Unwoven::TooLong | Unwoven::NotWoven)
    )
}

fn edited_bytes(alloc: Global, edited: Edited) -> Vec<u8> {
    match edited {
        Edited::Woven(text) => text.into_bytes(),
        Edited::NotAsked | Edited::Missing(_) => Vec::new(alloc),
    }
}

/// The session as it goes out.
fn saved_bytes(alloc: Global, session: &str, saved: Saved) -> Result<Vec<u8>, AllocError> {
    match saved {
        Saved::WithSource(text) => Ok(text.into_bytes()),
        Saved::Plain | Saved::WithoutSource => session.as_bytes().to_vec(alloc),
    }
}

/// Whether the session that goes out leads, by an empty script, to the same map and the same edited text.
fn goes_on(alloc: Global, found: &Found, options: &Options) -> Result<bool, RunFault> {
    let mut session = found.saved.as_slice();
    let mut script: &[u8] = b"";
    let mut messages: Vec<u8> = Vec::new(alloc);
    let again = run_texts(alloc, &mut session, &mut script, options, &mut messages)?;
    let edited = edited_bytes(alloc, again.edited);
    Ok(again.rdl.as_bytes() == found.rdl.as_slice() && edited.as_slice() == found.edited.as_slice())
}

fn run_into(
    alloc: Global,
    found: &mut Found,
    mut map: &[u8],
    mut script: &[u8],
    options: &Options,
) -> Result<Status, RunFault> {
    let Texts {
        status,
        rdl,
        header,
        session,
        edited,
        saved,
    } = run_texts(alloc, &mut map, &mut script, options, &mut found.messages)?;
    found.rdl = rdl.into_bytes();
    found.header = header.into_bytes();
    found.saved = saved_bytes(alloc, session.as_str(), saved)?;
    found.session = session.into_bytes();
    found.is_unwoven = is_unwoven(&edited);
    found.edited = edited_bytes(alloc, edited);
    if !found.saved.is_empty() {
        found.goes_astray = !goes_on(alloc, found, options)?;
    }
    Ok(status)
}

fn run_given(
    alloc: Global,
    found: &mut Found,
    map: &str,
    given: &Given,
    top: Option<Name>,
) -> Result<End, RunFault> {
    let options = Options {
        top,
        history: given.history,
        session: true,
        edited: true,
    };
    Ok(End::Ended(run_into(
        alloc,
        found,
        map.as_bytes(),
        given.script.as_bytes(),
        &options,
    )?))
}

fn compare_into(
    alloc: Global,
    found: &mut Found,
    mut old: &[u8],
    mut new: &[u8],
    top: Option<&Name>,
    choice: &Choice,
) -> Result<End, RunFault> {
    Ok(End::Compared(compare(alloc, &mut old, &mut new, top, choice, &mut found.messages)?))
}

/// What is told of two maps. A word that names no property names none to ignore.
fn choice_of(alloc: Global, given: &Given) -> Result<Choice, AllocError> {
    let mut ignored = Vec::new(alloc);
    if let Some(property) = given.ignored.and_then(property) {
        ignored.push(property)?;
    }
    Ok(Choice {
        moves: given.moves,
        severity: given.severity,
        ignored,
        format: given.format,
    })
}

fn compare_given(
    alloc: Global,
    found: &mut Found,
    map: &str,
    new: &str,
    given: &Given,
    top: Option<Name>,
) -> Result<End, RunFault> {
    let choice = choice_of(alloc, given)?;
    compare_into(
        alloc,
        found,
        map.as_bytes(),
        new.as_bytes(),
        top.as_ref(),
        &choice,
    )
}

/// Runs the script on the map, or compares that with the other map.
fn find_into(alloc: Global, found: &mut Found, map: &str, given: &Given) -> End {
    let Ok(top) = top_of(alloc, given.top) else {
        return End::BadTop;
    };
    let end = match given.new {
        Some(new) => compare_given(alloc, found, map, new, given, top),
        None => run_given(alloc, found, map, given, top),
    };
    match end {
        Ok(end) => end,
        Err(fault) => End::Stopped(fault),
    }
}

/// What a run or a comparison of the map says and writes.
pub fn find(alloc: Global, map: &str, given: &Given) -> Found {
    let mut found = Found {
        end: End::BadTop,
        messages: Vec::new(alloc),
        rdl: Vec::new(alloc),
        header: Vec::new(alloc),
        session: Vec::new(alloc),
        saved: Vec::new(alloc),
        edited: Vec::new(alloc),
        is_unwoven: false,
        goes_astray: false,
    };
    found.end = find_into(alloc, &mut found, map, given);
    found
}
