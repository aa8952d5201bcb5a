//! Sessions that aren't read, gone on with or written: Z1 to Z4.

use crate::fault::fault_telling;
use crate::fixed;
use crate::session_form::break_of;
use crate::stretch::{Stretch, trimmed_len};
use crate::telling::{Telling, told};
use crate::text_fault::line_around;
use crate::view::{Standing, View};
use rdl_parse::parse::parse;
use rdl_tree::description::Description;
use rdl_tree::fault::{Fault, FaultKind};
use std::alloc::{AllocError, Global};
use std::{fmt, str};

/// Which map of a session is meant.
#[derive(Clone, Copy, Debug, PartialEq, Eq)]
pub enum Step {
    Map,
    /// 1 for the next one.
    Undo(usize),
    /// 1 for the next one.
    Redo(usize),
}

/// Why a session isn't read, gone on with or written.
#[derive(Debug, Drop)]
pub enum SessionFault<'a> {
    /// Z1.
    NotASession,
    /// Z2: a patch doesn't fit.
    Misfits(Step),
    /// Z3: the map there has this fault.
    Faulty(Step, &'a Fault),
    /// Z4.
    TooLong,
}

impl fmt::Display for Step {
    fn fmt<W: fmt::Write>(&self, f: &mut fmt::Formatter<W>) -> fmt::Result {
        match self {
            Step::Map => f.write_str("map"),
            Step::Undo(number) => write!(f, "undo {number}"),
            Step::Redo(number) => write!(f, "redo {number}"),
        }
    }
}

const BY_HAND: &str = "take the file that a run has written, whole, and don't change it by hand";

/// Explains why the session of these bytes is refused, or isn't written.
pub fn explain_session(
    alloc: Global,
    file: &str,
    bytes: &[u8],
    top: Option<&str>,
    fault: SessionFault<'_>,
) -> Result<String, AllocError> {
    let mut offset = 0;
    let mut telling = Telling::new(alloc, Stretch::new(0, 0), title(&fault))?;
    match fault {
        SessionFault::NotASession => {
            if let Some(found) = break_of(alloc, bytes)? {
                offset = found.offset;
                write!(telling.what, ": {}", found.wanted)?;
            }
            telling.note(BY_HAND)?;
        }
        SessionFault::Misfits(step) => {
            write!(telling.what, " at {step}")?;
            telling.note(BY_HAND)?;
        }
        SessionFault::Faulty(step, fault) => {
            write!(telling.what, " at {step}: ")?;
            push_faulty(alloc, &mut telling, bytes, top, step, fault)?;
        }
        SessionFault::TooLong => {
            telling.note(
                "a smaller `--history` keeps fewer steps; or begin anew with the edited map as MAP",
            )?;
        }
    }
    let line = line_around(bytes, offset);
    telling.mark = Stretch::new(0, trimmed_len(line.bytes));
    told(alloc, file, line.number, line.bytes, &telling)
}

fn title(fault: &SessionFault<'_>) -> &'static str {
    match fault {
        SessionFault::NotASession => "Z1 not a session",
        SessionFault::Misfits(_) => "Z2 a patch does not fit",
        SessionFault::Faulty(..) => "Z3 a place does not elaborate",
        SessionFault::TooLong => "Z4 session too long",
    }
}

/// The text of the map in a session: what stands behind its second line.
fn map_text(bytes: &[u8]) -> Option<&str> {
    let mut feeds = 0usize;
    for (at, byte) in bytes.iter().enumerate() {
        if *byte == b'\n' {
            feeds = feeds.saturating_add(1);
        }
        if feeds == 2 {
            let line = line_around(bytes, at);
            let (_, count) = str::from_utf8(line.bytes).ok()?.split_once(' ')?;
            let count = count.parse::<usize>().ok()?;
            let start = at.saturating_add(1);
            return str::from_utf8(bytes.get(start..start.saturating_add(count))?).ok();
        }
    }
    None
}

fn push_faulty(
    alloc: Global,
    telling: &mut Telling,
    bytes: &[u8],
    top: Option<&str>,
    step: Step,
    fault: &Fault,
) -> Result<(), AllocError> {
    if fault.kind == FaultKind::NoTop {
        telling.what.push_str(fixed::fault(fault.kind))?;
        return telling.note("give the `--top` of the run that wrote the session");
    }
    let text = match step {
        Step::Map => map_text(bytes),
        Step::Undo(_) | Step::Redo(_) => None,
    };
    match text {
        Some(text) => push_map_fault(alloc, telling, text, top, fault)?,
        None => telling.what.push_str(fixed::fault(fault.kind))?,
    }
    telling.note(BY_HAND)
}

/// Appends what is told of a fault of the map that the text spells.
fn push_map_fault(
    alloc: Global,
    telling: &mut Telling,
    text: &str,
    top: Option<&str>,
    fault: &Fault,
) -> Result<(), AllocError> {
    let Ok((description, _places)) = parse(alloc, text) else {
        return telling.what.push_str(fixed::fault(fault.kind));
    };
    let inner = told_of(alloc, &description, top, fault)?;
    telling.what.push_str(inner.what.as_str())
}

fn told_of<'a>(
    alloc: Global,
    description: &'a Description,
    top: Option<&'a str>,
    fault: &Fault,
) -> Result<Telling, AllocError> {
    let view = View {
        alloc,
        file: "",
        description,
        top,
        standing: Standing::Nowhere,
    };
    fault_telling(view, fault)
}
