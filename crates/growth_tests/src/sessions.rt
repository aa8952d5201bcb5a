//! Sessions that are read, written and gone on with. Where memory is wanted, nothing else is said.
ghost use Rattle.std.specs.Prelude.{IfOk};
ghost use Rattle.journal_core.specs.Along.{FitInTurn};
ghost use Rattle.rdl_edit.specs.Backs.{prior, Fits};

use crate::examples::{
    ONE_STEP_BACK, ONE_STEP_LISTED, ONE_STEP_ON, STEP_PAST_REGISTER, TWO_STEPS_BACK,
};
use crate::history::{Step, follow_on};
use crate::{Answer, assert_answered};
use journal_core::journal::Journal;
use rdl_edit::back::Back;
use rdl_edit::map::{Map, Resumed};
use rdl_edit::resume_fault::{ResumeFault, Where};
use rdl_session::fault::{SessionReadFault, SessionWriteFault};
use rdl_session::parse::{Session, parse_session};
use rdl_session::write::session;
use rdl_tree::patch::Patch;
use rdl_write::rdl;
use std::alloc::{AllocError, Global};
use std::process::Abort;

fn place_answer(alloc: Global, place: Where) -> Answer {
    match place {
        Where::Map => String::from_str(alloc, "map"),
        Where::Undo(number) => format!(in alloc; "undo {number}"),
        Where::Redo(number) => format!(in alloc; "redo {number}"),
    }
}

/// Why a text isn't read; Z5 is want of memory.
fn read_fault_answer(alloc: Global, fault: SessionReadFault) -> Answer {
    match fault {
        SessionReadFault::Memory => Err(AllocError),
        other => format!(in alloc; "Z{}", other.number()),
    }
}

/// Why a session isn't written; Z5 is want of memory.
pub(crate) fn write_fault_answer(alloc: Global, fault: SessionWriteFault) -> Answer {
    match fault {
        SessionWriteFault::Memory => Err(AllocError),
        other => format!(in alloc; "Z{}", other.number()),
    }
}

/// Why a session isn't gone on with; Z5 is want of memory.
fn resume_fault_answer(alloc: Global, fault: ResumeFault) -> Answer {
    match fault {
        ResumeFault::PatchMisfits(place) => {
            let place = place_answer(alloc, place)?;
            format!(in alloc; "Z2 at {place}")
        }
        ResumeFault::MapFaulty(place, fault) => {
            let place = place_answer(alloc, place)?;
            let number = fault.kind.number();
            format!(in alloc; "Z3 at {place}: E{number} at {}", fault.address)
        }
        ResumeFault::Memory => Err(AllocError),
    }
}

/// A call that is made of a session's text.
#[derive(Clone, Copy)]
enum Call {
    Read,
    Write,
    Resume,
}

// ---- Reading and writing.

/// How many patches each step has.
fn push_counts(text: &mut String, steps: &[Vec<Patch>]) -> Result<(), AllocError> {
    for step in steps {
        write!(text, " {}", step.len())?;
    }
    Ok(())
}

fn read_answer(alloc: Global, session: &Session) -> Answer {
    let mut text = String::from_str(alloc, "undo")?;
    push_counts(&mut text, session.undo.as_slice())?;
    text.push_str(" redo")?;
    push_counts(&mut text, session.redo.as_slice())?;
    text.push_str(" ")?;
    text.push_str(&rdl(alloc, &session.map)?)?;
    Ok(text)
}

fn slices(alloc: Global, steps: &[Vec<Patch>]) -> Result<Vec<&[Patch]>, AllocError> {
    let mut slices = Vec::new(alloc);
    for step in steps {
        slices.push(step.as_slice())?;
    }
    Ok(slices)
}

fn write_answer(alloc: Global, read: &Session) -> Answer {
    let undo = slices(alloc, read.undo.as_slice())?;
    let redo = slices(alloc, read.redo.as_slice())?;
    match session(alloc, &read.map, undo.as_slice(), redo.as_slice()) {
        Ok(text) => Ok(text),
        Err(fault) => write_fault_answer(alloc, fault),
    }
}

// ---- Going on.

fn resumed(alloc: Global, session: Session) -> Result<Resumed, ResumeFault>
    ensures undo { IfOk result (λ r. FitInTurn prior Fits r.map.state r.undo.items) }
    ensures redo { IfOk result (λ r. FitInTurn prior Fits r.map.state r.redo.items) }
{
    Map::resume(alloc, session.map, None, session.undo, session.redo)
}

/// Whether each step was read, and how many patches it has.
fn push_backs(text: &mut String, backs: &[Back]) -> Result<(), AllocError> {
    for back in backs {
        write!(text, " {} {}", back.read(), back.patches().len())?;
    }
    Ok(())
}

fn resumed_text(alloc: Global, resumed: &Resumed) -> Answer {
    let mut text = String::from_str(alloc, "undo")?;
    push_backs(&mut text, resumed.undo.as_slice())?;
    text.push_str(" redo")?;
    push_backs(&mut text, resumed.redo.as_slice())?;
    text.push_str(" ")?;
    text.push_str(&rdl(alloc, resumed.map.description())?)?;
    Ok(text)
}

fn resume_answer(alloc: Global, session: Session) -> Answer {
    match resumed(alloc, session) {
        Ok(resumed) => resumed_text(alloc, &resumed),
        Err(fault) => resume_fault_answer(alloc, fault),
    }
}

// ---- Each call once, and again where memory was wanted.

fn answer(alloc: Global, call: Call, text: &str) -> Answer {
    match parse_session(alloc, text) {
        Ok(session) => match call {
            Call::Read => read_answer(alloc, &session),
            Call::Write => write_answer(alloc, &session),
            Call::Resume => resume_answer(alloc, session),
        },
        Err(fault) => read_fault_answer(alloc, fault),
    }
}

/// A call, the text of a session, and what the call answers.
type Case = (Call, &'static str, &'static str);

const CASES: [Case; 13] = [
    (
        Call::Read,
        ONE_STEP_ON,
        "undo redo 1 addrmap top {
};
",
    ),
    (
        Call::Read,
        ONE_STEP_BACK,
        "undo 1 redo addrmap top {
    reg {
        field {
        } f;
    } a;
};
",
    ),
    (Call::Read, "", "Z1"),
    (Call::Read, "regedit session 1\nmap 0\nundo 0\n", "Z1"),
    (
        Call::Read,
        "regedit session 1\nmap 1\n;undo 0\nredo 0\nend\n",
        "Z1",
    ),
    (Call::Write, ONE_STEP_ON, ONE_STEP_ON),
    (Call::Write, ONE_STEP_BACK, ONE_STEP_BACK),
    (Call::Write, TWO_STEPS_BACK, TWO_STEPS_BACK),
    (
        Call::Resume,
        ONE_STEP_ON,
        "undo redo true 1 addrmap top {
};
",
    ),
    (
        Call::Resume,
        ONE_STEP_BACK,
        "undo true 1 redo addrmap top {
    reg {
        field {
        } f;
    } a;
};
",
    ),
    (
        Call::Resume,
        STEP_PAST_REGISTER,
        "Z3 at redo 1: E21 at 0.0.0",
    ),
    (
        Call::Resume,
        "regedit session 1\nmap 18\naddrmap top {\n};\n\nundo 1\nback 1\ndelete 0.0\nredo 0\nend\n",
        "Z2 at undo 1",
    ),
    (
        Call::Resume,
        "regedit session 1\nmap 0\nundo 0\nredo 0\nend\n",
        "Z3 at map: E13 at -",
    ),
];

fn cases() -> &'static [Case] {
    &CASES
}

#[test]
fn of_a_session_answer(rt: HostRuntime) {
    for (call, text, want) in cases() {
        let mut found = answer(rt.alloc(), *call, text);
        if found.is_err() {
            found = answer(rt.alloc(), *call, text);
        }
        assert_answered(&rt, &found, want, text);
    }
}

// ---- A history that goes on.

/// The history of a session's text. `answer` looks at the faults of others.
fn gone_on(alloc: Global, text: &str, limit: u32) -> Result<Journal<Map>, AllocError> {
    let Ok(session) = parse_session(alloc, text) else {
        return Err(AllocError);
    };
    match resumed(alloc, session) {
        Ok(resumed) => Ok(Journal::resume(resumed.map, limit, resumed.undo, resumed.redo)),
        Err(_) => Err(AllocError),
    }
}

fn follow(rt: &impl Abort, alloc: Global, text: &str, limit: u32, steps: &[Step]) {
    let mut journal = gone_on(alloc, text, limit);
    if journal.is_err() {
        journal = gone_on(alloc, text, limit);
    }
    match journal {
        Ok(journal) => follow_on(rt, alloc, journal, steps),
        Err(_) => assert!(rt; false, "no session"),
    }
}

const ADD: &str = "add /$top last reg { field {} g; } b;";

const ON: [Step; 14] = [
    ("count", "0 1"),
    ("session", ONE_STEP_ON),
    ("redo", ""),
    ("list", ONE_STEP_LISTED),
    ("session", ONE_STEP_BACK),
    (ADD, ""),
    ("session", TWO_STEPS_BACK),
    ("undo", ""),
    ("undo", ""),
    ("undo", "J2"),
    ("count", "0 2"),
    ("redo", ""),
    ("redo", ""),
    ("session", TWO_STEPS_BACK),
];

fn on() -> &'static [Step] {
    &ON
}

#[test]
fn of_a_step_on(rt: HostRuntime) {
    follow(&rt, rt.alloc(), ONE_STEP_ON, 10_000, on());
}

const FULL: [Step; 6] = [
    (ADD, "J1"),
    ("count", "1 0"),
    ("undo", ""),
    (ADD, ""),
    ("redo", "J3"),
    ("count", "1 0"),
];

fn full() -> &'static [Step] {
    &FULL
}

#[test]
fn of_a_step_back_that_fills_the_history(rt: HostRuntime) {
    follow(&rt, rt.alloc(), ONE_STEP_BACK, 1, full());
}
