//! Histories that go on with a session: steps that were read, and others; and texts that are no sessions.
ghost use Rattle.std.specs.Prelude.{IfOk};
ghost use Rattle.journal_core.specs.Along.{FitInTurn};
ghost use Rattle.rdl_edit.specs.Backs.{prior, Fits};

use crate::history::is_made;
use crate::{assert_holds, assert_same};
use journal_core::journal::Journal;
use rdl_edit::back::Back;
use rdl_edit::map::{Map, Resumed};
use rdl_session::parse::parse_session;
use std::alloc::{AllocError, Global};
use std::process::Abort;
use std::test::Fail;

fn resumed(alloc: Global, text: &str) -> Result<Resumed, Fail>
    ensures undo { IfOk result (λ r. FitInTurn prior Fits r.map.state r.undo.items) }
    ensures redo { IfOk result (λ r. FitInTurn prior Fits r.map.state r.redo.items) }
{
    let Ok(session) = parse_session(alloc, text) else {
        return Err(Fail::new("is no session"));
    };
    match Map::resume(alloc, session.map, None, session.undo, session.redo) {
        Ok(resumed) => Ok(resumed),
        Err(_) => Err(Fail::new("isn't gone on with")),
    }
}

fn history(alloc: Global, text: &str, limit: u32) -> Result<Journal<Map>, Fail> {
    match resumed(alloc, text) {
        Ok(resumed) => Ok(Journal::resume(resumed.map, limit, resumed.undo, resumed.redo)),
        Err(fail) => Err(fail),
    }
}

const ONE_STEP_ON: &str = "regedit session 1
map 17
addrmap top {
};
undo 0
redo 1
back 1
insert 0.0 32
reg {
    field {
    } f;
} a;
end
";

const ONE_STEP_BACK: &str = "regedit session 1
map 65
addrmap top {
    reg {
        field {
        } f;
    } a;
};
undo 1
back 1
delete 0.0
redo 0
end
";

const ADD: &str = "add /$top last reg { field {} g; } b;";

/// `read` for a step that was read from a session or takes back one that was, else `made`.
fn push_mark(text: &mut String, back: Option<&Back>) -> Result<(), AllocError> {
    match back {
        Some(back) if back.read() => text.push_str("read "),
        Some(_) => text.push_str("made "),
        None => Ok(()),
    }
}

/// The marks of the steps back, a bar, and those of the steps on, each with the next step to be taken first.
fn marks(alloc: Global, journal: &Journal<Map>) -> Result<String, AllocError> {
    let mut text = String::new(alloc);
    for index in 0..journal.undo_len() {
        push_mark(&mut text, journal.undo_at(index))?;
    }
    text.push_str("| ")?;
    for index in 0..journal.redo_len() {
        push_mark(&mut text, journal.redo_at(index))?;
    }
    Ok(text)
}

fn assert_marks(
    rt: &impl Abort,
    alloc: Global,
    journal: &Journal<Map>,
    want: &str,
    behind: &str,
) -> Result<(), AllocError> {
    assert_same(rt, marks(alloc, journal)?.as_str(), want, behind);
    Ok(())
}

/// Lines that are accepted, and the marks behind each.
const MARKED: [(&str, &str); 8] = [
    ("redo", "read | "),
    ("undo", "| read "),
    ("redo", "read | "),
    (ADD, "made read | "),
    ("undo", "read | made "),
    ("undo", "| read made "),
    ("redo", "read | made "),
    ("redo", "made read | "),
];

fn marked() -> &'static [(&'static str, &'static str)] {
    &MARKED
}

fn assert_each_marked(
    rt: &impl Abort,
    alloc: Global,
    journal: &mut Journal<Map>,
    steps: &[(&str, &str)],
) -> Result<(), Fail> {
    for (line, want) in steps {
        assert_holds(rt, is_made(alloc, journal, line)?, line);
        assert_marks(rt, alloc, journal, want, line)?;
    }
    Ok(())
}

#[test]
fn a_step_that_was_read_stays_marked(rt: HostRuntime) -> Result<(), Fail> {
    let mut journal = history(rt.alloc(), ONE_STEP_ON, 100)?;
    assert_marks(&rt, rt.alloc(), &journal, "| read ", "nothing")?;
    assert_each_marked(&rt, rt.alloc(), &mut journal, marked())
}

#[test]
fn a_step_back_that_was_read_is_marked(rt: HostRuntime) -> Result<(), Fail> {
    let journal = history(rt.alloc(), ONE_STEP_BACK, 100)?;
    assert_marks(&rt, rt.alloc(), &journal, "read | ", "nothing")?;
    Ok(())
}

/// Whether the text is refused as no session.
fn is_no_session(alloc: Global, text: &str) -> bool {
    match parse_session(alloc, text) {
        Ok(_session) => false,
        Err(fault) => fault.number() == 1,
    }
}

/// Texts that a run would read as maps.
const NO_SESSIONS: [&str; 3] = [
    "",
    "regedit session 1",
    "regedit session 2\nmap 0\nundo 0\nredo 0\nend\n",
];

#[test]
fn maps_are_no_sessions(rt: HostRuntime) {
    for text in NO_SESSIONS {
        assert_holds(&rt, is_no_session(rt.alloc(), text), text);
    }
}
