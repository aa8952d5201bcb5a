//! The history of a map under lines of a script. Where memory is wanted, what stood stands, and the same line is then
//! answered as with ample memory.
use crate::calls::{lines, opened, shown};
use crate::examples::{
    BARE_LINES, FOUR_LINES, FOUR_WRITTEN, NESTED, NESTED_LINES, NESTED_WRITTEN, REMOVED_WRITTEN,
    RENAMED_WRITTEN, SHARED, SHARED_LINES, SHARED_WRITTEN, THREE, THREE_LINES, THREE_WRITTEN,
    TWO_FILES, UNASSIGNED_LINES, UNASSIGNED_WRITTEN, two_large_files,
};
use crate::sessions::write_fault_answer;
use crate::{Answer, assert_answered, is_same};
use journal_core::fault::{EditFault, StepFault};
use journal_core::journal::Journal;
use rdl_edit::back::Back;
use rdl_edit::edit::Edit;
use rdl_edit::map::Map;
use rdl_edit::place::Place;
use rdl_edit::refusal::Refusal;
use rdl_parse::parse::parse_item;
use rdl_script::request::{Request, request_of};
use rdl_session::write::session;
use rdl_tree::description::Body;
use rdl_tree::patch::Patch;
use rdl_tree::path::Path;
use rdl_write::rdl;
use std::alloc::{AllocError, Global};
use std::process::Abort;
use std::{mem, str};

fn refusal_text(refusal: &Refusal) -> &'static str {
    match refusal {
        Refusal::NoSuchPath => "X1 P1",
        Refusal::ThroughNamedType => "X1 P2",
        Refusal::NotAnInstance => "X7",
        Refusal::NotAddable => "X8",
        Refusal::NoSuchSibling => "X2",
        Refusal::NameTaken => "X3",
        Refusal::Reserved => "X4",
        Refusal::InUse => "X5",
        Refusal::NotSet => "X6",
        Refusal::Faulty(_) => "X9",
        Refusal::Memory => "X10",
    }
}

/// A refusal; X10 is want of memory.
fn refusal_answer(alloc: Global, refusal: &Refusal) -> Answer {
    match refusal {
        Refusal::Faulty(fault) => {
            format!(in alloc; "X9 E{} at {}", fault.kind.number(), fault.address)
        }
        Refusal::Memory => Err(AllocError),
        _ => String::from_str(alloc, refusal_text(refusal)),
    }
}

/// Makes the edit, and lets it go.
fn make(alloc: Global, journal: &mut Journal<Map>, edit: Edit) -> Result<(), EditFault<Refusal>> {
    journal.edit(alloc, &edit)
}

fn edit_answer(alloc: Global, journal: &mut Journal<Map>, edit: Edit) -> Answer {
    match make(alloc, journal, edit) {
        Ok(()) => Ok(String::new(alloc)),
        Err(EditFault::Full) => String::from_str(alloc, "J1"),
        Err(EditFault::Refused(refusal)) => refusal_answer(alloc, &refusal),
        Err(EditFault::Memory) => Err(AllocError),
    }
}

/// The items of one statement. A text that spells none answers no line of these.
pub(crate) fn items(alloc: Global, text: &[u8]) -> Result<Body, AllocError> {
    let Ok(text) = str::from_utf8(text) else {
        return Err(AllocError);
    };
    match parse_item(alloc, text) {
        Ok(items) => Ok(Body::from_vec(items)),
        Err(_) => Err(AllocError),
    }
}

fn add_answer(
    alloc: Global,
    journal: &mut Journal<Map>,
    path: Path,
    place: Place,
    text: &[u8],
) -> Answer {
    let items = items(alloc, text)?;
    edit_answer(alloc, journal, Edit::Add(path, place, items))
}

fn step_answer(alloc: Global, answer: Result<(), StepFault>, nothing: &str) -> Answer {
    match answer {
        Ok(()) => Ok(String::new(alloc)),
        Err(StepFault::Nothing) => String::from_str(alloc, nothing),
        Err(StepFault::Memory) => Err(AllocError),
    }
}

fn request_answer(alloc: Global, journal: &mut Journal<Map>, request: Request<'_>) -> Answer {
    match request {
        Request::Undo => step_answer(alloc, journal.undo(alloc), "J2"),
        Request::Redo => step_answer(alloc, journal.redo(alloc), "J3"),
        Request::List => lines(alloc, journal.map()),
        Request::Edit(edit) => edit_answer(alloc, journal, edit),
        Request::Add(path, place, text) => add_answer(alloc, journal, path, place, text),
        _ => String::from_str(alloc, "asks for nothing"),
    }
}

fn counts(alloc: Global, journal: &Journal<Map>) -> Answer {
    format!(in alloc; "{} {}", journal.undo_len(), journal.redo_len())
}

fn patches(back: Option<&Back>) -> &[Patch] {
    match back {
        Some(back) => back.patches(),
        None => &[],
    }
}

/// The patches of each step back, the next to be taken first.
fn undos(alloc: Global, journal: &Journal<Map>) -> Result<Vec<&[Patch]>, AllocError> {
    let mut steps = Vec::new(alloc);
    for index in 0..journal.undo_len() {
        steps.push(patches(journal.undo_at(index)))?;
    }
    Ok(steps)
}

/// The patches of each step on, the next to be taken first.
fn redos(alloc: Global, journal: &Journal<Map>) -> Result<Vec<&[Patch]>, AllocError> {
    let mut steps = Vec::new(alloc);
    for index in 0..journal.redo_len() {
        steps.push(patches(journal.redo_at(index)))?;
    }
    Ok(steps)
}

/// The session of the map and all steps; Z5 is want of memory.
fn session_answer(alloc: Global, journal: &Journal<Map>) -> Answer {
    let undo = undos(alloc, journal)?;
    let redo = redos(alloc, journal)?;
    let map = journal.map().description();
    match session(alloc, map, undo.as_slice(), redo.as_slice()) {
        Ok(text) => Ok(text),
        Err(fault) => write_fault_answer(alloc, fault),
    }
}

/// What a line answers: nothing where it is accepted. Beside the lines of a script there are `write`, the map as it is
/// written, `session`, the session of it and all steps, `count`, how many edits can be undone and redone, and `placed`,
/// how many instances the last step placed.
fn answer(alloc: Global, journal: &mut Journal<Map>, line: &str) -> Answer {
    match line {
        "write" => rdl(alloc, journal.map().description()),
        "session" => session_answer(alloc, journal),
        "count" => counts(alloc, journal),
        "placed" => journal.map().placed().to_string(alloc),
        _ => {
            let request = request_of(alloc, line.as_bytes())?;
            request_answer(alloc, journal, request)
        }
    }
}

/// All steps back and on, each with its patches and its mark.
fn steps(alloc: Global, journal: &Journal<Map>) -> Answer {
    let mut text = counts(alloc, journal)?;
    for index in 0..journal.undo_len() {
        text.push_str(&shown(alloc, &journal.undo_at(index))?)?;
    }
    for index in 0..journal.redo_len() {
        text.push_str(&shown(alloc, &journal.redo_at(index))?)?;
    }
    Ok(text)
}

/// The whole description and all rows, and all steps back and on.
fn seen(alloc: Global, journal: &Journal<Map>) -> Answer {
    let map = journal.map();
    let mut text = shown(alloc, map.description())?;
    text.push_str(&shown(alloc, &map.rows(alloc)?)?)?;
    text.push_str(&steps(alloc, journal)?)?;
    Ok(text)
}

fn standing(alloc: Global, journal: &Journal<Map>) -> Answer {
    match seen(alloc, journal) {
        Ok(text) => Ok(text),
        Err(_) => seen(alloc, journal),
    }
}

/// Asks for the answer to a line again, if memory was wanted for the first time, and all stands as before.
fn asked_again(
    alloc: Global,
    journal: &mut Journal<Map>,
    line: &str,
    before: &Answer,
    was_wanted: &mut bool,
) -> Answer {
    if mem::replace(was_wanted, true) {
        String::from_str(alloc, "want of memory that nothing refused")
    } else if is_same(before, &standing(alloc, journal)) {
        answer(alloc, journal, line)
    } else {
        String::from_str(alloc, "a change")
    }
}

fn asked(alloc: Global, journal: &mut Journal<Map>, line: &str, was_wanted: &mut bool) -> Answer {
    let before = standing(alloc, journal);
    match answer(alloc, journal, line) {
        Ok(text) => Ok(text),
        Err(_) => asked_again(alloc, journal, line, &before, was_wanted),
    }
}

fn begun(alloc: Global, text: &str, limit: u32) -> Result<Journal<Map>, AllocError> {
    Ok(Journal::new(alloc, opened(alloc, text)?, limit))
}

/// A line, and what it answers.
pub(crate) type Step = (&'static str, &'static str);

/// Looks at the answer to each line.
pub(crate) fn follow_on(rt: &impl Abort, alloc: Global, mut journal: Journal<Map>, steps: &[Step]) {
    let mut was_wanted = false;
    for (line, want) in steps {
        let found = asked(alloc, &mut journal, line, &mut was_wanted);
        assert_answered(rt, &found, want, line);
    }
}

/// Looks at the answer to each line on the text's map.
fn follow(rt: &impl Abort, alloc: Global, text: &str, limit: u32, steps: &[Step]) {
    let mut journal = begun(alloc, text, limit);
    if journal.is_err() {
        journal = begun(alloc, text, limit);
    }
    match journal {
        Ok(journal) => follow_on(rt, alloc, journal, steps),
        Err(_) => assert!(rt; false, "no map"),
    }
}

const ADD: [Step; 18] = [
    ("add /$top after a reg { field {} g; } x;", ""),
    ("count", "1 0"),
    ("undo", ""),
    ("count", "0 1"),
    ("list", THREE_LINES),
    ("redo", ""),
    ("list", FOUR_LINES),
    ("write", FOUR_WRITTEN),
    ("undo", ""),
    ("undo", "J2"),
    ("write", THREE_WRITTEN),
    ("remove /$top/a", ""),
    ("count", "1 0"),
    ("redo", "J3"),
    ("remove /$top/b", "J1"),
    ("undo", ""),
    ("redo", ""),
    ("count", "1 0"),
];

fn add() -> &'static [Step] {
    &ADD
}

#[test]
fn of_an_addition(rt: HostRuntime) {
    follow(&rt, rt.alloc(), THREE, 1, add());
}

const REMOVE: [Step; 9] = [
    ("remove /$T/f", ""),
    ("write", REMOVED_WRITTEN),
    ("undo", ""),
    ("count", "0 1"),
    ("write", SHARED_WRITTEN),
    ("list", SHARED_LINES),
    ("redo", ""),
    ("write", REMOVED_WRITTEN),
    ("count", "1 0"),
];

fn remove() -> &'static [Step] {
    &REMOVE
}

#[test]
fn of_a_removal(rt: HostRuntime) {
    follow(&rt, rt.alloc(), SHARED, 10_000, remove());
}

const UNASSIGN: [Step; 15] = [
    ("list", NESTED_LINES),
    ("unassign /$top g.q.f reset", ""),
    ("list", UNASSIGNED_LINES),
    ("write", UNASSIGNED_WRITTEN),
    ("unassign /$top/g q.f reset", ""),
    ("list", BARE_LINES),
    ("unassign /$top/g q.f reset", "X6"),
    ("undo", ""),
    ("list", UNASSIGNED_LINES),
    ("undo", ""),
    ("count", "0 2"),
    ("write", NESTED_WRITTEN),
    ("redo", ""),
    ("redo", ""),
    ("list", BARE_LINES),
];

fn unassign() -> &'static [Step] {
    &UNASSIGN
}

#[test]
fn of_assignments(rt: HostRuntime) {
    follow(&rt, rt.alloc(), NESTED, 10_000, unassign());
}

// What changes no layout places nothing, whether memory was wanted on the way or not.
const PLACED: [Step; 10] = [
    ("resize /$B/x [2]", ""),
    ("rename /$B/x y", ""),
    ("placed", "0"),
    ("undo", ""),
    ("placed", "0"),
    ("redo", ""),
    ("placed", "0"),
    ("assign /$top b.y.f reset 1", ""),
    ("placed", "0"),
    ("count", "3 0"),
];

fn placed() -> &'static [Step] {
    &PLACED
}

#[test]
fn of_held_layouts(rt: HostRuntime) {
    follow(&rt, rt.alloc(), TWO_FILES, 10_000, placed());
}

/// The history behind these lines.
fn followed(alloc: Global, text: &str, steps: &[Step]) -> Result<Journal<Map>, AllocError> {
    let mut journal = begun(alloc, text, 10_000)?;
    for (line, _) in steps {
        answer(alloc, &mut journal, line)?;
    }
    Ok(journal)
}

/// What a line answers. Where memory is wanted, all has to stand as where the lines before it are followed anew.
fn asked_behind(
    alloc: Global,
    journal: &mut Journal<Map>,
    text: &str,
    before: &[Step],
    line: &str,
) -> Answer {
    if let Ok(found) = answer(alloc, journal, line) {
        return Ok(found);
    }
    let anew = followed(alloc, text, before)?;
    if is_same(&seen(alloc, &anew), &seen(alloc, journal)) {
        answer(alloc, journal, line)
    } else {
        String::from_str(alloc, "a change")
    }
}

/// Looks at the answer to each line on a large map.
fn follow_behind(rt: &impl Abort, alloc: Global, text: &str, steps: &[Step]) {
    let mut journal = begun(alloc, text, 10_000);
    if journal.is_err() {
        journal = begun(alloc, text, 10_000);
    }
    let Ok(mut journal) = journal else {
        assert!(rt; false, "no map");
        return;
    };
    for (number, (line, want)) in steps.iter().enumerate() {
        let found = asked_behind(alloc, &mut journal, text, &steps[..number], line);
        assert_answered(rt, &found, want, line);
    }
}

// The opening places the two fields, the registers of both files and the two files, each once for each mode; a line that
// enlarges the second file places its register and the two files.
const PLACED_LARGE: [Step; 12] = [
    ("placed", "3015"),
    ("resize /$B/x [2]", ""),
    ("placed", "9"),
    ("rename /$B/x y", ""),
    ("placed", "0"),
    ("undo", ""),
    ("placed", "0"),
    ("redo", ""),
    ("placed", "0"),
    ("assign /$top b.y.f reset 1", ""),
    ("placed", "0"),
    ("count", "3 0"),
];

fn placed_large() -> &'static [Step] {
    &PLACED_LARGE
}

#[test]
fn of_many_kept_layouts(rt: HostRuntime) {
    let mut text = two_large_files(rt.alloc());
    if text.is_err() {
        text = two_large_files(rt.alloc());
    }
    match text {
        Ok(text) => follow_behind(&rt, rt.alloc(), text.as_str(), placed_large()),
        Err(_) => assert!(rt; false, "no text"),
    }
}

const RENAME: [Step; 8] = [
    ("rename /$T U", ""),
    ("write", RENAMED_WRITTEN),
    ("rename /$U top", "X3"),
    ("count", "1 0"),
    ("undo", ""),
    ("write", SHARED_WRITTEN),
    ("redo", ""),
    ("write", RENAMED_WRITTEN),
];

fn rename() -> &'static [Step] {
    &RENAME
}

#[test]
fn of_a_renaming(rt: HostRuntime) {
    follow(&rt, rt.alloc(), SHARED, 10_000, rename());
}
