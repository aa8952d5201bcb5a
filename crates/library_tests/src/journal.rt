//! The history of a list of numbers.
use crate::assert_holds;
use journal_core::example::{Change, Numbers, Refusal, between};
use journal_core::fault::{EditFault, StepFault};
use journal_core::journal::Journal;
use std::alloc::{AllocError, Global};
use std::process::Abort;
use std::test::Fail;

/// A call of a history.
enum Call {
    Push(u64),
    Clear,
    Undo,
    Redo,
}

/// A call and its answer, then the list, and how many changes can be undone and redone.
type Step = (Call, &'static str, &'static [u64], usize, usize);

fn edit(alloc: Global, journal: &mut Journal<Numbers>, change: &Change) -> &'static str {
    match journal.edit(alloc, change) {
        Ok(()) => "made",
        Err(EditFault::Full) => "full",
        Err(EditFault::Refused(Refusal::Seven)) => "refused",
        Err(_) => "no memory",
    }
}

fn step_answer(answer: Result<(), StepFault>) -> &'static str {
    match answer {
        Ok(()) => "made",
        Err(StepFault::Nothing) => "nothing",
        Err(StepFault::Memory) => "no memory",
    }
}

fn make(alloc: Global, journal: &mut Journal<Numbers>, call: &Call) -> &'static str {
    match call {
        Call::Push(number) => edit(alloc, journal, &Change::Push(*number)),
        Call::Clear => edit(alloc, journal, &Change::Clear),
        Call::Undo => step_answer(journal.undo(alloc)),
        Call::Redo => step_answer(journal.redo(alloc)),
    }
}

fn has_list(journal: &Journal<Numbers>, list: &[u64], undo_len: usize, redo_len: usize) -> bool {
    journal.map().as_slice() == list
        && journal.undo_len() == undo_len
        && journal.redo_len() == redo_len
}

fn is_answered(alloc: Global, journal: &mut Journal<Numbers>, step: &Step) -> bool {
    let (call, answer, list, undo_len, redo_len) = step;
    make(alloc, journal, call) == *answer && has_list(journal, list, *undo_len, *redo_len)
}

/// Makes the calls, and looks at what stands behind each.
fn follow(rt: &impl Abort, alloc: Global, journal: &mut Journal<Numbers>, steps: &[Step]) {
    for step in steps {
        assert_holds(rt, is_answered(alloc, journal, step), step.1);
    }
}

/// Makes the calls on an empty list.
fn follow_new(rt: &impl Abort, alloc: Global, limit: u32, steps: &[Step]) {
    let mut journal = Journal::new(alloc, Numbers::new(alloc), limit);
    follow(rt, alloc, &mut journal, steps);
}

// undo leads back, and redo leads on
const BACK_AND_ON: [Step; 6] = [
    (Call::Push(3), "made", &[3], 1, 0),
    (Call::Push(4), "made", &[3, 4], 2, 0),
    (Call::Undo, "made", &[3], 1, 1),
    (Call::Undo, "made", &[], 0, 2),
    (Call::Redo, "made", &[3], 1, 1),
    (Call::Redo, "made", &[3, 4], 2, 0),
];

fn back_and_on() -> &'static [Step] {
    &BACK_AND_ON
}

// an edit drops what could be redone
const EDIT_BEHIND_UNDO: [Step; 4] = [
    (Call::Push(3), "made", &[3], 1, 0),
    (Call::Undo, "made", &[], 0, 1),
    (Call::Push(5), "made", &[5], 1, 0),
    (Call::Redo, "nothing", &[5], 1, 0),
];

fn edit_behind_undo() -> &'static [Step] {
    &EDIT_BEHIND_UNDO
}

// an edit that changes nothing is a place
const NOTHING_CHANGED: [Step; 3] = [
    (Call::Clear, "made", &[], 1, 0),
    (Call::Undo, "made", &[], 0, 1),
    (Call::Undo, "nothing", &[], 0, 1),
];

fn nothing_changed() -> &'static [Step] {
    &NOTHING_CHANGED
}

// a full history is judged before the map
const FULL: [Step; 5] = [
    (Call::Push(7), "refused", &[], 0, 0),
    (Call::Push(1), "made", &[1], 1, 0),
    (Call::Push(7), "full", &[1], 1, 0),
    (Call::Undo, "made", &[], 0, 1),
    (Call::Push(2), "made", &[2], 1, 0),
];

fn full() -> &'static [Step] {
    &FULL
}

#[test]
fn changes_are_made_undone_and_redone(rt: HostRuntime) {
    follow_new(&rt, rt.alloc(), 3, back_and_on());
    follow_new(&rt, rt.alloc(), 2, edit_behind_undo());
    follow_new(&rt, rt.alloc(), 2, nothing_changed());
    follow_new(&rt, rt.alloc(), 1, full());
}

const GONE_ON: [Step; 5] = [
    (Call::Push(2), "full", &[1], 1, 1),
    (Call::Redo, "made", &[1, 2], 2, 0),
    (Call::Push(3), "full", &[1, 2], 2, 0),
    (Call::Undo, "made", &[1], 1, 1),
    (Call::Undo, "made", &[], 0, 2),
];

fn gone_on() -> &'static [Step] {
    &GONE_ON
}

const ROOM_AGAIN: [Step; 3] = [
    (Call::Undo, "made", &[], 0, 2),
    (Call::Push(5), "made", &[5], 1, 0),
    (Call::Redo, "nothing", &[5], 1, 0),
];

fn room_again() -> &'static [Step] {
    &ROOM_AGAIN
}

/// A history with room for one step back, which goes on at `[1]` between `[]` and `[1, 2]`.
fn resumed(alloc: Global) -> Result<Journal<Numbers>, AllocError> {
    let now = Numbers::of(vec![in alloc; 1]?);
    let mut behind = Vec::new(alloc);
    behind.push(Vec::new(alloc))?;
    let mut ahead = Vec::new(alloc);
    ahead.push(vec![in alloc; 1, 2]?)?;
    Ok(between(now, 1, behind, ahead))
}

/// Whether the one step back and the one step on are seen, and no others.
fn shows_its_steps(journal: &Journal<Numbers>) -> bool {
    journal.undo_at(0).is_some_and(|list| list.is_empty())
        && journal.undo_at(1).is_none()
        && journal
            .redo_at(0)
            .is_some_and(|list| list.as_slice() == [1, 2].as_slice())
        && journal.redo_at(1).is_none()
}

fn follow_on(rt: &impl Abort, alloc: Global, steps: &[Step]) -> Result<(), AllocError> {
    let mut journal = resumed(alloc)?;
    assert_holds(rt, shows_its_steps(&journal), "the steps");
    follow(rt, alloc, &mut journal, steps);
    Ok(())
}

#[test]
fn a_history_goes_on_at_any_place(rt: HostRuntime) -> Result<(), Fail> {
    follow_on(&rt, rt.alloc(), gone_on())?;
    follow_on(&rt, rt.alloc(), room_again())?;
    Ok(())
}
