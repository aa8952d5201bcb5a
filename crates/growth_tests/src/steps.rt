//! A step of the map and the way back, and patches that turn a description. Where memory is wanted, the map stands as
//! before, what takes it back is handed over again, and the same call then succeeds.
ghost use Rattle.std.specs.Prelude.{◌≤◌, IfOk, IfSome};
ghost use Rattle.rdl_edit.specs.Backs.{Fits};
ghost use Rattle.rdl_tree.specs.Depth.{depth};
ghost use Rattle.rdl_tree.specs.Patch.{AllFit};

use crate::calls::{description, opened, shown};
use crate::examples::{
    FOUR_WRITTEN, NESTED, NESTED_WRITTEN, REMOVED_WRITTEN, RENAMED_WRITTEN, SHARED, SHARED_WRITTEN,
    THREE, THREE_WRITTEN, UNASSIGNED_WRITTEN,
};
use crate::history::items;
use crate::patches::{kept, tried};
use crate::{Answer, assert_answered, is_same};
use journal_core::invertible::Invertible;
use rdl_edit::back::Back;
use rdl_edit::edit::Edit;
use rdl_edit::map::Map;
use rdl_edit::refusal::Refusal;
use rdl_rewrite::rewrite::patches;
use rdl_script::request::{Request, request_of};
use rdl_tree::description::Description;
use rdl_tree::patch::Patch;
use rdl_write::rdl;
use std::alloc::{AllocError, Global};
use std::fmt::Debug;
use std::process::Abort;

/// The edit of a line.
fn edit_of(alloc: Global, line: &str) -> Result<Edit, AllocError> {
    match request_of(alloc, line.as_bytes())? {
        Request::Edit(edit) => Ok(edit),
        Request::Add(path, place, text) => Ok(Edit::Add(path, place, items(alloc, text)?)),
        _ => Err(AllocError),
    }
}

/// The whole description and all rows.
fn seen(alloc: Global, map: &Map) -> Answer {
    let mut text = shown(alloc, map.description())?;
    text.push_str(&shown(alloc, &map.rows(alloc)?)?)?;
    Ok(text)
}

fn standing(alloc: Global, map: &Map) -> Answer {
    match seen(alloc, map) {
        Ok(text) => Ok(text),
        Err(_) => seen(alloc, map),
    }
}

fn applied_again(alloc: Global, map: &mut Map, edit: &Edit, before: &Answer) -> Option<Back>
    ensures { IfSome result (λ back. Fits map.new.state back) }
{
    if !is_same(before, &standing(alloc, map)) {
        return None;
    }
    match map.apply(alloc, edit) {
        Ok(back) => Some(back),
        Err(_) => None,
    }
}

/// Makes the edit, again where memory was wanted and the map stands as before.
fn applied(alloc: Global, map: &mut Map, edit: &Edit) -> Option<Back>
    ensures { IfSome result (λ back. Fits map.new.state back) }
{
    let before = standing(alloc, map);
    match map.apply(alloc, edit) {
        Ok(back) => Some(back),
        Err(Refusal::Memory) => applied_again(alloc, map, edit, &before),
        Err(_) => None,
    }
}

/// All that the value shows, asked twice at most.
fn whole<T: Debug>(alloc: Global, value: &T) -> Answer {
    match shown(alloc, value) {
        Ok(text) => Ok(text),
        Err(_) => shown(alloc, value),
    }
}

fn reverted_again(alloc: Global, map: &mut Map, same: Back, before: &Answer) -> Option<Back>
    requires { Fits map.old.state same }
    ensures { IfSome result (λ back. Fits map.new.state back) }
{
    if !is_same(before, &standing(alloc, map)) {
        return None;
    }
    match map.revert(alloc, same) {
        Ok(back) => Some(back),
        Err(_) => None,
    }
}

/// Takes the step, again where memory was wanted, the map stands as before, and the same step was handed over.
fn reverted(alloc: Global, map: &mut Map, back: Back) -> Option<Back>
    requires { Fits map.old.state back }
    ensures { IfSome result (λ back. Fits map.new.state back) }
{
    let before = standing(alloc, map);
    let way = whole(alloc, &back);
    match map.revert(alloc, back) {
        Ok(forward) => Some(forward),
        Err(same) => {
            if is_same(&way, &whole(alloc, &same)) {
                reverted_again(alloc, map, same, &before)
            } else {
                None
            }
        }
    }
}

fn assert_written(rt: &impl Abort, alloc: Global, description: &Description, want: &str) {
    let mut found = rdl(alloc, description);
    if found.is_err() {
        found = rdl(alloc, description);
    }
    assert_answered(rt, &found, want, "the map");
}

fn made(rt: &impl Abort, alloc: Global, map: &mut Map, edit: &Edit, want: &str) -> Option<Back>
    ensures { IfSome result (λ back. Fits map.new.state back) }
{
    let back = applied(alloc, map, edit)?;
    assert_written(rt, alloc, map.description(), want);
    Some(back)
}

fn taken(rt: &impl Abort, alloc: Global, map: &mut Map, back: Back, want: &str) -> Option<Back>
    requires { Fits map.old.state back }
    ensures { IfSome result (λ back. Fits map.new.state back) }
{
    let forward = reverted(alloc, map, back)?;
    assert_written(rt, alloc, map.description(), want);
    Some(forward)
}

/// A map, how it is written, the line of an edit, and how the map is written then.
type Case = (&'static str, &'static str, &'static str, &'static str);

/// Makes the edit, takes it back, and makes it again.
fn there_and_back(
    rt: &impl Abort,
    alloc: Global,
    map: &mut Map,
    edit: &Edit,
    case: &Case,
) -> Option<Back> {
    let back = made(rt, alloc, map, edit, case.3)?;
    let forward = taken(rt, alloc, map, back, case.1)?;
    taken(rt, alloc, map, forward, case.3)
}

fn is_there_and_back(rt: &impl Abort, alloc: Global, case: &Case) -> Result<bool, AllocError> {
    let edit = edit_of(alloc, case.2)?;
    let mut map = opened(alloc, case.0)?;
    Ok(there_and_back(rt, alloc, &mut map, &edit, case).is_some())
}

const CASES: [Case; 4] = [
    (
        THREE,
        THREE_WRITTEN,
        "add /$top after a reg { field {} g; } x;",
        FOUR_WRITTEN,
    ),
    (SHARED, SHARED_WRITTEN, "remove /$T/f", REMOVED_WRITTEN),
    (
        NESTED,
        NESTED_WRITTEN,
        "unassign /$top g.q.f reset",
        UNASSIGNED_WRITTEN,
    ),
    (SHARED, SHARED_WRITTEN, "rename /$T U", RENAMED_WRITTEN),
];

fn cases() -> &'static [Case] {
    &CASES
}

#[test]
fn of_a_map_lead_there_and_back(rt: HostRuntime) {
    for case in cases() {
        let mut is_done = is_there_and_back(&rt, rt.alloc(), case);
        if is_done.is_err() {
            is_done = is_there_and_back(&rt, rt.alloc(), case);
        }
        assert!(rt; is_done == Ok(true), "there and back of {}", case.2);
    }
}

// ---- Patches.

/// What stands where patches were refused: the description and the patches.
fn is_handed_over(
    alloc: Global,
    description: &Description,
    patches: &Vec<Patch>,
    before: &(Answer, Answer),
) -> bool {
    is_same(&before.0, &whole(alloc, description)) && is_same(&before.1, &whole(alloc, patches))
}

/// Tries the patches, again where memory was wanted and the description and the patches are as before.
fn tried_or_again(
    alloc: Global,
    description: &mut Description,
    patches: Vec<Patch>,
) -> Option<Vec<Patch>>
    requires { AllFit patches.items description.old.items }
    ensures { IfSome result (λ same. AllFit same.items description.new.items) }
{
    let before = (whole(alloc, description), whole(alloc, &patches));
    match tried(alloc, description, patches) {
        Ok(same) => Some(same),
        Err(same) => {
            if is_handed_over(alloc, description, &same, &before) {
                tried(alloc, description, same).ok()
            } else {
                None
            }
        }
    }
}

/// Keeps what the patches make, again where memory was wanted and the description and the patches are as before.
fn kept_or_again(
    alloc: Global,
    description: &mut Description,
    patches: Vec<Patch>,
) -> Option<Vec<Patch>>
    requires { AllFit patches.items description.old.items }
{
    let before = (whole(alloc, description), whole(alloc, &patches));
    match kept(alloc, description, patches) {
        Ok(back) => Some(back),
        Err(same) => {
            if is_handed_over(alloc, description, &same, &before) {
                kept(alloc, description, same).ok()
            } else {
                None
            }
        }
    }
}

fn patches_of(
    alloc: Global,
    description: &Description,
    line: &str,
) -> Result<Vec<Patch>, AllocError>
    requires { depth description.now.items ≤ 16 }
    ensures { IfOk result (λ ps. AllFit ps.items description.now.items) }
{
    match patches(alloc, description, &edit_of(alloc, line)?) {
        Ok(patches) => Ok(patches),
        Err(_) => Err(AllocError),
    }
}

/// Tries the patches, and then keeps what they make.
fn turned(
    rt: &impl Abort,
    alloc: Global,
    description: &mut Description,
    patches: Vec<Patch>,
    case: &Case,
) -> Option<Vec<Patch>>
    requires { AllFit patches.items description.old.items }
{
    let same = tried_or_again(alloc, description, patches)?;
    assert_written(rt, alloc, description, case.1);
    let back = kept_or_again(alloc, description, same)?;
    assert_written(rt, alloc, description, case.3);
    Some(back)
}

fn is_turned(rt: &impl Abort, alloc: Global, case: &Case) -> Result<bool, AllocError> {
    let mut description = description(alloc, case.0)?;
    let patches = patches_of(alloc, &description, case.2)?;
    Ok(turned(rt, alloc, &mut description, patches, case).is_some())
}

#[test]
fn of_patches_are_tried_and_kept(rt: HostRuntime) {
    for case in cases() {
        let mut is_done = is_turned(&rt, rt.alloc(), case);
        if is_done.is_err() {
            is_done = is_turned(&rt, rt.alloc(), case);
        }
        assert!(rt; is_done == Ok(true), "patches of {}", case.2);
    }
}
