//! What takes a step of a map back: how many patches, where, and what they weigh; and patches that are tried.
ghost use Rattle.std.specs.Prelude.{◌≡◌, [], ◌∷◌, IsTrue, IfOk};
ghost use Rattle.rdl_tree.specs.Patch.{fits};
ghost use Rattle.rdl_edit.specs.Backs.{Fits};

use crate::assert_same;
use crate::history::map_of;
use crate::parse::description;
use crate::tree::{address, path};
use journal_core::invertible::Invertible;
use rdl_edit::back::Back;
use rdl_edit::edit::Edit;
use rdl_edit::map::Map;
use rdl_edit::refusal::Refusal;
use rdl_tree::description::Description;
use rdl_tree::patch::Patch;
use rdl_tree::patch_address::PatchAddress;
use rdl_write::rdl;
use std::alloc::{AllocError, Global};
use std::process::Abort;
use std::test::Fail;

/// What the patch does, and where.
fn parts(patch: &Patch) -> (&'static str, &PatchAddress) {
    match patch {
        Patch::Insert(at, _) => ("insert", at),
        Patch::Delete(at) => ("delete", at),
        Patch::Shift(at, _) => ("shift", at),
        Patch::Exchange(at, _) => ("exchange", at),
    }
}

/// The patch in one line.
fn push_patch(text: &mut String, patch: &Patch) -> Result<(), AllocError> {
    let (what, at) = parts(patch);
    write!(text, "{what} {at}\n")
}

fn patches_text(alloc: Global, patches: &[Patch]) -> Result<String, AllocError> {
    let mut text = String::new(alloc);
    for patch in patches {
        push_patch(&mut text, patch)?;
    }
    Ok(text)
}

fn push_weight(text: &mut String, weight: u64) -> Result<(), AllocError> {
    write!(text, "weight {weight}")
}

/// The patches, a line each, and what they weigh.
fn back_text(alloc: Global, back: &Back) -> Result<String, AllocError> {
    let mut text = patches_text(alloc, back.patches())?;
    push_weight(&mut text, back.weight())?;
    Ok(text)
}

/// Makes the edit, and lets it go.
fn make(alloc: Global, map: &mut Map, edit: Edit) -> Result<Back, Refusal>
    ensures { IfOk result (λ back. Fits map.new.state back) }
{
    map.apply(alloc, &edit)
}

fn removed(alloc: Global, map: &mut Map, at: &str) -> Result<Back, Fail>
    ensures { IfOk result (λ back. Fits map.new.state back) }
{
    match make(alloc, map, Edit::Remove(path(alloc, at)?)) {
        Ok(back) => Ok(back),
        Err(_) => Err(Fail::new("is refused")),
    }
}

fn reverted(alloc: Global, map: &mut Map, back: Back) -> Result<Back, Fail>
    requires { Fits map.old.state back }
{
    match map.revert(alloc, back) {
        Ok(forward) => Ok(forward),
        Err(_) => Err(Fail::new("no memory")),
    }
}

fn assert_back(rt: &impl Abort, alloc: Global, back: &Back, want: &str) -> Result<(), AllocError> {
    assert_same(rt, back_text(alloc, back)?.as_str(), want, "the way");
    Ok(())
}

fn assert_map(
    rt: &impl Abort,
    alloc: Global,
    description: &Description,
    want: &str,
) -> Result<(), AllocError> {
    assert_same(rt, rdl(alloc, description)?.as_str(), want, "the map");
    Ok(())
}

fn assert_reverted(
    rt: &impl Abort,
    alloc: Global,
    map: &mut Map,
    way_back: Back,
    forward: &str,
) -> Result<(), Fail>
    requires { Fits map.old.state way_back }
{
    let way_forward = reverted(alloc, map, way_back)?;
    assert_back(rt, alloc, &way_forward, forward)?;
    Ok(())
}

fn assert_ways(
    rt: &impl Abort,
    alloc: Global,
    map: &mut Map,
    at: &str,
    back: &str,
    forward: &str,
) -> Result<(), Fail> {
    let way_back = removed(alloc, map, at)?;
    assert_back(rt, alloc, &way_back, back)?;
    assert_reverted(rt, alloc, map, way_back, forward)
}

/// Removes the item, and takes that back: each way has these patches and this weight, and the map is as it was.
fn assert_there_and_back(
    rt: &impl Abort,
    alloc: Global,
    map: &mut Map,
    at: &str,
    back: &str,
    forward: &str,
) -> Result<(), Fail> {
    let before = rdl(alloc, map.description())?;
    assert_ways(rt, alloc, map, at, back, forward)?;
    assert_map(rt, alloc, map.description(), before.as_str())?;
    Ok(())
}

const USED: &str = "reg T { field {} e; field {} f; };
addrmap top { T u; T v; u.f->reset = 1; T w; v.f->reset = 0; v.e->sw = r; };";

fn push_register(text: &mut String, number: usize) -> Result<(), AllocError> {
    write!(text, "reg {{ field {{}} f; }} r{number};")
}

fn with_registers(alloc: Global, count: usize) -> Result<String, AllocError> {
    let mut text = String::from_str(alloc, "addrmap top {")?;
    for number in 0..count {
        push_register(&mut text, number)?;
    }
    text.push_str("};")?;
    Ok(text)
}

fn assert_of(
    rt: &impl Abort,
    alloc: Global,
    text: &str,
    at: &str,
    back: &str,
    forward: &str,
) -> Result<(), Fail> {
    let mut map = map_of(alloc, text)?;
    assert_there_and_back(rt, alloc, &mut map, at, back, forward)
}

// The field and both assignments to it come back, each where it stood: 5 + 11 + 11. However many registers there are,
// what takes one away keeps that one alone.
#[test]
fn of_a_field_with_its_assignments_and_of_a_register_of_a_thousand(
    rt: HostRuntime,
) -> Result<(), Fail> {
    assert_of(
        &rt,
        rt.alloc(),
        USED,
        "/$T/f",
        "insert 0.1\ninsert 1.2\ninsert 1.4\nweight 27",
        "delete 1.4\ndelete 1.2\ndelete 0.1\nweight 9",
    )?;
    let text = with_registers(rt.alloc(), 1000)?;
    assert_of(
        &rt,
        rt.alloc(),
        text.as_str(),
        "/$top/r0",
        "insert 0.0\nweight 8",
        "delete 0.0\nweight 3",
    )
}

// ---- Patches that are tried.

fn one(alloc: Global, patch: Patch) -> Result<Vec<Patch>, AllocError>
    ensures { IfOk result (λ patches. patches.items ≡ patch ∷ []) }
{
    let mut patches = Vec::new(alloc);
    patches.push(patch)?;
    Ok(patches)
}

/// Applies the patch, keeps what it made, and gives what leads back.
fn kept(alloc: Global, description: &mut Description, patch: Patch) -> Result<Vec<Patch>, Fail>
    requires { IsTrue (fits patch description.old.items) }
{
    let patches = one(alloc, patch)?;
    match description.turn(alloc, patches) {
        Ok(turned) => Ok(turned.keep()),
        Err(_) => Err(Fail::new("no memory")),
    }
}

/// Applies the patch, brings the description back, and gives what leads on.
fn tried(alloc: Global, description: &mut Description, patch: Patch) -> Result<Vec<Patch>, Fail>
    requires { IsTrue (fits patch description.old.items) }
{
    let patches = one(alloc, patch)?;
    match description.turn(alloc, patches) {
        Ok(mut turned) => Ok(turned.back()),
        Err(_) => Err(Fail::new("no memory")),
    }
}

fn kept_if_fit(
    alloc: Global,
    description: &mut Description,
    patch: Patch,
) -> Result<Vec<Patch>, Fail> {
    if description.fits(&patch) {
        kept(alloc, description, patch)
    } else {
        Err(Fail::new("does not fit"))
    }
}

fn tried_if_fit(
    alloc: Global,
    description: &mut Description,
    patch: Patch,
) -> Result<Vec<Patch>, Fail> {
    if description.fits(&patch) {
        tried(alloc, description, patch)
    } else {
        Err(Fail::new("does not fit"))
    }
}

/// Applies what came back, which is one patch.
fn kept_again(
    alloc: Global,
    description: &mut Description,
    mut back: Vec<Patch>,
) -> Result<Vec<Patch>, Fail> {
    match back.pop() {
        Some(patch) => kept_if_fit(alloc, description, patch),
        None => Err(Fail::new("no patch")),
    }
}

/// What came back, and the map as it is.
fn assert_turned(
    rt: &impl Abort,
    alloc: Global,
    description: &Description,
    patches: Vec<Patch>,
    texts: (&str, &str),
) -> Result<Vec<Patch>, AllocError> {
    let text = patches_text(alloc, patches.as_slice())?;
    assert_same(rt, text.as_str(), texts.0, "what came back");
    assert_map(rt, alloc, description, texts.1)?;
    Ok(patches)
}

const TWO: &str = "reg A {
    field {
    } f;
};
addrmap top {
    A a;
};
";

const ONE: &str = "addrmap top {
    A a;
};
";

fn first(alloc: Global) -> Result<Patch, AllocError> {
    Ok(Patch::Delete(PatchAddress::new(alloc, &address(&[0]))?))
}

#[test]
fn of_a_patch_that_is_kept(rt: HostRuntime) -> Result<(), Fail> {
    let alloc = rt.alloc();
    let mut map = description(alloc, TWO)?;
    let back = kept_if_fit(alloc, &mut map, first(alloc)?)?;
    let back = assert_turned(&rt, alloc, &map, back, ("insert 0\n", ONE))?;
    let on = kept_again(alloc, &mut map, back)?;
    assert_turned(&rt, alloc, &map, on, ("delete 0\n", TWO))?;
    Ok(())
}

#[test]
fn of_a_patch_that_is_tried(rt: HostRuntime) -> Result<(), Fail> {
    let alloc = rt.alloc();
    let mut map = description(alloc, TWO)?;
    let on = tried_if_fit(alloc, &mut map, first(alloc)?)?;
    assert_turned(&rt, alloc, &map, on, ("delete 0\n", TWO))?;
    Ok(())
}
