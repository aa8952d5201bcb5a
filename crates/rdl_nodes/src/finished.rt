//! What is kept of a component whose items are done.
ghost use Rattle.std.specs.Prelude.{◌≡◌, IfOk, IfSome, map};
ghost use Rattle.rdl_nodes.specs.Bare.{AreStillLayouts, StaysLaidOut, StaysOwn};
ghost use Rattle.rdl_nodes.specs.Folded.{AreInside};
ghost use Rattle.rdl_nodes.specs.Part.{member_of};
ghost use Rattle.rdl_nodes.specs.Placed.{same_words, same_widths, same_numbers, same_values, placed_by, placed_over, CountsOn};
ghost use Rattle.rdl_nodes.specs.SameInside.{StaysInside};
ghost use Rattle.rdl_nodes.specs.View.{slots_of};
ghost use Rattle.rdl_seen.specs.Contents.{own_weight};
ghost use Rattle.rdl_seen.specs.Layouts.{Laying};
ghost use Rattle.rdl_seen.specs.Node.{values_of, core_of};
ghost use Rattle.rdl_seen.specs.Values.{own_values};

use crate::contents::Contents;
use crate::core_of::is_container;
use crate::field::{Own, own_of};
use crate::layouts::Layouts;
use crate::lays::Lays;
use crate::node::{Core, Node, Slot};
use crate::parts::{Part, parts};
use crate::placed::placed_once;
use rdl_seen::values::Values;
use rdl_tree::description::{Body, Component};
use rdl_tree::shell::Kind;
use std::alloc::{AllocError, Global};
use std::rc::Rc;

/// What is kept of a component whose items have these slots, under the defaults that reach it.
pub fn finished<L: Lays>(
    alloc: Global,
    lay: &L,
    defaults: &Values,
    component: &Component,
    slots: Vec<Slot>,
) -> Result<Node, AllocError>
    ensures { IfOk result (λ node. node ≡ record { core = core_of L.laying component.now.kind defaults.now component.now.body (slots_of slots.items); slots = slots_of slots.items }) }
{
    let kind = component.kind;
    let body = &component.body;
    let own = own_of(body);
    let values = own.values.over(defaults).of_kind(kind);
    let contents = Contents::of(slots.as_slice());
    let parts = parts(alloc, defaults, body, slots.as_slice())?;
    let layouts = lay.lay(alloc, kind, &values, parts.as_slice())?;
    let layouts = Rc::new(alloc, layouts)?;
    let core = Core::of(
        kind,
        own,
        values,
        body,
        slots.as_slice(),
        &contents,
        parts.as_slice(),
        layouts,
    );
    Ok(Node::new(core, slots, contents))
}

fn have_same_words(values: &Values, others: &Values) -> bool
    ensures { result ≡ same_words values.now others.now }
{
    values.addressing == others.addressing && values.sw == others.sw
}

fn have_same_widths(values: &Values, others: &Values) -> bool
    ensures { result ≡ same_widths values.now others.now }
{
    values.regwidth == others.regwidth
        && values.accesswidth == others.accesswidth
        && values.fieldwidth == others.fieldwidth
}

fn have_same_numbers(values: &Values, others: &Values) -> bool
    ensures { result ≡ same_numbers values.now others.now }
{
    values.alignment == others.alignment && values.reset == others.reset
}

/// Whether these are the same.
fn are_same(values: &Values, others: &Values) -> bool
    ensures { result ≡ same_values values.now others.now }
{
    have_same_words(values, others)
        && have_same_widths(values, others)
        && have_same_numbers(values, others)
}

/// What is kept of how a component is laid out, for one more.
fn kept_layouts(core: &Core) -> Result<Rc<Layouts>, AllocError>
    ensures { IfOk result (λ layouts. layouts.value ≡ core.now.layouts) }
{
    core.layouts.clone()
}

/// The layouts of a component of this kind with these values and these instances, of which this was kept before. If its instances are
/// alike and its values the same, so are its layouts; otherwise it is laid out, and its instances are counted, once for each mode.
fn layouts_over<L: Lays>(
    alloc: Global,
    lay: &L,
    kind: Kind,
    values: &Values,
    parts: &[Part],
    before: &Core,
    are_alike: bool,
    placed: &mut u64,
) -> Result<Rc<Layouts>, AllocError>
    ensures layouts { AreStillLayouts L.laying are_alike before.now kind values.now (map member_of parts.now) → IfOk result (λ layouts. layouts.value ≡ L.laying kind values.now (map member_of parts.now)) }
    ensures placed { IfOk result (λ layouts. CountsOn placed.old placed.new (placed_by are_alike before.now.values values.now layouts.value)) }
{
    if are_alike && are_same(&before.values, values) {
        let layouts = kept_layouts(before)?;
        return Ok(layouts);
    }
    let layouts = lay.lay(alloc, kind, values, parts)?;
    *placed = placed.saturating_add(placed_once(&layouts));
    let layouts = Rc::new(alloc, layouts)?;
    Ok(layouts)
}

/// How a component is like what it was.
#[derive(Clone, Copy)]
pub struct Likeness {
    /// Layouts take the same of its instances.
    pub are_alike: bool,
    /// Its own assignments state the same, and its items weigh the same but for what is inside them.
    pub is_own_same: bool,
    /// Each of its items adds the same to what is inside it, but for sums.
    pub is_inside_same: bool,
}

/// What the own assignments of a body state, and what its items weigh but for what is inside them. This was kept of the component before, and
/// still holds of these, if that is said.
fn own_over(body: &Body, before: &Core, is_same: bool) -> Own
    ensures { StaysOwn is_same before.now body.now → (result.values ≡ own_values body.now) × (result.weight ≡ own_weight body.now) }
{
    if is_same {
        Own {
            values: before.own,
            weight: before.own_weight,
        }
    } else {
        own_of(body)
    }
}

/// What is inside a component with these items. This was kept of it before, and if that is said, its items add the same to it.
fn contents_over(slots: &[Slot], before: &Node, is_same: bool) -> Contents
    requires { StaysInside is_same before.now.slots (slots_of slots.now) }
    ensures { AreInside result (slots_of slots.now) }
{
    if is_same {
        before.contents().again(slots)
    } else {
        Contents::of(slots)
    }
}

/// What is kept of a component with these items, but for these, by what was kept of it before: if it is a container of which the instances are
/// alike and the values the same. Then it has the layouts that it had, and its instances lie apart as they did. It states this itself, with
/// these values and with that inside it.
fn core_again(
    component: &Component,
    own: Own,
    values: &Values,
    slots: &[Slot],
    contents: &Contents,
    before: &Core,
    are_alike: bool,
) -> Result<Option<Core>, AllocError>
    requires { AreInside contents.now (slots_of slots.now) }
    ensures core { (lay : Laying) (defaults : Values) → own.values ≡ own_values component.now.body → own.weight ≡ own_weight component.now.body → values.now ≡ values_of component.now.kind defaults component.now.body → StaysLaidOut lay are_alike before.now component.now.kind defaults component.now.body (slots_of slots.now) → IfOk result (λ again. IfSome again (λ c. c ≡ core_of lay component.now.kind defaults component.now.body (slots_of slots.now))) }
    ensures placed { IfOk result (λ again. IfSome again (λ c. placed_over are_alike before.now c ≡ 0)) }
{
    let kind = component.kind;
    if !are_alike || !is_container(kind) || !are_same(&before.values, values) {
        return Ok(None);
    }
    let body = &component.body;
    let layouts = kept_layouts(before)?;
    let apart = before.apart;
    let core = Core::of_container(kind, own, *values, apart, body, slots, contents, layouts);
    Ok(Some(core))
}

/// The same as `finished`, where this was kept of the component before, which is like that. If its instances are alike and its values the
/// same, it isn't laid out, but has the layouts that it had; otherwise its instances are counted, once for each mode. The count stops at the
/// greatest `u64`.
pub fn finished_over<L: Lays>(
    alloc: Global,
    lay: &L,
    defaults: &Values,
    component: &Component,
    slots: Vec<Slot>,
    before: &Node,
    likeness: Likeness,
    placed: &mut u64,
) -> Result<Node, AllocError>
    requires { StaysInside likeness.is_inside_same before.now.slots (slots_of slots.items) }
    ensures node { StaysOwn likeness.is_own_same before.now.core component.now.body → StaysLaidOut L.laying likeness.are_alike before.now.core component.now.kind defaults.now component.now.body (slots_of slots.items) → IfOk result (λ node. node ≡ record { core = core_of L.laying component.now.kind defaults.now component.now.body (slots_of slots.items); slots = slots_of slots.items }) }
    ensures slots { IfOk result (λ node. node.slots ≡ slots_of slots.items) }
    ensures placed { IfOk result (λ node. CountsOn placed.old placed.new (placed_over likeness.are_alike before.now.core node.core)) }
{
    let kind = component.kind;
    let body = &component.body;
    let own = own_over(body, before.core(), likeness.is_own_same);
    let values = own.values.over(defaults).of_kind(kind);
    let contents = contents_over(slots.as_slice(), before, likeness.is_inside_same);
    let before = before.core();
    let are_alike = likeness.are_alike;
    let items = slots.as_slice();
    let again = core_again(component, own, &values, items, &contents, before, are_alike)?;
    if let Some(core) = again {
        return Ok(Node::new(core, slots, contents));
    }
    let parts = parts(alloc, defaults, body, slots.as_slice())?;
    let layouts = layouts_over(
        alloc,
        lay,
        kind,
        &values,
        parts.as_slice(),
        before,
        are_alike,
        placed,
    )?;
    let core = Core::of(
        kind,
        own,
        values,
        body,
        slots.as_slice(),
        &contents,
        parts.as_slice(),
        layouts,
    );
    Ok(Node::new(core, slots, contents))
}
