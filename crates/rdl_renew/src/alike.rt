//! Whether the instances of a body take the same of layouts as those of what it was.
ghost use Rattle.std.specs.Prelude.{◌≡◌, not, map, bytes_eq, option_copied, slice_get, unwrap_or};
ghost use Rattle.rdl_marks.specs.View.{gone_item};
ghost use Rattle.rdl_nodes.specs.Parts.{of_item};
ghost use Rattle.rdl_nodes.specs.View.{slots_of};
ghost use Rattle.rdl_renew.specs.Alike.{of_inside};
ghost use Rattle.rdl_renew.specs.AlikeSlots.{tells_of_width, is_large_as, is_wide_as, takes_same, same_range, says_same, is_instance, has_instance, is_alike, all_alike, are_alike};
ghost use Rattle.rdl_renew.specs.Along.{next_of};
ghost use Rattle.rdl_renew.specs.Renewing.{Became};
ghost use Rattle.rdl_seen.specs.Layouts.{Laying};
ghost use Rattle.rdl_seen.specs.Node.{Around};
ghost use Rattle.rdl_tree.specs.Items.{Items};
ghost use Rattle.rdl_tree.specs.View.{list_of};
ghost use Rattle.rdl_tree.specs.declared.description.Item.TheVariants.{Instance};
ghost use Rattle.rdl_tree.specs.declared.description.Of.{Of};

use crate::along::{Along, Next};
use crate::same::are_same_by_mode;
use rdl_marks::marks::{BodyMarks, Gone, Mark};
use rdl_nodes::field::FieldBody;
use rdl_nodes::node::Slot;
use rdl_nodes::parts::says_bits;
use rdl_seen::alert::Alert;
use rdl_seen::property_set::PropertySet;
use rdl_seen::seen::Seen;
use rdl_text::token::Number;
use rdl_tree::description::{Body, Item};
use rdl_tree::property::Property;
use rdl_tree::shell::Shell;

/// What is kept of an instance's component, as far as layouts take of it.
#[derive(Clone, Copy)]
enum Inside<'s> {
    Field(FieldBody),
    Component(&'s Seen),
    Nothing,
}

fn inside_of<'s>(slot: Option<&'s Slot>) -> Inside<'s>
    ensures { of_inside result ≡ of_item (option_copied slot.entry) }
{
    match slot {
        Some(Slot::Field(field)) => Inside::Field(*field),
        Some(Slot::Named(_, Some(seen))) => Inside::Component(seen.as_ref()),
        Some(Slot::Define(_, seen, _)) => Inside::Component(seen.as_ref()),
        Some(Slot::Part(node)) => Inside::Component(&node.as_ref().core().seen),
        Some(Slot::Named(_, None)) => Inside::Nothing,
        Some(Slot::Own) => Inside::Nothing,
        Some(Slot::Default(_)) => Inside::Nothing,
        Some(Slot::Dynamic(_)) => Inside::Nothing,
        None => Inside::Nothing,
    }
}

fn inside_at<'s>(slots: &'s [Slot], number: usize) -> Inside<'s>
    ensures { of_inside result ≡ of_item (slice_get slots.now number) }
{
    inside_of(slots.get(number))
}

fn are_as_large(before: &Seen, now: &Seen) -> bool
    ensures { result ≡ is_large_as before.now now.now }
{
    are_same_by_mode(before.size, now.size) && are_same_by_mode(before.widest, now.widest)
}

/// Whether a field is as wide: if its instance doesn't say it, and its body neither, the default has to be the same.
fn is_as_wide(before: FieldBody, now: FieldBody, shell: &Shell, is_width_same: bool) -> bool
    ensures { result ≡ is_wide_as is_width_same shell.now before now }
{
    if says_bits(shell) {
        return true;
    }
    before.width() == now.width() && (is_width_same || now.width().is_some())
}

fn takes_the_same(before: Inside, now: Inside, shell: &Shell, is_width_same: bool) -> bool
    ensures { result ≡ takes_same is_width_same shell.now (of_inside before.entry) (of_inside now.entry) }
{
    match before {
        Inside::Field(before) => match now {
            Inside::Field(now) => is_as_wide(before, now, shell, is_width_same),
            Inside::Component(_) => false,
            Inside::Nothing => false,
        },
        Inside::Component(before) => match now {
            Inside::Component(now) => are_as_large(before, now),
            Inside::Field(_) => false,
            Inside::Nothing => false,
        },
        Inside::Nothing => match now {
            Inside::Nothing => true,
            Inside::Field(_) => false,
            Inside::Component(_) => false,
        },
    }
}

fn are_same_sizes(before: &[Number], now: &[Number]) -> bool
    ensures { result ≡ bytes_eq before.now now.now }
{
    before == now
}

fn is_same_range(before: Option<(Number, Number)>, now: Option<(Number, Number)>) -> bool
    ensures { result ≡ same_range before now }
{
    before == now
}

/// Whether an instance says the same of its place.
fn says_the_same(before: &Shell, now: &Shell) -> bool
    ensures { result ≡ says_same before.now now.now }
{
    are_same_sizes(before.dims(), now.dims())
        && is_same_range(before.range(), now.range())
        && before.address() == now.address()
        && before.stride() == now.stride()
        && before.align() == now.align()
}

/// Whether it says the same as what stood first in its place.
fn still_says_the_same(mark: &Mark, shell: &Shell) -> bool
    ensures { result ≡ says_same (unwrap_or (option_copied mark.now.shell) shell.now) shell.now }
{
    match mark.shell {
        Some(first) => says_the_same(first, shell),
        None => true,
    }
}

/// Whether layouts take the same of an instance, the item of this number, as of what it was.
fn is_alike_instance(
    next: Next,
    shell: &Shell,
    before: &[Slot],
    now: &[Slot],
    number: usize,
    is_width_same: bool,
) -> bool
    ensures { (of : Of) → result ≡ is_alike is_width_same (slots_of before.now) (of_item (slice_get now.now number)) (next_of next.entry) (Instance shell.now of) }
{
    match next {
        Next::New => false,
        Next::Same(old) => {
            let before = inside_at(before, old);
            takes_the_same(before, inside_at(now, number), shell, is_width_same)
        }
        Next::Marked(old, mark) => {
            if mark.is_moved || !still_says_the_same(mark, shell) {
                return false;
            }
            let before = inside_at(before, old);
            takes_the_same(before, inside_at(now, number), shell, is_width_same)
        }
    }
}

/// Whether the item of this number is no instance, or layouts take the same of it as of what it was.
pub(crate) fn is_alike(
    next: Next,
    item: &Item,
    before: &[Slot],
    now: &[Slot],
    number: usize,
    is_width_same: bool,
) -> bool
    ensures { result ≡ is_alike is_width_same (slots_of before.now) (of_item (slice_get now.now number)) (next_of next.entry) item.now }
{
    if let Item::Instance(shell, _) = item {
        return is_alike_instance(next, shell, before, now, number, is_width_same);
    }
    true
}

/// Whether that holds of each item of a body.
fn all_alike(
    marks: &BodyMarks,
    body: &Body,
    before: &[Slot],
    now: &[Slot],
    is_width_same: bool,
) -> bool
    ensures { (lay : Laying) (saw : Around) (old : Items) → Became lay saw (slots_of before.now) marks.now old body.now → result ≡ all_alike is_width_same marks.now (slots_of before.now) (slots_of now.now) 0 (list_of body.now) }
{
    let items = body.as_slice();
    let mut along = Along::new(&marks.pieces, marks.behind);
    for i in 0..items.len() {
        let next = along.next(&marks.pieces, marks.behind);
        if !is_alike(next, &items[i], before, now, i, is_width_same) {
            return false;
        }
    }
    true
}

fn is_instance(item: &Item) -> bool
    ensures { result ≡ is_instance item.now }
{
    match item {
        Item::Instance(_, _) => true,
        _ => false,
    }
}

pub(crate) fn has_instance(gone: &[Gone]) -> bool
    ensures { result ≡ has_instance (map gone_item gone.now) }
{
    for one in gone {
        if is_instance(one.item) {
            return true;
        }
    }
    false
}

/// Whether the instances of a body take the same of layouts as those of what it was, of which these slots were kept, where
/// those are kept of it now: none came, went or was moved. Where fields say no width, the default one has to be the same.
pub(crate) fn are_alike(
    marks: &BodyMarks,
    body: &Body,
    before: &[Slot],
    now: &[Slot],
    is_width_same: bool,
) -> bool
    ensures { (lay : Laying) (saw : Around) (old : Items) → Became lay saw (slots_of before.now) marks.now old body.now → result ≡ are_alike is_width_same marks.now (slots_of before.now) (slots_of now.now) body.now }
{
    !has_instance(marks.gone.as_slice()) && all_alike(marks, body, before, now, is_width_same)
}

/// Whether the default width of fields is the same, where no more differs than this alert tells of.
pub(crate) fn is_width_same(alert: Alert) -> bool
    ensures { result ≡ not (tells_of_width alert) }
{
    !alert
        .properties
        .meets(PropertySet::of(Property::Fieldwidth))
}
