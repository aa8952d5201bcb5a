//! Whether the items of a body stand alone, so that none makes a fault of another one.
ghost use Rattle.std.specs.Prelude.{◌≡◌, ◌<◌, ◌≤◌, ◌∷◌, ℕ, true, false, bytes_eq, Some, IfSome};
ghost use Rattle.std.specs.Cmp.Lexicographic.{pointwise};
ghost use Rattle.std.specs.Option.{is_some, option_copied};
ghost use Rattle.rdl_marks.specs.Describes.{Describes, IsItem};
ghost use Rattle.rdl_marks.specs.View.{firsts_of, piece_traces, pieces_traces, in_order};
ghost use Rattle.rdl_renew.specs.Alone.{stands_alone, AllStandAlone};
ghost use Rattle.rdl_renew.specs.TakenOver.{retyped};
ghost use Rattle.rdl_renew.specs.Apart.{is_own, has_same_key, IsApart, DoOwnsStandAlone, AreSame, AreSameOrApart};
ghost use Rattle.rdl_scope.specs.Keys.{has_key};
ghost use Rattle.rdl_scope.specs.Walk.{defaulted_by};
ghost use Rattle.rdl_tree.specs.Items.{Items};
ghost use Rattle.rdl_tree.specs.declared.description.Item.{Item};

use crate::raise::len;
use rdl_marks::marks::{BodyMarks, Mark, Piece, Pieces};
use rdl_scope::before::excluded_by;
use rdl_scope::targets::is_instance;
use rdl_scope::types::defines;
use rdl_scope::values::own_before;
use rdl_text::name::Name;
use rdl_tree::description::{Body, Item};
use rdl_tree::properties::property;

/// The most pairs of items that are compared. Of a body that has more it isn't told whether its items stand alone.
const MAX_PAIRS: usize = 1 << 16;

/// Whether the item is a default of this property.
fn is_default(item: &Item, property: &Name) -> bool
    ensures { result ≡ is_some (defaulted_by property.now (Some item.now)) }
{
    match item {
        Item::Default(name, _) => name == property,
        _ => false,
    }
}

/// Whether the names are the same, in the same order.
fn are_same(names: &[Name], others: &[Name]) -> bool
    ensures { result ≡ pointwise bytes_eq names.now others.now }
{
    names == others
}

/// Whether the item assigns the property of this target.
fn assigns(item: &Item, target: &[Name], property: &Name) -> bool
    ensures { result ≡ has_key (property.now ∷ target.now) item.now }
{
    match item {
        Item::Dynamic(names, name, _) => name == property && are_same(names.names(), target),
        _ => false,
    }
}

/// Whether the other item defines or assigns what this one does. Own assignments are told of by themselves.
fn has_same_key(item: &Item, other: &Item) -> bool
    ensures { result ≡ has_same_key item.now other.now }
{
    match item {
        Item::Define(name, _) => defines(Some(other), name),
        Item::Instance(shell, _) => is_instance(Some(other), shell.name()),
        Item::Own(_, _) => false,
        Item::Default(property, _) => is_default(other, property),
        Item::Dynamic(target, property, _) => assigns(other, target.names(), property),
    }
}

/// Whether no other item of the body defines or assigns what this one does, which has this number.
fn is_apart(body: &Body, number: usize, item: &Item) -> bool
    ensures { result ≡ true → IsApart body.now number item.now }
{
    for i in 0..body.len() {
        if let Some(other) = body.item(i) {
            if i != number && has_same_key(item, other) {
                return false;
            }
        }
    }
    true
}

/// Whether this holds of each item from one number up to another.
fn are_apart(body: &Body, from: usize, to: usize) -> bool
    ensures { result ≡ true → (i : ℕ) (y : Item) → from ≤ i → i < to → IsItem i body.now y → IsApart body.now i y }
{
    for i in from..to {
        if let Some(item) = body.item(i) {
            if !is_apart(body, i, item) {
                return false;
            }
        }
    }
    true
}

fn is_own(item: &Item) -> bool
    ensures { result ≡ is_own item.now }
{
    match item {
        Item::Own(_, _) => true,
        _ => false,
    }
}

/// Whether an own assignment is among the items from one number up to another.
fn has_own(body: &Body, from: usize, to: usize) -> bool
    ensures { result ≡ false → (i : ℕ) (y : Item) → from ≤ i → i < to → IsItem i body.now y → is_own y ≡ false }
{
    for i in from..to {
        if let Some(item) = body.item(i) {
            if is_own(item) {
                return true;
            }
        }
    }
    false
}

/// Whether it is seen that nothing before an own assignment of this number makes a fault of it.
fn is_lone_own(body: &Body, number: usize, item: &Item) -> bool
    ensures { result ≡ true → is_own item.now ≡ true → stands_alone body.now number item.now ≡ true }
{
    match item {
        Item::Own(name, _) => {
            own_before(body, number, name.as_str()).is_none()
                && !excluded_by(number, body, property(name.as_str()))
        }
        _ => true,
    }
}

/// Whether it is seen of each own assignment of the body.
fn do_owns_stand_alone(body: &Body) -> bool
    ensures { result ≡ true → DoOwnsStandAlone body.now }
{
    for i in 0..body.len() {
        if let Some(item) = body.item(i) {
            if !is_lone_own(body, i, item) {
                return false;
            }
        }
    }
    true
}

/// Whether it is seen that no item of a body makes a fault of another one.
pub(crate) fn all_stand_alone(body: &Body) -> bool
    ensures { result ≡ true → AllStandAlone body.now }
{
    let count = body.len();
    if count.saturating_mul(count) > MAX_PAIRS {
        return false;
    }
    are_apart(body, 0, count) && do_owns_stand_alone(body)
}

/// Whether no part of the item was exchanged but the type that it names, and it wasn't moved.
fn has_no_firsts_but_its_type(mark: &Mark) -> bool
    ensures { result ≡ true → firsts_of mark.now ≡ retyped (firsts_of mark.now).type_name }
{
    mark.shell.is_none()
        && mark.defined.is_none()
        && mark.value.is_none()
        && mark.target.is_none()
        && !mark.is_moved
}

/// Whether the items of a piece are as they were but for what is inside them and the types that they name.
fn is_kept(piece: &Piece) -> bool
    ensures { result ≡ true → AreSame (piece_traces piece.now) }
{
    match piece {
        Piece::New(_) => false,
        Piece::Kept(_, _) => true,
        Piece::Marked(_, mark) => has_no_firsts_but_its_type(mark),
    }
}

/// Whether so many items of a body came or were changed that they aren't compared with all others.
fn are_many_changed(pieces: &Pieces, body: &Body) -> bool {
    let mut changed = 0usize;
    for place in 0..usize::MAX {
        let Some(piece) = pieces.get(place) else {
            break;
        };
        if !is_kept(piece) {
            changed = changed.saturating_add(len(piece));
        }
    }
    changed.saturating_mul(body.len()) > MAX_PAIRS
}

/// Whether own assignments are among the items of these pieces that came or were changed, if it is seen that no other item of the body
/// does the same as one of those.
fn changes_owns(pieces: &Pieces, body: &Body) -> Option<bool>
    ensures { IfSome result (λ owns. AreSameOrApart (pieces_traces (in_order pieces.now)) body.now owns) }
{
    let mut from = 0usize;
    let mut owns = false;
    let mut place = 0usize;
    while let Some(piece) = pieces.get(place) {
        let to = from.checked_add(len(piece))?;
        if !is_kept(piece) {
            if !are_apart(body, from, to) {
                return None;
            }
            owns = owns || has_own(body, from, to);
        }
        from = to;
        place += 1;
    }
    Some(owns)
}

/// Whether it is seen that no item of a body makes a fault of another one, where none did in what the body was.
pub(crate) fn stand_alone(marks: &BodyMarks, body: &Body) -> bool
    ensures { result ≡ true → (old : Items) → Describes marks.now old body.now → AllStandAlone old → AllStandAlone body.now }
{
    if are_many_changed(&marks.pieces, body) {
        return false;
    }
    match changes_owns(&marks.pieces, body) {
        Some(owns) => !owns || do_owns_stand_alone(body),
        None => false,
    }
}
