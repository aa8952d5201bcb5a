//! Changes of a body's own items.
ghost use Rattle.std.specs.Prelude.{◌≡◌, ◌<◌, ◌≤◌, ◌++◌, ◌∷◌, [], ◌-◌, length, is_ok, if◌then◌else◌, IfErr, Some, slice_get, remove, take, drop};
ghost use Rattle.std.specs.Option.{option_to_list};
ghost use Rattle.rdl_tree.specs.View.{list_of, items_of};
ghost use Rattle.rdl_tree.specs.Edit.{insert_item, put_back, remove_item, shift_item, replace_item};

use crate::description::{Body, Item};
use std::alloc::AllocFailed;
use std::mem;

/// Moves the item of this number behind all others.
fn to_end(items: &mut [Item], number: usize)
    requires { number < length items.old }
    ensures { items.new ≡ remove items.old number ++ option_to_list (slice_get items.old number) }
{
    items[number..].rotate_left(1);
}

/// Moves the last item before that of this number.
fn from_end(items: &mut [Item], number: usize)
    requires { number < length items.old }
    ensures { items.new ≡ take number items.old ++ drop (length items.old - 1) items.old ++ drop number (take (length items.old - 1) items.old) }
{
    items[number..].rotate_right(1);
}

/// Takes the item out and puts it in again where it has the number `to`. No item moves but those from the one number to the
/// other.
fn shift_among(items: &mut [Item], from: usize, to: usize)
    requires from { from < length items.old }
    requires to { to < length items.old }
    ensures { items.new ≡ put_back to (remove items.old from) (slice_get items.old from) }
{
    if from < to {
        to_end(&mut items[..to + 1], from);
    } else {
        from_end(&mut items[..from + 1], to);
    }
}

impl Body {
    /// Puts the item behind all others.
    #[tactic(auto, using(crate::proofs::Rounds::views))]
    pub fn push(&mut self, item: Item) -> Result<(), AllocFailed<Item>>
        ensures after { self.new ≡ (if is_ok result then items_of (list_of self.old ++ item ∷ []) else self.old) }
        ensures value_returned { IfErr result (λ refused. refused.value ≡ item) }
    {
        self.items.push(item)
    }

    /// Puts the item where it has this number.
    #[tactic(auto, using(crate::proofs::Rounds::views))]
    pub fn insert(&mut self, number: usize, item: Item) -> Result<(), AllocFailed<Item>>
        requires { number ≤ length (list_of self.old) }
        ensures after { self.new ≡ (if is_ok result then insert_item number item self.old else self.old) }
        ensures value_returned { IfErr result (λ refused. refused.value ≡ item) }
    {
        self.items.insert(number, item)
    }

    #[tactic(auto, using(crate::proofs::Rounds::views))]
    pub fn remove(&mut self, number: usize) -> Item
        requires { number < length (list_of self.old) }
        ensures after { self.new ≡ remove_item number self.old }
        ensures value { slice_get (list_of self.old) number ≡ Some result }
    {
        self.items.remove(number)
    }

    /// Takes the item out and puts it in again where it has the number `to`. This takes no memory.
    #[tactic(auto, using(crate::proofs::Rounds::views))]
    pub fn shift(&mut self, from: usize, to: usize)
        requires from_an_item { from < length (list_of self.old) }
        requires to_an_item { to < length (list_of self.old) }
        ensures { self.new ≡ shift_item from to self.old }
    {
        shift_among(self.items.as_mut_slice(), from, to);
    }

    /// Puts the item in the place of another, which comes back.
    #[tactic(auto, using(crate::proofs::Rounds::views))]
    pub fn replace(&mut self, number: usize, item: Item) -> Item
        requires { number < length (list_of self.old) }
        ensures after { self.new ≡ replace_item number item self.old }
        ensures value { slice_get (list_of self.old) number ≡ Some result }
    {
        mem::replace(&mut self.items[number], item)
    }
}
