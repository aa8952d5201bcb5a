//! A body's items on both sides of a place, at which items go in and out one after another.
ghost use Rattle.std.specs.Prelude.{◌≡◌, ◌+◌, ◌<◌, ◌≤◌, ◌++◌, length, reverse, IfOk, IfErr, OnOk, OnErr, Some, slice_get, vec_capacity};
ghost use Rattle.rdl_tree.specs.View.{list_of};
ghost use Rattle.rdl_tree.specs.Edit.{insert_item, remove_item};

use crate::description::{Body, Item};
use std::alloc::{AllocError, Global};
use std::marker::Model;
use std::mem;

/// The items of a body, those behind a place in reverse. Each list has room for all of them. A contract sees `Items`.
#[derive(Drop)]
pub(crate) struct Gap {
    front: Vec<Item>,
    behind: Vec<Item>,
}

impl Model for Gap {
    ghost use Rattle.std.specs.Prelude.{◌++◌, reverse, length, vec_capacity};
    ghost use Rattle.rdl_tree.specs.Items.{Items};
    ghost use Rattle.rdl_tree.specs.Codes.{coded_items};
    ghost use Rattle.rdl_tree.specs.View.{items_of};
    ghost use Rattle.rdl_tree.specs.Room.{HaveRoom};

    ghost Value = { Items };

    ghost coded = { coded_items };

    ghost view = { λ g. items_of (g.front.items ++ reverse g.behind.items) };

    ghost invariant = { λ g. HaveRoom (length g.front.items) (length g.behind.items) (vec_capacity g.front) (vec_capacity g.behind) };
}

impl Gap {
    /// Takes all items out of the body, if memory for them and so many more can be had.
    pub(crate) fn open(body: &mut Body, alloc: Global, more: usize) -> Result<Gap, AllocError>
        ensures opened { IfOk result (λ gap. gap ≡ body.old) }
        ensures stays { OnErr result (body.new ≡ body.old) }
    {
        body.items.reserve(more)?;
        let behind = Vec::with_capacity(alloc, body.items.capacity())?;
        let front = mem::replace(&mut body.items, Vec::new(alloc));
        Ok(Gap { front, behind })
    }

    /// Gives the items to the body. This takes no memory.
    pub(crate) fn close(self, body: &mut Body)
        ensures { body.new ≡ self }
    {
        let Gap {
            mut front,
            mut behind,
        } = self;
        pour(&mut behind, &mut front, 0);
        body.items = front;
    }

    #[tactic(auto, using(crate::proofs::Gaps::gaps))]
    pub(crate) fn len(&self) -> usize
        ensures { result ≡ length (list_of self.now) }
    {
        self.front.len() + self.behind.len()
    }

    /// Takes the item of this number out.
    pub(crate) fn remove(&mut self, number: usize) -> Item
        requires { number < length (list_of self.old) }
        ensures after { self.new ≡ remove_item number self.old }
        ensures value { slice_get (list_of self.old) number ≡ Some result }
    {
        seek(&mut self.front, &mut self.behind, number + 1);
        self.front.remove(number)
    }

    /// Puts the item where it has this number, if there is room for it.
    pub(crate) fn insert(&mut self, number: usize, item: Item) -> Result<(), Item>
        requires { number ≤ length (list_of self.old) }
        ensures after { OnOk result (self.new ≡ insert_item number item self.old) }
        ensures stays { OnErr result (self.new ≡ self.old) }
        ensures value_returned { IfErr result (λ refused. refused ≡ item) }
    {
        let len = self.front.len() + self.behind.len();
        if len >= self.front.capacity() || len >= self.behind.capacity() {
            return Err(item);
        }
        seek(&mut self.front, &mut self.behind, number);
        match self.front.insert(number, item) {
            Ok(()) => Ok(()),
            Err(_) => unreachable!(),
        }
    }
}

/// Moves items from one list to the other, so that so many are in front.
fn seek(front: &mut Vec<Item>, behind: &mut Vec<Item>, number: usize)
    requires there { number ≤ length front.old.items + length behind.old.items }
    requires front_room { length front.old.items + length behind.old.items ≤ vec_capacity front.old }
    requires behind_room { length front.old.items + length behind.old.items ≤ vec_capacity behind.old }
    ensures same { front.new.items ++ reverse behind.new.items ≡ front.old.items ++ reverse behind.old.items }
    ensures number { length front.new.items ≡ number }
    ensures count { length front.new.items + length behind.new.items ≡ length front.old.items + length behind.old.items }
    ensures front_capacity { vec_capacity front.old ≤ vec_capacity front.new }
    ensures behind_capacity { vec_capacity behind.old ≤ vec_capacity behind.new }
{
    if number < front.len() {
        pour(front, behind, number);
    } else {
        let left = behind.len() - (number - front.len());
        pour(behind, front, left);
    }
}

/// Moves items from the end of one list to the end of the other, the last one first, until so many are left.
pub(crate) fn pour(from: &mut Vec<Item>, to: &mut Vec<Item>, left: usize)
    requires there { left ≤ length from.old.items }
    requires room { length from.old.items + length to.old.items ≤ vec_capacity to.old }
    ensures same { from.new.items ++ reverse to.new.items ≡ from.old.items ++ reverse to.old.items }
    ensures left { length from.new.items ≡ left }
    ensures count { length from.new.items + length to.new.items ≡ length from.old.items + length to.old.items }
    ensures from_capacity { vec_capacity from.old ≤ vec_capacity from.new }
    ensures to_capacity { vec_capacity to.old ≤ vec_capacity to.new }
{
    'items: while from.len() > left {
        let item = from.pop().unwrap();
        to.push(item).unwrap();
    }
}
