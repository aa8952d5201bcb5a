//! The parts of an item that can be replaced where it stands.
ghost use Rattle.std.specs.Prelude.{◌≡◌, ◌<◌, IsTrue, IsSomeAnd, length, Some, slice_get};
ghost use Rattle.rdl_tree.specs.Part.{has_part, with_part, part_of, with_part_at, part_at};
ghost use Rattle.rdl_tree.specs.View.{list_of};

use crate::description::{Body, Item, Of};
use crate::shell::Shell;
use crate::target::Target;
use crate::value::Value;
use rdl_text::name::Name;
use std::mem;

/// A part of an item.
#[derive(Debug, Drop)]
pub enum Part {
    /// The shell of an instance.
    OfShell(Shell),
    /// The value of an assignment.
    OfValue(Value),
    /// The target of a dynamic assignment.
    OfTarget(Target),
    /// The name of the type of an instance.
    OfType(Name),
    /// The name of a definition.
    OfDefine(Name),
}

impl Item {
    /// Exchanges the part and the item's own.
    pub fn swap_part(&mut self, part: &mut Part)
        requires { IsTrue (has_part part.old self.old) }
        ensures after { self.new ≡ with_part part.old self.old }
        ensures value { part.new ≡ part_of part.old self.old }
    {
        match (self, part) {
            (Item::Instance(shell, _), Part::OfShell(new)) => mem::swap(shell, new),
            (Item::Instance(_, Of::Named(name)), Part::OfType(new)) => mem::swap(name, new),
            (Item::Define(name, _), Part::OfDefine(new)) => mem::swap(name, new),
            (Item::Own(_, value), Part::OfValue(new)) => mem::swap(value, new),
            (Item::Default(_, value), Part::OfValue(new)) => mem::swap(value, new),
            (Item::Dynamic(_, _, value), Part::OfValue(new)) => mem::swap(value, new),
            (Item::Dynamic(target, _, _), Part::OfTarget(new)) => mem::swap(target, new),
            _ => unreachable!(),
        }
    }

    /// Puts the part in the place of the item's own, which comes back.
    pub fn exchange(&mut self, part: Part) -> Part
        requires { IsTrue (has_part part self.old) }
        ensures after { self.new ≡ with_part part self.old }
        ensures value { result ≡ part_of part self.old }
    {
        let mut part = part;
        self.swap_part(&mut part);
        part
    }
}

impl Body {
    /// Exchanges the part and the one of the item with this number.
    #[tactic(auto, using(crate::proofs::Rounds::views))]
    pub fn swap_part(&mut self, number: usize, part: &mut Part)
        requires { IsSomeAnd (slice_get (list_of self.old) number) (λ item. IsTrue (has_part part.old item)) }
        ensures after { self.new ≡ with_part_at number part.old self.old }
        ensures value { Some part.new ≡ part_at number part.old self.old }
    {
        self.items[number].swap_part(part)
    }

    /// Puts the part in the place of the one of the item with this number, which comes back.
    pub fn exchange(&mut self, number: usize, part: Part) -> Part
        requires { IsSomeAnd (slice_get (list_of self.old) number) (λ item. IsTrue (has_part part item)) }
        ensures after { self.new ≡ with_part_at number part self.old }
        ensures value { Some result ≡ part_at number part self.old }
    {
        let mut part = part;
        self.swap_part(number, &mut part);
        part
    }
}
