//! The body at an address, lent to be changed.
//!
//! A borrow that goes down a tree of any depth gets no proof. An address has at most 17 numbers, so here the depth is
//! in the types: each `Deeper` takes one number of the way.
ghost use Rattle.std.specs.Prelude.{◌≡◌, ℕ, ◌+◌, ◌≤◌, length};
ghost use Rattle.std.specs.Option.{option_copied_mut};
ghost use Rattle.std.specs.Borrow.{LendsIf, sem};
ghost use Rattle.rdl_tree.specs.Address.{body_at, map_body};
ghost use Rattle.rdl_tree.specs.Component.{component_at, set_component, of_component, own_component, with_of_component, with_own_component};
ghost use Rattle.rdl_tree.specs.contracts.description.Body.{the_row as body_row};
ghost use Rattle.rdl_tree.specs.contracts.description.Item.{the_row as item_row};
ghost use Rattle.rdl_tree.specs.contracts.description.Of.{the_row as of_row};
ghost use Rattle.rdl_tree.specs.contracts.description.Component.{the_row as component_row};
ghost use Rattle.rdl_tree.specs.contracts.description.Description.{the_row as description_row};

use crate::address::Address;
use crate::description::{Body, Component, Description, Item, Of};

impl Description {
    /// The body at the address, where the item there has a component of its own. Once the reference ends, the
    /// description is the old one with what the reference holds in the place of that body.
    pub fn body_mut(&mut self, address: &Address) -> Option<&mut Body>
        ensures* writes_back { sem 𝓛 (LendsIf description_row body_row self.entry result (λ w. record { items = map_body address.now (λ _. w) self.old.items }) self.old) }
        ensures value { option_copied_mut result ≡ body_at address.now self.old.items }
    {
        match address.as_slice() {
            [] => Some(&mut self.items),
            [number, rest @ ..] => Sixteen::descend(self.items.component_mut(*number)?, rest),
        }
    }
}

impl Body {
    /// The own component of the item with this number.
    pub fn component_mut(&mut self, number: usize) -> Option<&mut Component>
        ensures* writes_back { sem 𝓛 (LendsIf body_row component_row self.entry result (λ w. set_component number w self.old) self.old) }
        ensures value { option_copied_mut result ≡ component_at number self.old }
    {
        self.item_mut(number)?.component_mut()
    }
}

impl Item {
    /// The item's own component. An instance of a named type has none.
    pub fn component_mut(&mut self) -> Option<&mut Component>
        ensures* writes_back { sem 𝓛 (LendsIf item_row component_row self.entry result (with_own_component self.old) self.old) }
        ensures value { option_copied_mut result ≡ own_component self.old }
    {
        match self {
            Item::Define(_, component) => Some(component),
            Item::Instance(_, of) => of.component_mut(),
            _ => None,
        }
    }
}

impl Of {
    pub fn component_mut(&mut self) -> Option<&mut Component>
        ensures* writes_back { sem 𝓛 (LendsIf of_row component_row self.entry result (with_of_component self.old) self.old) }
        ensures value { option_copied_mut result ≡ of_component self.old }
    {
        match self {
            Of::Named(_) => None,
            Of::Anonymous(component) => Some(component),
        }
    }
}

/// A way down from a component, along a path of at most `depth` numbers.
pub trait Descent {
    ghost depth: { ℕ };

    fn descend<'a>(component: &'a mut Component, path: &[usize]) -> Option<&'a mut Body>
        requires { length path.now ≤ depth }
        ensures* writes_back { sem 𝓛 (LendsIf component_row body_row component.entry result (λ w. record component.old { body = map_body path.now (λ _. w) component.old.body }) component.old) }
        ensures value { option_copied_mut result ≡ body_at path.now component.old.body };
}

/// The component's own body, and no further.
pub struct Here;

/// One number, and then `R`.
pub struct Deeper<R: Descent>(R);

impl Descent for Here {
    ghost depth = { 0 };

    fn descend<'a>(component: &'a mut Component, path: &[usize]) -> Option<&'a mut Body> {
        match path {
            [] => Some(&mut component.body),
            _ => unreachable!(),
        }
    }
}

impl<R: Descent> Descent for Deeper<R> {
    ghost depth = { R.depth + 1 };

    fn descend<'a>(component: &'a mut Component, path: &[usize]) -> Option<&'a mut Body> {
        match path {
            [] => Some(&mut component.body),
            [number, rest @ ..] => R::descend(component.body.component_mut(*number)?, rest),
        }
    }
}

pub type Four<R> = Deeper<Deeper<Deeper<Deeper<R>>>>;

/// The numbers of an address behind its first one.
pub type Sixteen = Four<Four<Four<Four<Here>>>>;
