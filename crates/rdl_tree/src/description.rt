//! The tree of a description.
ghost use Rattle.std.specs.Prelude.{◌≡◌, ◌==◌, ℕ, length, option_copied, slice_get, slice_set};
ghost use Rattle.std.specs.Option.{option_copied_mut};
ghost use Rattle.std.specs.Borrow.{LendsIf, sem};
ghost use Rattle.rdl_tree.specs.Items.{no_items};
ghost use Rattle.rdl_tree.specs.View.{items_of, list_of, own_body};
ghost use Rattle.rdl_tree.specs.Address.{body_at, inner};
ghost use Rattle.rdl_tree.specs.contracts.description.Body.{the_row as body_row};
ghost use Rattle.rdl_tree.specs.contracts.description.Item.{the_row as item_row};

use crate::address::Address;
use crate::shell::{Kind, Shell};
use crate::target::Target;
use crate::value::Value;
use rdl_text::name::Name;
use std::alloc::Global;
use std::marker::Model;

/// The items of a text, without places, comments or layouts.
///
/// As for every type here, the derived `Drop` goes down the tree by recursion, one level of calls per level of nesting,
/// and along each body by a loop. So do all functions that go down, and bodies nest at most 16 deep below the root.
#[derive(Debug, Drop)]
pub struct Description {
    pub items: Body,
}

/// The items between two braces, in order, or those of the whole text. A contract sees `Items`.
#[cycle(tree)]
#[derive(Debug, Drop)]
pub struct Body {
    pub(crate) items: Vec<Item>,
}

/// A statement, or what it says of one instance.
#[cycle(tree)]
#[derive(Debug, Drop)]
pub enum Item {
    /// `reg NAME { .. };`
    Define(Name, Component),
    /// `TYPE NAME;` or `reg { .. } NAME;`
    Instance(Shell, Of),
    /// `property = value;`
    Own(Name, Value),
    /// `default property = value;`
    Default(Name, Value),
    /// `a.b->property = value;`
    Dynamic(Target, Name, Value),
}

/// What an instance is an instance of.
#[cycle(tree)]
#[derive(Debug, Drop)]
pub enum Of {
    Named(Name),
    Anonymous(Component),
}

/// A kind, and what stands between the braces.
#[cycle(tree)]
#[derive(Debug, Drop)]
pub struct Component {
    pub kind: Kind,
    pub body: Body,
}

impl Model for Body {
    ghost use Rattle.rdl_tree.specs.Items.{Items, count};
    ghost use Rattle.rdl_tree.specs.Codes.{coded_items};

    ghost Value = { Items };

    ghost coded = { coded_items };

    ghost use Rattle.rdl_tree.specs.View.{items_of};

    ghost view = { λ a. items_of a.items.items };

    ghost size = { count };

    ghost use Rattle.rdl_tree.specs.Falls.{deep_le-count};

    ghost size_decreases = { λ a h. deep_le-count a.items.items };
}

impl Description {
    /// The body at the address, where the item there has a component of its own.
    pub fn body(&self, address: &Address) -> Option<&Body>
        ensures { option_copied result ≡ body_at address.now self.now.items }
    {
        self.items.at(address.as_slice())
    }
}

impl Body {
    pub fn new(alloc: Global) -> Body
        ensures { result ≡ no_items }
    {
        Body {
            items: Vec::new(alloc),
        }
    }

    pub fn from_vec(items: Vec<Item>) -> Body
        ensures { result ≡ items_of items.items }
    {
        Body { items }
    }

    #[tactic(auto, using(crate::proofs::Rounds::views))]
    pub fn len(&self) -> usize
        ensures { result ≡ length (list_of self.now) }
    {
        self.items.len()
    }

    #[tactic(auto, using(crate::proofs::Rounds::views))]
    pub fn is_empty(&self) -> bool
        ensures { result ≡ (length (list_of self.now) == 0) }
    {
        self.items.is_empty()
    }

    #[tactic(auto, using(crate::proofs::Rounds::views))]
    pub fn as_slice(&self) -> &[Item]
        ensures { result.now ≡ list_of self.now }
    {
        self.items.as_slice()
    }

    #[tactic(auto, using(crate::proofs::Rounds::views))]
    pub fn item(&self, number: usize) -> Option<&Item>
        ensures { option_copied result ≡ slice_get (list_of self.now) number }
    {
        if number < self.items.len() {
            Some(&self.items[number])
        } else {
            None
        }
    }

    #[tactic(auto, using(crate::proofs::Rounds::views))]
    pub fn item_mut(&mut self, number: usize) -> Option<&mut Item>
        ensures* writes_back { sem 𝓛 (LendsIf body_row item_row self.entry result (λ w. items_of (slice_set (list_of self.old) number w)) self.old) }
        ensures value { option_copied_mut result ≡ slice_get (list_of self.old) number }
    {
        self.items.get_mut(number)
    }

    /// The body of an item's own component.
    #[tactic(auto, using(crate::proofs::Rounds::views))]
    pub fn inner(&self, number: usize) -> Option<&Body>
        ensures { option_copied result ≡ inner number self.now }
    {
        self.item(number)?.own_body()
    }

    fn at(&self, path: &[usize]) -> Option<&Body>
        ensures { option_copied result ≡ body_at path.now self.now }
    {
        match path {
            [] => Some(self),
            [number, rest @ ..] => self.inner(*number)?.at(rest),
        }
    }
}

impl Item {
    /// The body of the item's own component. An instance of a named type has none.
    pub fn own_body(&self) -> Option<&Body>
        ensures { option_copied result ≡ own_body self.now }
    {
        match self {
            Item::Define(_, component) => Some(&component.body),
            Item::Instance(_, Of::Anonymous(component)) => Some(&component.body),
            _ => None,
        }
    }
}
