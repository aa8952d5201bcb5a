//! Where in a body an item is put.
ghost use Rattle.std.specs.Prelude.{◌≡◌, ◌≤◌, ◌<◌, length, remove, MatchOption};
ghost use Rattle.std.specs.List.{position};
ghost use Rattle.rdl_tree.specs.Edit.{remove_item};
ghost use Rattle.rdl_tree.specs.Find.{is_named};
ghost use Rattle.rdl_tree.specs.View.{list_of};
ghost use Rattle.rdl_rewrite.specs.Place.{place_number};

use rdl_tree::description::{Body, Item};
use rdl_tree::path::Segment;

/// Where an item is put among those of a body.
#[derive(Debug, Drop)]
pub enum Place {
    /// Before all items.
    First,
    /// After all items.
    Last,
    /// Next to the first item of this sort and name, before it.
    Before(Segment),
    /// Next to the first item of this sort and name, after it.
    After(Segment),
}

impl Place {
    /// The number that an item put here gets in the body, where the item to stand next to is there.
    pub fn number(&self, body: &Body) -> Option<usize>
        ensures place { result ≡ place_number self.now (list_of body.now) }
        ensures within { MatchOption result (Unit {0}) (λ number. number ≤ length (list_of body.now)) }
    {
        let len = body.len();
        match self {
            Place::First => Some(0),
            Place::Last => Some(len),
            Place::Before(sibling) => body.position(sibling),
            Place::After(sibling) => Some(body.position(sibling)? + 1),
        }
    }

    /// The number that the item of this number gets in its body if it is moved here, where the item to stand next to is
    /// one of the others.
    pub(crate) fn number_among(&self, number: usize, body: &Body) -> Option<usize>
        requires { number < length (list_of body.now) }
        ensures { result ≡ place_number self.now (list_of (remove_item number body.now)) }
    {
        let items = body.as_slice();
        match self {
            Place::First => Some(0),
            Place::Last => Some(items.len() - 1),
            Place::Before(sibling) => position_among(sibling, number, items),
            Place::After(sibling) => Some(position_among(sibling, number, items)? + 1),
        }
    }
}

fn position(segment: &Segment, items: &[Item]) -> Option<usize>
    ensures { result ≡ position (is_named segment.now) items.now }
{
    items.iter().position(|item| segment.names(item))
}

/// The number of the first item of the segment's sort and name among these without the one of this number.
fn position_among(segment: &Segment, number: usize, items: &[Item]) -> Option<usize>
    requires { number < length items.now }
    ensures { result ≡ position (is_named segment.now) (remove items.now number) }
{
    match position(segment, &items[..number]) {
        Some(before) => Some(before),
        None => Some(number + position(segment, &items[number + 1..])?),
    }
}
