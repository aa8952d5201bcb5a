//! The way along a path of names.
ghost use Rattle.std.specs.Prelude.{◌≡◌, option_copied};
ghost use Rattle.std.specs.List.{position};
ghost use Rattle.rdl_tree.specs.ItemAt.{item_at};
ghost use Rattle.rdl_tree.specs.View.{list_of};
ghost use Rattle.rdl_tree.specs.Find.{is_named, find};

use crate::address::Address;
use crate::description::{Body, Description, Item};
use crate::path::{Path, PathFault, Segment};

impl Description {
    /// The address of the item to which the path leads. Of several items of one sort and name the first counts.
    pub fn find(&self, path: &Path) -> Result<Address, PathFault>
        ensures { result ≡ find path.now self.now.items }
    {
        if path.len() > Address::MAX_LEN {
            return Err(PathFault::NoSuchName);
        }
        let mut address = Address::new();
        let mut body = Some(&self.items);
        for segment in path.as_slice() {
            let Some(here) = body else {
                return Err(PathFault::ThroughNamedType);
            };
            let Some(number) = here.position(segment) else {
                return Err(PathFault::NoSuchName);
            };
            address.push(number);
            body = here.inner(number);
        }
        Ok(address)
    }
}

impl Body {
    /// The number of the first item of the segment's sort and name.
    pub fn position(&self, segment: &Segment) -> Option<usize>
        ensures { result ≡ position (is_named segment.now) (list_of self.now) }
    {
        self.as_slice().iter().position(|item| segment.names(item))
    }
}

impl Segment {
    /// Whether the item is of this sort and has this name.
    pub fn names(&self, item: &Item) -> bool
        ensures { result ≡ is_named self.now item.now }
    {
        match (self, item) {
            (Segment::Def(name), Item::Define(defined, _)) => defined == name,
            (Segment::Inst(name), Item::Instance(shell, _)) => shell.name() == name,
            _ => false,
        }
    }
}

/// The item at this address of the body: each number but the last leads to an item's own body.
pub fn item_at<'a>(body: &'a Body, path: &[usize]) -> Option<&'a Item>
    ensures { option_copied result ≡ item_at path.now body.now }
{
    match path {
        [] => None,
        [number] => body.item(*number),
        [number, rest @ ..] => item_at(body.inner(*number)?, rest),
    }
}
