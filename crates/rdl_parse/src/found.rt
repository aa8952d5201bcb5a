//! Items, and where the word of each stands.
ghost use Rattle.std.specs.Prelude.{◌≡◌, List, [], OnOk};
ghost use Rattle.rdl_parse.specs.Finds.{seen, nothing, single, joined};

use rdl_tree::description::Item;
use std::alloc::{AllocError, Global};
use std::mem;

/// How many words there are from the item's word on, and how many items are inside it.
#[derive(Clone, Copy, Debug, PartialEq, Eq)]
pub struct Spot {
    pub left: usize,
    pub inside: usize,
}

/// Items of a body, and a spot for each of them and of those inside them, in pre-order.
#[derive(Drop)]
pub struct Found {
    pub(crate) items: Vec<Item>,
    pub(crate) spots: Vec<Spot>,
}

impl Found {
    pub fn new(alloc: Global) -> Found
        ensures { seen result ≡ nothing }
    {
        Found {
            items: Vec::new(alloc),
            spots: Vec::new(alloc),
        }
    }

    /// Forgets what was found, and keeps the room for it.
    #[inline(always)]
    pub fn clear(&mut self)
        ensures { seen self.new ≡ nothing }
    {
        self.items.clear();
        self.spots.clear();
    }

    #[inline(always)]
    pub fn push(&mut self, item: Item, left: usize, inner: &[Spot]) -> Result<(), AllocError>
        ensures { OnOk result (seen self.new ≡ joined (seen self.old) (single item left inner.now)) }
    {
        self.items.push(item)?;
        self.spots.push(Spot {
            left,
            inside: inner.len(),
        })?;
        if !inner.is_empty() {
            self.spots.extend_from_slice(inner)?;
        }
        Ok(())
    }

    /// Where nothing was found before, the room of the others is taken over. Most statements have one item, and an item is
    /// large: so the others get room for one.
    #[inline(always)]
    pub fn append(&mut self, other: &mut Found) -> Result<(), AllocError>
        ensures { OnOk result (seen self.new ≡ joined (seen self.old) (seen other.old)) }
    {
        if self.items.is_empty() {
            mem::swap(&mut self.items, &mut other.items);
            other.items.reserve_exact(1)?;
        } else {
            self.items.append(&mut other.items)?;
        }
        self.spots.append(&mut other.spots)?;
        Ok(())
    }
}
