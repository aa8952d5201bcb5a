//! The items of a first map, and what became of each.
ghost use Rattle.std.specs.Prelude.{◌≡◌, ◌==◌, IfOk, length};
ghost use Rattle.rdl_origin.specs.Traces.{no_traces};
ghost use Rattle.rdl_origin.specs.View.{list_of};
ghost use Rattle.rdl_origin.specs.Numbered.{origins_of};

use crate::numbered::numbered;
use rdl_tree::description::Description;
use std::alloc::{AllocError, Global};
use std::marker::Model;

/// An item of the first map.
#[cycle(origin)]
#[derive(Debug, Drop)]
pub struct Origin {
    /// The item of the last map that it became, by its number in pre-order. There is none where it was removed.
    pub now: Option<u32>,
    /// Whether a part of its own was changed: its name, shell, type, value or target. What is inside is no part of it.
    pub is_touched: bool,
    /// Whether it was moved among the items of its body.
    pub is_moved: bool,
    /// The items of its own component's body, if it has one.
    pub inside: Origins,
}

/// The items of a body of the first map, in order. A contract sees `Traces`.
#[cycle(origin)]
#[derive(Debug, Drop)]
pub struct Origins {
    pub(crate) list: Vec<Origin>,
}

impl Model for Origins {
    ghost use Rattle.rdl_origin.specs.Traces.{Traces, traces_count};
    ghost use Rattle.rdl_origin.specs.Codes.{coded_traces};

    ghost Value = { Traces };

    ghost coded = { coded_traces };

    ghost use Rattle.rdl_origin.specs.View.{traces_of};

    ghost view = { λ a. traces_of a.list.items };

    ghost size = { traces_count };

    ghost use Rattle.rdl_origin.specs.Falls.{deep_le-count};

    ghost size_decreases = { λ a h. deep_le-count a.list.items };
}

impl Origins {
    /// Before any step back: each item of the last map is itself. Numbers stop at the greatest `u32`.
    pub fn new(alloc: Global, last: &Description) -> Result<Origins, AllocError>
        ensures { IfOk result (λ origins. origins ≡ origins_of last.now.items) }
    {
        let mut next = 0;
        numbered(alloc, &last.items, &mut next)
    }

    /// Those of a body without items.
    pub(crate) fn none(alloc: Global) -> Origins
        ensures { result ≡ no_traces }
    {
        Origins {
            list: Vec::new(alloc),
        }
    }

    #[tactic(auto, using(crate::proofs::Rounds::views))]
    pub fn len(&self) -> usize
        ensures { result ≡ length (list_of self.now) }
    {
        self.list.len()
    }

    #[tactic(auto, using(crate::proofs::Rounds::views))]
    pub fn is_empty(&self) -> bool
        ensures { result ≡ (length (list_of self.now) == 0) }
    {
        self.list.is_empty()
    }

    #[tactic(auto, using(crate::proofs::Rounds::views))]
    pub fn as_slice(&self) -> &[Origin]
        ensures { result.now ≡ list_of self.now }
    {
        self.list.as_slice()
    }
}
