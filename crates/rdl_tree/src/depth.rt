//! How deep a description nests.
ghost use Rattle.std.specs.Prelude.{◌≡◌};
ghost use Rattle.rdl_tree.specs.Items.{no_items};
ghost use Rattle.rdl_tree.specs.View.{add};
ghost use Rattle.rdl_tree.specs.Weight.{capped};
ghost use Rattle.rdl_tree.specs.Depth.{depth};

use crate::description::{Body, Description, Item, Of};

impl Description {
    /// The level of the innermost body, where the root body's is 0.
    pub fn depth(&self) -> u64
        ensures { result ≡ capped (depth self.now.items) }
    {
        self.items.depth()
    }
}

impl Body {
    #[cycle(depth)]
    #[tactic(auto, using(crate::proofs::Rounds::views))]
    pub fn depth(&self) -> u64
        ensures { result ≡ capped (depth self.now) }
    {
        let mut deepest = 0u64;
        for item in &self.items {
            deepest = deepest.max(item.depth());
        }
        deepest
    }
}

impl Item {
    /// How deep the item's own component nests, its braces included.
    #[cycle(depth)]
    pub fn depth(&self) -> u64
        ensures { result ≡ capped (depth (add self.now no_items)) }
    {
        match self {
            Item::Define(_, component) => component.body.depth().saturating_add(1),
            Item::Instance(_, Of::Anonymous(component)) => component.body.depth().saturating_add(1),
            Item::Instance(_, Of::Named(_)) => 0,
            Item::Own(_, _) | Item::Default(_, _) | Item::Dynamic(_, _, _) => 0,
        }
    }
}
