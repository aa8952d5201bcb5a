//! How many items a description has.
ghost use Rattle.std.specs.Prelude.{◌≡◌};
ghost use Rattle.rdl_tree.specs.Items.{no_items, count};
ghost use Rattle.rdl_tree.specs.View.{add};
ghost use Rattle.rdl_tree.specs.Weight.{capped};

use crate::description::{Body, Description, Item, Of};

impl Description {
    /// The items of all bodies together.
    pub fn count(&self) -> u64
        ensures { result ≡ capped (count self.now.items) }
    {
        self.items.count()
    }
}

impl Body {
    #[cycle(count)]
    #[tactic(auto, using(crate::proofs::Rounds::views))]
    pub fn count(&self) -> u64
        ensures { result ≡ capped (count self.now) }
    {
        let mut sum = 0u64;
        for item in &self.items {
            sum = sum.saturating_add(item.count());
        }
        sum
    }
}

impl Item {
    /// The item itself, and those inside it.
    #[cycle(count)]
    pub fn count(&self) -> u64
        ensures { result ≡ capped (count (add self.now no_items)) }
    {
        match self {
            Item::Define(_, component) => component.body.count().saturating_add(1),
            Item::Instance(_, Of::Anonymous(component)) => component.body.count().saturating_add(1),
            Item::Instance(_, Of::Named(_)) => 1,
            Item::Own(_, _) | Item::Default(_, _) | Item::Dynamic(_, _, _) => 1,
        }
    }
}
