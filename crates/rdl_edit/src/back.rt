//! What takes a step of the map back.
ghost use Rattle.std.specs.Prelude.{◌≡◌};
ghost use Rattle.rdl_tree.specs.PatchWeight.{patches_weight};
ghost use Rattle.rdl_tree.specs.Weight.{capped};

use rdl_tree::patch::Patch;
use std::marker::Model;

/// One patch for each item that the step touched, and no copy of the map. A contract sees a `Reversal`.
#[derive(Debug, Drop)]
pub struct Back {
    patches: Vec<Patch>,
    read: bool,
}

impl Model for Back {
    ghost use Rattle.rdl_edit.specs.Backs.{Reversal};
    ghost use Rattle.rdl_tree.specs.contracts.patch.Patch as patch;
    ghost use Rattle.std.specs.Coded.{codes};

    ghost Value = { Reversal };

    ghost coded = { Prim.hlevel (codes, patch.the_row.coded) };

    ghost view = { λ back. record { patches = back.patches.items; read = back.read } };
}

impl Back {
    /// These patches, with the mark whether they were read from a session.
    pub fn new(patches: Vec<Patch>, read: bool) -> Back
        ensures { result ≡ record { patches = patches.items; read = read } }
    {
        Back { patches, read }
    }

    /// The patches, without the mark.
    pub fn into_vec(self) -> Vec<Patch>
        ensures { result.items ≡ self.patches }
    {
        let Back { patches, .. } = self;
        patches
    }

    /// What is kept: for each patch 1, its numbers, and the weight of its item or the bytes of its part's texts.
    pub fn weight(&self) -> u64
        ensures { result ≡ capped (patches_weight self.now.patches) }
    {
        let mut sum = 0u64;
        for patch in &self.patches {
            sum = sum.saturating_add(patch.weight());
        }
        sum
    }

    /// The patches, in the order in which they are applied.
    pub fn patches(&self) -> &[Patch]
        ensures { result.now ≡ self.now.patches }
    {
        self.patches.as_slice()
    }

    /// Whether it was read from a session, or takes back a step that was.
    pub fn read(&self) -> bool
        ensures { result ≡ self.now.read }
    {
        self.read
    }
}
