//! What a search for the first row that has a fault finds.
ghost use Rattle.std.specs.Prelude.{◌≡◌, ◌<◌, ◌∷◌, ◌++◌, [], length, Some};
ghost use Rattle.sound_nodes.specs.Rows.{is_clear, faulty_or};

use rdl_tree::address::Address;
use rdl_tree::fault::{Fault, FaultKind};

/// What a search for the first row that has a fault has found.
#[derive(Debug, Drop)]
pub enum Found {
    /// No row has a fault.
    Clear,
    /// This is the fault of the first row that has one.
    Faulty(Fault),
    /// What is kept of the map doesn't tell.
    Untold,
}

impl Found {
    ghost use Rattle.std.specs.Prelude.{◌≡◌};
    ghost use Rattle.sound_nodes.specs.Rows.{is_clear};

    /// Whether no row has a fault, as far as was searched.
    pub fn is_clear(&self) -> bool
        ensures { result ≡ is_clear self.now }
    {
        match self {
            Found::Clear => true,
            Found::Faulty(_) | Found::Untold => false,
        }
    }
}

/// The fault of the item of this number in the body at this address.
pub(crate) fn faulty(body: &Address, number: usize, kind: FaultKind) -> Found
    requires { length body.now < 17 }
    ensures { (more : Found) → result ≡ faulty_or (body.now ++ number ∷ []) (Some kind) more }
{
    Found::Faulty(Fault {
        kind,
        address: body.inside(number),
    })
}
