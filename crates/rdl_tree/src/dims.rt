//! The sizes of an array of instances.
ghost use Rattle.std.specs.Prelude.{◌≡◌, ℕ, List, [], IfOk};

use rdl_text::token::Number;
use std::alloc::{AllocError, Global};
use std::marker::Model;

/// The sizes between the brackets of an instance, the outermost first. A contract sees their list, which is empty for
/// an instance without brackets.
#[derive(Debug, Drop)]
pub struct Dims {
    sizes: Vec<Number>,
}

impl Model for Dims {
    ghost Value = { List ℕ };

    ghost view = { λ dims. dims.sizes.items };
}

impl Dims {
    pub fn new(alloc: Global) -> Dims
        ensures { result ≡ [] }
    {
        Dims {
            sizes: Vec::new(alloc),
        }
    }

    pub fn from_vec(sizes: Vec<Number>) -> Dims
        ensures { result ≡ sizes.items }
    {
        Dims { sizes }
    }

    pub fn as_slice(&self) -> &[Number]
        ensures { result.now ≡ self.now }
    {
        self.sizes.as_slice()
    }

    pub fn try_copy(&self, alloc: Global) -> Result<Dims, AllocError>
        ensures { IfOk result (λ dims. dims ≡ self.now) }
    {
        let sizes = Vec::from_slice(alloc, self.sizes.as_slice())?;
        Ok(Dims { sizes })
    }
}
