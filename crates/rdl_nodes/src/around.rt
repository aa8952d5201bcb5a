//! What a body sees around it.
ghost use Rattle.std.specs.Prelude.{◌≡◌, OnOk, option_map, [], take, length};
ghost use Rattle.rdl_nodes.specs.HeldAround.{around_of};
ghost use Rattle.rdl_nodes.specs.HeldTypes.{known_of};
ghost use Rattle.rdl_nodes.specs.declared.types.Known.{Known};
ghost use Rattle.rdl_scope.specs.Closed.{lookup};
ghost use Rattle.rdl_seen.specs.Node.{with_type};
ghost use Rattle.rdl_seen.specs.Values.{no_values};
ghost use Rattle.std.specs.Borrow.{Bor};

use crate::types::{Known, Types};
use rdl_seen::values::Values;
use rdl_text::name::Name;
use std::alloc::{AllocError, Global};

/// What a body sees: the types that are defined before an item, and the defaults that reach it.
///
/// It is known, too, whether an assignment may look names up inside a component. Nothing that is kept goes by that.
#[derive(Drop)]
pub struct Around<'a> {
    types: Types<'a>,
    pub defaults: Values,
    pub(crate) leads_inside: bool,
}

impl<'a> Around<'a> {
    /// What stands around a whole description: nothing.
    pub fn nothing(alloc: Global) -> Around<'a>
        ensures { around_of result ≡ record { types = []; defaults = no_values } }
    {
        Around {
            types: Types::new(alloc),
            defaults: Values::none(),
            leads_inside: false,
        }
    }

    /// The type of this name that was defined last.
    pub fn get(&self, name: &'a Name) -> Option<&Known<'a>>
        ensures { option_map (λ (k : Bor Known). known_of k.now) result ≡ lookup name.now (around_of self.now).types }
    {
        self.types.get(name)
    }

    /// Defines one more type.
    pub(crate) fn define(&mut self, name: &'a Name, known: Known<'a>) -> Result<(), AllocError>
        ensures around { OnOk result (around_of self.new ≡ with_type name.now (known_of known.entry) (around_of self.old)) }
        ensures defined { OnOk result (take (length self.old.types.list.items) self.new.types.list.items ≡ self.old.types.list.items) }
    {
        self.types.push(name, known)
    }

    /// How many types are defined.
    pub(crate) fn len(&self) -> usize
        ensures { result ≡ length self.now.types.list.items }
    {
        self.types.len()
    }

    /// Leaves the first types, so many of them, and has these defaults.
    pub(crate) fn leave(&mut self, len: usize, defaults: Values)
        ensures types { self.new.types.list.items ≡ take len self.old.types.list.items }
        ensures defaults { self.new.defaults ≡ defaults }
    {
        self.types.truncate(len);
        self.defaults = defaults;
    }
}
