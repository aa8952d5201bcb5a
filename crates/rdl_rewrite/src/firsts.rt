//! The instances before an item in its body.
use rdl_scope::by_name::ByName;
use rdl_tree::description::Item;
use std::alloc::{AllocError, Global};

/// The number of the first instance of each name, and whether its component is the one in which the taken item stands.
#[derive(Drop)]
pub(crate) struct Firsts<'a> {
    instances: ByName<'a, (usize, bool)>,
}

impl<'a> Firsts<'a> {
    ghost use Rattle.std.specs.Prelude.{◌≡◌, ℕ, List, Some, None, IfOk, OnOk, bytes_eq, if◌then◌else◌};
    ghost use Rattle.std.specs.Option.{option_or};
    ghost use Rattle.rdl_rewrite.specs.Firsts.{first_under, NotesItem};

    /// No instances, where so many are awaited.
    pub(crate) fn with_room(alloc: Global, instances: usize) -> Result<Firsts<'a>, AllocError>
        ensures { IfOk result (λ firsts. (q : List ℕ) → first_under firsts q ≡ None) }
    {
        Ok(Firsts {
            instances: ByName::with_room(alloc, instances)?,
        })
    }

    pub(crate) fn get(&self, name: &'a str) -> Option<(usize, bool)>
        ensures { result ≡ first_under self.now name.now }
    {
        self.instances.get(name)
    }

    fn put(&mut self, name: &'a str, number: usize, is_inside: bool) -> Result<(), AllocError>
        ensures { OnOk result ((q : List ℕ) → first_under self.new q ≡ option_or (first_under self.old q) (if bytes_eq name.now q then Some (number, is_inside) else None)) }
    {
        match self.get(name) {
            Some(_) => Ok(()),
            None => {
                self.instances.put(name, (number, is_inside))?;
                Ok(())
            }
        }
    }

    /// Notes the item of this number, if it is the first instance of its name.
    pub(crate) fn note(
        &mut self,
        found: &'a Item,
        number: usize,
        is_inside: bool,
    ) -> Result<(), AllocError>
        ensures { OnOk result (NotesItem self.old self.new found.now number is_inside) }
    {
        match found {
            Item::Instance(shell, _) => self.put(shell.name().as_str(), number, is_inside),
            _ => Ok(()),
        }
    }
}
