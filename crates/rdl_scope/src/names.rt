//! Items under their names.
use crate::by_name::ByName;
use rdl_tree::description::Item;
use std::alloc::{AllocError, Global};

/// The numbers of items under their names.
#[derive(Drop)]
pub(crate) struct Names<'a> {
    numbers: ByName<'a, usize>,
}

impl<'a> Names<'a> {
    ghost use Rattle.std.specs.Prelude.{◌≡◌, ℕ, List, Some, None, IfOk, OnOk, bytes_eq, if◌then◌else◌};
    ghost use Rattle.std.specs.Option.{is_some};
    ghost use Rattle.rdl_scope.specs.Scopes.{number_under};
    ghost use Rattle.rdl_scope.specs.Walk.{is_definition};

    pub(crate) fn new(alloc: Global) -> Names<'a>
        ensures { (q : List ℕ) → number_under result q ≡ None }
    {
        Names {
            numbers: ByName::new(alloc),
        }
    }

    /// No numbers, where so many are awaited.
    pub(crate) fn with_room(alloc: Global, names: usize) -> Result<Names<'a>, AllocError>
        ensures { IfOk result (λ names. (q : List ℕ) → number_under names q ≡ None) }
    {
        Ok(Names {
            numbers: ByName::with_room(alloc, names)?,
        })
    }

    pub(crate) fn get(&self, name: &'a str) -> Option<usize>
        ensures { result ≡ number_under self.now name.now }
    {
        self.numbers.get(name)
    }

    pub(crate) fn has(&self, name: &'a str) -> bool
        ensures { result ≡ is_some (number_under self.now name.now) }
    {
        self.get(name).is_some()
    }

    /// Puts the number under the name, in the place of what was there, and answers whether something was.
    pub(crate) fn note(&mut self, name: &'a str, number: usize) -> Result<bool, AllocError>
        ensures twice { IfOk result (λ twice. twice ≡ is_some (number_under self.old name.now)) }
        ensures noted { OnOk result ((q : List ℕ) → number_under self.new q ≡ (if bytes_eq name.now q then Some number else number_under self.old q)) }
    {
        Ok(self.numbers.put(name, number)?.is_some())
    }

    /// Puts the number under the item's name, if it is a definition.
    pub(crate) fn put_definition(&mut self, item: &'a Item, number: usize) -> Result<(), AllocError>
        ensures { OnOk result ((q : List ℕ) → number_under self.new q ≡ (if is_definition q (Some item.now) then Some number else number_under self.old q)) }
    {
        if let Item::Define(name, _) = item {
            self.note(name.as_str(), number)?;
        }
        Ok(())
    }
}
