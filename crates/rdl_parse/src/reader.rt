//! A cursor over words.
ghost use Rattle.rdl_parse.specs.Reading as spec;
ghost use Rattle.rdl_parse.specs.Reading.{Gives};
ghost use Rattle.rdl_parse.specs.Symbol.{symbols};
ghost use Rattle.rdl_parse.specs.declared.fault.Stop.{Stop};
ghost use Rattle.rdl_parse.specs.Finds.{seen, nothing};
ghost use Rattle.std.specs.Prelude.{◌≡◌};

use crate::fault::{Fault, Stop};
use crate::found::Found;
use crate::word::{name_of, new_name, number_of, prop_of, value_of};
use rdl_text::list::Words;
use rdl_text::name::Name;
use rdl_text::token::{Mark, Number};
use rdl_tree::value::Value;
use std::alloc::Global;
use std::mem;

/// The words that are left.
#[derive(Drop)]
pub(crate) struct Reader<'a> {
    pub(crate) rest: Words<'a>,
    /// Room for the items of a statement, which most need no more of than the one before.
    pub(crate) spare: Found,
}

/// Words that don't go on as they must.
#[inline(always)]
#[tactic(auto, using(crate::proofs::Words::length_symbols))]
pub(crate) fn wrong(words: &Words<'_>) -> Stop
    ensures { result ≡ Stop.Fault (spec.fault_at (symbols words.now)) }
{
    match words.len() {
        0 => Stop::Fault(Fault::End),
        left => Stop::Fault(Fault::Unexpected(left)),
    }
}

impl<'a> Reader<'a> {
    pub(crate) fn new(alloc: Global, words: Words<'a>) -> Reader<'a>
        ensures { result.rest ≡ words.entry }
    {
        Reader {
            rest: words,
            spare: Found::new(alloc),
        }
    }

    /// No items yet, of a statement.
    #[inline(always)]
    pub(crate) fn no_items(&mut self, alloc: Global) -> Found
        ensures found { seen result ≡ nothing }
        ensures rest { self.new.rest ≡ self.old.rest }
    {
        let mut found = mem::replace(&mut self.spare, Found::new(alloc));
        found.clear();
        found
    }

    #[inline(always)]
    #[tactic(auto, using(crate::proofs::Words::begins_first))]
    pub(crate) fn begins(&self, mark: Mark) -> bool
        ensures { result ≡ spec.begins mark (symbols self.now.rest) }
    {
        match self.rest.mark() {
            Some(own) => own == mark,
            None => false,
        }
    }

    #[inline(always)]
    #[tactic(auto, using(crate::proofs::Words::mark_met, crate::proofs::Words::mark_missed))]
    pub(crate) fn mark(&mut self, mark: Mark) -> Result<(), Stop>
        ensures { Gives (λ _. symbols self.new.rest) result (spec.mark_at mark (symbols self.old.rest)) }
    {
        if self.begins(mark) {
            self.rest = self.rest.others();
            Ok(())
        } else {
            Err(wrong(&self.rest))
        }
    }

    #[inline(always)]
    #[tactic(auto, unfolding(crate::specs::Reading::by))]
    pub(crate) fn number(&mut self) -> Result<Number, Stop>
        ensures { Gives (λ n. (n, symbols self.new.rest)) result (spec.number_at (symbols self.old.rest)) }
    {
        let Some((word, rest)) = self.rest.split_first() else {
            return Err(wrong(&self.rest));
        };
        match number_of(&word) {
            Some(number) => {
                self.rest = rest;
                Ok(number)
            }
            None => Err(wrong(&self.rest)),
        }
    }

    #[inline(always)]
    #[tactic(auto, unfolding(crate::specs::Reading::by))]
    pub(crate) fn name(&mut self, alloc: Global) -> Result<Name, Stop>
        ensures { Gives (λ n. (n, symbols self.new.rest)) result (spec.name_at (symbols self.old.rest)) }
    {
        let Some((word, rest)) = self.rest.split_first() else {
            return Err(wrong(&self.rest));
        };
        match name_of(&word) {
            Some(name) => {
                self.rest = rest;
                new_name(alloc, name)
            }
            None => Err(wrong(&self.rest)),
        }
    }

    /// The name of a property.
    #[inline(always)]
    #[tactic(auto, unfolding(crate::specs::Reading::by))]
    pub(crate) fn prop(&mut self, alloc: Global) -> Result<Name, Stop>
        ensures { Gives (λ n. (n, symbols self.new.rest)) result (spec.prop_at (symbols self.old.rest)) }
    {
        let Some((word, rest)) = self.rest.split_first() else {
            return Err(wrong(&self.rest));
        };
        match prop_of(&word) {
            Some(name) => {
                self.rest = rest;
                new_name(alloc, name)
            }
            None => Err(wrong(&self.rest)),
        }
    }

    #[inline(always)]
    #[tactic(auto, unfolding(crate::specs::Reading::by))]
    fn given(&mut self, alloc: Global) -> Result<Value, Stop>
        ensures { Gives (λ v. (v, symbols self.new.rest)) result (spec.by spec.value_by (symbols self.old.rest)) }
    {
        let Some((word, rest)) = self.rest.split_first() else {
            return Err(wrong(&self.rest));
        };
        match value_of(alloc, &word)? {
            Some(value) => {
                self.rest = rest;
                Ok(value)
            }
            None => Err(wrong(&self.rest)),
        }
    }

    /// What an assignment gives: the value behind `=`, or `true` where none stands.
    #[inline(always)]
    #[tactic(auto, unfolding(crate::specs::Reading::value_at))]
    pub(crate) fn value(&mut self, alloc: Global) -> Result<Value, Stop>
        ensures { Gives (λ v. (v, symbols self.new.rest)) result (spec.value_at (symbols self.old.rest)) }
    {
        if !self.begins(Mark::Equals) {
            return Ok(Value::Bool(true));
        }
        self.mark(Mark::Equals)?;
        self.given(alloc)
    }
}
