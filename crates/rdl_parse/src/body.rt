//! Statements with a body, and bodies.
ghost use Rattle.rdl_parse.specs.Finds.{seen};
ghost use Rattle.rdl_parse.specs.Gathering.{behind, finished, definition_at, anonymous_at};
ghost use Rattle.rdl_parse.specs.Reading as spec;
ghost use Rattle.rdl_parse.specs.Reading.{Gives, body_at};
ghost use Rattle.rdl_parse.specs.Symbol.{symbols};
ghost use Rattle.std.specs.Prelude.{◌≡◌};

use crate::class::Class;
use crate::fault::{Fault, Stop};
use crate::found::{Found, Spot};
use crate::gathered::Gathered;
use crate::reader::{Reader, wrong};
use crate::room::Room;
use crate::word::{new_name, property_name};
use rdl_text::name::Name;
use rdl_text::token::{Mark, TokenKind};
use rdl_tree::description::{Body, Component, Item, Of};
use rdl_tree::shell::{Kind, Outside};
use std::alloc::Global;

impl<'a> Reader<'a> {
    /// What stands behind a kind and a name.
    #[cycle(parse)]
    fn definition(
        &mut self,
        alloc: Global,
        levels: u32,
        room: Room,
        front: Option<Outside>,
        left: usize,
        kind: Kind,
        name: Name,
    ) -> Result<Gathered, Stop>
        ensures { Gives (λ g. (finished g, symbols self.new.rest)) result (definition_at (body_at levels) room front left kind name (symbols self.old.rest)) }
    {
        let (body, spots) = self.body(alloc, levels, room)?;
        let of = Of::Named(name.try_copy(alloc)?);
        let mut found = self.no_items(alloc);
        found.push(Item::Define(name, Component { kind, body }), left, &spots)?;
        self.defined(alloc, room, front, of, found)
    }

    /// What stands behind a kind without a name.
    #[cycle(parse)]
    fn anonymous(
        &mut self,
        alloc: Global,
        levels: u32,
        room: Room,
        front: Option<Outside>,
        kind: Kind,
    ) -> Result<Gathered, Stop>
        ensures { Gives (λ g. (finished g, symbols self.new.rest)) result (anonymous_at (body_at levels) room front kind (symbols self.old.rest)) }
    {
        let (body, spots) = self.body(alloc, levels, room)?;
        let of = Of::Anonymous(Component { kind, body });
        let found = self.no_items(alloc);
        self.late_insts(alloc, room, front, of, &spots, found)
    }

    /// What stands behind a kind, where so many words begin with the first of the statement.
    #[cycle(parse)]
    #[tactic(auto, using(crate::proofs::Bodies::component_by))]
    fn component(
        &mut self,
        alloc: Global,
        levels: u32,
        room: Room,
        front: Option<Outside>,
        left: usize,
        kind: Kind,
    ) -> Result<Gathered, Stop>
        ensures { Gives (λ g. (finished g, symbols self.new.rest)) result (spec.component_at (body_at levels) room front left kind (symbols self.old.rest)) }
    {
        match self.optional_name(alloc)? {
            Some(name) => self.definition(alloc, levels, room, front, left, kind, name),
            None => self.anonymous(alloc, levels, room, front, kind),
        }
    }

    /// What stands behind `external` or `internal` at the front of a statement.
    #[cycle(parse)]
    #[tactic(auto, unfolding(crate::specs::Reading::fronted_at))]
    fn fronted(
        &mut self,
        alloc: Global,
        levels: u32,
        room: Room,
        left: usize,
        outside: Outside,
    ) -> Result<Gathered, Stop>
        ensures { Gives (λ g. (finished g, symbols self.new.rest)) result (spec.fronted_at (body_at levels) room left outside (symbols self.old.rest)) }
    {
        let Some((word, rest)) = self.rest.split_first() else {
            return Err(wrong(&self.rest));
        };
        word.is_spelled();
        if word.kind() != TokenKind::Identifier {
            return Err(wrong(&self.rest));
        }
        match Class::of(word.source()) {
            Class::Kind(kind) => {
                self.rest = rest;
                self.component(alloc, levels, room, Some(outside), left, kind)
            }
            Class::Name => {
                self.rest = rest;
                let of = Of::Named(new_name(alloc, word.source())?);
                let found = self.no_items(alloc);
                self.insts(alloc, room, outside, of, &[], found)
            }
            _ => Err(wrong(&self.rest)),
        }
    }

    #[cycle(parse)]
    #[tactic(auto, unfolding(crate::specs::Reading::statement_at), using(crate::proofs::Words::length_symbols))]
    pub(crate) fn statement(
        &mut self,
        alloc: Global,
        levels: u32,
        room: Room,
        found: &mut Found,
    ) -> Result<Room, Stop>
        ensures { Gives (λ r. ((seen found.new, r), symbols self.new.rest)) result (behind (seen found.old) (spec.statement_at (body_at levels) room (symbols self.old.rest))) }
    {
        let left = self.rest.len();
        let Some((word, rest)) = self.rest.split_first() else {
            return Err(wrong(&self.rest));
        };
        word.is_spelled();
        if word.kind() != TokenKind::Identifier {
            return Err(wrong(&self.rest));
        }
        match Class::of(word.source()) {
            Class::Kind(kind) => {
                self.rest = rest;
                let gathered = self.component(alloc, levels, room, None, left, kind)?;
                Ok(self.keep(gathered, found)?)
            }
            Class::Outside(outside) => {
                self.rest = rest;
                let gathered = self.fronted(alloc, levels, room, left, outside)?;
                Ok(self.keep(gathered, found)?)
            }
            Class::Default => {
                self.rest = rest;
                self.default(alloc, room, left, found)
            }
            Class::Name => {
                self.rest = rest;
                let name = new_name(alloc, word.source())?;
                self.named(alloc, room, left, name, found)
            }
            Class::Property(property) => {
                self.rest = rest;
                let name = new_name(alloc, property_name(property))?;
                self.own(alloc, room, left, name, found)
            }
            Class::Truth(_) | Class::Word(_) | Class::Reserved => Err(wrong(&self.rest)),
        }
    }

    #[tactic(auto, unfolding(crate::specs::Reading::goes_on), using(crate::proofs::Words::goes_on_first))]
    fn goes_on(&self) -> bool
        ensures { result ≡ spec.goes_on (symbols self.now.rest) }
    {
        self.rest.len() > 0 && !self.begins(Mark::CloseBrace)
    }

    /// Statements, up to a brace or the end.
    #[cycle(parse)]
    pub(crate) fn statements(
        &mut self,
        alloc: Global,
        levels: u32,
        before: Room,
    ) -> Result<Found, Stop>
        ensures { Gives (λ f. (seen f, symbols self.new.rest)) result (spec.statements_at (body_at levels) before (symbols self.old.rest)) }
    {
        let mut room = before;
        let mut found = Found::new(alloc);
        'turns: while self.goes_on() {
            room = self.statement(alloc, levels, room, &mut found)?;
        }
        Ok(found)
    }

    /// A body in braces, where so many more may be opened.
    #[cycle(parse)]
    fn body(&mut self, alloc: Global, levels: u32, room: Room) -> Result<(Body, Vec<Spot>), Stop>
        ensures { Gives (λ b. (record { items = b.0; spots = b.1.items }, symbols self.new.rest)) result (body_at levels room (symbols self.old.rest)) }
    {
        self.mark(Mark::OpenBrace)?;
        if levels == 0 {
            return Err(Stop::Fault(Fault::TooDeep(self.rest.len() + 1)));
        }
        let Found { mut items, spots } = self.statements(alloc, levels - 1, room)?;
        self.mark(Mark::CloseBrace)?;
        items.shrink_to_fit();
        Ok((Body::from_vec(items), spots))
    }
}
