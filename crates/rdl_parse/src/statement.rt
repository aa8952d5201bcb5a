//! Statements without a body of their own, and the ends of all.
ghost use Rattle.rdl_parse.specs.Finds.{seen, single, joined, nothing};
ghost use Rattle.rdl_parse.specs.Gathering.{behind, finished, gathered_at, next_of, ended_at, optional_name_at};
ghost use Rattle.rdl_parse.specs.Reading as spec;
ghost use Rattle.rdl_parse.specs.Reading.{Gives, begins};
ghost use Rattle.rdl_parse.specs.Symbol.{symbols};
ghost use Rattle.rdl_text.specs.declared.token.Mark.TheVariants.{Comma};
ghost use Rattle.std.specs.Prelude.{◌≡◌, [], Ok, IfOk, option_map};

use crate::fault::{Fault, Stop};
use crate::found::{Found, Spot};
use crate::gathered::{Gathered, next, room_behind};
use crate::reader::Reader;
use crate::room::Room;
use crate::word::{name_of, new_name, outside_of};
use rdl_text::name::Name;
use rdl_text::token::Mark;
use rdl_tree::description::{Item, Of};
use rdl_tree::shell::Outside;
use rdl_tree::target::Target;
use std::alloc::{AllocError, Global};

impl<'a> Reader<'a> {
    /// The `;` behind these items.
    #[inline(always)]
    #[tactic(auto, unfolding(crate::specs::Gathering::ended_at), using(crate::proofs::Words::length_symbols))]
    fn end_statement(&mut self, kept: Option<Gathered>) -> Result<Gathered, Stop>
        ensures { Gives (λ g. (finished g, symbols self.new.rest)) result (ended_at (option_map finished kept) (symbols self.old.rest)) }
    {
        self.mark(Mark::Semicolon)?;
        match kept {
            Some(gathered) => Ok(gathered),
            None => Err(Stop::Fault(Fault::TooLarge(self.rest.len() + 1))),
        }
    }

    #[inline(always)]
    #[tactic(auto, using(crate::proofs::Gathering::finish_ended))]
    pub(crate) fn finish(&mut self, room: Room, found: Found) -> Result<Gathered, Stop>
        ensures { Gives (λ g. (finished g, symbols self.new.rest)) result (spec.finish_at room (seen found) (symbols self.old.rest)) }
    {
        self.end_statement(Gathered::new(room, found))
    }

    /// A statement of one item, which has nothing inside it, behind what was found before.
    #[inline(always)]
    #[tactic(auto, unfolding(crate::specs::Gathering::ended_at), using(crate::proofs::Words::length_symbols, crate::proofs::Gathering::finish_ended))]
    fn finish_item(
        &mut self,
        room: Room,
        item: Item,
        left: usize,
        found: &mut Found,
    ) -> Result<Room, Stop>
        ensures { Gives (λ r. ((seen found.new, r), symbols self.new.rest)) result (behind (seen found.old) (spec.finish_at room (single item left []) (symbols self.old.rest))) }
    {
        let kept = room_behind(room, &item);
        found.push(item, left, &[])?;
        self.mark(Mark::Semicolon)?;
        match kept {
            Some(room) => Ok(room),
            None => Err(Stop::Fault(Fault::TooLarge(self.rest.len() + 1))),
        }
    }

    /// Puts the items of a statement behind what was found before, and answers the room that they leave.
    #[inline(always)]
    pub(crate) fn keep(&mut self, gathered: Gathered, found: &mut Found) -> Result<Room, AllocError>
        ensures found { IfOk result (λ room. seen found.new ≡ joined (seen found.old) (seen gathered.found)) }
        ensures room { IfOk result (λ room. room ≡ gathered.room) }
        ensures rest { self.new.rest ≡ self.old.rest }
    {
        let Gathered {
            found: mut items,
            room,
        } = gathered;
        found.append(&mut items)?;
        self.spare = items;
        Ok(room)
    }

    /// One more instance behind these items, and what the next one is of, if a comma stands behind it.
    #[inline(always)]
    #[tactic(auto, unfolding(crate::specs::Gathering::gathered_at), using(crate::proofs::Words::length_symbols))]
    fn more(
        &mut self,
        alloc: Global,
        outside: Outside,
        of: Of,
        inner: &[Spot],
        kept: Option<Gathered>,
    ) -> Result<(Option<Gathered>, Option<Of>), Stop>
        ensures kept { Gives (λ r. (option_map finished r.0, symbols self.new.rest)) result (gathered_at outside of inner.now (option_map finished kept) (symbols self.old.rest)) }
        ensures next { IfOk result (λ r. r.1 ≡ next_of (begins Comma (symbols self.new.rest)) of) }
    {
        let left = self.rest.len();
        let shell = self.inst(alloc, outside)?;
        let again = self.begins(Mark::Comma);
        match kept {
            Some(gathered) => Ok(gathered.with_instance(alloc, shell, of, left, inner, again)?),
            None => Ok((None, next(again, of))),
        }
    }

    /// The instances of a statement, behind these items, and its `;`.
    #[inline(always)]
    pub(crate) fn insts(
        &mut self,
        alloc: Global,
        room: Room,
        outside: Outside,
        of: Of,
        inner: &[Spot],
        found: Found,
    ) -> Result<Gathered, Stop>
        ensures { Gives (λ g. (finished g, symbols self.new.rest)) result (spec.insts_at room outside of inner.now (seen found) (symbols self.old.rest)) }
    {
        let (mut kept, mut next) = self.more(
            alloc,
            outside,
            of,
            inner,
            Gathered::new(room, found),
        )?;
        'commas: while let Some(of) = next {
            self.mark(Mark::Comma)?;
            let (more, behind) = self.more(alloc, outside, of, inner, kept)?;
            kept = more;
            next = behind;
        }
        self.end_statement(kept)
    }

    /// What stands behind the property of an assignment to the component itself.
    #[inline(always)]
    #[tactic(auto, unfolding(crate::specs::Reading::own_at))]
    pub(crate) fn own(
        &mut self,
        alloc: Global,
        room: Room,
        left: usize,
        property: Name,
        found: &mut Found,
    ) -> Result<Room, Stop>
        ensures { Gives (λ r. ((seen found.new, r), symbols self.new.rest)) result (behind (seen found.old) (spec.own_at room left property (symbols self.old.rest))) }
    {
        let value = self.value(alloc)?;
        self.finish_item(room, Item::Own(property, value), left, found)
    }

    /// What stands behind `default`.
    #[inline(always)]
    #[tactic(auto, unfolding(crate::specs::Reading::default_at))]
    pub(crate) fn default(
        &mut self,
        alloc: Global,
        room: Room,
        left: usize,
        found: &mut Found,
    ) -> Result<Room, Stop>
        ensures { Gives (λ r. ((seen found.new, r), symbols self.new.rest)) result (behind (seen found.old) (spec.default_at room left (symbols self.old.rest))) }
    {
        let property = self.prop(alloc)?;
        let value = self.value(alloc)?;
        self.finish_item(room, Item::Default(property, value), left, found)
    }

    /// One more `.NAME`.
    #[inline(always)]
    #[tactic(auto, unfolding(crate::specs::Reading::dot_at))]
    fn dot(&mut self, alloc: Global, names: &mut Vec<Name>) -> Result<(), Stop>
        ensures { Gives (λ _. (names.new.items, symbols self.new.rest)) result (spec.dot_at names.old.items (symbols self.old.rest)) }
    {
        self.mark(Mark::Dot)?;
        let name = self.name(alloc)?;
        names.push(name)?;
        Ok(())
    }

    #[inline(always)]
    fn dots(&mut self, alloc: Global, names: &mut Vec<Name>) -> Result<(), Stop>
        ensures { Gives (λ _. (names.new.items, symbols self.new.rest)) result (spec.dots_at names.old.items (symbols self.old.rest)) }
    {
        'dots: while self.begins(Mark::Dot) {
            self.dot(alloc, names)?;
        }
        Ok(())
    }

    /// What stands behind the first name of a target.
    #[inline(always)]
    #[tactic(auto, unfolding(crate::specs::Reading::dynamic_at))]
    fn dynamic(
        &mut self,
        alloc: Global,
        room: Room,
        left: usize,
        first: Name,
        found: &mut Found,
    ) -> Result<Room, Stop>
        ensures { Gives (λ r. ((seen found.new, r), symbols self.new.rest)) result (behind (seen found.old) (spec.dynamic_at room left first (symbols self.old.rest))) }
    {
        let mut names = Vec::with_capacity(alloc, 2)?;
        names.push(first)?;
        self.dots(alloc, &mut names)?;
        self.mark(Mark::Arrow)?;
        let property = self.prop(alloc)?;
        let value = self.value(alloc)?;
        let target = Target::from_vec(names);
        self.finish_item(room, Item::Dynamic(target, property, value), left, found)
    }

    /// What stands behind a name at the front of a statement.
    #[tactic(auto, unfolding(crate::specs::Reading::named_at))]
    pub(crate) fn named(
        &mut self,
        alloc: Global,
        room: Room,
        left: usize,
        name: Name,
        found: &mut Found,
    ) -> Result<Room, Stop>
        ensures { Gives (λ r. ((seen found.new, r), symbols self.new.rest)) result (behind (seen found.old) (spec.named_at room left name (symbols self.old.rest))) }
    {
        if self.begins(Mark::Dot) || self.begins(Mark::Arrow) {
            return self.dynamic(alloc, room, left, name, found);
        }
        if self.begins(Mark::Equals) || self.begins(Mark::Semicolon) {
            return self.own(alloc, room, left, name, found);
        }
        let items = self.no_items(alloc);
        let gathered = self.insts(alloc, room, Outside::Unsaid, Of::Named(name), &[], items)?;
        let room = self.keep(gathered, found)?;
        Ok(room)
    }

    /// `external` or `internal` before the first instance, if none stands at the front.
    #[tactic(auto, unfolding(crate::specs::Reading::late_at))]
    fn late(&mut self, front: Option<Outside>) -> Outside
        ensures { spec.late_at front (symbols self.old.rest) ≡ Ok (result, symbols self.new.rest) }
    {
        if let Some(outside) = front {
            return outside;
        }
        let Some((word, rest)) = self.rest.split_first() else {
            return Outside::Unsaid;
        };
        match outside_of(&word) {
            Some(outside) => {
                self.rest = rest;
                outside
            }
            None => Outside::Unsaid,
        }
    }

    #[tactic(auto, unfolding(crate::specs::Reading::late_insts_at))]
    pub(crate) fn late_insts(
        &mut self,
        alloc: Global,
        room: Room,
        front: Option<Outside>,
        of: Of,
        inner: &[Spot],
        found: Found,
    ) -> Result<Gathered, Stop>
        ensures { Gives (λ g. (finished g, symbols self.new.rest)) result (spec.late_insts_at room front of inner.now (seen found) (symbols self.old.rest)) }
    {
        let outside = self.late(front);
        self.insts(alloc, room, outside, of, inner, found)
    }

    /// What stands behind a body with a name.
    #[tactic(auto, unfolding(crate::specs::Reading::defined_at))]
    pub(crate) fn defined(
        &mut self,
        alloc: Global,
        room: Room,
        front: Option<Outside>,
        of: Of,
        found: Found,
    ) -> Result<Gathered, Stop>
        ensures { Gives (λ g. (finished g, symbols self.new.rest)) result (spec.defined_at room front of (seen found) (symbols self.old.rest)) }
    {
        if front.is_none() && self.begins(Mark::Semicolon) {
            return self.finish(room, found);
        }
        self.late_insts(alloc, room, front, of, &[], found)
    }

    /// A name, if one stands here.
    #[tactic(auto, unfolding(crate::specs::Gathering::optional_name_at))]
    pub(crate) fn optional_name(&mut self, alloc: Global) -> Result<Option<Name>, Stop>
        ensures { Gives (λ n. (n, symbols self.new.rest)) result (optional_name_at (symbols self.old.rest)) }
    {
        let Some((word, rest)) = self.rest.split_first() else {
            return Ok(None);
        };
        match name_of(&word) {
            Some(name) => {
                self.rest = rest;
                Ok(Some(new_name(alloc, name)?))
            }
            None => Ok(None),
        }
    }
}
