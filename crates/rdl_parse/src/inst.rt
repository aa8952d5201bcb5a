//! One instance of a statement: its name, and the parts behind it.
ghost use Rattle.rdl_parse.specs.Reading as spec;
ghost use Rattle.rdl_parse.specs.Reading.{Gives};
ghost use Rattle.rdl_parse.specs.Symbol.{symbols};
ghost use Rattle.std.specs.Prelude.{◌≡◌, [], ◌∷◌, ◌++◌, Some, None};

use crate::fault::Stop;
use crate::reader::Reader;
use rdl_text::token::{Mark, Number};
use rdl_tree::dims::Dims;
use rdl_tree::shell::{Outside, Shell, ShellParts};
use rdl_tree::stated::{Stated, StatedRange};
use std::alloc::Global;

type Range = Option<(Number, Number)>;

impl<'a> Reader<'a> {
    /// One more `[number]`.
    #[tactic(auto, unfolding(crate::specs::Reading::size_at))]
    fn size(&mut self, sizes: &mut Vec<Number>) -> Result<(), Stop>
        ensures { Gives (λ _. (sizes.new.items, symbols self.new.rest)) result (spec.size_at sizes.old.items (symbols self.old.rest)) }
    {
        self.mark(Mark::OpenBracket)?;
        let size = self.number()?;
        self.mark(Mark::CloseBracket)?;
        sizes.push(size)?;
        Ok(())
    }

    fn sizes(&mut self, sizes: &mut Vec<Number>) -> Result<(), Stop>
        ensures { Gives (λ _. (sizes.new.items, symbols self.new.rest)) result (spec.sizes_at sizes.old.items (symbols self.old.rest)) }
    {
        'sizes: while self.begins(Mark::OpenBracket) {
            self.size(sizes)?;
        }
        Ok(())
    }

    /// What stands behind the first number in brackets.
    #[tactic(auto, unfolding(crate::specs::Reading::bracketed_at))]
    fn bracketed(&mut self, alloc: Global, first: Number) -> Result<(Dims, Range), Stop>
        ensures { Gives (λ b. (b, symbols self.new.rest)) result (spec.bracketed_at first (symbols self.old.rest)) }
    {
        if self.begins(Mark::Colon) {
            self.mark(Mark::Colon)?;
            let low = self.number()?;
            self.mark(Mark::CloseBracket)?;
            return Ok((Dims::new(alloc), Some((first, low))));
        }
        self.mark(Mark::CloseBracket)?;
        let mut sizes = Vec::new(alloc);
        sizes.push(first)?;
        self.sizes(&mut sizes)?;
        Ok((Dims::from_vec(sizes), None))
    }

    #[tactic(auto, unfolding(crate::specs::Reading::brackets_at))]
    fn brackets(&mut self, alloc: Global) -> Result<(Dims, Range), Stop>
        ensures { Gives (λ b. (b, symbols self.new.rest)) result (spec.brackets_at (symbols self.old.rest)) }
    {
        if !self.begins(Mark::OpenBracket) {
            return Ok((Dims::new(alloc), None));
        }
        self.mark(Mark::OpenBracket)?;
        let first = self.number()?;
        self.bracketed(alloc, first)
    }

    /// The number behind a mark, if the mark stands here.
    #[inline(always)]
    #[tactic(auto, unfolding(crate::specs::Reading::part_at))]
    fn part(&mut self, mark: Mark) -> Result<Option<Number>, Stop>
        ensures { Gives (λ n. (n, symbols self.new.rest)) result (spec.part_at mark (symbols self.old.rest)) }
    {
        if !self.begins(mark) {
            return Ok(None);
        }
        self.mark(mark)?;
        let number = self.number()?;
        Ok(Some(number))
    }

    #[tactic(auto, unfolding(crate::specs::Reading::inst_at))]
    pub(crate) fn inst(&mut self, alloc: Global, outside: Outside) -> Result<Shell, Stop>
        ensures { Gives (λ s. (s, symbols self.new.rest)) result (spec.inst_at outside (symbols self.old.rest)) }
    {
        let name = self.name(alloc)?;
        let (dims, range) = self.brackets(alloc)?;
        let reset = self.part(Mark::Equals)?;
        let address = self.part(Mark::At)?;
        let stride = self.part(Mark::PlusEquals)?;
        let align = self.part(Mark::PercentEquals)?;
        let parts = ShellParts {
            outside,
            dims,
            range: StatedRange::new(alloc, range)?,
            reset: Stated::new(alloc, reset)?,
            address: Stated::new(alloc, address)?,
            stride: Stated::new(alloc, stride)?,
            align: Stated::new(alloc, align)?,
        };
        Ok(Shell::of(alloc, name, parts)?)
    }
}
