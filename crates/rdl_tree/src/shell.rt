//! What an instance has besides its component.
use crate::dims::Dims;
use crate::stated::{Stated, StatedRange};
use rdl_text::name::Name;
use rdl_text::token::Number;
use std::alloc::{AllocError, Global};
use std::marker::Model;

/// The kind of a component.
#[derive(Clone, Copy, Debug, PartialEq, Eq)]
pub enum Kind {
    Addrmap,
    Regfile,
    Reg,
    Field,
}

/// Whether an instance is said to be `external` or `internal`.
#[derive(Clone, Copy, Debug, PartialEq, Eq)]
pub enum Outside {
    Unsaid,
    External,
    Internal,
}

/// The parts around the name of an instance. Any of them may stand with any kind here; which of them a kind allows is judged
/// elsewhere.
#[derive(Debug, Drop)]
pub struct ShellParts {
    pub outside: Outside,
    pub dims: Dims,
    /// The `[high:low]` of a field, the high bit first.
    pub range: StatedRange,
    /// The number behind `=`.
    pub reset: Stated,
    /// The number behind `@`.
    pub address: Stated,
    /// The number behind `+=`.
    pub stride: Stated,
    /// The number behind `%=`.
    pub align: Stated,
}

impl ShellParts {
    ghost use Rattle.std.specs.Prelude.{◌≡◌, ◌↔◌, IsTrue, IfOk};
    ghost use Rattle.rdl_tree.specs.ShellParts.{no_parts};

    /// No part.
    pub fn none(alloc: Global) -> ShellParts
        ensures { result ≡ no_parts }
    {
        ShellParts {
            outside: Outside::Unsaid,
            dims: Dims::new(alloc),
            range: StatedRange::none(),
            reset: Stated::none(),
            address: Stated::none(),
            stride: Stated::none(),
            align: Stated::none(),
        }
    }

    /// Whether there is none.
    fn are_none(&self) -> bool
        ensures { IsTrue result ↔ (self.now ≡ no_parts) }
    {
        self.outside == Outside::Unsaid
            && self.dims.as_slice().is_empty()
            && !self.range.is_some()
            && !self.reset.is_some()
            && !self.address.is_some()
            && !self.stride.is_some()
            && !self.align.is_some()
    }

    pub fn try_copy(&self, alloc: Global) -> Result<ShellParts, AllocError>
        ensures { IfOk result (λ parts. parts ≡ self.now) }
    {
        Ok(ShellParts {
            outside: self.outside,
            dims: self.dims.try_copy(alloc)?,
            range: self.range.try_copy(alloc)?,
            reset: self.reset.try_copy(alloc)?,
            address: self.address.try_copy(alloc)?,
            stride: self.stride.try_copy(alloc)?,
            align: self.align.try_copy(alloc)?,
        })
    }
}

/// An instance's name and the parts around it, which stand in memory of their own, if there are any. A contract sees the
/// record of specs/.
#[derive(Debug, Drop)]
pub struct Shell {
    name: Name,
    parts: Option<Box<ShellParts>>,
}

impl Model for Shell {
    ghost use Rattle.std.specs.Prelude.{◌≢◌, option_map, IfSome};
    ghost use Rattle.rdl_tree.specs.ShellParts.{Shell, held, no_parts};

    ghost Value = { Shell };

    ghost view = { λ s. held s.name (option_map (λ parts. parts.value) s.parts) };

    ghost invariant = { λ s. IfSome s.parts (λ parts. parts.value ≢ no_parts) };
}

impl Shell {
    ghost use Rattle.std.specs.Prelude.{◌≡◌, ◌↔◌, IsTrue, IfOk};
    ghost use Rattle.rdl_tree.specs.Shell.{bare_shell};
    ghost use Rattle.rdl_tree.specs.ShellParts.{with_parts};

    /// The shell of an instance that has no part but a name.
    pub fn new(name: Name) -> Shell
        ensures { result ≡ bare_shell name }
    {
        Shell { name, parts: None }
    }

    /// The shell of an instance with these parts.
    pub fn of(alloc: Global, name: Name, parts: ShellParts) -> Result<Shell, AllocError>
        ensures { IfOk result (λ shell. shell ≡ with_parts name parts) }
    {
        if parts.are_none() {
            return Ok(Shell::new(name));
        }
        let parts = Some(Box::new(alloc, parts)?);
        Ok(Shell { name, parts })
    }

    pub fn name(&self) -> &Name
        ensures { result.now ≡ self.now.name }
    {
        &self.name
    }

    /// Whether there is no part but the name.
    pub fn is_bare(&self) -> bool
        ensures { IsTrue result ↔ (self.now ≡ bare_shell self.now.name) }
    {
        self.parts.is_none()
    }

    pub fn outside(&self) -> Outside
        ensures { result ≡ self.now.outside }
    {
        match &self.parts {
            Some(parts) => parts.outside,
            None => Outside::Unsaid,
        }
    }

    /// The sizes between the brackets.
    pub fn dims(&self) -> &[Number]
        ensures { result.now ≡ self.now.dims }
    {
        match &self.parts {
            Some(parts) => parts.dims.as_slice(),
            None => &[],
        }
    }

    /// The `[high:low]` of a field, the high bit first.
    pub fn range(&self) -> Option<(Number, Number)>
        ensures { result ≡ self.now.range }
    {
        match &self.parts {
            Some(parts) => parts.range.get(),
            None => None,
        }
    }

    /// The number behind `=`.
    pub fn reset(&self) -> Option<Number>
        ensures { result ≡ self.now.reset }
    {
        match &self.parts {
            Some(parts) => parts.reset.get(),
            None => None,
        }
    }

    /// The number behind `@`.
    pub fn address(&self) -> Option<Number>
        ensures { result ≡ self.now.address }
    {
        match &self.parts {
            Some(parts) => parts.address.get(),
            None => None,
        }
    }

    /// The number behind `+=`.
    pub fn stride(&self) -> Option<Number>
        ensures { result ≡ self.now.stride }
    {
        match &self.parts {
            Some(parts) => parts.stride.get(),
            None => None,
        }
    }

    /// The number behind `%=`.
    pub fn align(&self) -> Option<Number>
        ensures { result ≡ self.now.align }
    {
        match &self.parts {
            Some(parts) => parts.align.get(),
            None => None,
        }
    }

    /// The parts, for one more.
    pub fn parts(&self, alloc: Global) -> Result<ShellParts, AllocError>
        ensures { IfOk result (λ parts. self.now ≡ with_parts self.now.name parts) }
    {
        match &self.parts {
            Some(parts) => parts.try_copy(alloc),
            None => Ok(ShellParts::none(alloc)),
        }
    }

    pub fn try_copy(&self, alloc: Global) -> Result<Shell, AllocError>
        ensures { IfOk result (λ shell. shell ≡ self.now) }
    {
        self.renamed(alloc, &self.name)
    }

    /// The same parts around another name.
    pub fn renamed(&self, alloc: Global, name: &Name) -> Result<Shell, AllocError>
        ensures { IfOk result (λ shell. shell ≡ record self.now { name = name.now }) }
    {
        let name = name.try_copy(alloc)?;
        match &self.parts {
            Some(parts) => {
                let parts = Some(Box::new(alloc, parts.try_copy(alloc)?)?);
                Ok(Shell { name, parts })
            }
            None => Ok(Shell::new(name)),
        }
    }
}
