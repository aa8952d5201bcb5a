//! Numbers that an instance may state, in the room that most of them need.
use rdl_text::token::Number;
use std::alloc::{AllocError, Global};
use std::marker::Model;

#[derive(Debug, Drop)]
pub(crate) enum StatedNumber {
    Unstated,
    Short(u64),
    Long(Box<Number>),
}

#[derive(Debug, Drop)]
pub(crate) enum StatedPair {
    Unstated,
    Short(u32, u32),
    Long(Box<(Number, Number)>),
}

/// A number that an instance may state behind `=`, `@`, `+=` or `%=`. A contract sees the option.
#[derive(Debug, Drop)]
pub struct Stated {
    number: StatedNumber,
}

/// The `[high:low]` that the instance of a field may state, the high bit first. A contract sees the option.
#[derive(Debug, Drop)]
pub struct StatedRange {
    pair: StatedPair,
}

impl Model for Stated {
    ghost use Rattle.std.specs.Prelude.{ℕ, Option};

    ghost Value = { Option ℕ };

    ghost use Rattle.rdl_tree.specs.Stated.{stated};

    ghost view = { λ s. stated s.number };
}

impl Model for StatedRange {
    ghost use Rattle.std.specs.Prelude.{ℕ, Option};

    ghost Value = { Option (ℕ × ℕ) };

    ghost use Rattle.rdl_tree.specs.Stated.{stated_pair};

    ghost view = { λ s. stated_pair s.pair };
}

impl Stated {
    ghost use Rattle.std.specs.Prelude.{◌≡◌, None, IfOk};
    ghost use Rattle.std.specs.Option.{is_some};

    /// No number is stated.
    pub fn none() -> Stated
        ensures { result ≡ None }
    {
        Stated {
            number: StatedNumber::Unstated,
        }
    }

    /// Numbers of more than 64 bits stand in memory of their own.
    pub fn new(alloc: Global, number: Option<Number>) -> Result<Stated, AllocError>
        ensures { IfOk result (λ stated. stated ≡ number) }
    {
        let Some(number) = number else {
            return Ok(Stated::none());
        };
        let number = match u64::try_from(number) {
            Ok(short) => StatedNumber::Short(short),
            Err(_) => StatedNumber::Long(Box::new(alloc, number)?),
        };
        Ok(Stated { number })
    }

    pub fn get(&self) -> Option<Number>
        ensures { result ≡ self.now }
    {
        match &self.number {
            StatedNumber::Unstated => None,
            StatedNumber::Short(number) => Some(Number::from(*number)),
            StatedNumber::Long(number) => Some(**number),
        }
    }

    pub fn is_some(&self) -> bool
        ensures { result ≡ is_some self.now }
    {
        match &self.number {
            StatedNumber::Unstated => false,
            StatedNumber::Short(_) | StatedNumber::Long(_) => true,
        }
    }

    pub fn try_copy(&self, alloc: Global) -> Result<Stated, AllocError>
        ensures { IfOk result (λ stated. stated ≡ self.now) }
    {
        Stated::new(alloc, self.get())
    }
}

impl StatedRange {
    ghost use Rattle.std.specs.Prelude.{◌≡◌, None, IfOk};
    ghost use Rattle.std.specs.Option.{is_some};

    /// No range is stated.
    pub fn none() -> StatedRange
        ensures { result ≡ None }
    {
        StatedRange {
            pair: StatedPair::Unstated,
        }
    }

    /// Bits of more than 32 bits stand in memory of their own.
    pub fn new(alloc: Global, range: Option<(Number, Number)>) -> Result<StatedRange, AllocError>
        ensures { IfOk result (λ stated. stated ≡ range) }
    {
        let Some((high, low)) = range else {
            return Ok(StatedRange::none());
        };
        let pair = match (u32::try_from(high), u32::try_from(low)) {
            (Ok(high), Ok(low)) => StatedPair::Short(high, low),
            _ => StatedPair::Long(Box::new(alloc, (high, low))?),
        };
        Ok(StatedRange { pair })
    }

    pub fn get(&self) -> Option<(Number, Number)>
        ensures { result ≡ self.now }
    {
        match &self.pair {
            StatedPair::Unstated => None,
            StatedPair::Short(high, low) => Some((Number::from(*high), Number::from(*low))),
            StatedPair::Long(pair) => Some(**pair),
        }
    }

    pub fn is_some(&self) -> bool
        ensures { result ≡ is_some self.now }
    {
        match &self.pair {
            StatedPair::Unstated => false,
            StatedPair::Short(_, _) | StatedPair::Long(_) => true,
        }
    }

    pub fn try_copy(&self, alloc: Global) -> Result<StatedRange, AllocError>
        ensures { IfOk result (λ stated. stated ≡ self.now) }
    {
        StatedRange::new(alloc, self.get())
    }
}
