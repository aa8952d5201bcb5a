//! Whether a dynamic assignment can give a row a fault.
ghost use Rattle.std.specs.Prelude.{◌≡◌, slice_get, Some, None};
ghost use Rattle.rdl_seen.specs.Inside.{known, asks_own, has_room, is_fitting, is_harmless};
ghost use Rattle.rdl_nodes.specs.HeldVerdict.{asked_of};

use crate::layouts::Span;
use std::marker::Model;

/// What an assigned value asks of the field, so that it gives no row a fault.
#[derive(Clone, Copy, Debug, PartialEq, Eq)]
pub enum Asked {
    /// `sw`: that the fields of its register share no bit.
    Order,
    /// `reset`: so many bits, if it is a number.
    Room(Option<u8>),
}

/// How a verdict is held.
#[derive(Clone, Copy, Debug, PartialEq, Eq)]
enum HeldVerdict {
    Known(bool),
    /// It is what is asked of the body's own instance of this number.
    AsksOwn(Asked, usize),
}

/// Whether a dynamic assignment can give no row a fault: it is known, or it is what it asks of the body's own instance of a number. A
/// contract sees what `rdl_seen` has of it.
#[derive(Debug, Drop)]
pub struct Verdict {
    held: HeldVerdict,
}

impl Model for Verdict {
    ghost use Rattle.rdl_seen.specs.Inside.{Verdict};
    ghost use Rattle.rdl_nodes.specs.Codes.{coded_verdict};

    ghost Value = { Verdict };

    ghost coded = { coded_verdict };

    ghost use Rattle.rdl_nodes.specs.HeldVerdict.{verdict_of};

    ghost view = { λ v. verdict_of v.held };
}

/// Whether a field with this span has room for a reset that needs so many bits.
pub fn has_room(bits: Option<u8>, span: Span) -> bool
    ensures { result ≡ has_room bits span }
{
    match bits {
        Some(bits) => u64::from(bits) <= span.end().saturating_sub(span.start()),
        None => true,
    }
}

impl Asked {
    /// Whether the instance of this number grants it, where the instances lie there and share no bit or may.
    pub fn is_fitting(self, spans: &[Span], is_ordered: bool, number: usize) -> bool
        ensures { result ≡ is_fitting (asked_of self) (record { spots = record { spans = spans.now; is_ordered = is_ordered }; number = number }) }
    {
        match self {
            Asked::Order => is_ordered,
            Asked::Room(bits) => match spans.get(number) {
                Some(span) => has_room(bits, *span),
                None => false,
            },
        }
    }
}

impl Verdict {
    /// It is known.
    pub fn known(is_fitting: bool) -> Verdict
        ensures { result ≡ known is_fitting }
    {
        Verdict {
            held: HeldVerdict::Known(is_fitting),
        }
    }

    /// It is what is asked of the body's own instance of this number.
    pub fn asks_own(asked: Asked, number: usize) -> Verdict
        ensures { result ≡ asks_own (asked_of asked) number }
    {
        Verdict {
            held: HeldVerdict::AsksOwn(asked, number),
        }
    }

    /// The same verdict.
    pub fn copy(&self) -> Verdict
        ensures { result ≡ self.now }
    {
        Verdict { held: self.held }
    }

    /// Whether it can give no row a fault, where the body's own instances lie there and share no bit or may.
    pub fn is_harmless(&self, spans: &[Span], is_ordered: bool) -> bool
        ensures { result ≡ is_harmless (record { spans = spans.now; is_ordered = is_ordered }) self.now }
    {
        match self.held {
            HeldVerdict::Known(is_fitting) => is_fitting,
            HeldVerdict::AsksOwn(asked, number) => asked.is_fitting(spans, is_ordered, number),
        }
    }
}
