//! Layouts of components.

pub mod bits;
pub mod component;
pub(crate) mod place;
pub mod placing;
pub(crate) mod round;

use rdl_text::token::Number;
use std::marker::Model;

/// How the instances of an address map are aligned.
#[derive(Clone, Copy, Debug, PartialEq, Eq)]
pub enum Mode {
    Compact,
    Regalign,
    Fullalign,
}

/// Bytes of a component, or bits of a register: from `start` up to `end`, which is the first one behind them.
#[derive(Clone, Copy, Debug, PartialEq, Eq)]
pub struct Span {
    pub start: u64,
    pub end: u64,
}

/// The spans of the instances of a component, in their order. A contract sees the list.
#[derive(Debug, Drop)]
pub struct Spans {
    items: Vec<Span>,
}

impl Model for Spans {
    ghost use Rattle.std.specs.Prelude.{List};
    ghost use Rattle.rdl_elab.specs.declared.layout.Span.{Span};

    ghost Value = { List Span };

    ghost view = { λ s. s.items.items };
}

impl Spans {
    ghost use Rattle.std.specs.Prelude.{◌≡◌};

    /// These, in order.
    pub fn from_vec(items: Vec<Span>) -> Spans
        ensures { result ≡ items.items }
    {
        Spans { items }
    }

    pub fn as_slice(&self) -> &[Span]
        ensures { result.now ≡ self.now }
    {
        self.items.as_slice()
    }
}

/// A component under a mode, each number over 2^40 kept as 2^40 + 1.
///
/// The size is in bytes, that of a field in bits. The spans are those of its instances: bytes in an address map or a
/// register file, bits in a register.
#[derive(Debug, Drop)]
pub struct Layout {
    pub size: u64,
    pub access: u64,
    pub spans: Spans,
}

/// What the place of an instance in an address map or a register file depends on.
#[derive(Clone, Copy, Debug, PartialEq, Eq)]
pub struct Placement {
    /// The size of one element, in bytes.
    pub size: u64,
    /// The widest access to a register inside, in bytes.
    pub access: u64,
    pub elements: Number,
    /// Whether the instance has dims, be it `[1]`.
    pub is_array: bool,
    /// The number behind `@`.
    pub address: Option<Number>,
    /// The number behind `+=`.
    pub stride: Option<Number>,
    /// The number behind `%=`.
    pub align: Option<Number>,
}

/// What the bits of a field in its register depend on.
#[derive(Clone, Copy, Debug, PartialEq, Eq)]
pub struct FieldBits {
    /// How many bits it has where it has no range.
    pub width: Number,
    /// Its `[high:low]`, the high bit first.
    pub range: Option<(Number, Number)>,
}

/// What the layout of a component takes of one of its instances: of a register file, address map or register the
/// placement, of a field the bits.
#[derive(Clone, Copy, Debug, PartialEq, Eq)]
pub struct Member {
    pub placement: Placement,
    pub bits: FieldBits,
}

/// The values of a component on which its layout depends.
#[derive(Clone, Copy, Debug, PartialEq, Eq)]
pub struct LayoutValues {
    /// How the instances of an address map are aligned.
    pub addressing: Mode,
    pub alignment: Option<Number>,
    /// In bits, as the next two.
    pub regwidth: u64,
    pub accesswidth: u64,
    pub fieldwidth: Number,
}
