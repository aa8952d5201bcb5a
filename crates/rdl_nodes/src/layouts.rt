//! Layouts of components under the three modes.
ghost use Rattle.std.specs.Prelude.{◌≡◌};

use rdl_seen::mode::Mode;
use rdl_seen::seen::ByMode;
use std::alloc::{AllocError, Global};
use std::marker::Model;

/// Bytes of a component, or bits of a register: from the start up to the end, which is the first one behind them. A contract sees the
/// record of `rdl_seen`.
#[derive(Clone, Copy, Debug, PartialEq, Eq)]
pub struct Span {
    start: u64,
    end: u64,
}

impl Model for Span {
    ghost use Rattle.rdl_seen.specs.Layouts.{Span};

    ghost Value = { Span };

    ghost view = { λ s. record { start = s.start; end = s.end } };

    ghost inverse = { λ s. record { start = s.start; end = s.end } };
}

impl Span {
    ghost use Rattle.std.specs.Prelude.{◌≡◌};
    ghost use Rattle.rdl_seen.specs.Layouts.{overlaps};

    /// From the start up to the end.
    pub fn new(start: u64, end: u64) -> Span
        ensures { result ≡ record { start = start; end = end } }
    {
        Span { start, end }
    }

    /// The first one.
    pub fn start(self) -> u64
        ensures { result ≡ self.start }
    {
        self.start
    }

    /// The first one behind them.
    pub fn end(self) -> u64
        ensures { result ≡ self.end }
    {
        self.end
    }

    /// Whether something lies in both.
    pub fn overlaps(self, other: Span) -> bool
        ensures { result ≡ overlaps self other }
    {
        self.start < self.end
            && other.start < other.end
            && self.start < other.end
            && other.start < self.end
    }
}

/// A component under a mode. A contract sees the record of `rdl_seen`.
#[derive(Debug, Drop)]
pub struct Layout {
    size: u64,
    access: u64,
    spans: Vec<Span>,
}

impl Model for Layout {
    ghost use Rattle.rdl_seen.specs.Layouts.{Layout};

    ghost Value = { Layout };

    ghost view = { λ l. record { size = l.size; access = l.access; spans = l.spans.items } };
}

impl Layout {
    /// A component of this size in bytes, that of a field in bits, with this widest access in bytes, whose instances lie there.
    pub fn new(size: u64, access: u64, spans: Vec<Span>) -> Layout
        ensures { result ≡ record { size = size; access = access; spans = spans.items } }
    {
        Layout {
            size,
            access,
            spans,
        }
    }

    /// In bytes, of a field in bits.
    pub fn size(&self) -> u64
        ensures { result ≡ self.now.size }
    {
        self.size
    }

    /// The widest access, in bytes.
    pub fn access(&self) -> u64
        ensures { result ≡ self.now.access }
    {
        self.access
    }

    /// Those of the instances, in order.
    pub fn spans(&self) -> &[Span]
        ensures { result.now ≡ self.now.spans }
    {
        self.spans.as_slice()
    }
}

/// One layout for each mode.
#[derive(Debug, Drop)]
struct ThreeLayouts {
    compact: Layout,
    regalign: Layout,
    fullalign: Layout,
}

/// The layouts under the three modes, of which most components have but one.
#[derive(Debug, Drop)]
enum EachMode {
    Same(Layout),
    Each(Box<ThreeLayouts>),
}

/// The layouts of a component, one for each mode under which it may stand. A contract sees the three.
#[derive(Debug, Drop)]
pub struct Layouts {
    each: EachMode,
}

impl Model for Layouts {
    ghost use Rattle.rdl_seen.specs.Layouts.{Layouts};

    ghost Value = { Layouts };

    ghost use Rattle.rdl_nodes.specs.EachMode.{each_mode};

    ghost view = { λ l. each_mode l.each };
}

impl Layouts {
    ghost use Rattle.std.specs.Prelude.{◌≡◌, IfOk};
    ghost use Rattle.rdl_seen.specs.Layouts.{layout_under, sizes, accesses};

    /// The same layout for each mode.
    pub fn same(layout: Layout) -> Layouts
        ensures { result ≡ record { compact = layout; regalign = layout; fullalign = layout } }
    {
        Layouts {
            each: EachMode::Same(layout),
        }
    }

    /// One layout for each mode.
    pub fn of(
        alloc: Global,
        compact: Layout,
        regalign: Layout,
        fullalign: Layout,
    ) -> Result<Layouts, AllocError>
        ensures { IfOk result (λ layouts. layouts ≡ record { compact = compact; regalign = regalign; fullalign = fullalign }) }
    {
        let three = ThreeLayouts {
            compact,
            regalign,
            fullalign,
        };
        Ok(Layouts {
            each: EachMode::Each(Box::new(alloc, three)?),
        })
    }

    /// That under the mode.
    pub fn under(&self, mode: Mode) -> &Layout
        ensures { result.now ≡ layout_under self.now mode }
    {
        match &self.each {
            EachMode::Same(layout) => layout,
            EachMode::Each(three) => match mode {
                Mode::Compact => &three.compact,
                Mode::Regalign => &three.regalign,
                Mode::Fullalign => &three.fullalign,
            },
        }
    }

    /// The size under each mode.
    pub fn sizes(&self) -> ByMode
        ensures { result ≡ sizes self.now }
    {
        ByMode {
            compact: self.under(Mode::Compact).size(),
            regalign: self.under(Mode::Regalign).size(),
            fullalign: self.under(Mode::Fullalign).size(),
        }
    }

    /// The widest access under each mode.
    pub fn accesses(&self) -> ByMode
        ensures { result ≡ accesses self.now }
    {
        ByMode {
            compact: self.under(Mode::Compact).access(),
            regalign: self.under(Mode::Regalign).access(),
            fullalign: self.under(Mode::Fullalign).access(),
        }
    }
}
