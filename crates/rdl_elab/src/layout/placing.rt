//! Instances of an address map or a register file that are placed one after the other.
ghost use Rattle.std.specs.Prelude.{◌<◌, ◌≤◌, ◌+◌, ◌^◌};

use crate::layout::place::{bare_step, end_of, start_of};
use crate::layout::round::{LIMIT, next_multiple};
use crate::layout::{Layout, Mode, Placement, Span, Spans};
use rdl_text::token::Number;
use std::alloc::{AllocError, Global};

/// How instances that say nothing but their names are placed, where their components have one layout.
#[derive(Clone, Copy)]
pub struct BarePlace {
    size: u64,
    access: u64,
    /// Each begins at the next multiple of this.
    step: u64,
    ghost positive: { 0 < step },
    ghost near: { step ≤ 2 ^ 40 + 1 },
}

/// The instances of an address map or a register file that are placed so far. Numbers over 2^40 are kept as 2^40 + 1.
#[derive(Drop)]
pub struct Placing {
    /// That of the component.
    pub alignment: Option<Number>,
    /// Under which they stand.
    pub mode: Mode,
    spans: Vec<Span>,
    /// Where the last of them ends.
    end: u64,
    /// The greatest end.
    size: u64,
    /// The widest access.
    access: u64,
    ghost near: { end ≤ 2 ^ 40 + 1 },
}

impl Placing {
    ghost use Rattle.std.specs.Prelude.{◌≡◌, ◌∷◌, [], List, IfOk, OnOk};
    ghost use Rattle.rdl_elab.specs.Capped.{capped_layout, IsAlignment};
    ghost use Rattle.rdl_elab.specs.Layouts.{container};
    ghost use Rattle.rdl_elab.specs.Placing.{with_behind};
    ghost use Rattle.rdl_elab.specs.BarePlaces.{IsBarePlace, IsPlacedSo};
    ghost use Rattle.rdl_elab.specs.declared.layout.Placement.{Placement};

    /// None yet, in a component with this `alignment`, with room for so many.
    pub fn with_room(
        alloc: Global,
        alignment: Option<Number>,
        mode: Mode,
        count: usize,
    ) -> Result<Placing, AllocError>
        ensures alignment { IfOk result (λ placing. placing.alignment ≡ alignment) }
        ensures mode { IfOk result (λ placing. placing.mode ≡ mode) }
        ensures none { IfOk result (λ placing. (behind : List Placement) → with_behind placing behind ≡ capped_layout (container alignment mode behind)) }
    {
        Ok(Placing {
            alignment,
            mode,
            spans: Vec::with_capacity(alloc, count)?,
            end: 0,
            size: 0,
            access: 0,
        })
    }

    /// Places one more.
    #[inline(always)]
    pub fn put(&mut self, item: Placement) -> Result<(), AllocError>
        requires { IsAlignment self.old.alignment }
        ensures alignment { self.new.alignment ≡ self.old.alignment }
        ensures mode { self.new.mode ≡ self.old.mode }
        ensures one { OnOk result ((behind : List Placement) → with_behind self.old (item ∷ behind) ≡ with_behind self.new behind) }
    {
        let start = start_of(self.alignment, self.mode, self.end, item);
        let end = end_of(start, item);
        self.spans.push(Span { start, end })?;
        self.end = end;
        self.size = self.size.max(end);
        self.access = self.access.max(item.access);
        Ok(())
    }

    /// How the next instances that say nothing but their names are placed, where their components have this layout.
    pub fn bare_place(&self, layout: &Layout) -> BarePlace
        requires { IsAlignment self.now.alignment }
        ensures { IsBarePlace self.now.alignment self.now.mode layout.now result }
    {
        BarePlace {
            size: layout.size,
            access: layout.access,
            step: bare_step(self.alignment, self.mode, layout),
        }
    }

    /// Places one more that says nothing but its name.
    #[inline(always)]
    pub fn put_bare(&mut self, place: BarePlace) -> Result<(), AllocError>
        ensures alignment { self.new.alignment ≡ self.old.alignment }
        ensures mode { self.new.mode ≡ self.old.mode }
        ensures one { OnOk result ((item : Placement) (behind : List Placement) → IsPlacedSo self.old.alignment self.old.mode item place → with_behind self.old (item ∷ behind) ≡ with_behind self.new behind) }
    {
        let start = next_multiple(self.end, place.step, 1);
        let end = start.saturating_add(place.size).min(LIMIT);
        self.spans.push(Span { start, end })?;
        self.end = end;
        self.size = self.size.max(end);
        self.access = self.access.max(place.access);
        Ok(())
    }

    /// The component with these instances in it.
    pub fn layout(self) -> Layout
        ensures { result ≡ with_behind self [] }
    {
        Layout {
            size: self.size,
            access: self.access,
            spans: Spans::from_vec(self.spans),
        }
    }
}
