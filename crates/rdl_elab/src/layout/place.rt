//! The layout of an address map or a register file, from the layouts of its instances' components.
ghost use Rattle.std.specs.Prelude.{◌≡◌, ◌+◌, ◌^◌, ◌<◌, ◌≤◌, IfOk};
ghost use Rattle.rdl_elab.specs.Size.{end_of};
ghost use Rattle.rdl_elab.specs.Start.{full_alignment, mode_alignment, start_of};
ghost use Rattle.rdl_elab.specs.BarePlaces.{IsBareStep, bare_alignment};
ghost use Rattle.rdl_elab.specs.Layouts.{container};
ghost use Rattle.rdl_elab.specs.Capped.{capped, capped_layout, IsAlignment};

use crate::layout::placing::Placing;
use crate::layout::round::{LIMIT, capped, common_step, next_multiple};
use crate::layout::{Layout, Mode, Placement};
use rdl_text::token::Number;
use std::alloc::{AllocError, Global};

#[tactic(auto, using(crate::proofs::CappedNumbers::caps))]
fn full_alignment(is_array: bool, elements: Number, size: u64) -> u64
    ensures { result ≡ capped (full_alignment is_array elements size) }
{
    if is_array {
        let whole = capped(Number::from(size).saturating_mul(elements));
        whole.next_power_of_two().min(LIMIT)
    } else {
        size.min(LIMIT)
    }
}

#[tactic(auto, using(crate::proofs::CappedNumbers::caps))]
fn mode_alignment(mode: Mode, item: Placement) -> u64
    ensures { result ≡ capped (mode_alignment mode item) }
{
    match mode {
        Mode::Compact => item.access.min(LIMIT),
        Mode::Regalign => item.size.min(LIMIT),
        Mode::Fullalign => full_alignment(item.is_array, item.elements, item.size),
    }
}

/// The start of an instance, in a component with this `alignment`, where the instance before it ends here.
#[tactic(auto, using(crate::proofs::CappedNumbers::caps))]
pub(crate) fn start_of(alignment: Option<Number>, mode: Mode, end: u64, item: Placement) -> u64
    requires alignment { IsAlignment alignment }
    requires end { end ≤ 2 ^ 40 + 1 }
    ensures { result ≡ capped (start_of alignment mode end item) }
{
    match item.address {
        Some(address) => capped(address),
        None => match item.align {
            Some(align) => next_multiple(end, capped(align.max(1)), 1),
            None => {
                let around = alignment.unwrap_or(1);
                next_multiple(end, mode_alignment(mode, item).max(1), around)
            }
        },
    }
}

/// What an instance that says nothing but its name takes of its component's layout.
fn bare_alignment(mode: Mode, layout: &Layout) -> u64
    ensures { result ≡ capped (bare_alignment mode layout.now) }
{
    match mode {
        Mode::Compact => layout.access.min(LIMIT),
        Mode::Regalign | Mode::Fullalign => layout.size.min(LIMIT),
    }
}

/// A number of which instances of this layout that say nothing but their names begin at the next multiple, in a component with
/// this `alignment`.
#[tactic(auto, using(crate::proofs::CappedNumbers::caps))]
pub(crate) fn bare_step(alignment: Option<Number>, mode: Mode, layout: &Layout) -> u64
    requires { IsAlignment alignment }
    ensures positive { 0 < result }
    ensures small { result ≤ 2 ^ 40 + 1 }
    ensures starts { IsBareStep alignment mode layout.now result }
{
    let around = alignment.unwrap_or(1);
    common_step(bare_alignment(mode, layout).max(1), around).min(LIMIT)
}

#[tactic(auto, using(crate::proofs::CappedNumbers::caps))]
pub(crate) fn end_of(start: u64, item: Placement) -> u64
    ensures { result ≡ capped (end_of start item) }
{
    let size = Number::from(item.size);
    if item.elements == 1 {
        return capped(Number::from(start).saturating_add(size));
    }
    let stride = item.stride.unwrap_or(size);
    let before = item.elements.saturating_sub(1).saturating_mul(stride);
    let last = Number::from(start).saturating_add(before);
    capped(last.saturating_add(size))
}

/// An address map or a register file with these instances in it, one after the other. Numbers over 2^40 are kept as
/// 2^40 + 1.
pub(crate) fn place(
    alloc: Global,
    alignment: Option<Number>,
    mode: Mode,
    items: &[Placement],
) -> Result<Layout, AllocError>
    requires { IsAlignment alignment }
    ensures { IfOk result (λ l. l ≡ capped_layout (container alignment mode items.now)) }
{
    let mut placing = Placing::with_room(alloc, alignment, mode, items.len())?;
    for item in items {
        placing.put(*item)?;
    }
    Ok(placing.layout())
}
