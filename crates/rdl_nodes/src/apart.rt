//! Whether instances lie apart.
ghost use Rattle.std.specs.Prelude.{◌≡◌, ◌<◌, ◌+◌, true, drop, map, not, length, IfSome};
ghost use Rattle.std.specs.List.{list_all};
ghost use Rattle.rdl_nodes.specs.Apart.{begin_from, end_by, first_clashes_none};
ghost use Rattle.rdl_nodes.specs.Part.{member_of, access_of};
ghost use Rattle.rdl_seen.specs.Fields.{clash_none};
ghost use Rattle.rdl_seen.specs.Layouts.{Span, overlaps, are_apart, is_stride_wide, are_strides_wide, is_apart_under, apart_modes};
ghost use Rattle.rdl_seen.specs.Modes.{number_under};
ghost use Rattle.rdl_seen.specs.Node.{apart_of, mode_inside};

use crate::fields::clashes_none;
use crate::layouts::{Layouts, Span};
use crate::parts::Part;
use rdl_seen::mode::Mode;
use rdl_seen::seen::Modes;
use rdl_seen::values::Values;
use rdl_text::token::Number;
use rdl_tree::shell::Kind;

/// How many spans are compared with all before them, where they are gone over from the first one on.
const FEW: usize = 8;

/// Whether the span overlaps none of these.
fn overlaps_none(span: Span, others: &[Span]) -> bool
    ensures { result ≡ list_all (λ (t : Span). not (overlaps span t)) others.now }
{
    others.iter().all(|other| !span.overlaps(*other))
}

/// The same where it is known that none of these begins before a number.
fn is_apart_from(span: Span, least: u64, others: &[Span]) -> bool
    requires { begin_from least others.now ≡ true }
    ensures { result ≡ list_all (λ (t : Span). not (overlaps span t)) others.now }
{
    span.end() <= least || overlaps_none(span, others)
}

/// Whether the span overlaps none before it, of which none begins before the first number, and none ends behind the second one. Only so
/// many that lie between these are compared with all.
fn overlaps_none_before(
    span: Span,
    low: u64,
    high: u64,
    before: &[Span],
    left: &mut usize,
) -> Option<bool>
    requires begin { begin_from low before.now ≡ true }
    requires end { end_by high before.now ≡ true }
    ensures { IfSome result (λ none. none ≡ list_all (λ (t : Span). not (overlaps span t)) before.now) }
{
    if span.start() >= high {
        return Some(true);
    }
    if span.end() <= low {
        return Some(true);
    }
    *left = left.checked_sub(1)?;
    Some(overlaps_none(span, before))
}

/// Whether no two of the spans overlap, if most of them lie behind all others before them, or before all of these: each of these is compared
/// with two numbers alone. It isn't told where more than a few lie in between.
fn are_apart_from_first(spans: &[Span]) -> Option<bool>
    ensures { IfSome result (λ apart. apart ≡ are_apart spans.now) }
{
    let mut low = u64::MAX;
    let mut high = 0;
    let mut left = FEW;
    for (i, span) in spans.iter().enumerate() {
        let none = overlaps_none_before(*span, low, high, &spans[..i], &mut left)?;
        if !none {
            return Some(false);
        }
        low = low.min(span.start());
        high = high.max(span.end());
    }
    Some(true)
}

/// The same from the last one on: where one ends before all others behind it begin, it is compared with one number alone.
fn are_apart_from_last(spans: &[Span]) -> bool
    ensures { result ≡ are_apart spans.now }
{
    let mut least = u64::MAX;
    for i in (0..spans.len()).rev() {
        let span = spans[i];
        if !is_apart_from(span, least, &spans[i + 1..]) {
            return false;
        }
        least = least.min(span.start());
    }
    true
}

/// Whether no two of the spans overlap. Where all but a few stand in order, up or down, each is compared with two numbers alone.
pub fn are_apart(spans: &[Span]) -> bool
    ensures { result ≡ are_apart spans.now }
{
    match are_apart_from_first(spans) {
        Some(apart) => apart,
        None => are_apart_from_last(spans),
    }
}

/// Whether the field of this number clashes with none behind it, of which none begins before a number.
fn clashes_none_behind(spans: &[Span], parts: &[Part], number: usize, least: u64) -> bool
    requires within { number < length spans.now }
    requires order { begin_from least (drop (number + 1) spans.now) ≡ true }
    ensures { result ≡ first_clashes_none (drop number spans.now) (map access_of (drop number parts.now)) }
{
    let Some(part) = parts.get(number) else {
        return true;
    };
    let span = spans[number];
    span.end() <= least
        || clashes_none(
            span,
            part.access(),
            &spans[number + 1..],
            &parts[number + 1..],
        )
}

/// Whether no two fields clash that lie there. Where they stand in order, each is compared with one number alone.
pub fn clash_none(spans: &[Span], parts: &[Part]) -> bool
    ensures { result ≡ clash_none spans.now (map access_of parts.now) }
{
    let mut least = u64::MAX;
    for i in (0..spans.len()).rev() {
        if !clashes_none_behind(spans, parts, i, least) {
            return false;
        }
        least = least.min(spans[i].start());
    }
    true
}

/// Whether the stride of an instance, if it says one, is no smaller than the size of an element under the mode.
fn is_stride_wide(mode: Mode, part: &Part) -> bool
    ensures { result ≡ is_stride_wide (number_under part.now.member.size mode) part.now.member.shell.stride }
{
    match part.shell().stride() {
        Some(stride) => stride >= Number::from(part.size().under(mode)),
        None => true,
    }
}

/// Whether each stride is no smaller than the size of an element under the mode.
fn are_strides_wide(mode: Mode, parts: &[Part]) -> bool
    ensures { result ≡ are_strides_wide mode (map member_of parts.now) }
{
    for part in parts {
        if !is_stride_wide(mode, part) {
            return false;
        }
    }
    true
}

/// Whether under the mode no two instances overlap and no stride is too small.
fn is_apart_under(layouts: &Layouts, parts: &[Part], mode: Mode) -> bool
    ensures { result ≡ is_apart_under layouts.now (map member_of parts.now) mode }
{
    are_strides_wide(mode, parts) && are_apart(layouts.under(mode).spans())
}

/// The mode under which the instances of an address map with these values stand, whatever the one around it is.
pub fn mode_inside(values: &Values) -> Mode
    ensures { result ≡ mode_inside values.now }
{
    values.addressing.unwrap_or(Mode::Regalign)
}

/// The modes in which no two instances overlap and no stride is too small.
fn apart_modes(layouts: &Layouts, parts: &[Part]) -> Modes
    ensures { result ≡ apart_modes layouts.now (map member_of parts.now) }
{
    Modes {
        compact: is_apart_under(layouts, parts, Mode::Compact),
        regalign: is_apart_under(layouts, parts, Mode::Regalign),
        fullalign: is_apart_under(layouts, parts, Mode::Fullalign),
    }
}

/// The modes in which the instances of a component lie apart; for fields the register says it.
pub fn apart_of(kind: Kind, values: &Values, layouts: &Layouts, parts: &[Part]) -> Modes
    ensures { result ≡ apart_of kind values.now layouts.now (map member_of parts.now) }
{
    match kind {
        Kind::Addrmap => Modes::all(is_apart_under(layouts, parts, mode_inside(values))),
        Kind::Regfile => apart_modes(layouts, parts),
        Kind::Reg | Kind::Field => Modes::all(true),
    }
}
