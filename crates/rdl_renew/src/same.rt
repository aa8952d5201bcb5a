//! Whether the same is seen of two components.
ghost use Rattle.std.specs.Prelude.{◌≡◌, true};
ghost use Rattle.rdl_renew.specs.AlikeSlots.{same_by_mode};
ghost use Rattle.rdl_renew.specs.Same.{HaveSameKind, HaveSameFlags, HaveSameCounts, HaveSameSizes, HearTheSame};

use rdl_seen::names::NameSet;
use rdl_seen::property_set::PropertySet;
use rdl_seen::seen::{ByMode, Modes, Seen};

fn are_same_properties(before: PropertySet, now: PropertySet) -> bool
    ensures { result ≡ true → before ≡ now }
{
    before == now
}

fn are_same_names(before: NameSet, now: NameSet) -> bool
    ensures { result ≡ true → before ≡ now }
{
    before == now
}

fn are_same_modes(before: Modes, now: Modes) -> bool
    ensures { result ≡ true → before ≡ now }
{
    before == now
}

pub(crate) fn are_same_by_mode(before: ByMode, now: ByMode) -> bool
    ensures exact { result ≡ same_by_mode before now }
    ensures same { result ≡ true → before ≡ now }
{
    before == now
}

fn have_same_kind(before: &Seen, now: &Seen) -> bool
    ensures { result ≡ true → HaveSameKind before.now now.now }
{
    before.kind == now.kind && before.access == now.access && before.reset == now.reset
}

fn have_same_flags(before: &Seen, now: &Seen) -> bool
    ensures { result ≡ true → HaveSameFlags before.now now.now }
{
    before.is_empty == now.is_empty
        && before.has_empty == now.has_empty
        && before.is_ordered == now.is_ordered
        && before.is_assigned == now.is_assigned
}

fn have_same_counts(before: &Seen, now: &Seen) -> bool
    ensures { result ≡ true → HaveSameCounts before.now now.now }
{
    before.levels == now.levels
        && before.depth == now.depth
        && before.rows == now.rows
        && before.count == now.count
        && before.weight == now.weight
}

fn have_same_sizes(before: &Seen, now: &Seen) -> bool
    ensures { result ≡ true → HaveSameSizes before.now now.now }
{
    are_same_modes(before.sound, now.sound)
        && are_same_by_mode(before.widest, now.widest)
        && are_same_by_mode(before.size, now.size)
}

fn hear_the_same(before: &Seen, now: &Seen) -> bool
    ensures { result ≡ true → HearTheSame before.now now.now }
{
    are_same_properties(before.takes, now.takes) && are_same_names(before.asks, now.asks)
}

/// Whether these are the same.
pub(crate) fn is_same(before: &Seen, now: &Seen) -> bool
    ensures { result ≡ true → before.now ≡ now.now }
{
    have_same_kind(before, now)
        && have_same_flags(before, now)
        && have_same_counts(before, now)
        && have_same_sizes(before, now)
        && hear_the_same(before, now)
}
