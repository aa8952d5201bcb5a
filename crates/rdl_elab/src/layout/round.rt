//! Rounding up, up to a limit.
ghost use Rattle.std.specs.Prelude.{◌≡◌, ℕ, ◌+◌, ◌^◌, ◌%◌, ◌<◌, ◌≤◌, ◌⊎◌};
ghost use Rattle.std.specs.Int.{IsPowerOfTwo};
ghost use Rattle.rdl_elab.specs.Rounding.{IsStep, next_multiple};
ghost use Rattle.rdl_elab.specs.Capped.{capped};

use rdl_text::token::Number;

/// One more than the greatest size that matters.
pub const LIMIT: u64 = 1_099_511_627_777;

/// The number, or the limit where it is over that.
pub(crate) fn capped(number: Number) -> u64
    ensures { result ≡ capped number }
{
    number.min(Number::from(LIMIT)) as u64
}

#[tactic(auto, using(crate::proofs::Rounding::rounds))]
/// A number of which each common multiple is a multiple, and which is one itself or beyond the limit.
pub(crate) fn common_step(first: u64, second: Number) -> u64
    requires first { 0 < first }
    requires small { first ≤ 2 ^ 40 + 1 }
    requires positive { 0 < second }
    requires power { IsPowerOfTwo second }
    ensures step { IsStep first second result }
    ensures whole { result < 2 ^ 40 + 1 → result % second ≡ 0 }
    ensures bound { result < 2 ^ 42 }
{
    if second == 1 {
        return first;
    }
    let mut step = first;
    while step < LIMIT {
        if Number::from(step) % second == 0 {
            return step;
        }
        step += step;
    }
    step
}

/// What is left of a number behind the last multiple of a step. For the steps of most registers it takes no division.
#[inline]
fn remainder(end: u64, step: u64) -> u64
    requires { 0 < step }
    ensures { result ≡ end % step }
{
    if step == 4 {
        end % 4
    } else if step == 8 {
        end % 8
    } else {
        end % step
    }
}

#[tactic(auto, using(crate::proofs::Rounding::rounds))]
/// The least number at or above `end` that is a multiple of both.
pub fn next_multiple(end: u64, first: u64, second: Number) -> u64
    requires end { end ≤ 2 ^ 40 + 1 }
    requires first { 0 < first }
    requires small { first ≤ 2 ^ 40 + 1 }
    requires positive { 0 < second }
    requires power { IsPowerOfTwo second }
    ensures { result ≡ capped (next_multiple end first second) }
{
    if end == 0 {
        return 0;
    }
    let step = common_step(first, second);
    if step >= LIMIT {
        return LIMIT;
    }
    let over = remainder(end, step);
    if over == 0 {
        end
    } else {
        (end + (step - over)).min(LIMIT)
    }
}
