//! Whether a description is too large, by what is held of its root's items.
ghost use Rattle.std.specs.Prelude.{◌≡◌, ℕ, ◌+◌, nat_lt};
ghost use Rattle.rdl_nodes.specs.View.{slots_of};
ghost use Rattle.rdl_seen.specs.Contents.{is_large};
ghost use Rattle.rdl_tree.specs.Weight.{capped};

use rdl_nodes::contents::Contents;
use rdl_nodes::field::own_weight;
use rdl_nodes::node::Slot;
use rdl_tree::description::Body;

/// Whether a sum is over a limit, where its first part stops at the greatest value of a `u64`.
fn is_over(number: u64, more: u64, limit: u32) -> bool
    ensures { (n : ℕ) → number ≡ capped n → result ≡ nat_lt limit (n + more) }
{
    number.saturating_add(more) > u64::from(limit)
}

/// Whether bodies nest more than 16 deep, or there are too many items, or they may weigh too much. A description of which the answer is
/// false is within the limits.
pub(crate) fn is_large(slots: &[Slot], body: &Body) -> bool
    ensures { result ≡ is_large (slots_of slots.now) body.now }
{
    let contents = Contents::of(slots);
    let items = (body.len() as u64).min(1 << 30);
    let weight = u64::from(own_weight(body));
    if contents.depth > 16 {
        return true;
    }
    if is_over(contents.count, items, 65_536) {
        return true;
    }
    is_over(contents.weight, weight, 8_388_608)
}
