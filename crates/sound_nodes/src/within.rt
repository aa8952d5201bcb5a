//! What a node tells of a map whose top it is.
ghost use Rattle.std.specs.Prelude.{◌≡◌};
ghost use Rattle.sound_nodes.specs.Says.{is_within};

use rdl_seen::seen::Seen;

/// Whether a map is within the limits of levels, rows and bytes, and nothing in it is empty, by what is seen of its top.
pub fn is_within(seen: &Seen) -> bool
    ensures { result ≡ is_within seen.now }
{
    seen.levels < 16 && seen.rows < 65_536 && !seen.has_empty && seen.size.regalign <= 1 << 40
}
