//! Whether an item may be passed over that is as it was, told by what is kept of it alone.
ghost use Rattle.std.specs.Prelude.{◌≡◌, true};
ghost use Rattle.rdl_nodes.specs.View.{add};
ghost use Rattle.rdl_renew.specs.Deaf.{is_first_settled};
ghost use Rattle.rdl_seen.specs.Alert.{reaches_as};
ghost use Rattle.rdl_seen.specs.Slots.{Slots};

use crate::alike::is_width_same;
use rdl_nodes::node::Slot;
use rdl_seen::alert::Alert;
use rdl_seen::seen::Seen;

/// Whether a component of which this is seen listens to some of it, where what is inside the types that it asks for matters to it.
fn reaches_inside(alert: &Alert, seen: &Seen) -> bool
    ensures { result ≡ reaches_as true alert.now seen.now }
{
    seen.takes.meets(alert.properties)
        || seen.asks.meets(alert.types)
        || seen.asks.meets(alert.inside)
}

/// Whether an item of which this is kept listens to nothing that the alert tells of, and brings nothing that differs behind it. A dynamic
/// assignment may always listen: what is kept of it doesn't say to what. A default changes what stands behind it. A component is gone into
/// where the alert tells of the default width of fields, whoever takes that.
pub fn is_settled(slot: &Slot, alert: &Alert) -> bool
    ensures { (rest : Slots) → result ≡ is_first_settled alert.now (add slot.now rest) }
{
    match slot {
        Slot::Own | Slot::Field(_) => true,
        Slot::Default(_) | Slot::Dynamic(_) => false,
        Slot::Named(class, _) => !alert.types.has(*class),
        Slot::Define(_, seen, _) => {
            is_width_same(*alert) && !reaches_inside(alert, seen.as_ref())
        }
        Slot::Part(node) => is_width_same(*alert) && !alert.reaches(&node.as_ref().core().seen),
    }
}
