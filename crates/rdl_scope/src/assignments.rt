//! Assignments to properties.
ghost use Rattle.std.specs.Prelude.{◌≡◌, Option};
ghost use Rattle.rdl_scope.specs.ItemFaults.{is_of, rivals, own_fault, default_fault, dynamic_fault};

use crate::values::is_false;
use rdl_tree::fault::FaultKind;
use rdl_tree::property::Property;
use rdl_tree::shell::Kind;
use rdl_tree::value::Value;

/// Whether a component of this kind has the property. `None` is the root body.
fn is_of(kind: Option<Kind>, property: Property) -> bool
    ensures { result ≡ is_of kind property }
{
    match kind {
        Some(kind) => property.on(kind),
        None => false,
    }
}

/// The properties that may not be set beside it.
#[tactic(auto, unfolding(crate::specs::ItemFaults::rivals))]
pub(crate) fn rivals(property: Property) -> &'static [Property]
    ensures { result.now ≡ rivals property }
{
    match property {
        Property::Rclr => &[Property::Rset, Property::Onread],
        Property::Rset => &[Property::Rclr, Property::Onread],
        Property::Onread => &[Property::Rclr, Property::Rset],
        Property::Woclr => &[Property::Woset, Property::Onwrite],
        Property::Woset => &[Property::Woclr, Property::Onwrite],
        Property::Onwrite => &[Property::Woclr, Property::Woset],
        Property::We => &[Property::Wel],
        Property::Wel => &[Property::We],
        Property::Swwe => &[Property::Swwel],
        Property::Swwel => &[Property::Swwe],
        _ => &[],
    }
}

/// The fault of an own assignment. `twice`: one of the property stands before it; `excluded`: one of a rival that is
/// set.
#[tactic(auto, unfolding(crate::specs::ItemFaults::own_fault))]
pub fn own_fault(
    around: Option<Kind>,
    twice: bool,
    excluded: bool,
    property: Option<Property>,
    value: &Value,
) -> Option<FaultKind>
    ensures { result ≡ own_fault around twice excluded property value.now }
{
    let Some(property) = property else {
        return Some(FaultKind::UnknownProperty);
    };
    if !is_of(around, property) {
        Some(FaultKind::NotOfKind)
    } else if !property.takes(value) {
        Some(FaultKind::WrongValue)
    } else if twice {
        Some(FaultKind::AssignedTwice)
    } else if !is_false(value) && excluded {
        Some(FaultKind::Exclusive)
    } else {
        None
    }
}

/// The fault of a default. `twice`: one of the property stands before it.
#[tactic(auto, unfolding(crate::specs::ItemFaults::default_fault))]
pub fn default_fault(twice: bool, property: Option<Property>, value: &Value) -> Option<FaultKind>
    ensures { result ≡ default_fault twice property value.now }
{
    let Some(property) = property else {
        return Some(FaultKind::UnknownProperty);
    };
    if !property.takes(value) {
        Some(FaultKind::WrongValue)
    } else if twice {
        Some(FaultKind::AssignedTwice)
    } else {
        None
    }
}

/// The fault of a dynamic assignment to a component of this kind, if there is one. `twice`: one of the same target and
/// property stands before it.
#[tactic(auto, unfolding(crate::specs::ItemFaults::dynamic_fault))]
pub fn dynamic_fault(
    twice: bool,
    property: Option<Property>,
    value: &Value,
    kind: Option<Kind>,
) -> Option<FaultKind>
    ensures { result ≡ dynamic_fault twice property value.now kind }
{
    let Some(property) = property else {
        return Some(FaultKind::UnknownProperty);
    };
    if kind.is_some() && !is_of(kind, property) {
        Some(FaultKind::NotOfKind)
    } else if !property.takes(value) {
        Some(FaultKind::WrongValue)
    } else if twice {
        Some(FaultKind::AssignedTwice)
    } else if kind.is_none() {
        Some(FaultKind::NoSuchTarget)
    } else if !property.dynamic() {
        Some(FaultKind::NotDynamic)
    } else {
        None
    }
}
