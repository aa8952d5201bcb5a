//! What holds of places and of bodies. Nothing here does anything when it runs.
ghost use Rattle.rdl_places.specs.ScopeLaws.{SlotsAreKept, InsideIsScope, NodeHasSeen, BodiesAreCleanByItems, ItemsAreCleanInBodies};

/// Where a place is in order, so that what is looked up from it is what is seen there: where it has the slots of the items before it,
/// and behind the items of a component that was found. The node of such a component has what is seen of it.
pub fn places_are_in_order()
    ensures slots { SlotsAreKept }
    ensures inside { InsideIsScope }
    ensures seen { NodeHasSeen }
{}

/// A body has no fault exactly where each of its items has none by what is seen before it, and none inside it has one.
pub fn bodies_are_judged_by_items()
    ensures bodies { BodiesAreCleanByItems }
    ensures items { ItemsAreCleanInBodies }
{}
