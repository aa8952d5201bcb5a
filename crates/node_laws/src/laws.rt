//! What holds of the nodes of all descriptions. Nothing here does anything when it runs.
ghost use Rattle.node_laws.specs.Laws.{MeansAllBehind, MeansAllBehindComponent, MeansAllAt, NodesAreSeen, NodesAreKnown, KeptAreSeen, NodesAreKept};

/// Where a body sees the types and the defaults that stand before an item, it does so behind that item. So each item of a description
/// without a fault sees those that stand before it.
pub fn bodies_see_what_stands()
    ensures behind { MeansAllBehind }
    ensures behind_component { MeansAllBehindComponent }
    ensures at { MeansAllAt }
{}

/// In a description without a fault, the node of each component is what is seen of it: its kind, layouts and values, how deep it is, its
/// levels and its rows, whether something in it is empty, and in which modes it is sound; and targets find inside it what stands there.
/// So it is of the node that is kept at its address.
pub fn nodes_are_seen()
    ensures seen { NodesAreSeen }
    ensures known { NodesAreKnown }
    ensures kept { KeptAreSeen }
{}

/// In a description without a fault, the node of each component is kept at its address, but for fields that are written where they are
/// instantiated. So it is however components are laid out.
pub fn nodes_are_kept()
    ensures { NodesAreKept }
{}
