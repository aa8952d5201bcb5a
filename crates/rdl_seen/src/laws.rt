//! What holds of all components. Nothing here does anything when it runs.
ghost use Rattle.rdl_seen.specs.Laws.{Coincides, CoincidesWithin, FaultsCoincide, CutsOff, IgnoresOtherTypes, IgnoresOtherDefaults};
ghost use Rattle.rdl_seen.specs.AlertLaws.{UnreachedAreKept, UnreachedAreKnown, NothingDiffers, MoreMayDiffer, StaysBehind, StaysBehindType, TypesComeAndGo, DefaultsComeAndGo};
ghost use Rattle.rdl_seen.specs.OneByOne.{AreWalkedInTurn, SlotsAreOfItems, DeafSlotsStay};
ghost use Rattle.rdl_seen.specs.Passing.{StandsBehindItem, ItemsComeAndGo, ItemsStay, ItemsArePassedOver};
ghost use Rattle.rdl_seen.specs.MeaningLaws.{StatedAreTaken, ValuesAreStated, ValuesAreWhole, MeansBehind, MeansBehindComponent, MeansAt, NodesHaveValues, KeptAreNodes, FieldsAreLikeNodes, FaultsAreFound, SmallMapsFit};

/// A component is kept as the same where what stands around it agrees as far as it listens: each name of a class that it asks for
/// leads to a type of which the same is seen, and, if a dynamic assignment stands inside it, of which the same is known inside; and
/// the same is stated of each property that it takes. The same is known inside it, too, where that is so of the types that it asks
/// for, whether it is assigned or not. So it is however components are laid out.
pub fn components_coincide()
    ensures kept { Coincides }
    ensures within { CoincidesWithin }
{}

/// Where what stands around a component agrees as far as it listens, its items have a fault here where they have one there: none of them
/// has to be judged again.
pub fn faults_coincide()
    ensures { FaultsCoincide }
{}

/// Who assigns nothing inside is kept as the same under another type of a name of which the same is seen. Who doesn't ask for the name
/// is kept as the same under any type of it, and who doesn't take a property under any default of it.
pub fn components_listen_no_further()
    ensures cut_off { CutsOff }
    ensures types { IgnoresOtherTypes }
    ensures defaults { IgnoresOtherDefaults }
{}

/// Where what two bodies see differs in nothing but what an alert tells of, a component that listens to nothing of that is kept as the
/// same, and its items have a fault here where they have one there. The two still differ in no more behind the same item, behind a
/// definition of which as much is seen as isn't told of, and where a definition or a default that is told of came or went.
pub fn alerts_tell()
    ensures kept { UnreachedAreKept }
    ensures known { UnreachedAreKnown }
    ensures nothing { NothingDiffers }
    ensures more { MoreMayDiffer }
    ensures behind { StaysBehind }
    ensures behind_type { StaysBehindType }
    ensures types { TypesComeAndGo }
    ensures defaults { DefaultsComeAndGo }
{}

/// What stands behind an item is what stood before it and what the item brings. Where two bodies see the same but for what an alert
/// tells of, no more differs behind an item that came or went and is told of, behind one that stayed, if of a definition as much is seen
/// as isn't told of, and where items that are told of are passed over.
pub fn items_are_told_of()
    ensures behind { StandsBehindItem }
    ensures come_and_go { ItemsComeAndGo }
    ensures stay { ItemsStay }
    ensures passed { ItemsArePassedOver }
{}

/// The items of a body have their slots one after another, each by what stands before it. The slot of an item stays where no more differs
/// than an alert tells of and the item listens to nothing of that.
pub fn slots_are_of_items()
    ensures turn { AreWalkedInTurn }
    ensures items { SlotsAreOfItems }
    ensures stay { DeafSlotsStay }
{}

/// Of a description without a fault, each value that is stated of a component, by its own assignments or by a default, is one that
/// its property takes. The values of its node are what is stated of it, and, with the built-in values, those that it has: nothing is
/// cut off them.
pub fn values_mean()
    ensures taken { StatedAreTaken }
    ensures stated { ValuesAreStated }
    ensures whole { ValuesAreWhole }
{}

/// Where a body sees the defaults that stand before an item, it does so behind that item and inside it. So each item of a description
/// sees the defaults that stand before it, and the node of each component has that component's values.
pub fn nodes_mean()
    ensures behind { MeansBehind }
    ensures behind_component { MeansBehindComponent }
    ensures at { MeansAt }
    ensures values { NodesHaveValues }
{}

/// The nodes that are kept of a description are those of its components, each by what its address sees. A field that is written where
/// it is instantiated isn't kept by itself; what is kept of it are the values that its node would have.
pub fn kept_are_nodes()
    ensures nodes { KeptAreNodes }
    ensures fields { FieldsAreLikeNodes }
{}

/// A description that isn't too large has no fault exactly where each of its items has none by what the body around it sees: the kinds of
/// the types by name, the instances that stand before it with those inside, and the items before it in its own body. Whether it is too large is told by the sums along its slots, where
/// its items have no fault.
pub fn faults_are_found()
    ensures found { FaultsAreFound }
    ensures small { SmallMapsFit }
{}
