//! What holds of a body and of what it was. Nothing here does anything when it runs.
ghost use Rattle.rdl_renew.specs.Alone.{CleanStandAlone, ClashesAreTurned, StandsAloneByItems, NoneClash, StandsAloneStill};
ghost use Rattle.rdl_renew.specs.Deaf.{SlotsTellDeafness, DeafSlotsAreTakenOver, SettledSlotsAreDeaf, SettledItemsStay};
ghost use Rattle.rdl_renew.specs.Fronts.{FrontsAreSlots};
ghost use Rattle.rdl_renew.specs.InPlace.{InPlaceAreBare};
ghost use Rattle.rdl_renew.specs.Judged.{LoneFaultsAreTheirs, LoneItemsAreClean, LoneBodiesAreClean, SettledItemsStayClean};
ghost use Rattle.rdl_renew.specs.Onward.{TellsOfOneMore, AlertsGrow};
ghost use Rattle.rdl_renew.specs.Raised.{AlertsAddUp, HasAllOfIt, RaisedTells, RaisedTellsBehind, RaisedTellsOfAll};
ghost use Rattle.rdl_renew.specs.SideBySide.{NoMoreDiffersAlong, NoMoreDiffersBefore};
ghost use Rattle.rdl_renew.specs.StayClean.{CleanItemsStayClean};
ghost use Rattle.rdl_renew.specs.Stayed.{StayedDefinitionsRaise};
ghost use Rattle.rdl_renew.specs.TakenOver.{SameItemsStay, SlotsAreTakenOver};

/// Where marks describe what became of a body, and an alert tells of each item that came, went or was moved, and of what differs behind
/// those that stayed, no more differs than it tells of between what stands before an item and what stood beside it before: all along
/// the body, and right before each item that stayed in order. So it is up to each item by what the alert tells of the items before it;
/// an alert that tells of more still does.
pub fn no_more_differs()
    ensures along { NoMoreDiffersAlong }
    ensures before { NoMoreDiffersBefore }
    ensures one_more { TellsOfOneMore }
    ensures grow { AlertsGrow }
{}

/// An item that is as it was, and stands in order, is the old item of its number. Its slot is the old one, if it listens to nothing of
/// what differs before it. That is told by the slot alone: so whoever renews the slots of a body takes it over without a look inside. If
/// the slot tells that it brings nothing either, no more differs behind it, and the defaults stay: so a run of such items is taken over
/// without a look at them. The slot of a number is that of the list that the code holds.
pub fn slots_are_taken_over()
    ensures items { SameItemsStay }
    ensures slots { SlotsAreTakenOver }
    ensures deaf { SlotsTellDeafness }
    ensures over { DeafSlotsAreTakenOver }
    ensures settled { SettledSlotsAreDeaf }
    ensures stay { SettledItemsStay }
    ensures fronts { FrontsAreSlots }
{}

/// Two items of a body clash where they define the same name, or assign the same, or exclude one another; which of them comes first
/// makes no odds. An item stands alone, so that none before it makes a fault of it, exactly where it clashes with none of those. In a
/// body without a fault all do. One that is as it was still does where it clashes with none that came or was changed: whoever judges
/// those needn't look at it.
pub fn items_stand_alone()
    ensures clean { CleanStandAlone }
    ensures turned { ClashesAreTurned }
    ensures items { StandsAloneByItems }
    ensures none { NoneClash }
    ensures still { StandsAloneStill }
{}

/// An item that is as it was still has no fault, nor any inside it, if it had none, listens to nothing of what differs before it, and
/// clashes with none that came or was changed; a dynamic assignment, if its target leads to a component of the same kind.
pub fn clean_items_stay_clean()
    ensures { CleanItemsStayClean }
{}

/// Where marks describe what became of a body, who has all that its changes raise tells of each item that came, went or was moved,
/// and of each that stayed and brings another definition or default than it did. Behind an item that stayed in order no more differs than
/// such an alert tells of, if it tells of what is seen otherwise of the item's definition, where it kept its name. So up to an item it
/// tells of all that matters to who goes along both bodies, as `no_more_differs` asks, if it does so of the definitions before it.
pub fn raised_tells()
    ensures parts { AlertsAddUp }
    ensures through { HasAllOfIt }
    ensures changes { RaisedTells }
    ensures behind { RaisedTellsBehind }
    ensures all { RaisedTellsOfAll }
{}

/// Who has all that a definition raises which stayed in order under its name tells of what is seen of it otherwise than before, and of what
/// targets find otherwise inside it.
pub fn stayed_definitions_raise()
    ensures { StayedDefinitionsRaise }
{}

/// An item that nothing before it makes a fault of has the fault that it has by itself. So a body has none whose items stand alone, if each
/// has none by itself. An item that is as it was, and settled, still has none in such a body, if none had in what the body was.
pub fn bodies_are_judged_item_by_item()
    ensures theirs { LoneFaultsAreTheirs }
    ensures items { LoneItemsAreClean }
    ensures bodies { LoneBodiesAreClean }
    ensures settled { SettledItemsStayClean }
{}

/// Where each item of a body is the old one of its number but for what is inside it, and there are as many as were, they are the old items
/// but for that.
pub fn items_in_place_are_bare()
    ensures { InPlaceAreBare }
{}
