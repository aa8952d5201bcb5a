//! What holds of all steps. Nothing here does anything when it runs.
ghost use Rattle.rdl_reach.specs.QuietLaws.{QuietPatchesEditNothing, QuietPatchesComeBackQuietly};
ghost use Rattle.rdl_reach.specs.Laws.{ReachIsFound, AllArePlacedOnce, OutOfReachStays, PlacesWhatIsInReach, PlacesNothing};

/// A body is in reach of those that are edited only if it is edited itself, or if one of its items is an instance whose component's body
/// is in reach.
pub fn reach_is_as_found()
    ensures { ReachIsFound }
{}

/// A component out of reach of the bodies that a step edits was there before the step, and its layouts are made of the same as they were:
/// its kind, its values, and what is taken of each of its instances.
pub fn out_of_reach_stays()
    ensures { OutOfReachStays }
{}

/// Where a description without a fault is laid out, each instance of each component is placed once for each mode at most.
pub fn all_are_placed_once()
    ensures { AllArePlacedOnce }
{}

/// Where what is kept of a description is renewed after a step, each instance of the components in reach of the bodies that the step edits
/// is placed once for each mode at most, and no other. So a step that edits no body places none.
pub fn steps_place_what_is_in_reach()
    ensures placed { PlacesWhatIsInReach }
    ensures nothing { PlacesNothing }
{}

/// Quiet patches edit no body, where the skeleton of the description stays: assignments and defaults come, go or move on which no layout
/// depends, or get another value; an instance gets a name or a reset, a definition or a reference another name.
pub fn quiet_patches_edit_no_body()
    ensures { QuietPatchesEditNothing }
{}

/// What takes quiet patches back is quiet: the patches that lead back from where they led, in the order in which they do.
pub fn quiet_patches_come_back_quietly()
    ensures { QuietPatchesComeBackQuietly }
{}
