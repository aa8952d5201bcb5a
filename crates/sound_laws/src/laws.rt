//! What holds of sound components. Nothing here does anything when it runs.
ghost use Rattle.sound_laws.specs.Laws.{TargetsAreNamed, SoundAssignsNoHarm, SoundHasNoFault, UnjudgedAreHarmless, SoundMapHasNoFault, SoundMapIsItsRows, ModesMatterToRegisterFiles, KeptSuffices, SearchFindsFirst, SearchFindsMapFault, KeptIsCautious};
ghost use Rattle.sound_laws.specs.Exact.{SoundIsExact};
ghost use Rattle.sound_laws.specs.Verdicts.{FittingIsHarmless};

/// In a description without a fault among its items, no row below a sound component has a fault, if what is assigned from
/// around it is harmless there; and what neither assigns `sw` nor `reset` is. So a map within the limits whose top is sound
/// has no fault, and is its rows.
pub fn sound_components_have_no_fault()
    ensures below { SoundHasNoFault }
    ensures unjudged { UnjudgedAreHarmless }
    ensures map { SoundMapHasNoFault }
    ensures rows { SoundMapIsItsRows }
{}

/// A target of a component's body passes the instances that its names find among those of the component. The dynamic
/// assignments of a sound component, found so, are harmless; and names alone tell whether they are.
pub fn sound_components_do_no_harm()
    ensures named { TargetsAreNamed }
    ensures harmless { SoundAssignsNoHarm }
    ensures told { FittingIsHarmless }
{}

/// Where no dynamic assignment of `sw` or `reset` stands inside a component or comes to it, it is sound if no row below it has a
/// fault, in a description without a fault among its items.
pub fn soundness_is_exact()
    ensures { SoundIsExact }
{}

/// Whether a component is sound depends on the mode under which it stands for a register file alone.
pub fn modes_matter_to_register_files()
    ensures { ModesMatterToRegisterFiles }
{}

/// A component is sound where it is so by what is kept of layouts, if that is exact, as it is of a component of no more than
/// 2^40 bytes. What is harmless in it is told so, too.
pub fn kept_layouts_tell()
    ensures { KeptSuffices }
{}

/// In a description without a fault among its items, the first fault below a component is found where components are passed
/// over, if each of those is sound and nothing harmful comes to it; so is the fault of a map. What is kept of layouts tells which
/// may be.
pub fn search_finds_first_fault()
    ensures first { SearchFindsFirst }
    ensures map { SearchFindsMapFault }
    ensures kept { KeptIsCautious }
{}
