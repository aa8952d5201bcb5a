//! What holds where a node says that its component is sound. Nothing here does anything when it runs.
ghost use Rattle.sound_nodes.specs.Laws.{SeenAreSound, NodesTell, SoundNodesHaveNoFault, SeenIsCautious, LimitsAreSeen, SoundTopIsItsRows};

/// In a description without a fault among its items, a component whose node says that it is sound under a mode is sound there. So no
/// row below it has a fault, if what is assigned from around it is harmless; and a search for the first fault may pass over it.
pub fn sound_nodes_have_no_fault()
    ensures seen { SeenAreSound }
    ensures told { NodesTell }
    ensures below { SoundNodesHaveNoFault }
    ensures search { SeenIsCautious }
{}

/// Whether a map is within the limits is told by what is seen of its top. So a map whose top's node says that it is sound and within
/// the limits is its rows, with no look at any of them.
pub fn sound_tops_are_their_rows()
    ensures limits { LimitsAreSeen }
    ensures rows { SoundTopIsItsRows }
{}
