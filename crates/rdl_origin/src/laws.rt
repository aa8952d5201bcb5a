//! What holds of all steps back that fit.
ghost use Rattle.std.specs.Prelude.{◌≡◌, ◌^◌, ◌≤◌, IsTrue, List};
ghost use Rattle.rdl_tree.specs.Items.{Items, count};
ghost use Rattle.rdl_tree.specs.Patch.{image, AllFit};
ghost use Rattle.rdl_tree.specs.declared.patch.Patch.{Patch};
ghost use Rattle.rdl_origin.specs.Traces.{Traces};
ghost use Rattle.rdl_origin.specs.Numbered.{origins_of, unnumbered};
ghost use Rattle.rdl_origin.specs.Back.{all_gone_back, are_placed};
ghost use Rattle.rdl_origin.specs.Once.{StandOnce};
ghost use Rattle.rdl_origin.specs.Order.{AreInOrder};
ghost use Rattle.rdl_origin.specs.Shape.{shape};
ghost use Rattle.rdl_origin.specs.Values.{AreValues};

/// Before any step the origins nest as the items of the last map do. Where they nest as a description does which patches
/// fit, these have a place, and then they nest as the description to which the patches lead.
pub fn origins_have_the_shape()
    ensures first { (last : Items) → shape (origins_of last) ≡ unnumbered last }
    ensures placed { (ps : List Patch) (t : Items) (origins : Traces) → shape origins ≡ unnumbered t → AllFit ps t → IsTrue (are_placed ps origins) }
    ensures then { (ps : List Patch) (t : Items) (origins : Traces) → shape origins ≡ unnumbered t → AllFit ps t → shape (all_gone_back ps origins) ≡ unnumbered (image ps t) }
{}

/// In each body the items that weren't moved stand in the order of their numbers, whatever the patches.
pub fn unmoved_items_stand_in_order()
    ensures first { (last : Items) → count last ≤ 2 ^ 32 → AreInOrder (origins_of last) }
    ensures then { (ps : List Patch) (origins : Traces) → AreInOrder origins → AreInOrder (all_gone_back ps origins) }
{}

/// No two items of a body have the same number, whatever the patches.
pub fn numbers_stand_once()
    ensures first { (last : Items) → count last ≤ 2 ^ 32 → StandOnce (origins_of last) }
    ensures then { (ps : List Patch) (origins : Traces) → StandOnce origins → StandOnce (all_gone_back ps origins) }
{}

/// An item that is still there has its number in the last map, in the body that the one became which held it; and it is the same one,
/// but for its body, if no step touched it. So it is before any step, and of a description to which patches lead that fit.
pub fn untouched_items_are_the_same()
    ensures first { (last : Items) → count last ≤ 2 ^ 32 → AreValues 0 last (origins_of last) last }
    ensures then { (ps : List Patch) (t last : Items) (origins : Traces) → AreValues 0 last origins t → AllFit ps t → AreValues 0 last (all_gone_back ps origins) (image ps t) }
{}
