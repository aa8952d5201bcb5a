//! What holds of all patches that fit one after another.
ghost use Rattle.std.specs.Prelude.{◌≡◌, ◌+◌, ◌*◌, ◌≤◌, List, length};
ghost use Rattle.rdl_tree.specs.Items.{Items};
ghost use Rattle.rdl_tree.specs.Depth.{depth};
ghost use Rattle.rdl_tree.specs.Patch.{image, inverses, AllFit};
ghost use Rattle.rdl_tree.specs.PatchWeight.{patches_weight, taken};
ghost use Rattle.rdl_tree.specs.declared.patch.Patch.{Patch};

/// The inverses of patches lead back, their inverses are the patches, and there are as many.
pub fn patches_go_back()
    ensures back { (ps : List Patch) (t : Items) → AllFit ps t → image (inverses ps t) (image ps t) ≡ t }
    ensures again { (ps : List Patch) (t : Items) → AllFit ps t → inverses (inverses ps t) (image ps t) ≡ ps }
    ensures count { (ps : List Patch) (t : Items) → AllFit ps t → length (inverses ps t) ≡ length ps }
{}

/// From a description that nests at most 16 deep, patches lead to such a one, where their inverses fit. These weigh no
/// more than what the patches took away, and 20 for each.
pub fn patches_keep_levels()
    ensures nesting { (ps : List Patch) (t : Items) → AllFit ps t → depth t ≤ 16 → depth (image ps t) ≤ 16 }
    ensures fit { (ps : List Patch) (t : Items) → AllFit ps t → depth t ≤ 16 → AllFit (inverses ps t) (image ps t) }
    ensures weight { (ps : List Patch) (t : Items) → AllFit ps t → depth t ≤ 16 → patches_weight (inverses ps t) ≤ taken ps t + 20 * length ps }
{}
