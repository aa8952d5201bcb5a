//! What holds of all patches that fit one after another.
ghost use Rattle.std.specs.Prelude.{List};
ghost use Rattle.rdl_tree.specs.Items.{Items};
ghost use Rattle.rdl_tree.specs.Patch.{image, inverses, AllFit};
ghost use Rattle.rdl_tree.specs.declared.patch.Patch.{Patch};
ghost use Rattle.rdl_marks.specs.Marks.{Marks, no_marks};
ghost use Rattle.rdl_marks.specs.Noted.{noted, all_noted};
ghost use Rattle.rdl_marks.specs.Describes.{Describes, KeepsDescribing};
ghost use Rattle.rdl_marks.specs.InOrder.{AreInOrder, StaysInOrder, StayInOrder, PassesOverGoneOrMoved, GoesOn};
ghost use Rattle.rdl_marks.specs.Was.{HadOtherNumbers};

/// Before any patch nothing is changed. Marks that describe what became of a body still do so behind a patch that fits, if its
/// inverse is noted, and behind all that fit one after another, if the inverse of each is.
pub fn marks_describe()
    ensures first { (old : Items) → Describes no_marks old old }
    ensures one { (back : Patch) (m : Marks) → KeepsDescribing back m (noted back m) }
    ensures all { (ps : List Patch) (m : Marks) (old now : Items) → AllFit ps now → Describes m old now → Describes (all_noted (inverses ps now) m) old (image ps now) }
{}

/// Items that were there before and weren't moved stand in the order of the numbers that they had, before any patch and behind each one
/// that is noted. Whoever goes along the items of a body, and beside them along those that there were, goes on there, and passes over
/// old items that are gone or were moved, and over no others. No two items had the same number.
pub fn marks_are_in_order()
    ensures first { AreInOrder no_marks }
    ensures one { StaysInOrder }
    ensures all { StayInOrder }
    ensures passed { PassesOverGoneOrMoved }
    ensures on { GoesOn }
    ensures apart { HadOtherNumbers }
{}
