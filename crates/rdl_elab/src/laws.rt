//! What the definitions have in common. Each function here is a law: it does nothing when it runs.
ghost use Rattle.std.specs.Prelude.{◌≡◌, ◌++◌, ◌∷◌, [], ℕ, List, map, Option, Some, None, true};
ghost use Rattle.rdl_tree.specs.ItemAt.{item_at};
ghost use Rattle.rdl_tree.specs.Items.{Items};
ghost use Rattle.rdl_tree.specs.declared.shell.Kind.{Kind};
ghost use Rattle.rdl_tree.specs.declared.shell.Shell.{Shell};
ghost use Rattle.rdl_tree.specs.declared.property.Property.{Property};
ghost use Rattle.rdl_tree.specs.declared.value.Value.{Value};
ghost use Rattle.rdl_tree.specs.declared.description.Of.{Of};
ghost use Rattle.rdl_tree.specs.declared.description.Item.TheVariants.{Instance};
ghost use Rattle.rdl_scope.specs.Closed.{Head, Made, component};
ghost use Rattle.rdl_scope.specs.Target.{body_of};
ghost use Rattle.rdl_scope.specs.Value.{assigned};
ghost use Rattle.rdl_elab.specs.declared.layout.Mode.{Mode};
ghost use Rattle.rdl_elab.specs.declared.layout.Placement.{Placement};
ghost use Rattle.rdl_elab.specs.declared.layout.Layout.{Layout};
ghost use Rattle.rdl_elab.specs.declared.layout.LayoutValues.{LayoutValues};
ghost use Rattle.rdl_elab.specs.declared.layout.Span.{Span};
ghost use Rattle.rdl_elab.specs.Rounding.{power_up, IsLeastPower};
ghost use Rattle.rdl_elab.specs.Start.{start_of, alignments, IsLeast};
ghost use Rattle.rdl_elab.specs.Layouts.{values_of, layout_values, laid_out, layout, layout_as_found, instances_under, member};
ghost use Rattle.rdl_elab.specs.Capped.{capped_layout, capped_instance, IsAlignment};
ghost use Rattle.rdl_elab.specs.Rows.{row_values, AreValuesAlong};
ghost use Rattle.rdl_elab.specs.Shown.{shown_values};
ghost use Rattle.rdl_elab.specs.Reaches.{reaches, reaches_at, behind, along, reached, values_along};
ghost use Rattle.rdl_elab.specs.Found.{ArePartsFound};
ghost use Rattle.rdl_elab.specs.Faults.{overlap, SharesANumber};

/// An instance without `@` begins at the least number that is at least the end of the instance before it and a multiple
/// of each of its alignments; and an array in fullalign is aligned by the least power of two that holds it.
pub fn starts_are_least()
    ensures start { (around : Option ℕ) (m : Mode) (end : ℕ) (p : Placement) → p.address ≡ None → IsLeast end (alignments around m p) (start_of around m end p) }
    ensures power { (n : ℕ) → IsLeastPower n (power_up n) }
{}

/// The `alignment` with which a component is laid out is a power of two.
pub fn alignments_are_powers()
    ensures { (value : Property → Option Value) → IsAlignment (layout_values value).alignment }
{}

/// The layout of a component depends on its kind, on the layout values of its own body, and on what it takes of its
/// instances and of their layouts. Names, resets, and where the component is written play no part.
pub fn layouts_are_of_members()
    ensures { (m : Mode) (b c : Made) → b.head.kind ≡ c.head.kind → values_of b.head ≡ values_of c.head → map member (instances_under m b) ≡ map member (instances_under m c) → layout m b ≡ layout m c }
{}

/// What is kept of the layout of a component is made of what is kept of the layouts of its instances' components.
pub fn kept_layouts_suffice()
    ensures { (k : Kind) (v : LayoutValues) (m : Mode) (xs : List (Shell × Layout)) → capped_layout (laid_out k v m (map member (map capped_instance xs))) ≡ capped_layout (laid_out k v m (map member xs)) }
{}

/// Two spans overlap exactly where a number lies in both.
pub fn overlaps_share_a_number()
    ensures shared { (a b : Span) → overlap a b ≡ true → SharesANumber a b }
    ensures apart { (a b : Span) → SharesANumber a b → overlap a b ≡ true }
{}

/// The layout of a component is that of the values and of the instances that the searches through whole bodies find.
pub fn layouts_are_as_found()
    ensures { (d : Items) (a : List ℕ) (c : Made) (m : Mode) → component d a ≡ Some c → layout m c ≡ layout_as_found d a m c.head }
{}

/// The instances of a component are as the searches through whole bodies find them, all the way down; and its body has
/// the dynamic assignments of the body at its address.
pub fn instances_are_as_found()
    ensures parts { (d : Items) (a : List ℕ) (c : Made) → component d a ≡ Some c → ArePartsFound d a c.parts }
    ensures assignments { (d : Items) (a : List ℕ) (c : Made) → component d a ≡ Some c → reaches_at d a ≡ reaches d a 0 c.head.body }
{}

/// What comes along a path, one instance after the other, is what the search through the bodies of the path finds.
pub fn assignments_come_along()
    ensures reached { (d : Items) (p : List ℕ) (path : List (List ℕ)) → reached p (along d [] path) ≡ assigned d p path }
    ensures further { (d : Items) (path : List (List ℕ)) (at a : List ℕ) (c : Made) → body_of at ≡ a → component d a ≡ Some c → along d [] (path ++ at ∷ []) ≡ behind at (along d [] path ++ reaches d a 0 c.head.body) }
{}

/// The values of a row are made of those that its component has by itself, of the reset of its instance, and of the
/// assignments that come along its path. Where there is neither, and for the top, they are those of the component.
pub fn values_are_along()
    ensures row { (d : Items) (path : List (List ℕ)) (at : List ℕ) (s : Shell) (o : Of) (c : Made) → item_at at d ≡ Some (Instance s o) → component d c.head.at ≡ Some c
        → AreValuesAlong d (path ++ at ∷ []) s c.head }
    ensures alone { (h : Head) → values_along h.kind None [] (shown_values h) ≡ shown_values h }
    ensures top { (d : Items) (a : List ℕ) (c : Made) → component d a ≡ Some c → shown_values c.head ≡ row_values d [] c.head }
{}
