//! What the definitions have in common.
ghost use Rattle.std.specs.Prelude.{◌≡◌, ℕ, List, [], ◌∷◌, Some, None, slice_get};
ghost use Rattle.std.specs.Option.{is_some};
ghost use Rattle.rdl_tree.specs.Items.{Items};
ghost use Rattle.rdl_tree.specs.Address.{body_at};
ghost use Rattle.rdl_tree.specs.View.{list_of};
ghost use Rattle.rdl_tree.specs.declared.description.Component.{Component};
ghost use Rattle.rdl_tree.specs.declared.description.Item.{Item};
ghost use Rattle.rdl_scope.specs.Types.{component_at};
ghost use Rattle.rdl_scope.specs.ItemFaults.{AreKindsAllowed, item_fault, fault_of};
ghost use Rattle.rdl_scope.specs.Value.{component_value};
ghost use Rattle.rdl_scope.specs.Closed.{Made, component, head_value, IsAsFound};

/// A component with all that it takes from around it is as the searches through whole bodies say: there is one at each
/// address that has a body; its instances have the components that the search for their types finds; its values are
/// those of rules 3 to 5. It does nothing when it runs.
pub fn components_are_as_found()
    ensures exists { (d : Items) (i : ℕ) (a : List ℕ) → is_some (component d (i ∷ a)) ≡ is_some (body_at (i ∷ a) d) }
    ensures found { (d : Items) (a : List ℕ) (m : Made) → component d a ≡ Some m → IsAsFound d a m }
    ensures values { (d : Items) (a : List ℕ) (m : Made) → component d a ≡ Some m → head_value m.head ≡ component_value d a }
{}

/// In a description without a fault, no item has one: neither those of the root nor those inside a component. So each
/// instance is of a kind that the component around it may hold. It does nothing when it runs.
pub fn accepted_items_have_no_fault()
    ensures root { (d : Items) (n : ℕ) (x : Item) → fault_of d ≡ None → slice_get (list_of d) n ≡ Some x → item_fault d None [] d n x ≡ None }
    ensures inside { (d : Items) (a : List ℕ) (c : Component) (n : ℕ) (x : Item) → fault_of d ≡ None → component_at d a ≡ Some c
        → slice_get (list_of c.body) n ≡ Some x → item_fault d (Some c.kind) a c.body n x ≡ None }
    ensures kinds { (d : Items) → fault_of d ≡ None → AreKindsAllowed d }
{}
