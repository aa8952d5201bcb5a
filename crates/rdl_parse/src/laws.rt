//! Laws of the grammar, as contracts of functions that do nothing.
ghost use Rattle.std.specs.Prelude.{◌≡◌, ℕ, List, map};
ghost use Rattle.std.specs.Option.{is_some};
ghost use Rattle.rdl_text.specs.Word.{Word};
ghost use Rattle.rdl_tree.specs.Items.{Items};
ghost use Rattle.rdl_tree.specs.ItemAt.{item_at};
ghost use Rattle.rdl_tree.specs.declared.description.Item.{Item};
ghost use Rattle.rdl_parse.specs.Symbol.{Symbol, symbols};
ghost use Rattle.rdl_parse.specs.declared.found.Spot.{Spot};
ghost use Rattle.rdl_parse.specs.Places.{place_of, start_at};
ghost use Rattle.rdl_parse.specs.Spelling.{Spells, SpellsItems};

/// No words spell two descriptions, or one whose items stand at two lists of places. That holds without any limits.
pub fn one_description()
    ensures { (ws : List Symbol) (d e : Items) (at bt : List Spot) → Spells ws d at → Spells ws e bt → (d ≡ e) × (at ≡ bt) }
{}

/// No words are one statement for two lists of items.
pub fn one_statement()
    ensures { (ws : List Symbol) (xs ys : List Item) → SpellsItems ws xs → SpellsItems ws ys → xs ≡ ys }
{}

/// There is a place for an address exactly where the description that the words spell has an item.
pub fn each_item_has_a_place()
    ensures { (ws : List Word) (d : Items) (at : List Spot) → Spells (symbols ws) d at → (address : List ℕ) → is_some (start_at address (map (place_of ws) at)) ≡ is_some (item_at address d) }
{}
