//! Laws of reading what was written, as contracts of functions that do nothing, but for one that writes and reads.
ghost use Rattle.std.specs.Prelude.{◌≡◌, ◌≤◌, ℕ, List, ◌++◌, length, None, Ok, IfOk, MatchResult};
ghost use Rattle.rdl_text.specs.Word.{Word};
ghost use Rattle.rdl_text.specs.Words.{words};
ghost use Rattle.rdl_tree.specs.Address.{map_body};
ghost use Rattle.rdl_tree.specs.Items.{Items};
ghost use Rattle.rdl_tree.specs.Limits.{IsWithinLimits};
ghost use Rattle.rdl_tree.specs.View.{items_of, list_of};
ghost use Rattle.rdl_tree.specs.declared.description.Item.{Item};
ghost use Rattle.rdl_parse.specs.declared.found.Spot.{Spot};
ghost use Rattle.rdl_parse.specs.Spelling.{Spells, SpellsItems};
ghost use Rattle.rdl_parse.specs.Symbol.{symbols};
ghost use Rattle.rdl_parse.specs.Faults.{max_text, out_of_memory};
ghost use Rattle.rdl_parse.specs.FirstFault.{parse_reading};
ghost use Rattle.rdl_parse.specs.Parsing.{SpellsText};
ghost use Rattle.rdl_parse.specs.Places.{Located};
ghost use Rattle.rdl_scope.specs.ItemFaults.{fault_of};
ghost use Rattle.rdl_write.specs.MapText.{map_text};
ghost use Rattle.rdl_round.specs.OfWords.{IsOfWords};
ghost use Rattle.rdl_round.specs.Spellable.{IsSpellable};
ghost use Rattle.rdl_round.specs.WrittenWords.{map_words, HasSymbols};

use rdl_parse::fault::ParseFault;
use rdl_parse::parse::parse;
use rdl_tree::description::Description;
use rdl_write::rdl;
use std::alloc::{AllocError, Global};

/// Every description that the words of a text spell is spellable: its names aren't reserved, each of its properties is
/// a name or a reserved word that is a property, and no instance has both sizes and a range.
pub fn spelled_is_spellable()
    ensures { (ws : List Word) (d : Items) (at : List Spot) → Spells (symbols ws) d at → IsSpellable d }
{}

/// The words of a written map spell the description that was written, where that is spellable.
pub fn written_words_spell()
    ensures { (d : Items) → IsSpellable d → (at : List Spot) × Spells (map_words d) d at }
{}

/// So the words of what was read and is then written spell what was read.
pub fn read_words_spell_again()
    ensures { (ws : List Word) (d : Items) (at : List Spot) → Spells (symbols ws) d at → (bt : List Spot) × Spells (map_words d) d bt }
{}

/// The text of a written map has words, and to the grammar they are `map_words`, where the description is made of words:
/// its names are identifiers, its numbers have the bits of a number, and its strings can stand between quotes.
pub fn written_text_has_words()
    ensures { (d : Items) → IsOfWords d → HasSymbols (map_text d) (map_words d) }
{}

/// The text of a written map isn't too long where the map is made of words and has no fault: it has no more than 65,536 items then,
/// at most four sizes for each instance, and its names and strings have no more than 8,388,608 bytes.
pub fn faultless_maps_are_short()
    ensures { (d : Items) → IsOfWords d → fault_of d ≡ None → length (map_text d) ≤ max_text }
{}

/// The text of a written map spells the description that was written, where the description is made of words and spellable
/// and the text isn't too long, or the description has no fault.
pub fn written_maps_read_back()
    ensures faultless { (d : Items) → IsOfWords d → IsSpellable d → fault_of d ≡ None → (p : Located) × SpellsText (map_text d) d p }
    ensures short { (d : Items) → IsOfWords d → IsSpellable d → length (map_text d) ≤ max_text → (p : Located) × SpellsText (map_text d) d p }
{}

/// Every description that the words of a text spell is made of words.
pub fn spelled_is_of_words()
    ensures { (text : List ℕ) (ws : List Word) (d : Items) (at : List Spot) → words text ≡ Ok ws → Spells (symbols ws) d at → IsOfWords d }
{}

/// So the text of the map that is written of what a text spells spells the same description, where it isn't too long or the
/// description has no fault.
pub fn read_maps_read_back()
    ensures faultless { (text : List ℕ) (d : Items) (p : Located) → SpellsText text d p → fault_of d ≡ None → (q : Located) × SpellsText (map_text d) d q }
    ensures short { (text : List ℕ) (d : Items) (p : Located) → SpellsText text d p → length (map_text d) ≤ max_text → (q : Located) × SpellsText (map_text d) d q }
{}

/// Reading the text of a written map gives the description that was written, where that has no fault, or it is within the
/// limits and the text isn't too long.
pub fn written_maps_are_parsed()
    ensures faultless { (d : Items) → IsOfWords d → IsSpellable d → fault_of d ≡ None → (p : Located) × (parse_reading (map_text d) ≡ Ok (d, p)) }
    ensures short { (d : Items) → IsOfWords d → IsSpellable d → IsWithinLimits d → length (map_text d) ≤ max_text → (p : Located) × (parse_reading (map_text d) ≡ Ok (d, p)) }
{}

/// So what was read, is then written and read again is the same: this is what `parse` answers for the text that `rdl`
/// writes of what `parse` answered, where memory suffices.
pub fn read_maps_are_parsed_again()
    ensures faultless { (text : List ℕ) (d : Items) (p : Located) → SpellsText text d p → fault_of d ≡ None → (q : Located) × (parse_reading (map_text d) ≡ Ok (d, q)) }
    ensures short { (text : List ℕ) (d : Items) (p : Located) → SpellsText text d p → IsWithinLimits d → length (map_text d) ≤ max_text → (q : Located) × (parse_reading (map_text d) ≡ Ok (d, q)) }
{}

/// What `parse` answers for the text that `rdl` writes of a map without a fault: the same map, but for want of memory.
pub fn written_map_is_parsed(
    alloc: Global,
    description: &Description,
) -> Result<Result<Description, ParseFault>, AllocError>
    ensures { let d = description.now.items in IsOfWords d → IsSpellable d → fault_of d ≡ None
        → IfOk result (λ read. MatchResult read (λ x. x.items ≡ d) (λ f. f ≡ out_of_memory)) }
{
    let text = rdl(alloc, description)?;
    match parse(alloc, text.as_str()) {
        Ok((read, _places)) => Ok(Ok(read)),
        Err(fault) => Ok(Err(fault)),
    }
}

/// The items of a statement too are spellable and made of words.
pub fn spelled_items_are_writable()
    ensures spellable { (ws : List Word) (xs : List Item) → SpellsItems (symbols ws) xs → IsSpellable (items_of xs) }
    ensures of_words { (text : List ℕ) (ws : List Word) (xs : List Item) → words text ≡ Ok ws → SpellsItems (symbols ws) xs → IsOfWords (items_of xs) }
{}

/// So is a body with items behind its own, if both are.
pub fn added_items_are_writable()
    ensures spellable { (body added : Items) → IsSpellable body → IsSpellable added → IsSpellable (items_of (list_of body ++ list_of added)) }
    ensures of_words { (body added : Items) → IsOfWords body → IsOfWords added → IsOfWords (items_of (list_of body ++ list_of added)) }
{}

/// And so is a description with one body changed, if the change keeps it of each body.
pub fn edited_bodies_are_writable()
    ensures spellable { (address : List ℕ) (change : Items → Items) (d : Items) → ((b : Items) → IsSpellable b → IsSpellable (change b)) → IsSpellable d → IsSpellable (map_body address change d) }
    ensures of_words { (address : List ℕ) (change : Items → Items) (d : Items) → ((b : Items) → IsOfWords b → IsOfWords (change b)) → IsOfWords d → IsOfWords (map_body address change d) }
{}
