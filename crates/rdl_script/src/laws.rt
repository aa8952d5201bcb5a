//! Laws of the operands, as contracts of functions that do nothing.
ghost use Rattle.std.specs.Prelude.{◌≡◌, ◌↔◌, ℕ, List, Option};
ghost use Rattle.rdl_tree.specs.declared.value.Value.{Value};
ghost use Rattle.rdl_parse.specs.Symbol.{Symbol};
ghost use Rattle.rdl_script.specs.Operands.{dims_by, bits_by, number_or_none_by, one_value_by};
ghost use Rattle.rdl_script.specs.Spelled.{SpellsDims, SpellsBits, SpellsNumber, SpellsValue};

/// Words are read as an operand exactly where they spell it.
pub fn operands_are_spelled()
    ensures dims { (ws : List Symbol) (ns : List ℕ) → (dims_by ws ≡ Some ns) ↔ SpellsDims ws ns }
    ensures bits { (ws : List Symbol) (bits : Option (ℕ × ℕ)) → (bits_by ws ≡ Some bits) ↔ SpellsBits ws bits }
    ensures number { (ws : List Symbol) (n : Option ℕ) → (number_or_none_by ws ≡ Some n) ↔ SpellsNumber ws n }
    ensures value { (ws : List Symbol) (value : Value) → (one_value_by ws ≡ Some value) ↔ SpellsValue ws value }
{}
