//! What is written is read.

ghost use Rattle.std.specs.Prelude.{◌≡◌, ◌≤◌, ◌++◌, ◌∷◌, [], ℕ, length, true, false, List, Ok, codes};
ghost use Rattle.std.specs.Char.{IsScalar};
ghost use Rattle.std.specs.List.{AllByRecursion};
ghost use Rattle.std.specs.Str.{chars, IsUtf8};
ghost use Rattle.grain_value.specs.Cells.{cell_bound, is_clean};
ghost use Rattle.grain_value.specs.Quoting.{quoted_text};
ghost use Rattle.grain_value.specs.View.{tree};
ghost use Rattle.grain_value.specs.Writing.{quoted};
ghost use Rattle.grain_value.specs.declared.scopes.Entry.{Entry};
ghost use Rattle.grain_value.specs.declared.values.Dynamic.{Dynamic};
ghost use Rattle.grain_words.specs.Words.{ends_integer, up_to};
ghost use Rattle.grain_literals.specs.Listed.{IsListed};
ghost use Rattle.grain_literals.specs.Values.{others, all_others, entry_here, value};
ghost use Rattle.grain_literals.specs.Literals.{literal, constant_of, entry_of, entry_with};

/// A value that a listing can hold is read from its quoted text as that value, and what follows it
/// is left, where that begins with no digit and no minus. A `const` line with that text is read as
/// that constant, and a `scope` line with the quoted text of a name and that text as that entry,
/// which is read-only after `const`.
pub fn values_are_read()
    ensures read { (v : Dynamic) (rest : List ℕ) → IsListed 64 (tree v) →
        up_to ends_integer rest ≡ [] → literal (chars (quoted v) ++ rest) ≡ Ok (v, rest) }
    ensures constants { (v : Dynamic) → IsListed 64 (tree v) →
        constant_of (32 ∷ chars (quoted v)) ≡ Ok v }
    ensures entries { (name : List ℕ) (v : Dynamic) → IsUtf8 name → IsListed 64 (tree v) →
        entry_of (32 ∷ (chars (quoted_text name) ++ 32 ∷ chars (quoted v))) ≡
        Ok (entry_with name false v) }
    ensures read_only { (name : List ℕ) (v : Dynamic) → IsUtf8 name → IsListed 64 (tree v) →
        entry_of (codes " const " ++ (chars (quoted_text name) ++ 32 ∷ chars (quoted v))) ≡
        Ok (entry_with name true v) }
{
    grain_words::decimals_are_read();
    grain_words::numbers_are_read();
    grain_words::characters_are_read();
    grain_words::bytes_are_read();
    grain_words::quoted_texts_are_read();
}

/// What is read is a value that a listing can hold, where the line's characters are scalar values,
/// as those of a text are: the value that begins somewhere, that of a `const` line, and that of a
/// `scope` line, whose name is UTF-8.
pub fn read_values_can_be_listed()
    ensures values { (cs rest : List ℕ) (v : Dynamic) → AllByRecursion IsScalar cs →
        literal cs ≡ Ok (v, rest) → IsListed 64 (tree v) }
    ensures constants { (cs : List ℕ) (v : Dynamic) → AllByRecursion IsScalar cs →
        constant_of cs ≡ Ok v → IsListed 64 (tree v) }
    ensures entries { (cs : List ℕ) (e : Entry) → AllByRecursion IsScalar cs →
        entry_of cs ≡ Ok e → IsUtf8 e.name × IsListed 64 (tree e.held.value) }
{}

/// A constant that is read is clean and names no cell, whatever the line's characters are.
pub fn read_values_name_no_cell()
    ensures { (cs : List ℕ) (v : Dynamic) → constant_of cs ≡ Ok v →
        (is_clean (tree v) ≡ true) × (cell_bound (tree v) ≡ 0) }
{}

/// How many things a list of a value may have is bounded by its line alone. What is read of a list
/// with room for as many things as there are characters left is read with any more room too: of
/// values up to a sign, and of the entries of a map.
pub fn lists_have_room()
    ensures values { (sign levels room : ℕ) (cs : List ℕ) → length cs ≤ room →
        others (sign ∷ []) (value levels) room cs ≡ all_others (sign ∷ []) (value levels) cs }
    ensures entries { (levels room : ℕ) (cs : List ℕ) → length cs ≤ room →
        others (codes "}") (entry_here (value levels)) room cs ≡
        all_others (codes "}") (entry_here (value levels)) cs }
{}
