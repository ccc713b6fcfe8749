//! What is written is read.

ghost use Rattle.std.specs.Prelude.{◌≡◌, ◌<◌, ◌^◌, ◌++◌, ◌∷◌, ℕ, List, All, Ok};
ghost use Rattle.std.specs.Char.{IsScalar};
ghost use Rattle.std.specs.Fmt.{decimal};
ghost use Rattle.std.specs.List.{flat_map, AllByRecursion};
ghost use Rattle.std.specs.Str.{chars};
ghost use Rattle.grain_value.specs.View.{tree};
ghost use Rattle.grain_value.specs.Writing.{quoted};
ghost use Rattle.grain_value.specs.declared.values.Dynamic.{Dynamic};
ghost use Rattle.grain_words.specs.Lines.{lines_of};
ghost use Rattle.grain_program.specs.declared.code.instruction_set.Op.{Op};
ghost use Rattle.grain_program.specs.Spelling.{OpFits, spelling};
ghost use Rattle.grain_literals.specs.Steps.{and_then};
ghost use Rattle.grain_literals.specs.Listed.{IsListed};
ghost use Rattle.grain_listing.specs.HostLines.{stop_of};
ghost use Rattle.grain_listing.specs.InstructionLines.{instruction_text};
ghost use Rattle.grain_listing.specs.Statements.{Statement, section, pieces};
ghost use Rattle.grain_listing.specs.LineMeanings.{bytes, statements};
ghost use Rattle.grain_listing.specs.declared.table.Section.TheVariants as sections;

/// A `stop` line with a number and the quoted text of a value that a listing can hold is read as
/// that number and that value. What is read of a `stop` line is a value that a listing can hold,
/// where the line's characters are scalar values, as those of a text are.
pub fn stops_are_read()
    ensures read { (n : ℕ) (v : Dynamic) → n < 2 ^ 64 → IsListed 64 (tree v) →
        stop_of (32 ∷ (decimal n ++ 32 ∷ chars (quoted v))) ≡ Ok (n, v) }
    ensures listed { (cs : List ℕ) (n : ℕ) (v : Dynamic) → AllByRecursion IsScalar cs →
        stop_of cs ≡ Ok (n, v) → IsListed 64 (tree v) }
{
    grain_words::decimals_are_read();
    grain_words::plain_texts_are_read();
    grain_literals::values_are_read();
    grain_literals::read_values_can_be_listed();
}

/// The lines of any instructions, in a block, are read as those instructions: the pieces of the
/// code are those before them and the bytes with which the instructions are spelled.
pub fn instructions_are_read()
    ensures { (n : ℕ) (before : List Statement) (ops : List Op) → section before ≡ sections.Block →
        All OpFits ops →
        and_then (statements n before (lines_of (instruction_text ops)))
        (λ said. Ok (pieces said)) ≡
        Ok (pieces before ++ bytes (flat_map spelling ops)) }
{
    grain_words::decimals_are_read();
    grain_words::plain_texts_are_read();
}
