//! What is written is read.

ghost use Rattle.std.specs.Prelude.{◌≡◌, ◌≤◌, ◌<◌, ◌^◌, ◌∷◌, ◌++◌, [], ℕ, ℤ, true, false, List, Some};
ghost use Rattle.std.specs.List.{flat_map, list_all, AllByRecursion};
ghost use Rattle.std.specs.Fmt.{decimal, signed_decimal};
ghost use Rattle.std.specs.Str.{encode_utf8_all, chars, IsUtf8};
ghost use Rattle.std.specs.Char.{IsScalar};
ghost use Rattle.grain_value.specs.Quoting.{quoted_text, quoted_character};
ghost use Rattle.grain_value.specs.Writing.{hex_byte};
ghost use Rattle.grain_words.specs.Bytes.{hex_bytes};
ghost use Rattle.grain_words.specs.Characters.{character};
ghost use Rattle.grain_words.specs.Lines.{lines_of};
ghost use Rattle.grain_words.specs.Numerals.{number, integer, begins_letter};
ghost use Rattle.grain_words.specs.Spelled.{IsLong, Spells, between_quotes, between_apostrophes, begins_integer, quoted_characters, is_plain_word, after_words, spaced, is_inside, text_of};
ghost use Rattle.grain_words.specs.Words.{next_word, is_over, is_word_end, quoted, next_text, ends_integer, integer_here, number_here, up_to};

/// The number of a decimal is the number, and so is the integer of a decimal that may have a minus.
/// A decimal is a plain word, and begins with no letter. An integer is read up to what is no digit
/// and no minus.
pub fn decimals_are_read()
    ensures numbers { (most n : ℕ) → n ≤ most → n < 2 ^ 64 → number most (decimal n) ≡ Some n }
    ensures plain { (n : ℕ) → n < 2 ^ 64 → is_plain_word (decimal n) ≡ true }
    ensures letterless { (n : ℕ) → n < 2 ^ 64 → begins_letter (decimal n) ≡ false }
    ensures integers { (z : ℤ) → IsLong z → integer (signed_decimal z) ≡ Some z }
    ensures here { (z : ℤ) (rest : List ℕ) → IsLong z → up_to ends_integer rest ≡ [] →
        integer_here (signed_decimal z ++ rest) ≡ Some (z, rest) }
{}

/// A number is read up to what is no digit and no minus. A number begins with a digit, an integer
/// with a digit or a minus, and both have ASCII characters alone.
pub fn numbers_are_read()
    ensures here { (most n : ℕ) (rest : List ℕ) → n ≤ most → n < 2 ^ 64 →
        up_to ends_integer rest ≡ [] → number_here most (decimal n ++ rest) ≡ Some (n, rest) }
    ensures begun { (z : ℤ) → IsLong z → begins_integer (signed_decimal z) ≡ true }
    ensures first { (n : ℕ) → n < 2 ^ 64 → begins_integer (decimal n) ≡ true }
    ensures integers { (z : ℤ) → IsLong z → Spells (signed_decimal z) (signed_decimal z) }
    ensures numbers { (n : ℕ) → n < 2 ^ 64 → Spells (decimal n) (decimal n) }
{}

/// A character that is spelled between apostrophes is read as that character, and what follows it
/// is left. The characters are those of the character as it is written.
pub fn characters_are_read()
    ensures read { (c : ℕ) (rest : List ℕ) →
        character (between_apostrophes c ++ 39 ∷ rest) ≡ Some (c, rest) }
    ensures written { (c : ℕ) → IsScalar c →
        Spells (39 ∷ (between_apostrophes c ++ 39 ∷ [])) (quoted_character c) }
{}

/// Bytes that are spelled with two digits each, up to a bracket, are read as those bytes, and what
/// follows the bracket is left. The digits are ASCII.
pub fn bytes_are_read()
    ensures read { (bytes rest : List ℕ) → AllByRecursion (λ b. b < 2 ^ 8) bytes →
        hex_bytes (flat_map hex_byte bytes ++ 41 ∷ rest) ≡ Some (bytes, rest) }
    ensures written { (bytes : List ℕ) → AllByRecursion (λ b. b < 2 ^ 8) bytes →
        Spells (flat_map hex_byte bytes) (flat_map hex_byte bytes) }
{}

/// A text that is spelled between quotes is read as that text, whatever characters it has, and so
/// is a text as it is written between quotes. What follows it is left; the word has to end there.
pub fn quoted_texts_are_read()
    ensures written { (s rest : List ℕ) → IsUtf8 s → is_word_end rest ≡ true →
        next_text (chars (quoted_text s) ++ rest) ≡ Some (s, rest) }
    ensures spelled { (s : List ℕ) → IsUtf8 s →
        Spells (quoted_characters (chars s)) (quoted_text s) }
    ensures characters { (cs rest : List ℕ) → is_word_end rest ≡ true →
        next_text (quoted_characters cs ++ rest) ≡ Some (encode_utf8_all cs, rest) }
    ensures inside { (cs rest : List ℕ) → quoted (flat_map between_quotes cs ++ 34 ∷ rest) ≡
        Some (encode_utf8_all cs, rest) }
{}

/// Plain words with a space before each but the first are read one after the other as those words,
/// and lines with LF after each, none of which has LF or CR, as those lines. Plain words have
/// neither.
pub fn plain_texts_are_read()
    ensures first { (w : List ℕ) (ws : List (List ℕ)) → is_plain_word w ≡ true →
        next_word (spaced w ws) ≡ Some (w, after_words ws) }
    ensures next { (w : List ℕ) (ws : List (List ℕ)) → is_plain_word w ≡ true →
        next_word (after_words (w ∷ ws)) ≡ Some (w, after_words ws) }
    ensures over { (w : List ℕ) (ws : List (List ℕ)) → is_plain_word w ≡ true →
        is_over (after_words (w ∷ ws)) ≡ false }
    ensures inside { (w : List ℕ) (ws : List (List ℕ)) → is_plain_word w ≡ true →
        list_all is_plain_word ws ≡ true →
        list_all is_inside (spaced w ws) ≡ true }
    ensures lines { (ls : List (List ℕ)) → list_all (list_all is_inside) ls ≡ true →
        lines_of (text_of ls) ≡ ls }
{}
