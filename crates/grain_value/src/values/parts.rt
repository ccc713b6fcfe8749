//! What stands inside a value without a place of its own: bytes, characters and bits.

ghost use Rattle.std.specs.Prelude.{◌≡◌, ◌∷◌, ◌++◌, ℕ, drop, slice_get, slice_set, IfOk, IfErr, is_some};
ghost use Rattle.std.specs.Str.{chars, encode_utf8_all};
ghost use Rattle.grain_value.specs.Parts.{has_bit, with_bit, low_byte, part, with_part, or_unchanged};

use super::{Dynamic, Spot};
use crate::memory::OutOfMemory;
use crate::texts::Text;
use std::alloc::Global;

impl Dynamic {
    /// The byte, the character or the bit at a spot, as a value of its own: a byte as an integer. It
    /// is unit where the value has no such thing there.
    pub fn part(&self, spot: Spot) -> Dynamic
        ensures { result ≡ part self.now spot }
    {
        match (self, spot) {
            (Dynamic::Blob(blob), Spot::Byte(place)) => match blob.get(place) {
                Some(byte) => Dynamic::Int(i64::from(byte)),
                None => Dynamic::Unit,
            },
            (Dynamic::Text(text), Spot::Character(place)) => match text.character(place) {
                Some(character) => Dynamic::Char(character),
                None => Dynamic::Unit,
            },
            (Dynamic::Int(integer), Spot::Bit(place)) => Dynamic::Bool(has_bit(*integer, place)),
            _ => Dynamic::Unit,
        }
    }

    /// Puts a value at a spot, in the place of the byte, the character or the bit that stands there: of
    /// an integer a byte takes the low eight bits. It says whether the value is of the type that
    /// stands there; if not, nothing changes. After want of memory nothing changed either.
    pub fn put_part(
        &mut self,
        alloc: Global,
        spot: Spot,
        value: &Dynamic,
    ) -> Result<bool, OutOfMemory>
        ensures done { IfOk result (λ is_put. is_put ≡ is_some (with_part self.old spot value.now)) }
        ensures left { IfOk result
            (λ is_put. self.new ≡ or_unchanged self.old (with_part self.old spot value.now)) }
        ensures unchanged { IfErr result (λ e. self.new ≡ self.old) }
    {
        match (self, spot, value) {
            (Dynamic::Blob(blob), Spot::Byte(place), Dynamic::Int(integer)) => {
                blob.set(place, low_byte(*integer));
                Ok(true)
            }
            (Dynamic::Text(text), Spot::Character(place), Dynamic::Char(character)) => {
                let changed = text.with_character(alloc, place, *character)?;
                *text = changed;
                Ok(true)
            }
            (Dynamic::Int(integer), Spot::Bit(place), Dynamic::Bool(bit)) => {
                *integer = with_bit(*integer, place, *bit);
                Ok(true)
            }
            _ => Ok(false),
        }
    }
}

// Whether a bit of an integer is set.
fn has_bit(integer: i64, place: u32) -> bool
    ensures { result ≡ has_bit place integer }
{
    if place < 64 {
        (integer.cast_unsigned() >> place) & 1 == 1
    } else {
        false
    }
}

// The integer with a bit set, or not set.
fn with_bit(integer: i64, place: u32, bit: bool) -> i64
    ensures { result ≡ with_bit place bit integer }
{
    if place < 64 && has_bit(integer, place) != bit {
        (integer.cast_unsigned() ^ (1 << place)).cast_signed()
    } else {
        integer
    }
}

// The low eight bits of an integer.
fn low_byte(integer: i64) -> u8
    ensures { result ≡ low_byte integer }
{
    (integer.cast_unsigned() % 256) as u8
}

impl Text {
    // The character at a place, counted in characters.
    fn character(&self, place: usize) -> Option<char>
        ensures { result ≡ slice_get (chars self.now) place }
    {
        self.as_str().chars().nth(place)
    }

    // A copy with another character at a place.
    fn with_character(&self, alloc: Global, place: usize, other: char) -> Result<Text, OutOfMemory>
        ensures { IfOk result (λ text. text ≡ encode_utf8_all (slice_set (chars self.now) place other)) }
    {
        let mut characters: Vec<char> = self.as_str().chars().collect(alloc)?;
        replace(&mut characters, place, other);
        text_of(alloc, &characters)
    }
}

// Another character at a place, if there is one.
fn replace(characters: &mut Vec<char>, place: usize, other: char)
    ensures { characters.new.items ≡ slice_set characters.old.items place other }
{
    if place < characters.len() {
        characters[place] = other;
    }
}

// The text of these characters.
fn text_of(alloc: Global, characters: &[char]) -> Result<Text, OutOfMemory>
    ensures { IfOk result (λ text. text ≡ encode_utf8_all characters.now) }
{
    let mut text = Text::new(alloc);
    for character in characters {
        text.push(*character)?;
    }
    Ok(text)
}
