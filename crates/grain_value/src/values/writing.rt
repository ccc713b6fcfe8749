//! The texts of values.

ghost use Rattle.std.specs.Prelude.{◌≡◌, ◌<◌, ◌++◌, [], Some, codes, false, is_ok, if◌then◌else◌};
ghost use Rattle.std.specs.Fmt.{WritesOnOk, digit_glyph, signed_decimal};
ghost use Rattle.std.specs.List.{flat_map};
ghost use Rattle.grain_value.specs.Cells.{seen};
ghost use Rattle.grain_value.specs.Tree.{pack, pack_fields};
ghost use Rattle.grain_value.specs.Quoting.{quoted_text};
ghost use Rattle.grain_value.specs.Writing.{plain, quoted, items_text, fields_text, hex_byte, quoted_blob, quoted_range, quoted_foreign, quoted_cell};

use super::{Array, Dynamic, Map};
use crate::memory::OutOfMemory;
use crate::quoting::{write_quoted, write_quoted_character};
use crate::stores::Store;
use crate::texts::Text;
use std::fmt;

impl Dynamic {
    /// Puts the value's plain text at the end, as `{}` prints it: unit is empty, a text and a
    /// character are as they stand, and every other value is as it is quoted. After want of memory
    /// `out` is as it was.
    pub fn write_plain(&self, out: &mut Text) -> Result<(), OutOfMemory>
        ensures { out.new ≡ (if is_ok result then out.old ++ plain self.now else out.old) }
    {
        out.push_display(self)
    }

    /// Puts the value's quoted text at the end, which is as a listing has it: a text stands between
    /// quotes, with escapes. After want of memory `out` is as it was.
    pub fn write_quoted(&self, out: &mut Text) -> Result<(), OutOfMemory>
        ensures { out.new ≡ (if is_ok result then out.old ++ quoted self.now else out.old) }
    {
        out.push_display(&QuotedValue(self))
    }

    /// The same of what a cell has: unit while its content is lent. Of any other value it is the
    /// value's own text.
    pub fn write_content(&self, out: &mut Text, cells: &Store) -> Result<(), OutOfMemory>
        ensures { out.new ≡
            (if is_ok result then out.old ++ quoted (seen cells.now self.now) else out.old) }
    {
        match self {
            Dynamic::Cell(cell) => match cells.standing(*cell) {
                Some(content) => content.write_quoted(out),
                None => Dynamic::Unit.write_quoted(out),
            },
            value => value.write_quoted(out),
        }
    }
}

/// The plain text: unit is empty, and a text and a character are as they stand.
impl fmt::Display for Dynamic {
    ghost output = { λ v. Some (plain v) };

    fn fmt<W: fmt::Write>(&self, f: &mut fmt::Formatter<W>) -> fmt::Result {
        match self {
            Dynamic::Unit => Ok(()),
            Dynamic::Char(character) => write!(f, "{character}"),
            Dynamic::Text(text) => write!(f, "{text}"),
            value => write_value(value, f),
        }
    }
}

// Prints the quoted text of a value.
#[derive(Drop)]
struct QuotedValue<'v>(&'v Dynamic);

impl fmt::Display for QuotedValue<'_> {
    ghost output = { λ q. Some (quoted q.0.now) };

    fn fmt<W: fmt::Write>(&self, f: &mut fmt::Formatter<W>) -> fmt::Result {
        let value: &Dynamic = self.0;
        write_value(value, f)
    }
}

// Writes the quoted text of a value.
#[cycle(write)]
fn write_value<W: fmt::Write>(value: &Dynamic, f: &mut fmt::Formatter<W>) -> fmt::Result
    ensures { WritesOnOk W.write_str_gives f.old result (quoted value.now) f.new }
{
    match value {
        Dynamic::Unit => f.write_str("()"),
        Dynamic::Bool(true) => f.write_str("true"),
        Dynamic::Bool(false) => f.write_str("false"),
        Dynamic::Int(integer) => write_integer(*integer, f),
        Dynamic::Char(character) => write_quoted_character(*character, f),
        Dynamic::Text(text) => write_quoted(text.as_str(), f),
        Dynamic::Array(array) => {
            f.write_str("[")?;
            write_items(array, "", f)?;
            f.write_str("]")
        }
        Dynamic::Blob(blob) => write_blob(blob.as_slice(), f),
        Dynamic::Map(map) => {
            f.write_str("#{")?;
            write_pairs(map, f)?;
            f.write_str("}")
        }
        Dynamic::Pointer(pointer) => {
            f.write_str("fn(")?;
            write_quoted(pointer.name.as_str(), f)?;
            write_items(&pointer.curry, ", ", f)?;
            f.write_str(")")
        }
        Dynamic::Range {
            from,
            to,
            inclusive,
        } => write_range(*from, *to, *inclusive, f),
        Dynamic::Foreign { kind, number } => write_foreign(*kind, *number, f),
        Dynamic::Cell(number) => write_cell(*number, f),
    }
}

// Writes values, with the lead before the first and a comma before each other.
#[cycle(write)]
fn write_items<W: fmt::Write>(array: &Array, lead: &str, f: &mut fmt::Formatter<W>) -> fmt::Result
    ensures { WritesOnOk W.write_str_gives f.old result (items_text lead.now (pack array.now))
        f.new }
{
    let mut lead = lead;
    for value in &array.values {
        f.write_str(lead)?;
        write_value(value, f)?;
        lead = ", ";
    }
    Ok(())
}

// Writes keys with their values, with a comma before each but the first.
#[cycle(write)]
fn write_pairs<W: fmt::Write>(map: &Map, f: &mut fmt::Formatter<W>) -> fmt::Result
    ensures { WritesOnOk W.write_str_gives f.old result (fields_text [] (pack_fields map.now))
        f.new }
{
    let mut lead = "";
    for (key, value) in map.pairs.iter() {
        write_key(lead, key.as_str(), f)?;
        write_value(value, f)?;
        lead = ", ";
    }
    Ok(())
}

// Writes a key after the lead, and what stands between a key and its value.
fn write_key<W: fmt::Write>(lead: &str, key: &str, f: &mut fmt::Formatter<W>) -> fmt::Result
    ensures { WritesOnOk W.write_str_gives f.old result
        (lead.now ++ quoted_text key.now ++ codes ": ") f.new }
{
    f.write_str(lead)?;
    write_quoted(key, f)?;
    f.write_str(": ")
}

// Writes an integer.
fn write_integer<W: fmt::Write>(integer: i64, f: &mut fmt::Formatter<W>) -> fmt::Result
    ensures { WritesOnOk W.write_str_gives f.old result (signed_decimal integer) f.new }
{
    write!(f, "{integer}")
}

// Writes a host's value.
fn write_foreign<W: fmt::Write>(kind: u32, number: u64, f: &mut fmt::Formatter<W>) -> fmt::Result
    ensures { WritesOnOk W.write_str_gives f.old result (quoted_foreign kind number) f.new }
{
    write!(f, "foreign({kind}, {number})")
}

// Writes a cell, by its number.
fn write_cell<W: fmt::Write>(number: usize, f: &mut fmt::Formatter<W>) -> fmt::Result
    ensures { WritesOnOk W.write_str_gives f.old result (quoted_cell number) f.new }
{
    write!(f, "cell({number})")
}

// Writes a range.
fn write_range<W: fmt::Write>(
    from: i64,
    to: i64,
    inclusive: bool,
    f: &mut fmt::Formatter<W>,
) -> fmt::Result
    ensures { WritesOnOk W.write_str_gives f.old result (quoted_range from to inclusive) f.new }
{
    if inclusive {
        write!(f, "range=({from}, {to})")
    } else {
        write!(f, "range({from}, {to})")
    }
}

// Writes bytes, each as two digits.
fn write_blob<W: fmt::Write>(bytes: &[u8], f: &mut fmt::Formatter<W>) -> fmt::Result
    ensures { WritesOnOk W.write_str_gives f.old result (quoted_blob bytes.now) f.new }
{
    f.write_str("blob(")?;
    for byte in bytes {
        write_byte(*byte, f)?;
    }
    f.write_str(")")
}

// Writes a byte as two digits of base 16.
fn write_byte<W: fmt::Write>(byte: u8, f: &mut fmt::Formatter<W>) -> fmt::Result
    ensures { WritesOnOk W.write_str_gives f.old result (hex_byte byte) f.new }
{
    f.write_char(hex_digit(byte / 16))?;
    f.write_char(hex_digit(byte % 16))
}

// A digit of base 16.
fn hex_digit(digit: u8) -> char
    requires { digit < 16 }
    ensures { result ≡ digit_glyph false digit }
{
    char::from(if digit < 10 {
        b'0' + digit
    } else {
        b'a' + (digit - 10)
    })
}
