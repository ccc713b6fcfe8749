//! Texts and characters between quotes.

ghost use Rattle.std.specs.Prelude.{◌==◌, Some, codes, if◌then◌else◌};
ghost use Rattle.std.specs.Fmt.{WritesOnOk};
ghost use Rattle.std.specs.List.{flat_map};
ghost use Rattle.std.specs.Str.{chars};
ghost use Rattle.grain_value.specs.Quoting.{escaped, quoted_text, quoted_character};

use std::fmt;

/// Prints a text between quotes, with the escapes `\"`, `\\`, `\n`, `\r` and `\t`.
#[derive(Drop)]
pub struct Quoted<'s>(pub &'s str);

impl fmt::Display for Quoted<'_> {
    ghost output = { λ q. Some (quoted_text q.0.now) };

    fn fmt<W: fmt::Write>(&self, f: &mut fmt::Formatter<W>) -> fmt::Result {
        write_quoted(self.0, f)
    }
}

/// Writes a text between quotes, with the same escapes.
pub fn write_quoted<W: fmt::Write>(s: &str, f: &mut fmt::Formatter<W>) -> fmt::Result
    ensures { WritesOnOk W.write_str_gives f.old result (quoted_text s.now) f.new }
{
    f.write_str("\"")?;
    write_all_escaped(s, f)?;
    f.write_str("\"")
}

/// Writes a character between its own quotes, with the same escapes and `\'`.
pub fn write_quoted_character<W: fmt::Write>(
    character: char,
    f: &mut fmt::Formatter<W>,
) -> fmt::Result
    ensures { WritesOnOk W.write_str_gives f.old result (quoted_character character) f.new }
{
    f.write_str("'")?;
    write_inner(character, f)?;
    f.write_str("'")
}

/// Writes a character as it stands between its own quotes.
fn write_inner<W: fmt::Write>(character: char, f: &mut fmt::Formatter<W>) -> fmt::Result
    ensures { WritesOnOk W.write_str_gives f.old result
        (if character == 39 then codes "\\'" else escaped character) f.new }
{
    if character == '\'' {
        f.write_str("\\'")
    } else {
        write_escaped(character, f)
    }
}

/// Writes the characters of a text as they stand between quotes.
fn write_all_escaped<W: fmt::Write>(s: &str, f: &mut fmt::Formatter<W>) -> fmt::Result
    ensures { WritesOnOk W.write_str_gives f.old result (flat_map escaped (chars s.now)) f.new }
{
    for character in s.chars() {
        write_escaped(character, f)?;
    }
    Ok(())
}

/// Writes a character as it stands between quotes.
fn write_escaped<W: fmt::Write>(character: char, f: &mut fmt::Formatter<W>) -> fmt::Result
    ensures { WritesOnOk W.write_str_gives f.old result (escaped character) f.new }
{
    match character {
        '"' => f.write_str("\\\""),
        '\\' => f.write_str("\\\\"),
        '\n' => f.write_str("\\n"),
        '\r' => f.write_str("\\r"),
        '\t' => f.write_str("\\t"),
        character => f.write_char(character),
    }
}
