//! The flags of the engine that a listing may turn.

ghost use Rattle.std.specs.Prelude.{◌≡◌, map, option_map};
ghost use Rattle.grain_listing.specs.Flags.{turned, flag_named, built, flag_of, state_of, is_on};
ghost use Rattle.grain_listing.specs.Later.{is_among};
ghost use Rattle.grain_listing.specs.Settings.{entry_named};
ghost use Rattle.grain_listing.specs.views.Flags.{names_view, row_view, named_view, name_view};

use grain_literals::{Reason, after_name, alone, word_operand};
use grain_words::is_word;

/// A flag: whether it is on without a line, and whether a line that turns it is read so far.
#[derive(Clone, Copy, Debug, PartialEq, Eq)]
pub struct Flag {
    pub default: bool,
    pub is_built: bool,
}

/// The flags by their names.
const FLAGS: [(&str, Flag); 3] = [
    (
        "shadowing",
        Flag {
            default: true,
            is_built: false,
        },
    ),
    (
        "operators",
        Flag {
            default: true,
            is_built: true,
        },
    ),
    (
        "strict",
        Flag {
            default: false,
            is_built: true,
        },
    ),
];

/// What a line turns the flag.
fn turned(flag: Flag) -> &'static str
    ensures { result.now ≡ turned flag }
{
    if flag.default { "off" } else { "on" }
}

fn row_among(table: &[(&'static str, Flag)], word: &[char]) -> Option<(&'static str, Flag)>
    ensures { option_map row_view result ≡ entry_named word.now (map row_view table.now) }
{
    for (name, flag) in table {
        if is_word(word, *name) {
            return Some((*name, *flag));
        }
    }
    None
}

/// The flag of that name.
#[tactic(auto, unfolding(crate::specs::Flags::flag_named))]
fn flag_named(word: &[char]) -> Result<(&'static str, Flag), Reason>
    ensures { named_view result ≡ flag_named word.now }
{
    match row_among(&FLAGS, word) {
        None => Err(Reason::BadOperand),
        Some(row) => Ok(row),
    }
}

/// The name of a flag, if its line is read so far.
fn built(name: &'static str, flag: Flag) -> Result<&'static str, Reason>
    ensures { name_view result ≡ built (name.now, flag) }
{
    if flag.is_built {
        Ok(name)
    } else {
        Err(Reason::NotBuilt)
    }
}

/// The name of the flag that the words after `flag` turn.
pub fn flag_of(line: &[char]) -> Result<&'static str, Reason>
    ensures { name_view result ≡ flag_of line.now }
{
    let (word, rest) = word_operand(line)?;
    let (name, flag) = flag_named(word)?;
    let Some(rest) = after_name(turned(flag), rest) else {
        return Err(Reason::BadOperand);
    };
    let name = built(name, flag)?;
    alone(rest)?;
    Ok(name)
}

/// Whether the name is among these.
fn is_among(names: &[&str], name: &str) -> bool
    ensures { result ≡ is_among (names_view names.now) name.now }
{
    for other in names {
        if name == *other {
            return true;
        }
    }
    false
}

/// Whether the flag of that name is on, if it is turned or if it is not.
fn state_among(table: &[(&str, Flag)], name: &str, is_turned: bool) -> bool
    ensures { result ≡ state_of is_turned (entry_named name.now (map row_view table.now)) }
{
    for (other, flag) in table {
        if name == *other {
            return if is_turned {
                !flag.default
            } else {
                flag.default
            };
        }
    }
    false
}

/// Whether the flag of that name is on, where lines turned these.
#[tactic(auto, unfolding(crate::specs::Flags::is_on))]
pub fn is_on(name: &str, names: &[&'static str]) -> bool
    ensures { result ≡ is_on name.now (names_view names.now) }
{
    state_among(&FLAGS, name, is_among(names, name))
}
