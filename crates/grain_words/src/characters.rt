//! Characters between apostrophes, and escapes.

ghost use Rattle.std.specs.Prelude.{◌≡◌, ◌∷◌, ◌<◌, ◌≤◌, ◌*◌, ◌+◌, length, MatchOption, IfSome, option_map};
ghost use Rattle.grain_words.specs.Characters.{more_digits, all_digits, escape, character_escape, one_character, before_apostrophe, character};

use crate::words::after_text;

/// The number with one more hexadecimal digit, where it is still at most 10ffff.
fn grown(number: u32, digit: u32) -> Option<u32>
    requires number { number ≤ 0x10ffff }
    requires digit { digit < 16 }
    ensures { MatchOption result (0x10ffff < number * 16 + digit) (λ n. (n ≡ number * 16 + digit) ×
        (n ≤ 0x10ffff)) }
{
    let more = number * 16 + digit;
    if more > 0x10ffff { None } else { Some(more) }
}

/// The character whose hexadecimal digits begin with `first`, and what follows its brace.
fn more_digits(first: u32, chars: &[char]) -> Option<(char, &[char])>
    requires { first < 16 }
    ensures found { option_map (λ r. (r.0, r.1.now)) result ≡ more_digits first chars.now }
    ensures less { IfSome result (λ r. length r.1.now ≤ length chars.now) }
{
    let mut number = first;
    let mut rest = chars;
    'scan: while let Some((c, after)) = rest.split_first() {
        if *c == '}' {
            let character = char::from_u32(number)?;
            return Some((character, after));
        }
        let digit = c.to_digit(16)?;
        number = grown(number, digit)?;
        rest = after;
    }
    None
}

/// What stands after `\u{`: a character's digits, and what follows its brace.
fn all_digits(chars: &[char]) -> Option<(char, &[char])>
    ensures found { option_map (λ r. (r.0, r.1.now)) result ≡ all_digits chars.now }
    ensures less { IfSome result (λ r. length r.1.now ≤ length chars.now) }
{
    let (c, after) = chars.split_first()?;
    let digit = c.to_digit(16)?;
    more_digits(digit, after)
}

/// What stands after a backslash: the character that it is the escape of, and what follows it.
pub fn escape(chars: &[char]) -> Option<(char, &[char])>
    ensures found { option_map (λ r. (r.0, r.1.now)) result ≡ escape chars.now }
    ensures less { IfSome result (λ r. length r.1.now ≤ length chars.now) }
{
    match chars {
        ['"', after @ ..] => Some(('"', after)),
        ['\\', after @ ..] => Some(('\\', after)),
        ['n', after @ ..] => Some(('\n', after)),
        ['r', after @ ..] => Some(('\r', after)),
        ['t', after @ ..] => Some(('\t', after)),
        ['u', '{', after @ ..] => all_digits(after),
        _ => None,
    }
}

fn character_escape(chars: &[char]) -> Option<(char, &[char])>
    ensures { option_map (λ r. (r.0, r.1.now)) result ≡ character_escape chars.now }
{
    let (first, after) = chars.split_first()?;
    if *first == '\'' {
        Some(('\'', after))
    } else {
        escape(chars)
    }
}

fn one_character(chars: &[char]) -> Option<(char, &[char])>
    ensures { option_map (λ r. (r.0, r.1.now)) result ≡ one_character chars.now }
{
    let (first, after) = chars.split_first()?;
    if *first == '\'' {
        None
    } else if *first == '\\' {
        character_escape(after)
    } else {
        Some((*first, after))
    }
}

/// The character whose first apostrophe stands before these characters, and what follows its
/// second.
pub fn character(chars: &[char]) -> Option<(char, &[char])>
    ensures { option_map (λ r. (r.0, r.1.now)) result ≡ character chars.now }
{
    let (character, rest) = one_character(chars)?;
    let rest = after_text("'", rest)?;
    Some((character, rest))
}
