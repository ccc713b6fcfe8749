//! Texts between quotes.

ghost use Rattle.std.specs.Prelude.{◌≡◌, ◌∷◌, ◌≢◌, ◌≤◌, length, None, IfOk, MatchOption, option_map};
ghost use Rattle.std.specs.Char.{encode_utf8};
ghost use Rattle.std.specs.Str.{encode_utf8_all};
ghost use Rattle.grain_words.specs.Words.{quoted, in_front, whole, behind, text, next_text};

use crate::characters::escape;
use crate::words::{is_word_end, trim_start};
use grain_value::{OutOfMemory, Text};
use std::alloc::Global;

/// The next character between quotes, which begins with `c`, and what follows it.
#[tactic(auto, using(crate::proofs::Escapes::no_escape, crate::proofs::Escapes::one_escape))]
fn inner(c: char, after: &[char]) -> Option<(char, &[char])>
    requires { c ≢ 34 }
    ensures { MatchOption result (quoted (c ∷ after.now) ≡ None)
        (λ r. (quoted (c ∷ after.now) ≡ in_front (encode_utf8 r.0) (quoted r.1.now)) ×
        (length r.1.now ≤ length after.now)) }
{
    if c == '\\' {
        escape(after)
    } else {
        Some((c, after))
    }
}

/// What follows the second quote of a text, whose first stands before these characters. It takes
/// no memory.
#[tactic(auto, using(crate::proofs::Fronts::behind_more))]
fn after_quote(chars: &[char]) -> Option<&[char]>
    ensures { option_map (λ r. r.now) result ≡ option_map (λ x. x.1) (quoted chars.now) }
{
    let mut rest = chars;
    'scan: while let Some((first, after)) = rest.split_first() {
        if *first == '"' {
            return Some(after);
        }
        let (_, others) = inner(*first, after)?;
        rest = others;
    }
    None
}

/// What follows the word whose first quote stands before these characters.
#[tactic(auto, using(crate::proofs::Fronts::skipped_whole, crate::proofs::Fronts::skipped_none))]
pub fn skip_text(chars: &[char]) -> &[char]
    ensures { result.now ≡ behind (whole (quoted chars.now)) }
{
    match after_quote(chars) {
        None => &[],
        Some(after) => { if is_word_end(after) { after } else { &[] } }
    }
}

/// The text whose first quote stands before these characters, and what follows its second.
#[tactic(auto, using(crate::proofs::Fronts::quoted_more))]
pub fn quoted(alloc: Global, chars: &[char]) -> Result<Option<(Text, &[char])>, OutOfMemory>
    ensures { IfOk result (λ o. option_map (λ r. (r.0, r.1.now)) o ≡ quoted chars.now) }
{
    let mut text = Text::new(alloc);
    let mut rest = chars;
    'scan: while let Some((c, after)) = rest.split_first() {
        if *c == '"' {
            return Ok(Some((text, after)));
        }
        let Some((character, others)) = inner(*c, after) else {
            return Ok(None);
        };
        text.push(character)?;
        rest = others;
    }
    Ok(None)
}

fn text(alloc: Global, line: &[char]) -> Result<Option<(Text, &[char])>, OutOfMemory>
    ensures { IfOk result (λ o. option_map (λ r. (r.0, r.1.now)) o ≡ text line.now) }
{
    let Some((first, after)) = line.split_first() else {
        return Ok(None);
    };
    if *first != '"' {
        return Ok(None);
    }
    let Some((text, rest)) = quoted(alloc, after)? else {
        return Ok(None);
    };
    if is_word_end(rest) {
        Ok(Some((text, rest)))
    } else {
        Ok(None)
    }
}

/// The next word, if it is a text between quotes, and what follows it.
pub fn next_text(alloc: Global, line: &[char]) -> Result<Option<(Text, &[char])>, OutOfMemory>
    ensures { IfOk result (λ o. option_map (λ r. (r.0, r.1.now)) o ≡ next_text line.now) }
{
    text(alloc, trim_start(line))
}

/// The characters of a word as a text.
pub fn word_text(alloc: Global, word: &[char]) -> Result<Text, OutOfMemory>
    ensures { IfOk result (λ t. t ≡ encode_utf8_all word.now) }
{
    let mut text = Text::new(alloc);
    let mut rest = word;
    'scan: while let Some((c, after)) = rest.split_first() {
        text.push(*c)?;
        rest = after;
    }
    Ok(text)
}
