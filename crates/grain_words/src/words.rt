//! The words of a line, read from its characters one after the other.

ghost use Rattle.std.specs.Prelude.{◌≡◌, ◌∷◌, ◌≢◌, ◌<◌, ◌≤◌, ◌*◌, ◌+◌, length, position, None, MatchOption, option_map, bytes_eq};
ghost use Rattle.grain_words.specs.Words.{ends_word, trim_start, is_over, is_word_end, up_to, onward_from, is_quote, bare, next_word, skipped, after_word, is_gap, after_text, ends_integer, integer_here, number_here, skip_gaps, after_gap, after_sign};

use crate::numerals::{integer, number};
use crate::quoted_texts::skip_text;

fn is_gap(c: char) -> bool
    ensures { result ≡ is_gap c }
{
    c == ' ' || c == '\t'
}

fn ends_word(c: char) -> bool
    ensures { result ≡ ends_word c }
{
    is_gap(c) || c == ';'
}

fn is_quote(c: char) -> bool
    ensures { result ≡ is_quote c }
{
    c == '"' || c == '\''
}

/// What is left of a line from its next word on.
pub fn trim_start(line: &[char]) -> &[char]
    ensures { result.now ≡ trim_start line.now }
{
    let mut rest = line;
    'scan: while let Some((c, after)) = rest.split_first() {
        if is_gap(*c) {
            rest = after;
        } else if *c == ';' {
            return &[];
        } else {
            return rest;
        }
    }
    &[]
}

/// Whether no word is left.
pub fn is_over(line: &[char]) -> bool
    ensures { result ≡ is_over line.now }
{
    trim_start(line).is_empty()
}

/// Whether the line is over here, or a space, a tab or a comment stands here.
pub fn is_word_end(line: &[char]) -> bool
    ensures { result ≡ is_word_end line.now }
{
    match line.split_first() {
        None => true,
        Some((c, _)) => ends_word(*c),
    }
}

fn word_end(line: &[char]) -> Option<usize>
    ensures { result ≡ position (λ c. ends_word c) line.now }
{
    line.iter().position(|c| ends_word(*c))
}

/// The word without quotes that stands here, and what follows it.
#[tactic(auto, using(crate::proofs::Stretches::stretch_found, crate::proofs::Stretches::rest_found, crate::proofs::Stretches::stretch_whole, crate::proofs::Stretches::rest_none, crate::proofs::Stretches::found_within))]
fn split_word(line: &[char]) -> (&[char], &[char])
    ensures word { result.0.now ≡ up_to ends_word line.now }
    ensures rest { result.1.now ≡ onward_from ends_word line.now }
{
    match word_end(line) {
        Some(end) => line.split_at(end),
        None => (line, &[]),
    }
}

fn bare(line: &[char]) -> Option<(&[char], &[char])>
    ensures { option_map (λ r. (r.0.now, r.1.now)) result ≡ bare line.now }
{
    let (first, _) = line.split_first()?;
    if is_quote(*first) {
        None
    } else {
        Some(split_word(line))
    }
}

/// The next word, if it is one without quotes, and what follows it.
pub fn next_word(line: &[char]) -> Option<(&[char], &[char])>
    ensures { option_map (λ r. (r.0.now, r.1.now)) result ≡ next_word line.now }
{
    bare(trim_start(line))
}

fn skipped(line: &[char]) -> &[char]
    ensures { result.now ≡ skipped line.now }
{
    match line.split_first() {
        None => &[],
        Some((first, after)) => {
            if *first == '"' {
                skip_text(after)
            } else if *first == '\'' {
                &[]
            } else {
                split_word(line).1
            }
        }
    }
}

/// What follows the next word, whatever that is.
pub fn after_word(line: &[char]) -> &[char]
    ensures { result.now ≡ after_word line.now }
{
    skipped(trim_start(line))
}

/// Whether the word is this text, whose characters are ASCII.
pub fn is_word(word: &[char], text: &str) -> bool
    ensures { result ≡ bytes_eq word.now text.now }
{
    let mut left = word;
    let mut bytes = text.as_bytes();
    'scan: while let Some((c, after)) = left.split_first() {
        let Some((byte, others)) = bytes.split_first() else {
            return false;
        };
        if u32::from(*c) != u32::from(*byte) {
            return false;
        }
        left = after;
        bytes = others;
    }
    bytes.is_empty()
}

/// What follows the text, whose characters are ASCII, if the characters begin with it.
pub fn after_text<'a>(text: &str, line: &'a [char]) -> Option<&'a [char]>
    ensures { option_map (λ r. r.now) result ≡ after_text text.now line.now }
{
    let mut rest = line;
    let mut bytes = text.as_bytes();
    'scan: while let Some((byte, others)) = bytes.split_first() {
        let (c, after) = rest.split_first()?;
        if u32::from(*c) != u32::from(*byte) {
            return None;
        }
        rest = after;
        bytes = others;
    }
    Some(rest)
}

fn ends_integer(c: char) -> bool
    ensures { result ≡ ends_integer c }
{
    !c.is_ascii_digit() && c != '-'
}

fn integer_end(line: &[char]) -> Option<usize>
    ensures { result ≡ position (λ c. ends_integer c) line.now }
{
    line.iter().position(|c| ends_integer(*c))
}

#[tactic(auto, using(crate::proofs::Stretches::stretch_found, crate::proofs::Stretches::rest_found, crate::proofs::Stretches::stretch_whole, crate::proofs::Stretches::rest_none, crate::proofs::Stretches::found_within))]
fn split_integer(line: &[char]) -> (&[char], &[char])
    ensures digits { result.0.now ≡ up_to ends_integer line.now }
    ensures rest { result.1.now ≡ onward_from ends_integer line.now }
{
    match integer_end(line) {
        Some(end) => line.split_at(end),
        None => (line, &[]),
    }
}

/// The integer that begins here, and what follows its digits.
pub fn integer_here(line: &[char]) -> Option<(i64, &[char])>
    ensures { option_map (λ r. (r.0, r.1.now)) result ≡ integer_here line.now }
{
    let (digits, rest) = split_integer(line);
    let integer = integer(digits)?;
    Some((integer, rest))
}

/// The number of at most `most` that begins here, and what follows its digits.
pub fn number_here(most: u64, line: &[char]) -> Option<(u64, &[char])>
    ensures { option_map (λ r. (r.0, r.1.now)) result ≡ number_here most line.now }
{
    let (digits, rest) = split_integer(line);
    let number = number(most, digits)?;
    Some((number, rest))
}

fn skip_gaps(line: &[char]) -> &[char]
    ensures { result.now ≡ skip_gaps line.now }
{
    let mut rest = line;
    'scan: while let Some((c, after)) = rest.split_first() {
        if !is_gap(*c) {
            return rest;
        }
        rest = after;
    }
    &[]
}

fn after_gap(line: &[char]) -> Option<&[char]>
    ensures { option_map (λ r. r.now) result ≡ after_gap line.now }
{
    let (c, after) = line.split_first()?;
    if is_gap(*c) {
        Some(skip_gaps(after))
    } else {
        None
    }
}

/// What follows the sign and the spaces or tabs after it, of which there is at least one.
pub fn after_sign<'a>(sign: &str, line: &'a [char]) -> Option<&'a [char]>
    ensures { option_map (λ r. r.now) result ≡ after_sign sign.now line.now }
{
    let rest = after_text(sign, line)?;
    after_gap(rest)
}
