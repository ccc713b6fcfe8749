//! Positions as words: `@L:C`.

ghost use Rattle.std.specs.Prelude.{◌≡◌, option_map};
ghost use Rattle.grain_words.specs.PositionWords.{at_colon, position_word};

use crate::numerals::number;
use grain_fault::Position;

/// What stands before the first colon, and after it.
#[tactic(auto, using(crate::proofs::FirstColons::colon_here, crate::proofs::FirstColons::colon_later, crate::proofs::FirstColons::no_colon))]
fn at_colon(word: &[char]) -> Option<(&[char], &[char])>
    ensures { option_map (λ x. (x.0.now, x.1.now)) result ≡ at_colon word.now }
{
    let mut count = 0usize;
    let mut rest = word;
    'scan: while let Some((c, after)) = rest.split_first() {
        if *c == ':' {
            let (before, _) = word.split_at(count);
            return Some((before, after));
        }
        count += 1;
        rest = after;
    }
    None
}

/// The position that the word says.
pub fn position_word(word: &[char]) -> Option<Position>
    ensures { result ≡ position_word word.now }
{
    let (first, others) = word.split_first()?;
    if *first != '@' {
        return None;
    }
    let (line, column) = at_colon(others)?;
    let line = number(65_535, line)?;
    let column = number(65_535, column)?;
    if line == 0 {
        return None;
    }
    Some(Position::new(line as u16, column as u16))
}
