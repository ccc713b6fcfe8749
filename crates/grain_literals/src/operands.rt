//! Operands: each is read from what is left of a line, and says what is then left.

ghost use Rattle.std.specs.Prelude.{◌≡◌, option_map};
ghost use Rattle.grain_literals.specs.Operands.{word_operand, alone, after_name, number_operand, index, integer_operand, position_operand, position_after, byte_of};
ghost use Rattle.grain_literals.specs.Results.{operand_view, word_view};

use crate::reasons::Reason;
use grain_fault::Position;
use grain_words::{integer, is_over, is_word, next_word, number, position_word};

/// A word without quotes.
pub fn word_operand(line: &[char]) -> Result<(&[char], &[char]), Reason>
    ensures { word_view result ≡ word_operand line.now }
{
    match next_word(line) {
        None => Err(Reason::BadOperand),
        Some((word, rest)) => Ok((word, rest)),
    }
}

/// What is left after the next word, if that is this name.
pub fn after_name<'a>(name: &str, line: &'a [char]) -> Option<&'a [char]>
    ensures { option_map (λ r. r.now) result ≡ after_name name.now line.now }
{
    match next_word(line) {
        None => None,
        Some((word, rest)) => {
            if is_word(word, name) {
                Some(rest)
            } else {
                None
            }
        }
    }
}

/// Nothing may follow.
pub fn alone(line: &[char]) -> Result<(), Reason>
    ensures { result ≡ alone line.now tt }
{
    if is_over(line) {
        Ok(())
    } else {
        Err(Reason::BadOperand)
    }
}

/// A number of at most `most`.
pub fn number_operand(most: u64, line: &[char]) -> Result<(u64, &[char]), Reason>
    ensures { operand_view result ≡ number_operand most line.now }
{
    let (word, rest) = word_operand(line)?;
    match number(most, word) {
        None => Err(Reason::BadOperand),
        Some(number) => Ok((number, rest)),
    }
}

/// A number of 32 bits.
pub fn index(line: &[char]) -> Result<(u32, &[char]), Reason>
    ensures { operand_view result ≡ index line.now }
{
    let (number, rest) = number_operand(u32::MAX as u64, line)?;
    Ok((number as u32, rest))
}

/// An integer of 64 bits.
pub fn integer_operand(line: &[char]) -> Result<(i64, &[char]), Reason>
    ensures { operand_view result ≡ integer_operand line.now }
{
    let (word, rest) = word_operand(line)?;
    match integer(word) {
        None => Err(Reason::BadOperand),
        Some(integer) => Ok((integer, rest)),
    }
}

/// The byte after `byte`, and its position if it has one.
pub fn byte_of(line: &[char]) -> Result<(u8, Option<Position>), Reason>
    ensures { result ≡ byte_of line.now }
{
    let (byte, rest) = number_operand(255, line)?;
    let position = position_after(rest)?;
    Ok((byte as u8, position))
}

/// A position.
pub fn position_operand(line: &[char]) -> Result<(Position, &[char]), Reason>
    ensures { operand_view result ≡ position_operand line.now }
{
    let (word, rest) = word_operand(line)?;
    match position_word(word) {
        None => Err(Reason::BadOperand),
        Some(position) => Ok((position, rest)),
    }
}

/// What stands after an instruction's operands: a position, or nothing.
pub fn position_after(line: &[char]) -> Result<Option<Position>, Reason>
    ensures { result ≡ position_after line.now }
{
    if is_over(line) {
        return Ok(None);
    }
    let (position, rest) = position_operand(line)?;
    alone(rest)?;
    Ok(Some(position))
}
