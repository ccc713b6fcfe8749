//! The operators on texts and characters: they are joined and compared.

ghost use Rattle.std.specs.Prelude.{◌≡◌, ◌+◌, ◌++◌, IfOk};
ghost use Rattle.std.specs.Char.{encode_utf8};
ghost use Rattle.grain_value.specs.declared.values.Dynamic.TheVariants as dynamic;
ghost use Rattle.grain_ops.specs.Texts.{is_over, joined, compared};
ghost use Rattle.grain_ops.specs.Operators.{texts, characters, mixed};
ghost use Rattle.grain_ops.specs.Answers.{Answers, Assigns};

use crate::answers::{AssignAnswer, OpAnswer, text_too_long};
use grain_fault::EvalAltResult;
use grain_value::{Dynamic, Limits, OutOfMemory, Text, Token};
use std::alloc::Global;
use std::cmp::Ordering;

// An operator on two texts.
pub(crate) fn texts(
    alloc: Global,
    token: Token,
    first: &str,
    second: &str,
    limits: &Limits,
) -> OpAnswer
    ensures { Answers result (texts limits.now token first.now second.now) }
{
    match token {
        Token::Plus => join(alloc, first, second, limits.text),
        _ => compared(token, first.cmp(second)),
    }
}

// An operator on two characters.
pub(crate) fn characters(
    alloc: Global,
    token: Token,
    first: char,
    second: char,
    limits: &Limits,
) -> OpAnswer
    ensures { Answers result (characters limits.now token first second) }
{
    match token {
        Token::Plus => {
            let (mut first_bytes, mut second_bytes) = ([0; 4], [0; 4]);
            let first = first.encode_utf8(&mut first_bytes);
            let second = second.encode_utf8(&mut second_bytes);
            join(alloc, first, second, limits.text)
        }
        _ => compared(token, first.cmp(&second)),
    }
}

// An operator on a text and a character.
pub(crate) fn text_and_character(
    alloc: Global,
    token: Token,
    first: &str,
    second: char,
    limits: &Limits,
) -> OpAnswer
    ensures { Answers result (mixed limits.now token first.now (encode_utf8 second)) }
{
    let mut bytes = [0; 4];
    mixed(alloc, token, first, second.encode_utf8(&mut bytes), limits)
}

// An operator on a character and a text.
pub(crate) fn character_and_text(
    alloc: Global,
    token: Token,
    first: char,
    second: &str,
    limits: &Limits,
) -> OpAnswer
    ensures { Answers result (mixed limits.now token (encode_utf8 first) second.now) }
{
    let mut bytes = [0; 4];
    mixed(alloc, token, first.encode_utf8(&mut bytes), second, limits)
}

// An operator on a text and a character as a text, or the other way round.
fn mixed(alloc: Global, token: Token, first: &str, second: &str, limits: &Limits) -> OpAnswer
    ensures { Answers result (mixed limits.now token first.now second.now) }
{
    match token {
        Token::Plus => join(alloc, first, second, limits.text),
        _ => OpAnswer::NotBuiltIn,
    }
}

// A comparison of two values that are so ordered.
pub(crate) fn compared(token: Token, ordering: Ordering) -> OpAnswer
    ensures { Answers result (compared token ordering) }
{
    match token {
        Token::EqualsTo => OpAnswer::truth(ordering.is_eq()),
        Token::NotEqualsTo => OpAnswer::truth(ordering.is_ne()),
        Token::LessThan => OpAnswer::truth(ordering.is_lt()),
        Token::LessThanEqualsTo => OpAnswer::truth(ordering.is_le()),
        Token::GreaterThan => OpAnswer::truth(ordering.is_gt()),
        Token::GreaterThanEqualsTo => OpAnswer::truth(ordering.is_ge()),
        _ => OpAnswer::NotBuiltIn,
    }
}

// Whether a text with more after it is over a limit of bytes. A limit of 0 is none.
fn is_over(limit: usize, length: usize, more: usize) -> bool
    ensures { result ≡ is_over limit (length + more) }
{
    limit != 0 && (limit < length || limit - length < more)
}

// Two texts, one after the other, if the limit of bytes allows it.
pub(crate) fn join(alloc: Global, first: &str, second: &str, limit: usize) -> OpAnswer
    ensures { Answers result (joined limit first.now second.now) }
{
    if is_over(limit, first.len(), second.len()) {
        return OpAnswer::Failed(text_too_long(alloc));
    }
    match both(alloc, first, second) {
        Ok(text) => OpAnswer::Done(Dynamic::Text(text)),
        Err(OutOfMemory) => OpAnswer::Failed(EvalAltResult::Memory),
    }
}

fn both(alloc: Global, first: &str, second: &str) -> Result<Text, OutOfMemory>
    ensures { IfOk result (λ text. text ≡ first.now ++ second.now) }
{
    let mut text = Text::copy_of(alloc, first)?;
    text.push_str(second)?;
    Ok(text)
}

// Puts a character at the end of a text, if the limit of bytes allows it.
pub(crate) fn append_character(
    alloc: Global,
    text: &mut Text,
    more: char,
    limit: usize,
) -> AssignAnswer
    ensures { Assigns result (joined limit text.old (encode_utf8 more))
        (dynamic.Text text.old) (dynamic.Text text.new) }
{
    let mut bytes = [0; 4];
    append(alloc, text, more.encode_utf8(&mut bytes), limit)
}

// Puts more at the end of a text, if the limit of bytes allows it.
pub(crate) fn append(alloc: Global, text: &mut Text, more: &str, limit: usize) -> AssignAnswer
    ensures { Assigns result (joined limit text.old more.now)
        (dynamic.Text text.old) (dynamic.Text text.new) }
{
    if is_over(limit, text.len(), more.len()) {
        return AssignAnswer::Failed(text_too_long(alloc));
    }
    match text.push_str(more) {
        Ok(()) => AssignAnswer::Done,
        Err(OutOfMemory) => AssignAnswer::Failed(EvalAltResult::Memory),
    }
}
