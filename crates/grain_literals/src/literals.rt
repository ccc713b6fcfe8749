//! Constants, texts, operators and entries of the starting scope.

ghost use Rattle.std.specs.Prelude.{◌≡◌, IfOk};
ghost use Rattle.grain_literals.specs.Literals.{literal, value_operand, constant_of, text_operand, text_of, token_named, token_of, entry_in, entry_of};
ghost use Rattle.grain_literals.specs.Operands.{alone};
ghost use Rattle.grain_literals.specs.Steps.{and_then};
ghost use Rattle.grain_literals.specs.Results.{operand_view, entry_view};

use crate::operands::{after_name, alone};
use crate::reasons::Reason;
use crate::values::value;
use grain_value::{Dynamic, Held, OutOfMemory, Text, Token};
use grain_words::{is_word_end, next_text, trim_start};
use std::alloc::Global;

/// How many arrays, maps and pointers may stand inside one another in a listing.
const MOST_LEVELS: usize = 64;

/// A value, and what is left of the line after it.
type Valued<'a> = Result<(Dynamic, &'a [char]), Reason>;

/// What a `scope` line says: a name, and what it holds.
#[derive(Drop)]
pub struct ScopeEntry {
    pub name: Text,
    pub held: Held,
}

/// The value that begins here.
#[tactic(auto, using(crate::proofs::ValuesOf::literal_found, crate::proofs::ValuesOf::no_literal))]
fn literal(alloc: Global, line: &[char]) -> Result<Valued<'_>, OutOfMemory>
    ensures { IfOk result (λ r. operand_view r ≡ literal line.now) }
{
    match value(alloc, MOST_LEVELS, line)? {
        None => Ok(Err(Reason::BadValue)),
        Some((value, rest)) => Ok(Ok((value, rest))),
    }
}

/// A value that ends where a word ends.
pub fn value_operand(
    alloc: Global,
    line: &[char],
) -> Result<Result<(Dynamic, &[char]), Reason>, OutOfMemory>
    ensures { IfOk result (λ r. operand_view r ≡ value_operand line.now) }
{
    match literal(alloc, trim_start(line))? {
        Err(reason) => Ok(Err(reason)),
        Ok((value, rest)) => {
            if is_word_end(rest) {
                Ok(Ok((value, rest)))
            } else {
                Ok(Err(Reason::BadValue))
            }
        }
    }
}

/// The value after `const`.
pub fn constant_of(alloc: Global, line: &[char]) -> Result<Result<Dynamic, Reason>, OutOfMemory>
    ensures { IfOk result (λ r. r ≡ constant_of line.now) }
{
    match value_operand(alloc, line)? {
        Err(reason) => Ok(Err(reason)),
        Ok((value, rest)) => match alone(rest) {
            Err(reason) => Ok(Err(reason)),
            Ok(()) => Ok(Ok(value)),
        },
    }
}

fn text_operand(
    alloc: Global,
    line: &[char],
) -> Result<Result<(Text, &[char]), Reason>, OutOfMemory>
    ensures { IfOk result (λ r. operand_view r ≡ text_operand line.now) }
{
    match next_text(alloc, line)? {
        None => Ok(Err(Reason::BadValue)),
        Some((text, rest)) => Ok(Ok((text, rest))),
    }
}

/// The text after `name` or `source`.
pub fn text_of(alloc: Global, line: &[char]) -> Result<Result<Text, Reason>, OutOfMemory>
    ensures { IfOk result (λ r. r ≡ text_of line.now) }
{
    match text_operand(alloc, line)? {
        Err(reason) => Ok(Err(reason)),
        Ok((text, rest)) => match alone(rest) {
            Err(reason) => Ok(Err(reason)),
            Ok(()) => Ok(Ok(text)),
        },
    }
}

fn token_named(text: &str) -> Result<Token, Reason>
    ensures { result ≡ token_named text.now }
{
    match Token::lookup_from_syntax(text) {
        None => Err(Reason::BadOperand),
        Some(token) => Ok(token),
    }
}

/// The token of the text, after which nothing may follow.
fn token_alone(text: &str, rest: &[char]) -> Result<Token, Reason>
    ensures { result ≡ and_then (token_named text.now) (λ k. alone rest.now k) }
{
    let token = token_named(text)?;
    alone(rest)?;
    Ok(token)
}

/// The token whose text stands after `op`.
pub fn token_of(alloc: Global, line: &[char]) -> Result<Result<Token, Reason>, OutOfMemory>
    ensures { IfOk result (λ r. r ≡ token_of line.now) }
{
    match text_operand(alloc, line)? {
        Err(reason) => Ok(Err(reason)),
        Ok((text, rest)) => Ok(token_alone(text.as_str(), rest)),
    }
}

/// A name and a value, alone.
fn entry_in(
    alloc: Global,
    read_only: bool,
    line: &[char],
) -> Result<Result<ScopeEntry, Reason>, OutOfMemory>
    ensures { IfOk result (λ r. entry_view r ≡ entry_in read_only line.now) }
{
    match text_operand(alloc, line)? {
        Err(reason) => Ok(Err(reason)),
        Ok((name, rest)) => match constant_of(alloc, rest)? {
            Err(reason) => Ok(Err(reason)),
            Ok(value) => Ok(Ok(ScopeEntry {
                name,
                held: Held { value, read_only },
            })),
        },
    }
}

/// The name and what it holds after `scope`.
pub fn entry_of(alloc: Global, line: &[char]) -> Result<Result<ScopeEntry, Reason>, OutOfMemory>
    ensures { IfOk result (λ r. entry_view r ≡ entry_of line.now) }
{
    match after_name("const", line) {
        None => entry_in(alloc, false, line),
        Some(rest) => entry_in(alloc, true, rest),
    }
}
