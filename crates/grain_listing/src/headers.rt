//! What the lines say that begin a block, or join two operators.

ghost use Rattle.std.specs.Prelude.{◌≡◌, ◌≤◌, ◌^◌, IfOk};
ghost use Rattle.grain_literals.specs.Results.{operand_view};
ghost use Rattle.grain_listing.specs.Headers.{stack_of, assign_of, is_on, has_parameter, has_more, parameters_of, type_of, name_and_stack, header_of, is_crowded};
ghost use Rattle.grain_listing.specs.views.Results.{name_view};

use grain_literals::{Reason, after_name, alone, index, number_operand};
use grain_program::Indices;
use grain_value::OutOfMemory;
use grain_words::{after_word, is_over};
use std::alloc::Global;

/// How many parameters a function may have.
const MOST_PARAMETERS: usize = 65_536;

/// An `assign` line: two operators by their places among the `op` lines, each with its name by its
/// index.
#[derive(Clone, Copy, Debug, PartialEq, Eq)]
pub struct AssignLine {
    pub line: usize,
    pub op_assign: u32,
    pub op_assign_name: u32,
    pub op: u32,
    pub op_name: u32,
}

/// A `fn` line: the function's name and its parameters' names by their indices, how many operands it
/// may have, and the name of the type, by its index, of whose values alone it is a method.
#[derive(Drop)]
pub struct FunctionHeader {
    pub name: u32,
    pub stack: u16,
    pub params: Indices,
    pub this_type: Option<u32>,
}

/// The number after `main`.
pub fn stack_of(line: &[char]) -> Result<u16, Reason>
    ensures { result ≡ stack_of line.now }
{
    let (number, rest) = number_operand(65_535, line)?;
    alone(rest)?;
    Ok(number as u16)
}

/// The four numbers after `assign`, which is the line with this number.
pub fn assign_of(number: usize, line: &[char]) -> Result<AssignLine, Reason>
    ensures { result ≡ assign_of number line.now }
{
    let (op_assign, rest) = index(line)?;
    let (op_assign_name, rest) = index(rest)?;
    let (op, rest) = index(rest)?;
    let (op_name, rest) = index(rest)?;
    alone(rest)?;
    Ok(AssignLine {
        line: number,
        op_assign,
        op_assign_name,
        op,
        op_name,
    })
}

/// Whether `on` stands next, which ends the parameters.
fn is_on(line: &[char]) -> bool
    ensures { result ≡ is_on line.now }
{
    after_name("on", line).is_some()
}

fn has_parameter(line: &[char]) -> bool
    ensures { result ≡ has_parameter line.now }
{
    !is_over(line) && !is_on(line)
}

/// Whether more than `most` parameters stand here, whatever their words are.
#[tactic(auto, using(crate::proofs::Parameters::more_step, crate::proofs::Parameters::more_none, crate::proofs::Parameters::more_last))]
fn has_more(most: usize, line: &[char]) -> bool
    ensures { result ≡ has_more most line.now }
{
    let mut room = most;
    let mut rest = line;
    'words: while room > 0 {
        if !has_parameter(rest) {
            return false;
        }
        room -= 1;
        rest = after_word(rest);
    }
    has_parameter(rest)
}

/// Whether more parameters stand after `fn`, its name and its number than a function may have.
pub fn is_crowded(line: &[char]) -> bool
    ensures { result ≡ is_crowded line.now }
{
    has_more(MOST_PARAMETERS, after_word(after_word(line)))
}

/// At most `most` parameters, and what is left after them.
#[tactic(auto, using(crate::proofs::Parameters::found_first, crate::proofs::Parameters::all_found, crate::proofs::Parameters::one_refused, crate::proofs::Parameters::one_more, crate::proofs::Parameters::too_many))]
fn parameters_of(
    alloc: Global,
    most: usize,
    line: &[char],
) -> Result<Result<(Indices, &[char]), Reason>, OutOfMemory>
    ensures { IfOk result (λ r. operand_view r ≡ parameters_of most line.now) }
{
    let mut found = Indices::new(alloc);
    let mut room = most;
    let mut rest = line;
    'words: while room > 0 {
        if !has_parameter(rest) {
            return Ok(Ok((found, rest)));
        }
        match index(rest) {
            Err(reason) => return Ok(Err(reason)),
            Ok((number, after)) => {
                found.push(number)?;
                room -= 1;
                rest = after;
            }
        }
    }
    if !has_parameter(rest) {
        return Ok(Ok((found, rest)));
    }
    match index(rest) {
        Err(reason) => Ok(Err(reason)),
        Ok(_) => Ok(Err(Reason::TooMany)),
    }
}

/// What stands after the parameters: `on` and the name of a type by its index, or nothing.
fn type_of(line: &[char]) -> Result<Option<u32>, Reason>
    ensures { result ≡ type_of line.now }
{
    match after_name("on", line) {
        None => {
            alone(line)?;
            Ok(None)
        }
        Some(rest) => {
            let (name, rest) = index(rest)?;
            alone(rest)?;
            Ok(Some(name))
        }
    }
}

fn name_and_stack(line: &[char]) -> Result<(u32, u16, &[char]), Reason>
    ensures { name_view result ≡ name_and_stack line.now }
{
    let (name, rest) = index(line)?;
    let (stack, rest) = number_operand(65_535, rest)?;
    Ok((name, stack as u16, rest))
}

/// What stands after `fn`.
pub fn header_of(
    alloc: Global,
    line: &[char],
) -> Result<Result<FunctionHeader, Reason>, OutOfMemory>
    ensures { IfOk result (λ r. r ≡ header_of line.now) }
{
    match name_and_stack(line) {
        Err(reason) => Ok(Err(reason)),
        Ok((name, stack, rest)) => match parameters_of(alloc, MOST_PARAMETERS, rest)? {
            Err(reason) => Ok(Err(reason)),
            Ok((params, rest)) => match type_of(rest) {
                Err(reason) => Ok(Err(reason)),
                Ok(this_type) => Ok(Ok(FunctionHeader {
                    name,
                    stack,
                    params,
                    this_type,
                })),
            },
        },
    }
}
