//! The operators on integers.

ghost use Rattle.std.specs.Prelude.{◌≡◌, codes, IfOk};
ghost use Rattle.grain_value.specs.declared.values.Dynamic.TheVariants as dynamic;
ghost use Rattle.grain_ops.specs.Outcomes.{Gave, ArithmeticFault};
ghost use Rattle.grain_ops.specs.Calculations.{calculated, negated, fault_text};
ghost use Rattle.grain_ops.specs.Operators.{integers, integer};
ghost use Rattle.grain_ops.specs.Answers.{Answers};

use crate::answers::{OpAnswer, arithmetic_fault};
use crate::calculations::Calculation;
use crate::shifts::{shifted_left, shifted_right};
use grain_value::{Dynamic, Text, Token};
use std::alloc::Global;

// An operator on an integer.
pub(crate) fn integer(alloc: Global, token: Token, x: i64) -> OpAnswer
    ensures { Answers result (integer token x) }
{
    match token {
        Token::Minus => negate(alloc, x),
        Token::UnaryMinus => negate(alloc, x),
        _ => OpAnswer::NotBuiltIn,
    }
}

// The negation, or that it does not fit.
fn negate(alloc: Global, x: i64) -> OpAnswer
    ensures { Answers result (negated x) }
{
    match x.checked_neg() {
        Some(z) => OpAnswer::Done(Dynamic::Int(z)),
        None => OpAnswer::Failed(arithmetic_fault(Text::copy_of(alloc, "integer overflow"))),
    }
}

// An operator on two integers.
pub(crate) fn integers(alloc: Global, token: Token, x: i64, y: i64) -> OpAnswer
    ensures { Answers result (integers token x y) }
{
    match token {
        Token::Plus => calculate(alloc, Calculation::Addition, x, y),
        Token::Minus => calculate(alloc, Calculation::Subtraction, x, y),
        Token::Multiply => calculate(alloc, Calculation::Multiplication, x, y),
        Token::Divide => calculate(alloc, Calculation::Division, x, y),
        Token::Modulo => calculate(alloc, Calculation::Remainder, x, y),
        Token::PowerOf => calculate(alloc, Calculation::Power, x, y),
        Token::LeftShift => number(shifted_left(x, y)),
        Token::RightShift => number(shifted_right(x, y)),
        Token::Ampersand => number(x & y),
        Token::Pipe => number(x | y),
        Token::XOr => number(x ^ y),
        Token::ExclusiveRange => range(x, y, false),
        Token::InclusiveRange => range(x, y, true),
        Token::EqualsTo => OpAnswer::truth(x == y),
        Token::NotEqualsTo => OpAnswer::truth(x != y),
        Token::LessThan => OpAnswer::truth(x < y),
        Token::LessThanEqualsTo => OpAnswer::truth(x <= y),
        Token::GreaterThan => OpAnswer::truth(x > y),
        Token::GreaterThanEqualsTo => OpAnswer::truth(x >= y),
        _ => OpAnswer::NotBuiltIn,
    }
}

fn number(z: i64) -> OpAnswer
    ensures { Answers result (Gave (dynamic.Int z)) }
{
    OpAnswer::Done(Dynamic::Int(z))
}

fn range(from: i64, to: i64, inclusive: bool) -> OpAnswer
    ensures { Answers result (Gave (dynamic.Range from to inclusive)) }
{
    OpAnswer::Done(Dynamic::Range {
        from,
        to,
        inclusive,
    })
}

// The exact result, or why there is none that fits.
fn calculate(alloc: Global, calculation: Calculation, x: i64, y: i64) -> OpAnswer
    ensures { Answers result (calculated calculation x y) }
{
    match calculation.of(x, y) {
        Some(z) => OpAnswer::Done(Dynamic::Int(z)),
        None => no_result(alloc, calculation, x, y),
    }
}

// The fault that there is no result that fits.
#[cold]
fn no_result(alloc: Global, calculation: Calculation, x: i64, y: i64) -> OpAnswer
    ensures { Answers result (ArithmeticFault (fault_text calculation x y)) }
{
    OpAnswer::Failed(arithmetic_fault(calculation.fault_text(alloc, x, y)))
}
