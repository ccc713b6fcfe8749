//! The operators on two integers that are done quickly: they take no memory, and their answers are
//! numbers. Each gives nothing for all else, which the operators on any values do.

ghost use Rattle.std.specs.Prelude.{◌≡◌, IfSome};
ghost use Rattle.grain_value.specs.declared.values.Dynamic.TheVariants as dynamic;
ghost use Rattle.grain_value.specs.declared.values.Limits.{Limits};
ghost use Rattle.grain_ops.specs.Outcomes.{Outcome, Gave};
ghost use Rattle.grain_ops.specs.Agreement.{Agrees, AreIntegers, IsGiven};
ghost use Rattle.grain_ops.specs.Operators.{integers, binary, assignment, assigned_by, operator_of};

use crate::calculations::Calculation;
use grain_value::{Dynamic, Token};

/// What an operator makes of two integers, where that is quickly done.
#[derive(Clone, Copy, Debug, PartialEq, Eq)]
pub enum Quick {
    /// This integer.
    Int(i64),
    /// This truth value.
    Bool(bool),
    /// Nothing is given.
    None,
}

/// What an operator makes of two values, if they are integers and the result fits.
#[inline(always)]
pub fn quick_operated(token: Token, lhs: &Dynamic, rhs: &Dynamic) -> Quick
    ensures agrees { (limits : Limits) → Agrees result (binary limits token lhs.now rhs.now) }
    ensures integers { IsGiven result → AreIntegers lhs.now rhs.now }
{
    match lhs {
        Dynamic::Int(x) => match rhs {
            Dynamic::Int(y) => quick_integers(token, *x, *y),
            _ => Quick::None,
        },
        _ => Quick::None,
    }
}

/// The same of a value and an integer.
#[inline(always)]
pub fn quick_operated_with(token: Token, lhs: &Dynamic, rhs: i64) -> Quick
    ensures agrees { (limits : Limits) →
        Agrees result (binary limits token lhs.now (dynamic.Int rhs)) }
    ensures integers { IsGiven result → AreIntegers lhs.now (dynamic.Int rhs) }
{
    match lhs {
        Dynamic::Int(x) => quick_integers(token, *x, rhs),
        _ => Quick::None,
    }
}

#[inline(always)]
fn quick_integers(token: Token, x: i64, y: i64) -> Quick
    ensures { Agrees result (integers token x y) }
{
    match token {
        Token::Plus => quick_sum(Calculation::Addition.of(x, y)),
        Token::Minus => quick_sum(Calculation::Subtraction.of(x, y)),
        Token::Multiply => quick_sum(Calculation::Multiplication.of(x, y)),
        Token::EqualsTo => Quick::Bool(x == y),
        Token::NotEqualsTo => Quick::Bool(x != y),
        Token::LessThan => Quick::Bool(x < y),
        Token::LessThanEqualsTo => Quick::Bool(x <= y),
        Token::GreaterThan => Quick::Bool(x > y),
        Token::GreaterThanEqualsTo => Quick::Bool(x >= y),
        _ => Quick::None,
    }
}

// An integer that fits, or nothing.
#[inline(always)]
fn quick_sum(number: Option<i64>) -> Quick
    ensures { (o : Outcome) → IfSome number (λ z. o ≡ Gave (dynamic.Int z)) → Agrees result o }
{
    match number {
        Some(z) => Quick::Int(z),
        None => Quick::None,
    }
}

/// The integer that an op-assignment makes of a target and a value that are integers, if it fits.
#[inline(always)]
pub fn quick_assigned(token: Token, target: &Dynamic, value: &Dynamic) -> Option<i64>
    ensures assigned { (limits : Limits) →
        IfSome result (λ z. assignment limits token target.now value.now ≡ Gave (dynamic.Int z)) }
    ensures integers { IfSome result (λ _. AreIntegers target.now value.now) }
{
    match target {
        Dynamic::Int(x) => match value {
            Dynamic::Int(y) => assigned_number(token, *x, *y),
            _ => None,
        },
        _ => None,
    }
}

/// The same of a target and an integer.
#[inline(always)]
pub fn quick_assigned_with(token: Token, target: &Dynamic, value: i64) -> Option<i64>
    ensures assigned { (limits : Limits) → IfSome result
        (λ z. assignment limits token target.now (dynamic.Int value) ≡ Gave (dynamic.Int z)) }
    ensures integers { IfSome result (λ _. AreIntegers target.now (dynamic.Int value)) }
{
    match target {
        Dynamic::Int(x) => assigned_number(token, *x, value),
        _ => None,
    }
}

#[inline(always)]
fn assigned_number(token: Token, x: i64, y: i64) -> Option<i64>
    ensures { (limits : Limits) → IfSome result (λ z.
        assignment limits token (dynamic.Int x) (dynamic.Int y) ≡ Gave (dynamic.Int z)) }
{
    match token {
        Token::PlusAssign => Calculation::Addition.of(x, y),
        Token::MinusAssign => Calculation::Subtraction.of(x, y),
        Token::MultiplyAssign => Calculation::Multiplication.of(x, y),
        _ => None,
    }
}
