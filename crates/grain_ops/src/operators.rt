//! The operators on any values.

ghost use Rattle.std.specs.Prelude.{◌≡◌, Some};
ghost use Rattle.grain_value.specs.declared.values.Dynamic.TheVariants as dynamic;
ghost use Rattle.grain_value.specs.declared.tokens.Token.{Token};
ghost use Rattle.grain_ops.specs.Operators.{unary, binary, assignment, truth, truths, units, operator_of, texts};
ghost use Rattle.grain_ops.specs.Answers.{Answers, Assigns, Stores};

use crate::answers::{AssignAnswer, OpAnswer};
use crate::integers::{integer, integers};
use crate::text_operators::{
    append, append_character, character_and_text, characters, text_and_character, texts,
};
use grain_value::{Dynamic, Limits, Text, Token};
use std::alloc::Global;

/// An operator on a value: `NotBuiltIn` where no built-in takes it.
pub fn unary(alloc: Global, token: Token, value: &Dynamic) -> OpAnswer
    ensures { Answers result (unary token value.now) }
{
    match value {
        Dynamic::Int(x) => integer(alloc, token, *x),
        Dynamic::Bool(a) => truth(token, *a),
        _ => OpAnswer::NotBuiltIn,
    }
}

/// An operator on two values under these limits: `NotBuiltIn` where no built-in takes them.
pub fn binary(
    alloc: Global,
    token: Token,
    lhs: &Dynamic,
    rhs: &Dynamic,
    limits: &Limits,
) -> OpAnswer
    ensures { Answers result (binary limits.now token lhs.now rhs.now) }
{
    match (lhs, rhs) {
        (Dynamic::Int(x), Dynamic::Int(y)) => integers(alloc, token, *x, *y),
        (Dynamic::Bool(a), Dynamic::Bool(b)) => truths(token, *a, *b),
        (Dynamic::Unit, Dynamic::Unit) => units(token),
        (Dynamic::Char(c), Dynamic::Char(d)) => characters(alloc, token, *c, *d, limits),
        (Dynamic::Text(s), Dynamic::Text(t)) => {
            texts(alloc, token, s.as_str(), t.as_str(), limits)
        }
        (Dynamic::Text(s), Dynamic::Char(d)) => {
            text_and_character(alloc, token, s.as_str(), *d, limits)
        }
        (Dynamic::Char(c), Dynamic::Text(t)) => {
            character_and_text(alloc, token, *c, t.as_str(), limits)
        }
        _ => OpAnswer::NotBuiltIn,
    }
}

/// An op-assignment of a value to a target under these limits. The target changes only where the
/// answer is `Done`. A text is put at the end of the target's own.
pub fn assign(
    alloc: Global,
    token: Token,
    target: &mut Dynamic,
    rhs: &Dynamic,
    limits: &Limits,
) -> AssignAnswer
    ensures { Assigns result (assignment limits.now token target.old rhs.now)
        target.old target.new }
{
    let Some(operator) = operator_of(token) else {
        return AssignAnswer::NotBuiltIn;
    };
    match target {
        Dynamic::Text(text) => assign_text(alloc, operator, text, rhs, limits),
        Dynamic::Char(_) => AssignAnswer::NotBuiltIn,
        _ => {
            let answer = binary(alloc, operator, target, rhs, limits);
            store(target, answer)
        }
    }
}

// An op-assignment to a text: `+` puts a text or a character at its end, and no other operator
// gives a text.
fn assign_text(
    alloc: Global,
    operator: Token,
    text: &mut Text,
    rhs: &Dynamic,
    limits: &Limits,
) -> AssignAnswer
    ensures { (t : Token) → operator_of t ≡ Some operator →
        Assigns result (binary limits.now operator (dynamic.Text text.old) rhs.now)
        (dynamic.Text text.old) (dynamic.Text text.new) }
{
    match (operator, rhs) {
        (Token::Plus, Dynamic::Text(more)) => append(alloc, text, more.as_str(), limits.text),
        (Token::Plus, Dynamic::Char(more)) => append_character(alloc, text, *more, limits.text),
        _ => AssignAnswer::NotBuiltIn,
    }
}

// The operator that an op-assignment does, if it is one.
fn operator_of(token: Token) -> Option<Token>
    ensures { result ≡ operator_of token }
{
    match token {
        Token::PlusAssign => Some(Token::Plus),
        Token::MinusAssign => Some(Token::Minus),
        Token::MultiplyAssign => Some(Token::Multiply),
        Token::DivideAssign => Some(Token::Divide),
        Token::ModuloAssign => Some(Token::Modulo),
        Token::PowerOfAssign => Some(Token::PowerOf),
        Token::LeftShiftAssign => Some(Token::LeftShift),
        Token::RightShiftAssign => Some(Token::RightShift),
        Token::AndAssign => Some(Token::Ampersand),
        Token::OrAssign => Some(Token::Pipe),
        Token::XOrAssign => Some(Token::XOr),
        _ => None,
    }
}

// Stores what an operator gave.
fn store(target: &mut Dynamic, answer: OpAnswer) -> AssignAnswer
    ensures { Stores answer result target.old target.new }
{
    match answer {
        OpAnswer::NotBuiltIn => AssignAnswer::NotBuiltIn,
        OpAnswer::Done(value) => {
            *target = value;
            AssignAnswer::Done
        }
        OpAnswer::Failed(fault) => AssignAnswer::Failed(fault),
    }
}

// An operator on a truth value.
fn truth(token: Token, a: bool) -> OpAnswer
    ensures { Answers result (truth token a) }
{
    match token {
        Token::Bang => OpAnswer::truth(!a),
        _ => OpAnswer::NotBuiltIn,
    }
}

// An operator on two truth values.
fn truths(token: Token, a: bool, b: bool) -> OpAnswer
    ensures { Answers result (truths token a b) }
{
    match token {
        Token::Ampersand => OpAnswer::truth(a && b),
        Token::Pipe => OpAnswer::truth(a || b),
        Token::XOr | Token::NotEqualsTo => OpAnswer::truth(a != b),
        Token::EqualsTo => OpAnswer::truth(a == b),
        _ => OpAnswer::NotBuiltIn,
    }
}

// An operator on two units.
fn units(token: Token) -> OpAnswer
    ensures { Answers result (units token) }
{
    match token {
        Token::EqualsTo => OpAnswer::truth(true),
        Token::NotEqualsTo => OpAnswer::truth(false),
        _ => OpAnswer::NotBuiltIn,
    }
}
