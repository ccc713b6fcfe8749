//! The operators, with memory enough: what they answer, by its text.

mod assignments;
mod integers;
mod texts;
mod truths;

use crate::made::{check_text, quoted, text_of, value_of};
use crate::raised::named_text;
use grain_ops::{OpAnswer, binary, unary};
use grain_value::{Dynamic, Limits, Text, Token};
use std::alloc::Global;
use std::process::Abort;

/// An operator, and what it answers, as `answered` writes it.
type Answer = (Token, &'static str);

/// A value, an operator, another value, and the answer.
type Row = (&'static str, Token, &'static str, &'static str);

/// How a value stands to another.
#[derive(Clone, Copy)]
enum Order {
    Less,
    Equal,
    Greater,
}

const NOT_BUILT_IN: &str = "not built in";

const TOO_LONG: &str = "ErrorDataTooLarge: Length of string too large";

/// What the comparisons answer on equal values.
const EQUAL: [Answer; 6] = [
    (Token::EqualsTo, "true"),
    (Token::NotEqualsTo, "false"),
    (Token::LessThan, "false"),
    (Token::LessThanEqualsTo, "true"),
    (Token::GreaterThan, "false"),
    (Token::GreaterThanEqualsTo, "true"),
];

/// What they answer where the first value is the less.
const LESS: [Answer; 6] = [
    (Token::EqualsTo, "false"),
    (Token::NotEqualsTo, "true"),
    (Token::LessThan, "true"),
    (Token::LessThanEqualsTo, "true"),
    (Token::GreaterThan, "false"),
    (Token::GreaterThanEqualsTo, "false"),
];

/// What they answer where the first value is the greater.
const GREATER: [Answer; 6] = [
    (Token::EqualsTo, "false"),
    (Token::NotEqualsTo, "true"),
    (Token::LessThan, "false"),
    (Token::LessThanEqualsTo, "false"),
    (Token::GreaterThan, "true"),
    (Token::GreaterThanEqualsTo, "true"),
];

fn limits(text: usize) -> Limits {
    Limits {
        operations: 1,
        levels: 0,
        variables: 0,
        modules: 0,
        text,
        array: 0,
        map: 0,
    }
}

/// The quoted text of a value, or the name and the text of a fault.
fn answered(rt: &impl Abort, alloc: Global, answer: OpAnswer) -> Text {
    match answer {
        OpAnswer::NotBuiltIn => text_of(rt, alloc, NOT_BUILT_IN),
        OpAnswer::Done(value) => quoted(rt, alloc, &value),
        OpAnswer::Failed(fault) => named_text(rt, alloc, &fault),
    }
}

/// Compares what an operator answers under a limit of texts in bytes, or 0 for none.
fn check(
    rt: &impl Abort,
    alloc: Global,
    limit: usize,
    (left, right): (&Dynamic, &Dynamic),
    answer: &Answer,
) {
    let text = answered(
        rt,
        alloc,
        binary(alloc, answer.0, left, right, &limits(limit)),
    );
    check_text(rt, text, answer.1);
}

fn check_row(rt: &impl Abort, alloc: Global, row: &Row) {
    let left = value_of(rt, alloc, row.0);
    let right = value_of(rt, alloc, row.2);
    check(rt, alloc, 0, (&left, &right), &(row.1, row.3));
}

/// Compares what all comparisons answer.
fn check_order(rt: &impl Abort, alloc: Global, order: Order, operands: (&Dynamic, &Dynamic)) {
    let answers = match order {
        Order::Less => &LESS,
        Order::Equal => &EQUAL,
        Order::Greater => &GREATER,
    };
    for answer in answers {
        check(rt, alloc, 0, operands, answer);
    }
}

/// An operator, what it is applied to, and its answer.
type Unary = (Token, &'static str, &'static str);

const UNARY: [Unary; 10] = [
    (Token::Minus, "9223372036854775807", "-9223372036854775807"),
    (
        Token::UnaryMinus,
        "9223372036854775807",
        "-9223372036854775807",
    ),
    (
        Token::Minus,
        "-9223372036854775808",
        "ErrorArithmetic: integer overflow",
    ),
    (
        Token::UnaryMinus,
        "-9223372036854775808",
        "ErrorArithmetic: integer overflow",
    ),
    (Token::Bang, "true", "false"),
    (Token::Bang, "1", NOT_BUILT_IN),
    (Token::Plus, "1", NOT_BUILT_IN),
    (Token::Minus, "true", NOT_BUILT_IN),
    (Token::Minus, "()", NOT_BUILT_IN),
    (Token::Bang, "text a", NOT_BUILT_IN),
];

fn check_unary(rt: &impl Abort, alloc: Global, row: &Unary) {
    let value = value_of(rt, alloc, row.1);
    let text = answered(rt, alloc, unary(alloc, row.0, &value));
    check_text(rt, text, row.2);
}

#[test]
fn operators_on_one_value(rt: HostRuntime) {
    for row in &UNARY {
        check_unary(&rt, rt.alloc(), row);
    }
}
