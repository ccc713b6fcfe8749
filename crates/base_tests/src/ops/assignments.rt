//! The op-assignments.

use super::{NOT_BUILT_IN, TOO_LONG, limits};
use crate::made::{check_text, quoted, text_of, value_of};
use crate::raised::named_text;
use grain_ops::{AssignAnswer, assign};
use grain_value::{Dynamic, Text, Token};
use std::alloc::Global;
use std::process::Abort;

/// A target, an op-assignment, a value, the limit of texts in bytes, or 0 for none, the answer, and
/// the quoted text of the target afterwards.
type Row = (
    &'static str,
    Token,
    &'static str,
    usize,
    &'static str,
    &'static str,
);

const DONE: &str = "done";

const ROWS: [Row; 31] = [
    ("13", Token::PlusAssign, "3", 0, DONE, "16"),
    ("13", Token::MinusAssign, "3", 0, DONE, "10"),
    ("13", Token::MultiplyAssign, "3", 0, DONE, "39"),
    ("13", Token::DivideAssign, "3", 0, DONE, "4"),
    ("13", Token::ModuloAssign, "3", 0, DONE, "1"),
    ("13", Token::PowerOfAssign, "3", 0, DONE, "2197"),
    ("13", Token::LeftShiftAssign, "3", 0, DONE, "104"),
    ("13", Token::RightShiftAssign, "3", 0, DONE, "1"),
    ("13", Token::AndAssign, "3", 0, DONE, "1"),
    ("13", Token::OrAssign, "3", 0, DONE, "15"),
    ("13", Token::XOrAssign, "3", 0, DONE, "14"),
    ("true", Token::AndAssign, "true", 0, DONE, "true"),
    ("true", Token::OrAssign, "true", 0, DONE, "true"),
    ("true", Token::XOrAssign, "true", 0, DONE, "false"),
    ("true", Token::PlusAssign, "true", 0, NOT_BUILT_IN, "true"),
    (
        "true",
        Token::PowerOfAssign,
        "true",
        0,
        NOT_BUILT_IN,
        "true",
    ),
    (
        "13",
        Token::ModuloAssign,
        "0",
        0,
        "ErrorArithmetic: Division by zero: 13 % 0",
        "13",
    ),
    ("13", Token::Plus, "2", 0, NOT_BUILT_IN, "13"),
    ("13", Token::EqualsTo, "2", 0, NOT_BUILT_IN, "13"),
    ("13", Token::Other, "2", 0, NOT_BUILT_IN, "13"),
    ("13", Token::PlusAssign, "true", 0, NOT_BUILT_IN, "13"),
    ("13", Token::AndAssign, "true", 0, NOT_BUILT_IN, "13"),
    ("13", Token::PlusAssign, "text a", 0, NOT_BUILT_IN, "13"),
    ("13", Token::AndAssign, "text a", 0, NOT_BUILT_IN, "13"),
    ("text a", Token::PlusAssign, "text é", 5, DONE, r#""aé""#),
    ("text aé", Token::PlusAssign, "text é", 5, DONE, r#""aéé""#),
    (
        "text aéé",
        Token::PlusAssign,
        "text é",
        5,
        TOO_LONG,
        r#""aéé""#,
    ),
    (
        "text aéé",
        Token::MinusAssign,
        "text é",
        5,
        NOT_BUILT_IN,
        r#""aéé""#,
    ),
    ("text a", Token::PlusAssign, "char é", 3, DONE, r#""aé""#),
    (
        "text aé",
        Token::PlusAssign,
        "char é",
        3,
        TOO_LONG,
        r#""aé""#,
    ),
    (
        "char x",
        Token::PlusAssign,
        "char é",
        3,
        NOT_BUILT_IN,
        "'x'",
    ),
];

fn answered(rt: &impl Abort, alloc: Global, answer: AssignAnswer) -> Text {
    match answer {
        AssignAnswer::NotBuiltIn => text_of(rt, alloc, NOT_BUILT_IN),
        AssignAnswer::Done => text_of(rt, alloc, DONE),
        AssignAnswer::Failed(fault) => named_text(rt, alloc, &fault),
    }
}

fn check_assigned(rt: &impl Abort, alloc: Global, target: &mut Dynamic, row: &Row) {
    let value = value_of(rt, alloc, row.2);
    let answer = assign(alloc, row.1, target, &value, &limits(row.3));
    check_text(rt, answered(rt, alloc, answer), row.4);
}

fn check_row(rt: &impl Abort, alloc: Global, row: &Row) {
    let mut target = value_of(rt, alloc, row.0);
    check_assigned(rt, alloc, &mut target, row);
    check_text(rt, quoted(rt, alloc, &target), row.5);
}

#[test]
fn targets_of_assignments(rt: HostRuntime) {
    for row in &ROWS {
        check_row(&rt, rt.alloc(), row);
    }
}
