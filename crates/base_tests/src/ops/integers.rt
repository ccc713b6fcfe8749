//! The operators on integers.

use super::{NOT_BUILT_IN, Order, check, check_order};
use grain_value::{Dynamic, Token};
use std::alloc::Global;
use std::process::Abort;

/// An integer, an operator, another integer, and the answer.
type Row = (i64, Token, i64, &'static str);

/// An integer, how it stands to another, and the other.
type Compared = (i64, Order, i64);

const LEAST: i64 = i64::MIN;

const MOST: i64 = i64::MAX;

const SUMS_AND_PRODUCTS: [Row; 13] = [
    (2, Token::Plus, 3, "5"),
    (2, Token::Minus, 3, "-1"),
    (MOST, Token::Plus, LEAST, "-1"),
    (LEAST, Token::Plus, 0, "-9223372036854775808"),
    (-1, Token::Minus, LEAST, "9223372036854775807"),
    (LEAST, Token::Minus, LEAST, "0"),
    (-2, Token::Multiply, 3, "-6"),
    (LEAST, Token::Multiply, 1, "-9223372036854775808"),
    (
        3037000499,
        Token::Multiply,
        3037000499,
        "9223372030926249001",
    ),
    (
        MOST,
        Token::Plus,
        1,
        "ErrorArithmetic: Addition overflow: 9223372036854775807 + 1",
    ),
    (
        LEAST,
        Token::Plus,
        -1,
        "ErrorArithmetic: Addition overflow: -9223372036854775808 + -1",
    ),
    (
        LEAST,
        Token::Multiply,
        -1,
        "ErrorArithmetic: Multiplication overflow: -9223372036854775808 * -1",
    ),
    (
        0,
        Token::Minus,
        LEAST,
        "ErrorArithmetic: Subtraction overflow: 0 - -9223372036854775808",
    ),
];

const QUOTIENTS: [Row; 18] = [
    (7, Token::Divide, 2, "3"),
    (7, Token::Modulo, 2, "1"),
    (-7, Token::Divide, 2, "-3"),
    (-7, Token::Modulo, 2, "-1"),
    (7, Token::Divide, -2, "-3"),
    (7, Token::Modulo, -2, "1"),
    (-7, Token::Divide, -2, "3"),
    (-7, Token::Modulo, -2, "-1"),
    (LEAST, Token::Divide, 1, "-9223372036854775808"),
    (LEAST, Token::Divide, MOST, "-1"),
    (LEAST, Token::Modulo, MOST, "-1"),
    (MOST, Token::Divide, LEAST, "0"),
    (MOST, Token::Modulo, LEAST, "9223372036854775807"),
    (
        1,
        Token::Divide,
        0,
        "ErrorArithmetic: Division by zero: 1 / 0",
    ),
    (
        LEAST,
        Token::Divide,
        -1,
        "ErrorArithmetic: Division overflow: -9223372036854775808 / -1",
    ),
    (
        LEAST,
        Token::Modulo,
        -1,
        "ErrorArithmetic: Division overflow: -9223372036854775808 % -1",
    ),
    (MOST, Token::Modulo, -1, "0"),
    (
        -1,
        Token::Modulo,
        0,
        "ErrorArithmetic: Division by zero: -1 % 0",
    ),
];

const POWERS: [Row; 19] = [
    (2, Token::PowerOf, 62, "4611686018427387904"),
    (-2, Token::PowerOf, 63, "-9223372036854775808"),
    (3, Token::PowerOf, 39, "4052555153018976267"),
    (LEAST, Token::PowerOf, 1, "-9223372036854775808"),
    (LEAST, Token::PowerOf, 0, "1"),
    (0, Token::PowerOf, 0, "1"),
    (0, Token::PowerOf, MOST, "0"),
    (1, Token::PowerOf, MOST, "1"),
    (-1, Token::PowerOf, MOST, "-1"),
    (-1, Token::PowerOf, 9223372036854775806, "1"),
    (-1, Token::PowerOf, 4294967295, "-1"),
    (-1, Token::PowerOf, 4294967296, "1"),
    (
        2,
        Token::PowerOf,
        63,
        "ErrorArithmetic: Exponential overflow: 2 ** 63",
    ),
    (
        -2,
        Token::PowerOf,
        64,
        "ErrorArithmetic: Exponential overflow: -2 ** 64",
    ),
    (
        2,
        Token::PowerOf,
        MOST,
        "ErrorArithmetic: Exponential overflow: 2 ** 9223372036854775807",
    ),
    (
        -2,
        Token::PowerOf,
        4294967297,
        "ErrorArithmetic: Exponential overflow: -2 ** 4294967297",
    ),
    (
        2,
        Token::PowerOf,
        -1,
        "ErrorArithmetic: Integer raised to a negative power: 2 ** -1",
    ),
    (
        0,
        Token::PowerOf,
        -1,
        "ErrorArithmetic: Integer raised to a negative power: 0 ** -1",
    ),
    (
        1,
        Token::PowerOf,
        LEAST,
        "ErrorArithmetic: Integer raised to a negative power: 1 ** -9223372036854775808",
    ),
];

const SHIFTS: [Row; 24] = [
    (1, Token::LeftShift, 0, "1"),
    (3, Token::LeftShift, 63, "-9223372036854775808"),
    (MOST, Token::LeftShift, 1, "-2"),
    (-1, Token::LeftShift, 63, "-9223372036854775808"),
    (-1, Token::LeftShift, 64, "0"),
    (5, Token::LeftShift, MOST, "0"),
    (-8, Token::LeftShift, -1, "-4"),
    (LEAST, Token::LeftShift, -63, "-1"),
    (MOST, Token::LeftShift, -63, "0"),
    (5, Token::LeftShift, -64, "0"),
    (-5, Token::LeftShift, -64, "-1"),
    (5, Token::LeftShift, LEAST, "0"),
    (-5, Token::LeftShift, LEAST, "-1"),
    (-5, Token::RightShift, LEAST, "0"),
    (8, Token::RightShift, 0, "8"),
    (-7, Token::RightShift, 1, "-4"),
    (MOST, Token::RightShift, 62, "1"),
    (LEAST, Token::RightShift, 63, "-1"),
    (MOST, Token::RightShift, 64, "0"),
    (-5, Token::RightShift, 64, "-1"),
    (-5, Token::RightShift, MOST, "-1"),
    (-1, Token::RightShift, -1, "-2"),
    (1, Token::RightShift, -63, "-9223372036854775808"),
    (-1, Token::RightShift, -64, "0"),
];

const BITS_AND_RANGES: [Row; 11] = [
    (6, Token::Ampersand, 3, "2"),
    (6, Token::Pipe, 3, "7"),
    (6, Token::XOr, 3, "5"),
    (-2, Token::Ampersand, -3, "-4"),
    (-2, Token::Pipe, -3, "-1"),
    (-2, Token::XOr, -3, "3"),
    (-1, Token::Ampersand, LEAST, "-9223372036854775808"),
    (MOST, Token::Pipe, LEAST, "-1"),
    (-1, Token::XOr, MOST, "-9223372036854775808"),
    (
        5,
        Token::ExclusiveRange,
        LEAST,
        "range(5, -9223372036854775808)",
    ),
    (
        5,
        Token::InclusiveRange,
        LEAST,
        "range=(5, -9223372036854775808)",
    ),
];

const COMPARED: [Compared; 4] = [
    (LEAST, Order::Less, MOST),
    (MOST, Order::Greater, LEAST),
    (-1, Order::Less, 0),
    (LEAST, Order::Equal, LEAST),
];

const WITHOUT: [Row; 5] = [
    (2, Token::Bang, 3, NOT_BUILT_IN),
    (2, Token::UnaryMinus, 3, NOT_BUILT_IN),
    (2, Token::PlusAssign, 3, NOT_BUILT_IN),
    (2, Token::AndAssign, 3, NOT_BUILT_IN),
    (2, Token::Other, 3, NOT_BUILT_IN),
];

fn check_rows(rt: &impl Abort, alloc: Global, rows: &[Row]) {
    for row in rows {
        let operands = (&Dynamic::Int(row.0), &Dynamic::Int(row.2));
        check(rt, alloc, 0, operands, &(row.1, row.3));
    }
}

#[test]
fn operators_on_two_integers(rt: HostRuntime) {
    check_rows(&rt, rt.alloc(), &SUMS_AND_PRODUCTS);
    check_rows(&rt, rt.alloc(), &QUOTIENTS);
    check_rows(&rt, rt.alloc(), &POWERS);
    check_rows(&rt, rt.alloc(), &SHIFTS);
    check_rows(&rt, rt.alloc(), &BITS_AND_RANGES);
    check_rows(&rt, rt.alloc(), &WITHOUT);
}

#[test]
fn integers_are_compared(rt: HostRuntime) {
    for row in &COMPARED {
        let operands = (&Dynamic::Int(row.0), &Dynamic::Int(row.2));
        check_order(&rt, rt.alloc(), row.1, operands);
    }
}
