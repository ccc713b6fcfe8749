//! The operators on truth values and units, and where there is no built-in.

use super::{NOT_BUILT_IN, Row, check_row};
use grain_value::Token;

const TRUTHS_AND_UNITS: [Row; 22] = [
    ("false", Token::Ampersand, "false", "false"),
    ("false", Token::Pipe, "false", "false"),
    ("false", Token::XOr, "false", "false"),
    ("false", Token::EqualsTo, "false", "true"),
    ("false", Token::NotEqualsTo, "false", "false"),
    ("false", Token::Ampersand, "true", "false"),
    ("false", Token::Pipe, "true", "true"),
    ("false", Token::XOr, "true", "true"),
    ("false", Token::EqualsTo, "true", "false"),
    ("false", Token::NotEqualsTo, "true", "true"),
    ("true", Token::Ampersand, "false", "false"),
    ("true", Token::Pipe, "false", "true"),
    ("true", Token::XOr, "false", "true"),
    ("true", Token::EqualsTo, "false", "false"),
    ("true", Token::NotEqualsTo, "false", "true"),
    ("true", Token::Ampersand, "true", "true"),
    ("true", Token::Pipe, "true", "true"),
    ("true", Token::XOr, "true", "false"),
    ("true", Token::EqualsTo, "true", "true"),
    ("true", Token::NotEqualsTo, "true", "false"),
    ("()", Token::EqualsTo, "()", "true"),
    ("()", Token::NotEqualsTo, "()", "false"),
];

const WITHOUT: [Row; 30] = [
    ("1", Token::Plus, "true", NOT_BUILT_IN),
    ("1", Token::EqualsTo, "true", NOT_BUILT_IN),
    ("1", Token::Ampersand, "true", NOT_BUILT_IN),
    ("true", Token::Plus, "1", NOT_BUILT_IN),
    ("true", Token::EqualsTo, "1", NOT_BUILT_IN),
    ("true", Token::Ampersand, "1", NOT_BUILT_IN),
    ("text a", Token::Plus, "1", NOT_BUILT_IN),
    ("text a", Token::EqualsTo, "1", NOT_BUILT_IN),
    ("text a", Token::Ampersand, "1", NOT_BUILT_IN),
    ("()", Token::Plus, "text a", NOT_BUILT_IN),
    ("()", Token::EqualsTo, "text a", NOT_BUILT_IN),
    ("()", Token::Ampersand, "text a", NOT_BUILT_IN),
    ("true", Token::Plus, "true", NOT_BUILT_IN),
    ("true", Token::LessThan, "true", NOT_BUILT_IN),
    ("true", Token::PowerOf, "true", NOT_BUILT_IN),
    ("()", Token::Plus, "()", NOT_BUILT_IN),
    ("()", Token::LessThan, "()", NOT_BUILT_IN),
    ("()", Token::PowerOf, "()", NOT_BUILT_IN),
    ("text a", Token::Minus, "text a", NOT_BUILT_IN),
    ("text a", Token::Ampersand, "text a", NOT_BUILT_IN),
    ("text a", Token::Multiply, "text a", NOT_BUILT_IN),
    ("char a", Token::Minus, "char a", NOT_BUILT_IN),
    ("char a", Token::Ampersand, "char a", NOT_BUILT_IN),
    ("char a", Token::Multiply, "char a", NOT_BUILT_IN),
    ("text a", Token::EqualsTo, "char a", NOT_BUILT_IN),
    ("text a", Token::LessThan, "char a", NOT_BUILT_IN),
    ("text a", Token::Minus, "char a", NOT_BUILT_IN),
    ("char a", Token::EqualsTo, "text a", NOT_BUILT_IN),
    ("char a", Token::LessThan, "text a", NOT_BUILT_IN),
    ("char a", Token::Minus, "text a", NOT_BUILT_IN),
];

#[test]
fn operators_on_other_values(rt: HostRuntime) {
    for row in &TRUTHS_AND_UNITS {
        check_row(&rt, rt.alloc(), row);
    }
    for row in &WITHOUT {
        check_row(&rt, rt.alloc(), row);
    }
}
