//! The texts of operator tokens.

use grain_value::Token;
use std::process::Abort;

const OPERATORS: [(&str, Token); 22] = [
    ("+", Token::Plus),
    ("-", Token::Minus),
    ("*", Token::Multiply),
    ("/", Token::Divide),
    ("%", Token::Modulo),
    ("**", Token::PowerOf),
    ("<<", Token::LeftShift),
    (">>", Token::RightShift),
    ("&", Token::Ampersand),
    ("|", Token::Pipe),
    ("^", Token::XOr),
    ("==", Token::EqualsTo),
    ("!=", Token::NotEqualsTo),
    ("<", Token::LessThan),
    ("<=", Token::LessThanEqualsTo),
    (">", Token::GreaterThan),
    (">=", Token::GreaterThanEqualsTo),
    ("..", Token::ExclusiveRange),
    ("..=", Token::InclusiveRange),
    ("!", Token::Bang),
    ("neg", Token::UnaryMinus),
    ("other", Token::Other),
];

const ASSIGNMENTS: [(&str, Token); 11] = [
    ("+=", Token::PlusAssign),
    ("-=", Token::MinusAssign),
    ("*=", Token::MultiplyAssign),
    ("/=", Token::DivideAssign),
    ("%=", Token::ModuloAssign),
    ("**=", Token::PowerOfAssign),
    ("<<=", Token::LeftShiftAssign),
    (">>=", Token::RightShiftAssign),
    ("&=", Token::AndAssign),
    ("|=", Token::OrAssign),
    ("^=", Token::XOrAssign),
];

fn check_rows(rt: &impl Abort, rows: &[(&str, Token)]) {
    for (syntax, token) in rows {
        assert!(rt; Token::lookup_from_syntax(syntax) == Some(*token));
    }
}

const NONE: [&str; 8] = ["", "=", "plus", "<>", "...", "!!", "===", "Other"];

#[test]
fn tokens_have_texts(rt: HostRuntime) {
    check_rows(&rt, &OPERATORS);
    check_rows(&rt, &ASSIGNMENTS);
    for syntax in &NONE {
        assert!(rt; Token::lookup_from_syntax(syntax).is_none());
    }
}
