//! What ends a run, and what is no fault, one by one: name, class, text and dumped fields.

use super::{Class, Row, check_rows};
use crate::raised::{Broken, Kind, OfText, OfTexts, OfValue, Plain};

const ENDS: [Row; 12] = [
    (
        Kind::Plain(Plain::TooManyOperations),
        "",
        "Too many operations",
        r#"#{"error": "ErrorTooManyOperations"}"#,
    ),
    (
        Kind::Plain(Plain::TooManyVariables),
        "",
        "Too many variables defined",
        r#"#{"error": "ErrorTooManyVariables"}"#,
    ),
    (
        Kind::Plain(Plain::TooManyModules),
        "",
        "Too many modules imported",
        r#"#{"error": "ErrorTooManyModules"}"#,
    ),
    (
        Kind::Plain(Plain::StackOverflow),
        "",
        "Stack overflow",
        r#"#{"error": "ErrorStackOverflow"}"#,
    ),
    (
        Kind::Text(OfText::DataTooLarge),
        "Length of string",
        "Length of string too large",
        r#"#{"error": "ErrorDataTooLarge", "type": "Length of string"}"#,
    ),
    (
        Kind::Texts(OfTexts::System),
        "|disk is full",
        "disk is full",
        r#"#{"error": "ErrorSystem"}"#,
    ),
    (
        Kind::Texts(OfTexts::System),
        "log|disk is full",
        "log: disk is full",
        r#"#{"error": "ErrorSystem"}"#,
    ),
    (
        Kind::Texts(OfTexts::System),
        "log|",
        "log: ",
        r#"#{"error": "ErrorSystem"}"#,
    ),
    (
        Kind::Texts(OfTexts::System),
        "|",
        "",
        r#"#{"error": "ErrorSystem"}"#,
    ),
    (
        Kind::Value(OfValue::Terminated),
        "1",
        "Script terminated",
        r#"#{"error": "ErrorTerminated", "token": 1}"#,
    ),
    (
        Kind::Plain(Plain::Memory),
        "",
        "Out of memory",
        r#"#{"error": "Memory"}"#,
    ),
    (
        Kind::Text(OfText::Parsing),
        "unexpected end",
        "Syntax error: unexpected end",
        r#"#{"error": "ErrorParsing"}"#,
    ),
];

const OF_THE_PROGRAM: [Row; 10] = [
    (
        Kind::Syntax,
        "",
        "Unknown prefix: ",
        r#"#{"error": "ErrorCustomSyntax", "tokens": []}"#,
    ),
    (
        Kind::Syntax,
        "text exec",
        "Unknown prefix: exec",
        r#"#{"error": "ErrorCustomSyntax", "tokens": ["exec"]}"#,
    ),
    (
        Kind::Syntax,
        "text exec, 2, text ->",
        "Unknown prefix: exec 2 ->",
        r#"#{"error": "ErrorCustomSyntax", "tokens": ["exec", 2, "->"]}"#,
    ),
    (
        Kind::Malformed(Broken::Slot(4, 3)),
        "",
        "Malformed program: slot 4 past a scope of 3",
        r#"#{"error": "Malformed"}"#,
    ),
    (
        Kind::Malformed(Broken::Unwind(5, 3)),
        "",
        "Malformed program: unwind to 5 past a scope of 3",
        r#"#{"error": "Malformed"}"#,
    ),
    (
        Kind::Malformed(Broken::TryFloor(6, 3)),
        "",
        "Malformed program: try began at a scope of 6, now 3",
        r#"#{"error": "Malformed"}"#,
    ),
    (
        Kind::Malformed(Broken::Total(65535)),
        "",
        "Malformed program: size check 65535 outside a literal",
        r#"#{"error": "Malformed"}"#,
    ),
    (
        Kind::Malformed(Broken::Template),
        "i64",
        "Malformed program: map template is a i64",
        r#"#{"error": "Malformed"}"#,
    ),
    (
        Kind::Malformed(Broken::Key),
        "bool",
        "Malformed program: map key is a bool",
        r#"#{"error": "Malformed"}"#,
    ),
    (
        Kind::Malformed(Broken::Buffer),
        "array",
        "Malformed program: interpolation buffer is a array",
        r#"#{"error": "Malformed"}"#,
    ),
];

const NO_FAULTS: [Row; 4] = [
    (
        Kind::Value(OfValue::Break),
        "1",
        "'break' must be within a loop",
        r#"#{"error": "LoopBreak"}"#,
    ),
    (
        Kind::Value(OfValue::Continue),
        "()",
        "'continue' must be within a loop",
        r#"#{"error": "LoopBreak"}"#,
    ),
    (
        Kind::Value(OfValue::Return),
        "1",
        "NOT AN ERROR - function returns value",
        r#"#{"error": "Return"}"#,
    ),
    (
        Kind::Value(OfValue::Exit),
        "1",
        "NOT AN ERROR - exit value",
        r#"#{"error": "Exit"}"#,
    ),
];

#[test]
fn what_ends_a_run(rt: HostRuntime) {
    check_rows(&rt, rt.alloc(), Class::System, &ENDS);
    check_rows(&rt, rt.alloc(), Class::System, &OF_THE_PROGRAM);
    check_rows(&rt, rt.alloc(), Class::Pseudo, &NO_FAULTS);
}
