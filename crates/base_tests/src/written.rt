//! The kinds, the type names and the texts of values.

use crate::made::{check_text, plain, quoted, value_of};
use grain_value::{Dynamic, FnPtr, Store, ValueFault};
use std::alloc::Global;
use std::process::Abort;

/// A value, the number of its kind, and its type name, its plain text and its quoted text.
type Row = (&'static str, u32, &'static str, &'static str, &'static str);

const FLAT: [Row; 11] = [
    ("()", 0, "()", "", "()"),
    ("true", 1, "bool", "true", "true"),
    ("false", 1, "bool", "false", "false"),
    (
        "-9223372036854775808",
        2,
        "i64",
        "-9223372036854775808",
        "-9223372036854775808",
    ),
    ("char a", 3, "char", "a", "'a'"),
    ("char '", 3, "char", "'", "'\\''"),
    ("char \"", 3, "char", "\"", "'\\\"'"),
    ("char \n", 3, "char", "\n", "'\\n'"),
    ("char \u{1f600}", 3, "char", "\u{1f600}", "'\u{1f600}'"),
    (
        "text é \"\\\n\r\t'\u{7}",
        4,
        "string",
        "é \"\\\n\r\t'\u{7}",
        "\"é \\\"\\\\\\n\\r\\t'\u{7}\"",
    ),
    ("text ", 4, "string", "", "\"\""),
];

const NESTED: [Row; 5] = [
    ("[]", 5, "array", "[]", "[]"),
    (
        "array pair, text a\"b",
        5,
        "array",
        "[[1, ()], \"a\\\"b\"]",
        "[[1, ()], \"a\\\"b\"]",
    ),
    ("blob 0 10 255", 6, "blob", "blob(000aff)", "blob(000aff)"),
    (
        "map b 2, a 1, b 3",
        7,
        "map",
        "#{\"a\": 1, \"b\": 3}",
        "#{\"a\": 1, \"b\": 3}",
    ),
    (
        "fn _f1 true",
        8,
        "Fn",
        "fn(\"_f1\", true)",
        "fn(\"_f1\", true)",
    ),
];

fn check_row(rt: &impl Abort, alloc: Global, row: &Row) {
    let value = value_of(rt, alloc, row.0);
    check_copy(rt, alloc, &value, row.1, (row.2, row.3, row.4));
}

/// Compares what is written of a copy of the value.
fn check_copy(
    rt: &impl Abort,
    alloc: Global,
    value: &Dynamic,
    kind: u32,
    (type_name, as_plain, as_quoted): (&str, &str, &str),
) {
    let copy = value.copy(alloc).expect(rt, "memory");
    check_kind(rt, alloc, &copy, kind, type_name);
    check_text(rt, plain(rt, alloc, &copy), as_plain);
    check_text(rt, quoted(rt, alloc, &copy), as_quoted);
}

fn check_kind(rt: &impl Abort, alloc: Global, value: &Dynamic, kind: u32, type_name: &str) {
    let cells = Store::new(alloc);
    assert!(rt; value.kind(&cells) == kind);
    let name = value.type_name(alloc, &cells).expect(rt, "memory");
    check_text(rt, name, type_name);
}

#[test]
fn values_are_written(rt: HostRuntime) {
    for row in &FLAT {
        check_row(&rt, rt.alloc(), row);
    }
    for row in &NESTED {
        check_row(&rt, rt.alloc(), row);
    }
}

fn check_range(rt: &impl Abort, alloc: Global, from: i64, to: i64, inclusive: bool, text: &str) {
    let value = Dynamic::Range {
        from,
        to,
        inclusive,
    };
    check_copy(rt, alloc, &value, 9, ("range", text, text));
}

#[test]
fn ranges_and_foreign_values_are_written(rt: HostRuntime) {
    check_range(&rt, rt.alloc(), -1, 2, false, "range(-1, 2)");
    check_range(&rt, rt.alloc(), 2, -1, true, "range=(2, -1)");
    let foreign = Dynamic::Foreign {
        kind: 16,
        number: 18446744073709551615,
    };
    let text = "foreign(16, 18446744073709551615)";
    check_copy(&rt, rt.alloc(), &foreign, 16, ("foreign(16)", text, text));
}

const NO_NAMES: [&str; 8] = ["", "_", "__1", "1a", "a b", "é", "a-b", "get$x"];

fn is_refused(alloc: Global, name: &str) -> bool {
    matches!(FnPtr::new(alloc, name), Err(ValueFault::BadName))
}

#[test]
fn pointer_names_are_words(rt: HostRuntime) {
    for name in &NO_NAMES {
        assert!(rt; is_refused(rt.alloc(), name));
    }
}
