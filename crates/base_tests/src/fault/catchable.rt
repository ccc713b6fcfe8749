//! The faults that a script may catch, one by one: name, class, text and dumped fields.

use super::{Class, Row, check_rows};
use crate::raised::{Kind, OfText, OfTexts, OfValue, Plain};

const VARIABLES: [Row; 6] = [
    (
        Kind::Text(OfText::VariableExists),
        "x",
        "Variable already defined: x",
        r#"#{"error": "ErrorVariableExists", "variable": "x"}"#,
    ),
    (
        Kind::Text(OfText::ForbiddenVariable),
        "x",
        "Forbidden variable name: x",
        r#"#{"error": "ErrorForbiddenVariable", "variable": "x"}"#,
    ),
    (
        Kind::Text(OfText::VariableNotFound),
        "x",
        "Variable not found: x",
        r#"#{"error": "ErrorVariableNotFound", "variable": "x"}"#,
    ),
    (
        Kind::Text(OfText::AssignmentToConstant),
        "x",
        "Cannot modify constant x",
        r#"#{"error": "ErrorAssignmentToConstant", "variable": "x"}"#,
    ),
    (
        Kind::Text(OfText::DataRace),
        "x",
        "Data race detected on x",
        r#"#{"error": "ErrorDataRace", "variable": "x"}"#,
    ),
    (
        Kind::Text(OfText::DataRace),
        "",
        "Data race detected",
        r#"#{"error": "ErrorDataRace", "variable": ""}"#,
    ),
];

const NAMES: [Row; 10] = [
    (
        Kind::Text(OfText::PropertyNotFound),
        "p",
        "Property not found: p",
        r#"#{"error": "ErrorPropertyNotFound", "variable": "p"}"#,
    ),
    (
        Kind::Text(OfText::FunctionNotFound),
        "f (i64)",
        "Function not found: f (i64)",
        r#"#{"error": "ErrorFunctionNotFound", "function": "f (i64)"}"#,
    ),
    (
        Kind::Text(OfText::ModuleNotFound),
        "m",
        "Module not found: m",
        r#"#{"error": "ErrorModuleNotFound", "module": "m"}"#,
    ),
    (
        Kind::Text(OfText::IndexingType),
        "i64 [bool]",
        "Indexer unavailable: i64 [bool]",
        r#"#{"error": "ErrorIndexingType", "type": "i64 [bool]"}"#,
    ),
    (
        Kind::Text(OfText::DotExpr),
        "",
        "Malformed dot expression",
        r#"#{"error": "ErrorDotExpr", "property": ""}"#,
    ),
    (
        Kind::Text(OfText::DotExpr),
        "Unknown property 'p' for 'i64'",
        "Unknown property 'p' for 'i64'",
        r#"#{"error": "ErrorDotExpr", "property": "Unknown property 'p' for 'i64'"}"#,
    ),
    (
        Kind::Plain(Plain::UnboundThis),
        "",
        "'this' not bound",
        r#"#{"error": "ErrorUnboundThis"}"#,
    ),
    (
        Kind::Plain(Plain::For),
        "",
        "For loop expects iterable type",
        r#"#{"error": "ErrorFor"}"#,
    ),
    (
        Kind::Text(OfText::Arithmetic),
        "",
        "Arithmetic error",
        r#"#{"error": "ErrorArithmetic"}"#,
    ),
    (
        Kind::Text(OfText::Arithmetic),
        "Addition overflow: 1 + 2",
        "Addition overflow: 1 + 2",
        r#"#{"error": "ErrorArithmetic"}"#,
    ),
];

const MISMATCHES: [Row; 7] = [
    (
        Kind::Texts(OfTexts::DataType),
        "bool|",
        "Data type incorrect, expecting bool",
        r#"#{"actual": "", "error": "ErrorMismatchDataType", "requested": "bool"}"#,
    ),
    (
        Kind::Texts(OfTexts::DataType),
        "|i64",
        "Data type incorrect: i64",
        r#"#{"actual": "i64", "error": "ErrorMismatchDataType", "requested": ""}"#,
    ),
    (
        Kind::Texts(OfTexts::DataType),
        "bool|i64",
        "Data type incorrect: i64 (expecting bool)",
        r#"#{"actual": "i64", "error": "ErrorMismatchDataType", "requested": "bool"}"#,
    ),
    (
        Kind::Texts(OfTexts::DataType),
        "|",
        "Data type incorrect, expecting ",
        r#"#{"actual": "", "error": "ErrorMismatchDataType", "requested": ""}"#,
    ),
    (
        Kind::Texts(OfTexts::OutputType),
        "bool|",
        "Output type incorrect, expecting bool",
        r#"#{"actual": "", "error": "ErrorMismatchOutputType", "requested": "bool"}"#,
    ),
    (
        Kind::Texts(OfTexts::OutputType),
        "|i64",
        "Output type incorrect: i64",
        r#"#{"actual": "i64", "error": "ErrorMismatchOutputType", "requested": ""}"#,
    ),
    (
        Kind::Texts(OfTexts::OutputType),
        "bool|i64",
        "Output type incorrect: i64 (expecting bool)",
        r#"#{"actual": "i64", "error": "ErrorMismatchOutputType", "requested": "bool"}"#,
    ),
];

const BOUNDS: [Row; 11] = [
    (
        Kind::ArrayBounds(0, 0),
        "",
        "Array index 0 out of bounds: array is empty",
        r#"#{"error": "ErrorArrayBounds", "index": 0, "length": 0}"#,
    ),
    (
        Kind::ArrayBounds(1, -2),
        "",
        "Array index -2 out of bounds: only 1 element in array",
        r#"#{"error": "ErrorArrayBounds", "index": -2, "length": 1}"#,
    ),
    (
        Kind::ArrayBounds(2, 5),
        "",
        "Array index 5 out of bounds: only 2 elements in array",
        r#"#{"error": "ErrorArrayBounds", "index": 5, "length": 2}"#,
    ),
    (
        Kind::ArrayBounds(18446744073709551615, -9223372036854775808),
        "",
        "Array index -9223372036854775808 out of bounds: \
         only 18446744073709551615 elements in array",
        "#{\"error\": \"ErrorArrayBounds\", \"index\": -9223372036854775808, \
         \"length\": 9223372036854775807}",
    ),
    (
        Kind::StringBounds(0, -1),
        "",
        "String index -1 out of bounds: string is empty",
        r#"#{"error": "ErrorStringBounds", "index": -1, "length": 0}"#,
    ),
    (
        Kind::StringBounds(1, 1),
        "",
        "String index 1 out of bounds: only 1 character in string",
        r#"#{"error": "ErrorStringBounds", "index": 1, "length": 1}"#,
    ),
    (
        Kind::StringBounds(2, 3),
        "",
        "String index 3 out of bounds: only 2 characters in string",
        r#"#{"error": "ErrorStringBounds", "index": 3, "length": 2}"#,
    ),
    (
        Kind::BitFieldBounds(64, 99),
        "",
        "Bit-field index 99 out of bounds: only 64 bits in bit-field",
        r#"#{"error": "ErrorBitFieldBounds", "index": 99, "length": 64}"#,
    ),
    (
        Kind::BitFieldBounds(1, -2),
        "",
        "Bit-field index -2 out of bounds: only 1 bits in bit-field",
        r#"#{"error": "ErrorBitFieldBounds", "index": -2, "length": 1}"#,
    ),
    (
        Kind::BitFieldBounds(9223372036854775807, 0),
        "",
        "Bit-field index 0 out of bounds: only 9223372036854775807 bits in bit-field",
        r#"#{"error": "ErrorBitFieldBounds", "index": 0, "length": 9223372036854775807}"#,
    ),
    (
        Kind::BitFieldBounds(9223372036854775808, 0),
        "",
        "Bit-field index 0 out of bounds: only 9223372036854775808 bits in bit-field",
        r#"#{"error": "ErrorBitFieldBounds", "index": 0, "length": 9223372036854775807}"#,
    ),
];

const CALLS_ON_CONSTANTS: [Row; 6] = [
    (
        Kind::Text(OfText::NonPureCall),
        "get$p",
        "Non-pure property p cannot be accessed on constant",
        r#"#{"error": "ErrorNonPureMethodCallOnConstant", "function": "get$p"}"#,
    ),
    (
        Kind::Text(OfText::NonPureCall),
        "set$p",
        "Cannot modify property 'p' of constant",
        r#"#{"error": "ErrorNonPureMethodCallOnConstant", "function": "set$p"}"#,
    ),
    (
        Kind::Text(OfText::NonPureCall),
        "index$get$",
        "Non-pure indexer cannot be accessed on constant",
        r#"#{"error": "ErrorNonPureMethodCallOnConstant", "function": "index$get$"}"#,
    ),
    (
        Kind::Text(OfText::NonPureCall),
        "index$set$",
        "Cannot assign to indexer of constant",
        r#"#{"error": "ErrorNonPureMethodCallOnConstant", "function": "index$set$"}"#,
    ),
    (
        Kind::Text(OfText::NonPureCall),
        "get",
        "Non-pure method 'get' cannot be called on constant",
        r#"#{"error": "ErrorNonPureMethodCallOnConstant", "function": "get"}"#,
    ),
    (
        Kind::Text(OfText::NonPureCall),
        "index$get$p",
        "Non-pure method 'index$get$p' cannot be called on constant",
        r#"#{"error": "ErrorNonPureMethodCallOnConstant", "function": "index$get$p"}"#,
    ),
];

const WITH_A_VALUE: [Row; 9] = [
    (
        Kind::Value(OfValue::IndexNotFound),
        "-7",
        "Invalid index: -7",
        r#"#{"error": "ErrorIndexNotFound", "index": -7}"#,
    ),
    (
        Kind::Value(OfValue::IndexNotFound),
        "()",
        "Invalid index: ",
        r#"#{"error": "ErrorIndexNotFound", "index": ()}"#,
    ),
    (
        Kind::Value(OfValue::IndexNotFound),
        "text k",
        "Invalid index: k",
        r#"#{"error": "ErrorIndexNotFound", "index": "k"}"#,
    ),
    (
        Kind::Value(OfValue::Runtime),
        "()",
        "Runtime error",
        r#"#{"error": "ErrorRuntime"}"#,
    ),
    (
        Kind::Text(OfText::Thrown),
        "",
        "Runtime error",
        r#"#{"error": "ErrorRuntime"}"#,
    ),
    (
        Kind::Text(OfText::Thrown),
        "boom",
        "Runtime error: boom",
        r#"#{"error": "ErrorRuntime"}"#,
    ),
    (
        Kind::Value(OfValue::Runtime),
        "7",
        "Runtime error: 7",
        r#"#{"error": "ErrorRuntime"}"#,
    ),
    (
        Kind::Value(OfValue::Runtime),
        "[]",
        "Runtime error: []",
        r#"#{"error": "ErrorRuntime"}"#,
    ),
    (
        Kind::Value(OfValue::Runtime),
        "array text a",
        r#"Runtime error: ["a"]"#,
        r#"#{"error": "ErrorRuntime"}"#,
    ),
];

#[test]
fn faults_that_a_script_may_catch(rt: HostRuntime) {
    check_rows(&rt, rt.alloc(), Class::Catchable, &VARIABLES);
    check_rows(&rt, rt.alloc(), Class::Catchable, &NAMES);
    check_rows(&rt, rt.alloc(), Class::Catchable, &MISMATCHES);
    check_rows(&rt, rt.alloc(), Class::Catchable, &BOUNDS);
    check_rows(&rt, rt.alloc(), Class::Catchable, &CALLS_ON_CONSTANTS);
    check_rows(&rt, rt.alloc(), Class::Catchable, &WITH_A_VALUE);
}
