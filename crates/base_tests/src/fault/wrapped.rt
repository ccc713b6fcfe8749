//! Faults that left calls and modules.

use super::{Class, check_fault};
use crate::made::text_of;
use grain_fault::{EvalAltResult, Position};
use grain_value::Dynamic;
use std::alloc::Global;
use std::process::Abort;

#[derive(Clone, Copy)]
enum Left {
    Call,
    Module,
}

/// What a fault has left: a call of the function of this name, whose program has this source, or a
/// module of this name, with the line and the column where it left it, or 0 and 0.
type Wrapper = (Left, &'static str, &'static str, u16, u16);

#[derive(Clone, Copy)]
enum Inner {
    /// The number 7, thrown at line 9, column 2.
    Thrown,
    Memory,
    StackOverflow,
}

/// A fault and its name, what it left one after the other, and then its text and its dumped fields.
type Row = (
    Inner,
    &'static str,
    &'static [Wrapper],
    &'static str,
    &'static str,
);

const ROWS: [Row; 11] = [
    (
        Inner::Thrown,
        "ErrorRuntime",
        &[],
        "Runtime error: 7 (line 9, position 2)",
        r#"#{"error": "ErrorRuntime"}"#,
    ),
    (
        Inner::Thrown,
        "ErrorRuntime",
        &[(Left::Call, "f", "", 0, 0)],
        "Runtime error: 7 (line 9, position 2)\nin call to function 'f'",
        r#"#{"error": "ErrorInFunctionCall", "function": "f", "source": ""}"#,
    ),
    (
        Inner::Thrown,
        "ErrorRuntime",
        &[(Left::Call, "f", "a", 0, 0)],
        "Runtime error: 7 @ 'a' (line 9, position 2)\nin call to function 'f' (from 'a')",
        r#"#{"error": "ErrorInFunctionCall", "function": "f", "source": "a"}"#,
    ),
    (
        Inner::Memory,
        "Memory",
        &[(Left::Call, "anon$1", "a", 4, 0)],
        "Out of memory @ 'a'\nin closure call (from 'a') (line 4)",
        r#"#{"error": "ErrorInFunctionCall", "function": "anon$1", "source": "a"}"#,
    ),
    (
        Inner::Thrown,
        "ErrorRuntime",
        &[(Left::Module, "m", "", 4, 1)],
        "Runtime error: 7 (line 9, position 2)\nin module 'm' (line 4, position 1)",
        r#"#{"error": "ErrorInModule", "module": "m"}"#,
    ),
    (
        Inner::Thrown,
        "ErrorRuntime",
        &[(Left::Module, "", "", 0, 0)],
        "Runtime error: 7 (line 9, position 2)\nin module",
        r#"#{"error": "ErrorInModule", "module": ""}"#,
    ),
    (
        Inner::Thrown,
        "ErrorRuntime",
        &[(Left::Module, "m", "", 4, 1), (Left::Call, "f", "a", 0, 0)],
        "Runtime error: 7 (line 9, position 2)\n\
         in module 'm' @ 'a' (line 4, position 1)\n\
         in call to function 'f' (from 'a')",
        r#"#{"error": "ErrorInFunctionCall", "function": "f", "source": "a"}"#,
    ),
    (
        Inner::Thrown,
        "ErrorRuntime",
        &[(Left::Call, "f", "a", 4, 1), (Left::Module, "m", "", 0, 0)],
        "Runtime error: 7 @ 'a' (line 9, position 2)\n\
         in call to function 'f' (from 'a') (line 4, position 1)\n\
         in module 'm'",
        r#"#{"error": "ErrorInModule", "module": "m"}"#,
    ),
    (
        Inner::StackOverflow,
        "ErrorStackOverflow",
        &[
            (Left::Call, "anon$1", "a", 0, 0),
            (Left::Call, "g", "b", 0, 0),
        ],
        "Stack overflow @ 'a'\nin closure call (from 'a') @ 'b'\n\
         in call to function 'g' (from 'b')",
        r#"#{"error": "ErrorInFunctionCall", "function": "g", "source": "b"}"#,
    ),
    (
        Inner::StackOverflow,
        "ErrorStackOverflow",
        &[
            (Left::Call, "anon$1", "a", 0, 0),
            (Left::Call, "g", "b", 2, 7),
        ],
        "Stack overflow @ 'a'\nin closure call (from 'a') @ 'b'\n\
         in call to function 'g' (from 'b') (line 2, position 7)",
        r#"#{"error": "ErrorInFunctionCall", "function": "g", "source": "b"}"#,
    ),
    (
        Inner::StackOverflow,
        "ErrorStackOverflow",
        &[
            (Left::Call, "anon$1", "a", 0, 0),
            (Left::Call, "g", "b", 3, 0),
        ],
        "Stack overflow @ 'a'\nin closure call (from 'a') @ 'b'\n\
         in call to function 'g' (from 'b') (line 3)",
        r#"#{"error": "ErrorInFunctionCall", "function": "g", "source": "b"}"#,
    ),
];

fn place(line: u16, column: u16) -> Position {
    if line == 0 {
        return Position::NONE;
    }
    Position::new(line, column)
}

fn inner_fault(inner: Inner) -> EvalAltResult {
    match inner {
        Inner::Thrown => EvalAltResult::ErrorRuntime(Dynamic::Int(7), place(9, 2)),
        Inner::Memory => EvalAltResult::Memory,
        Inner::StackOverflow => EvalAltResult::ErrorStackOverflow(Position::NONE),
    }
}

/// The fault after it has left this. Its own place is filled in last.
fn wrapped(
    rt: &impl Abort,
    alloc: Global,
    fault: EvalAltResult,
    wrapper: &Wrapper,
) -> EvalAltResult {
    let (left, name, source, line, column) = wrapper;
    let place = place(*line, *column);
    match left {
        Left::Call => in_call(rt, alloc, boxed(rt, alloc, fault), name, source).fill_position(
            place,
        ),
        Left::Module => {
            let inner = boxed(rt, alloc, fault);
            EvalAltResult::ErrorInModule(text_of(rt, alloc, name), inner, place)
        }
    }
}

fn boxed(rt: &impl Abort, alloc: Global, fault: EvalAltResult) -> Box<EvalAltResult> {
    match Box::new(alloc, fault) {
        Ok(inner) => inner,
        Err(_) => panic!(rt; "memory"),
    }
}

fn in_call(
    rt: &impl Abort,
    alloc: Global,
    inner: Box<EvalAltResult>,
    function: &str,
    source: &str,
) -> EvalAltResult {
    let function = text_of(rt, alloc, function);
    let source = text_of(rt, alloc, source);
    EvalAltResult::ErrorInFunctionCall(function, source, inner, Position::NONE)
}

fn wrapped_in(rt: &impl Abort, alloc: Global, inner: Inner, wrappers: &[Wrapper]) -> EvalAltResult {
    let mut fault = inner_fault(inner);
    for wrapper in wrappers {
        fault = wrapped(rt, alloc, fault, wrapper);
    }
    fault
}

fn check_row(rt: &impl Abort, alloc: Global, row: &Row) {
    let fault = wrapped_in(rt, alloc, row.0, row.2);
    assert!(rt; fault.unwrap_inner().name() == row.1);
    check_fault(rt, alloc, Class::Catchable, &fault, (row.3, row.4));
}

#[test]
fn wrapped_faults(rt: HostRuntime) {
    for row in &ROWS {
        check_row(&rt, rt.alloc(), row);
    }
}
