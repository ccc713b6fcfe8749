//! The native `map` of the host in memory, which asks for calls of a function.

use super::{UNKNOWN, answered, args_of, receiver};
use crate::made::{check_text, value_of};
use crate::raised::{Kind, OfText, fault_of};
use grain_host::{Args, Host, HostFault, TableHost};
use grain_value::{Array, Held, Text};
use std::alloc::Global;
use std::process::Abort;

/// What is done with the host.
#[derive(Clone, Copy)]
enum Deed {
    /// `map` is called with this value and a pointer.
    Map,
    /// It is resumed by the token with this value.
    Value,
    /// It is resumed by the token with a fault that has this text.
    Fault,
    /// It forgets the token, and answers nothing.
    Forget,
}

/// What is done, the token, the value or the text, and the answer.
type Row = (Deed, u64, &'static str, &'static str);

/// A value, and a pointer to `f` with one value of its own.
fn values_of(rt: &impl Abort, alloc: Global, said: &str) -> Array {
    let mut values = Array::new(alloc);
    let elements = value_of(rt, alloc, said);
    values.push(elements).expect(rt, "memory");
    let pointer = value_of(rt, alloc, "fn f 9");
    values.push(pointer).expect(rt, "memory");
    values
}

fn mapped(rt: &impl Abort, alloc: Global, host: &mut TableHost, said: &str) -> Text {
    let mut args = args_of(values_of(rt, alloc, said));
    answered(rt, alloc, host.call(alloc, 4, &mut args))
}

fn went_on(rt: &impl Abort, alloc: Global, host: &mut TableHost, token: u64, said: &str) -> Text {
    let mut args = args_of(Array::new(alloc));
    let value = value_of(rt, alloc, said);
    answered(rt, alloc, host.resume(alloc, token, Ok(value), &mut args))
}

fn failed(rt: &impl Abort, alloc: Global, host: &mut TableHost, token: u64, text: &str) -> Text {
    let mut args = args_of(Array::new(alloc));
    let fault = match HostFault::new(fault_of(rt, alloc, Kind::Text(OfText::Thrown), text)) {
        Ok(fault) => fault,
        Err(_) => panic!(rt; "a fault that passes"),
    };
    answered(rt, alloc, host.resume(alloc, token, Err(fault), &mut args))
}

fn check_deed(rt: &impl Abort, alloc: Global, host: &mut TableHost, row: &Row) {
    match row.0 {
        Deed::Map => check_text(rt, mapped(rt, alloc, host, row.2), row.3),
        Deed::Value => check_text(rt, went_on(rt, alloc, host, row.1, row.2), row.3),
        Deed::Fault => check_text(rt, failed(rt, alloc, host, row.1, row.2), row.3),
        Deed::Forget => host.forget(row.1),
    }
}

/// What is done with one host, in order, of which the step of this number fails.
fn check_deeds(rt: &impl Abort, alloc: Global, fails: u64, rows: &[Row]) {
    let mut host = TableHost::new(alloc);
    host.fail(fails).expect(rt, "memory");
    for row in rows {
        check_deed(rt, alloc, &mut host, row);
    }
}

/// No step has this number.
const NEVER: u64 = 0;

const COUNTS: [Row; 7] = [
    (Deed::Map, 0, "[]", "[]"),
    (Deed::Map, 0, "array 5", "ask 0 fn(\"f\", 9) [5]"),
    (Deed::Value, 0, "7", "[7]"),
    (
        Deed::Map,
        0,
        "array 1, text b, ()",
        "ask 1 fn(\"f\", 9) [1]",
    ),
    (Deed::Value, 1, "text a", "ask 2 fn(\"f\", 9) [\"b\"]"),
    (Deed::Value, 2, "()", "ask 3 fn(\"f\", 9) [()]"),
    (Deed::Value, 3, "pair", "[\"a\", (), [1, ()]]"),
];

#[test]
fn maps_elements_in_order(rt: HostRuntime) {
    check_deeds(&rt, rt.alloc(), NEVER, &COUNTS);
}

const FAULTS: [Row; 5] = [
    (Deed::Map, 0, "array 1, 2, 3", "ask 0 fn(\"f\", 9) [1]"),
    (Deed::Value, 0, "7", "ask 1 fn(\"f\", 9) [2]"),
    (Deed::Fault, 1, "oops", "ErrorRuntime: Runtime error: oops"),
    (Deed::Value, 1, "7", UNKNOWN),
    (Deed::Fault, 1, "oops", UNKNOWN),
];

#[test]
fn a_fault_is_passed_on(rt: HostRuntime) {
    check_deeds(&rt, rt.alloc(), NEVER, &FAULTS);
}

const FORGOTTEN: [Row; 7] = [
    (Deed::Value, 5, "7", UNKNOWN),
    (Deed::Map, 0, "array 1, 2", "ask 0 fn(\"f\", 9) [1]"),
    (Deed::Forget, 0, "", ""),
    (Deed::Value, 0, "7", UNKNOWN),
    (Deed::Forget, 0, "", ""),
    // No token is given twice.
    (Deed::Map, 0, "array 1", "ask 1 fn(\"f\", 9) [1]"),
    (Deed::Value, 1, "7", "[7]"),
];

#[test]
fn forgets(rt: HostRuntime) {
    check_deeds(&rt, rt.alloc(), NEVER, &FORGOTTEN);
}

const TWICE: [Row; 4] = [
    (Deed::Map, 0, "array 1, 2", "ask 0 fn(\"f\", 9) [1]"),
    (Deed::Value, 0, "7", "ask 1 fn(\"f\", 9) [2]"),
    (Deed::Value, 0, "8", UNKNOWN),
    (Deed::Value, 1, "9", "[7, 9]"),
];

#[test]
fn a_token_is_taken_once(rt: HostRuntime) {
    check_deeds(&rt, rt.alloc(), NEVER, &TWICE);
}

const NESTED: [Row; 6] = [
    (Deed::Map, 0, "array 1, 2", "ask 0 fn(\"f\", 9) [1]"),
    (Deed::Map, 0, "array 3, 4", "ask 1 fn(\"f\", 9) [3]"),
    (Deed::Value, 1, "7", "ask 2 fn(\"f\", 9) [4]"),
    (Deed::Value, 2, "8", "[7, 8]"),
    (Deed::Value, 0, "pair", "ask 3 fn(\"f\", 9) [2]"),
    (Deed::Value, 3, "()", "[[1, ()], ()]"),
];

#[test]
fn calls_wait_within_one_another(rt: HostRuntime) {
    check_deeds(&rt, rt.alloc(), NEVER, &NESTED);
}

const FIRST: &str = "ErrorRuntime: Runtime error: host failure 1";

const SECOND: &str = "ErrorRuntime: Runtime error: host failure 2";

const THIRD: &str = "ErrorRuntime: Runtime error: host failure 3";

const FAILS_AT_FIRST: [Row; 2] = [
    (Deed::Map, 0, "array 1", FIRST),
    (Deed::Map, 0, "array 1", "ask 0 fn(\"f\", 9) [1]"),
];

/// A step that fails leaves its token pending.
const FAILS_BETWEEN: [Row; 4] = [
    (Deed::Map, 0, "array 1, 2", "ask 0 fn(\"f\", 9) [1]"),
    (Deed::Value, 0, "7", SECOND),
    (Deed::Value, 0, "8", "ask 1 fn(\"f\", 9) [2]"),
    (Deed::Value, 1, "9", "[8, 9]"),
];

const FAILS_AT_LAST: [Row; 4] = [
    (Deed::Map, 0, "array 1, 2", "ask 0 fn(\"f\", 9) [1]"),
    (Deed::Value, 0, "7", "ask 1 fn(\"f\", 9) [2]"),
    (Deed::Fault, 1, "oops", THIRD),
    (Deed::Value, 1, "9", "[7, 9]"),
];

#[test]
fn fails_where_it_is_called(rt: HostRuntime) {
    check_deeds(&rt, rt.alloc(), 1, &FAILS_AT_FIRST);
}

#[test]
fn fails_where_it_is_resumed(rt: HostRuntime) {
    check_deeds(&rt, rt.alloc(), 2, &FAILS_BETWEEN);
    check_deeds(&rt, rt.alloc(), 3, &FAILS_AT_LAST);
}

const OTHER_KINDS: [Row; 2] = [(Deed::Map, 0, "7", UNKNOWN), (Deed::Map, 0, "()", UNKNOWN)];

#[test]
fn maps_arrays_alone(rt: HostRuntime) {
    check_deeds(&rt, rt.alloc(), NEVER, &OTHER_KINDS);
}

#[test]
fn a_receiver_stays(rt: HostRuntime) {
    let mut host = TableHost::new(rt.alloc());
    let mut values = Array::new(rt.alloc());
    values
        .push(value_of(&rt, rt.alloc(), "fn f 9"))
        .expect(&rt, "memory");
    let mut args = Args {
        receiver: Some(Held::read_write(value_of(&rt, rt.alloc(), "array 1"))),
        values,
    };
    let answer = answered(&rt, rt.alloc(), host.call(rt.alloc(), 4, &mut args));
    check_text(&rt, answer, "ask 0 fn(\"f\", 9) [1]");
    check_text(&rt, receiver(&rt, rt.alloc(), &args), "[1]");
}
