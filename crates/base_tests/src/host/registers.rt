//! The natives of the registers of the host in memory.

use super::{UNKNOWN, args_of, called, kinds_of, receiver};
use crate::made::{array, check_text, value_of};
use grain_host::{Args, Host, TableHost};
use grain_value::{Held, Native};
use std::alloc::Global;
use std::process::Abort;

/// The key of a native, its arguments, and its answer.
type Row = (u64, &'static str, &'static str);

/// Compares one call.
fn check_call(rt: &impl Abort, alloc: Global, host: &mut TableHost, row: &Row) {
    let mut args = args_of(array(rt, alloc, row.1));
    check_text(rt, called(rt, alloc, host, row.0, &mut args), row.2);
}

/// Compares calls of one host, in order.
fn check_calls(rt: &impl Abort, alloc: Global, rows: &[Row]) {
    let mut host = TableHost::new(alloc);
    for row in rows {
        check_call(rt, alloc, &mut host, row);
    }
}

const VALUES: [Row; 8] = [
    (6, "0", "foreign(16, 0)"),
    (6, "255", "foreign(16, 255)"),
    (6, "256", "ErrorIndexNotFound: Invalid index: 256"),
    (6, "-1", "ErrorIndexNotFound: Invalid index: -1"),
    (7, "256", "foreign(17, 256)"),
    (7, "-1", "ErrorIndexNotFound: Invalid index: -1"),
    (8, "9", "foreign(18, 9)"),
    (8, "-9", "ErrorIndexNotFound: Invalid index: -9"),
];

#[test]
fn registers_and_banks_as_values(rt: HostRuntime) {
    check_calls(&rt, rt.alloc(), &VALUES);
}

const ACCESSES: [Row; 11] = [
    (10, "foreign 16 255", "0"),
    (11, "foreign 16 255, 7", "()"),
    (10, "foreign 16 255", "7"),
    (10, "foreign 16 254", "0"),
    // The number of a bank says nothing of its registers.
    (12, "foreign 17 9, 255", "7"),
    (13, "foreign 17 9, 0, -5", "()"),
    (13, "foreign 18 9, 1, 6", "()"),
    (12, "foreign 17 0, 0", "-5"),
    (12, "foreign 17 0, 1", "6"),
    (10, "foreign 16 0", "-5"),
    (10, "foreign 16 9", "0"),
];

#[test]
fn registers_are_read_and_written(rt: HostRuntime) {
    check_calls(&rt, rt.alloc(), &ACCESSES);
}

const NO_SUCH_REGISTER: [Row; 6] = [
    (
        10,
        "foreign 16 256",
        "ErrorIndexNotFound: Invalid index: foreign(16, 256)",
    ),
    (
        11,
        "foreign 16 256, 7",
        "ErrorIndexNotFound: Invalid index: foreign(16, 256)",
    ),
    (
        12,
        "foreign 17 0, 256",
        "ErrorIndexNotFound: Invalid index: 256",
    ),
    (
        12,
        "foreign 17 0, -1",
        "ErrorIndexNotFound: Invalid index: -1",
    ),
    (
        13,
        "foreign 17 0, -1, 7",
        "ErrorIndexNotFound: Invalid index: -1",
    ),
    (
        13,
        "foreign 18 0, 256, 7",
        "ErrorIndexNotFound: Invalid index: 256",
    ),
];

#[test]
fn there_is_no_such_register(rt: HostRuntime) {
    check_calls(&rt, rt.alloc(), &NO_SUCH_REGISTER);
}

const OTHER_ARGUMENTS: [Row; 9] = [
    (6, "true", UNKNOWN),
    (7, "0, 0", UNKNOWN),
    (9, "0", UNKNOWN),
    (10, "foreign 17 0", UNKNOWN),
    (10, "foreign 16 0, 0", UNKNOWN),
    (11, "foreign 16 0, true", UNKNOWN),
    // What can only be written has no reader.
    (12, "foreign 18 0, 0", UNKNOWN),
    (13, "foreign 16 0, 0, 0", UNKNOWN),
    (13, "foreign 17 0, 0, 0, 0", UNKNOWN),
];

#[test]
fn other_arguments_are_unknown(rt: HostRuntime) {
    check_calls(&rt, rt.alloc(), &OTHER_ARGUMENTS);
}

#[test]
fn a_receiver_is_the_first_argument(rt: HostRuntime) {
    let mut host = TableHost::new(rt.alloc());
    let mut args = Args {
        receiver: Some(Held::read_write(value_of(&rt, rt.alloc(), "foreign 16 3"))),
        values: array(&rt, rt.alloc(), "7"),
    };
    let answer = called(&rt, rt.alloc(), &mut host, 11, &mut args);
    check_text(&rt, answer, "()");
    check_text(&rt, receiver(&rt, rt.alloc(), &args), "foreign(16, 3)");
    check_call(&rt, rt.alloc(), &mut host, &(10, "foreign 16 3", "7"));
}

/// A name, the kinds of the arguments, and the key of the native.
type Resolved = (&'static str, &'static [u32], Option<u64>);

const RESOLVED: [Resolved; 14] = [
    ("register", &[2], Some(6)),
    ("bank", &[2], Some(7)),
    ("write_bank", &[2], Some(8)),
    ("get$value", &[16], Some(10)),
    ("set$value", &[16, 2], Some(11)),
    ("index$get$", &[17, 2], Some(12)),
    ("index$set$", &[17, 2, 2], Some(13)),
    ("index$set$", &[18, 2, 2], Some(13)),
    ("register", &[4], None),
    ("get$value", &[17], None),
    ("set$value", &[16], None),
    ("index$get$", &[18, 2], None),
    ("index$set$", &[16, 2, 2], None),
    ("countdown", &[2], None),
];

/// Compares a native, which does not write its first argument.
fn check_resolved(rt: &impl Abort, alloc: Global, row: &Resolved) {
    let kinds = kinds_of(rt, alloc, row.1);
    let native = TableHost::new(alloc).resolve(row.0, &kinds);
    assert!(rt; native == row.2.map(|key| Native { key, writes: false }));
}

#[test]
fn resolves(rt: HostRuntime) {
    for row in &RESOLVED {
        check_resolved(&rt, rt.alloc(), row);
    }
}
