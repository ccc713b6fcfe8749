//! Where faults are: how a place is printed, put, taken and filled.

use crate::raised::{Kind, OfText, OfTexts, OfValue, Plain, fault_of};
use grain_fault::{EvalAltResult, Position};
use std::alloc::Global;
use std::process::Abort;

const NONE: Position = Position::NONE;

/// A fault and what it is of, and its text without a position, at line 2, column 7, and at the start
/// of line 3.
type Row = (Kind, &'static str, &'static str, &'static str, &'static str);

const ROWS: [Row; 8] = [
    (
        Kind::Text(OfText::FunctionNotFound),
        "f (i64)",
        "Function not found: f (i64)",
        "Function not found: f (i64) (line 2, position 7)",
        "Function not found: f (i64) (line 3)",
    ),
    (
        Kind::Texts(OfTexts::OutputType),
        "bool|i64",
        "Output type incorrect: i64 (expecting bool)",
        "Output type incorrect: i64 (expecting bool) (line 2, position 7)",
        "Output type incorrect: i64 (expecting bool) (line 3)",
    ),
    (
        Kind::Text(OfText::Arithmetic),
        "",
        "Arithmetic error",
        "Arithmetic error (line 2, position 7)",
        "Arithmetic error (line 3)",
    ),
    (
        Kind::ArrayBounds(1, 4),
        "",
        "Array index 4 out of bounds: only 1 element in array",
        "Array index 4 out of bounds: only 1 element in array (line 2, position 7)",
        "Array index 4 out of bounds: only 1 element in array (line 3)",
    ),
    (
        Kind::Value(OfValue::Break),
        "()",
        "'break' must be within a loop",
        "'break' must be within a loop (line 2, position 7)",
        "'break' must be within a loop (line 3)",
    ),
    (
        Kind::Plain(Plain::TooManyOperations),
        "",
        "Too many operations",
        "Too many operations (line 2, position 7)",
        "Too many operations (line 3)",
    ),
    (
        Kind::Texts(OfTexts::System),
        "log|disk is full",
        "log: disk is full",
        "log: disk is full",
        "log: disk is full",
    ),
    (
        Kind::Plain(Plain::Memory),
        "",
        "Out of memory",
        "Out of memory",
        "Out of memory",
    ),
];

fn check_row(rt: &impl Abort, alloc: Global, row: &Row) {
    let mut fault = fault_of(rt, alloc, row.0, row.1);
    check_places(rt, alloc, &mut fault, row);
}

fn check_places(rt: &impl Abort, alloc: Global, fault: &mut EvalAltResult, row: &Row) {
    check_printed(rt, alloc, fault, row.2);
    fault.set_position(Position::new(2, 7));
    check_printed(rt, alloc, fault, row.3);
    fault.set_position(Position::new(3, 0));
    check_printed(rt, alloc, fault, row.4);
}

fn check_printed(rt: &impl Abort, alloc: Global, fault: &EvalAltResult, expected: &str) {
    let text = fault.to_string(alloc).expect(rt, "memory");
    assert_eq!(rt; text.as_str(), expected);
}

#[test]
fn places_are_printed(rt: HostRuntime) {
    for row in &ROWS {
        check_row(&rt, rt.alloc(), row);
    }
}

fn check_taken(rt: &impl Abort, fault: &mut EvalAltResult, place: Position) {
    assert!(rt; fault.take_position() == place);
    assert!(rt; fault.position() == NONE);
}

fn check_cleared(rt: &impl Abort, fault: &mut EvalAltResult, place: Position) {
    assert!(rt; fault.position() == place);
    fault.clear_position();
    assert!(rt; fault.position() == NONE);
}

#[test]
fn places_are_taken_and_filled(rt: HostRuntime) {
    let place = Position::new(2, 7);
    let mut fault = EvalAltResult::ErrorFor(place);
    check_taken(&rt, &mut fault, place);
    let mut fault = fault
        .fill_position(place)
        .fill_position(Position::new(3, 0));
    check_cleared(&rt, &mut fault, place);
}

fn check_line(rt: &impl Abort, place: Position, line: Option<usize>, column: Option<usize>) {
    assert!(rt; place.is_none() == line.is_none());
    assert!(rt; place.line() == line);
    assert!(rt; place.position() == column);
}

#[test]
fn places_have_a_line(rt: HostRuntime) {
    check_line(&rt, NONE, None, None);
    check_line(&rt, Position::new(2, 7), Some(2), Some(7));
    check_line(&rt, Position::new(3, 0), Some(3), None);
}
