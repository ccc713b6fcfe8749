//! Faults: classes, names, texts, dumped fields, places and wrappers.

mod catchable;
mod chains;
mod endings;
mod places;
mod wrapped;

use crate::made::{check_text, map, quoted, text_of};
use crate::raised::{Kind, fault_of, fault_text};
use grain_fault::{EvalAltResult, Fault, Faults, Position};
use grain_value::{Dynamic, Map};
use std::alloc::Global;
use std::process::Abort;

/// What may be done with a fault.
#[derive(Clone, Copy)]
enum Class {
    Catchable,
    System,
    Pseudo,
}

/// A fault and what it is of, its text and its dumped fields.
type Row = (Kind, &'static str, &'static str, &'static str);

/// Compares what rows say of faults of this class.
fn check_rows(rt: &impl Abort, alloc: Global, class: Class, rows: &[Row]) {
    for row in rows {
        check_row(rt, alloc, class, row);
    }
}

fn check_row(rt: &impl Abort, alloc: Global, class: Class, row: &Row) {
    let fault = fault_of(rt, alloc, row.0, row.1);
    check_fault(rt, alloc, class, &fault, (row.2, row.3));
}

/// Compares a fault's class, its text and its dumped fields, and its name with that in the fields.
fn check_fault(
    rt: &impl Abort,
    alloc: Global,
    class: Class,
    fault: &EvalAltResult,
    (text, fields): (&str, &str),
) {
    check_class(rt, class, fault);
    check_text(rt, fault_text(rt, alloc, fault), text);
    let map = dumped(rt, Map::new(alloc), fault);
    assert!(rt; is_named(&map, fault.name()));
    check_dumped(rt, alloc, map, fields);
}

fn check_class(rt: &impl Abort, class: Class, fault: &EvalAltResult) {
    assert!(rt; fault.is_catchable() == matches!(class, Class::Catchable));
    assert!(rt; fault.is_system_exception() == matches!(class, Class::System));
    assert!(rt; fault.is_pseudo_error() == matches!(class, Class::Pseudo));
}

/// The map with the fields of the fault.
fn dumped(rt: &impl Abort, map: Map, fault: &EvalAltResult) -> Map {
    let mut map = map;
    fault.dump_fields(&mut map).expect(rt, "memory");
    map
}

fn is_named(map: &Map, name: &str) -> bool {
    match map.get("error") {
        Some(Dynamic::Text(text)) => text.as_str() == name,
        _ => false,
    }
}

fn check_dumped(rt: &impl Abort, alloc: Global, map: Map, fields: &str) {
    check_text(rt, quoted(rt, alloc, &Dynamic::Map(map)), fields);
}

#[test]
fn a_text_is_put_at_the_end(rt: HostRuntime) {
    let mut out = text_of(&rt, rt.alloc(), "At once: ");
    let fault = EvalAltResult::from_text(rt.alloc(), "boom").expect(&rt, "memory");
    fault.write_text(&mut out).expect(&rt, "memory");
    check_text(&rt, out, "At once: Runtime error: boom");
}

#[test]
fn fields_are_put_beside_others(rt: HostRuntime) {
    let map = map(&rt, rt.alloc(), "error 1, x 2");
    let fault = EvalAltResult::ErrorFor(Position::NONE);
    let map = dumped(&rt, map, &fault);
    check_dumped(&rt, rt.alloc(), map, r#"#{"error": "ErrorFor", "x": 2}"#);
}

fn check_trace(rt: &impl Abort, trace: &mut Faults, frame: &Fault) {
    assert!(rt; trace.get(0) == Some(frame));
    trace.clear();
    assert!(rt; trace.is_empty());
}

#[test]
fn traces_grow(rt: HostRuntime) {
    let frame = Fault {
        address: 12,
        slot: None,
    };
    let mut trace = Faults::new(rt.alloc());
    trace.push(frame).expect(&rt, "memory");
    check_trace(&rt, &mut trace, &frame);
}
