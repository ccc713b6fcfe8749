//! An engine and its first state, with memory enough, and how large it lets a value be.

use crate::made::{check_text, value_of};
use crate::raised::named_text;
use grain_fault::RhaiResultOf;
use grain_global::{Engine, GlobalRuntimeState};
use grain_value::{Dynamic, Held, Limits, Store};
use std::alloc::Global;
use std::process::Abort;

const LIMITS: Limits = Limits {
    operations: 7,
    levels: 64,
    variables: 10,
    modules: 0,
    text: 0,
    array: 0,
    map: 0,
};

fn check_state(rt: &impl Abort, state: &GlobalRuntimeState) {
    assert!(rt; state.num_operations() == 0);
    assert!(rt; state.level == 0);
}

#[test]
fn an_engine_begins_with_nothing_run(rt: HostRuntime) {
    let engine = Engine::new(rt.alloc(), LIMITS);
    assert!(rt; engine.fast_operators);
    assert!(rt; !engine.strict_properties);
    assert!(rt; engine.limits.operations == 7);
    let state = engine
        .new_global_runtime_state(rt.alloc())
        .expect(&rt, "memory");
    check_state(&rt, &state);
}

const TEXT: &str = "ErrorDataTooLarge: Length of string too large";

const ARRAY: &str = "ErrorDataTooLarge: Size of array/BLOB too large";

const MAP: &str = "ErrorDataTooLarge: Size of object map too large";

/// The limits of texts, arrays and maps, a value, and the fault that it is too large, if any.
type SizeRow = ((usize, usize, usize), &'static str, &'static str);

const SIZES: [SizeRow; 18] = [
    ((0, 0, 0), "array text abc, blob 1 2 3", ""),
    ((0, 0, 0), "map a text abc, b blob 1 2 3", ""),
    ((3, 0, 0), "text abc", ""),
    ((2, 0, 0), "text abc", TEXT),
    ((1, 0, 0), "text é", TEXT),
    ((3, 0, 0), "array text ab, text cd", TEXT),
    ((2, 0, 0), "blob 1 2 3", ""),
    ((0, 3, 0), "blob 1 2 3", ""),
    ((0, 2, 0), "blob 1 2 3", ARRAY),
    ((0, 4, 0), "array 1, pair", ""),
    ((0, 3, 0), "array 1, pair", ARRAY),
    ((0, 0, 1), "map a 1", ""),
    ((0, 0, 1), "map a 1, b 2", MAP),
    ((2, 1, 0), "array text abc, 1", TEXT),
    ((3, 1, 0), "array text abc, 1", ARRAY),
    ((0, 3, 1), "map a blob 1 2 3, b 1", ARRAY),
    ((2, 0, 1), "map a text abc, b 1", TEXT),
    ((1, 1, 1), "7", ""),
];

/// An engine whose values may have `bytes` bytes of texts, elements and entries.
fn sized_engine(alloc: Global, sizes: (usize, usize, usize)) -> Engine {
    let limits = Limits {
        text: sizes.0,
        array: sizes.1,
        map: sizes.2,
        ..LIMITS
    };
    Engine::new(alloc, limits)
}

fn check_size(rt: &impl Abort, alloc: Global, row: &SizeRow) {
    let engine = sized_engine(alloc, row.0);
    let mut cells = Store::new(alloc);
    let value = value_of(rt, alloc, row.1);
    let answer = engine.ensure_data_size_within_limits(alloc, &value, &cells);
    check_answer(rt, alloc, answer, row.2);
    let cell = match cells.add(Held::read_write(value)) {
        Ok(cell) => Dynamic::Cell(cell),
        Err(_) => panic!(rt; "memory"),
    };
    let answer = engine.ensure_data_size_within_limits(alloc, &cell, &cells);
    check_answer(rt, alloc, answer, row.2);
}

fn check_answer(rt: &impl Abort, alloc: Global, answer: RhaiResultOf<()>, fault: &str) {
    match answer {
        Ok(()) => assert_eq!(rt; fault, ""),
        Err(raised) => check_text(rt, named_text(rt, alloc, &raised), fault),
    }
}

/// A value counts with all that it holds, and a cell as what it holds.
#[test]
fn values_keep_to_the_limits_of_sizes(rt: HostRuntime) {
    for row in &SIZES {
        check_size(&rt, rt.alloc(), row);
    }
}
