//! How much values hold, and cells with them.

use crate::made::value_of;
use grain_value::{Dynamic, Held, Store, calc_array_sizes, calc_data_sizes, calc_map_sizes};
use std::alloc::Global;
use std::process::Abort;

/// Elements of arrays, values of maps and bytes of texts.
type Sizes = (usize, usize, usize);

/// A value, and how much it holds.
type Row = (&'static str, Sizes);

const ROWS: [Row; 9] = [
    ("()", (0, 0, 0)),
    ("1", (0, 0, 0)),
    ("text é", (0, 0, 2)),
    ("blob 1 2 3", (3, 0, 0)),
    ("array blob 1 2 3", (5, 0, 0)),
    ("array text ab, pair", (4, 0, 2)),
    ("map a blob 1 2 3", (4, 1, 0)),
    ("map a text ab, b pair", (2, 2, 2)),
    ("fn f text ab", (0, 0, 0)),
];

fn check_row(rt: &impl Abort, alloc: Global, row: &Row) {
    let mut cells = Store::new(alloc);
    let value = value_of(rt, alloc, row.0);
    check_value(rt, &value, &cells, row.1);
    let kind = value.kind(&cells);
    let cell = cell_of(rt, &mut cells, value);
    check_cell(rt, cell, &cells, kind, row.1);
}

fn check_value(rt: &impl Abort, value: &Dynamic, cells: &Store, sizes: Sizes) {
    assert!(rt; calc_data_sizes(value, cells) == sizes);
    match value {
        Dynamic::Array(array) => assert!(rt; calc_array_sizes(array) == sizes),
        Dynamic::Map(map) => assert!(rt; calc_map_sizes(map) == sizes),
        _ => {}
    }
}

fn cell_of(rt: &impl Abort, cells: &mut Store, content: Dynamic) -> usize {
    match cells.add(Held::read_write(content)) {
        Ok(cell) => cell,
        Err(_) => panic!(rt; "memory"),
    }
}

/// A cell counts as its content.
fn check_cell(rt: &impl Abort, cell: usize, cells: &Store, kind: u32, sizes: Sizes) {
    let cell = Dynamic::Cell(cell);
    assert!(rt; calc_data_sizes(&cell, cells) == sizes);
    assert!(rt; cell.kind(cells) == kind);
}

#[test]
fn values_and_cells_have_sizes(rt: HostRuntime) {
    for row in &ROWS {
        check_row(&rt, rt.alloc(), row);
    }
}
