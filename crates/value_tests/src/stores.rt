//! Cells that are added, lent and given back.

ghost use Rattle.std.specs.Prelude.{◌<◌, length};

use grain_value::{Dynamic, Held, Store};
use std::process::Abort;

fn add(rt: &impl Abort, store: &mut Store, integer: i64) -> usize {
    match store.add(Held::read_write(Dynamic::Int(integer))) {
        Ok(cell) => cell,
        Err(_) => panic!(rt; "memory"),
    }
}

fn integer_in(store: &Store, cell: usize) -> Option<i64>
    requires { cell < length store.now }
{
    match store.get(cell) {
        Ok(held) => held.value.as_int(),
        Err(_) => None,
    }
}

fn check_added(rt: &impl Abort, store: &mut Store) {
    assert!(rt; add(rt, store, 7) == 0);
    assert!(rt; add(rt, store, 8) == 1);
    assert!(rt; store.len() == 2);
    assert!(rt; integer_in(store, 0) == Some(7));
}

/// Lends the second cell, and gives it back with another content.
fn check_lent(rt: &impl Abort, store: &mut Store) {
    assert!(rt; store.len() == 2);
    assert!(rt; store.lend(1).is_ok());
    assert!(rt; store.len() == 2);
    assert!(rt; store.is_busy(1));
    assert!(rt; integer_in(store, 1).is_none());
    let held = Held {
        value: Dynamic::Int(9),
        read_only: true,
    };
    store.give_back(1, held);
}

fn check_given_back(rt: &impl Abort, store: &Store) {
    assert!(rt; store.len() == 2);
    assert!(rt; store.is_read_only(1));
    assert!(rt; !store.is_busy(1));
    assert!(rt; integer_in(store, 1) == Some(9));
}

#[test]
fn cells_are_lent_and_given_back(rt: HostRuntime) {
    let mut store = Store::new(rt.alloc());
    check_added(&rt, &mut store);
    check_lent(&rt, &mut store);
    check_given_back(&rt, &store);
}
