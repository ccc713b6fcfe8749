//! Scopes: variables, their names and their aliases.

use crate::made::text_of;
use grain_value::{Dynamic, Held, Name, Scope};
use std::alloc::Global;
use std::process::Abort;

fn int(integer: i64) -> Held {
    Held::read_write(Dynamic::Int(integer))
}

fn name_of(rt: &impl Abort, alloc: Global, name: &str) -> Name {
    Name::new(alloc, text_of(rt, alloc, name)).expect(rt, "memory")
}

fn push(rt: &impl Abort, alloc: Global, scope: &mut Scope, name: &str, integer: i64) {
    let pushed = scope.push(text_of(rt, alloc, name), int(integer));
    pushed.expect(rt, "memory");
}

/// An entry that has its name from elsewhere, and its value too.
fn push_moved(rt: &impl Abort, alloc: Global, scope: &mut Scope, name: &str, integer: i64) {
    let name = name_of(rt, alloc, name);
    let mut held = int(integer);
    let pushed = scope.push_moved(&name, &mut held);
    pushed.expect(rt, "memory");
}

fn push_shared(rt: &impl Abort, alloc: Global, scope: &mut Scope, name: &str, integer: i64) {
    let name = name_of(rt, alloc, name);
    let pushed = scope.push_shared(&name, int(integer));
    pushed.expect(rt, "memory");
}

fn add_alias(rt: &impl Abort, alloc: Global, scope: &mut Scope, alias: &str) {
    let alias = text_of(rt, alloc, alias);
    assert!(rt; scope.len() == 1);
    let added = scope.add_alias_by_index(0, alias);
    added.expect(rt, "memory");
}

fn integer_at(scope: &Scope, index: usize) -> Option<i64> {
    match scope.get(index) {
        Some(held) => held.value.as_int(),
        None => None,
    }
}

/// The alias at the place among those of the first variable.
fn alias(scope: &Scope, place: usize) -> Option<&str> {
    match scope.aliases(0)?.get(place) {
        Some(alias) => Some(alias.as_str()),
        None => None,
    }
}

/// Compares the second variable of the name `a`, and where the name is found as variables go.
fn check_variables(rt: &impl Abort, scope: &mut Scope) {
    assert!(rt; scope.search("a") == Some(2));
    assert!(rt; integer_at(scope, 2) == Some(3));
    scope.remove_range(0, 2);
    assert!(rt; scope.search("a") == Some(0));
    scope.remove_range(1, usize::MAX);
    assert!(rt; scope.len() == 1);
}

#[test]
fn scopes_hold_variables(rt: HostRuntime) {
    let mut scope = Scope::new(rt.alloc());
    push(&rt, rt.alloc(), &mut scope, "a", 1);
    push(&rt, rt.alloc(), &mut scope, "b", 2);
    push(&rt, rt.alloc(), &mut scope, "a", 3);
    push(&rt, rt.alloc(), &mut scope, "c", 4);
    check_variables(&rt, &mut scope);
}

fn check_aliases(rt: &impl Abort, scope: &Scope) {
    assert!(rt; alias(scope, 0) == Some("x"));
    assert!(rt; alias(scope, 1) == Some("y"));
    assert!(rt; alias(scope, 2).is_none());
}

/// Compares the two variables that were put where another one was.
fn check_others(rt: &impl Abort, scope: &Scope) {
    assert!(rt; scope.search("a").is_none());
    assert!(rt; scope.search("d") == Some(1));
    assert!(rt; integer_at(scope, 0) == Some(2));
    assert!(rt; integer_at(scope, 1) == Some(3));
    assert!(rt; alias(scope, 0).is_none());
}

#[test]
fn spare_slots_are_not_seen(rt: HostRuntime) {
    let mut scope = Scope::new(rt.alloc());
    push(&rt, rt.alloc(), &mut scope, "a", 1);
    add_alias(&rt, rt.alloc(), &mut scope, "x");
    add_alias(&rt, rt.alloc(), &mut scope, "y");
    add_alias(&rt, rt.alloc(), &mut scope, "x");
    check_aliases(&rt, &scope);
    scope.rewind(0);
    push_moved(&rt, rt.alloc(), &mut scope, "c", 2);
    push_shared(&rt, rt.alloc(), &mut scope, "d", 3);
    check_others(&rt, &scope);
}
