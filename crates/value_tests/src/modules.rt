//! What stands in modules.

use crate::made::text_of;
use grain_module::{Module, ModuleEntry, ModuleTable, SharedModule};
use grain_value::{Dynamic, Kinds, Native, OutOfMemory};
use std::alloc::Global;
use std::process::Abort;

fn native(key: u64) -> Native {
    Native { key, writes: false }
}

/// One kind.
fn kinds(rt: &impl Abort, alloc: Global, kind: u32) -> Kinds {
    let mut kinds = Kinds::new(alloc);
    kinds.push(kind).expect(rt, "memory");
    kinds
}

/// The kinds from 1 to 5.
fn five_kinds(rt: &impl Abort, alloc: Global) -> Kinds {
    let mut kinds = Kinds::new(alloc);
    for kind in [1, 2, 3, 4, 5] {
        kinds.push(kind).expect(rt, "memory");
    }
    kinds
}

#[test]
fn more_than_four_kinds(rt: HostRuntime) {
    let kinds = five_kinds(&rt, rt.alloc());
    assert!(rt; kinds.len() == 5);
    assert!(rt; kinds.as_slice() == [1, 2, 3, 4, 5].as_slice());
    assert!(rt; kinds.get(4) == Some(&5));
    assert!(rt; kinds.get(5).is_none());
    assert!(rt; Kinds::new(rt.alloc()).is_empty());
}

fn push_var(rt: &impl Abort, alloc: Global, module: &mut Module, name: &str, integer: i64) {
    let name = text_of(rt, alloc, name);
    let pushed = module.push_var(name, Dynamic::Int(integer));
    pushed.expect(rt, "memory");
}

/// The function `f` for one argument of this kind.
fn push_fn(rt: &impl Abort, alloc: Global, module: &mut Module, key: u64, kind: u32, global: bool) {
    let name = text_of(rt, alloc, "f");
    let kinds = kinds(rt, alloc, kind);
    let pushed = module.push_fn(name, kinds, native(key), global);
    pushed.expect(rt, "memory");
}

fn fill(rt: &impl Abort, alloc: Global, module: &mut Module) {
    push_var(rt, alloc, module, "a", 1);
    push_var(rt, alloc, module, "b", 2);
    push_var(rt, alloc, module, "a", 3);
    push_fn(rt, alloc, module, 1, 2, false);
    push_fn(rt, alloc, module, 2, 2, true);
    push_fn(rt, alloc, module, 3, 4, false);
}

fn check_variables(rt: &impl Abort, module: &Module) {
    assert!(rt; matches!(module.get_var("a"), Some(Dynamic::Int(1))));
    assert!(rt; module.get_var("c").is_none());
}

fn check_functions(rt: &impl Abort, module: &Module, ints: &Kinds, texts: &Kinds) {
    assert!(rt; module.get_fn("f", ints) == Some(native(1)));
    assert!(rt; module.get_fn("f", texts) == Some(native(3)));
    assert!(rt; module.get_fn("g", ints).is_none());
    assert!(rt; module.get_global_fn("f", ints) == Some(native(2)));
    assert!(rt; module.get_global_fn("f", texts).is_none());
}

#[test]
fn the_first_of_a_name_counts(rt: HostRuntime) {
    let mut module = Module::new(rt.alloc());
    fill(&rt, rt.alloc(), &mut module);
    check_variables(&rt, &module);
    let ints = kinds(&rt, rt.alloc(), 2);
    let texts = kinds(&rt, rt.alloc(), 4);
    check_functions(&rt, &module, &ints, &texts);
}

/// A module of the name `m` with two iterators of a kind.
fn shared(alloc: Global) -> Result<SharedModule, OutOfMemory> {
    let mut module = Module::new(alloc);
    module.set_id("m")?;
    module.push_iter(16, 1)?;
    module.push_iter(16, 2)?;
    module.share(alloc)
}

/// A table with this module under the path `p`.
fn table(rt: &impl Abort, alloc: Global, module: &SharedModule) -> ModuleTable {
    let module = module.share().expect(rt, "memory");
    let path = text_of(rt, alloc, "p");
    let mut table = ModuleTable::new(alloc);
    table
        .push(ModuleEntry { path, module })
        .expect(rt, "memory");
    table
}

fn id(module: &Module) -> &str {
    match module.id() {
        Some(text) => text.as_str(),
        None => "",
    }
}

fn check_iterators(rt: &impl Abort, module: &Module) {
    assert!(rt; module.get_iter(16) == Some(1));
    assert!(rt; module.get_iter(17).is_none());
}

fn check_table(rt: &impl Abort, table: &ModuleTable) {
    assert!(rt; table.len() == 1);
    assert!(rt; id(table.at(0).module.module()) == "m");
    assert!(rt; table.at(0).path.as_str() == "p");
}

#[test]
fn modules_are_shared(rt: HostRuntime) {
    let shared = shared(rt.alloc()).expect(&rt, "memory");
    check_iterators(&rt, shared.module());
    let table = table(&rt, rt.alloc(), &shared);
    check_table(&rt, &table);
}
