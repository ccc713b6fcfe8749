//! How deep values nest.

use crate::made::quoted;
use crate::paths::replaced_at;
use grain_value::{
    Array, Dynamic, MOST_LEVELS, Map, OutOfMemory, Path, PathStep, Store, Text, calc_data_sizes,
};
use std::alloc::Global;

/// A value within `levels` arrays.
fn nested(alloc: Global, levels: usize) -> Result<Dynamic, OutOfMemory> {
    let mut value = Dynamic::Unit;
    for _ in 0..levels {
        let mut array = Array::new(alloc);
        array.push(value)?;
        value = Dynamic::Array(array);
    }
    Ok(value)
}

/// Whether a map takes this value.
fn map_takes(alloc: Global, value: Dynamic) -> bool {
    let mut map = Map::new(alloc);
    let refused = map.insert(Text::new(alloc), value).is_err();
    !refused || !map.is_empty()
}

#[test]
fn values_nest_so_deep_and_no_deeper(rt: HostRuntime) {
    assert!(rt; nested(rt.alloc(), MOST_LEVELS + 1).is_err());
    let deepest = nested(rt.alloc(), MOST_LEVELS).expect(&rt, "memory");
    assert!(rt; !map_takes(rt.alloc(), deepest));
}

#[test]
fn copies_nest_as_deep(rt: HostRuntime) {
    let deepest = nested(rt.alloc(), MOST_LEVELS).expect(&rt, "memory");
    let copy = deepest.copy(rt.alloc()).expect(&rt, "memory");
    let text = quoted(&rt, rt.alloc(), &copy);
    assert!(rt; text.len() == 2 * 1024 + 2);
}

/// The path to the first element of the first element, and so on.
fn first_of_first(alloc: Global, steps: usize) -> Result<Path, OutOfMemory> {
    let mut path = Path::new(alloc);
    for _ in 0..steps {
        path.push(PathStep::Index(0))?;
    }
    Ok(path)
}

#[test]
fn what_is_put_inside_nests_twice_as_deep_and_is_not_copied(rt: HostRuntime) {
    let alloc = rt.alloc();
    let mut value = nested(alloc, MOST_LEVELS).expect(&rt, "memory");
    let path = first_of_first(alloc, MOST_LEVELS).expect(&rt, "memory");
    let inner = nested(alloc, MOST_LEVELS).expect(&rt, "memory");
    drop(replaced_at(&rt, alloc, &mut value, &path, inner));
    let text = quoted(&rt, alloc, &value);
    assert!(rt; text.len() == 4 * MOST_LEVELS + 2);
    let sizes = calc_data_sizes(&value, &Store::new(alloc));
    assert!(rt; sizes.0 == 2 * MOST_LEVELS);
    assert!(rt; value.copy(alloc).is_err());
    drop(value);
}
