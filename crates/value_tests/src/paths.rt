//! Places inside values, and what an index names.

use grain_value::{Array, Blob, Dynamic, Map, OutOfMemory, Path, PathStep, Spot, Text, ValueFault};
use std::alloc::Global;
use std::process::Abort;

// `[1, #{"k": [2]}]`.
fn nested(alloc: Global) -> Result<Dynamic, OutOfMemory> {
    let mut inner = Array::new(alloc);
    inner.push(Dynamic::Int(2))?;
    let mut map = Map::new(alloc);
    drop(map.insert(Text::copy_of(alloc, "k")?, Dynamic::Array(inner))?);
    let mut outer = Array::new(alloc);
    outer.push(Dynamic::Int(1))?;
    outer.push(Dynamic::Map(map))?;
    Ok(Dynamic::Array(outer))
}

// The path `[first].key[last]`.
fn path(alloc: Global, first: usize, key: &str, last: usize) -> Result<Path, OutOfMemory> {
    let mut path = Path::new(alloc);
    path.push(PathStep::Index(first))?;
    path.push(PathStep::Key(Text::copy_of(alloc, key)?))?;
    path.push(PathStep::Index(last))?;
    Ok(path)
}

/// Takes what stands at the end of a path, which has to lead there.
fn taken_at(rt: &impl Abort, alloc: Global, value: &mut Dynamic, path: &Path) -> Dynamic {
    match value.read_at(alloc, path) {
        Ok(_) => value.take_at(path),
        Err(_) => panic!(rt; "the path leads nowhere"),
    }
}

/// Puts a value at the end of a path, which has to lead there.
pub(super) fn replaced_at(
    rt: &impl Abort,
    alloc: Global,
    value: &mut Dynamic,
    path: &Path,
    new: Dynamic,
) -> Dynamic {
    match value.read_at(alloc, path) {
        Ok(_) => value.put_at(path, new),
        Err(_) => panic!(rt; "the path leads nowhere"),
    }
}

fn is_written(
    rt: &impl Abort,
    alloc: Global,
    value: &Dynamic,
    quoted: &str,
) -> Result<(), OutOfMemory> {
    let mut text = Text::new(alloc);
    value.write_quoted(&mut text)?;
    assert!(rt; text.as_str() == quoted);
    Ok(())
}

#[test]
fn values_are_read_at_a_path(rt: HostRuntime) -> Result<(), ValueFault> {
    let alloc = rt.alloc();
    let value = nested(alloc)?;
    let read = value.read_at(alloc, &path(alloc, 1, "k", 0)?)?;
    is_written(&rt, alloc, &read, "2")?;
    let whole = value.read_at(alloc, &Path::new(alloc))?;
    is_written(&rt, alloc, &whole, "[1, #{\"k\": [2]}]")?;
    Ok(())
}

#[test]
fn a_path_that_leads_nowhere_says_why(rt: HostRuntime) -> Result<(), OutOfMemory> {
    let alloc = rt.alloc();
    let value = nested(alloc)?;
    for (first, key, last, fault) in [
        (
            2,
            "k",
            0,
            ValueFault::Bounds {
                length: 2,
                index: 2,
            },
        ),
        (1, "l", 0, ValueFault::NoKey),
        (0, "k", 0, ValueFault::NotIndexable),
        (
            1,
            "k",
            1,
            ValueFault::Bounds {
                length: 1,
                index: 1,
            },
        ),
    ] {
        let read = value.read_at(alloc, &path(alloc, first, key, last)?);
        assert!(rt; matches!(read, Err(found) if found == fault));
    }
    Ok(())
}

#[test]
fn values_are_taken_and_put_at_a_path(rt: HostRuntime) -> Result<(), OutOfMemory> {
    let alloc = rt.alloc();
    let mut value = nested(alloc)?;
    let path = path(alloc, 1, "k", 0)?;
    let taken = taken_at(&rt, alloc, &mut value, &path);
    is_written(&rt, alloc, &taken, "2")?;
    is_written(&rt, alloc, &value, "[1, #{\"k\": [()]}]")?;
    let inner = nested(alloc)?;
    drop(replaced_at(&rt, alloc, &mut value, &path, inner));
    is_written(&rt, alloc, &value, "[1, #{\"k\": [[1, #{\"k\": [2]}]]}]")
}

#[test]
fn indices_count_from_both_ends(rt: HostRuntime) -> Result<(), OutOfMemory> {
    let alloc = rt.alloc();
    let value = nested(alloc)?;
    assert!(rt; value.locate(&Dynamic::Int(1)) == Ok(Spot::Item(1)));
    assert!(rt; value.locate(&Dynamic::Int(-2)) == Ok(Spot::Item(0)));
    for index in [2, -3, i64::MIN] {
        let fault = ValueFault::Bounds { length: 2, index };
        assert!(rt; value.locate(&Dynamic::Int(index)) == Err(fault));
    }
    assert!(rt; Dynamic::Int(5).locate(&Dynamic::Int(-64)) == Ok(Spot::Bit(0)));
    Ok(())
}

#[test]
fn texts_are_indexed_by_characters(rt: HostRuntime) -> Result<(), OutOfMemory> {
    let alloc = rt.alloc();
    let text = Dynamic::Text(Text::copy_of(alloc, "aéb")?);
    assert!(rt; text.locate(&Dynamic::Int(2)) == Ok(Spot::Character(2)));
    let fault = ValueFault::Bounds {
        length: 3,
        index: 3,
    };
    assert!(rt; text.locate(&Dynamic::Int(3)) == Err(fault));
    let mut blob = Blob::new(alloc);
    blob.push(7)?;
    assert!(rt; Dynamic::Blob(blob).locate(&Dynamic::Int(-1)) == Ok(Spot::Byte(0)));
    Ok(())
}

#[test]
fn an_index_has_the_type_that_is_asked_for(rt: HostRuntime) -> Result<(), OutOfMemory> {
    let alloc = rt.alloc();
    let key = Dynamic::Text(Text::copy_of(alloc, "k")?);
    assert!(rt; nested(alloc)?.locate(&key) == Err(ValueFault::WrongType));
    let mut map = Map::new(alloc);
    assert!(rt; Dynamic::Map(Map::new(alloc)).locate(&key) == Err(ValueFault::NoKey));
    drop(map.insert(Text::copy_of(alloc, "k")?, Dynamic::Unit)?);
    let map = Dynamic::Map(map);
    assert!(rt; map.locate(&key) == Ok(Spot::Key));
    assert!(rt; map.locate(&Dynamic::Int(0)) == Err(ValueFault::WrongType));
    assert!(rt; Dynamic::Unit.locate(&key) == Err(ValueFault::NotIndexable));
    Ok(())
}

#[test]
fn parts_are_put_back(rt: HostRuntime) -> Result<(), OutOfMemory> {
    let alloc = rt.alloc();
    let mut text = Dynamic::Text(Text::copy_of(alloc, "aéb")?);
    is_written(&rt, alloc, &text.part(Spot::Character(1)), "'é'")?;
    let is_put = text.put_part(alloc, Spot::Character(1), &Dynamic::Char('x'))?;
    assert!(rt; is_put);
    is_written(&rt, alloc, &text, "\"axb\"")?;
    let is_put = text.put_part(alloc, Spot::Character(1), &Dynamic::Int(1))?;
    assert!(rt; !is_put);
    is_written(&rt, alloc, &text, "\"axb\"")
}

#[test]
fn bytes_and_bits_are_put_back(rt: HostRuntime) -> Result<(), OutOfMemory> {
    let alloc = rt.alloc();
    let mut bytes = Blob::new(alloc);
    bytes.push(7)?;
    let mut blob = Dynamic::Blob(bytes);
    assert!(rt; blob.put_part(alloc, Spot::Byte(0), &Dynamic::Int(-1))?);
    is_written(&rt, alloc, &blob.part(Spot::Byte(0)), "255")?;
    let mut integer = Dynamic::Int(0);
    assert!(rt; integer.put_part(alloc, Spot::Bit(63), &Dynamic::Bool(true))?);
    is_written(&rt, alloc, &integer, "-9223372036854775808")?;
    is_written(&rt, alloc, &integer.part(Spot::Bit(63)), "true")
}
