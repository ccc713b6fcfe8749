//! Values that rows of the tests name, and their texts. Want of memory ends a test.

use grain_value::{Array, Blob, Dynamic, FnPtr, Map, Text};
use std::alloc::Global;
use std::process::Abort;

/// The value that a row names: `()`, `true`, `-7`, `char x`, `text ab`, `blob 0 255`,
/// `foreign 16 7` for a host's own value of kind 16 with the number 7, `pair` for `[1, ()]`, or one
/// that holds such values: `[]`, `array 1, pair`, `map a 1, b text x`, and `fn f 1` for a pointer
/// with one value before the arguments.
pub(crate) fn value_of(rt: &impl Abort, alloc: Global, said: &str) -> Dynamic {
    match said.split_once(' ') {
        Some(("array", values)) => Dynamic::Array(array(rt, alloc, values)),
        Some(("map", pairs)) => Dynamic::Map(map(rt, alloc, pairs)),
        Some(("fn", rest)) => pointer(rt, alloc, rest),
        _ => flat_value(rt, alloc, said),
    }
}

/// A value that a row names, and that holds no values of a row.
pub(crate) fn flat_value(rt: &impl Abort, alloc: Global, said: &str) -> Dynamic {
    match said.split_once(' ') {
        Some(("text", text)) => Dynamic::Text(text_of(rt, alloc, text)),
        Some(("char", text)) => Dynamic::Char(character(rt, text)),
        Some(("blob", bytes)) => Dynamic::Blob(blob(rt, alloc, bytes)),
        Some(("foreign", numbers)) => foreign(rt, numbers),
        _ => word_value(rt, alloc, said),
    }
}

fn word_value(rt: &impl Abort, alloc: Global, word: &str) -> Dynamic {
    match word {
        "()" => Dynamic::Unit,
        "true" => Dynamic::Bool(true),
        "false" => Dynamic::Bool(false),
        "pair" => Dynamic::Array(pair(rt, alloc)),
        "[]" => Dynamic::Array(Array::new(alloc)),
        _ => Dynamic::Int(word.parse::<i64>().expect(rt, "a row's integer")),
    }
}

fn character(rt: &impl Abort, text: &str) -> char {
    text.chars().next().expect(rt, "a row's character")
}

pub(crate) fn text_of(rt: &impl Abort, alloc: Global, text: &str) -> Text {
    Text::copy_of(alloc, text).expect(rt, "memory")
}

fn blob(rt: &impl Abort, alloc: Global, bytes: &str) -> Blob {
    let mut blob = Blob::new(alloc);
    for byte in bytes.split(' ') {
        let byte = byte.parse::<u8>().expect(rt, "a row's byte");
        blob.push(byte).expect(rt, "memory");
    }
    blob
}

fn foreign(rt: &impl Abort, numbers: &str) -> Dynamic {
    let (kind, number) = numbers.split_once(' ').expect(rt, "a row's kind");
    Dynamic::Foreign {
        kind: kind.parse::<u32>().expect(rt, "a row's kind"),
        number: number.parse::<u64>().expect(rt, "a row's number"),
    }
}

fn pair(rt: &impl Abort, alloc: Global) -> Array {
    let mut array = Array::new(alloc);
    array.push(Dynamic::Int(1)).expect(rt, "memory");
    array.push(Dynamic::Unit).expect(rt, "memory");
    array
}

/// The array of these values, of which there is one at least.
pub(crate) fn array(rt: &impl Abort, alloc: Global, values: &str) -> Array {
    let mut array = Array::new(alloc);
    for value in values.split(", ") {
        let value = flat_value(rt, alloc, value);
        array.push(value).expect(rt, "memory");
    }
    array
}

/// The map of these keys with these values, of which there is one at least.
pub(crate) fn map(rt: &impl Abort, alloc: Global, pairs: &str) -> Map {
    let mut map = Map::new(alloc);
    for pair in pairs.split(", ") {
        let (key, value) = pair.split_once(' ').expect(rt, "a row's key");
        put(rt, alloc, &mut map, key, value);
    }
    map
}

fn put(rt: &impl Abort, alloc: Global, map: &mut Map, key: &str, value: &str) {
    let key = text_of(rt, alloc, key);
    let value = flat_value(rt, alloc, value);
    drop(map.insert(key, value).expect(rt, "memory"));
}

fn pointer(rt: &impl Abort, alloc: Global, said: &str) -> Dynamic {
    let (name, value) = said.split_once(' ').expect(rt, "a row's name");
    let mut pointer = FnPtr::new(alloc, name).expect(rt, "a pointer");
    let value = flat_value(rt, alloc, value);
    pointer.add_curry(value).expect(rt, "memory");
    Dynamic::Pointer(pointer)
}

/// The plain text of a value.
pub(crate) fn plain(rt: &impl Abort, alloc: Global, value: &Dynamic) -> Text {
    let mut text = Text::new(alloc);
    value.write_plain(&mut text).expect(rt, "memory");
    text
}

/// The quoted text of a value.
pub(crate) fn quoted(rt: &impl Abort, alloc: Global, value: &Dynamic) -> Text {
    let mut text = Text::new(alloc);
    value.write_quoted(&mut text).expect(rt, "memory");
    text
}

/// Compares a text with what is expected.
pub(crate) fn check_text(rt: &impl Abort, text: Text, expected: &str) {
    assert_eq!(rt; text.as_str(), expected);
}
