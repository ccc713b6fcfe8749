//! Values from which the tests begin, and their texts. Want of memory ends a test.

use grain_value::{Array, Blob, Dynamic, Text};
use std::alloc::Global;
use std::process::Abort;

pub(crate) fn text_of(rt: &impl Abort, alloc: Global, text: &str) -> Text {
    Text::copy_of(alloc, text).expect(rt, "memory")
}

/// The byte string of these bytes.
pub(crate) fn blob_of(rt: &impl Abort, alloc: Global, bytes: &[u8]) -> Dynamic {
    let mut blob = Blob::new(alloc);
    for byte in bytes {
        blob.push(*byte).expect(rt, "memory");
    }
    Dynamic::Blob(blob)
}

/// The array of these integers.
pub(crate) fn array_of(rt: &impl Abort, alloc: Global, integers: &[i64]) -> Dynamic {
    let mut array = Array::new(alloc);
    for integer in integers {
        array.push(Dynamic::Int(*integer)).expect(rt, "memory");
    }
    Dynamic::Array(array)
}

/// The quoted text of a value.
pub(crate) fn quoted(rt: &impl Abort, alloc: Global, value: &Dynamic) -> Text {
    let mut text = Text::new(alloc);
    value.write_quoted(&mut text).expect(rt, "memory");
    text
}
