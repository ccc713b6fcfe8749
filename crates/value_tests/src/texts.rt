//! Texts that grow.

use crate::made::text_of;
use grain_value::{OutOfMemory, Text};
use std::alloc::Global;
use std::process::Abort;

fn grow(text: &mut Text) -> Result<(), OutOfMemory> {
    text.push_integer(-7)?;
    text.push_str(", ")?;
    text.push_number(18446744073709551615)?;
    text.push_display(&'!')?;
    text.push('ß')?;
    text.push_quoted("a\"b")
}

fn check_grown(rt: &impl Abort, text: &Text) {
    assert_eq!(rt; text.as_str(), "é = -7, 18446744073709551615!ß\"a\\\"b\"");
    assert!(rt; text.len() == 38);
    assert!(rt; text.char_count() == 36);
    assert!(rt; text.get(2) == Some(b' '));
}

#[test]
fn texts_grow(rt: HostRuntime) {
    let mut text = text_of(&rt, rt.alloc(), "é = ");
    grow(&mut text).expect(&rt, "memory");
    check_grown(&rt, &text);
    let copy = text.copy(rt.alloc()).expect(&rt, "memory");
    assert!(rt; copy.as_str() == text.as_str());
}

/// Writes a copy, and looks that the text it was made of stays as it is.
fn check_apart(rt: &impl Abort, alloc: Global, text: &Text, whole: &str) {
    let mut copy = text.copy(alloc).expect(rt, "memory");
    copy.push_str("b").expect(rt, "memory");
    assert_eq!(rt; copy.as_str(), whole);
}

#[test]
fn a_written_copy_leaves_the_other(rt: HostRuntime) {
    let mut text = text_of(&rt, rt.alloc(), "a");
    check_apart(&rt, rt.alloc(), &text, "ab");
    assert_eq!(&rt; text.as_str(), "a");
    let copy = text.copy(rt.alloc()).expect(&rt, "memory");
    text.push('c').expect(&rt, "memory");
    assert_eq!(&rt; text.as_str(), "ac");
    assert_eq!(&rt; copy.as_str(), "a");
}

#[test]
fn a_copy_of_nothing_is_written(rt: HostRuntime) {
    let text = Text::new(rt.alloc());
    check_apart(&rt, rt.alloc(), &text, "b");
    assert!(rt; text.is_empty());
    assert!(rt; text.get(0).is_none());
}
