//! The operators on texts and characters.

use super::{Order, TOO_LONG, check, check_order};
use crate::made::value_of;
use grain_value::Token;
use std::alloc::Global;
use std::process::Abort;

/// Two values, the limit of texts in bytes, or 0 for none, and their sum.
type Joined = (&'static str, &'static str, usize, &'static str);

/// A value, how it stands to another, and the other.
type Compared = (&'static str, Order, &'static str);

const JOINED: [Joined; 14] = [
    ("text ", "text ", 0, r#""""#),
    ("text é", "text ", 0, r#""é""#),
    ("text é", "text 日本", 0, r#""é日本""#),
    ("text ab", "text 日", 5, r#""ab日""#),
    ("text ab", "text ", 2, r#""ab""#),
    ("text ab", "text 日", 4, TOO_LONG),
    ("text ab", "text ", 1, TOO_LONG),
    ("text ", "text ab", 1, TOO_LONG),
    ("char é", "char 日", 0, r#""é日""#),
    ("text ab", "char 日", 5, r#""ab日""#),
    ("char é", "text ab", 4, r#""éab""#),
    ("char é", "char 日", 4, TOO_LONG),
    ("text ab", "char 日", 4, TOO_LONG),
    ("char é", "text ab", 3, TOO_LONG),
];

const COMPARED: [Compared; 10] = [
    ("char a", Order::Less, "char b"),
    ("char é", Order::Greater, "char z"),
    ("char \u{ffff}", Order::Less, "char \u{10000}"),
    ("char 日", Order::Equal, "char 日"),
    ("text ", Order::Equal, "text "),
    ("text ", Order::Less, "text a"),
    ("text ab", Order::Greater, "text a"),
    ("text Z", Order::Less, "text a"),
    ("text é", Order::Greater, "text z"),
    ("text é", Order::Less, "text 日"),
];

fn check_sum(rt: &impl Abort, alloc: Global, row: &Joined) {
    let left = value_of(rt, alloc, row.0);
    let right = value_of(rt, alloc, row.1);
    check(rt, alloc, row.2, (&left, &right), &(Token::Plus, row.3));
}

#[test]
fn texts_and_characters_are_joined(rt: HostRuntime) {
    for row in &JOINED {
        check_sum(&rt, rt.alloc(), row);
    }
}

fn check_compared(rt: &impl Abort, alloc: Global, row: &Compared) {
    let left = value_of(rt, alloc, row.0);
    let right = value_of(rt, alloc, row.2);
    check_order(rt, alloc, row.1, (&left, &right));
}

#[test]
fn texts_and_characters_are_compared(rt: HostRuntime) {
    for row in &COMPARED {
        check_compared(&rt, rt.alloc(), row);
    }
}
