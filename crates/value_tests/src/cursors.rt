//! Cursors over values, and cursors and totals of frames, with memory enough.

use crate::made::{array_of, blob_of, text_of};
use grain_stack::{Cursor, Stacks, Total};
use grain_value::Dynamic;
use std::process::Abort;

fn over(rt: &impl Abort, value: Dynamic) -> Cursor {
    Cursor::over(value).ok().expect(rt, "a value to go over")
}

/// The cursor gives these integers, and nothing after them.
fn check_integers(rt: &impl Abort, cursor: &mut Cursor, integers: &[i64]) {
    for integer in integers {
        let item = cursor.next().expect(rt, "an item");
        assert!(rt; item.as_int() == Some(*integer));
    }
    assert!(rt; cursor.next().is_none());
}

#[test]
fn bytes_are_given_as_integers(rt: HostRuntime) {
    let mut bytes = over(&rt, blob_of(&rt, rt.alloc(), &[0, 255]));
    check_integers(&rt, &mut bytes, &[0, 255]);
}

#[test]
fn values_of_a_list_are_given(rt: HostRuntime) {
    let mut values = over(&rt, array_of(&rt, rt.alloc(), &[3, 4]));
    check_integers(&rt, &mut values, &[3, 4]);
}

/// A cursor over the integers from one to another.
fn over_range(rt: &impl Abort, from: i64, to: i64, inclusive: bool) -> Cursor {
    over(
        rt,
        Dynamic::Range {
            from,
            to,
            inclusive,
        },
    )
}

#[test]
fn a_range_ends_at_the_greatest_integer(rt: HostRuntime) {
    let mut last = over_range(&rt, i64::MAX - 1, i64::MAX, true);
    check_integers(&rt, &mut last, &[i64::MAX - 1, i64::MAX]);
    let mut without_end = over_range(&rt, -1, 1, false);
    check_integers(&rt, &mut without_end, &[-1, 0]);
    let mut backwards = over_range(&rt, 1, -1, true);
    check_integers(&rt, &mut backwards, &[]);
}

fn check_character(rt: &impl Abort, cursor: &mut Cursor, character: char) {
    let item = cursor.next().expect(rt, "a character");
    assert!(rt; item.as_char() == Some(character));
}

#[test]
fn characters_are_given_whole(rt: HostRuntime) {
    let text = Dynamic::Text(text_of(&rt, rt.alloc(), "aé€😀"));
    let mut text = over(&rt, text);
    check_character(&rt, &mut text, 'a');
    check_character(&rt, &mut text, 'é');
    check_character(&rt, &mut text, '€');
    check_character(&rt, &mut text, '😀');
    assert!(rt; text.next().is_none());
}

fn check_cursors(rt: &impl Abort, stacks: &mut Stacks) {
    stacks.enter(0).expect(rt, "memory");
    let outer = over_range(rt, 1, 2, false);
    stacks.push_cursor(outer).expect(rt, "memory");
    stacks.enter(0).expect(rt, "memory");
    assert!(rt; stacks.cursors() == 0);
    let inner = over_range(rt, 3, 4, false);
    stacks.push_cursor(inner).expect(rt, "memory");
    stacks.cursor_mut().counter = 7;
    assert!(rt; stacks.cursors() == 1);
    assert!(rt; stacks.pop_cursor().counter == 7);
    stacks.cut_cursors(0);
    stacks.leave();
    assert!(rt; stacks.cursors() == 1);
    assert!(rt; stacks.pop_cursor().counter == -1);
}

#[test]
fn a_frame_has_its_own_cursors(rt: HostRuntime) {
    let mut stacks = Stacks::new(rt.alloc());
    check_cursors(&rt, &mut stacks);
}

fn check_totals(rt: &impl Abort, stacks: &mut Stacks) {
    let total = Total {
        arrays: 1,
        maps: 2,
        text: 3,
    };
    stacks.enter(0).expect(rt, "memory");
    stacks.push_total(total).expect(rt, "memory");
    stacks.enter(0).expect(rt, "memory");
    assert!(rt; stacks.totals() == 0);
    stacks.push_total(total).expect(rt, "memory");
    stacks.push_total(total).expect(rt, "memory");
    stacks.cut_totals(1);
    stacks.total_mut().maps = 5;
    assert!(rt; stacks.totals() == 1);
    stacks.leave();
    assert!(rt; stacks.pop_total().maps == 2);
}

#[test]
fn a_frame_has_its_own_totals(rt: HostRuntime) {
    let mut stacks = Stacks::new(rt.alloc());
    check_totals(&rt, &mut stacks);
}
