//! Frames on the shared stacks, with memory enough.

ghost use Rattle.std.specs.Prelude.{◌≡◌, length};

use crate::made::text_of;
use grain_stack::{Handler, Stacks};
use grain_value::{Dynamic, Held, List, Name, Scope};
use std::alloc::Global;
use std::process::Abort;

fn int(integer: i64) -> Held {
    Held::read_write(Dynamic::Int(integer))
}

fn check_operands(rt: &impl Abort, stacks: &mut Stacks) {
    stacks.enter(2).expect(rt, "memory");
    stacks.push(int(1));
    stacks.enter(1).expect(rt, "memory");
    assert!(rt; stacks.height() == 0);
    stacks.push(int(2));
    assert!(rt; stacks.top().value.as_int() == Some(2));
    stacks.leave();
    assert!(rt; stacks.height() == 1);
    assert!(rt; stacks.top().value.as_int() == Some(1));
    assert!(rt; stacks.entered() == 2);
}

#[test]
fn a_frame_leaves_the_operands_of_its_caller(rt: HostRuntime) {
    let mut stacks = Stacks::new(rt.alloc());
    check_operands(&rt, &mut stacks);
}

fn check_order(rt: &impl Abort, stacks: &mut Stacks) {
    stacks.enter(3).expect(rt, "memory");
    stacks.push(int(1));
    stacks.push(int(2));
    stacks.push(int(3));
    stacks.rotate(2);
    assert!(rt; stacks.peek(2).value.as_int() == Some(3));
    assert!(rt; stacks.top().value.as_int() == Some(2));
    stacks.answer_int(9);
    assert!(rt; stacks.height() == 2);
    assert!(rt; stacks.top().value.as_int() == Some(9));
    stacks.cut(1);
    assert!(rt; stacks.pop().value.as_int() == Some(3));
}

#[test]
fn operands_are_rotated_answered_and_cut(rt: HostRuntime) {
    let mut stacks = Stacks::new(rt.alloc());
    check_order(&rt, &mut stacks);
}

/// A handler that leads to this address, and has caught nothing.
fn handler(target: u32) -> Handler {
    Handler {
        target,
        variable: None,
        operands: 0,
        cursors: 0,
        totals: 0,
        scope: 0,
        caught: None,
    }
}

fn check_handlers(rt: &impl Abort, stacks: &mut Stacks) {
    stacks.enter(0).expect(rt, "memory");
    stacks.push_handler(handler(7)).expect(rt, "memory");
    stacks.enter(0).expect(rt, "memory");
    assert!(rt; stacks.innermost_handler().is_none());
    stacks.push_handler(handler(8)).expect(rt, "memory");
    stacks.push_handler(handler(9)).expect(rt, "memory");
    assert!(rt; stacks.pop_handler().target == 9);
    stacks.leave();
    assert!(rt; stacks.pop_handler().target == 7);
    assert!(rt; stacks.innermost_handler().is_none());
}

#[test]
fn a_frame_has_its_own_handlers(rt: HostRuntime) {
    let mut stacks = Stacks::new(rt.alloc());
    check_handlers(&rt, &mut stacks);
}

fn check_changes(rt: &impl Abort, stacks: &mut Stacks) {
    stacks.enter(0).expect(rt, "memory");
    stacks.push_handler(handler(7)).expect(rt, "memory");
    stacks.enter(0).expect(rt, "memory");
    assert!(rt; stacks.handlers() == 0);
    stacks.push_handler(handler(8)).expect(rt, "memory");
    stacks.push_handler(handler(9)).expect(rt, "memory");
    assert!(rt; stacks.handlers() == 2);
    stacks.cut_handlers(1);
    stacks.handler_mut().operands = 5;
    assert!(rt; stacks.handlers() == 1);
    let own = stacks.pop_handler();
    assert!(rt; own.target == 8);
    assert!(rt; own.operands == 5);
    stacks.leave();
    assert!(rt; stacks.handlers() == 1);
    stacks.handler_mut().operands = 6;
    assert!(rt; stacks.pop_handler().operands == 6);
}

#[test]
fn handlers_are_counted_changed_and_cut(rt: HostRuntime) {
    let mut stacks = Stacks::new(rt.alloc());
    check_changes(&rt, &mut stacks);
}

/// Enters a frame with the operands 1, 2 and 3, and room for one more.
fn enter_three(rt: &impl Abort, stacks: &mut Stacks)
    ensures { length stacks.new.operands ≡ 3 }
{
    stacks.enter(4).expect(rt, "memory");
    stacks.push(int(1));
    stacks.push(int(2));
    stacks.push(int(3));
}

#[test]
fn values_stand_in_the_place_of_an_operand(rt: HostRuntime) {
    let mut stacks = Stacks::new(rt.alloc());
    enter_three(&rt, &mut stacks);
    let values = vec![in rt.alloc(); Dynamic::Int(7), Dynamic::Int(8)].expect(&rt, "memory");
    stacks.spread(rt.alloc(), 1, values).expect(&rt, "memory");
    assert!(rt; stacks.height() == 4);
    assert!(rt; stacks.pop().value.as_int() == Some(3));
    assert!(rt; stacks.pop().value.as_int() == Some(8));
    assert!(rt; stacks.pop().value.as_int() == Some(7));
    assert!(rt; stacks.pop().value.as_int() == Some(1));
}

/// A pool with one name.
fn one_name(rt: &impl Abort, alloc: Global) -> List<Name>
    ensures { length result ≡ 1 }
{
    let mut names = List::new(alloc);
    let name = Name::new(alloc, text_of(rt, alloc, "a")).expect(rt, "memory");
    names.push(name).expect(rt, "memory");
    names
}

fn check_entry(rt: &impl Abort, scope: &Scope, index: usize, integer: i64) {
    let held = scope.get(index).expect(rt, "an entry");
    assert!(rt; held.value.as_int() == Some(integer));
}

#[test]
fn a_frame_is_entered_with_arguments(rt: HostRuntime) {
    let names = one_name(&rt, rt.alloc());
    let mut scope = Scope::new(rt.alloc());
    let mut stacks = Stacks::new(rt.alloc());
    enter_three(&rt, &mut stacks);
    let entered = stacks.enter_with_arguments(1, &[0, 0], &names, &mut scope);
    entered.expect(&rt, "memory");
    assert!(rt; scope.len() == 2);
    check_entry(&rt, &scope, 0, 2);
    check_entry(&rt, &scope, 1, 3);
    assert!(rt; stacks.height() == 0);
    stacks.leave();
    assert!(rt; stacks.pop().value.as_int() == Some(1));
}
