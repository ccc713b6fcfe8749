//! The host in memory, with enough memory, and the faults that a host may answer.

mod maps;
mod registers;

use crate::made::{array, check_text, quoted, text_of, value_of};
use crate::raised::{Broken, Kind, OfText, OfTexts, OfValue, Plain, Raised, fault_of, named_text};
use grain_fault::EvalAltResult;
use grain_host::{Args, Host, HostAnswer, HostFault, ProgressAnswer, TableHost};
use grain_value::{Array, Dynamic, FnPtr, Held, Kinds, Native, Text};
use std::alloc::Global;
use std::process::Abort;

/// The call's value as a listing has it, an exit's value after the word, the name and the text of a
/// fault, or what is asked.
fn answered(rt: &impl Abort, alloc: Global, answer: HostAnswer) -> Text {
    match answer {
        HostAnswer::Done(value) => quoted(rt, alloc, &value),
        HostAnswer::Failed(fault) => failed(rt, alloc, fault.into_fault()),
        HostAnswer::Ask {
            token,
            pointer,
            arguments,
        } => asked(rt, alloc, token, pointer, arguments),
        HostAnswer::Memory => panic!(rt; "memory"),
    }
}

/// The word, the token, the pointer and the array of the arguments.
fn asked(rt: &impl Abort, alloc: Global, token: u64, pointer: FnPtr, arguments: Array) -> Text {
    let mut text = text_of(rt, alloc, "ask ");
    text.push_number(token).expect(rt, "memory");
    text.push_str(" ").expect(rt, "memory");
    let pointer = Dynamic::Pointer(pointer);
    pointer.write_quoted(&mut text).expect(rt, "memory");
    text.push_str(" ").expect(rt, "memory");
    let arguments = Dynamic::Array(arguments);
    arguments.write_quoted(&mut text).expect(rt, "memory");
    text
}

fn failed(rt: &impl Abort, alloc: Global, fault: EvalAltResult) -> Text {
    match fault.into_exit_value() {
        Ok(value) => exited(rt, alloc, &value),
        Err(fault) => named_text(rt, alloc, &fault),
    }
}

fn exited(rt: &impl Abort, alloc: Global, value: &Dynamic) -> Text {
    let mut text = text_of(rt, alloc, "exit ");
    value.write_quoted(&mut text).expect(rt, "memory");
    text
}

/// What the host answers when it is called so.
fn called(rt: &impl Abort, alloc: Global, host: &mut TableHost, key: u64, args: &mut Args) -> Text {
    answered(rt, alloc, host.call(alloc, key, args))
}

/// Arguments without a receiver.
fn args_of(values: Array) -> Args {
    Args {
        receiver: None,
        values,
    }
}

fn one_value(rt: &impl Abort, alloc: Global, said: &str) -> Array {
    let mut values = Array::new(alloc);
    let value = value_of(rt, alloc, said);
    values.push(value).expect(rt, "memory");
    values
}

const UNKNOWN: &str = "ErrorSystem: unknown to the table host";

/// The key of a native, its one argument, its answer, and what is printed.
type Row = (u64, &'static str, &'static str, &'static str);

const CALLS: [Row; 9] = [
    (1, "text hi", "()", "hi\n"),
    (1, "7", "()", "7\n"),
    (3, "text fünf", "4", ""),
    (3, "array ()", "1", ""),
    (3, "blob 9 9", "2", ""),
    (3, "map k ()", "1", ""),
    (5, "7", "exit 7", ""),
    // No such key, and an argument of another kind.
    (0, "7", UNKNOWN, ""),
    (3, "7", UNKNOWN, ""),
];

fn check_printed(rt: &impl Abort, host: &TableHost, expected: &str) {
    assert!(rt; host.printed().as_str() == expected);
}

/// Compares one call, and what the host has printed by then.
fn check_call(rt: &impl Abort, alloc: Global, host: &mut TableHost, row: &Row) {
    let mut args = args_of(one_value(rt, alloc, row.1));
    check_text(rt, called(rt, alloc, host, row.0, &mut args), row.2);
    check_printed(rt, host, row.3);
}

#[test]
fn calls_with_one_argument(rt: HostRuntime) {
    for row in &CALLS {
        let mut host = TableHost::new(rt.alloc());
        check_call(&rt, rt.alloc(), &mut host, row);
    }
}

#[test]
fn a_call_without_arguments(rt: HostRuntime) {
    let mut args = args_of(Array::new(rt.alloc()));
    let mut host = TableHost::new(rt.alloc());
    check_text(
        &rt,
        called(&rt, rt.alloc(), &mut host, 1, &mut args),
        UNKNOWN,
    );
}

const FAILING: [Row; 3] = [
    (1, "7", "()", "7\n"),
    (1, "7", "ErrorRuntime: Runtime error: host failure 2", "7\n"),
    (1, "7", "()", "7\n7\n"),
];

#[test]
fn fails(rt: HostRuntime) {
    let mut host = TableHost::new(rt.alloc());
    host.fail(2).expect(&rt, "memory");
    for row in &FAILING {
        check_call(&rt, rt.alloc(), &mut host, row);
    }
}

/// The integer with which a run ends at this number of operations.
fn stopped(alloc: Global, host: &mut TableHost, count: u64) -> Option<i64> {
    match host.progress(alloc, count) {
        ProgressAnswer::Stop(value) => value.as_int(),
        _ => None,
    }
}

fn check_stops(rt: &impl Abort, alloc: Global, host: &mut TableHost) {
    assert!(rt; stopped(alloc, host, 2).is_none());
    assert!(rt; stopped(alloc, host, 3) == Some(8));
    assert!(rt; stopped(alloc, host, 4).is_none());
}

#[test]
fn stops(rt: HostRuntime) {
    let mut host = TableHost::new(rt.alloc());
    host.stop(3, Dynamic::Int(8)).expect(&rt, "memory");
    host.stop(3, Dynamic::Int(9)).expect(&rt, "memory");
    check_stops(&rt, rt.alloc(), &mut host);
}

/// Calls `push`, and compares the answer.
fn check_push(rt: &impl Abort, alloc: Global, args: &mut Args) {
    let mut host = TableHost::new(alloc);
    check_text(rt, called(rt, alloc, &mut host, 2, args), "()");
}

/// The text of a receiver that is not read-only.
fn receiver(rt: &impl Abort, alloc: Global, args: &Args) -> Text {
    match &args.receiver {
        Some(
            Held {
                value,
                read_only: false,
            },
        ) => quoted(rt, alloc, value),
        _ => panic!(rt; "no receiver that can be written"),
    }
}

#[test]
fn pushes_to_a_receiver(rt: HostRuntime) {
    let array = Dynamic::Array(Array::new(rt.alloc()));
    let mut args = Args {
        receiver: Some(Held::read_write(array)),
        values: one_value(&rt, rt.alloc(), "7"),
    };
    check_push(&rt, rt.alloc(), &mut args);
    check_text(&rt, receiver(&rt, rt.alloc(), &args), "[7]");
}

#[test]
fn pushes_to_a_value(rt: HostRuntime) {
    let mut args = args_of(array(&rt, rt.alloc(), "pair, 7"));
    check_push(&rt, rt.alloc(), &mut args);
}

/// A name, the kinds of the arguments, and the native.
type Resolved = (&'static str, &'static [u32], Option<Native>);

const PRINT: Native = Native {
    key: 1,
    writes: false,
};

const PUSH: Native = Native {
    key: 2,
    writes: true,
};

const LEN: Native = Native {
    key: 3,
    writes: false,
};

const EXIT: Native = Native {
    key: 5,
    writes: false,
};

const MAP: Native = Native {
    key: 4,
    writes: false,
};

const RESOLVED: [Resolved; 14] = [
    ("map", &[5, 8], Some(MAP)),
    ("map", &[8, 5], None),
    ("map", &[5], None),
    ("print", &[8], Some(PRINT)),
    ("push", &[5, 2], Some(PUSH)),
    ("exit", &[0], Some(EXIT)),
    ("len", &[4], Some(LEN)),
    ("len", &[5], Some(LEN)),
    ("len", &[6], Some(LEN)),
    ("len", &[7], Some(LEN)),
    ("len", &[3], None),
    ("push", &[4, 2], None),
    ("print", &[4, 2], None),
    ("prin", &[4], None),
];

fn kinds_of(rt: &impl Abort, alloc: Global, kinds: &[u32]) -> Kinds {
    let mut list = Kinds::new(alloc);
    for kind in kinds {
        list.push(*kind).expect(rt, "memory");
    }
    list
}

fn check_resolved(rt: &impl Abort, alloc: Global, row: &Resolved) {
    let kinds = kinds_of(rt, alloc, row.1);
    let native = TableHost::new(alloc).resolve(row.0, &kinds);
    assert!(rt; native == row.2);
}

#[test]
fn resolves(rt: HostRuntime) {
    for row in &RESOLVED {
        check_resolved(&rt, rt.alloc(), row);
    }
}

const HANDED_BACK: [Raised; 13] = [
    (Kind::Plain(Plain::TooManyOperations), ""),
    (Kind::Plain(Plain::TooManyVariables), ""),
    (Kind::Plain(Plain::StackOverflow), ""),
    (Kind::Plain(Plain::TooManyModules), ""),
    (Kind::Plain(Plain::UnboundThis), ""),
    (Kind::Plain(Plain::Memory), ""),
    (Kind::Value(OfValue::Terminated), "()"),
    (Kind::Malformed(Broken::Slot(0, 0)), ""),
    (Kind::Text(OfText::VariableExists), "x"),
    (Kind::Text(OfText::ForbiddenVariable), "x"),
    (Kind::Texts(OfTexts::OutputType), "bool|i64"),
    (Kind::Value(OfValue::Break), "()"),
    (Kind::Value(OfValue::Return), "()"),
];

const PASSING: [Raised; 2] = [
    (Kind::Value(OfValue::Exit), "7"),
    (Kind::Texts(OfTexts::System), "log|disk is full"),
];

fn passes(rt: &impl Abort, alloc: Global, raised: &Raised) -> bool {
    HostFault::new(fault_of(rt, alloc, raised.0, raised.1)).is_ok()
}

#[test]
fn faults_of_the_machine_are_handed_back(rt: HostRuntime) {
    for raised in &HANDED_BACK {
        assert!(rt; !passes(&rt, rt.alloc(), raised));
    }
    for raised in &PASSING {
        assert!(rt; passes(&rt, rt.alloc(), raised));
    }
}
