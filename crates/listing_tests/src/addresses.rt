//! Tests of whole calls of the program that says lines for addresses: its statuses and texts, which
//! the one stored run of `grain_where` has no room for, and streams that fail.

use grain_addresses::{Exit, where_args};
use grain_streams::{CallNumbers, MemorySink, MemorySource};
use grain_value::Blob;
use std::alloc::Global;
use std::env::Args;
use std::process::{Abort, ExitCode, Termination};

/// A listing of two lines of code, which the verification refuses: an operand is missing.
const POPS: &str = "grain 1\nmain 1\npop @2:0\nreturn ; never\nend\n";

const USAGE: &str = "usage: where LISTING [ADDRESS or ADDRESS:SLOT ..]\n";

/// A call of the program: its word, if it has one, what its source holds, and at which of their
/// calls the source and the sinks fail. Calls are numbered from 1, so the number 0 is none.
#[derive(Clone, Copy)]
struct Call {
    word: Option<&'static str>,
    listing: &'static str,
    source_fails: u64,
    sinks_fail: u64,
}

/// All lines that give code, over streams that do not fail.
const TABLE: Call = Call {
    word: None,
    listing: POPS,
    source_fails: 0,
    sinks_fail: 0,
};

/// The arguments of the program, with one word or none.
fn args_of(rt: &impl Abort, alloc: Global, word: Option<&str>) -> Args {
    let mut args = Vec::new(alloc);
    push_word(rt, alloc, &mut args, "grain_where");
    if let Some(word) = word {
        push_word(rt, alloc, &mut args, word);
    }
    args.into_iter()
}

fn push_word(rt: &impl Abort, alloc: Global, args: &mut Vec<String>, word: &str) {
    let word = String::from_str(alloc, word).expect(rt, "memory");
    args.push(word).expect(rt, "memory");
}

fn one_number(rt: &impl Abort, alloc: Global, number: u64) -> CallNumbers {
    let mut numbers = CallNumbers::new(alloc);
    numbers.push(number).expect(rt, "memory");
    numbers
}

/// A source of this text, which fails at this call.
fn source_of(rt: &impl Abort, alloc: Global, text: &str, fails: u64) -> MemorySource {
    let bytes = Vec::from_slice(alloc, text.as_bytes()).expect(rt, "memory");
    MemorySource::new(Blob::from_vec(bytes), one_number(rt, alloc, fails))
}

/// A sink that fails at this call.
fn sink_of(rt: &impl Abort, alloc: Global, fails: u64) -> MemorySink {
    MemorySink::new(alloc, 1000, one_number(rt, alloc, fails)).expect(rt, "memory")
}

/// Compares the status of a call, and what it writes to the two sinks.
fn check(
    rt: &(impl Abort + Eprint),
    alloc: Global,
    call: Call,
    status: u8,
    text: &str,
    errors_text: &str,
) {
    let args = args_of(rt, alloc, call.word);
    let mut source = source_of(rt, alloc, call.listing, call.source_fails);
    let mut sink = sink_of(rt, alloc, call.sinks_fail);
    let mut errors = sink_of(rt, alloc, call.sinks_fail);
    let exit = where_args(alloc, Ok(args), &mut source, &mut sink, &mut errors);
    drop(source);
    check_end(rt, exit, status);
    check_bytes(rt, sink, text);
    check_bytes(rt, errors, errors_text);
}

/// Compares the status with which a call ends.
fn check_end(rt: &(impl Abort + Eprint), exit: Exit, status: u8) {
    assert!(rt; exit.report(rt) == ExitCode::from(status));
}

/// Compares what a sink has taken.
fn check_bytes(rt: &impl Abort, sink: MemorySink, text: &str) {
    assert!(rt; sink.bytes() == text.as_bytes());
    drop(sink);
}

#[test]
fn lines_are_found_or_not(rt: HostRuntime) {
    let rows = [
        (
            None,
            0,
            "0\tline 3\tmain\t@2:0\tpop @2:0\n1\tline 4\tmain\t-\treturn ; never\n",
        ),
        (Some("1"), 0, "1\tline 4\tmain\t-\treturn ; never\n"),
        (Some("2"), 1, "2\tpast the code, which has 2 bytes\n"),
        (
            Some("0:7"),
            1,
            "0:7\tno step begins at this slot in the instruction of line 3\n",
        ),
    ];
    for (word, status, text) in rows {
        check(&rt, rt.alloc(), Call { word, ..TABLE }, status, text, "");
    }
}

/// A listing of two chains. The second one has the slots from 2 on: one for its property, and two for
/// its index.
const CHAINS: &str = "\
    grain 1\nchain 1 temporary read\nstep index 0 ; first\nchain 1 temporary read\n\n\
    step property 0 0 0\nstep index 0 ; last\nmain 1\nunit\nunit\nchain 1\nreturn\nend\n";

#[test]
fn steps_are_found_or_not(rt: HostRuntime) {
    let rows = [
        (
            "2:2",
            0,
            "2\tline 11\tmain\t-\tchain 1\n2:2\tline 6\tstep property 0 0 0\n",
        ),
        (
            "2:3",
            0,
            "2\tline 11\tmain\t-\tchain 1\n2:3\tline 7\tstep index 0 ; last\n",
        ),
        (
            "2:4",
            1,
            "2:4\tno step begins at this slot in the instruction of line 11\n",
        ),
        (
            "2:0",
            1,
            "2:0\tno step begins at this slot in the instruction of line 11\n",
        ),
        ("3:2", 1, "3:2\tinside the instruction at 2 of line 11\n"),
    ];
    for (word, status, text) in rows {
        let call = Call {
            word: Some(word),
            listing: CHAINS,
            ..TABLE
        };
        check(&rt, rt.alloc(), call, status, text, "");
    }
}

/// A listing of two chains, of which the first begins at `this`. Its root has the slot 0, so its property
/// has the slot 1, and the index of the second chain has the slots from 2 on.
const THIS_CHAIN: &str = "\
    grain 1\nchain 0 this @7:1 read\nstep property 0 0 0 ; own\nchain 1 temporary read\n\
    step index 0\nmain 1\nchain 0\nunit\nchain 1\nreturn\nend\n";

#[test]
fn a_root_this_has_a_slot(rt: HostRuntime) {
    let rows = [
        (
            "4:2",
            0,
            "4\tline 9\tmain\t-\tchain 1\n4:2\tline 5\tstep index 0\n",
        ),
        (
            "0:1",
            0,
            "0\tline 7\tmain\t-\tchain 0\n0:1\tline 3\tstep property 0 0 0 ; own\n",
        ),
        (
            "0:0",
            1,
            "0:0\tno step begins at this slot in the instruction of line 7\n",
        ),
    ];
    for (word, status, text) in rows {
        let call = Call {
            word: Some(word),
            listing: THIS_CHAIN,
            ..TABLE
        };
        check(&rt, rt.alloc(), call, status, text, "");
    }
}

#[test]
fn words_that_are_no_addresses(rt: HostRuntime) {
    for word in [
        "",
        "x",
        "-1",
        "01",
        "1:",
        ":1",
        "1:2:3",
        "4294967296",
        "99999999999999999999",
    ] {
        let call = Call {
            word: Some(word),
            source_fails: 1,
            ..TABLE
        };
        check(&rt, rt.alloc(), call, 2, "", USAGE);
    }
}

#[test]
fn listings_that_are_none(rt: HostRuntime) {
    let rows = [
        ("", "listing line 1: missing header\n"),
        (
            "grain 1\nmain 1\npop 1\nend\n",
            "listing line 3: bad operand\n",
        ),
        (
            "grain 1\nmain 1\njump top\nend\n",
            "listing line 3: unknown label\n",
        ),
    ];
    for (listing, text) in rows {
        check(&rt, rt.alloc(), Call { listing, ..TABLE }, 3, text, "");
    }
}

#[test]
fn streams_fail(rt: HostRuntime) {
    let source = Call {
        source_fails: 1,
        ..TABLE
    };
    check(&rt, rt.alloc(), source, 5, "", "");
    let sink = Call {
        sinks_fail: 1,
        ..TABLE
    };
    check(&rt, rt.alloc(), sink, 6, "", "");
    let errors = Call {
        word: Some("x"),
        ..sink
    };
    check(&rt, rt.alloc(), errors, 6, "", "");
}
