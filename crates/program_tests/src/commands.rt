//! Tests of whole calls of the program that no file can say: streams that fail, words that are no
//! command, a program without words, and how many bytes are read. All other whole calls are the
//! cases of `run_corpus`.

ghost use Rattle.std.specs.Prelude.{◌≡◌, None};
ghost use Rattle.grain_streams.specs.declared.sources.Read.TheVariants.{Got};

use grain_commands::{Exit, run_args};
use grain_streams::{
    CallNumbers, MemorySink, MemorySource, Put, Read, Sink, Source, Status, exit_code,
};
use grain_value::Blob;
use std::alloc::Global;
use std::env::Args;
use std::io;
use std::io::{Error, ErrorKind};
use std::marker::Brand;
use std::process::{Abort, ExitCode, Termination};
use std::sync::ledger::Blank;

/// The sum of the numbers from 1 to 10.
const SUM: &str = "grain 1\nconst 0\nconst 1\nconst 10\nname \"s\"\nname \"i\"\nname \"+=\"\n\
     name \"+\"\nname \"<=\"\nop \"+=\"\nop \"+\"\nop \"<=\"\nassign 0 2 1 3\n\
     main 2\nload_const 0\ndeclare_local 0\nload_const 1\ndeclare_local 1\ntop:\n\
     load_local 1\nload_const 2\ncall_op 4 2 2\njump_if_false done\n\
     load_local 1\nassign_local_op 0 0 0\nload_const 1\nassign_local_op 1 1 0\n\
     jump top\ndone:\nload_local 0\nreturn\nend\n";

const USAGE: &str = "usage: run, check, list or self N\n";

/// A call of the program: its words with a blank between each two, what its source holds, at which of
/// their calls the source and the sink fail, and the sink's room. Calls are numbered from 1, so the
/// number 0 is none.
#[derive(Clone, Copy)]
struct Call {
    words: &'static str,
    listing: &'static str,
    source_fails: [u64; 2],
    sink_fails: [u64; 2],
    room: usize,
}

/// The sum, over streams that do not fail.
const RUN: Call = Call {
    words: "run",
    listing: SUM,
    source_fails: [0, 0],
    sink_fails: [0, 0],
    room: 1000,
};

/// The same with a word that is no command.
const WALK: Call = Call {
    words: "walk",
    ..RUN
};

/// The listing of three functions that the program makes, over a source that says no listing.
const SELF: Call = Call {
    words: "self 3",
    listing: "no listing",
    ..RUN
};

/// What is written of it: 1 with 0, 1 and 2 added.
const OF_SELF: &str = "value 4 operations 3\n";

fn numbers(rt: &impl Abort, alloc: Global, all: &[u64]) -> CallNumbers {
    let mut numbers = CallNumbers::new(alloc);
    for number in all {
        numbers.push(*number).expect(rt, "memory");
    }
    numbers
}

/// A source of this text, which fails at these calls.
fn source_of(rt: &impl Abort, alloc: Global, text: &str, fails: &[u64]) -> MemorySource {
    let bytes = Vec::from_slice(alloc, text.as_bytes()).expect(rt, "memory");
    MemorySource::new(Blob::from_vec(bytes), numbers(rt, alloc, fails))
}

/// A sink with this room, which fails at these calls.
fn sink_of(rt: &impl Abort, alloc: Global, room: usize, fails: &[u64]) -> MemorySink {
    MemorySink::new(alloc, room, numbers(rt, alloc, fails)).expect(rt, "memory")
}

/// How the program ends over a source and a sink in memory.
fn exit_of<S: Source>(
    alloc: Global,
    args: io::Result<Args>,
    source: &mut S,
    sink: &mut MemorySink,
) -> Exit {
    run_args::<S, MemorySink, Brand>(alloc, args, source, sink, Blank::new(8))
}

/// The arguments of the program with these words.
fn args_of(rt: &impl Abort, alloc: Global, words: &str) -> Args {
    let program = String::from_str(alloc, "grain_run").expect(rt, "memory");
    let mut args = Vec::new(alloc);
    args.push(program).expect(rt, "memory");
    for word in words.split(' ') {
        let word = String::from_str(alloc, word).expect(rt, "memory");
        args.push(word).expect(rt, "memory");
    }
    args.into_iter()
}

/// Compares the status of a call, and what it writes.
fn check(rt: &(impl Abort + Eprint), alloc: Global, call: Call, status: u8, text: &str) {
    let args = args_of(rt, alloc, call.words);
    let mut source = source_of(rt, alloc, call.listing, &call.source_fails);
    let mut sink = sink_of(rt, alloc, call.room, &call.sink_fails);
    let exit = exit_of(alloc, Ok(args), &mut source, &mut sink);
    drop(source);
    check_end(rt, exit, &sink, status, text);
    drop(sink);
}

/// Compares the status with which a call ends, and what it has written.
fn check_end(rt: &(impl Abort + Eprint), exit: Exit, sink: &MemorySink, status: u8, text: &str) {
    assert!(rt; exit.report(rt) == ExitCode::from(status));
    assert!(rt; sink.bytes() == text.as_bytes());
}

/// A line that is not built yet stands here and not among the cases, which hold for good.
#[test]
fn words_and_lines_that_are_not_there(rt: HostRuntime) {
    let not_built = Call {
        listing: "grain 1\nsite 1\n",
        ..RUN
    };
    let text = "listing line 2: not built\n";
    check(&rt, rt.alloc(), not_built, 3, text);
    for words in ["walk", "", "check", "Run", "run run"] {
        check(&rt, rt.alloc(), Call { words, ..RUN }, 2, USAGE);
    }
}

#[test]
fn the_source_or_the_sink_fails(rt: HostRuntime) {
    let rows = [
        (RUN, [1, 0], [0, 0], 5, ""),
        (RUN, [2, 0], [0, 0], 5, ""),
        (RUN, [7, 2], [0, 0], 5, ""),
        (RUN, [3, 4], [0, 0], 0, "value 55\n"),
        (WALK, [1, 0], [0, 0], 2, USAGE),
        (RUN, [0, 0], [1, 0], 6, ""),
        (RUN, [0, 0], [2, 3], 0, "value 55\n"),
        (WALK, [0, 0], [5, 1], 6, ""),
        (SELF, [1, 0], [0, 0], 0, OF_SELF),
        (SELF, [0, 0], [1, 0], 6, ""),
        (SELF, [0, 0], [2, 0], 0, OF_SELF),
    ];
    for (call, source_fails, sink_fails, status, text) in rows {
        let call = Call {
            source_fails,
            sink_fails,
            ..call
        };
        check(&rt, rt.alloc(), call, status, text);
    }
}

#[test]
fn the_sink_has_too_little_room(rt: HostRuntime) {
    let rows = [
        ("run", SUM, 3, 6, "val"),
        ("run", SUM, 0, 6, ""),
        ("run", SUM, 8, 6, "value 55"),
        ("run", SUM, 9, 0, "value 55\n"),
        ("walk", SUM, 10, 6, "usage: run"),
        ("self 3", SUM, 20, 6, "value 4 operations 3"),
        ("self 3", SUM, 21, 0, OF_SELF),
        ("self 0", SUM, 5, 6, "usage"),
        ("run", "grain 2\n", 12, 6, "listing line"),
        ("run", "grain 1\nmain 0\nend\n", 7, 6, "refused"),
        (
            "run",
            "grain 1\nmain 1\nload_local 0\nreturn\nend\n",
            5,
            6,
            "fault",
        ),
    ];
    for (words, listing, room, status, text) in rows {
        let call = Call {
            words,
            listing,
            room,
            ..RUN
        };
        check(&rt, rt.alloc(), call, status, text);
    }
}

/// Each function of the listing that `self` makes adds its number, from 0 on, to what the ones before
/// it have given, the first to 1; and each call of one is an operation.
#[test]
fn self_runs_a_listing_of_so_many_functions(rt: HostRuntime) {
    let rows = [
        ("self 1", "value 1 operations 1\n"),
        ("self 2", "value 2 operations 2\n"),
        ("self 3", OF_SELF),
        ("self 10", "value 46 operations 10\n"),
        ("self 1000", "value 499501 operations 1000\n"),
    ];
    for (words, text) in rows {
        check(&rt, rt.alloc(), Call { words, ..SELF }, 0, text);
    }
}

#[test]
fn self_takes_one_number_from_1_to_10000(rt: HostRuntime) {
    let rows = [
        "self",
        "self 0",
        "self 01",
        "self 10001",
        "self 18446744073709551617",
        "self x",
        "self -1",
        "self +1",
        "self 1.0",
        "self ",
        "self 1 ",
        "self  1",
        "self 1 2",
        "Self 1",
        "self1",
        "1 self",
    ];
    for words in rows {
        check(&rt, rt.alloc(), Call { words, ..SELF }, 2, USAGE);
    }
}

#[test]
fn a_program_without_words_ends_with_9(rt: HostRuntime) {
    let mut source = source_of(&rt, rt.alloc(), "", &[]);
    let mut sink = sink_of(&rt, rt.alloc(), 100, &[]);
    let no_words = Err(Error::from(ErrorKind::InvalidData));
    let exit = exit_of(rt.alloc(), no_words, &mut source, &mut sink);
    drop(source);
    check_end(&rt, exit, &sink, 9, "");
    drop(sink);
}

#[test]
fn exit_codes_are_the_numbers_of_statuses(rt: HostRuntime) {
    for number in [0, 1, 2, 3, 4, 5, 6, 7, 9] {
        assert!(rt; exit_code(Status { number }) == ExitCode::from(number));
    }
}

/// A source without an end. It counts the bytes that it was asked for.
#[derive(Drop)]
struct Endless {
    asked: usize,
}

impl Source for Endless {
    ghost left = { λ _. None };

    ghost faults = { λ _. 0 };

    ghost reads = { λ _ room answer _. answer ≡ Got room };

    fn read(&mut self, buffer: &mut [u8]) -> Read {
        self.asked = self.asked.saturating_add(buffer.len());
        Read::Got(buffer.len())
    }
}

#[test]
fn reading_stops_after_16_777_217_bytes(rt: HostRuntime) {
    let mut source = Endless { asked: 0 };
    let mut sink = sink_of(&rt, rt.alloc(), 100, &[]);
    let args = args_of(&rt, rt.alloc(), "run");
    let exit = exit_of(rt.alloc(), Ok(args), &mut source, &mut sink);
    check_end(&rt, exit, &sink, 3, "listing line 0: too long\n");
    assert!(rt; source.asked == 16_777_217);
    drop(sink);
}

#[test]
fn sources_in_memory_fail_where_they_should(rt: HostRuntime) {
    let mut source = source_of(&rt, rt.alloc(), "abcde", &[4, 2]);
    let mut buffer = [0u8; 2];
    let answers = [
        Read::Got(2),
        Read::Failed,
        Read::Got(2),
        Read::Failed,
        Read::Got(1),
        Read::End,
        Read::End,
    ];
    for answer in answers {
        assert!(rt; source.read(&mut buffer) == answer);
    }
    assert!(rt; source.read(&mut buffer[..0]) == Read::Got(0));
    assert!(rt; buffer == *b"ed");
    drop(source);
}

#[test]
fn sinks_in_memory_fail_where_they_should(rt: HostRuntime) {
    let mut sink = sink_of(&rt, rt.alloc(), 4, &[2, 6]);
    let rows = [
        ("abc", Put::Took(3)),
        ("d", Put::Failed),
        ("de", Put::Took(1)),
        ("e", Put::Failed),
        ("", Put::Took(0)),
        ("", Put::Failed),
    ];
    for (piece, answer) in rows {
        assert!(rt; sink.put(piece.as_bytes()) == answer, "{piece}");
    }
    assert!(rt; sink.bytes() == b"abcd".as_slice());
    drop(sink);
}
