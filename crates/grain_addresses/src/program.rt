//! The whole program: from its arguments to its exit code, over any source and sinks, and over the
//! standard streams.

ghost use Rattle.std.specs.Prelude.{◌≡◌, ◌⊎◌, IfOk, None, OnErr, drop, map, string_bytes};
ghost use Rattle.std.specs.Process.{exit_status};
ghost use Rattle.std.specs.Vec.Iter.{into_iter_items};
ghost use Rattle.grain_streams.specs.Reads.{ReadInTurn};
ghost use Rattle.grain_addresses.specs.Queries.{queries_of};
ghost use Rattle.grain_addresses.specs.Calls.{stream, Ended, Handed, NoCall};

use crate::calls::where_words;
use grain_streams::{
    Sink, Source, Status, StdErrorSink, StdSink, StdSource, exit_code, words_after_name,
};
use std::alloc::Global;
use std::env::Args;
use std::marker::Model;
use std::process::{ExitCode, Termination};
use std::{env, io};

/// The status of a program that is not given its words. No call ends with it.
const NO_WORDS: Status = Status { number: 9 };

/// How a call of the program ended. Clauses see the number of its status. Only `where_args` makes
/// one, so `main` can end with no other.
#[derive(Drop)]
pub struct Exit {
    status: Status,
}

impl Model for Exit {
    ghost use Rattle.std.specs.Prelude.{ℕ};

    ghost Value = { ℕ };

    ghost view = { λ e. e.status.number };
}

impl Termination for Exit {
    /// The exit code is the number of the status.
    fn report<R: Eprint>(self, _rt: &R) -> ExitCode
        ensures { exit_status result ≡ self }
    {
        exit_code(self.status)
    }
}

/// Does what the words after the program's name say, and ends with the status of the call. If the
/// arguments are not given, or memory is out while they are copied, it makes no call, and ends with
/// 9.
pub fn where_args<S: Source, K: Sink, E: Sink>(
    alloc: Global,
    args: io::Result<Args>,
    source: &mut S,
    sink: &mut K,
    errors: &mut E,
) -> Exit
    ensures no_words { OnErr args
        (NoCall source.old source.new sink.old sink.new errors.old errors.new result) }
    ensures call { IfOk args (λ all.
        NoCall source.old source.new sink.old sink.new errors.old errors.new result ⊎
        Ended (map string_bytes (drop 1 (into_iter_items all)))
        (stream (S.left source.old) (S.left source.new) (S.faults source.old)
        (S.faults source.new))
        (stream (K.written sink.old) (K.written sink.new) (K.faults sink.old)
        (K.faults sink.new))
        (stream (E.written errors.old) (E.written errors.new) (E.faults errors.old)
        (E.faults errors.new))
        result) }
    // words that are no addresses read nothing
    ensures idle { IfOk args (λ all.
        queries_of (map string_bytes (drop 1 (into_iter_items all))) ≡ None →
        source.new ≡ source.old) }
    ensures reads { ReadInTurn S.reads 16777217 source.old source.new }
    ensures handed { IfOk args (λ all.
        NoCall source.old source.new sink.old sink.new errors.old errors.new result ⊎
        Handed K.puts E.puts (map string_bytes (drop 1 (into_iter_items all)))
        (S.left source.old) sink.old sink.new errors.old errors.new result) }
{
    let Ok(args) = args else {
        return Exit { status: NO_WORDS };
    };
    let Ok(words) = words_after_name(alloc, args) else {
        return Exit { status: NO_WORDS };
    };
    let status = where_words(alloc, &words, source, sink, errors);
    Exit { status }
}

/// Does what the program's arguments say, over the standard streams.
pub fn where_standard(rt: HostRuntime) -> Exit {
    let mut source = StdSource::new(rt.stdin());
    let mut sink = StdSink::new(rt.stdout());
    let mut errors = StdErrorSink::new(rt.stderr());
    where_args(
        rt.alloc(),
        env::args(&rt),
        &mut source,
        &mut sink,
        &mut errors,
    )
}
