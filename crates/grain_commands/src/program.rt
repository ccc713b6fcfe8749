//! The whole program, over any source and sink: from its arguments to its exit code.

ghost use Rattle.std.specs.Prelude.{◌≡◌, ◌⊎◌, ◌<◌, false, IfOk, OnErr, drop, map, string_bytes};
ghost use Rattle.std.specs.Process.{exit_status};
ghost use Rattle.std.specs.Vec.Iter.{into_iter_items};
ghost use Rattle.grain_commands.specs.Programs.{Call, NoCall};
ghost use Rattle.grain_streams.specs.Reads.{ReadInTurn};
ghost use Rattle.grain_commands.specs.Replies.{is_run, counts_of, Handed};

use crate::commands::run_words;
use grain_streams::{Sink, Source, Status, exit_code, words_after_name};
use grain_vm::Steps;
use std::alloc::Global;
use std::env::Args;
use std::io;
use std::marker::Model;
use std::process::{ExitCode, Termination};
use std::sync::ledger::{Blank, Ledger};

/// The status of a program that is not given its words. No call ends with it.
const NO_WORDS: Status = Status { number: 9 };

/// How a call of the program ended. Clauses see the number of its status. Only `run_args` makes
/// one, so `main` can end with no other.
#[derive(Drop)]
pub struct Exit {
    status: Status,
}

impl Model for Exit {
    ghost use Rattle.std.specs.Prelude.{ℕ};

    ghost Value = { ℕ };

    ghost view = { λ e. e.status.number };
}

impl Termination for Exit {
    /// The exit code is the number of the status.
    fn report<R: Eprint>(self, _rt: &R) -> ExitCode
        ensures { exit_status result ≡ self }
    {
        exit_code(self.status)
    }
}

/// Does what the words after the program's name say, with counts of instructions and marks that
/// begin at 0, and ends with the status of the call. If the arguments are not given, or memory is
/// out while they are copied, it makes no call, and ends with 9.
pub fn run_args<S: Source, K: Sink, L: Ledger>(
    alloc: Global,
    args: io::Result<Args>,
    source: &mut S,
    sink: &mut K,
    blank: Blank,
) -> Exit
    requires name { blank.name ≡ L.name }
    requires parts { blank.parts ≡ L.parts }
    requires enough { 5 < blank.parts }
    ensures no_words { OnErr args (NoCall source.old source.new sink.old sink.new result) }
    ensures call { IfOk args (λ all.
        NoCall source.old source.new sink.old sink.new result ⊎
        Call (map string_bytes (drop 1 (into_iter_items all)))
        (S.left source.old) (S.left source.new) (K.written sink.old) (K.written sink.new)
        (counts_of (S.faults source.old) (S.faults source.new)
        (K.faults sink.old) (K.faults sink.new))
        result) }
    ensures idle { IfOk args (λ all.
        is_run (map string_bytes (drop 1 (into_iter_items all))) ≡ false →
        source.new ≡ source.old) }
    ensures reads { ReadInTurn S.reads 16777217 source.old source.new }
    ensures handed { IfOk args (λ all.
        NoCall source.old source.new sink.old sink.new result ⊎
        Handed K.puts (map string_bytes (drop 1 (into_iter_items all)))
        (S.left source.old) sink.old sink.new result) }
{
    let mut steps = Steps::<L>::new(blank);
    let Ok(args) = args else {
        return Exit { status: NO_WORDS };
    };
    let Ok(words) = words_after_name(alloc, args) else {
        return Exit { status: NO_WORDS };
    };
    let status = run_words(alloc, &words, source, sink, &mut steps);
    Exit { status }
}
