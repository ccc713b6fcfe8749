//! The commands: the call that does all that the program does.

ghost use Rattle.std.specs.Prelude.{◌≡◌, ◌≤◌, ℕ, List, Option, true, false, IfOk, OnErr, map, string_bytes};
ghost use Rattle.grain_streams.specs.Reads.{ReadInTurn};
ghost use Rattle.grain_commands.specs.Headline.{PrintsCoreEnd};
ghost use Rattle.grain_commands.specs.Replies.{is_run, counts_of, Answers, Ended, Handed};
ghost use Rattle.grain_commands.specs.Statuses.{Beside, Completes, IsReadThrough};
ghost use Rattle.grain_streams.specs.Streams.{Rose, TakenWithin};

use crate::laws::statuses_are_due;
use crate::pipeline::{run_listing, run_self};
use crate::replies::{Reply, usage};
use crate::self_listings::self_number;
use grain_listing::MOST_BYTES;
use grain_streams::{Sink, SinkFailed, Source, SourceFailed, Status, read_all, write_all};
use grain_value::OutOfMemory;
use grain_vm::Steps;
use std::alloc::Global;
use std::sync::ledger::Ledger;

/// Whether the words are the command `run`.
fn is_run(words: &[String]) -> bool
    ensures { result ≡ is_run (map string_bytes words.now) }
{
    match words {
        [word] => word.as_str() == "run",
        _ => false,
    }
}

/// What is answered to words for which nothing is read.
fn answer_unread<L: Ledger>(
    alloc: Global,
    words: &[String],
    steps: &mut Steps<L>,
) -> Result<Reply, OutOfMemory>
    requires unread { is_run (map string_bytes words.now) ≡ false }
    ensures { (input : Option (List ℕ)) → IfOk result (λ r.
        Answers (map string_bytes words.now) input r.status r.text) }
{
    match self_number(alloc, words)? {
        None => usage(alloc),
        Some(count) => run_self(alloc, count, steps),
    }
}

/// What is answered to the words and to what the source holds.
fn answer<S: Source, L: Ledger>(
    alloc: Global,
    words: &[String],
    source: &mut S,
    steps: &mut Steps<L>,
) -> Result<Result<Reply, SourceFailed>, OutOfMemory>
    ensures answers { IfOk result (λ o. IfOk o (λ r.
        Answers (map string_bytes words.now) (S.left source.old) r.status r.text)) }
    ensures failed { IfOk result (λ o. OnErr o (Rose (S.faults source.old) (S.faults source.new))) }
    ensures command { IfOk result (λ o. OnErr o (is_run (map string_bytes words.now) ≡ true)) }
    ensures through { IfOk result (λ o. IfOk o (λ r.
        IsReadThrough (map string_bytes words.now) r.status (S.left source.new))) }
    ensures bounded { TakenWithin 16777217 (S.left source.old) (S.left source.new) }
    ensures idle { is_run (map string_bytes words.now) ≡ false → source.new ≡ source.old }
    ensures counted { S.faults source.old ≤ S.faults source.new }
    ensures reads { ReadInTurn S.reads 16777217 source.old source.new }
{
    if !is_run(words) {
        let reply = answer_unread(alloc, words, steps)?;
        return Ok(Ok(reply));
    }
    match read_all(alloc, source, MOST_BYTES)? {
        Err(failed) => Ok(Err(failed)),
        Ok(bytes) => {
            let reply = run_listing(alloc, bytes.as_slice(), steps)?;
            Ok(Ok(reply))
        }
    }
}

/// Answers the words, and writes the answer's text.
fn answer_and_write<S: Source, K: Sink, L: Ledger>(
    alloc: Global,
    words: &[String],
    source: &mut S,
    sink: &mut K,
    steps: &mut Steps<L>,
) -> Status
    ensures bounded { TakenWithin 16777217 (S.left source.old) (S.left source.new) }
    ensures through { IsReadThrough (map string_bytes words.now) result.number (S.left source.new) }
    ensures idle { is_run (map string_bytes words.now) ≡ false → source.new ≡ source.old }
    ensures counted { (S.faults source.old ≤ S.faults source.new) ×
        (K.faults sink.old ≤ K.faults sink.new) }
    ensures ended { Ended (map string_bytes words.now)
        (S.left source.old) (K.written sink.old) (K.written sink.new)
        (counts_of (S.faults source.old) (S.faults source.new)
        (K.faults sink.old) (K.faults sink.new))
        result.number }
    ensures reads { ReadInTurn S.reads 16777217 source.old source.new }
    ensures handed { Handed K.puts (map string_bytes words.now)
        (S.left source.old) sink.old sink.new result.number }
{
    match answer(alloc, words, source, steps) {
        Err(OutOfMemory) => Status { number: 7 },
        Ok(answered) => match answered {
            Err(SourceFailed) => Status { number: 5 },
            Ok(reply) => match write_all(sink, reply.text.as_str().as_bytes()) {
                Ok(()) => Status {
                    number: reply.status,
                },
                Err(SinkFailed) => Status { number: 6 },
            },
        },
    }
}

/// Does what the words say. For `run` it reads a listing from the source, verifies it, runs it, and
/// writes the report of its end to the sink. At most 16,777,217 bytes are read. For `self` and a number
/// from 1 to 10000 it does the same with a listing that it makes, of that many functions, and reads
/// nothing. The status, and what is written:
/// - 0, the run ended in a value: its report, or for `self` the value and how many operations there
///   were;
/// - 1, the run ended in a fault of the script: its report;
/// - 2, the words are no command: the usage;
/// - 3, the source holds no listing: the reason;
/// - 4, the verification refuses the listing: where and why;
/// - 5, the source failed: nothing;
/// - 6, the sink failed: a part of the text, from its front;
/// - 7, memory was out: nothing.
///
/// If no stream fails, the status is the one that is due, or 7.
pub fn run_words<S: Source, K: Sink, L: Ledger>(
    alloc: Global,
    words: &Vec<String>,
    source: &mut S,
    sink: &mut K,
    steps: &mut Steps<L>,
) -> Status
    ensures bounded { TakenWithin 16777217 (S.left source.old) (S.left source.new) }
    // a source whose run ended was read to its end, and words that are not `run` read nothing
    ensures through { IsReadThrough (map string_bytes words.now.items) result.number
        (S.left source.new) }
    ensures idle { is_run (map string_bytes words.now.items) ≡ false → source.new ≡ source.old }
    ensures counted { (S.faults source.old ≤ S.faults source.new) ×
        (K.faults sink.old ≤ K.faults sink.new) }
    // the answer, and whether it was written
    ensures ended { Ended (map string_bytes words.now.items)
        (S.left source.old) (K.written sink.old) (K.written sink.new)
        (counts_of (S.faults source.old) (S.faults source.new)
        (K.faults sink.old) (K.faults sink.new))
        result.number }
    // what is written, by the status
    ensures beside { Beside (map string_bytes words.now.items)
        (S.left source.old) (K.written sink.old) (K.written sink.new)
        (counts_of (S.faults source.old) (S.faults source.new)
        (K.faults sink.old) (K.faults sink.new))
        result.number }
    // which status is due
    ensures complete { Completes (map string_bytes words.now.items)
        (S.left source.old) (K.written sink.old) (K.written sink.new)
        (counts_of (S.faults source.old) (S.faults source.new)
        (K.faults sink.old) (K.faults sink.new))
        result.number }
    // the end of a core program's run is printed
    ensures headline { PrintsCoreEnd (map string_bytes words.now.items)
        (S.left source.old) (K.written sink.old) (K.written sink.new)
        (counts_of (S.faults source.old) (S.faults source.new)
        (K.faults sink.old) (K.faults sink.new))
        result.number }
    // which reads and which puts were made
    ensures reads { ReadInTurn S.reads 16777217 source.old source.new }
    ensures handed { Handed K.puts (map string_bytes words.now.items)
        (S.left source.old) sink.old sink.new result.number }
{
    statuses_are_due();
    answer_and_write(alloc, words.as_slice(), source, sink, steps)
}
