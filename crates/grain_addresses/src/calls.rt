//! The call that does all that the program does, over any source and sinks.

ghost use Rattle.std.specs.Prelude.{◌≡◌, ◌≤◌, None, IfOk, OnErr, map, string_bytes};
ghost use Rattle.grain_streams.specs.Reads.{ReadInTurn};
ghost use Rattle.grain_streams.specs.Streams.{Rose, TakenWithin};
ghost use Rattle.grain_addresses.specs.Calls.{stream, IsDue, Answered, Unanswered, Ended, AnswerHanded, UsageHanded, Handed};
ghost use Rattle.grain_addresses.specs.Queries.{queries_of};

use crate::answers::explain;
use crate::queries::{Query, queries_of};
use crate::replies::{Reply, usage};
use grain_listing::MOST_BYTES;
use grain_streams::{Sink, SinkFailed, Source, SourceFailed, Status, read_all, write_all};
use grain_value::OutOfMemory;
use std::alloc::Global;

/// What is answered to what the source holds.
fn answer<S: Source>(
    alloc: Global,
    queries: &[Query],
    source: &mut S,
) -> Result<Result<Reply, SourceFailed>, OutOfMemory>
    ensures due { IfOk result (λ o. IfOk o (λ r.
        IsDue (S.left source.old) queries.now r.status r.text)) }
    ensures failed { IfOk result (λ o. OnErr o (Rose (S.faults source.old) (S.faults source.new))) }
    ensures bounded { TakenWithin 16777217 (S.left source.old) (S.left source.new) }
    ensures counted { S.faults source.old ≤ S.faults source.new }
    ensures reads { ReadInTurn S.reads 16777217 source.old source.new }
{
    match read_all(alloc, source, MOST_BYTES)? {
        Err(failed) => Ok(Err(failed)),
        Ok(bytes) => {
            let reply = explain(alloc, bytes.as_slice(), queries)?;
            Ok(Ok(reply))
        }
    }
}

/// Answers what is asked of the listing that the source holds, and writes the answer.
fn answer_and_write<S: Source, K: Sink>(
    alloc: Global,
    queries: &[Query],
    source: &mut S,
    sink: &mut K,
) -> Status
    ensures bounded { TakenWithin 16777217 (S.left source.old) (S.left source.new) }
    ensures counted { (S.faults source.old ≤ S.faults source.new) ×
        (K.faults sink.old ≤ K.faults sink.new) }
    ensures answered { Answered queries.now
        (stream (S.left source.old) (S.left source.new) (S.faults source.old)
        (S.faults source.new))
        (stream (K.written sink.old) (K.written sink.new) (K.faults sink.old)
        (K.faults sink.new))
        result.number }
    ensures reads { ReadInTurn S.reads 16777217 source.old source.new }
    ensures handed { AnswerHanded K.puts queries.now (S.left source.old) sink.old sink.new
        result.number }
{
    match answer(alloc, queries, source) {
        Err(OutOfMemory) => Status { number: 7 },
        Ok(answered) => match answered {
            Err(SourceFailed) => Status { number: 5 },
            Ok(reply) => match write_all(sink, reply.text.as_str().as_bytes()) {
                Ok(()) => Status {
                    number: reply.status,
                },
                Err(SinkFailed) => Status { number: 6 },
            },
        },
    }
}

/// Writes the usage.
fn write_usage<E: Sink>(alloc: Global, errors: &mut E) -> Status
    ensures unanswered { Unanswered
        (stream (E.written errors.old) (E.written errors.new) (E.faults errors.old)
        (E.faults errors.new))
        result.number }
    ensures counted { E.faults errors.old ≤ E.faults errors.new }
    ensures handed { UsageHanded E.puts errors.old errors.new result.number }
{
    match usage(alloc) {
        Err(OutOfMemory) => Status { number: 7 },
        Ok(reply) => match write_all(errors, reply.text.as_str().as_bytes()) {
            Ok(()) => Status {
                number: reply.status,
            },
            Err(SinkFailed) => Status { number: 6 },
        },
    }
}

/// Reads a listing from the source, and writes the lines whose code stands at the addresses that
/// the words say, or all lines that give code if there are no words. At most 16,777,217 bytes are
/// read. The status, and what is written:
/// - 0, the code of a line begins at each address, and where a slot is asked for a step has it: those
///   lines, and the lines of the steps;
/// - 1, at an address no line's code begins, or no step there has the slot that is asked for: the
///   same, with a line that says so;
/// - 2, a word is no address: the usage, to the sink of errors;
/// - 3, the source holds no listing: the reason;
/// - 5, the source failed: nothing;
/// - 6, a sink failed: a part of the text, from its front;
/// - 7, memory was out: nothing.
pub fn where_words<S: Source, K: Sink, E: Sink>(
    alloc: Global,
    words: &Vec<String>,
    source: &mut S,
    sink: &mut K,
    errors: &mut E,
) -> Status
    ensures bounded { TakenWithin 16777217 (S.left source.old) (S.left source.new) }
    ensures counted { (S.faults source.old ≤ S.faults source.new) ×
        (K.faults sink.old ≤ K.faults sink.new) × (E.faults errors.old ≤ E.faults errors.new) }
    // words that are no addresses read nothing
    ensures idle { queries_of (map string_bytes words.now.items) ≡ None →
        source.new ≡ source.old }
    // the answer, and whether it was written
    ensures ended { Ended (map string_bytes words.now.items)
        (stream (S.left source.old) (S.left source.new) (S.faults source.old)
        (S.faults source.new))
        (stream (K.written sink.old) (K.written sink.new) (K.faults sink.old)
        (K.faults sink.new))
        (stream (E.written errors.old) (E.written errors.new) (E.faults errors.old)
        (E.faults errors.new))
        result.number }
    // which reads and which puts were made
    ensures reads { ReadInTurn S.reads 16777217 source.old source.new }
    ensures handed { Handed K.puts E.puts (map string_bytes words.now.items)
        (S.left source.old) sink.old sink.new errors.old errors.new result.number }
{
    match queries_of(alloc, words.as_slice()) {
        Err(OutOfMemory) => Status { number: 7 },
        Ok(asked) => match asked {
            None => write_usage(alloc, errors),
            Some(queries) => answer_and_write(alloc, queries.as_slice(), source, sink),
        },
    }
}
