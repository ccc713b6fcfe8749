//! Writing a text to a sink.

ghost use Rattle.std.specs.Prelude.{◌≡◌, ◌≤◌, OnErr, OnOk};
ghost use Rattle.grain_streams.specs.Puts.{PutWhole, PutPart};
ghost use Rattle.grain_streams.specs.Streams.{Rose, added, PartAdded};

use crate::sinks::{Put, Sink};

/// The sink failed.
#[derive(Clone, Copy, Debug, PartialEq, Eq)]
pub struct SinkFailed;

/// Writes all of the text, or a part of it if the sink fails. It takes no memory.
pub fn write_all<K: Sink>(sink: &mut K, text: &[u8]) -> Result<(), SinkFailed>
    ensures whole { OnOk result (K.written sink.new ≡ added text.now (K.written sink.old)) }
    ensures part { OnErr result (PartAdded text.now (K.written sink.old) (K.written sink.new)) }
    ensures failed { OnErr result (Rose (K.faults sink.old) (K.faults sink.new)) }
    ensures counted { K.faults sink.old ≤ K.faults sink.new }
    ensures put_whole { OnOk result (PutWhole K.puts text.now sink.old sink.new) }
    ensures put_part { OnErr result (PutPart K.puts text.now sink.old sink.new) }
{
    let mut done = 0usize;
    'write: while done < text.len() {
        let (_, rest) = text.split_at(done);
        match sink.put(rest) {
            Put::Failed => return Err(SinkFailed),
            Put::Took(count) => done += count,
        }
    }
    Ok(())
}
