//! Sinks in memory.

ghost use Rattle.std.specs.Prelude.{◌≡◌, ◌≤◌, ◌+◌, ◌++◌, [], length, min, take, IfOk};
ghost use Rattle.std.specs.Vec.{vec_capacity};

use crate::call_numbers::CallNumbers;
use crate::sinks::{Put, Sink};
use grain_value::OutOfMemory;
use std::alloc::Global;
use std::marker::Model;

/// A sink that keeps what is written, up to a room in bytes that it reserves when it is made. A put
/// takes as many bytes as still fit. It fails if its number is among those that are to fail, and if
/// the piece has bytes and no room is left. It takes no memory.
#[derive(Drop)]
pub struct MemorySink {
    taken: Vec<u8>,
    room: usize,
    failing: CallNumbers,
    calls: u64,
    failures: u64,
}

impl Model for MemorySink {
    ghost use Rattle.std.specs.Prelude.{◌+◌, ◌≤◌, length};
    ghost use Rattle.std.specs.Vec.{vec_capacity};
    ghost use Rattle.grain_streams.specs.Memory.{SinkView};

    ghost Value = { SinkView };

    ghost view = { λ s. record {
      written = s.taken.items;
      room = s.room;
      failing = s.failing;
      calls = s.calls;
      faults = s.failures;
    } };

    ghost invariant = { λ s. length s.taken.items + s.room ≤ vec_capacity s.taken };
}

/// Puts as many bytes as the room allows after those that were taken, and says how many. It takes
/// no memory.
fn take_front(taken: &mut Vec<u8>, room: usize, piece: &[u8]) -> usize
    requires { length taken.old.items + room ≤ vec_capacity taken.old }
    ensures count { result ≡ min room (length piece.now) }
    ensures taken { taken.new.items ≡ taken.old.items ++ take result piece.now }
    ensures capacity { vec_capacity taken.old ≤ vec_capacity taken.new }
{
    let count = room.min(piece.len());
    match taken.extend_from_slice(&piece[..count]) {
        Ok(()) => count,
        Err(_) => unreachable!(),
    }
}

impl MemorySink {
    /// A sink with room for this many bytes, whose puts with these numbers fail.
    pub fn new(alloc: Global, room: usize, failing: CallNumbers) -> Result<MemorySink, OutOfMemory>
        ensures { IfOk result (λ s. s ≡
            record { written = []; room = room; failing = failing; calls = 0; faults = 0 }) }
    {
        let taken = Vec::with_capacity(alloc, room)?;
        Ok(MemorySink {
            taken,
            room,
            failing,
            calls: 0,
            failures: 0,
        })
    }

    /// What was written.
    pub fn bytes(&self) -> &[u8]
        ensures { result.now ≡ self.now.written }
    {
        self.taken.as_slice()
    }
}

impl Sink for MemorySink {
    ghost use Rattle.std.specs.Prelude.{Some};
    ghost use Rattle.grain_streams.specs.Memory.{next_put, after_put};

    ghost written = { λ s. Some s.written };

    ghost faults = { λ s. s.faults };

    ghost puts = { λ s piece answer t. (answer ≡ next_put s (length piece)) ×
        (t ≡ after_put s piece answer) };

    fn put(&mut self, bytes: &[u8]) -> Put {
        self.calls = self.calls.saturating_add(1);
        if self.failing.contains(self.calls) || (!bytes.is_empty() && self.room == 0) {
            self.failures = self.failures.saturating_add(1);
            return Put::Failed;
        }
        let count = take_front(&mut self.taken, self.room, bytes);
        self.room -= count;
        Put::Took(count)
    }
}
