//! Sources in memory.

ghost use Rattle.std.specs.Prelude.{◌≡◌, ◌≤◌, length, min, take, drop};

use crate::call_numbers::CallNumbers;
use crate::sources::{Read, Source};
use grain_value::Blob;
use std::marker::Model;

/// A source that holds its bytes. A read fills as much of the slice as the bytes allow, and fails
/// if its number is among those that are to fail. It takes no memory.
#[derive(Drop)]
pub struct MemorySource {
    bytes: Blob,
    place: usize,
    failing: CallNumbers,
    calls: u64,
    failures: u64,
}

impl Model for MemorySource {
    ghost use Rattle.std.specs.Prelude.{◌≤◌, length, drop};
    ghost use Rattle.grain_streams.specs.Memory.{SourceView};

    ghost Value = { SourceView };

    ghost view = { λ s. record {
      left = drop s.place s.bytes;
      failing = s.failing;
      calls = s.calls;
      faults = s.failures;
    } };

    ghost invariant = { λ s. s.place ≤ length s.bytes };
}

/// Copies as many bytes as both slices have, and says how many.
fn copy_front(from: &[u8], into: &mut [u8]) -> usize
    ensures count { result ≡ min (length from.now) (length into.new) }
    ensures copied { take result into.new ≡ take result from.now }
{
    let count = from.len().min(into.len());
    into[..count].copy_from_slice(&from[..count]);
    count
}

impl MemorySource {
    /// A source of these bytes, whose reads with these numbers fail. It takes no memory.
    pub fn new(bytes: Blob, failing: CallNumbers) -> MemorySource
        ensures { result ≡ record { left = bytes; failing = failing; calls = 0; faults = 0 } }
    {
        MemorySource {
            bytes,
            place: 0,
            failing,
            calls: 0,
            failures: 0,
        }
    }
}

impl Source for MemorySource {
    ghost use Rattle.std.specs.Prelude.{Some};
    ghost use Rattle.grain_streams.specs.Memory.{next_read, after_read};

    ghost left = { λ s. Some s.left };

    ghost faults = { λ s. s.faults };

    ghost reads = { λ s room answer t. (answer ≡ next_read s room) × (t ≡ after_read s answer) };

    fn read(&mut self, buffer: &mut [u8]) -> Read {
        self.calls = self.calls.saturating_add(1);
        if self.failing.contains(self.calls) {
            self.failures = self.failures.saturating_add(1);
            return Read::Failed;
        }
        let (_, left) = self.bytes.as_slice().split_at(self.place);
        if left.is_empty() && !buffer.is_empty() {
            return Read::End;
        }
        let count = copy_front(left, buffer);
        self.place += count;
        Read::Got(count)
    }
}
