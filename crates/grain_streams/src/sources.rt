//! Sources of bytes.

ghost use Rattle.std.specs.Prelude.{ℕ, List, Option, length};
ghost use Rattle.grain_streams.specs.declared.sources.Read.{Read};
ghost use Rattle.grain_streams.specs.Streams.{WasRead, CountsRead};

/// What a read gave.
#[derive(Clone, Copy, Debug, PartialEq, Eq)]
pub enum Read {
    /// n bytes, at the front of the slice. 0 for a slice that is not empty is the end of input.
    Got(usize),
    /// No bytes are left.
    End,
    /// The source failed.
    Failed,
}

/// A source of bytes. It counts its faults, and it may say which bytes are left. The count never
/// falls.
///
/// `reads s room answer t` says that in the state `s` a read of a slice of the length `room` may
/// give this answer and leave the state `t`. A caller's contract can say by it which reads were
/// made.
pub trait Source {
    ghost left: { Self → Option (List ℕ) };

    ghost faults: { Self → ℕ };

    ghost reads: { Self → ℕ → Read → Self → Type 0 };

    /// Moves bytes that are left to the front of the slice, and says how many. It moves none of
    /// them into a slice that is not empty only if none are left. It fails only if its count of
    /// faults rises, and then leaves the bytes.
    fn read(&mut self, buffer: &mut [u8]) -> Read
        ensures step { reads self.old (length buffer.old) result self.new }
        ensures bytes { WasRead result (left self.old) (left self.new) buffer.new }
        ensures count { CountsRead result (faults self.old) (faults self.new) };
}
