//! Sinks of bytes.

ghost use Rattle.std.specs.Prelude.{ℕ, List, Option};
ghost use Rattle.grain_streams.specs.declared.sinks.Put.{Put};
ghost use Rattle.grain_streams.specs.Streams.{WasPut, CountsPut};

/// What a put did.
#[derive(Clone, Copy, Debug, PartialEq, Eq)]
pub enum Put {
    /// n bytes were taken, from the front of the piece: at least one of a piece that has any.
    Took(usize),
    /// The sink failed, and took none.
    Failed,
}

/// A sink of bytes. It counts its faults, and it may say which bytes were written. The count never
/// falls.
///
/// `puts s piece answer t` says that in the state `s` a put of this piece may give this answer and
/// leave the state `t`.
pub trait Sink {
    ghost written: { Self → Option (List ℕ) };

    ghost faults: { Self → ℕ };

    ghost puts: { Self → List ℕ → Put → Self → Type 0 };

    /// Writes bytes from the front of the piece, and says how many. It fails only if its count of
    /// faults rises, and then writes none.
    fn put(&mut self, bytes: &[u8]) -> Put
        ensures step { puts self.old bytes.now result self.new }
        ensures bytes { WasPut result (written self.old) (written self.new) bytes.now }
        ensures count { CountsPut result (faults self.old) (faults self.new) };
}
