//! Standard error as a sink.

ghost use Rattle.std.specs.Prelude.{◌≡◌, None};

use crate::sinks::{Put, Sink};
use std::io::{Stderr, Write};
use std::marker::Model;

/// Standard error. It does not say which bytes were written. A write that fails, or takes none of a
/// piece that has bytes, adds one to its count of faults, which is what clauses see.
#[derive(Drop)]
pub struct StdErrorSink {
    stderr: Stderr,
    failures: u64,
}

impl Model for StdErrorSink {
    ghost use Rattle.std.specs.Prelude.{ℕ};

    ghost Value = { ℕ };

    ghost view = { λ s. s.failures };
}

impl StdErrorSink {
    /// The sink over standard error, with no faults so far.
    pub fn new(stderr: Stderr) -> StdErrorSink
        ensures { result ≡ 0 }
    {
        StdErrorSink {
            stderr,
            failures: 0,
        }
    }
}

impl Sink for StdErrorSink {
    ghost use Rattle.grain_streams.specs.Streams.{faults_after, put_failed};

    ghost written = { λ _. None };

    ghost faults = { λ s. s };

    ghost puts = { λ s _ answer t. t ≡ faults_after (put_failed answer) s };

    fn put(&mut self, bytes: &[u8]) -> Put {
        match self.stderr.write(bytes) {
            Ok(count) if count > 0 || bytes.is_empty() => Put::Took(count),
            _ => {
                self.failures = self.failures.saturating_add(1);
                Put::Failed
            }
        }
    }
}
