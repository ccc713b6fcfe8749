//! The standard streams: the trusted edge, where bytes come from and go to.

ghost use Rattle.std.specs.Prelude.{◌≡◌, None};

use crate::sinks::{Put, Sink};
use crate::sources::{Read, Source};
use std::io::{Read as StreamRead, Stdin, Stdout, Write};
use std::marker::Model;

/// Standard input. It does not say which bytes are left. A read that fails adds one to its count of
/// faults, which is what clauses see.
#[derive(Drop)]
pub struct StdSource {
    stdin: Stdin,
    failures: u64,
}

impl Model for StdSource {
    ghost use Rattle.std.specs.Prelude.{ℕ};

    ghost Value = { ℕ };

    ghost view = { λ s. s.failures };
}

impl StdSource {
    /// The source over standard input, with no faults so far.
    pub fn new(stdin: Stdin) -> StdSource
        ensures { result ≡ 0 }
    {
        StdSource { stdin, failures: 0 }
    }
}

impl Source for StdSource {
    ghost use Rattle.grain_streams.specs.Streams.{faults_after, read_failed};

    ghost left = { λ _. None };

    ghost faults = { λ s. s };

    ghost reads = { λ s _ answer t. t ≡ faults_after (read_failed answer) s };

    fn read(&mut self, buffer: &mut [u8]) -> Read {
        match self.stdin.read(buffer) {
            Ok(count) => Read::Got(count),
            Err(_) => {
                self.failures = self.failures.saturating_add(1);
                Read::Failed
            }
        }
    }
}

/// Standard output. It does not say which bytes were written. A write that fails, or takes none of
/// a piece that has bytes, adds one to its count of faults, which is what clauses see.
#[derive(Drop)]
pub struct StdSink {
    stdout: Stdout,
    failures: u64,
}

impl Model for StdSink {
    ghost use Rattle.std.specs.Prelude.{ℕ};

    ghost Value = { ℕ };

    ghost view = { λ s. s.failures };
}

impl StdSink {
    /// The sink over standard output, with no faults so far.
    pub fn new(stdout: Stdout) -> StdSink
        ensures { result ≡ 0 }
    {
        StdSink {
            stdout,
            failures: 0,
        }
    }
}

impl Sink for StdSink {
    ghost use Rattle.grain_streams.specs.Streams.{faults_after, put_failed};

    ghost written = { λ _. None };

    ghost faults = { λ s. s };

    ghost puts = { λ s _ answer t. t ≡ faults_after (put_failed answer) s };

    fn put(&mut self, bytes: &[u8]) -> Put {
        match self.stdout.write(bytes) {
            Ok(count) if count > 0 || bytes.is_empty() => Put::Took(count),
            _ => {
                self.failures = self.failures.saturating_add(1);
                Put::Failed
            }
        }
    }
}
