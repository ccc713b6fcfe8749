//! The program over the arguments and the standard streams that the system gives.

use crate::program::{Exit, run_args};
use grain_streams::{StdSink, StdSource};
use std::env;
use std::marker::Brand;
use std::sync::ledger::Blank;

/// Into how many shares the counts of instructions and marks can be split: two of each are held,
/// and each run splits one off for a moment.
const SHARES: u64 = 8;

/// Does what the program's arguments say, over the standard streams.
pub fn run_standard(rt: HostRuntime) -> Exit {
    let mut source = StdSource::new(rt.stdin());
    let mut sink = StdSink::new(rt.stdout());
    run_args::<StdSource, StdSink, Brand>(
        rt.alloc(),
        env::args(&rt),
        &mut source,
        &mut sink,
        Blank::new(SHARES),
    )
}
