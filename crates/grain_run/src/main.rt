//! The program: it reads a listing from standard input, verifies it, runs it and writes how the run
//! ended.
#![tactic(auto)]

use grain_commands::{Exit, run_standard};

fn main(rt: HostRuntime) -> Exit {
    run_standard(rt)
}
