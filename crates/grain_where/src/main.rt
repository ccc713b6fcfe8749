//! The program: it reads a listing from standard input, and writes the lines whose code stands at
//! the addresses that its words say, and the lines of the steps that begin at their slots.
#![tactic(auto)]

use grain_addresses::{Exit, where_standard};

fn main(rt: HostRuntime) -> Exit {
    where_standard(rt)
}
