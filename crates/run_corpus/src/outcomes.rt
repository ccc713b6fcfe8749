//! How runs end, and whether that is as expected.

ghost use Rattle.std.specs.Prelude.{◌≡◌, ◌↔◌, IsTrue, IfOk, false};
ghost use Rattle.grain_listing.specs.Reading.{reads};
ghost use Rattle.grain_commands.specs.Replies.{Replies};

use grain_commands::{Reply, run_listing};
use grain_value::OutOfMemory;
use grain_vm::Steps;
use std::alloc::Global;
use std::sync::ledger::Ledger;

/// How a case is expected to end.
#[derive(Drop)]
pub struct Expected {
    /// The status of the program.
    pub status: u8,
    /// All that it writes.
    pub report: Vec<u8>,
}

/// Whether a reply is the expected one: that status, and those bytes and no others.
pub fn is_as_expected(reply: &Reply, expected: &Expected) -> bool
    ensures { IsTrue result ↔ ((reply.now.status ≡ expected.now.status) ×
        (reply.now.text ≡ expected.now.report.items)) }
{
    reply.status == expected.status && reply.text.as_str().as_bytes() == expected.report.as_slice()
}

/// The reply to a listing, by the call that the command `run` makes with the bytes of its source.
pub fn reply_of<L: Ledger>(
    alloc: Global,
    listing: &[u8],
    steps: &mut Steps<L>,
) -> Result<Reply, OutOfMemory>
    ensures { IfOk result (λ r. Replies false (reads listing.now) r.status r.text) }
{
    run_listing(alloc, listing, steps)
}
