//! How an instruction of a frame is read.

ghost use Rattle.std.specs.Prelude.{◌≡◌, ◌≤◌, ◌+◌, ℕ, List, length, Some};
ghost use Rattle.grain_program.specs.Decoding.{op_at};
ghost use Rattle.grain_program.specs.Indices.{InPools};
ghost use Rattle.grain_program.specs.Layout.{most_code};
ghost use Rattle.grain_program.specs.Shapes.{TryHandler};
ghost use Rattle.grain_program.specs.TypedAt.{IsTypedAt, Provides, Verified};
ghost use Rattle.grain_frame.specs.Abstraction.{Runs};

use crate::activations::Activation;
use crate::contexts::Context;
use crate::runs::Run;
use grain_host::Host;
use grain_program::{Chunk, Op};

/// The instruction at which the frame stands, and its width in bytes.
#[inline(always)]
pub fn fetch<H: Host>(run: &Run<H>, context: Context<'_>, frame: &Activation) -> (Op, usize)
    requires runs { Runs context.program.now frame.now run.now }
    ensures read { op_at context.entry.program.now.code frame.now.address
        ≡ Some (result.0, result.1) }
    ensures provides { Provides context.entry.program.now frame.now.chunk frame.now.address
        (length run.now.stacks.operands) result.0 result.1 }
    ensures verified { (depth cursors : ℕ) (handlers : List TryHandler) →
        IsTypedAt context.entry.program.now frame.now.chunk frame.now.address depth cursors
        handlers →
        Verified context.entry.program.now frame.now.chunk frame.now.address depth cursors handlers
        result.0 result.1 }
{
    // Only the contract names it.
    let _run = run;
    context.program.fetch(frame.chunk, frame.address)
}

// The instruction at an address at which a frame of the chunk would stand, and its width in bytes.
#[inline(always)]
pub(crate) fn fetch_at(context: Context<'_>, chunk: Chunk, address: usize) -> (Op, usize)
    requires { (depth : ℕ) × ((cursors : ℕ) × ((handlers : List TryHandler) ×
        IsTypedAt context.program.now chunk address depth cursors handlers)) }
    ensures read { op_at context.entry.program.now.code address ≡ Some (result.0, result.1) }
    ensures wide { 1 ≤ result.1 }
    ensures fits { address + result.1 ≤ most_code }
    ensures pools { InPools context.entry.program.now result.0 }
    ensures verified { (depth cursors : ℕ) (handlers : List TryHandler) →
        IsTypedAt context.entry.program.now chunk address depth cursors handlers →
        Verified context.entry.program.now chunk address depth cursors handlers result.0 result.1 }
{
    context.program.fetch(chunk, address)
}
