//! Where the chunks' instructions begin.

ghost use Rattle.std.specs.Prelude.{◌≡◌, ◌≤◌, ◌⊎◌, ℕ, List, length, IfOk};
ghost use Rattle.grain_program.specs.Layout.{Tiled};
ghost use Rattle.grain_program.specs.Owners.{Owned, IsMarked};

use crate::code::bytes::decode;
use crate::code::parts::Chunk;
use grain_value::{Blob, OutOfMemory};
use std::alloc::Global;

/// The chunk of which an instruction begins at an address: its end, which is 0 where none begins.
#[derive(Clone, Copy, Debug, PartialEq, Eq)]
pub struct Owner {
    pub end: u32,
}

/// Makes the chunk the owner of its instructions' starts.
fn mark(code: &Blob, chunk: Chunk, owners: &mut [Owner])
    requires inside { (chunk.entry ≤ chunk.end) × (chunk.end ≤ length code.now) }
    requires room { length owners.old ≡ length code.now }
    ensures length_same { length owners.new ≡ length owners.old }
    ensures marked { IsMarked code.now chunk owners.old owners.new }
{
    let owner = Owner { end: chunk.end };
    let end = chunk.end as usize;
    let mut at = chunk.entry as usize;
    while at < end {
        owners[at] = owner;
        match decode(code, at) {
            Some((_, width)) => at += width,
            None => return,
        }
    }
}

/// The table of instruction starts: at each the chunk that owns it.
pub fn owners_of(alloc: Global, code: &Blob, chunks: &[Chunk]) -> Result<Vec<Owner>, OutOfMemory>
    requires { Tiled (length code.now) chunks.now }
    ensures { IfOk result (λ owners. Owned code.now chunks.now (length chunks.now) owners.items) }
{
    let nobody = Owner { end: 0 };
    let mut owners = vec![in alloc; nobody; code.len()]?;
    for chunk in chunks {
        mark(code, *chunk, &mut owners);
    }
    Ok(owners)
}
