//! The layout of the chunks, which have to tile the code.

ghost use Rattle.std.specs.Prelude.{◌≡◌};
ghost use Rattle.grain_program.specs.Layout.{layout_fault};

use crate::code::parts::Chunk;

/// The longest code, in bytes.
pub const LIMIT: usize = 16_777_216;

/// The address where the layout of the chunks fails.
#[tactic(auto, unfolding(crate::specs::Layout::layout_fault))]
pub fn misplaced(len: usize, chunks: &[Chunk]) -> Option<usize>
    ensures { result ≡ layout_fault len chunks.now }
{
    if len > LIMIT {
        return Some(LIMIT);
    }
    let mut at = 0u32;
    for chunk in chunks {
        if chunk.entry != at || chunk.end < at || chunk.end as usize > len {
            return Some(chunk.entry as usize);
        }
        at = chunk.end;
    }
    if at as usize == len {
        None
    } else {
        Some(at as usize)
    }
}
