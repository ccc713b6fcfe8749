//! Where a frame stands.

use grain_program::Chunk;

/// A frame: its chunk, the address of its instruction, the scope's length at its entry, from which
/// its slots count, and the length to which a fault cuts the scope. While it walks a chain, and until
/// a fault of the walk is caught, it has the slot by which a trace names the step that is blamed.
#[derive(Clone, Copy, Debug, PartialEq, Eq)]
pub struct Activation {
    pub chunk: Chunk,
    pub address: usize,
    pub base: usize,
    pub floor: usize,
    pub slot: Option<u32>,
}
