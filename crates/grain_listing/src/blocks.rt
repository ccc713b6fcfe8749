//! Blocks of code.

use crate::headers::FunctionHeader;

/// The block that is open: `main` with the address of its first instruction and how many operands
/// it may have at once, or a function with the address of its first instruction and its header.
#[derive(Drop)]
pub enum OpenBlock {
    Main(u32, u16),
    Function(u32, FunctionHeader),
}
