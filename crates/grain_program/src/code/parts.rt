//! What may become a program.

use crate::code::caps::Caps;
use crate::code::chains::Chains;
use crate::code::functions::Functions;
use crate::code::pools::{AssignOps, Names, Positions, Tokens};
use crate::code::switches::Switches;
use grain_fault::Position;
use grain_value::{Array, Blob, Text, Token};

/// A stretch of the code: its first address, the address after it, and how many operands its frame
/// may have.
#[derive(Clone, Copy, Debug, PartialEq, Eq)]
pub struct Chunk {
    /// The address of its first instruction.
    pub entry: u32,
    /// The address after its last byte.
    pub end: u32,
    /// How many operands a frame of it may have.
    pub max_stack: u16,
}

/// An op-assignment: `op=` by token and name, and then `op`.
#[derive(Clone, Copy, Debug, PartialEq, Eq)]
pub struct AssignOp {
    /// The op-assignment's token, as `+=`.
    pub op_assign: Token,
    /// The index of its name, under which the host is asked first.
    pub op_assign_name: u32,
    /// The operator's token, as `+`.
    pub op: Token,
    /// The index of its name, under which the host is asked where it has no op-assignment.
    pub op_name: u32,
}

/// The position of the instruction at an address.
#[derive(Clone, Copy, Debug, PartialEq, Eq)]
pub struct PositionEntry {
    /// Where the instruction begins.
    pub address: u32,
    /// Where it stands in the script.
    pub position: Position,
}

/// Code with its chunks, its pools, what it may do, and where it comes from.
#[derive(Drop)]
pub struct Parts {
    /// What the code may do.
    pub caps: Caps,
    /// The instructions of all chunks.
    pub code: Blob,
    /// The constants, by index.
    pub consts: Array,
    /// The operators, by index.
    pub tokens: Tokens,
    /// The op-assignments, by index.
    pub assign_ops: AssignOps,
    /// The functions, by number.
    pub functions: Functions,
    /// The names, by index.
    pub names: Names,
    /// The chunk that a run begins with.
    pub main: Chunk,
    /// The chains, by index.
    pub chains: Chains,
    /// The switches, by index.
    pub switches: Switches,
    /// The positions of the instructions, by ascending address.
    pub positions: Positions,
    /// The name of the script that the code was made from, if it has one.
    pub source: Option<Text>,
}
