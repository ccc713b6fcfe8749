//! Functions, and where they stand among a program's parts.

use crate::code::parts::Chunk;
use grain_value::List;

/// Indices of pool entries.
pub type Indices = List<u32>;

/// A function: its name and its parameters' names, each by its index among the names, and its code.
#[derive(Drop)]
pub struct Function {
    pub name: u32,
    pub params: Indices,
    /// The index of the name of a type, if the function is typed: a method of the values of that type
    /// alone. `Program::method` alone finds a typed function.
    pub this_type: Option<u32>,
    pub chunk: Chunk,
}

/// The functions of a program.
pub type Functions = List<Function>;
