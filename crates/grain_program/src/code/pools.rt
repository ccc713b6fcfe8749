//! The pools of a program, and the positions of its instructions.

use crate::code::parts::{AssignOp, PositionEntry};
use grain_value::{List, Name, Token};

/// The names of a program.
pub type Names = List<Name>;

/// The operator tokens of a program.
pub type Tokens = List<Token>;

/// The op-assignments of a program.
pub type AssignOps = List<AssignOp>;

/// The positions of a program's instructions, by ascending address.
pub type Positions = List<PositionEntry>;
