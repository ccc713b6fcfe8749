//! Programs: instructions and their bytes, the parts of a program, and the verifier.
#![tactic(auto)]

mod code;
mod lookups;
mod programs;
mod slots;
mod verifier;

pub use code::bytes::{assemble, assembled_reads_back, decode};
pub use code::caps::Caps;
pub use code::chains::{Chain, Chains, Root, Step, StepFlags, Steplist, Tail};
pub use code::descriptors::Descriptor;
pub use code::effects::{Effect, Flow, Handling, Looping};
pub use code::fields::{Field, Fields};
pub use code::functions::{Function, Functions, Indices};
pub use code::instruction_set::Op;
pub use code::parts::{AssignOp, Chunk, Parts, PositionEntry};
pub use code::pools::{AssignOps, Names, Positions, Tokens};
pub use code::switches::{Case, CaseValue, Cases, Switch, SwitchRange, SwitchRanges, Switches};
pub use programs::{Program, verify};
pub use verifier::check::one_refusal;
pub use verifier::refusals::Refusal;
