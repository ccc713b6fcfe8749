//! The operators that are built in.
#![tactic(auto)]

mod answers;
mod calculations;
mod integers;
mod operators;
mod quick;
mod shifts;
mod text_operators;

pub use answers::{AssignAnswer, OpAnswer};
pub use operators::{assign, binary, unary};
pub use quick::{Quick, quick_assigned, quick_assigned_with, quick_operated, quick_operated_with};
