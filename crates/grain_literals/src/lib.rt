//! Values and other operands as a listing writes them, and how they are read.
#![tactic(auto)]

mod laws;
mod literals;
mod operands;
mod reasons;
mod values;

pub use laws::{
    lists_have_room, read_values_can_be_listed, read_values_name_no_cell, values_are_read,
};
pub use literals::{ScopeEntry, constant_of, entry_of, text_of, token_of, value_operand};
pub use operands::{
    after_name, alone, byte_of, index, integer_operand, number_operand, position_after,
    position_operand, word_operand,
};
pub use reasons::Reason;
