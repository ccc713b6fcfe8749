//! Faults: what ends a run without a value, where it was raised, and how it is printed.
#![tactic(auto)]

mod absences;
mod catch_values;
mod classes;
mod fault_parts;
mod fault_texts;
mod faults;
mod fields;
mod places;
mod positions;
mod traces;
mod wrappers;

pub use catch_values::caught_value;
pub use faults::{EvalAltResult, MalformedKind, RhaiResult, RhaiResultOf};
pub use places::Position;
pub use traces::{Fault, Faults};
