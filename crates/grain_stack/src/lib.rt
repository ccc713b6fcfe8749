//! The stacks that all frames of a machine share: their operands, handlers, cursors and totals, and
//! the trace of a fault.
#![tactic(auto)]

mod cursors;
mod floors;
mod frame_entries;
mod handlers;
mod ranges;
mod slots;
mod stacks;
mod totals;

pub use cursors::{Cursor, Left};
pub use handlers::Handler;
pub use stacks::Stacks;
pub use totals::Total;
