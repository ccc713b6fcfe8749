//! A frame's run: what a run has, what charges, raises and asks the host, one method for each
//! instruction that calls no function, and the forms that the loop tries first (`quick`).
#![tactic(auto)]

mod activations;
mod argument_room;
mod assignments;
mod attempts;
mod branches;
mod charges;
mod contexts;
mod fetching;
mod handlers;
mod interpolation;
mod literal_sizes;
mod literals;
mod loaded;
mod locals;
mod loops;
mod native_assignments;
mod native_calls;
mod native_ends;
mod operand_natives;
mod operands;
mod operated;
mod pointers;
mod quick_forms;
mod raising;
mod receivers;
mod runs;
mod saved;
mod stepping;
mod targets;
mod this;
mod transfers;
mod two_loads;
mod waiting;

pub use activations::Activation;
pub use argument_room::ArgumentRoom;
pub use attempts::{Attempt, Pending, quick};
pub use contexts::Context;
pub use fetching::fetch;
pub use native_calls::{Arguments, Asked, NativeEnd, Sought, served};
pub use pointers::Under;
pub use receivers::Receivers;
pub use runs::{Progress, Run, Stopped};
pub use saved::SavedScopes;
pub use waiting::{Loan, Performed, Rest, Resumed, Waiting, put_in_cell};
