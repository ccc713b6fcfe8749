//! Lines for addresses: which line of a listing gives the code at an address.
#![tactic(auto)]

mod answers;
mod blocks;
mod calls;
mod finding;
mod kinds;
mod laws;
mod places;
mod program;
mod queries;
mod replies;
mod step_lines;
mod texts;
mod walks;

pub use answers::explain;
pub use calls::where_words;
pub use laws::{addresses_have_lines, steps_have_lines};
pub use program::{Exit, where_args, where_standard};
pub use queries::{Query, queries_of};
pub use replies::Reply;
