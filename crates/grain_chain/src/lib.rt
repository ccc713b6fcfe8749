//! The walk of a chain such as `a.b[i].c = v`: its steps, one after the other, and what the
//! chain does at the place to which they lead.
#![tactic(auto)]

mod answers;
mod asking;
mod contexts;
mod faults;
mod indexers;
mod indexing;
mod leading;
mod methods;
mod origins;
mod pointers;
mod properties;
mod requests;
mod returning;
mod steps;
mod storing;
mod trails;
mod walks;

pub use requests::{Request, WalkAnswer, What};
pub use walks::Walk;
