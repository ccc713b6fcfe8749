//! What the program does: the commands, over any source and sink, and the program over the standard
//! streams.
#![tactic(auto)]

mod commands;
mod host;
mod laws;
mod pipeline;
mod program;
mod replies;
mod reports;
mod self_listings;

pub use commands::run_words;
pub use host::run_standard;
pub use laws::statuses_are_due;
pub use pipeline::run_listing;
pub use program::{Exit, run_args};
pub use replies::Reply;
