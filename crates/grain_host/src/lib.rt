//! The host: what a machine asks of the program around it, and a host that lives in memory.
#![tactic(auto)]

mod callbacks;
mod host_answers;
mod host_faults;
mod hosts;
mod laws;
mod pending_calls;
mod register_natives;
mod registers;
mod signatures;
mod stop_lines;
mod table_natives;
mod tables;

pub use host_answers::{Args, HostAnswer, ProgressAnswer};
pub use host_faults::HostFault;
pub use hosts::Host;
pub use laws::gives_each_token_once;
pub use signatures::{not_found, says_missing};
pub use tables::TableHost;
