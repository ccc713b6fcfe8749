//! The machine that an embedder calls: the loop, how functions are called and faults are caught, how
//! chains are walked, and how main is run.
#![tactic(auto)]

mod apart;
mod arguments;
mod asks;
mod calls;
mod calls_back;
mod catching;
mod chain_operands;
mod chains;
mod curried;
mod driving;
mod finding;
mod loops;
mod machines;
mod main_runs;
mod method_runs;
mod methods;
mod natives;
mod receiver_ends;
mod receivers;
mod roots;
mod stepping;
mod vms;
mod walk_natives;

pub use grain_global::{Engine, GlobalRuntimeState, Steps};
pub use machines::Machine;
pub use vms::Vm;
