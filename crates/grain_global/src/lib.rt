//! What a run is given and what outlives it: the engine's limits and flags, the state of the
//! machine, and the counts of its runs.
#![tactic(auto)]

mod engines;
mod states;
mod steps;

pub use engines::Engine;
pub use states::GlobalRuntimeState;
pub use steps::Steps;
