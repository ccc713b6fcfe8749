//! What stays the same in a run.

use grain_global::Engine;
use grain_program::Program;

/// What stays the same in a run: the engine with its limits, and the program.
#[derive(Clone, Copy)]
pub struct Context<'a> {
    pub engine: &'a Engine,
    pub program: &'a Program,
}
