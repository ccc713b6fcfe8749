//! Handlers: where a frame goes on after a fault.

use grain_fault::EvalAltResult;

/// What a frame does with a fault that a script may catch. It is armed until it has caught one.
#[derive(Drop)]
pub struct Handler {
    /// The address at which the frame goes on.
    pub target: u32,
    /// The index of the name of the variable that then holds what was caught, if there is one.
    pub variable: Option<u32>,
    /// How many operands the frame had where the handler was pushed.
    pub operands: usize,
    /// How many cursors the frame had there.
    pub cursors: usize,
    /// How many totals the frame had there.
    pub totals: usize,
    /// How many entries the scope had there.
    pub scope: usize,
    /// The fault that it has caught.
    pub caught: Option<EvalAltResult>,
}
