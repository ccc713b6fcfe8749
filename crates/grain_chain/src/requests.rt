//! What a walk asks for, and how far it has come.

use grain_fault::{EvalAltResult, Position};
use grain_value::{Array, Dynamic, FnPtr, Held, Text};

/// What a walk asks to have called.
#[derive(Drop)]
pub enum What {
    /// A native, by its name.
    Native(Text),
    /// The program's function of this number.
    Compiled(usize),
    /// The function that a pointer names, or, if there is none, the native of that name. The pointer's
    /// values come before the arguments.
    Pointer(FnPtr),
}

/// A call that a walk needs before it can go on, with a copy of the value at its place, if that is lent.
#[derive(Drop)]
pub struct Request {
    /// The number of the step that needs it.
    pub step: usize,
    /// The position of the call's faults.
    pub pos: Position,
    /// What is to be called.
    pub what: What,
    /// The value at the walk's place, if it is lent: read-only if its root is.
    pub receiver: Option<Held>,
    /// The other arguments.
    pub arguments: Array,
}

/// How far a walk has come.
#[derive(Drop)]
pub enum WalkAnswer {
    /// It needs this call before it can go on.
    Need(Request),
    /// It is over. `value` is what it gives; `changed` says whether it wrote or set anything, or
    /// did a method step.
    Ended { value: Dynamic, changed: bool },
    /// It is over by a fault, for which this step is blamed.
    Faulted { fault: EvalAltResult, step: usize },
}
