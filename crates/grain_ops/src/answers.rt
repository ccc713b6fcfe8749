//! What the operators answer.

ghost use Rattle.std.specs.Prelude.{ℕ, List, IfOk, ◌≡◌, codes};
ghost use Rattle.grain_value.specs.declared.values.Dynamic.TheVariants as dynamic;
ghost use Rattle.grain_ops.specs.Outcomes.{Gave, ArithmeticFault, TooLarge};
ghost use Rattle.grain_ops.specs.Answers.{Answers, FailsSo};

use grain_fault::{EvalAltResult, Position};
use grain_value::{Dynamic, OutOfMemory, Text};
use std::alloc::Global;

/// What a built-in operator answers.
#[derive(Drop)]
pub enum OpAnswer {
    /// No built-in takes these values.
    NotBuiltIn,
    /// The value.
    Done(Dynamic),
    /// A fault without a position, which is `Memory` after want of memory.
    Failed(EvalAltResult),
}

/// What a built-in op-assignment answers.
#[derive(Drop)]
pub enum AssignAnswer {
    /// No built-in takes these values. The target is as it was.
    NotBuiltIn,
    /// The target has its new value.
    Done,
    /// A fault without a position, which is `Memory` after want of memory. The target is as it was.
    Failed(EvalAltResult),
}

impl OpAnswer {
    // This truth value.
    pub(crate) fn truth(holds: bool) -> OpAnswer
        ensures { Answers result (Gave (dynamic.Bool holds)) }
    {
        OpAnswer::Done(Dynamic::Bool(holds))
    }
}

// The arithmetic fault with this text, or that there was no memory for the text.
#[cold]
pub(crate) fn arithmetic_fault(text: Result<Text, OutOfMemory>) -> EvalAltResult
    ensures { (t : List ℕ) → IfOk text (λ u. u ≡ t) → FailsSo result (ArithmeticFault t) }
{
    match text {
        Ok(text) => EvalAltResult::ErrorArithmetic(text, Position::NONE),
        Err(OutOfMemory) => EvalAltResult::Memory,
    }
}

// The fault that a text would be too long.
#[cold]
pub(crate) fn text_too_long(alloc: Global) -> EvalAltResult
    ensures { FailsSo result (TooLarge (codes "Length of string")) }
{
    match Text::copy_of(alloc, "Length of string") {
        Ok(what) => EvalAltResult::ErrorDataTooLarge(what, Position::NONE),
        Err(OutOfMemory) => EvalAltResult::Memory,
    }
}
