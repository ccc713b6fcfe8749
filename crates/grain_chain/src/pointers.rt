//! The method steps `call` and `curry`: pointers are called, and are given values.

ghost use Rattle.std.specs.Prelude.{◌≡◌, ◌<◌, ◌+◌, ◌-◌, ℕ, IfOk, Some, codes, is_none, map, slice_get};
ghost use Rattle.grain_value.specs.Looking.{pointer_of};
ghost use Rattle.grain_value.specs.View.{value_of};
ghost use Rattle.grain_value.specs.Writing.{type_name_of};
ghost use Rattle.grain_value.specs.declared.values.Dynamic.{Dynamic as AnyValue};
ghost use Rattle.grain_fault.specs.Problems.{MismatchDataType, Plain, problem_of};
ghost use Rattle.grain_program.specs.View.{View as AnyProgram};
ghost use Rattle.grain_means.specs.Walks.{at_mark, failing};
ghost use Rattle.grain_chain.specs.Standings.{Stands};
ghost use Rattle.grain_chain.specs.Walking.{AtStep, steps_left, backs};
ghost use Rattle.grain_chain.specs.Going.{Takes, Goes, Needs, NeedsOr, PointerOr, rest};
ghost use Rattle.grain_chain.specs.MethodSteps.{HasArguments, operands_of, step_arguments, first_task, called_task, call_task, curry_task};
ghost use Rattle.grain_chain.specs.declared.contexts.Context.{Context as AnyContext};

use crate::contexts::Context;
use crate::methods::MethodStep;
use crate::requests::{WalkAnswer, What};
use crate::steps::stopping;
use crate::walks::Walk;
use grain_fault::{EvalAltResult, Position};
use grain_value::{Dynamic, FnPtr, OutOfMemory, Text};
use std::alloc::Global;

impl Walk {
    // A copy of the pointer at the walk's place. Returns None if the value there is none.
    fn pointer_there(&self) -> Result<Option<FnPtr>, OutOfMemory>
        ensures { IfOk result (λ pointer.
            (v : AnyValue) → Stands self.now.trail v → pointer ≡ pointer_of v) }
    {
        match self.trail.target().as_pointer() {
            None => Ok(None),
            Some(pointer) => Ok(Some(pointer.copy(self.alloc)?)),
        }
    }

    // `curry`: gives the pointer at the walk's place, with the arguments after its values.
    pub(crate) fn curry(
        &mut self,
        context: Context<'_>,
        step: MethodStep,
    ) -> Result<Option<WalkAnswer>, OutOfMemory>
        requires { HasArguments self.old step }
        ensures takes { (v : AnyValue) → Stands self.old.trail v → Takes context.entry self.old
            (at_mark self.old.step (rest context.entry self.old)
            (curry_task context.entry self.old step (pointer_of v) v)) result self.new }
        ensures needs { NeedsOr context.entry.program.now self.new result (backs self.old) }
    {
        match self.pointer_there()? {
            None => stopping(self.no_pointer_there(step.pos)),
            Some(pointer) => self.curry_pointer(context, step, pointer),
        }
    }

    // Gives a pointer, with the arguments after its values.
    fn curry_pointer(
        &mut self,
        context: Context<'_>,
        step: MethodStep,
        pointer: FnPtr,
    ) -> Result<Option<WalkAnswer>, OutOfMemory>
        requires { HasArguments self.old step }
        ensures takes { (v : AnyValue) → Takes context.entry self.old
            (at_mark self.old.step (rest context.entry self.old)
            (curry_task context.entry self.old step (Some pointer) v)) result self.new }
        ensures needs { NeedsOr context.entry.program.now self.new result (backs self.old) }
    {
        let FnPtr { name, curry } = pointer;
        let mut curry = curry;
        self.copy_operands(step.operand as usize, step.argc, &mut curry)?;
        let pointer = FnPtr { name, curry };
        self.give(context, step, Dynamic::Pointer(pointer))
    }

    // `call`: calls the pointer at the walk's place, or, if the value there is no pointer,
    // the first argument.
    pub(crate) fn call(
        &mut self,
        context: Context<'_>,
        step: MethodStep,
    ) -> Result<Option<WalkAnswer>, OutOfMemory>
        requires at { AtStep context.program.now self.old }
        requires operands { HasArguments self.old step }
        ensures takes { (v : AnyValue) → Stands self.old.trail v → Takes context.entry self.old
            (at_mark self.old.step (rest context.entry self.old)
            (call_task context.entry self.old step (pointer_of v) v)) result self.new }
        ensures needs { NeedsOr context.entry.program.now self.new result
            (steps_left context.entry.program.now self.old + 3) }
    {
        match self.pointer_there()? {
            None => stopping(self.call_first(context, step)),
            Some(pointer) => stopping(self.invoke_with_all(step, What::Pointer(pointer), false)),
        }
    }

    // Calls the first argument, which must be a pointer. The value at the walk's place is the
    // `this` of the call.
    fn call_first(
        &mut self,
        context: Context<'_>,
        step: MethodStep,
    ) -> Result<WalkAnswer, OutOfMemory>
        requires at { AtStep context.program.now self.old }
        requires operands { HasArguments self.old step }
        ensures goes { (v : AnyValue) → Stands self.old.trail v → Goes context.entry self.old
            (at_mark self.old.step (rest context.entry self.old)
            (called_task context.entry self.old step v (step_arguments context.entry self.old step)))
            result self.new }
        ensures needs { Needs context.entry.program.now self.new result
            (steps_left context.entry.program.now self.old + 2) }
    {
        if self.lacks_argument(step) {
            return self.no_pointer_there(step.pos);
        }
        let first = self.flat_operand(context, step.operand)?;
        self.pass_mark()?;
        match first {
            None => self.raise_data_race(step.pos),
            Some(first) => self.call_argument(step, first),
        }
    }

    // Whether a method step has no argument.
    fn lacks_argument(&self, step: MethodStep) -> bool
        ensures { result ≡ is_none (slice_get (operands_of self.now step.operand step.argc) 0) }
    {
        if step.argc == 0 {
            return true;
        }
        self.operands.get(step.operand as usize).is_none()
    }

    // Calls the first argument, as it is read, with the others.
    fn call_argument(&mut self, step: MethodStep, first: Dynamic) -> Result<WalkAnswer, OutOfMemory>
        requires some { 0 < step.argc }
        requires operands { HasArguments self.old step }
        ensures goes { (x : AnyContext) → Goes x self.old
            (first_task x self.old step (pointer_of first) first
            (map value_of (operands_of self.old (step.operand + 1) (step.argc - 1)))) result self.new }
        ensures needs { (p : AnyProgram) → AtStep p self.old →
            Needs p self.new result (steps_left p self.old + 2) }
    {
        match pointer_from(first) {
            Err(value) => self.no_pointer(&value, step.pos),
            Ok(pointer) => {
                let arguments = self.operands_from(step.operand as usize + 1, step.argc - 1)?;
                self.invoke(step, What::Pointer(pointer), arguments, true)
            }
        }
    }

    // Raises the fault that the value at the walk's place is no pointer, with the mark at the
    // step's start.
    fn no_pointer_there(&mut self, pos: Position) -> Result<WalkAnswer, OutOfMemory>
        ensures goes { (x : AnyContext) (v : AnyValue) → Stands self.old.trail v → Goes x self.old
            (at_mark self.old.step (rest x self.old) (failing self.old.step
            (Plain (MismatchDataType (codes "Fn") (type_name_of v)) pos) (rest x self.old)))
            result self.new }
        ensures needs { (p : AnyProgram) (n : ℕ) → Needs p self.new result n }
    {
        let fault = no_pointer(self.alloc, self.trail.target(), pos)?;
        self.pass_mark()?;
        self.raise(fault)
    }

    // Raises the fault that a value is no pointer.
    fn no_pointer(&mut self, value: &Dynamic, pos: Position) -> Result<WalkAnswer, OutOfMemory>
        ensures goes { (x : AnyContext) → Goes x self.old
            (failing self.old.step (Plain (MismatchDataType (codes "Fn") (type_name_of value.now)) pos)
            (rest x self.old)) result self.new }
        ensures needs { (p : AnyProgram) (n : ℕ) → Needs p self.new result n }
    {
        let fault = no_pointer(self.alloc, value, pos)?;
        self.raise(fault)
    }
}

// The pointer that a value is, or else the value.
fn pointer_from(value: Dynamic) -> Result<FnPtr, Dynamic>
    ensures { PointerOr value result }
{
    match value {
        Dynamic::Pointer(pointer) => Ok(pointer),
        value => Err(value),
    }
}

// The fault that a value is no pointer.
fn no_pointer(alloc: Global, value: &Dynamic, pos: Position) -> Result<EvalAltResult, OutOfMemory>
    ensures { IfOk result (λ fault. problem_of fault
        ≡ Plain (MismatchDataType (codes "Fn") (type_name_of value.now)) pos) }
{
    let wanted = Text::copy_of(alloc, "Fn")?;
    let got = value.own_type_name(alloc)?;
    Ok(EvalAltResult::ErrorMismatchDataType(wanted, got, pos))
}
