//! Method steps such as `a.m(x)`: `is_shared`, and calls of functions and natives.

ghost use Rattle.std.specs.Prelude.{◌≡◌, ◌≤◌, ◌+◌, ◌^◌, ◌++◌, IfOk, Some, true, length, map};
ghost use Rattle.std.specs.Option.{option_copied};
ghost use Rattle.grain_value.specs.Cells.{flat};
ghost use Rattle.grain_value.specs.View.{value_of};
ghost use Rattle.grain_value.specs.Writing.{type_name_of};
ghost use Rattle.grain_value.specs.declared.values.Dynamic.{Dynamic as AnyValue};
ghost use Rattle.grain_program.specs.Lookups.{method_of};
ghost use Rattle.grain_program.specs.View.{View as AnyProgram, name_of};
ghost use Rattle.grain_means.specs.Tasks.{WalkEnded};
ghost use Rattle.grain_means.specs.Walks.{at_mark, own_pointer};
ghost use Rattle.grain_chain.specs.Standings.{Stands};
ghost use Rattle.grain_chain.specs.Walking.{CanCall, AtStep, steps_left, backs};
ghost use Rattle.grain_chain.specs.Going.{Takes, Goes, Needs, NeedsOr, rest, lent_place};
ghost use Rattle.grain_chain.specs.MethodSteps.{HasArguments, kind_named, operands_of, typed_method, called_method, step_arguments, method_task, gave_task, own_task, asking_task};
ghost use Rattle.grain_chain.specs.declared.contexts.Context.{Context as AnyContext};

use crate::contexts::{Context, name_at, name_of_program};
use crate::origins::{AnswerUse, Awaited, Onward, Origin};
use crate::requests::{WalkAnswer, What};
use crate::steps::stopping;
use crate::walks::Walk;
use grain_fault::Position;
use grain_value::{Array, Dynamic, FnPtr, Held, OutOfMemory};
use std::alloc::Global;

/// What a method step does, by its name and the number of its arguments.
#[derive(Clone, Copy, Debug, PartialEq, Eq)]
pub(crate) enum MethodKind {
    /// It asks whether a value is a shared variable.
    IsShared,
    /// It calls a pointer.
    Call,
    /// It gives a pointer that has the arguments after its own values.
    Curry,
    /// It calls a method of the value.
    Method,
}

/// A method step: the index of its name, the number of its arguments, the number of the operand that is
/// its first argument, and its position. `last` says whether its answer is the chain's value.
#[derive(Clone, Copy)]
pub(crate) struct MethodStep {
    pub(crate) name: u32,
    pub(crate) argc: u8,
    pub(crate) operand: u32,
    pub(crate) pos: Position,
    pub(crate) last: bool,
}

// What a method step with this name and number of arguments does.
fn method_kind(name: &str, argc: u8) -> MethodKind
    ensures { result ≡ kind_named name.now argc }
{
    if name == "is_shared" && argc == 0 {
        return MethodKind::IsShared;
    }
    if name == "call" {
        return MethodKind::Call;
    }
    if name == "curry" {
        return MethodKind::Curry;
    }
    MethodKind::Method
}

impl Walk {
    // Takes a method step, with the mark at its start. Returns None if the walk goes on
    // at the next step.
    pub(crate) fn method(
        &mut self,
        context: Context<'_>,
        step: MethodStep,
    ) -> Result<Option<WalkAnswer>, OutOfMemory>
        requires at { AtStep context.program.now self.old }
        requires operands { HasArguments self.old step }
        ensures takes { Takes context.entry self.old
            (at_mark self.old.step (rest context.entry self.old)
            (method_task context.entry self.old step)) result self.new }
        ensures needs { NeedsOr context.entry.program.now self.new result
            (steps_left context.entry.program.now self.old + 3) }
    {
        let kind = method_kind(name_at(context.program, step.name), step.argc);
        let shared = self.trail.target().as_cell().is_some();
        match kind {
            MethodKind::IsShared => self.give(context, step, Dynamic::Bool(shared)),
            MethodKind::Call => self.call(context, step),
            MethodKind::Curry => self.curry(context, step),
            MethodKind::Method => self.by_own(context, step),
        }
    }

    // Gives a value, which is no cell, with the mark at the step's start.
    pub(crate) fn give(
        &mut self,
        context: Context<'_>,
        step: MethodStep,
        value: Dynamic,
    ) -> Result<Option<WalkAnswer>, OutOfMemory>
        requires { flat context.cells.now value ≡ Some value }
        ensures takes { Takes context.entry self.old
            (at_mark self.old.step (rest context.entry self.old)
            (gave_task context.entry self.old step value)) result self.new }
        ensures needs { NeedsOr context.entry.program.now self.new result (backs self.old) }
    {
        self.pass_mark()?;
        if step.last {
            return stopping(self.give_own(context, value));
        }
        let root = Held {
            value,
            read_only: false,
        };
        let Ok(()) = self.enter_root(Origin::Method, root) else {
            return Err(OutOfMemory);
        };
        Ok(None)
    }

    // Gives a method's value as the chain's own.
    fn give_own(&mut self, context: Context<'_>, value: Dynamic) -> Result<WalkAnswer, OutOfMemory>
        ensures goes { Goes context.entry self.old
            (rest context.entry self.old (WalkEnded value true)) result self.new }
        ensures needs { Needs context.entry.program.now self.new result (backs self.old) }
    {
        self.gives = value;
        self.walk_back(context, true)
    }

    // Puts copies of `argc` operands of the chain, from operand `first` on, after these values.
    pub(crate) fn copy_operands(
        &self,
        first: usize,
        argc: u8,
        values: &mut Array,
    ) -> Result<(), OutOfMemory>
        requires small { first ≤ 2 ^ 32 }
        requires operands { first + argc ≤ length self.now.operands }
        ensures copied { IfOk result (λ _. values.new ≡ values.old ++ operands_of self.now first argc) }
        ensures counted { IfOk result (λ _. length values.new ≡ length values.old + argc) }
    {
        'copies: for index in 0..argc {
            let operand = self.operands.at(first + usize::from(index));
            values.push(operand.copy(self.alloc)?)?;
        }
        Ok(())
    }

    // Copies of `argc` operands of the chain, from operand `first` on.
    pub(crate) fn operands_from(&self, first: usize, argc: u8) -> Result<Array, OutOfMemory>
        requires small { first ≤ 2 ^ 32 }
        requires operands { first + argc ≤ length self.now.operands }
        ensures copied { IfOk result (λ values. values ≡ operands_of self.now first argc) }
        ensures counted { IfOk result (λ values. length values ≡ argc) }
    {
        let mut values = Array::new(self.alloc);
        self.copy_operands(first, argc, &mut values)?;
        Ok(values)
    }

    // Calls what `called_method` finds. The value at the walk's place is its `this`, or the first
    // argument of a native.
    fn by_own(
        &mut self,
        context: Context<'_>,
        step: MethodStep,
    ) -> Result<Option<WalkAnswer>, OutOfMemory>
        requires at { AtStep context.program.now self.old }
        requires operands { HasArguments self.old step }
        ensures takes { (v : AnyValue) → Stands self.old.trail v → Takes context.entry self.old
            (at_mark self.old.step (rest context.entry self.old)
            (own_task context.entry self.old step
            (own_pointer (name_of context.entry.program.now step.name) v) v)) result self.new }
        ensures needs { NeedsOr context.entry.program.now self.new result
            (steps_left context.entry.program.now self.old + 3) }
    {
        let what = self.called_method(context, step)?;
        stopping(self.invoke_with_all(step, what, true))
    }

    // What a method step calls: the pointer that a map has at the key of the step's name, or else the
    // program's method of that name for the value's type, or else the native of that name.
    fn called_method(&self, context: Context<'_>, step: MethodStep) -> Result<What, OutOfMemory>
        ensures is { IfOk result (λ what. (v : AnyValue) → Stands self.now.trail v →
            what ≡ called_method context.entry.program.now step.name step.argc v
            (own_pointer (name_of context.entry.program.now step.name) v)) }
        ensures can { IfOk result (λ what. CanCall context.entry.program.now what step.argc) }
    {
        let name = name_at(context.program, step.name);
        let target = self.trail.target();
        match own_pointer(target, name) {
            Some(pointer) => Ok(What::Pointer(pointer.copy(self.alloc)?)),
            None => typed_method(self.alloc, context, step, target),
        }
    }

    // Asks for a call with all of the step's arguments, with the mark at the step's start.
    pub(crate) fn invoke_with_all(
        &mut self,
        step: MethodStep,
        what: What,
        lends: bool,
    ) -> Result<WalkAnswer, OutOfMemory>
        requires { HasArguments self.old step }
        ensures goes { (x : AnyContext) → Goes x self.old
            (at_mark self.old.step (rest x self.old)
            (asking_task x self.old step what (lent_place self.old lends)
            (step_arguments x self.old step))) result self.new }
        ensures needs { (p : AnyProgram) → AtStep p self.old →
            CanCall p what step.argc → Needs p self.new result (steps_left p self.old + 2) }
    {
        let arguments = self.operands_from(step.operand as usize, step.argc)?;
        self.pass_mark()?;
        self.invoke(step, what, arguments, lends)
    }

    // Asks for a call, at a mark; the walk then goes on with its answer. `lends` says whether the value
    // at the walk's place is its receiver.
    pub(crate) fn invoke(
        &mut self,
        step: MethodStep,
        what: What,
        arguments: Array,
        lends: bool,
    ) -> Result<WalkAnswer, OutOfMemory>
        ensures goes { (x : AnyContext) → Goes x self.old
            (asking_task x self.old step what (lent_place self.old lends) (map value_of arguments))
            result self.new }
        ensures needs { (p : AnyProgram) → AtStep p self.old →
            CanCall p what (length arguments) → Needs p self.new result (steps_left p self.old + 2) }
    {
        let into = AnswerUse {
            pos: step.pos,
            own: step.last,
            origin: Origin::Method,
            go: Onward::Further,
        };
        self.ask_for(step.pos, what, arguments, Awaited::Called { lends, into })
    }
}

// What a method step calls at a value that has no pointer of its name.
fn typed_method(
    alloc: Global,
    context: Context<'_>,
    step: MethodStep,
    value: &Dynamic,
) -> Result<What, OutOfMemory>
    ensures is { IfOk result (λ what. what ≡ typed_method context.entry.program.now step.name
        (method_of context.entry.program.now step.name step.argc (type_name_of value.now))) }
    ensures can { IfOk result (λ what. CanCall context.entry.program.now what step.argc) }
{
    let kind = value.own_type_name(alloc)?;
    match context
        .program
        .method(step.name, usize::from(step.argc), kind.as_str())
    {
        Some(number) => Ok(What::Compiled(number)),
        None => Ok(What::Native(name_of_program(alloc, context.program, step.name)?)),
    }
}

// The pointer that a map has at the key of this name, if there is one.
fn own_pointer<'a>(value: &'a Dynamic, name: &str) -> Option<&'a FnPtr>
    ensures { option_copied result ≡ own_pointer name.now value.now }
{
    match value {
        Dynamic::Map(map) => match map.get(name) {
            None => None,
            Some(entry) => entry.as_pointer(),
        },
        _ => None,
    }
}
