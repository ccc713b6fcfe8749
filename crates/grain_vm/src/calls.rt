//! How a call begins and ends.

ghost use Rattle.std.specs.Prelude.{ℕ, ◌≡◌, ◌<◌, ◌≤◌, ◌+◌, ◌++◌, ◌∷◌, [], length, take, OnOk, OnErr, IfOk, List, MatchOption, nat_le, true, false};
ghost use Rattle.grain_program.specs.Indices.{IsNamed};
ghost use Rattle.grain_program.specs.View.{name_of, source_text};
ghost use Rattle.grain_fault.specs.Problems.{InFunctionCall, problem_of};
ghost use Rattle.grain_value.specs.Operands.{arguments, under};
ghost use Rattle.grain_stack.specs.Views.{StackFrame, with_frame};
ghost use Rattle.grain_means.specs.Rules.{bound, enter_function, function_entered, resume_caller, propagate};
ghost use Rattle.grain_means.specs.Simulation.{SimulatesExactly, StopPersists};
ghost use Rattle.grain_frame.specs.Abstraction.{abstraction, frame_in, is_out, continuation, setup_of, this_of};
ghost use Rattle.grain_vm.specs.Driving.{beside};
ghost use Rattle.grain_vm.specs.Calls.{frame_answer, call_continuation, caller_of, EnterResult, FrameEntered, CallReturned, WrapsSo};

use grain_fault::{EvalAltResult, Fault, Position};
use grain_frame::{Activation, Context, Progress, Run};
use grain_global::Steps;
use grain_host::Host;
use grain_program::{Function, Program};
use grain_value::{OutOfMemory, Text};
use std::alloc::Global;
use std::sync::ledger::Ledger;

/// How a frame ended.
#[derive(Clone, Copy, Debug, PartialEq, Eq)]
pub enum FrameEnd {
    /// With a value, which is its last operand, or unit if it has none.
    Value,
    /// With a fault, which the run holds.
    Fault,
}

// Begins a call: charges an operation, tests the level and the number of variables, makes the arguments
// the entries of a new scope, and enters the function's frame. It says whether the frame is entered; if
// not, a fault is raised in the caller's frame.
#[inline(always)]
pub(crate) fn enter_function<H: Host, L: Ledger>(
    run: &mut Run<H>,
    context: Context<'_>,
    host: &mut H,
    steps: &mut Steps<L>,
    frame: &Activation,
    function: &Function,
) -> Result<bool, OutOfMemory>
    requires operands { length function.now.params ≤ length run.old.stacks.operands }
    requires named { IsNamed context.program.now function.now }
    ensures same { (next : ℕ) → SimulatesExactly
        (setup_of H.law context.entry)
        (abstraction run.old steps.old host.old)
        (λ m place w. enter_function m function.now (length function.now.params)
        (frame_in frame.now run.old place) next w)
        (is_out result) (beside run.new.scope (this_of run.old) run.new steps.new host.new)
        (call_continuation result run.old run.new function.now (frame_in frame.now run.old)
        next) }
    ensures enters { EnterResult context.entry.engine.now function.now run.old run.new
        result }
    ensures later { run.old.count ≤ run.new.count }
    ensures before { steps.new.before ≡ steps.old.before }
{
    match run.charge(context, host, steps, frame.address) {
        Ok(taken) => {
            if taken {
                function_entered(run, context, steps, frame, function)
            } else {
                Ok(false)
            }
        }
        Err(e) => Err(e),
    }
}

// The rest of `enter_function`, after the operation is charged.
#[inline(always)]
fn function_entered<H: Host, L: Ledger>(
    run: &mut Run<H>,
    context: Context<'_>,
    steps: &mut Steps<L>,
    frame: &Activation,
    function: &Function,
) -> Result<bool, OutOfMemory>
    requires operands { length function.now.params ≤ length run.old.stacks.operands }
    requires named { IsNamed context.program.now function.now }
    ensures same { (next : ℕ) (host : H) → SimulatesExactly
        (setup_of H.law context.entry)
        (abstraction run.old steps.old host)
        (λ m place w. function_entered m function.now (length function.now.params)
        (frame_in frame.now run.old place) next w)
        (is_out result) (beside run.new.scope (this_of run.old) run.new steps.new host)
        (call_continuation result run.old run.new function.now (frame_in frame.now run.old)
        next) }
    ensures enters { FrameEntered function.now run.old run.new result }
    ensures before { steps.new.before ≡ steps.old.before }
{
    let Some(level) = deeper(run.level, context.engine.limits.levels) else {
        run.stack_overflow(context, steps, frame.address);
        return Ok(false);
    };
    if function.params.len() > context.engine.limits.variables {
        run.too_many_variables(context, steps, frame.address);
        return Ok(false);
    }
    enter_frame(run, context, function)?;
    steps.mark();
    run.level = level;
    Ok(true)
}

// Puts the scope aside, makes the last operands the entries of a new one, and enters the function's
// frame. If memory runs out, nothing changes.
#[inline(always)]
fn enter_frame<H: Host>(
    run: &mut Run<H>,
    context: Context<'_>,
    function: &Function,
) -> Result<(), OutOfMemory>
    requires operands { length function.now.params ≤ length run.old.stacks.operands }
    requires named { IsNamed context.program.now function.now }
    ensures entered { OnOk result (run.new ≡ record run.old {
      stacks = with_frame function.now.chunk.max_stack (record run.old.stacks {
        operands = under (length function.now.params) run.old.stacks.operands;
      });
      scope = bound context.entry.program.now function.now.params
          (arguments (length function.now.params) run.old.stacks.operands);
      saved = run.old.saved ++ run.old.scope ∷ [];
    }) }
    ensures refused { OnErr result (run.new ≡ run.old) }
{
    run.saved.save(&mut run.scope)?;
    match bind(run, context, function) {
        Ok(()) => Ok(()),
        Err(e) => {
            run.saved.restore(&mut run.scope);
            Err(e)
        }
    }
}

// Makes the last operands the entries of the scope, which is empty, and enters the function's frame. If
// memory runs out, nothing changes.
#[inline(always)]
fn bind<H: Host>(
    run: &mut Run<H>,
    context: Context<'_>,
    function: &Function,
) -> Result<(), OutOfMemory>
    requires empty { run.old.scope ≡ [] }
    requires operands { length function.now.params ≤ length run.old.stacks.operands }
    requires named { IsNamed context.program.now function.now }
    ensures entered { OnOk result (run.new ≡ record run.old {
      stacks = with_frame function.now.chunk.max_stack (record run.old.stacks {
        operands = under (length function.now.params) run.old.stacks.operands;
      });
      scope = bound context.entry.program.now function.now.params
          (arguments (length function.now.params) run.old.stacks.operands);
    }) }
    ensures refused { OnErr result (run.new ≡ run.old) }
{
    run.stacks.enter_with_arguments(
        function.chunk.max_stack,
        function.params.as_slice(),
        context.program.names(),
        &mut run.scope,
    )
}

// Raises in the caller's frame, which stands at this address, the fault that left the body of a
// function. One that cannot be caught gets the position of the call; any other is wrapped in
// `ErrorInFunctionCall`, which names the function.
#[cold]
#[inline(never)]
fn propagate<H: Host, L: Ledger>(
    run: &mut Run<H>,
    context: Context<'_>,
    steps: &mut Steps<L>,
    address: usize,
    function: &Function,
) -> Result<Progress, OutOfMemory>
    requires named { IsNamed context.program.now function.now }
    ensures same { (f : Activation) (host : H) → f.address ≡ address → SimulatesExactly
        (setup_of H.law context.entry)
        (abstraction run.old steps.old host)
        (λ m place w. propagate m function.now (frame_in f run.old place)
        (problem_of run.old.fault) w)
        (is_out result) (abstraction run.new steps.new host)
        (continuation result run.new.fault (frame_in f run.new)) }
    ensures over { IfOk result (λ p. p ≡ Progress.Failed) }
    ensures others { run.new ≡ record run.old { fault = run.new.fault } }
    ensures before { steps.new.before ≡ steps.old.before }
{
    let position = context.program.position(address);
    let mut fault = run.take_fault();
    if !fault.is_catchable() {
        fault.set_position(position);
        return Ok(run.raise_unmarked(fault));
    }
    let name = context.program.name(function.name).copy(run.alloc)?;
    let source = source_of(run.alloc, context.program)?;
    let inner = Box::new(run.alloc, fault)?;
    let fault = EvalAltResult::ErrorInFunctionCall(name, source, inner, position);
    Ok(run.raise(steps, fault))
}

// The fault of a call at this position, after a fault left the body of the function. One that cannot be
// caught gets this position; any other is wrapped in `ErrorInFunctionCall`, at a mark. It is `Memory` if
// memory runs out.
pub(crate) fn wrapped<H: Host, L: Ledger>(
    run: &Run<H>,
    context: Context<'_>,
    steps: &mut Steps<L>,
    pos: Position,
    function: &Function,
    fault: EvalAltResult,
) -> EvalAltResult
    requires named { IsNamed context.program.now function.now }
    ensures wraps { WrapsSo context.entry.program.now function.now pos (problem_of fault)
        (problem_of result) steps.old steps.new }
    ensures before { steps.new.before ≡ steps.old.before }
{
    if !fault.is_catchable() {
        let mut fault = fault;
        fault.set_position(pos);
        return fault;
    }
    match in_function(run, context, pos, function, fault) {
        Ok(fault) => {
            steps.mark();
            fault
        }
        Err(OutOfMemory) => EvalAltResult::Memory,
    }
}

// Wraps a fault in `ErrorInFunctionCall`, with the function's name and the name of its script.
fn in_function<H: Host>(
    run: &Run<H>,
    context: Context<'_>,
    pos: Position,
    function: &Function,
    fault: EvalAltResult,
) -> Result<EvalAltResult, OutOfMemory>
    requires named { IsNamed context.program.now function.now }
    ensures { IfOk result (λ x. problem_of x ≡ InFunctionCall
        (name_of context.entry.program.now function.now.name)
        (source_text context.entry.program.now) (problem_of fault) pos) }
{
    let name = context.program.name(function.name).copy(run.alloc)?;
    let source = source_of(run.alloc, context.program)?;
    let inner = Box::new(run.alloc, fault)?;
    Ok(EvalAltResult::ErrorInFunctionCall(name, source, inner, pos))
}

// Ends the call of a function: leaves its frame, puts the caller's scope and level back, and goes on in
// the caller with the answer.
#[inline(always)]
pub(crate) fn resume_caller<H: Host, L: Ledger>(
    run: &mut Run<H>,
    context: Context<'_>,
    steps: &mut Steps<L>,
    frame: &mut Activation,
    function: &Function,
    end: Result<FrameEnd, OutOfMemory>,
    next: usize,
) -> Result<Progress, OutOfMemory>
    requires entered { 0 < length run.old.stacks.outer }
    requires waits { 0 < length run.old.saved }
    requires called { 0 < run.old.level }
    requires room { (first : StackFrame) (others : List StackFrame)
        → run.old.stacks.outer ≡ first ∷ others → length first.operands < first.room }
    requires named { IsNamed context.program.now function.now }
    ensures same { (host : H) → SimulatesExactly
        (setup_of H.law context.entry)
        (abstraction (caller_of run.old) steps.old host)
        (λ m place w. resume_caller m function.now
        (frame_in frame.old (caller_of run.old) place) next
        (frame_answer end run.old) w)
        (is_out result) (abstraction run.new steps.new host)
        (continuation result run.new.fault (frame_in frame.new run.new)) }
    ensures persists { StopPersists (is_out end) steps.old.passed (is_out result)
        steps.new.passed }
    ensures returned { CallReturned frame.old (caller_of run.old) frame.new run.new next
        result }
    ensures before { steps.new.before ≡ steps.old.before }
{
    match end {
        Ok(end) => match end {
            FrameEnd::Value => {
                run.saved.restore(&mut run.scope);
                run.level -= 1;
                run.stacks.leave_with_value();
                frame.address = next;
                steps.mark();
                Ok(Progress::Continues)
            }
            FrameEnd::Fault => {
                leave_call(run);
                propagate(run, context, steps, frame.address, function)
            }
        },
        Err(e) => {
            leave_call(run);
            Err(e)
        }
    }
}

// Leaves the frame of a function without a value, and puts the caller's scope and level back.
#[cold]
#[inline(never)]
fn leave_call<H: Host>(run: &mut Run<H>)
    requires entered { 0 < length run.old.stacks.outer }
    requires waits { 0 < length run.old.saved }
    requires called { 0 < run.old.level }
    ensures { run.new ≡ caller_of run.old }
{
    run.saved.restore(&mut run.scope);
    run.level -= 1;
    run.stacks.leave();
}

// The name of the script that the program was made from, empty if it has none.
fn source_of(alloc: Global, program: &Program) -> Result<Text, OutOfMemory>
    ensures { IfOk result (λ text. text ≡ source_text program.now) }
{
    match program.source() {
        Some(source) => source.copy(alloc),
        None => Ok(Text::new(alloc)),
    }
}

// The level of a further call, if the limit allows one.
#[inline(always)]
pub(crate) fn deeper(level: usize, levels: usize) -> Option<usize>
    ensures { MatchOption result (nat_le levels level ≡ true)
        (λ more. (more ≡ level + 1) × (nat_le levels level ≡ false)) }
{
    if level >= levels {
        None
    } else {
        Some(level + 1)
    }
}

// Leaves a frame by a fault: cuts the scope to the floor, and notes in the trace where the frame
// stopped and the slot of the step that is blamed, if any.
#[cold]
#[inline(never)]
pub(crate) fn leave_by_fault<H: Host>(
    run: &mut Run<H>,
    address: usize,
    floor: usize,
    slot: Option<u32>,
)
    requires entered { 0 < length run.old.stacks.outer }
    requires unnoted { run.old.stacks.noted ≡ false }
    ensures { run.new ≡ record run.old {
      scope = take floor run.old.scope;
      stacks = record run.old.stacks {
        noted = true;
        trace = run.old.stacks.trace ++ record { address = address; slot = slot } ∷ [];
      };
    } }
{
    run.scope.rewind(floor);
    run.stacks.note(Fault { address, slot });
}
