//! Functions that a walk calls, or that a pointer names which is called with a receiver: how their frames
//! are entered and left.

ghost use Rattle.std.specs.Prelude.{◌≡◌, ◌<◌, ◌+◌, ◌++◌, ◌∷◌, [], length, is_some, IfErr, IfOk, OnOk, OnErr};
ghost use Rattle.grain_program.specs.Indices.{IsNamed};
ghost use Rattle.grain_means.specs.Simulation.{StopPersists};
ghost use Rattle.grain_means.specs.Rules.{bound};
ghost use Rattle.grain_stack.specs.Views.{with_frame};
ghost use Rattle.grain_chain.specs.Walking.{CanCall, is_want};
ghost use Rattle.grain_frame.specs.Abstraction.{is_out, setup_of, this_of};
ghost use Rattle.grain_frame.specs.Receivers.{bound_at, others_at};
ghost use Rattle.grain_vm.specs.Calls.{caller_of, frame_answer};
ghost use Rattle.grain_vm.specs.Methods.{Enters, EntersBound, GivesOutcome, LeavesBody, MarksEntry, NeedsSo, NoneAbove, bound_with, given_back, given_to, kept_back, left_from};

use crate::calls::{FrameEnd, deeper, wrapped};
use crate::curried::with_curried;
use crate::main_runs::take_value;
use grain_chain::{Request, What};
use grain_fault::{EvalAltResult, Position};
use grain_frame::{Context, Run};
use grain_global::Steps;
use grain_host::Host;
use grain_program::Function;
use grain_value::{Array, Dynamic, Held, OutOfMemory};
use std::sync::ledger::Ledger;

/// The call of a function by a walk or with a receiver: the function's number, the position of the call's
/// faults, the value that is its `this`, if it has one, and its arguments.
#[derive(Drop)]
pub struct MethodCall {
    pub number: usize,
    pub pos: Position,
    pub receiver: Option<Held>,
    pub arguments: Array,
}

/// What a walk or a pointer calls. A pointer has become the function or the native that it names.
#[derive(Drop)]
pub enum Needed {
    /// A native.
    Native(Request),
    /// A function of the program.
    Function(MethodCall),
}

// The value or the fault of such a call, and the receiver as the call left it.
pub(crate) type Outcome = (Result<Dynamic, EvalAltResult>, Option<Held>);

// Whether a request calls a native or a function of the program, and which. If memory runs out, it gives
// the request back.
pub(crate) fn resolve_request<H: Host>(
    run: &Run<H>,
    context: Context<'_>,
    request: Request,
) -> Result<Needed, Request>
    requires there { CanCall context.program.now request.what (length request.arguments) }
    ensures { NeedsSo context.entry.program.now request result }
{
    let Request {
        step,
        pos,
        what,
        receiver,
        arguments,
    } = request;
    match what {
        What::Native(name) => Ok(Needed::Native(Request {
            step,
            pos,
            what: What::Native(name),
            receiver,
            arguments,
        })),
        What::Compiled(number) => Ok(Needed::Function(MethodCall {
            number,
            pos,
            receiver,
            arguments,
        })),
        What::Pointer(pointer) => {
            let count = pointer.curry().len() + arguments.len();
            let found = context.program.function_named(pointer.fn_name(), count);
            let all = match with_curried(run.alloc, pointer.curry(), arguments) {
                Ok(all) => all,
                Err(arguments) => {
                    return Err(Request {
                        step,
                        pos,
                        what: What::Pointer(pointer),
                        receiver,
                        arguments,
                    });
                }
            };
            match found {
                Some(number) => Ok(Needed::Function(MethodCall {
                    number,
                    pos,
                    receiver,
                    arguments: all,
                })),
                None => Ok(Needed::Native(Request {
                    step,
                    pos,
                    what: What::Native(pointer.name),
                    receiver,
                    arguments: all,
                })),
            }
        }
    }
}

// Begins the call of a function that a walk needs: charges an operation, tests the level and the number
// of variables, makes the arguments the entries of a new scope, makes the receiver the `this` of the
// function's frame, and enters the frame. If the receiver is read-only, the `this` is a copy of it, and
// the receiver itself is given, to be returned to the walk after the call. If the frame is not entered,
// the call is over, and its outcome is given.
#[inline(always)]
pub(crate) fn enter_method<H: Host, L: Ledger>(
    run: &mut Run<H>,
    context: Context<'_>,
    host: &mut H,
    steps: &mut Steps<L>,
    function: &Function,
    call: MethodCall,
) -> Result<Option<Held>, Outcome>
    requires named { IsNamed context.program.now function.now }
    requires count { length function.now.params ≡ length call.arguments }
    requires none { NoneAbove run.old.level run.old.receivers }
    ensures enters { Enters (setup_of H.law context.entry) call.pos function.now
        (given_to call.arguments) context.entry.engine.now call.receiver run.old steps.old host.old
        result run.new steps.new host.new }
    ensures before { steps.new.before ≡ steps.old.before }
{
    let MethodCall {
        number: _,
        pos,
        receiver,
        arguments,
    } = call;
    match run.charge_at(context, host, steps, pos) {
        Err(OutOfMemory) => return Err((Err(EvalAltResult::Memory), receiver)),
        Ok(taken) => {
            if !taken {
                return Err((Err(run.take_fault()), receiver));
            }
        }
    }
    let Some(level) = deeper(run.level, context.engine.limits.levels) else {
        steps.mark();
        return Err((Err(EvalAltResult::ErrorStackOverflow(pos)), receiver));
    };
    if function.params.len() > context.engine.limits.variables {
        steps.mark();
        return Err((Err(EvalAltResult::ErrorTooManyVariables(pos)), receiver));
    }
    enter_bound(run, context, steps, function, level, receiver, arguments)
}

// Makes the receiver the `this` of the function's frame, and enters the frame, at a mark. If the
// receiver is read-only, the `this` is a copy of it, and the receiver itself is given, to be returned to
// the walk after the call. If memory runs out, only the receiver is given, as it was.
#[inline(always)]
fn enter_bound<H: Host, L: Ledger>(
    run: &mut Run<H>,
    context: Context<'_>,
    steps: &mut Steps<L>,
    function: &Function,
    level: usize,
    receiver: Option<Held>,
    arguments: Array,
) -> Result<Option<Held>, Outcome>
    requires named { IsNamed context.program.now function.now }
    requires count { length function.now.params ≡ length arguments }
    requires level { level ≡ run.old.level + 1 }
    requires none { NoneAbove run.old.level run.old.receivers }
    ensures entered { EntersBound function.now context.entry.program.now receiver arguments run.old
        result run.new }
    ensures marked { MarksEntry result steps.old steps.new }
{
    let back = match bind_receiver(run, level, receiver) {
        Ok(back) => back,
        Err(receiver) => return Err((Err(EvalAltResult::Memory), receiver)),
    };
    match enter_frame(run, context, function, arguments) {
        Ok(()) => {
            steps.mark();
            run.level = level;
            Ok(back)
        }
        Err(OutOfMemory) => Err((Err(EvalAltResult::Memory), receiver_left(run, level, back))),
    }
}

// Makes the receiver, if there is one, the `this` of the frame of a level. If it is read-only, the `this`
// is a copy of it, and the receiver itself is given. If memory runs out, nothing changes, and
// the receiver comes back.
#[inline(always)]
fn bind_receiver<H: Host>(
    run: &mut Run<H>,
    level: usize,
    receiver: Option<Held>,
) -> Result<Option<Held>, Option<Held>>
    ensures bound { OnOk result (run.new ≡ record run.old {
      receivers = bound_with level receiver run.old.receivers;
    }) }
    ensures back { IfOk result (λ back. back ≡ kept_back receiver) }
    ensures refused { OnErr result (run.new ≡ run.old) }
    ensures same { IfErr result (λ back. back ≡ receiver) }
{
    let Some(held) = receiver else {
        return Ok(None);
    };
    if !held.read_only {
        return match run.receivers.bind(level, held) {
            Ok(()) => Ok(None),
            Err(held) => Err(Some(held)),
        };
    }
    let Ok(value) = held.value.copy(run.alloc) else {
        return Err(Some(held));
    };
    let copy = Held {
        value,
        read_only: true,
    };
    match run.receivers.bind(level, copy) {
        Ok(()) => Ok(Some(held)),
        Err(_) => Err(Some(held)),
    }
}

// Takes the `this` of the frame of this level away, if it has one, and gives what is returned to the
// walk: `back`, if there is one, or else that `this`.
#[inline(always)]
fn receiver_left<H: Host>(run: &mut Run<H>, level: usize, back: Option<Held>) -> Option<Held>
    ensures value { result ≡ given_back back (bound_at level run.old.receivers) }
    ensures rest { run.new ≡ record run.old {
      receivers = others_at level run.old.receivers;
    } }
{
    if !has_this(run, level) {
        return None;
    }
    let held = run.receivers.unbind();
    match back {
        Some(back) => Some(back),
        None => Some(held),
    }
}

// Whether the frame of this level has a `this`.
fn has_this<H: Host>(run: &Run<H>, level: usize) -> bool
    ensures { result ≡ is_some (bound_at level run.now.receivers) }
{
    match run.receivers.at(level) {
        Some(_) => true,
        None => false,
    }
}

// Puts the scope aside, makes the arguments the entries of a new one, and enters the function's frame.
// If memory runs out, nothing changes.
fn enter_frame<H: Host>(
    run: &mut Run<H>,
    context: Context<'_>,
    function: &Function,
    arguments: Array,
) -> Result<(), OutOfMemory>
    requires named { IsNamed context.program.now function.now }
    requires count { length function.now.params ≡ length arguments }
    ensures entered { OnOk result (run.new ≡ record run.old {
      stacks = with_frame function.now.chunk.max_stack run.old.stacks;
      scope = bound context.entry.program.now function.now.params (given_to arguments);
      saved = run.old.saved ++ run.old.scope ∷ [];
    }) }
    ensures refused { OnErr result (run.new ≡ run.old) }
{
    run.saved.save(&mut run.scope)?;
    match bind_arguments(run, context, function, arguments) {
        Ok(()) => Ok(()),
        Err(e) => {
            run.saved.restore(&mut run.scope);
            Err(e)
        }
    }
}

// Makes the arguments the entries of the scope, which is empty, and enters the function's frame. If
// memory runs out, only the scope has changed.
fn bind_arguments<H: Host>(
    run: &mut Run<H>,
    context: Context<'_>,
    function: &Function,
    arguments: Array,
) -> Result<(), OutOfMemory>
    requires empty { run.old.scope ≡ [] }
    requires named { IsNamed context.program.now function.now }
    requires count { length function.now.params ≡ length arguments }
    ensures entered { OnOk result (run.new ≡ record run.old {
      stacks = with_frame function.now.chunk.max_stack run.old.stacks;
      scope = bound context.entry.program.now function.now.params (given_to arguments);
    }) }
    ensures refused { OnErr result (run.new ≡ record run.old { scope = run.new.scope }) }
{
    let names = context.program.names();
    let params = function.params.as_slice();
    let mut index = 0;
    'arguments: for value in arguments.into_vec() {
        let name = names.at(params[index] as usize);
        let mut held = Held::read_write(value);
        run.scope.push_moved(name, &mut held)?;
        index += 1;
    }
    run.stacks.enter(function.chunk.max_stack)
}

// Ends the call of a function that a walk needed: leaves its frame, puts the caller's scope and level
// back, and gives the outcome of the call.
#[inline(always)]
pub(crate) fn leave_method<H: Host, L: Ledger>(
    run: &mut Run<H>,
    context: Context<'_>,
    steps: &mut Steps<L>,
    function: &Function,
    pos: Position,
    end: Result<FrameEnd, OutOfMemory>,
    back: Option<Held>,
) -> Outcome
    requires named { IsNamed context.program.now function.now }
    requires entered { 0 < length run.old.stacks.outer }
    requires waits { 0 < length run.old.saved }
    requires called { 0 < run.old.level }
    ensures same { LeavesBody (setup_of H.law context.entry) pos function.now
        (frame_answer end run.old) (caller_of run.old) steps.old result.0 run.new steps.new }
    ensures persists { StopPersists (is_out end) steps.old.passed (is_want result.0)
        steps.new.passed }
    ensures left { run.new ≡ record (left_from run.old) { fault = run.new.fault } }
    ensures receiver { result.1 ≡ given_back back (this_of run.old) }
    ensures before { steps.new.before ≡ steps.old.before }
{
    let level = run.level;
    let outcome = frame_outcome(run, context, steps, function, pos, end);
    run.stacks.leave();
    run.saved.restore(&mut run.scope);
    run.level -= 1;
    let receiver = receiver_left(run, level, back);
    (outcome, receiver)
}

// The outcome of a call at this position whose frame is over: its value, or the fault that left the frame,
// as `wrapped` gives it.
fn frame_outcome<H: Host, L: Ledger>(
    run: &mut Run<H>,
    context: Context<'_>,
    steps: &mut Steps<L>,
    function: &Function,
    pos: Position,
    end: Result<FrameEnd, OutOfMemory>,
) -> Result<Dynamic, EvalAltResult>
    requires named { IsNamed context.program.now function.now }
    ensures gives { GivesOutcome context.entry.program.now pos function.now end run.old steps.old
        result steps.new }
    ensures others { run.new ≡ record run.old {
      stacks = record run.old.stacks { operands = run.new.stacks.operands };
      fault = run.new.fault;
    } }
    ensures before { steps.new.before ≡ steps.old.before }
{
    match end {
        Err(OutOfMemory) => Err(EvalAltResult::Memory),
        Ok(end) => match end {
            FrameEnd::Value => Ok(take_value(run)),
            FrameEnd::Fault => {
                let fault = run.take_fault();
                Err(wrapped(run, context, steps, pos, function, fault))
            }
        },
    }
}
