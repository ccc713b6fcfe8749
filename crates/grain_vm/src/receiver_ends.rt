//! How a call of a pointer with a receiver ends: the receiver goes to its destination, and the value of
//! the call is pushed or its fault is raised.

ghost use Rattle.std.specs.Prelude.{◌≡◌, ◌<◌, ◌≤◌, ◌∷◌, [], length, is_some, true, ℕ, Some};
ghost use Rattle.grain_value.specs.declared.values.Held.{Held};
ghost use Rattle.grain_means.specs.Simulation.{StopPersists};
ghost use Rattle.grain_means.specs.Rules.{call_over, over_without_entry, receiver_over};
ghost use Rattle.grain_means.specs.Means.{setup};
ghost use Rattle.grain_program.specs.View.{View};
ghost use Rattle.grain_global.specs.declared.engines.Engine.{Engine};
ghost use Rattle.grain_chain.specs.Walking.{is_want, outcome_of};
ghost use Rattle.grain_frame.specs.Abstraction.{frame_in, is_out, Implements, ImplementsBound, setup_of, moment};
ghost use Rattle.grain_vm.specs.Receivers.{PutInThis, destination_in, goes_nowhere};

use crate::chains::is_want;
use crate::receivers::Destination;
use grain_fault::EvalAltResult;
use grain_frame::{Activation, Context, Progress, Run};
use grain_global::Steps;
use grain_host::Host;
use grain_value::{Dynamic, Held, OutOfMemory};
use std::sync::ledger::Ledger;

// Whether a receiver goes nowhere after its call, whatever its destination: it is a cell, or it can only
// be read.
fn goes_nowhere(receiver: &Held) -> bool
    ensures { result ≡ goes_nowhere receiver.now }
{
    receiver.value.as_cell().is_some() | receiver.read_only
}

// Ends a call with a receiver: puts the receiver where it goes, and then pushes the value of the call or
// raises its fault. If the receiver's entry is not there, that is the fault, unless memory ran out.
fn finish_call<H: Host, L: Ledger>(
    run: &mut Run<H>,
    context: Context<'_>,
    steps: &mut Steps<L>,
    frame: &mut Activation,
    destination: Destination,
    outcome: Result<Dynamic, EvalAltResult>,
    receiver: Held,
    next: usize,
) -> Result<Progress, OutOfMemory>
    requires inside { frame.old.base ≤ length run.old.scope }
    requires room { length run.old.stacks.operands < run.old.stacks.room }
    requires ahead { frame.old.address < next }
    ensures implements { (host : H) → ImplementsBound (setup_of H.law context.entry)
        (moment frame.old run.old steps.old host)
        (λ m place w. receiver_over m (destination_in destination) next
        (frame_in frame.old run.old place) receiver (outcome_of outcome) w)
        (next ∷ []) 0 1 run.old.stacks.handlers result (moment frame.new run.new steps.new host) }
    ensures carries { StopPersists (is_want outcome) steps.old.passed (is_out result)
        steps.new.passed }
{
    if goes_nowhere(&receiver) {
        return end_call(run, steps, frame, outcome, next);
    }
    match destination {
        Destination::Nowhere => end_call(run, steps, frame, outcome, next),
        Destination::Slot(slot) => {
            let index = run.slot_index(frame, slot);
            if index >= run.scope.len() {
                return end_without_entry(run, context, steps, frame, outcome, index);
            }
            run.scope.set(index, receiver);
            end_call(run, steps, frame, outcome, next)
        }
        Destination::This => {
            put_in_this(run, receiver);
            end_call(run, steps, frame, outcome, next)
        }
    }
}

// The same of the receiver that a call gave back.
pub(crate) fn end_on<H: Host, L: Ledger>(
    run: &mut Run<H>,
    context: Context<'_>,
    steps: &mut Steps<L>,
    frame: &mut Activation,
    destination: Destination,
    outcome: Result<Dynamic, EvalAltResult>,
    receiver: Option<Held>,
    next: usize,
) -> Result<Progress, OutOfMemory>
    requires receiver { is_some receiver ≡ true }
    requires inside { frame.old.base ≤ length run.old.scope }
    requires room { length run.old.stacks.operands < run.old.stacks.room }
    requires ahead { frame.old.address < next }
    ensures implements { (h : Held) (host : H) → receiver ≡ Some h →
        ImplementsBound (setup_of H.law context.entry) (moment frame.old run.old steps.old host)
        (λ m place w. receiver_over m (destination_in destination) next
        (frame_in frame.old run.old place) h (outcome_of outcome) w)
        (next ∷ []) 0 1 run.old.stacks.handlers result (moment frame.new run.new steps.new host) }
    ensures carries { StopPersists (is_want outcome) steps.old.passed (is_out result)
        steps.new.passed }
{
    match receiver {
        Some(receiver) => {
            finish_call(
                run,
                context,
                steps,
                frame,
                destination,
                outcome,
                receiver,
                next,
            )
        }
        None => unreachable!(),
    }
}

// The frame's `this`, if it has one, holds what the receiver holds from then on.
fn put_in_this<H: Host>(run: &mut Run<H>, receiver: Held)
    ensures { PutInThis receiver.value run.old run.new }
{
    let read_only = match run.this() {
        None => return,
        Some(held) => held.read_only,
    };
    let held = Held {
        value: receiver.value,
        read_only,
    };
    let _before = run.receivers.replace(held);
}

// Pushes the value of a call, or raises its fault.
fn end_call<H: Host, L: Ledger>(
    run: &mut Run<H>,
    steps: &mut Steps<L>,
    frame: &mut Activation,
    outcome: Result<Dynamic, EvalAltResult>,
    next: usize,
) -> Result<Progress, OutOfMemory>
    requires inside { frame.old.base ≤ length run.old.scope }
    requires room { length run.old.stacks.operands < run.old.stacks.room }
    requires ahead { frame.old.address < next }
    ensures implements { (program : View) (engine : Engine) (host : H) →
        Implements (setup H.law program engine) (moment frame.old run.old steps.old host)
        (λ m place w. call_over m next (frame_in frame.old run.old place) (outcome_of outcome) w)
        (next ∷ []) 0 1 run.old.stacks.handlers result (moment frame.new run.new steps.new host) }
    ensures carries { StopPersists (is_want outcome) steps.old.passed (is_out result)
        steps.new.passed }
{
    match outcome {
        Ok(value) => Ok(run.push_on(steps, frame, value, next)),
        Err(fault) => {
            if is_want(&fault) {
                Err(OutOfMemory)
            } else {
                Ok(run.raise_unmarked(fault))
            }
        }
    }
}

// Ends a call whose receiver would go to an entry at an index past the scope. Unless memory ran out, that
// is the fault, in place of what the call gave. It did not leave the frames that a fault of the
// call left.
#[cold]
#[inline(never)]
fn end_without_entry<H: Host, L: Ledger>(
    run: &mut Run<H>,
    context: Context<'_>,
    steps: &mut Steps<L>,
    frame: &Activation,
    outcome: Result<Dynamic, EvalAltResult>,
    index: usize,
) -> Result<Progress, OutOfMemory>
    requires inside { frame.now.base ≤ length run.old.scope }
    ensures implements { (next : ℕ) (host : H) → Implements (setup_of H.law context.entry)
        (moment frame.now run.old steps.old host)
        (λ m place w. over_without_entry m index next (frame_in frame.now run.old place)
        (outcome_of outcome) w)
        (next ∷ []) 0 1 run.old.stacks.handlers result (moment frame.now run.new steps.new host) }
    ensures carries { StopPersists (is_want outcome) steps.old.passed (is_out result)
        steps.new.passed }
{
    match &outcome {
        Ok(_) => Ok(run.slot_past_scope(context, steps, frame.address, index)),
        Err(fault) => {
            if is_want(fault) {
                return Err(OutOfMemory);
            }
            run.stacks.cut_trace(0);
            Ok(run.slot_past_scope(context, steps, frame.address, index))
        }
    }
}
