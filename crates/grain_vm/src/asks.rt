//! Natives that ask for calls: what they ask for is done, and the host hears what came of it, until the
//! native is over.

ghost use Rattle.std.specs.Prelude.{◌≡◌, ◌<◌, ◌≤◌, ◌-◌, ◌∷◌, [], ℕ, List, Err, IfSome, None, false, is_some, length, true};
ghost use Rattle.grain_value.specs.declared.values.Held.{Held};
ghost use Rattle.grain_fault.specs.declared.faults.EvalAltResult.TheVariants as fault;
ghost use Rattle.grain_means.specs.Rules.{call_function};
ghost use Rattle.grain_chain.specs.Walking.{is_want};
ghost use Rattle.grain_program.specs.Indices.{InPools};
ghost use Rattle.grain_program.specs.Lookups.{function_of};
ghost use Rattle.grain_frame.specs.Abstraction.{ImplementsBound, PerformsBound, Ready, frame_in, moment, setup_of};
ghost use Rattle.grain_program.specs.declared.code.instruction_set.Op.TheVariants as op;
ghost use Rattle.grain_frame.specs.Targets.{home_of};
ghost use Rattle.grain_frame.specs.Waiting.{IsKept, LeadsTo, apart_of, asking, rest_of};
ghost use Rattle.grain_frame.specs.declared.targets.Target.TheVariants as to;
ghost use Rattle.grain_vm.specs.Asks.{Awaits, EndsNative, FinishesNative, NativeOver};
ghost use Rattle.grain_vm.specs.Driving.{IsApartIn, IsNative, SameFlag, left_by};
ghost use Rattle.grain_vm.specs.Methods.{MethodOver, NoneAbove};
ghost use Rattle.grain_vm.specs.Receivers.{NativeCalled};

use crate::calls_back::{call_back, told};
use crate::chains::is_want;
use crate::driving::{Answered, AskingNative};
use crate::methods::Outcome;
use crate::natives::{OnReceiver, call_native_on, give_back_to_cell};
use crate::walk_natives::raised_in_walk;
use grain_chain::Request;
use grain_fault::EvalAltResult;
use grain_frame::{Activation, Asked, Context, Performed, Progress, Resumed, Run, Waiting};
use grain_global::Steps;
use grain_host::Host;
use grain_value::{Dynamic, Held, OutOfMemory, Text};
use std::sync::ledger::Ledger;

// Goes on with an instruction that waits for a native, until the instruction is done.
#[cycle(run)]
#[cold]
#[inline(never)]
pub(crate) fn wait_for_native<H: Host, L: Ledger>(
    run: &mut Run<H>,
    context: Context<'_>,
    host: &mut H,
    steps: &mut Steps<L>,
    frame: &mut Activation,
) -> Result<Progress, OutOfMemory>
    requires runs { Awaits context.program.now frame.old run.old }
    requires none { NoneAbove run.old.level run.old.receivers }
    ensures goes { IfSome run.old.waiting (λ waiting. (h : Held) (takes gives : ℕ)
        (targets : List ℕ) → h.read_only ≡ false →
        LeadsTo context.entry.program.now frame.old run.old waiting.rest takes gives targets →
        ImplementsBound (setup_of H.law context.entry)
        (moment frame.old run.old steps.old host.old)
        (λ m place w. asking (home_of to.This) run.old waiting.asked waiting.lent
        (frame_in frame.old run.old) (rest_of h waiting.rest (frame_in frame.old run.old)) m place w)
        targets takes gives run.old.stacks.handlers result
        (moment frame.new run.new steps.new host.new)) }
{
    'natives: loop {
        let Some(waiting) = run.take_waiting() else {
            unreachable!()
        };
        let Waiting { asked, lent, rest } = waiting;
        let pos = context.program.position(frame.address);
        let native = AskingNative { asked, lent, pos };
        let (outcome, _receiver) = end_of_native(run, context, host, steps, native);
        if is_out(&outcome) {
            return Err(OutOfMemory);
        }
        match run.native_over(context, host, steps, frame, rest, outcome)? {
            Performed::Leads(progress) => return Ok(progress),
            Performed::Waits => {}
        }
    }
}

// Whether memory ran out in a call.
fn is_out(outcome: &Result<Dynamic, EvalAltResult>) -> bool
    ensures { result ≡ is_want outcome.now }
{
    match outcome {
        Ok(_) => false,
        Err(fault) => is_want(fault),
    }
}

// A call of the native of a name, or the fault that an operand is a lent cell.
#[cycle(run)]
#[cold]
#[inline(never)]
pub(crate) fn native_by_name<H: Host, L: Ledger>(
    run: &mut Run<H>,
    context: Context<'_>,
    host: &mut H,
    steps: &mut Steps<L>,
    frame: &mut Activation,
    name: &Text,
    count: usize,
    next: usize,
) -> Result<Progress, OutOfMemory>
    requires inside { frame.old.base ≤ length run.old.scope }
    requires operands { count ≤ length run.old.stacks.operands }
    requires room { length run.old.stacks.operands - count < run.old.stacks.room }
    requires ahead { frame.old.address < next }
    requires none { NoneAbove run.old.level run.old.receivers }
    ensures implements { ImplementsBound (setup_of H.law context.entry)
        (moment frame.old run.old steps.old host.old)
        (λ m place w. call_function m None name.now count (frame_in frame.old run.old place) next w)
        (next ∷ []) count 1 run.old.stacks.handlers result
        (moment frame.new run.new steps.new host.new) }
{
    match run.native_by_name(context, host, steps, frame, name, count, next)? {
        Performed::Leads(progress) => Ok(progress),
        Performed::Waits => wait_for_native(run, context, host, steps, frame),
    }
}

// `call` of a name that no function has: the native of that name is called on the last `count`
// operands.
#[cycle(run)]
#[inline(always)]
pub(crate) fn call_native<H: Host, L: Ledger>(
    run: &mut Run<H>,
    context: Context<'_>,
    host: &mut H,
    steps: &mut Steps<L>,
    frame: &mut Activation,
    name: u16,
    count: u8,
    next: usize,
) -> Result<Progress, OutOfMemory>
    requires ready { Ready frame.old run.old (op.Call name count) next }
    requires pools { InPools context.program.now (op.Call name count) }
    requires missing { function_of context.program.now name count ≡ None }
    requires none { NoneAbove run.old.level run.old.receivers }
    ensures performs { PerformsBound (setup_of H.law context.entry)
        (moment frame.old run.old steps.old host.old) (op.Call name count) next result
        (moment frame.new run.new steps.new host.new) }
{
    let count = usize::from(count);
    let name = context.program.name(u32::from(name));
    native_by_name(run, context, host, steps, frame, name, count, next)
}

// Calls a native on a receiver, and goes on with it until it is over.
#[cycle(run)]
#[cold]
#[inline(never)]
pub(crate) fn native_on<H: Host, L: Ledger>(
    run: &mut Run<H>,
    context: Context<'_>,
    host: &mut H,
    steps: &mut Steps<L>,
    request: Request,
) -> Outcome
    requires native { IsNative request.what }
    requires receiver { is_some request.receiver ≡ true }
    requires none { NoneAbove run.old.level run.old.receivers }
    ensures called { NativeCalled (setup_of H.law context.entry) request run.old steps.old host.old
        result.0 result.1 run.new steps.new host.new }
    ensures over { MethodOver run.old run.new }
    ensures lent { SameFlag request.receiver result.1 }
    ensures before { steps.new.before ≡ steps.old.before }
{
    match call_native_on(run, host, steps, request) {
        OnReceiver::Over(outcome) => outcome,
        OnReceiver::Asks(native, cell) => {
            let answered = Answered::Asks(native);
            let (outcome, left) = finish_native(run, context, host, steps, answered);
            match cell {
                None => (outcome, left),
                Some(cell) => {
                    let receiver = give_back_to_cell(run, cell, left);
                    (outcome, receiver)
                }
            }
        }
    }
}

// Goes on with a native that was called, until it is over; its fault is then raised.
#[cycle(run)]
#[cold]
#[inline(never)]
pub(crate) fn finish_native<H: Host, L: Ledger>(
    run: &mut Run<H>,
    context: Context<'_>,
    host: &mut H,
    steps: &mut Steps<L>,
    answered: Answered,
) -> Outcome
    requires apart { IsApartIn answered }
    requires none { NoneAbove run.old.level run.old.receivers }
    ensures finishes { FinishesNative (setup_of H.law context.entry) answered run.old steps.old host.old
        result.0 result.1 run.new steps.new host.new }
    ensures over { MethodOver run.old run.new }
    ensures lent { SameFlag (left_by answered) result.1 }
    ensures before { steps.new.before ≡ steps.old.before }
{
    match answered {
        Answered::Over(outcome) => outcome,
        Answered::Asks(native) => {
            let (outcome, receiver) = end_of_native(run, context, host, steps, native);
            (raised_in_walk(run, steps, outcome, None), receiver)
        }
    }
}

// Does what a native asks for, and all that it asks for then, until it is over. Gives its value or its
// fault, which is not raised yet, and the receiver that stood nowhere in the run, if it had one.
#[cycle(run)]
#[cold]
#[inline(never)]
pub(crate) fn end_of_native<H: Host, L: Ledger>(
    run: &mut Run<H>,
    context: Context<'_>,
    host: &mut H,
    steps: &mut Steps<L>,
    native: AskingNative,
) -> Outcome
    requires kept { IsKept run.old native.lent }
    requires none { NoneAbove run.old.level run.old.receivers }
    ensures ends { EndsNative (setup_of H.law context.entry) native run.old steps.old host.old result.0
        result.1 run.new steps.new host.new }
    ensures over { NativeOver native.lent run.old run.new }
    ensures left { SameFlag (apart_of native.lent) result.1 }
    ensures before { steps.new.before ≡ steps.old.before }
{
    let AskingNative { asked, lent, pos } = native;
    let mut asked = asked;
    let mut lent = lent;
    'asks: loop {
        let Asked {
            token,
            pointer,
            values,
        } = asked;
        let came = call_back(run, context, host, steps, pos, pointer, values);
        let told = match told(run, steps, pos, came) {
            Ok(told) => told,
            Err(fault) => return (Err(fault), run.forget_native(host, token, lent)),
        };
        match run.resume_native(host, steps, token, told, lent, pos) {
            Resumed::Over(outcome, left) => return (outcome, left),
            Resumed::Asks(next, left) => {
                asked = next;
                lent = left;
            }
        }
    }
}
