//! Instructions that may run functions with a `this`: walks along places, and calls of pointers with a
//! receiver. Each such function runs in a frame of its own.

ghost use Rattle.std.specs.Prelude.{◌≡◌, ◌<◌, ◌≤◌, ◌+◌, ◌-◌, ◌∷◌, [], length, slice_get, Some};
ghost use Rattle.grain_frame.specs.Abstraction.{abstraction, continuation, frame_in, is_out, ContinuesAt, KeepsFrame, PerformsBound, Ready, ReadyIn, setup_of, moment};
ghost use Rattle.grain_vm.specs.Asks.{TookOne};
ghost use Rattle.grain_program.specs.declared.code.functions.Function.{Function};
ghost use Rattle.grain_program.specs.TypedAt.{IsTypedAt};
ghost use Rattle.grain_means.specs.Rules.{enter_function};
ghost use Rattle.grain_means.specs.Simulation.{Simulates};
ghost use Rattle.grain_vm.specs.Driving.{SameFlag};
ghost use Rattle.grain_vm.specs.Finding.{Finds, op_on};
ghost use Rattle.grain_vm.specs.Methods.{CallsMethod, HasFunction, MethodOver, NoneAbove};
ghost use Rattle.grain_vm.specs.Receivers.{CalledOn};
ghost use Rattle.grain_program.specs.Indices.{InPools, IsNamed};
ghost use Rattle.grain_program.specs.declared.code.instruction_set.Op.TheVariants as op;

use crate::asks::native_on;
use crate::chains::{Begun, begin_chain, finish_chain};
use crate::driving::{Driven, drive, go_on};
use crate::finding::{Found, find_pointed};
use crate::loops::{call, run_frame};
use crate::methods::{MethodCall, Needed, Outcome, enter_method, leave_method};
use crate::receiver_ends::end_on;
use crate::receivers::{Callee, Destination, find_callee, take_call};
use crate::walk_natives::native_in_walk;
use grain_frame::{Activation, Context, Progress, Run};
use grain_global::Steps;
use grain_host::Host;
use grain_program::Function;
use grain_value::{FnPtr, OutOfMemory};
use std::sync::ledger::Ledger;

// `chain`: walks the chain, and calls each function that the walk needs in a frame of its own.
#[cycle(run)]
#[cold]
#[inline(never)]
pub(crate) fn walk_chain<H: Host, L: Ledger>(
    run: &mut Run<H>,
    context: Context<'_>,
    host: &mut H,
    steps: &mut Steps<L>,
    frame: &mut Activation,
    index: u16,
    next: usize,
) -> Result<Progress, OutOfMemory>
    requires ready { ReadyIn context.program.now frame.old run.old (op.Chain index) next }
    requires pools { InPools context.program.now (op.Chain index) }
    requires none { NoneAbove run.old.level run.old.receivers }
    ensures performs { PerformsBound (setup_of H.law context.entry)
        (moment frame.old run.old steps.old host.old) (op.Chain index) next result
        (moment frame.new run.new steps.new host.new) }
{
    match begin_chain(run, context, steps, frame, index, next) {
        Err(e) => Err(e),
        Ok(Begun::Refused) => Ok(Progress::Failed),
        Ok(Begun::Walks(walking, answer)) => {
            let mut walking = walking;
            let mut answer = answer;
            let mut missed = false;
            'calls: loop {
                match drive(
                    run,
                    context,
                    host,
                    steps,
                    &mut walking.walk,
                    &mut missed,
                    answer,
                ) {
                    Driven::Over(end) => {
                        return finish_chain(run, context, steps, frame, walking, end);
                    }
                    Driven::Calls(call) => {
                        run.stacks.cut_trace(0);
                        missed = false;
                        let (outcome, receiver) = call_method(run, context, host, steps, call);
                        answer = go_on(run, context, steps, &mut walking.walk, outcome, receiver);
                    }
                    Driven::Asks(named, native) => {
                        let (outcome, receiver) = native_in_walk(
                            run,
                            context,
                            host,
                            steps,
                            &mut missed,
                            named,
                            native,
                        );
                        answer = go_on(run, context, steps, &mut walking.walk, outcome, receiver);
                    }
                }
            }
        }
    }
}

// `call_fn_ptr_method`, `call_fn_ptr_on_local` and `call_fn_ptr_on_this`: if there is a receiver, calls
// the pointer with it. If there is none, this is `call_fn_ptr`.
#[cycle(run)]
#[cold]
#[inline(never)]
pub(crate) fn call_with<H: Host, L: Ledger>(
    run: &mut Run<H>,
    context: Context<'_>,
    host: &mut H,
    steps: &mut Steps<L>,
    frame: &mut Activation,
    destination: Destination,
    count: u8,
    next: usize,
) -> Result<Progress, OutOfMemory>
    requires ready { Ready frame.old run.old (op.CallFnPtr count) next }
    requires none { NoneAbove run.old.level run.old.receivers }
    ensures performs { PerformsBound (setup_of H.law context.entry)
        (moment frame.old run.old steps.old host.old) (op_on destination count) next result
        (moment frame.new run.new steps.new host.new) }
{
    match find_on(run, context, host, steps, frame, destination, count, next) {
        Err(e) => Err(e),
        Ok(found) => match found {
            Found::Done(progress) => Ok(progress),
            Found::Function { number, next } => {
                let function = context.program.function_at(number);
                call_apart(run, context, host, steps, frame, function, next)
            }
        },
    }
}

// The same up to the call of a function without a receiver: it only says which.
#[cycle(run)]
#[cold]
#[inline(never)]
fn find_on<H: Host, L: Ledger>(
    run: &mut Run<H>,
    context: Context<'_>,
    host: &mut H,
    steps: &mut Steps<L>,
    frame: &mut Activation,
    destination: Destination,
    count: u8,
    next: usize,
) -> Result<Found, OutOfMemory>
    requires ready { Ready frame.old run.old (op.CallFnPtr count) next }
    requires none { NoneAbove run.old.level run.old.receivers }
    ensures finds { Finds (setup_of H.law context.entry)
        (moment frame.old run.old steps.old host.old) (op_on destination count) next result
        (moment frame.new run.new steps.new host.new) }
{
    let total = usize::from(count);
    match find_callee(run, context, steps, frame.address, total) {
        Err(e) => Err(e),
        Ok(callee) => match callee {
            Callee::Refused => Ok(Found::Done(Progress::Failed)),
            Callee::Target => find_pointed(run, context, host, steps, frame, count, next),
            Callee::First(pointer) => Found::of(call_on(
                run,
                context,
                host,
                steps,
                frame,
                destination,
                pointer,
                count,
                next,
            )),
        },
    }
}

// Calls a pointer with a receiver: the pointer is the first of `count` arguments, and the receiver is below
// them.
#[cycle(run)]
#[inline(always)]
fn call_on<H: Host, L: Ledger>(
    run: &mut Run<H>,
    context: Context<'_>,
    host: &mut H,
    steps: &mut Steps<L>,
    frame: &mut Activation,
    destination: Destination,
    pointer: FnPtr,
    count: u8,
    next: usize,
) -> Result<Progress, OutOfMemory>
    requires ready { Ready frame.old run.old (op.CallFnPtr count) next }
    requires some { 0 < count }
    requires none { NoneAbove run.old.level run.old.receivers }
    ensures called { CalledOn (setup_of H.law context.entry)
        (moment frame.old run.old steps.old host.old) destination pointer (count - 1) next result
        (moment frame.new run.new steps.new host.new) }
{
    let total = usize::from(count);
    let others = total - 1;
    match take_call(run, context, steps, frame.address, pointer, others) {
        Err(e) => Err(e),
        Ok(needed) => match needed {
            Needed::Function(call) => {
                let (outcome, receiver) = call_method(run, context, host, steps, call);
                end_on(
                    run,
                    context,
                    steps,
                    frame,
                    destination,
                    outcome,
                    receiver,
                    next,
                )
            }
            Needed::Native(request) => {
                let (outcome, receiver) = native_on(run, context, host, steps, request);
                end_on(
                    run,
                    context,
                    steps,
                    frame,
                    destination,
                    outcome,
                    receiver,
                    next,
                )
            }
        },
    }
}

// The same as `call`, which is built into the loop, as a function apart from it.
#[cycle(run)]
#[cold]
#[inline(never)]
pub(crate) fn call_apart<H: Host, L: Ledger>(
    run: &mut Run<H>,
    context: Context<'_>,
    host: &mut H,
    steps: &mut Steps<L>,
    frame: &mut Activation,
    function: &Function,
    next: usize,
) -> Result<Progress, OutOfMemory>
    requires inside { frame.old.base ≤ length run.old.scope }
    requires operands { length function.now.params ≤ length run.old.stacks.operands }
    requires room { length run.old.stacks.operands - length function.now.params + 1
        ≤ run.old.stacks.room }
    requires enters { IsTypedAt context.program.now function.now.chunk
        function.now.chunk.entry 0 0 [] }
    requires named { IsNamed context.program.now function.now }
    requires none { NoneAbove run.old.level run.old.receivers }
    ensures goes { Simulates (setup_of H.law context.entry)
        (abstraction run.old steps.old host.old)
        (λ m place w. enter_function m function.now (length function.now.params)
        (frame_in frame.old run.old place) next w)
        (is_out result) (abstraction run.new steps.new host.new)
        (continuation result run.new.fault (frame_in frame.new run.new)) }
    ensures kept { KeepsFrame frame.old run.old frame.new run.new }
    ensures lands { ContinuesAt context.entry.engine.now run.old frame.old run.new frame.new
        (next ∷ []) (length function.now.params) 1 run.old.stacks.handlers result }
    ensures before { steps.new.before ≡ steps.old.before }
{
    call(run, context, host, steps, frame, function, next)
}

// Calls a function that a walk needs, or that a pointer names, in a frame of its own. It gives the value
// or the fault of the call, and the receiver as the call left it.
#[cycle(run)]
#[cold]
#[inline(never)]
pub(crate) fn call_method<H: Host, L: Ledger>(
    run: &mut Run<H>,
    context: Context<'_>,
    host: &mut H,
    steps: &mut Steps<L>,
    call: MethodCall,
) -> Outcome
    requires there { HasFunction context.program.now call }
    requires none { NoneAbove run.old.level run.old.receivers }
    ensures called { (g : Function) → slice_get context.entry.program.now.functions call.number ≡ Some g →
        CallsMethod (setup_of H.law context.entry) call g run.old steps.old host.old result.0 result.1
        run.new steps.new host.new }
    ensures over { MethodOver run.old run.new }
    ensures lent { SameFlag call.receiver result.1 }
    ensures took { TookOne context.entry.engine.now run.old result.0 run.new }
    ensures before { steps.new.before ≡ steps.old.before }
{
    run_method(run, context, host, steps, call)
}

// The same, built into its caller, where a call that has no receiver needs none of its steps.
#[cycle(run)]
#[inline(always)]
pub(crate) fn run_method<H: Host, L: Ledger>(
    run: &mut Run<H>,
    context: Context<'_>,
    host: &mut H,
    steps: &mut Steps<L>,
    call: MethodCall,
) -> Outcome
    requires there { HasFunction context.program.now call }
    requires none { NoneAbove run.old.level run.old.receivers }
    ensures called { (g : Function) → slice_get context.entry.program.now.functions call.number ≡ Some g →
        CallsMethod (setup_of H.law context.entry) call g run.old steps.old host.old result.0 result.1
        run.new steps.new host.new }
    ensures over { MethodOver run.old run.new }
    ensures lent { SameFlag call.receiver result.1 }
    ensures took { TookOne context.entry.engine.now run.old result.0 run.new }
    ensures before { steps.new.before ≡ steps.old.before }
{
    let pos = call.pos;
    let function = context.program.function_at(call.number);
    match enter_method(run, context, host, steps, function, call) {
        Err(refused) => refused,
        Ok(back) => {
            let chunk = &function.chunk;
            let end = run_frame(run, context, host, steps, chunk, 0);
            leave_method(run, context, steps, function, pos, end, back)
        }
    }
}
