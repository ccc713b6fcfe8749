//! What a native asks for is called back: a function of the program, or another native.

ghost use Rattle.std.specs.Prelude.{◌≡◌, ◌<◌, ◌-◌, Err, None, IfOk, IfSome, if◌then◌else◌};
ghost use Rattle.grain_fault.specs.declared.faults.EvalAltResult.TheVariants as fault;
ghost use Rattle.grain_program.specs.Lookups.{CalledByText, function_by_text};
ghost use Rattle.grain_means.specs.Worlds.{Setup};
ghost use Rattle.grain_means.specs.Simulation.{StopPersists};
ghost use Rattle.grain_chain.specs.Walking.{is_want};
ghost use Rattle.grain_frame.specs.Abstraction.{setup_of};
ghost use Rattle.grain_vm.specs.Asks.{CallsBack, TellsOf, TookOne, IsHeard, told_fault, told_is_out};
ghost use Rattle.grain_vm.specs.Backs.{BeginsBack, FindsBack, NativeCallsBack};
ghost use Rattle.grain_vm.specs.Driving.{IsNative};
ghost use Rattle.grain_vm.specs.Methods.{MethodOver, NoneAbove};

use crate::asks::finish_native;
use crate::calls::deeper;
use crate::chains::is_want;
use crate::curried::with_curried;
use crate::driving::{perform_request, raise_race};
use crate::method_runs::run_method;
use crate::methods::{MethodCall, Needed};
use grain_chain::{Request, What};
use grain_fault::{EvalAltResult, Position};
use grain_frame::{Context, Run};
use grain_global::Steps;
use grain_host::{Host, HostFault};
use grain_value::{Array, Dynamic, FnPtr, OutOfMemory};
use std::sync::ledger::Ledger;

// What the host hears of a call that it asked for: the value as it is read, or the fault. A fault that the
// host does not hear of is given apart.
#[inline(always)]
pub(crate) fn told<H: Host, L: Ledger>(
    run: &Run<H>,
    steps: &mut Steps<L>,
    pos: Position,
    came: Result<Dynamic, EvalAltResult>,
) -> Result<Result<Dynamic, HostFault>, EvalAltResult>
    ensures tells { (m : Setup H) → TellsOf m pos came run.now steps.old result steps.new }
    ensures heard { IfOk result (λ o. IsHeard came) }
    // Want of memory is handed on.
    ensures carries { StopPersists (is_want came) steps.old.passed (told_is_out result)
        steps.new.passed }
    ensures before { steps.new.before ≡ steps.old.before }
{
    match came {
        Err(fault) => fault_told(fault),
        Ok(value) => match run.read_of(value) {
            Err(OutOfMemory) => Err(EvalAltResult::Memory),
            Ok(Some(value)) => Ok(Ok(value)),
            Ok(None) => fault_told(raise_race(run.alloc, steps, pos)),
        },
    }
}

// The host hears of a fault if a script may catch it and the host may answer it.
#[inline(never)]
fn fault_told(fault: EvalAltResult) -> Result<Result<Dynamic, HostFault>, EvalAltResult>
    ensures { result ≡ told_fault fault }
{
    if !fault.is_catchable() {
        return Err(fault);
    }
    match HostFault::new(fault) {
        Ok(fault) => Ok(Err(fault)),
        Err(fault) => Err(fault),
    }
}

// Calls what a pointer names that a native asks for: a function of the program, or else a native.
#[cycle(run)]
#[inline(always)]
pub(crate) fn call_back<H: Host, L: Ledger>(
    run: &mut Run<H>,
    context: Context<'_>,
    host: &mut H,
    steps: &mut Steps<L>,
    pos: Position,
    pointer: FnPtr,
    values: Array,
) -> Result<Dynamic, EvalAltResult>
    requires none { NoneAbove run.old.level run.old.receivers }
    ensures called { CallsBack (setup_of H.law context.entry) pos pointer values run.old steps.old
        host.old result run.new steps.new host.new }
    ensures over { MethodOver run.old run.new }
    ensures took { TookOne context.entry.engine.now run.old result run.new }
    ensures before { steps.new.before ≡ steps.old.before }
{
    match find_back(run, context, pos, pointer, values) {
        Err(OutOfMemory) => Err(EvalAltResult::Memory),
        Ok(needed) => match needed {
            Needed::Function(call) => {
                let (outcome, _receiver) = run_method(run, context, host, steps, call);
                outcome
            }
            Needed::Native(request) => native_back(run, context, host, steps, request),
        },
    }
}

// What a pointer names that a native asks for, on the pointer's values and then these.
#[inline(always)]
fn find_back<H: Host>(
    run: &Run<H>,
    context: Context<'_>,
    pos: Position,
    pointer: FnPtr,
    values: Array,
) -> Result<Needed, OutOfMemory>
    ensures { FindsBack context.entry.program.now context.entry.engine.now pos pointer values result }
{
    let count = pointer.curry().len() + values.len();
    let found = function_back(context, pointer.fn_name(), count);
    let Ok(arguments) = with_curried(run.alloc, pointer.curry(), values) else {
        return Err(OutOfMemory);
    };
    match found {
        Some(number) => Ok(Needed::Function(MethodCall {
            number,
            pos,
            receiver: None,
            arguments,
        })),
        None => Ok(Needed::Native(Request {
            step: 0,
            pos,
            what: What::Native(pointer.name),
            receiver: None,
            arguments,
        })),
    }
}

// The function of this name with `count` parameters, if natives may call functions.
#[inline(always)]
fn function_back(context: Context<'_>, name: &str, count: usize) -> Option<usize>
    ensures exact { result ≡ (if context.entry.engine.now.callbacks
        then function_by_text context.entry.program.now name.now count
        else None) }
    ensures called { IfSome result (CalledByText context.entry.program.now name.now count) }
{
    if !context.engine.callbacks() {
        return None;
    }
    context.program.function_named(name, count)
}

// Calls a native that another native asks for: it costs an operation, and runs one level up.
#[cycle(run)]
#[cold]
#[inline(never)]
fn native_back<H: Host, L: Ledger>(
    run: &mut Run<H>,
    context: Context<'_>,
    host: &mut H,
    steps: &mut Steps<L>,
    request: Request,
) -> Result<Dynamic, EvalAltResult>
    requires native { IsNative request.what }
    requires apart { request.receiver ≡ None }
    requires none { NoneAbove run.old.level run.old.receivers }
    ensures called { NativeCallsBack (setup_of H.law context.entry) request run.old steps.old host.old
        result run.new steps.new host.new }
    ensures over { MethodOver run.old run.new }
    ensures took { TookOne context.entry.engine.now run.old result run.new }
    ensures before { steps.new.before ≡ steps.old.before }
{
    let pos = request.pos;
    match begin_native_back(run, context, host, steps, pos) {
        Some(fault) => Err(fault),
        None => {
            let answered = perform_request(run, host, steps, request);
            let (outcome, _receiver) = finish_native(run, context, host, steps, answered);
            run.level -= 1;
            outcome
        }
    }
}

// Charges an operation for a native that another one asks for, and goes one level up; or gives the fault.
fn begin_native_back<H: Host, L: Ledger>(
    run: &mut Run<H>,
    context: Context<'_>,
    host: &mut H,
    steps: &mut Steps<L>,
    pos: Position,
) -> Option<EvalAltResult>
    ensures begins { BeginsBack (setup_of H.law context.entry) pos run.old steps.old host.old result
        run.new steps.new host.new }
    ensures before { steps.new.before ≡ steps.old.before }
{
    match run.charge_at(context, host, steps, pos) {
        Err(OutOfMemory) => return Some(EvalAltResult::Memory),
        Ok(taken) => {
            if !taken {
                return Some(run.take_fault());
            }
        }
    }
    match deeper(run.level, context.engine.limits.levels) {
        None => {
            steps.mark();
            Some(EvalAltResult::ErrorStackOverflow(pos))
        }
        Some(level) => {
            run.level = level;
            None
        }
    }
}
