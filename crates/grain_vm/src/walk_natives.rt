//! Natives that a walk calls and that ask for calls: what becomes of the trace of a property that was
//! missed before.

ghost use Rattle.std.specs.Prelude.{◌≡◌, ◌<◌, ◌-◌, ◌&&◌, [], Err, None, IfOk, OnErr, OnOk, false, option_map};
ghost use Rattle.grain_fault.specs.Problems.{problem_of};
ghost use Rattle.grain_fault.specs.declared.faults.EvalAltResult.TheVariants as fault;
ghost use Rattle.grain_means.specs.Worlds.{Failed};
ghost use Rattle.grain_means.specs.Rules.InWorld.{trace_of};
ghost use Rattle.grain_chain.specs.Walking.{is_want};
ghost use Rattle.grain_frame.specs.Abstraction.{setup_of};
ghost use Rattle.grain_frame.specs.Waiting.{apart_of, given_back_run};
ghost use Rattle.grain_vm.specs.Asks.{IsMissed, RaisesInWalk, RaisesTraced};
ghost use Rattle.grain_vm.specs.Driving.{IsApart, SameFlag};
ghost use Rattle.grain_vm.specs.Methods.{MethodOver, NoneAbove};
ghost use Rattle.grain_vm.specs.WalkNatives.{NativeWalked};

use crate::asks::end_of_native;
use crate::chains::is_want;
use crate::driving::{AskingNative, misses_named};
use crate::methods::Outcome;
use grain_fault::{EvalAltResult, Fault};
use grain_frame::{Context, Run};
use grain_global::Steps;
use grain_host::Host;
use grain_value::{Dynamic, OutOfMemory};
use std::alloc::Global;
use std::sync::ledger::Ledger;

// Goes on with a native that a walk calls, until it is over. If a property was missed before, and there is
// no indexer either, the trace of that fault stands again; notes whether a property is missed now. A native
// that is not called by its name asks for no property.
#[cycle(run)]
#[cold]
#[inline(never)]
pub(crate) fn native_in_walk<H: Host, L: Ledger>(
    run: &mut Run<H>,
    context: Context<'_>,
    host: &mut H,
    steps: &mut Steps<L>,
    missed: &mut bool,
    named: bool,
    native: AskingNative,
) -> Outcome
    requires apart { IsApart native.lent }
    requires none { NoneAbove run.old.level run.old.receivers }
    ensures walked { NativeWalked (setup_of H.law context.entry) named native run.old steps.old host.old
        missed.old result.0 result.1 run.new steps.new host.new missed.new }
    ensures over { MethodOver run.old run.new }
    ensures lent { SameFlag (apart_of native.lent) result.1 }
    ensures before { steps.new.before ≡ steps.old.before }
{
    let before = match take_trace(run, is_kept(named, *missed)) {
        Ok(before) => before,
        Err(OutOfMemory) => {
            *missed = false;
            return give_up(run, host, native);
        }
    };
    let (outcome, receiver) = end_of_native(run, context, host, steps, native);
    let outcome = raised_in_walk(run, steps, outcome, before);
    *missed = misses_named(named, &outcome);
    (outcome, receiver)
}

// Whether the trace of a property that was missed is kept: a native that is called by its name keeps it.
fn is_kept(named: bool, missed: bool) -> bool
    ensures { result ≡ (named && missed) }
{
    named && missed
}

// A copy of a trace.
fn copy_of_trace(alloc: Global, trace: &[Fault]) -> Result<Vec<Fault>, OutOfMemory>
    ensures { IfOk result (λ copy. copy.items ≡ trace.now) }
{
    let mut copy = Vec::new(alloc);
    'entries: for entry in trace {
        copy.push(*entry)?;
    }
    Ok(copy)
}

// Takes the trace away, and gives it if it is to be kept.
fn take_trace<H: Host>(run: &mut Run<H>, kept: bool) -> Result<Option<Vec<Fault>>, OutOfMemory>
    ensures taken { IfOk result (λ before.
        IsMissed kept run.old.stacks.trace (option_map (λ v. v.items) before)) }
    ensures empty { OnOk result
        (run.new ≡ record run.old { stacks = record run.old.stacks { trace = [] } }) }
    ensures refused { OnErr result (run.new ≡ run.old) }
{
    let before = if kept {
        Some(copy_of_trace(run.alloc, run.stacks.trace())?)
    } else {
        None
    };
    run.stacks.cut_trace(0);
    Ok(before)
}

// Memory ran out before what a native asks for could begin.
fn give_up<H: Host>(run: &mut Run<H>, host: &mut H, native: AskingNative) -> Outcome
    ensures outcome { result ≡ (Err fault.Memory, apart_of native.lent) }
    ensures host { host.new ≡ H.law.forget_after host.old native.asked.token }
    ensures run { run.new ≡ given_back_run native.lent
        (record run.old { stacks = record run.old.stacks { trace = [] } }) }
{
    run.stacks.cut_trace(0);
    let receiver = run.forget_native(host, native.asked.token, native.lent);
    (Err(EvalAltResult::Memory), receiver)
}

// Raises the fault of a native that a walk called, at a mark. If it says that there is no indexer, the trace
// is the one before, if one was kept.
pub(crate) fn raised_in_walk<H: Host, L: Ledger>(
    run: &mut Run<H>,
    steps: &mut Steps<L>,
    outcome: Result<Dynamic, EvalAltResult>,
    before: Option<Vec<Fault>>,
) -> Result<Dynamic, EvalAltResult>
    ensures { RaisesInWalk outcome (option_map (λ v. v.items) before) run.old steps.old result run.new
        steps.new }
{
    match outcome {
        Ok(value) => Ok(value),
        Err(fault) => {
            if is_want(&fault) {
                return Err(fault);
            }
            raise_traced(run, steps, fault, before)
        }
    }
}

// The same of a fault that is no want of memory.
fn raise_traced<H: Host, L: Ledger>(
    run: &mut Run<H>,
    steps: &mut Steps<L>,
    raised: EvalAltResult,
    before: Option<Vec<Fault>>,
) -> Result<Dynamic, EvalAltResult>
    ensures { RaisesTraced raised (option_map (λ v. v.items) before) run.old steps.old result run.new
        steps.new }
{
    match keep_trace(run, &raised, before) {
        Err(OutOfMemory) => Err(EvalAltResult::Memory),
        Ok(()) => {
            steps.mark();
            Err(raised)
        }
    }
}

// Puts the trace before in the place of the present one, if one was kept and a fault says that there is no
// indexer.
fn keep_trace<H: Host>(
    run: &mut Run<H>,
    raised: &EvalAltResult,
    before: Option<Vec<Fault>>,
) -> Result<(), OutOfMemory>
    ensures kept { OnOk result (run.new ≡ record run.old {
      stacks = record run.old.stacks {
        trace = trace_of (option_map (λ v. v.items) before) (Failed (problem_of raised.now))
            run.old.stacks.trace;
      };
    }) }
    ensures refused { OnErr result (run.new ≡ run.old) }
{
    match before {
        None => Ok(()),
        Some(before) => {
            if !raised.is_indexing_type() {
                return Ok(());
            }
            run.stacks.put_trace(before)
        }
    }
}
