//! Instructions that the loop does not do itself: calls of pointers and of names that no function has,
//! plain instructions, and, in functions of their own, those that walk along a place or may wait for a
//! native.

ghost use Rattle.grain_frame.specs.Abstraction.{Runs, StandsAt, Stepped, setup_of, moment};
ghost use Rattle.grain_frame.specs.Attempts.{CallsNothing};
ghost use Rattle.grain_vm.specs.Apart.{StandsAtCall};
ghost use Rattle.grain_vm.specs.Methods.{NoneAbove};
ghost use Rattle.grain_program.specs.declared.code.instruction_set.Op.TheVariants as op;

use crate::asks::{call_native, wait_for_native};
use crate::finding::{Found, find_pointed};
use crate::method_runs::{call_apart, call_with, walk_chain};
use crate::stepping::{Turn, step, step_plain};
use grain_frame::{Activation, Context, Progress, Run};
use grain_global::Steps;
use grain_host::Host;
use grain_value::OutOfMemory;
use std::sync::ledger::Ledger;

/// A call that is done on a copy of the frame.
#[derive(Clone, Copy, Debug, PartialEq, Eq)]
pub enum CallOnCopy {
    /// A call of the pointer under the last `count` operands; afterwards the frame goes on at
    /// the address `next`.
    Pointer { count: u8, next: usize },
    /// A call of the name that has this index, with this number of arguments, which no function has;
    /// afterwards the frame goes on at the address `next`.
    Native { name: u16, count: u8, next: usize },
}

// Does a call on a copy of the frame: of a pointer, or of a name that no function has.
#[cycle(run)]
#[inline(always)]
pub(crate) fn pointer_or_native<H: Host, L: Ledger>(
    run: &mut Run<H>,
    context: Context<'_>,
    host: &mut H,
    steps: &mut Steps<L>,
    frame: &mut Activation,
    on_copy: CallOnCopy,
) -> Result<Progress, OutOfMemory>
    requires runs { Runs context.program.now frame.old run.old }
    requires none { NoneAbove run.old.level run.old.receivers }
    requires stands { StandsAtCall context.program.now frame.old run.old on_copy }
    ensures stepped { Stepped (setup_of H.law context.entry)
        (moment frame.old run.old steps.old host.old) result
        (moment frame.new run.new steps.new host.new) }
{
    match on_copy {
        CallOnCopy::Pointer { count, next } => {
            call_pointer(run, context, host, steps, frame, count, next)
        }
        CallOnCopy::Native { name, count, next } => {
            call_native(run, context, host, steps, frame, name, count, next)
        }
    }
}

// `call_fn_ptr`: calls the pointer under the last `count` operands.
#[cycle(run)]
#[cold]
#[inline(never)]
fn call_pointer<H: Host, L: Ledger>(
    run: &mut Run<H>,
    context: Context<'_>,
    host: &mut H,
    steps: &mut Steps<L>,
    frame: &mut Activation,
    count: u8,
    next: usize,
) -> Result<Progress, OutOfMemory>
    requires runs { Runs context.program.now frame.old run.old }
    requires none { NoneAbove run.old.level run.old.receivers }
    requires stands { StandsAt context.program.now frame.old run.old (op.CallFnPtr count) next }
    ensures stepped { Stepped (setup_of H.law context.entry)
        (moment frame.old run.old steps.old host.old) result
        (moment frame.new run.new steps.new host.new) }
{
    match find_pointed(run, context, host, steps, frame, count, next) {
        Err(e) => Err(e),
        Ok(found) => match found {
            Found::Done(progress) => Ok(progress),
            Found::Function { number, next } => {
                let function = context.program.function_at(number);
                call_apart(run, context, host, steps, frame, function, next)
            }
        },
    }
}

// Does the instruction at which the frame stands, which is neither `call` nor `call_fn_ptr`: a plain one
// here, and any other in a function of its own, so that what a chain needs, or an instruction that waits
// for a native, costs a plain instruction nothing.
#[cycle(run)]
#[cold]
#[inline(never)]
pub(crate) fn step_or_walk<H: Host, L: Ledger>(
    run: &mut Run<H>,
    context: Context<'_>,
    host: &mut H,
    steps: &mut Steps<L>,
    frame: &mut Activation,
) -> Result<Progress, OutOfMemory>
    requires runs { Runs context.program.now frame.old run.old }
    requires none { NoneAbove run.old.level run.old.receivers }
    requires calls_nothing { CallsNothing context.program.now frame.old }
    ensures stepped { Stepped (setup_of H.law context.entry)
        (moment frame.old run.old steps.old host.old) result
        (moment frame.new run.new steps.new host.new) }
{
    match step_plain(run, context, host, steps, frame) {
        Err(e) => Err(e),
        Ok(done) => match done {
            Some(progress) => Ok(progress),
            None => walk_or_wait(run, context, host, steps, frame),
        },
    }
}

// Does the instruction at which the frame stands, which is neither `call` nor `call_fn_ptr`.
#[cycle(run)]
#[cold]
#[inline(never)]
fn walk_or_wait<H: Host, L: Ledger>(
    run: &mut Run<H>,
    context: Context<'_>,
    host: &mut H,
    steps: &mut Steps<L>,
    frame: &mut Activation,
) -> Result<Progress, OutOfMemory>
    requires runs { Runs context.program.now frame.old run.old }
    requires none { NoneAbove run.old.level run.old.receivers }
    requires calls_nothing { CallsNothing context.program.now frame.old }
    ensures stepped { Stepped (setup_of H.law context.entry)
        (moment frame.old run.old steps.old host.old) result
        (moment frame.new run.new steps.new host.new) }
{
    match step(run, context, host, steps, frame) {
        Err(e) => Err(e),
        Ok(turn) => match turn {
            Turn::Done(progress) => Ok(progress),
            Turn::Waits => wait_for_native(run, context, host, steps, frame),
            Turn::Chain { index, next } => {
                walk_chain(run, context, host, steps, frame, index, next)
            }
            Turn::Receiver {
                destination,
                count,
                next,
            } => call_with(run, context, host, steps, frame, destination, count, next),
        },
    }
}
