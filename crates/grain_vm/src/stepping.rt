//! One instruction of a frame that is neither `call` nor `call_fn_ptr`.

ghost use Rattle.std.specs.Prelude.{◌≡◌, ◌≤◌, ◌+◌, ℕ, List, length, Some};
ghost use Rattle.grain_program.specs.Decoding.{op_at};
ghost use Rattle.grain_program.specs.Indices.{InPools};
ghost use Rattle.grain_program.specs.Layout.{most_code};
ghost use Rattle.grain_program.specs.Shapes.{TryHandler};
ghost use Rattle.grain_program.specs.TypedAt.{IsTypedAt, Provides, Verified};
ghost use Rattle.grain_frame.specs.Abstraction.{Runs, setup_of, moment};
ghost use Rattle.grain_frame.specs.Attempts.{CallsNothing};
ghost use Rattle.grain_vm.specs.Finding.{StepsHere, StepsIfPlain, is_plain, turn_of};

use crate::receivers::Destination;
use grain_frame::{Activation, Context, Performed, Progress, Run, fetch};
use grain_global::Steps;
use grain_host::Host;
use grain_program::{Chunk, Op};
use grain_value::OutOfMemory;
use std::sync::ledger::Ledger;

/// What came of an instruction that is neither `call` nor `call_fn_ptr`, before it runs a method.
#[derive(Clone, Copy, Debug, PartialEq, Eq)]
pub enum Turn {
    /// It is done.
    Done(Progress),
    /// It waits for a native, and lies in the run.
    Waits,
    /// It walks the chain with this index; afterwards the frame goes on at the address `next`.
    Chain {
        index: u16,
        next: usize,
    },
    /// It calls a pointer on `count` arguments, perhaps with a receiver, which goes to the
    /// destination; afterwards the frame goes on at the address `next`.
    Receiver {
        destination: Destination,
        count: u8,
        next: usize,
    },
}

impl Turn {
    // An instruction that is done or waits, unless memory ran out.
    fn of(performed: Result<Performed, OutOfMemory>) -> Result<Turn, OutOfMemory>
        ensures { result ≡ turn_of performed }
    {
        match performed? {
            Performed::Leads(progress) => Ok(Turn::Done(progress)),
            Performed::Waits => Ok(Turn::Waits),
        }
    }
}

// Whether an instruction is plain: it calls nothing, walks along no place, and asks the host for no
// native.
#[inline(always)]
fn is_plain(op: Op) -> bool
    ensures { result ≡ is_plain op }
{
    match op {
        Op::Call(_, _) => false,
        Op::CallFnPtr(_) => false,
        Op::Chain(_) => false,
        Op::CallFnPtrMethod(_) => false,
        Op::CallFnPtrOnLocal(_, _) => false,
        Op::CallFnPtrOnThis(_) => false,
        Op::CallOp(_, _, _) => false,
        Op::AssignLocalOp(_, _, _) => false,
        Op::AssignThisOp(_) => false,
        Op::InterpolateAppend => false,
        _ => true,
    }
}

// Does the instruction at which the frame stands if it is plain. Else nothing is done, and there is no
// progress.
#[inline(always)]
pub(crate) fn step_plain<H: Host, L: Ledger>(
    run: &mut Run<H>,
    context: Context<'_>,
    host: &mut H,
    steps: &mut Steps<L>,
    frame: &mut Activation,
) -> Result<Option<Progress>, OutOfMemory>
    requires runs { Runs context.program.now frame.old run.old }
    ensures steps { StepsIfPlain (setup_of H.law context.entry)
        (moment frame.old run.old steps.old host.old) result
        (moment frame.new run.new steps.new host.new) }
{
    let address = frame.address;
    let (op, width) = fetch(run, context, frame);
    if !is_plain(op) {
        return Ok(None);
    }
    match run.perform(context, host, steps, frame, op, address + width) {
        Err(e) => Err(e),
        Ok(progress) => Ok(Some(progress)),
    }
}

// Does the instruction at which the frame stands, which is neither `call` nor `call_fn_ptr`. If
// it may run a method, it only says which.
#[inline(always)]
pub(crate) fn step<H: Host, L: Ledger>(
    run: &mut Run<H>,
    context: Context<'_>,
    host: &mut H,
    steps: &mut Steps<L>,
    frame: &mut Activation,
) -> Result<Turn, OutOfMemory>
    requires runs { Runs context.program.now frame.old run.old }
    requires calls_nothing { CallsNothing context.program.now frame.old }
    ensures steps { StepsHere (setup_of H.law context.entry)
        (moment frame.old run.old steps.old host.old) result
        (moment frame.new run.new steps.new host.new) }
{
    let address = frame.address;
    match fetch(run, context, frame) {
        (Op::Chain(index), width) => Ok(Turn::Chain {
            index,
            next: address + width,
        }),
        (Op::CallFnPtrMethod(count), width) => Ok(Turn::Receiver {
            destination: Destination::Nowhere,
            count,
            next: address + width,
        }),
        (Op::CallFnPtrOnLocal(count, slot), width) => Ok(Turn::Receiver {
            destination: Destination::Slot(slot),
            count,
            next: address + width,
        }),
        (Op::CallFnPtrOnThis(count), width) => Ok(Turn::Receiver {
            destination: Destination::This,
            count,
            next: address + width,
        }),
        (Op::CallOp(name, count, token), width) => Turn::of(run.call_op(
            context,
            host,
            steps,
            frame,
            name,
            count,
            token,
            address + width,
        )),
        (Op::AssignLocalOp(slot, name, op), width) => Turn::of(run.assign_local_op(
            context,
            host,
            steps,
            frame,
            slot,
            name,
            op,
            address + width,
        )),
        (Op::AssignThisOp(op), width) => {
            Turn::of(run.assign_this_op(context, host, steps, frame, op, address + width))
        }
        (Op::InterpolateAppend, width) => {
            Turn::of(run.interpolate_append(context, host, steps, frame, address + width))
        }
        (op, width) => match run.perform(context, host, steps, frame, op, address + width) {
            Err(e) => Err(e),
            Ok(progress) => Ok(Turn::Done(progress)),
        },
    }
}
