//! Calls of a pointer with a receiver: what is called, and what is taken from the operands for the call.

ghost use Rattle.std.specs.Prelude.{◌≡◌, ◌<◌, ◌≤◌, ◌+◌, ◌++◌, length, IfOk};
ghost use Rattle.grain_value.specs.Cells.{flat};
ghost use Rattle.grain_value.specs.Operands.{arguments, under};
ghost use Rattle.grain_means.specs.Rules.{operand_under, trees_in};
ghost use Rattle.grain_vm.specs.Receivers.{FindsCallee, TakesCall, called, first_in, receiver_in};

use crate::methods::{MethodCall, Needed};
use grain_chain::{Request, What};
use grain_frame::{Context, Run, Under};
use grain_global::Steps;
use grain_host::Host;
use grain_value::{Array, FnPtr, Held, OutOfMemory};
use std::alloc::Global;
use std::sync::ledger::Ledger;

/// Where a receiver goes after its call.
#[derive(Clone, Copy, Debug, PartialEq, Eq)]
pub enum Destination {
    /// Nowhere: it is dropped.
    Nowhere,
    /// To the entry of this slot.
    Slot(u16),
    /// To the frame's `this`, if it has one.
    This,
}

/// What an instruction that may have a receiver calls.
#[derive(Drop)]
pub enum Callee {
    /// The pointer below the arguments. There is no receiver.
    Target,
    /// A copy of the first argument. What is below the arguments is the receiver.
    First(FnPtr),
    /// Nothing: a fault is raised.
    Refused,
}

// What is called: what is under the last `count` operands, if that is a pointer, or else the first of
// these operands. If neither is a pointer, or one that is looked at is a lent cell, a fault is raised.
pub(crate) fn find_callee<H: Host, L: Ledger>(
    run: &mut Run<H>,
    context: Context<'_>,
    steps: &mut Steps<L>,
    address: usize,
    count: usize,
) -> Result<Callee, OutOfMemory>
    requires there { count < length run.old.stacks.operands }
    ensures { FindsCallee run.old steps.old
        (called context.entry.program.now run.old.cells run.old.stacks.operands address count)
        result run.new steps.new }
{
    match run.under(count) {
        Under::Pointer => Ok(Callee::Target),
        Under::Lent => {
            run.data_race(context, steps, address, "")?;
            Ok(Callee::Refused)
        }
        Under::Other => {
            if count == 0 {
                run.not_a_pointer(context, steps, address, 0)?;
                return Ok(Callee::Refused);
            }
            find_first(run, context, steps, address, count - 1)
        }
    }
}

// The pointer that is under the last `count` operands, which is the first argument of a receiver.
fn find_first<H: Host, L: Ledger>(
    run: &mut Run<H>,
    context: Context<'_>,
    steps: &mut Steps<L>,
    address: usize,
    count: usize,
) -> Result<Callee, OutOfMemory>
    requires there { count < length run.old.stacks.operands }
    ensures { FindsCallee run.old steps.old
        (first_in context.entry.program.now address count
        (flat run.old.cells (operand_under count run.old.stacks.operands).value))
        result run.new steps.new }
{
    match run.under(count) {
        Under::Pointer => Ok(Callee::First(run.pointer_under(count)?)),
        Under::Lent => {
            run.data_race(context, steps, address, "")?;
            Ok(Callee::Refused)
        }
        Under::Other => {
            run.not_a_pointer(context, steps, address, count)?;
            Ok(Callee::Refused)
        }
    }
}

// The values of a pointer, followed by copies of the last `count` operands.
fn arguments_of<H: Host>(run: &Run<H>, curry: Array, count: usize) -> Result<Array, OutOfMemory>
    requires there { count ≤ length run.now.stacks.operands }
    ensures { IfOk result (λ all. all ≡ curry ++ trees_in (arguments count run.now.stacks.operands)) }
{
    let operands = run.stacks.frame_operands();
    followed_by(run.alloc, curry, &operands[operands.len() - count..])
}

// Values, followed by copies of what is held.
fn followed_by(alloc: Global, values: Array, held: &[Held]) -> Result<Array, OutOfMemory>
    ensures { IfOk result (λ all. all ≡ values ++ trees_in held.now) }
{
    let mut all = values;
    'held: for one in held {
        all.push(one.value.copy(alloc)?)?;
    }
    Ok(all)
}

// Takes the receiver, the pointer and the `count` arguments after it from the operands. A receiver that is
// a cell whose content is read-only is read-only itself from then on.
fn take_receiver<H: Host>(run: &mut Run<H>, count: usize) -> Held
    requires there { count + 1 < length run.old.stacks.operands }
    ensures value { result ≡ receiver_in run.old count }
    ensures rest { run.new ≡ record run.old {
      stacks = record run.old.stacks { operands = under (count + 1 + 1) run.old.stacks.operands };
    } }
{
    run.stacks.cut(run.stacks.height() - count - 1);
    let held = run.stacks.pop();
    let read_only = held.read_only | run.is_constant(held.value.as_cell());
    Held {
        value: held.value,
        read_only,
    }
}

// Takes the operands of a call with a receiver, at a mark, and finds what the pointer names: a function of
// the program, or else a native. The pointer is the first argument, and `count` others follow it. If memory
// runs out, nothing changes.
pub(crate) fn take_call<H: Host, L: Ledger>(
    run: &mut Run<H>,
    context: Context<'_>,
    steps: &mut Steps<L>,
    address: usize,
    pointer: FnPtr,
    count: usize,
) -> Result<Needed, OutOfMemory>
    requires there { count + 1 < length run.old.stacks.operands }
    ensures { TakesCall context.entry.program.now run.old steps.old address pointer count result
        run.new steps.new }
{
    let FnPtr { name, curry } = pointer;
    let arguments = arguments_of(run, curry, count)?;
    let found = context
        .program
        .function_named(name.as_str(), arguments.len());
    let pos = context.program.position(address);
    steps.mark();
    let receiver = Some(take_receiver(run, count));
    Ok(match found {
        Some(number) => Needed::Function(MethodCall {
            number,
            pos,
            receiver,
            arguments,
        }),
        None => Needed::Native(Request {
            step: 0,
            pos,
            what: What::Native(name),
            receiver,
            arguments,
        }),
    })
}
