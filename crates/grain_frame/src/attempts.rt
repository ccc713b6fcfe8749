//! The instructions that the loop tries first, and what came of them.

ghost use Rattle.std.specs.Prelude.{◌≡◌};
ghost use Rattle.grain_frame.specs.Abstraction.{Runs, setup_of};
ghost use Rattle.grain_frame.specs.Attempts.{Attempted, attempt_branched, attempt_of};

use crate::activations::Activation;
use crate::contexts::Context;
use crate::fetching::fetch;
use crate::quick_forms::{
    quick_assign, quick_const, quick_jump_if, quick_local, quick_next, quick_op, quick_pop,
    quick_store,
};
use crate::runs::Run;
use grain_global::Steps;
use grain_host::Host;
use grain_program::Op;
use std::sync::ledger::Ledger;

/// What came of an instruction that the loop tried first.
#[derive(Clone, Copy, Debug, PartialEq, Eq)]
pub enum Attempt {
    /// It is done, and the frame goes on.
    Done,
    /// It is done, and the frame is over, with a value.
    Returned,
    /// What is left to do is a jump to this address.
    Jump(u32),
    /// Nothing was done.
    Pending(Pending),
}

/// An instruction that is still to be done.
#[derive(Clone, Copy, Debug, PartialEq, Eq)]
pub enum Pending {
    /// A call of the name that has this index, with this number of arguments; afterwards the frame
    /// goes on at the address `next`.
    Call { name: u16, count: u8, next: usize },
    /// A call of the pointer under the last `count` operands; afterwards the frame goes on at
    /// the address `next`.
    Pointer { count: u8, next: usize },
    /// Any other: neither `call` nor `call_fn_ptr`.
    Other,
}

/// What came of a branch on a truth value that the loop tried first.
#[derive(Clone, Copy, Debug, PartialEq, Eq)]
pub enum Branched {
    /// It is done.
    Done,
    /// The truth value is taken, and what is left to do is a jump to the target.
    Jumps,
    /// Nothing was done.
    Undone,
}

impl Attempt {
    // `Done` if the instruction was done, else pending.
    #[inline(always)]
    fn of(done: bool) -> Attempt
        ensures { result ≡ attempt_of done }
    {
        if done {
            Attempt::Done
        } else {
            Attempt::Pending(Pending::Other)
        }
    }

    // What came of a branch to the target.
    #[inline(always)]
    fn branched(tried: Branched, target: u32) -> Attempt
        ensures { result ≡ attempt_branched tried target }
    {
        match tried {
            Branched::Done => Attempt::Done,
            Branched::Jumps => Attempt::Jump(target),
            Branched::Undone => Attempt::Pending(Pending::Other),
        }
    }
}

/// Does the instruction at which the frame stands, and perhaps those after it, if it is a common one
/// that takes no memory. Else it says which jump is left to do, or nothing changes, and it says what is
/// pending.
#[inline(always)]
pub fn quick<H: Host, L: Ledger>(
    run: &mut Run<H>,
    context: Context<'_>,
    steps: &mut Steps<L>,
    frame: &mut Activation,
) -> Attempt
    requires runs { Runs context.program.now frame.old run.old }
    ensures { Attempted (setup_of H.law context.entry) frame.old run.old steps.old frame.new run.new
        steps.new result }
{
    let address = frame.address;
    match fetch(run, context, frame) {
        (Op::LoadConst(constant), width) => {
            Attempt::of(quick_const(run, context, steps, frame, constant, address + width))
        }
        (Op::LoadLocal(slot), width) => {
            Attempt::of(quick_local(run, context, steps, frame, slot, address + width))
        }
        (Op::AssignLocalOp(slot, name, op), width) => {
            let next = address + width;
            Attempt::of(quick_assign(run, context, steps, frame, slot, name, op, next))
        }
        (Op::StoreLocal(slot), width) => {
            Attempt::of(quick_store(run, context, steps, frame, slot, address + width))
        }
        (Op::IterNext(target), width) => {
            Attempt::of(quick_next(run, context, steps, frame, target, address + width))
        }
        (Op::Jump(target), _) => Attempt::Jump(target),
        (Op::JumpIfFalse(target), width) => {
            let next = address + width;
            let tried = quick_jump_if(run, context, steps, frame, false, target, next);
            Attempt::branched(tried, target)
        }
        (Op::JumpIfTrue(target), width) => {
            let next = address + width;
            let tried = quick_jump_if(run, context, steps, frame, true, target, next);
            Attempt::branched(tried, target)
        }
        (Op::CallOp(name, count, token), width) => {
            Attempt::of(quick_op(run, context, steps, frame, name, count, token, width))
        }
        (Op::Pop, width) => {
            let next = address + width;
            Attempt::of(quick_pop(run, context, steps, frame, next))
        }
        (Op::Call(name, count), width) => {
            Attempt::Pending(Pending::Call {
                name,
                count,
                next: address + width,
            })
        }
        (Op::CallFnPtr(count), width) => {
            Attempt::Pending(Pending::Pointer {
                count,
                next: address + width,
            })
        }
        (Op::Return, width) => {
            run.return_value(steps, frame, address + width);
            Attempt::Returned
        }
        (_, _) => Attempt::Pending(Pending::Other),
    }
}
