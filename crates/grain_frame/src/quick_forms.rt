//! Common instructions, tried before all others: these forms take no memory, raise nothing and call
//! nothing, so that the loop over them holds what it needs in registers. Each says whether it did its
//! instruction; where it did not, it changed nothing, and the instruction's own method does it. A branch
//! to its target takes the truth value and leaves the jump to the loop.

ghost use Rattle.std.specs.Prelude.{◌≡◌, ◌<◌, ◌≤◌, ◌+◌, ◌-◌, length, Ok, Some};
ghost use Rattle.grain_program.specs.Indices.{InPools};
ghost use Rattle.grain_program.specs.Layout.{most_code};
ghost use Rattle.grain_program.specs.TypedAt.{IsTypedAt};
ghost use Rattle.grain_value.specs.Operands.{arguments};
ghost use Rattle.grain_ops.specs.Agreement.{Agrees, IsGiven};
ghost use Rattle.grain_means.specs.Rules.{operated, flat_all};
ghost use Rattle.grain_frame.specs.Abstraction.{tries_in, Performs, Ready, Runs, setup_of, moment};
ghost use Rattle.grain_frame.specs.Looping.{PerformsLoop};
ghost use Rattle.grain_frame.specs.Attempts.{BranchTried, Unchanged, OnTrue, OnFalse};
ghost use Rattle.grain_frame.specs.Following.{PerformsOn};
ghost use Rattle.grain_program.specs.declared.code.instruction_set.Op.TheVariants as op;

use crate::activations::Activation;
use crate::attempts::Branched;
use crate::branches::quick_branch;
use crate::contexts::Context;
use crate::loaded::{quick_loaded, quick_local_loaded};
use crate::operated::quick_assigned;
use crate::runs::{Progress, Run};
use crate::transfers::agrees;
use grain_global::Steps;
use grain_host::Host;
use grain_ops::{Quick, quick_operated};
use grain_value::Dynamic;
use std::sync::ledger::Ledger;

// `load_const` of an integer, and perhaps the instruction after it.
#[inline(always)]
pub(crate) fn quick_const<H: Host, L: Ledger>(
    run: &mut Run<H>,
    context: Context<'_>,
    steps: &mut Steps<L>,
    frame: &mut Activation,
    constant: u16,
    next: usize,
) -> bool
    requires ready { Ready frame.old run.old (op.LoadConst constant) next }
    requires pools { InPools context.program.now (op.LoadConst constant) }
    requires runs { Runs context.program.now frame.old run.old }
    requires typed { IsTypedAt context.program.now frame.old.chunk next
        (length run.old.stacks.operands + 1) (length run.old.stacks.cursors)
        (tries_in run.old.stacks.handlers) }
    ensures performs { OnTrue result ((host : H) →
        PerformsOn (setup_of H.law context.entry) (moment frame.old run.old steps.old host)
        (op.LoadConst constant) next (moment frame.new run.new steps.new host)) }
    ensures undone { OnFalse result
        (Unchanged frame.old run.old steps.old frame.new run.new steps.new) }
{
    match context.program.constant(u32::from(constant)) {
        Dynamic::Int(integer) => {
            let integer = *integer;
            if quick_loaded(run, context, steps, frame, integer, next) {
                return true;
            }
            if !run.stacks.push_int(integer) {
                return false;
            }
            frame.address = next;
            steps.mark();
            true
        }
        _ => false,
    }
}

// `load_local` of an integer, and perhaps the instruction after it.
#[inline(always)]
pub(crate) fn quick_local<H: Host, L: Ledger>(
    run: &mut Run<H>,
    context: Context<'_>,
    steps: &mut Steps<L>,
    frame: &mut Activation,
    slot: u16,
    next: usize,
) -> bool
    requires ready { Ready frame.old run.old (op.LoadLocal slot) next }
    requires runs { Runs context.program.now frame.old run.old }
    requires typed { IsTypedAt context.program.now frame.old.chunk next
        (length run.old.stacks.operands + 1) (length run.old.stacks.cursors)
        (tries_in run.old.stacks.handlers) }
    ensures performs { OnTrue result ((host : H) →
        PerformsOn (setup_of H.law context.entry) (moment frame.old run.old steps.old host)
        (op.LoadLocal slot) next (moment frame.new run.new steps.new host)) }
    ensures undone { OnFalse result
        (Unchanged frame.old run.old steps.old frame.new run.new steps.new) }
{
    let index = run.slot_index(frame, slot);
    match run.scope.get(index) {
        Some(held) => match &held.value {
            Dynamic::Int(integer) => {
                let integer = *integer;
                if quick_local_loaded(run, context, steps, frame, integer, next) {
                    return true;
                }
                if !run.stacks.push_int(integer) {
                    return false;
                }
                frame.address = next;
                steps.mark();
                true
            }
            _ => false,
        },
        None => false,
    }
}

// `assign_local_op` of two integers.
#[inline(always)]
#[tactic(auto, using(grain_means::specs::lemmas::Scopes::length_set_held))]
pub(crate) fn quick_assign<H: Host, L: Ledger>(
    run: &mut Run<H>,
    context: Context<'_>,
    steps: &mut Steps<L>,
    frame: &mut Activation,
    slot: u16,
    name: u16,
    assign_op: u16,
    next: usize,
) -> bool
    requires ready { Ready frame.old run.old (op.AssignLocalOp slot name assign_op) next }
    requires pools { InPools context.program.now (op.AssignLocalOp slot name assign_op) }
    ensures performs { OnTrue result ((host : H) →
        Performs (setup_of H.law context.entry) (moment frame.old run.old steps.old host)
        (op.AssignLocalOp slot name assign_op) next (Ok Progress.Continues)
        (moment frame.new run.new steps.new host)) }
    ensures undone { OnFalse result
        (Unchanged frame.old run.old steps.old frame.new run.new steps.new) }
{
    // Only the contract names it.
    let _name = name;
    let index = run.slot_index(frame, slot);
    let token = context.program.assign_op(u32::from(assign_op)).op_assign;
    let Some(held) = run.scope.get(index) else {
        return false;
    };
    if held.read_only {
        return false;
    }
    match quick_assigned(context.engine, token, &held.value, &run.stacks.top().value) {
        Some(z) => {
            run.scope.set_int(index, z);
            run.stacks.drop_top();
            steps.mark();
            frame.address = next;
            steps.mark();
            true
        }
        None => false,
    }
}

// `store_local` of an integer into an entry that is an integer, whether it could be written or only
// read.
#[inline(always)]
#[tactic(auto, using(grain_means::specs::lemmas::Scopes::length_set_held))]
pub(crate) fn quick_store<H: Host, L: Ledger>(
    run: &mut Run<H>,
    context: Context<'_>,
    steps: &mut Steps<L>,
    frame: &mut Activation,
    slot: u16,
    next: usize,
) -> bool
    requires ready { Ready frame.old run.old (op.StoreLocal slot) next }
    ensures performs { OnTrue result ((host : H) →
        Performs (setup_of H.law context.entry) (moment frame.old run.old steps.old host)
        (op.StoreLocal slot) next (Ok Progress.Continues) (moment frame.new run.new steps.new host)) }
    ensures undone { OnFalse result
        (Unchanged frame.old run.old steps.old frame.new run.new steps.new) }
{
    // Only the contract names it.
    let _context = context;
    let index = run.slot_index(frame, slot);
    let Some(held) = run.scope.get(index) else {
        return false;
    };
    match (&held.value, &run.stacks.top().value) {
        (Dynamic::Int(_), Dynamic::Int(integer)) => {
            let integer = *integer;
            run.scope.set_int(index, integer);
            run.stacks.drop_top();
            steps.mark();
            frame.address = next;
            steps.mark();
            true
        }
        (_, _) => false,
    }
}

// `iter_next` over a range, of which another integer comes after the next one.
#[inline(always)]
pub(crate) fn quick_next<H: Host, L: Ledger>(
    run: &mut Run<H>,
    context: Context<'_>,
    steps: &mut Steps<L>,
    frame: &mut Activation,
    target: u32,
    next: usize,
) -> bool
    requires ready { Ready frame.old run.old (op.IterNext target) next }
    requires there { 0 < length run.old.stacks.cursors }
    ensures performs { OnTrue result ((host : H) →
        PerformsLoop (setup_of H.law context.entry) (moment frame.old run.old steps.old host)
        (op.IterNext target) next (Ok Progress.Continues)
        (moment frame.new run.new steps.new host)) }
    ensures undone { OnFalse result
        (Unchanged frame.old run.old steps.old frame.new run.new steps.new) }
{
    // Only the contract names them.
    let _context = context;
    let _target = target;
    let Some(cursor) = run.stacks.innermost_cursor() else {
        unreachable!();
    };
    let Some(first) = cursor.next_integer() else {
        return false;
    };
    if !run.stacks.push_int(first) {
        return false;
    }
    run.stacks.cursor_mut().pass(first);
    frame.address = next;
    steps.mark();
    true
}

// `call_op` of two integers, and, if it gives a truth value, the branch after it.
#[inline(always)]
pub(crate) fn quick_op<H: Host, L: Ledger>(
    run: &mut Run<H>,
    context: Context<'_>,
    steps: &mut Steps<L>,
    frame: &mut Activation,
    name: u16,
    count: u8,
    token: u16,
    width: usize,
) -> bool
    requires ready { Ready frame.old run.old (op.CallOp name count token)
        (frame.old.address + width) }
    requires pools { InPools context.program.now (op.CallOp name count token) }
    requires fits { frame.old.address + width ≤ most_code }
    requires runs { Runs context.program.now frame.old run.old }
    requires typed { IsTypedAt context.program.now frame.old.chunk (frame.old.address + width)
        (length run.old.stacks.operands - count + 1) (length run.old.stacks.cursors)
        (tries_in run.old.stacks.handlers) }
    ensures performs { OnTrue result ((host : H) →
        PerformsOn (setup_of H.law context.entry) (moment frame.old run.old steps.old host)
        (op.CallOp name count token) (frame.old.address + width)
        (moment frame.new run.new steps.new host)) }
    ensures undone { OnFalse result
        (Unchanged frame.old run.old steps.old frame.new run.new steps.new) }
{
    // Only the contract names it.
    let _name = name;
    match quick_operation(run, context, token, count) {
        Quick::Int(z) => {
            run.stacks.answer_int(z);
            frame.address += width;
            steps.mark();
            true
        }
        Quick::Bool(truth) => {
            frame.address += width;
            steps.mark();
            if quick_branch(run, context, steps, frame, truth) {
                return true;
            }
            run.stacks.answer_bool(truth);
            true
        }
        Quick::None => false,
    }
}

// What an operator gives for the last `count` operands: `None` unless operators are fast, these are
// two integers, and the result can be told at once.
#[inline(always)]
fn quick_operation<H: Host>(run: &Run<H>, context: Context<'_>, token: u16, count: u8) -> Quick
    requires operands { count ≤ length run.now.stacks.operands }
    requires pool { token < length context.program.now.tokens }
    ensures agrees { Agrees result (operated context.entry.program.now context.entry.engine.now
        token (arguments count run.now.stacks.operands)) }
    ensures readable { IsGiven result → flat_all run.now.cells
        (arguments count run.now.stacks.operands)
        ≡ Some (arguments count run.now.stacks.operands) }
    ensures two { IsGiven result → count ≡ 2 }
{
    if count != 2 || !context.engine.fast_operators {
        return Quick::None;
    }
    let token = context.program.token(u32::from(token));
    quick_operated(token, &run.stacks.peek(1).value, &run.stacks.top().value)
}

// `pop` of an operand that owns no memory.
#[inline(always)]
pub(crate) fn quick_pop<H: Host, L: Ledger>(
    run: &mut Run<H>,
    context: Context<'_>,
    steps: &mut Steps<L>,
    frame: &mut Activation,
    next: usize,
) -> bool
    requires ready { Ready frame.old run.old op.Pop next }
    ensures performs { OnTrue result ((host : H) →
        Performs (setup_of H.law context.entry) (moment frame.old run.old steps.old host)
        op.Pop next (Ok Progress.Continues) (moment frame.new run.new steps.new host)) }
    ensures undone { OnFalse result
        (Unchanged frame.old run.old steps.old frame.new run.new steps.new) }
{
    // Only the contract names it.
    let _context = context;
    if !run.stacks.top().value.owns_no_memory() {
        return false;
    }
    run.stacks.drop_top();
    frame.address = next;
    steps.mark();
    true
}

// `jump_if_false` and `jump_if_true` on a truth value, which is taken off the operands. If it is the wanted
// one, the jump is left to do.
#[inline(always)]
pub(crate) fn quick_jump_if<H: Host, L: Ledger>(
    run: &mut Run<H>,
    context: Context<'_>,
    steps: &mut Steps<L>,
    frame: &mut Activation,
    wanted: bool,
    target: u32,
    next: usize,
) -> Branched
    requires ready { Ready frame.old run.old (op.JumpIfFalse target) next }
    ensures tried { BranchTried (setup_of H.law context.entry) frame.old run.old steps.old wanted
        target next frame.new run.new steps.new result }
{
    // Only the contract names them.
    let _context = context;
    let _target = target;
    match run.stacks.top().value {
        Dynamic::Bool(truth) => {
            run.stacks.drop_top();
            if agrees(wanted, truth) {
                return Branched::Jumps;
            }
            frame.address = next;
            steps.mark();
            Branched::Done
        }
        _ => Branched::Undone,
    }
}
