//! The instruction after a load of an integer, done in the same turn of the loop. The integer is
//! not pushed first.

ghost use Rattle.std.specs.Prelude.{◌≡◌, ◌<◌, ◌≤◌, ◌+◌, ◌-◌, ◌∷◌, [], length, Ok, Some, cond, nat_lt};
ghost use Rattle.grain_program.specs.Indices.{InPools};
ghost use Rattle.grain_program.specs.Layout.{most_code};
ghost use Rattle.grain_program.specs.TypedAt.{IsTypedAt};
ghost use Rattle.grain_value.specs.Operands.{arguments};
ghost use Rattle.grain_ops.specs.Agreement.{Agrees, IsGiven};
ghost use Rattle.grain_means.specs.Rules.{operated, flat_all, jump_if};
ghost use Rattle.grain_frame.specs.Abstraction.{frame_in, tries_in, Implements, Performs, Ready, Runs, Stepped, moved, begun_one, setup_of, moment};
ghost use Rattle.grain_frame.specs.Attempts.{Unchanged, OnTrue, OnFalse};
ghost use Rattle.grain_frame.specs.Following.{PerformsOn, loaded, judged, without_two, begun_behind};
ghost use Rattle.grain_program.specs.declared.code.instruction_set.Op.TheVariants as op;

use crate::activations::Activation;
use crate::contexts::Context;
use crate::fetching::fetch_at;
use crate::operated::quick_assigned_with;
use crate::runs::{Progress, Run};
use crate::transfers::agrees;
use crate::two_loads::const_loaded;
use grain_global::Steps;
use grain_host::Host;
use grain_ops::{Quick, quick_operated_with};
use grain_program::Op;
use std::sync::ledger::Ledger;

// Does the instruction at which the frame would stand after the load of an integer, if it is one
// that takes the integer and is done at once. If it says false, nothing was done.
#[inline(always)]
pub(crate) fn quick_loaded<H: Host, L: Ledger>(
    run: &mut Run<H>,
    context: Context<'_>,
    steps: &mut Steps<L>,
    frame: &mut Activation,
    integer: i64,
    next: usize,
) -> bool
    requires runs { Runs context.program.now (moved frame.old next)
        (loaded run.old integer) }
    ensures stepped { OnTrue result ((host : H) →
        Stepped (setup_of H.law context.entry) (moment (moved frame.old next)
        (loaded run.old integer) (begun_behind steps.old) host) (Ok Progress.Continues)
        (moment frame.new run.new steps.new host)) }
    ensures undone { OnFalse result
        (Unchanged frame.old run.old steps.old frame.new run.new steps.new) }
{
    match fetch_at(context, frame.chunk, next) {
        (Op::AssignLocalOp(slot, name, op), width) => {
            let after = next + width;
            assign_loaded(
                run, context, steps, frame, integer, next, slot, name, op, after,
            )
        }
        (Op::CallOp(name, count, token), width) => {
            op_loaded(
                run, context, steps, frame, integer, next, name, count, token, width,
            )
        }
        (_, _) => false,
    }
}

// The same after the load of an entry, and also where a constant is loaded next, and both are taken by the
// operator after that. After the load of a constant that is rare, and would make the loop longer.
#[inline(always)]
pub(crate) fn quick_local_loaded<H: Host, L: Ledger>(
    run: &mut Run<H>,
    context: Context<'_>,
    steps: &mut Steps<L>,
    frame: &mut Activation,
    integer: i64,
    next: usize,
) -> bool
    requires runs { Runs context.program.now (moved frame.old next)
        (loaded run.old integer) }
    ensures stepped { OnTrue result ((host : H) →
        Stepped (setup_of H.law context.entry) (moment (moved frame.old next)
        (loaded run.old integer) (begun_behind steps.old) host) (Ok Progress.Continues)
        (moment frame.new run.new steps.new host)) }
    ensures undone { OnFalse result
        (Unchanged frame.old run.old steps.old frame.new run.new steps.new) }
{
    match fetch_at(context, frame.chunk, next) {
        (Op::AssignLocalOp(slot, name, op), width) => {
            let after = next + width;
            assign_loaded(
                run, context, steps, frame, integer, next, slot, name, op, after,
            )
        }
        (Op::CallOp(name, count, token), width) => {
            op_loaded(
                run, context, steps, frame, integer, next, name, count, token, width,
            )
        }
        (Op::LoadConst(constant), width) => {
            let after = next + width;
            const_loaded(run, context, steps, frame, integer, next, constant, after)
        }
        (_, _) => false,
    }
}

// `assign_local_op` to an entry that is an integer, with the integer that is loaded. If it says
// false, nothing was done.
#[inline(always)]
fn assign_loaded<H: Host, L: Ledger>(
    run: &mut Run<H>,
    context: Context<'_>,
    steps: &mut Steps<L>,
    frame: &mut Activation,
    integer: i64,
    at: usize,
    slot: u16,
    name: u16,
    assign_op: u16,
    after: usize,
) -> bool
    requires ready { Ready (moved frame.old at) (loaded run.old integer)
        (op.AssignLocalOp slot name assign_op) after }
    requires pools { InPools context.program.now (op.AssignLocalOp slot name assign_op) }
    ensures performs { OnTrue result ((host : H) →
        Performs (setup_of H.law context.entry) (moment (moved frame.old at)
        (loaded run.old integer) (begun_behind steps.old) host)
        (op.AssignLocalOp slot name assign_op) after (Ok Progress.Continues)
        (moment frame.new run.new steps.new host)) }
    ensures undone { OnFalse result
        (Unchanged frame.old run.old steps.old frame.new run.new steps.new) }
{
    // Only the contract names it.
    let _name = name;
    let _at = at;
    let index = run.slot_index(frame, slot);
    let token = context.program.assign_op(u32::from(assign_op)).op_assign;
    let Some(held) = run.scope.get(index) else {
        return false;
    };
    if held.read_only {
        return false;
    }
    match quick_assigned_with(context.engine, token, &held.value, integer) {
        Some(z) => {
            begin_behind(steps);
            run.scope.set_int(index, z);
            steps.mark();
            frame.address = after;
            steps.mark();
            true
        }
        None => false,
    }
}

// `call_op` of an integer and the integer that is loaded, and, if it gives a truth value, the
// branch after it. If it says false, nothing was done.
#[inline(always)]
fn op_loaded<H: Host, L: Ledger>(
    run: &mut Run<H>,
    context: Context<'_>,
    steps: &mut Steps<L>,
    frame: &mut Activation,
    integer: i64,
    at: usize,
    name: u16,
    count: u8,
    token: u16,
    width: usize,
) -> bool
    requires ready { Ready (moved frame.old at) (loaded run.old integer)
        (op.CallOp name count token) (at + width) }
    requires pools { InPools context.program.now (op.CallOp name count token) }
    requires fits { at + width ≤ most_code }
    requires runs { Runs context.program.now (moved frame.old at) (loaded run.old integer) }
    requires typed { IsTypedAt context.program.now frame.old.chunk (at + width)
        (length (loaded run.old integer).stacks.operands - count + 1)
        (length run.old.stacks.cursors) (tries_in run.old.stacks.handlers) }
    ensures performs { OnTrue result ((host : H) →
        PerformsOn (setup_of H.law context.entry) (moment (moved frame.old at)
        (loaded run.old integer) (begun_behind steps.old) host) (op.CallOp name count token)
        (at + width) (moment frame.new run.new steps.new host)) }
    ensures undone { OnFalse result
        (Unchanged frame.old run.old steps.old frame.new run.new steps.new) }
{
    // Only the contract names it.
    let _name = name;
    match operation_loaded(run, context, token, count, integer) {
        Quick::Int(z) => {
            begin_behind(steps);
            run.stacks.put_int(z);
            frame.address = at + width;
            steps.mark();
            true
        }
        Quick::Bool(truth) => {
            begin_behind(steps);
            frame.address = at + width;
            steps.mark();
            if branch_loaded(run, context, steps, frame, integer, truth) {
                return true;
            }
            run.stacks.put_bool(truth);
            true
        }
        Quick::None => false,
    }
}

// Does the branch at which the frame stands, if it stands at one, on the truth value that an operator
// gives for the last operand and the integer that is loaded. If it says false, nothing was done.
#[inline(always)]
fn branch_loaded<H: Host, L: Ledger>(
    run: &mut Run<H>,
    context: Context<'_>,
    steps: &mut Steps<L>,
    frame: &mut Activation,
    integer: i64,
    truth: bool,
) -> bool
    requires one { 1 ≤ length run.old.stacks.operands }
    requires runs { Runs context.program.now frame.old
        (judged (loaded run.old integer) truth) }
    ensures stepped { OnTrue result ((host : H) →
        Stepped (setup_of H.law context.entry) (moment frame.old
        (judged (loaded run.old integer) truth) (begun_one steps.old) host) (Ok Progress.Continues)
        (moment frame.new run.new steps.new host)) }
    ensures undone { OnFalse result
        (Unchanged frame.old run.old steps.old frame.new run.new steps.new) }
{
    let address = frame.address;
    match fetch_at(context, frame.chunk, address) {
        (Op::JumpIfFalse(target), width) => {
            let next = address + width;
            branch_loaded_to(
                run, context, steps, frame, integer, truth, false, target, next,
            )
        }
        (Op::JumpIfTrue(target), width) => {
            let next = address + width;
            branch_loaded_to(
                run, context, steps, frame, integer, truth, true, target, next,
            )
        }
        (_, _) => false,
    }
}

// Does a branch: to the target, if the truth value is the wanted one, and else to `next`. It
// says false, and does nothing, if that costs an operation.
#[inline(always)]
fn branch_loaded_to<H: Host, L: Ledger>(
    run: &mut Run<H>,
    context: Context<'_>,
    steps: &mut Steps<L>,
    frame: &mut Activation,
    integer: i64,
    truth: bool,
    wanted: bool,
    target: u32,
    next: usize,
) -> bool
    requires one { 1 ≤ length run.old.stacks.operands }
    requires inside { frame.old.base ≤ length run.old.scope }
    requires ahead { frame.old.address < next }
    ensures implements { OnTrue result ((host : H) →
        Implements (setup_of H.law context.entry) (moment frame.old
        (judged (loaded run.old integer) truth) (begun_one steps.old) host)
        (λ m place w. jump_if m wanted target next
        (frame_in frame.old (judged (loaded run.old integer) truth) place) w)
        (cond (nat_lt target next) (target ∷ next ∷ []) (next ∷ target ∷ [])) 1 0
        run.old.stacks.handlers (Ok Progress.Continues) (moment frame.new run.new steps.new host)) }
    ensures undone { OnFalse result
        (Unchanged frame.old run.old steps.old frame.new run.new steps.new) }
{
    let target = target as usize;
    if !agrees(wanted, truth) {
        branch_loaded_begins(run, steps, integer);
        frame.address = next;
        steps.mark();
        return true;
    }
    if target <= frame.address {
        return false;
    }
    branch_loaded_begins(run, steps, integer);
    frame.address = target;
    steps.mark();
    true
}

// Counts the branch as begun, and drops the operands of its comparison, of which only the
// first was pushed.
#[inline(always)]
fn branch_loaded_begins<H: Host, L: Ledger>(run: &mut Run<H>, steps: &mut Steps<L>, integer: i64)
    requires one { 1 ≤ length run.old.stacks.operands }
    ensures run { run.new ≡ without_two (loaded run.old integer) }
    ensures counted { steps.new ≡ begun_one steps.old }
{
    // Only the contract names it.
    let _integer = integer;
    run.stacks.drop_top();
    steps.begin_instruction();
    steps.mark();
}

// What an operator gives for the last `count` operands, of which the last is the integer that is
// loaded: `None` unless operators are fast, these are two integers, and the result can be told at once.
#[inline(always)]
fn operation_loaded<H: Host>(
    run: &Run<H>,
    context: Context<'_>,
    token: u16,
    count: u8,
    integer: i64,
) -> Quick
    requires operands { count ≤ length run.now.stacks.operands + 1 }
    requires pool { token < length context.program.now.tokens }
    ensures agrees { Agrees result (operated context.entry.program.now context.entry.engine.now
        token (arguments count (loaded run.now integer).stacks.operands)) }
    ensures readable { IsGiven result → flat_all run.now.cells
        (arguments count (loaded run.now integer).stacks.operands)
        ≡ Some (arguments count (loaded run.now integer).stacks.operands) }
    ensures two { IsGiven result → count ≡ 2 }
{
    if count != 2 || !context.engine.fast_operators {
        return Quick::None;
    }
    let token = context.program.token(u32::from(token));
    quick_operated_with(token, &run.stacks.top().value, integer)
}

// Counts the load as done, and the instruction after it as begun.
#[inline(always)]
pub(crate) fn begin_behind<L: Ledger>(steps: &mut Steps<L>)
    ensures { steps.new ≡ begun_behind steps.old }
{
    steps.mark();
    steps.begin_instruction();
    steps.mark();
}
