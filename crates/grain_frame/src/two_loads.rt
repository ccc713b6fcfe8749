//! Two loads of integers and the operator after them, done in one turn of the loop, and if the operator
//! gives a truth value, with the branch after it. Neither integer is pushed.

ghost use Rattle.std.specs.Prelude.{◌≡◌, ◌<◌, ◌≤◌, ◌+◌, ◌-◌, ◌∷◌, [], length, Ok, Some, cond, nat_lt};
ghost use Rattle.grain_program.specs.Indices.{InPools};
ghost use Rattle.grain_program.specs.Layout.{most_code};
ghost use Rattle.grain_program.specs.TypedAt.{IsTypedAt};
ghost use Rattle.grain_value.specs.Operands.{arguments};
ghost use Rattle.grain_ops.specs.Agreement.{Agrees, IsGiven};
ghost use Rattle.grain_means.specs.Rules.{operated, flat_all, jump_if};
ghost use Rattle.grain_frame.specs.Abstraction.{frame_in, tries_in, Implements, Ready, Runs, Stepped, moved, marked_once, begun_one, setup_of, moment};
ghost use Rattle.grain_frame.specs.Attempts.{Unchanged, OnTrue, OnFalse};
ghost use Rattle.grain_frame.specs.Following.{PerformsOn, loaded, judged, begun_behind};
ghost use Rattle.grain_program.specs.declared.code.instruction_set.Op.TheVariants as op;

use crate::activations::Activation;
use crate::contexts::Context;
use crate::fetching::fetch_at;
use crate::loaded::begin_behind;
use crate::runs::{Progress, Run};
use crate::transfers::agrees;
use grain_global::Steps;
use grain_host::Host;
use grain_ops::{Quick, quick_operated_with};
use grain_program::Op;
use grain_value::Dynamic;
use std::sync::ledger::Ledger;

// `load_const` of an integer after the load of another one, with the operator after both. If it says false,
// nothing was done.
#[inline(always)]
pub(crate) fn const_loaded<H: Host, L: Ledger>(
    run: &mut Run<H>,
    context: Context<'_>,
    steps: &mut Steps<L>,
    frame: &mut Activation,
    first: i64,
    at: usize,
    constant: u16,
    next: usize,
) -> bool
    requires ready { Ready (moved frame.old at) (loaded run.old first) (op.LoadConst constant) next }
    requires pools { InPools context.program.now (op.LoadConst constant) }
    requires runs { Runs context.program.now (moved frame.old at) (loaded run.old first) }
    requires typed { IsTypedAt context.program.now frame.old.chunk next
        (length (loaded run.old first).stacks.operands + 1) (length run.old.stacks.cursors)
        (tries_in run.old.stacks.handlers) }
    ensures performs { OnTrue result ((host : H) →
        PerformsOn (setup_of H.law context.entry) (moment (moved frame.old at)
        (loaded run.old first) (begun_behind steps.old) host) (op.LoadConst constant) next
        (moment frame.new run.new steps.new host)) }
    ensures undone { OnFalse result
        (Unchanged frame.old run.old steps.old frame.new run.new steps.new) }
{
    // Only the contract names it.
    let _at = at;
    match context.program.constant(u32::from(constant)) {
        Dynamic::Int(second) => pair_loaded(run, context, steps, frame, first, *second, next),
        _ => false,
    }
}

// Does the operator at which the frame would stand after the loads of two integers, if it is done at once.
// If it says false, nothing was done.
#[inline(always)]
fn pair_loaded<H: Host, L: Ledger>(
    run: &mut Run<H>,
    context: Context<'_>,
    steps: &mut Steps<L>,
    frame: &mut Activation,
    first: i64,
    second: i64,
    at: usize,
) -> bool
    requires runs { Runs context.program.now (moved frame.old at)
        (loaded (loaded run.old first) second) }
    ensures stepped { OnTrue result ((host : H) →
        Stepped (setup_of H.law context.entry) (moment (moved frame.old at)
        (loaded (loaded run.old first) second) (begun_behind (begun_behind steps.old)) host)
        (Ok Progress.Continues) (moment frame.new run.new steps.new host)) }
    ensures undone { OnFalse result
        (Unchanged frame.old run.old steps.old frame.new run.new steps.new) }
{
    match fetch_at(context, frame.chunk, at) {
        (Op::CallOp(name, count, token), width) => {
            pair_operated(
                run, context, steps, frame, first, second, at, name, count, token, width,
            )
        }
        (_, _) => false,
    }
}

// `call_op` of two integers that are loaded, and, if it gives a truth value, the branch after it. If it says
// false, nothing was done.
#[inline(always)]
fn pair_operated<H: Host, L: Ledger>(
    run: &mut Run<H>,
    context: Context<'_>,
    steps: &mut Steps<L>,
    frame: &mut Activation,
    first: i64,
    second: i64,
    at: usize,
    name: u16,
    count: u8,
    token: u16,
    width: usize,
) -> bool
    requires ready { Ready (moved frame.old at) (loaded (loaded run.old first) second)
        (op.CallOp name count token) (at + width) }
    requires pools { InPools context.program.now (op.CallOp name count token) }
    requires fits { at + width ≤ most_code }
    requires runs { Runs context.program.now (moved frame.old at)
        (loaded (loaded run.old first) second) }
    requires typed { IsTypedAt context.program.now frame.old.chunk (at + width)
        (length (loaded (loaded run.old first) second).stacks.operands - count + 1)
        (length run.old.stacks.cursors) (tries_in run.old.stacks.handlers) }
    ensures performs { OnTrue result ((host : H) →
        PerformsOn (setup_of H.law context.entry) (moment (moved frame.old at)
        (loaded (loaded run.old first) second) (begun_behind (begun_behind steps.old)) host)
        (op.CallOp name count token) (at + width) (moment frame.new run.new steps.new host)) }
    ensures undone { OnFalse result
        (Unchanged frame.old run.old steps.old frame.new run.new steps.new) }
{
    // Only the contract names it.
    let _name = name;
    match pair_operation(run, context, token, count, first, second) {
        Quick::Int(z) => {
            if !run.stacks.push_int(z) {
                return false;
            }
            begin_behind(steps);
            begin_behind(steps);
            frame.address = at + width;
            steps.mark();
            true
        }
        Quick::Bool(truth) => {
            let next = at + width;
            pair_branch(run, context, steps, frame, first, second, truth, next)
        }
        Quick::None => false,
    }
}

// Does the branch at which the frame would stand after an operator gave a truth value for two integers that
// are loaded, if a branch stands there. If it says false, nothing was done.
#[inline(always)]
fn pair_branch<H: Host, L: Ledger>(
    run: &mut Run<H>,
    context: Context<'_>,
    steps: &mut Steps<L>,
    frame: &mut Activation,
    first: i64,
    second: i64,
    truth: bool,
    at: usize,
) -> bool
    requires runs { Runs context.program.now (moved frame.old at)
        (judged (loaded (loaded run.old first) second) truth) }
    ensures stepped { OnTrue result ((host : H) →
        Stepped (setup_of H.law context.entry) (moment (moved frame.old at)
        (judged (loaded (loaded run.old first) second) truth)
        (begun_one (marked_once (begun_behind (begun_behind steps.old)))) host)
        (Ok Progress.Continues) (moment frame.new run.new steps.new host)) }
    ensures undone { OnFalse result
        (Unchanged frame.old run.old steps.old frame.new run.new steps.new) }
{
    match fetch_at(context, frame.chunk, at) {
        (Op::JumpIfFalse(target), width) => {
            let next = at + width;
            pair_branch_to(
                run, context, steps, frame, first, second, truth, at, false, target, next,
            )
        }
        (Op::JumpIfTrue(target), width) => {
            let next = at + width;
            pair_branch_to(
                run, context, steps, frame, first, second, truth, at, true, target, next,
            )
        }
        (_, _) => false,
    }
}

// Does a branch: to the target, if the truth value is the wanted one, and else to `next`. It says false,
// and does nothing, if that costs an operation.
#[inline(always)]
fn pair_branch_to<H: Host, L: Ledger>(
    run: &mut Run<H>,
    context: Context<'_>,
    steps: &mut Steps<L>,
    frame: &mut Activation,
    first: i64,
    second: i64,
    truth: bool,
    at: usize,
    wanted: bool,
    target: u32,
    next: usize,
) -> bool
    requires inside { frame.old.base ≤ length run.old.scope }
    requires ahead { at < next }
    ensures implements { OnTrue result ((host : H) →
        Implements (setup_of H.law context.entry) (moment (moved frame.old at)
        (judged (loaded (loaded run.old first) second) truth)
        (begun_one (marked_once (begun_behind (begun_behind steps.old)))) host)
        (λ m place w. jump_if m wanted target next
        (frame_in (moved frame.old at) (judged (loaded (loaded run.old first) second) truth) place) w)
        (cond (nat_lt target next) (target ∷ next ∷ []) (next ∷ target ∷ [])) 1 0
        run.old.stacks.handlers (Ok Progress.Continues) (moment frame.new run.new steps.new host)) }
    ensures undone { OnFalse result
        (Unchanged frame.old run.old steps.old frame.new run.new steps.new) }
{
    // Only the contract names them.
    let _run = run;
    let _context = context;
    let _integers = (first, second);
    let target = target as usize;
    if !agrees(wanted, truth) {
        pair_begins(steps);
        frame.address = next;
        steps.mark();
        return true;
    }
    if target <= at {
        return false;
    }
    pair_begins(steps);
    frame.address = target;
    steps.mark();
    true
}

// Counts two loads and the operator after them as done, and the branch after these as begun.
#[inline(always)]
fn pair_begins<L: Ledger>(steps: &mut Steps<L>)
    ensures { steps.new ≡ begun_one (marked_once (begun_behind (begun_behind steps.old))) }
{
    begin_behind(steps);
    begin_behind(steps);
    steps.mark();
    steps.begin_instruction();
    steps.mark();
}

// What an operator gives for the last `count` operands, of which the last two are integers that are
// loaded: `None` unless operators are fast, and the result can be told at once.
#[inline(always)]
fn pair_operation<H: Host>(
    run: &Run<H>,
    context: Context<'_>,
    token: u16,
    count: u8,
    first: i64,
    second: i64,
) -> Quick
    requires pool { token < length context.program.now.tokens }
    ensures agrees { Agrees result (operated context.entry.program.now context.entry.engine.now
        token (arguments count (loaded (loaded run.now first) second).stacks.operands)) }
    ensures readable { IsGiven result → flat_all run.now.cells
        (arguments count (loaded (loaded run.now first) second).stacks.operands)
        ≡ Some (arguments count (loaded (loaded run.now first) second).stacks.operands) }
    ensures two { IsGiven result → count ≡ 2 }
{
    // Only the contract names it.
    let _run = run;
    if count != 2 || !context.engine.fast_operators {
        return Quick::None;
    }
    let token = context.program.token(u32::from(token));
    quick_operated_with(token, &Dynamic::Int(first), second)
}
