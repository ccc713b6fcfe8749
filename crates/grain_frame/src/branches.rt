//! The branch after a comparison, done in the same turn of the loop. The truth value of the
//! comparison is not pushed.

ghost use Rattle.std.specs.Prelude.{◌≡◌, ◌<◌, ◌≤◌, ◌∷◌, [], length, Ok, cond, nat_lt};
ghost use Rattle.grain_means.specs.Rules.{jump_if};
ghost use Rattle.grain_frame.specs.Abstraction.{frame_in, Implements, Runs, Stepped, begun_one, setup_of, moment};
ghost use Rattle.grain_frame.specs.Attempts.{Unchanged, OnTrue, OnFalse};
ghost use Rattle.grain_frame.specs.Following.{judged, without_two};

use crate::activations::Activation;
use crate::contexts::Context;
use crate::fetching::fetch_at;
use crate::runs::{Progress, Run};
use crate::transfers::agrees;
use grain_global::Steps;
use grain_host::Host;
use grain_program::Op;
use std::sync::ledger::Ledger;

// Does the branch at which the frame stands, if it stands at one, on the truth value that an
// operator gives for the last two operands. If it says false, nothing was done.
#[inline(always)]
pub(crate) fn quick_branch<H: Host, L: Ledger>(
    run: &mut Run<H>,
    context: Context<'_>,
    steps: &mut Steps<L>,
    frame: &mut Activation,
    truth: bool,
) -> bool
    requires two { 2 ≤ length run.old.stacks.operands }
    requires runs { Runs context.program.now frame.old (judged run.old truth) }
    ensures stepped { OnTrue result ((host : H) →
        Stepped (setup_of H.law context.entry) (moment frame.old (judged run.old truth)
        (begun_one steps.old) host) (Ok Progress.Continues)
        (moment frame.new run.new steps.new host)) }
    ensures undone { OnFalse result
        (Unchanged frame.old run.old steps.old frame.new run.new steps.new) }
{
    let address = frame.address;
    match fetch_at(context, frame.chunk, address) {
        (Op::JumpIfFalse(target), width) => {
            let next = address + width;
            branch_to(run, context, steps, frame, truth, false, target, next)
        }
        (Op::JumpIfTrue(target), width) => {
            let next = address + width;
            branch_to(run, context, steps, frame, truth, true, target, next)
        }
        (_, _) => false,
    }
}

// Does a branch: to the target, if the truth value is the wanted one, and else to `next`. It
// says false, and does nothing, if that costs an operation.
#[inline(always)]
fn branch_to<H: Host, L: Ledger>(
    run: &mut Run<H>,
    context: Context<'_>,
    steps: &mut Steps<L>,
    frame: &mut Activation,
    truth: bool,
    wanted: bool,
    target: u32,
    next: usize,
) -> bool
    requires two { 2 ≤ length run.old.stacks.operands }
    requires inside { frame.old.base ≤ length run.old.scope }
    requires ahead { frame.old.address < next }
    ensures implements { OnTrue result ((host : H) →
        Implements (setup_of H.law context.entry) (moment frame.old (judged run.old truth)
        (begun_one steps.old) host) (λ m place w. jump_if m wanted target next
        (frame_in frame.old (judged run.old truth) place) w)
        (cond (nat_lt target next) (target ∷ next ∷ []) (next ∷ target ∷ [])) 1 0
        run.old.stacks.handlers (Ok Progress.Continues) (moment frame.new run.new steps.new host)) }
    ensures undone { OnFalse result
        (Unchanged frame.old run.old steps.old frame.new run.new steps.new) }
{
    let target = target as usize;
    if !agrees(wanted, truth) {
        branch_begins(run, steps);
        frame.address = next;
        steps.mark();
        return true;
    }
    if target <= frame.address {
        return false;
    }
    branch_begins(run, steps);
    frame.address = target;
    steps.mark();
    true
}

// Counts the branch as begun, and drops the operands of its comparison.
#[inline(always)]
fn branch_begins<H: Host, L: Ledger>(run: &mut Run<H>, steps: &mut Steps<L>)
    requires two { 2 ≤ length run.old.stacks.operands }
    ensures run { run.new ≡ without_two run.old }
    ensures counted { steps.new ≡ begun_one steps.old }
{
    run.stacks.drop_top();
    run.stacks.drop_top();
    steps.begin_instruction();
    steps.mark();
}
