//! Transfers, and how a frame goes on or is over.

ghost use Rattle.std.specs.Prelude.{◌≡◌, ◌<◌, ◌≤◌, ◌∷◌, [], length, Ok, cond, nat_lt};
ghost use Rattle.grain_program.specs.View.{View};
ghost use Rattle.grain_global.specs.declared.engines.Engine.{Engine};
ghost use Rattle.grain_means.specs.Rules.{onward, jumped, stepped, agrees, jump_if};
ghost use Rattle.grain_means.specs.Means.{setup};
ghost use Rattle.grain_frame.specs.Abstraction.{frame_in, Implements, Performs, Ready, setup_of, moment};
ghost use Rattle.grain_program.specs.declared.code.instruction_set.Op.TheVariants as op;

use crate::activations::Activation;
use crate::contexts::Context;
use crate::runs::{Progress, Run};
use grain_fault::EvalAltResult;
use grain_global::Steps;
use grain_host::Host;
use grain_value::OutOfMemory;
use std::sync::ledger::Ledger;

impl<H: Host> Run<H> {
    // Goes on at the next instruction, with the operands that there are.
    #[inline(always)]
    pub(crate) fn go_on<L: Ledger>(
        &mut self,
        steps: &mut Steps<L>,
        frame: &mut Activation,
        next: usize,
    ) -> Progress
        requires inside { frame.old.base ≤ length self.old.scope }
        requires ahead { frame.old.address < next }
        ensures implements { (program : View) (engine : Engine) (host : H) →
            Implements (setup H.law program engine) (moment frame.old self.old steps.old host)
            (λ m place w. onward m (frame_in frame.old self.old place)
            (stepped (frame_in frame.old self.old place) next self.old.stacks.operands) w)
            (next ∷ []) 0 0 self.old.stacks.handlers (Ok result)
            (moment frame.new self.new steps.new host) }
    {
        frame.address = next;
        steps.mark();
        Progress::Continues
    }

    /// `jump`: goes on at an address. A transfer to one that does not lie ahead costs an operation.
    #[inline(always)]
    pub fn jump_to<L: Ledger>(
        &mut self,
        context: Context<'_>,
        host: &mut H,
        steps: &mut Steps<L>,
        frame: &mut Activation,
        target: usize,
    ) -> Result<Progress, OutOfMemory>
        requires inside { frame.old.base ≤ length self.old.scope }
        ensures implements { Implements (setup_of H.law context.entry)
            (moment frame.old self.old steps.old host.old)
            (λ m place w. jumped m (frame_in frame.old self.old place)
            (stepped (frame_in frame.old self.old place) target self.old.stacks.operands) w)
            (target ∷ []) 0 0 self.old.stacks.handlers result
            (moment frame.new self.new steps.new host.new) }
    {
        if target > frame.address {
            frame.address = target;
            steps.mark();
            return Ok(Progress::Continues);
        }
        if !self.charge(context, host, steps, frame.address)? {
            return Ok(Progress::Failed);
        }
        frame.address = target;
        steps.mark();
        Ok(Progress::Continues)
    }

    // `tick`: costs an operation.
    pub(crate) fn tick<L: Ledger>(
        &mut self,
        context: Context<'_>,
        host: &mut H,
        steps: &mut Steps<L>,
        frame: &mut Activation,
        next: usize,
    ) -> Result<Progress, OutOfMemory>
        requires ready { Ready frame.old self.old op.Tick next }
        ensures performs { Performs (setup_of H.law context.entry)
            (moment frame.old self.old steps.old host.old) op.Tick next result
            (moment frame.new self.new steps.new host.new) }
    {
        if !self.charge(context, host, steps, frame.address)? {
            return Ok(Progress::Failed);
        }
        frame.address = next;
        steps.mark();
        Ok(Progress::Continues)
    }

    // `jump_if_false` and `jump_if_true`: a transfer if the last operand is the truth value that is
    // wanted.
    #[inline(always)]
    pub(crate) fn jump_if<L: Ledger>(
        &mut self,
        context: Context<'_>,
        host: &mut H,
        steps: &mut Steps<L>,
        frame: &mut Activation,
        wanted: bool,
        target: u32,
        next: usize,
    ) -> Result<Progress, OutOfMemory>
        requires ready { Ready frame.old self.old (op.JumpIfFalse target) next }
        ensures implements { Implements (setup_of H.law context.entry)
            (moment frame.old self.old steps.old host.old)
            (λ m place w. jump_if m wanted target next (frame_in frame.old self.old place) w)
            (cond (nat_lt target next) (target ∷ next ∷ []) (next ∷ target ∷ [])) 1 0
            self.old.stacks.handlers result (moment frame.new self.new steps.new host.new) }
    {
        let Some(value) = self.stacks.top().value.flat(&self.cells) else {
            return self.data_race(context, steps, frame.address, "");
        };
        match value.as_bool() {
            Some(truth) => {
                let _value = self.stacks.pop();
                if agrees(wanted, truth) {
                    self.jump_to(context, host, steps, frame, target as usize)
                } else {
                    Ok(self.go_on(steps, frame, next))
                }
            }
            None => {
                let type_name = value.own_type_name(self.alloc)?;
                self.mismatch(context, steps, frame.address, "bool", type_name)
            }
        }
    }

    // `skip_if_not_unit`: a transfer unless the last operand, which stays, is unit.
    pub(crate) fn skip_if_not_unit<L: Ledger>(
        &mut self,
        context: Context<'_>,
        host: &mut H,
        steps: &mut Steps<L>,
        frame: &mut Activation,
        target: u32,
        next: usize,
    ) -> Result<Progress, OutOfMemory>
        requires ready { Ready frame.old self.old (op.SkipIfNotUnit target) next }
        ensures performs { Performs (setup_of H.law context.entry)
            (moment frame.old self.old steps.old host.old) (op.SkipIfNotUnit target) next result
            (moment frame.new self.new steps.new host.new) }
    {
        if self.stacks.top().value.is_unit() {
            Ok(self.go_on(steps, frame, next))
        } else {
            self.jump_to(context, host, steps, frame, target as usize)
        }
    }

    // `throw`: raises the last operand.
    pub(crate) fn throw<L: Ledger>(
        &mut self,
        context: Context<'_>,
        steps: &mut Steps<L>,
        frame: &mut Activation,
        next: usize,
    ) -> Result<Progress, OutOfMemory>
        requires ready { Ready frame.old self.old op.Throw next }
        ensures performs { (host : H) →
            Performs (setup_of H.law context.entry) (moment frame.old self.old steps.old host)
            op.Throw next result (moment frame.new self.new steps.new host) }
    {
        // Only the contract names it.
        let _next = next;
        if !self.is_readable() {
            return self.data_race(context, steps, frame.address, "");
        }
        let position = context.program.position(frame.address);
        let value = self.take_flat()?;
        Ok(self.raise(steps, EvalAltResult::ErrorRuntime(value, position)))
    }

    /// `return`: the frame gives its last operand, or unit if it has none.
    #[inline(always)]
    pub fn return_value<L: Ledger>(
        &mut self,
        steps: &mut Steps<L>,
        frame: &Activation,
        next: usize,
    ) -> Progress
        requires ready { Ready frame.now self.old op.Return next }
        ensures over { result ≡ Progress.Returned }
        ensures performs { (program : View) (engine : Engine) (host : H) →
            Performs (setup H.law program engine) (moment frame.now self.old steps.old host)
            op.Return next (Ok result) (moment frame.now self.new steps.new host) }
    {
        // Only the contract names it.
        let _next = next;
        steps.mark();
        Progress::Returned
    }
}

// Whether a truth value is the one that is wanted.
#[inline(always)]
pub(crate) fn agrees(wanted: bool, truth: bool) -> bool
    ensures { result ≡ agrees wanted truth }
{
    wanted == truth
}
