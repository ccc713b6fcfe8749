//! Instructions on the `this` of a frame.

ghost use Rattle.std.specs.Prelude.{◌≡◌, ◌<◌, ◌∷◌, [], length, Ok};
ghost use Rattle.std.specs.Option.{option_copied};
ghost use Rattle.grain_fault.specs.Problems.{Plain, UnboundThis};
ghost use Rattle.grain_program.specs.Indices.{InPools};
ghost use Rattle.grain_program.specs.View.{position_of};
ghost use Rattle.grain_program.specs.declared.code.instruction_set.Op.TheVariants as op;
ghost use Rattle.grain_means.specs.Rules.{flattened, onward, position, pushed, stepped};
ghost use Rattle.grain_frame.specs.Waiting.{PerformsOrWaits};
ghost use Rattle.grain_frame.specs.Abstraction.{frame_in, Implements, PerformsBound, Raises, Ready, setup_of, moment, this_of};
ghost use Rattle.grain_frame.specs.Refusals.{FindsThis, refusal_fault};
ghost use Rattle.grain_frame.specs.This.{at_held};

use crate::activations::Activation;
use crate::assignments::Assignment;
use crate::contexts::Context;
use crate::runs::{Progress, Run};
use crate::targets::{Target, TargetRefusal};
use crate::waiting::Performed;
use grain_fault::{EvalAltResult, Position};
use grain_global::Steps;
use grain_host::Host;
use grain_value::{Held, OutOfMemory, Text};
use std::sync::ledger::Ledger;

impl<H: Host> Run<H> {
    /// What the `this` of the running frame holds, if it has one.
    pub fn this(&self) -> Option<&Held>
        ensures { option_copied result ≡ this_of self.now }
    {
        self.receivers.at(self.level)
    }

    // `load_this`: pushes a copy of what `this` holds, or, if that is a cell, of the cell's content.
    pub(crate) fn load_this<L: Ledger>(
        &mut self,
        context: Context<'_>,
        steps: &mut Steps<L>,
        frame: &mut Activation,
        next: usize,
    ) -> Result<Progress, OutOfMemory>
        requires ready { Ready frame.old self.old op.LoadThis next }
        ensures implements { (host : H) →
            Implements (setup_of H.law context.entry) (moment frame.old self.old steps.old host)
            (λ m place w. at_held m (this_of self.old)
            (position m (frame_in frame.old self.old place)) (frame_in frame.old self.old place) w
            (λ h. flattened m h [] (frame_in frame.old self.old place) w
            (λ v. pushed m (frame_in frame.old self.old place) next self.old.stacks.operands v w)))
            (next ∷ []) 0 1 self.old.stacks.handlers result
            (moment frame.new self.new steps.new host) }
    {
        match self.receivers.at(self.level) {
            Some(held) => match held.value.flat(&self.cells) {
                Some(value) => {
                    self.stacks.push_copy(self.alloc, value)?;
                    frame.address = next;
                    steps.mark();
                    Ok(Progress::Continues)
                }
                None => self.data_race(context, steps, frame.address, ""),
            },
            None => Ok(self.unbound_this(context, steps, frame.address)),
        }
    }

    // `load_this_shared`: pushes a copy of what `this` holds. A cell stays a cell.
    pub(crate) fn load_this_shared<L: Ledger>(
        &mut self,
        context: Context<'_>,
        steps: &mut Steps<L>,
        frame: &mut Activation,
        next: usize,
    ) -> Result<Progress, OutOfMemory>
        requires ready { Ready frame.old self.old op.LoadThisShared next }
        ensures implements { (host : H) →
            Implements (setup_of H.law context.entry) (moment frame.old self.old steps.old host)
            (λ m place w. at_held m (this_of self.old)
            (position m (frame_in frame.old self.old place)) (frame_in frame.old self.old place) w
            (λ h. pushed m (frame_in frame.old self.old place) next self.old.stacks.operands h.value
            w)) (next ∷ []) 0 1 self.old.stacks.handlers result
            (moment frame.new self.new steps.new host) }
    {
        match self.receivers.at(self.level) {
            Some(held) => {
                self.stacks.push_copy(self.alloc, &held.value)?;
                frame.address = next;
                steps.mark();
                Ok(Progress::Continues)
            }
            None => Ok(self.unbound_this(context, steps, frame.address)),
        }
    }

    // `require_this`: raises a fault if the frame has no `this`.
    pub(crate) fn require_this<L: Ledger>(
        &mut self,
        context: Context<'_>,
        steps: &mut Steps<L>,
        frame: &mut Activation,
        next: usize,
    ) -> Progress
        requires ready { Ready frame.old self.old op.RequireThis next }
        ensures implements { (host : H) →
            Implements (setup_of H.law context.entry) (moment frame.old self.old steps.old host)
            (λ m place w. at_held m (this_of self.old)
            (position m (frame_in frame.old self.old place)) (frame_in frame.old self.old place) w
            (λ h. onward m (frame_in frame.old self.old place)
            (stepped (frame_in frame.old self.old place) next self.old.stacks.operands) w))
            (next ∷ []) 0 0 self.old.stacks.handlers (Ok result)
            (moment frame.new self.new steps.new host) }
    {
        match self.this() {
            Some(_) => self.go_on(steps, frame, next),
            None => self.unbound_this(context, steps, frame.address),
        }
    }

    // `assign_this`: assigns the last operand to `this`.
    pub(crate) fn assign_this<L: Ledger>(
        &mut self,
        context: Context<'_>,
        steps: &mut Steps<L>,
        frame: &mut Activation,
        next: usize,
    ) -> Result<Progress, OutOfMemory>
        requires ready { Ready frame.old self.old op.AssignThis next }
        ensures performs { (host : H) →
            PerformsBound (setup_of H.law context.entry) (moment frame.old self.old steps.old host)
            op.AssignThis next result (moment frame.new self.new steps.new host) }
    {
        let target = match self.target_this() {
            Ok(target) => target,
            Err(refusal) => return self.refuse_this(context, steps, frame.address, refusal),
        };
        let value = self.take_flat()?;
        self.write(target, Held::read_write(value));
        steps.mark();
        frame.address = next;
        steps.mark();
        Ok(Progress::Continues)
    }

    // `assign_this_op`: assigns the last operand to `this` by an op-assignment.
    #[inline(never)]
    pub fn assign_this_op<L: Ledger>(
        &mut self,
        context: Context<'_>,
        host: &mut H,
        steps: &mut Steps<L>,
        frame: &mut Activation,
        assign_op: u16,
        next: usize,
    ) -> Result<Performed, OutOfMemory>
        requires ready { Ready frame.old self.old (op.AssignThisOp assign_op) next }
        requires pools { InPools context.program.now (op.AssignThisOp assign_op) }
        ensures performs { PerformsOrWaits (setup_of H.law context.entry)
            (moment frame.old self.old steps.old host.old) (op.AssignThisOp assign_op) next result
            (moment frame.new self.new steps.new host.new) }
    {
        let target = match self.target_this() {
            Ok(target) => target,
            Err(refusal) => {
                return Performed::of(self.refuse_this(context, steps, frame.address, refusal));
            }
        };
        let kept = self.kept_operand()?;
        let assignment = Assignment {
            target,
            variable: None,
            operator: *context.program.assign_op(u32::from(assign_op)),
            kept,
            next,
        };
        self.op_assign_target(context, host, steps, frame, assignment)
    }

    // Where an assignment of the last operand to `this` writes, or why nothing is assigned.
    fn target_this(&self) -> Result<Target, TargetRefusal>
        requires operand { 0 < length self.now.stacks.operands }
        ensures { FindsThis self.now result }
    {
        if !self.is_readable() {
            return Err(TargetRefusal::Lent);
        }
        let Some(held) = self.this() else {
            return Err(TargetRefusal::Unbound);
        };
        let cell = held.value.as_cell();
        if held.read_only | self.is_constant(cell) {
            return Err(TargetRefusal::Constant);
        }
        if held.value.flat(&self.cells).is_none() {
            return Err(TargetRefusal::Lent);
        }
        match cell {
            Some(cell) => Ok(Target::Cell(cell)),
            None => Ok(Target::This),
        }
    }

    // Raises the fault for which nothing is assigned to `this`.
    #[cold]
    #[inline(never)]
    fn refuse_this<L: Ledger>(
        &mut self,
        context: Context<'_>,
        steps: &mut Steps<L>,
        address: usize,
        refusal: TargetRefusal,
    ) -> Result<Progress, OutOfMemory>
        ensures { Raises self.old steps.old
            (refusal_fault context.entry.program.now (length self.old.scope) address [] refusal)
            result self.new steps.new }
    {
        match refusal {
            TargetRefusal::NoEntry(index) => Ok(self.slot_past_scope(
                context, steps, address, index,
            )),
            TargetRefusal::Lent => self.data_race(context, steps, address, ""),
            TargetRefusal::Constant => {
                let name = Text::new(self.alloc);
                let fault = EvalAltResult::ErrorAssignmentToConstant(name, Position::NONE);
                Ok(self.raise_at(context, steps, address, fault))
            }
            TargetRefusal::Unbound => Ok(self.unbound_this(context, steps, address)),
        }
    }

    /// Raises the fault that the frame has no `this`.
    #[cold]
    #[inline(never)]
    pub fn unbound_this<L: Ledger>(
        &mut self,
        context: Context<'_>,
        steps: &mut Steps<L>,
        address: usize,
    ) -> Progress
        ensures { Raises self.old steps.old
            (Plain UnboundThis (position_of context.entry.program.now address)) (Ok result)
            self.new steps.new }
    {
        let fault = EvalAltResult::ErrorUnboundThis(Position::NONE);
        self.raise_at(context, steps, address, fault)
    }
}
