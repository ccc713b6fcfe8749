//! Assignments to an entry of the scope or to `this`, or to the cell that one of them is.

ghost use Rattle.std.specs.Prelude.{◌≡◌, ◌<◌, ◌∷◌, [], length, Some, None, IfOk, IfSome, is_some, true, false, slice_get};
ghost use Rattle.grain_value.specs.declared.values.Held.{Held};
ghost use Rattle.grain_value.specs.Cells.{flat, idle};
ghost use Rattle.grain_value.specs.Operands.{top};
ghost use Rattle.grain_program.specs.Indices.{InPools};
ghost use Rattle.grain_means.specs.Rules.{held_at, if_fast, op_assigned, outcome_at};
ghost use Rattle.grain_ops.specs.Outcomes.{Gave};
ghost use Rattle.grain_ops.specs.Operators.{assignment};
ghost use Rattle.grain_frame.specs.Waiting.{ImplementsOrWaits, PerformsOrWaits};
ghost use Rattle.grain_frame.specs.Abstraction.{frame_in, PerformsBound, Ready, setup_of, moment, this_of};
ghost use Rattle.grain_frame.specs.Targets.{FreeCell, CanBeLent, CanBeWritten, HoldsAt, HoldsWritable, AssignedTarget, CanAssign, assigned_name, content_at, home_of, kept_operand, kept_value};
ghost use Rattle.grain_frame.specs.declared.targets.Target.TheVariants as to;
ghost use Rattle.grain_program.specs.declared.code.instruction_set.Op.TheVariants as op;
ghost use Rattle.grain_value.specs.declared.values.Dynamic.TheVariants as dynamic;

use crate::activations::Activation;
use crate::contexts::Context;
use crate::operated::{assign_entry, quick_assigned};
use crate::runs::{Progress, Run};
use crate::targets::Target;
use crate::waiting::Performed;
use grain_global::Steps;
use grain_host::Host;
use grain_ops::{AssignAnswer, assign};
use grain_program::AssignOp;
use grain_stack::Stacks;
use grain_value::{Dynamic, Held, OutOfMemory, Token};
use std::sync::ledger::Ledger;

/// An op-assignment of the last operand: where it writes, the index of the variable's name, if it is a
/// variable, the operators, the copy of the content of the operand's cell that was kept, if it is one, and
/// the address at which the frame goes on.
#[derive(Drop)]
pub struct Assignment {
    pub target: Target,
    pub variable: Option<u16>,
    pub operator: AssignOp,
    pub kept: Option<Dynamic>,
    pub next: usize,
}

/// The last operand as it was read: the copy of its cell's content that was kept, or the operand
/// itself, if it is no cell.
#[inline(always)]
pub fn operand<'a>(stacks: &'a Stacks, kept: &'a Option<Dynamic>) -> &'a Dynamic
    requires { 0 < length stacks.now.operands }
    ensures { result.now ≡ kept_value kept.now (top stacks.now.operands).value }
{
    match kept {
        Some(value) => value,
        None => &stacks.top().value,
    }
}

impl<H: Host> Run<H> {
    // `assign_local`: an assignment to an entry.
    pub(crate) fn assign_local<L: Ledger>(
        &mut self,
        context: Context<'_>,
        steps: &mut Steps<L>,
        frame: &mut Activation,
        slot: u16,
        name: u16,
        next: usize,
    ) -> Result<Progress, OutOfMemory>
        requires ready { Ready frame.old self.old (op.AssignLocal slot name) next }
        requires pools { InPools context.program.now (op.AssignLocal slot name) }
        ensures performs { (host : H) →
            PerformsBound (setup_of H.law context.entry)
            (moment frame.old self.old steps.old host)
            (op.AssignLocal slot name) next result (moment frame.new self.new steps.new host) }
    {
        let target = match self.target_at(frame, slot) {
            Ok(target) => target,
            Err(refusal) => return self.refuse(context, steps, frame.address, name, refusal),
        };
        let value = self.take_flat()?;
        self.write(target, Held::read_write(value));
        steps.mark();
        frame.address = next;
        steps.mark();
        Ok(Progress::Continues)
    }

    // `assign_local_op`: an op-assignment to an entry.
    #[inline(never)]
    pub fn assign_local_op<L: Ledger>(
        &mut self,
        context: Context<'_>,
        host: &mut H,
        steps: &mut Steps<L>,
        frame: &mut Activation,
        slot: u16,
        name: u16,
        assign_op: u16,
        next: usize,
    ) -> Result<Performed, OutOfMemory>
        requires ready { Ready frame.old self.old (op.AssignLocalOp slot name assign_op) next }
        requires pools { InPools context.program.now (op.AssignLocalOp slot name assign_op) }
        ensures performs { PerformsOrWaits (setup_of H.law context.entry)
            (moment frame.old self.old steps.old host.old) (op.AssignLocalOp slot name assign_op)
            next result (moment frame.new self.new steps.new host.new) }
    {
        let target = match self.target_at(frame, slot) {
            Ok(target) => target,
            Err(refusal) => {
                return Performed::of(self.refuse(context, steps, frame.address, name, refusal));
            }
        };
        let kept = self.kept_operand()?;
        let assignment = Assignment {
            target,
            variable: Some(name),
            operator: *context.program.assign_op(u32::from(assign_op)),
            kept,
            next,
        };
        self.op_assign_target(context, host, steps, frame, assignment)
    }

    // A copy of what the last operand's cell holds, if it is a cell. So the operand is read once,
    // whatever is written into the cell then.
    #[inline(always)]
    pub(crate) fn kept_operand(&self) -> Result<Option<Dynamic>, OutOfMemory>
        requires operand { 0 < length self.now.stacks.operands }
        requires readable { is_some (flat self.now.cells (top self.now.stacks.operands).value)
            ≡ true }
        ensures { IfOk result (λ kept. flat self.now.cells (top self.now.stacks.operands).value
            ≡ Some (kept_value kept (top self.now.stacks.operands).value)) }
    {
        match self.stacks.top().value.as_cell() {
            None => Ok(None),
            Some(cell) => Ok(Some(self.copy_of_cell(cell)?)),
        }
    }

    // An op-assignment to a target that can be written.
    #[inline(always)]
    pub(crate) fn op_assign_target<L: Ledger>(
        &mut self,
        context: Context<'_>,
        host: &mut H,
        steps: &mut Steps<L>,
        frame: &mut Activation,
        assignment: Assignment,
    ) -> Result<Performed, OutOfMemory>
        requires can { CanAssign context.program.now frame.old self.old assignment }
        requires writable { HoldsWritable self.old assignment.target }
        ensures implements { (h : Held) → h.read_only ≡ false →
            ImplementsOrWaits (setup_of H.law context.entry)
            (moment frame.old self.old steps.old host.old)
            (λ m place w. outcome_at m (home_of assignment.target place)
            (assigned_name m.program assignment.variable)
            (op_assigned m.engine assignment.operator
            (content_at self.old assignment.target)
            (kept_operand assignment.kept self.old.stacks.operands).value)
            assignment.operator h (content_at self.old assignment.target)
            (kept_operand assignment.kept self.old.stacks.operands)
            assignment.next (frame_in frame.old self.old place) w)
            (assignment.next ∷ []) 1 0 self.old.stacks.handlers result
            (moment frame.new self.new steps.new host.new) }
    {
        let token = assignment.operator.op_assign;
        match self.assign_target(context, token, assignment.target, &assignment.kept) {
            AssignAnswer::Done => {
                let _value = self.stacks.pop();
                steps.mark();
                frame.address = assignment.next;
                steps.mark();
                Ok(Performed::Leads(Progress::Continues))
            }
            AssignAnswer::Failed(fault) => {
                Performed::of(self.operator_failed(context, steps, frame.address, fault))
            }
            AssignAnswer::NotBuiltIn => {
                self.native_assigned(context, host, steps, frame, assignment)
            }
        }
    }

    // What an op-assignment of the last operand, as it was read, to the target gives, if operators
    // are fast.
    #[inline(always)]
    fn assign_target(
        &mut self,
        context: Context<'_>,
        token: Token,
        target: Target,
        kept: &Option<Dynamic>,
    ) -> AssignAnswer
        requires target { CanBeLent self.old target }
        requires operand { 0 < length self.old.stacks.operands }
        ensures assigned { (h : Held) → HoldsAt self.old target h →
            AssignedTarget result (if_fast context.entry.engine.now.fast_operators
            (assignment context.entry.engine.now.limits token h.value
            (kept_operand kept.now self.old.stacks.operands).value)) self.old self.new target h }
    {
        match target {
            Target::Entry(index) => self.assign_variable(context, token, index, kept),
            Target::Cell(cell) => self.assign_content(context, token, cell, kept),
            Target::This => self.assign_to_this(context, token, kept),
        }
    }

    // The same for `this`.
    #[cold]
    #[inline(never)]
    fn assign_to_this(
        &mut self,
        context: Context<'_>,
        token: Token,
        kept: &Option<Dynamic>,
    ) -> AssignAnswer
        requires there { CanBeWritten (this_of self.old) }
        requires operand { 0 < length self.old.stacks.operands }
        ensures assigned { (h : Held) → this_of self.old ≡ Some h →
            AssignedTarget result (if_fast context.entry.engine.now.fast_operators
            (assignment context.entry.engine.now.limits token h.value
            (kept_operand kept.now self.old.stacks.operands).value)) self.old self.new to.This h }
    {
        if !context.engine.fast_operators {
            return AssignAnswer::NotBuiltIn;
        }
        let mut held = self.receivers.replace(Held::read_write(Dynamic::Unit));
        let value = operand(&self.stacks, kept);
        let limits = &context.engine.limits;
        let assigned = assign(self.alloc, token, &mut held.value, value, limits);
        let _unit = self.receivers.replace(held);
        assigned
    }

    // The same for an entry.
    #[inline(always)]
    fn assign_variable(
        &mut self,
        context: Context<'_>,
        token: Token,
        index: usize,
        kept: &Option<Dynamic>,
    ) -> AssignAnswer
        requires there { index < length self.old.scope }
        requires operand { 0 < length self.old.stacks.operands }
        ensures assigned { (h : Held) → held_at self.old.scope index ≡ Some h →
            AssignedTarget result (if_fast context.entry.engine.now.fast_operators
            (assignment context.entry.engine.now.limits token h.value
            (kept_operand kept.now self.old.stacks.operands).value)) self.old self.new
            (to.Entry index) h }
    {
        let value = operand(&self.stacks, kept);
        assign_entry(
            self.alloc,
            context.engine,
            token,
            &mut self.scope,
            index,
            value,
        )
    }

    // The same for a cell.
    #[cold]
    #[inline(never)]
    fn assign_content(
        &mut self,
        context: Context<'_>,
        token: Token,
        cell: usize,
        kept: &Option<Dynamic>,
    ) -> AssignAnswer
        requires free { FreeCell self.old cell }
        requires operand { 0 < length self.old.stacks.operands }
        ensures assigned { (h : Held) → slice_get self.old.cells cell ≡ Some (idle h) →
            AssignedTarget result (if_fast context.entry.engine.now.fast_operators
            (assignment context.entry.engine.now.limits token h.value
            (kept_operand kept.now self.old.stacks.operands).value)) self.old self.new
            (to.Cell cell) h }
    {
        let Some(number) = self.integer_for(context, token, cell, kept) else {
            return self.assign_lent(context, token, cell, kept);
        };
        let read_only = self.cells.is_constant(cell);
        let value = Dynamic::Int(number);
        self.cells.set(cell, Held { value, read_only });
        AssignAnswer::Done
    }

    // The integer that an op-assignment makes of a cell's content and of the last operand, as it was
    // read, where both are integers and it fits.
    #[inline(always)]
    fn integer_for(
        &self,
        context: Context<'_>,
        token: Token,
        cell: usize,
        kept: &Option<Dynamic>,
    ) -> Option<i64>
        requires operand { 0 < length self.now.stacks.operands }
        ensures { (h : Held) → slice_get self.now.cells cell ≡ Some (idle h) →
            IfSome result (λ z. if_fast context.entry.engine.now.fast_operators
            (assignment context.entry.engine.now.limits token h.value
            (kept_operand kept.now self.now.stacks.operands).value) ≡ Gave (dynamic.Int z)) }
    {
        match self.cells.find(cell) {
            Some(content) => {
                quick_assigned(context.engine, token, content, operand(&self.stacks, kept))
            }
            None => None,
        }
    }

    // The same for a cell whose content is lent to the operator.
    fn assign_lent(
        &mut self,
        context: Context<'_>,
        token: Token,
        cell: usize,
        kept: &Option<Dynamic>,
    ) -> AssignAnswer
        requires free { FreeCell self.old cell }
        requires operand { 0 < length self.old.stacks.operands }
        ensures assigned { (h : Held) → slice_get self.old.cells cell ≡ Some (idle h) →
            AssignedTarget result (if_fast context.entry.engine.now.fast_operators
            (assignment context.entry.engine.now.limits token h.value
            (kept_operand kept.now self.old.stacks.operands).value)) self.old self.new
            (to.Cell cell) h }
    {
        if !context.engine.fast_operators {
            return AssignAnswer::NotBuiltIn;
        }
        let mut held = match self.cells.lend(cell) {
            Ok(held) => held,
            Err(_) => unreachable!(),
        };
        let value = operand(&self.stacks, kept);
        let limits = &context.engine.limits;
        let assigned = assign(self.alloc, token, &mut held.value, value, limits);
        self.cells.give_back(cell, held);
        assigned
    }
}
