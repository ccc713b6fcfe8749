//! What an instruction does once the native is over for which it waited, and where an op-assignment has no
//! native of its own.

ghost use Rattle.std.specs.Prelude.{◌≡◌, ◌∷◌, ◌++◌, [], ℕ, List, Option, Some, None, IfOk, false};
ghost use Rattle.std.specs.Bool.{OnTrue, OnFalse};
ghost use Rattle.grain_value.specs.declared.values.Dynamic.{Dynamic};
ghost use Rattle.grain_value.specs.declared.values.Held.{Held};
ghost use Rattle.grain_value.specs.Cells.{flat};
ghost use Rattle.grain_value.specs.Operands.{read_write};
ghost use Rattle.grain_fault.specs.Problems.{problem_of};
ghost use Rattle.grain_program.specs.View.{name_of};
ghost use Rattle.grain_means.specs.Rules.{assigned_at, flattened, op_assign_failed_at, operator_at};
ghost use Rattle.grain_frame.specs.Abstraction.{frame_in, ImplementsBound, setup_of, moment};
ghost use Rattle.grain_frame.specs.Rests.{WaitsLess};
ghost use Rattle.grain_frame.specs.Waiting.{CanHold, GoesOn, ImplementsOrWaits, IsBack, IsLentCell, IsNotLent, LeadsTo, answer_of, no_memory_came, rest_of, value_rest};
ghost use Rattle.grain_frame.specs.Natives.{Describes};
ghost use Rattle.grain_frame.specs.Targets.{CanBeLent, assigned_name, content_at, home_of, kept_operand};
ghost use Rattle.grain_frame.specs.declared.targets.Target.{Target};
ghost use Rattle.grain_frame.specs.declared.waiting.Rest.TheVariants as rest;

use crate::activations::Activation;
use crate::assignments::{Assignment, operand};
use crate::contexts::Context;
use crate::native_calls::{Arguments, NativeEnd, seek};
use crate::runs::{Progress, Run};
use crate::targets::Target;
use crate::waiting::{Loan, Performed, Rest, Waiting};
use grain_fault::EvalAltResult;
use grain_global::Steps;
use grain_host::{Host, says_missing};
use grain_value::{Dynamic, Held, OutOfMemory};
use std::sync::ledger::Ledger;

impl<H: Host> Run<H> {
    /// What follows once the native is over for which an instruction waited, and what that was lent is
    /// back: what the instruction does with the value or with the fault. It may ask the host for another
    /// native, and wait for that.
    pub fn native_over<L: Ledger>(
        &mut self,
        context: Context<'_>,
        host: &mut H,
        steps: &mut Steps<L>,
        frame: &mut Activation,
        rest: Rest,
        outcome: Result<Dynamic, EvalAltResult>,
    ) -> Result<Performed, OutOfMemory>
        requires not_out { no_memory_came outcome ≡ false }
        requires leads { (takes gives : ℕ) × (targets : List ℕ)
            × LeadsTo context.program.now frame.old self.old rest takes gives targets }
        requires back { IsBack self.old rest }
        ensures implements { (takes gives : ℕ) (targets : List ℕ) (h : Held) →
            LeadsTo context.entry.program.now frame.old self.old rest takes gives targets →
            h.read_only ≡ false → ImplementsOrWaits (setup_of H.law context.entry)
            (moment frame.old self.old steps.old host.old)
            (λ m place w. rest_of h rest (frame_in frame.old self.old) m place (answer_of outcome)
            w) targets takes gives self.old.stacks.handlers result
            (moment frame.new self.new steps.new host.new) }
        ensures less { WaitsLess rest result self.new.waiting }
    {
        match outcome {
            Ok(value) => Performed::of(self.value_came(context, steps, frame, rest, value)),
            Err(fault) => match rest {
                Rest::Assign(assignment) => {
                    self.op_assign_failed(context, host, steps, frame, assignment, fault)
                }
                Rest::Push { .. } => Ok(Performed::Leads(self.raise(steps, fault))),
                Rest::Operate(_) => Ok(Performed::Leads(self.raise(steps, fault))),
                Rest::Show { type_name, next } => Performed::of(self.showing_failed(
                    context, steps, frame, type_name, fault, next,
                )),
            },
        }
    }

    // What an instruction does with the value of the native for which it waited.
    fn value_came<L: Ledger>(
        &mut self,
        context: Context<'_>,
        steps: &mut Steps<L>,
        frame: &mut Activation,
        rest: Rest,
        value: Dynamic,
    ) -> Result<Progress, OutOfMemory>
        requires leads { (takes gives : ℕ) × (targets : List ℕ)
            × LeadsTo context.program.now frame.old self.old rest takes gives targets }
        ensures implements { (takes gives : ℕ) (targets : List ℕ) (host : H) →
            LeadsTo context.entry.program.now frame.old self.old rest takes gives targets →
            ImplementsBound (setup_of H.law context.entry)
            (moment frame.old self.old steps.old host)
            (λ m place w. value_rest rest (frame_in frame.old self.old) m place value w)
            targets takes gives self.old.stacks.handlers result
            (moment frame.new self.new steps.new host) }
    {
        match rest {
            Rest::Push { count, next } => {
                self.stacks.cut(self.stacks.height() - count);
                Ok(self.push_on(steps, frame, value, next))
            }
            Rest::Assign(assignment) => {
                let _value = self.stacks.pop();
                frame.address = assignment.next;
                steps.mark();
                Ok(Progress::Continues)
            }
            Rest::Operate(assignment) => {
                self.assign_answer(context, steps, frame, &assignment, value)
            }
            Rest::Show { type_name, next } => {
                self.append_answer(context, steps, frame, value, type_name, next)
            }
        }
    }

    // What follows from a fault of the host's op-assignment: where it has none of that name, the fault is
    // raised, at a mark, and passed over without its trace, and the host's operator is asked.
    pub(crate) fn op_assign_failed<L: Ledger>(
        &mut self,
        context: Context<'_>,
        host: &mut H,
        steps: &mut Steps<L>,
        frame: &mut Activation,
        assignment: Assignment,
        fault: EvalAltResult,
    ) -> Result<Performed, OutOfMemory>
        requires can { GoesOn context.program.now frame.old self.old assignment }
        requires back { IsNotLent self.old assignment.target }
        ensures implements { (h : Held) → h.read_only ≡ false →
            ImplementsOrWaits (setup_of H.law context.entry)
            (moment frame.old self.old steps.old host.old)
            (λ m place w. op_assign_failed_at m (home_of assignment.target place)
            (assigned_name m.program assignment.variable) assignment.operator h
            (kept_operand assignment.kept self.old.stacks.operands)
            assignment.next (frame_in frame.old self.old place) (problem_of fault) w)
            (assignment.next ∷ []) 1 0 self.old.stacks.handlers result
            (moment frame.new self.new steps.new host.new) }
        ensures less { WaitsLess (rest.Assign assignment) result self.new.waiting }
    {
        let name = context.program.name(assignment.operator.op_assign_name);
        if says_missing(name, &fault) {
            steps.mark();
            self.stacks.cut_trace(0);
            self.operator_assigned(context, host, steps, frame, assignment)
        } else {
            Ok(Performed::Leads(self.raise(steps, fault)))
        }
    }

    // The host's operator on copies of what the target holds and of the operand, whose value the
    // target takes.
    fn operator_assigned<L: Ledger>(
        &mut self,
        context: Context<'_>,
        host: &mut H,
        steps: &mut Steps<L>,
        frame: &mut Activation,
        assignment: Assignment,
    ) -> Result<Performed, OutOfMemory>
        requires can { GoesOn context.program.now frame.old self.old assignment }
        requires back { IsNotLent self.old assignment.target }
        ensures implements { (h : Held) → h.read_only ≡ false →
            ImplementsOrWaits (setup_of H.law context.entry)
            (moment frame.old self.old steps.old host.old)
            (λ m place w. operator_at m (home_of assignment.target place)
            (assigned_name m.program assignment.variable)
            (name_of m.program assignment.operator.op_name) h
            (read_write (content_at self.old assignment.target))
            (kept_operand assignment.kept self.old.stacks.operands)
            assignment.next (frame_in frame.old self.old place) w)
            (assignment.next ∷ []) 1 0 self.old.stacks.handlers result
            (moment frame.new self.new steps.new host.new) }
        ensures less { WaitsLess (rest.Assign assignment) result self.new.waiting }
    {
        let mut arguments = Arguments::new(self.alloc);
        self.push_content(&mut arguments, assignment.target)?;
        let value = operand(&self.stacks, &assignment.kept);
        arguments.push(self.alloc, value, self.stacks.top().read_only)?;
        let name = context.program.name(assignment.operator.op_name);
        let position = context.program.position(frame.address);
        let sought = seek(self.alloc, host, name, arguments, position)?;
        match self.call_native(host, steps, sought, position)? {
            NativeEnd::Value(value) => {
                Performed::of(self.assign_answer(context, steps, frame, &assignment, value))
            }
            NativeEnd::Fault(fault) => Ok(Performed::Leads(self.raise(steps, fault))),
            NativeEnd::Asks(asked) => Ok(self.wait(Waiting {
                asked,
                lent: Loan::Nothing,
                rest: Rest::Operate(assignment),
            })),
        }
    }

    // One argument more: what the target holds, which is no lent cell. A cell that is not there holds unit.
    fn push_content(&self, arguments: &mut Arguments, target: Target) -> Result<(), OutOfMemory>
        requires target { CanHold self.now target }
        requires back { IsNotLent self.now target }
        ensures { IfOk result (λ _. (args : List Held) → Describes arguments.old args →
            Describes arguments.new (args ++ read_write (content_at self.now target) ∷ [])) }
    {
        match target {
            Target::Entry(_) => arguments.push(self.alloc, self.content(target), false),
            Target::Cell(cell) => match self.cells.find(cell) {
                Some(value) => arguments.push(self.alloc, value, false),
                None => arguments.push(self.alloc, &Dynamic::Unit, false),
            },
            Target::This => arguments.push(self.alloc, self.content(target), false),
        }
    }

    // The target takes a native's value, as it is read, and the operand is used up.
    fn assign_answer<L: Ledger>(
        &mut self,
        context: Context<'_>,
        steps: &mut Steps<L>,
        frame: &mut Activation,
        assignment: &Assignment,
        value: Dynamic,
    ) -> Result<Progress, OutOfMemory>
        requires can { GoesOn context.program.now frame.old self.old assignment.now }
        ensures implements { (host : H) → ImplementsBound (setup_of H.law context.entry)
            (moment frame.old self.old steps.old host)
            (λ m place w. flattened m (read_write value)
            (assigned_name m.program assignment.now.variable)
            (frame_in frame.old self.old place) w
            (λ v. assigned_at m (home_of assignment.now.target place) (read_write v)
            (assigned_name m.program assignment.now.variable) assignment.now.next
            (frame_in frame.old self.old place) w)) (assignment.now.next ∷ []) 1 0
            self.old.stacks.handlers result (moment frame.new self.new steps.new host) }
    {
        let Some(value) = self.read_of(value)? else {
            return self.data_race_in(context, steps, frame.address, assignment.variable);
        };
        if !self.is_free(assignment.target) {
            return self.data_race_in(context, steps, frame.address, assignment.variable);
        }
        let _operand = self.stacks.pop();
        self.write(assignment.target, Held::read_write(value));
        steps.mark();
        frame.address = assignment.next;
        steps.mark();
        Ok(Progress::Continues)
    }

    // Whether the target is no cell, or a cell that is there and not lent.
    fn is_free(&self, target: Target) -> bool
        requires { CanHold self.now target }
        ensures free { OnTrue result (CanBeLent self.now target) }
        ensures lent { OnFalse result (IsLentCell self.now target) }
    {
        match target {
            Target::Entry(_) => true,
            Target::Cell(cell) => self.cells.find(cell).is_some(),
            Target::This => true,
        }
    }

    /// A value as it is read: of a cell a copy of what it holds, and nothing if that is lent.
    pub fn read_of(&self, value: Dynamic) -> Result<Option<Dynamic>, OutOfMemory>
        ensures { IfOk result (λ x. x ≡ flat self.now.cells value) }
    {
        match value.as_cell() {
            None => Ok(Some(value)),
            Some(cell) => match self.cells.find(cell) {
                Some(content) => Ok(Some(content.copy(self.alloc)?)),
                None => Ok(None),
            },
        }
    }
}
