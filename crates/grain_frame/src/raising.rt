//! The faults that instructions raise. They are made and raised apart from the instruction, so that
//! an instruction that raises none pays nothing for it.

ghost use Rattle.std.specs.Prelude.{◌≡◌, ◌<◌, length, Ok, IfOk, IfSome};
ghost use Rattle.grain_program.specs.View.{position_of, name_of};
ghost use Rattle.grain_means.specs.Rules.{race_text, name_at};
ghost use Rattle.grain_fault.specs.Positions.{at_position};
ghost use Rattle.grain_fault.specs.Problems.{Plain, AssignmentToConstant, DataRace, DataTooLarge, Malformed, MismatchDataType, StackOverflow, Terminated, TooManyOperations, TooManyVariables, problem_of};
ghost use Rattle.grain_ops.specs.Outcomes.{Outcome};
ghost use Rattle.grain_ops.specs.Answers.{FailsSo};
ghost use Rattle.grain_frame.specs.Abstraction.{Raises};
ghost use Rattle.grain_frame.specs.Operated.{RaisesOutcome};
ghost use Rattle.grain_frame.specs.Targets.{assigned_name};
ghost use Rattle.grain_fault.specs.declared.faults.MalformedKind.TheVariants as kind;

use crate::contexts::Context;
use crate::runs::{Progress, Run};
use grain_fault::{EvalAltResult, MalformedKind, Position};
use grain_global::Steps;
use grain_host::Host;
use grain_value::{Dynamic, OutOfMemory, Text};
use std::alloc::Global;
use std::sync::ledger::Ledger;

impl<H: Host> Run<H> {
    /// Raises a fault at the position of an address, after a mark.
    #[cold]
    #[inline(never)]
    pub fn raise_at<L: Ledger>(
        &mut self,
        context: Context<'_>,
        steps: &mut Steps<L>,
        address: usize,
        fault: EvalAltResult,
    ) -> Progress
        ensures { Raises self.old steps.old
            (at_position (position_of context.entry.program.now address) (problem_of fault))
            (Ok result) self.new steps.new }
    {
        let mut fault = fault;
        fault.set_position(context.program.position(address));
        self.raise(steps, fault)
    }

    /// Raises the fault that no operation is left.
    #[cold]
    #[inline(never)]
    pub fn too_many_operations<L: Ledger>(
        &mut self,
        context: Context<'_>,
        steps: &mut Steps<L>,
        address: usize,
    ) -> Progress
        ensures { Raises self.old steps.old
            (Plain TooManyOperations (position_of context.entry.program.now address)) (Ok result) self.new
            steps.new }
    {
        let fault = EvalAltResult::ErrorTooManyOperations(Position::NONE);
        self.raise_at(context, steps, address, fault)
    }

    /// Raises the fault that the host stopped the run, with this value.
    #[cold]
    #[inline(never)]
    pub fn terminated<L: Ledger>(
        &mut self,
        context: Context<'_>,
        steps: &mut Steps<L>,
        address: usize,
        token: Dynamic,
    ) -> Progress
        ensures { Raises self.old steps.old
            (Plain (Terminated token) (position_of context.entry.program.now address)) (Ok result) self.new
            steps.new }
    {
        let fault = EvalAltResult::ErrorTerminated(token, Position::NONE);
        self.raise_at(context, steps, address, fault)
    }

    /// Raises the fault that a call would be above the highest level.
    #[cold]
    #[inline(never)]
    pub fn stack_overflow<L: Ledger>(
        &mut self,
        context: Context<'_>,
        steps: &mut Steps<L>,
        address: usize,
    ) -> Progress
        ensures { Raises self.old steps.old
            (Plain StackOverflow (position_of context.entry.program.now address)) (Ok result) self.new
            steps.new }
    {
        let fault = EvalAltResult::ErrorStackOverflow(Position::NONE);
        self.raise_at(context, steps, address, fault)
    }

    /// Raises the fault that a scope would have too many variables.
    #[cold]
    #[inline(never)]
    pub fn too_many_variables<L: Ledger>(
        &mut self,
        context: Context<'_>,
        steps: &mut Steps<L>,
        address: usize,
    ) -> Progress
        ensures { Raises self.old steps.old
            (Plain TooManyVariables (position_of context.entry.program.now address)) (Ok result) self.new
            steps.new }
    {
        let fault = EvalAltResult::ErrorTooManyVariables(Position::NONE);
        self.raise_at(context, steps, address, fault)
    }

    /// Raises the fault of a slot past the scope, at this index of the scope.
    #[cold]
    #[inline(never)]
    pub fn slot_past_scope<L: Ledger>(
        &mut self,
        context: Context<'_>,
        steps: &mut Steps<L>,
        address: usize,
        index: usize,
    ) -> Progress
        ensures { Raises self.old steps.old
            (Plain (Malformed (kind.SlotPastScope index (length self.old.scope)))
            (position_of context.entry.program.now address)) (Ok result) self.new steps.new }
    {
        let kind = MalformedKind::SlotPastScope {
            index,
            length: self.scope.len(),
        };
        let fault = EvalAltResult::Malformed(kind, Position::NONE);
        self.raise_at(context, steps, address, fault)
    }

    // An assignment to the variable of this name, which can only be read.
    #[cold]
    #[inline(never)]
    pub(crate) fn assignment_to_constant<L: Ledger>(
        &mut self,
        context: Context<'_>,
        steps: &mut Steps<L>,
        address: usize,
        name: u16,
    ) -> Result<Progress, OutOfMemory>
        requires { name < length context.program.now.names }
        ensures { Raises self.old steps.old
            (Plain (AssignmentToConstant (name_of context.entry.program.now name))
            (position_of context.entry.program.now address)) result self.new steps.new }
    {
        let name = context.program.name(u32::from(name)).copy(self.alloc)?;
        let fault = EvalAltResult::ErrorAssignmentToConstant(name, Position::NONE);
        Ok(self.raise_at(context, steps, address, fault))
    }

    /// A cell that is lent, in the variable of this name; an operand has none.
    #[cold]
    #[inline(never)]
    pub fn data_race<L: Ledger>(
        &mut self,
        context: Context<'_>,
        steps: &mut Steps<L>,
        address: usize,
        name: &str,
    ) -> Result<Progress, OutOfMemory>
        ensures { Raises self.old steps.old
            (Plain (DataRace (race_text name.now)) (position_of context.entry.program.now address))
            result self.new steps.new }
    {
        let text = race_text(self.alloc, name)?;
        let fault = EvalAltResult::ErrorDataRace(text, Position::NONE);
        Ok(self.raise_at(context, steps, address, fault))
    }

    // A cell that is lent, in the variable whose name stands at the index.
    #[cold]
    #[inline(never)]
    pub(crate) fn data_race_of<L: Ledger>(
        &mut self,
        context: Context<'_>,
        steps: &mut Steps<L>,
        address: usize,
        name: u16,
    ) -> Result<Progress, OutOfMemory>
        requires { name < length context.program.now.names }
        ensures { Raises self.old steps.old
            (Plain (DataRace (race_text (name_of context.entry.program.now name)))
            (position_of context.entry.program.now address)) result self.new steps.new }
    {
        let name = context.program.name(u32::from(name));
        self.data_race(context, steps, address, name.as_str())
    }

    // A cell that is lent, in what was to be assigned to: the variable whose name stands at the index, or
    // `this`.
    #[cold]
    #[inline(never)]
    pub(crate) fn data_race_in<L: Ledger>(
        &mut self,
        context: Context<'_>,
        steps: &mut Steps<L>,
        address: usize,
        variable: Option<u16>,
    ) -> Result<Progress, OutOfMemory>
        requires { IfSome variable (λ n. n < length context.program.now.names) }
        ensures { Raises self.old steps.old
            (Plain (DataRace (race_text (assigned_name context.entry.program.now variable)))
            (position_of context.entry.program.now address)) result self.new steps.new }
    {
        match variable {
            Some(name) => self.data_race_of(context, steps, address, name),
            None => self.data_race(context, steps, address, ""),
        }
    }

    // An entry of the scope that is a cell, which is lent.
    #[cold]
    #[inline(never)]
    pub(crate) fn data_race_at<L: Ledger>(
        &mut self,
        context: Context<'_>,
        steps: &mut Steps<L>,
        address: usize,
        index: usize,
    ) -> Result<Progress, OutOfMemory>
        ensures { Raises self.old steps.old
            (Plain (DataRace (race_text (name_at self.old.scope index)))
            (position_of context.entry.program.now address)) result self.new steps.new }
    {
        let text = match self.scope.name(index) {
            Some(name) => race_text(self.alloc, name.as_str())?,
            None => race_text(self.alloc, "")?,
        };
        let fault = EvalAltResult::ErrorDataRace(text, Position::NONE);
        Ok(self.raise_at(context, steps, address, fault))
    }

    // A value of this type where another is requested.
    #[cold]
    #[inline(never)]
    pub(crate) fn mismatch<L: Ledger>(
        &mut self,
        context: Context<'_>,
        steps: &mut Steps<L>,
        address: usize,
        requested: &str,
        type_name: Text,
    ) -> Result<Progress, OutOfMemory>
        ensures { Raises self.old steps.old
            (Plain (MismatchDataType requested.now type_name)
            (position_of context.entry.program.now address)) result self.new steps.new }
    {
        let requested = Text::copy_of(self.alloc, requested)?;
        let fault = EvalAltResult::ErrorMismatchDataType(requested, type_name, Position::NONE);
        Ok(self.raise_at(context, steps, address, fault))
    }

    // The fault that the program is wrong in this.
    #[cold]
    #[inline(never)]
    pub(crate) fn malformed<L: Ledger>(
        &mut self,
        context: Context<'_>,
        steps: &mut Steps<L>,
        address: usize,
        kind: MalformedKind,
    ) -> Progress
        ensures { Raises self.old steps.old
            (Plain (Malformed kind) (position_of context.entry.program.now address)) (Ok result)
            self.new steps.new }
    {
        let fault = EvalAltResult::Malformed(kind, Position::NONE);
        self.raise_at(context, steps, address, fault)
    }

    // The fault that this is too large.
    #[cold]
    #[inline(never)]
    pub(crate) fn data_too_large<L: Ledger>(
        &mut self,
        context: Context<'_>,
        steps: &mut Steps<L>,
        address: usize,
        what: &str,
    ) -> Result<Progress, OutOfMemory>
        ensures { Raises self.old steps.old
            (Plain (DataTooLarge what.now) (position_of context.entry.program.now address)) result
            self.new steps.new }
    {
        let what = Text::copy_of(self.alloc, what)?;
        let fault = EvalAltResult::ErrorDataTooLarge(what, Position::NONE);
        Ok(self.raise_at(context, steps, address, fault))
    }

    // The fault that an operator gave, unless memory was out there.
    #[cold]
    #[inline(never)]
    pub(crate) fn operator_failed<L: Ledger>(
        &mut self,
        context: Context<'_>,
        steps: &mut Steps<L>,
        address: usize,
        fault: EvalAltResult,
    ) -> Result<Progress, OutOfMemory>
        ensures { (o : Outcome) → FailsSo fault o → RaisesOutcome self.old steps.old o
            (position_of context.entry.program.now address) result self.new steps.new }
    {
        match &fault {
            EvalAltResult::ErrorArithmetic(_, _) | EvalAltResult::ErrorDataTooLarge(_, _) => {
                Ok(self.raise_at(context, steps, address, fault))
            }
            _ => Err(OutOfMemory),
        }
    }
}

// The text of a fault that the cell of a variable is lent.
fn race_text(alloc: Global, name: &str) -> Result<Text, OutOfMemory>
    ensures { IfOk result (λ text. text ≡ race_text name.now) }
{
    let mut text = Text::copy_of(alloc, "variable '")?;
    text.push_str(name)?;
    text.push_str("'")?;
    Ok(text)
}
