//! What a chain does after its last step: it reads, writes or assigns.

ghost use Rattle.std.specs.Prelude.{◌+◌, ◌-◌, true, false};
ghost use Rattle.grain_value.specs.declared.values.Dynamic.TheVariants as dynamic;
ghost use Rattle.grain_means.specs.Worlds.{Came};
ghost use Rattle.grain_means.specs.Tasks.{Look, Write, WalkEnded};
ghost use Rattle.grain_means.specs.Walks.{at_mark, ended, last_role, operating, native_stored, operator_asked, operator_answered};
ghost use Rattle.grain_chain.specs.Walking.{place_of, backs};
ghost use Rattle.grain_chain.specs.Going.{Goes, Needs, setting, course, rest};

use crate::asking::{flat_copy, one_argument, two_arguments};
use crate::contexts::{Context, name_at};
use crate::faults::fault_at;
use crate::origins::{Awaited, Ending};
use crate::requests::WalkAnswer;
use crate::walks::Walk;
use grain_fault::Position;
use grain_ops::AssignAnswer;
use grain_program::AssignOp;
use grain_value::{Dynamic, OutOfMemory};
use std::mem;

impl Walk {
    // Does what the chain does after its last step: it reads, writes or assigns there. Its faults
    // blame the last step.
    pub(crate) fn end(&mut self, context: Context<'_>) -> Result<WalkAnswer, OutOfMemory>
        ensures goes { Goes context.entry self.old
            (ended (setting context.entry self.old) (last_role (course context.entry self.old))
            (self.old.step - 1) (place_of self.old) (rest context.entry self.old))
            result self.new }
        ensures needs { Needs context.entry.program.now self.new result (backs self.old + 3) }
    {
        self.step = self.step.saturating_sub(1);
        match self.ending {
            Ending::Read => self.read(context),
            Ending::Write => {
                let value = mem::replace(&mut self.value, Dynamic::Unit);
                self.write(context, value)
            }
            Ending::Operate(op) => self.operate(context, self.pos, op),
        }
    }

    // Gives a copy of the value at the walk's place.
    fn read(&mut self, context: Context<'_>) -> Result<WalkAnswer, OutOfMemory>
        ensures goes { Goes context.entry self.old
            (at_mark self.old.step (rest context.entry self.old)
            (Look (place_of self.old) (λ h. rest context.entry self.old (WalkEnded h.value false))))
            result self.new }
        ensures needs { Needs context.entry.program.now self.new result (backs self.old) }
    {
        let value = self.trail.target().copy(self.alloc)?;
        self.pass_mark()?;
        self.gives = value;
        self.walk_back(context, false)
    }

    // Writes a value at the walk's place.
    fn write(&mut self, context: Context<'_>, value: Dynamic) -> Result<WalkAnswer, OutOfMemory>
        ensures goes { Goes context.entry self.old
            (at_mark self.old.step (rest context.entry self.old)
            (Write (place_of self.old) value (rest context.entry self.old (WalkEnded dynamic.Unit true))))
            result self.new }
        ensures needs { Needs context.entry.program.now self.new result (backs self.old) }
    {
        self.pass_mark()?;
        self.trail.put(value);
        self.gives = Dynamic::Unit;
        self.walk_back(context, true)
    }

    // Assigns the chain's value by an op-assignment.
    pub(crate) fn operate(
        &mut self,
        context: Context<'_>,
        pos: Position,
        op: AssignOp,
    ) -> Result<WalkAnswer, OutOfMemory>
        ensures goes { Goes context.entry self.old
            (operating (setting context.entry self.old) self.old.step pos op self.old.value
            (place_of self.old) (rest context.entry self.old)) result self.new }
        ensures needs { Needs context.entry.program.now self.new result (backs self.old + 2) }
    {
        if !context.engine.fast_operators {
            return self.ask_op_assign(context, pos, op);
        }
        let Ok(marks) = self.next_mark() else {
            return Err(OutOfMemory);
        };
        let limits = &context.engine.limits;
        match self
            .trail
            .assign(self.alloc, op.op_assign, &self.value, limits)
        {
            AssignAnswer::NotBuiltIn => self.ask_op_assign(context, pos, op),
            AssignAnswer::Done => {
                self.marks = marks;
                self.gives = Dynamic::Unit;
                self.walk_back(context, true)
            }
            AssignAnswer::Failed(fault) => match fault_at(fault, pos) {
                Ok(fault) => self.raise(fault),
                Err(OutOfMemory) => Err(OutOfMemory),
            },
        }
    }

    // Asks for the host's op-assignment.
    fn ask_op_assign(
        &mut self,
        context: Context<'_>,
        pos: Position,
        op: AssignOp,
    ) -> Result<WalkAnswer, OutOfMemory>
        ensures goes { Goes context.entry self.old
            (native_stored (setting context.entry self.old) self.old.step pos op self.old.value
            (place_of self.old) (rest context.entry self.old)) result self.new }
        ensures needs { Needs context.entry.program.now self.new result (backs self.old + 2) }
    {
        let values = one_argument(self.alloc, self.value.copy(self.alloc)?)?;
        let name = name_at(context.program, op.op_assign_name);
        self.ask(pos, name, values, Awaited::OpAssigned(pos, op))
    }

    // Asks for the host's operator, on a copy of the value at the walk's place.
    pub(crate) fn ask_operator(
        &mut self,
        context: Context<'_>,
        pos: Position,
        op: AssignOp,
    ) -> Result<WalkAnswer, OutOfMemory>
        ensures goes { Goes context.entry self.old
            (operator_asked (setting context.entry self.old) self.old.step pos op self.old.value
            (place_of self.old) (rest context.entry self.old)) result self.new }
        ensures needs { Needs context.entry.program.now self.new result (backs self.old + 1) }
    {
        let target = self.trail.target().copy(self.alloc)?;
        let value = mem::replace(&mut self.value, Dynamic::Unit);
        let values = two_arguments(self.alloc, target, value)?;
        let name = name_at(context.program, op.op_name);
        self.ask(pos, name, values, Awaited::Operator(pos))
    }

    // Writes an operator's answer at the walk's place.
    pub(crate) fn store_answer(
        &mut self,
        context: Context<'_>,
        pos: Position,
        value: Dynamic,
    ) -> Result<WalkAnswer, OutOfMemory>
        ensures goes { Goes context.entry self.old
            (operator_answered self.old.step pos (place_of self.old) (rest context.entry self.old)
            (Came value)) result self.new }
        ensures needs { Needs context.entry.program.now self.new result (backs self.old) }
    {
        let Ok(content) = flat_copy(self.alloc, context.cells, value) else {
            return Err(OutOfMemory);
        };
        match content {
            Some(content) => self.write(context, content),
            None => self.raise_data_race(pos),
        }
    }
}
