//! The loop of a walk over its steps, and what it asks of each step: its position, its `?` and its role.

ghost use Rattle.std.specs.Prelude.{◌≡◌, ◌+◌, ◌<◌, ℕ, codes, drop, false, length};
ghost use Rattle.grain_value.specs.declared.values.Dynamic.TheVariants as dynamic;
ghost use Rattle.grain_value.specs.Cells.{flat};
ghost use Rattle.grain_fault.specs.Problems.{Plain, DataRace};
ghost use Rattle.grain_program.specs.Chains.{HasOperands};
ghost use Rattle.grain_program.specs.View.{View as AnyProgram};
ghost use Rattle.grain_value.specs.declared.values.Dynamic.{Dynamic as AnyValue};
ghost use Rattle.grain_chain.specs.Standings.{Stands};
ghost use Rattle.grain_means.specs.Tasks.{WalkEnded};
ghost use Rattle.grain_means.specs.Walks.{walked, taken, role_before, at_mark, failing, reads, skips, step_position};
ghost use Rattle.grain_chain.specs.Walking.{place_of, role_in, count, AtStep, HasAllOperands, steps_left, backs};
ghost use Rattle.grain_chain.specs.Going.{Goes, Takes, Needs, NeedsOr, ends_before, stopped, course, steps, rest, next_step};
ghost use Rattle.grain_chain.specs.declared.contexts.Context.{Context as AnyContext};

use crate::contexts::{Context, count_of_steps, step_at};
use crate::methods::MethodStep;
use crate::origins::{Ending, Role};
use crate::requests::WalkAnswer;
use crate::walks::Walk;
use bitflags::Flags;
use grain_fault::Position;
use grain_program::{Step, StepFlags};
use grain_value::{Dynamic, OutOfMemory};

impl Walk {
    // Takes the remaining steps until one needs a call. After the last step it does what the
    // chain does there.
    pub(crate) fn advance(&mut self, context: Context<'_>) -> Result<WalkAnswer, OutOfMemory>
        requires { HasAllOperands context.program.now self.old }
        ensures goes { Goes context.entry self.old
            (walked (course context.entry self.old) (drop self.old.step (steps context.entry self.old))
            self.old.step (place_of self.old) (rest context.entry self.old)) result self.new }
        ensures needs { Needs context.entry.program.now self.new result
            (steps_left context.entry.program.now self.old + 3) }
    {
        let count = count_of_steps(context.program, self.chain);
        'steps: loop {
            if self.step >= count {
                return self.end(context);
            }
            let step = step_at(context.program, self.chain, self.step);
            let Some(ends) = self.ends_before(context, step) else {
                return self.race_before(position_of(step));
            };
            if ends {
                return self.skip(context);
            }
            match self.take(context, step)? {
                None => self.step_on(context),
                Some(answer) => return Ok(answer),
            }
        }
    }

    // Whether the chain ends before this step, because the step has `?` and the value at the walk's
    // place is unit. Returns None if that value is a lent cell.
    fn ends_before(&self, context: Context<'_>, step: Step) -> Option<bool>
        ensures { (v : AnyValue) × (Stands self.now.trail v
            × (result ≡ ends_before (skips step) (flat context.entry.cells.now v))) }
    {
        let target = self.trail.target();
        if !skips(step) {
            return Some(false);
        }
        match target.flat(context.cells) {
            None => None,
            Some(value) => Some(value.is_unit()),
        }
    }

    // Raises the fault that the value before a step is a lent cell.
    fn race_before(&mut self, pos: Position) -> Result<WalkAnswer, OutOfMemory>
        ensures goes { (x : AnyContext) → Goes x self.old
            (at_mark self.old.step (rest x self.old) (failing self.old.step
            (Plain (DataRace (codes "variable ''")) pos) (rest x self.old))) result self.new }
        ensures needs { (p : AnyProgram) (n : ℕ) → Needs p self.new result n }
    {
        self.pass_mark()?;
        self.raise_data_race(pos)
    }

    // Moves on to the next step.
    pub(crate) fn step_on(&mut self, context: Context<'_>)
        requires { self.old.step < count context.program.now self.old }
        ensures { self.new ≡ record self.old { step = self.old.step + 1 } }
    {
        let count = count_of_steps(context.program, self.chain);
        if self.step < count {
            self.step += 1;
        }
    }

    // Ends the chain before a step, with unit.
    fn skip(&mut self, context: Context<'_>) -> Result<WalkAnswer, OutOfMemory>
        ensures goes { Goes context.entry self.old
            (at_mark self.old.step (rest context.entry self.old)
            (rest context.entry self.old (WalkEnded dynamic.Unit false))) result self.new }
        ensures needs { Needs context.entry.program.now self.new result (backs self.old) }
    {
        self.pass_mark()?;
        self.gives = Dynamic::Unit;
        self.walk_back(context, false)
    }

    // Takes a step. Returns None if the walk goes on at the next step.
    fn take(&mut self, context: Context<'_>, step: Step) -> Result<Option<WalkAnswer>, OutOfMemory>
        requires at { AtStep context.program.now self.old }
        requires operands { HasOperands (length self.old.operands) step }
        ensures takes { Takes context.entry self.old
            (at_mark self.old.step (rest context.entry self.old)
            (taken (course context.entry self.old) step self.old.step
            (role_before (course context.entry self.old)
            (drop (self.old.step + 1) (steps context.entry self.old)))
            (next_step context.entry self.old) (place_of self.old) (rest context.entry self.old)))
            result self.new }
        ensures needs { NeedsOr context.entry.program.now self.new result
            (steps_left context.entry.program.now self.old + 3) }
    {
        let role = self.role(context);
        match step {
            Step::Index {
                operand,
                pos,
                bracket,
                ..
            } => self.index(context, role, operand, pos, bracket),
            Step::Property {
                name,
                getter,
                setter,
                pos,
                ..
            } => self.property(context, role, name, getter, setter, pos),
            Step::Method {
                name,
                argc,
                operand,
                pos,
                ..
            } => {
                let step = MethodStep {
                    name,
                    argc,
                    operand,
                    pos,
                    last: reads(role),
                };
                self.method(context, step)
            }
        }
    }

    // The role of the present step.
    fn role(&self, context: Context<'_>) -> Role
        ensures { role_in result self.now.value ≡ role_before (course context.entry self.now)
            (drop (self.now.step + 1) (steps context.entry self.now)) }
    {
        let count = count_of_steps(context.program, self.chain);
        if count.saturating_sub(self.step) > 1 {
            return Role::Passes;
        }
        match self.ending {
            Ending::Read => Role::Reads,
            Ending::Write => Role::Writes,
            Ending::Operate(op) => Role::Operates(op),
        }
    }
}

// Whether a step with this role gives the chain's value.
fn reads(role: Role) -> bool
    ensures { (v : AnyValue) → result ≡ reads (role_in role v) }
{
    match role {
        Role::Reads => true,
        _ => false,
    }
}

// The position of a step's own faults.
fn position_of(step: Step) -> Position
    ensures { result ≡ step_position step }
{
    match step {
        Step::Index { pos, .. } | Step::Property { pos, .. } | Step::Method { pos, .. } => pos,
    }
}

// Whether a step has `?`: the chain then ends before it if the value at the walk's place is unit.
fn skips(step: Step) -> bool
    ensures { result ≡ skips step }
{
    match step {
        Step::Index { flags, .. } | Step::Property { flags, .. } | Step::Method { flags, .. } => {
            flags.contains(StepFlags::SKIP_IF_UNIT)
        }
    }
}

// The answer with which a step stops the walk.
pub(crate) fn stopping(
    went: Result<WalkAnswer, OutOfMemory>,
) -> Result<Option<WalkAnswer>, OutOfMemory>
    ensures { result ≡ stopped went }
{
    match went {
        Ok(answer) => Ok(Some(answer)),
        Err(OutOfMemory) => Err(OutOfMemory),
    }
}
