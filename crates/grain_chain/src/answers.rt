//! What a walk does with the answers to its requests.

ghost use Rattle.std.specs.Prelude.{◌≡◌, ◌+◌, ℕ, true, if◌then◌else◌};
ghost use Rattle.grain_fault.specs.Problems.{problem_of};
ghost use Rattle.grain_host.specs.Signatures.{says_missing};
ghost use Rattle.grain_program.specs.View.{View as AnyProgram, name_of};
ghost use Rattle.grain_means.specs.Worlds.{Came, Failed};
ghost use Rattle.grain_value.specs.Operands.{read_write};
ghost use Rattle.grain_means.specs.Walks.{rooted, index_was_set, property_was_set, set_instead, property_was_got, got_instead, index_was_read, was_op_assigned, named};
ghost use Rattle.grain_value.specs.declared.values.Dynamic.{Dynamic as AnyValue};
ghost use Rattle.grain_means.specs.Tasks.{Task, WalkEnded, WalkFailed};
ghost use Rattle.grain_chain.specs.declared.contexts.Context.{Context as AnyContext};
ghost use Rattle.grain_chain.specs.Walking.{resumed, gone_into, next_of, origin_of, place_of, still, IsAtStep, AtStep, steps_left, backs};
ghost use Rattle.grain_chain.specs.Going.{Goes, Needs, setting, rest};

use crate::asking::flat_copy;
use crate::contexts::Context;
use crate::origins::{AnswerUse, Awaited, Onward, Origin};
use crate::requests::WalkAnswer;
use crate::walks::Walk;
use grain_fault::{EvalAltResult, Position};
use grain_host::says_missing;
use grain_program::{AssignOp, Program};
use grain_value::{Dynamic, Held, OutOfMemory, Text};
use std::alloc::Global;

impl Walk {
    // Goes on after a request that gave a value.
    pub(crate) fn take_value(
        &mut self,
        context: Context<'_>,
        awaits: Awaited,
        value: Dynamic,
    ) -> Result<WalkAnswer, OutOfMemory>
        requires at { IsAtStep context.program.now self.old awaits }
        ensures goes { Goes context.entry self.old
            (resumed context.entry.engine.now context.entry.program.now self.old awaits (Came value))
            result self.new }
        ensures needs { Needs context.entry.program.now self.new result
            (still context.entry.program.now self.old awaits) }
    {
        match awaits {
            Awaited::IndexSet => self.walk_back(context, true),
            Awaited::PropertySet { .. } => self.walk_back(context, true),
            Awaited::SetInstead { .. } => self.walk_back(context, true),
            Awaited::PropertyGot { into, .. } => self.go_in(context, into, value),
            Awaited::GotInstead { into, .. } => self.go_in(context, into, value),
            Awaited::IndexGot(into) => self.go_in(context, into, value),
            Awaited::IndexRead { into, .. } => self.go_in(context, into, value),
            Awaited::OpAssigned(..) => {
                self.gives = Dynamic::Unit;
                self.walk_back(context, true)
            }
            Awaited::Operator(pos) => self.store_answer(context, pos, value),
            Awaited::Called { into, .. } => self.go_in(context, into, value),
        }
    }

    // Makes an answer a new root, and goes on in it; or, if `own`, makes it the chain's value as it is.
    fn go_in(
        &mut self,
        context: Context<'_>,
        into: AnswerUse,
        value: Dynamic,
    ) -> Result<WalkAnswer, OutOfMemory>
        requires at { AtStep context.program.now self.old }
        ensures goes { Goes context.entry self.old
            (gone_into context.entry.engine.now context.entry.program.now self.old into value)
            result self.new }
        ensures needs { Needs context.entry.program.now self.new result
            (steps_left context.entry.program.now self.old + 1) }
    {
        let AnswerUse {
            pos,
            own,
            origin,
            go,
        } = into;
        if own {
            self.gives = value;
            return self.walk_back(context, origin.is_change());
        }
        let Ok(content) = flat_copy(self.alloc, context.cells, value) else {
            return Err(OutOfMemory);
        };
        match content {
            Some(content) => self.go_on(context, origin, go, content),
            None => self.raise_data_race(pos),
        }
    }

    // Goes on in a new root.
    fn go_on(
        &mut self,
        context: Context<'_>,
        origin: Origin,
        go: Onward,
        value: Dynamic,
    ) -> Result<WalkAnswer, OutOfMemory>
        requires at { AtStep context.program.now self.old }
        ensures goes { Goes context.entry self.old
            (rooted (setting context.entry self.old) self.old.step (origin_of origin)
            (read_write value)
            (next_of context.entry.engine.now context.entry.program.now self.old go)
            (place_of self.old) (rest context.entry self.old)) result self.new }
        ensures needs { Needs context.entry.program.now self.new result
            (steps_left context.entry.program.now self.old + 1) }
    {
        let root = Held {
            value,
            read_only: false,
        };
        self.enter_root(origin, root)?;
        match go {
            Onward::Further => {
                self.step_on(context);
                self.advance(context)
            }
            Onward::Operate(pos, op) => self.operate(context, pos, op),
        }
    }

    // Goes on after a request that gave a fault.
    pub(crate) fn take_fault(
        &mut self,
        context: Context<'_>,
        awaits: Awaited,
        fault: EvalAltResult,
    ) -> Result<WalkAnswer, OutOfMemory>
        requires at { IsAtStep context.program.now self.old awaits }
        ensures goes { Goes context.entry self.old
            (resumed context.entry.engine.now context.entry.program.now self.old awaits
            (Failed (problem_of fault))) result self.new }
        ensures needs { Needs context.entry.program.now self.new result
            (still context.entry.program.now self.old awaits) }
    {
        match awaits {
            Awaited::IndexSet => self.not_set(context, fault),
            Awaited::PropertySet {
                name,
                pos,
                assigned,
                set,
            } => self.property_not_set(context, name, pos, assigned, set, fault),
            Awaited::SetInstead {
                fault: first,
                assigned,
            } => self.not_set_instead(context, first, assigned, fault),
            Awaited::PropertyGot { name, pos, into } => {
                self.property_not_got(context, name, pos, into, fault)
            }
            Awaited::GotInstead {
                fault: first,
                into: _into,
            } => self.not_got_instead(first, fault),
            Awaited::IndexGot(_) => Ok(self.failed(fault)),
            Awaited::IndexRead {
                bracket,
                index,
                into: _into,
            } => self.not_read(bracket, index, fault),
            Awaited::OpAssigned(pos, op) => self.not_assigned(context, pos, op, fault),
            Awaited::Operator(_) => Ok(self.failed(fault)),
            Awaited::Called { .. } => Ok(self.failed(fault)),
        }
    }

    // An indexer has not set a value. A missing indexer is no fault.
    fn not_set(
        &mut self,
        context: Context<'_>,
        fault: EvalAltResult,
    ) -> Result<WalkAnswer, OutOfMemory>
        ensures goes { Goes context.entry self.old
            (index_was_set self.old.step self.old.gives (rest context.entry self.old)
            (Failed (problem_of fault))) result self.new }
        ensures needs { Needs context.entry.program.now self.new result (backs self.old) }
    {
        if fault.is_indexing_type() {
            return self.walk_back(context, true);
        }
        Ok(self.failed(fault))
    }

    // A setter has not set a property: if the host has none, an indexer is asked.
    fn property_not_set(
        &mut self,
        context: Context<'_>,
        name: u32,
        pos: Position,
        assigned: bool,
        set: Dynamic,
        fault: EvalAltResult,
    ) -> Result<WalkAnswer, OutOfMemory>
        ensures goes { Goes context.entry self.old
            (property_was_set self.old.step (named (setting context.entry self.old) name) pos assigned
            (place_of self.old) set self.old.gives (rest context.entry self.old)
            (Failed (problem_of fault))) result self.new }
        ensures needs { Needs context.entry.program.now self.new result (backs self.old + 1) }
    {
        if fault.is_dot_expr() {
            return self.set_instead(context, name, pos, set, fault, assigned);
        }
        Ok(self.failed(fault))
    }

    // A getter has not given a property: if the host has none, an indexer is asked.
    fn property_not_got(
        &mut self,
        context: Context<'_>,
        name: u32,
        pos: Position,
        into: AnswerUse,
        fault: EvalAltResult,
    ) -> Result<WalkAnswer, OutOfMemory>
        requires at { AtStep context.program.now self.old }
        ensures goes { Goes context.entry self.old
            (property_was_got self.old.step (named (setting context.entry self.old) name) pos
            (place_of self.old) (rest context.entry self.old)
            (gone_into context.entry.engine.now context.entry.program.now self.old into)
            (Failed (problem_of fault))) result self.new }
        ensures needs { Needs context.entry.program.now self.new result
            (steps_left context.entry.program.now self.old + 2) }
    {
        if fault.is_dot_expr() {
            return self.get_instead(context, name, pos, fault, into);
        }
        Ok(self.failed(fault))
    }

    // An indexer has not given a property either, after its getter failed. If the host has no
    // indexer, the getter's fault ends the walk.
    fn not_got_instead(
        &mut self,
        first: EvalAltResult,
        fault: EvalAltResult,
    ) -> Result<WalkAnswer, OutOfMemory>
        ensures goes { (x : AnyContext) (go : AnyValue → Task) → Goes x self.old
            (got_instead self.old.step (problem_of first) (rest x self.old) go
            (Failed (problem_of fault))) result self.new }
        ensures needs { (p : AnyProgram) (n : ℕ) → Needs p self.new result n }
    {
        if fault.is_indexing_type() {
            return Ok(self.failed(first));
        }
        Ok(self.failed(fault))
    }

    // An indexer has not given the value that an op-assignment changes: if the fault can be caught,
    // the chain's value is set as it is.
    fn not_read(
        &mut self,
        bracket: Position,
        index: Dynamic,
        fault: EvalAltResult,
    ) -> Result<WalkAnswer, OutOfMemory>
        ensures goes { (x : AnyContext) (go : AnyValue → Task) → Goes x self.old
            (index_was_read self.old.step bracket (place_of self.old) index self.old.value
            (rest x self.old) go (Failed (problem_of fault))) result self.new }
        ensures needs { (p : AnyProgram) → Needs p self.new result (backs self.old + 1) }
    {
        if fault.is_catchable() {
            return self.set_value_by_index(bracket, index);
        }
        Ok(self.failed(fault))
    }

    // The host's op-assignment has not assigned: if the host has none, its operator is asked.
    fn not_assigned(
        &mut self,
        context: Context<'_>,
        pos: Position,
        op: AssignOp,
        fault: EvalAltResult,
    ) -> Result<WalkAnswer, OutOfMemory>
        ensures goes { Goes context.entry self.old
            (was_op_assigned (setting context.entry self.old) self.old.step pos op self.old.value
            (place_of self.old) (rest context.entry self.old) (Failed (problem_of fault)))
            result self.new }
        ensures needs { Needs context.entry.program.now self.new result (backs self.old + 1) }
    {
        if is_missing(self.alloc, context.program, op.op_assign_name, &fault) {
            return self.ask_operator(context, pos, op);
        }
        Ok(self.failed(fault))
    }

    // An indexer has not set a property either, after its setter failed.
    fn not_set_instead(
        &mut self,
        context: Context<'_>,
        first: EvalAltResult,
        assigned: bool,
        fault: EvalAltResult,
    ) -> Result<WalkAnswer, OutOfMemory>
        ensures goes { Goes context.entry self.old
            (set_instead self.old.step (problem_of first) assigned self.old.gives
            (rest context.entry self.old) (Failed (problem_of fault))) result self.new }
        ensures needs { Needs context.entry.program.now self.new result (backs self.old) }
    {
        if fault.is_indexing_type() {
            return self.setter_missing(context, first, assigned);
        }
        Ok(self.failed(fault))
    }

    // Neither a setter nor an indexer is there: the setter's fault if the chain assigns the
    // property, and no fault if its value was only changed.
    fn setter_missing(
        &mut self,
        context: Context<'_>,
        first: EvalAltResult,
        assigned: bool,
    ) -> Result<WalkAnswer, OutOfMemory>
        ensures goes { Goes context.entry self.old
            (if assigned then rest context.entry self.old (WalkFailed self.old.step (problem_of first))
            else rest context.entry self.old (WalkEnded self.old.gives true)) result self.new }
        ensures needs { Needs context.entry.program.now self.new result (backs self.old) }
    {
        if assigned {
            return Ok(self.failed(first));
        }
        self.walk_back(context, true)
    }
}

// Whether a fault says that there is no function of the name with this index.
fn is_missing(alloc: Global, program: &Program, name: u32, fault: &EvalAltResult) -> bool
    ensures { result ≡ says_missing (name_of program.now name) (problem_of fault.now) }
{
    match program.names().get(name as usize) {
        Some(name) => says_missing(name.as_text(), fault),
        None => says_missing(&Text::new(alloc), fault),
    }
}
