//! What a walk asks of the host's indexers.

ghost use Rattle.std.specs.Prelude.{◌+◌, ◌∷◌, [], true, false, Some, codes};
ghost use Rattle.grain_value.specs.View.{tree};
ghost use Rattle.grain_value.specs.declared.values.Dynamic.TheVariants as dynamic;
ghost use Rattle.grain_program.specs.View.{View as AnyProgram};
ghost use Rattle.grain_means.specs.Walks.{by_indexer, Operates, was_given, into_answer, asking, index_get, OfIndex, set_by_index};
ghost use Rattle.grain_chain.specs.Walking.{place_of, role_in, AtStep, steps_left, backs};
ghost use Rattle.grain_chain.specs.Going.{Goes, Needs, setting, rest, next_step, Asked};
ghost use Rattle.grain_chain.specs.declared.contexts.Context.{Context as AnyContext};

use crate::asking::{one_argument, two_arguments};
use crate::origins::{AnswerUse, Awaited, Onward, Origin, Role};
use crate::requests::WalkAnswer;
use crate::walks::Walk;
use grain_fault::Position;
use grain_program::AssignOp;
use grain_value::{Dynamic, OutOfMemory};
use std::mem;

impl Walk {
    // Asks the host's indexers, at a value that has no indices of its own.
    pub(crate) fn by_indexer(
        &mut self,
        role: Role,
        pos: Position,
        bracket: Position,
        index: Dynamic,
    ) -> Result<WalkAnswer, OutOfMemory>
        ensures goes { (x : AnyContext) → Goes x self.old
            (by_indexer (setting x self.old) self.old.step pos bracket (role_in role self.old.value)
            index (next_step x self.old) (place_of self.old) (rest x self.old)) result self.new }
        ensures needs { (p : AnyProgram) → AtStep p self.old →
            Needs p self.new result (steps_left p self.old + 3) }
    {
        match role {
            Role::Writes => self.set_value_by_index(bracket, index),
            Role::Operates(op) => self.read_by_index(bracket, index, op),
            Role::Reads => self.get_own_by_index(pos, bracket, index, true),
            Role::Passes => self.get_own_by_index(pos, bracket, index, false),
        }
    }

    // Asks an indexer for the value in which the walk goes on, or, if `own`, for the chain's value.
    fn get_own_by_index(
        &mut self,
        pos: Position,
        bracket: Position,
        index: Dynamic,
        own: bool,
    ) -> Result<WalkAnswer, OutOfMemory>
        ensures goes { (x : AnyContext) → Goes x self.old
            (asking self.old.step bracket index_get (Some (place_of self.old)) (index ∷ [])
            (rest x self.old) (was_given self.old.step (rest x self.old)
            (into_answer (setting x self.old) self.old.step pos own (OfIndex index bracket)
            (next_step x self.old) (place_of self.old) (rest x self.old)))) result self.new }
        ensures needs { (p : AnyProgram) → AtStep p self.old →
            Needs p self.new result (steps_left p self.old + 2) }
    {
        let argument = index.copy(self.alloc)?;
        let into = AnswerUse {
            pos,
            own,
            origin: Origin::Index { index, bracket },
            go: Onward::Further,
        };
        self.get_by_index(bracket, argument, Awaited::IndexGot(into))
    }

    // Asks an indexer for the value that an op-assignment changes.
    fn read_by_index(
        &mut self,
        bracket: Position,
        index: Dynamic,
        op: AssignOp,
    ) -> Result<WalkAnswer, OutOfMemory>
        ensures goes { (x : AnyContext) → Goes x self.old
            (by_indexer (setting x self.old) self.old.step bracket bracket
            (Operates self.old.value op) index (next_step x self.old) (place_of self.old)
            (rest x self.old)) result self.new }
        ensures needs { (p : AnyProgram) → AtStep p self.old →
            Needs p self.new result (steps_left p self.old + 3) }
    {
        let kept = index.copy(self.alloc)?;
        let argument = index.copy(self.alloc)?;
        let into = AnswerUse {
            pos: bracket,
            own: false,
            origin: Origin::Index { index, bracket },
            go: Onward::Operate(bracket, op),
        };
        let awaits = Awaited::IndexRead {
            bracket,
            index: kept,
            into,
        };
        self.get_by_index(bracket, argument, awaits)
    }

    // Asks an indexer for what an index names.
    fn get_by_index(
        &mut self,
        bracket: Position,
        index: Dynamic,
        awaits: Awaited,
    ) -> Result<WalkAnswer, OutOfMemory>
        ensures { Asked self.old bracket (codes "index$get$") (tree index ∷ []) awaits result self.new }
    {
        let values = one_argument(self.alloc, index)?;
        self.ask(bracket, "index$get$", values, awaits)
    }

    // Asks an indexer to set the chain's value.
    pub(crate) fn set_value_by_index(
        &mut self,
        bracket: Position,
        index: Dynamic,
    ) -> Result<WalkAnswer, OutOfMemory>
        ensures goes { (x : AnyContext) → Goes x self.old
            (set_by_index self.old.step bracket (place_of self.old) index self.old.value dynamic.Unit
            (rest x self.old)) result self.new }
        ensures needs { (p : AnyProgram) → Needs p self.new result (backs self.old + 1) }
    {
        let value = mem::replace(&mut self.value, Dynamic::Unit);
        self.gives = Dynamic::Unit;
        self.set_by_index(bracket, index, value)
    }

    // Asks an indexer to set a value.
    pub(crate) fn set_by_index(
        &mut self,
        bracket: Position,
        index: Dynamic,
        value: Dynamic,
    ) -> Result<WalkAnswer, OutOfMemory>
        ensures goes { (x : AnyContext) → Goes x self.old
            (set_by_index self.old.step bracket (place_of self.old) index value self.old.gives
            (rest x self.old)) result self.new }
        ensures needs { (p : AnyProgram) → Needs p self.new result (backs self.old + 1) }
    {
        let values = two_arguments(self.alloc, index, value)?;
        self.ask(bracket, "index$set$", values, Awaited::IndexSet)
    }
}
