//! A walk: what it holds, how it begins, how it goes on, and how it ends.

ghost use Rattle.std.specs.Prelude.{◌≡◌, ◌+◌, ◌*◌, ◌≤◌, [], ◌∷◌, Bool, length};
ghost use Rattle.grain_means.specs.Walks.{whole_walk};
ghost use Rattle.grain_means.specs.lemmas.Spreading.{Rooted};
ghost use Rattle.grain_program.specs.View.{chain_of};
ghost use Rattle.grain_means.specs.Simulation.{StopPersists};
ghost use Rattle.grain_chain.specs.Walking.{is_want, is_out, roots_of, roots_at, Did, Waits, Falls, HasOperator, new_course, steps_of, count_of, resumed, outcome_of, with_receiver, still, IsAtStep};
ghost use Rattle.grain_chain.specs.Going.{Goes, Needs, received};

use crate::contexts::{Context, ending_of};
use crate::origins::{Awaited, Ending};
use crate::requests::WalkAnswer;
use crate::trails::Trail;
use grain_fault::{EvalAltResult, Position};
use grain_global::Engine;
use grain_program::Program;
use grain_value::{Array, Dynamic, Held, OutOfMemory, Store};
use std::alloc::Global;
use std::mem;

/// The walk of a chain, as far as it has come.
#[derive(Drop)]
pub struct Walk {
    // the roots, and the walk's place in the newest
    pub(crate) trail: Trail,
    // the number of the present step, from 0
    pub(crate) step: usize,
    // what the last request was for
    pub(crate) awaits: Awaited,
    // what the walk gives: it is set where the steps end
    pub(crate) gives: Dynamic,
    // where its values and lists take their memory from
    pub(crate) alloc: Global,
    // the index of the chain
    pub(crate) chain: u32,
    // the operands of the chain's steps
    pub(crate) operands: Array,
    // what the chain does after its last step
    pub(crate) ending: Ending,
    // the value that the chain assigns: unit if it assigns none, or no longer needs it
    pub(crate) value: Dynamic,
    // the position of the chain's instruction
    pub(crate) pos: Position,
    // how many marks were passed since the last answer
    pub(crate) marks: u64,
}

impl Walk {
    /// Begins a walk of a chain at a root, and walks until it needs a call, ends, or fails.
    /// `operands` are those of its steps, all that the chain takes for them; `value` is what it
    /// assigns, or unit.
    pub fn start(
        alloc: Global,
        engine: &Engine,
        program: &Program,
        cells: &Store,
        root: Held,
        chain: u32,
        operands: Array,
        value: Dynamic,
        pos: Position,
    ) -> (Walk, WalkAnswer)
        requires operator { HasOperator program.now ((chain_of program.now chain).tail) }
        requires enough { (chain_of program.now chain).operands ≤ length operands }
        ensures did { Did engine.now program.now cells.now (root ∷ []) 0
            (whole_walk (new_course engine.now program.now pos chain operands value)
            (steps_of program.now chain)) result.0 result.1 }
        ensures falls { Falls program.now result.0 result.1 (4 * count_of program.now chain + 3) }
        // The first root keeps its read-only flag.
        ensures rooted { Rooted root.read_only (roots_at result.0 result.1) }
    {
        let context = Context {
            engine,
            program,
            cells,
        };
        let mut walk = Walk {
            trail: Trail::new(alloc, root),
            step: 0,
            awaits: Awaited::IndexSet,
            gives: Dynamic::Unit,
            alloc,
            chain,
            operands,
            ending: ending_of(program, chain),
            value,
            pos,
            marks: 0,
        };
        let went = walk.advance(context);
        let answer = walk.settle(went);
        (walk, answer)
    }

    /// Goes on after a request: with the value or the fault that the call gave, and with what
    /// the call left of the receiver.
    pub fn resume(
        &mut self,
        engine: &Engine,
        program: &Program,
        cells: &Store,
        outcome: Result<Dynamic, EvalAltResult>,
        receiver: Option<Held>,
    ) -> WalkAnswer
        requires { Waits program.now self.old receiver }
        ensures did { Did engine.now program.now cells.now (with_receiver self.old receiver) 0
            (resumed engine.now program.now self.old self.old.awaits (outcome_of outcome))
            self.new result }
        ensures falls { Falls program.now self.new result
            (still program.now self.old self.old.awaits) }
        // If `outcome` is `Memory`, so is the answer.
        ensures carries { StopPersists (is_want outcome) 0 (is_out result) self.new.marks }
        ensures rooted { (b : Bool) → Rooted b (roots_of self.old) → Rooted b (roots_at self.new result) }
    {
        let context = Context {
            engine,
            program,
            cells,
        };
        self.take_back(receiver);
        let awaits = mem::replace(&mut self.awaits, Awaited::IndexSet);
        let went = self.take_outcome(context, awaits, outcome);
        self.settle(went)
    }

    // Puts the receiver back where it was copied from, and counts marks from 0.
    fn take_back(&mut self, receiver: Option<Held>)
        ensures { self.new ≡ received self.old receiver }
    {
        self.marks = 0;
        match receiver {
            None => {}
            Some(held) => self.trail.put(held.value),
        }
    }

    // Goes on with the value or the fault that a call gave.
    fn take_outcome(
        &mut self,
        context: Context<'_>,
        awaits: Awaited,
        outcome: Result<Dynamic, EvalAltResult>,
    ) -> Result<WalkAnswer, OutOfMemory>
        requires { IsAtStep context.program.now self.old awaits }
        ensures goes { Goes context.entry self.old
            (resumed context.entry.engine.now context.entry.program.now self.old awaits
            (outcome_of outcome)) result self.new }
        ensures needs { Needs context.entry.program.now self.new result
            (still context.entry.program.now self.old awaits) }
    {
        match outcome {
            Ok(value) => self.take_value(context, awaits, value),
            Err(fault) => self.take_fault(context, awaits, fault),
        }
    }

    /// How many marks were passed since the last answer.
    pub fn marks(&self) -> u64
        ensures { result ≡ self.now.marks }
    {
        self.marks
    }

    /// The newest root, as it is now. Once the walk is over, that is the root at which it began.
    pub fn finish(self) -> Held
        ensures { result ≡ self.trail.here }
    {
        self.trail.into_root()
    }
}
