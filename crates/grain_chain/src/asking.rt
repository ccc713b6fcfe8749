//! Marks and requests.

ghost use Rattle.std.specs.Prelude.{◌≡◌, ◌+◌, ◌∷◌, [], ℕ, IfOk, IfErr};
ghost use Rattle.grain_value.specs.View.{tree};
ghost use Rattle.grain_value.specs.Cells.{flat};
ghost use Rattle.grain_value.specs.declared.values.Dynamic.TheVariants as dynamic;
ghost use Rattle.grain_fault.specs.Problems.{problem_of};
ghost use Rattle.grain_program.specs.View.{View as AnyProgram, name_of};
ghost use Rattle.grain_means.specs.Walks.{failing};
ghost use Rattle.grain_chain.specs.Walking.{lends};
ghost use Rattle.grain_chain.specs.Going.{Goes, Needs, rest, Asked, AskedFor, IsRequest, Lends, fallen, Settles};
ghost use Rattle.grain_chain.specs.declared.contexts.Context.{Context as AnyContext};
ghost use Rattle.grain_chain.specs.declared.requests.WalkAnswer.TheVariants as answer;

use crate::contexts::name_of_program;
use crate::origins::Awaited;
use crate::requests::{Request, WalkAnswer, What};
use crate::walks::Walk;
use grain_fault::{EvalAltResult, Position};
use grain_program::Program;
use grain_value::{Array, Dynamic, Held, OutOfMemory, Store, Text};
use std::alloc::Global;

impl Walk {
    // The number of marks with one more. `OutOfMemory` if it does not fit 64 bits.
    pub(crate) fn next_mark(&self) -> Result<u64, OutOfMemory>
        ensures { IfOk result (λ marks. marks ≡ self.now.marks + 1) }
    {
        self.marks.checked_add(1).ok_or(OutOfMemory)
    }

    // Passes a mark.
    pub(crate) fn pass_mark(&mut self) -> Result<(), OutOfMemory>
        ensures passed { IfOk result (λ _. self.new ≡ record self.old { marks = self.old.marks + 1 }) }
        ensures unchanged { IfErr result (λ _. self.new ≡ self.old) }
    {
        self.marks = self.next_mark()?;
        Ok(())
    }

    // Ends the walk with a fault of the present step; only the first root stays.
    pub(crate) fn failed(&mut self, fault: EvalAltResult) -> WalkAnswer
        ensures answer { result ≡ answer.Faulted fault self.old.step }
        ensures left { self.new ≡ fallen self.old }
    {
        self.trail.drop_newer_roots();
        WalkAnswer::Faulted {
            fault,
            step: self.step,
        }
    }

    // Raises a fault, at a mark.
    pub(crate) fn raise(&mut self, fault: EvalAltResult) -> Result<WalkAnswer, OutOfMemory>
        ensures goes { (x : AnyContext) → Goes x self.old
            (failing self.old.step (problem_of fault) (rest x self.old)) result self.new }
        ensures needs { (p : AnyProgram) (n : ℕ) → Needs p self.new result n }
    {
        self.pass_mark()?;
        Ok(self.failed(fault))
    }

    // Turns `OutOfMemory` into the fault `Memory`, which ends the walk.
    pub(crate) fn settle(&mut self, went: Result<WalkAnswer, OutOfMemory>) -> WalkAnswer
        ensures { Settles went self.old result self.new }
    {
        match went {
            Ok(answer) => answer,
            Err(OutOfMemory) => self.failed(EvalAltResult::Memory),
        }
    }

    // Asks for a native, at a mark. The value at the walk's place is lent to it, if `awaits` says so.
    pub(crate) fn ask(
        &mut self,
        pos: Position,
        name: &str,
        arguments: Array,
        awaits: Awaited,
    ) -> Result<WalkAnswer, OutOfMemory>
        ensures { Asked self.old pos name.now arguments awaits result self.new }
    {
        let name = Text::copy_of(self.alloc, name)?;
        self.ask_for(pos, What::Native(name), arguments, awaits)
    }

    // Asks for a call, at a mark. The value at the walk's place is lent to it, if `awaits` says so.
    pub(crate) fn ask_for(
        &mut self,
        pos: Position,
        what: What,
        arguments: Array,
        awaits: Awaited,
    ) -> Result<WalkAnswer, OutOfMemory>
        ensures { AskedFor self.old pos what arguments awaits result self.new }
    {
        let request = self.request(pos, what, arguments, awaits.lends())?;
        self.awaits = awaits;
        Ok(WalkAnswer::Need(request))
    }

    // The request for a call, at its mark. If memory runs out, nothing changes.
    fn request(
        &mut self,
        pos: Position,
        what: What,
        arguments: Array,
        lends: bool,
    ) -> Result<Request, OutOfMemory>
        ensures made { IfOk result (λ request.
            IsRequest self.old pos what lends arguments request) }
        ensures passed { IfOk result (λ _. self.new ≡ record self.old { marks = self.old.marks + 1 }) }
        ensures unchanged { IfErr result (λ _. self.new ≡ self.old) }
    {
        let receiver = self.lend(lends)?;
        Ok(Request {
            step: self.step,
            pos,
            what,
            receiver,
            arguments,
        })
    }

    // The receiver of a request, at its mark. If memory runs out, nothing changes.
    fn lend(&mut self, lends: bool) -> Result<Option<Held>, OutOfMemory>
        ensures lent { IfOk result (λ receiver. Lends self.old lends receiver) }
        ensures passed { IfOk result (λ _. self.new ≡ record self.old { marks = self.old.marks + 1 }) }
        ensures unchanged { IfErr result (λ _. self.new ≡ self.old) }
    {
        let marks = self.next_mark()?;
        let receiver = self.receiver(lends)?;
        self.marks = marks;
        Ok(receiver)
    }

    // The receiver of a request: a copy of the value at the walk's place, or none.
    fn receiver(&self, lends: bool) -> Result<Option<Held>, OutOfMemory>
        ensures { IfOk result (λ receiver. Lends self.now lends receiver) }
    {
        if !lends {
            return Ok(None);
        }
        let value = self.trail.target().copy(self.alloc)?;
        let read_only = self.trail.is_read_only();
        Ok(Some(Held { value, read_only }))
    }
}

// A list of one argument.
pub(crate) fn one_argument(alloc: Global, value: Dynamic) -> Result<Array, OutOfMemory>
    ensures { IfOk result (λ values. values ≡ tree value ∷ []) }
{
    let mut values = Array::new(alloc);
    values.push(value)?;
    Ok(values)
}

// A list of two arguments.
pub(crate) fn two_arguments(
    alloc: Global,
    first: Dynamic,
    second: Dynamic,
) -> Result<Array, OutOfMemory>
    ensures { IfOk result (λ values. values ≡ tree first ∷ tree second ∷ []) }
{
    let mut values = Array::new(alloc);
    values.push(first)?;
    values.push(second)?;
    Ok(values)
}

// The value itself, or a copy of what it holds if it is a cell. Returns None if that is lent.
pub(crate) fn flat_copy(
    alloc: Global,
    cells: &Store,
    value: Dynamic,
) -> Result<Option<Dynamic>, OutOfMemory>
    ensures { IfOk result (λ content. content ≡ flat cells.now value) }
{
    if value.as_cell().is_none() {
        return Ok(Some(value));
    }
    match value.flat(cells) {
        None => Ok(None),
        Some(content) => Ok(Some(content.copy(alloc)?)),
    }
}

// The name with this index, as a text.
pub(crate) fn name_text(alloc: Global, program: &Program, name: u32) -> Result<Dynamic, OutOfMemory>
    ensures { IfOk result (λ value. value ≡ dynamic.Text (name_of program.now name)) }
{
    let name = name_of_program(alloc, program, name)?;
    Ok(Dynamic::Text(name))
}
