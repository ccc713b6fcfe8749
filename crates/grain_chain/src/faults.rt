//! The faults that a walk raises by itself.

ghost use Rattle.std.specs.Prelude.{◌≡◌, ℕ, IfOk, codes};
ghost use Rattle.grain_value.specs.Writing.{type_name_of};
ghost use Rattle.grain_value.specs.Parts.{part_type};
ghost use Rattle.grain_fault.specs.Problems.{problem_of, Plain, MismatchDataType, DataRace};
ghost use Rattle.grain_means.specs.Walks.{out_of_bounds, index_type, failing};
ghost use Rattle.grain_program.specs.View.{View as AnyProgram};
ghost use Rattle.grain_ops.specs.Outcomes.{Outcome as AnyOutcome};
ghost use Rattle.grain_ops.specs.Answers.{FailsSo};
ghost use Rattle.grain_chain.specs.Going.{Goes, Needs, rest, FailsAt};
ghost use Rattle.grain_chain.specs.declared.contexts.Context.{Context as AnyContext};

use crate::requests::WalkAnswer;
use crate::walks::Walk;
use grain_fault::{EvalAltResult, Position};
use grain_value::{Dynamic, OutOfMemory, Spot, Text};
use std::alloc::Global;

impl Walk {
    // Raises the fault that a value is a lent cell.
    pub(crate) fn raise_data_race(&mut self, pos: Position) -> Result<WalkAnswer, OutOfMemory>
        ensures goes { (x : AnyContext) → Goes x self.old
            (failing self.old.step (Plain (DataRace (codes "variable ''")) pos) (rest x self.old))
            result self.new }
        ensures needs { (p : AnyProgram) (n : ℕ) → Needs p self.new result n }
    {
        let text = Text::copy_of(self.alloc, "variable ''")?;
        self.raise(EvalAltResult::ErrorDataRace(text, pos))
    }
}

// The fault that an index is out of bounds.
pub(crate) fn out_of_bounds(
    target: &Dynamic,
    length: usize,
    index: i64,
    pos: Position,
) -> EvalAltResult
    ensures { problem_of result ≡ Plain (out_of_bounds target.now length index) pos }
{
    match target {
        Dynamic::Array(_) | Dynamic::Blob(_) => EvalAltResult::ErrorArrayBounds(length, index, pos),
        Dynamic::Text(_) => EvalAltResult::ErrorStringBounds(length, index, pos),
        _ => EvalAltResult::ErrorBitFieldBounds(length, index, pos),
    }
}

// The fault that an index has another type than the indexed value asks for.
pub(crate) fn wrong_index(
    alloc: Global,
    target: &Dynamic,
    index: &Dynamic,
    pos: Position,
) -> Result<EvalAltResult, OutOfMemory>
    ensures { IfOk result (λ f. problem_of f
        ≡ Plain (MismatchDataType (index_type target.now) (type_name_of index.now)) pos) }
{
    let wanted = match target {
        Dynamic::Map(_) => "string",
        _ => "i64",
    };
    let wanted = Text::copy_of(alloc, wanted)?;
    let got = index.own_type_name(alloc)?;
    Ok(EvalAltResult::ErrorMismatchDataType(wanted, got, pos))
}

// The fault that a byte, a character or a bit is put back as a value of another type.
pub(crate) fn wrong_part(
    alloc: Global,
    spot: Spot,
    part: &Dynamic,
    pos: Position,
) -> Result<EvalAltResult, OutOfMemory>
    ensures { IfOk result (λ f. problem_of f
        ≡ Plain (MismatchDataType (part_type spot) (type_name_of part.now)) pos) }
{
    let wanted = match spot {
        Spot::Byte(_) => "i64",
        Spot::Character(_) => "char",
        Spot::Bit(_) => "bool",
        Spot::Item(_) | Spot::Key => "",
    };
    let wanted = Text::copy_of(alloc, wanted)?;
    let got = part.own_type_name(alloc)?;
    Ok(EvalAltResult::ErrorMismatchDataType(wanted, got, pos))
}

// The fault of an op-assignment, with this position. `OutOfMemory` if it is `Memory`.
pub(crate) fn fault_at(fault: EvalAltResult, pos: Position) -> Result<EvalAltResult, OutOfMemory>
    ensures { (o : AnyOutcome) → FailsSo fault o → FailsAt pos result o }
{
    if matches!(&fault, EvalAltResult::Memory) {
        return Err(OutOfMemory);
    }
    let mut fault = fault;
    fault.set_position(pos);
    Ok(fault)
}
