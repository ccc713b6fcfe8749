//! The rules of heights, which look at the operands and the cursors on all ways through the code.

ghost use Rattle.std.specs.Prelude.{◌≡◌, ◌⊎◌, IfOk, IfErr};
ghost use Rattle.grain_program.specs.View.{view_of};
ghost use Rattle.grain_program.specs.Rules.{IsSplit};
ghost use Rattle.grain_program.specs.Typing.{HasTyping, StopsWith};
ghost use Rattle.grain_program.specs.declared.verifier.refusals.Refusal.TheVariants.{Memory};

use crate::code::parts::{Chunk, Parts};
use crate::verifier::analysis::HeightAnalysis;
use crate::verifier::reached::Reached;
use crate::verifier::refusals::Refusal;
use std::alloc::Global;

/// Whether there is a typing, or where the search for one stops.
pub fn check_heights(alloc: Global, parts: &Parts, chunks: &[Chunk]) -> Result<(), Refusal>
    requires { IsSplit (view_of parts.now) chunks.now }
    ensures ok { IfOk result (λ _. HasTyping (view_of parts.now) chunks.now) }
    ensures err { IfErr result (λ r. (r ≡ Memory) ⊎ StopsWith (view_of parts.now) chunks.now r) }
{
    let Ok(mut analysis) = HeightAnalysis::new(alloc, parts.code.len()) else {
        return Err(Refusal::Memory);
    };
    let Ok(mut reached) = Reached::new(alloc, parts.switches.len()) else {
        return Err(Refusal::Memory);
    };
    for chunk in chunks {
        if let Err(refusal) = analysis.analyse_chunk(alloc, parts, &mut reached, *chunk) {
            return Err(refusal);
        }
    }
    Ok(())
}
