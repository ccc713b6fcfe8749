//! The check of parts: the rules of instructions first, then those of chains, and then those of heights.

ghost use Rattle.std.specs.Prelude.{◌≡◌, ◌⊎◌, IfOk, IfErr};
ghost use Rattle.grain_program.specs.View.{View, view_of};
ghost use Rattle.grain_program.specs.Layout.{chunks_in};
ghost use Rattle.grain_program.specs.Typing.{Valid, Refused, IsProgram, IsRefusal};
ghost use Rattle.grain_program.specs.declared.verifier.refusals.Refusal.{Refusal};
ghost use Rattle.grain_program.specs.declared.verifier.refusals.Refusal.TheVariants.{Memory};

use crate::code::parts::{Chunk, Parts};
use crate::verifier::chain_rules::bad_chain;
use crate::verifier::heights::check_heights;
use crate::verifier::refusals::Refusal;
use crate::verifier::rules::check_instructions;
use grain_value::OutOfMemory;
use std::alloc::Global;

/// The chunks, in the order of their layout.
fn chunks_of(alloc: Global, parts: &Parts) -> Result<Vec<Chunk>, OutOfMemory>
    ensures { IfOk result (λ chunks. chunks.items ≡ chunks_in (view_of parts.now)) }
{
    let mut chunks = Vec::new(alloc);
    chunks.push(parts.main)?;
    let functions = parts.functions.as_slice();
    for function in functions {
        chunks.push(function.chunk)?;
    }
    Ok(chunks)
}

/// Whether these chunks of the parts break no rule, or the first that they break.
fn check_chunks(alloc: Global, parts: &Parts, chunks: &[Chunk]) -> Result<(), Refusal>
    requires { chunks.now ≡ chunks_in (view_of parts.now) }
    ensures sound { IfOk result (λ _. Valid (view_of parts.now) chunks.now) }
    ensures complete { Valid (view_of parts.now) chunks.now → IfErr result (λ r. r ≡ Memory) }
    ensures first { IfErr result (λ r. (r ≡ Memory) ⊎ Refused (view_of parts.now) chunks.now r) }
{
    match check_instructions(alloc, parts, chunks) {
        Ok(()) => match bad_chain(parts.chains.as_slice()) {
            Some(refusal) => Err(refusal),
            None => check_heights(alloc, parts, chunks),
        },
        Err(refusal) => Err(refusal),
    }
}

/// Whether the parts break no rule, or the first that they break.
pub fn check(alloc: Global, parts: &Parts) -> Result<(), Refusal>
    ensures sound { IfOk result (λ _. IsProgram (view_of parts.now)) }
    ensures complete { IsProgram (view_of parts.now) → IfErr result (λ r. r ≡ Memory) }
    ensures first { IfErr result (λ r. (r ≡ Memory) ⊎ IsRefusal (view_of parts.now) r) }
{
    match chunks_of(alloc, parts) {
        Ok(chunks) => check_chunks(alloc, parts, &chunks),
        Err(_) => Err(Refusal::Memory),
    }
}

/// Parts have one refusal at most.
pub fn one_refusal()
    ensures { (p : View) (r s : Refusal) → IsRefusal p r → IsRefusal p s → r ≡ s }
{}
