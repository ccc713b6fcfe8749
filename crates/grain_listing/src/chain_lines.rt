//! The lines of chains and of their steps.

ghost use Rattle.std.specs.Prelude.{◌≡◌, IfOk, length};
ghost use Rattle.grain_listing.specs.Statements.{with_step, last_steps};
ghost use Rattle.grain_listing.specs.declared.table.Line.TheVariants as lines;
ghost use Rattle.grain_listing.specs.views.AssemblerView.{assembler_view, result_view};
ghost use Rattle.grain_listing.specs.views.Assembling.{put_line};

use crate::assembler::Assembler;
use crate::chain_words::{chain_of, step_of};
use crate::pool_lines::POOL_ROOM;
use crate::table::takes_steps;
use grain_literals::Reason;
use grain_program::{Chains, Step};
use grain_value::OutOfMemory;
use std::alloc::Global;

/// How many steps the last chain has.
fn last_count(chains: &Chains) -> usize
    ensures { result ≡ length (last_steps chains.now) }
{
    let count = chains.len();
    if count == 0 {
        return 0;
    }
    chains.at(count - 1).steps.len()
}

/// Adds the step to the last chain.
fn add_step(chains: &mut Chains, step: Step) -> Result<(), OutOfMemory>
    ensures { IfOk result (λ _. chains.new ≡ with_step step chains.old) }
{
    let count = chains.len();
    if count == 0 {
        return Ok(());
    }
    match chains.get_mut(count - 1) {
        Some(chain) => chain.steps.push(step),
        None => Ok(()),
    }
}

impl Assembler {
    /// A chain.
    pub fn put_chain(
        &mut self,
        alloc: Global,
        rest: &[char],
    ) -> Result<Result<(), Reason>, OutOfMemory>
        ensures { IfOk result (λ r. result_view r (assembler_view self.new) ≡
            put_line lines.Chain rest.now (assembler_view self.old)) }
    {
        if self.chains.len() >= POOL_ROOM {
            return Ok(Err(Reason::TooMany));
        }
        match chain_of(alloc, rest) {
            Err(reason) => Ok(Err(reason)),
            Ok(chain) => {
                self.chains.push(chain)?;
                Ok(Ok(()))
            }
        }
    }

    /// A step of the chain that is open.
    pub fn put_step(&mut self, rest: &[char]) -> Result<Result<(), Reason>, OutOfMemory>
        ensures { IfOk result (λ r. result_view r (assembler_view self.new) ≡
            put_line lines.Step rest.now (assembler_view self.old)) }
    {
        if !takes_steps(self.follows) {
            return Ok(Err(Reason::OutOfPlace));
        }
        if last_count(&self.chains) >= POOL_ROOM {
            return Ok(Err(Reason::TooMany));
        }
        match step_of(rest) {
            Err(reason) => Ok(Err(reason)),
            Ok(step) => {
                add_step(&mut self.chains, step)?;
                Ok(Ok(()))
            }
        }
    }
}
