//! The slots by which a trace names the steps of chains.

ghost use Rattle.std.specs.Prelude.{◌≡◌, ◌<◌, ◌≤◌, ◌+◌, IfOk, Some, length, take, slice_get};
ghost use Rattle.grain_program.specs.Chains.{steps_slots, chain_slots, all_slots, first_slots, slot_within, most_slots};

use crate::code::chains::{Chain, Step};
use grain_value::OutOfMemory;
use std::alloc::Global;

/// How many slots these steps have together.
fn steps_slots(steps: &[Step]) -> u32
    requires { steps_slots steps.now ≤ most_slots }
    ensures { result ≡ steps_slots steps.now }
{
    let mut slots = 0;
    for step in steps {
        slots += step.slots();
    }
    slots
}

/// How many slots the chain has.
fn chain_slots(chain: &Chain) -> u32
    requires { chain_slots chain.now ≤ most_slots }
    ensures { result ≡ chain_slots chain.now }
{
    chain.root.slots() + steps_slots(chain.steps.as_slice())
}

/// The first slot of each chain.
pub fn first_slots(alloc: Global, chains: &[Chain]) -> Result<Vec<u32>, OutOfMemory>
    requires { all_slots chains.now ≤ most_slots }
    ensures { IfOk result (λ slots. slots.items ≡ first_slots 0 chains.now) }
{
    let mut firsts = Vec::with_capacity(alloc, chains.len())?;
    let mut next = 0;
    for chain in chains {
        firsts.push(next)?;
        next += chain_slots(chain);
    }
    Ok(firsts)
}

/// How many slots the root and the steps before this number have.
fn slots_before(chain: &Chain, number: usize) -> u32
    requires { chain_slots chain.now ≤ most_slots }
    ensures { result ≡ slot_within number (Some chain.now) }
{
    let steps = chain.steps.as_slice();
    let before = &steps[..number.min(steps.len())];
    chain.root.slots() + steps_slots(before)
}

/// The first slot of the step of this number, of the chain at the index, by the first slots of the
/// chains.
pub fn slot_among(firsts: &[u32], chains: &[Chain], index: usize, number: usize) -> u32
    requires firsts { firsts.now ≡ first_slots 0 chains.now }
    requires there { index < length chains.now }
    requires room { all_slots chains.now ≤ most_slots }
    ensures { result ≡ all_slots (take index chains.now)
        + slot_within number (slice_get chains.now index) }
{
    firsts[index] + slots_before(&chains[index], number)
}
