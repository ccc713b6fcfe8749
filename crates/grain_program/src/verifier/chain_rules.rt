//! The rules of chains: each has a step, none assigns to a temporary value or to what a method gives,
//! each step uses operands that its chain has, and there are slots for all steps.

ghost use Rattle.std.specs.Prelude.{◌≡◌, ◌<◌, ◌≤◌, ◌+◌, ◌^◌, length, Some, None, nat_le, if◌then◌else◌};
ghost use Rattle.grain_program.specs.Chains.{root_slots, steps_slots, chain_slots, most_slots, ends_in_method, has_operands, all_have_operands, is_good_chain, first_bad_chain};

use crate::code::chains::{Chain, Step};
use crate::verifier::refusals::Refusal;

/// How many slots all chains of a program may have together.
const MOST_SLOTS: u64 = 4_294_967_295;

/// Whether the last of the steps runs a method.
fn ends_in_method(steps: &[Step]) -> bool
    ensures { result ≡ ends_in_method steps.now }
{
    match steps.last() {
        Some(step) => step.is_method(),
        None => false,
    }
}

/// Whether what the step uses, if it uses any, is among this number of operands.
fn has_operands(operands: u32, step: Step) -> bool
    ensures { result ≡ has_operands operands step }
{
    match step {
        Step::Index { operand, .. } => operand < operands,
        Step::Property { .. } => true,
        Step::Method { argc, operand, .. } => {
            u64::from(operand) + u64::from(argc) <= u64::from(operands)
        }
    }
}

/// Whether what each step uses, if it uses any, is among this number of operands.
fn all_have_operands(operands: u32, steps: &[Step]) -> bool
    ensures { result ≡ all_have_operands operands steps.now }
{
    for step in steps {
        if !has_operands(operands, *step) {
            return false;
        }
    }
    true
}

/// How many slots there are together with those of the steps, or more than `MOST_SLOTS` where there
/// are more.
fn slots_with(before: u64, steps: &[Step]) -> u64
    requires { before < 2 ^ 33 }
    ensures exact { result ≤ most_slots → result ≡ before + steps_slots steps.now }
    ensures over { most_slots < result → most_slots < before + steps_slots steps.now }
    ensures small { result < 2 ^ 33 }
{
    let mut slots = before;
    for step in steps {
        if slots > MOST_SLOTS {
            return slots;
        }
        slots += u64::from(step.slots());
    }
    slots
}

/// How many slots there are with those of the chain, if the chain obeys the rules of chains.
fn slots_of_good(before: u64, chain: &Chain) -> Option<u64>
    requires { before ≤ most_slots }
    ensures exact { result ≡ (if is_good_chain before chain.now
        then Some (before + chain_slots chain.now) else None) }
{
    if chain.steps.is_empty() || chain.tail.assigns() && chain.root.is_temporary() {
        return None;
    }
    if chain.tail.assigns() && ends_in_method(chain.steps.as_slice()) {
        return None;
    }
    if !all_have_operands(chain.operands, chain.steps.as_slice()) {
        return None;
    }
    let begun = before + u64::from(chain.root.slots());
    let slots = slots_with(begun, chain.steps.as_slice());
    if slots > MOST_SLOTS {
        return None;
    }
    Some(slots)
}

/// The refusal of the first chain that breaks a rule of chains.
pub fn bad_chain(chains: &[Chain]) -> Option<Refusal>
    ensures { result ≡ first_bad_chain 0 0 chains.now }
{
    let mut slots = 0;
    for (index, chain) in chains.iter().enumerate() {
        match slots_of_good(slots, chain) {
            Some(after) => slots = after,
            None => return Some(Refusal::BadChain(index)),
        }
    }
    None
}
