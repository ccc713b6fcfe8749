//! Lines that are steps of chains.

ghost use Rattle.std.specs.Prelude.{◌≡◌, suc, option_map};
ghost use Rattle.grain_addresses.specs.StepLines.{chain_at, is_step, found_step, step_named};

use grain_program::{Op, decode};
use grain_value::Blob;
use std::marker::Model;

/// A line that is a step of a chain. It has the line's number, from 1 on, the number of chains up to
/// it, of which the last one is the step's, the first slot of the step, and the line's characters.
#[derive(Drop)]
pub struct StepLine<'a> {
    line: usize,
    chains: usize,
    slot: usize,
    text: &'a [char],
}

impl<'a> Model for StepLine<'a> {
    ghost use Rattle.grain_addresses.specs.StepLines.{StepLine};

    ghost Value = { StepLine };

    ghost view = { λ s. record {
      line = s.line;
      chains = s.chains;
      slot = s.slot;
      text = s.text.now;
    } };
}

impl<'a> StepLine<'a> {
    /// The line with this number, at which there are this many chains.
    pub fn new(line: usize, chains: usize, slot: usize, text: &'a [char]) -> StepLine<'a>
        ensures { result ≡ record {
          line = line;
          chains = chains;
          slot = slot;
          text = text.now;
        } }
    {
        StepLine {
            line,
            chains,
            slot,
            text,
        }
    }

    /// The line's number, from 1 on.
    pub fn line(&self) -> usize
        ensures { result ≡ self.now.line }
    {
        self.line
    }

    /// The line's characters.
    pub fn text(&self) -> &'a [char]
        ensures { result.now ≡ self.now.text }
    {
        self.text
    }

    /// Whether the step is of the chain with this index, and has this slot first.
    fn is_step(&self, chain: u16, slot: u32) -> bool
        ensures { result ≡ is_step chain slot self.now }
    {
        self.chains == usize::from(chain) + 1 && self.slot == slot as usize
    }
}

/// The index of the chain that the instruction at the address does, if it does one.
fn chain_at(code: &Blob, address: usize) -> Option<u16>
    ensures { result ≡ chain_at code.now address }
{
    match decode(code, address) {
        Some((Op::Chain(index), _)) => Some(index),
        _ => None,
    }
}

/// The line of the step that has this slot first, of the chain with this index.
fn found_step<'p, 'a>(steps: &'p [StepLine<'a>], chain: u16, slot: u32) -> Option<&'p StepLine<'a>>
    ensures { option_map (λ s. s.now) result ≡ found_step chain slot steps.now }
{
    for step in steps {
        if step.is_step(chain, slot) {
            return Some(step);
        }
    }
    None
}

/// The line of the step that the slot names where the code has a chain at the address.
pub fn step_named<'p, 'a>(
    code: &Blob,
    steps: &'p [StepLine<'a>],
    address: usize,
    slot: u32,
) -> Option<&'p StepLine<'a>>
    ensures { option_map (λ s. s.now) result ≡
        step_named (chain_at code.now address) slot steps.now }
{
    match chain_at(code, address) {
        None => None,
        Some(chain) => found_step(steps, chain, slot),
    }
}
