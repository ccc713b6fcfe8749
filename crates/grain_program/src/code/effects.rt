//! What an instruction does to the operands, the cursors and the handlers, and where it leads.

ghost use Rattle.std.specs.Prelude.{◌≡◌};
ghost use Rattle.grain_program.specs.View.{view_of, chain_of};
ghost use Rattle.grain_program.specs.Chains.{chain_takes};
ghost use Rattle.grain_program.specs.Effects.{effect_of, cursors_taken, cursors_given};

use crate::code::fields::chain_in;
use crate::code::instruction_set::Op;
use crate::code::parts::Parts;

/// Where the machine goes after an instruction.
#[derive(Clone, Copy, Debug, PartialEq, Eq)]
pub enum Flow {
    /// To the next instruction.
    Next,
    /// To the target.
    Jump(u32),
    /// To the target or to the next instruction.
    Branch(u32),
    /// To a target of the switch at this index.
    Switch(u16),
    /// Out of the chunk.
    End,
}

/// What an instruction does to the cursors of its frame.
#[derive(Clone, Copy, Debug, PartialEq, Eq)]
pub enum Looping {
    /// Nothing.
    Keep,
    /// One more begins.
    Begin,
    /// The innermost goes.
    Leave,
    /// The innermost goes on. Where the machine goes to the instruction's target, it goes instead, and
    /// no operand is given.
    Advance,
}

impl Looping {
    /// How many cursors there have to be for it.
    pub fn takes(self) -> u32
        ensures { result ≡ cursors_taken self }
    {
        match self {
            Looping::Keep | Looping::Begin => 0,
            Looping::Leave | Looping::Advance => 1,
        }
    }

    /// How many cursors there are again afterwards, or anew.
    pub fn gives(self) -> u32
        ensures { result ≡ cursors_given self }
    {
        match self {
            Looping::Keep | Looping::Leave => 0,
            Looping::Begin | Looping::Advance => 1,
        }
    }
}

/// What an instruction does to the handlers of its frame.
#[derive(Clone, Copy, Debug, PartialEq, Eq)]
pub enum Handling {
    /// Nothing.
    Keep,
    /// One more, which leads to this address. The name of this index is that of its variable, if it
    /// has one.
    Push(u32, Option<u16>),
    /// The innermost goes.
    Pop,
}

/// How many operands an instruction takes and then gives, where the machine goes, and what becomes
/// of the cursors and of the handlers.
#[derive(Clone, Copy, Debug, PartialEq, Eq)]
pub struct Effect {
    pub takes: u64,
    pub gives: u32,
    pub flow: Flow,
    pub looping: Looping,
    pub handling: Handling,
}

/// How many operands the chain at the index takes: none if there is no such chain.
fn chain_takes(parts: &Parts, index: u16) -> u64
    ensures { result ≡ chain_takes (chain_of (view_of parts.now) index) }
{
    match parts.chains.get(index as usize) {
        Some(chain) => chain.takes(),
        None => 0,
    }
}

impl Effect {
    /// The effect of the instruction in a program of these parts.
    #[inline]
    pub fn of(parts: &Parts, op: Op) -> Effect
        ensures { result ≡ effect_of (view_of parts.now) op }
    {
        let row = op.descriptor();
        let own = u64::from(row.takes);
        let takes = match chain_in(row.fields.as_slice()) {
            Some(index) => own + chain_takes(parts, index),
            None => own,
        };
        Effect {
            takes,
            gives: row.gives,
            flow: row.flow,
            looping: row.looping,
            handling: row.handling,
        }
    }
}
