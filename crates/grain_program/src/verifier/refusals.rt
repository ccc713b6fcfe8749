//! Why parts are no program.

ghost use Rattle.std.specs.Prelude.{◌≡◌};
ghost use Rattle.grain_program.specs.declared.verifier.refusals.Refusal.TheVariants.{Memory};
ghost use Rattle.grain_program.specs.Refusals.{refusal_name};
ghost use Rattle.grain_program.specs.Rules.{address_of, rule_of, precedes, earlier};

use grain_value::OutOfMemory;
use std::alloc::{AllocError, AllocFailed};

/// Why parts are no program: the first rule that fails, and the address where it fails, or the index of
/// the chain that breaks a rule of chains.
#[derive(Clone, Copy, Debug, PartialEq, Eq)]
pub enum Refusal {
    /// No instruction begins there, an instruction passes its chunk's end, or the chunks do not
    /// tile the code.
    Undecodable(usize),
    /// An index of the instruction there, or of a record that it uses, names no entry of its pool,
    /// or a function that is entered there has a name, a parameter's name or a type's name that is no
    /// entry of the names.
    PoolIndex(usize),
    /// A target of the instruction there, or of its switch, is no instruction of the same chunk.
    JumpTarget(usize),
    /// The instruction there is its chunk's last and goes on past it, or an empty chunk lies
    /// there.
    FallsOff(usize),
    /// Two ways to the instruction there come with different numbers of operands or of cursors.
    HeightDisagrees(usize),
    /// There are more operands after the instruction there than the chunk may have.
    TooDeep(usize),
    /// There are fewer operands than the instruction there takes, or no cursor for it, or no handler
    /// that it could take away.
    Underflow(usize),
    /// Two ways to the instruction there come with different handlers.
    HandlerDisagrees(usize),
    /// The instruction there takes operands or a cursor that were there where the innermost handler was
    /// pushed.
    UnderTry(usize),
    /// The chain of this index has no step, or assigns to a temporary value, or one of its steps uses
    /// an operand that it does not have, or it and the chains before it have more than 2^32 - 1 slots
    /// together.
    BadChain(usize),
    /// The instruction there needs a capability that the program does not have.
    Capability(usize),
    /// There was no memory for the verification.
    Memory,
}

impl Refusal {
    /// The address where the rule fails, or the index of the chain, or 0 for want of memory.
    pub fn address(self) -> usize
        ensures { result ≡ address_of self }
    {
        match self {
            Refusal::Undecodable(address) => address,
            Refusal::PoolIndex(address) => address,
            Refusal::JumpTarget(address) => address,
            Refusal::FallsOff(address) => address,
            Refusal::HeightDisagrees(address) => address,
            Refusal::TooDeep(address) => address,
            Refusal::Underflow(address) => address,
            Refusal::HandlerDisagrees(address) => address,
            Refusal::UnderTry(address) => address,
            Refusal::BadChain(index) => index,
            Refusal::Capability(address) => address,
            Refusal::Memory => 0,
        }
    }

    /// The name of its variant.
    pub fn name(self) -> &'static str
        ensures { result.now ≡ refusal_name self }
    {
        match self {
            Refusal::Undecodable(_) => "Undecodable",
            Refusal::PoolIndex(_) => "PoolIndex",
            Refusal::JumpTarget(_) => "JumpTarget",
            Refusal::FallsOff(_) => "FallsOff",
            Refusal::HeightDisagrees(_) => "HeightDisagrees",
            Refusal::TooDeep(_) => "TooDeep",
            Refusal::Underflow(_) => "Underflow",
            Refusal::HandlerDisagrees(_) => "HandlerDisagrees",
            Refusal::UnderTry(_) => "UnderTry",
            Refusal::BadChain(_) => "BadChain",
            Refusal::Capability(_) => "Capability",
            Refusal::Memory => "Memory",
        }
    }

    /// The place of the rule among those that are tested at one address.
    fn rule(self) -> u8
        ensures { result ≡ rule_of self }
    {
        match self {
            Refusal::Undecodable(_) => 1,
            Refusal::PoolIndex(_) => 2,
            Refusal::JumpTarget(_) => 3,
            Refusal::FallsOff(_) => 4,
            Refusal::HeightDisagrees(_) => 5,
            Refusal::TooDeep(_) => 6,
            Refusal::Underflow(_) => 7,
            Refusal::HandlerDisagrees(_) => 8,
            Refusal::UnderTry(_) => 9,
            Refusal::BadChain(_) => 10,
            Refusal::Capability(_) => 12,
            Refusal::Memory => 13,
        }
    }

    /// Whether this comes first: at a lower address, or at the same one by a lower rule or the
    /// same.
    fn precedes(self, other: Refusal) -> bool
        ensures { result ≡ precedes self other }
    {
        let (here, there) = (self.address(), other.address());
        here < there || here == there && self.rule() <= other.rule()
    }
}

/// The one of two that comes first, if any.
pub fn earlier(one: Option<Refusal>, other: Option<Refusal>) -> Option<Refusal>
    ensures { result ≡ earlier one other }
{
    let Some(first) = one else {
        return other;
    };
    match other {
        Some(second) => {
            if first.precedes(second) {
                Some(first)
            } else {
                Some(second)
            }
        }
        None => Some(first),
    }
}

impl From<AllocError> for Refusal {
    ghost from_gives = { λ _ e. e ≡ Memory };

    fn from(_: AllocError) -> Refusal {
        Refusal::Memory
    }
}

impl<T: Drop> From<AllocFailed<T>> for Refusal {
    ghost from_gives = { λ _ e. e ≡ Memory };

    fn from(_: AllocFailed<T>) -> Refusal {
        Refusal::Memory
    }
}
