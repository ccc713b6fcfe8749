//! Chains: places such as `a.b[i].c`, and what is done there.

ghost use Rattle.std.specs.Prelude.{⊤, ◌≡◌, ◌<◌, ◌≤◌, ◌+◌, ◌^◌, [], ◌∷◌, codes, length, take};
ghost use Rattle.grain_program.specs.Bits.{step_bits};
ghost use Rattle.grain_program.specs.Chains.{root_slots, step_slots, steps_slots, assigns, is_temporary, is_method_step, chain_takes};

use bitflags::{Flag, Flags, bitflag_items};
use grain_fault::Position;
use grain_value::List;

/// What holds of a step, as a set of bits.
#[derive(Clone, Copy, Debug, PartialEq, Eq)]
pub struct StepFlags(u8);

bitflag_items! {
    impl StepFlags: u8 {
        const SKIP_IF_UNIT = 1;
    }
}

impl Flags for StepFlags {
    type Bits = u8;

    ghost exact = { ⊤ };

    ghost table = { (codes "SKIP_IF_UNIT", 1) ∷ [] };

    ghost set_of = { step_bits };

    fn flags<'a>() -> &'a [Flag<StepFlags>] {
        StepFlags::FLAGS
    }

    fn bits(&self) -> u8 {
        self.0
    }

    fn from_bits_retain(bits: u8) -> StepFlags {
        StepFlags(bits)
    }
}

/// Where a chain begins.
#[derive(Clone, Copy, Debug, PartialEq, Eq)]
pub enum Root {
    /// At an entry of the scope. The index is that of its name, by which faults call it.
    Local { name: u32, slot: u16 },
    /// At the value on which the function that runs was called as a method. The position is that of
    /// the script.
    This { pos: Position },
    /// At a value that is taken from the operands.
    Temporary,
}

impl Root {
    /// How many slots of a trace it has.
    pub fn slots(self) -> u32
        ensures exact { result ≡ root_slots self }
        ensures small { result < 2 }
    {
        match self {
            Root::Local { .. } | Root::Temporary => 0,
            Root::This { .. } => 1,
        }
    }

    /// Whether the chain begins at a value that nothing holds.
    pub fn is_temporary(self) -> bool
        ensures { result ≡ is_temporary self }
    {
        match self {
            Root::Local { .. } | Root::This { .. } => false,
            Root::Temporary => true,
        }
    }
}

/// One step of a chain. Where the flags have `SKIP_IF_UNIT`, and unit stands where the step begins,
/// the chain ends there with unit. Positions are those of the script.
#[derive(Clone, Copy, Debug, PartialEq, Eq)]
pub enum Step {
    /// To what an index names: the chain's operand of this number.
    Index {
        operand: u32,
        flags: StepFlags,
        pos: Position,
        bracket: Position,
    },
    /// To a property. The indices are those of its name, and of the names of its getter and setter.
    Property {
        name: u32,
        getter: u32,
        setter: u32,
        flags: StepFlags,
        pos: Position,
    },
    /// To what a method gives that is called on what stands there. The name is given by its index,
    /// and the arguments are `argc` operands of the chain, from the one of the number `operand` on.
    Method {
        name: u32,
        argc: u8,
        operand: u32,
        flags: StepFlags,
        pos: Position,
    },
}

impl Step {
    /// How many slots of a trace it has: one for each of its positions.
    pub fn slots(self) -> u32
        ensures exact { result ≡ step_slots self }
        ensures small { result < 3 }
    {
        match self {
            Step::Index { .. } => 2,
            Step::Property { .. } | Step::Method { .. } => 1,
        }
    }

    /// Whether it runs a method.
    pub fn is_method(self) -> bool
        ensures { result ≡ is_method_step self }
    {
        match self {
            Step::Index { .. } | Step::Property { .. } => false,
            Step::Method { .. } => true,
        }
    }
}

/// What a chain does where its steps end.
#[derive(Clone, Copy, Debug, PartialEq, Eq)]
pub enum Tail {
    /// It gives what stands there.
    Read,
    /// It assigns a value, by the op-assignment of this index if there is one.
    Assign { op: Option<u32> },
}

impl Tail {
    /// Whether the chain assigns a value.
    pub fn assigns(self) -> bool
        ensures { result ≡ assigns self }
    {
        match self {
            Tail::Read => false,
            Tail::Assign { .. } => true,
        }
    }
}

/// The steps of a chain.
pub type Steplist = List<Step>;

/// A place, and what is done there.
#[derive(Drop)]
pub struct Chain {
    /// Where it begins.
    pub root: Root,
    /// Its steps.
    pub steps: Steplist,
    /// What it does where they end.
    pub tail: Tail,
    /// How many operands its steps use.
    pub operands: u32,
}

impl Chain {
    /// How many operands it takes: those of its steps, the value that it assigns, if it assigns one,
    /// and the value at which it begins, if nothing holds that.
    pub fn takes(&self) -> u64
        ensures exact { result ≡ chain_takes self.now }
        ensures small { result < 2 ^ 33 }
    {
        let assigned = if self.tail.assigns() { 1 } else { 0 };
        let begun = if self.root.is_temporary() { 1 } else { 0 };
        u64::from(self.operands) + assigned + begun
    }
}

/// The chains of a program.
pub type Chains = List<Chain>;
