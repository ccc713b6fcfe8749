//! The operands in an instruction's bytes.

ghost use Rattle.std.specs.Prelude.{◌≡◌, [], ◌∷◌};
ghost use Rattle.grain_program.specs.Fields.{present, chain_in};

use std::marker::Model;

/// An operand in an instruction's bytes. Its kind says how many bytes it has, and what its number
/// has to name.
#[derive(Clone, Copy, Debug, PartialEq, Eq)]
pub enum Field {
    /// The index of a constant, in two bytes.
    Constant(u16),
    /// The index of a name, in two bytes.
    Name(u16),
    /// The index of an op-assignment, in two bytes.
    Assignment(u16),
    /// The index of a chain, in two bytes. The instruction takes the operands that its chain takes.
    Chain(u16),
    /// The index of a switch, in two bytes. The instruction leads to the targets of its switch.
    Switch(u16),
    /// The index of an operator token, in two bytes.
    Token(u16),
    /// A scope entry, counted from the frame's base, in two bytes.
    Slot(u16),
    /// The address of an instruction of the same chunk, in four bytes.
    Target(u32),
    /// A number of operands, in one byte.
    Count(u8),
    /// A plain number, in two bytes.
    Number(u16),
}

/// The operands in an instruction's bytes, in their order: three at most.
#[derive(Drop)]
pub struct Fields {
    places: [Option<Field>; 3],
}

impl Model for Fields {
    ghost use Rattle.std.specs.Prelude.{List};
    ghost use Rattle.grain_program.specs.declared.code.fields.Field.{Field};
    ghost use Rattle.grain_program.specs.Fields.{present};

    ghost Value = { List Field };

    ghost view = { λ f. present f.places };
}

impl Fields {
    /// No operand.
    #[inline(always)]
    pub fn none() -> Fields
        ensures { result ≡ [] }
    {
        Fields {
            places: [None, None, None],
        }
    }

    /// One operand.
    #[inline(always)]
    pub fn one(first: Field) -> Fields
        ensures { result ≡ first ∷ [] }
    {
        Fields {
            places: [Some(first), None, None],
        }
    }

    /// Two operands.
    #[inline(always)]
    pub fn two(first: Field, second: Field) -> Fields
        ensures { result ≡ first ∷ second ∷ [] }
    {
        Fields {
            places: [Some(first), Some(second), None],
        }
    }

    /// Three operands.
    #[inline(always)]
    pub fn three(first: Field, second: Field, third: Field) -> Fields
        ensures { result ≡ first ∷ second ∷ third ∷ [] }
    {
        Fields {
            places: [Some(first), Some(second), Some(third)],
        }
    }

    /// The places for operands, of which the first ones have one each.
    #[inline(always)]
    pub fn as_slice(&self) -> &[Option<Field>]
        ensures { present result.now ≡ self.now }
    {
        &self.places
    }
}

/// The index of the first chain among the operands, if there is one.
pub(crate) fn chain_in(places: &[Option<Field>]) -> Option<u16>
    ensures { result ≡ chain_in (present places.now) }
{
    for place in places {
        if let Some(Field::Chain(index)) = place {
            return Some(*index);
        }
    }
    None
}
