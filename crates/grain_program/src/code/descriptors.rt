//! Rows of the instruction set.

ghost use Rattle.std.specs.Prelude.{◌≡◌};
ghost use Rattle.grain_program.specs.declared.code.effects.Looping.TheVariants as looping;
ghost use Rattle.grain_program.specs.declared.code.effects.Handling.TheVariants as handling;

use crate::code::caps::Caps;
use crate::code::effects::{Flow, Handling, Looping};
use crate::code::fields::Fields;
use bitflags::Flags;

/// What an instruction is: its bytes, what it does to the operands on the stack, to the cursors and to
/// the handlers, where it goes, and what it needs.
#[derive(Drop)]
pub struct Descriptor {
    /// Its first byte.
    pub tag: u8,
    /// What its other bytes say.
    pub fields: Fields,
    /// How many operands it takes, but for those of its chain, and how many it then gives.
    pub takes: u32,
    pub gives: u32,
    /// Where the machine goes afterwards.
    pub flow: Flow,
    /// What becomes of the cursors.
    pub looping: Looping,
    /// What becomes of the handlers.
    pub handling: Handling,
    /// The capability that a program needs to have it, or none.
    pub capability: Caps,
}

/// An instruction that needs no capability.
#[inline(always)]
pub(crate) fn plain(tag: u8, fields: Fields, takes: u32, gives: u32, flow: Flow) -> Descriptor
    ensures tag { result.tag ≡ tag }
    ensures fields { result.fields ≡ fields }
    ensures takes { result.takes ≡ takes }
    ensures gives { result.gives ≡ gives }
    ensures flow { result.flow ≡ flow }
    ensures looping { result.looping ≡ looping.Keep }
    ensures handling { result.handling ≡ handling.Keep }
    ensures capability { result.capability.0 ≡ 0 }
{
    Descriptor {
        tag,
        fields,
        takes,
        gives,
        flow,
        looping: Looping::Keep,
        handling: Handling::Keep,
        capability: Caps::empty(),
    }
}

/// An instruction that needs this capability, and is else as in this row.
#[inline(always)]
pub(crate) fn needing(capability: Caps, row: Descriptor) -> Descriptor
    ensures tag { result.tag ≡ row.tag }
    ensures fields { result.fields ≡ row.fields }
    ensures takes { result.takes ≡ row.takes }
    ensures gives { result.gives ≡ row.gives }
    ensures flow { result.flow ≡ row.flow }
    ensures looping { result.looping ≡ row.looping }
    ensures handling { result.handling ≡ row.handling }
    ensures capability { result.capability ≡ capability }
{
    Descriptor { capability, ..row }
}

/// An instruction that does this to the cursors, and is else as in this row.
#[inline(always)]
pub(crate) fn looping(looping: Looping, row: Descriptor) -> Descriptor
    ensures tag { result.tag ≡ row.tag }
    ensures fields { result.fields ≡ row.fields }
    ensures takes { result.takes ≡ row.takes }
    ensures gives { result.gives ≡ row.gives }
    ensures flow { result.flow ≡ row.flow }
    ensures looping { result.looping ≡ looping }
    ensures handling { result.handling ≡ row.handling }
    ensures capability { result.capability ≡ row.capability }
{
    Descriptor { looping, ..row }
}

/// An instruction on handlers, which needs no capability, and takes and gives no operand.
#[inline(always)]
pub(crate) fn on_handlers(tag: u8, fields: Fields, flow: Flow, handling: Handling) -> Descriptor
    ensures tag { result.tag ≡ tag }
    ensures fields { result.fields ≡ fields }
    ensures takes { result.takes ≡ 0 }
    ensures gives { result.gives ≡ 0 }
    ensures flow { result.flow ≡ flow }
    ensures looping { result.looping ≡ looping.Keep }
    ensures handling { result.handling ≡ handling }
    ensures capability { result.capability.0 ≡ 0 }
{
    Descriptor {
        tag,
        fields,
        takes: 0,
        gives: 0,
        flow,
        looping: Looping::Keep,
        handling,
        capability: Caps::empty(),
    }
}
