//! Why calls on values give nothing.

ghost use Rattle.std.specs.Prelude.{◌≡◌};

use crate::memory::OutOfMemory;

/// Why a call on a value gave nothing.
#[derive(Clone, Copy, Debug, PartialEq, Eq)]
pub enum ValueFault {
    /// Nothing stands at the index: how many elements, characters, bytes or bits there are, and the
    /// index. An index past `i64::MAX` is reported as that number.
    Bounds { length: usize, index: i64 },
    /// The map does not have the key.
    NoKey,
    /// The value has nothing inside that an index or a key could name.
    NotIndexable,
    /// The index is not of the type that the value asks for.
    WrongType,
    /// The content of the cell is lent.
    Busy,
    /// The text is no name of a function to which a pointer may lead.
    BadName,
    /// There was no memory.
    Memory,
}

impl From<OutOfMemory> for ValueFault {
    ghost use Rattle.grain_value.specs.declared.values.value_faults.ValueFault.TheVariants as fault;

    ghost from_gives = { λ _ e. e ≡ fault.Memory };

    fn from(_: OutOfMemory) -> ValueFault {
        ValueFault::Memory
    }
}
