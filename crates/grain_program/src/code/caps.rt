//! What a program may do.

ghost use Rattle.std.specs.Prelude.{⊤, ◌≡◌, [], ◌∷◌, codes};
ghost use Rattle.grain_program.specs.Bits.{bits_of};

use bitflags::{Flag, Flags, bitflag_items};

/// Capabilities, as a set of bits. An instruction that needs one can stand only in a program that
/// has it.
#[derive(Clone, Copy, Debug, PartialEq, Eq)]
pub struct Caps(u8);

bitflag_items! {
    impl Caps: u8 {
        const FUNCTION = 1;
        const MODULE = 2;
        const CLOSURE = 4;
        const CUSTOM = 8;
        const FRAGMENT = 16;
    }
}

impl Flags for Caps {
    type Bits = u8;

    ghost exact = { ⊤ };

    ghost table = { (codes "FUNCTION", 1) ∷ (codes "MODULE", 2) ∷ (codes "CLOSURE", 4)
        ∷ (codes "CUSTOM", 8) ∷ (codes "FRAGMENT", 16) ∷ [] };

    ghost set_of = { bits_of };

    fn flags<'a>() -> &'a [Flag<Caps>] {
        Caps::FLAGS
    }

    fn bits(&self) -> u8 {
        self.0
    }

    fn from_bits_retain(bits: u8) -> Caps {
        Caps(bits)
    }
}

impl Caps {
    /// Every capability.
    pub fn all() -> Caps
        ensures { bits_of result ≡ 31 }
    {
        <Caps as Flags>::all()
    }
}
