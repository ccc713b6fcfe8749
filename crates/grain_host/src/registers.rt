//! The registers of the host in memory.

ghost use Rattle.std.specs.Prelude.{◌≡◌, Some, slice_get, slice_set};
ghost use Rattle.grain_host.specs.Registers.{cleared};

use std::marker::Model;

/// 256 integers, numbered from 0.
#[derive(Drop)]
pub struct Registers {
    values: [i64; 256],
}

impl Model for Registers {
    ghost use Rattle.std.specs.Prelude.{◌≡◌, List, ℤ, length};

    ghost Value = { List ℤ };

    ghost view = { λ r. r.values };

    ghost invariant = { λ r. length r.values ≡ 256 };
}

impl Registers {
    /// Registers that hold 0. They take no memory.
    pub fn new() -> Registers
        ensures { result ≡ cleared }
    {
        Registers { values: [0; 256] }
    }

    /// What the register of this number holds.
    pub fn get(&self, number: u8) -> i64
        ensures { slice_get self.now number ≡ Some result }
    {
        self.values[usize::from(number)]
    }

    /// Puts an integer into the register of this number.
    pub fn set(&mut self, number: u8, value: i64)
        ensures { self.new ≡ slice_set self.old number value }
    {
        self.values[usize::from(number)] = value;
    }
}
