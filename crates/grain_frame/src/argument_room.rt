//! Room for the arguments of natives that are called on the last operands, which is used again.

ghost use Rattle.std.specs.Prelude.{◌≡◌, []};

use grain_value::Array;
use std::alloc::Global;
use std::marker::Model;
use std::mem;

/// A list that has no values, whose memory the arguments of the next native that is called on the last
/// operands take over. Clauses see nothing of it.
#[derive(Drop)]
pub struct ArgumentRoom {
    values: Array,
}

impl Model for ArgumentRoom {
    ghost use Rattle.std.specs.Prelude.{◌≡◌, []};

    ghost Value = { Unit {0} };

    ghost view = { λ _. tt };

    // the list has no values
    ghost invariant = { λ r. r.values ≡ [] };
}

impl ArgumentRoom {
    /// No room. It takes no memory.
    pub fn new(alloc: Global) -> ArgumentRoom {
        ArgumentRoom {
            values: Array::new(alloc),
        }
    }

    /// A list that has no values, with the memory that is left of earlier ones.
    pub fn take(&mut self, alloc: Global) -> Array
        ensures { result ≡ [] }
    {
        mem::replace(&mut self.values, Array::new(alloc))
    }

    /// Drops the values of a list, and keeps its memory.
    pub fn put(&mut self, values: Array) {
        let mut values = values;
        values.clear();
        self.values = values;
    }
}
