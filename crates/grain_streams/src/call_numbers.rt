//! The numbers of the calls of a source or a sink in memory that are to fail.

ghost use Rattle.std.specs.Prelude.{◌≡◌, ◌==◌, ◌++◌, ◌∷◌, [], length, is_ok, if◌then◌else◌, slice_get};
ghost use Rattle.std.specs.Option.{option_copied};
ghost use Rattle.std.specs.List.{list_any};

use grain_value::OutOfMemory;
use std::alloc::Global;
use std::marker::Model;

/// Numbers of calls. The first call has the number 1.
#[derive(Drop)]
pub struct CallNumbers {
    numbers: Vec<u64>,
}

impl Model for CallNumbers {
    ghost use Rattle.std.specs.Prelude.{ℕ, List};

    ghost Value = { List ℕ };

    ghost view = { λ n. n.numbers.items };
}

impl CallNumbers {
    /// No numbers. It takes no memory.
    pub fn new(alloc: Global) -> CallNumbers
        ensures { result ≡ [] }
    {
        CallNumbers {
            numbers: Vec::new(alloc),
        }
    }

    /// How many numbers there are.
    pub fn len(&self) -> usize
        ensures { result ≡ length self.now }
    {
        self.numbers.len()
    }

    /// Whether there are no numbers.
    pub fn is_empty(&self) -> bool
        ensures { result ≡ (length self.now == 0) }
    {
        self.numbers.is_empty()
    }

    /// The number at the index, if any.
    pub fn get(&self, index: usize) -> Option<&u64>
        ensures { option_copied result ≡ slice_get self.now index }
    {
        self.numbers.get(index)
    }

    /// Puts a number at the end. If memory is out, the list is as it was.
    pub fn push(&mut self, number: u64) -> Result<(), OutOfMemory>
        ensures { self.new ≡ (if is_ok result then self.old ++ number ∷ [] else self.old) }
    {
        self.numbers.push(number)?;
        Ok(())
    }

    /// Whether the number is in the list.
    pub fn contains(&self, number: u64) -> bool
        ensures { result ≡ list_any (λ n. n == number) self.now }
    {
        self.numbers.contains(&number)
    }
}
