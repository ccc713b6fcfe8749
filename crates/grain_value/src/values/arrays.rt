//! Lists of script values.

ghost use Rattle.std.specs.Prelude.{◌≡◌, ◌==◌, ◌<◌, ◌^◌, ◌++◌, ◌∷◌, [], length, Some, is_ok, if◌then◌else◌, option_map, slice_get, slice_set};
ghost use Rattle.grain_value.specs.Tree.{unit};
ghost use Rattle.grain_value.specs.View.{tree, trees};

use super::{Array, Dynamic, MOST_LEVELS};
use crate::memory::OutOfMemory;
use std::alloc::Global;

impl Array {
    /// No values. It takes no memory.
    pub fn new(alloc: Global) -> Array
        ensures { result ≡ [] }
    {
        Array {
            values: Vec::new(alloc),
            levels: 1,
        }
    }

    /// How many values there are.
    pub fn len(&self) -> usize
        ensures value { result ≡ length self.now }
        ensures small { result < 2 ^ 63 }
    {
        self.values.len()
    }

    /// Whether there are no values.
    pub fn is_empty(&self) -> bool
        ensures { result ≡ (length self.now == 0) }
    {
        self.values.is_empty()
    }

    /// The value at the index, if there is one.
    pub fn get(&self, index: usize) -> Option<&Dynamic>
        ensures { option_map (λ d. tree d.now) result ≡ slice_get self.now index }
    {
        self.values.get(index)
    }

    /// The value at an index of the list.
    pub fn at(&self, index: usize) -> &Dynamic
        requires { index < length self.now }
        ensures { slice_get self.now index ≡ Some (tree result.now) }
    {
        &self.values[index]
    }

    /// Takes the value at an index of the list, and leaves unit there.
    pub fn take(&mut self, index: usize) -> Dynamic
        requires { index < length self.old }
        ensures value { slice_get self.old index ≡ Some (tree result) }
        ensures rest { self.new ≡ slice_set self.old index unit }
    {
        self.values[index].take()
    }

    /// The values, moved out of the list.
    pub fn into_vec(self) -> Vec<Dynamic>
        ensures { trees result.items ≡ self }
    {
        self.values
    }

    /// Takes all values away. The memory stays.
    pub fn clear(&mut self)
        ensures { self.new ≡ [] }
    {
        self.values.clear();
        self.levels = 1;
    }

    /// Puts a value at the end. After want of memory, and where the value nests too deep
    /// (`MOST_LEVELS`), the list is as it was.
    pub fn push(&mut self, value: Dynamic) -> Result<(), OutOfMemory>
        ensures { self.new ≡ (if is_ok result then self.old ++ tree value ∷ [] else self.old) }
    {
        let levels = value.levels().saturating_add(1).max(self.levels);
        if levels > MOST_LEVELS {
            return Err(OutOfMemory);
        }
        self.values.push(value)?;
        self.levels = levels;
        Ok(())
    }
}
