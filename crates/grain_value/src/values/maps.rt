//! Maps of script values.

ghost use Rattle.std.specs.declared.alloc.Global.{Global};
ghost use Rattle.std.specs.Prelude.{◌≡◌, ◌==◌, ◌<◌, ◌^◌, [], length, is_ok, IfOk, if◌then◌else◌, option_map};
ghost use Rattle.grain_value.specs.View.{tree};
ghost use Rattle.grain_value.specs.Maps.{entry_at, put_entry, IsAscending};

use super::{Dynamic, MOST_LEVELS, Map};
use crate::memory::OutOfMemory;
use crate::texts::Text;
use std::alloc::Global;
use std::collections::BTreeMap;

impl Map {
    /// No keys. It takes no memory.
    pub fn new(alloc: Global) -> Map
        ensures { result ≡ [] }
    {
        Map {
            alloc,
            pairs: BTreeMap::new(alloc),
            levels: 1,
        }
    }

    /// The allocator of the map. There is only one, the global one.
    pub fn allocator(&self) -> Global
        ensures { (alloc : Global) → result ≡ alloc }
    {
        self.alloc
    }

    /// How many keys there are.
    pub fn len(&self) -> usize
        ensures value { result ≡ length self.now }
        ensures small { result < 2 ^ 63 }
        ensures ascending { IsAscending self.now }
    {
        self.pairs.len()
    }

    /// Whether there are no keys.
    pub fn is_empty(&self) -> bool
        ensures { result ≡ (length self.now == 0) }
    {
        self.pairs.len() == 0
    }

    /// The value at the key, if there is one.
    pub fn get(&self, key: &str) -> Option<&Dynamic>
        ensures { option_map (λ d. tree d.now) result ≡ entry_at key.now self.now }
    {
        self.pairs.get(key)
    }

    /// Puts a value at the key, and gives the value that stood there. After want of memory, and
    /// where the value nests too deep (`MOST_LEVELS`), the map is as it was.
    pub fn insert(&mut self, key: Text, value: Dynamic) -> Result<Option<Dynamic>, OutOfMemory>
        ensures entries { self.new
            ≡ (if is_ok result then put_entry key (tree value) self.old else self.old) }
        ensures old { IfOk result (λ d. option_map tree d ≡ entry_at key self.old) }
    {
        let levels = value.levels().saturating_add(1).max(self.levels);
        if levels > MOST_LEVELS {
            return Err(OutOfMemory);
        }
        let name = key.into_string()?;
        let old = self.pairs.insert(name, value)?;
        self.levels = levels;
        Ok(old)
    }
}
