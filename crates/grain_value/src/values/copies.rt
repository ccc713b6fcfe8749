//! Copies of values.

ghost use Rattle.std.specs.Prelude.{◌≡◌, IfOk};

use super::{Array, Dynamic, FnPtr, MOST_LEVELS, Map};
use crate::memory::OutOfMemory;
use std::alloc::Global;
use std::collections::BTreeMap;

impl Dynamic {
    /// An equal value. Where the value nests deeper than `MOST_LEVELS`, there is no memory for it.
    #[cycle(copy)]
    pub fn copy(&self, alloc: Global) -> Result<Dynamic, OutOfMemory>
        ensures { IfOk result (λ value. value ≡ self.now) }
    {
        match self {
            Dynamic::Unit => Ok(Dynamic::Unit),
            Dynamic::Bool(truth) => Ok(Dynamic::Bool(*truth)),
            Dynamic::Int(integer) => Ok(Dynamic::Int(*integer)),
            Dynamic::Char(character) => Ok(Dynamic::Char(*character)),
            Dynamic::Text(text) => Ok(Dynamic::Text(text.copy(alloc)?)),
            Dynamic::Array(array) => Ok(Dynamic::Array(array.copy(alloc)?)),
            Dynamic::Blob(blob) => Ok(Dynamic::Blob(blob.copy(alloc)?)),
            Dynamic::Map(map) => Ok(Dynamic::Map(map.copy(alloc)?)),
            Dynamic::Pointer(pointer) => Ok(Dynamic::Pointer(pointer.copy(alloc)?)),
            Dynamic::Range {
                from,
                to,
                inclusive,
            } => Ok(Dynamic::Range {
                from: *from,
                to: *to,
                inclusive: *inclusive,
            }),
            Dynamic::Foreign { kind, number } => Ok(Dynamic::Foreign {
                kind: *kind,
                number: *number,
            }),
            Dynamic::Cell(number) => Ok(Dynamic::Cell(*number)),
        }
    }
}

impl FnPtr {
    /// An equal pointer.
    #[cycle(copy)]
    pub fn copy(&self, alloc: Global) -> Result<FnPtr, OutOfMemory>
        ensures { IfOk result (λ pointer. pointer ≡ self.now) }
    {
        let name = self.name.copy(alloc)?;
        let curry = self.curry.copy(alloc)?;
        Ok(FnPtr { name, curry })
    }
}

impl Array {
    /// An equal list.
    #[inline]
    #[cycle(copy)]
    pub fn copy(&self, alloc: Global) -> Result<Array, OutOfMemory>
        ensures { IfOk result (λ array. array ≡ self.now) }
    {
        if self.values.is_empty() {
            return Ok(Array::new(alloc));
        }
        self.copy_values(alloc)
    }

    // An equal list, of one that has values.
    #[inline(never)]
    #[cycle(copy)]
    fn copy_values(&self, alloc: Global) -> Result<Array, OutOfMemory>
        ensures { IfOk result (λ array. array ≡ self.now) }
    {
        if self.levels > MOST_LEVELS {
            return Err(OutOfMemory);
        }
        let mut values = Vec::with_capacity(alloc, self.values.len())?;
        for value in &self.values {
            let value = value.copy(alloc)?;
            values.push(value)?;
        }
        let levels = self.levels;
        Ok(Array { values, levels })
    }
}

impl Map {
    /// An equal map.
    #[cycle(copy)]
    pub fn copy(&self, alloc: Global) -> Result<Map, OutOfMemory>
        ensures { IfOk result (λ map. map ≡ self.now) }
    {
        if self.levels > MOST_LEVELS {
            return Err(OutOfMemory);
        }
        let mut pairs = BTreeMap::new(alloc);
        for (key, value) in self.pairs.iter() {
            let name = key.clone()?;
            let value = value.copy(alloc)?;
            drop(pairs.insert(name, value)?);
        }
        let levels = self.levels;
        Ok(Map {
            alloc,
            pairs,
            levels,
        })
    }
}
