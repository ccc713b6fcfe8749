//! The arguments of a pointer's call: the values of the pointer, and then the others.

ghost use Rattle.std.specs.Prelude.{◌≡◌, ◌++◌, IfErr, IfOk};

use grain_value::{Array, OutOfMemory};
use std::alloc::Global;

// A pointer's values, followed by others. If memory runs out, it gives the others back.
#[inline(always)]
pub(crate) fn with_curried(alloc: Global, curry: &Array, others: Array) -> Result<Array, Array>
    ensures all { IfOk result (λ all. all ≡ curry.now ++ others) }
    ensures back { IfErr result (λ back. back ≡ others) }
{
    if curry.is_empty() {
        return Ok(others);
    }
    match copies_of(alloc, curry, &others) {
        Ok(all) => Ok(all),
        Err(OutOfMemory) => Err(others),
    }
}

// Copies of a pointer's values, followed by copies of others.
#[inline(never)]
fn copies_of(alloc: Global, curry: &Array, others: &Array) -> Result<Array, OutOfMemory>
    ensures { IfOk result (λ all. all ≡ curry.now ++ others.now) }
{
    let mut all = Array::new(alloc);
    'curried: for index in 0..curry.len() {
        all.push(curry.at(index).copy(alloc)?)?;
    }
    'others: for index in 0..others.len() {
        all.push(others.at(index).copy(alloc)?)?;
    }
    Ok(all)
}
