//! What stays the same in a run: limits and flags.

ghost use Rattle.std.specs.Prelude.{◌≡◌, ◌<◌, true, false, IfOk};
ghost use Rattle.grain_value.specs.Sizes.{counted, data_sizes, too_large};
ghost use Rattle.grain_global.specs.Engines.{with_callbacks, IsWithin};

use crate::states::GlobalRuntimeState;
use grain_fault::{EvalAltResult, Position, RhaiResultOf};
use grain_value::{Dynamic, Limits, OutOfMemory, Store, Text, calc_data_sizes};
use std::alloc::Global;

/// The limits and flags of a run.
#[derive(Drop)]
pub struct Engine {
    /// How much a run may take.
    pub limits: Limits,
    /// Whether an operator goes to its built-in before any other function.
    pub fast_operators: bool,
    /// Whether a chain fails that comes to a key that a map does not have, but for the last step of an
    /// assignment. Without this such a key has unit.
    pub strict_properties: bool,
    callbacks: bool,
}

impl Engine {
    /// An engine with these limits, under which operators are fast, properties are not strict, and natives
    /// may call functions of the program back. At least one operation is allowed.
    pub fn new(alloc: Global, limits: Limits) -> Engine
        requires { 0 < limits.operations }
        ensures limits { result.limits ≡ limits }
        ensures operators { result.fast_operators ≡ true }
        ensures properties { result.strict_properties ≡ false }
        ensures callbacks { result.callbacks ≡ true }
    {
        let _alloc = alloc;
        Engine {
            limits,
            fast_operators: true,
            strict_properties: false,
            callbacks: true,
        }
    }

    /// The same limits and flags, where natives may call functions of the program back or not.
    pub fn with_callbacks(&self, callbacks: bool) -> Engine
        ensures { result ≡ with_callbacks callbacks self.now }
    {
        Engine {
            limits: self.limits,
            fast_operators: self.fast_operators,
            strict_properties: self.strict_properties,
            callbacks,
        }
    }

    /// Whether natives may call functions of the program back.
    pub fn callbacks(&self) -> bool
        ensures { result ≡ self.now.callbacks }
    {
        self.callbacks
    }

    /// Whether a value keeps to the limits of sizes: `ErrorDataTooLarge` without a position if the
    /// bytes of texts, the elements of arrays or the values of maps in it, which are looked at in this
    /// order, are over their limit. A cell is measured by what it holds.
    pub fn ensure_data_size_within_limits(
        &self,
        alloc: Global,
        value: &Dynamic,
        cells: &Store,
    ) -> RhaiResultOf<()>
        ensures { IsWithin
            (too_large self.now.limits (counted (data_sizes cells.now value.now))) result }
    {
        if !self.limits.limit_sizes() {
            return Ok(());
        }
        let Some(what) = self.limits.too_large(calc_data_sizes(value, cells)) else {
            return Ok(());
        };
        match Text::copy_of(alloc, what) {
            Ok(what) => Err(EvalAltResult::ErrorDataTooLarge(what, Position::NONE)),
            Err(OutOfMemory) => Err(EvalAltResult::Memory),
        }
    }

    /// A state in which nothing was run.
    pub fn new_global_runtime_state(&self, alloc: Global) -> Result<GlobalRuntimeState, OutOfMemory>
        ensures { IfOk result (λ g. (g.num_operations ≡ 0) × (g.level ≡ 0)) }
    {
        let _alloc = alloc;
        Ok(GlobalRuntimeState {
            num_operations: 0,
            level: 0,
        })
    }
}
