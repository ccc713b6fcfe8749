//! What outlives a run.

ghost use Rattle.std.specs.Prelude.{◌≡◌};

/// What outlives a run.
#[derive(Debug, Drop, PartialEq, Eq)]
pub struct GlobalRuntimeState {
    /// How many operations were charged.
    pub num_operations: u64,
    /// How many compiled calls stand within one another.
    pub level: usize,
}

impl GlobalRuntimeState {
    /// How many operations were charged.
    pub fn num_operations(&self) -> u64
        ensures { result ≡ self.now.num_operations }
    {
        self.num_operations
    }
}
