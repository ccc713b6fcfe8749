//! What a listing says.

use grain_host::TableHost;
use grain_program::Parts;
use grain_value::{Limits, Scope};

/// What a listing says.
#[derive(Drop)]
pub struct Listing {
    /// What may become a program.
    pub parts: Parts,
    /// How much its run may take.
    pub limits: Limits,
    /// Whether an operator goes to its built-in before any other function.
    pub fast_operators: bool,
    /// Whether a property that is not there is a fault.
    pub strict_properties: bool,
    /// The host with which the run begins: its `fail` and `stop` lines are in its tables.
    pub host: TableHost,
    /// The scope in which the run begins.
    pub scope: Scope,
}
