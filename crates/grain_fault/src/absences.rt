//! Faults which say that a value has no such property, or no such index, by the host's accessors.

ghost use Rattle.std.specs.Prelude.{◌≡◌};
ghost use Rattle.grain_fault.specs.Problems.{problem_of};
ghost use Rattle.grain_fault.specs.Absences.{is_dot_expr, is_indexing_type};

use crate::faults::EvalAltResult;

impl EvalAltResult {
    /// Whether this is `ErrorDotExpr`: there is no getter, or no setter, of a property. A fault that
    /// left a function is none, whatever it wraps.
    pub fn is_dot_expr(&self) -> bool
        ensures { result ≡ is_dot_expr (problem_of self.now) }
    {
        matches!(self, EvalAltResult::ErrorDotExpr(..))
    }

    /// Whether this is `ErrorIndexingType`: there is no indexer. A fault that left a function is none,
    /// whatever it wraps.
    pub fn is_indexing_type(&self) -> bool
        ensures { result ≡ is_indexing_type (problem_of self.now) }
    {
        matches!(self, EvalAltResult::ErrorIndexingType(..))
    }
}
