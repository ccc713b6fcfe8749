//! The classes of faults.

ghost use Rattle.std.specs.Prelude.{◌≡◌, IsTrue};
ghost use Rattle.grain_fault.specs.Problems.{problem_of};
ghost use Rattle.grain_fault.specs.Classes.{pseudo_error, catchable, system_exception, exactly_one};

use crate::faults::EvalAltResult;

impl EvalAltResult {
    /// Whether this is no fault, but how control leaves a loop, a function or the script.
    pub fn is_pseudo_error(&self) -> bool
        ensures { result ≡ pseudo_error (problem_of self.now) }
    {
        matches!(
            self,
            EvalAltResult::LoopBreak(..) | EvalAltResult::Return(..) | EvalAltResult::Exit(..)
        )
    }

    /// Whether a script may catch the fault.
    pub fn is_catchable(&self) -> bool
        ensures { result ≡ catchable (problem_of self.now) }
    {
        match self {
            EvalAltResult::ErrorVariableExists(..)
            | EvalAltResult::ErrorForbiddenVariable(..)
            | EvalAltResult::ErrorVariableNotFound(..)
            | EvalAltResult::ErrorPropertyNotFound(..)
            | EvalAltResult::ErrorIndexNotFound(..)
            | EvalAltResult::ErrorFunctionNotFound(..)
            | EvalAltResult::ErrorModuleNotFound(..)
            | EvalAltResult::ErrorInFunctionCall(..)
            | EvalAltResult::ErrorInModule(..)
            | EvalAltResult::ErrorUnboundThis(..)
            | EvalAltResult::ErrorMismatchDataType(..)
            | EvalAltResult::ErrorMismatchOutputType(..)
            | EvalAltResult::ErrorIndexingType(..)
            | EvalAltResult::ErrorArrayBounds(..)
            | EvalAltResult::ErrorStringBounds(..)
            | EvalAltResult::ErrorBitFieldBounds(..)
            | EvalAltResult::ErrorFor(..)
            | EvalAltResult::ErrorDataRace(..)
            | EvalAltResult::ErrorNonPureMethodCallOnConstant(..)
            | EvalAltResult::ErrorAssignmentToConstant(..)
            | EvalAltResult::ErrorDotExpr(..)
            | EvalAltResult::ErrorArithmetic(..)
            | EvalAltResult::ErrorRuntime(..) => true,
            EvalAltResult::LoopBreak(..)
            | EvalAltResult::Return(..)
            | EvalAltResult::Exit(..)
            | EvalAltResult::ErrorSystem(..)
            | EvalAltResult::ErrorParsing(..)
            | EvalAltResult::ErrorTooManyOperations(..)
            | EvalAltResult::ErrorTooManyVariables(..)
            | EvalAltResult::ErrorTooManyModules(..)
            | EvalAltResult::ErrorStackOverflow(..)
            | EvalAltResult::ErrorDataTooLarge(..)
            | EvalAltResult::ErrorTerminated(..)
            | EvalAltResult::ErrorCustomSyntax(..)
            | EvalAltResult::Malformed(..)
            | EvalAltResult::Memory => false,
        }
    }

    /// Whether the fault ends the run, whatever the script does: each that is neither of the other
    /// two, so that a fault is of one class exactly.
    pub fn is_system_exception(&self) -> bool
        ensures value { result ≡ system_exception (problem_of self.now) }
        ensures exactly_one { let f = problem_of self.now in
            IsTrue (exactly_one (pseudo_error f) (catchable f) (system_exception f)) }
    {
        !self.is_pseudo_error() && !self.is_catchable()
    }
}
