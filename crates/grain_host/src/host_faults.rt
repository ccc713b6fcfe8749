//! The faults that a host may answer.

ghost use Rattle.std.specs.Prelude.{◌≡◌, Ok, Err, false, if◌then◌else◌};
ghost use Rattle.grain_fault.specs.Problems.{problem_of};
ghost use Rattle.grain_host.specs.Faults.{handed_back};

use grain_fault::EvalAltResult;
use std::marker::Model;

/// A fault that a host may answer. It is none of those by which the machine itself ends a run.
/// Clauses see the fault.
#[derive(Drop)]
pub struct HostFault {
    fault: EvalAltResult,
}

impl Model for HostFault {
    ghost use Rattle.std.specs.Coded.{codes};
    ghost use Rattle.std.specs.Prelude.{◌≡◌, false};
    ghost use Rattle.grain_fault.specs.Problems.{problem_of};
    ghost use Rattle.grain_fault.specs.contracts.faults.EvalAltResult as row;
    ghost use Rattle.grain_fault.specs.declared.faults.EvalAltResult.{EvalAltResult};
    ghost use Rattle.grain_host.specs.Faults.{handed_back};

    ghost Value = { EvalAltResult };

    ghost coded = { Prim.hlevel (codes, row.the_row.coded) };

    ghost view = { λ h. h.fault };

    ghost invariant = { λ h. handed_back (problem_of h.fault) ≡ false };
}

impl HostFault {
    /// The fault, if a host may answer it. Handed back are those that the machine alone raises: a
    /// reached limit of operations, variables, modules or calls, a run that was terminated, a
    /// variable that is there already or that is forbidden, a `this` that is not bound, a result of
    /// another type than was asked for, a malformed program, a loop or a function that is left, and
    /// want of memory. An exit passes. What a call or a module wraps is not looked at.
    pub fn new(fault: EvalAltResult) -> Result<HostFault, EvalAltResult>
        ensures { result ≡ (if handed_back (problem_of fault) then Err fault else Ok fault) }
    {
        if is_handed_back(&fault) {
            Err(fault)
        } else {
            Ok(HostFault { fault })
        }
    }

    // A fault that a host may answer.
    pub(crate) fn passing(fault: EvalAltResult) -> HostFault
        requires { handed_back (problem_of fault) ≡ false }
        ensures { result ≡ fault }
    {
        HostFault { fault }
    }

    /// The fault as it was given to `new`.
    pub fn into_fault(self) -> EvalAltResult
        ensures value { result ≡ self }
        ensures passes { handed_back (problem_of result) ≡ false }
    {
        self.fault
    }
}

// Whether a host may not answer the fault.
fn is_handed_back(fault: &EvalAltResult) -> bool
    ensures { result ≡ handed_back (problem_of fault.now) }
{
    match fault {
        EvalAltResult::ErrorVariableExists(..)
        | EvalAltResult::ErrorForbiddenVariable(..)
        | EvalAltResult::ErrorUnboundThis(..)
        | EvalAltResult::ErrorMismatchOutputType(..)
        | EvalAltResult::ErrorTooManyOperations(..)
        | EvalAltResult::ErrorTooManyVariables(..)
        | EvalAltResult::ErrorTooManyModules(..)
        | EvalAltResult::ErrorStackOverflow(..)
        | EvalAltResult::ErrorTerminated(..)
        | EvalAltResult::LoopBreak(..)
        | EvalAltResult::Return(..)
        | EvalAltResult::Malformed(..)
        | EvalAltResult::Memory => true,
        EvalAltResult::ErrorSystem(..)
        | EvalAltResult::ErrorParsing(..)
        | EvalAltResult::ErrorVariableNotFound(..)
        | EvalAltResult::ErrorPropertyNotFound(..)
        | EvalAltResult::ErrorIndexNotFound(..)
        | EvalAltResult::ErrorFunctionNotFound(..)
        | EvalAltResult::ErrorModuleNotFound(..)
        | EvalAltResult::ErrorInFunctionCall(..)
        | EvalAltResult::ErrorInModule(..)
        | EvalAltResult::ErrorMismatchDataType(..)
        | EvalAltResult::ErrorIndexingType(..)
        | EvalAltResult::ErrorArrayBounds(..)
        | EvalAltResult::ErrorStringBounds(..)
        | EvalAltResult::ErrorBitFieldBounds(..)
        | EvalAltResult::ErrorFor(..)
        | EvalAltResult::ErrorDataRace(..)
        | EvalAltResult::ErrorNonPureMethodCallOnConstant(..)
        | EvalAltResult::ErrorAssignmentToConstant(..)
        | EvalAltResult::ErrorDotExpr(..)
        | EvalAltResult::ErrorArithmetic(..)
        | EvalAltResult::ErrorDataTooLarge(..)
        | EvalAltResult::ErrorCustomSyntax(..)
        | EvalAltResult::ErrorRuntime(..)
        | EvalAltResult::Exit(..) => false,
    }
}
