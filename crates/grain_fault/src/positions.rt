//! Where faults were raised.

ghost use Rattle.std.specs.Prelude.{◌≡◌, if◌then◌else◌};
ghost use Rattle.grain_fault.specs.Problems.{problem_of, inner_fault};
ghost use Rattle.grain_fault.specs.Places.{nowhere};
ghost use Rattle.grain_fault.specs.Positions.{position_of_problem, at_position, never_has_position, at_position_if_none};

use crate::faults::EvalAltResult;
use crate::places::Position;

impl EvalAltResult {
    /// Where the fault was raised. `ErrorSystem` and want of memory have no position.
    pub fn position(&self) -> Position
        ensures { result ≡ position_of_problem (problem_of self.now) }
    {
        match self {
            EvalAltResult::ErrorParsing(_, position)
            | EvalAltResult::ErrorVariableExists(_, position)
            | EvalAltResult::ErrorForbiddenVariable(_, position)
            | EvalAltResult::ErrorVariableNotFound(_, position)
            | EvalAltResult::ErrorPropertyNotFound(_, position)
            | EvalAltResult::ErrorIndexNotFound(_, position)
            | EvalAltResult::ErrorFunctionNotFound(_, position)
            | EvalAltResult::ErrorModuleNotFound(_, position)
            | EvalAltResult::ErrorInFunctionCall(_, _, _, position)
            | EvalAltResult::ErrorInModule(_, _, position)
            | EvalAltResult::ErrorUnboundThis(position)
            | EvalAltResult::ErrorMismatchDataType(_, _, position)
            | EvalAltResult::ErrorMismatchOutputType(_, _, position)
            | EvalAltResult::ErrorIndexingType(_, position)
            | EvalAltResult::ErrorArrayBounds(_, _, position)
            | EvalAltResult::ErrorStringBounds(_, _, position)
            | EvalAltResult::ErrorBitFieldBounds(_, _, position)
            | EvalAltResult::ErrorFor(position)
            | EvalAltResult::ErrorDataRace(_, position)
            | EvalAltResult::ErrorNonPureMethodCallOnConstant(_, position)
            | EvalAltResult::ErrorAssignmentToConstant(_, position)
            | EvalAltResult::ErrorDotExpr(_, position)
            | EvalAltResult::ErrorArithmetic(_, position)
            | EvalAltResult::ErrorTooManyOperations(position)
            | EvalAltResult::ErrorTooManyVariables(position)
            | EvalAltResult::ErrorTooManyModules(position)
            | EvalAltResult::ErrorStackOverflow(position)
            | EvalAltResult::ErrorDataTooLarge(_, position)
            | EvalAltResult::ErrorTerminated(_, position)
            | EvalAltResult::ErrorCustomSyntax(_, _, position)
            | EvalAltResult::ErrorRuntime(_, position)
            | EvalAltResult::LoopBreak(_, _, position)
            | EvalAltResult::Return(_, position)
            | EvalAltResult::Exit(_, position)
            | EvalAltResult::Malformed(_, position) => *position,
            EvalAltResult::ErrorSystem(..) | EvalAltResult::Memory => Position::NONE,
        }
    }

    /// Puts the fault at this position. `ErrorSystem` and want of memory stay without one.
    pub fn set_position(&mut self, new_position: Position)
        ensures whole { problem_of self.new ≡ at_position new_position (problem_of self.old) }
        ensures position { position_of_problem (problem_of self.new)
            ≡ (if never_has_position (problem_of self.old) then nowhere else new_position) }
    {
        match self {
            EvalAltResult::ErrorParsing(_, position) => *position = new_position,
            EvalAltResult::ErrorVariableExists(_, position) => *position = new_position,
            EvalAltResult::ErrorForbiddenVariable(_, position) => *position = new_position,
            EvalAltResult::ErrorVariableNotFound(_, position) => *position = new_position,
            EvalAltResult::ErrorPropertyNotFound(_, position) => *position = new_position,
            EvalAltResult::ErrorIndexNotFound(_, position) => *position = new_position,
            EvalAltResult::ErrorFunctionNotFound(_, position) => *position = new_position,
            EvalAltResult::ErrorModuleNotFound(_, position) => *position = new_position,
            EvalAltResult::ErrorInFunctionCall(_, _, _, position) => *position = new_position,
            EvalAltResult::ErrorInModule(_, _, position) => *position = new_position,
            EvalAltResult::ErrorUnboundThis(position) => *position = new_position,
            EvalAltResult::ErrorMismatchDataType(_, _, position) => *position = new_position,
            EvalAltResult::ErrorMismatchOutputType(_, _, position) => *position = new_position,
            EvalAltResult::ErrorIndexingType(_, position) => *position = new_position,
            EvalAltResult::ErrorArrayBounds(_, _, position) => *position = new_position,
            EvalAltResult::ErrorStringBounds(_, _, position) => *position = new_position,
            EvalAltResult::ErrorBitFieldBounds(_, _, position) => *position = new_position,
            EvalAltResult::ErrorFor(position) => *position = new_position,
            EvalAltResult::ErrorDataRace(_, position) => *position = new_position,
            EvalAltResult::ErrorNonPureMethodCallOnConstant(_, position) => *position =
                new_position,
            EvalAltResult::ErrorAssignmentToConstant(_, position) => *position = new_position,
            EvalAltResult::ErrorDotExpr(_, position) => *position = new_position,
            EvalAltResult::ErrorArithmetic(_, position) => *position = new_position,
            EvalAltResult::ErrorTooManyOperations(position) => *position = new_position,
            EvalAltResult::ErrorTooManyVariables(position) => *position = new_position,
            EvalAltResult::ErrorTooManyModules(position) => *position = new_position,
            EvalAltResult::ErrorStackOverflow(position) => *position = new_position,
            EvalAltResult::ErrorDataTooLarge(_, position) => *position = new_position,
            EvalAltResult::ErrorTerminated(_, position) => *position = new_position,
            EvalAltResult::ErrorCustomSyntax(_, _, position) => *position = new_position,
            EvalAltResult::ErrorRuntime(_, position) => *position = new_position,
            EvalAltResult::LoopBreak(_, _, position) => *position = new_position,
            EvalAltResult::Return(_, position) => *position = new_position,
            EvalAltResult::Exit(_, position) => *position = new_position,
            EvalAltResult::Malformed(_, position) => *position = new_position,
            EvalAltResult::ErrorSystem(..) => {}
            EvalAltResult::Memory => {}
        }
    }

    /// The fault's position. The fault has none afterwards.
    pub fn take_position(&mut self) -> Position
        ensures value { result ≡ position_of_problem (problem_of self.old) }
        ensures cleared { problem_of self.new ≡ at_position nowhere (problem_of self.old) }
    {
        let position = self.position();
        self.clear_position();
        position
    }

    /// Takes the fault's position away.
    pub fn clear_position(&mut self)
        ensures { problem_of self.new ≡ at_position nowhere (problem_of self.old) }
    {
        self.set_position(Position::NONE);
    }

    /// The fault at this position if it has none, and else as it is.
    pub fn fill_position(self, new_position: Position) -> EvalAltResult
        ensures { problem_of result ≡ at_position_if_none new_position (problem_of self) }
    {
        let mut fault = self;
        if fault.position().is_none() {
            fault.set_position(new_position);
        }
        fault
    }

    /// The fault inside its wrappers, which are `ErrorInFunctionCall` and `ErrorInModule`. The
    /// inner fault of that one is itself.
    pub fn unwrap_inner(&self) -> &EvalAltResult
        ensures inner { problem_of result.now ≡ inner_fault (problem_of self.now) }
        ensures again { inner_fault (problem_of result.now) ≡ problem_of result.now }
    {
        let mut fault = self;
        loop {
            match fault {
                EvalAltResult::ErrorInFunctionCall(_, _, inner, _)
                | EvalAltResult::ErrorInModule(_, inner, _) => fault = inner,
                _ => return fault,
            }
        }
    }
}
