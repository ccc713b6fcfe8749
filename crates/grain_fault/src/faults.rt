//! Faults: their kinds, classes, positions and texts.

ghost use Rattle.std.specs.Prelude.{◌≡◌, Some, None, IfOk, IfErr};
ghost use Rattle.grain_fault.specs.Exits.{exit_value};
ghost use Rattle.grain_fault.specs.Places.{nowhere};
ghost use Rattle.grain_fault.specs.Problems.{Plain, Runtime, problem_of};
ghost use Rattle.grain_value.specs.declared.values.Dynamic.TheVariants as dynamic;

use crate::places::Position;
use grain_value::{Array, Dynamic, OutOfMemory, Text};
use std::alloc::Global;

/// How a run ends.
pub type RhaiResult = Result<Dynamic, EvalAltResult>;

/// How a call ends that gives something else than a value.
pub type RhaiResultOf<T> = Result<T, EvalAltResult>;

/// What is wrong with a program, where only its run shows it. The texts are type names.
#[derive(Drop)]
pub enum MalformedKind {
    /// A slot names the entry `index`, counted from 0, of a scope of `length` entries.
    SlotPastScope { index: usize, length: usize },
    /// A scope of `length` entries is to be cut to `target` entries, which are more.
    UnwindPastScope { target: usize, length: usize },
    /// A `try` began at a scope of `wanted` entries, and at its `catch` the scope has `length`,
    /// which are fewer.
    TryFloorBroken { wanted: usize, length: usize },
    /// The template of a map is no map.
    TemplateNotMap { kind: Text },
    /// The key of a map is no text.
    KeyNotText { kind: Text },
    /// The buffer of an interpolation is no text.
    BufferNotText { kind: Text },
    /// A size check, of this element, outside of all literals.
    MissingTotal { index: u16 },
}

/// Why a run ended without a value.
pub enum EvalAltResult {
    /// A failure of the host's own: what it is about, empty if it is about nothing, and the reason.
    ErrorSystem(Text, Text),
    /// A script that could not be read, for this reason.
    ErrorParsing(Text, Position),
    /// A declaration of a variable of this name, where one is there and may not be hidden.
    ErrorVariableExists(Text, Position),
    /// A declaration of a variable of this name, which the host forbids.
    ErrorForbiddenVariable(Text, Position),
    /// No variable of this name.
    ErrorVariableNotFound(Text, Position),
    /// No property of this name.
    ErrorPropertyNotFound(Text, Position),
    /// Nothing at this index.
    ErrorIndexNotFound(Dynamic, Position),
    /// No function of this name and these types.
    ErrorFunctionNotFound(Text, Position),
    /// No module of this name.
    ErrorModuleNotFound(Text, Position),
    /// A fault that left the body of a function of this name. The second text is the source of the
    /// function's program, empty if it has none. The position is that of the call.
    ErrorInFunctionCall(Text, Text, Box<EvalAltResult>, Position),
    /// A fault that left a module of this name, which is empty if the module has none.
    ErrorInModule(Text, Box<EvalAltResult>, Position),
    /// A use of `this` where there is none.
    ErrorUnboundThis(Position),
    /// A value of the second type where one of the first was asked for.
    ErrorMismatchDataType(Text, Text, Position),
    /// A result of the second type where the caller asked for one of the first.
    ErrorMismatchOutputType(Text, Text, Position),
    /// No indexer for these types.
    ErrorIndexingType(Text, Position),
    /// An index into an array or a byte string of this length, where nothing is.
    ErrorArrayBounds(usize, i64, Position),
    /// An index into a text of this many characters, where none is.
    ErrorStringBounds(usize, i64, Position),
    /// An index into this many bits, where none is.
    ErrorBitFieldBounds(usize, i64, Position),
    /// A loop over a value that has no items.
    ErrorFor(Position),
    /// A use of a shared value, of this name, that is in use already.
    ErrorDataRace(Text, Position),
    /// A call of a native of this name, which writes its first argument, where that can only be
    /// read.
    ErrorNonPureMethodCallOnConstant(Text, Position),
    /// An assignment to an entry of this name that can only be read.
    ErrorAssignmentToConstant(Text, Position),
    /// A property that is not there, as the text says.
    ErrorDotExpr(Text, Position),
    /// Arithmetic without a result.
    ErrorArithmetic(Text, Position),
    /// The operation limit is reached.
    ErrorTooManyOperations(Position),
    /// The variable limit is reached.
    ErrorTooManyVariables(Position),
    /// The limit of modules is reached.
    ErrorTooManyModules(Position),
    /// The limit of calls within one another is reached.
    ErrorStackOverflow(Position),
    /// A value would be larger than a limit allows. The text says what of it is too large.
    ErrorDataTooLarge(Text, Position),
    /// The host ended the run, with this value.
    ErrorTerminated(Dynamic, Position),
    /// Custom syntax that the host does not know: why, and the tokens.
    ErrorCustomSyntax(Text, Array, Position),
    /// A value that the script threw.
    ErrorRuntime(Dynamic, Position),
    /// A `break` with this value, or a `continue`, outside of all loops. It is no fault: it is how
    /// control leaves a loop.
    LoopBreak(bool, Dynamic, Position),
    /// A function returned this value. It is no fault: it is how control leaves a function.
    Return(Dynamic, Position),
    /// A native ended the script, with this value. It is no fault: it is how control leaves.
    Exit(Dynamic, Position),
    /// The program asks for what is not there.
    Malformed(MalformedKind, Position),
    /// There was no memory for what the run wanted to make or grow.
    Memory,
}

/// Drops a fault and what it wraps, one after the other: how deep the wrappers are nested takes no
/// room on the stack.
impl Drop for EvalAltResult {
    fn drop(mut self) {
        loop {
            match self {
                EvalAltResult::ErrorInFunctionCall(_, _, inner, _) => self = Box::into_inner(inner),
                EvalAltResult::ErrorInModule(_, inner, _) => self = Box::into_inner(inner),
                EvalAltResult::ErrorIndexNotFound(value, _)
                | EvalAltResult::ErrorTerminated(value, _)
                | EvalAltResult::ErrorRuntime(value, _)
                | EvalAltResult::LoopBreak(_, value, _)
                | EvalAltResult::Return(value, _)
                | EvalAltResult::Exit(value, _) => return drop(value),
                EvalAltResult::ErrorParsing(text, _)
                | EvalAltResult::ErrorVariableExists(text, _)
                | EvalAltResult::ErrorForbiddenVariable(text, _)
                | EvalAltResult::ErrorVariableNotFound(text, _)
                | EvalAltResult::ErrorPropertyNotFound(text, _)
                | EvalAltResult::ErrorFunctionNotFound(text, _)
                | EvalAltResult::ErrorModuleNotFound(text, _)
                | EvalAltResult::ErrorIndexingType(text, _)
                | EvalAltResult::ErrorDataRace(text, _)
                | EvalAltResult::ErrorNonPureMethodCallOnConstant(text, _)
                | EvalAltResult::ErrorAssignmentToConstant(text, _)
                | EvalAltResult::ErrorDotExpr(text, _)
                | EvalAltResult::ErrorArithmetic(text, _)
                | EvalAltResult::ErrorDataTooLarge(text, _) => return drop(text),
                EvalAltResult::ErrorSystem(_, _)
                | EvalAltResult::ErrorUnboundThis(_)
                | EvalAltResult::ErrorMismatchDataType(_, _, _)
                | EvalAltResult::ErrorMismatchOutputType(_, _, _)
                | EvalAltResult::ErrorArrayBounds(_, _, _)
                | EvalAltResult::ErrorStringBounds(_, _, _)
                | EvalAltResult::ErrorBitFieldBounds(_, _, _)
                | EvalAltResult::ErrorFor(_)
                | EvalAltResult::ErrorTooManyOperations(_)
                | EvalAltResult::ErrorTooManyVariables(_)
                | EvalAltResult::ErrorTooManyModules(_)
                | EvalAltResult::ErrorStackOverflow(_)
                | EvalAltResult::ErrorCustomSyntax(_, _, _)
                | EvalAltResult::Malformed(_, _)
                | EvalAltResult::Memory => return,
            }
        }
    }
}

impl EvalAltResult {
    /// The fault of a script that throws this text, without a position.
    pub fn from_text(alloc: Global, s: &str) -> Result<EvalAltResult, OutOfMemory>
        ensures { IfOk result (λ f. problem_of f ≡ Plain (Runtime (dynamic.Text s.now)) nowhere) }
    {
        let text = Text::copy_of(alloc, s)?;
        Ok(EvalAltResult::ErrorRuntime(Dynamic::Text(text), Position::NONE))
    }

    /// The value of an exit, or else the fault as it is.
    pub fn into_exit_value(self) -> Result<Dynamic, EvalAltResult>
        ensures exit { IfOk result (λ v. exit_value (problem_of self) ≡ Some v) }
        ensures same { IfErr result (λ f. f ≡ self) }
        ensures none { IfErr result (λ _. exit_value (problem_of self) ≡ None) }
    {
        match self {
            EvalAltResult::Exit(value, _) => Ok(value),
            fault => Err(fault),
        }
    }
}
