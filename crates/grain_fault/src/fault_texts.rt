//! The names and the texts of faults.

ghost use Rattle.std.specs.Prelude.{◌≡◌, ◌++◌, Some, is_ok, if◌then◌else◌};
ghost use Rattle.std.specs.Fmt.{WritesOnOk};
ghost use Rattle.grain_fault.specs.Problems.{problem_of};
ghost use Rattle.grain_fault.specs.Table.{kind_text};
ghost use Rattle.grain_fault.specs.Texts.{fault_name, fault_text, message, own_message, wrapper_text, line_and_column_text, location_text, call_text, origin_text, module_text};

use crate::fault_parts::{
    write_array_bounds, write_bit_field_bounds, write_custom_syntax, write_data_race,
    write_index_not_found, write_labelled, write_malformed, write_mismatch, write_non_pure_call,
    write_or_else, write_runtime_error, write_string_bounds, write_system_error, write_too_large,
};
use crate::faults::{EvalAltResult, MalformedKind};
use crate::places::Position;
use crate::wrappers::{Unwrapped, unwrap_all};
use grain_value::{OutOfMemory, Text};
use std::fmt;

impl EvalAltResult {
    /// The name of the variant.
    pub fn name(&self) -> &'static str
        ensures { result.now ≡ fault_name (problem_of self.now) }
    {
        match self {
            EvalAltResult::ErrorSystem(..) => "ErrorSystem",
            EvalAltResult::ErrorParsing(..) => "ErrorParsing",
            EvalAltResult::ErrorVariableExists(..) => "ErrorVariableExists",
            EvalAltResult::ErrorForbiddenVariable(..) => "ErrorForbiddenVariable",
            EvalAltResult::ErrorVariableNotFound(..) => "ErrorVariableNotFound",
            EvalAltResult::ErrorPropertyNotFound(..) => "ErrorPropertyNotFound",
            EvalAltResult::ErrorIndexNotFound(..) => "ErrorIndexNotFound",
            EvalAltResult::ErrorFunctionNotFound(..) => "ErrorFunctionNotFound",
            EvalAltResult::ErrorModuleNotFound(..) => "ErrorModuleNotFound",
            EvalAltResult::ErrorInFunctionCall(..) => "ErrorInFunctionCall",
            EvalAltResult::ErrorInModule(..) => "ErrorInModule",
            EvalAltResult::ErrorUnboundThis(..) => "ErrorUnboundThis",
            EvalAltResult::ErrorMismatchDataType(..) => "ErrorMismatchDataType",
            EvalAltResult::ErrorMismatchOutputType(..) => "ErrorMismatchOutputType",
            EvalAltResult::ErrorIndexingType(..) => "ErrorIndexingType",
            EvalAltResult::ErrorArrayBounds(..) => "ErrorArrayBounds",
            EvalAltResult::ErrorStringBounds(..) => "ErrorStringBounds",
            EvalAltResult::ErrorBitFieldBounds(..) => "ErrorBitFieldBounds",
            EvalAltResult::ErrorFor(..) => "ErrorFor",
            EvalAltResult::ErrorDataRace(..) => "ErrorDataRace",
            EvalAltResult::ErrorNonPureMethodCallOnConstant(..) =>
                "ErrorNonPureMethodCallOnConstant",
            EvalAltResult::ErrorAssignmentToConstant(..) => "ErrorAssignmentToConstant",
            EvalAltResult::ErrorDotExpr(..) => "ErrorDotExpr",
            EvalAltResult::ErrorArithmetic(..) => "ErrorArithmetic",
            EvalAltResult::ErrorTooManyOperations(..) => "ErrorTooManyOperations",
            EvalAltResult::ErrorTooManyVariables(..) => "ErrorTooManyVariables",
            EvalAltResult::ErrorTooManyModules(..) => "ErrorTooManyModules",
            EvalAltResult::ErrorStackOverflow(..) => "ErrorStackOverflow",
            EvalAltResult::ErrorDataTooLarge(..) => "ErrorDataTooLarge",
            EvalAltResult::ErrorTerminated(..) => "ErrorTerminated",
            EvalAltResult::ErrorCustomSyntax(..) => "ErrorCustomSyntax",
            EvalAltResult::ErrorRuntime(..) => "ErrorRuntime",
            EvalAltResult::LoopBreak(..) => "LoopBreak",
            EvalAltResult::Return(..) => "Return",
            EvalAltResult::Exit(..) => "Exit",
            EvalAltResult::Malformed(..) => "Malformed",
            EvalAltResult::Memory => "Memory",
        }
    }

    /// Puts the fault's text at the end, as `{}` prints it: what happened, and where. After want of
    /// memory `out` is as it was.
    pub fn write_text(&self, out: &mut Text) -> Result<(), OutOfMemory>
        ensures { out.new
            ≡ (if is_ok result then out.old ++ fault_text (problem_of self.now) else out.old) }
    {
        let (wrappers, innermost) = unwrap_all(out.allocator(), self)?;
        let unwrapped = Unwrapped {
            innermost,
            wrappers: &wrappers,
            position: self.position(),
        };
        out.push_display(&unwrapped)
    }
}

/// What happened, and where: `Too many operations (line 2, position 7)`. Printing takes no memory,
/// but a call within a call for each wrapper; `write_text` is for faults with very many of them.
impl fmt::Display for EvalAltResult {
    ghost output = { λ f. Some (fault_text (problem_of f)) };

    fn fmt<W: fmt::Write>(&self, f: &mut fmt::Formatter<W>) -> fmt::Result {
        write_message(self, f)?;
        let location = Location {
            source: "",
            position: self.position(),
        };
        write!(f, "{location}")
    }
}

/// What the program asks for that is not there.
impl fmt::Display for MalformedKind {
    ghost output = { λ k. Some (kind_text k) };

    fn fmt<W: fmt::Write>(&self, f: &mut fmt::Formatter<W>) -> fmt::Result {
        match self {
            MalformedKind::SlotPastScope { index, length } => {
                write!(f, "slot {index} past a scope of {length}")
            }
            MalformedKind::UnwindPastScope { target, length } => {
                write!(f, "unwind to {target} past a scope of {length}")
            }
            MalformedKind::TryFloorBroken { wanted, length } => {
                write!(f, "try began at a scope of {wanted}, now {length}")
            }
            MalformedKind::TemplateNotMap { kind } => write_labelled("map template is a ", kind, f),
            MalformedKind::KeyNotText { kind } => write_labelled("map key is a ", kind, f),
            MalformedKind::BufferNotText { kind } => {
                write_labelled("interpolation buffer is a ", kind, f)
            }
            MalformedKind::MissingTotal { index } => {
                write!(f, "size check {index} outside a literal")
            }
        }
    }
}

/// Writes what happened, without where: of a fault that left a call or a module, first what
/// happened inside, and where.
pub(crate) fn write_message<W: fmt::Write>(
    fault: &EvalAltResult,
    f: &mut fmt::Formatter<W>,
) -> fmt::Result
    ensures { WritesOnOk W.write_str_gives f.old result (message (problem_of fault.now)) f.new }
{
    match fault {
        EvalAltResult::ErrorInFunctionCall(_, _, inner, _) => {
            let inner: &EvalAltResult = inner;
            write_message(inner, f)?;
            write_wrapper(fault, f)
        }
        EvalAltResult::ErrorInModule(_, inner, _) => {
            let inner: &EvalAltResult = inner;
            write_message(inner, f)?;
            write_wrapper(fault, f)
        }
        _ => write_own_message(fault, f),
    }
}

/// Writes what happened, without where, of a fault that wraps no other. Of one that does it writes
/// nothing.
fn write_own_message<W: fmt::Write>(fault: &EvalAltResult, f: &mut fmt::Formatter<W>) -> fmt::Result
    ensures { WritesOnOk W.write_str_gives f.old result (own_message (problem_of fault.now)) f.new }
{
    match fault {
        EvalAltResult::ErrorInFunctionCall(..) | EvalAltResult::ErrorInModule(..) => Ok(()),
        EvalAltResult::ErrorSystem(about, reason) => write_system_error(about, reason, f),
        EvalAltResult::Memory => f.write_str("Out of memory"),
        EvalAltResult::ErrorParsing(reason, _) => write_labelled("Syntax error: ", reason, f),
        EvalAltResult::ErrorVariableExists(variable, _) => {
            write_labelled("Variable already defined: ", variable, f)
        }
        EvalAltResult::ErrorForbiddenVariable(variable, _) => {
            write_labelled("Forbidden variable name: ", variable, f)
        }
        EvalAltResult::ErrorVariableNotFound(variable, _) => {
            write_labelled("Variable not found: ", variable, f)
        }
        EvalAltResult::ErrorPropertyNotFound(property, _) => {
            write_labelled("Property not found: ", property, f)
        }
        EvalAltResult::ErrorIndexNotFound(index, _) => write_index_not_found(index, f),
        EvalAltResult::ErrorFunctionNotFound(function, _) => {
            write_labelled("Function not found: ", function, f)
        }
        EvalAltResult::ErrorModuleNotFound(module, _) => write_labelled(
            "Module not found: ",
            module,
            f,
        ),
        EvalAltResult::ErrorUnboundThis(_) => f.write_str("'this' not bound"),
        EvalAltResult::ErrorMismatchDataType(requested, actual, _) => {
            write_mismatch("Data type incorrect", requested, actual, f)
        }
        EvalAltResult::ErrorMismatchOutputType(requested, actual, _) => {
            write_mismatch("Output type incorrect", requested, actual, f)
        }
        EvalAltResult::ErrorIndexingType(types, _) => write_labelled(
            "Indexer unavailable: ",
            types,
            f,
        ),
        EvalAltResult::ErrorArrayBounds(length, index, _) => {
            write_array_bounds(*length, *index, f)
        }
        EvalAltResult::ErrorStringBounds(length, index, _) => {
            write_string_bounds(*length, *index, f)
        }
        EvalAltResult::ErrorBitFieldBounds(length, index, _) => {
            write_bit_field_bounds(*length, *index, f)
        }
        EvalAltResult::ErrorFor(_) => f.write_str("For loop expects iterable type"),
        EvalAltResult::ErrorDataRace(variable, _) => write_data_race(variable, f),
        EvalAltResult::ErrorNonPureMethodCallOnConstant(function, _) => {
            write_non_pure_call(function, f)
        }
        EvalAltResult::ErrorAssignmentToConstant(variable, _) => {
            write_labelled("Cannot modify constant ", variable, f)
        }
        EvalAltResult::ErrorDotExpr(reason, _) => {
            write_or_else(reason, "Malformed dot expression", f)
        }
        EvalAltResult::ErrorArithmetic(reason, _) => write_or_else(reason, "Arithmetic error", f),
        EvalAltResult::ErrorTooManyOperations(_) => f.write_str("Too many operations"),
        EvalAltResult::ErrorTooManyVariables(_) => f.write_str("Too many variables defined"),
        EvalAltResult::ErrorTooManyModules(_) => f.write_str("Too many modules imported"),
        EvalAltResult::ErrorStackOverflow(_) => f.write_str("Stack overflow"),
        EvalAltResult::ErrorDataTooLarge(what, _) => write_too_large(what, f),
        EvalAltResult::ErrorTerminated(..) => f.write_str("Script terminated"),
        EvalAltResult::ErrorCustomSyntax(reason, tokens, _) => {
            write_custom_syntax(reason, tokens, f)
        }
        EvalAltResult::ErrorRuntime(value, _) => write_runtime_error(value, f),
        EvalAltResult::LoopBreak(true, ..) => f.write_str("'break' must be within a loop"),
        EvalAltResult::LoopBreak(false, ..) => f.write_str("'continue' must be within a loop"),
        EvalAltResult::Return(..) => f.write_str("NOT AN ERROR - function returns value"),
        EvalAltResult::Exit(..) => f.write_str("NOT AN ERROR - exit value"),
        EvalAltResult::Malformed(kind, _) => write_malformed(kind, f),
    }
}

/// Writes what a wrapper adds to the text of the fault that it wraps: where that happened, and what
/// it left.
pub(crate) fn write_wrapper<W: fmt::Write>(
    fault: &EvalAltResult,
    f: &mut fmt::Formatter<W>,
) -> fmt::Result
    ensures { WritesOnOk W.write_str_gives f.old result
        (wrapper_text (problem_of fault.now)) f.new }
{
    match fault {
        EvalAltResult::ErrorInFunctionCall(function, source, inner, _) => {
            let location = Location {
                source: source.as_str(),
                position: inner.position(),
            };
            let call = Call { function, source };
            write!(f, "{location}\n{call}")
        }
        EvalAltResult::ErrorInModule(module, inner, _) => {
            let location = Location {
                source: "",
                position: inner.position(),
            };
            let module = ModuleLeft(module);
            write!(f, "{location}\n{module}")
        }
        _ => Ok(()),
    }
}

/// The module that a fault left. The name of one without a name is not printed.
#[derive(Drop)]
struct ModuleLeft<'a>(&'a Text);

impl fmt::Display for ModuleLeft<'_> {
    ghost output = { λ m. Some (module_text m.0.now) };

    fn fmt<W: fmt::Write>(&self, f: &mut fmt::Formatter<W>) -> fmt::Result {
        let module = self.0;
        if module.is_empty() {
            f.write_str("in module")
        } else {
            write!(f, "in module '{module}'")
        }
    }
}

/// The call that a fault left, and the source of the function.
#[derive(Drop)]
struct Call<'a> {
    function: &'a Text,
    source: &'a Text,
}

impl fmt::Display for Call<'_> {
    ghost output = { λ c. Some (call_text c.function.now ++ origin_text c.source.now) };

    fn fmt<W: fmt::Write>(&self, f: &mut fmt::Formatter<W>) -> fmt::Result {
        let Call { function, source } = self;
        let callee = Callee(function);
        if source.is_empty() {
            write!(f, "{callee}")
        } else {
            write!(f, "{callee} (from '{source}')")
        }
    }
}

/// The function that was called. The name of a closure is not printed.
#[derive(Drop)]
struct Callee<'a>(&'a Text);

impl fmt::Display for Callee<'_> {
    ghost output = { λ c. Some (call_text c.0.now) };

    fn fmt<W: fmt::Write>(&self, f: &mut fmt::Formatter<W>) -> fmt::Result {
        let function = self.0;
        if function.as_str().starts_with("anon$") {
            f.write_str("in closure call")
        } else {
            write!(f, "in call to function '{function}'")
        }
    }
}

/// Where something happened: the source of the call, empty outside of all calls, and the position.
#[derive(Drop)]
pub(crate) struct Location<'a> {
    pub(crate) source: &'a str,
    pub(crate) position: Position,
}

impl fmt::Display for Location<'_> {
    ghost output = { λ e. Some (location_text e.source.now e.position) };

    fn fmt<W: fmt::Write>(&self, f: &mut fmt::Formatter<W>) -> fmt::Result {
        let Location { source, position } = self;
        let place = LineAndColumn(*position);
        if source.is_empty() {
            write!(f, "{place}")
        } else {
            write!(f, " @ '{source}'{place}")
        }
    }
}

/// A line and a column in parentheses, after a blank. No position prints nothing.
#[derive(Clone, Copy)]
struct LineAndColumn(Position);

impl fmt::Display for LineAndColumn {
    ghost output = { λ p. Some (line_and_column_text p.0) };

    fn fmt<W: fmt::Write>(&self, f: &mut fmt::Formatter<W>) -> fmt::Result {
        match self.0.line() {
            None => Ok(()),
            Some(line) => match self.0.position() {
                None => write!(f, " (line {line})"),
                Some(column) => write!(f, " (line {line}, position {column})"),
            },
        }
    }
}
