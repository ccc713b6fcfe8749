//! Faults that rows of the tests name.

use crate::made::{array, text_of, value_of};
use grain_fault::{EvalAltResult, MalformedKind, Position};
use grain_value::{Array, Dynamic, Text};
use std::alloc::Global;
use std::process::Abort;

const NONE: Position = Position::NONE;

/// A fault without a position that a row names, and the text of which it is made.
pub(crate) type Raised = (Kind, &'static str);

#[derive(Clone, Copy)]
pub(crate) enum Kind {
    Plain(Plain),
    /// The text is in it.
    Text(OfText),
    /// Two texts are in it, which have a bar between them.
    Texts(OfTexts),
    /// The length and the index.
    ArrayBounds(usize, i64),
    StringBounds(usize, i64),
    BitFieldBounds(usize, i64),
    /// The text is the value, as a row has it.
    Value(OfValue),
    /// Custom syntax that is unknown. The text has its tokens, as a row has the values of an array.
    Syntax,
    Malformed(Broken),
}

#[derive(Clone, Copy)]
pub(crate) enum Plain {
    UnboundThis,
    For,
    TooManyOperations,
    TooManyVariables,
    TooManyModules,
    StackOverflow,
    Memory,
}

#[derive(Clone, Copy)]
pub(crate) enum OfText {
    Parsing,
    VariableExists,
    ForbiddenVariable,
    VariableNotFound,
    PropertyNotFound,
    FunctionNotFound,
    ModuleNotFound,
    IndexingType,
    DataRace,
    NonPureCall,
    AssignmentToConstant,
    DotExpr,
    Arithmetic,
    DataTooLarge,
    Thrown,
}

#[derive(Clone, Copy)]
pub(crate) enum OfTexts {
    System,
    DataType,
    OutputType,
}

#[derive(Clone, Copy)]
pub(crate) enum OfValue {
    IndexNotFound,
    Terminated,
    Runtime,
    Break,
    Continue,
    Return,
    Exit,
}

/// What is malformed: the numbers, or else the text is the name of a type.
#[derive(Clone, Copy)]
pub(crate) enum Broken {
    Slot(usize, usize),
    Unwind(usize, usize),
    TryFloor(usize, usize),
    Template,
    Key,
    Buffer,
    Total(u16),
}

pub(crate) fn fault_of(rt: &impl Abort, alloc: Global, kind: Kind, of: &str) -> EvalAltResult {
    match kind {
        Kind::Plain(variant) => plain_fault(variant),
        Kind::Text(variant) => of_text(variant, text_of(rt, alloc, of)),
        Kind::Texts(variant) => {
            let (first, second) = of.split_once('|').expect(rt, "two texts");
            let first = text_of(rt, alloc, first);
            of_texts(variant, first, text_of(rt, alloc, second))
        }
        Kind::ArrayBounds(length, index) => EvalAltResult::ErrorArrayBounds(length, index, NONE),
        Kind::StringBounds(length, index) => EvalAltResult::ErrorStringBounds(length, index, NONE),
        Kind::BitFieldBounds(length, index) => {
            EvalAltResult::ErrorBitFieldBounds(length, index, NONE)
        }
        Kind::Value(variant) => of_value(variant, value_of(rt, alloc, of)),
        Kind::Syntax => {
            let reason = text_of(rt, alloc, "Unknown prefix");
            EvalAltResult::ErrorCustomSyntax(reason, tokens(rt, alloc, of), NONE)
        }
        Kind::Malformed(kind) => EvalAltResult::Malformed(malformed(rt, alloc, kind, of), NONE),
    }
}

fn tokens(rt: &impl Abort, alloc: Global, values: &str) -> Array {
    if values.is_empty() {
        return Array::new(alloc);
    }
    array(rt, alloc, values)
}

fn plain_fault(variant: Plain) -> EvalAltResult {
    match variant {
        Plain::UnboundThis => EvalAltResult::ErrorUnboundThis(NONE),
        Plain::For => EvalAltResult::ErrorFor(NONE),
        Plain::TooManyOperations => EvalAltResult::ErrorTooManyOperations(NONE),
        Plain::TooManyVariables => EvalAltResult::ErrorTooManyVariables(NONE),
        Plain::TooManyModules => EvalAltResult::ErrorTooManyModules(NONE),
        Plain::StackOverflow => EvalAltResult::ErrorStackOverflow(NONE),
        Plain::Memory => EvalAltResult::Memory,
    }
}

fn of_text(variant: OfText, text: Text) -> EvalAltResult {
    match variant {
        OfText::Parsing => EvalAltResult::ErrorParsing(text, NONE),
        OfText::VariableExists => EvalAltResult::ErrorVariableExists(text, NONE),
        OfText::ForbiddenVariable => EvalAltResult::ErrorForbiddenVariable(text, NONE),
        OfText::VariableNotFound => EvalAltResult::ErrorVariableNotFound(text, NONE),
        OfText::PropertyNotFound => EvalAltResult::ErrorPropertyNotFound(text, NONE),
        OfText::FunctionNotFound => EvalAltResult::ErrorFunctionNotFound(text, NONE),
        OfText::ModuleNotFound => EvalAltResult::ErrorModuleNotFound(text, NONE),
        OfText::IndexingType => EvalAltResult::ErrorIndexingType(text, NONE),
        OfText::DataRace => EvalAltResult::ErrorDataRace(text, NONE),
        OfText::NonPureCall => EvalAltResult::ErrorNonPureMethodCallOnConstant(text, NONE),
        OfText::AssignmentToConstant => EvalAltResult::ErrorAssignmentToConstant(text, NONE),
        OfText::DotExpr => EvalAltResult::ErrorDotExpr(text, NONE),
        OfText::Arithmetic => EvalAltResult::ErrorArithmetic(text, NONE),
        OfText::DataTooLarge => EvalAltResult::ErrorDataTooLarge(text, NONE),
        OfText::Thrown => EvalAltResult::ErrorRuntime(Dynamic::Text(text), NONE),
    }
}

fn of_texts(variant: OfTexts, first: Text, second: Text) -> EvalAltResult {
    match variant {
        OfTexts::System => EvalAltResult::ErrorSystem(first, second),
        OfTexts::DataType => EvalAltResult::ErrorMismatchDataType(first, second, NONE),
        OfTexts::OutputType => EvalAltResult::ErrorMismatchOutputType(first, second, NONE),
    }
}

fn of_value(variant: OfValue, value: Dynamic) -> EvalAltResult {
    match variant {
        OfValue::IndexNotFound => EvalAltResult::ErrorIndexNotFound(value, NONE),
        OfValue::Terminated => EvalAltResult::ErrorTerminated(value, NONE),
        OfValue::Runtime => EvalAltResult::ErrorRuntime(value, NONE),
        OfValue::Break => EvalAltResult::LoopBreak(true, value, NONE),
        OfValue::Continue => EvalAltResult::LoopBreak(false, value, NONE),
        OfValue::Return => EvalAltResult::Return(value, NONE),
        OfValue::Exit => EvalAltResult::Exit(value, NONE),
    }
}

fn malformed(rt: &impl Abort, alloc: Global, kind: Broken, name: &str) -> MalformedKind {
    match kind {
        Broken::Slot(index, length) => MalformedKind::SlotPastScope { index, length },
        Broken::Unwind(target, length) => MalformedKind::UnwindPastScope { target, length },
        Broken::TryFloor(wanted, length) => MalformedKind::TryFloorBroken { wanted, length },
        Broken::Template => MalformedKind::TemplateNotMap {
            kind: text_of(rt, alloc, name),
        },
        Broken::Key => MalformedKind::KeyNotText {
            kind: text_of(rt, alloc, name),
        },
        Broken::Buffer => MalformedKind::BufferNotText {
            kind: text_of(rt, alloc, name),
        },
        Broken::Total(index) => MalformedKind::MissingTotal { index },
    }
}

/// The text of a fault.
pub(crate) fn fault_text(rt: &impl Abort, alloc: Global, fault: &EvalAltResult) -> Text {
    let mut out = Text::new(alloc);
    fault.write_text(&mut out).expect(rt, "memory");
    out
}

/// The name and the text of a fault.
pub(crate) fn named_text(rt: &impl Abort, alloc: Global, fault: &EvalAltResult) -> Text {
    let mut out = text_of(rt, alloc, fault.name());
    out.push_str(": ").expect(rt, "memory");
    fault.write_text(&mut out).expect(rt, "memory");
    out
}
