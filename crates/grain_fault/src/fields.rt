//! The fields of faults, as a script sees them.

ghost use Rattle.std.specs.Prelude.{◌≡◌};
ghost use Rattle.grain_value.specs.declared.values.Dynamic.TheVariants as dynamic;
ghost use Rattle.grain_fault.specs.Problems.{problem_of};
ghost use Rattle.grain_fault.specs.Table.{bounds_fields};
ghost use Rattle.grain_fault.specs.Fields.{Dumps, Puts, own_fields};
ghost use Rattle.grain_fault.specs.FieldsView.{field_of, fields_in};

use crate::faults::EvalAltResult;
use grain_value::{Array, Dynamic, Map, OutOfMemory, Text};

/// What a field of a fault is.
#[derive(Drop)]
pub(crate) enum Content<'a> {
    Text(&'a Text),
    Integer(i64),
    Value(&'a Dynamic),
    Values(&'a Array),
}

/// A field of a fault.
#[derive(Drop)]
pub(crate) struct Field<'a> {
    name: &'static str,
    content: Content<'a>,
}

/// The fields of a fault, at most two.
#[derive(Drop)]
pub(crate) enum Fields<'a> {
    None,
    One(Field<'a>),
    Two(Field<'a>, Field<'a>),
}

/// A field that is a text.
fn text<'a>(name: &'static str, text: &'a Text) -> Field<'a>
    ensures { field_of result ≡ (name.now, dynamic.Text text.now) }
{
    Field {
        name,
        content: Content::Text(text),
    }
}

/// The fields of an index that is out of bounds. A length past the integers of scripts is put as
/// the greatest of them.
fn bounds<'a>(length: usize, index: i64) -> Fields<'a>
    ensures { fields_in result ≡ bounds_fields length index }
{
    let length = i64::try_from(length).unwrap_or(i64::MAX);
    Fields::Two(
        Field {
            name: "length",
            content: Content::Integer(length),
        },
        Field {
            name: "index",
            content: Content::Integer(index),
        },
    )
}

impl EvalAltResult {
    /// Puts the fault's fields into the map: the variant's name at `error`, and what the table of
    /// faults names. After want of memory the first of them may be there.
    pub fn dump_fields(&self, map: &mut Map) -> Result<(), OutOfMemory>
        ensures { Dumps (problem_of self.now) result map.old map.new }
    {
        let name = Text::copy_of(map.allocator(), self.name())?;
        put(map, "error", Dynamic::Text(name))?;
        match self.own_fields() {
            Fields::None => Ok(()),
            Fields::One(field) => put_field(map, &field),
            Fields::Two(first, second) => {
                put_field(map, &first)?;
                put_field(map, &second)
            }
        }
    }

    // What the table of faults names.
    fn own_fields(&self) -> Fields<'_>
        ensures { fields_in result ≡ own_fields (problem_of self.now) }
    {
        match self {
            EvalAltResult::ErrorVariableExists(variable, _)
            | EvalAltResult::ErrorForbiddenVariable(variable, _)
            | EvalAltResult::ErrorVariableNotFound(variable, _)
            | EvalAltResult::ErrorDataRace(variable, _)
            | EvalAltResult::ErrorAssignmentToConstant(variable, _) => {
                Fields::One(text("variable", variable))
            }
            EvalAltResult::ErrorPropertyNotFound(property, _) => {
                Fields::One(text("variable", property))
            }
            EvalAltResult::ErrorDotExpr(property, _) => Fields::One(text("property", property)),
            EvalAltResult::ErrorFunctionNotFound(function, _)
            | EvalAltResult::ErrorNonPureMethodCallOnConstant(function, _) => {
                Fields::One(text("function", function))
            }
            EvalAltResult::ErrorModuleNotFound(module, _)
            | EvalAltResult::ErrorInModule(module, _, _) => Fields::One(text("module", module)),
            EvalAltResult::ErrorIndexingType(kind, _) | EvalAltResult::ErrorDataTooLarge(kind, _) =>
                Fields::One(text("type", kind)),
            EvalAltResult::ErrorInFunctionCall(function, source, _, _) => {
                Fields::Two(text("function", function), text("source", source))
            }
            EvalAltResult::ErrorMismatchDataType(requested, actual, _)
            | EvalAltResult::ErrorMismatchOutputType(requested, actual, _) => {
                Fields::Two(text("requested", requested), text("actual", actual))
            }
            EvalAltResult::ErrorArrayBounds(length, index, _)
            | EvalAltResult::ErrorStringBounds(length, index, _)
            | EvalAltResult::ErrorBitFieldBounds(length, index, _) => bounds(*length, *index),
            EvalAltResult::ErrorIndexNotFound(index, _) => Fields::One(Field {
                name: "index",
                content: Content::Value(index),
            }),
            EvalAltResult::ErrorTerminated(token, _) => Fields::One(Field {
                name: "token",
                content: Content::Value(token),
            }),
            EvalAltResult::ErrorCustomSyntax(_, tokens, _) => Fields::One(Field {
                name: "tokens",
                content: Content::Values(tokens),
            }),
            EvalAltResult::ErrorSystem(..)
            | EvalAltResult::ErrorParsing(..)
            | EvalAltResult::ErrorUnboundThis(_)
            | EvalAltResult::ErrorFor(_)
            | EvalAltResult::ErrorArithmetic(..)
            | EvalAltResult::ErrorTooManyOperations(_)
            | EvalAltResult::ErrorTooManyVariables(_)
            | EvalAltResult::ErrorTooManyModules(_)
            | EvalAltResult::ErrorStackOverflow(_)
            | EvalAltResult::ErrorRuntime(..)
            | EvalAltResult::LoopBreak(..)
            | EvalAltResult::Return(..)
            | EvalAltResult::Exit(..)
            | EvalAltResult::Malformed(..)
            | EvalAltResult::Memory => Fields::None,
        }
    }
}

// Puts a field into the map. After want of memory the map is as it was.
fn put_field(map: &mut Map, field: &Field<'_>) -> Result<(), OutOfMemory>
    ensures { Puts (field_of field.now) result map.old map.new }
{
    let alloc = map.allocator();
    let value = match field.content {
        Content::Text(text) => Dynamic::Text(text.copy(alloc)?),
        Content::Integer(integer) => Dynamic::Int(integer),
        Content::Value(value) => value.copy(alloc)?,
        Content::Values(values) => Dynamic::Array(values.copy(alloc)?),
    };
    put(map, field.name, value)
}

// Puts a value into the map. After want of memory the map is as it was.
fn put(map: &mut Map, name: &str, value: Dynamic) -> Result<(), OutOfMemory>
    ensures { Puts (name.now, value) result map.old map.new }
{
    let name = Text::copy_of(map.allocator(), name)?;
    drop(map.insert(name, value)?);
    Ok(())
}
