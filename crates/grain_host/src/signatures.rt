//! The fault that a native is not found.

ghost use Rattle.std.specs.Prelude.{◌≡◌, ◌++◌, [], IfOk, map};
ghost use Rattle.grain_value.specs.View.{value_of};
ghost use Rattle.grain_fault.specs.Problems.{problem_of};
ghost use Rattle.grain_host.specs.Signatures.{types_text, signature_text, type_at, unknown_property, unwritable_property, index_text, not_found, says_missing};

use grain_fault::{EvalAltResult, Position};
use grain_value::{Array, OutOfMemory, Text};
use std::alloc::Global;

/// The fault that no native of this name takes these arguments. A getter, a setter or an indexer
/// that is not found is a property or an index that is not there.
#[cold]
pub fn not_found(
    alloc: Global,
    name: &Text,
    values: &Array,
    position: Position,
) -> Result<EvalAltResult, OutOfMemory>
    ensures { IfOk result
        (λ x. problem_of x ≡ not_found name.now (map value_of values.now) position) }
{
    let word = name.as_str();
    if let Some(property) = word.strip_prefix("get$") {
        let text = unknown_property(alloc, property, values)?;
        return Ok(EvalAltResult::ErrorDotExpr(text, position));
    }
    if let Some(property) = word.strip_prefix("set$") {
        let text = unwritable_property(alloc, property, values)?;
        return Ok(EvalAltResult::ErrorDotExpr(text, position));
    }
    if word == "index$get$" {
        let text = index_text(alloc, values)?;
        return Ok(EvalAltResult::ErrorIndexingType(text, position));
    }
    if word == "index$set$" {
        let mut text = index_text(alloc, values)?;
        text.push_str(" = ")?;
        push_type(alloc, &mut text, values, 2)?;
        return Ok(EvalAltResult::ErrorIndexingType(text, position));
    }
    let text = signature(alloc, name, values)?;
    Ok(EvalAltResult::ErrorFunctionNotFound(text, position))
}

/// Whether a fault says that no function of this name is found.
pub fn says_missing(name: &Text, fault: &EvalAltResult) -> bool
    ensures { result ≡ says_missing name.now (problem_of fault.now) }
{
    match fault {
        EvalAltResult::ErrorFunctionNotFound(text, _) => text.as_str().starts_with(name.as_str()),
        _ => false,
    }
}

// A function's name and the types of its arguments.
fn signature(alloc: Global, name: &Text, values: &Array) -> Result<Text, OutOfMemory>
    ensures { IfOk result (λ text. text ≡ signature_text name.now (map value_of values.now)) }
{
    let mut text = name.copy(alloc)?;
    text.push_str(" (")?;
    push_types(alloc, &mut text, values)?;
    text.push_str(")")?;
    Ok(text)
}

// The text that a property is unknown.
fn unknown_property(alloc: Global, property: &str, values: &Array) -> Result<Text, OutOfMemory>
    ensures { IfOk result (λ text. text ≡ unknown_property property.now (map value_of values.now)) }
{
    let mut text = Text::copy_of(alloc, "Unknown property '")?;
    text.push_str(property)?;
    text.push_str("' for '")?;
    push_type(alloc, &mut text, values, 0)?;
    text.push_str("'")?;
    Ok(text)
}

// The text that a property cannot be written.
fn unwritable_property(alloc: Global, property: &str, values: &Array) -> Result<Text, OutOfMemory>
    ensures { IfOk result
        (λ text. text ≡ unwritable_property property.now (map value_of values.now)) }
{
    let mut text = Text::copy_of(alloc, "No writable property '")?;
    text.push_str(property)?;
    text.push_str("' for '")?;
    push_type(alloc, &mut text, values, 0)?;
    text.push_str("'")?;
    Ok(text)
}

// The types of a value and of its index.
fn index_text(alloc: Global, values: &Array) -> Result<Text, OutOfMemory>
    ensures { IfOk result (λ text. text ≡ index_text (map value_of values.now)) }
{
    let mut text = Text::new(alloc);
    push_type(alloc, &mut text, values, 0)?;
    text.push_str(" [")?;
    push_type(alloc, &mut text, values, 1)?;
    text.push_str("]")?;
    Ok(text)
}

// The type of the value at a place, or nothing where there is none.
fn push_type(alloc: Global, out: &mut Text, values: &Array, index: usize) -> Result<(), OutOfMemory>
    ensures { IfOk result (λ _. out.new ≡ out.old ++ type_at index (map value_of values.now)) }
{
    match values.get(index) {
        Some(value) => out.push_str(value.own_type_name(alloc)?.as_str()),
        None => Ok(()),
    }
}

// The types of values, with a comma between them.
fn push_types(alloc: Global, out: &mut Text, values: &Array) -> Result<(), OutOfMemory>
    ensures { IfOk result (λ _. out.new ≡ out.old ++ types_text [] (map value_of values.now)) }
{
    let mut lead = "";
    for index in 0..values.len() {
        out.push_str(lead)?;
        out.push_str(values.at(index).own_type_name(alloc)?.as_str())?;
        lead = ", ";
    }
    Ok(())
}
