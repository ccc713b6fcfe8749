//! What the variable of a catch holds.

ghost use Rattle.std.specs.Prelude.{◌≡◌, IfOk, option_map};
ghost use Rattle.grain_value.specs.Maps.{put_entry};
ghost use Rattle.grain_value.specs.View.{tree};
ghost use Rattle.grain_fault.specs.Places.{nowhere};
ghost use Rattle.grain_fault.specs.Positions.{at_position};
ghost use Rattle.grain_fault.specs.Problems.{problem_of};
ghost use Rattle.grain_fault.specs.Texts.{fault_text};
ghost use Rattle.grain_fault.specs.CatchValues.{caught_value, thrown_in, with_source, with_place, fault_map};

use crate::faults::EvalAltResult;
use crate::places::Position;
use grain_value::{Dynamic, Map, OutOfMemory, Text};
use std::alloc::Global;

// The value that the fault throws, if it throws one.
fn thrown(fault: &EvalAltResult) -> Option<&Dynamic>
    ensures { option_map (λ v. v.now) result ≡ thrown_in (problem_of fault.now) }
{
    match fault {
        EvalAltResult::ErrorRuntime(value, _) => Some(value),
        _ => None,
    }
}

// A value at a key.
fn put(map: &mut Map, alloc: Global, key: &str, value: Dynamic) -> Result<(), OutOfMemory>
    ensures { IfOk result (λ _. map.new ≡ put_entry key.now (tree value) map.old) }
{
    let key = Text::copy_of(alloc, key)?;
    map.insert(key, value)?;
    Ok(())
}

// The program's source, if it has one.
fn put_source(map: &mut Map, alloc: Global, source: Option<&Text>) -> Result<(), OutOfMemory>
    ensures { IfOk result (λ _. map.new ≡ with_source (option_map (λ t. t.now) source.entry) map.old) }
{
    match source {
        Some(source) => put(map, alloc, "source", Dynamic::Text(source.copy(alloc)?)),
        None => Ok(()),
    }
}

// The line and the column of a position, if it is one.
fn put_place(map: &mut Map, alloc: Global, position: Position) -> Result<(), OutOfMemory>
    ensures { IfOk result (λ _. map.new ≡ with_place position map.old) }
{
    let Some(line) = position.line() else {
        return Ok(());
    };
    let column = match position.position() {
        Some(column) => column,
        None => 0,
    };
    put(map, alloc, "line", Dynamic::Int(line as i64))?;
    put(map, alloc, "position", Dynamic::Int(column as i64))
}

// The text of a fault, without its own position. The fault is as it was afterwards.
fn text_without_position(alloc: Global, fault: &mut EvalAltResult) -> Result<Text, OutOfMemory>
    ensures text { IfOk result (λ text. text ≡ fault_text (at_position nowhere
        (problem_of fault.old))) }
    ensures same { problem_of fault.new ≡ problem_of fault.old }
{
    let position = fault.take_position();
    let mut text = Text::new(alloc);
    let written = fault.write_text(&mut text);
    fault.set_position(position);
    written?;
    Ok(text)
}

// A fault as a map: its text, where it was raised, and its fields. The fault is as it was
// afterwards.
fn map_of(
    alloc: Global,
    source: Option<&Text>,
    fault: &mut EvalAltResult,
) -> Result<Map, OutOfMemory>
    ensures map { IfOk result
        (λ map. map ≡ fault_map (option_map (λ t. t.now) source.entry) (problem_of fault.old)) }
    ensures same { problem_of fault.new ≡ problem_of fault.old }
{
    let text = text_without_position(alloc, fault)?;
    let mut map = Map::new(alloc);
    put(&mut map, alloc, "message", Dynamic::Text(text))?;
    put_source(&mut map, alloc, source)?;
    put_place(&mut map, alloc, fault.position())?;
    fault.dump_fields(&mut map)?;
    Ok(map)
}

/// What the variable of a catch holds: the value that the fault throws, also where it left calls or
/// modules, and else the fault as a map. The fault is as it was afterwards.
pub fn caught_value(
    alloc: Global,
    source: Option<&Text>,
    fault: &mut EvalAltResult,
) -> Result<Dynamic, OutOfMemory>
    ensures value { IfOk result
        (λ v. v ≡ caught_value (option_map (λ t. t.now) source.entry) (problem_of fault.old)) }
    ensures same { problem_of fault.new ≡ problem_of fault.old }
{
    if let Some(value) = thrown(fault.unwrap_inner()) {
        return value.copy(alloc);
    }
    Ok(Dynamic::Map(map_of(alloc, source, fault)?))
}
