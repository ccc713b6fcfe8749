//! What is written of a line that gives code, and of what is asked.

ghost use Rattle.std.specs.Prelude.{◌≡◌, ◌++◌, IfOk, slice_get};
ghost use Rattle.std.specs.Str.{encode_utf8_all};
ghost use Rattle.grain_program.specs.View.{view_of};
ghost use Rattle.grain_addresses.specs.Replies.{named_in};
ghost use Rattle.grain_addresses.specs.Texts.{name_text, function_text, block_text, position_text, code_text, source_text, place_text, table_text, slot_text, query_text, of_line_text, step_text, no_step_text, inside_text, past_text};

use crate::blocks::Block;
use crate::places::Place;
use crate::queries::Query;
use crate::step_lines::StepLine;
use grain_fault::Position;
use grain_program::{Function, Names, Parts};
use grain_value::{OutOfMemory, Text};

/// The name between quotes, or its index if there is no such name.
fn push_name(out: &mut Text, names: &Names, index: u32) -> Result<(), OutOfMemory>
    ensures { IfOk result (λ _. out.new ≡
        out.old ++ name_text index (slice_get names.now index)) }
{
    match names.get(index as usize) {
        None => out.push_number(u64::from(index)),
        Some(name) => out.push_quoted(name.as_str()),
    }
}

/// A function: `fn`, its name, and how many parameters it has.
fn push_function(out: &mut Text, names: &Names, function: &Function) -> Result<(), OutOfMemory>
    ensures { IfOk result (λ _. out.new ≡
        out.old ++ function_text names.now (Some function.now)) }
{
    out.push_str("fn ")?;
    push_name(out, names, function.name)?;
    out.push_str(" ")?;
    out.push_number(function.params.len() as u64)
}

fn push_block(out: &mut Text, parts: &Parts, block: Block) -> Result<(), OutOfMemory>
    ensures { IfOk result (λ _. out.new ≡
        out.old ++ block_text (named_in (view_of parts.now)) block) }
{
    match block {
        Block::Main => out.push_str("main"),
        Block::Function(number) => match parts.functions.get(number) {
            None => out.push_str("fn"),
            Some(function) => push_function(out, &parts.names, function),
        },
    }
}

/// `@LINE:COLUMN`, or a dash where there is none, between tabs.
fn push_position(out: &mut Text, position: Option<Position>) -> Result<(), OutOfMemory>
    ensures { IfOk result (λ _. out.new ≡ out.old ++ position_text position) }
{
    match position {
        None => out.push_str("\t-\t"),
        Some(position) => {
            out.push_str("\t@")?;
            out.push_number(position.line().unwrap_or(0) as u64)?;
            out.push_str(":")?;
            out.push_number(position.position().unwrap_or(0) as u64)?;
            out.push_str("\t")
        }
    }
}

/// A line's address and its number.
fn push_code(out: &mut Text, place: &Place) -> Result<(), OutOfMemory>
    ensures { IfOk result (λ _. out.new ≡ out.old ++ code_text place.now) }
{
    out.push_number(place.address() as u64)?;
    out.push_str("\tline ")?;
    out.push_number(place.line() as u64)?;
    out.push_str("\t")
}

/// The line itself.
fn push_source(out: &mut Text, line: &[char]) -> Result<(), OutOfMemory>
    ensures { IfOk result (λ _. out.new ≡ out.old ++ source_text line.now) }
{
    let mut rest = line;
    'scan: while let Some((c, after)) = rest.split_first() {
        out.push(*c)?;
        rest = after;
    }
    out.push_str("\n")
}

/// A line that gives code: its address, its number, its block, its position, and the line itself.
pub fn push_place(out: &mut Text, parts: &Parts, place: &Place) -> Result<(), OutOfMemory>
    ensures { IfOk result (λ _. out.new ≡
        out.old ++ place_text (named_in (view_of parts.now)) place.now) }
{
    push_code(out, place)?;
    push_block(out, parts, place.block())?;
    push_position(out, place.position())?;
    push_source(out, place.text())
}

/// All lines that give code.
pub fn push_table(out: &mut Text, parts: &Parts, places: &[Place]) -> Result<(), OutOfMemory>
    ensures { IfOk result (λ _. out.new ≡
        out.old ++ table_text (named_in (view_of parts.now)) places.now) }
{
    for place in places {
        push_place(out, parts, place)?;
    }
    Ok(())
}

fn push_slot(out: &mut Text, slot: Option<u32>) -> Result<(), OutOfMemory>
    ensures { IfOk result (λ _. out.new ≡ out.old ++ slot_text slot) }
{
    match slot {
        None => Ok(()),
        Some(slot) => {
            out.push_str(":")?;
            out.push_number(u64::from(slot))
        }
    }
}

/// An address, with its slot if one is asked for.
fn push_query(out: &mut Text, query: Query) -> Result<(), OutOfMemory>
    ensures { IfOk result (λ _. out.new ≡ out.old ++ query_text query) }
{
    out.push_number(u64::from(query.address))?;
    push_slot(out, query.slot)
}

fn push_of_line(out: &mut Text, line: usize) -> Result<(), OutOfMemory>
    ensures { IfOk result (λ _. out.new ≡ out.old ++ of_line_text line) }
{
    out.push_str(" of line ")?;
    out.push_number(line as u64)?;
    out.push_str("\n")
}

/// The line of a step: what was asked for, the line's number, and the line itself.
pub fn push_step(out: &mut Text, query: Query, step: &StepLine) -> Result<(), OutOfMemory>
    ensures { IfOk result (λ _. out.new ≡ out.old ++ step_text query step.now) }
{
    push_query(out, query)?;
    out.push_str("\tline ")?;
    out.push_number(step.line() as u64)?;
    out.push_str("\t")?;
    push_source(out, step.text())
}

/// No step of the instruction that begins at the address has the slot.
pub fn push_no_step(out: &mut Text, query: Query, place: &Place) -> Result<(), OutOfMemory>
    ensures { IfOk result (λ _. out.new ≡ out.old ++ no_step_text query place.now) }
{
    push_query(out, query)?;
    out.push_str("\tno step begins at this slot in the instruction")?;
    push_of_line(out, place.line())
}

/// No instruction begins at the address, which is inside one.
pub fn push_inside(out: &mut Text, query: Query, place: &Place) -> Result<(), OutOfMemory>
    ensures { IfOk result (λ _. out.new ≡ out.old ++ inside_text query place.now) }
{
    push_query(out, query)?;
    out.push_str("\tinside the instruction at ")?;
    out.push_number(place.address() as u64)?;
    push_of_line(out, place.line())
}

/// The address is past the code, which has this many bytes.
pub fn push_past(out: &mut Text, query: Query, bytes: usize) -> Result<(), OutOfMemory>
    ensures { IfOk result (λ _. out.new ≡ out.old ++ past_text query bytes) }
{
    push_query(out, query)?;
    out.push_str("\tpast the code, which has ")?;
    out.push_number(bytes as u64)?;
    out.push_str(" bytes\n")
}
