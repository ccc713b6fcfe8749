//! Reports: what is written of a run's end.

ghost use Rattle.std.specs.Prelude.{◌≡◌, ◌++◌, IfOk, codes};
ghost use Rattle.grain_fault.specs.Problems.{problem_of};
ghost use Rattle.grain_fault.specs.Texts.{fault_name, fault_text};
ghost use Rattle.grain_commands.specs.Reports.{line_end, report_value, report_fault, entry_text, entries_text, slot_text};

use grain_fault::{EvalAltResult, Fault};
use grain_value::{Dynamic, OutOfMemory, Store, Text};
use std::alloc::Global;

/// The report of a value: `value` and the value as a listing has it. Of a cell it is that of what
/// the cell holds.
pub fn report_value(alloc: Global, value: &Dynamic, cells: &Store) -> Result<Text, OutOfMemory>
    ensures { IfOk result (λ t. t ≡ report_value cells.now value.now) }
{
    let mut out = Text::new(alloc);
    out.push_str("value ")?;
    value.write_content(&mut out, cells)?;
    out.push_str("\n")?;
    Ok(out)
}

/// The slot of a chain's step, after a colon, if any.
fn push_slot(out: &mut Text, slot: Option<u32>) -> Result<(), OutOfMemory>
    ensures { IfOk result (λ _. out.new ≡ out.old ++ slot_text slot) }
{
    match slot {
        None => Ok(()),
        Some(slot) => {
            out.push_str(":")?;
            out.push_number(u64::from(slot))
        }
    }
}

/// An entry of the trace, with a space before it.
fn push_entry(out: &mut Text, entry: Fault) -> Result<(), OutOfMemory>
    ensures { IfOk result (λ _. out.new ≡ out.old ++ entry_text entry) }
{
    out.push_str(" ")?;
    out.push_number(entry.address as u64)?;
    push_slot(out, entry.slot)
}

/// All entries of the trace.
fn push_entries(out: &mut Text, entries: &[Fault]) -> Result<(), OutOfMemory>
    ensures { IfOk result (λ _. out.new ≡ out.old ++ entries_text entries.now) }
{
    for entry in entries {
        push_entry(out, *entry)?;
    }
    Ok(())
}

/// A fault's first line: its name.
fn push_name(out: &mut Text, fault: &EvalAltResult) -> Result<(), OutOfMemory>
    ensures { IfOk result (λ _. out.new ≡
        out.old ++ (codes "fault " ++ fault_name (problem_of fault.now) ++ line_end)) }
{
    out.push_str("fault ")?;
    out.push_str(fault.name())?;
    out.push_str("\n")
}

/// A fault's second line: its text.
fn push_text(out: &mut Text, fault: &EvalAltResult) -> Result<(), OutOfMemory>
    ensures { IfOk result (λ _. out.new ≡
        out.old ++ (fault_text (problem_of fault.now) ++ line_end)) }
{
    fault.write_text(out)?;
    out.push_str("\n")
}

/// A fault's third line: where the frames that it left stopped.
fn push_trace(out: &mut Text, trace: &[Fault]) -> Result<(), OutOfMemory>
    ensures { IfOk result (λ _. out.new ≡
        out.old ++ (codes "trace" ++ entries_text trace.now ++ line_end)) }
{
    out.push_str("trace")?;
    push_entries(out, trace)?;
    out.push_str("\n")
}

/// The report of a fault: `fault` and its name, its text, and where the frames that it left
/// stopped.
pub fn report_fault(
    alloc: Global,
    fault: &EvalAltResult,
    trace: &[Fault],
) -> Result<Text, OutOfMemory>
    ensures { IfOk result (λ t. t ≡ report_fault (problem_of fault.now) trace.now) }
{
    let mut out = Text::new(alloc);
    push_name(&mut out, fault)?;
    push_text(&mut out, fault)?;
    push_trace(&mut out, trace)?;
    Ok(out)
}
