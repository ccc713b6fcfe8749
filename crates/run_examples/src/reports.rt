//! Reports: what is written of a run's end.

ghost use Rattle.std.specs.Prelude.{◌≡◌, ◌++◌, IfOk, codes};
ghost use Rattle.grain_fault.specs.Problems.{problem_of};
ghost use Rattle.grain_fault.specs.Texts.{fault_name, fault_text};
ghost use Rattle.run_examples.specs.Reports.{addresses, line_end, report};

use crate::rules::Outcome;
use grain_fault::{EvalAltResult, Fault};
use grain_value::{OutOfMemory, Text};
use std::alloc::Global;

/// The addresses of a trace, each after a space.
fn push_addresses(out: &mut Text, trace: &[Fault]) -> Result<(), OutOfMemory>
    ensures { IfOk result (λ _. out.new ≡ out.old ++ addresses trace.now) }
{
    for entry in trace {
        out.push_str(" ")?;
        out.push_number(entry.address as u64)?;
    }
    Ok(())
}

/// A fault's name and its text, a line for each.
fn push_fault(out: &mut Text, fault: &EvalAltResult) -> Result<(), OutOfMemory>
    ensures { IfOk result (λ _. out.new ≡
        out.old ++ (codes "fault " ++ fault_name (problem_of fault.now) ++ line_end ++
        fault_text (problem_of fault.now) ++ line_end)) }
{
    out.push_str("fault ")?;
    out.push_str(fault.name())?;
    out.push_str("\n")?;
    fault.write_text(out)?;
    out.push_str("\n")
}

/// The report of a run: what is said of its host, and its end.
pub fn report(alloc: Global, said: &Text, outcome: &Outcome) -> Result<Text, OutOfMemory>
    ensures { IfOk result (λ t.
        t ≡ report said.now outcome.now.cells outcome.now.result outcome.now.trace.items) }
{
    let mut out = said.copy(alloc)?;
    match &outcome.result {
        Ok(value) => {
            out.push_str("value ")?;
            value.write_content(&mut out, &outcome.cells)?;
        }
        Err(fault) => {
            push_fault(&mut out, fault)?;
            out.push_str("trace")?;
            push_addresses(&mut out, &outcome.trace)?;
        }
    }
    out.push_str("\n")?;
    Ok(out)
}
