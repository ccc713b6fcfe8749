//! The replies, each a status and the text that is written.

ghost use Rattle.std.specs.Prelude.{◌≡◌, ◌≢◌, ◌++◌, IfOk};
ghost use Rattle.std.specs.Fmt.{decimal};
ghost use Rattle.grain_fault.specs.Problems.{problem_of};
ghost use Rattle.grain_fault.specs.declared.faults.EvalAltResult.TheVariants as faults;
ghost use Rattle.grain_program.specs.declared.verifier.refusals.Refusal.TheVariants as refusals;
ghost use Rattle.grain_commands.specs.Reports.{counted_value, line_end, report_value, report_fault, told_value};
ghost use Rattle.grain_commands.specs.Replies.{usage_text, bad_line_text, refusal_text};

use crate::reports::{report_fault, report_value};
use grain_fault::{EvalAltResult, Fault};
use grain_listing::BadLine;
use grain_program::Refusal;
use grain_value::{Dynamic, OutOfMemory, Store, Text};
use std::alloc::Global;

/// A status, and the text that is written.
#[derive(Drop)]
pub struct Reply {
    pub status: u8,
    pub text: Text,
}

/// The reply to words that are no command: 2, and the usage.
pub fn usage(alloc: Global) -> Result<Reply, OutOfMemory>
    ensures status { IfOk result (λ r. r.status ≡ 2) }
    ensures text { IfOk result (λ r. r.text ≡ usage_text) }
{
    let text = Text::copy_of(alloc, "usage: run, check, list or self N\n")?;
    Ok(Reply { status: 2, text })
}

/// A line with a number in it: the lead, the number, the colon and the name.
fn push_line(
    out: &mut Text,
    lead: &str,
    number: usize,
    colon: &str,
    name: &str,
) -> Result<(), OutOfMemory>
    ensures { IfOk result (λ _. out.new ≡
        out.old ++ (lead.now ++ decimal number ++ colon.now ++ name.now ++ line_end)) }
{
    out.push_str(lead)?;
    out.push_number(number as u64)?;
    out.push_str(colon)?;
    out.push_str(name)?;
    out.push_str("\n")
}

/// The reply to bytes that are no listing: 3, the first line that is wrong, and why.
pub fn no_listing(alloc: Global, bad: BadLine) -> Result<Reply, OutOfMemory>
    ensures status { IfOk result (λ r. r.status ≡ 3) }
    ensures text { IfOk result (λ r. r.text ≡ bad_line_text bad) }
{
    let mut text = Text::new(alloc);
    push_line(
        &mut text,
        "listing line ",
        bad.line,
        ": ",
        bad.reason.text(),
    )?;
    Ok(Reply { status: 3, text })
}

/// The reply to a listing whose parts are refused: 4, the address, and the rule. If the refusal is
/// want of memory, there is none.
pub fn refused(alloc: Global, refusal: Refusal) -> Result<Reply, OutOfMemory>
    ensures status { IfOk result (λ r. r.status ≡ 4) }
    ensures text { IfOk result (λ r. r.text ≡ refusal_text refusal) }
    ensures rule { IfOk result (λ _. refusal ≢ refusals.Memory) }
{
    if let Refusal::Memory = refusal {
        return Err(OutOfMemory);
    }
    let mut text = Text::new(alloc);
    push_line(
        &mut text,
        "refused at ",
        refusal.address(),
        ": ",
        refusal.name(),
    )?;
    Ok(Reply { status: 4, text })
}

/// The reply to a run that ended in a value: 0, what was printed, and the value's report.
fn value_reply(
    alloc: Global,
    printed: &Text,
    value: &Dynamic,
    cells: &Store,
) -> Result<Reply, OutOfMemory>
    ensures status { IfOk result (λ r. r.status ≡ 0) }
    ensures text { IfOk result (λ r. r.text ≡ printed.now ++ report_value cells.now value.now) }
{
    let report = report_value(alloc, value, cells)?;
    let mut text = printed.copy(alloc)?;
    text.push_str(report.as_str())?;
    Ok(Reply { status: 0, text })
}

/// The reply to a run that ended in a value, where its operations are told: 0, the value and their
/// number.
fn counted_reply(
    alloc: Global,
    value: &Dynamic,
    cells: &Store,
    operations: u64,
) -> Result<Reply, OutOfMemory>
    ensures status { IfOk result (λ r. r.status ≡ 0) }
    ensures text { IfOk result (λ r. r.text ≡ counted_value cells.now value.now operations) }
{
    let mut text = Text::copy_of(alloc, "value ")?;
    value.write_content(&mut text, cells)?;
    text.push_str(" operations ")?;
    text.push_number(operations)?;
    text.push_str("\n")?;
    Ok(Reply { status: 0, text })
}

/// The reply to a run that ended in a value after this many operations: where they are told, the value and
/// their number, and otherwise what was printed and the value's report.
pub fn told_reply(
    alloc: Global,
    told: bool,
    printed: &Text,
    value: &Dynamic,
    cells: &Store,
    operations: u64,
) -> Result<Reply, OutOfMemory>
    ensures status { IfOk result (λ r. r.status ≡ 0) }
    ensures text { IfOk result (λ r.
        r.text ≡ told_value told printed.now cells.now value.now operations) }
{
    if told {
        counted_reply(alloc, value, cells, operations)
    } else {
        value_reply(alloc, printed, value, cells)
    }
}

/// The reply to a run that ended in a fault: 1, what was printed, and the fault's report. If the
/// fault is want of memory, there is none.
pub fn fault_reply(
    alloc: Global,
    printed: &Text,
    fault: &EvalAltResult,
    trace: &[Fault],
) -> Result<Reply, OutOfMemory>
    ensures status { IfOk result (λ r. r.status ≡ 1) }
    ensures text { IfOk result (λ r.
        r.text ≡ printed.now ++ report_fault (problem_of fault.now) trace.now) }
    ensures memory { IfOk result (λ _. fault.now ≢ faults.Memory) }
{
    if let EvalAltResult::Memory = fault {
        return Err(OutOfMemory);
    }
    let report = report_fault(alloc, fault, trace)?;
    let mut text = printed.copy(alloc)?;
    text.push_str(report.as_str())?;
    Ok(Reply { status: 1, text })
}
