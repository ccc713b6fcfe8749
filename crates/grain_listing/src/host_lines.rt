//! The lines of the host's tables.

ghost use Rattle.std.specs.Prelude.{◌≡◌, true, IfOk};
ghost use Rattle.grain_value.specs.Cells.{cell_bound, is_clean};
ghost use Rattle.grain_value.specs.View.{tree};
ghost use Rattle.grain_literals.specs.Results.{operand_view};
ghost use Rattle.grain_listing.specs.HostLines.{count_operand, fail_of, stop_of};
ghost use Rattle.grain_listing.specs.declared.table.Line.TheVariants as lines;
ghost use Rattle.grain_listing.specs.views.AssemblerView.{assembler_view, result_view};
ghost use Rattle.grain_listing.specs.views.Assembling.{put_line};

use crate::assembler::Assembler;
use grain_literals::{Reason, alone, constant_of, number_operand};
use grain_value::{Dynamic, OutOfMemory};
use std::alloc::Global;

fn count_operand(line: &[char]) -> Result<(u64, &[char]), Reason>
    ensures { operand_view result ≡ count_operand line.now }
{
    number_operand(u64::MAX, line)
}

/// The number of a call after `fail`.
fn fail_of(line: &[char]) -> Result<u64, Reason>
    ensures { result ≡ fail_of line.now }
{
    let (number, rest) = count_operand(line)?;
    alone(rest)?;
    Ok(number)
}

/// The number of operations and the value after `stop`, which is clean and names no cell.
fn stop_of(alloc: Global, line: &[char]) -> Result<Result<(u64, Dynamic), Reason>, OutOfMemory>
    ensures said { IfOk result (λ r. r ≡ stop_of line.now) }
    ensures plain { IfOk result (λ r. IfOk r (λ s.
        (is_clean (tree s.1) ≡ true) × (cell_bound (tree s.1) ≡ 0))) }
{
    grain_literals::read_values_name_no_cell();
    match count_operand(line) {
        Err(reason) => Ok(Err(reason)),
        Ok((count, rest)) => match constant_of(alloc, rest)? {
            Err(reason) => Ok(Err(reason)),
            Ok(value) => Ok(Ok((count, value))),
        },
    }
}

impl Assembler {
    /// A call of the host that is to fail.
    pub fn put_fail(&mut self, rest: &[char]) -> Result<Result<(), Reason>, OutOfMemory>
        ensures { IfOk result (λ r. result_view r (assembler_view self.new) ≡
            put_line lines.Fail rest.now (assembler_view self.old)) }
    {
        match fail_of(rest) {
            Err(reason) => Ok(Err(reason)),
            Ok(number) => {
                self.host.fail(number)?;
                Ok(Ok(()))
            }
        }
    }

    /// A number of operations at which the run is to end, and the value with which it ends.
    pub fn put_stop(
        &mut self,
        alloc: Global,
        rest: &[char],
    ) -> Result<Result<(), Reason>, OutOfMemory>
        ensures { IfOk result (λ r. result_view r (assembler_view self.new) ≡
            put_line lines.Stop rest.now (assembler_view self.old)) }
    {
        match stop_of(alloc, rest)? {
            Err(reason) => Ok(Err(reason)),
            Ok((count, value)) => {
                self.host.stop(count, value)?;
                Ok(Ok(()))
            }
        }
    }
}
