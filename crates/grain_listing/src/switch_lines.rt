//! The lines of switches, of their cases and of their ranges.

ghost use Rattle.std.specs.Prelude.{◌≡◌, IfOk, length};
ghost use Rattle.grain_listing.specs.Statements.{with_case, with_range, last_cases, last_ranges};
ghost use Rattle.grain_listing.specs.declared.table.Line.TheVariants as lines;
ghost use Rattle.grain_listing.specs.views.AssemblerView.{assembler_view, result_view};
ghost use Rattle.grain_listing.specs.views.Assembling.{put_line};

use crate::assembler::Assembler;
use crate::pool_lines::POOL_ROOM;
use crate::switch_words::{AimedCase, AimedRange, AimedSwitch, aim_of, case_of, range_of};
use crate::table::takes_cases;
use grain_literals::Reason;
use grain_value::{List, OutOfMemory};
use std::alloc::Global;

/// How many cases the last switch has.
fn case_count(switches: &List<AimedSwitch>) -> usize
    ensures { result ≡ length (last_cases switches.now) }
{
    let count = switches.len();
    if count == 0 {
        return 0;
    }
    switches.at(count - 1).cases.len()
}

/// How many ranges the last switch has.
fn range_count(switches: &List<AimedSwitch>) -> usize
    ensures { result ≡ length (last_ranges switches.now) }
{
    let count = switches.len();
    if count == 0 {
        return 0;
    }
    switches.at(count - 1).ranges.len()
}

/// Adds the case to the last switch.
fn add_case(switches: &mut List<AimedSwitch>, case: AimedCase) -> Result<(), OutOfMemory>
    ensures { IfOk result (λ _. switches.new ≡ with_case case switches.old) }
{
    let count = switches.len();
    if count == 0 {
        return Ok(());
    }
    match switches.get_mut(count - 1) {
        Some(switch) => switch.cases.push(case),
        None => Ok(()),
    }
}

/// Adds the range to the last switch.
fn add_range(switches: &mut List<AimedSwitch>, range: AimedRange) -> Result<(), OutOfMemory>
    ensures { IfOk result (λ _. switches.new ≡ with_range range switches.old) }
{
    let count = switches.len();
    if count == 0 {
        return Ok(());
    }
    match switches.get_mut(count - 1) {
        Some(switch) => switch.ranges.push(range),
        None => Ok(()),
    }
}

impl Assembler {
    /// A switch.
    pub fn put_switch(
        &mut self,
        alloc: Global,
        rest: &[char],
    ) -> Result<Result<(), Reason>, OutOfMemory>
        ensures { IfOk result (λ r. result_view r (assembler_view self.new) ≡
            put_line lines.Switch rest.now (assembler_view self.old)) }
    {
        if self.switches.len() >= POOL_ROOM {
            return Ok(Err(Reason::TooMany));
        }
        match aim_of(alloc, self.line, rest)? {
            Err(reason) => Ok(Err(reason)),
            Ok(default) => {
                let aim = default.copy(alloc)?;
                self.aims.push(aim)?;
                self.switches.push(AimedSwitch {
                    cases: List::new(alloc),
                    ranges: List::new(alloc),
                    default,
                })?;
                Ok(Ok(()))
            }
        }
    }

    /// A case of the switch that is open.
    pub fn put_case(
        &mut self,
        alloc: Global,
        rest: &[char],
    ) -> Result<Result<(), Reason>, OutOfMemory>
        ensures { IfOk result (λ r. result_view r (assembler_view self.new) ≡
            put_line lines.Case rest.now (assembler_view self.old)) }
    {
        if !takes_cases(self.follows) {
            return Ok(Err(Reason::OutOfPlace));
        }
        if case_count(&self.switches) >= POOL_ROOM {
            return Ok(Err(Reason::TooMany));
        }
        match case_of(alloc, self.line, rest)? {
            Err(reason) => Ok(Err(reason)),
            Ok(case) => {
                let aim = case.aim.copy(alloc)?;
                self.aims.push(aim)?;
                add_case(&mut self.switches, case)?;
                Ok(Ok(()))
            }
        }
    }

    /// A range of the switch that is open.
    pub fn put_range(
        &mut self,
        alloc: Global,
        inclusive: bool,
        rest: &[char],
    ) -> Result<Result<(), Reason>, OutOfMemory>
        ensures { IfOk result (λ r. result_view r (assembler_view self.new) ≡
            put_line (lines.Range inclusive) rest.now (assembler_view self.old)) }
    {
        if !takes_cases(self.follows) {
            return Ok(Err(Reason::OutOfPlace));
        }
        if range_count(&self.switches) >= POOL_ROOM {
            return Ok(Err(Reason::TooMany));
        }
        match range_of(alloc, inclusive, self.line, rest)? {
            Err(reason) => Ok(Err(reason)),
            Ok(range) => {
                let aim = range.aim.copy(alloc)?;
                self.aims.push(aim)?;
                add_range(&mut self.switches, range)?;
                Ok(Ok(()))
            }
        }
    }
}
