//! The addresses to which switches lead.

ghost use Rattle.std.specs.Prelude.{◌≡◌, IfOk, IfSome, OnOk, Some, slice_get};
ghost use Rattle.grain_program.specs.Switches.{case_targets, range_targets, targets_in, put_in_order, in_order};

use crate::code::switches::{Case, Switch, SwitchRange};
use grain_value::OutOfMemory;
use std::alloc::Global;
use std::collections::BTreeSet;

/// Adds the target of each case.
fn add_cases(targets: &mut BTreeSet<u32>, cases: &[Case]) -> Result<(), OutOfMemory>
    ensures { OnOk result (targets.new.keys ≡
        put_in_order targets.old.keys (case_targets cases.now)) }
{
    for case in cases {
        targets.insert(case.target)?;
    }
    Ok(())
}

/// Adds the target of each range.
fn add_ranges(targets: &mut BTreeSet<u32>, ranges: &[SwitchRange]) -> Result<(), OutOfMemory>
    ensures { OnOk result (targets.new.keys ≡
        put_in_order targets.old.keys (range_targets ranges.now)) }
{
    for range in ranges {
        targets.insert(range.target)?;
    }
    Ok(())
}

/// The lowest of the targets, if there is one.
pub fn lowest_of(targets: &BTreeSet<u32>) -> Option<u32>
    ensures { IfSome result (λ lowest. slice_get targets.now.keys 0 ≡ Some lowest) }
{
    match targets.first() {
        Some(lowest) => Some(*lowest),
        None => None,
    }
}

/// The targets of the switch, in ascending order.
pub fn ordered_targets(alloc: Global, switch: &Switch) -> Result<BTreeSet<u32>, OutOfMemory>
    ensures { IfOk result (λ targets. targets.keys ≡ in_order (targets_in switch.now)) }
{
    let mut targets = BTreeSet::new(alloc);
    add_cases(&mut targets, switch.cases.as_slice())?;
    add_ranges(&mut targets, switch.ranges.as_slice())?;
    targets.insert(switch.default)?;
    Ok(targets)
}
