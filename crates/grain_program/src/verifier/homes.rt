//! The chunks to which switches lead.

ghost use Rattle.std.specs.Prelude.{◌≡◌, IfOk, map};
ghost use Rattle.grain_program.specs.Switches.{case_targets, range_targets};
ghost use Rattle.grain_program.specs.Owners.{owner_at, owns_all, home_of};

use crate::code::switches::{Case, Switch, SwitchRange};
use crate::verifier::owners::Owner;
use grain_value::OutOfMemory;
use std::alloc::Global;

/// The end of the chunk of which an instruction begins at the address, or 0 if none begins there.
pub fn owner_end(owners: &[Owner], address: u32) -> u32
    ensures { result ≡ (owner_at owners.now address).end }
{
    match owners.get(address as usize) {
        Some(owner) => owner.end,
        None => 0,
    }
}

/// Whether the chunk of this end owns an instruction at the target of each case.
fn owns_cases(owners: &[Owner], end: u32, cases: &[Case]) -> bool
    ensures { result ≡ owns_all owners.now end (case_targets cases.now) }
{
    for case in cases {
        if owner_end(owners, case.target) != end {
            return false;
        }
    }
    true
}

/// Whether the chunk of this end owns an instruction at the target of each range.
fn owns_ranges(owners: &[Owner], end: u32, ranges: &[SwitchRange]) -> bool
    ensures { result ≡ owns_all owners.now end (range_targets ranges.now) }
{
    for range in ranges {
        if owner_end(owners, range.target) != end {
            return false;
        }
    }
    true
}

/// The end of the one chunk that owns an instruction at each target of the switch, or 0 if there is no
/// such chunk.
fn home_of(owners: &[Owner], switch: &Switch) -> u32
    ensures { result ≡ home_of owners.now switch.now }
{
    let end = owner_end(owners, switch.default);
    if owns_cases(owners, end, switch.cases.as_slice())
        && owns_ranges(owners, end, switch.ranges.as_slice())
    {
        end
    } else {
        0
    }
}

/// The same for each of the switches.
pub fn homes_of(
    alloc: Global,
    owners: &[Owner],
    switches: &[Switch],
) -> Result<Vec<u32>, OutOfMemory>
    ensures { IfOk result (λ homes. homes.items ≡ map (home_of owners.now) switches.now) }
{
    let mut homes = Vec::new(alloc);
    for switch in switches {
        homes.push(home_of(owners, switch))?;
    }
    Ok(homes)
}
