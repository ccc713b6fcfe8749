//! The aims of switches are looked up.

ghost use Rattle.std.specs.Prelude.{◌≡◌, IfOk, map};
ghost use Rattle.grain_words.specs.Labels.{address_of};
ghost use Rattle.grain_listing.specs.SwitchTargets.{all_known, target_of, linked_case, linked_range, linked_switch};

use crate::reasons::BadLine;
use crate::switch_words::{Aim, AimedCase, AimedRange, AimedSwitch};
use grain_literals::Reason;
use grain_program::{Case, Cases, Switch, SwitchRange, SwitchRanges, Switches};
use grain_value::OutOfMemory;
use grain_words::Labels;
use std::alloc::Global;

/// Whether each label of the aims is known, or the first line that names an unknown one.
pub fn check_aims(labels: &Labels, aims: &[Aim]) -> Result<(), BadLine>
    ensures { result ≡ all_known (λ t. address_of t labels.now) aims.now }
{
    for aim in aims {
        if let Aim::Label { line, label } = aim
            && labels.get(label.as_str()).is_none()
        {
            return Err(BadLine {
                line: *line,
                reason: Reason::UnknownLabel,
            });
        }
    }
    Ok(())
}

/// The address to which the aim leads.
fn target_of(labels: &Labels, aim: &Aim) -> u32
    ensures { result ≡ target_of (λ t. address_of t labels.now) aim.now }
{
    match aim {
        Aim::Address(address) => *address,
        Aim::Label { label, .. } => match labels.get(label.as_str()) {
            Some(address) => address,
            None => 0,
        },
    }
}

fn linked_cases(alloc: Global, labels: &Labels, cases: &[AimedCase]) -> Result<Cases, OutOfMemory>
    ensures { IfOk result (λ r. r ≡ map (linked_case (λ t. address_of t labels.now)) cases.now) }
{
    let mut found = Cases::new(alloc);
    for case in cases {
        let value = case.value.copy(alloc)?;
        let target = target_of(labels, &case.aim);
        found.push(Case { value, target })?;
    }
    Ok(found)
}

fn linked_ranges(
    alloc: Global,
    labels: &Labels,
    ranges: &[AimedRange],
) -> Result<SwitchRanges, OutOfMemory>
    ensures { IfOk result (λ r. r ≡ map (linked_range (λ t. address_of t labels.now)) ranges.now) }
{
    let mut found = SwitchRanges::new(alloc);
    for range in ranges {
        found.push(SwitchRange {
            from: range.from,
            to: range.to,
            inclusive: range.inclusive,
            target: target_of(labels, &range.aim),
        })?;
    }
    Ok(found)
}

fn linked_switch(
    alloc: Global,
    labels: &Labels,
    switch: &AimedSwitch,
) -> Result<Switch, OutOfMemory>
    ensures { IfOk result (λ r. r ≡ linked_switch (λ t. address_of t labels.now) switch.now) }
{
    let cases = linked_cases(alloc, labels, switch.cases.as_slice())?;
    let ranges = linked_ranges(alloc, labels, switch.ranges.as_slice())?;
    let default = target_of(labels, &switch.default);
    Ok(Switch {
        cases,
        ranges,
        default,
    })
}

/// The switches, with the addresses to which their aims lead.
pub fn linked_switches(
    alloc: Global,
    labels: &Labels,
    switches: &[AimedSwitch],
) -> Result<Switches, OutOfMemory>
    ensures { IfOk result (λ r. r ≡
        map (linked_switch (λ t. address_of t labels.now)) switches.now) }
{
    let mut found = Switches::new(alloc);
    for switch in switches {
        let linked = linked_switch(alloc, labels, switch)?;
        found.push(linked)?;
    }
    Ok(found)
}
