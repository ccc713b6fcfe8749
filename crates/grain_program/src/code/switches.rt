//! Switches: tables that lead each value to an address.

ghost use Rattle.std.specs.Prelude.{◌≡◌, IfOk};
ghost use Rattle.grain_program.specs.Switches.{is_value, same_truth, in_range, case_target, range_target, switch_target};

use grain_value::{Dynamic, List, OutOfMemory, Text};
use std::alloc::Global;

/// A value that a case is for.
#[derive(Drop)]
pub enum CaseValue {
    /// No value.
    Unit,
    /// A truth value.
    Bool(bool),
    /// An integer.
    Int(i64),
    /// A character.
    Char(char),
    /// A text.
    Text(Text),
}

impl CaseValue {
    /// The same value.
    pub fn copy(&self, alloc: Global) -> Result<CaseValue, OutOfMemory>
        ensures { IfOk result (λ value. value ≡ self.now) }
    {
        match self {
            CaseValue::Unit => Ok(CaseValue::Unit),
            CaseValue::Bool(truth) => Ok(CaseValue::Bool(*truth)),
            CaseValue::Int(integer) => Ok(CaseValue::Int(*integer)),
            CaseValue::Char(character) => Ok(CaseValue::Char(*character)),
            CaseValue::Text(text) => {
                let text = text.copy(alloc)?;
                Ok(CaseValue::Text(text))
            }
        }
    }

    /// Whether the value is this one.
    fn is(&self, value: &Dynamic) -> bool
        ensures { result ≡ is_value self.now value.now }
    {
        match (self, value) {
            (CaseValue::Unit, Dynamic::Unit) => true,
            (CaseValue::Bool(a), Dynamic::Bool(b)) => *a == *b,
            (CaseValue::Int(a), Dynamic::Int(b)) => *a == *b,
            (CaseValue::Char(a), Dynamic::Char(b)) => *a == *b,
            (CaseValue::Text(a), Dynamic::Text(b)) => a.as_str() == b.as_str(),
            _ => false,
        }
    }
}

/// A value, and the address where it leads.
#[derive(Drop)]
pub struct Case {
    pub value: CaseValue,
    pub target: u32,
}

/// The integers from one to another, and the address where they lead. The last belongs to them if
/// the range is inclusive.
#[derive(Drop)]
pub struct SwitchRange {
    pub from: i64,
    pub to: i64,
    pub inclusive: bool,
    pub target: u32,
}

impl SwitchRange {
    /// Whether the integer is one of the range.
    fn holds(&self, number: i64) -> bool
        ensures { result ≡ in_range self.now number }
    {
        self.from <= number && (number < self.to || self.inclusive && number == self.to)
    }
}

/// The cases of a switch.
pub type Cases = List<Case>;

/// The ranges of a switch.
pub type SwitchRanges = List<SwitchRange>;

/// Where values lead: the first case of a value, or else for an integer the first range that has it,
/// or else the address for all others.
#[derive(Drop)]
pub struct Switch {
    pub cases: Cases,
    pub ranges: SwitchRanges,
    pub default: u32,
}

/// The target of the first range that has the integer, if one has it.
fn range_target(ranges: &[SwitchRange], number: i64) -> Option<u32>
    ensures { result ≡ range_target number ranges.now }
{
    for range in ranges {
        if range.holds(number) {
            return Some(range.target);
        }
    }
    None
}

impl Switch {
    /// The target of the first case of the value, if there is one.
    fn case_target(&self, value: &Dynamic) -> Option<u32>
        ensures { result ≡ case_target value.now self.now.cases }
    {
        let cases = self.cases.as_slice();
        for case in cases {
            if case.value.is(value) {
                return Some(case.target);
            }
        }
        None
    }

    /// The address where the value leads.
    pub fn target_of(&self, value: &Dynamic) -> u32
        ensures { result ≡ switch_target self.now value.now }
    {
        if let Some(target) = self.case_target(value) {
            return target;
        }
        let Dynamic::Int(number) = value else {
            return self.default;
        };
        match range_target(self.ranges.as_slice(), *number) {
            Some(target) => target,
            None => self.default,
        }
    }
}

/// The switches of a program.
pub type Switches = List<Switch>;
