//! Calculations on two integers, and the faults where there is no result that fits.

ghost use Rattle.std.specs.Prelude.{◌≡◌, ◌≤◌, true, false, IfOk, MatchOption};
ghost use Rattle.std.specs.Int.{int_pow};
ghost use Rattle.grain_ops.specs.declared.calculations.Calculation.TheVariants as calculation;
ghost use Rattle.grain_ops.specs.Calculations.{fits64, exact, has_result, division_lead, power_lead, lead, sign_between, fault_text};

use grain_value::{OutOfMemory, Text};
use std::alloc::Global;

/// What is calculated of two integers.
#[derive(Clone, Copy, Debug, PartialEq, Eq)]
pub enum Calculation {
    Addition,
    Subtraction,
    Multiplication,
    Division,
    Remainder,
    Power,
}

impl Calculation {
    // The exact result, if there is one that fits.
    #[inline(always)]
    pub(crate) fn of(self, x: i64, y: i64) -> Option<i64>
        ensures { MatchOption result (has_result self x y ≡ false)
            (λ z. (z ≡ exact self x y) × (has_result self x y ≡ true)) }
    {
        match self {
            Calculation::Addition => x.checked_add(y),
            Calculation::Subtraction => x.checked_sub(y),
            Calculation::Multiplication => x.checked_mul(y),
            Calculation::Division => x.checked_div(y),
            Calculation::Remainder => x.checked_rem(y),
            Calculation::Power => power(x, y),
        }
    }

    // The text of the fault that there is no result that fits, up to the first number.
    fn lead(self, y: i64) -> &'static str
        ensures { result.now ≡ lead self y }
    {
        match self {
            Calculation::Addition => "Addition overflow: ",
            Calculation::Subtraction => "Subtraction overflow: ",
            Calculation::Multiplication => "Multiplication overflow: ",
            Calculation::Division | Calculation::Remainder => division_lead(y),
            Calculation::Power => power_lead(y),
        }
    }

    // What stands between its numbers.
    fn sign_between(self) -> &'static str
        ensures { result.now ≡ sign_between self }
    {
        match self {
            Calculation::Addition => " + ",
            Calculation::Subtraction => " - ",
            Calculation::Multiplication => " * ",
            Calculation::Division => " / ",
            Calculation::Remainder => " % ",
            Calculation::Power => " ** ",
        }
    }

    // The text of the fault that there is no result that fits.
    pub(crate) fn fault_text(self, alloc: Global, x: i64, y: i64) -> Result<Text, OutOfMemory>
        ensures { IfOk result (λ text. text ≡ fault_text self x y) }
    {
        let mut text = Text::copy_of(alloc, self.lead(y))?;
        text.push_integer(x)?;
        text.push_str(self.sign_between())?;
        text.push_integer(y)?;
        Ok(text)
    }
}

fn division_lead(divisor: i64) -> &'static str
    ensures { result.now ≡ division_lead divisor }
{
    if divisor == 0 {
        "Division by zero: "
    } else {
        "Division overflow: "
    }
}

fn power_lead(exponent: i64) -> &'static str
    ensures { result.now ≡ power_lead exponent }
{
    if exponent < 0 {
        "Integer raised to a negative power: "
    } else {
        "Exponential overflow: "
    }
}

// The power, if the exponent is not negative and the power fits.
fn power(x: i64, exponent: i64) -> Option<i64>
    ensures { MatchOption result (has_result calculation.Power x exponent ≡ false)
        (λ z. (z ≡ exact calculation.Power x exponent)
        × (has_result calculation.Power x exponent ≡ true)) }
{
    if exponent < 0 {
        return None;
    }
    let exponent = exponent.unsigned_abs();
    match u32::try_from(exponent) {
        Ok(exponent) => x.checked_pow(exponent),
        Err(_) => huge_power(x, exponent),
    }
}

// The power of an exponent so large that only 0, 1 and -1 have one that fits.
fn huge_power(x: i64, exponent: u64) -> Option<i64>
    requires { 64 ≤ exponent }
    ensures { MatchOption result (fits64 (int_pow x exponent) ≡ false)
        (λ z. (z ≡ int_pow x exponent) × (fits64 (int_pow x exponent) ≡ true)) }
{
    if x == 0 {
        Some(0)
    } else if x == 1 {
        Some(1)
    } else if x == -1 {
        if exponent % 2 == 0 { Some(1) } else { Some(-1) }
    } else {
        None
    }
}
