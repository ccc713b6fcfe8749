//! What the program may do: limits and capabilities.

ghost use Rattle.std.specs.Prelude.{◌≡◌, ◌<◌, ◌≤◌, IfOk, map, option_map};
ghost use Rattle.std.specs.List.{sum_by};
ghost use Rattle.grain_listing.specs.Settings.{entry_named, default_in, number_of, limit_named, allowed, limit_number, capability_bits, capabilities};
ghost use Rattle.grain_listing.specs.views.Limits.{Allows, limit_line_view, limits_view, row_view, named_view};

use crate::limits::{LIMITS, Limit, LimitLine};
use grain_literals::{Reason, after_name, alone, number_operand};
use grain_words::is_word;

/// The capabilities by their names, in the order in which they stand, with the bit of each.
const CAPABILITIES: [(&str, u8); 5] = [
    ("function", 1),
    ("module", 2),
    ("closure", 4),
    ("custom", 8),
    ("fragment", 16),
];

/// The line that sets the limit of that name, if one does.
pub fn line_named(name: &str, lines: &[LimitLine]) -> Option<LimitLine>
    ensures { option_map limit_line_view result ≡ entry_named name.now (limits_view lines.now) }
{
    for line in lines {
        if name == line.name {
            return Some(*line);
        }
    }
    None
}

/// What is allowed of the limit of that name without a line.
fn default_among(table: &[(&str, Limit)], name: &str) -> u64
    ensures { result ≡ default_in (entry_named name.now (map row_view table.now)) }
{
    for (other, limit) in table {
        if name == *other {
            return limit.default;
        }
    }
    0
}

/// What is allowed of the limit of that name.
#[tactic(auto, unfolding(crate::specs::Settings::number_of))]
pub fn number_of(name: &str, lines: &[LimitLine]) -> u64
    ensures { result ≡ number_of name.now (limits_view lines.now) }
{
    match line_named(name, lines) {
        None => default_among(&LIMITS, name),
        Some(line) => line.number,
    }
}

fn row_among(table: &[(&'static str, Limit)], word: &[char]) -> Option<(&'static str, Limit)>
    ensures { option_map row_view result ≡ entry_named word.now (map row_view table.now) }
{
    for (name, limit) in table {
        if is_word(word, *name) {
            return Some((*name, *limit));
        }
    }
    None
}

/// The limit of that name, which a line may set.
#[tactic(auto, unfolding(crate::specs::Settings::limit_named), using(crate::proofs::AllowedLimits::least_named))]
pub fn limit_named(word: &[char]) -> Result<(&'static str, Limit), Reason>
    ensures row { named_view result ≡ limit_named word.now }
    ensures least { IfOk result (λ x. Allows x.0.now x.1.least) }
{
    match row_among(&LIMITS, word) {
        None => Err(Reason::BadOperand),
        Some((name, limit)) => {
            if limit.is_built {
                Ok((name, limit))
            } else {
                Err(Reason::NotBuilt)
            }
        }
    }
}

fn allowed(limit: Limit, number: u64) -> Result<u64, Reason>
    ensures number { result ≡ allowed limit number }
    ensures least { IfOk result (λ n. limit.least ≤ n) }
{
    if number < limit.least {
        Err(Reason::BadOperand)
    } else {
        Ok(number)
    }
}

/// The number of a limit, which is at least its least.
pub fn limit_number(limit: Limit, line: &[char]) -> Result<u64, Reason>
    ensures number { result ≡ limit_number limit line.now }
    ensures least { IfOk result (λ n. limit.least ≤ n) }
{
    let (number, rest) = number_operand(u64::MAX, line)?;
    let number = allowed(limit, number)?;
    alone(rest)?;
    Ok(number)
}

/// The bits of those names that stand here, in this order.
fn capabilities_among(names: &[(&str, u8)], line: &[char]) -> Result<u8, Reason>
    requires { sum_by (λ x. x.1) names.now < 256 }
    ensures { result ≡ capabilities (map (λ x. (x.0.now, x.1)) names.now) line.now }
{
    let mut bits = 0u8;
    let mut rest = line;
    for (name, bit) in names {
        if let Some(after) = after_name(*name, rest) {
            bits += *bit;
            rest = after;
        }
    }
    alone(rest)?;
    Ok(bits)
}

/// The bits of the capabilities after `caps`.
pub fn capabilities(line: &[char]) -> Result<u8, Reason>
    ensures { result ≡ capabilities capability_bits line.now }
{
    capabilities_among(&CAPABILITIES, line)
}
