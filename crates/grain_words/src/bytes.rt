//! Bytes as hexadecimal digits.

ghost use Rattle.std.specs.Prelude.{◌≡◌, ◌∷◌, ◌≢◌, ◌≤◌, [], length, None, IfOk, MatchOption, option_map};
ghost use Rattle.grain_words.specs.Words.{in_front};
ghost use Rattle.grain_words.specs.Bytes.{hex_bytes};

use grain_value::{Blob, OutOfMemory};
use std::alloc::Global;

/// The byte of two digits, the first of which is `first`, and what follows them.
fn byte(first: char, after: &[char]) -> Option<(u8, &[char])>
    requires { first ≢ 41 }
    ensures { MatchOption result (hex_bytes (first ∷ after.now) ≡ None)
        (λ r. (hex_bytes (first ∷ after.now) ≡ in_front (r.0 ∷ []) (hex_bytes r.1.now)) ×
        (length r.1.now ≤ length after.now)) }
{
    let high = first.to_digit(16)?;
    let (second, rest) = after.split_first()?;
    let low = second.to_digit(16)?;
    Some(((high * 16 + low) as u8, rest))
}

/// The bytes whose digits begin here, up to a closing bracket, and what follows it.
#[tactic(auto, using(crate::proofs::Fronts::bytes_more))]
pub fn hex_bytes(alloc: Global, chars: &[char]) -> Result<Option<(Blob, &[char])>, OutOfMemory>
    ensures { IfOk result (λ o. option_map (λ r. (r.0, r.1.now)) o ≡ hex_bytes chars.now) }
{
    let mut bytes = Blob::new(alloc);
    let mut rest = chars;
    'scan: while let Some((c, after)) = rest.split_first() {
        if *c == ')' {
            return Ok(Some((bytes, after)));
        }
        let Some((byte, others)) = byte(*c, after) else {
            return Ok(None);
        };
        bytes.push(byte)?;
        rest = others;
    }
    Ok(None)
}
