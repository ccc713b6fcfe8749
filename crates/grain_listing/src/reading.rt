//! Listings.

ghost use Rattle.std.specs.Prelude.{◌≡◌, ◌≤◌, ◌+◌, ◌==◌, IfOk, length, count_by, take};
ghost use Rattle.grain_words.specs.Lines.{lines_of};
ghost use Rattle.grain_listing.specs.Reading.{reads, meaning, most_bytes};
ghost use Rattle.grain_listing.specs.ListingViews.{outcome, IsReady};

use crate::assembler::Assembler;
use crate::linking::ending;
use crate::listings::Listing;
use crate::reasons::BadLine;
use grain_literals::Reason;
use grain_value::OutOfMemory;
use grain_words::next_line;
use std::alloc::Global;

/// How many bytes a listing may have.
pub const MOST_BYTES: usize = 16_777_216;

fn read_lines(alloc: Global, text: &[char]) -> Result<Result<Listing, BadLine>, OutOfMemory>
    requires { length text.now ≤ most_bytes }
    ensures setup { IfOk result (λ r. outcome r ≡ meaning (lines_of text.now)) }
    ensures ready { IfOk result (λ r. IfOk r IsReady) }
{
    let mut assembler = Assembler::new(alloc);
    let mut n = 0usize;
    let mut rest = text;
    'lines: while !rest.is_empty() {
        let (line, after) = next_line(rest);
        n += 1;
        assembler.line = n;
        match assembler.take_line(alloc, line)? {
            Err(reason) => return Ok(Err(BadLine { line: n, reason })),
            Ok(()) => rest = after,
        }
    }
    ending(alloc, n, assembler)
}

/// The line of the first byte that is not UTF-8, which stands after `valid` others.
fn broken_line(bytes: &[u8], valid: usize) -> usize
    requires { valid ≤ length bytes.now }
    ensures { result ≡ count_by (λ b. b == 10) (take valid bytes.now) + 1 }
{
    let (before, _) = bytes.split_at(valid);
    before.iter().filter(|b| **b == b'\n').count() + 1
}

/// What the bytes say as a listing, or which line makes them none and why.
pub fn read(alloc: Global, bytes: &[u8]) -> Result<Result<Listing, BadLine>, OutOfMemory>
    ensures setup { IfOk result (λ r. outcome r ≡ reads bytes.now) }
    ensures ready { IfOk result (λ r. IfOk r IsReady) }
{
    if bytes.len() > MOST_BYTES {
        return Ok(Err(BadLine {
            line: 0,
            reason: Reason::TooLong,
        }));
    }
    match std::str::from_utf8(bytes) {
        Err(error) => Ok(Err(BadLine {
            line: broken_line(bytes, error.valid_up_to()),
            reason: Reason::NotUtf8,
        })),
        Ok(text) => {
            let chars: Vec<char> = text.chars().collect(alloc)?;
            read_lines(alloc, chars.as_slice())
        }
    }
}
