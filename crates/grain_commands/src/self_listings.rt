//! The listing that the command `self` runs.

ghost use Rattle.std.specs.Prelude.{◌≡◌, ◌≤◌, ◌+◌, ◌++◌, [], IfOk, IfSome, map, string_bytes};
ghost use Rattle.std.specs.Str.{chars};
ghost use Rattle.grain_words.specs.Numerals.{number};
ghost use Rattle.grain_commands.specs.SelfListings.{for_each, function_block, number_line, number_lines, self_listing, self_main, self_number, self_pools, positive};

use grain_value::{OutOfMemory, Text};
use grain_words::number;
use std::alloc::Global;

/// How many functions the listing of `self` has at most.
const MOST_FUNCTIONS: u64 = 10_000;

/// The number after the word `self`, if the words are these two.
pub fn self_number(alloc: Global, words: &[String]) -> Result<Option<u64>, OutOfMemory>
    ensures number { IfOk result (λ o. o ≡ self_number (map string_bytes words.now)) }
    ensures small { IfOk result (λ o. IfSome o (λ n. n ≤ 10000)) }
{
    match words {
        [word, number] if word.as_str() == "self" => number_of(alloc, number.as_str()),
        _ => Ok(None),
    }
}

// The number that the characters say, from 1 on.
fn number_in(word: &[char]) -> Option<u64>
    ensures number { result ≡ positive (number 10000 word.now) }
    ensures small { IfSome result (λ n. n ≤ 10000) }
{
    match number(MOST_FUNCTIONS, word) {
        Some(0) => None,
        number => number,
    }
}

// The number that a word says, from 1 on.
fn number_of(alloc: Global, word: &str) -> Result<Option<u64>, OutOfMemory>
    ensures number { IfOk result (λ o. o ≡ positive (number 10000 (chars word.now))) }
    ensures small { IfOk result (λ o. IfSome o (λ n. n ≤ 10000)) }
{
    let chars: Vec<char> = word.chars().collect(alloc)?;
    Ok(number_in(chars.as_slice()))
}

// A line with a number in it, between a lead and what stands after.
fn push_number_line(
    out: &mut Text,
    lead: &str,
    number: u64,
    behind: &str,
) -> Result<(), OutOfMemory>
    ensures { IfOk result (λ _. out.new ≡ out.old ++ number_line lead.now behind.now number) }
{
    out.push_str(lead)?;
    out.push_number(number)?;
    out.push_str(behind)?;
    out.push_str("\n")
}

// Lines with the numbers from `first` on, as many as are said.
fn push_number_lines(
    out: &mut Text,
    lead: &str,
    first: u64,
    behind: &str,
    count: u64,
) -> Result<(), OutOfMemory>
    requires small { first + count ≤ 20000 }
    ensures { IfOk result
        (λ _. out.new ≡ out.old ++ number_lines lead.now first behind.now count) }
{
    'lines: for number in 0..count {
        push_number_line(out, lead, first + number, behind)?;
    }
    Ok(())
}

// The lines of one function.
fn push_function(out: &mut Text, number: u64) -> Result<(), OutOfMemory>
    requires small { number ≤ 10000 }
    ensures { IfOk result (λ _. out.new ≡ out.old ++ function_block number) }
{
    push_number_line(out, "fn ", 2 + number, " 2 0")?;
    out.push_str("load_local 0\n")?;
    push_number_line(out, "load_const ", 1 + number, "")?;
    out.push_str("call_op 1 2 0\nreturn\nend\n")
}

// The lines of each function.
fn push_functions(out: &mut Text, count: u64) -> Result<(), OutOfMemory>
    requires small { count ≤ 10000 }
    ensures { IfOk result (λ _. out.new ≡ out.old ++ for_each count function_block) }
{
    'functions: for number in 0..count {
        push_function(out, number)?;
    }
    Ok(())
}

// The lines of the pools.
fn push_pools(out: &mut Text, count: u64) -> Result<(), OutOfMemory>
    requires small { count ≤ 10000 }
    ensures { IfOk result (λ _. out.new ≡ out.old ++ self_pools count) }
{
    out.push_str("const 1\n")?;
    push_number_lines(out, "const ", 0, "", count)?;
    out.push_str("name \"x\"\nname \"+\"\n")?;
    push_number_lines(out, "name \"f", 0, "\"", count)?;
    out.push_str("op \"+\"\n")
}

// The lines of main.
fn push_main(out: &mut Text, count: u64) -> Result<(), OutOfMemory>
    requires small { count ≤ 10000 }
    ensures { IfOk result (λ _. out.new ≡ out.old ++ self_main count) }
{
    out.push_str("main 1\nload_const 0\n")?;
    push_number_lines(out, "call ", 2, " 1", count)?;
    out.push_str("return\nend\n")?;
    Ok(())
}

/// The listing of that many functions.
pub fn self_listing(alloc: Global, count: u64) -> Result<Text, OutOfMemory>
    requires small { count ≤ 10000 }
    ensures { IfOk result (λ t. t ≡ self_listing count) }
{
    let mut out = Text::copy_of(alloc, "grain 1\n")?;
    push_pools(&mut out, count)?;
    push_main(&mut out, count)?;
    push_functions(&mut out, count)?;
    Ok(out)
}
