//! What is asked: addresses, as a trace has them.

ghost use Rattle.std.specs.Prelude.{◌≡◌, ◌==◌, ◌<◌, IfOk, IfSome, length, map, option_map, position, string_bytes};
ghost use Rattle.grain_addresses.specs.Queries.{number_in, bare, slotted, query_in, query_of, queries_of};

use grain_value::OutOfMemory;
use grain_words::number;
use std::alloc::Global;

/// An address of the code and, if one is asked for, the slot of a chain's step there.
#[derive(Clone, Copy, Debug, PartialEq, Eq)]
pub struct Query {
    pub address: u32,
    pub slot: Option<u32>,
}

/// The number of 32 bits that the word says.
fn number_in(word: &[char]) -> Option<u32>
    ensures { result ≡ number_in word.now }
{
    let number = number(u32::MAX as u64, word)?;
    Some(number as u32)
}

/// Where the first colon stands.
fn colon_in(word: &[char]) -> Option<usize>
    ensures first { result ≡ position (λ c. c == 58) word.now }
    ensures within { IfSome result (λ i. i < length word.now) }
{
    word.iter().position(|c| *c == ':')
}

/// An address alone.
fn bare_query(word: &[char]) -> Option<Query>
    ensures { result ≡ option_map bare (number_in word.now) }
{
    match number_in(word) {
        None => None,
        Some(address) => Some(Query {
            address,
            slot: None,
        }),
    }
}

/// An address, and a slot.
fn query_with_slot(address: &[char], slot: &[char]) -> Option<Query>
    ensures { result ≡ slotted address.now slot.now }
{
    match (number_in(address), number_in(slot)) {
        (Some(address), Some(slot)) => Some(Query {
            address,
            slot: Some(slot),
        }),
        _ => None,
    }
}

/// What the word asks for: a number, or two with a colon between them.
fn query_in(word: &[char]) -> Option<Query>
    ensures { result ≡ query_in word.now }
{
    match colon_in(word) {
        None => bare_query(word),
        Some(colon) => {
            let (address, _) = word.split_at(colon);
            let (_, slot) = word.split_at(colon + 1);
            query_with_slot(address, slot)
        }
    }
}

/// What the word asks for, if it is an address.
fn query_of(alloc: Global, word: &str) -> Result<Option<Query>, OutOfMemory>
    ensures { IfOk result (λ o. o ≡ query_of word.now) }
{
    let chars: Vec<char> = word.chars().collect(alloc)?;
    Ok(query_in(chars.as_slice()))
}

/// What the words ask for, if each is an address.
pub fn queries_of(alloc: Global, words: &[String]) -> Result<Option<Vec<Query>>, OutOfMemory>
    ensures { IfOk result (λ o.
        option_map (λ v. v.items) o ≡ queries_of (map string_bytes words.now)) }
{
    let mut found = Vec::new(alloc);
    for word in words {
        match query_of(alloc, word.as_str())? {
            None => return Ok(None),
            Some(query) => found.push(query)?,
        }
    }
    Ok(Some(found))
}
