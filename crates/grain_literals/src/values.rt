//! Values as a listing spells them.

ghost use Rattle.std.specs.Prelude.{◌≡◌, ◌++◌, IfOk, option_map, codes};
ghost use Rattle.grain_value.specs.View.{tree};
ghost use Rattle.grain_literals.specs.Values.{bounds, range_here, kind_and_number, foreign_here, plain, flat, text_here, made, all_others, array_here, entry_here, put_all, dict_here, pointer_here, value};

use grain_value::{Array, Dynamic, FnPtr, Map, OutOfMemory, Text};
use grain_words::{
    after_sign, after_text, character, hex_bytes, integer_here, number_here, quoted,
};
use std::alloc::Global;

/// Two integers, which a comma separates.
fn bounds(line: &[char]) -> Option<(i64, i64, &[char])>
    ensures { option_map (λ r. ((r.0, r.1), r.2.now)) result ≡ bounds line.now }
{
    let (from, rest) = integer_here(line)?;
    let rest = after_sign(",", rest)?;
    let (to, rest) = integer_here(rest)?;
    Some((from, to, rest))
}

/// What follows `range(` or `range=(`.
fn range_here(inclusive: bool, line: &[char]) -> Option<(Dynamic, &[char])>
    ensures { option_map (λ r. (tree r.0, r.1.now)) result ≡ range_here inclusive line.now }
{
    let (from, to, rest) = bounds(line)?;
    let rest = after_text(")", rest)?;
    let range = Dynamic::Range {
        from,
        to,
        inclusive,
    };
    Some((range, rest))
}

/// A host's kind and a number, which a comma separates.
fn kind_and_number(line: &[char]) -> Option<(u32, u64, &[char])>
    ensures { option_map (λ r. ((r.0, r.1), r.2.now)) result ≡ kind_and_number line.now }
{
    let (kind, rest) = number_here(u32::MAX as u64, line)?;
    if kind < 16 {
        return None;
    }
    let rest = after_sign(",", rest)?;
    let (number, rest) = number_here(u64::MAX, rest)?;
    Some((kind as u32, number, rest))
}

/// What follows `foreign(`.
fn foreign_here(line: &[char]) -> Option<(Dynamic, &[char])>
    ensures { option_map (λ r. (tree r.0, r.1.now)) result ≡ foreign_here line.now }
{
    let (kind, number, rest) = kind_and_number(line)?;
    let rest = after_text(")", rest)?;
    Some((Dynamic::Foreign { kind, number }, rest))
}

/// A value that owns no memory.
fn plain(line: &[char]) -> Option<(Dynamic, &[char])>
    ensures { option_map (λ r. (tree r.0, r.1.now)) result ≡ plain line.now }
{
    if let Some(rest) = after_text("()", line) {
        return Some((Dynamic::Unit, rest));
    }
    if let Some(rest) = after_text("true", line) {
        return Some((Dynamic::Bool(true), rest));
    }
    if let Some(rest) = after_text("false", line) {
        return Some((Dynamic::Bool(false), rest));
    }
    if let Some(rest) = after_text("'", line) {
        let (character, rest) = character(rest)?;
        return Some((Dynamic::Char(character), rest));
    }
    if let Some(rest) = after_text("range(", line) {
        return range_here(false, rest);
    }
    if let Some(rest) = after_text("range=(", line) {
        return range_here(true, rest);
    }
    if let Some(rest) = after_text("foreign(", line) {
        return foreign_here(rest);
    }
    let (integer, rest) = integer_here(line)?;
    Some((Dynamic::Int(integer), rest))
}

/// A value that has no values inside.
fn flat(alloc: Global, line: &[char]) -> Result<Option<(Dynamic, &[char])>, OutOfMemory>
    ensures { IfOk result (λ o. option_map (λ r. (tree r.0, r.1.now)) o ≡ flat line.now) }
{
    if let Some(rest) = after_text("\"", line) {
        return match quoted(alloc, rest)? {
            None => Ok(None),
            Some((text, rest)) => Ok(Some((Dynamic::Text(text), rest))),
        };
    }
    if let Some(rest) = after_text("blob(", line) {
        return match hex_bytes(alloc, rest)? {
            None => Ok(None),
            Some((blob, rest)) => Ok(Some((Dynamic::Blob(blob), rest))),
        };
    }
    Ok(plain(line))
}

/// A text between quotes.
fn text_here(alloc: Global, line: &[char]) -> Result<Option<(Text, &[char])>, OutOfMemory>
    ensures { IfOk result (λ o. option_map (λ r. (r.0, r.1.now)) o ≡ text_here line.now) }
{
    match after_text("\"", line) {
        None => Ok(None),
        Some(rest) => quoted(alloc, rest),
    }
}

/// The value that begins here, in which at most `levels` arrays, maps and pointers stand inside
/// one another.
#[cycle(values)]
#[tactic(auto, using(crate::proofs::ListsRead::value_flat, crate::proofs::ListsRead::value_nesting))]
pub fn value(
    alloc: Global,
    levels: usize,
    line: &[char],
) -> Result<Option<(Dynamic, &[char])>, OutOfMemory>
    ensures { IfOk result (λ o. option_map (λ r. (tree r.0, r.1.now)) o ≡ value levels line.now) }
{
    if levels == 0 {
        return flat(alloc, line);
    }
    if let Some(rest) = after_text("[", line) {
        return array_here(alloc, levels - 1, rest);
    }
    if let Some(rest) = after_text("#{", line) {
        return map_here(alloc, levels - 1, rest);
    }
    if let Some(rest) = after_text("fn(", line) {
        return pointer_here(alloc, levels - 1, rest);
    }
    flat(alloc, line)
}

/// What follows `[`.
#[cycle(values)]
fn array_here(
    alloc: Global,
    levels: usize,
    line: &[char],
) -> Result<Option<(Dynamic, &[char])>, OutOfMemory>
    ensures { IfOk result (λ o. option_map (λ r. (tree r.0, r.1.now)) o ≡
        array_here (value levels) line.now) }
{
    let mut values = Array::new(alloc);
    if let Some(rest) = after_text("]", line) {
        return Ok(Some((Dynamic::Array(values), rest)));
    }
    let Some((first, rest)) = value(alloc, levels, line)? else {
        return Ok(None);
    };
    values.push(first)?;
    match other_values(alloc, levels, "]", values, rest)? {
        None => Ok(None),
        Some((values, rest)) => Ok(Some((Dynamic::Array(values), rest))),
    }
}

/// What follows `fn(`.
#[cycle(values)]
fn pointer_here(
    alloc: Global,
    levels: usize,
    line: &[char],
) -> Result<Option<(Dynamic, &[char])>, OutOfMemory>
    ensures { IfOk result (λ o. option_map (λ r. (tree r.0, r.1.now)) o ≡
        pointer_here (value levels) line.now) }
{
    let Some((name, rest)) = text_here(alloc, line)? else {
        return Ok(None);
    };
    match other_values(alloc, levels, ")", Array::new(alloc), rest)? {
        None => Ok(None),
        Some((curry, rest)) => Ok(Some((Dynamic::Pointer(FnPtr { name, curry }), rest))),
    }
}

/// The values that follow in a list, up to the sign that ends it, after those that came before.
#[cycle(values)]
#[tactic(auto, using(crate::proofs::ListsRead::list_over, crate::proofs::ListsRead::no_sign, crate::proofs::ListsRead::no_thing, crate::proofs::ListsRead::no_room, crate::proofs::ListsRead::another_value))]
fn other_values<'a>(
    alloc: Global,
    levels: usize,
    end: &str,
    before: Array,
    line: &'a [char],
) -> Result<Option<(Array, &'a [char])>, OutOfMemory>
    ensures { IfOk result (λ o. option_map (λ r. (r.0, r.1.now)) o ≡
        made (λ ts. before ++ ts) (all_others end.now (value levels) line.now)) }
{
    let mut values = before;
    let mut rest = line;
    let mut room = line.len();
    'values: while room > 0 {
        if let Some(after) = after_text(end, rest) {
            return Ok(Some((values, after)));
        }
        let Some(start) = after_sign(",", rest) else {
            return Ok(None);
        };
        let Some((value, after)) = value(alloc, levels, start)? else {
            return Ok(None);
        };
        values.push(value)?;
        rest = after;
        room -= 1;
    }
    Ok(None)
}

/// A key, a colon and a value.
#[cycle(values)]
fn entry_here(
    alloc: Global,
    levels: usize,
    line: &[char],
) -> Result<Option<(Text, Dynamic, &[char])>, OutOfMemory>
    ensures { IfOk result (λ o. option_map (λ r. ((r.0, tree r.1), r.2.now)) o ≡
        entry_here (value levels) line.now) }
{
    let Some((key, rest)) = text_here(alloc, line)? else {
        return Ok(None);
    };
    let Some(rest) = after_sign(":", rest) else {
        return Ok(None);
    };
    match value(alloc, levels, rest)? {
        None => Ok(None),
        Some((value, rest)) => Ok(Some((key, value, rest))),
    }
}

/// What follows `#{`.
#[cycle(values)]
fn map_here(
    alloc: Global,
    levels: usize,
    line: &[char],
) -> Result<Option<(Dynamic, &[char])>, OutOfMemory>
    ensures { IfOk result (λ o. option_map (λ r. (tree r.0, r.1.now)) o ≡
        dict_here (value levels) line.now) }
{
    let mut map = Map::new(alloc);
    if let Some(rest) = after_text("}", line) {
        return Ok(Some((Dynamic::Map(map), rest)));
    }
    let Some((key, first, rest)) = entry_here(alloc, levels, line)? else {
        return Ok(None);
    };
    drop(map.insert(key, first)?);
    match other_entries(alloc, levels, map, rest)? {
        None => Ok(None),
        Some((map, rest)) => Ok(Some((Dynamic::Map(map), rest))),
    }
}

/// The entries that follow these in a map, up to the bracket that ends it, put after them.
#[cycle(values)]
#[tactic(auto, using(crate::proofs::ListsRead::list_over, crate::proofs::ListsRead::no_sign, crate::proofs::ListsRead::no_thing, crate::proofs::ListsRead::no_room, crate::proofs::ListsRead::another_entry))]
fn other_entries(
    alloc: Global,
    levels: usize,
    before: Map,
    line: &[char],
) -> Result<Option<(Map, &[char])>, OutOfMemory>
    ensures { IfOk result (λ o. option_map (λ r. (r.0, r.1.now)) o ≡
        made (put_all before) (all_others (codes "}") (entry_here (value levels)) line.now)) }
{
    let mut map = before;
    let mut rest = line;
    let mut room = line.len();
    'entries: while room > 0 {
        if let Some(after) = after_text("}", rest) {
            return Ok(Some((map, after)));
        }
        let Some(start) = after_sign(",", rest) else {
            return Ok(None);
        };
        let Some((key, value, after)) = entry_here(alloc, levels, start)? else {
            return Ok(None);
        };
        drop(map.insert(key, value)?);
        rest = after;
        room -= 1;
    }
    Ok(None)
}
