//! What is answered of a listing.

ghost use Rattle.std.specs.Prelude.{◌≡◌, ◌++◌, ◌≤◌, true, IfOk, length, chars};
ghost use Rattle.std.specs.Str.{is_utf8};
ghost use Rattle.grain_program.specs.View.{view_of};
ghost use Rattle.grain_addresses.specs.Finding.{found, IsTiled};
ghost use Rattle.grain_addresses.specs.Replies.{stock_of, begun_text, has_slot, held_text, answer_text, answers_text, is_begun, are_begun, status_of, listed_text, status_due, text_due};

use crate::finding::find;
use crate::places::Place;
use crate::queries::Query;
use crate::replies::{Reply, no_listing};
use crate::step_lines::{StepLine, step_named};
use crate::texts::{push_inside, push_no_step, push_past, push_place, push_step, push_table};
use crate::walks::{walked, walked_steps};
use grain_listing::read;
use grain_program::Parts;
use grain_value::{OutOfMemory, Text};
use std::alloc::Global;

/// Answers for an address at which the line's code begins, and says whether the slot that is asked
/// for, if one is, is that of a step there.
fn push_begun(
    out: &mut Text,
    parts: &Parts,
    places: &[Place],
    steps: &[StepLine],
    query: Query,
    place: &Place,
) -> Result<bool, OutOfMemory>
    ensures text { IfOk result (λ _. out.new ≡ out.old ++
        begun_text (stock_of (view_of parts.now) places.now steps.now) query place.now query.slot) }
    ensures named { IfOk result (λ named. named ≡
        has_slot (stock_of (view_of parts.now) places.now steps.now) place.now.address query.slot) }
{
    let _ = places;
    let Some(slot) = query.slot else {
        push_place(out, parts, place)?;
        return Ok(true);
    };
    match step_named(&parts.code, steps, place.address(), slot) {
        None => {
            push_no_step(out, query, place)?;
            Ok(false)
        }
        Some(step) => {
            push_place(out, parts, place)?;
            push_step(out, query, step)?;
            Ok(true)
        }
    }
}

/// Answers for an address that the line's code has, and says whether the code begins there, with a step
/// of the slot that is asked for, if one is.
fn push_held(
    out: &mut Text,
    parts: &Parts,
    places: &[Place],
    steps: &[StepLine],
    query: Query,
    place: &Place,
) -> Result<bool, OutOfMemory>
    ensures text { IfOk result (λ _. out.new ≡ out.old ++
        held_text (stock_of (view_of parts.now) places.now steps.now) query place.now) }
    ensures begun { IfOk result (λ begun. begun ≡
        is_begun (stock_of (view_of parts.now) places.now steps.now) query (Some place.now)) }
{
    if place.address() != query.address as usize {
        push_inside(out, query, place)?;
        return Ok(false);
    }
    push_begun(out, parts, places, steps, query, place)
}

/// Answers for an address, and says whether a line's code begins there, with a step of the slot that is
/// asked for, if one is.
fn push_answer(
    out: &mut Text,
    parts: &Parts,
    places: &[Place],
    steps: &[StepLine],
    query: Query,
) -> Result<bool, OutOfMemory>
    requires { IsTiled 0 places.now }
    ensures text { IfOk result (λ _. out.new ≡ out.old ++
        answer_text (stock_of (view_of parts.now) places.now steps.now) query) }
    ensures begun { IfOk result (λ begun. begun ≡
        is_begun (stock_of (view_of parts.now) places.now steps.now) query
        (found query.address places.now)) }
{
    match find(places, query.address as usize) {
        None => {
            push_past(out, query, parts.code.len())?;
            Ok(false)
        }
        Some(place) => push_held(out, parts, places, steps, query, place),
    }
}

/// Answers for each address, and says whether a line's code begins at each, with the steps that are
/// asked for.
fn push_answers(
    out: &mut Text,
    parts: &Parts,
    places: &[Place],
    steps: &[StepLine],
    queries: &[Query],
) -> Result<bool, OutOfMemory>
    requires { IsTiled 0 places.now }
    ensures text { IfOk result (λ _. out.new ≡ out.old ++
        answers_text (stock_of (view_of parts.now) places.now steps.now) queries.now) }
    ensures begun { IfOk result (λ begun. begun ≡
        are_begun (stock_of (view_of parts.now) places.now steps.now) queries.now) }
{
    let mut all = true;
    for query in queries {
        if !push_answer(out, parts, places, steps, *query)? {
            all = false;
        }
    }
    Ok(all)
}

/// What is answered of parts whose code and steps these lines give.
fn told(
    alloc: Global,
    parts: &Parts,
    places: &[Place],
    steps: &[StepLine],
    queries: &[Query],
) -> Result<Reply, OutOfMemory>
    requires { IsTiled 0 places.now }
    ensures status { IfOk result (λ r. r.status ≡ status_of
        (are_begun (stock_of (view_of parts.now) places.now steps.now) queries.now)) }
    ensures text { IfOk result (λ r. r.text ≡
        listed_text (stock_of (view_of parts.now) places.now steps.now) queries.now) }
{
    let mut text = Text::new(alloc);
    if queries.is_empty() {
        push_table(&mut text, parts, places)?;
        return Ok(Reply { status: 0, text });
    }
    let all = push_answers(&mut text, parts, places, steps, queries)?;
    let status = if all { 0 } else { 1 };
    Ok(Reply { status, text })
}

/// The characters of bytes that are UTF-8.
fn characters(alloc: Global, bytes: &[u8]) -> Result<Vec<char>, OutOfMemory>
    requires { is_utf8 bytes.now ≡ true }
    ensures chars { IfOk result (λ v. v.items ≡ chars bytes.now) }
    ensures few { IfOk result (λ v. length v.items ≤ length bytes.now) }
{
    match std::str::from_utf8(bytes) {
        Ok(text) => Ok(text.chars().collect(alloc)?),
        Err(_) => unreachable!(),
    }
}

/// The lines of the listing whose code stands at the addresses, or all lines that give code if
/// nothing is asked. The status, and the text:
/// - 0, the code of a line begins at each address, and where a slot is asked for a step has it: those
///   lines, and the lines of the steps;
/// - 1, at an address no line's code begins, or no step there has the slot that is asked for: the
///   same, with a line that says so;
/// - 3, the bytes are no listing: the first line that is wrong, and why.
///
/// The listing is neither verified nor run.
pub fn explain(alloc: Global, bytes: &[u8], queries: &[Query]) -> Result<Reply, OutOfMemory>
    ensures status { IfOk result (λ r. r.status ≡ status_due bytes.now queries.now) }
    ensures text { IfOk result (λ r. r.text ≡ text_due bytes.now queries.now) }
{
    match read(alloc, bytes)? {
        Err(bad) => no_listing(alloc, bad),
        Ok(listing) => {
            let text = characters(alloc, bytes)?;
            let all = text.as_slice();
            let places = walked(alloc, all)?;
            let steps = walked_steps(alloc, all)?;
            let lines = places.as_slice();
            let slots = steps.as_slice();
            told(alloc, &listing.parts, lines, slots, queries)
        }
    }
}
