//! What the line of a chain says, and what the line of a step says.

ghost use Rattle.std.specs.Prelude.{◌≡◌};
ghost use Rattle.grain_literals.specs.Results.{operand_view};
ghost use Rattle.grain_listing.specs.ChainWords.{local_root, position_here, this_root, root_named, root_operand, assigning, tail_named, tail_of, flags_of, first_position, last_position, index_step, property_step, method_step, step_named, step_of, chain_of};
ghost use Rattle.grain_listing.specs.views.Chains.{flags_view, position_view, root_view};

use bitflags::Flags;
use grain_fault::Position;
use grain_literals::{
    Reason, after_name, alone, index, number_operand, position_after, position_operand,
    word_operand,
};
use grain_program::{Chain, Root, Step, StepFlags, Steplist, Tail};
use grain_words::{is_over, is_word, next_word, position_word};
use std::alloc::Global;

/// What stands after `local`: the index of a name, and a slot.
fn local_root(line: &[char]) -> Result<(Root, &[char]), Reason>
    ensures { operand_view result ≡ local_root line.now }
{
    let (name, rest) = index(line)?;
    let (slot, rest) = number_operand(65_535, rest)?;
    let slot = slot as u16;
    Ok((Root::Local { name, slot }, rest))
}

/// A position, if the next word is one.
fn position_here(line: &[char]) -> (Position, &[char])
    ensures { position_view result ≡ position_here line.now }
{
    match next_word(line) {
        None => (Position::NONE, line),
        Some((word, rest)) => match position_word(word) {
            None => (Position::NONE, line),
            Some(position) => (position, rest),
        },
    }
}

/// What stands after `this`: a position, or nothing.
fn this_root(line: &[char]) -> (Root, &[char])
    ensures { root_view result ≡ this_root line.now }
{
    let (pos, rest) = position_here(line);
    (Root::This { pos }, rest)
}

/// The root that begins with the word.
#[tactic(auto, unfolding(crate::specs::ChainWords::root_named))]
fn root_named<'a>(word: &[char], line: &'a [char]) -> Result<(Root, &'a [char]), Reason>
    ensures { operand_view result ≡ root_named word.now line.now }
{
    if is_word(word, "local") {
        local_root(line)
    } else if is_word(word, "temporary") {
        Ok((Root::Temporary, line))
    } else if is_word(word, "named") {
        Err(Reason::NotBuilt)
    } else if is_word(word, "this") {
        Ok(this_root(line))
    } else {
        Err(Reason::BadOperand)
    }
}

fn root_operand(line: &[char]) -> Result<(Root, &[char]), Reason>
    ensures { operand_view result ≡ root_operand line.now }
{
    let (word, rest) = word_operand(line)?;
    root_named(word, rest)
}

/// What stands after `assign`: the index of an op-assignment, or nothing.
fn assigning(line: &[char]) -> Result<Tail, Reason>
    ensures { result ≡ assigning line.now }
{
    if is_over(line) {
        return Ok(Tail::Assign { op: None });
    }
    let (op, rest) = index(line)?;
    alone(rest)?;
    Ok(Tail::Assign { op: Some(op) })
}

/// The tail that begins with the word.
#[tactic(auto, unfolding(crate::specs::ChainWords::tail_named))]
fn tail_named(word: &[char], line: &[char]) -> Result<Tail, Reason>
    ensures { result ≡ tail_named word.now line.now }
{
    if is_word(word, "read") {
        alone(line)?;
        Ok(Tail::Read)
    } else if is_word(word, "assign") {
        assigning(line)
    } else {
        Err(Reason::BadOperand)
    }
}

fn tail_of(line: &[char]) -> Result<Tail, Reason>
    ensures { result ≡ tail_of line.now }
{
    let (word, rest) = word_operand(line)?;
    tail_named(word, rest)
}

/// The chain that the words after `chain` say. It has no step yet, and takes no memory.
pub fn chain_of(alloc: Global, line: &[char]) -> Result<Chain, Reason>
    ensures { result ≡ chain_of line.now }
{
    let (operands, rest) = index(line)?;
    let (root, rest) = root_operand(rest)?;
    let tail = tail_of(rest)?;
    Ok(Chain {
        root,
        steps: Steplist::new(alloc),
        tail,
        operands,
    })
}

/// The flags of a step, and what is left after them.
fn flags_of(line: &[char]) -> (StepFlags, &[char])
    ensures { flags_view result ≡ flags_of line.now }
{
    match after_name("?", line) {
        Some(rest) => (StepFlags::SKIP_IF_UNIT, rest),
        None => (StepFlags::empty(), line),
    }
}

/// The first of two positions, if any is there.
fn first_position(line: &[char]) -> Result<(Position, &[char]), Reason>
    ensures { operand_view result ≡ first_position line.now }
{
    if is_over(line) {
        Ok((Position::NONE, line))
    } else {
        position_operand(line)
    }
}

/// The last position, if it is there.
fn last_position(line: &[char]) -> Result<Position, Reason>
    ensures { result ≡ last_position line.now }
{
    match position_after(line)? {
        Some(position) => Ok(position),
        None => Ok(Position::NONE),
    }
}

/// What stands after `index`: the number of an operand, flags, and the positions of the index and of
/// its bracket.
fn index_step(line: &[char]) -> Result<Step, Reason>
    ensures { result ≡ index_step line.now }
{
    let (operand, rest) = index(line)?;
    let (flags, rest) = flags_of(rest);
    let (pos, rest) = first_position(rest)?;
    let bracket = last_position(rest)?;
    Ok(Step::Index {
        operand,
        flags,
        pos,
        bracket,
    })
}

/// What stands after `property`: three names by their indices, flags and a position.
fn property_step(line: &[char]) -> Result<Step, Reason>
    ensures { result ≡ property_step line.now }
{
    let (name, rest) = index(line)?;
    let (getter, rest) = index(rest)?;
    let (setter, rest) = index(rest)?;
    let (flags, rest) = flags_of(rest);
    let pos = last_position(rest)?;
    Ok(Step::Property {
        name,
        getter,
        setter,
        flags,
        pos,
    })
}

/// What stands after `method`: a name by its index, how many arguments it takes, the number of the
/// operand that is the first of them, flags and a position.
fn method_step(line: &[char]) -> Result<Step, Reason>
    ensures { result ≡ method_step line.now }
{
    let (name, rest) = index(line)?;
    let (argc, rest) = number_operand(255, rest)?;
    let argc = argc as u8;
    let (operand, rest) = index(rest)?;
    let (flags, rest) = flags_of(rest);
    let pos = last_position(rest)?;
    Ok(Step::Method {
        name,
        argc,
        operand,
        flags,
        pos,
    })
}

/// The step that begins with the word.
#[tactic(auto, unfolding(crate::specs::ChainWords::step_named))]
fn step_named(word: &[char], line: &[char]) -> Result<Step, Reason>
    ensures { result ≡ step_named word.now line.now }
{
    if is_word(word, "index") {
        index_step(line)
    } else if is_word(word, "property") {
        property_step(line)
    } else if is_word(word, "method") {
        method_step(line)
    } else {
        Err(Reason::BadOperand)
    }
}

/// The step that the words after `step` say.
pub fn step_of(line: &[char]) -> Result<Step, Reason>
    ensures { result ≡ step_of line.now }
{
    let (word, rest) = word_operand(line)?;
    step_named(word, rest)
}
