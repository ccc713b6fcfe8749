//! The layout, and the rules of single instructions: each is read and whole, its indices name
//! entries of their pools, its targets are instructions, it does not go on past its chunk, and
//! the program has the capability that it needs. No chunk is empty, and the functions' names are
//! entries of their pool.

ghost use Rattle.std.specs.Prelude.{◌≡◌, ◌==◌, ◌⊎◌, ◌<◌, ◌≤◌, ℕ, List, length, map, slice_get, IfOk, IfErr, Some, None};
ghost use Rattle.grain_program.specs.View.{view_of};
ghost use Rattle.grain_program.specs.Fields.{every};
ghost use Rattle.grain_program.specs.Indices.{in_pool, all_below, below_if, is_named};
ghost use Rattle.grain_program.specs.Decoding.{op_at};
ghost use Rattle.grain_program.specs.Switches.{targets_if};
ghost use Rattle.grain_program.specs.Layout.{chunks_in, layout_fault, most_code};
ghost use Rattle.grain_program.specs.Rules.{IsSplit, RefusedBeforeChains};
ghost use Rattle.grain_program.specs.Owners.{owner_at, owns_all, home_of, lands, stays_in, rule_in, rule_at, IsFirstFound, first_empty, first_misnamed};
ghost use Rattle.grain_program.specs.declared.verifier.refusals.Refusal.TheVariants.{Memory};

use crate::code::bytes::decode;
use crate::code::effects::Flow;
use crate::code::fields::{Field, Fields};
use crate::code::functions::Function;
use crate::code::parts::{Chunk, Parts};
use crate::verifier::homes::{homes_of, owner_end};
use crate::verifier::layout::misplaced;
use crate::verifier::owners::{Owner, owners_of};
use crate::verifier::pool_records::{has_assign_op, has_chain};
use crate::verifier::refusals::{Refusal, earlier};
use bitflags::Flags;
use std::alloc::Global;

/// Whether the operand, if it is an index, names an entry of its pool.
fn has_entry(parts: &Parts, field: Field) -> bool
    ensures { result ≡ in_pool (view_of parts.now) field }
{
    match field {
        Field::Constant(index) => (index as usize) < parts.consts.len(),
        Field::Name(index) => (index as usize) < parts.names.len(),
        Field::Assignment(index) => has_assign_op(parts, u32::from(index)),
        Field::Chain(index) => has_chain(parts, index),
        Field::Switch(index) => (index as usize) < parts.switches.len(),
        Field::Token(index) => (index as usize) < parts.tokens.len(),
        Field::Slot(_) => true,
        Field::Target(_) => true,
        Field::Count(_) => true,
        Field::Number(_) => true,
    }
}

/// Whether each index among the operands names an entry of its pool.
fn has_entries(parts: &Parts, fields: &Fields) -> bool
    ensures { result ≡ every (in_pool (view_of parts.now)) fields.now }
{
    let places = fields.as_slice();
    for place in places {
        if let Some(field) = place
            && !has_entry(parts, *field)
        {
            return false;
        }
    }
    true
}

/// Whether the chunk of this end owns an instruction at the target.
fn owns(owners: &[Owner], end: usize, target: u32) -> bool
    ensures { result ≡ ((owner_at owners.now target).end == end) }
{
    owner_end(owners, target) as usize == end
}

/// Whether the chunk of this end owns an instruction at each target of the switch at the index, by the
/// homes of the switches.
fn owns_targets(parts: &Parts, owners: &[Owner], homes: &[u32], end: usize, index: u16) -> bool
    requires homes { homes.now ≡ map (home_of owners.now) parts.now.switches }
    requires some { 0 < end }
    ensures { result ≡ owns_all owners.now end (targets_if (slice_get parts.now.switches index)) }
{
    let _ = parts;
    let _ = owners;
    match homes.get(index as usize) {
        Some(home) => *home as usize == end,
        None => true,
    }
}

/// Whether the operand, if it is an address or a switch, names instructions of the chunk of this end.
fn lands(parts: &Parts, owners: &[Owner], homes: &[u32], end: usize, field: Field) -> bool
    requires homes { homes.now ≡ map (home_of owners.now) parts.now.switches }
    requires some { 0 < end }
    ensures { result ≡ lands (view_of parts.now) owners.now end field }
{
    match field {
        Field::Constant(_) => true,
        Field::Name(_) => true,
        Field::Assignment(_) => true,
        Field::Chain(_) => true,
        Field::Switch(index) => owns_targets(parts, owners, homes, end, index),
        Field::Token(_) => true,
        Field::Slot(_) => true,
        Field::Target(address) => owns(owners, end, address),
        Field::Count(_) => true,
        Field::Number(_) => true,
    }
}

/// Whether each address and each switch among the operands names instructions of the chunk of this
/// end.
fn has_targets(parts: &Parts, owners: &[Owner], homes: &[u32], end: usize, fields: &Fields) -> bool
    requires homes { homes.now ≡ map (home_of owners.now) parts.now.switches }
    requires some { 0 < end }
    ensures { result ≡ every (lands (view_of parts.now) owners.now end) fields.now }
{
    let places = fields.as_slice();
    for place in places {
        if let Some(field) = place
            && !lands(parts, owners, homes, end, *field)
        {
            return false;
        }
    }
    true
}

/// Whether the flow does not go on past the chunk of this end.
fn stays(end: usize, next: usize, flow: Flow) -> bool
    ensures { result ≡ stays_in end next flow }
{
    match flow {
        Flow::Next => next < end,
        Flow::Jump(_) => true,
        Flow::Branch(_) => next < end,
        Flow::Switch(_) => true,
        Flow::End => true,
    }
}

/// The first rule that the instruction at the address breaks, in a chunk of this end.
fn instruction_rule(
    parts: &Parts,
    owners: &[Owner],
    homes: &[u32],
    end: usize,
    address: usize,
) -> Option<Refusal>
    requires small { length parts.now.code ≤ most_code }
    requires homes { homes.now ≡ map (home_of owners.now) parts.now.switches }
    requires some { 0 < end }
    ensures { result ≡ rule_in (view_of parts.now) owners.now end address (op_at parts.now.code
        address) }
{
    let Some((op, width)) = decode(&parts.code, address) else {
        return Some(Refusal::Undecodable(address));
    };
    let next = address + width;
    let descriptor = op.descriptor();
    if end < next {
        Some(Refusal::Undecodable(address))
    } else if !has_entries(parts, &descriptor.fields) {
        Some(Refusal::PoolIndex(address))
    } else if !has_targets(parts, owners, homes, end, &descriptor.fields) {
        Some(Refusal::JumpTarget(address))
    } else if !stays(end, next, descriptor.flow) {
        Some(Refusal::FallsOff(address))
    } else if !parts.caps.contains(descriptor.capability) {
        Some(Refusal::Capability(address))
    } else {
        None
    }
}

/// The first rule that an instruction at the address breaks.
fn address_rule(parts: &Parts, owners: &[Owner], homes: &[u32], address: usize) -> Option<Refusal>
    requires small { length parts.now.code ≤ most_code }
    requires homes { homes.now ≡ map (home_of owners.now) parts.now.switches }
    ensures { result ≡ rule_at (view_of parts.now) owners.now address }
{
    let end = match owners.get(address) {
        Some(owner) => owner.end,
        None => 0,
    };
    if end == 0 {
        None
    } else {
        instruction_rule(parts, owners, homes, end as usize, address)
    }
}

/// The first rule that an instruction breaks, at the lowest address.
fn first_rule(parts: &Parts, owners: &[Owner], homes: &[u32]) -> Option<Refusal>
    requires small { length parts.now.code ≤ most_code }
    requires homes { homes.now ≡ map (home_of owners.now) parts.now.switches }
    ensures { IsFirstFound (rule_at (view_of parts.now) owners.now) (length owners.now) result }
{
    for address in 0..owners.len() {
        if let Some(refusal) = address_rule(parts, owners, homes, address) {
            return Some(refusal);
        }
    }
    None
}

/// Whether each index is below the end.
fn all_below(end: usize, indices: &[u32]) -> bool
    ensures { result ≡ all_below end indices.now }
{
    for index in indices {
        if *index as usize >= end {
            return false;
        }
    }
    true
}

/// Whether the index, if there is one, is below the end.
fn below_if(end: usize, index: Option<u32>) -> bool
    ensures { result ≡ below_if end index }
{
    match index {
        Some(index) => (index as usize) < end,
        None => true,
    }
}

/// Whether the function's name, its parameters' names and the name of its type are entries of the
/// pool.
fn is_named(parts: &Parts, function: &Function) -> bool
    ensures { result ≡ is_named (view_of parts.now) function.now }
{
    let names = parts.names.len();
    (function.name as usize) < names
        && below_if(names, function.this_type)
        && all_below(names, function.params.as_slice())
}

/// The refusal of the first function that has a name that is no entry of the pool.
fn misnamed_function(parts: &Parts) -> Option<Refusal>
    ensures { result ≡ first_misnamed (view_of parts.now) parts.now.functions }
{
    let functions = parts.functions.as_slice();
    for function in functions {
        if !is_named(parts, function) {
            return Some(Refusal::PoolIndex(function.chunk.entry as usize));
        }
    }
    None
}

/// The refusal of the first empty chunk.
fn empty_chunk(chunks: &[Chunk]) -> Option<Refusal>
    ensures { result ≡ first_empty chunks.now }
{
    for chunk in chunks {
        if chunk.entry == chunk.end {
            return Some(Refusal::FallsOff(chunk.entry as usize));
        }
    }
    None
}

/// The first rule that is broken, where the layout has no fault.
fn check_rules(alloc: Global, parts: &Parts, chunks: &[Chunk]) -> Result<(), Refusal>
    requires whole { chunks.now ≡ chunks_in (view_of parts.now) }
    requires laid { layout_fault (length parts.now.code) chunks.now ≡ None }
    ensures ok { IfOk result (λ _. IsSplit (view_of parts.now) chunks.now) }
    ensures err { IfErr result (λ r. (r ≡ Memory) ⊎ RefusedBeforeChains (view_of parts.now)
        chunks.now r) }
{
    let Ok(owners) = owners_of(alloc, &parts.code, chunks) else {
        return Err(Refusal::Memory);
    };
    let Ok(homes) = homes_of(alloc, &owners, parts.switches.as_slice()) else {
        return Err(Refusal::Memory);
    };
    let by_functions = earlier(misnamed_function(parts), empty_chunk(chunks));
    match earlier(first_rule(parts, &owners, &homes), by_functions) {
        Some(refusal) => Err(refusal),
        None => Ok(()),
    }
}

/// The layout's fault, or the first rule that is broken.
pub fn check_instructions(alloc: Global, parts: &Parts, chunks: &[Chunk]) -> Result<(), Refusal>
    requires { chunks.now ≡ chunks_in (view_of parts.now) }
    ensures ok { IfOk result (λ _. IsSplit (view_of parts.now) chunks.now) }
    ensures err { IfErr result (λ r. (r ≡ Memory) ⊎ RefusedBeforeChains (view_of parts.now)
        chunks.now r) }
{
    match misplaced(parts.code.len(), chunks) {
        Some(address) => Err(Refusal::Undecodable(address)),
        None => check_rules(alloc, parts, chunks),
    }
}
