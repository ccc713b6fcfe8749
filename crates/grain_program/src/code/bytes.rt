//! Instructions as bytes.

ghost use Rattle.std.specs.Prelude.{◌≡◌, ◌<◌, ◌≤◌, ◌+◌, ◌++◌, ◌∷◌, [], List, ℕ, length, slice_index_or, IfOk, IfSome, Some, option_map};
ghost use Rattle.std.specs.List.{flat_map, AllByRecursion};
ghost use Rattle.grain_program.specs.declared.code.instruction_set.Op.{Op};
ghost use Rattle.grain_program.specs.Fields.{size_of, number_of};
ghost use Rattle.grain_program.specs.Decoding.{width_of, op_of_tag, op_at};
ghost use Rattle.grain_program.specs.Spelling.{spelled, fields_spelled, spelling, OpFits};

use crate::code::fields::{Field, Fields};
use crate::code::instruction_set::{Op, tagged};
use grain_value::{Blob, OutOfMemory};
use std::alloc::Global;

/// The instruction that stands at the address, into `op`, and its width in bytes.
#[inline(always)]
pub(crate) fn read_there(code: &Blob, address: usize, op: &mut Op) -> usize
    requires there { address < length code.now }
    requires known { 0 < width_of (slice_index_or code.now address 0) }
    requires long { address + width_of (slice_index_or code.now address 0) ≤ length code.now }
    ensures { op_at code.now address ≡ Some (op.new, result) }
{
    let code = code.as_slice();
    let (_, rest) = code.split_at(address + 1);
    let width = tagged(code[address], rest, op);
    if width == 0 {
        unreachable!()
    }
    width
}

// How wide an instruction of the tag is in bytes, or 0 if there is none: as one whose operands
// are all 0.
fn width_of(tag: u8) -> usize
    ensures { result ≡ width_of tag }
{
    let mut op = Op::Return;
    tagged(tag, &[0; 8], &mut op)
}

impl Op {
    /// The instruction of the tag, with zeros for the numbers of its operands, if there is one.
    #[inline]
    #[tactic(auto, unfolding(crate::specs::Decoding::op_of_tag))]
    pub fn of_tag(tag: u8) -> Option<Op>
        ensures { result ≡ op_of_tag tag }
    {
        let mut op = Op::Return;
        let width = tagged(tag, &[0; 8], &mut op);
        if width == 0 {
            return None;
        }
        Some(op)
    }
}

/// Reads the instruction at the address, and how many bytes it takes. There is none where the code
/// has no byte at the address, where that byte is the tag of no instruction, and where the code ends
/// before the instruction does; everywhere else there is one.
#[inline(always)]
pub fn decode(code: &Blob, address: usize) -> Option<(Op, usize)>
    ensures exact { result ≡ op_at code.now address }
    ensures within { IfSome result (λ r. (1 ≤ r.1) × (address + r.1 ≤ length code.now)) }
{
    let bytes = code.as_slice();
    if address >= bytes.len() {
        return None;
    }
    let wide = width_of(bytes[address]);
    if wide == 0 {
        return None;
    }
    if wide > bytes.len() - address {
        return None;
    }
    let mut op = Op::Return;
    let width = read_there(code, address, &mut op);
    Some((op, width))
}

/// Appends the operand's bytes.
fn spell_field(code: &mut Vec<u8>, field: Field) -> Result<(), OutOfMemory>
    ensures { IfOk result (λ _. code.new.items
        ≡ code.old.items ++ spelled (size_of field) (number_of field)) }
{
    match field {
        Field::Constant(index) => code.extend_from_slice(&index.to_le_bytes())?,
        Field::Name(index) => code.extend_from_slice(&index.to_le_bytes())?,
        Field::Assignment(index) => code.extend_from_slice(&index.to_le_bytes())?,
        Field::Chain(index) => code.extend_from_slice(&index.to_le_bytes())?,
        Field::Switch(index) => code.extend_from_slice(&index.to_le_bytes())?,
        Field::Token(index) => code.extend_from_slice(&index.to_le_bytes())?,
        Field::Slot(slot) => code.extend_from_slice(&slot.to_le_bytes())?,
        Field::Target(address) => code.extend_from_slice(&address.to_le_bytes())?,
        Field::Count(count) => code.push(count)?,
        Field::Number(number) => code.extend_from_slice(&number.to_le_bytes())?,
    }
    Ok(())
}

/// Appends the bytes of the operands, in their order.
fn spell_fields(code: &mut Vec<u8>, fields: &Fields) -> Result<(), OutOfMemory>
    ensures { IfOk result (λ _. code.new.items ≡ code.old.items ++ fields_spelled fields.now) }
{
    let places = fields.as_slice();
    for place in places {
        if let Some(field) = place {
            spell_field(code, *field)?;
        }
    }
    Ok(())
}

/// Appends the instruction's bytes.
fn spell(code: &mut Vec<u8>, op: Op) -> Result<(), OutOfMemory>
    ensures bytes { IfOk result (λ _. code.new.items ≡ code.old.items ++ spelling op) }
    ensures fits { OpFits op }
{
    let descriptor = op.descriptor();
    code.push(descriptor.tag)?;
    spell_fields(code, &descriptor.fields)
}

/// The bytes of the instructions, one after the other.
pub fn assemble(alloc: Global, ops: &[Op]) -> Result<Blob, OutOfMemory>
    ensures bytes { IfOk result (λ code. code ≡ flat_map spelling ops.now) }
    // Each operand fits its bytes, so that the instructions are read again.
    ensures fits { IfOk result (λ _. AllByRecursion OpFits ops.now) }
{
    let mut code = Vec::new(alloc);
    for op in ops {
        spell(&mut code, *op)?;
    }
    Ok(Blob::from_vec(code))
}

/// What is assembled reads as it was written: at the address after the instructions before it, each
/// instruction is read again, with the width of its bytes.
pub fn assembled_reads_back()
    ensures { (before after : List Op) (op : Op) → OpFits op
        → op_at (flat_map spelling (before ++ op ∷ after)) (length (flat_map spelling before))
        ≡ Some (op, length (spelling op)) }
{}
