//! The lines that give code: instructions and single bytes.

ghost use Rattle.std.specs.Prelude.{◌≡◌, [], IfOk};
ghost use Rattle.grain_program.specs.Fields.{present, size_of};
ghost use Rattle.grain_listing.specs.Instructions.{kind_of, kinds_of};
ghost use Rattle.grain_listing.specs.declared.table.Line.TheVariants as lines;
ghost use Rattle.grain_listing.specs.views.AssemblerView.{assembler_view, result_view, rest_view};
ghost use Rattle.grain_listing.specs.views.Assembling.{HasRoom, with_code, with_fixup, put_operand_word, put_operand, put_operands, put_line};

use crate::assembler::{Assembler, Fixup};
use crate::table::OperandKind;
use grain_literals::{Reason, byte_of, position_after, word_operand};
use grain_program::{Field, Op};
use grain_value::{OutOfMemory, Text};
use grain_words::{begins_letter, number, word_text};
use std::alloc::Global;

/// How an operand of the kind is read.
fn kind_of(field: Field) -> OperandKind
    ensures { result ≡ kind_of (size_of field) }
{
    match field {
        Field::Count(_) => OperandKind::Byte,
        Field::Constant(_)
        | Field::Name(_)
        | Field::Assignment(_)
        | Field::Chain(_)
        | Field::Switch(_)
        | Field::Token(_)
        | Field::Slot(_)
        | Field::Number(_) => OperandKind::Index,
        Field::Target(_) => OperandKind::Target,
    }
}

impl Assembler {
    fn put_bytes(&mut self, bytes: &[u8]) -> Result<(), OutOfMemory>
        ensures { IfOk result (λ _. assembler_view self.new ≡
            with_code bytes.now (assembler_view self.old)) }
    {
        self.code.extend_from_slice(bytes)?;
        Ok(())
    }

    fn put_fixup(&mut self, label: Text) -> Result<(), OutOfMemory>
        ensures { IfOk result (λ _. assembler_view self.new ≡
            with_fixup label (assembler_view self.old)) }
    {
        let at = self.code.len();
        self.fixups.push(Fixup {
            line: self.line,
            at,
            label,
        })?;
        self.code.extend_from_slice(&[0, 0, 0, 0])?;
        Ok(())
    }

    fn put_operand_word(
        &mut self,
        alloc: Global,
        kind: OperandKind,
        word: &[char],
    ) -> Result<Result<(), Reason>, OutOfMemory>
        ensures { IfOk result (λ r. result_view r (assembler_view self.new) ≡
            put_operand_word kind word.now (assembler_view self.old)) }
    {
        match kind {
            OperandKind::Byte => match number(255, word) {
                None => return Ok(Err(Reason::BadOperand)),
                Some(byte) => self.put_bytes(&[byte as u8])?,
            },
            OperandKind::Index => match number(65_535, word) {
                None => return Ok(Err(Reason::BadOperand)),
                Some(index) => self.put_bytes(&(index as u16).to_le_bytes())?,
            },
            OperandKind::Target => {
                if begins_letter(word) {
                    let label = word_text(alloc, word)?;
                    self.put_fixup(label)?;
                } else {
                    match number(u32::MAX as u64, word) {
                        None => return Ok(Err(Reason::BadOperand)),
                        Some(address) => self.put_bytes(&(address as u32).to_le_bytes())?,
                    }
                }
            }
        }
        Ok(Ok(()))
    }

    /// An operand, with what is left after it.
    fn put_operand<'a>(
        &mut self,
        alloc: Global,
        kind: OperandKind,
        line: &'a [char],
    ) -> Result<Result<&'a [char], Reason>, OutOfMemory>
        ensures { IfOk result (λ r. rest_view r (assembler_view self.new) ≡
            put_operand kind line.now (assembler_view self.old)) }
    {
        match word_operand(line) {
            Err(reason) => Ok(Err(reason)),
            Ok((word, rest)) => match self.put_operand_word(alloc, kind, word)? {
                Err(reason) => Ok(Err(reason)),
                Ok(()) => Ok(Ok(rest)),
            },
        }
    }

    fn put_last(&mut self, address: u32, rest: &[char]) -> Result<Result<(), Reason>, OutOfMemory>
        ensures { IfOk result (λ r. result_view r (assembler_view self.new) ≡
            put_operands address [] rest.now (assembler_view self.old)) }
    {
        match position_after(rest) {
            Err(reason) => Ok(Err(reason)),
            Ok(position) => {
                self.put_position(address, position)?;
                Ok(Ok(()))
            }
        }
    }

    fn put_operands(
        &mut self,
        alloc: Global,
        address: u32,
        places: &[Option<Field>],
        line: &[char],
    ) -> Result<Result<(), Reason>, OutOfMemory>
        ensures { IfOk result (λ r. result_view r (assembler_view self.new) ≡
            put_operands address (kinds_of (present places.now)) line.now
            (assembler_view self.old)) }
    {
        let mut rest = line;
        for place in places {
            if let Some(field) = place {
                match self.put_operand(alloc, kind_of(*field), rest)? {
                    Err(reason) => return Ok(Err(reason)),
                    Ok(after) => rest = after,
                }
            }
        }
        self.put_last(address, rest)
    }

    /// An instruction's line, by what stands after its word.
    pub fn put_instruction(
        &mut self,
        alloc: Global,
        op: Op,
        rest: &[char],
    ) -> Result<Result<(), Reason>, OutOfMemory>
        requires { HasRoom (assembler_view self.old) }
        ensures { IfOk result (λ r. result_view r (assembler_view self.new) ≡
            put_line (lines.Instruction op) rest.now (assembler_view self.old)) }
    {
        let address = self.code_address();
        let row = op.descriptor();
        self.code.push(row.tag)?;
        self.put_operands(alloc, address, row.fields.as_slice(), rest)
    }

    /// The line of a single byte, by what stands after `byte`.
    pub fn put_byte(&mut self, rest: &[char]) -> Result<Result<(), Reason>, OutOfMemory>
        requires { HasRoom (assembler_view self.old) }
        ensures { IfOk result (λ r. result_view r (assembler_view self.new) ≡
            put_line lines.Byte rest.now (assembler_view self.old)) }
    {
        match byte_of(rest) {
            Err(reason) => Ok(Err(reason)),
            Ok((byte, position)) => {
                let address = self.code_address();
                self.code.push(byte)?;
                self.put_position(address, position)?;
                Ok(Ok(()))
            }
        }
    }
}
