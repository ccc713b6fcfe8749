//! The lines that begin and end blocks, and labels.

ghost use Rattle.std.specs.Prelude.{◌≡◌, IfOk};
ghost use Rattle.grain_listing.specs.declared.table.Line.TheVariants as lines;
ghost use Rattle.grain_listing.specs.views.AssemblerView.{assembler_view, result_view};
ghost use Rattle.grain_listing.specs.views.Assembling.{HasRoom, opened, with_block, closed, put_label, put_line};

use crate::assembler::Assembler;
use crate::blocks::OpenBlock;
use crate::headers::{FunctionHeader, header_of, is_crowded, stack_of};
use crate::pool_lines::POOL_ROOM;
use crate::table::{Section, is_block};
use grain_literals::{Reason, alone};
use grain_program::{Chunk, Function};
use grain_value::OutOfMemory;
use std::alloc::Global;

impl Assembler {
    /// The beginning of the main block.
    pub fn put_main(&mut self, rest: &[char]) -> Result<(), Reason>
        requires { HasRoom (assembler_view self.old) }
        ensures { result_view result (assembler_view self.new) ≡
            put_line lines.Main rest.now (assembler_view self.old) }
    {
        let address = self.code_address();
        let stack = stack_of(rest)?;
        self.section = Section::Block;
        self.block = Some(OpenBlock::Main(address, stack));
        Ok(())
    }

    fn open_function(
        &mut self,
        alloc: Global,
        address: u32,
        rest: &[char],
    ) -> Result<Result<(), Reason>, OutOfMemory>
        ensures { IfOk result (λ r. result_view r (assembler_view self.new) ≡
            opened address rest.now (assembler_view self.old)) }
    {
        match header_of(alloc, rest)? {
            Err(reason) => Ok(Err(reason)),
            Ok(header) => {
                self.section = Section::Block;
                self.block = Some(OpenBlock::Function(address, header));
                Ok(Ok(()))
            }
        }
    }

    /// The beginning of a function's block.
    pub fn put_function(
        &mut self,
        alloc: Global,
        rest: &[char],
    ) -> Result<Result<(), Reason>, OutOfMemory>
        requires { HasRoom (assembler_view self.old) }
        ensures { IfOk result (λ r. result_view r (assembler_view self.new) ≡
            put_line lines.Function rest.now (assembler_view self.old)) }
    {
        if self.functions.len() >= POOL_ROOM {
            return Ok(Err(Reason::TooMany));
        }
        if is_crowded(rest) {
            return Ok(Err(Reason::TooMany));
        }
        let address = self.code_address();
        self.open_function(alloc, address, rest)
    }

    fn end_block(&mut self, block: OpenBlock, end: u32) -> Result<(), OutOfMemory>
        ensures { IfOk result (λ _. assembler_view self.new ≡
            with_block end block (assembler_view self.old)) }
    {
        match block {
            OpenBlock::Main(entry, max_stack) => {
                self.main = Chunk {
                    entry,
                    end,
                    max_stack,
                };
                Ok(())
            }
            OpenBlock::Function(entry, header) => {
                let FunctionHeader {
                    name,
                    stack: max_stack,
                    params,
                    this_type,
                } = header;
                let chunk = Chunk {
                    entry,
                    end,
                    max_stack,
                };
                self.functions.push(Function {
                    name,
                    params,
                    this_type,
                    chunk,
                })?;
                Ok(())
            }
        }
    }

    /// Ends the block that is open at the address.
    fn close(&mut self, end: u32) -> Result<(), OutOfMemory>
        ensures { IfOk result (λ _. assembler_view self.new ≡
            closed end self.old.block (assembler_view self.old)) }
    {
        self.section = Section::After;
        match self.block.take() {
            None => Ok(()),
            Some(block) => self.end_block(block, end),
        }
    }

    /// The end of a block.
    pub fn put_end(&mut self, rest: &[char]) -> Result<Result<(), Reason>, OutOfMemory>
        requires { HasRoom (assembler_view self.old) }
        ensures { IfOk result (λ r. result_view r (assembler_view self.new) ≡
            put_line lines.End rest.now (assembler_view self.old)) }
    {
        if let Err(reason) = alone(rest) {
            return Ok(Err(reason));
        }
        let address = self.code_address();
        self.close(address)?;
        Ok(Ok(()))
    }

    /// A label.
    pub fn put_label(
        &mut self,
        alloc: Global,
        label: &str,
        rest: &[char],
    ) -> Result<Result<(), Reason>, OutOfMemory>
        requires { HasRoom (assembler_view self.old) }
        ensures { IfOk result (λ r. result_view r (assembler_view self.new) ≡
            put_label label.now rest.now (assembler_view self.old)) }
    {
        if !is_block(self.section) {
            return Ok(Err(Reason::OutOfPlace));
        }
        if self.labels.get(label).is_some() {
            return Ok(Err(Reason::LabelTwice));
        }
        if let Err(reason) = alone(rest) {
            return Ok(Err(reason));
        }
        let address = self.code_address();
        self.labels.insert(alloc, label, address)?;
        Ok(Ok(()))
    }
}
