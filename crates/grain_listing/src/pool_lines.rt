//! The lines before the blocks: capabilities, the source, limits, flags, pools and the starting
//! scope.

ghost use Rattle.std.specs.Prelude.{◌≡◌, IfOk};
ghost use Rattle.grain_listing.specs.declared.table.Line.TheVariants as lines;
ghost use Rattle.grain_listing.specs.views.AssemblerView.{assembler_view, result_view};
ghost use Rattle.grain_listing.specs.views.Limits.{Allows, set_view};
ghost use Rattle.grain_listing.specs.views.Assembling.{unset, limit_line, put_line};

use crate::assembler::Assembler;
use crate::flags::flag_of;
use crate::headers::assign_of;
use crate::limits::LimitLine;
use crate::settings::{capabilities, limit_named, limit_number, line_named};
use grain_literals::{Reason, ScopeEntry, constant_of, entry_of, text_of, token_of, word_operand};
use grain_value::{Name, OutOfMemory};
use std::alloc::Global;

/// How many entries a pool may have.
pub const POOL_ROOM: usize = 65_536;

impl Assembler {
    fn unset(&self, name: &str) -> Result<(), Reason>
        ensures { result ≡ unset name.now (assembler_view self.now) }
    {
        if line_named(name, self.limits.as_slice()).is_some() {
            Err(Reason::OutOfPlace)
        } else {
            Ok(())
        }
    }

    fn limit_line(&self, rest: &[char]) -> Result<LimitLine, Reason>
        ensures least { IfOk result (λ l. Allows l.name.now l.number) }
        ensures line { set_view result ≡ limit_line rest.now (assembler_view self.now) }
    {
        let (word, rest) = word_operand(rest)?;
        let (name, limit) = limit_named(word)?;
        self.unset(name)?;
        let number = limit_number(limit, rest)?;
        Ok(LimitLine { name, number })
    }

    /// A limit.
    pub fn put_limit(&mut self, rest: &[char]) -> Result<Result<(), Reason>, OutOfMemory>
        ensures { IfOk result (λ r. result_view r (assembler_view self.new) ≡
            put_line lines.Limit rest.now (assembler_view self.old)) }
    {
        match self.limit_line(rest) {
            Err(reason) => Ok(Err(reason)),
            Ok(limit) => {
                self.limits.push(limit)?;
                Ok(Ok(()))
            }
        }
    }

    /// A flag.
    pub fn put_flag(&mut self, rest: &[char]) -> Result<Result<(), Reason>, OutOfMemory>
        ensures { IfOk result (λ r. result_view r (assembler_view self.new) ≡
            put_line lines.Flag rest.now (assembler_view self.old)) }
    {
        match flag_of(rest) {
            Err(reason) => Ok(Err(reason)),
            Ok(name) => {
                self.flags.push(name)?;
                Ok(Ok(()))
            }
        }
    }

    /// The capabilities.
    pub fn put_capabilities(&mut self, rest: &[char]) -> Result<(), Reason>
        ensures { result_view result (assembler_view self.new) ≡
            put_line lines.Capabilities rest.now (assembler_view self.old) }
    {
        if self.caps.is_some() {
            return Err(Reason::OutOfPlace);
        }
        let bits = capabilities(rest)?;
        self.caps = Some(bits);
        Ok(())
    }

    /// The name of the script that the program was made from.
    pub fn put_source(
        &mut self,
        alloc: Global,
        rest: &[char],
    ) -> Result<Result<(), Reason>, OutOfMemory>
        ensures { IfOk result (λ r. result_view r (assembler_view self.new) ≡
            put_line lines.Source rest.now (assembler_view self.old)) }
    {
        if self.source.is_some() {
            return Ok(Err(Reason::OutOfPlace));
        }
        match text_of(alloc, rest)? {
            Err(reason) => Ok(Err(reason)),
            Ok(text) => {
                self.source = Some(text);
                Ok(Ok(()))
            }
        }
    }

    /// A constant.
    pub fn put_constant(
        &mut self,
        alloc: Global,
        rest: &[char],
    ) -> Result<Result<(), Reason>, OutOfMemory>
        ensures { IfOk result (λ r. result_view r (assembler_view self.new) ≡
            put_line lines.Constant rest.now (assembler_view self.old)) }
    {
        if self.consts.len() >= POOL_ROOM {
            return Ok(Err(Reason::TooMany));
        }
        match constant_of(alloc, rest)? {
            Err(reason) => Ok(Err(reason)),
            Ok(value) => {
                self.consts.push(value)?;
                Ok(Ok(()))
            }
        }
    }

    /// A name.
    pub fn put_name(
        &mut self,
        alloc: Global,
        rest: &[char],
    ) -> Result<Result<(), Reason>, OutOfMemory>
        ensures { IfOk result (λ r. result_view r (assembler_view self.new) ≡
            put_line lines.Name rest.now (assembler_view self.old)) }
    {
        if self.names.len() >= POOL_ROOM {
            return Ok(Err(Reason::TooMany));
        }
        match text_of(alloc, rest)? {
            Err(reason) => Ok(Err(reason)),
            Ok(text) => {
                let name = Name::new(alloc, text)?;
                self.names.push(name)?;
                Ok(Ok(()))
            }
        }
    }

    /// An operator.
    pub fn put_operator(
        &mut self,
        alloc: Global,
        rest: &[char],
    ) -> Result<Result<(), Reason>, OutOfMemory>
        ensures { IfOk result (λ r. result_view r (assembler_view self.new) ≡
            put_line lines.Operator rest.now (assembler_view self.old)) }
    {
        if self.tokens.len() >= POOL_ROOM {
            return Ok(Err(Reason::TooMany));
        }
        match token_of(alloc, rest)? {
            Err(reason) => Ok(Err(reason)),
            Ok(token) => {
                self.tokens.push(token)?;
                Ok(Ok(()))
            }
        }
    }

    /// An op-assignment.
    pub fn put_assign(&mut self, rest: &[char]) -> Result<Result<(), Reason>, OutOfMemory>
        ensures { IfOk result (λ r. result_view r (assembler_view self.new) ≡
            put_line lines.Assign rest.now (assembler_view self.old)) }
    {
        if self.assigns.len() >= POOL_ROOM {
            return Ok(Err(Reason::TooMany));
        }
        match assign_of(self.line, rest) {
            Err(reason) => Ok(Err(reason)),
            Ok(assign) => {
                self.assigns.push(assign)?;
                Ok(Ok(()))
            }
        }
    }

    /// An entry of the starting scope.
    pub fn put_entry(
        &mut self,
        alloc: Global,
        rest: &[char],
    ) -> Result<Result<(), Reason>, OutOfMemory>
        ensures { IfOk result (λ r. result_view r (assembler_view self.new) ≡
            put_line lines.Entry rest.now (assembler_view self.old)) }
    {
        match entry_of(alloc, rest)? {
            Err(reason) => Ok(Err(reason)),
            Ok(entry) => {
                let ScopeEntry { name, held } = entry;
                self.scope.push(name, held)?;
                Ok(Ok(()))
            }
        }
    }
}
