//! What the lines of a listing so far have given.

ghost use Rattle.std.specs.Prelude.{◌≡◌, IfOk, length};
ghost use Rattle.grain_listing.specs.views.Limits.{AreAllowed};

use crate::blocks::OpenBlock;
use crate::headers::AssignLine;
use crate::limits::LimitLine;
use crate::switch_words::{Aim, AimedSwitch};
use crate::table::{Follows, Section};
use grain_fault::Position;
use grain_host::TableHost;
use grain_program::{Chains, Chunk, Functions, Names, PositionEntry, Positions, Tokens};
use grain_value::{Array, List, OutOfMemory, Scope, Text};
use grain_words::Labels;
use std::alloc::Global;

/// Four bytes of the code from `at` on that stand for a label's address, and the line that names
/// the label.
#[derive(Drop)]
pub struct Fixup {
    pub line: usize,
    pub at: usize,
    pub label: Text,
}

/// What the lines so far have given, and the number of the line that is read.
#[derive(Drop)]
pub struct Assembler {
    pub line: usize,
    pub section: Section,
    pub caps: Option<u8>,
    pub source: Option<Text>,
    pub limits: Vec<LimitLine>,
    pub flags: Vec<&'static str>,
    pub host: TableHost,
    pub scope: Scope,
    pub consts: Array,
    pub names: Names,
    pub tokens: Tokens,
    pub assigns: Vec<AssignLine>,
    pub chains: Chains,
    pub switches: List<AimedSwitch>,
    /// The aims of the switches, of their cases and of their ranges, in the order of the lines.
    pub aims: List<Aim>,
    /// Whether steps of the last chain, or cases and ranges of the last switch, may follow.
    pub follows: Follows,
    pub block: Option<OpenBlock>,
    pub main: Chunk,
    pub functions: Functions,
    pub code: Vec<u8>,
    pub positions: Positions,
    pub labels: Labels,
    pub fixups: Vec<Fixup>,
    ghost allowed: { AreAllowed limits.items },
}

impl Assembler {
    ghost use Rattle.grain_listing.specs.views.AssemblerView.{assembler_view};
    ghost use Rattle.grain_listing.specs.views.Assembling.{empty, HasRoom, with_position};

    /// Nothing so far. It takes no memory.
    pub fn new(alloc: Global) -> Assembler
        ensures { assembler_view result ≡ empty }
    {
        Assembler {
            line: 0,
            section: Section::Start,
            caps: None,
            source: None,
            limits: Vec::new(alloc),
            flags: Vec::new(alloc),
            host: TableHost::new(alloc),
            scope: Scope::new(alloc),
            consts: Array::new(alloc),
            names: Names::new(alloc),
            tokens: Tokens::new(alloc),
            assigns: Vec::new(alloc),
            chains: Chains::new(alloc),
            switches: List::new(alloc),
            aims: List::new(alloc),
            follows: Follows::Nothing,
            block: None,
            main: Chunk {
                entry: 0,
                end: 0,
                max_stack: 0,
            },
            functions: Functions::new(alloc),
            code: Vec::new(alloc),
            positions: Positions::new(alloc),
            labels: Labels::new(alloc),
            fixups: Vec::new(alloc),
        }
    }

    /// The address of what comes next.
    pub fn code_address(&self) -> u32
        requires { HasRoom (assembler_view self.now) }
        ensures { result ≡ length self.now.code.items }
    {
        self.code.len() as u32
    }

    /// Records the position of the instruction at the address, if it has one.
    pub fn put_position(
        &mut self,
        address: u32,
        position: Option<Position>,
    ) -> Result<(), OutOfMemory>
        ensures { IfOk result (λ _. assembler_view self.new ≡
            with_position address position (assembler_view self.old)) }
    {
        if let Some(position) = position {
            self.positions.push(PositionEntry { address, position })?;
        }
        Ok(())
    }
}
