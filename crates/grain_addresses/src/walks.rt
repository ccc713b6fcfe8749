//! A walk over the lines of a listing: where the next line stands.

ghost use Rattle.std.specs.Prelude.{◌≡◌, ◌++◌, ◌≤◌, ◌<◌, ◌^◌, IfOk, length};
ghost use Rattle.grain_words.specs.Lines.{lines_of};
ghost use Rattle.grain_addresses.specs.Kinds.{IsNarrow};
ghost use Rattle.grain_addresses.specs.Walks.{functions_after, start, stepped, place_in, step_in, walked, walked_steps, IsBounded};

use crate::blocks::Block;
use crate::kinds::{LineKind, line_kind};
use crate::places::Place;
use crate::step_lines::StepLine;
use grain_value::OutOfMemory;
use grain_words::next_line;
use std::alloc::Global;

/// Where the next line stands: how many lines there are before it, its address, the block that is
/// open, whether one is open, how many functions ended before it, and how many chains there are, with the
/// number of their slots.
#[derive(Clone, Copy, Debug, PartialEq, Eq)]
pub struct Walk {
    pub lines: usize,
    pub address: usize,
    pub block: Block,
    pub in_block: bool,
    pub functions: usize,
    pub chains: usize,
    pub slots: usize,
}

/// How many functions ended, where a block ends after this many of them.
fn functions_after(block: Block, functions: usize) -> usize
    requires { functions < 2 ^ 32 }
    ensures { result ≡ functions_after block functions }
{
    match block {
        Block::Main => functions,
        Block::Function(_) => functions + 1,
    }
}

impl Walk {
    /// Before the first line.
    fn new() -> Walk
        ensures { result ≡ start }
    {
        Walk {
            lines: 0,
            address: 0,
            block: Block::Main,
            in_block: false,
            functions: 0,
            chains: 0,
            slots: 0,
        }
    }

    /// After one more line, which gives this.
    fn stepped(self, kind: LineKind) -> Walk
        requires few { self.lines < 2 ^ 32 }
        requires bounded { IsBounded self }
        requires narrow { IsNarrow kind }
        ensures { result ≡ stepped kind self }
    {
        let lines = self.lines + 1;
        match kind {
            LineKind::Code(width, _) => Walk {
                lines,
                address: self.address + width,
                ..self
            },
            LineKind::Main => Walk {
                lines,
                block: Block::Main,
                in_block: true,
                ..self
            },
            LineKind::Function => Walk {
                lines,
                block: Block::Function(self.functions),
                in_block: true,
                ..self
            },
            LineKind::End => Walk {
                lines,
                block: Block::Main,
                in_block: false,
                functions: functions_after(self.block, self.functions),
                ..self
            },
            LineKind::Chain(slots) => Walk {
                lines,
                chains: self.chains + 1,
                slots: self.slots + slots,
                ..self
            },
            LineKind::Step(slots) => Walk {
                lines,
                slots: self.slots + slots,
                ..self
            },
            LineKind::Other => Walk { lines, ..self },
        }
    }
}

/// Records the line, if it gives code.
fn push_place<'a>(
    found: &mut Vec<Place<'a>>,
    walk: Walk,
    kind: LineKind,
    line: &'a [char],
) -> Result<(), OutOfMemory>
    requires { walk.lines < 2 ^ 32 }
    ensures { IfOk result (λ _. found.new.items ≡
        found.old.items ++ place_in line.now walk kind) }
{
    if let LineKind::Code(width, position) = kind {
        found.push(Place::new(
            walk.lines + 1,
            walk.address,
            width,
            walk.block,
            position,
            line,
        ))?;
    }
    Ok(())
}

/// Records the line, if it is a step's.
fn push_step<'a>(
    found: &mut Vec<StepLine<'a>>,
    walk: Walk,
    kind: LineKind,
    line: &'a [char],
) -> Result<(), OutOfMemory>
    requires { walk.lines < 2 ^ 32 }
    ensures { IfOk result (λ _. found.new.items ≡ found.old.items ++ step_in line.now walk kind) }
{
    if let LineKind::Step(_) = kind {
        let number = walk.lines + 1;
        found.push(StepLine::new(number, walk.chains, walk.slots, line))?;
    }
    Ok(())
}

/// The lines of a text that are steps of chains, as they stand in a listing.
pub fn walked_steps(alloc: Global, text: &[char]) -> Result<Vec<StepLine<'_>>, OutOfMemory>
    requires { length text.now ≤ 16777216 }
    ensures { IfOk result (λ steps. steps.items ≡ walked_steps start (lines_of text.now)) }
{
    let mut found = Vec::new(alloc);
    let mut walk = Walk::new();
    let mut rest = text;
    'lines: while !rest.is_empty() {
        let (line, after) = next_line(rest);
        let kind = line_kind(walk.in_block, line);
        push_step(&mut found, walk, kind, line)?;
        walk = walk.stepped(kind);
        rest = after;
    }
    Ok(found)
}

/// The lines of a text that give code, as they stand in a listing.
pub fn walked(alloc: Global, text: &[char]) -> Result<Vec<Place<'_>>, OutOfMemory>
    requires { length text.now ≤ 16777216 }
    ensures { IfOk result (λ places. places.items ≡ walked start (lines_of text.now)) }
{
    let mut found = Vec::new(alloc);
    let mut walk = Walk::new();
    let mut rest = text;
    'lines: while !rest.is_empty() {
        let (line, after) = next_line(rest);
        let kind = line_kind(walk.in_block, line);
        push_place(&mut found, walk, kind, line)?;
        walk = walk.stepped(kind);
        rest = after;
    }
    Ok(found)
}
