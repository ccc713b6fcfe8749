//! From what the lines have given to what the listing says: operators and labels are looked up.

ghost use Rattle.std.specs.Prelude.{◌≡◌, ◌+◌, IfOk, ◌<◌, slice_set, length};
ghost use Rattle.grain_listing.specs.Reading.{assign_op_of, assign_ops_of, token_at, limits_of, caps_of, last_line};
ghost use Rattle.grain_listing.specs.views.Limits.{AreAllowed, limits_view};
ghost use Rattle.grain_listing.specs.ListingViews.{outcome, IsReady};
ghost use Rattle.grain_listing.specs.views.AssemblerView.{assembler_view};
ghost use Rattle.grain_listing.specs.views.Linking.{ending, finish, linked, filled, fill, write_at, left};
ghost use Rattle.grain_listing.specs.views.Ordered.{IsOrdered};

use crate::assembler::{Assembler, Fixup};
use crate::flags::is_on;
use crate::headers::AssignLine;
use crate::limits::LimitLine;
use crate::listings::Listing;
use crate::reasons::BadLine;
use crate::settings::number_of;
use crate::switch_linking::{check_aims, linked_switches};
use crate::table::Section;
use bitflags::Flags;
use grain_literals::Reason;
use grain_program::{AssignOp, AssignOps, Caps, Parts, Switches, Tokens};
use grain_value::{Blob, Limits, OutOfMemory, Token};
use grain_words::Labels;
use std::alloc::Global;

fn token_at(tokens: &Tokens, line: usize, index: u32) -> Result<Token, BadLine>
    ensures { result ≡ token_at tokens.now line index }
{
    match tokens.get(index as usize) {
        None => Err(BadLine {
            line,
            reason: Reason::BadOperand,
        }),
        Some(token) => Ok(*token),
    }
}

fn assign_op_of(tokens: &Tokens, assign: AssignLine) -> Result<AssignOp, BadLine>
    ensures { result ≡ assign_op_of tokens.now assign }
{
    let op_assign = token_at(tokens, assign.line, assign.op_assign)?;
    let op = token_at(tokens, assign.line, assign.op)?;
    Ok(AssignOp {
        op_assign,
        op_assign_name: assign.op_assign_name,
        op,
        op_name: assign.op_name,
    })
}

fn assign_ops_of(
    alloc: Global,
    tokens: &Tokens,
    assigns: &[AssignLine],
) -> Result<Result<AssignOps, BadLine>, OutOfMemory>
    ensures { IfOk result (λ r. r ≡ assign_ops_of tokens.now assigns.now) }
{
    let mut found = AssignOps::new(alloc);
    for assign in assigns {
        match assign_op_of(tokens, *assign) {
            Err(bad) => return Ok(Err(bad)),
            Ok(assign_op) => found.push(assign_op)?,
        }
    }
    Ok(Ok(found))
}

#[tactic(auto, using(crate::proofs::Beyond::set_beyond))]
fn put_at(code: &mut Vec<u8>, at: usize, i: usize, byte: u8)
    ensures { code.new.items ≡ slice_set code.old.items (at + i) byte }
{
    if at < code.len() && i < code.len() - at {
        code[at + i] = byte;
    }
}

fn write_at(code: &mut Vec<u8>, at: usize, bytes: &[u8])
    ensures { code.new.items ≡ write_at at bytes.now code.old.items }
{
    for (i, byte) in bytes.iter().enumerate() {
        put_at(code, at, i, *byte);
    }
}

/// Writes the address of its label at each fixup.
fn fill(labels: &Labels, fixups: &[Fixup], code: &mut Vec<u8>) -> Result<(), BadLine>
    ensures code { left result code.new.items ≡ fill labels.now fixups.now code.old.items }
    ensures length { IfOk result (λ _. length code.new.items ≡ length code.old.items) }
{
    for fixup in fixups {
        match labels.get(fixup.label.as_str()) {
            None => {
                return Err(BadLine {
                    line: fixup.line,
                    reason: Reason::UnknownLabel,
                });
            }
            Some(address) => write_at(code, fixup.at, &address.to_le_bytes()),
        }
    }
    Ok(())
}

#[tactic(auto, using(crate::proofs::AllowedLimits::operations_allowed))]
fn limits_of(lines: &[LimitLine]) -> Limits
    requires { AreAllowed lines.now }
    ensures limits { result ≡ limits_of (limits_view lines.now) }
    ensures allowed { 0 < result.operations }
{
    Limits {
        operations: number_of("operations", lines),
        levels: number_of("levels", lines) as usize,
        variables: number_of("variables", lines) as usize,
        modules: number_of("modules", lines) as usize,
        text: number_of("text", lines) as usize,
        array: number_of("array", lines) as usize,
        map: number_of("map", lines) as usize,
    }
}

fn caps_of(bits: Option<u8>) -> Caps
    ensures { result.0 ≡ caps_of bits }
{
    match bits {
        None => Caps::all(),
        Some(bits) => <Caps as Flags>::from_bits_retain(bits),
    }
}

/// What the assembler says, whose last block is over, with these op-assignments and switches.
fn set_up(
    assembler: Assembler,
    assign_ops: AssignOps,
    switches: Switches,
) -> Result<Listing, BadLine>
    requires { IsOrdered (assembler_view assembler) }
    ensures setup { outcome result ≡ filled (assembler_view assembler) assign_ops switches }
    ensures ready { IfOk result IsReady }
{
    let Assembler {
        line: _,
        section: _,
        caps,
        source,
        limits,
        flags,
        host,
        scope,
        consts,
        names,
        tokens,
        assigns: _,
        chains,
        switches: _,
        aims: _,
        follows: _,
        block: _,
        main,
        functions,
        mut code,
        positions,
        labels,
        fixups,
    } = assembler;
    fill(&labels, fixups.as_slice(), &mut code)?;
    let parts = Parts {
        caps: caps_of(caps),
        code: Blob::from_vec(code),
        main,
        functions,
        consts,
        names,
        tokens,
        assign_ops,
        chains,
        switches,
        positions,
        source,
    };
    Ok(Listing {
        parts,
        limits: limits_of(limits.as_slice()),
        fast_operators: is_on("operators", flags.as_slice()),
        strict_properties: is_on("strict", flags.as_slice()),
        host,
        scope,
    })
}

/// What the assembler says, whose last block is over.
fn link(
    alloc: Global,
    assembler: Assembler,
    assign_ops: AssignOps,
) -> Result<Result<Listing, BadLine>, OutOfMemory>
    requires { IsOrdered (assembler_view assembler) }
    ensures setup { IfOk result (λ r. outcome r ≡ linked (assembler_view assembler) assign_ops) }
    ensures ready { IfOk result (λ r. IfOk r IsReady) }
{
    if let Err(bad) = check_aims(&assembler.labels, assembler.aims.as_slice()) {
        return Ok(Err(bad));
    }
    let switches = linked_switches(alloc, &assembler.labels, assembler.switches.as_slice())?;
    Ok(set_up(assembler, assign_ops, switches))
}

fn last_line(n: usize) -> usize
    ensures { result ≡ last_line n }
{
    if n == 0 { 1 } else { n }
}

/// What the assembler says after the nth line, which is its last one.
fn finish(
    alloc: Global,
    n: usize,
    assembler: Assembler,
    assign_ops: AssignOps,
) -> Result<Result<Listing, BadLine>, OutOfMemory>
    requires { IsOrdered (assembler_view assembler) }
    ensures setup { IfOk result (λ r. outcome r ≡
        finish n assembler.section (assembler_view assembler) assign_ops) }
    ensures ready { IfOk result (λ r. IfOk r IsReady) }
{
    match assembler.section {
        Section::Start => Ok(Err(BadLine {
            line: last_line(n),
            reason: Reason::MissingHeader,
        })),
        Section::Pools => Ok(Err(BadLine {
            line: n,
            reason: Reason::MissingMain,
        })),
        Section::Block => Ok(Err(BadLine {
            line: n,
            reason: Reason::UnfinishedChunk,
        })),
        Section::After => link(alloc, assembler, assign_ops),
    }
}

/// What the assembler has after the nth line, which is the last one.
pub fn ending(
    alloc: Global,
    n: usize,
    assembler: Assembler,
) -> Result<Result<Listing, BadLine>, OutOfMemory>
    requires { IsOrdered (assembler_view assembler) }
    ensures setup { IfOk result (λ r. outcome r ≡ ending n (assembler_view assembler)) }
    ensures ready { IfOk result (λ r. IfOk r IsReady) }
{
    match assign_ops_of(alloc, &assembler.tokens, assembler.assigns.as_slice())? {
        Err(bad) => Ok(Err(bad)),
        Ok(assign_ops) => finish(alloc, n, assembler, assign_ops),
    }
}
