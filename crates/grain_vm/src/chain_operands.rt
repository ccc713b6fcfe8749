//! The operands of a chain: what its steps use, what it assigns, and its root, if the
//! root is an operand.

ghost use Rattle.std.specs.Prelude.{◌≡◌, ◌<◌, ◌≤◌, length, IfOk, Option, true};
ghost use Rattle.grain_value.specs.Operands.{top};
ghost use Rattle.grain_value.specs.declared.values.Held.{Held};
ghost use Rattle.grain_program.specs.Chains.{assigns};
ghost use Rattle.grain_means.specs.Rules.{trees_in};
ghost use Rattle.grain_means.specs.Rules.Chains.{assigned_operand, root_operands, steps_operands};
ghost use Rattle.grain_vm.specs.Chains.{HasChainOperands, KeepsValue, TakesCopies, between, can_read, left_by, root_operand, value_taken, without_root, without_value};
ghost use Rattle.grain_frame.specs.Targets.{kept_value};

use crate::roots::{assigned, operands_of};
use grain_frame::Run;
use grain_host::Host;
use grain_program::{Chain, Root, Tail};
use grain_value::{Array, Dynamic, Held, OutOfMemory};
use std::alloc::Global;

/// Copies of a chain's operands without the root: `operands` of those of its steps, and `kept` of the
/// content of the cell that it assigns, if it assigns a cell.
#[derive(Drop)]
pub struct Taken {
    pub operands: Array,
    pub kept: Option<Dynamic>,
}

// Copies of the values that these hold.
fn copies_of(alloc: Global, held: &[Held]) -> Result<Array, OutOfMemory>
    ensures { IfOk result (λ all. all ≡ trees_in held.now) }
{
    let mut all = Array::new(alloc);
    'held: for one in held {
        all.push(one.value.copy(alloc)?)?;
    }
    Ok(all)
}

// The value that a chain assigns: the copy that was kept, if the operand is a cell, or else
// the operand itself.
fn value_of(kept: Option<Dynamic>, operand: Held) -> Dynamic
    ensures { result ≡ kept_value kept operand.value }
{
    match kept {
        Some(value) => value,
        None => operand.value,
    }
}

// Copies of a chain's operands without the root.
pub(crate) fn copy_operands<H: Host>(run: &Run<H>, chain: &Chain) -> Result<Taken, OutOfMemory>
    requires operands { HasChainOperands chain.now run.now.stacks.operands }
    requires readable { can_read run.now.cells chain.now.tail
        (assigned_operand chain.now run.now.stacks.operands) ≡ true }
    ensures { IfOk result (λ t. TakesCopies run.now chain.now t) }
{
    let kept = keep_assigned(run, chain)?;
    let operands = copy_used(run, chain)?;
    Ok(Taken { operands, kept })
}

// Copies of the operands of a chain's steps.
fn copy_used<H: Host>(run: &Run<H>, chain: &Chain) -> Result<Array, OutOfMemory>
    requires operands { HasChainOperands chain.now run.now.stacks.operands }
    ensures { IfOk result (λ all.
        all ≡ trees_in (steps_operands chain.now run.now.stacks.operands)) }
{
    let held = run.stacks.frame_operands();
    let (below, _) = held.split_at(held.len() - operands_of(chain.root));
    let (_, used) = below.split_at(below.len() - chain.operands as usize);
    copies_of(run.alloc, used)
}

// A copy of the content of the cell that a chain assigns, if it assigns a cell.
fn keep_assigned<H: Host>(run: &Run<H>, chain: &Chain) -> Result<Option<Dynamic>, OutOfMemory>
    requires operands { HasChainOperands chain.now run.now.stacks.operands }
    requires readable { can_read run.now.cells chain.now.tail
        (assigned_operand chain.now run.now.stacks.operands) ≡ true }
    ensures { IfOk result (λ kept. KeepsValue run.now.cells chain.now.tail
        (assigned_operand chain.now run.now.stacks.operands) kept) }
{
    match chain.tail {
        Tail::Read => Ok(None),
        Tail::Assign { .. } => match assigned(run, chain).value.as_cell() {
            None => Ok(None),
            Some(cell) => Ok(Some(run.copy_of_cell(cell)?)),
        },
    }
}

// Takes the root from the operands, if the root is an operand.
fn take_root_operand<H: Host>(run: &mut Run<H>, root: Root) -> Held
    requires { root_operands root ≤ length run.old.stacks.operands }
    ensures value { result ≡ root_operand root run.old.stacks.operands }
    ensures rest { run.new ≡ record run.old {
      stacks = record run.old.stacks {
        operands = without_root root run.old.stacks.operands;
      };
    } }
{
    match root {
        Root::Local { .. } | Root::This { .. } => Held::read_write(Dynamic::Unit),
        Root::Temporary => run.stacks.pop(),
    }
}

// Takes what a chain assigns from the operands, if it assigns something.
fn take_value<H: Host>(run: &mut Run<H>, tail: Tail, kept: Option<Dynamic>) -> Dynamic
    requires { assigns tail ≡ true → 0 < length run.old.stacks.operands }
    ensures value { result ≡ value_taken tail kept (top run.old.stacks.operands) }
    ensures rest { run.new ≡ record run.old {
      stacks = record run.old.stacks {
        operands = without_value tail run.old.stacks.operands;
      };
    } }
{
    match tail {
        Tail::Read => Dynamic::Unit,
        Tail::Assign { .. } => value_of(kept, run.stacks.pop()),
    }
}

// Takes a chain's operands, and gives the root, if the root is an operand, and what the chain
// assigns, if it assigns something.
pub(crate) fn take_operands<H: Host>(
    run: &mut Run<H>,
    chain: &Chain,
    kept: Option<Dynamic>,
) -> (Held, Dynamic)
    requires { HasChainOperands chain.now run.old.stacks.operands }
    ensures root { result.0 ≡ root_operand chain.now.root run.old.stacks.operands }
    ensures value { result.1
        ≡ value_taken chain.now.tail kept (top (between chain.now run.old.stacks.operands)) }
    ensures rest { run.new ≡ record run.old {
      stacks = record run.old.stacks {
        operands = left_by chain.now run.old.stacks.operands;
      };
    } }
{
    let root = take_root_operand(run, chain.root);
    run.stacks
        .cut(run.stacks.height() - chain.operands as usize);
    let value = take_value(run, chain.tail, kept);
    (root, value)
}
