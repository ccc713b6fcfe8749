//! Roots of chains: what a root holds, where it is held, and how it is lent to a walk.

ghost use Rattle.std.specs.Prelude.{◌≡◌, ◌<◌, ◌≤◌, length, true};
ghost use Rattle.std.specs.Option.{option_copied};
ghost use Rattle.grain_program.specs.Chains.{assigns};
ghost use Rattle.grain_program.specs.Indices.{IsIndexed, IsRootIndexed};
ghost use Rattle.grain_means.specs.Rules.Chains.{asks_root, assigned_operand, root_operands};
ghost use Rattle.grain_frame.specs.Abstraction.{Raises};
ghost use Rattle.grain_vm.specs.Chains.{root_index, root_held, home_in, can_read, HasChainOperands, FindsRoot, refusal_in, chain_fault, root_position_at, CanTake, CanPutBack, RootTaken, with_root, is_free};

use grain_fault::{EvalAltResult, Position};
use grain_frame::{Activation, Context, Progress, Run, put_in_cell};
use grain_global::Steps;
use grain_host::Host;
use grain_program::{Chain, Program, Root, Step, Tail};
use grain_value::{Held, OutOfMemory, Text};
use std::mem;
use std::sync::ledger::Ledger;

/// Where the root of a chain is held.
#[derive(Clone, Copy, Debug, PartialEq, Eq)]
pub enum Home {
    /// In the entry of the scope at this index.
    Entry(usize),
    /// In this cell.
    Cell(usize),
    /// On the stack alone.
    Operand,
    /// In the frame's `this`.
    This,
}

/// The root of a chain: where it is held, and whether it can only be read during the walk.
#[derive(Clone, Copy, Debug, PartialEq, Eq)]
pub struct FoundRoot {
    pub home: Home,
    pub read_only: bool,
}

/// Why no walk begins.
#[derive(Clone, Copy, Debug, PartialEq, Eq)]
pub enum ChainRefusal {
    /// The root's slot is past the scope, at this index.
    NoEntry(usize),
    /// The root can only be read, and the chain assigns to it.
    Constant,
    /// What the chain assigns is a lent cell.
    Lent,
    /// The root is `this`, and the frame has none.
    Unbound,
}

// How many operands the root takes: one if it is temporary, else none.
pub(crate) fn operands_of(root: Root) -> usize
    ensures exact { result ≡ root_operands root }
    ensures small { result < 2 }
{
    match root {
        Root::Local { .. } | Root::This { .. } => 0,
        Root::Temporary => 1,
    }
}

// Where a root is held: in this cell, if there is one, else in the entry at this index, in the
// frame's `this` or on the stack.
fn home_of(index: usize, root: Root, cell: Option<usize>) -> Home
    ensures { result ≡ home_in index root cell }
{
    match cell {
        Some(number) => Home::Cell(number),
        None => match root {
            Root::Local { .. } => Home::Entry(index),
            Root::This { .. } => Home::This,
            Root::Temporary => Home::Operand,
        },
    }
}

// The index of the entry that is the root, if the root is an entry. Else it is the frame's
// base, and has no use.
fn root_index<H: Host>(run: &Run<H>, frame: &Activation, root: Root) -> usize
    requires inside { frame.now.base ≤ length run.now.scope }
    ensures { result ≡ root_index frame.now.base root }
{
    match root {
        Root::Local { slot, .. } => run.slot_index(frame, slot),
        Root::This { .. } | Root::Temporary => frame.base,
    }
}

// The value that a root holds, or none if its slot is past the scope or the frame has no `this`.
fn root_held<H: Host>(run: &Run<H>, index: usize, root: Root) -> Option<&Held>
    requires operand { root_operands root ≤ length run.now.stacks.operands }
    ensures { option_copied result ≡ root_held run.now index root }
{
    match root {
        Root::Local { .. } => run.scope.get(index),
        Root::This { .. } => run.this(),
        Root::Temporary => Some(run.stacks.top()),
    }
}

// What a chain assigns.
pub(crate) fn assigned<'a, H: Host>(run: &'a Run<H>, chain: &Chain) -> &'a Held
    requires operands { HasChainOperands chain.now run.now.stacks.operands }
    requires assigns { assigns chain.now.tail ≡ true }
    ensures { result.now ≡ assigned_operand chain.now run.now.stacks.operands }
{
    run.stacks
        .peek(chain.operands as usize + operands_of(chain.root))
}

// Whether the value that the chain assigns, if any, is not a lent cell.
fn can_read_assigned<H: Host>(run: &Run<H>, chain: &Chain) -> bool
    requires operands { HasChainOperands chain.now run.now.stacks.operands }
    ensures { result ≡ can_read run.now.cells chain.now.tail
        (assigned_operand chain.now run.now.stacks.operands) }
{
    match chain.tail {
        Tail::Read => true,
        Tail::Assign { .. } => assigned(run, chain).value.flat(&run.cells).is_some(),
    }
}

// Finds the root of a chain, or says why no walk begins.
pub(crate) fn find_root<H: Host>(
    run: &Run<H>,
    program: &Program,
    frame: &Activation,
    chain: &Chain,
) -> Result<FoundRoot, ChainRefusal>
    requires inside { frame.now.base ≤ length run.now.scope }
    requires operands { HasChainOperands chain.now run.now.stacks.operands }
    requires indexed { IsIndexed program.now chain.now }
    ensures { FindsRoot program.now run.now frame.now.base chain.now result }
{
    let index = root_index(run, frame, chain.root);
    let Some(held) = root_held(run, index, chain.root) else {
        return Err(refusal_of(chain.root, index));
    };
    let cell = held.value.as_cell();
    let read_only = held.read_only | run.is_constant(cell);
    if chain.tail.assigns() & read_only {
        return Err(ChainRefusal::Constant);
    }
    if !can_read_assigned(run, chain) {
        return Err(ChainRefusal::Lent);
    }
    let lent = if asks_root(program, chain) {
        None
    } else {
        cell
    };
    Ok(FoundRoot {
        home: home_of(index, chain.root, lent),
        read_only: held.read_only | run.is_constant(lent),
    })
}

// Why there is no root: the frame has no `this`, or the scope has no entry at this index.
fn refusal_of(root: Root, index: usize) -> ChainRefusal
    ensures { result ≡ refusal_in root index }
{
    match root {
        Root::This { .. } => ChainRefusal::Unbound,
        Root::Local { .. } | Root::Temporary => ChainRefusal::NoEntry(index),
    }
}

// Whether a chain begins with the step `is_shared`, which asks whether the root is a shared variable.
// Such a chain needs the cell itself, not its content.
fn asks_root(program: &Program, chain: &Chain) -> bool
    requires indexed { IsIndexed program.now chain.now }
    ensures { result ≡ asks_root program.now chain.now.steps }
{
    match chain.steps.get(0) {
        Some(Step::Method { name, argc, .. }) => {
            *argc == 0 && program.name(*name).as_str() == "is_shared"
        }
        _ => false,
    }
}

// Raises the fault for which no walk begins.
#[cold]
#[inline(never)]
pub(crate) fn refuse_chain<H: Host, L: Ledger>(
    run: &mut Run<H>,
    context: Context<'_>,
    steps: &mut Steps<L>,
    address: usize,
    root: Root,
    refusal: ChainRefusal,
) -> Result<Progress, OutOfMemory>
    requires named { IsRootIndexed context.program.now root }
    ensures { Raises run.old steps.old
        (chain_fault context.entry.program.now (length run.old.scope) address root refusal)
        result run.new steps.new }
{
    match refusal {
        ChainRefusal::NoEntry(index) => { Ok(run.slot_past_scope(context, steps, address, index)) }
        ChainRefusal::Constant => constant_root(run, context, steps, address, root),
        ChainRefusal::Lent => run.data_race(context, steps, address, ""),
        ChainRefusal::Unbound => {
            let fault = EvalAltResult::ErrorUnboundThis(root_position(context, address, root));
            Ok(run.raise(steps, fault))
        }
    }
}

// The position of a fault of a chain's root: the root's own, if it has one, else the instruction's.
fn root_position(context: Context<'_>, address: usize, root: Root) -> Position
    ensures { result ≡ root_position_at context.entry.program.now address root }
{
    match root {
        Root::This { pos } => pos,
        Root::Local { .. } | Root::Temporary => context.program.position(address),
    }
}

// Raises the fault that a chain assigns to a constant.
#[cold]
#[inline(never)]
fn constant_root<H: Host, L: Ledger>(
    run: &mut Run<H>,
    context: Context<'_>,
    steps: &mut Steps<L>,
    address: usize,
    root: Root,
) -> Result<Progress, OutOfMemory>
    requires named { IsRootIndexed context.program.now root }
    ensures { Raises run.old steps.old
        (chain_fault context.entry.program.now (length run.old.scope) address root
        ChainRefusal.Constant) result run.new steps.new }
{
    let name = match root {
        Root::Local { name, .. } => context.program.name(name).copy(run.alloc)?,
        Root::This { .. } | Root::Temporary => Text::new(run.alloc),
    };
    let position = root_position(context, address, root);
    Ok(run.raise(
        steps,
        EvalAltResult::ErrorAssignmentToConstant(name, position),
    ))
}

// Whether the root can be taken: it is not a lent cell.
pub(crate) fn is_free<H: Host>(run: &Run<H>, home: Home) -> bool
    ensures { result ≡ is_free run.now home }
{
    match home {
        Home::Cell(number) => run.cells.find(number).is_some(),
        Home::Entry(_) | Home::Operand | Home::This => true,
    }
}

// Takes a root away from where it is held. A root on the stack is `operand` itself. A cell is lent
// from then on; an entry or a `this` holds `operand` in the meantime.
#[tactic(auto, using(grain_means::specs::lemmas::Scopes::length_set_held))]
pub(crate) fn take_root<H: Host>(run: &mut Run<H>, home: Home, operand: Held) -> Held
    requires { CanTake run.old home }
    ensures { RootTaken run.old home operand result run.new }
{
    match home {
        Home::Entry(index) => match run.scope.get_mut(index) {
            Some(place) => mem::replace(place, operand),
            None => unreachable!(),
        },
        Home::Cell(number) => match run.cells.lend(number) {
            Ok(held) => held,
            Err(_) => unreachable!(),
        },
        Home::Operand => operand,
        Home::This => run.receivers.replace(operand),
    }
}

// Puts the root back where it was held. A root on the stack is dropped.
pub(crate) fn put_root_back<H: Host>(run: &mut Run<H>, home: Home, root: Held)
    requires { CanPutBack run.old home }
    ensures { run.new ≡ with_root run.old home root }
{
    match home {
        Home::Entry(index) => run.scope.set(index, root),
        Home::Cell(number) => put_in_cell(&mut run.cells, number, root),
        Home::Operand => {}
        Home::This => {
            let _meanwhile = run.receivers.replace(root);
        }
    }
}
