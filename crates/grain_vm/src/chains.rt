//! Chains such as `a.b[i].c`: how the walk of one begins at its root, and how it ends with the root put
//! back where it was held.

ghost use Rattle.std.specs.Prelude.{◌≡◌, ◌<◌, ◌≤◌, ◌∷◌, [], ℕ, length, Option};
ghost use Rattle.grain_value.specs.declared.values.Held.{Held};
ghost use Rattle.grain_program.specs.Indices.{HasChain, InPools, IsRootIndexed};
ghost use Rattle.grain_program.specs.View.{chain_of, position_of};
ghost use Rattle.grain_program.specs.declared.code.instruction_set.Op.TheVariants as op;
ghost use Rattle.grain_chain.specs.Walking.{Falls, no_memory};
ghost use Rattle.grain_fault.specs.Problems.{Plain, DataRace, problem_of};
ghost use Rattle.grain_means.specs.Rules.{instr, race_text};
ghost use Rattle.grain_means.specs.Rules.Chains.{chain_in, chain_over, root_name};
ghost use Rattle.grain_means.specs.Simulation.{StopPersists};
ghost use Rattle.grain_frame.specs.Abstraction.{frame_in, is_out, Implements, Raises, ReadyIn, setup_of, moment};
ghost use Rattle.grain_vm.specs.Driving.{end_of, end_is_out};
ghost use Rattle.grain_vm.specs.Chains.{CanPutBack, CanTake, HasChainOperands, RootFound, TakesCopies, walked_frame};
ghost use Rattle.grain_vm.specs.Underway.{Begins, BeginsWaiting, Finishes, Starts};

use crate::chain_operands::{Taken, copy_operands, take_operands};
use crate::driving::WalkEnd;
use crate::roots::{FoundRoot, Home, find_root, is_free, put_root_back, refuse_chain, take_root};
use grain_chain::{Walk, WalkAnswer};
use grain_fault::EvalAltResult;
use grain_frame::{Activation, Context, Progress, Run};
use grain_global::Steps;
use grain_host::Host;
use grain_program::Root;
use grain_value::{Held, OutOfMemory};
use std::sync::ledger::Ledger;

/// A chain whose walk is under way: the walk; where its root is held, and whether it was read-only
/// there; the index of the chain; the slot of the step that the frame blamed before, if any; and the
/// address at which the frame goes on afterwards.
#[derive(Drop)]
pub struct Walking {
    pub walk: Walk,
    home: Home,
    was_read_only: bool,
    index: u32,
    blamed: Option<u32>,
    next: usize,
}

/// How a chain began.
#[derive(Drop)]
pub enum Begun {
    /// A fault is raised, and no walk begins.
    Refused,
    /// A walk began, and has come to this answer.
    Walks(Walking, WalkAnswer),
}

// `chain`: begins the walk of a chain. From here on the frame blames the chain's first step. Once the
// walk is over, the frame blames the step at which it failed, or, if it gave a value, the step that
// it blamed before.
pub(crate) fn begin_chain<H: Host, L: Ledger>(
    run: &mut Run<H>,
    context: Context<'_>,
    steps: &mut Steps<L>,
    frame: &mut Activation,
    index: u16,
    next: usize,
) -> Result<Begun, OutOfMemory>
    requires ready { ReadyIn context.program.now frame.old run.old (op.Chain index) next }
    requires pools { InPools context.program.now (op.Chain index) }
    ensures begins { (host : H) → Begins (setup_of H.law context.entry)
        (moment frame.old run.old steps.old host)
        (λ m place w. instr m (op.Chain index) next (frame_in frame.old run.old place) w)
        index next frame.old.slot result frame.new run.new steps.new }
    ensures blames { frame.new ≡ record frame.old { slot = frame.new.slot } }
    ensures waits { BeginsWaiting context.entry.program.now result }
{
    let index = u32::from(index);
    let blamed = frame.slot;
    frame.slot = Some(context.program.step_slot(index, 0));
    begin_blamed(run, context, steps, frame, index, blamed, next)
}

// The same in a frame whose slot is that of the first step. Once the walk has given a value, the frame
// has the slot again that it had before, `blamed`.
fn begin_blamed<H: Host, L: Ledger>(
    run: &mut Run<H>,
    context: Context<'_>,
    steps: &mut Steps<L>,
    frame: &Activation,
    index: u32,
    blamed: Option<u32>,
    next: usize,
) -> Result<Begun, OutOfMemory>
    requires ready { ReadyIn context.program.now frame.now run.old (op.Chain index) next }
    requires pools { HasChain context.program.now index }
    ensures begins { (host : H) → Begins (setup_of H.law context.entry)
        (moment frame.now run.old steps.old host)
        (λ m place w. chain_in m index (chain_of m.program index) next
        (frame_in frame.now run.old place)
        (walked_frame frame.now run.old (chain_of context.entry.program.now index) blamed place) w)
        index next blamed result frame.now run.new steps.new }
    ensures waits { BeginsWaiting context.entry.program.now result }
{
    let chain = context.program.chain(index);
    let root = match find_root(run, context.program, frame, chain) {
        Ok(root) => root,
        Err(refusal) => {
            refuse_chain(run, context, steps, frame.address, chain.root, refusal)?;
            return Ok(Begun::Refused);
        }
    };
    let taken = copy_operands(run, chain)?;
    steps.mark();
    if !is_free(run, root.home) {
        race_at_root(run, context, steps, frame.address, chain.root)?;
        return Ok(Begun::Refused);
    }
    let (walk, answer, was_read_only) = start_walk(run, context, steps, frame, index, root, taken);
    let walking = Walking {
        walk,
        home: root.home,
        was_read_only,
        index,
        blamed,
        next,
    };
    Ok(Begun::Walks(walking, answer))
}

// Takes a chain's operands and its root, and starts a walk at the root. It gives the walk, its first
// answer, and whether the root was read-only where it was held.
fn start_walk<H: Host, L: Ledger>(
    run: &mut Run<H>,
    context: Context<'_>,
    steps: &mut Steps<L>,
    frame: &Activation,
    index: u32,
    root: FoundRoot,
    taken: Taken,
) -> (Walk, WalkAnswer, bool)
    requires chain { HasChain context.program.now index }
    requires operands { HasChainOperands (chain_of context.program.now index) run.old.stacks.operands }
    requires copies { TakesCopies run.old (chain_of context.program.now index) taken }
    requires home { CanTake run.old root.home }
    ensures starts { (h : Held) (blamed : Option ℕ) (next : ℕ) (host : H) →
        RootFound context.entry.program.now run.old frame.now.base
        (chain_of context.entry.program.now index) root h →
        Starts (setup_of H.law context.entry) frame.now run.old steps.old host root h taken index
        next blamed result.0 result.1 result.2 run.new steps.new }
    ensures waits { (n : ℕ) × Falls context.entry.program.now result.0 result.1 n }
    ensures before { steps.new.before ≡ steps.old.before }
{
    let chain = context.program.chain(index);
    let (operand, value) = take_operands(run, chain, taken.kept);
    let held = take_root(run, root.home, operand);
    let was_read_only = held.read_only;
    let lent = Held {
        value: held.value,
        read_only: root.read_only,
    };
    let (walk, answer) = Walk::start(
        run.alloc,
        context.engine,
        context.program,
        &run.cells,
        lent,
        index,
        taken.operands,
        value,
        context.program.position(frame.address),
    );
    steps.mark_all(walk.marks());
    (walk, answer, was_read_only)
}

// Ends a chain whose walk is over: puts its root back where it was held, and pushes its value or
// raises its fault.
pub(crate) fn finish_chain<H: Host, L: Ledger>(
    run: &mut Run<H>,
    context: Context<'_>,
    steps: &mut Steps<L>,
    frame: &mut Activation,
    walking: Walking,
    end: WalkEnd,
) -> Result<Progress, OutOfMemory>
    requires chain { walking.index < length context.program.now.chains }
    requires back { CanPutBack run.old walking.home }
    requires inside { frame.old.base ≤ length run.old.scope }
    requires room { length run.old.stacks.operands < run.old.stacks.room }
    requires ahead { frame.old.address < walking.next }
    ensures finishes { (host : H) → Finishes (setup_of H.law context.entry) frame.old run.old
        steps.old host walking end result frame.new run.new steps.new }
    ensures carries { StopPersists (end_is_out end) steps.old.passed (is_out result)
        steps.new.passed }
{
    let Walking {
        walk,
        home,
        was_read_only,
        index,
        blamed,
        next,
    } = walking;
    let left = walk.finish();
    let back = Held {
        value: left.value,
        read_only: was_read_only,
    };
    put_root_back(run, home, back);
    end_chain(run, context, steps, frame, index, end, blamed, next)
}

// Raises the fault that the chain's root is a lent cell.
#[cold]
#[inline(never)]
fn race_at_root<H: Host, L: Ledger>(
    run: &mut Run<H>,
    context: Context<'_>,
    steps: &mut Steps<L>,
    address: usize,
    root: Root,
) -> Result<Progress, OutOfMemory>
    requires named { IsRootIndexed context.program.now root }
    ensures { Raises run.old steps.old
        (Plain (DataRace (race_text (root_name context.entry.program.now root)))
        (position_of context.entry.program.now address)) result run.new steps.new }
{
    match root {
        Root::Local { name, .. } => {
            let name = context.program.name(name);
            run.data_race(context, steps, address, name.as_str())
        }
        Root::This { .. } | Root::Temporary => run.data_race(context, steps, address, ""),
    }
}

// Ends the instruction: pushes the walk's value, or raises its fault, blaming the step.
fn end_chain<H: Host, L: Ledger>(
    run: &mut Run<H>,
    context: Context<'_>,
    steps: &mut Steps<L>,
    frame: &mut Activation,
    index: u32,
    end: WalkEnd,
    blamed: Option<u32>,
    next: usize,
) -> Result<Progress, OutOfMemory>
    requires chain { index < length context.program.now.chains }
    requires inside { frame.old.base ≤ length run.old.scope }
    requires room { length run.old.stacks.operands < run.old.stacks.room }
    requires ahead { frame.old.address < next }
    ensures implements { (host : H) → Implements (setup_of H.law context.entry)
        (moment frame.old run.old steps.old host)
        (λ m place w. chain_over m index next
        (record (frame_in frame.old run.old place) { slot = blamed }) (end_of end) w)
        (next ∷ []) 0 1 run.old.stacks.handlers result
        (moment frame.new run.new steps.new host) }
    ensures carries { StopPersists (end_is_out end) steps.old.passed (is_out result)
        steps.new.passed }
{
    match end {
        WalkEnd::Value(value) => {
            run.stacks.cut_trace(0);
            frame.slot = blamed;
            Ok(run.push_on(steps, frame, value, next))
        }
        WalkEnd::Fault { fault, step } => {
            frame.slot = Some(context.program.step_slot(index, step));
            if is_want(&fault) {
                Err(OutOfMemory)
            } else {
                Ok(run.raise(steps, fault))
            }
        }
    }
}

// Whether a fault says that memory ran out.
pub(crate) fn is_want(fault: &EvalAltResult) -> bool
    ensures { result ≡ no_memory (problem_of fault.now) }
{
    matches!(fault, EvalAltResult::Memory)
}
