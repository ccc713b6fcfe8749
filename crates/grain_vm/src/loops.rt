//! The loop: how a frame runs, and how functions are called.

ghost use Rattle.std.specs.Prelude.{◌≡◌, ◌≤◌, ◌+◌, ◌-◌, ◌∷◌, [], length, None};
ghost use Rattle.grain_program.specs.TypedAt.{IsTypedAt};
ghost use Rattle.grain_means.specs.Worlds.{Go, InFrame};
ghost use Rattle.grain_means.specs.Rules.{enter_function};
ghost use Rattle.grain_means.specs.Simulation.{Simulates};
ghost use Rattle.grain_vm.specs.Catching.{activation_at, stop_continuation, StopsSo};
ghost use Rattle.grain_frame.specs.Abstraction.{abstraction, frame_in, is_out, continuation, KeepsFrame, ContinuesAt, Runs, Stepped, setup_of, moment};
ghost use Rattle.grain_vm.specs.Calls.{LeavesAround, frame_over, entry_of};
ghost use Rattle.grain_frame.specs.Attempts.{CallsNothing, IsPending};
ghost use Rattle.grain_vm.specs.Apart.{StandsAtCall};
ghost use Rattle.grain_vm.specs.Methods.{NoneAbove};
ghost use Rattle.grain_program.specs.Indices.{IsNamed};

use crate::apart::{CallOnCopy, pointer_or_native, step_or_walk};
use crate::calls::{FrameEnd, enter_function, leave_by_fault, resume_caller};
use crate::catching::offer;
use grain_frame::{Activation, Attempt, Context, Pending, Progress, Run, quick};
use grain_global::Steps;
use grain_host::Host;
use grain_program::{Chunk, Function};
use grain_value::OutOfMemory;
use std::sync::ledger::Ledger;

/// How far a frame was run.
#[derive(Clone, Copy, Debug, PartialEq, Eq)]
pub enum Stop {
    /// To its end, with a value, which is its last operand, or unit if it has none.
    Value,
    /// To a fault, which the run holds, and with it where the frame stopped.
    Fault,
}

// Calls a function on the last operands, in a frame of its own; afterwards the caller's frame goes on
// at `next`. It is built into the loop at one place, so that the loop around it is compiled once; who else
// needs it calls `call_apart`.
#[cycle(run)]
#[inline(always)]
pub(crate) fn call<H: Host, L: Ledger>(
    run: &mut Run<H>,
    context: Context<'_>,
    host: &mut H,
    steps: &mut Steps<L>,
    frame: &mut Activation,
    function: &Function,
    next: usize,
) -> Result<Progress, OutOfMemory>
    requires inside { frame.old.base ≤ length run.old.scope }
    requires operands { length function.now.params ≤ length run.old.stacks.operands }
    requires room { length run.old.stacks.operands - length function.now.params + 1
        ≤ run.old.stacks.room }
    requires enters { IsTypedAt context.program.now function.now.chunk
        function.now.chunk.entry 0 0 [] }
    requires named { IsNamed context.program.now function.now }
    requires none { NoneAbove run.old.level run.old.receivers }
    ensures goes { Simulates (setup_of H.law context.entry)
        (abstraction run.old steps.old host.old)
        (λ m place w. enter_function m function.now (length function.now.params)
        (frame_in frame.old run.old place) next w)
        (is_out result) (abstraction run.new steps.new host.new)
        (continuation result run.new.fault (frame_in frame.new run.new)) }
    ensures kept { KeepsFrame frame.old run.old frame.new run.new }
    ensures lands { ContinuesAt context.entry.engine.now run.old frame.old run.new frame.new
        (next ∷ []) (length function.now.params) 1 run.old.stacks.handlers result }
    ensures before { steps.new.before ≡ steps.old.before }
{
    match enter_function(run, context, host, steps, frame, function) {
        Err(e) => Err(e),
        Ok(begun) => {
            if begun {
                let end = run_frame(run, context, host, steps, &function.chunk, 0);
                resume_caller(run, context, steps, frame, function, end, next)
            } else {
                Ok(Progress::Failed)
            }
        }
    }
}

// Does the instruction at which the frame stands and that `quick` did not do.
#[cycle(run)]
#[inline(always)]
fn proceed<H: Host, L: Ledger>(
    run: &mut Run<H>,
    context: Context<'_>,
    host: &mut H,
    steps: &mut Steps<L>,
    frame: &mut Activation,
    pending: Pending,
) -> Result<Progress, OutOfMemory>
    requires runs { Runs context.program.now frame.old run.old }
    requires none { NoneAbove run.old.level run.old.receivers }
    requires pending { IsPending context.program.now frame.old run.old pending }
    ensures stepped { Stepped (setup_of H.law context.entry)
        (moment frame.old run.old steps.old host.old) result
        (moment frame.new run.new steps.new host.new) }
{
    let on_copy = match pending {
        Pending::Call { name, count, next } => {
            match context
                .program
                .function(u32::from(name), usize::from(count))
            {
                Some(number) => {
                    let function = context.program.function_at(number);
                    return call(run, context, host, steps, frame, function, next);
                }
                None => CallOnCopy::Native { name, count, next },
            }
        }
        Pending::Pointer { count, next } => CallOnCopy::Pointer { count, next },
        Pending::Other => return step_on_copy(run, context, host, steps, frame),
    };
    call_on_copy(run, context, host, steps, frame, on_copy)
}

// Does a call apart from the loop, on a copy of the frame, so that the loop can keep its own in registers.
// Only the fields that may change are copied back.
#[cycle(run)]
#[inline(always)]
fn call_on_copy<H: Host, L: Ledger>(
    run: &mut Run<H>,
    context: Context<'_>,
    host: &mut H,
    steps: &mut Steps<L>,
    frame: &mut Activation,
    on_copy: CallOnCopy,
) -> Result<Progress, OutOfMemory>
    requires runs { Runs context.program.now frame.old run.old }
    requires none { NoneAbove run.old.level run.old.receivers }
    requires stands { StandsAtCall context.program.now frame.old run.old on_copy }
    ensures stepped { Stepped (setup_of H.law context.entry)
        (moment frame.old run.old steps.old host.old) result
        (moment frame.new run.new steps.new host.new) }
{
    let mut copy = *frame;
    let progress = pointer_or_native(run, context, host, steps, &mut copy, on_copy);
    frame.address = copy.address;
    frame.floor = copy.floor;
    frame.slot = copy.slot;
    progress
}

// Does the instruction at which the frame stands, which is neither `call` nor `call_fn_ptr`, on a copy of
// the frame, as `call_on_copy` does a call.
#[cycle(run)]
#[inline(always)]
fn step_on_copy<H: Host, L: Ledger>(
    run: &mut Run<H>,
    context: Context<'_>,
    host: &mut H,
    steps: &mut Steps<L>,
    frame: &mut Activation,
) -> Result<Progress, OutOfMemory>
    requires runs { Runs context.program.now frame.old run.old }
    requires none { NoneAbove run.old.level run.old.receivers }
    requires calls_nothing { CallsNothing context.program.now frame.old }
    ensures stepped { Stepped (setup_of H.law context.entry)
        (moment frame.old run.old steps.old host.old) result
        (moment frame.new run.new steps.new host.new) }
{
    let mut copy = *frame;
    let progress = step_or_walk(run, context, host, steps, &mut copy);
    frame.address = copy.address;
    frame.floor = copy.floor;
    frame.slot = copy.slot;
    progress
}

// Runs a frame to its end: its instructions, and after a fault that one of its handlers catches,
// those of the catch block.
#[cycle(run)]
#[inline(always)]
pub(crate) fn run_frame<H: Host, L: Ledger>(
    run: &mut Run<H>,
    context: Context<'_>,
    host: &mut H,
    steps: &mut Steps<L>,
    chunk: &Chunk,
    base: usize,
) -> Result<FrameEnd, OutOfMemory>
    requires runs { Runs context.program.now (entry_of chunk.now base) run.old }
    requires none { NoneAbove run.old.level run.old.receivers }
    ensures goes { Simulates (setup_of H.law context.entry)
        (abstraction run.old steps.old host.old)
        (λ m place w. Go (InFrame (frame_in (entry_of chunk.now base) run.old place)) w)
        (is_out result) (abstraction run.new steps.new host.new)
        (frame_over result run.new) }
    ensures around { LeavesAround run.old steps.old run.new steps.new }
{
    let mut address = chunk.entry as usize;
    let mut floor = base;
    'frame: loop {
        match run_from(run, context, host, steps, chunk, base, address, floor) {
            Err(e) => return Err(e),
            Ok(stop) => match stop {
                Stop::Value => return Ok(FrameEnd::Value),
                Stop::Fault => {
                    match offer(run, context, host, steps, &mut address, &mut floor) {
                        Err(e) => return Err(e),
                        Ok(caught) => {
                            if !caught {
                                return Ok(FrameEnd::Fault);
                            }
                        }
                    }
                }
            },
        }
    }
}

// Runs a frame from an address on, until it is over or a fault is raised in it. Catching is not
// done here, so that the loop has one way back to its beginning.
#[cycle(run)]
#[inline(never)]
fn run_from<H: Host, L: Ledger>(
    run: &mut Run<H>,
    context: Context<'_>,
    host: &mut H,
    steps: &mut Steps<L>,
    chunk: &Chunk,
    base: usize,
    address: usize,
    floor: usize,
) -> Result<Stop, OutOfMemory>
    requires runs { Runs context.program.now
        (activation_at chunk.now base address floor None) run.old }
    requires none { NoneAbove run.old.level run.old.receivers }
    ensures goes { Simulates (setup_of H.law context.entry)
        (abstraction run.old steps.old host.old)
        (λ m place w. Go (InFrame
        (frame_in (activation_at chunk.now base address floor None) run.old place)) w)
        (is_out result) (abstraction run.new steps.new host.new)
        (stop_continuation result chunk.now base run.new) }
    ensures catches { StopsSo context.entry.program.now chunk.now base run.new result }
    ensures around { LeavesAround run.old steps.old run.new steps.new }
{
    let mut frame = Activation {
        chunk: *chunk,
        address,
        base,
        floor,
        slot: None,
    };
    'turn: loop {
        steps.begin_instruction();
        steps.mark();
        let pending = match quick(run, context, steps, &mut frame) {
            Attempt::Done => continue 'turn,
            Attempt::Returned => return Ok(Stop::Value),
            Attempt::Jump(target) => {
                match run.jump_to(context, host, steps, &mut frame, target as usize) {
                    Err(e) => {
                        leave_by_fault(run, frame.address, frame.floor, frame.slot);
                        return Err(e);
                    }
                    Ok(progress) => match progress {
                        Progress::Continues => continue 'turn,
                        Progress::Returned => return Ok(Stop::Value),
                        Progress::Failed => {
                            run.note_stop(&frame);
                            return Ok(Stop::Fault);
                        }
                    },
                }
            }
            Attempt::Pending(pending) => pending,
        };
        match proceed(run, context, host, steps, &mut frame, pending) {
            Err(e) => {
                leave_by_fault(run, frame.address, frame.floor, frame.slot);
                return Err(e);
            }
            Ok(progress) => match progress {
                Progress::Continues => {}
                Progress::Returned => return Ok(Stop::Value),
                Progress::Failed => {
                    run.note_stop(&frame);
                    return Ok(Stop::Fault);
                }
            },
        }
    }
}
