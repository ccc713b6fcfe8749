//! How main is entered and left.

ghost use Rattle.std.specs.Prelude.{◌≡◌, []};
ghost use Rattle.grain_value.specs.Operands.{top};
ghost use Rattle.grain_program.specs.Typing.{IsProgram};
ghost use Rattle.grain_stack.specs.Views.{IsLeft};
ghost use Rattle.grain_means.specs.Worlds.{Setup};
ghost use Rattle.grain_means.specs.Rules.{called, closed};
ghost use Rattle.grain_means.specs.Simulation.{Simulates, SimulatesExactly, StopPersists};
ghost use Rattle.grain_frame.specs.Abstraction.{abstraction, is_out, setup_of};
ghost use Rattle.grain_vm.specs.Calls.{finished_with, frame_answer, answer_of};

use crate::calls::FrameEnd;
use crate::loops::run_frame;
use grain_fault::RhaiResult;
use grain_frame::{Context, Run};
use grain_global::Steps;
use grain_host::Host;
use grain_value::{Dynamic, OutOfMemory};
use std::sync::ledger::Ledger;

// Runs a program's main on the run's scope, and goes on from its count of operations and its level.
pub(crate) fn run_main<H: Host, L: Ledger>(
    run: &mut Run<H>,
    context: Context<'_>,
    host: &mut H,
    steps: &mut Steps<L>,
) -> Result<RhaiResult, OutOfMemory>
    requires no_trace { run.old.stacks.trace ≡ [] }
    requires no_this { run.old.receivers ≡ [] }
    ensures goes { Simulates (setup_of H.law context.entry)
        (abstraction run.old steps.old host.old) (λ m place w. called m place w)
        (is_out result) (abstraction run.new steps.new host.new) (finished_with result) }
    ensures stacks { IsLeft run.old.stacks run.new.stacks }
    ensures before { steps.new.before ≡ steps.old.before }
    ensures valid { IsProgram context.entry.program.now }
{
    steps.mark();
    let chunk = context.program.main();
    match run.stacks.enter(chunk.max_stack) {
        Err(e) => Err(e),
        Ok(()) => {
            steps.mark();
            let base = run.scope.len();
            let end = run_frame(run, context, host, steps, &chunk, base);
            let back = take_answer(run, end);
            run.stacks.leave();
            close(run, steps, back)
        }
    }
}

// What a frame that is over gives: its last operand, or unit if it has none, or the fault.
fn take_answer<H: Host>(
    run: &mut Run<H>,
    end: Result<FrameEnd, OutOfMemory>,
) -> Result<RhaiResult, OutOfMemory>
    ensures answer { answer_of result ≡ frame_answer end run.old }
    ensures out { is_out result ≡ is_out end }
    ensures others { run.new ≡ record run.old {
      stacks = record run.old.stacks { operands = run.new.stacks.operands };
      fault = run.new.fault;
    } }
{
    match end {
        Ok(end) => match end {
            FrameEnd::Value => Ok(Ok(take_value(run))),
            FrameEnd::Fault => Ok(Err(run.take_fault())),
        },
        Err(e) => Err(e),
    }
}

// Takes the value of the frame's last operand, or gives unit if it has none.
pub(crate) fn take_value<H: Host>(run: &mut Run<H>) -> Dynamic
    ensures value { result ≡ (top run.old.stacks.operands).value }
    ensures others { run.new ≡ record run.old {
      stacks = record run.old.stacks { operands = run.new.stacks.operands };
    } }
{
    if run.stacks.height() > 0 {
        return run.stacks.pop().value;
    }
    Dynamic::Unit
}

// Ends a call of the machine. An `Exit` becomes its value, with an empty trace.
fn close<H: Host, L: Ledger>(
    run: &mut Run<H>,
    steps: &mut Steps<L>,
    back: Result<RhaiResult, OutOfMemory>,
) -> Result<RhaiResult, OutOfMemory>
    ensures same { (m : Setup H) (host : H) →
        SimulatesExactly m (abstraction run.old steps.old host)
        (λ m place w. closed m [] (answer_of back) w) (is_out result)
        (abstraction run.new steps.new host) (finished_with result) }
    ensures others { run.new ≡ record run.old {
      stacks = record run.old.stacks { trace = run.new.stacks.trace };
    } }
    ensures persists { StopPersists (is_out back) steps.old.passed (is_out result)
        steps.new.passed }
    ensures before { steps.new.before ≡ steps.old.before }
{
    match back {
        Ok(done) => {
            steps.mark();
            let fault = match done {
                Ok(value) => return Ok(Ok(value)),
                Err(fault) => fault,
            };
            match fault.into_exit_value() {
                Ok(value) => {
                    run.stacks.cut_trace(0);
                    Ok(Ok(value))
                }
                Err(fault) => Ok(Err(fault)),
            }
        }
        Err(e) => Err(e),
    }
}
