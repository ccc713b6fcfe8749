//! How a frame catches a fault.

ghost use Rattle.std.specs.Prelude.{◌≡◌, ◌<◌, ◌≤◌, Option, length, take, IfOk, None, true, false};
ghost use Rattle.grain_fault.specs.Problems.{problem_of};
ghost use Rattle.grain_program.specs.TypedAt.{HasName};
ghost use Rattle.grain_program.specs.View.{position_of};
ghost use Rattle.grain_means.specs.Worlds.{Setup, Frame, Place, World, Act};
ghost use Rattle.grain_means.specs.Rules.{throws_unit, thrown_anew, offered, offered_to, outermost, bind_caught, caught, leave_by_fault};
ghost use Rattle.grain_means.specs.Simulation.{Simulates, SimulatesExactly};
ghost use Rattle.grain_frame.specs.Abstraction.{abstraction, frame_in, handler_in, handlers_in, is_out, charge_continuation, CanCatch, setup_of};
ghost use Rattle.grain_frame.specs.declared.activations.Activation.{Activation};
ghost use Rattle.grain_vm.specs.Catching.{IsArmed, found, with_found, StandsFor, catch_continuation, caught_at, caught_or_left, Caught, CaughtAt, CaughtBy, GoesOnWith};

use crate::calls::leave_by_fault;
use grain_fault::{EvalAltResult, MalformedKind, Position, caught_value};
use grain_frame::{Context, Run};
use grain_global::Steps;
use grain_host::Host;
use grain_stack::Handler;
use grain_value::{Held, OutOfMemory};
use std::sync::ledger::Ledger;

// Whether the fault is a throw of unit.
fn throws_unit(fault: &EvalAltResult) -> bool
    ensures { result ≡ throws_unit (problem_of fault.now) }
{
    match fault {
        EvalAltResult::ErrorRuntime(value, _) => value.is_unit(),
        _ => false,
    }
}

// Offers the fault by which a frame stopped to the frame's handlers. It says whether one caught it: then
// the frame goes on at `address`, which is set to the handler's target, with `floor`, which is set to the
// floor that it had where it stopped. Else the fault has left the frame. Where memory is out, the frame has
// been left too.
#[inline(always)]
pub(crate) fn offer<H: Host, L: Ledger>(
    run: &mut Run<H>,
    context: Context<'_>,
    host: &mut H,
    steps: &mut Steps<L>,
    address: &mut usize,
    floor: &mut usize,
) -> Result<bool, OutOfMemory>
    requires entered { 0 < length run.old.stacks.outer }
    requires unnoted { run.old.stacks.noted ≡ false }
    requires catches { (f : Activation) × CanCatch context.program.now f run.old }
    ensures goes { (f : Activation) → f.address ≡ run.old.stopped.address →
        f.floor ≡ run.old.stopped.floor → f.slot ≡ run.old.stopped.slot →
        Simulates (setup_of H.law context.entry)
        (abstraction run.old steps.old host.old)
        (λ m place w. offered m (frame_in f run.old place) (problem_of run.old.fault) w)
        (is_out result) (abstraction run.new steps.new host.new)
        (caught_or_left (caught_at result address.new) run.new.fault (frame_in f run.new)) }
    ensures kept { Caught context.entry.engine.now run.old run.new
        (caught_at result address.new) }
    ensures typed { (f : Activation) → CanCatch context.entry.program.now f run.old →
        CaughtAt context.entry.program.now f run.new (caught_at result address.new) }
    ensures floor { GoesOnWith result floor.new run.old.stopped.floor }
    ensures before { steps.new.before ≡ steps.old.before }
{
    let at = run.stopped;
    match catch(run, context, host, steps, at.address, at.floor, at.slot) {
        Err(e) => Err(e),
        Ok(caught) => match caught {
            Some(target) => {
                *address = target as usize;
                *floor = at.floor;
                Ok(true)
            }
            None => Ok(false),
        },
    }
}

// Offers a fault of a frame, which the run holds, to the frame's handlers. It says at which address the
// frame goes on, or None if the fault has left the frame. Of the frame it is given only the address,
// the floor and the slot of the step that is blamed, so that the loop can hold the frame in registers.
#[cold]
#[inline(never)]
fn catch<H: Host, L: Ledger>(
    run: &mut Run<H>,
    context: Context<'_>,
    host: &mut H,
    steps: &mut Steps<L>,
    address: usize,
    floor: usize,
    slot: Option<u32>,
) -> Result<Option<u32>, OutOfMemory>
    requires entered { 0 < length run.old.stacks.outer }
    requires unnoted { run.old.stacks.noted ≡ false }
    requires catches { (f : Activation) × CanCatch context.program.now f run.old }
    ensures goes { (f : Activation) → f.address ≡ address → f.floor ≡ floor → f.slot ≡ slot →
        Simulates (setup_of H.law context.entry)
        (abstraction run.old steps.old host.old)
        (λ m place w. offered m (frame_in f run.old place) (problem_of run.old.fault) w)
        (is_out result) (abstraction run.new steps.new host.new)
        (caught_or_left result run.new.fault (frame_in f run.new)) }
    ensures kept { Caught context.entry.engine.now run.old run.new result }
    ensures typed { (f : Activation) → CanCatch context.entry.program.now f run.old →
        CaughtAt context.entry.program.now f run.new result }
    ensures before { steps.new.before ≡ steps.old.before }
{
    let Some(handler) = catching_handler(run) else {
        leave_by_fault(run, address, floor, slot);
        return Ok(None);
    };
    let target = handler.target;
    match catch_by(run, context, host, steps, address, handler) {
        Err(e) => {
            leave_by_fault(run, address, floor, slot);
            Err(e)
        }
        Ok(goes_on) => {
            if goes_on {
                return Ok(Some(target));
            }
            leave_by_fault(run, address, floor, slot);
            Ok(None)
        }
    }
}

// Takes the armed handler that catches the fault, if there is one. Before that it takes away the
// handlers inside it, which have caught. If unit was thrown, what they caught is raised in its place.
fn catching_handler<H: Host>(run: &mut Run<H>) -> Option<Handler>
    ensures same { (m : Setup H) (f : Frame) (w : World H) →
        offered_to m (handlers_in run.old.stacks.handlers) f (problem_of run.old.fault) w
        ≡ found m result run.new.stacks.handlers f run.new.fault w }
    ensures stands { StandsFor run.old.stacks.handlers
        (with_found result run.new.stacks.handlers) }
    ensures others { run.new ≡ record run.old {
      stacks = record run.old.stacks { handlers = run.new.stacks.handlers };
      fault = run.new.fault;
    } }
{
    leave_caught(run);
    if run.stacks.innermost_handler().is_none() || !run.fault.is_catchable() {
        return None;
    }
    Some(run.stacks.pop_handler())
}

// Takes away the handlers that have caught, the innermost first. If unit was thrown, what they
// caught is raised in its place.
fn leave_caught<H: Host>(run: &mut Run<H>)
    ensures same { (m : Setup H) (f : Frame) (w : World H) →
        offered_to m (handlers_in run.old.stacks.handlers) f (problem_of run.old.fault) w
        ≡ offered_to m (handlers_in run.new.stacks.handlers) f (problem_of run.new.fault) w }
    ensures armed { IsArmed run.new.stacks.handlers }
    ensures stands { StandsFor run.old.stacks.handlers run.new.stacks.handlers }
    ensures others { run.new ≡ record run.old {
      stacks = record run.old.stacks { handlers = run.new.stacks.handlers };
      fault = run.new.fault;
    } }
{
    while let Some(handler) = run.stacks.innermost_handler() {
        if handler.caught.is_none() {
            return;
        }
        match run.stacks.pop_handler().caught {
            Some(caught) => rethrow(run, caught),
            None => unreachable!(),
        }
    }
}

// If the fault of the run is a throw of unit, replaces it by what was caught, at the
// position of the throw.
fn rethrow<H: Host>(run: &mut Run<H>, caught: EvalAltResult)
    ensures same { problem_of run.new.fault
        ≡ thrown_anew (problem_of caught) (problem_of run.old.fault) }
    ensures others { run.new ≡ record run.old { fault = run.new.fault } }
{
    if throws_unit(&run.fault) {
        let position = run.fault.position();
        run.fault = caught;
        run.fault.set_position(position);
    }
}

// Catches the fault, which was raised at the address, by a handler. First the trace is emptied. If
// the scope is shorter than when the handler was pushed, that is a fault. Else the frame and the scope
// are cut back to what there was at the push, the handler's variable is bound, the handler is pushed
// again with what it caught, and an operation is charged at its target. It says whether the frame goes
// on there; if not, a fault is raised, which leaves the frame.
fn catch_by<H: Host, L: Ledger>(
    run: &mut Run<H>,
    context: Context<'_>,
    host: &mut H,
    steps: &mut Steps<L>,
    address: usize,
    handler: Handler,
) -> Result<bool, OutOfMemory>
    requires operands { handler.operands ≤ length run.old.stacks.operands }
    requires cursors { handler.cursors ≤ length run.old.stacks.cursors }
    requires named { HasName context.program.now handler.variable }
    ensures same { (f : Activation) → f.address ≡ address → SimulatesExactly
        (setup_of H.law context.entry)
        (abstraction run.old steps.old host.old)
        (λ m place w. caught m (frame_in f run.old place) (handler_in handler)
        (problem_of run.old.fault) w)
        (is_out result) (abstraction run.new steps.new host.new)
        (catch_continuation result run.new.fault handler.target (frame_in f run.new)) }
    ensures caught { CaughtBy context.entry.engine.now handler run.old run.new result }
    ensures before { steps.new.before ≡ steps.old.before }
{
    run.stacks.cut_trace(0);
    if run.scope.len() < handler.scope {
        let kind = MalformedKind::TryFloorBroken {
            wanted: handler.scope,
            length: run.scope.len(),
        };
        let fault = EvalAltResult::Malformed(kind, Position::NONE);
        run.raise_at(context, steps, address, fault);
        return Ok(false);
    }
    cut_back(run, &handler);
    let Handler {
        target,
        variable,
        operands,
        cursors,
        totals,
        scope,
        ..
    } = handler;
    if !bind_caught(run, context, steps, target, variable)? {
        return Ok(false);
    }
    let caught = Some(run.take_fault());
    run.stacks.push_handler(Handler {
        target,
        variable,
        operands,
        cursors,
        totals,
        scope,
        caught,
    })?;
    run.charge(context, host, steps, target as usize)
}

// Cuts the frame's operands, cursors and totals and the scope back to as many as there were when the
// handler was pushed.
fn cut_back<H: Host>(run: &mut Run<H>, handler: &Handler)
    requires operands { handler.now.operands ≤ length run.old.stacks.operands }
    requires cursors { handler.now.cursors ≤ length run.old.stacks.cursors }
    ensures { run.new ≡ record run.old {
      stacks = record run.old.stacks {
        operands = take handler.now.operands run.old.stacks.operands;
        cursors = outermost handler.now.cursors run.old.stacks.cursors;
        totals = outermost handler.now.totals run.old.stacks.totals;
      };
      scope = take handler.now.scope run.old.scope;
    } }
{
    run.stacks.cut(handler.operands);
    run.stacks.cut_cursors(handler.cursors);
    cut_totals(run, handler.totals);
    run.scope.rewind(handler.scope);
}

// Keeps the first `count` of the frame's totals; if there are no more, all of them.
fn cut_totals<H: Host>(run: &mut Run<H>, count: usize)
    ensures { run.new ≡ record run.old {
      stacks = record run.old.stacks {
        totals =
            outermost count run.old.stacks.totals;
      };
    } }
{
    if count < run.stacks.totals() {
        run.stacks.cut_totals(count);
    }
}

// Binds the variable of the handler, if it has one, to what was caught. It says whether that is
// done; if not, a fault is raised at the target.
fn bind_caught<H: Host, L: Ledger>(
    run: &mut Run<H>,
    context: Context<'_>,
    steps: &mut Steps<L>,
    target: u32,
    variable: Option<u32>,
) -> Result<bool, OutOfMemory>
    requires named { HasName context.program.now variable }
    ensures same { (host : H) (f : Option Place → Frame)
        (go : Setup H → Option Place → World H → Act H) → SimulatesExactly
        (setup_of H.law context.entry)
        (abstraction run.old steps.old host)
        (λ m place w. bind_caught m variable (position_of m.program target) (f place)
        (problem_of run.old.fault) w (go m place))
        (is_out result) (abstraction run.new steps.new host)
        (charge_continuation result run.new.fault f go
        (λ m place x w. leave_by_fault m (f place) x w)) }
    ensures bound { IfOk result (λ bound. bound ≡ true →
        problem_of run.new.fault ≡ problem_of run.old.fault) }
    ensures longer { length run.old.scope ≤ length run.new.scope }
    ensures others { run.new ≡ record run.old {
      scope = run.new.scope;
      fault = run.new.fault;
    } }
    ensures before { steps.new.before ≡ steps.old.before }
{
    let Some(name) = variable else {
        return Ok(true);
    };
    if run.scope.len() >= context.engine.limits.variables {
        let fault = EvalAltResult::ErrorTooManyVariables(Position::NONE);
        run.raise_at(context, steps, target as usize, fault);
        return Ok(false);
    }
    let value = caught_value(run.alloc, context.program.source(), &mut run.fault)?;
    let name = context.program.names().at(name as usize);
    run.scope.push_shared(name, Held::read_write(value))?;
    steps.mark();
    Ok(true)
}
