//! Charges: operations that are taken, of which the host hears.

ghost use Rattle.std.specs.Prelude.{◌≡◌, Option};
ghost use Rattle.grain_program.specs.View.{position_of};
ghost use Rattle.grain_fault.specs.Problems.{Problem};
ghost use Rattle.grain_means.specs.Worlds.{Setup, Frame, Place, World, Act};
ghost use Rattle.grain_means.specs.Rules.{charged_or, operation_taken};
ghost use Rattle.grain_means.specs.Simulation.{Computation, SimulatesExactly};
ghost use Rattle.grain_frame.specs.Abstraction.{abstraction, is_out, charge_continuation, taken_continuation, ChargeResult, setup_of};
ghost use Rattle.grain_fault.specs.declared.faults.EvalAltResult.TheVariants as fault;

use crate::contexts::Context;
use crate::runs::Run;
use grain_fault::{EvalAltResult, Position};
use grain_global::Steps;
use grain_host::{Host, ProgressAnswer};
use grain_value::OutOfMemory;
use std::sync::ledger::Ledger;

impl<H: Host> Run<H> {
    /// Takes an operation, of which the host hears, at the position of the address. It says whether
    /// the frame goes on; if not, a fault is raised.
    #[inline(always)]
    pub fn charge<L: Ledger>(
        &mut self,
        context: Context<'_>,
        host: &mut H,
        steps: &mut Steps<L>,
        address: usize,
    ) -> Result<bool, OutOfMemory>
        ensures same { (f : Option Place → Frame)
            (go : Setup H → Option Place → World H → Act H)
            (fails : Setup H → Option Place → Problem → World H → Act H) → SimulatesExactly
            (setup_of H.law context.entry)
            (abstraction self.old steps.old host.old)
            (λ m place w. charged_or m (position_of m.program address) (f place) (fails m place) w
            (go m place))
            (is_out result) (abstraction self.new steps.new host.new)
            (charge_continuation result self.new.fault f go fails) }
        ensures run { ChargeResult context.entry.engine.now self.old self.new result }
        ensures before { steps.new.before ≡ steps.old.before }
    {
        if !self.take_operation(context.engine) {
            self.too_many_operations(context, steps, address);
            return Ok(false);
        }
        steps.mark();
        match host.progress(self.alloc, self.count) {
            ProgressAnswer::GoOn => {
                steps.mark();
                steps.mark();
                Ok(true)
            }
            ProgressAnswer::Stop(token) => {
                steps.mark();
                steps.mark();
                self.terminated(context, steps, address, token);
                Ok(false)
            }
            ProgressAnswer::Memory => Err(OutOfMemory),
        }
    }

    /// Takes an operation for a call at a position, of which the host hears. It says whether the call goes
    /// on; if not, a fault is raised.
    pub fn charge_at<L: Ledger>(
        &mut self,
        context: Context<'_>,
        host: &mut H,
        steps: &mut Steps<L>,
        position: Position,
    ) -> Result<bool, OutOfMemory>
        ensures same { (out go : Computation H)
            (fails : Setup H → Option Place → Problem → World H → Act H) → SimulatesExactly
            (setup_of H.law context.entry) (abstraction self.old steps.old host.old)
            (λ m place w. operation_taken m (out m place) position (fails m place) w (go m place))
            (is_out result) (abstraction self.new steps.new host.new)
            (taken_continuation result self.new.fault out go fails) }
        ensures run { ChargeResult context.entry.engine.now self.old self.new result }
        ensures before { steps.new.before ≡ steps.old.before }
    {
        if !self.take_operation(context.engine) {
            self.raise(steps, EvalAltResult::ErrorTooManyOperations(position));
            return Ok(false);
        }
        steps.mark();
        match host.progress(self.alloc, self.count) {
            ProgressAnswer::GoOn => {
                steps.mark();
                steps.mark();
                Ok(true)
            }
            ProgressAnswer::Stop(token) => {
                steps.mark();
                steps.mark();
                self.raise(steps, EvalAltResult::ErrorTerminated(token, position));
                Ok(false)
            }
            ProgressAnswer::Memory => Err(OutOfMemory),
        }
    }
}
