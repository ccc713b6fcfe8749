//! The machine that an embedder calls.

ghost use Rattle.std.specs.Prelude.{◌≡◌, ◌+◌, ◌<◌, ℕ, [], IfOk, option_map, slice_get, true};
ghost use Rattle.grain_means.specs.Contained.{KeepsToStore};
ghost use Rattle.grain_means.specs.Causes.{HasCause};
ghost use Rattle.grain_means.specs.Core.{EndsAsCore, IsCore};
ghost use Rattle.grain_means.specs.CatchBlocks.{CatchesRightly};
ghost use Rattle.grain_means.specs.Comes.{Provided};
ghost use Rattle.grain_means.specs.Leavings.{Leaves};
ghost use Rattle.grain_means.specs.Means.{Evaluates};
ghost use Rattle.grain_global.specs.Engines.{with_callbacks};
ghost use Rattle.grain_global.specs.StepsView.{instructions};
ghost use Rattle.grain_vm.specs.Machines.{begin, finish};

use crate::machines::Machine;
use grain_fault::{Fault, RhaiResult};
use grain_global::{Engine, GlobalRuntimeState, Steps};
use grain_host::Host;
use grain_program::Program;
use grain_value::{OutOfMemory, Scope, Store};
use std::alloc::Global;
use std::marker::Model;
use std::sync::ledger::Ledger;

/// A machine: its engine, the state that outlives a run, and the trace of the last run. Between two
/// runs, whatever the answer was, no frame is entered, and it holds no operand, handler, cursor and
/// total.
#[derive(Drop)]
pub struct Vm<'e> {
    machine: Machine<'e>,
    global: GlobalRuntimeState,
}

impl<'e> Model for Vm<'e> {
    ghost use Rattle.grain_vm.specs.VmView.{VmView};
    ghost use Rattle.grain_stack.specs.Views.{IsIdle};
    ghost use Rattle.std.specs.Coded.{codes};
    ghost use Rattle.grain_value.specs.laws.TreeCode.{coded_tree};

    ghost Value = { VmView };

    ghost coded = { Prim.hlevel (codes, coded_tree) };

    ghost view = { λ v. record {
      engine = v.machine.engine;
      global = v.global;
      trace =
          v.machine.stacks.trace;
    } };

    ghost invariant = { λ v. IsIdle v.machine.stacks };
}

impl<'e> Vm<'e> {
    /// A machine with a new state: no operation was charged, and the level is 0.
    pub fn new(alloc: Global, engine: &'e Engine) -> Result<Vm<'e>, OutOfMemory>
        ensures { IfOk result
            (λ v. v ≡
            record {
              engine = engine.now;
              global = record { num_operations = 0; level = 0 };
              trace =
                  [];
            }) }
    {
        let global = engine.new_global_runtime_state(alloc)?;
        Ok(Vm::with_global_state(alloc, engine, global))
    }

    /// A machine that goes on from this state. It takes no memory.
    pub fn with_global_state(
        alloc: Global,
        engine: &'e Engine,
        global: GlobalRuntimeState,
    ) -> Vm<'e>
        ensures { result ≡ record { engine = engine.now; global = global; trace = [] } }
    {
        Vm {
            machine: Machine::new(alloc, engine),
            global,
        }
    }

    /// Ends the machine and gives back the state that outlives its runs: the operations
    /// taken and the level.
    pub fn into_global_state(self) -> GlobalRuntimeState
        ensures { result ≡ self.entry.global }
    {
        self.global
    }

    /// Where the frames stopped that the fault of the last run left, the innermost first. It is
    /// empty after a value.
    pub fn fault_trace(&self) -> &[Fault]
        ensures { result.now ≡ self.now.trace }
    {
        self.machine.trace()
    }

    /// The address at which the innermost frame of the last fault stopped, if there is one.
    pub fn fault_pc(&self) -> Option<usize>
        ensures { result ≡ option_map (λ f. f.address) (slice_get self.now.trace 0) }
    {
        match self.machine.trace().first() {
            Some(fault) => Some(fault.address),
            None => None,
        }
    }

    /// Runs a program's main on a scope, with a host, and with the cells that closures share. The
    /// operations that are charged count on from the state's, and the host hears of each. The entries
    /// that main declares stay after a value; a fault cuts the scope back to the length that it had,
    /// or that it had at main's last `checkpoint`. If memory runs out, the run is the same up to some
    /// point, and ends there with the fault `Memory`. The scope's entries keep their names and order,
    /// whatever the end is. If scope, cells, constants and host name only cells of the store, so do
    /// the results afterwards, and no cell stays lent. If the scope, the cells and the constants are
    /// clean, which means that no cell stands directly inside an array or a map, so are the results,
    /// whatever the host is.
    pub fn eval_with_callbacks<H: Host, L: Ledger>(
        &mut self,
        alloc: Global,
        host: &mut H,
        cells: &mut Store,
        scope: &mut Scope,
        program: &Program,
        steps: &mut Steps<L>,
    ) -> RhaiResult
        requires positive { 0 < self.old.engine.limits.operations }
        ensures evaluates { (ran : ℕ) ×
            (Evaluates H.law program.now (with_callbacks true self.old.engine)
            (begin scope.old cells.old host.old self.old.global) result
            (finish self.new.trace scope.new cells.new host.new self.new.global) ran ×
            (instructions steps.new ≡ instructions steps.old + ran)) }
        ensures headline { IsCore program.now → EndsAsCore H.law program.now self.old.engine
            (begin scope.old cells.old host.old self.old.global) result
            (finish self.new.trace scope.new cells.new host.new self.new.global) }
        ensures causes { HasCause H.law program.now (with_callbacks true self.old.engine)
            (begin scope.old cells.old host.old self.old.global) result }
        ensures provided { Provided H.law program.now (with_callbacks true self.old.engine)
            (begin scope.old cells.old host.old self.old.global) }
        ensures catches { CatchesRightly H.law program.now (with_callbacks true self.old.engine)
            (begin scope.old cells.old host.old self.old.global) }
        ensures leaves { Leaves H.law program.now (with_callbacks true self.old.engine)
            (begin scope.old cells.old host.old self.old.global) result
            (finish self.new.trace scope.new cells.new host.new self.new.global) }
        ensures store { KeepsToStore H.law program.now
            (begin scope.old cells.old host.old self.old.global) result scope.new cells.new
            host.new }
        ensures level { self.new.global.level ≡ self.old.global.level }
        ensures engine { self.new.engine ≡ self.old.engine }
    {
        self.machine.run_main(
            alloc,
            host,
            cells,
            &mut self.global,
            scope,
            program,
            true,
            steps,
        )
    }
}
