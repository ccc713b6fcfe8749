//! The machine that runs a program's main on its stacks.

ghost use Rattle.std.specs.Prelude.{◌≡◌, ◌+◌, ◌<◌, ℕ, true};
ghost use Rattle.grain_means.specs.Contained.{KeepsToStore};
ghost use Rattle.grain_means.specs.Causes.{HasCause};
ghost use Rattle.grain_means.specs.Core.{EndsAsCore, IsCore};
ghost use Rattle.grain_means.specs.CatchBlocks.{CatchesRightly};
ghost use Rattle.grain_means.specs.Comes.{Provided};
ghost use Rattle.grain_means.specs.Leavings.{Leaves};
ghost use Rattle.grain_means.specs.Means.{Evaluates};
ghost use Rattle.grain_stack.specs.Views.{no_frames, IsLeft};
ghost use Rattle.grain_global.specs.Engines.{with_callbacks};
ghost use Rattle.grain_global.specs.StepsView.{instructions};
ghost use Rattle.grain_vm.specs.Machines.{begin, finish, with_memory_fault};

use crate::main_runs::run_main;
use grain_fault::{EvalAltResult, Fault, RhaiResult};
use grain_frame::{ArgumentRoom, Context, Receivers, Run, SavedScopes, Stopped};
use grain_global::{Engine, GlobalRuntimeState, Steps};
use grain_host::Host;
use grain_program::Program;
use grain_stack::Stacks;
use grain_value::{OutOfMemory, Scope, Store};
use std::alloc::Global;
use std::marker::{Model, PhantomData};
use std::mem;
use std::sync::ledger::Ledger;

/// Runs programs on one set of stacks. Between two runs no frame is entered.
#[derive(Drop)]
pub struct Machine<'e> {
    engine: &'e Engine,
    stacks: Stacks,
    saved: SavedScopes,
}

impl<'e> Model for Machine<'e> {
    ghost use Rattle.grain_vm.specs.MachineView.{MachineView};
    ghost use Rattle.std.specs.Coded.{codes};
    ghost use Rattle.grain_value.specs.laws.TreeCode.{coded_tree};
    ghost use Rattle.grain_fault.specs.contracts.faults.EvalAltResult as row;
    ghost use Rattle.grain_stack.specs.contracts.cursors.Cursor as cursor;

    ghost Value = { MachineView };

    ghost coded = { Prim.hlevel (codes, coded_tree, row.the_row.coded, cursor.the_row.coded) };

    ghost view = { λ m. record { engine = m.engine.now; stacks = m.stacks } };
}

impl<'e> Machine<'e> {
    /// A machine for this engine, with empty stacks. It takes no memory.
    pub fn new(alloc: Global, engine: &'e Engine) -> Machine<'e>
        ensures { result ≡ record { engine = engine.now; stacks = no_frames } }
    {
        Machine {
            engine,
            stacks: Stacks::new(alloc),
            saved: SavedScopes::new(alloc),
        }
    }

    /// The machine's stacks. It takes no memory.
    pub fn stacks(&self) -> &Stacks
        ensures { result.now ≡ self.now.stacks }
    {
        &self.stacks
    }

    /// Where the frames stopped that the fault of the last run left, the innermost first. It is
    /// empty after a value.
    pub fn trace(&self) -> &[Fault]
        ensures { result.now ≡ self.now.stacks.trace }
    {
        self.stacks.trace()
    }

    /// Runs a program's main on a scope. The operations that are charged count on from the state's,
    /// and the entries that main declares stay after a value; a fault cuts the scope back to the
    /// length that it had, or that it had at main's last `checkpoint`. If memory runs out, the run is
    /// the same up to some point, and ends there with the fault `Memory`. `callbacks` says whether natives
    /// may call functions of the program back: if not, what they ask for is sought among natives alone.
    /// The scope's entries keep their names and order, whatever the end is. If scope, cells, constants and
    /// host name only cells of the store, so do the results afterwards, and no cell stays lent. If the
    /// scope, the cells and the constants are clean, which means that no cell stands directly inside an
    /// array or a map, so are the results, whatever the host is.
    pub fn run_main<H: Host, L: Ledger>(
        &mut self,
        alloc: Global,
        host: &mut H,
        cells: &mut Store,
        global: &mut GlobalRuntimeState,
        scope: &mut Scope,
        program: &Program,
        callbacks: bool,
        steps: &mut Steps<L>,
    ) -> RhaiResult
        requires positive { 0 < self.old.engine.limits.operations }
        ensures evaluates { (ran : ℕ) ×
            (Evaluates H.law program.now (with_callbacks callbacks self.old.engine)
            (begin scope.old cells.old host.old global.old) result
            (finish self.new.stacks.trace scope.new cells.new host.new global.new) ran ×
            (instructions steps.new ≡ instructions steps.old + ran)) }
        ensures core { callbacks ≡ true → IsCore program.now →
            EndsAsCore H.law program.now self.old.engine
            (begin scope.old cells.old host.old global.old) result
            (finish self.new.stacks.trace scope.new cells.new host.new global.new) }
        ensures causes { HasCause H.law program.now (with_callbacks callbacks self.old.engine)
            (begin scope.old cells.old host.old global.old) result }
        ensures provided { Provided H.law program.now (with_callbacks callbacks self.old.engine)
            (begin scope.old cells.old host.old global.old) }
        ensures catches { CatchesRightly H.law program.now (with_callbacks callbacks self.old.engine)
            (begin scope.old cells.old host.old global.old) }
        ensures leaves { Leaves H.law program.now (with_callbacks callbacks self.old.engine)
            (begin scope.old cells.old host.old global.old) result
            (finish self.new.stacks.trace scope.new cells.new host.new global.new) }
        ensures store { KeepsToStore H.law program.now
            (begin scope.old cells.old host.old global.old) result scope.new cells.new host.new }
        ensures level { global.new.level ≡ global.old.level }
        ensures clean { IsLeft self.old.stacks self.new.stacks }
        ensures engine { self.new.engine ≡ self.old.engine }
    {
        host.vouch();
        steps.start();
        self.stacks.cut_trace(0);
        let engine = self.engine.with_callbacks(callbacks);
        let context = Context {
            engine: &engine,
            program,
        };
        let mut run = Run {
            alloc,
            stacks: mem::replace(&mut self.stacks, Stacks::new(alloc)),
            scope: mem::replace(scope, Scope::new(alloc)),
            cells: mem::replace(cells, Store::new(alloc)),
            saved: mem::replace(&mut self.saved, SavedScopes::new(alloc)),
            count: global.num_operations,
            level: global.level,
            fault: EvalAltResult::Memory,
            stopped: Stopped {
                address: 0,
                floor: 0,
                slot: None,
            },
            waiting: None,
            receivers: Receivers::new(alloc),
            room: ArgumentRoom::new(alloc),
            host: PhantomData,
        };
        let back = run_main(&mut run, context, host, steps);
        let Run {
            alloc: _,
            stacks,
            scope: scope_after,
            cells: cells_after,
            saved,
            count,
            level,
            fault: _,
            receivers: _,
            stopped: _,
            waiting: _,
            room: _,
            host: _,
        } = run;
        self.stacks = stacks;
        self.saved = saved;
        *scope = scope_after;
        *cells = cells_after;
        global.num_operations = count;
        global.level = level;
        grain_means::one_meaning::<H>();
        grain_means::core_agrees::<H>();
        grain_means::counted::<H>();
        grain_means::contained::<H>();
        grain_means::provided::<H>();
        grain_means::catches::<H>();
        with_memory_fault(back)
    }
}

// Turns `OutOfMemory` into the fault `Memory`.
fn with_memory_fault(back: Result<RhaiResult, OutOfMemory>) -> RhaiResult
    ensures { result ≡ with_memory_fault back }
{
    match back {
        Ok(done) => done,
        Err(_) => Err(EvalAltResult::Memory),
    }
}
