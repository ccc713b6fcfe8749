//! What a run has, but for its frame.

ghost use Rattle.std.specs.Prelude.{◌≡◌, ◌<◌, ◌+◌, nat_lt, true, if◌then◌else◌};
ghost use Rattle.grain_fault.specs.declared.faults.EvalAltResult.TheVariants as fault;

use crate::activations::Activation;
use crate::argument_room::ArgumentRoom;
use crate::receivers::Receivers;
use crate::saved::SavedScopes;
use crate::waiting::Waiting;
use grain_fault::EvalAltResult;
use grain_global::{Engine, Steps};
use grain_host::Host;
use grain_stack::Stacks;
use grain_value::{Scope, Store};
use std::alloc::Global;
use std::marker::PhantomData;
use std::mem;
use std::sync::ledger::Ledger;

/// What a run has, but for its frame: where it takes memory from, the stacks, the scope of the
/// running frame and those of the frames that wait for it, the cells, the operations and the level,
/// the fault that was raised in a frame, until it is taken up, and where that frame stopped, the `this`
/// of each frame that has one, an instruction that waits for a native, until that is gone on with, and room
/// for the arguments of natives.
/// What an instruction reads most comes first. The host, of type `H`, is lent to those functions alone that reach it.
#[derive(Drop)]
pub struct Run<H> {
    pub alloc: Global,
    pub scope: Scope,
    pub count: u64,
    pub level: usize,
    pub stacks: Stacks,
    pub saved: SavedScopes,
    pub cells: Store,
    pub fault: EvalAltResult,
    pub receivers: Receivers,
    pub stopped: Stopped,
    pub waiting: Option<Waiting>,
    pub room: ArgumentRoom,
    pub host: PhantomData<H>,
}

/// Where a frame stopped. It means nothing before a frame of the run has stopped by a fault.
#[derive(Clone, Copy, Debug, PartialEq, Eq)]
pub struct Stopped {
    /// The address of the instruction.
    pub address: usize,
    /// The frame's floor.
    pub floor: usize,
    /// The slot of the step that is blamed, if one is.
    pub slot: Option<u32>,
}

/// Where an instruction leads: on in its frame, or out of it. A frame's value is its last operand,
/// and a fault lies in the run, so that nothing large is moved.
#[derive(Clone, Copy, Debug, PartialEq, Eq)]
pub enum Progress {
    /// The frame goes on.
    Continues,
    /// The frame is over, and gives its last operand, or unit if it has none.
    Returned,
    /// A fault is raised in the frame. It lies in the run.
    Failed,
}

impl<H: Host> Run<H> {
    /// Takes an operation, if one is left.
    pub fn take_operation(&mut self, engine: &Engine) -> bool
        ensures answer { result ≡ nat_lt self.old.count engine.now.limits.operations }
        ensures taken { result ≡ true → (self.new.count ≡ self.old.count + 1) ×
            (self.old.count < engine.now.limits.operations) }
        ensures after { self.new ≡
            (if result then record self.old { count = self.old.count + 1 } else self.old) }
    {
        if self.count < engine.limits.operations {
            self.count += 1;
            true
        } else {
            false
        }
    }

    /// Puts a fault into the run, without a mark.
    #[cold]
    pub fn raise_unmarked(&mut self, fault: EvalAltResult) -> Progress
        ensures progress { result ≡ Progress.Failed }
        ensures after { self.new ≡ record self.old { fault = fault } }
    {
        self.fault = fault;
        Progress::Failed
    }

    /// Raises a fault in the frame: a mark is passed, and the fault lies in the run.
    #[cold]
    pub fn raise<L: Ledger>(&mut self, steps: &mut Steps<L>, fault: EvalAltResult) -> Progress
        ensures progress { result ≡ Progress.Failed }
        ensures after { self.new ≡ record self.old { fault = fault } }
        ensures marked { steps.new ≡ record steps.old { passed = steps.old.passed + 1 } }
    {
        steps.mark();
        self.raise_unmarked(fault)
    }

    /// Notes where the frame stopped in which a fault was raised.
    #[inline(always)]
    pub fn note_stop(&mut self, frame: &Activation)
        ensures { self.new ≡ record self.old {
          stopped = record {
            address = frame.now.address;
            floor = frame.now.floor;
            slot = frame.now.slot;
          };
        } }
    {
        self.stopped = Stopped {
            address: frame.address,
            floor: frame.floor,
            slot: frame.slot,
        };
    }

    /// Takes the fault that lies in the run. `Memory` is left in its place.
    pub fn take_fault(&mut self) -> EvalAltResult
        ensures value { result ≡ self.old.fault }
        ensures after { self.new ≡ record self.old { fault = fault.Memory } }
    {
        mem::replace(&mut self.fault, EvalAltResult::Memory)
    }
}
