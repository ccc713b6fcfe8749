//! One stack of operands for all frames, what else they have, and the trace of a fault.

ghost use Rattle.std.specs.Prelude.{◌≡◌, ◌<◌, ◌≤◌, ◌++◌, ◌∷◌, [], length, take, is_ok, if◌then◌else◌, All, true, false};
ghost use Rattle.grain_value.specs.Operands.{top, below, under, read_write, arguments, bound_entries};
ghost use Rattle.std.specs.Bool.{OnTrue};
ghost use Rattle.grain_stack.specs.Views.{StackFrame, IsBare, bare, no_frames, with_frame, without_frame, with_value, joined_frame};

mod frame_cursors;
mod frame_handlers;
mod frame_totals;
mod operands;

use crate::cursors::Cursor;
use crate::floors::{Floor, Floors};
use crate::frame_entries::FrameEntries;
use crate::handlers::Handler;
use crate::slots::Slots;
use crate::totals::Total;
use grain_fault::Fault;
use grain_value::{Dynamic, Held, List, Name, OutOfMemory, Scope};
use std::alloc::Global;
use std::marker::Model;

/// The operands, handlers, cursors and totals of all frames, and the trace of a fault. Every call but
/// `new`, `enter`, `enter_with_arguments`, `trace`, `cut_trace`, `put_trace` and `entered` acts on the
/// innermost frame.
#[derive(Drop)]
pub struct Stacks {
    slots: Slots,
    bottom: usize,
    room: usize,
    noted: bool,
    outer: Floors,
    handlers: FrameEntries<Handler>,
    cursors: FrameEntries<Cursor>,
    totals: FrameEntries<Total>,
    trace: Vec<Fault>,
    entered: u64,
}

impl Model for Stacks {
    ghost use Rattle.grain_stack.specs.Views.{StacksView};
    ghost use Rattle.std.specs.Coded.{codes};
    ghost use Rattle.grain_value.specs.laws.TreeCode.{coded_tree};

    ghost Value = { StacksView };

    ghost use Rattle.grain_fault.specs.contracts.faults.EvalAltResult as row;
    ghost use Rattle.grain_stack.specs.contracts.cursors.Cursor as cursor;

    ghost coded = { Prim.hlevel (codes, coded_tree, row.the_row.coded, cursor.the_row.coded) };

    ghost use Rattle.grain_stack.specs.Floors.{stacks_view, IsSound};

    ghost view = { stacks_view };

    ghost invariant = { IsSound };
}

impl Stacks {
    /// No frame is entered, and nothing is noted. It takes no memory.
    pub fn new(alloc: Global) -> Stacks
        ensures { result ≡ no_frames }
    {
        Stacks {
            slots: Slots::new(alloc),
            bottom: 0,
            room: 0,
            noted: false,
            outer: Floors::new(alloc),
            handlers: FrameEntries::new(alloc),
            cursors: FrameEntries::new(alloc),
            totals: FrameEntries::new(alloc),
            trace: Vec::new(alloc),
            entered: 0,
        }
    }

    /// Enters a frame without operands: makes room for `operands` of them and for one entry of the
    /// trace. After want of memory the stacks are as they were.
    #[inline(always)]
    pub fn enter(&mut self, operands: u16) -> Result<(), OutOfMemory>
        ensures { self.new ≡ (if is_ok result then with_frame operands self.old else self.old) }
    {
        let room = usize::from(operands);
        self.slots.reserve(room)?;
        self.trace.reserve(self.outer.len() + 1)?;
        self.outer.push(Floor {
            bottom: self.bottom,
            room: self.room,
            noted: self.noted,
        })?;
        self.bottom = self.slots.len();
        self.room = room;
        self.noted = false;
        self.entered = self.entered.saturating_add(1);
        Ok(())
    }

    /// Enters a frame as `enter` does, and moves the values of the last operands of the frame around
    /// it, as many as there are parameters, to the end of the scope, where they can be written and
    /// have the names of the pool at these indices. After want of memory the stacks and the scope
    /// are as they were.
    #[inline(always)]
    pub fn enter_with_arguments(
        &mut self,
        operands: u16,
        params: &[u32],
        names: &List<Name>,
        scope: &mut Scope,
    ) -> Result<(), OutOfMemory>
        requires there { length params.now ≤ length self.old.operands }
        requires named { All (λ n. n < length names.now) params.now }
        ensures scope { scope.new ≡ (if is_ok result
            then scope.old ++ bound_entries names.now params.now
            (arguments (length params.now) self.old.operands)
            else scope.old) }
        ensures frames { self.new ≡ (if is_ok result
            then with_frame operands (record self.old {
              operands = under (length params.now) self.old.operands;
            })
            else self.old) }
    {
        let room = usize::from(operands);
        let depth = self.outer.len();
        self.slots.reserve(room)?;
        self.trace.reserve(depth + 1)?;
        self.outer.push(Floor {
            bottom: self.bottom,
            room: self.room,
            noted: self.noted,
        })?;
        match self.slots.bind_arguments(params, names, scope) {
            Ok(()) => {}
            Err(e) => {
                self.outer.pop();
                return Err(e);
            }
        }
        let entered = self.entered.saturating_add(1);
        self.bottom = self.slots.len();
        self.room = room;
        self.noted = false;
        self.entered = entered;
        Ok(())
    }

    /// Leaves the innermost frame, whose operands go.
    #[inline(always)]
    pub fn leave(&mut self)
        requires entered { 0 < length self.old.outer }
        ensures { self.new ≡ without_frame self.old.outer self.old }
    {
        self.slots.truncate(self.bottom);
        self.drop_entries();
        self.join_frame();
    }

    /// Leaves the innermost frame, and gives the value of its last operand, or unit if it has none,
    /// to the frame around it, which has room for it.
    #[inline(always)]
    pub fn leave_with_value(&mut self)
        requires entered { 0 < length self.old.outer }
        requires room { (first : StackFrame) (others : List StackFrame)
            → self.old.outer ≡ first ∷ others → length first.operands < first.room }
        ensures { self.new ≡ with_value (top self.old.operands).value
            (without_frame self.old.outer self.old) }
    {
        self.keep_value();
        self.drop_entries();
        self.join_frame();
    }

    // The value of the frame's last operand, or unit if it has none, becomes its only operand.
    #[inline(always)]
    fn keep_value(&mut self)
        requires entered { 0 < length self.old.outer }
        requires room { (first : StackFrame) (others : List StackFrame)
            → self.old.outer ≡ first ∷ others → length first.operands < first.room }
        ensures { self.new ≡ record self.old {
          operands =
              read_write (top self.old.operands).value ∷ [];
        } }
    {
        if self.slots.len() - self.bottom == 1 {
            self.slots.make_read_write(self.bottom);
        } else {
            self.settle_value();
        }
    }

    // The same, however many operands the frame has.
    #[cold]
    #[inline(never)]
    fn settle_value(&mut self)
        requires entered { 0 < length self.old.outer }
        requires room { (first : StackFrame) (others : List StackFrame)
            → self.old.outer ≡ first ∷ others → length first.operands < first.room }
        ensures { self.new ≡ record self.old {
          operands =
              read_write (top self.old.operands).value ∷ [];
        } }
    {
        let value = self.take_value();
        self.slots.truncate(self.bottom);
        self.slots.push(Held::read_write(value));
    }

    // Takes the value of the frame's last operand, or gives unit if it has none.
    fn take_value(&mut self) -> Dynamic
        ensures value { result ≡ (top self.old.operands).value }
        ensures rest { self.new ≡ record self.old { operands = below self.old.operands } }
    {
        if self.slots.len() > self.bottom {
            return self.pop().value;
        }
        Dynamic::Unit
    }

    // The frame's handlers, cursors and totals go.
    #[inline(always)]
    fn drop_entries(&mut self)
        ensures { self.new ≡ bare self.old }
    {
        if !self.has_no_entries() {
            self.drop_entries_there();
        }
    }

    // Whether no frame has a handler, a cursor or a total, by one test.
    #[inline(always)]
    fn has_no_entries(&self) -> bool
        ensures { OnTrue result (IsBare self.now) }
    {
        (self.handlers.len() | self.cursors.len() | self.totals.len()) == 0
    }

    // The frame's handlers, cursors and totals go, where frames have some.
    #[cold]
    #[inline(never)]
    fn drop_entries_there(&mut self)
        ensures { self.new ≡ bare self.old }
    {
        self.cut_handlers(0);
        self.cut_cursors(0);
        self.cut_totals(0);
    }

    // The innermost frame, which has no handlers, cursors and totals, and the one around it become
    // one, with the operands of both.
    #[inline(always)]
    fn join_frame(&mut self)
        requires entered { 0 < length self.old.outer }
        requires bare { IsBare self.old }
        ensures { self.new ≡ joined_frame self.old.outer self.old }
    {
        let floor = self.outer.pop();
        self.bottom = floor.bottom;
        self.room = floor.room;
        self.noted = floor.noted;
    }

    /// Notes where a fault left the frame, which has noted none since it was entered.
    pub fn note(&mut self, fault: Fault)
        requires entered { 0 < length self.old.outer }
        requires first { self.old.noted ≡ false }
        ensures { self.new ≡
            record self.old { noted = true; trace = self.old.trace ++ fault ∷ [] } }
    {
        match self.trace.push(fault) {
            Ok(()) => {}
            Err(_) => unreachable!(),
        }
        self.noted = true;
    }

    /// Where faults left frames, in the order in which they were noted.
    pub fn trace(&self) -> &[Fault]
        ensures { result.now ≡ self.now.trace }
    {
        &self.trace
    }

    /// Keeps the first `n` entries of the trace.
    pub fn cut_trace(&mut self, n: usize)
        requires there { n ≤ length self.old.trace }
        ensures { self.new ≡ record self.old { trace = take n self.old.trace } }
    {
        self.trace.truncate(n);
    }

    /// Replaces the trace. After want of memory the stacks are as they were.
    pub fn put_trace(&mut self, trace: Vec<Fault>) -> Result<(), OutOfMemory>
        ensures { self.new ≡ (if is_ok result then record self.old { trace = trace.items }
            else self.old) }
    {
        let mut trace = trace;
        trace.reserve(self.outer.len() + 1)?;
        self.trace = trace;
        Ok(())
    }

    /// How often a frame was entered since `new`, at most `u64::MAX`.
    pub fn entered(&self) -> u64
        ensures { result ≡ self.now.entered }
    {
        self.entered
    }
}
