//! Instructions on the scope's entries.

ghost use Rattle.std.specs.Prelude.{◌≡◌, ◌<◌, ◌≤◌, ◌+◌, ◌++◌, ◌∷◌, [], ℕ, length, Ok, Some, IfOk, is_ok, is_some, true, if◌then◌else◌, slice_get};
ghost use Rattle.grain_value.specs.declared.values.Held.{Held};
ghost use Rattle.grain_value.specs.Scopes.{set_held};
ghost use Rattle.grain_value.specs.Cells.{flat, content, idle};
ghost use Rattle.grain_value.specs.Operands.{top, below, read_write};
ghost use Rattle.grain_program.specs.Indices.{InPools};
ghost use Rattle.grain_program.specs.View.{View, name_of};
ghost use Rattle.grain_global.specs.declared.engines.Engine.{Engine};
ghost use Rattle.grain_means.specs.Rules.{store_local, declare, flattened, shared, cell_written, onward, stepped, held_at};
ghost use Rattle.grain_means.specs.Means.{setup};
ghost use Rattle.grain_frame.specs.Abstraction.{frame_in, Implements, Performs, Ready, setup_of, moment};
ghost use Rattle.grain_value.specs.declared.values.Dynamic.TheVariants as dynamic;
ghost use Rattle.grain_program.specs.declared.code.instruction_set.Op.TheVariants as op;

use crate::activations::Activation;
use crate::contexts::Context;
use crate::runs::{Progress, Run};
use grain_fault::{EvalAltResult, MalformedKind, Position};
use grain_global::Steps;
use grain_host::Host;
use grain_value::{Dynamic, Held, OutOfMemory};
use std::mem;
use std::sync::ledger::Ledger;

impl<H: Host> Run<H> {
    // `load_local`: a copy of what the entry holds.
    #[inline(always)]
    pub(crate) fn load_local<L: Ledger>(
        &mut self,
        context: Context<'_>,
        steps: &mut Steps<L>,
        frame: &mut Activation,
        slot: u16,
        next: usize,
    ) -> Result<Progress, OutOfMemory>
        requires ready { Ready frame.old self.old (op.LoadLocal slot) next }
        ensures performs { (host : H) →
            Performs (setup_of H.law context.entry) (moment frame.old self.old steps.old host)
            (op.LoadLocal slot) next result (moment frame.new self.new steps.new host) }
    {
        let index = self.slot_index(frame, slot);
        match self.scope.get(index) {
            Some(held) => match held.value.flat(&self.cells) {
                Some(value) => {
                    self.stacks.push_copy(self.alloc, value)?;
                    frame.address = next;
                    steps.mark();
                    Ok(Progress::Continues)
                }
                None => self.data_race_at(context, steps, frame.address, index),
            },
            None => Ok(self.slot_past_scope(context, steps, frame.address, index)),
        }
    }

    // `load_shared`: a copy of what the entry holds, of which a cell stays a cell.
    pub(crate) fn load_shared<L: Ledger>(
        &mut self,
        context: Context<'_>,
        steps: &mut Steps<L>,
        frame: &mut Activation,
        slot: u16,
        next: usize,
    ) -> Result<Progress, OutOfMemory>
        requires ready { Ready frame.old self.old (op.LoadShared slot) next }
        ensures performs { (host : H) →
            Performs (setup_of H.law context.entry) (moment frame.old self.old steps.old host)
            (op.LoadShared slot) next result (moment frame.new self.new steps.new host) }
    {
        let index = self.slot_index(frame, slot);
        match self.scope.get(index) {
            Some(held) => {
                self.stacks.push_copy(self.alloc, &held.value)?;
                frame.address = next;
                steps.mark();
                Ok(Progress::Continues)
            }
            None => Ok(self.slot_past_scope(context, steps, frame.address, index)),
        }
    }

    // `share`: what the entry holds goes to a new cell, which the entry then is, unless it is one.
    pub(crate) fn share<L: Ledger>(
        &mut self,
        context: Context<'_>,
        steps: &mut Steps<L>,
        frame: &mut Activation,
        slot: u16,
        next: usize,
    ) -> Result<Progress, OutOfMemory>
        requires ready { Ready frame.old self.old (op.Share slot) next }
        ensures performs { (host : H) →
            Performs (setup_of H.law context.entry) (moment frame.old self.old steps.old host)
            (op.Share slot) next result (moment frame.new self.new steps.new host) }
    {
        let index = self.slot_index(frame, slot);
        let Some(held) = self.scope.get(index) else {
            return Ok(self.slot_past_scope(context, steps, frame.address, index));
        };
        match held.value.as_cell() {
            None => self.share_value(steps, frame, index, next),
            Some(_) => Ok(self.go_on(steps, frame, next)),
        }
    }

    // The same for an entry that is no cell.
    fn share_value<L: Ledger>(
        &mut self,
        steps: &mut Steps<L>,
        frame: &mut Activation,
        index: usize,
        next: usize,
    ) -> Result<Progress, OutOfMemory>
        requires inside { frame.old.base ≤ length self.old.scope }
        requires entry { index < length self.old.scope }
        requires ahead { frame.old.address < next }
        ensures implements { (program : View) (engine : Engine) (host : H) (h : Held) (slot : ℕ) →
            held_at self.old.scope index ≡ Some h → frame.old.base + slot ≡ index →
            Implements (setup H.law program engine) (moment frame.old self.old steps.old host)
            (λ m place w. shared m None h slot next (frame_in frame.old self.old place) w)
            (next ∷ []) 0 0 self.old.stacks.handlers result
            (moment frame.new self.new steps.new host) }
    {
        let cell = self.make_cell(index)?;
        steps.mark();
        self.scope.set(index, Held::read_write(Dynamic::Cell(cell)));
        steps.mark();
        frame.address = next;
        steps.mark();
        Ok(Progress::Continues)
    }

    // A new cell with what the entry at the index holds, in whose place unit stands. After want of
    // memory the entry is as it was.
    #[tactic(auto, using(grain_means::specs::lemmas::Scopes::length_set_held))]
    fn make_cell(&mut self, index: usize) -> Result<usize, OutOfMemory>
        requires entry { index < length self.old.scope }
        ensures number { IfOk result (λ n. n ≡ length self.old.cells) }
        ensures made { (h : Held) → held_at self.old.scope index ≡ Some h →
            self.new ≡ (if is_ok result
            then record self.old {
              scope = set_held self.old.scope index (read_write dynamic.Unit);
              cells = self.old.cells ++ idle h ∷ [];
            }
            else self.old) }
    {
        let held = match self.scope.get_mut(index) {
            Some(place) => mem::replace(place, Held::read_write(Dynamic::Unit)),
            None => unreachable!(),
        };
        match self.cells.add(held) {
            Ok(cell) => Ok(cell),
            Err((e, held)) => {
                self.scope.set(index, held);
                Err(e)
            }
        }
    }

    // `store_local`, `store_const` and `store_shared`, whose rows take and give the same: the last
    // operand into the entry, or into its cell, which can be written afterwards or can only be read.
    #[tactic(auto, using(grain_means::specs::lemmas::Scopes::length_set_held))]
    pub(crate) fn store<L: Ledger>(
        &mut self,
        context: Context<'_>,
        steps: &mut Steps<L>,
        frame: &mut Activation,
        slot: u16,
        read_only: bool,
        next: usize,
    ) -> Result<Progress, OutOfMemory>
        requires ready { Ready frame.old self.old (op.StoreLocal slot) next }
        ensures implements { (host : H) →
            Implements (setup_of H.law context.entry) (moment frame.old self.old steps.old host)
            (λ m place w. store_local m read_only slot next (frame_in frame.old self.old place) w)
            (next ∷ []) 1 0 self.old.stacks.handlers result
            (moment frame.new self.new steps.new host) }
    {
        let index = self.slot_index(frame, slot);
        let Some(held) = self.scope.get(index) else {
            return Ok(self.slot_past_scope(context, steps, frame.address, index));
        };
        match held.value.as_cell() {
            None => {
                let value = self.stacks.pop().value;
                self.scope.set(index, Held { value, read_only });
                steps.mark();
                frame.address = next;
                steps.mark();
                Ok(Progress::Continues)
            }
            Some(cell) => self.store_in_cell(context, steps, frame, cell, read_only, next),
        }
    }

    // The last operand, as it is read, into a cell.
    #[cold]
    #[inline(never)]
    fn store_in_cell<L: Ledger>(
        &mut self,
        context: Context<'_>,
        steps: &mut Steps<L>,
        frame: &mut Activation,
        cell: usize,
        read_only: bool,
        next: usize,
    ) -> Result<Progress, OutOfMemory>
        requires inside { frame.old.base ≤ length self.old.scope }
        requires operand { 0 < length self.old.stacks.operands }
        requires ahead { frame.old.address < next }
        ensures implements { (host : H) →
            Implements (setup_of H.law context.entry) (moment frame.old self.old steps.old host)
            (λ m place w. flattened m (top self.old.stacks.operands) []
            (frame_in frame.old self.old place) w (λ v. cell_written m (slice_get w.cells cell) cell
            (record { value = v; read_only = read_only }) [] (frame_in frame.old self.old place) w
            (onward m (frame_in frame.old self.old place)
            (stepped (frame_in frame.old self.old place) next (below self.old.stacks.operands)))))
            (next ∷ []) 1 0 self.old.stacks.handlers result
            (moment frame.new self.new steps.new host) }
    {
        if !self.is_readable() || self.cells.find(cell).is_none() {
            return self.data_race(context, steps, frame.address, "");
        }
        let value = self.take_flat()?;
        self.cells.set(cell, Held { value, read_only });
        steps.mark();
        frame.address = next;
        steps.mark();
        Ok(Progress::Continues)
    }

    // Whether the last operand is no cell that is lent.
    #[inline(always)]
    pub(crate) fn is_readable(&self) -> bool
        requires { 0 < length self.now.stacks.operands }
        ensures { result ≡ is_some (flat self.now.cells (top self.now.stacks.operands).value) }
    {
        self.stacks.top().value.flat(&self.cells).is_some()
    }

    // Takes the last operand, as it is read: of a cell, a copy of what it holds. After want of
    // memory all is as it was.
    #[inline(always)]
    pub(crate) fn take_flat(&mut self) -> Result<Dynamic, OutOfMemory>
        requires there { 0 < length self.old.stacks.operands }
        requires readable { is_some (flat self.old.cells (top self.old.stacks.operands).value)
            ≡ true }
        ensures value { IfOk result
            (λ v. flat self.old.cells (top self.old.stacks.operands).value ≡ Some v) }
        ensures rest { self.new ≡ (if is_ok result
            then record self.old {
              stacks = record self.old.stacks { operands = below self.old.stacks.operands };
            }
            else self.old) }
    {
        match self.stacks.top().value.as_cell() {
            None => Ok(self.stacks.pop().value),
            Some(cell) => {
                let value = self.copy_of_cell(cell)?;
                self.stacks.drop_top();
                Ok(value)
            }
        }
    }

    /// A copy of what a cell holds, which is there and not lent.
    #[cold]
    #[inline(never)]
    pub fn copy_of_cell(&self, cell: usize) -> Result<Dynamic, OutOfMemory>
        requires { is_some (content (slice_get self.now.cells cell)) ≡ true }
        ensures { IfOk result (λ v. content (slice_get self.now.cells cell) ≡ Some v) }
    {
        match self.cells.find(cell) {
            Some(value) => value.copy(self.alloc),
            None => unreachable!(),
        }
    }

    // `declare_local` and `declare_const`: one entry more, with the last operand, which can be
    // written or can only be read.
    pub(crate) fn declare<L: Ledger>(
        &mut self,
        context: Context<'_>,
        steps: &mut Steps<L>,
        frame: &mut Activation,
        name: u16,
        read_only: bool,
        next: usize,
    ) -> Result<Progress, OutOfMemory>
        requires ready { Ready frame.old self.old (op.DeclareLocal name) next }
        requires pools { InPools context.program.now (op.DeclareLocal name) }
        ensures implements { (host : H) →
            Implements (setup_of H.law context.entry) (moment frame.old self.old steps.old host)
            (λ m place w. declare m read_only (name_of m.program name) next
            (frame_in frame.old self.old place) w) (next ∷ []) 1 0 self.old.stacks.handlers result
            (moment frame.new self.new steps.new host) }
    {
        if !self.is_readable() {
            return self.data_race(context, steps, frame.address, "");
        }
        if self.scope.len() >= context.engine.limits.variables {
            return Ok(self.too_many_variables(context, steps, frame.address));
        }
        let name = context.program.names().at(usize::from(name));
        let value = self.take_flat()?;
        self.scope.push_shared(name, Held { value, read_only })?;
        steps.mark();
        frame.address = next;
        steps.mark();
        Ok(Progress::Continues)
    }

    // `unwind_to`: the scope is cut to `depth` entries above the frame's base.
    pub(crate) fn unwind_to<L: Ledger>(
        &mut self,
        context: Context<'_>,
        steps: &mut Steps<L>,
        frame: &mut Activation,
        depth: u16,
        next: usize,
    ) -> Progress
        requires ready { Ready frame.old self.old (op.UnwindTo depth) next }
        ensures performs { (host : H) →
            Performs (setup_of H.law context.entry) (moment frame.old self.old steps.old host)
            (op.UnwindTo depth) next (Ok result) (moment frame.new self.new steps.new host) }
    {
        let length = self.scope.len();
        let target = frame.base + usize::from(depth);
        if target > length {
            let kind = MalformedKind::UnwindPastScope { target, length };
            let fault = EvalAltResult::Malformed(kind, Position::NONE);
            return self.raise_at(context, steps, frame.address, fault);
        }
        self.scope.rewind(target);
        frame.address = next;
        steps.mark();
        Progress::Continues
    }

    // `checkpoint`: a fault cuts the scope no further than to its present length.
    pub(crate) fn checkpoint<L: Ledger>(
        &mut self,
        steps: &mut Steps<L>,
        frame: &mut Activation,
        next: usize,
    ) -> Progress
        requires ready { Ready frame.old self.old op.Checkpoint next }
        ensures performs { (program : View) (engine : Engine) (host : H) →
            Performs (setup H.law program engine) (moment frame.old self.old steps.old host)
            op.Checkpoint next (Ok result) (moment frame.new self.new steps.new host) }
    {
        frame.floor = self.scope.len();
        frame.address = next;
        steps.mark();
        Progress::Continues
    }

    /// The place of a slot in the scope.
    #[inline(always)]
    pub fn slot_index(&self, frame: &Activation, slot: u16) -> usize
        requires { frame.now.base ≤ length self.now.scope }
        ensures { result ≡ frame.now.base + slot }
    {
        // The scope is no longer than a `usize` says, so that the sum fits.
        let _length = self.scope.len();
        frame.base + usize::from(slot)
    }
}
