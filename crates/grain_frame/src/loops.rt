//! Loops over the items of a value, and transfers by a table of cases.

ghost use Rattle.std.specs.Prelude.{◌≡◌, ◌<◌, ◌≤◌, ◌+◌, ◌-◌, ◌∷◌, [], ℕ, ℤ, pos, ◌+ℤ◌, List, length, Option, Some, None, Ok, IfOk, MatchOption, is_some, is_none, true, false, if◌then◌else◌};
ghost use Rattle.grain_value.specs.Cells.{flat};
ghost use Rattle.grain_value.specs.Items.{items_of};
ghost use Rattle.grain_value.specs.Operands.{read_write};
ghost use Rattle.grain_value.specs.Tree.{Tree};
ghost use Rattle.grain_fault.specs.Problems.{Plain, Arithmetic};
ghost use Rattle.grain_ops.specs.Calculations.{fits64};
ghost use Rattle.grain_program.specs.Indices.{InPools};
ghost use Rattle.grain_program.specs.Shapes.{arrival, shape};
ghost use Rattle.grain_program.specs.View.{View, position_of};
ghost use Rattle.grain_global.specs.declared.engines.Engine.{Engine};
ghost use Rattle.grain_stack.specs.Entries.{first_of};
ghost use Rattle.grain_means.specs.Worlds.{Setup, Place, World, Act};
ghost use Rattle.grain_means.specs.Rules.{iter_next, loop_left, count_stored, item_given, counter_text, offered};
ghost use Rattle.grain_means.specs.Means.{setup};
ghost use Rattle.grain_means.specs.Simulation.{SimulatesExactly};
ghost use Rattle.grain_frame.specs.Abstraction.{abstraction, is_out, charge_continuation, frame_in, tries_in, CanBegin, Performs, Raises, Ready, setup_of, moment};
ghost use Rattle.grain_frame.specs.Looping.{ImplementsLoop, PerformsLoop, arrivals_of, CountResult, TakesItem, first_items, next_is_lent};
ghost use Rattle.grain_program.specs.declared.code.instruction_set.Op.TheVariants as op;

use crate::activations::Activation;
use crate::contexts::Context;
use crate::runs::{Progress, Run};
use grain_fault::{EvalAltResult, Position};
use grain_global::Steps;
use grain_host::Host;
use grain_stack::Cursor;
use grain_value::{Dynamic, Held, OutOfMemory, Text};
use std::alloc::Global;
use std::sync::ledger::Ledger;

impl<H: Host> Run<H> {
    // `iter_init`: a loop over the items of the last operand.
    pub(crate) fn iter_init<L: Ledger>(
        &mut self,
        context: Context<'_>,
        steps: &mut Steps<L>,
        frame: &mut Activation,
        next: usize,
    ) -> Result<Progress, OutOfMemory>
        requires ready { Ready frame.old self.old op.IterInit next }
        ensures performs { (host : H) →
            PerformsLoop (setup_of H.law context.entry) (moment frame.old self.old steps.old host)
            op.IterInit next result (moment frame.new self.new steps.new host) }
    {
        let Some(value) = self.stacks.top().value.flat(&self.cells) else {
            return self.data_race(context, steps, frame.address, "");
        };
        if !has_items(value) {
            let fault = EvalAltResult::ErrorFor(Position::NONE);
            return Ok(self.raise_at(context, steps, frame.address, fault));
        }
        let operand = self.take_flat()?;
        let Ok(cursor) = Cursor::over(operand) else {
            unreachable!();
        };
        self.stacks.push_cursor(cursor)?;
        frame.address = next;
        steps.mark();
        Ok(Progress::Continues)
    }

    // `iter_drop`: the innermost loop is left.
    pub(crate) fn iter_drop<L: Ledger>(
        &mut self,
        steps: &mut Steps<L>,
        frame: &mut Activation,
        next: usize,
    ) -> Progress
        requires ready { Ready frame.old self.old op.IterDrop next }
        requires there { 0 < length self.old.stacks.cursors }
        ensures performs { (program : View) (engine : Engine) (host : H) →
            PerformsLoop (setup H.law program engine) (moment frame.old self.old steps.old host)
            op.IterDrop next (Ok result) (moment frame.new self.new steps.new host) }
    {
        let _cursor = self.stacks.pop_cursor();
        frame.address = next;
        steps.mark();
        Progress::Continues
    }

    // `iter_next` and `iter_next_indexed`: the next item of the innermost loop, whose count goes to the
    // entry of a slot, if there is one. A loop that has none left is left by a transfer.
    pub(crate) fn iter_next<L: Ledger>(
        &mut self,
        context: Context<'_>,
        host: &mut H,
        steps: &mut Steps<L>,
        frame: &mut Activation,
        target: u32,
        slot: Option<u16>,
        next: usize,
    ) -> Result<Progress, OutOfMemory>
        requires ready { Ready frame.old self.old (op.IterNext target) next }
        requires there { 0 < length self.old.stacks.cursors }
        ensures implements { ImplementsLoop (setup_of H.law context.entry)
            (moment frame.old self.old steps.old host.old)
            (λ m place w. iter_next m target slot next (frame_in frame.old self.old place) w)
            (arrivals_of context.entry.program.now (op.IterNext target) next self.old) 0 result
            (moment frame.new self.new steps.new host.new) }
    {
        let Some(cursor) = self.stacks.innermost_cursor() else {
            unreachable!();
        };
        if cursor.is_over() {
            return self.leave_loop(context, host, steps, frame, target as usize);
        }
        let counter = cursor.counter;
        match next_count(counter) {
            Some(count) => self.next_counted(context, steps, frame, slot, count, next),
            None => self.counter_overflow(context, steps, frame.address, counter),
        }
    }

    // A loop that has no item left is left by a transfer. To an address that does not lie ahead it costs
    // an operation.
    fn leave_loop<L: Ledger>(
        &mut self,
        context: Context<'_>,
        host: &mut H,
        steps: &mut Steps<L>,
        frame: &mut Activation,
        target: usize,
    ) -> Result<Progress, OutOfMemory>
        requires inside { frame.old.base ≤ length self.old.scope }
        requires there { 0 < length self.old.stacks.cursors }
        ensures implements { ImplementsLoop (setup_of H.law context.entry)
            (moment frame.old self.old steps.old host.old)
            (λ m place w. loop_left m target (frame_in frame.old self.old place) w)
            (arrival target (shape (length self.old.stacks.operands)
            (length self.old.stacks.cursors - 1) (tries_in self.old.stacks.handlers)) ∷ []) 0 result
            (moment frame.new self.new steps.new host.new) }
    {
        if target > frame.address {
            let _cursor = self.stacks.pop_cursor();
            frame.address = target;
            steps.mark();
            return Ok(Progress::Continues);
        }
        if !self.charge(context, host, steps, frame.address)? {
            return Ok(Progress::Failed);
        }
        let _cursor = self.stacks.pop_cursor();
        frame.address = target;
        steps.mark();
        Ok(Progress::Continues)
    }

    // The count of a loop passes 64 bits: this was the last that fits.
    #[cold]
    #[inline(never)]
    fn counter_overflow<L: Ledger>(
        &mut self,
        context: Context<'_>,
        steps: &mut Steps<L>,
        address: usize,
        counter: i64,
    ) -> Result<Progress, OutOfMemory>
        ensures { Raises self.old steps.old
            (Plain (Arithmetic (counter_text counter))
            (position_of context.entry.program.now address)) result self.new steps.new }
    {
        let text = counter_text(self.alloc, counter)?;
        let fault = EvalAltResult::ErrorArithmetic(text, Position::NONE);
        Ok(self.raise_at(context, steps, address, fault))
    }

    // The count goes to the entry of a slot, if there is one, and then the next item is given.
    fn next_counted<L: Ledger>(
        &mut self,
        context: Context<'_>,
        steps: &mut Steps<L>,
        frame: &mut Activation,
        slot: Option<u16>,
        count: i64,
        next: usize,
    ) -> Result<Progress, OutOfMemory>
        requires begins { CanBegin frame.old self.old 0 1 next }
        requires there { 0 < length self.old.stacks.cursors }
        requires more { is_none (first_of (first_items self.old.stacks.cursors)) ≡ false }
        ensures implements { (target : ℕ) (t : Tree) (ts : List Tree) →
            first_items self.old.stacks.cursors ≡ t ∷ ts → (host : H) →
            ImplementsLoop (setup_of H.law context.entry)
            (moment frame.old self.old steps.old host)
            (λ m place w. count_stored m slot count (frame_in frame.old self.old place) w
            (item_given m t ts count next (frame_in frame.old self.old place)))
            (arrivals_of context.entry.program.now (op.IterNext target) next self.old) 0 result
            (moment frame.new self.new steps.new host) }
    {
        if !self.store_count(context, steps, frame, slot, count)? {
            return Ok(Progress::Failed);
        }
        self.give_item(context, steps, frame, count, next)
    }

    // The count of a loop goes to the entry of a slot, or to the cell that the entry is, if there is a
    // slot. It says whether the frame goes on; if not, a fault is raised.
    #[tactic(auto, using(grain_means::specs::lemmas::Scopes::length_set_held))]
    fn store_count<L: Ledger>(
        &mut self,
        context: Context<'_>,
        steps: &mut Steps<L>,
        frame: &Activation,
        slot: Option<u16>,
        count: i64,
    ) -> Result<bool, OutOfMemory>
        requires inside { frame.now.base ≤ length self.old.scope }
        ensures same { (host : H) (go : Setup H → Option Place → World H → Act H) →
            SimulatesExactly (setup_of H.law context.entry) (abstraction self.old steps.old host)
            (λ m place w. count_stored m slot count (frame_in frame.now self.old place) w
            (go m place))
            (is_out result) (abstraction self.new steps.new host)
            (charge_continuation result self.new.fault (frame_in frame.now self.new) go
            (λ m place x w. offered m (frame_in frame.now self.new place) x w)) }
        ensures run { CountResult self.old self.new }
        ensures before { steps.new.before ≡ steps.old.before }
    {
        let Some(slot) = slot else {
            return Ok(true);
        };
        let index = self.slot_index(frame, slot);
        let Some(held) = self.scope.get(index) else {
            self.slot_past_scope(context, steps, frame.address, index);
            return Ok(false);
        };
        let counted = Held::read_write(Dynamic::Int(count));
        match held.value.as_cell() {
            None => {
                self.scope.set(index, counted);
                steps.mark();
                Ok(true)
            }
            Some(cell) => {
                if self.cells.find(cell).is_none() {
                    self.data_race(context, steps, frame.address, "")?;
                    return Ok(false);
                }
                self.cells.set(cell, counted);
                steps.mark();
                Ok(true)
            }
        }
    }

    // The next item of the innermost loop, as it is read, is the last operand, and the loop has this
    // count.
    fn give_item<L: Ledger>(
        &mut self,
        context: Context<'_>,
        steps: &mut Steps<L>,
        frame: &mut Activation,
        count: i64,
        next: usize,
    ) -> Result<Progress, OutOfMemory>
        requires begins { CanBegin frame.old self.old 0 1 next }
        requires there { 0 < length self.old.stacks.cursors }
        requires more { is_none (first_of (first_items self.old.stacks.cursors)) ≡ false }
        ensures implements { (target : ℕ) (t : Tree) (ts : List Tree) →
            first_items self.old.stacks.cursors ≡ t ∷ ts → (host : H) →
            ImplementsLoop (setup_of H.law context.entry)
            (moment frame.old self.old steps.old host)
            (λ m place w. item_given m t ts count next (frame_in frame.old self.old place) w)
            (arrivals_of context.entry.program.now (op.IterNext target) next self.old) 0 result
            (moment frame.new self.new steps.new host) }
    {
        if self.is_next_lent() {
            return self.data_race(context, steps, frame.address, "");
        }
        let item = self.take_item(count);
        let value = self.flat_value(item)?;
        self.stacks.push(Held::read_write(value));
        frame.address = next;
        steps.mark();
        Ok(Progress::Continues)
    }

    // Whether the next item of the innermost loop is a cell that is lent.
    fn is_next_lent(&self) -> bool
        requires there { 0 < length self.now.stacks.cursors }
        ensures { result ≡ next_is_lent self.now }
    {
        match self.stacks.innermost_cursor() {
            Some(cursor) => match cursor.first_cell() {
                Some(cell) => self.cells.find(cell).is_none(),
                None => false,
            },
            None => unreachable!(),
        }
    }

    // Takes the next item of the innermost loop, which has this count from then on.
    fn take_item(&mut self, count: i64) -> Dynamic
        requires there { 0 < length self.old.stacks.cursors }
        requires more { is_none (first_of (first_items self.old.stacks.cursors)) ≡ false }
        ensures { TakesItem self.old self.new result count }
    {
        let cursor = self.stacks.cursor_mut();
        match cursor.next() {
            Some(item) => {
                cursor.counter = count;
                item
            }
            None => unreachable!(),
        }
    }

    // A value as it is read: of a cell, which is there and not lent, a copy of what it holds.
    pub(crate) fn flat_value(&self, value: Dynamic) -> Result<Dynamic, OutOfMemory>
        requires { is_some (flat self.now.cells value) ≡ true }
        ensures { IfOk result (λ v. flat self.now.cells value ≡ Some v) }
    {
        match value.as_cell() {
            None => Ok(value),
            Some(cell) => self.copy_of_cell(cell),
        }
    }

    // `switch`: a transfer to the target that a switch has for the last operand, which stays.
    pub(crate) fn switch_on<L: Ledger>(
        &mut self,
        context: Context<'_>,
        host: &mut H,
        steps: &mut Steps<L>,
        frame: &mut Activation,
        index: u16,
        next: usize,
    ) -> Result<Progress, OutOfMemory>
        requires ready { Ready frame.old self.old (op.Switch index) next }
        requires pools { InPools context.program.now (op.Switch index) }
        ensures performs { Performs (setup_of H.law context.entry)
            (moment frame.old self.old steps.old host.old) (op.Switch index) next result
            (moment frame.new self.new steps.new host.new) }
    {
        // Only the contract names it.
        let _next = next;
        let Some(value) = self.stacks.top().value.flat(&self.cells) else {
            return self.data_race(context, steps, frame.address, "");
        };
        let switch = context.program.switch(u32::from(index));
        let target = switch.target_of(value);
        self.jump_to(context, host, steps, frame, target as usize)
    }
}

// Whether a loop can go over the items of the value.
fn has_items(value: &Dynamic) -> bool
    ensures { result ≡ is_some (items_of value.now) }
{
    matches!(
        value,
        Dynamic::Text(_) | Dynamic::Array(_) | Dynamic::Blob(_) | Dynamic::Range { .. }
    )
}

// The count after this one, if it fits 64 bits.
fn next_count(counter: i64) -> Option<i64>
    ensures { MatchOption result (fits64 (counter +ℤ pos 1) ≡ false)
        (λ count. (count ≡ counter +ℤ pos 1) × (fits64 (counter +ℤ pos 1) ≡ true)) }
{
    counter.checked_add(1)
}

// The text of the fault that the count of a loop passes 64 bits.
fn counter_text(alloc: Global, counter: i64) -> Result<Text, OutOfMemory>
    ensures { IfOk result (λ text. text ≡ counter_text counter) }
{
    let mut text = Text::copy_of(alloc, "for-loop counter overflow: ")?;
    text.push_integer(counter)?;
    Ok(text)
}
